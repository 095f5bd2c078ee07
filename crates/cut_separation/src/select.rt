// Which of the cuts that were found are taken: the most missed, none of them almost parallel to another.
use crate::trial::Found;
use basis_factor::{at, put};
use std::alloc::{AllocError, Global};
use std::num::nearest_i64_to_f64;

// The square of the greatest cosine of two cuts.
const PARALLEL: f64 = 0.81;

/// Takes cuts in order, at most so many, of so many variables.
pub fn take_apart(
    alloc: Global,
    found: &mut [Found],
    most: usize,
    vars: usize,
) -> Result<(), AllocError> {
    let mut numbers = Vec::from_elem(alloc, 0.0, vars)?;
    let numbers = numbers.as_mut_slice();
    let mut taken: usize = 0;
    for k in 0..found.len() {
        if taken >= most {
            break;
        }
        scatter(numbers, &found[k], true);
        let square = found[k].square;
        let is_parallel = is_parallel_to_one(numbers, square, found);
        scatter(numbers, &found[k], false);
        if !is_parallel {
            found[k].is_taken = true;
            taken = taken.saturating_add(1);
        }
    }
    Ok(())
}

// Writes a cut's coefficients by variable, or 0 in their places.
fn scatter(numbers: &mut [f64], cut: &Found, is_there: bool) {
    for coef in &cut.coefs {
        let number = if is_there {
            nearest_i64_to_f64(coef.1)
        } else {
            0.0
        };
        put(numbers, coef.0 as usize, number);
    }
}

// Whether a cut, whose coefficients are given by variable and the square of their length, is almost parallel to one
// of others that are taken.
fn is_parallel_to_one(numbers: &[f64], square: f64, others: &[Found]) -> bool {
    for other in others {
        if other.is_taken {
            let product = product_with(numbers, other);
            if product * product > PARALLEL * square * other.square {
                return true;
            }
        }
    }
    false
}

// The product of coefficients by variable with those of a cut.
fn product_with(numbers: &[f64], cut: &Found) -> f64 {
    let mut sum = 0.0;
    for coef in &cut.coefs {
        sum += nearest_i64_to_f64(coef.1) * at(numbers, coef.0 as usize);
    }
    sum
}
