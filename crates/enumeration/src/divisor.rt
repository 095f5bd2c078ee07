// Rows whose sides lie between neighbouring multiples of a common divisor of their coefficients: no whole numbers meet them.
ghost use Rattle.std.specs.Prelude.{◌≡◌, ◌<◌, ◌↔◌, ◌+ℤ◌, ◌*ℤ◌, ◌≤ℤ◌, ◌<ℤ◌, ℤ, pos, unsigned_abs, IsTrue, All};
ghost use Rattle.std.specs.Int.{IsGcd};
ghost use Rattle.enumeration.specs.Divisors.{IsGreatestDivisor, HasMultiple, RowAllowsMultiples, LackMultiples};

use crate::moves::reaches;
use bp_theory::{Row, Sense, Term};

/// The greatest common divisor of two numbers, by Euclid's algorithm.
fn common_divisor(a: u64, b: u64) -> u64
    ensures { IsGcd a b result }
{
    let mut x = a;
    let mut y = b;
    while y != 0 {
        let rest = x % y;
        x = y;
        y = rest;
    }
    x
}

/// The magnitude of a number.
fn magnitude(number: &i64) -> u64
    ensures { result ≡ unsigned_abs number.now }
{
    number.unsigned_abs()
}

/// The greatest common divisor of the coefficients of terms, 0 where each is 0.
fn divisor_of(terms: &[Term]) -> u64
    ensures { IsGreatestDivisor terms.now result }
{
    let mut divisor = 0;
    for term in terms {
        divisor = common_divisor(divisor, magnitude(&term.coef));
    }
    divisor
}

/// The greatest multiple of a divisor that is at most a side.
fn multiple_below(divisor: u64, side: &i64) -> i128
    requires some { 0 < divisor }
    ensures multiple { (k : ℤ) × (result ≡ pos divisor *ℤ k) }
    ensures below { result ≤ℤ side.now }
    ensures close { side.now <ℤ (result +ℤ pos divisor) }
{
    let wide = i128::from(*side);
    wide - wide.rem_euclid(i128::from(divisor))
}

/// Whether 0 lies between two sides.
fn has_zero(low: &i64, rhs: &i64) -> bool
    ensures { IsTrue result ↔ ((low.now ≤ℤ pos 0) × (pos 0 ≤ℤ rhs.now)) }
{
    *low <= 0 && 0 <= *rhs
}

/// Whether a multiple of a divisor lies between two sides.
fn has_multiple(divisor: u64, low: &i64, rhs: &i64) -> bool
    ensures { IsTrue result ↔ HasMultiple divisor low.now rhs.now }
{
    if divisor == 0 {
        return has_zero(low, rhs);
    }
    let multiple = multiple_below(divisor, rhs);
    reaches(&multiple, low)
}

/// Whether each common divisor of a row's coefficients has a multiple between its sides, where it has two.
fn allows_multiples(row: &Row) -> bool
    ensures { IsTrue result ↔ RowAllowsMultiples row.now }
{
    match row.sense {
        Sense::Le | Sense::Ge => true,
        Sense::Eq | Sense::In => {
            has_multiple(divisor_of(row.terms.as_slice()), &row.low, &row.rhs)
        }
    }
}

/// Whether each common divisor of a row's coefficients has a multiple between its sides, for each row with two sides.
fn allow_multiples(rows: &[Row]) -> bool
    ensures { IsTrue result ↔ All RowAllowsMultiples rows.now }
{
    rows.iter().all(|row| allows_multiples(row))
}

/// Whether the two sides of a row lie between neighbouring multiples of a common divisor of its coefficients.
pub fn lack_multiples(rows: &[Row]) -> bool
    ensures { IsTrue result ↔ LackMultiples rows.now }
{
    !allow_multiples(rows)
}
