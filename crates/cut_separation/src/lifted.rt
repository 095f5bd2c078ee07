// Cuts from single rows over their coefficients (G. Cornuejols and M. Dawande, A class of hard small 0-1 programs,
// 1999, use such of knapsacks): to a multiple of a row those equations with coefficients 1 and -1 are added that
// leave least to be lost by rounding, so that a variable near its upper end counts as the rest of its equation.
use crate::numbers::remainder;
use crate::state::{Fit, Side, State};
use crate::trial::Trial;
use bp_theory::Term;
use std::alloc::{AllocError, Global};
use std::num::nearest_i64_to_f64;

// How many divisors of a row are tried, the greatest first, and which multiples of the row.
const MOST_DIVISORS: usize = 12;

const MULTIPLES: [i64; 6] = [1, -1, 2, -2, 3, -3];

const GREATEST: u64 = 1 << 20;

// How far above the lower end of its span a value counts.
const NOTHING: f64 = 1e-6;

// By how much a loss is to be smaller.
const SMALLER: f64 = 1e-9;

// An equation with coefficients 1 and -1.
#[derive(Drop)]
struct Equation {
    // Its place among the rows.
    row: u32,
    // Its terms whose variables are above the lower ends of their spans.
    terms: Vec<Term>,
}

/// Tries the rows that aren't such equations themselves.
pub fn try_lifted(alloc: Global, state: &State, trial: &mut Trial) -> Result<(), AllocError> {
    let equations = equations_of(alloc, state)?;
    for row in 0..state.rows() {
        if trial.is_spent() {
            break;
        }
        if let Some((side, terms)) = state.sided(row) {
            if !is_equation(&side, terms) {
                try_row(alloc, state, equations.as_slice(), row, side, terms, trial);
            }
        }
    }
    Ok(())
}

// The equations with coefficients 1 and -1.
fn equations_of(alloc: Global, state: &State) -> Result<Vec<Equation>, AllocError> {
    let mut equations = Vec::new(alloc);
    for row in 0..state.rows() {
        if let Some((side, terms)) = state.sided(row) {
            if is_equation(&side, terms) {
                let terms = standing(alloc, state, terms)?;
                equations.push(Equation { row, terms })?;
            }
        }
    }
    Ok(equations)
}

// Whether a row is an equation with coefficients 1 and -1.
fn is_equation(side: &Side, terms: &[Term]) -> bool {
    side.fit == Fit::Either && terms.iter().all(is_unit)
}

// Whether a coefficient is 1 or -1.
fn is_unit(term: &Term) -> bool {
    term.coef == 1 || term.coef == -1
}

// The terms whose variables are above the lower ends of their spans.
fn standing(alloc: Global, state: &State, terms: &[Term]) -> Result<Vec<Term>, AllocError> {
    let mut standing = Vec::new(alloc);
    for term in terms {
        if state.above(term.var) > NOTHING {
            standing.push(*term)?;
        }
    }
    Ok(standing)
}

// Tries a row over its coefficients.
fn try_row(
    alloc: Global,
    state: &State,
    equations: &[Equation],
    row: u32,
    side: Side,
    terms: &[Term],
    trial: &mut Trial,
) {
    let Ok(divisors) = divisors_of(alloc, state, terms) else {
        trial.fall_short();
        return;
    };
    for q in &divisors {
        for mult in MULTIPLES {
            if side.admits(mult) {
                try_multiple(alloc, state, equations, row, mult, *q, trial);
            }
        }
    }
}

// Tries a multiple of a row over a divisor.
fn try_multiple(
    alloc: Global,
    state: &State,
    equations: &[Equation],
    row: u32,
    mult: i64,
    q: u32,
    trial: &mut Trial,
) {
    trial.clear();
    trial.add(state, row, mult);
    lift(state, equations, q, trial);
    trial.judge(alloc, state, q);
}

// The greatest magnitudes of coefficients of variables that are above the lower ends of their spans.
fn divisors_of(alloc: Global, state: &State, terms: &[Term]) -> Result<Vec<u32>, AllocError> {
    let mut sizes: Vec<u32> = Vec::new(alloc);
    for term in terms {
        let size = term.coef.unsigned_abs();
        if size > 1 && size <= GREATEST && state.above(term.var) > NOTHING {
            sizes.push(size as u32)?;
        }
    }
    sizes.sort_unstable();
    sizes.dedup();
    sizes.reverse();
    sizes.truncate(MOST_DIVISORS);
    Ok(sizes)
}

// Adds equations to a combination, one by one, where less is then lost when it is divided and rounded.
fn lift(state: &State, equations: &[Equation], q: u32, trial: &mut Trial) {
    for equation in equations {
        let terms = equation.terms.as_slice();
        let mult = best_mult(state, terms, trial, q);
        trial.spend(terms.len().saturating_mul(terms.len()));
        if mult != 0 {
            trial.add(state, equation.row, mult);
        }
    }
}

// The multiplier of an equation at which least is lost.
fn best_mult(state: &State, terms: &[Term], trial: &Trial, q: u32) -> i64 {
    let mut best = 0;
    let mut least = loss(state, terms, trial, q, 0);
    if least < SMALLER {
        return 0;
    }
    for term in terms {
        let sum = trial.sum(term.var).saturating_mul(term.coef);
        let up = remainder(sum.saturating_neg(), q);
        if up != 0 {
            for mult in [up, up.saturating_sub(i64::from(q))] {
                let next = loss(state, terms, trial, q, mult);
                if next < least - SMALLER {
                    least = next;
                    best = mult;
                }
            }
        }
    }
    best
}

// What is lost at the values when coefficients are rounded up to multiples of a divisor, an equation times a multiplier added.
fn loss(state: &State, terms: &[Term], trial: &Trial, q: u32, mult: i64) -> f64 {
    let mut lost = 0.0;
    for term in terms {
        let more = term.coef.saturating_mul(mult);
        let sum = trial.sum(term.var).saturating_add(more);
        let rest = remainder(sum.saturating_neg(), q);
        lost += nearest_i64_to_f64(rest) * state.above(term.var);
    }
    lost
}
