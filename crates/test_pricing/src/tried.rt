// All points tried.
use crate::ask::{Found, Kind, asked};
use crate::problem::{Line, Problem};
use bp_theory::{Sense, Span};
use pricing_problem::{Cap, Priced};
use std::alloc::{AllocError, Global};

/// Whether a pricer answers to a problem what all points tried give.
pub fn agrees(alloc: Global, kind: Kind, problem: &Problem, cap: Cap) -> Result<bool, AllocError> {
    let found = asked(alloc, kind, problem, cap)?;
    Ok(is_least(problem, &found, least_of_all(problem)))
}

// Whether an answer is the least cost, if any, with a point of that cost.
fn is_least(problem: &Problem, found: &Found, least: Option<i128>) -> bool {
    match (found, least) {
        (Found::Answer(Priced::Least(cost), point), Some(least)) => {
            *cost == least && is_point(problem, point) && cost_of(&problem.costs, point) == least
        }
        (Found::Answer(Priced::Nothing, _), None) => true,
        _ => false,
    }
}

// The least cost of all points of a zone that has at most six numbers of each variable, each tried.
fn least_of_all(problem: &Problem) -> Option<i128> {
    let zone = &problem.zone;
    let mut x = [zone[0].lo, zone[1].lo, zone[2].lo, zone[3].lo];
    let mut best: Option<i128> = None;
    for _ in 0..1296 {
        if is_point(problem, &x) {
            best = lesser(best, cost_of(&problem.costs, &x));
        }
        if !step(&mut x, zone) {
            return best;
        }
    }
    best
}

// Takes the next numbers of a zone, the first variable's fastest. Tells whether there are any.
fn step(x: &mut [i64; 4], zone: &[Span; 4]) -> bool {
    for k in 0..4 {
        if x[k] < zone[k].hi {
            x[k] = x[k].wrapping_add(1);
            return true;
        }
        x[k] = zone[k].lo;
    }
    false
}

// The lesser of a cost that may be known and another.
fn lesser(best: Option<i128>, cost: i128) -> Option<i128> {
    match best {
        Some(least) if least <= cost => best,
        _ => Some(cost),
    }
}

// Whether numbers are a point of a problem's zone.
fn is_point(problem: &Problem, x: &[i64; 4]) -> bool {
    for k in 0..4 {
        if x[k] < problem.zone[k].lo || problem.zone[k].hi < x[k] {
            return false;
        }
    }
    for k in 0..3 {
        if k < problem.rows && !meets(&problem.lines[k], x) {
            return false;
        }
    }
    true
}

// Whether numbers meet a row.
fn meets(line: &Line, x: &[i64; 4]) -> bool {
    let sum = line.coefs[0]
        .wrapping_mul(x[0])
        .wrapping_add(line.coefs[1].wrapping_mul(x[1]))
        .wrapping_add(line.coefs[2].wrapping_mul(x[2]))
        .wrapping_add(line.coefs[3].wrapping_mul(x[3]));
    match line.sense {
        Sense::Le => sum <= line.rhs,
        Sense::Ge => line.low <= sum,
        Sense::Eq | Sense::In => line.low <= sum && sum <= line.rhs,
    }
}

// What numbers cost.
fn cost_of(costs: &[i128; 4], x: &[i64; 4]) -> i128 {
    costs[0]
        .wrapping_mul(i128::from(x[0]))
        .wrapping_add(costs[1].wrapping_mul(i128::from(x[1])))
        .wrapping_add(costs[2].wrapping_mul(i128::from(x[2])))
        .wrapping_add(costs[3].wrapping_mul(i128::from(x[3])))
}
