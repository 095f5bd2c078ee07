// The ratio test: which variable enters. Variables whose reduced costs would pass 0 before the rise stops go to the
// other ends of their ranges; of those that are reached together by the tolerance the one with the greatest number in
// the pivot row enters (Harris, Pivot selection methods of the Devex LP code, 1973; Koberstein, The dual simplex
// method, techniques for a fast and stable implementation, 2005).
use crate::fresh::DUAL;
use crate::variable::{ENDLESS, Status, Variable};
use std::alloc::AllocError;

// How large a number of the pivot row has to be for a candidate, for a pivot, and for a pivot that is not avoided.
const LEAST: f64 = 1e-9;

const LEAST_PIVOT: f64 = 1e-7;

const GOOD_PIVOT: f64 = 1e-5;

/// What is still tolerated of a slope.
const SLOPE: f64 = 1e-7;

/// A variable that may enter.
#[derive(Clone, Copy)]
pub struct Candidate {
    /// The length of the dual step that takes its reduced cost to 0, at least 0.
    pub ratio: f64,
    /// Its number.
    pub variable: u32,
    /// Its number in the pivot row; never 0.
    pub alpha: f64,
}

/// Which variable enters.
#[derive(Clone, Copy)]
pub enum Entering {
    /// A variable with its number in the pivot row, behind so many candidates that go to the other ends of their ranges.
    Found {
        /// Its number.
        variable: u32,
        /// Its number in the pivot row; never 0.
        alpha: f64,
        /// How many candidates go to the other ends of their ranges: the first in the list.
        flips: usize,
    },
    /// None: no step stops the rise.
    Endless,
    /// None whose number is large enough.
    TooSmall,
}

/// Writes the candidates: the variables whose reduced costs a step leads to 0.
pub fn write_candidates(
    candidates: &mut Vec<Candidate>,
    nonzeros: &[u32],
    row: &[f64],
    variables: &[Variable],
    statuses: &[Status],
) -> Result<(), AllocError> {
    candidates.clear();
    for index in nonzeros {
        let place = *index as usize;
        if let (Some(alpha), Some(variable), Some(status)) = (
            row.get(place),
            variables.get(place),
            statuses.get(place),
        ) {
            if is_candidate(*alpha, variable, *status) {
                candidates.push(Candidate {
                    ratio: (variable.reduced / *alpha).max(0.0),
                    variable: *index,
                    alpha: *alpha,
                })?;
            }
        }
    }
    Ok(())
}

// Whether a step leads a variable's reduced cost to 0.
fn is_candidate(alpha: f64, variable: &Variable, status: Status) -> bool {
    if alpha.abs() < LEAST || variable.is_fixed() {
        return false;
    }
    match status {
        Status::Basic => false,
        Status::Lower => alpha > 0.0,
        Status::Upper => alpha < 0.0,
    }
}

/// Which variable enters where the objective rises by a slope; candidates are put in the order of their groups.
pub fn choose(candidates: &mut [Candidate], slope: f64, variables: &[Variable]) -> Entering {
    let mut rest = slope;
    let mut start = 0;
    let mut best = None;
    for _ in 0..candidates.len() {
        if start >= candidates.len() {
            break;
        }
        let limit = harris_limit(candidates, start);
        let end = gather(candidates, start, limit);
        let group = look(candidates, start, end, variables);
        best = better(best, group, start);
        rest -= group.width;
        if rest <= SLOPE || end <= start {
            return chosen(best);
        }
        start = end;
    }
    if rest > SLOPE {
        Entering::Endless
    } else {
        chosen(best)
    }
}

// Candidates that the ratio test reaches together.
#[derive(Clone, Copy)]
struct Group {
    // The variable with the greatest number in the pivot row.
    variable: u32,
    // That number.
    alpha: f64,
    // By how much the slope of the dual objective falls where all go to the other ends of their ranges.
    width: f64,
}

// The pivot so far.
#[derive(Clone, Copy)]
struct Choice {
    // Its variable.
    variable: u32,
    // Its number in the pivot row.
    alpha: f64,
    // How many candidates come before its group: these go to the other ends of their ranges.
    flips: usize,
}

// The ratio that the first relaxed reduced cost of the candidates from a place on allows.
fn harris_limit(candidates: &[Candidate], start: usize) -> f64 {
    let mut limit = f64::MAX;
    for k in start..candidates.len() {
        let relaxed = candidates[k].ratio + DUAL / candidates[k].alpha.abs();
        if relaxed < limit {
            limit = relaxed;
        }
    }
    limit
}

// Puts the candidates within a limit before the others, and says where they end.
fn gather(candidates: &mut [Candidate], start: usize, limit: f64) -> usize {
    let mut end = start;
    for k in start..candidates.len() {
        if candidates[k].ratio <= limit && end < candidates.len() {
            candidates.swap(k, end);
            end += 1;
        }
    }
    end
}

// What a group gives.
fn look(candidates: &[Candidate], start: usize, end: usize, variables: &[Variable]) -> Group {
    let mut group = Group {
        variable: 0,
        alpha: 0.0,
        width: 0.0,
    };
    for k in start..end.min(candidates.len()) {
        let candidate = &candidates[k];
        group.width += width(candidate, variables);
        if candidate.alpha.abs() > group.alpha.abs() {
            group.alpha = candidate.alpha;
            group.variable = candidate.variable;
        }
    }
    group
}

// By how much the slope falls where a candidate goes to the other end of its range.
fn width(candidate: &Candidate, variables: &[Variable]) -> f64 {
    match variables.get(candidate.variable as usize) {
        None => ENDLESS,
        Some(variable) => {
            let width = variable.upper - variable.lower;
            if width >= ENDLESS {
                ENDLESS
            } else {
                width * candidate.alpha.abs()
            }
        }
    }
}

// The better pivot: that of the later group, unless it is small and the earlier isn't.
fn better(before: Option<Choice>, group: Group, flips: usize) -> Option<Choice> {
    let size = group.alpha.abs();
    let choice = Choice {
        variable: group.variable,
        alpha: group.alpha,
        flips,
    };
    match before {
        None => Some(choice),
        Some(old) => {
            if size > LEAST_PIVOT && (size >= GOOD_PIVOT || old.alpha.abs() < GOOD_PIVOT) {
                Some(choice)
            } else {
                Some(old)
            }
        }
    }
}

// The pivot, where its number is large enough.
fn chosen(best: Option<Choice>) -> Entering {
    match best {
        Some(choice) if choice.alpha.abs() >= LEAST_PIVOT => Entering::Found {
            variable: choice.variable,
            alpha: choice.alpha,
            flips: choice.flips,
        },
        _ => Entering::TooSmall,
    }
}
