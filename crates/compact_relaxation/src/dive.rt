// Points by rounding and by dives: one variable after another is rounded, with the relaxation solved anew in between.
use crate::numbers::{floor_in, nearest_in, span_at};
use crate::relaxation::{CompactRelaxation, Fraction};
use block_program::Blocked;
use bp_theory::Span;
use dual_simplex::{Basis, Effort, End};
use std::alloc::{AllocError, Global};

// How many roundings a dive makes, how many iterations it may take in all and for each, and how many may fail.
const MOST_STEPS: u32 = 200;

const MOST_ITERATIONS: u64 = 5000;

const STEP_ITERATIONS: u32 = 1000;

const MOST_FAILURES: u32 = 8;

// After how many roundings the values are rounded to a point.
const ROUND_EACH: u32 = 4;

// What is added to how far a variable is from whole, where it is below a half and dives go up.
const DOWN_PENALTY: f64 = 0.3;

// Above which part variables are rounded up together.
const TOGETHER: f64 = 0.9;

/// Which variable a dive rounds next: the nearest to whole, the highest part, or the nearest with a preference for up.
#[derive(Clone, Copy, PartialEq, Eq)]
pub(crate) enum Manner {
    Nearest,
    Up,
    RatherUp,
}

/// The manner of a dive of a number.
pub(crate) fn manner_of(number: u32) -> Manner {
    match number % 3 {
        0 => Manner::Nearest,
        1 => Manner::Up,
        _ => Manner::RatherUp,
    }
}

/// The incumbent of a node.
#[derive(Drop)]
pub(crate) struct Found {
    /// The cheapest cost that is known, where there is one, in ones.
    pub known: Option<i64>,
    /// A point of that cost, by variable, where it was found here.
    pub point: Option<Vec<i64>>,
}

impl Found {
    /// Takes a point, if it is feasible and cheaper than what is known.
    pub fn offer(&mut self, b: &Blocked, point: Vec<i64>) {
        if b.model().misses(point.as_slice()).is_none() {
            let cost = b.model().cost(point.as_slice());
            let is_cheaper = match self.known {
                None => true,
                Some(known) => cost < known,
            };
            if is_cheaper {
                self.known = Some(cost);
                self.point = Some(point);
            }
        }
    }
}

// Where a dive stands.
#[derive(Drop)]
struct Dive {
    // The spans of the variables, narrowed by each rounding.
    spans: Vec<Span>,
    // Which variable is rounded next.
    manner: Manner,
    // How many roundings left nothing.
    failures: u32,
}

impl CompactRelaxation {
    /// Offers the point of the values rounded to the nearest whole numbers.
    pub(crate) fn round(
        &self,
        alloc: Global,
        b: &Blocked,
        spans: &[Span],
        found: &mut Found,
    ) -> Result<(), AllocError> {
        let mut point = Vec::new(alloc);
        for (var, span) in spans.iter().enumerate() {
            point.push(nearest_in(self.lp.value(var), span))?;
        }
        found.offer(b, point);
        Ok(())
    }

    /// Dives from the relaxation's optimum within spans.
    pub(crate) fn dive(
        &mut self,
        alloc: Global,
        b: &Blocked,
        spans: &[Span],
        manner: Manner,
        found: &mut Found,
    ) -> Result<(), AllocError> {
        let begun = self.lp.iterations();
        let mut dive = Dive {
            spans: spans.to_vec(alloc)?,
            manner,
            failures: 0,
        };
        for number in 0..MOST_STEPS {
            let rounds = number % ROUND_EACH == 0;
            if !self.go_on(alloc, b, &mut dive, rounds, found)?
                || dive.failures > MOST_FAILURES
                || self.lp.iterations().saturating_sub(begun) > MOST_ITERATIONS
            {
                break;
            }
        }
        self.dived = self
            .dived
            .saturating_add(self.lp.iterations().saturating_sub(begun));
        Ok(())
    }

    // Takes a step of a dive, where a variable is fractional; whether there was one, and something may be left. The values
    // are rounded to a point before it where that is asked for, or where no step is left.
    fn go_on(
        &mut self,
        alloc: Global,
        b: &Blocked,
        dive: &mut Dive,
        rounds: bool,
        found: &mut Found,
    ) -> Result<bool, AllocError> {
        let fractions = self.fractions(alloc)?;
        let fractions = fractions.as_slice();
        if rounds || fractions.is_empty() {
            self.round(alloc, b, dive.spans.as_slice(), found)?;
        }
        match self.pick(fractions, dive.manner) {
            None => Ok(false),
            Some(next) => self.step(alloc, b, dive, fractions, &next, found.known),
        }
    }

    // The variable to round next.
    fn pick(&self, fractions: &[Fraction], manner: Manner) -> Option<Fraction> {
        let mut found = None;
        let mut least = f64::MAX;
        for fraction in fractions {
            let part = fraction.part;
            let far = match manner {
                Manner::Up => 1.0 - part,
                Manner::Nearest => part.min(1.0 - part),
                Manner::RatherUp => {
                    part.min(1.0 - part) + if part < 0.5 { DOWN_PENALTY } else { 0.0 }
                }
            };
            let is_dear = (self.lp.cost(fraction.var as usize) > 0.0) == (part > 0.5);
            let score = far + if is_dear { 0.01 } else { 0.0 };
            if score < least {
                least = score;
                found = Some(*fraction);
            }
        }
        found
    }

    // Rounds a variable one way or, where that fails, the other; whether one did.
    fn step(
        &mut self,
        alloc: Global,
        b: &Blocked,
        dive: &mut Dive,
        fractions: &[Fraction],
        next: &Fraction,
        known: Option<i64>,
    ) -> Result<bool, AllocError> {
        let before = dive.spans.as_slice().to_vec(alloc)?;
        let basis = self.lp.basis()?;
        let goes_up = next.part > 0.5 || dive.manner == Manner::Up;
        let mut is_open = false;
        for is_second in [false, true] {
            dive.spans.clear();
            dive.spans.extend_from_slice(before.as_slice())?;
            let is_up = goes_up != is_second;
            narrow(dive.spans.as_mut_slice(), next, is_up);
            if is_up && !is_second && dive.manner == Manner::RatherUp {
                narrow_all(dive.spans.as_mut_slice(), fractions);
            }
            let basis = if is_second { Some(&basis) } else { None };
            is_open = self.is_open_behind(b, dive, next.var, basis, known)?;
            if is_open {
                break;
            }
        }
        Ok(is_open)
    }

    // Whether something cheaper than what is known may be left in spans that a variable was rounded in, solved from a basis
    // where one is given. Solutions that leave nothing are counted as failures.
    fn is_open_behind(
        &mut self,
        b: &Blocked,
        dive: &mut Dive,
        var: u32,
        basis: Option<&Basis>,
        known: Option<i64>,
    ) -> Result<bool, AllocError> {
        if self.is_empty_behind(b, dive.spans.as_mut_slice(), var)? {
            return Ok(false);
        }
        self.set_spans(dive.spans.as_slice());
        if let Some(basis) = basis {
            self.lp.load(basis)?;
        }
        if self.is_solved(known)? {
            return Ok(true);
        }
        dive.failures = dive.failures.saturating_add(1);
        Ok(false)
    }

    // Solves anew; whether something cheaper than what is known may be left.
    fn is_solved(&mut self, known: Option<i64>) -> Result<bool, AllocError> {
        let cutoff = self.cutoff(known);
        let end = self.lp.solve(Effort {
            iterations: STEP_ITERATIONS,
            cutoff,
            keeps_factors: false,
        })?;
        Ok(
            end == End::Optimum
                && match cutoff {
                    None => true,
                    Some(cutoff) => self.lp.objective() <= cutoff,
                },
        )
    }
}

// Keeps one side of a variable's span.
fn narrow(spans: &mut [Span], fraction: &Fraction, is_up: bool) {
    let place = fraction.var as usize;
    let span = span_at(spans, place);
    let floor = floor_in(fraction.value, &span);
    if place < spans.len() {
        spans[place] = if is_up {
            Span {
                lo: floor.saturating_add(1).min(span.hi),
                hi: span.hi,
            }
        } else {
            Span {
                lo: span.lo,
                hi: floor,
            }
        };
    }
}

// Keeps the upper side of all variables whose parts are high.
fn narrow_all(spans: &mut [Span], fractions: &[Fraction]) {
    for fraction in fractions {
        if fraction.part > TOGETHER {
            narrow(spans, fraction, true);
        }
    }
}
