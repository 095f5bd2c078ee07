// Reliability branching: variables whose gains are not yet known well are tried by a few iterations on both sides
// (Achterberg, Koch and Martin, Branching rules revisited, 2005).
use crate::relaxation::{CompactRelaxation, Fraction};
use bp_theory::Span;
use dual_simplex::{Effort, End, Range};
use std::alloc::AllocError;

// How many gains of each side make a variable well known, how many variables are tried at a node, how many iterations a
// try may take, and after how many variables without a better one the search ends.
const RELIABLE: u32 = 4;

const MOST_TRIES: u32 = 8;

const ITERATIONS: u32 = 50;

const PATIENCE: u32 = 8;

// How many times the mean gain a side without points counts where no point is known.
const EMPTY_GAIN: f64 = 10.0;

// How a side of a split went.
#[derive(Clone, Copy)]
struct Tried {
    // By how much the relaxation's value rose, in ones.
    gain: f64,
    // Whether nothing cheaper than the incumbent is left there.
    is_shut: bool,
}

impl CompactRelaxation {
    /// The variable to split at, of those with fractional values. The relaxation's objective is in ones, without the
    /// constant; the incumbent's cost, where it is known, has the constant.
    pub(crate) fn choose(
        &mut self,
        mut fractions: Vec<Fraction>,
        objective: f64,
        best: Option<i64>,
    ) -> Result<Option<Fraction>, AllocError> {
        for fraction in fractions.iter_mut() {
            fraction.score = self.scores.expected(fraction.var, fraction.part);
        }
        self.snapshot.take(&mut self.lp)?;
        let mut found: Option<Fraction> = None;
        let mut tries: u32 = 0;
        let mut idle: u32 = 0;
        for _ in 0..fractions.len() {
            let Some(mut next) = take_best(&mut fractions) else {
                break;
            };
            if tries < MOST_TRIES && !self.is_reliable(next.var) {
                tries += 1;
                if self.try_both(&mut next, objective, best)? {
                    return Ok(Some(next));
                }
            }
            match found {
                Some(old) if next.score <= old.score => {
                    idle = idle.saturating_add(1);
                    if idle > PATIENCE {
                        break;
                    }
                }
                _ => {
                    found = Some(next);
                    idle = 0;
                }
            }
        }
        Ok(found)
    }

    // Whether enough gains of a variable are known on both sides.
    fn is_reliable(&self, var: u32) -> bool {
        RELIABLE
            <= self
                .scores
                .below
                .count(var)
                .min(self.scores.above.count(var))
    }

    // Tries both sides of a variable and scores it by their gains; whether a side is shut.
    fn try_both(
        &mut self,
        fraction: &mut Fraction,
        objective: f64,
        best: Option<i64>,
    ) -> Result<bool, AllocError> {
        let var = fraction.var as usize;
        let span = self.lp.span(var);
        let floor = fraction.value.floor();
        let low = Range {
            lower: span.lower,
            upper: floor,
        };
        let mean = self.scores.below.mean();
        let below = self.try_side(var, &low, objective, best, mean)?;
        if !below.is_shut {
            self.scores
                .below
                .note(fraction.var, below.gain / fraction.part);
        }
        let high = Range {
            lower: floor + 1.0,
            upper: span.upper,
        };
        let mean = self.scores.above.mean();
        let above = self.try_side(var, &high, objective, best, mean)?;
        if !above.is_shut {
            self.scores
                .above
                .note(fraction.var, above.gain / (1.0 - fraction.part));
        }
        fraction.score = self
            .scores
            .score(fraction.var, fraction.part, below.gain, above.gain);
        Ok(below.is_shut || above.is_shut)
    }

    // What a few iterations gain where a variable has another span.
    fn try_side(
        &mut self,
        var: usize,
        span: &Range,
        objective: f64,
        best: Option<i64>,
        mean: f64,
    ) -> Result<Tried, AllocError> {
        self.lp.set_span(var, span);
        let cutoff = self.cutoff(best);
        let end = self.lp.solve(Effort {
            iterations: ITERATIONS,
            cutoff,
            keeps_factors: true,
        })?;
        let mut gain = (self.lp.moved_objective() - objective).max(0.0);
        let is_shut = end == End::Empty || end == End::Cutoff;
        if is_shut {
            let least = match cutoff {
                Some(cutoff) => cutoff + 1.0 - objective,
                None => EMPTY_GAIN * mean,
            };
            gain = gain.max(least).max(1e-3);
        }
        self.snapshot.restore(&mut self.lp);
        Ok(Tried { gain, is_shut })
    }
}

// Takes the best out of a list.
fn take_best(fractions: &mut Vec<Fraction>) -> Option<Fraction> {
    let mut best = 0;
    let mut most = f64::MIN;
    for (k, fraction) in fractions.iter().enumerate() {
        if fraction.score > most {
            most = fraction.score;
            best = k;
        }
    }
    if best < fractions.len() {
        Some(fractions.swap_remove(best))
    } else {
        None
    }
}

/// The variable with the widest open span, split at the middle: where no value tells.
pub(crate) fn widest(spans: &[Span]) -> (u32, i64) {
    let mut found: (u32, i64) = (0, 0);
    let mut most = 0;
    let mut var: u32 = 0;
    for span in spans {
        let width = span.hi.abs_diff(span.lo);
        if span.lo < span.hi && width > most {
            most = width;
            found = (var, middle(span));
        }
        var = var.saturating_add(1);
    }
    found
}

// The middle of a span, about.
fn middle(span: &Span) -> i64 {
    let middle = span.lo / 2 + span.hi / 2;
    if middle < span.lo {
        span.lo
    } else if middle >= span.hi {
        span.hi.saturating_sub(1)
    } else {
        middle
    }
}
