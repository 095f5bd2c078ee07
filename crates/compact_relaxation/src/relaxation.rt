// The relaxation of a program's rows, and what is kept from node to node.
ghost use Rattle.std.specs.Prelude.{IsTrue};
ghost use Rattle.compact_relaxation.specs.Rowless.{AreRowless};

use crate::bases::Bases;
use crate::numbers::{part_of, range_of_span, span_at};
use crate::relaxation_of;
use crate::rows::cut_rows;
use crate::scores::Scores;
use block_program::Blocked;
use bp_theory::{Row, Span};
use dual_simplex::{ENDLESS, Effort, End, Lp, Snapshot};
use std::alloc::{AllocError, Global};
use std::num::nearest_i64_to_f64;

// How much work an iteration may take in all, in numbers of the relaxation, and the least and greatest count of
// iterations of a node.
const WORK: u64 = 1 << 31;

const LEAST_ITERATIONS: u64 = 500;

const MOST_ITERATIONS: u64 = 100_000;

/// How far below a whole cost the objective may be that counts as that cost.
pub const SLACK: f64 = 1e-4;

/// The relaxation of a program's rows and cuts, with what is kept from node to node. Kept bases take 64 MB at most;
/// the rest grows with the program alone.
pub struct CompactRelaxation {
    /// The relaxation, at the basis of the last node.
    pub(crate) lp: Lp,
    /// The bases of the nodes that were forked.
    pub(crate) bases: Bases,
    /// What is known of the variables as those to fork at.
    pub(crate) scores: Scores,
    /// A state of the relaxation that trials go back to.
    pub(crate) snapshot: Snapshot,
    /// The constant of the model's objective, in ones.
    pub(crate) constant: f64,
    /// By variable, its span in the model.
    pub(crate) root: Vec<Span>,
    /// The rows of the cuts.
    pub(crate) cuts: Vec<Row>,
    /// How many iterations a solution may take.
    pub(crate) most: u32,
    /// How many nodes there were.
    pub(crate) leaves: u32,
    /// How many iterations dives took.
    pub(crate) dived: u64,
    /// The key of the node that was forked last, whose basis is at hand.
    pub(crate) last: Option<u64>,
    /// Room for exact reduced costs of multipliers, by variable, at the scale of these.
    pub(crate) whole: Vec<i128>,
    /// Room for reduced costs, by variable, in ones.
    pub(crate) rests: Vec<f64>,
    /// The rows that propagation looks at next.
    pub(crate) queue: Vec<u32>,
    /// By row of the model, whether it is in the queue.
    pub(crate) is_queued: Vec<bool>,
}

impl Drop for CompactRelaxation {
    fn drop(self) {
        let CompactRelaxation {
            lp: _,
            bases: _,
            scores: _,
            snapshot: _,
            constant: _,
            root: _,
            cuts: _,
            most: _,
            leaves: _,
            dived: _,
            last: _,
            whole: _,
            rests: _,
            queue: _,
            is_queued: _,
        } = self;
    }
}

/// Whether no block of a program has rows, as where each is a single variable.
pub fn has_no_block_rows(b: &Blocked) -> bool
    ensures { IsTrue result → AreRowless b.now.blocking }
{
    for number in 0..b.blocks() {
        if !b.block(number).rows().is_empty() {
            return false;
        }
    }
    true
}

impl CompactRelaxation {
    /// The relaxation of a program's rows and cuts, where nothing is known of nodes.
    pub fn make(alloc: Global, b: &Blocked) -> Result<CompactRelaxation, AllocError> {
        let model = b.model();
        let vars = model.vars() as usize;
        let scores = Scores::make(alloc, vars)?;
        let root = model.spans().to_vec(alloc)?;
        let whole = Vec::from_elem(alloc, 0i128, vars)?;
        let rests = Vec::from_elem(alloc, 0.0, vars)?;
        let is_queued = Vec::from_elem(alloc, false, model.rows() as usize)?;
        let cuts = cut_rows(alloc, b)?;
        let most = most_iterations(b, cuts.as_slice());
        // What takes most comes last: no call behind it fails, so nothing has to let it go.
        let lp = relaxation_of(alloc, b)?;
        Ok(CompactRelaxation {
            lp,
            bases: Bases::make(alloc),
            scores,
            snapshot: Snapshot::make(alloc),
            constant: nearest_i64_to_f64(model.constant()),
            root,
            cuts,
            most,
            leaves: 0,
            dived: 0,
            last: None,
            whole,
            rests,
            queue: Vec::new(alloc),
            is_queued,
        })
    }

    /// Takes the spans of a node.
    pub(crate) fn set_spans(&mut self, spans: &[Span]) {
        for (var, span) in spans.iter().enumerate() {
            self.lp.set_span(var, &range_of_span(span));
        }
    }

    /// The objective, in ones and without the constant, that shows that nothing cheaper than a cost is left. The cost
    /// has the constant.
    pub(crate) fn cutoff(&self, best: Option<i64>) -> Option<f64> {
        match best {
            None => None,
            Some(best) => Some(nearest_i64_to_f64(best) - 1.0 + SLACK - self.constant),
        }
    }

    /// Solves from the basis that there is, up to the cutoff of a cost; where a cutoff was feigned, without it. The
    /// multipliers are then written.
    pub(crate) fn relax(&mut self, best: Option<i64>) -> Result<Relaxed, AllocError> {
        let cutoff = self.cutoff(best);
        let mut effort = Effort {
            iterations: self.most,
            cutoff,
            keeps_factors: false,
        };
        let mut end = self.lp.solve(effort)?;
        let mut value = self.dual_value();
        if end == End::Cutoff && !is_above(value, cutoff) {
            effort.cutoff = None;
            end = self.lp.solve(effort)?;
            value = self.dual_value();
        }
        Ok(Relaxed {
            end,
            value,
            is_reached: is_above(value, cutoff),
        })
    }

    // The bound of the multipliers of the basis, without the constant.
    fn dual_value(&mut self) -> f64 {
        let _ = self.lp.multipliers();
        let mults = self.lp.last_multipliers();
        let mut sum = 0.0;
        for (row, mult) in mults.iter().enumerate() {
            let range = self.lp.range(row);
            if *mult > 0.0 && range.lower > -ENDLESS {
                sum += *mult * range.lower;
            } else if *mult < 0.0 && range.upper < ENDLESS {
                sum += *mult * range.upper;
            }
        }
        for column in 0..self.lp.columns() {
            let reduced = self.lp.reduced_cost(column, mults);
            let span = self.lp.span(column);
            sum += if reduced > 0.0 {
                reduced * span.lower
            } else {
                reduced * span.upper
            };
        }
        sum
    }

    /// The variables whose values are fractional and within their spans, with how far they are above whole numbers.
    pub(crate) fn fractions(&self, alloc: Global) -> Result<Vec<Fraction>, AllocError> {
        let mut fractions = Vec::new(alloc);
        for basic in self.lp.head() {
            let var = *basic as usize;
            if var < self.lp.columns() {
                let value = self.lp.value(var);
                let span = self.lp.span(var);
                if crate::numbers::is_fractional(value)
                    && value > span.lower
                    && value < span.upper
                {
                    fractions.push(Fraction {
                        var: *basic,
                        value,
                        part: part_of(value),
                        score: 0.0,
                    })?;
                }
            }
        }
        Ok(fractions)
    }

    /// Whether dives took less than a part of all iterations.
    pub(crate) fn may_dive(&self, percent: u64) -> bool {
        self.dived.saturating_mul(100) <= self.lp.iterations().saturating_mul(percent)
    }

    /// The span of a variable at the root.
    pub(crate) fn root_span(&self, var: usize) -> Span {
        span_at(self.root.as_slice(), var)
    }
}

/// How the relaxation of a node ended.
#[derive(Clone, Copy)]
pub(crate) struct Relaxed {
    /// How its solution ended.
    pub end: End,
    /// The dual bound of its multipliers, in ones, without the constant.
    pub value: f64,
    /// Whether this bound leaves nothing cheaper than the incumbent.
    pub is_reached: bool,
}

/// A variable with a fractional value.
#[derive(Clone, Copy)]
pub(crate) struct Fraction {
    /// The variable.
    pub var: u32,
    /// Its value.
    pub value: f64,
    /// How far that is above a whole number, from 0 to 1.
    pub part: f64,
    /// How much it is wanted as the one to fork at: the greater the better.
    pub score: f64,
}

// Whether a bound is above a cutoff, where there is one.
fn is_above(value: f64, cutoff: Option<f64>) -> bool {
    match cutoff {
        None => false,
        Some(cutoff) => value > cutoff,
    }
}

// How many iterations a node's relaxation may take.
fn most_iterations(b: &Blocked, cuts: &[Row]) -> u32 {
    let model = b.model();
    let mut size = u64::from(model.rows()).saturating_add(u64::from(model.vars()));
    for row in model.all_rows() {
        size = size.saturating_add(row.terms.len() as u64);
    }
    for row in cuts {
        size = size.saturating_add(row.terms.len() as u64);
    }
    let many = (WORK / size.saturating_mul(4).max(1))
        .max(LEAST_ITERATIONS)
        .min(MOST_ITERATIONS);
    many as u32
}
