// The primal simplex method, from a basis whose weights are not below zero: after columns came or penalties changed. A
// list of a few columns of least reduced cost is kept and filled again by a pass over all (partial pricing); the ratio
// test takes the greatest pivot among those that tie within a tolerance (Harris, Pivot selection methods of the Devex
// LP code, 1973).
use crate::numbers::{NONE, at, place, place_at};
use crate::program::{ColumnProgram, Entering, NOISE};
use std::alloc::{AllocError, Global};
use std::num::saturating_f64_to_i64;

// How many columns are listed.
const LISTED: usize = 30;

// By how much weights may pass zero in the ratio test.
const TOLERANCE: f64 = 1e-8;

// How often a step may fail before the solution stands as it is.
const MOST_FAILURES: u32 = 3;

// How many parts one has where reduced costs are put in order.
const PARTS: f64 = 1048576.0;

// What a step came to: a pivot, none that is left, or one that could not be made.
#[derive(Clone, Copy, Debug, PartialEq, Eq)]
enum Step {
    Pivot,
    Best,
    Failed,
}

impl ColumnProgram {
    /// Solves from the last basis by at most so many pivots; whether the solution is the best.
    pub fn solve(&mut self, alloc: Global, most: u32) -> Result<bool, AllocError> {
        self.compute_weights();
        self.turn_signs();
        if self.has_column_below_zero() {
            let _ = self.mend(most)?;
            self.turn_signs();
        }
        self.listed.clear();
        let mut failures = 0u32;
        for _ in 0..most {
            if self.factor.wants_refactor() {
                self.refactor()?;
                self.turn_signs();
            }
            self.compute_mults();
            match self.take_step(alloc)? {
                Step::Pivot => {}
                Step::Best => return Ok(true),
                Step::Failed => {
                    failures = failures.saturating_add(1);
                    if failures > MOST_FAILURES {
                        break;
                    }
                    self.refactor()?;
                    self.turn_signs();
                }
            }
        }
        self.compute_mults();
        Ok(false)
    }

    // Whether a column's weight is below zero.
    fn has_column_below_zero(&self) -> bool {
        for position in 0..self.rows() {
            if at(self.weights.as_slice(), position) < -NOISE && !self.is_logical(position) {
                return true;
            }
        }
        false
    }

    // A pivot, with multipliers of the basis.
    fn take_step(&mut self, alloc: Global) -> Result<Step, AllocError> {
        let Some(entering) = self.choose(alloc)? else {
            return Ok(Step::Best);
        };
        let sign = self.load(entering);
        let Some(position) = self.choose_leaving(sign) else {
            return Ok(Step::Failed);
        };
        let fall = self.fall(position, sign);
        let weight = at(self.weights.as_slice(), position) / fall;
        let step = if weight > 0.0 { weight } else { 0.0 };
        Ok(if self.exchange(position, entering, sign, step)? {
            Step::Pivot
        } else {
            Step::Failed
        })
    }

    // What is to enter: of the listed columns and what rows lack or have too much that of least reduced cost.
    fn choose(&mut self, alloc: Global) -> Result<Option<Entering>, AllocError> {
        let mut best = self.choose_listed();
        if best.is_none() {
            self.list(alloc)?;
            best = self.choose_listed();
        }
        let (mut least, mut chosen) = match best {
            Some((cost, column)) => (cost, Some(Entering::Column(column))),
            None => (-NOISE, None),
        };
        for row in 0..self.rows() {
            if place_at(self.logicals.as_slice(), row) == NONE {
                let (lack, excess) = self.penalties(row);
                let mult = at(self.mults.as_slice(), row);
                if lack - mult < least {
                    least = lack - mult;
                    chosen = Some(Entering::Lack(place(row)));
                }
                if excess + mult < least {
                    least = excess + mult;
                    chosen = Some(Entering::Excess(place(row)));
                }
            }
        }
        Ok(chosen)
    }

    // The listed column of least reduced cost below zero.
    fn choose_listed(&self) -> Option<(f64, u32)> {
        let mut least = -NOISE;
        let mut chosen = None;
        for column in self.listed.as_slice() {
            if self.may_enter(*column) {
                let cost = self.reduced_cost(*column);
                if cost < least {
                    least = cost;
                    chosen = Some((cost, *column));
                }
            }
        }
        chosen
    }

    /// Whether a column is out of the basis and not switched off.
    pub(crate) fn may_enter(&self, column: u32) -> bool {
        place_at(self.positions.as_slice(), column as usize) == NONE && !self.is_off(column)
    }

    // Lists the columns of least reduced cost below zero.
    fn list(&mut self, alloc: Global) -> Result<(), AllocError> {
        let mut found = Vec::new(alloc);
        for column in 0..place(self.columns()) {
            if self.may_enter(column) {
                let cost = self.reduced_cost(column);
                if cost < -NOISE {
                    found.push((saturating_f64_to_i64(cost * PARTS), column))?;
                }
            }
        }
        found.sort()?;
        self.listed.clear();
        for one in found.iter().take(LISTED) {
            self.listed.push(one.1)?;
        }
        Ok(())
    }

    // The position whose member is to leave for an entering one of a sign, whose numbers stand in `alpha`.
    fn choose_leaving(&self, sign: f64) -> Option<usize> {
        let limit = self.limit(sign);
        let mut chosen = None;
        let mut greatest = NOISE;
        for position in 0..self.rows() {
            let fall = self.fall(position, sign);
            if fall > greatest && self.room(position) / fall <= limit {
                greatest = fall;
                chosen = Some(position);
            }
        }
        chosen
    }

    // How far an entering member may go where each weight may pass zero by a tolerance.
    fn limit(&self, sign: f64) -> f64 {
        let mut limit = f64::INFINITY;
        for position in 0..self.rows() {
            let fall = self.fall(position, sign);
            if fall > NOISE {
                let most = (self.room(position) + TOLERANCE) / fall;
                if most < limit {
                    limit = most;
                }
            }
        }
        limit
    }

    // A position's weight, 0 where it is below.
    fn room(&self, position: usize) -> f64 {
        let weight = at(self.weights.as_slice(), position);
        if weight > 0.0 { weight } else { 0.0 }
    }
}
