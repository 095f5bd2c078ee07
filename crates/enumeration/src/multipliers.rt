// Multipliers for the rows of a block. They are hints: no answer rests on them.
//
// They are moved along by how much the rows' sums are beyond their sides at the least of the adjusted costs over the
// box (the subgradient method), in steps that grow shorter, and those of the greatest bound are kept.

ghost use Rattle.std.specs.Prelude.{◌≡◌, vec_len};
ghost use Rattle.pricing_problem.specs.Form.{IsPriceable};
ghost use Rattle.enumeration.specs.Relax.{IsRelaxed};

use crate::caps::prefixes_of;
use crate::form::Form;
use crate::relax::{Relaxed, adjust, fitting, number_in, relax};
use bp_theory::{Row, Sense, Span, Term};
use std::alloc::{AllocError, Global};

/// How many beginnings of assignments are searched without multipliers.
const FEW: u128 = 256;

/// How often multipliers are moved.
const MOVES: u32 = 60;

/// The binary digits of the number of parts that a step is counted in.
const DIGITS: u32 = 20;

/// Multipliers that are moved.
#[derive(Drop)]
pub struct Multipliers {
    /// The multiplier of each row that is tried.
    tried: Vec<i128>,
    /// The greatest size that may be of use.
    sizes: Vec<i128>,
    /// By how much the row's sum is beyond its side, times that size.
    pulls: Vec<i128>,
    /// The multipliers of the greatest bound so far.
    best: Vec<i128>,
    /// That bound.
    bound: Option<i128>,
}

impl Multipliers {
    /// Room for the multipliers of this many rows.
    pub fn make(alloc: Global, rows: usize) -> Result<Multipliers, AllocError> {
        let tried = Vec::from_elem(alloc, 0, rows)?;
        let sizes = Vec::from_elem(alloc, 0, rows)?;
        let pulls = Vec::from_elem(alloc, 0, rows)?;
        let best = Vec::from_elem(alloc, 0, rows)?;
        Ok(Multipliers {
            tried,
            sizes,
            pulls,
            best,
            bound: None,
        })
    }

    /// Adjusts costs by the rows, with the multipliers of the greatest bound that is found in a zone.
    pub fn relax(&mut self, relaxed: &mut Relaxed, form: &Form, zone: &[Span], costs: &[i128])
        requires many { vec_len relaxed.old.costs ≡ vec_len form.now.spans }
        requires priceable { IsPriceable form.now.spans.items zone.now costs.now }
        ensures { IsRelaxed form.now.spans.items form.now.rows.items zone.now costs.now
            relaxed.new }
    {
        self.seek(relaxed, form, zone, costs);
        relax(relaxed, form, zone, costs, &self.best);
    }

    /// Looks for multipliers whose bound in a zone is great.
    fn seek(&mut self, relaxed: &mut Relaxed, form: &Form, zone: &[Span], costs: &[i128])
        requires many { vec_len relaxed.old.costs ≡ vec_len form.now.spans }
        requires priceable { IsPriceable form.now.spans.items zone.now costs.now }
        ensures { vec_len relaxed.new.costs ≡ vec_len relaxed.old.costs }
    {
        self.start(&form.rows, costs);
        if prefixes_of(zone) <= FEW {
            return;
        }
        let mut step: i128 = 1 << (DIGITS - 1);
        for _ in 0..MOVES {
            if !adjust(relaxed, form, zone, costs, &self.tried) {
                return;
            }
            self.keep_greater(bound_of(relaxed, zone));
            let most = self.pull(&form.rows, relaxed, zone);
            if most == 0 {
                return;
            }
            self.climb(&form.rows, step, most);
            step = step.saturating_sub(step >> 3);
        }
    }

    /// Begins with half of what may be of use.
    fn start(&mut self, rows: &[Row], costs: &[i128]) {
        self.bound = None;
        for (number, row) in rows.iter().enumerate() {
            let size = greatest_quotient(row.terms.as_slice(), costs);
            write(&mut self.sizes, number, size);
            write(&mut self.best, number, 0);
            let half = match row.sense {
                Sense::Le => size >> 1,
                Sense::Ge => 0i128.saturating_sub(size >> 1),
                Sense::Eq | Sense::In => 0,
            };
            write(&mut self.tried, number, half);
        }
    }

    /// Keeps the multipliers that were tried where their bound is the greatest so far.
    fn keep_greater(&mut self, bound: i128) {
        if let Some(known) = self.bound {
            if bound <= known {
                return;
            }
        }
        self.bound = Some(bound);
        for number in 0..self.tried.len() {
            write(&mut self.best, number, number_in(&self.tried, number));
        }
    }

    /// Notes by how much each row is beyond its side, weighed, and gives the greatest size of these.
    fn pull(&mut self, rows: &[Row], relaxed: &Relaxed, zone: &[Span]) -> u128 {
        let mut most = 0;
        for (number, row) in rows.iter().enumerate() {
            let sum = sum_at_least(row.terms.as_slice(), relaxed, zone);
            let miss = miss_of(row, number_in(&self.tried, number), sum);
            let pull = number_in(&self.sizes, number).saturating_mul(miss);
            write(&mut self.pulls, number, pull);
            most = pull.unsigned_abs().max(most);
        }
        most
    }

    /// Moves the multipliers: the one that is pulled most by this part of its size.
    fn climb(&mut self, rows: &[Row], step: i128, most: u128) {
        for (number, row) in rows.iter().enumerate() {
            let share = share_of(number_in(&self.pulls, number), most);
            let whole = number_in(&self.sizes, number).saturating_mul(step) >> DIGITS;
            let moved = whole.saturating_mul(share) >> DIGITS;
            let now = number_in(&self.tried, number).saturating_add(moved);
            write(&mut self.tried, number, fitting(&row.sense, &now));
        }
    }
}

/// Puts a number into a place that is there.
fn write(list: &mut Vec<i128>, place: usize, number: i128) {
    if place < list.len() {
        list[place] = number;
    }
}

/// The size of a scaled cost for each unit of a coefficient, 0 where that is more than can be held.
fn quotient(cost: i128, coef: i64) -> i128 {
    let scaled = cost.unsigned_abs().saturating_mul(1 << DIGITS);
    match scaled.checked_div(u128::from(coef.unsigned_abs())) {
        Some(found) => i128::try_from(found).unwrap_or(0),
        None => 0,
    }
}

/// The greatest scaled cost for each unit of a coefficient.
fn greatest_quotient(terms: &[Term], costs: &[i128]) -> i128 {
    let mut most = 0;
    for term in terms {
        let cost = number_in(costs, term.var as usize);
        most = quotient(cost, term.coef).max(most);
    }
    most
}

/// The number of a span at which a cost is least.
fn cheapest(span: &Span, cost: i128) -> i128 {
    if cost < 0 {
        i128::from(span.hi)
    } else {
        i128::from(span.lo)
    }
}

/// The bound of adjusted costs in a zone.
fn bound_of(relaxed: &Relaxed, zone: &[Span]) -> i128 {
    let mut sum = 0i128.saturating_sub(relaxed.offset);
    for (place, span) in zone.iter().enumerate() {
        let cost = number_in(&relaxed.costs, place);
        sum = sum.saturating_add(cost.saturating_mul(cheapest(span, cost)));
    }
    sum
}

/// What terms sum up to where the adjusted costs are least.
fn sum_at_least(terms: &[Term], relaxed: &Relaxed, zone: &[Span]) -> i128 {
    let mut sum: i128 = 0;
    for term in terms {
        let place = term.var as usize;
        if let Some(span) = zone.get(place) {
            let number = cheapest(span, number_in(&relaxed.costs, place));
            sum = sum.saturating_add(i128::from(term.coef).saturating_mul(number));
        }
    }
    sum
}

/// By how much a row's sum is beyond the side that its multiplier stands for, or would stand for if it were pulled away
/// from 0.
fn miss_of(row: &Row, multiplier: i128, sum: i128) -> i128 {
    let over = sum.saturating_sub(i128::from(row.rhs));
    let under = sum.saturating_sub(i128::from(row.low));
    if multiplier > 0 {
        return over;
    }
    if multiplier < 0 {
        return under;
    }
    match row.sense {
        Sense::Le => over.max(0),
        Sense::Ge => under.min(0),
        Sense::Eq | Sense::In => over.max(0).saturating_add(under.min(0)),
    }
}

/// A pull in parts of the greatest.
fn share_of(pull: i128, most: u128) -> i128 {
    let unit = (most >> DIGITS).max(1);
    let parts = match pull.unsigned_abs().checked_div(unit) {
        Some(found) => i128::try_from(found).unwrap_or(0),
        None => 0,
    };
    if pull < 0 {
        0i128.saturating_sub(parts)
    } else {
        parts
    }
}
