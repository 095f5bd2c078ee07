// Spans narrowed by rows, one by one: for dives alone.
use crate::numbers::product;
use crate::relaxation::CompactRelaxation;
use block_program::Blocked;
use bp_theory::{Row, Sense, Span};
use std::alloc::AllocError;

// How many rows may be looked at.
const MOST_ROWS: usize = 1 << 14;

impl CompactRelaxation {
    /// Narrows spans by the rows of a variable, and then by those of what changed; whether a row can't be met.
    pub(crate) fn is_empty_behind(
        &mut self,
        b: &Blocked,
        spans: &mut [Span],
        var: u32,
    ) -> Result<bool, AllocError> {
        self.queue.clear();
        self.is_queued.fill(false);
        self.enqueue(var)?;
        for next in 0..MOST_ROWS {
            let Some(place) = self.queue.get(next) else {
                break;
            };
            let row = *place;
            if let Some(flag) = self.is_queued.get_mut(row as usize) {
                *flag = false;
            }
            if row < b.model().rows() && self.is_missed(b.model().row(row), spans)? {
                return Ok(true);
            }
        }
        Ok(false)
    }

    // Puts the rows of a variable into the queue.
    fn enqueue(&mut self, var: u32) -> Result<(), AllocError> {
        for entry in self.lp.column(var as usize) {
            let place = entry.place as usize;
            if place < self.is_queued.len() && !self.is_queued[place] {
                self.is_queued[place] = true;
                self.queue.push(entry.place)?;
            }
        }
        Ok(())
    }

    // Narrows spans by both sides of a row; whether one can't be met.
    fn is_missed(&mut self, row: &Row, spans: &mut [Span]) -> Result<bool, AllocError> {
        if has_upper(row) {
            let slack = i128::from(row.rhs).saturating_sub(least_sum(row, spans, 1));
            if self.is_below(row, spans, 1, slack)? {
                return Ok(true);
            }
        }
        if has_lower(row) {
            let slack = least_sum(row, spans, -1)
                .saturating_neg()
                .saturating_sub(i128::from(row.low));
            if self.is_below(row, spans, -1, slack)? {
                return Ok(true);
            }
        }
        Ok(false)
    }

    // Narrows spans by what is left of one side of a row, with its sign; whether less than nothing is.
    fn is_below(
        &mut self,
        row: &Row,
        spans: &mut [Span],
        sign: i64,
        slack: i128,
    ) -> Result<bool, AllocError> {
        if slack < 0 {
            return Ok(true);
        }
        for term in row.terms.as_slice() {
            let place = term.var as usize;
            if place < spans.len() {
                let coef = term.coef.saturating_mul(sign);
                if let Some(span) = narrowed(&spans[place], coef, slack) {
                    spans[place] = span;
                    self.enqueue(term.var)?;
                }
            }
        }
        Ok(false)
    }
}

// The least sum of a row's terms over spans, with a sign.
fn least_sum(row: &Row, spans: &[Span], sign: i64) -> i128 {
    let mut sum: i128 = 0;
    for term in row.terms.as_slice() {
        if let Some(span) = spans.get(term.var as usize) {
            let coef = term.coef.saturating_mul(sign);
            let end = if coef > 0 { span.lo } else { span.hi };
            sum = sum.saturating_add(product(&coef, &end));
        }
    }
    sum
}

// A span narrowed so that a coefficient takes no more than what is left, where it could.
fn narrowed(span: &Span, coef: i64, slack: i128) -> Option<Span> {
    let size = i128::from(coef.unsigned_abs());
    let width = i128::from(span.hi.abs_diff(span.lo));
    if size == 0 || span.hi <= span.lo || size.saturating_mul(width) <= slack {
        return None;
    }
    let Some(steps) = slack.checked_div(size) else {
        return None;
    };
    let steps = whole(steps).max(0);
    if coef > 0 {
        Some(Span {
            lo: span.lo,
            hi: span.lo.saturating_add(steps),
        })
    } else {
        Some(Span {
            lo: span.hi.saturating_sub(steps),
            hi: span.hi,
        })
    }
}

// A number of 64 bits that is nearest.
fn whole(number: i128) -> i64 {
    number.max(i128::from(i64::MIN)).min(i128::from(i64::MAX)) as i64
}

// Whether a row's sum has an upper side.
fn has_upper(row: &Row) -> bool {
    match row.sense {
        Sense::Ge => false,
        _ => true,
    }
}

// Whether a row's sum has a lower side.
fn has_lower(row: &Row) -> bool {
    match row.sense {
        Sense::Le => false,
        _ => true,
    }
}
