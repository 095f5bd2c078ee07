// Whole multipliers of rows: those of the relaxation's optimum at the greatest scale, and those that show that there is
// no point.
use crate::numbers::product;
use crate::relaxation::CompactRelaxation;
use crate::rows::row_of;
use basis_factor::{place, put};
use block_program::{Blocked, MAX_MULTIPLIER, MAX_SCALE};
use bp_theory::{MasterRow, Row, Sense, Span};
use std::alloc::{AllocError, Global};
use std::num::{nearest_i64_to_f64, nearest_u64_to_f64, saturating_f64_to_i64};

// The powers of two by which a ray is scaled where its least or its greatest number was made 1.
const POWERS: [u32; 12] = [0, 1, 2, 4, 6, 8, 12, 16, 20, 26, 32, 36];

// The scales at which multipliers are tried.
const SCALES: [u32; 3] = [1 << 8, 1 << 14, MAX_SCALE];

// The greatest magnitude of a multiplier.
const MOST: f64 = 1.0995e12;

// The part of the greatest number below which numbers of a ray count as 0.
const NOTHING: f64 = 1e-7;

impl CompactRelaxation {
    /// The multipliers of the basis by row at the greatest scale.
    pub(crate) fn scaled(&self, alloc: Global, b: &Blocked) -> Result<Vec<i64>, AllocError> {
        let scale = nearest_u64_to_f64(u64::from(MAX_SCALE));
        whole(alloc, b, self.lp.last_multipliers(), scale)
    }

    /// Whole multipliers by row of the ray, that show at scale 0, where costs drop out, that there is no point within
    /// spans.
    pub(crate) fn emptying(
        &mut self,
        alloc: Global,
        b: &Blocked,
        spans: &[Span],
    ) -> Result<Option<Vec<i64>>, AllocError> {
        let ray = self.lp.ray().to_vec(alloc)?;
        let greatest = greatest(ray.as_slice());
        let least = least(ray.as_slice(), greatest * NOTHING, greatest);
        if !(greatest > 0.0) {
            return Ok(None);
        }
        for base in [1.0 / least, 1.0 / greatest] {
            for power in POWERS {
                let size = base * nearest_u64_to_f64(1 << power);
                if greatest * size < MOST {
                    for factor in [size, -size] {
                        let mults = whole(alloc, b, ray.as_slice(), factor)?;
                        if self.least_value(b, mults.as_slice(), spans) > 0 {
                            return Ok(Some(mults));
                        }
                    }
                }
            }
        }
        Ok(None)
    }

    /// The scale at which multipliers at the greatest scale show a wanted bound within spans, the smaller the better;
    /// where none does, the one that shows the most. The wanted bound is a cost, not scaled.
    pub(crate) fn scale_of(
        &mut self,
        b: &Blocked,
        mults: &[i64],
        spans: &[Span],
        wanted: i64,
    ) -> u32 {
        let mut found = MAX_SCALE;
        let mut most = f64::MIN;
        for scale in SCALES {
            let unit = nearest_u64_to_f64(u64::from(scale));
            let bound = (self.about_value(b, mults, spans, scale) / unit).ceil();
            if bound > most {
                most = bound;
                found = scale;
            }
            if most >= nearest_i64_to_f64(wanted) {
                break;
            }
        }
        found
    }

    // What multipliers at the greatest scale, rounded to another, give at least within spans: exactly while all sums
    // are below `2^53`.
    fn about_value(&mut self, b: &Blocked, mults: &[i64], spans: &[Span], scale: u32) -> f64 {
        let model = b.model();
        let unit = nearest_u64_to_f64(u64::from(scale));
        self.rests.fill(0.0);
        for term in model.costs() {
            let cost = nearest_i64_to_f64(term.coef) * unit;
            put(self.rests.as_mut_slice(), term.var as usize, cost);
        }
        let mut sum = nearest_i64_to_f64(model.constant()) * unit;
        for (number, mult) in mults.iter().enumerate() {
            let mult = at_scale(*mult, scale);
            if mult != 0 {
                if let Some(row) = row_of(b, self.cuts.as_slice(), place(number)) {
                    let factor = nearest_i64_to_f64(mult);
                    sum += factor * nearest_i64_to_f64(side(row, mult));
                    take_about(self.rests.as_mut_slice(), row, factor);
                }
            }
        }
        for (rest, span) in self.rests.iter().zip(spans) {
            let end = if *rest > 0.0 { span.lo } else { span.hi };
            sum += *rest * nearest_i64_to_f64(end);
        }
        sum
    }

    // What multipliers give at least within spans where nothing costs. What they leave of each variable is kept.
    fn least_value(&mut self, b: &Blocked, mults: &[i64], spans: &[Span]) -> i128 {
        self.whole.fill(0);
        let mut sum: i128 = 0;
        for (number, mult) in mults.iter().enumerate() {
            if *mult != 0 {
                if let Some(row) = row_of(b, self.cuts.as_slice(), place(number)) {
                    sum = sum.saturating_add(product(mult, &side(row, *mult)));
                    take_row(self.whole.as_mut_slice(), row, *mult);
                }
            }
        }
        for (reduced, span) in self.whole.iter().zip(spans) {
            let end = if *reduced > 0 { span.lo } else { span.hi };
            sum = sum.saturating_add(reduced.saturating_mul(i128::from(end)));
        }
        sum
    }

    /// Notes which variables' spans the multipliers use that showed last that there is no point.
    pub(crate) fn note_emptying(&mut self, spans: &[Span]) {
        self.scores.begin_uses();
        for var in 0..self.whole.len() {
            let reduced = self.whole[var];
            if let Some(span) = spans.get(var) {
                let root = self.root_span(var);
                if (reduced > 0 && span.lo > root.lo) || (reduced < 0 && span.hi < root.hi) {
                    self.scores.note_use(var);
                }
            }
        }
    }

    /// Notes which variables' spans the multipliers of the basis use.
    pub(crate) fn note_shutting(&mut self, spans: &[Span]) {
        self.scores.begin_uses();
        for var in 0..self.lp.columns() {
            let reduced = self.lp.reduced_cost(var, self.lp.last_multipliers());
            if let Some(span) = spans.get(var) {
                let root = self.root_span(var);
                if (reduced > 1e-9 && span.lo > root.lo) || (reduced < -1e-9 && span.hi < root.hi) {
                    self.scores.note_use(var);
                }
            }
        }
    }
}

/// A multiplier at the greatest scale, rounded to the nearest at another, within the limit; at scale 0 as it is.
pub fn at_scale(mult: i64, scale: u32) -> i64 {
    if scale == 0 {
        return mult;
    }
    let divisor = i128::from(MAX_SCALE);
    let half = divisor / 2;
    let wanted = product(&mult, &i64::from(scale));
    let apart = if wanted < 0 {
        wanted.saturating_sub(half)
    } else {
        wanted.saturating_add(half)
    };
    let most = i128::from(MAX_MULTIPLIER);
    (apart / divisor).min(most).max(-most) as i64
}

// Takes a multiple of a row from numbers by variable.
fn take_row(numbers: &mut [i128], row: &Row, mult: i64) {
    for term in row.terms.as_slice() {
        let place = term.var as usize;
        if place < numbers.len() {
            numbers[place] = numbers[place].saturating_sub(product(&term.coef, &mult));
        }
    }
}

// Takes a multiple of a row from numbers by variable, about.
fn take_about(numbers: &mut [f64], row: &Row, factor: f64) {
    for term in row.terms.as_slice() {
        let place = term.var as usize;
        if place < numbers.len() {
            numbers[place] -= nearest_i64_to_f64(term.coef) * factor;
        }
    }
}

// The side of a row that a multiplier is for.
fn side(row: &Row, mult: i64) -> i64 {
    if mult > 0 { row.low } else { row.rhs }
}

// Numbers times a factor, rounded, by row; 0 where the sign is none of the row's.
fn whole(alloc: Global, b: &Blocked, numbers: &[f64], factor: f64) -> Result<Vec<i64>, AllocError> {
    let mut mults = Vec::new(alloc);
    for (row, number) in numbers.iter().enumerate() {
        let mult = saturating_f64_to_i64((*number * factor).round());
        mults.push(if fits(b.master_row(place(row)), mult) {
            mult
        } else {
            0
        })?;
    }
    Ok(mults)
}

// Whether a multiplier's sign is one of a row's.
fn fits(row: Option<MasterRow>, mult: i64) -> bool {
    match row {
        None => false,
        Some(row) => match row.sense {
            Sense::Le => mult < 0,
            Sense::Ge => mult > 0,
            Sense::Eq => true,
            Sense::In => true,
        },
    }
}

// The greatest magnitude.
fn greatest(numbers: &[f64]) -> f64 {
    let mut greatest = 0.0;
    for number in numbers {
        if number.abs() > greatest {
            greatest = number.abs();
        }
    }
    greatest
}

// The least magnitude above a limit.
fn least(numbers: &[f64], limit: f64, greatest: f64) -> f64 {
    let mut least = greatest;
    for number in numbers {
        let size = number.abs();
        if size > limit && size < least {
            least = size;
        }
    }
    least
}
