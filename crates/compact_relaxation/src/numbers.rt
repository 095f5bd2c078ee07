// Numbers, their places, and what is whole of them.
use bp_theory::Span;
use dual_simplex::Range;
use std::num::{nearest_i64_to_f64, saturating_f64_to_i64};

/// How far from whole a value is to be, so that it counts as fractional.
pub const FRACTION: f64 = 1e-6;

/// The number at a place, 0 where there is none.
pub fn at(numbers: &[f64], place: usize) -> f64 {
    match numbers.get(place) {
        Some(number) => *number,
        None => 0.0,
    }
}

/// The span at a place, that of 0 where there is none.
pub fn span_at(spans: &[Span], place: usize) -> Span {
    match spans.get(place) {
        Some(span) => *span,
        None => Span { lo: 0, hi: 0 },
    }
}

/// A span as a range.
pub fn range_of_span(span: &Span) -> Range {
    Range {
        lower: nearest_i64_to_f64(span.lo),
        upper: nearest_i64_to_f64(span.hi),
    }
}

/// The whole number nearest to a value, within a span.
pub fn nearest_in(value: f64, span: &Span) -> i64 {
    within(saturating_f64_to_i64(value.round()), span)
}

/// The whole number below a value, within a span.
pub fn floor_in(value: f64, span: &Span) -> i64 {
    within(saturating_f64_to_i64(value.floor()), span)
}

// A number, or the end of a span that is nearest.
fn within(number: i64, span: &Span) -> i64 {
    if number < span.lo {
        span.lo
    } else if number > span.hi {
        span.hi
    } else {
        number
    }
}

/// How far a value is above the whole number below it.
pub fn part_of(value: f64) -> f64 {
    value - value.floor()
}

/// Whether a value is fractional.
pub fn is_fractional(value: f64) -> bool {
    let part = part_of(value);
    part > FRACTION && part < 1.0 - FRACTION
}

/// The product of two numbers.
pub fn product(a: &i64, b: &i64) -> i128 {
    i128::from(*a).saturating_mul(i128::from(*b))
}
