// What rows can reach over spans: hints, which exact bounds judge.
use block_program::{Blocked, MAX_MULTIPLIER};
use bp_theory::{Row, Sense, Span, Term};

/// The least and the greatest sum of a row's terms over spans.
#[derive(Clone, Copy)]
pub struct Reach {
    /// The least sum.
    pub least: i128,
    /// The greatest sum.
    pub most: i128,
}

/// What terms can reach over spans.
pub fn reach_of(terms: &[Term], spans: &[Span]) -> Reach {
    let mut least: i128 = 0;
    let mut most: i128 = 0;
    for term in terms {
        let ends = term_ends(term, spans);
        least = least.saturating_add(ends.least);
        most = most.saturating_add(ends.most);
    }
    Reach { least, most }
}

/// What a term can reach over its variable's span.
pub fn term_ends(term: &Term, spans: &[Span]) -> Reach {
    match spans.get(term.var as usize) {
        None => Reach { least: 0, most: 0 },
        Some(span) => ends(&term.coef, span),
    }
}

/// What a coefficient can reach over a span.
pub fn ends(coef: &i64, span: &Span) -> Reach {
    let low = product(coef, &span.lo);
    let high = product(coef, &span.hi);
    if *coef < 0 {
        Reach {
            least: high,
            most: low,
        }
    } else {
        Reach {
            least: low,
            most: high,
        }
    }
}

/// The first master row that no point of the spans meets, with the sign that shows it.
pub fn unreached(b: &Blocked, spans: &[Span]) -> Option<(u32, i64)> {
    let model = b.model();
    for i in 0..model.rows() {
        let row = model.row(i);
        if b.master_row(i).is_some() {
            if let Some(sign) = missing_sign(row, &short_reach(row.terms.as_slice(), spans)) {
                return Some((i, sign));
            }
        }
    }
    None
}

// What a row's terms can reach over spans, by sums of 64 bits: a model's are below `2^62`.
fn short_reach(terms: &[Term], spans: &[Span]) -> Reach {
    let mut least: i64 = 0;
    let mut most: i64 = 0;
    for term in terms {
        if let Some(span) = spans.get(term.var as usize) {
            let low = term.coef.saturating_mul(span.lo);
            let high = term.coef.saturating_mul(span.hi);
            least = least.saturating_add(low.min(high));
            most = most.saturating_add(low.max(high));
        }
    }
    Reach {
        least: i128::from(least),
        most: i128::from(most),
    }
}

/// The sign that shows that a row can't be met, where it can't.
pub fn missing_sign(row: &Row, reach: &Reach) -> Option<i64> {
    if has_upper(row) && reach.least > i128::from(row.rhs) {
        return Some(-1);
    }
    if has_lower(row) && reach.most < i128::from(row.low) {
        return Some(1);
    }
    None
}

/// Whether a row's sum has an upper side.
pub fn has_upper(row: &Row) -> bool {
    match row.sense {
        Sense::Ge => false,
        _ => true,
    }
}

/// Whether a row's sum has a lower side.
pub fn has_lower(row: &Row) -> bool {
    match row.sense {
        Sense::Le => false,
        _ => true,
    }
}

/// The product of two numbers.
pub fn product(a: &i64, b: &i64) -> i128 {
    i128::from(*a) * i128::from(*b)
}

/// A quotient towards 0, or 0 where the divisor isn't positive.
pub fn quotient(number: i128, divisor: i128) -> i128 {
    if divisor > 0 { number / divisor } else { 0 }
}

/// A number within the limit of multipliers, 2^40 in size.
pub fn clipped(number: i128) -> i64 {
    let most = i128::from(MAX_MULTIPLIER);
    number.min(most).max(-most) as i64
}

/// A count as a number.
pub fn count(many: usize) -> i64 {
    match i64::try_from(many) {
        Ok(number) => number,
        Err(_) => i64::MAX,
    }
}

/// The number at a place, 0 where there is none.
pub fn at(numbers: &[i64], place: usize) -> i64 {
    match numbers.get(place) {
        Some(number) => *number,
        None => 0,
    }
}

/// The sum at a place, 0 where there is none.
pub fn sum_at(sums: &[i128], place: usize) -> i128 {
    match sums.get(place) {
        Some(sum) => *sum,
        None => 0,
    }
}

/// Writes a number at a place, if it is there.
pub fn put(numbers: &mut [i64], place: usize, number: i64) {
    if place < numbers.len() {
        numbers[place] = number;
    }
}

/// A number of 64 bits that is nearest.
pub fn whole(number: i128) -> i64 {
    number.max(i128::from(i64::MIN)).min(i128::from(i64::MAX)) as i64
}
