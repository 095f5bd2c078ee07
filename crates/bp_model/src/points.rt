// What is wrong with a point, and the sums that tell it.
ghost use Rattle.std.specs.Prelude.{◌≡◌, ◌↔◌, ℤ, ◌+ℤ◌, ◌*ℤ◌, ◌<◌, ◌^◌, length, All, IsTrue, FitsSigned, MatchOption, unsigned_abs};
ghost use Rattle.std.specs.Int.{w128};
ghost use Rattle.bp_theory.specs.Program.{IsInside, IsWithin, Meets, MeetsRow, activity, value_at};
ghost use Rattle.bp_model.specs.Miss.{CanSum, IsFirstMissed, IsFirstOutside};

use bp_theory::{Row, Sense, Span, Term};

/// What is wrong with a point: its length, a variable out of its span, or a missed row.
#[derive(Clone, Copy, Debug, PartialEq, Eq)]
pub enum Miss {
    /// It has another number of numbers than there are variables.
    Length,
    /// The number of this variable lies outside its span.
    Bound(u32),
    /// It doesn't meet this row.
    Row(u32),
}

/// The plain sum of coefficient times number.
pub fn activity(terms: &[Term], point: &[i64]) -> i128
    requires { CanSum point.now terms.now }
    ensures { result ≡ activity terms.now point.now }
{
    let mut sum: i128 = 0;
    for term in terms {
        let more = product(term, point);
        sum = plus(sum, more);
    }
    sum
}

/// Whether a sum meets the sense of a row with its sides.
pub fn meets(row: &Row, sum: i128) -> bool
    ensures { IsTrue result ↔ Meets row.now.sense row.now.low row.now.rhs sum }
{
    match row.sense {
        Sense::Le => sum <= row.rhs as i128,
        Sense::Ge => row.low as i128 <= sum,
        Sense::Eq => row.low as i128 <= sum && sum <= row.rhs as i128,
        Sense::In => row.low as i128 <= sum && sum <= row.rhs as i128,
    }
}

/// The first variable whose number lies outside its span.
pub fn first_outside(spans: &[Span], point: &[i64]) -> Option<u32>
    requires each { length point.now ≡ length spans.now }
    requires few { length spans.now < 2 ^ 32 }
    ensures { MatchOption result (IsInside spans.now point.now)
        (IsFirstOutside spans.now point.now) }
{
    for i in 0..spans.len() {
        if !is_within(&spans[i], &point[i]) {
            return Some(i as u32);
        }
    }
    None
}

/// The first row that a point doesn't meet.
pub fn first_missed(rows: &[Row], point: &[i64]) -> Option<u32>
    requires few { length rows.now < 2 ^ 32 }
    requires sums { All (λ row. CanSum point.now row.terms) rows.now }
    ensures { MatchOption result (All (MeetsRow point.now) rows.now)
        (IsFirstMissed rows.now point.now) }
{
    for i in 0..rows.len() {
        if !meets_row(&rows[i], point) {
            return Some(i as u32);
        }
    }
    None
}

// Whether a point meets a row.
fn meets_row(row: &Row, point: &[i64]) -> bool
    requires { CanSum point.now row.now.terms }
    ensures { IsTrue result ↔ MeetsRow point.now row.now }
{
    meets(row, activity(row.terms.as_slice(), point))
}

// Whether a number lies within a span.
fn is_within(span: &Span, number: &i64) -> bool
    ensures { IsTrue result ↔ IsWithin span.now number.now }
{
    span.lo <= *number && *number <= span.hi
}

// A term's coefficient times its variable's number, which 128 bits hold.
fn product(term: &Term, point: &[i64]) -> i128
    requires { term.now.var < length point.now }
    ensures { result ≡ term.now.coef *ℤ value_at point.now term.now.var }
{
    term.coef as i128 * point[term.var as usize] as i128
}

// A sum that fits.
fn plus(a: i128, b: i128) -> i128
    requires { FitsSigned w128 (a +ℤ b) }
    ensures { result ≡ a +ℤ b }
{
    a + b
}

// A constant and a sum, which 62 bits hold together.
pub fn total(constant: &i64, sum: &i128) -> i64
    requires { unsigned_abs (constant.now +ℤ sum.now) < 2 ^ 62 }
    ensures { result ≡ constant.now +ℤ sum.now }
{
    (*constant as i128 + *sum) as i64
}
