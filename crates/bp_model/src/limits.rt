// The limits of a model's parts.
ghost use Rattle.std.specs.Prelude.{◌≡◌, ◌↔◌, ◌+◌, ◌<◌, ◌≤◌, ◌^◌, length, All, IsTrue, IsOk, OnOk, IfErr, MatchBool, MatchOption, ◌<ℤ◌, sum_by};
ghost use Rattle.std.specs.Int.{int_gap};
ghost use Rattle.bp_theory.specs.Limits.{most_digits};
ghost use Rattle.bp_theory.specs.Digits.{binary_digits, span_bits, zone_bits};
ghost use Rattle.bp_model.specs.Named.{HasSmallEnds};
ghost use Rattle.bp_model.specs.Parts.{AreFitting, IsFirstCrossed, IsOverLimit, NoneCrossed, IsWithinLimits, written_terms};
ghost use Rattle.bp_model.specs.Tidy.{HasSpansFault};

use crate::parts::{ModelFault, Parts};
use bp_theory::{Limits, Row, Span};

/// The greatest magnitude of a number in a text.
pub const MAX_NUMBER: i64 = (1 << 62) - 1;

/// Whether no span is crossed, and all bits together keep the limit.
pub fn check_spans(limits: Limits, spans: &[Span]) -> Result<(), ModelFault>
    requires { length spans.now < 2 ^ 32 }
    ensures crossed { OnOk result (NoneCrossed spans.now) }
    ensures bits { OnOk result (zone_bits spans.now ≤ most_digits limits) }
    ensures fault { IfErr result (HasSpansFault limits spans.now) }
{
    if let Some(var) = first_crossed(spans) {
        return Err(ModelFault::Crossed(var));
    }
    if bits(spans) > u64::from(limits.digits()) {
        return Err(ModelFault::Bits);
    }
    Ok(())
}

/// Whether the numbers of variables, rows and written terms and the spans' ends keep the limits.
pub fn keeps_limits(parts: &Parts) -> bool
    requires { AreFitting parts.now }
    ensures { MatchBool result (IsWithinLimits parts.now) (IsOverLimit parts.now) }
{
    if parts.spans.len() > parts.limits.variables() as usize {
        return false;
    }
    if parts.rows.len() > parts.limits.rows() as usize {
        return false;
    }
    if written(parts) > u128::from(parts.limits.terms()) {
        return false;
    }
    has_small_ends(parts.spans.as_slice())
}

// The first span whose lower end is above its upper end.
fn first_crossed(spans: &[Span]) -> Option<u32>
    requires { length spans.now < 2 ^ 32 }
    ensures { MatchOption result (NoneCrossed spans.now) (IsFirstCrossed spans.now) }
{
    for i in 0..spans.len() {
        if is_crossed(&spans[i]) {
            return Some(i as u32);
        }
    }
    None
}

// Whether the lower end is above the upper end.
fn is_crossed(span: &Span) -> bool
    ensures { IsTrue result ↔ (span.now.hi <ℤ span.now.lo) }
{
    span.hi < span.lo
}

// The binary digits of all spans together.
fn bits(spans: &[Span]) -> u64
    requires { length spans.now < 2 ^ 32 }
    ensures { result ≡ zone_bits spans.now }
{
    let mut sum = 0;
    for span in spans {
        sum += u64::from(span_bits(span));
    }
    sum
}

// The binary digits of a span's length.
fn span_bits(span: &Span) -> u32
    ensures value { result ≡ span_bits span.now }
    ensures few { result ≤ 64 }
{
    digits(length_of(&span.lo, &span.hi))
}

// The binary digits of a number.
fn digits(number: u64) -> u32
    ensures value { result ≡ binary_digits number }
    ensures few { result ≤ 64 }
{
    64 - number.leading_zeros()
}

// How far the upper end is above the lower end, 0 where it isn't.
fn length_of(lo: &i64, hi: &i64) -> u64
    ensures { result ≡ int_gap lo.now hi.now }
{
    if *hi <= *lo { 0 } else { hi.abs_diff(*lo) }
}

// How many terms are written in the objective and the rows.
fn written(parts: &Parts) -> u128
    requires { AreFitting parts.now }
    ensures { result ≡ written_terms parts.now }
{
    parts.costs.len() as u128 + written_in(parts.rows.as_slice())
}

// How many terms are written in rows.
fn written_in(rows: &[Row]) -> u128
    requires { length rows.now < 2 ^ 32 }
    ensures value { result ≡ sum_by (λ row. length row.terms) rows.now }
    ensures fits { result < 2 ^ 96 }
{
    let mut sum = 0;
    for row in rows {
        sum += row.terms.len() as u128;
    }
    sum
}

// Whether all ends of spans are numbers of texts.
fn has_small_ends(spans: &[Span]) -> bool
    ensures { IsTrue result ↔ All HasSmallEnds spans.now }
{
    spans.iter().all(has_small_end)
}

// Whether both ends of a span are numbers of texts.
fn has_small_end(span: &Span) -> bool
    ensures { IsTrue result ↔ HasSmallEnds span.now }
{
    -MAX_NUMBER <= span.lo
        && span.lo <= MAX_NUMBER
        && -MAX_NUMBER <= span.hi
        && span.hi <= MAX_NUMBER
}
