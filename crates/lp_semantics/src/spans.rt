// The variables' spans, their faults and their binary digits.
ghost use Rattle.std.specs.Prelude.{◌≡◌, ◌≤◌, ◌<◌, ◌^◌, IfOk, IfErr, IfSome, IfNone, map, All, None, Some, MatchResult, length};
ghost use Rattle.std.specs.Int.{int_gap};
ghost use Rattle.bp_theory.specs.Limits.{most_digits};
ghost use Rattle.bp_theory.specs.Digits.{span_bits, zone_bits};
ghost use Rattle.lp_semantics.specs.Meaning.{span_of};
ghost use Rattle.lp_semantics.specs.Numbered.{ends_in, fault_in, IsFirstPast};
ghost use Rattle.lp_semantics.specs.PartsOf.{IsFaultOfTable};
ghost use Rattle.lp_semantics.specs.Reading.{ends_fault};

use crate::MeaningFault;
use crate::bounds::Stated;
use crate::extended::{Ends, Extended, greater_of, is_at_most, lesser_of};
use bp_theory::{Items, Limits, Span};
use lp_token::LpKind;
use std::alloc::{AllocError, Global};

// The ends of a variable: a binary's are intersected with 0..1.
fn ends_of(stated: &Stated) -> Ends
    ensures { result ≡ ends_in stated.now }
{
    if stated.binary {
        Ends {
            lo: greater_of(&stated.lo, &Extended::Whole(0)),
            hi: lesser_of(&stated.hi, &Extended::Whole(1)),
        }
    } else {
        Ends {
            lo: stated.lo,
            hi: stated.hi,
        }
    }
}

// The span of these ends, or what is wrong with them.
fn span_of_ends(ends: &Ends, listed: bool) -> Result<Span, LpKind>
    ensures sound { IfOk result (λ span. (ends_fault ends.now listed ≡ None) ×
        (span ≡ span_of ends.now)) }
    ensures fault { IfErr result (λ kind. ends_fault ends.now listed ≡ Some kind) }
{
    if !is_at_most(&ends.lo, &ends.hi) {
        return Err(LpKind::Crossed);
    }
    match (&ends.lo, &ends.hi) {
        (Extended::Whole(lo), Extended::Whole(hi)) => {
            if !listed && lo < hi {
                return Err(LpKind::Continuous);
            }
            Ok(Span { lo: *lo, hi: *hi })
        }
        _ => Err(LpKind::Unbounded),
    }
}

// The span of a variable, or what is wrong with its bounds.
fn span_in(stated: &Stated) -> Result<Span, LpKind>
    ensures sound { IfOk result (λ span. (fault_in stated.now ≡ None) ×
        (span ≡ span_of (ends_in stated.now))) }
    ensures fault { IfErr result (λ kind. fault_in stated.now ≡ Some kind) }
{
    let ends = ends_of(stated);
    let listed = stated.general || stated.binary;
    span_of_ends(&ends, listed)
}

/// The spans of all variables, or the first variable at fault.
pub fn spans_of(alloc: Global, table: &[Stated]) -> Result<Items<Span>, MeaningFault>
    requires { length table.now < 2 ^ 32 }
    ensures spans { IfOk result (λ spans. spans ≡ map (λ s. span_of (ends_in s)) table.now) }
    ensures sound { IfOk result (λ _. All (λ s. fault_in s ≡ None) table.now) }
    ensures fault { IfErr result (IsFaultOfTable table.now) }
{
    let mut spans = Items::new(alloc);
    for (number, stated) in table.iter().enumerate() {
        match span_in(stated) {
            Ok(span) => spans.push(span)?,
            Err(kind) => return Err(MeaningFault::At {
                variable: number as u32,
                kind,
            }),
        }
    }
    Ok(spans)
}

// The length of a span.
fn length_of(lo: &i64, hi: &i64) -> u64
    ensures { result ≡ int_gap lo.now hi.now }
{
    if *hi <= *lo { 0 } else { hi.abs_diff(*lo) }
}

// How many binary digits the length of a span has.
fn bits_of(span: &Span) -> u32
    ensures bits { result ≡ span_bits span.now }
    ensures most { result ≤ 64 }
{
    64 - length_of(&span.lo, &span.hi).leading_zeros()
}

/// The variable with which the spans' binary digits are too many, if there is one.
pub fn past_digits(limits: Limits, spans: &[Span]) -> Option<u32>
    requires { length spans.now < 2 ^ 32 }
    ensures few { IfNone result (zone_bits spans.now ≤ most_digits limits) }
    ensures past { IfSome result (IsFirstPast limits spans.now) }
{
    let mut digits = 0;
    for (number, span) in spans.iter().enumerate() {
        digits += bits_of(span);
        if digits > limits.digits() {
            return Some(number as u32);
        }
    }
    None
}
