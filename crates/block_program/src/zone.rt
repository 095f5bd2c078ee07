// Zones: a span for each variable, within the model's.
ghost use Rattle.std.specs.Prelude.{◌≡◌, ◌<ℤ◌, ◌+ℤ◌, pos};

use crate::blocked::Blocked;
use bp_theory::{Items, Span};
use std::alloc::{AllocError, Global};

/// A zone of a program's points: a span for each variable, each with a number.
#[derive(Drop)]
pub struct Zone {
    // By number of the variable, in the model's order.
    spans: Items<Span>,
}

impl std::marker::Model for Zone {
    ghost use Rattle.std.specs.Prelude.{List};
    ghost use Rattle.bp_theory.specs.declared.Span.{Span};
    ghost use Rattle.bp_theory.specs.Trees.{IsProper};

    ghost Value = { List Span };

    ghost view = { λ z. z.spans };

    ghost invariant = { λ z. IsProper z.spans };
}

impl Zone {
    ghost use Rattle.std.specs.Prelude.{◌≡◌, ◌<◌, ◌≤ℤ◌, length, IfOk, List, slice_set};
    ghost use Rattle.bp_theory.specs.declared.Span.{Span};
    ghost use Rattle.bp_theory.specs.Program.{span_at};
    ghost use Rattle.bp_theory.specs.Trees.{low_part, high_part, IsSoundSplit, IsProper, IsZone};

    /// The zone of all points of a program: the model's spans.
    pub fn root(alloc: Global, b: &Blocked) -> Result<Zone, AllocError>
        ensures spans { IfOk result (λ zone. zone ≡ b.now.named.program.spans) }
        ensures zone { IfOk result (λ zone. IsZone b.now.named.program.spans zone) }
    {
        let spans = b.model().spans();
        let copy = spans.to_vec(alloc)?;
        Ok(Zone {
            spans: Items::from_vec(copy),
        })
    }

    /// The spans, in the order of the variables.
    pub fn spans(&self) -> &[Span]
        ensures spans { result.now ≡ self.now }
        ensures proper { IsProper self.now }
    {
        self.spans.as_slice()
    }

    /// The span of a variable.
    pub fn span(&self, var: u32) -> Span
        requires { var < length self.now }
        ensures { result ≡ span_at self.now var }
    {
        self.spans.as_slice()[var as usize]
    }

    /// The same zone but for a variable's span, which has a number. Nothing is copied.
    pub fn with_span(self, var: u32, span: &Span) -> Zone
        requires there { var < length self }
        requires proper { span.now.lo ≤ℤ span.now.hi }
        ensures { result ≡ slice_set self var span.now }
    {
        let mut spans = self.spans.into_vec();
        spans[var as usize] = *span;
        Zone {
            spans: Items::from_vec(spans),
        }
    }

    /// The parts of a sound split: one with the numbers of a variable up to `at`, and one with those behind it.
    pub fn split(&self, alloc: Global, var: u32, at: i64) -> Result<(Zone, Zone), AllocError>
        requires { IsSoundSplit self.now var at }
        ensures low { IfOk result (λ parts. parts.0 ≡ low_part self.now var at) }
        ensures high { IfOk result (λ parts. parts.1 ≡ high_part self.now var at) }
        ensures zones { (root : List Span) → IsZone root self.now →
            IfOk result (λ parts. IsZone root parts.0 × IsZone root parts.1) }
    {
        let low = self.copy(alloc)?.into_low(var, &at);
        let high = self.copy(alloc)?.into_high(var, &at);
        Ok((low, high))
    }

    /// The same zone once more.
    pub fn copy(&self, alloc: Global) -> Result<Zone, AllocError>
        ensures { IfOk result (λ zone. zone ≡ self.now) }
    {
        let spans = self.spans.as_slice().to_vec(alloc)?;
        Ok(Zone {
            spans: Items::from_vec(spans),
        })
    }

    /// The zone made the part of a sound split with the numbers of a variable up to `at`. It takes no memory.
    pub fn into_low(self, var: u32, at: &i64) -> Zone
        requires { IsSoundSplit self var at.now }
        ensures { result ≡ low_part self var at.now }
    {
        let mut spans = self.spans.into_vec();
        let span = spans[var as usize];
        spans[var as usize] = up_to(&span, at);
        Zone {
            spans: Items::from_vec(spans),
        }
    }

    /// The zone made the part of a sound split with the numbers of a variable behind `at`. It takes no memory.
    pub fn into_high(self, var: u32, at: &i64) -> Zone
        requires { IsSoundSplit self var at.now }
        ensures { result ≡ high_part self var at.now }
    {
        let mut spans = self.spans.into_vec();
        let span = spans[var as usize];
        spans[var as usize] = behind(&span, at);
        Zone {
            spans: Items::from_vec(spans),
        }
    }
}

// The part of a span up to a number.
fn up_to(span: &Span, at: &i64) -> Span
    ensures { result ≡ record { lo = span.now.lo; hi = at.now } }
{
    let lo = span.lo;
    Span { lo, hi: *at }
}

// The part of a span behind a number.
fn behind(span: &Span, at: &i64) -> Span
    requires { at.now <ℤ span.now.hi }
    ensures { result ≡ record { lo = at.now +ℤ pos 1; hi = span.now.hi } }
{
    let hi = span.hi;
    Span { lo: *at + 1, hi }
}
