// Zones narrowed to tightened spans.
ghost use Rattle.std.specs.Prelude.{◌≤ℤ◌, ◌↔◌, IsTrue};
ghost use Rattle.bp_theory.specs.Trees.{IsZone};

use block_program::{Blocked, Zone};
use bp_theory::Span;

/// A zone narrowed to spans, where these lie inside it.
pub fn narrow(b: &Blocked, zone: Zone, spans: &[Span]) -> Zone
    requires { IsZone b.now.named.program.spans zone }
    ensures { IsZone b.now.named.program.spans result }
{
    let mut narrow = zone;
    let mut var: u32 = 0;
    for span in spans {
        narrow = narrow_one(b, narrow, var, span);
        var = var.saturating_add(1);
    }
    narrow
}

// A zone narrowed in one variable, where the span lies inside the variable's.
fn narrow_one(b: &Blocked, zone: Zone, var: u32, span: &Span) -> Zone
    requires { IsZone b.now.named.program.spans zone }
    ensures { IsZone b.now.named.program.spans result }
{
    // For the proof alone: `b` is formed.
    let _ = b.blocks();
    if var as usize >= zone.spans().len() {
        return zone;
    }
    if !is_part(span, &zone.span(var)) {
        return zone;
    }
    zone.with_span(var, span)
}

// Whether a span has a number and lies inside another.
fn is_part(span: &Span, whole: &Span) -> bool
    ensures { IsTrue result ↔ ((span.now.lo ≤ℤ span.now.hi) × (whole.now.lo ≤ℤ span.now.lo) ×
        (span.now.hi ≤ℤ whole.now.hi)) }
{
    span.lo <= span.hi && whole.lo <= span.lo && span.hi <= whole.hi
}

/// Whether each span has one number.
pub fn is_one_point(spans: &[Span]) -> bool {
    spans.iter().all(|span| span.lo == span.hi)
}
