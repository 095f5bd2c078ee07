// Where a zone is split.
ghost use Rattle.std.specs.Prelude.{◌≡◌, ◌↔◌, ℕ, ◌<◌, ◌^◌, ◌≤ℤ◌, ◌<ℤ◌, length, All, IsTrue, MatchOption, IfSome};
ghost use Rattle.bp_theory.specs.Trees.{IsSoundSplit};
ghost use Rattle.column_assignment.specs.Deals.{IsPointZone};

use block_program::Zone;
use bp_theory::Span;

/// Where a zone is split: at the hint, a variable and a number of it, where that splits the zone soundly, whatever was
/// given; else in the middle of the widest span, the first of equals. None where no span has two numbers.
pub fn chosen_split(zone: &Zone, hint: Option<(u32, i64)>) -> Option<(u32, i64)>
    requires { length zone.now < 2 ^ 32 }
    ensures { MatchOption result (IsPointZone zone.now) (λ e. IsSoundSplit zone.now e.0 e.1) }
{
    if let Some((var, at)) = hint {
        if is_sound(zone.spans(), var, &at) {
            return Some((var, at));
        }
    }
    middle_of_widest(zone.spans())
}

// Whether a variable may be split at a number.
fn is_sound(spans: &[Span], var: u32, at: &i64) -> bool
    ensures { IsTrue result → IsSoundSplit spans.now var at.now }
{
    match spans.get(var as usize) {
        Some(span) => span.lo <= *at && *at < span.hi,
        None => false,
    }
}

// The middle of the widest span, if one has two numbers.
fn middle_of_widest(spans: &[Span]) -> Option<(u32, i64)>
    requires { length spans.now < 2 ^ 32 }
    ensures { MatchOption result (IsPointZone spans.now) (λ e. IsSoundSplit spans.now e.0 e.1) }
{
    let mut best = None;
    let mut widest = 0;
    for var in 0..spans.len() {
        let width = width(&spans[var]);
        if width > widest {
            widest = width;
            best = Some((var as u32, middle(&spans[var])));
        }
    }
    best
}

// How far a span's end is above its beginning.
fn width(span: &Span) -> u64
    ensures { (result ≡ 0) ↔ (span.now.hi ≤ℤ span.now.lo) }
{
    if span.hi <= span.lo {
        0
    } else {
        span.lo.abs_diff(span.hi)
    }
}

// The middle of a span of two numbers and more, rounded down.
fn middle(span: &Span) -> i64
    requires { span.now.lo <ℤ span.now.hi }
    ensures low { span.now.lo ≤ℤ result }
    ensures high { result <ℤ span.now.hi }
{
    span.lo + (span.hi.abs_diff(span.lo) / 2) as i64
}
