// Which variable a node is forked at, and where.
ghost use Rattle.std.specs.Prelude.{◌≡◌, ◌<◌, ◌≤◌, ◌^◌, ◌<ℤ◌, ◌≤ℤ◌, ◌↔◌, length, IsTrue, MatchOption};
ghost use Rattle.bp_theory.specs.Digits.{middle};
ghost use Rattle.bp_theory.specs.Trees.{IsProper};
ghost use Rattle.node_bound.specs.Shown.{IsOnePoint, IsOpen};

use block_program::Zone;
use bp_theory::Span;

/// The first variable whose span has more than one number.
pub fn first_open(spans: &[Span]) -> Option<u32>
    requires proper { IsProper spans.now }
    requires few { length spans.now < 2 ^ 32 }
    ensures { MatchOption result (IsOnePoint spans.now) (IsOpen spans.now) }
{
    for i in 0..spans.len() {
        if is_open(&spans[i]) {
            return Some(i as u32);
        }
    }
    None
}

// Whether a span has more than one number.
pub fn is_open(span: &Span) -> bool
    ensures { IsTrue result ↔ (span.now.lo <ℤ span.now.hi) }
{
    span.lo < span.hi
}

/// A variable, if its span has more than one number, and else another whose span has.
pub fn open_or(zone: &Zone, var: u32, other: u32) -> u32
    requires { IsOpen zone.now other }
    ensures open { IsOpen zone.now result }
    ensures wanted { var < length zone.now → IsOpen zone.now var → result ≡ var }
{
    if (var as usize) < zone.spans().len() && is_open(&zone.span(var)) {
        var
    } else {
        other
    }
}

/// Where a span is split at a depth: at a number, or the nearest that leaves both parts a number, and from depth 64 on
/// at the middle.
pub fn place(depth: u32, span: &Span, wanted: i64) -> i64
    requires open { span.now.lo <ℤ span.now.hi }
    ensures above { span.now.lo ≤ℤ result }
    ensures below { result <ℤ span.now.hi }
    ensures deep { 64 ≤ depth → result ≡ middle span.now }
    ensures wanted { depth < 64 → span.now.lo ≤ℤ wanted → wanted <ℤ span.now.hi → result ≡ wanted }
{
    if depth >= 64 {
        return middle(span);
    }
    if wanted < span.lo {
        span.lo
    } else if wanted >= span.hi {
        span.hi - 1
    } else {
        wanted
    }
}

// The middle of a span, rounded down.
fn middle(span: &Span) -> i64
    requires open { span.now.lo <ℤ span.now.hi }
    ensures value { result ≡ middle span.now }
{
    span.lo + (span.hi.abs_diff(span.lo) / 2) as i64
}
