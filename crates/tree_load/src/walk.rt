// A walk over the tree of a certificate.
ghost use Rattle.std.specs.Prelude.{◌≡◌, ◌+◌, ◌-◌, ◌<◌, ◌≤◌, ◌^◌, ◌+ℤ◌, ◌<ℤ◌, ◌≤ℤ◌, pos, length, slice_set, [], ◌∷◌};
ghost use Rattle.bp_theory.specs.Limits.{greatest_depth};
ghost use Rattle.bp_theory.specs.declared.Limits.TheVariants.{Large};
ghost use Rattle.bp_theory.specs.Digits.{binary_digits, span_bits, zone_bits};
ghost use Rattle.bp_theory.specs.Trees.{IsSoundSplit, low_part};
ghost use Rattle.std.specs.Int.{int_gap};
ghost use Rattle.open_nodes.specs.Trees.{tree_of};
ghost use Rattle.tree_load.specs.Rooms.{rooms, FindsDeep, FindsBehind, IsLeaf};

use block_program::Zone;
use bp_theory::{Limits, Span};
use branch_tree::Tree;

/// Where a walk stands: the zone of a node, its depth, the number of its line, and the line of the first live leaf that
/// was too deep, where there was one.
#[derive(Drop)]
pub struct Walk {
    /// The zone of the node.
    pub zone: Zone,
    /// How many splits are above the node.
    pub depth: u32,
    /// The number of the node's line, from 1.
    pub line: u64,
    /// The number of the line of the first live leaf that was too deep, from 1; none where there was none.
    pub deep: Option<u64>,
}

/// The walk in a split's low part, behind the split's line.
pub fn to_low(at: Walk, var: u32, split: &i64) -> Walk
    requires sound { IsSoundSplit at.zone var split.now }
    requires shallow { at.depth < greatest_depth Large }
    requires few { at.line + 1 < 2 ^ 64 }
    ensures zone { result.zone ≡ low_part at.zone var split.now }
    ensures depth { result.depth ≡ at.depth + 1 }
    ensures line { result.line ≡ at.line + 1 }
    ensures deep { result.deep ≡ at.deep }
{
    Walk {
        zone: at.zone.into_low(var, split),
        depth: at.depth + 1,
        line: at.line + 1,
        deep: at.deep,
    }
}

/// The walk in a split's high part, behind the lines of the low one.
pub fn to_high(at: Walk, var: u32, span: &Span, split: &i64) -> Walk
    requires there { var < length at.zone }
    requires below { split.now <ℤ span.now.hi }
    ensures zone { result.zone ≡ slice_set at.zone var
        (record { lo = split.now +ℤ pos 1; hi = span.now.hi }) }
    ensures depth { result.depth ≡ at.depth }
    ensures line { result.line ≡ at.line }
    ensures deep { result.deep ≡ at.deep }
{
    let part = high_span(span, split);
    Walk {
        zone: at.zone.with_span(var, &part),
        depth: at.depth,
        line: at.line,
        deep: at.deep,
    }
}

/// The walk behind a split's lines, with the variable's span of before.
pub fn back(at: Walk, var: u32, span: &Span) -> Walk
    requires there { var < length at.zone }
    requires proper { span.now.lo ≤ℤ span.now.hi }
    requires below { 0 < at.depth }
    ensures zone { result.zone ≡ slice_set at.zone var span.now }
    ensures depth { result.depth ≡ at.depth - 1 }
    ensures line { result.line ≡ at.line }
    ensures deep { result.deep ≡ at.deep }
{
    Walk {
        zone: at.zone.with_span(var, span),
        depth: at.depth - 1,
        line: at.line,
        deep: at.deep,
    }
}

/// The walk behind a leaf's line: it looks whether the leaf is live and too deep for the limits.
pub fn pass(at: Walk, limits: Limits, leaf: &Tree) -> Walk
    requires leaf { IsLeaf (tree_of leaf.now) }
    requires few { at.line + 1 < 2 ^ 64 }
    ensures zone { result.zone ≡ at.zone }
    ensures depth { result.depth ≡ at.depth }
    ensures line { result.line ≡ at.line + 1 }
    ensures deep { FindsBehind limits at.deep (rooms (tree_of leaf.now) at.depth at.zone) at.line
        result.deep }
{
    let deep = match at.deep {
        Some(line) => Some(line),
        None => deep_line(&at, limits, leaf),
    };
    Walk {
        zone: at.zone,
        depth: at.depth,
        line: at.line + 1,
        deep,
    }
}

// The line of a leaf that is live and too deep.
fn deep_line(at: &Walk, limits: Limits, leaf: &Tree) -> Option<u64>
    requires { IsLeaf (tree_of leaf.now) }
    ensures { FindsDeep limits (rooms (tree_of leaf.now) at.now.depth at.now.zone) at.now.line result }
{
    match leaf {
        Tree::Live(_, _) => live_line(at, limits),
        Tree::Shut(_) => None,
        Tree::Fork { .. } => unreachable!(),
    }
}

// The line of a live leaf, where it is too deep.
fn live_line(at: &Walk, limits: Limits) -> Option<u64>
    ensures { FindsDeep limits ((at.now.depth + zone_bits at.now.zone) ∷ []) at.now.line result }
{
    let room = u128::from(at.depth) + bits(at.zone.spans());
    if room > u128::from(limits.depth()) {
        Some(at.line)
    } else {
        None
    }
}

// The binary digits of all spans together.
fn bits(spans: &[Span]) -> u128
    ensures value { result ≡ zone_bits spans.now }
    ensures few { result < 2 ^ 71 }
{
    // For the proof alone: how long `spans` can be.
    let _count = spans.len();
    let mut sum = 0;
    for span in spans {
        sum += u128::from(span_bits(span));
    }
    sum
}

// The binary digits of a span's length.
fn span_bits(span: &Span) -> u32
    ensures value { result ≡ span_bits span.now }
    ensures few { result ≤ 64 }
{
    digits(length_of(&span.lo, &span.hi))
}

// The binary digits of a number.
fn digits(number: u64) -> u32
    ensures value { result ≡ binary_digits number }
    ensures few { result ≤ 64 }
{
    64 - number.leading_zeros()
}

// How far the upper end is above the lower end, 0 where it isn't.
fn length_of(lo: &i64, hi: &i64) -> u64
    ensures { result ≡ int_gap lo.now hi.now }
{
    if *hi <= *lo { 0 } else { hi.abs_diff(*lo) }
}

// The part of a span behind a number.
fn high_span(span: &Span, at: &i64) -> Span
    requires { at.now <ℤ span.now.hi }
    ensures { result ≡ record { lo = at.now +ℤ pos 1; hi = span.now.hi } }
{
    let hi = span.hi;
    Span { lo: *at + 1, hi }
}
