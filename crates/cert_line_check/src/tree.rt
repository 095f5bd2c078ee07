// The judgement of a tree, line by line in preorder.
ghost use Rattle.std.specs.Prelude.{◌≡◌, ◌↔◌, ◌∷◌, ◌+◌, ◌<◌, ◌≤◌, ◌^◌, ◌+ℤ◌, ◌<ℤ◌, ◌≤ℤ◌, pos, IsTrue, length, slice_set, IfOk, IfSome, MatchOption};
ghost use Rattle.bp_theory.specs.Program.{span_at};
ghost use Rattle.bp_theory.specs.Trees.{IsZone, IsSoundSplit, low_part};
ghost use Rattle.bp_theory.specs.Judgement.{tree_lines};
ghost use Rattle.cert_format.specs.Sketch.{tree_of};
ghost use Rattle.cert_text.specs.Programs.{IsSmallClaim};
ghost use Rattle.block_pricers.specs.Forms.{forms_in};
ghost use Rattle.block_pricers.specs.Works.{forms_of};
ghost use Rattle.cert_line_check.specs.Judging.{ProofsFit, JudgesLines};
ghost use Rattle.cert_line_check.specs.Steps.{node, steps_of, lines_ahead, MayJudge, JudgesNode};

use crate::ahead::{Ahead, push_parts};
use crate::leaf::judge_leaf;
use crate::place::{NodePlace, Stop};
use block_program::{Blocked, Zone};
use bp_theory::{CheckKind, Claim, Span};
use cert_text::Sketch;
use lagr_bound::Work;
use std::alloc::{AllocError, Global};

/// Judges the lines of a tree from a place on. The zone is changed along the path and changed back, with a list of the steps
/// that are still to come.
pub fn judge_tree(
    alloc: Global,
    b: &Blocked,
    claim: &Claim,
    work: &mut Option<Work>,
    at: NodePlace,
    tree: &Sketch,
) -> Result<Result<NodePlace, Stop>, AllocError>
    requires made_for { IfSome work.old (λ made. forms_of made ≡ forms_in b.now) }
    requires claim { IsSmallClaim claim.now }
    requires zone { IsZone b.now.named.program.spans at.zone }
    requires fits { ProofsFit b.now.blocking (tree_of tree.now) }
    requires few { at.line + length (tree_lines (tree_of tree.now) at.zone) < 2 ^ 64 }
    ensures judged { IfOk result (λ found. JudgesLines b.now.named.program b.now.blocking claim.now
        (tree_lines (tree_of tree.now) at.zone) at found) }
    ensures made_for { IfSome work.new (λ made. forms_of made ≡ forms_in b.now) }
{
    let mut place = at;
    let mut ahead: Vec<Ahead> = Vec::new(alloc);
    ahead.push(Ahead::Node(tree))?;
    while let Some(step) = ahead.pop() {
        match step {
            Ahead::Node(node) => {
                match judge_node(alloc, b, claim, work, place, node, &mut ahead)? {
                    Err(found) => return Ok(Err(found)),
                    Ok(next) => place = next,
                }
            }
            Ahead::High { var, at, span } => place = to_high(place, var, &span, &at),
            Ahead::Back { var, span } => place = back(place, var, &span),
        }
    }
    Ok(Ok(place))
}

// Judges the line of a node. Where it is a split, its parts are still to come.
fn judge_node<'a>(
    alloc: Global,
    b: &Blocked,
    claim: &Claim,
    work: &mut Option<Work>,
    at: NodePlace,
    tree: &'a Sketch,
    ahead: &mut Vec<Ahead<'a>>,
) -> Result<Result<NodePlace, Stop>, AllocError>
    requires made_for { IfSome work.old (λ made. forms_of made ≡ forms_in b.now) }
    requires claim { IsSmallClaim claim.now }
    requires may { MayJudge b.now.named.program.spans b.now.blocking
        (node (tree_of tree.now) ∷ steps_of ahead.old.items) at.zone }
    requires few { at.line + length (lines_ahead
        (node (tree_of tree.now) ∷ steps_of ahead.old.items) at.zone) < 2 ^ 64 }
    ensures judged { IfOk result (JudgesNode b.now.named.program b.now.blocking claim.now
        (node (tree_of tree.now) ∷ steps_of ahead.old.items) at (steps_of ahead.new.items)) }
    ensures made_for { IfSome work.new (λ made. forms_of made ≡ forms_in b.now) }
{
    match tree {
        Sketch::Leaf(proof) => judge_leaf(alloc, b, claim, work, at, proof, false),
        Sketch::Open(proof) => judge_leaf(alloc, b, claim, work, at, proof, true),
        Sketch::Fork {
            var,
            at: split,
            low,
            high,
        } => {
            let Some(span) = sound_span(&at.zone, *var, split) else {
                return Ok(Err(Stop {
                    line: at.line,
                    fault: Some(CheckKind::Split),
                }));
            };
            push_parts(ahead, *var, split, &span, low, high)?;
            Ok(Ok(to_low(at, *var, split)))
        }
    }
}

/// The span of a variable in a zone, where a split behind a number is sound.
pub fn sound_span(zone: &Zone, var: u32, at: &i64) -> Option<Span>
    ensures { MatchOption result (IsSoundSplit zone.now var at.now → ⊥)
        (λ span. (span ≡ span_at zone.now var) × (var < length zone.now) ×
        IsSoundSplit zone.now var at.now) }
{
    if var as usize >= zone.spans().len() {
        return None;
    }
    let span = zone.span(var);
    if is_within(&span, at) {
        Some(span)
    } else {
        None
    }
}

// Whether a split of a span behind a number leaves both parts a number.
fn is_within(span: &Span, at: &i64) -> bool
    ensures { IsTrue result ↔ ((span.now.lo ≤ℤ at.now) × (at.now <ℤ span.now.hi)) }
{
    span.lo <= *at && *at < span.hi
}

/// The place of a split's low part, behind the split's line.
pub fn to_low(at: NodePlace, var: u32, split: &i64) -> NodePlace
    requires sound { IsSoundSplit at.zone var split.now }
    requires few { at.line + 1 < 2 ^ 64 }
    ensures zone { result.zone ≡ low_part at.zone var split.now }
    ensures line { result.line ≡ at.line + 1 }
    ensures left { result.left ≡ at.left }
{
    NodePlace {
        zone: at.zone.into_low(var, split),
        line: at.line + 1,
        left: at.left,
    }
}

/// The place of a split's high part, behind the lines of the low one.
pub fn to_high(at: NodePlace, var: u32, span: &Span, split: &i64) -> NodePlace
    requires there { var < length at.zone }
    requires below { split.now <ℤ span.now.hi }
    ensures zone { result.zone ≡ slice_set at.zone var
        (record { lo = split.now +ℤ pos 1; hi = span.now.hi }) }
    ensures line { result.line ≡ at.line }
    ensures left { result.left ≡ at.left }
{
    let part = high_span(span, split);
    NodePlace {
        zone: at.zone.with_span(var, &part),
        line: at.line,
        left: at.left,
    }
}

/// The place behind a split's lines, with the variable's span of before.
pub fn back(at: NodePlace, var: u32, span: &Span) -> NodePlace
    requires there { var < length at.zone }
    requires proper { span.now.lo ≤ℤ span.now.hi }
    ensures zone { result.zone ≡ slice_set at.zone var span.now }
    ensures line { result.line ≡ at.line }
    ensures left { result.left ≡ at.left }
{
    NodePlace {
        zone: at.zone.with_span(var, span),
        line: at.line,
        left: at.left,
    }
}

// The part of a span behind a number.
fn high_span(span: &Span, at: &i64) -> Span
    requires { at.now <ℤ span.now.hi }
    ensures { result ≡ record { lo = at.now +ℤ pos 1; hi = span.now.hi } }
{
    let hi = span.hi;
    Span { lo: *at + 1, hi }
}
