// The verdict on a node.
ghost use Rattle.std.specs.Prelude.{◌<◌, ◌^◌, unsigned_abs, IfOk, IfSome};
ghost use Rattle.block_class.specs.Classes.{AreSameClasses};
ghost use Rattle.branch_tree.specs.Turns.{IsTurn};
ghost use Rattle.node_memory.specs.Pools.{AreMadeFor};
ghost use Rattle.search_laws.specs.Verdicts.{IsVerdict, IsThorough};
ghost use Rattle.node_bound.specs.Shown.{IsShown, IsOpen, ShutsOff};
ghost use Rattle.node_bound.specs.Openings.{IsStrong};

use crate::compact::compact_points;
use crate::raise::strongest;
use block_class::Classes;
use block_program::Blocked;
use bp_theory::Proof;
use branch_tree::{Next, Turn, Verdict};
use compact_relaxation::has_no_block_rows;
use node_bound::{
    Opening, Shown, at_both_scales, better_point, cheaper, emptied, emptied_by, first_open,
    one_point, open_or, opened, settled,
};
use node_heuristics::{Hint, NodeContext, Pools, hinted, unreached};
use std::alloc::{AllocError, Global};

/// The verdict on an open node: a point that is feasible and cheaper than the best cost, where one was found, and what is
/// done with the node. It is shut by a proof that settles its zone against the cheaper of the two costs, or forked with a
/// bound below it. A zone of one point is always shut, and from depth 64 on a fork is at the middle of its span.
pub fn evaluate(
    alloc: Global,
    b: &Blocked,
    turn: &Turn,
    best: Option<i64>,
    pools: &mut Pools,
) -> Result<Verdict, AllocError>
    requires made_for { AreMadeFor b.now pools.old }
    requires turn { IsTurn b.now turn.now }
    requires best { IfSome best (λ z. unsigned_abs z < 2 ^ 62) }
    ensures verdict { IfOk result (IsVerdict b.now.named.program b.now.blocking turn.now.depth
        turn.now.zone turn.now.bound best) }
    ensures thorough { IfOk result (λ verdict. IsThorough b.now.blocking turn.now.zone
        verdict.next) }
    ensures made_for { AreMadeFor b.now pools.new }
{
    // For the proof alone: `b` is formed.
    let _ = b.model();
    match first_open(turn.zone.spans()) {
        None => one_point(alloc, b, turn, best),
        Some(var) => many_points(alloc, b, turn, best, pools, var),
    }
}

// The verdict on a zone with an open variable.
fn many_points(
    alloc: Global,
    b: &Blocked,
    turn: &Turn,
    best: Option<i64>,
    pools: &mut Pools,
    var: u32,
) -> Result<Verdict, AllocError>
    requires made_for { AreMadeFor b.now pools.old }
    requires turn { IsTurn b.now turn.now }
    requires open { IsOpen turn.now.zone var }
    ensures verdict { IfOk result (IsVerdict b.now.named.program b.now.blocking turn.now.depth
        turn.now.zone turn.now.bound best) }
    ensures thorough { IfOk result (λ verdict. IsThorough b.now.blocking turn.now.zone
        verdict.next) }
    ensures made_for { AreMadeFor b.now pools.new }
{
    if let Some(proof) = missed(alloc, b, turn)? {
        return Ok(Verdict {
            point: None,
            next: Next::Shut(proof),
        });
    }
    if has_no_block_rows(b) {
        return compact_points(alloc, b, turn, best, pools, var);
    }
    let classes = Classes::of(alloc, b, &turn.zone)?;
    let is_even = pools.begin(alloc, b)?;
    match opened(alloc, b, &classes, &mut pools.budget, turn)? {
        Opening::Empty(proof) => Ok(Verdict {
            point: None,
            next: Next::Shut(proof),
        }),
        Opening::Open(shown) => {
            let before = Before { best, is_even, var };
            searched(alloc, b, &classes, pools, turn, before, shown)
        }
    }
}

// The proof that a node's zone has no point, where a master row is seen to have none there.
fn missed(alloc: Global, b: &Blocked, turn: &Turn) -> Result<Option<Proof>, AllocError>
    requires { IsTurn b.now turn.now }
    ensures { IfOk result (λ found. IfSome found (ShutsOff b.now.blocking turn.now.zone)) }
{
    match unreached(b, turn.zone.spans()) {
        None => Ok(None),
        Some((row, sign)) => emptied(alloc, b, &turn.zone, row, sign),
    }
}

// What is known of a node before it is searched.
#[derive(Clone, Copy)]
struct Before {
    // The incumbent's cost, where there is one.
    best: Option<i64>,
    // Whether an even number of nodes was searched before.
    is_even: bool,
    // A variable with an open span: the node is forked at this one where the search names none with an open span.
    var: u32,
}

// The verdict on a zone with an open variable whose blocks may have points.
fn searched(
    alloc: Global,
    b: &Blocked,
    classes: &Classes,
    pools: &mut Pools,
    turn: &Turn,
    before: Before,
    shown: Shown,
) -> Result<Verdict, AllocError>
    requires turn { IsTurn b.now turn.now }
    requires open { IsOpen turn.now.zone before.var }
    requires made_for { AreMadeFor b.now pools.old }
    requires classes { AreSameClasses turn.now.zone b.now.blocking classes.now }
    requires shown { IsShown b.now.blocking turn.now.zone turn.now.bound shown.proof shown.bound }
    requires strong { IsStrong b.now.blocking turn.now.zone shown.bound }
    ensures verdict { IfOk result (IsVerdict b.now.named.program b.now.blocking turn.now.depth
        turn.now.zone turn.now.bound before.best) }
    ensures thorough { IfOk result (λ verdict. IsThorough b.now.blocking turn.now.zone
        verdict.next) }
    ensures made_for { AreMadeFor b.now pools.new }
{
    let node = NodeContext {
        program: b,
        classes,
        zone: &turn.zone,
    };
    let Hint {
        mults,
        point: found,
        split,
    } = hinted(alloc, node, pools, turn, before.best, before.is_even)?;
    let point = better_point(b, found, before.best);
    let mults = mults.as_slice();
    let known = cheaper(b, &point, before.best);
    if let Some(proof) = left_empty(alloc, node, pools, known, mults)? {
        return Ok(Verdict {
            point,
            next: Next::Shut(proof),
        });
    }
    let proofs = at_both_scales(alloc, &pools.budget, mults)?;
    let shown = strongest(node, &mut pools.budget.work, shown, proofs);
    let var = open_or(&turn.zone, split.var, before.var);
    let next = settled(b, turn, shown, known, var, split.at);
    Ok(Verdict { point, next })
}

// A proof that a node's zone has no point, where no point is known and multipliers show it.
fn left_empty(
    alloc: Global,
    node: NodeContext,
    pools: &mut Pools,
    known: Option<i64>,
    mults: &[i64],
) -> Result<Option<Proof>, AllocError>
    requires made_for { AreMadeFor node.program.now pools.old }
    ensures off { IfOk result (λ found. IfSome found (ShutsOff node.entry.program.now.blocking
        node.entry.zone.now)) }
    ensures made_for { AreMadeFor node.entry.program.now pools.new }
{
    if known.is_some() {
        return Ok(None);
    }
    let proofs = at_both_scales(alloc, &pools.budget, mults)?;
    Ok(emptied_by(node, &mut pools.budget.work, proofs))
}
