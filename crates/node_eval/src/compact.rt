// The verdict on a node of a program whose blocks have no rows: each block's box is all of its points.
ghost use Rattle.std.specs.Prelude.{IfOk};
ghost use Rattle.branch_tree.specs.Turns.{IsTurn};
ghost use Rattle.compact_relaxation.specs.Rowless.{AreRowless};
ghost use Rattle.node_memory.specs.Pools.{AreMadeFor};
ghost use Rattle.search_laws.specs.Verdicts.{IsVerdict, IsThorough};
ghost use Rattle.node_bound.specs.Shown.{IsOpen};

use block_program::Blocked;
use branch_tree::{Next, Turn, Verdict};
use compact_relaxation::CompactHint;
use node_bound::{
    better_point, boxed, by_scaled, cheaper, open_or, raised_by_box, settled, shown_empty,
};
use node_heuristics::{Pools, compact_hint};
use std::alloc::{AllocError, Global};

/// The verdict on a zone with an open variable of a program whose blocks have no rows.
pub fn compact_points(
    alloc: Global,
    b: &Blocked,
    turn: &Turn,
    best: Option<i64>,
    pools: &mut Pools,
    var: u32,
) -> Result<Verdict, AllocError>
    requires made_for { AreMadeFor b.now pools.old }
    requires turn { IsTurn b.now turn.now }
    requires open { IsOpen turn.now.zone var }
    requires rowless { AreRowless b.now.blocking }
    ensures verdict { IfOk result (IsVerdict b.now.named.program b.now.blocking turn.now.depth
        turn.now.zone turn.now.bound best) }
    ensures thorough { IfOk result (λ verdict. IsThorough b.now.blocking turn.now.zone
        verdict.next) }
    ensures made_for { AreMadeFor b.now pools.new }
{
    let shown = boxed(alloc, b, turn)?;
    let CompactHint {
        mults,
        scale,
        emptying,
        point: found,
        var: wanted,
        at,
    } = compact_hint(alloc, b, pools, turn, best)?;
    let point = better_point(b, found, best);
    let known = cheaper(b, &point, best);
    if let Some(proof) = shown_empty(alloc, b, &turn.zone, emptying)? {
        return Ok(Verdict {
            point,
            next: Next::Shut(proof),
        });
    }
    let proof = by_scaled(alloc, mults.as_slice(), scale)?;
    let shown = raised_by_box(b, &turn.zone, shown, proof);
    let var = open_or(&turn.zone, wanted, var);
    let next = settled(b, turn, shown, known, var, at);
    Ok(Verdict { point, next })
}
