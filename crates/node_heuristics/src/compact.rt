// Hints for nodes of programs whose blocks have no rows.
ghost use Rattle.node_memory.specs.Pools.{AreMadeFor};

use crate::hint::first_incumbent;
use block_program::{Blocked, MAX_SCALE};
use branch_tree::Turn;
use compact_relaxation::CompactHint;
use node_memory::Pools;
use std::alloc::{AllocError, Global};

/// Multipliers, a point that is cheaper than the best cost, where one was found, and a split, by the relaxation of the
/// program's rows; where there is none, only what a search by plain costs finds.
pub fn compact_hint(
    alloc: Global,
    b: &Blocked,
    pools: &mut Pools,
    turn: &Turn,
    best: Option<i64>,
) -> Result<CompactHint, AllocError>
    requires made_for { AreMadeFor b.now pools.old }
    ensures made_for { AreMadeFor b.now pools.new }
{
    let mut incumbent = first_incumbent(alloc, b, turn, best)?;
    let CompactHint {
        mults,
        scale,
        emptying,
        point,
        var,
        at,
    } = relaxed_hint(alloc, b, pools, turn, incumbent.known)?;
    incumbent.take(alloc, b, point)?;
    Ok(CompactHint {
        mults,
        scale,
        emptying,
        point: incumbent.point,
        var,
        at,
    })
}

// What the relaxation of the program's rows gives, and neither multipliers nor a point where there is none.
fn relaxed_hint(
    alloc: Global,
    b: &Blocked,
    pools: &mut Pools,
    turn: &Turn,
    known: Option<i64>,
) -> Result<CompactHint, AllocError>
    requires made_for { AreMadeFor b.now pools.old }
    ensures made_for { AreMadeFor b.now pools.new }
{
    match &mut pools.compact {
        Some(compact) => compact.hint(alloc, b, turn, known),
        None => Ok(CompactHint {
            mults: Vec::new(alloc),
            scale: MAX_SCALE,
            emptying: None,
            point: None,
            var: 0,
            at: 0,
        }),
    }
}
