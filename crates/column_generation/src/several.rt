// Several columns a round, for classes of identical blocks that have a graph of states: points beside the cheapest one. One
// class gives one column a round otherwise, and a solution has as many as the class has blocks.
ghost use Rattle.std.specs.Prelude.{◌<◌, length};
ghost use Rattle.node_memory.specs.Pools.{AreMadeFor};

use block_program::{Blocked, fits};
use node_memory::{NodeContext, Place, Pools, alone};
use restricted_master::RestrictedMaster;
use std::alloc::{AllocError, Global};

/// How many columns a class gets at most beside its cheapest, in a round.
const MOST_COLUMNS: u32 = 5;

/// How many ranks are looked at for these: a point may have several.
const MOST_RANKS: usize = 60;

// A class of several blocks.
#[derive(Clone, Copy)]
struct Alike {
    // Its number in the zone.
    class: u32,
    // The number of its first block.
    first: u32,
}

/// Whether points beside the cheapest one of a block are priced: where it has a graph of states.
pub fn gives_several(b: &Blocked, pools: &Pools, block: u32) -> bool
    requires made_for { AreMadeFor b.now pools.now }
{
    block < b.blocks() && pools.budget.work.ranks(block)
}

/// Adds points beside the cheapest ones at multipliers by row at the greatest scale: of each class of several blocks that has
/// such, those of least reduced cost below zero. How many columns are new.
pub fn add_several(
    alloc: Global,
    node: NodeContext,
    pools: &mut Pools,
    master: &mut RestrictedMaster,
    mults: &[i64],
) -> Result<u32, AllocError>
    requires made_for { AreMadeFor node.program.now pools.old }
    ensures made_for { AreMadeFor node.entry.program.now pools.new }
{
    let mut added: u32 = 0;
    for class in 0..node.classes.len() {
        let first = node.classes.first(class);
        if master.size(class) > 1 && gives_several(node.program, pools, first) {
            let alike = Alike { class, first };
            let more = add_of_class(alloc, node, pools, master, mults, alike)?;
            added = added.saturating_add(more);
        }
    }
    Ok(added)
}

// Adds points beside the cheapest one of a class; how many columns are new.
fn add_of_class(
    alloc: Global,
    node: NodeContext,
    pools: &mut Pools,
    master: &mut RestrictedMaster,
    mults: &[i64],
    alike: Alike,
) -> Result<u32, AllocError>
    requires made_for { AreMadeFor node.program.now pools.old }
    ensures made_for { AreMadeFor node.entry.program.now pools.new }
{
    let ranks = ranked(alloc, node, pools, mults, alike.first)?;
    let mut added = 0;
    for rank in 0..ranks.min(MOST_RANKS) {
        added = add_ranked(alloc, node, pools, master, alike, rank, added)?;
    }
    Ok(added)
}

// Ranks points beside the cheapest one of a block at multipliers by row; how many there are.
fn ranked(
    alloc: Global,
    node: NodeContext,
    pools: &mut Pools,
    mults: &[i64],
    first: u32,
) -> Result<usize, AllocError>
    requires made_for { AreMadeFor node.program.now pools.old }
    ensures made_for { AreMadeFor node.entry.program.now pools.new }
{
    let proof = alone(alloc, mults, first)?;
    if first >= node.program.blocks() || !fits(node.program, &proof) {
        return Ok(0);
    }
    pools
        .budget
        .work
        .rank(alloc, node.program, first, node.zone, &proof)
}

// Adds the point of a block that is chosen to its pool.
fn add_chosen(
    alloc: Global,
    b: &Blocked,
    pools: &mut Pools,
    first: u32,
) -> Result<Option<Place>, AllocError>
    requires made_for { AreMadeFor b.now pools.old }
    requires there { first < length b.now.blocking.blocks }
    ensures made_for { AreMadeFor b.now pools.new }
{
    let point = pools.budget.work.chosen(first).to_vec(alloc)?;
    pools.add_point(alloc, b, first, point.as_slice())
}

// Adds the point of a rank as a column of a class, if its reduced cost is below zero and fewer than may be were added
// before; how many are added then.
fn add_ranked(
    alloc: Global,
    node: NodeContext,
    pools: &mut Pools,
    master: &mut RestrictedMaster,
    alike: Alike,
    rank: usize,
    added: u32,
) -> Result<u32, AllocError>
    requires made_for { AreMadeFor node.program.now pools.old }
    ensures made_for { AreMadeFor node.entry.program.now pools.new }
{
    let first = alike.first;
    if added >= MOST_COLUMNS || first >= node.program.blocks() {
        return Ok(added);
    }
    if !pools
        .budget
        .work
        .choose(node.program, first, node.zone, rank)
    {
        return Ok(added);
    }
    let Some(place) = add_chosen(alloc, node.program, pools, first)? else {
        return Ok(added);
    };
    let Some(column) = pools.column(place) else {
        return Ok(added);
    };
    let is_new = master.add_if_better(alloc, column, alike.class, place)?;
    Ok(added.saturating_add(u32::from(is_new)))
}
