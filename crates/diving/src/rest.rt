// What is left of a restricted master in a dive: columns that don't fit are switched off, and rounds of pricing settle it.
ghost use Rattle.std.specs.Prelude.{◌≡◌, ◌<◌, length};
ghost use Rattle.bp_theory.specs.Trees.{IsZone};
ghost use Rattle.block_class.specs.Classes.{AreSameClasses};
ghost use Rattle.node_memory.specs.Pools.{AreMadeFor};

use crate::dives::{Dive, lows};
use block_class::Classes;
use block_program::{Block, Blocked, Zone};
use bp_theory::Span;
use column_generation::add_class;
use node_memory::{NodeContext, Pools, is_settled};
use primal_heuristics::{is_reached, narrow};
use restricted_master::{RestrictedMaster, block_spans};
use std::alloc::{AllocError, Global};

/// How many pivots a solution may take.
const PIVOTS: u32 = 600;

/// Whether a point of a block lies in spans of all variables.
pub fn is_inside(block: &Block, point: &[i64], spans: &[Span]) -> bool {
    for (var, number) in block.vars().iter().zip(point) {
        match spans.get(*var as usize) {
            Some(span) if span.lo <= *number && *number <= span.hi => {}
            _ => return false,
        }
    }
    true
}

/// Switches off the columns that fit no block of their class that is left.
pub fn switch_off_outside(
    alloc: Global,
    node: NodeContext,
    pools: &Pools,
    master: &mut RestrictedMaster,
    dive: &Dive,
) -> Result<(), AllocError> {
    let mut blocks = Vec::new(alloc);
    for class in 0..node.classes.len() {
        blocks.push(dive.next_block(node.classes, class))?;
    }
    for number in 0..master.len() {
        if !master.is_off(number) {
            if let Some(column) = master.column(number) {
                let block = match blocks.get(column.class as usize) {
                    Some(block) => *block,
                    None => None,
                };
                if !fits(node.program, pools, block, number, master, dive) {
                    master.switch_off(number);
                }
            }
        }
    }
    Ok(())
}

// Whether a column lies in the spans of a block that is left.
fn fits(
    b: &Blocked,
    pools: &Pools,
    block: Option<u32>,
    number: usize,
    master: &RestrictedMaster,
    dive: &Dive,
) -> bool {
    let (Some(block), Some(column)) = (block, master.column(number)) else {
        return false;
    };
    match pools.column(column.place) {
        Some(found) if block < b.blocks() => is_inside(
            b.block(block),
            found.point.as_slice(),
            dive.spans.now.as_slice(),
        ),
        _ => false,
    }
}

// What a dive leaves of a node.
#[derive(Drop)]
struct Left {
    // The node's zone, narrowed to the spans of the dive.
    zone: Zone,
    // The classes of blocks that are the same in that zone.
    classes: Classes,
}

// What the rounds on what is left write again and again.
#[derive(Drop)]
struct Room {
    // The restricted master's multipliers, by row at the greatest scale.
    mults: Vec<i64>,
    // The point that reaches their bound, by copies of the variables.
    point: Vec<i64>,
}

/// Settles the restricted master of what is left with a few rounds of pricing; whether the bound stays below the incumbent's
/// cost and each block has a point.
pub fn settle_rest(
    alloc: Global,
    node: NodeContext,
    pools: &mut Pools,
    master: &mut RestrictedMaster,
    dive: &Dive,
    rounds: u32,
) -> Result<bool, AllocError>
    requires made_for { AreMadeFor node.program.now pools.old }
    ensures made_for { AreMadeFor node.entry.program.now pools.new }
{
    master.settle(alloc, PIVOTS)?;
    let spans = dive.spans.now.as_slice();
    let zone = narrow(node.program, node.zone.copy(alloc)?, spans);
    let classes = Classes::of(alloc, node.program, &zone)?;
    let left = Left { zone, classes };
    let mut room = Room {
        mults: Vec::from_elem(alloc, 0i64, node.program.named_rows() as usize)?,
        point: Vec::from_elem(alloc, 0i64, node.program.model().vars() as usize)?,
    };
    for _ in 0..rounds {
        match settle_round(alloc, node, &left, pools, master, dive, &mut room)? {
            Rest::On => {}
            Rest::Settled => return Ok(true),
            Rest::Given => return Ok(false),
        }
    }
    Ok(true)
}

// What a round on what is left comes to: it is given up, no column is new, or there may be more.
#[derive(Clone, Copy, Debug, PartialEq, Eq)]
enum Rest {
    Given,
    Settled,
    On,
}

// A round of pricing on what is left, and the restricted master solved with the columns that it gives.
fn settle_round(
    alloc: Global,
    node: NodeContext,
    left: &Left,
    pools: &mut Pools,
    master: &mut RestrictedMaster,
    dive: &Dive,
    room: &mut Room,
) -> Result<Rest, AllocError>
    requires made_for { AreMadeFor node.program.now pools.old }
    requires classes { AreSameClasses left.now.zone node.program.now.blocking left.now.classes }
    requires zone { IsZone node.program.now.named.program.spans left.now.zone }
    ensures made_for { AreMadeFor node.entry.program.now pools.new }
{
    if master.is_spent() {
        return Ok(Rest::Given);
    }
    master.write_mults(node.program, room.mults.as_mut_slice());
    let inner = NodeContext {
        program: node.program,
        classes: &left.classes,
        zone: &left.zone,
    };
    let mults = room.mults.as_slice();
    let point = room.point.as_mut_slice();
    let Some(value) = pools.price(alloc, inner, mults, point)? else {
        return Ok(Rest::Given);
    };
    if is_reached(value, dive.known) {
        return Ok(Rest::Given);
    }
    if add_left(alloc, node, &left.classes, pools, master, dive)? == 0 {
        return Ok(Rest::Settled);
    }
    master.solve(alloc, PIVOTS)?;
    Ok(Rest::On)
}

// Adds the points that the last bound told of the blocks that are left; how many columns are new.
fn add_left(
    alloc: Global,
    node: NodeContext,
    inner: &Classes,
    pools: &mut Pools,
    master: &mut RestrictedMaster,
    dive: &Dive,
) -> Result<u32, AllocError>
    requires made_for { AreMadeFor node.program.now pools.old }
    requires each { length inner.now.classes ≡ length node.program.now.blocking.blocks }
    ensures made_for { AreMadeFor node.entry.program.now pools.new }
{
    let mut added: u32 = 0;
    for class in 0..node.classes.len() {
        if add_left_of(alloc, node, inner, pools, master, dive, class)? {
            added = added.saturating_add(1);
        }
    }
    Ok(added)
}

// Adds the point that the last bound told of the next block of a class that is left; whether it is a new column.
fn add_left_of(
    alloc: Global,
    node: NodeContext,
    inner: &Classes,
    pools: &mut Pools,
    master: &mut RestrictedMaster,
    dive: &Dive,
    class: u32,
) -> Result<bool, AllocError>
    requires made_for { AreMadeFor node.program.now pools.old }
    requires each { length inner.now.classes ≡ length node.program.now.blocking.blocks }
    ensures made_for { AreMadeFor node.entry.program.now pools.new }
{
    let Some(block) = dive.next_block(node.classes, class) else {
        return Ok(false);
    };
    if master.size(class) == 0 || block >= node.program.blocks() {
        return Ok(false);
    }
    if is_settled(node.program.block(block), dive.spans.now.as_slice()) {
        return add_settled(alloc, node.program, pools, master, class, block, dive);
    }
    let first = first_like(inner, block);
    add_class(alloc, node.program, pools, master, class, first)
}

// Adds the one point of a block that is left, which no bound tells, as a column of a class; whether it is a new column.
fn add_settled(
    alloc: Global,
    b: &Blocked,
    pools: &mut Pools,
    master: &mut RestrictedMaster,
    class: u32,
    block: u32,
    dive: &Dive,
) -> Result<bool, AllocError>
    requires made_for { AreMadeFor b.now pools.old }
    requires there { block < length b.now.blocking.blocks }
    ensures made_for { AreMadeFor b.now pools.new }
{
    let spans = block_spans(alloc, b.block(block), dive.spans.now.as_slice())?;
    let point = lows(alloc, spans.as_slice())?;
    let Some(place) = pools.add_point(alloc, b, block, point.as_slice())? else {
        return Ok(false);
    };
    match pools.column(place) {
        None => Ok(false),
        Some(column) => master.add_if_better(alloc, column, class, place),
    }
}

// The first block of a block's class.
fn first_like(classes: &Classes, block: u32) -> u32
    requires { block < length classes.now.classes }
{
    let class = classes.class_of(block);
    if class < classes.len() {
        classes.first(class)
    } else {
        u32::MAX
    }
}
