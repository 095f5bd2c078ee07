// Points from the columns of a node's restricted master: exchanges between identical blocks, dives by columns, each mended by
// exchanges where it fails, dives by variables where each block differs, and a search that the mean of the columns
// guides.
ghost use Rattle.node_memory.specs.Pools.{AreMadeFor};

use crate::hint::Search;
use block_class::Classes;
use block_program::{Block, Blocked};
use branch_tree::Turn;
use column_generation::{are_alike, mean_mult, round_up};
use diving::{Style, dive_by_columns, dive_by_variables, drawn};
use node_memory::{NodeContext, Place, Pools};
use primal_heuristics::{
    Alike, Moves, guide_of, is_first_copy, is_reached, pack, product, search_point, whole,
};
use restricted_master::{RestrictedMaster, Weighted};
use std::alloc::{AllocError, Global};
use std::num::saturating_f64_to_i64;

/// How many dives by columns and by variables are made at the root.
const ROOT_DIVES: u32 = 5;

const ROOT_VAR_DIVES: u32 = 3;

/// How often items are exchanged at first, by how many moves, and by how many behind each dive.
const PACKINGS: u32 = 4;

const MOVES: u32 = 1_500;

/// The width of the box in dives by variables over the mean magnitude of multipliers.
const DIVE_BOX: f64 = 0.5;

/// A point that is cheaper than what is known, where blocks differ and a search that the mean of weighted columns
/// guides finds one.
pub fn point_by_mean(
    alloc: Global,
    node: NodeContext,
    pools: &Pools,
    turn: &Turn,
    used: &[Weighted],
    search: &Search,
) -> Result<Option<Vec<i64>>, AllocError> {
    if are_alike(node.program, node.classes) {
        return Ok(None);
    }
    let mean = mean_of(alloc, node.program, node.classes, pools, used)?;
    let mults = search.centre.mults.as_slice();
    let guide = guide_of(alloc, node.program, mults, mean.as_slice())?;
    search_point(alloc, node.program, turn, &guide, search.incumbent.known)
}

// The mean of weighted columns in units, with the columns of a class dealt out evenly to its blocks.
fn mean_of(
    alloc: Global,
    b: &Blocked,
    classes: &Classes,
    pools: &Pools,
    used: &[Weighted],
) -> Result<Vec<i128>, AllocError> {
    let mut mean = Vec::from_elem(alloc, 0i128, b.model().vars() as usize)?;
    for column in used {
        deal_out(b, classes, pools, column, mean.as_mut_slice());
    }
    Ok(mean)
}

// Adds a column to a mean, by its weight, in equal parts to the blocks of its class.
fn deal_out(b: &Blocked, classes: &Classes, pools: &Pools, column: &Weighted, mean: &mut [i128]) {
    let class = column.class;
    if class >= classes.len() {
        return;
    }
    let Some(found) = pools.column(column.place) else {
        return;
    };
    let part = column.weight / i64::from(classes.size(class)).max(1);
    for block in classes.members(class) {
        if *block < b.blocks() {
            deal(
                b,
                *block,
                b.block(*block),
                found.point.as_slice(),
                part,
                mean,
            );
        }
    }
}

// Adds a part of a block's point to a mean, which is that of first copies.
fn deal(b: &Blocked, home: u32, block: &Block, point: &[i64], part: i64, mean: &mut [i128]) {
    for (var, number) in block.vars().iter().zip(point) {
        let place = *var as usize;
        if place < mean.len() && is_first_copy(b, home, *var) {
            mean[place] = mean[place].saturating_add(product(&part, number));
        }
    }
}

/// Takes points from a restricted master's columns while the bound doesn't reach what is known.
pub fn find_points(
    alloc: Global,
    node: NodeContext,
    pools: &mut Pools,
    turn: &Turn,
    master: &mut RestrictedMaster,
    search: &mut Search,
) -> Result<(), AllocError>
    requires made_for { AreMadeFor node.program.now pools.old }
    ensures made_for { AreMadeFor node.entry.program.now pools.new }
{
    if has_alike(node.classes, master) {
        if turn.depth == 0 {
            exchange_items(alloc, node, pools, master, search)?;
        }
        let dives = if turn.depth == 0 { ROOT_DIVES } else { 1 };
        dive_alike(alloc, node, pools, master, search, dives)
    } else {
        let mults = search.centre.mults.as_slice();
        let width = mean_mult(node.program, mults) * DIVE_BOX;
        master.stay_near(mults, width);
        let dives = if turn.depth == 0 { ROOT_VAR_DIVES } else { 1 };
        dive_single(alloc, node, pools, master, search, dives)
    }
}

// Whether a class that isn't settled has several blocks.
fn has_alike(classes: &Classes, master: &RestrictedMaster) -> bool {
    for class in 0..classes.len() {
        if master.size(class) > 1 {
            return true;
        }
    }
    false
}

// Dives by variables.
fn dive_single(
    alloc: Global,
    node: NodeContext,
    pools: &mut Pools,
    master: &mut RestrictedMaster,
    search: &mut Search,
    dives: u32,
) -> Result<(), AllocError>
    requires made_for { AreMadeFor node.program.now pools.old }
    ensures made_for { AreMadeFor node.entry.program.now pools.new }
{
    let mut seed = None;
    for dive in 0..dives {
        let known = search.incumbent.known;
        if pools.budget.is_spent() || is_reached(search.centre.value, known) {
            break;
        }
        let point = dive_by_variables(alloc, node, pools, master, known, seed)?;
        search.incumbent.take(alloc, node.program, point)?;
        seed = Some(drawn(u64::from(dive)));
    }
    Ok(())
}

// Dives by columns: with the restricted master's weights, and then with others. Where one fails, its columns seed exchanges.
fn dive_alike(
    alloc: Global,
    node: NodeContext,
    pools: &mut Pools,
    master: &mut RestrictedMaster,
    search: &mut Search,
    dives: u32,
) -> Result<(), AllocError>
    requires made_for { AreMadeFor node.program.now pools.old }
    ensures made_for { AreMadeFor node.entry.program.now pools.new }
{
    let mut style = Style {
        is_loose: search.is_even,
        seed: None,
    };
    for dive in 0..dives {
        let known = search.incumbent.known;
        let value = search.centre.value;
        if pools.budget.is_spent() || is_reached(value, known) {
            break;
        }
        style.is_loose = known.is_none() || style.is_loose;
        let dived = dive_by_columns(alloc, node, pools, master, known, style)?;
        let is_failed = dived.point.is_none();
        search.incumbent.take(alloc, node.program, dived.point)?;
        if is_failed {
            let taken = dived.taken.as_slice();
            let point = mended(alloc, node, pools, master, value, taken, moves_of(dive))?;
            search.incumbent.take(alloc, node.program, point)?;
        }
        style.is_loose = dive % 2 == 0;
        style.seed = Some(drawn(u64::from(dive)));
    }
    Ok(())
}

// How the exchange of a number goes.
fn moves_of(number: u32) -> Moves {
    let noise = match number % 4 {
        0 => 20,
        1 => 5,
        2 => 100,
        _ => 1,
    };
    Moves {
        most: MOVES,
        noise,
        seed: drawn(u64::from(number)),
    }
}

// Exchanges items between identical blocks, from nothing and from the columns of whole weight.
fn exchange_items(
    alloc: Global,
    node: NodeContext,
    pools: &Pools,
    master: &RestrictedMaster,
    search: &mut Search,
) -> Result<(), AllocError> {
    let wholes = wholes_of(alloc, master)?;
    let value = search.centre.value;
    for number in 0..PACKINGS {
        if is_reached(value, search.incumbent.known) {
            break;
        }
        let seeds = if number % 2 == 1 {
            wholes.as_slice()
        } else {
            &[]
        };
        let moves = moves_of(number / 2);
        let point = mended(alloc, node, pools, master, value, seeds, moves)?;
        search.incumbent.take(alloc, node.program, point)?;
    }
    Ok(())
}

// The columns of whole weight, each as often as its weight says.
fn wholes_of(alloc: Global, master: &RestrictedMaster) -> Result<Vec<Place>, AllocError> {
    let mut wholes = Vec::new(alloc);
    for number in 0..master.len() {
        let times = saturating_f64_to_i64(master.weight(number) + 1e-6);
        if let Some(column) = master.column(number) {
            for _ in 0..times.min(i64::from(master.size(column.class))) {
                wholes.push(column.place)?;
            }
        }
    }
    Ok(wholes)
}

// A point by exchanges between the blocks of the one class that isn't settled, which begin with columns. The dual bound in
// units, rounded up, ends them.
fn mended(
    alloc: Global,
    node: NodeContext,
    pools: &Pools,
    master: &RestrictedMaster,
    value: i128,
    taken: &[Place],
    moves: Moves,
) -> Result<Option<Vec<i64>>, AllocError> {
    let Some(class) = open_class(node.classes, master) else {
        return Ok(None);
    };
    if class >= node.classes.len() {
        return Ok(None);
    }
    let mut seeds = Vec::new(alloc);
    for place in taken {
        if let Some(column) = pools.column(*place) {
            seeds.push(column.point.as_slice())?;
        }
    }
    let alike = Alike {
        members: node.classes.members(class),
        spans: node.zone.spans(),
        bound: whole(round_up(value)),
    };
    pack(alloc, node.program, alike, seeds.as_slice(), moves)
}

// The one class that isn't settled, where it has several blocks.
fn open_class(classes: &Classes, master: &RestrictedMaster) -> Option<u32> {
    let mut open = None;
    for class in 0..classes.len() {
        let size = master.size(class);
        if size > 0 {
            if open.is_some() || size == 1 {
                return None;
            }
            open = Some(class);
        }
    }
    open
}
