// What is searched for in a node's zone: multipliers, a point, and a split. All are hints.
ghost use Rattle.std.specs.Prelude.{◌≡◌, ◌<◌, IfOk, All, length};
ghost use Rattle.node_memory.specs.Pools.{AreMadeFor};
ghost use Rattle.search_laws.specs.declared.UsedColumn.{UsedColumn as AUsed};

use crate::links::split_of_links;
use crate::points::{find_points, point_by_mean};
use block_class::Classes;
use block_program::Blocked;
use bp_theory::{Items, Span};
use branch_tree::Turn;
use column_generation::{Centre, Effort, generate_columns, leaf_mults, take_steps};
use disagg::most_mixed;
use node_memory::{NodeContext, Pools};
use primal_heuristics::{
    Incumbent, UNIT, guide_of, is_reached, plain_guide, quotient, reach_of, search_point, whole,
};
use restricted_master::{RestrictedMaster, Weighted, has_master_and_block_rows};
use search_laws::UsedColumn;
use std::alloc::{AllocError, Global};

/// Where a node is to be forked.
#[derive(Clone, Copy)]
pub struct Split {
    /// The variable.
    pub var: u32,
    /// The number behind which its span is split.
    pub at: i64,
}

/// What the heuristics of a node found. Nothing is promised of it.
#[derive(Drop)]
pub struct Hint {
    /// The multipliers of the best dual bound, by row that proofs may name, at the greatest scale, 1,048,576.
    pub mults: Vec<i64>,
    /// A point by variable that is cheaper than the incumbent, where one was found.
    pub point: Option<Vec<i64>>,
    /// Where the node is to be forked.
    pub split: Split,
}

/// Where the search in a node stands.
#[derive(Drop)]
pub struct Search {
    /// The multipliers of the best dual bound so far, by row at the greatest scale, with that bound.
    pub centre: Centre,
    /// The incumbent's cost, and a point of that cost where the node gave one.
    pub incumbent: Incumbent,
    /// Whether an even number of nodes was searched before: by this dives by columns differ.
    pub is_even: bool,
}

/// Multipliers with a great bound in a node's zone, a point that is cheaper than the best cost, where one was found,
/// and a split of the linking variable on which the columns agree least, or else of the variable that the columns, or
/// the mean of the priced points, leave farthest from whole.
/// Dives keep columns without numbers for last at every other node.
pub fn hinted(
    alloc: Global,
    node: NodeContext,
    pools: &mut Pools,
    turn: &Turn,
    best: Option<i64>,
    is_even: bool,
) -> Result<Hint, AllocError>
    requires made_for { AreMadeFor node.program.now pools.old }
    ensures made_for { AreMadeFor node.entry.program.now pools.new }
{
    let with_columns = has_master_and_block_rows(node.program);
    let mut incumbent = first_incumbent(alloc, node.program, turn, best)?;
    let limit = limit_of(node.program, turn, incumbent.known);
    let steps = take_steps(alloc, node, pools, turn, limit, with_columns)?;
    incumbent.take(alloc, node.program, steps.found)?;
    let mut search = Search {
        centre: Centre {
            mults: steps.best,
            value: steps.value,
        },
        incumbent,
        is_even,
    };
    let mean = steps.mean.as_slice();
    let split = searched(alloc, node, pools, turn, mean, &mut search)?;
    let Search {
        centre,
        incumbent,
        is_even: _,
    } = search;
    Ok(Hint {
        mults: centre.mults,
        point: incumbent.point,
        split,
    })
}

// Points that a search and columns give from where steps ended, and the split that the columns want, else that of the mean.
fn searched(
    alloc: Global,
    node: NodeContext,
    pools: &mut Pools,
    turn: &Turn,
    mean: &[i128],
    search: &mut Search,
) -> Result<Split, AllocError>
    requires made_for { AreMadeFor node.program.now pools.old }
    ensures made_for { AreMadeFor node.entry.program.now pools.new }
{
    let is_unknown = search.incumbent.known.is_none();
    if !has_master_and_block_rows(node.program) || turn.depth == 0 || is_unknown {
        let probed = probed_point(alloc, node.program, turn, mean, search)?;
        search.incumbent.take(alloc, node.program, probed)?;
    }
    let found = search_columns(alloc, node, pools, turn, search)?;
    Ok(found.unwrap_or(split_of_mean(mean, node.zone.spans())))
}

/// What is known before multipliers are searched for. At the root, and where no point is known, a search by plain costs
/// is made.
pub fn first_incumbent(
    alloc: Global,
    b: &Blocked,
    turn: &Turn,
    best: Option<i64>,
) -> Result<Incumbent, AllocError> {
    let mut incumbent = Incumbent {
        known: best,
        point: None,
    };
    if turn.depth == 0 || best.is_none() {
        let mults = leaf_mults(alloc, b, turn)?;
        let guide = plain_guide(alloc, b, mults.as_slice())?;
        let point = search_point(alloc, b, turn, &guide, best)?;
        incumbent.take(alloc, b, point)?;
    }
    Ok(incumbent)
}

// The incumbent's cost, or else one above that of each point of the node's spans: a bound that reaches it shows that there is
// none.
fn limit_of(b: &Blocked, turn: &Turn, known: Option<i64>) -> Option<i64> {
    match known {
        Some(cost) => Some(cost),
        None => {
            let dearest = reach_of(b.model().costs(), turn.zone.spans()).most;
            let constant = i128::from(b.model().constant());
            Some(whole(dearest.saturating_add(constant).saturating_add(1)))
        }
    }
}

// A point that is cheaper than what is known, where the bound reaches no limit and a search finds one.
fn probed_point(
    alloc: Global,
    b: &Blocked,
    turn: &Turn,
    mean: &[i128],
    search: &Search,
) -> Result<Option<Vec<i64>>, AllocError> {
    let known = search.incumbent.known;
    if is_reached(search.centre.value, limit_of(b, turn, known)) {
        return Ok(None);
    }
    let guide = guide_of(alloc, b, search.centre.mults.as_slice(), mean)?;
    search_point(alloc, b, turn, &guide, known)
}

// Column generation from a centre, where columns serve and the centre has a bound. There is no restricted master
// where the bound reaches what is known, before or after.
fn generated(
    alloc: Global,
    node: NodeContext,
    pools: &mut Pools,
    turn: &Turn,
    search: &mut Search,
) -> Result<Option<RestrictedMaster>, AllocError>
    requires made_for { AreMadeFor node.program.now pools.old }
    ensures made_for { AreMadeFor node.entry.program.now pools.new }
{
    if !has_master_and_block_rows(node.program) {
        return Ok(None);
    }
    let limit = limit_of(node.program, turn, search.incumbent.known);
    let value = search.centre.value;
    if value == i128::MIN || is_reached(value, limit) {
        return Ok(None);
    }
    let effort = Effort {
        known: limit,
        with_partitions: turn.depth == 0,
    };
    let master = generate_columns(alloc, node, pools, &mut search.centre, effort)?;
    if is_reached(search.centre.value, limit) {
        return Ok(None);
    }
    Ok(master)
}

// Points from the columns that are generated from a centre, where there are such, and the split that they want.
fn search_columns(
    alloc: Global,
    node: NodeContext,
    pools: &mut Pools,
    turn: &Turn,
    search: &mut Search,
) -> Result<Option<Split>, AllocError>
    requires made_for { AreMadeFor node.program.now pools.old }
    ensures made_for { AreMadeFor node.entry.program.now pools.new }
{
    let Some(mut master) = generated(alloc, node, pools, turn, search)? else {
        return Ok(None);
    };
    let used = master.used(alloc)?;
    let used = used.as_slice();
    let master = &mut master;
    points_and_split(alloc, node, pools, turn, master, used, search)
}

// Points from a restricted master whose columns these are that are used, and the split that they want.
fn points_and_split(
    alloc: Global,
    node: NodeContext,
    pools: &mut Pools,
    turn: &Turn,
    master: &mut RestrictedMaster,
    used: &[Weighted],
    search: &mut Search,
) -> Result<Option<Split>, AllocError>
    requires made_for { AreMadeFor node.program.now pools.old }
    ensures made_for { AreMadeFor node.entry.program.now pools.new }
{
    if turn.depth == 0 || search.incumbent.known.is_none() {
        let point = point_by_mean(alloc, node, pools, turn, used, search)?;
        search.incumbent.take(alloc, node.program, point)?;
    }
    find_points(alloc, node, pools, turn, master, search)?;
    if let Some(split) = split_of_links(alloc, node.program, node.classes, pools, used)? {
        return Ok(Some(split));
    }
    split_of_used(alloc, node.program, node.classes, pools, used)
}

// The split of the variable that is farthest from whole where weighted columns are dealt out to blocks.
fn split_of_used(
    alloc: Global,
    b: &Blocked,
    classes: &Classes,
    pools: &Pools,
    weighted: &[Weighted],
) -> Result<Option<Split>, AllocError>
    requires each { length classes.now.classes ≡ length b.now.blocking.blocks }
{
    let used = used_columns(alloc, classes, pools, weighted)?;
    match most_mixed(alloc, b, classes, used.as_slice())? {
        None => Ok(None),
        Some((var, at)) => Ok(Some(Split { var, at })),
    }
}

// Weighted columns with their points.
fn used_columns(
    alloc: Global,
    classes: &Classes,
    pools: &Pools,
    weighted: &[Weighted],
) -> Result<Vec<UsedColumn>, AllocError>
    ensures { IfOk result (λ used. All (λ (u : AUsed). u.class < length classes.now.firsts)
        used.items) }
{
    let mut used = Vec::new(alloc);
    for column in weighted {
        if column.class < classes.len() {
            if let Some(found) = pools.column(column.place) {
                let point = found.point.as_slice().to_vec(alloc)?;
                used.push(UsedColumn {
                    class: column.class,
                    weight: column.weight,
                    point: Items::from_vec(point),
                })?;
            }
        }
    }
    Ok(used)
}

// The split of the variable with an open span whose mean in units is farthest from whole.
fn split_of_mean(mean: &[i128], spans: &[Span]) -> Split {
    let mut far: i128 = -1;
    let mut split = Split { var: 0, at: 0 };
    let mut var: u32 = 0;
    for (number, span) in mean.iter().zip(spans) {
        let part = distance(number);
        if span.lo < span.hi && part > far {
            far = part;
            split = Split {
                var,
                at: span
                    .lo
                    .saturating_add((span.hi.saturating_sub(span.lo)) / 2),
            };
        }
        var = var.saturating_add(1);
    }
    split
}

// How far a number in units is from whole.
fn distance(number: &i128) -> i128 {
    let part = number.saturating_sub(quotient(*number, UNIT).saturating_mul(UNIT));
    let above = part.max(part.saturating_neg());
    above.min(UNIT.saturating_sub(above))
}
