// Dives for a point by variables, for classes of one block each, where a column is too coarse a step: all variables
// that the restricted master holds at a whole number above their lower end, and the most decided one between, go up, and the
// master of the rest is settled again. A hint, which the model judges.
ghost use Rattle.std.specs.Prelude.{◌≡◌, ◌<◌, length};
ghost use Rattle.node_memory.specs.Pools.{AreMadeFor};

use crate::dives::{Dive, drawn, lows};
use crate::link_dives::fix_links;
use crate::rest::{settle_rest, switch_off_outside};
use block_program::Blocked;
use bp_theory::Span;
use node_memory::{NodeContext, Pools};
use primal_heuristics::{
    Spans, at, forget, is_first_copy, linking_vars, put, set, take_back, tighten,
};
use restricted_master::RestrictedMaster;
use std::alloc::{AllocError, Global};
use std::num::{nearest_i64_to_f64, saturating_f64_to_i64};

/// How many rounds are made after each fixing.
const ROUNDS: u32 = 3;

/// What counts as whole, the least weight that counts, and how far above its lower end a variable is to be that goes up.
const WHOLE: f64 = 1e-6;

const LEAST_RISE: f64 = 0.05;

/// The key of variables at whole numbers, in parts of 1,048,576.
const WHOLE_KEY: i64 = 2 << 20;

// A variable that may go up.
#[derive(Clone, Copy)]
struct Rise {
    // What it is chosen by: the greatest first. It is `WHOLE_KEY` at a whole number, and else its part in units.
    key: i64,
    // The variable.
    var: u32,
    // The number that its lower end goes up to.
    to: i64,
}

// What the weights of columns come to.
#[derive(Drop)]
struct Means {
    // By variable, the mean of the columns of its first copy.
    means: Vec<f64>,
    // By class of the node, the number of a column of the restricted master that has all the weight of a block.
    wholes: Vec<Option<usize>>,
}

/// A dive in a zone from a restricted master's solution: a point, where it reached one. It is given up where the
/// bound reaches the incumbent's cost. A seed moves the order of variables. The restricted master then stands as
/// before, but for new columns.
pub fn dive_by_variables(
    alloc: Global,
    node: NodeContext,
    pools: &mut Pools,
    master: &mut RestrictedMaster,
    known: Option<i64>,
    seed: Option<u64>,
) -> Result<Option<Vec<i64>>, AllocError>
    requires made_for { AreMadeFor node.program.now pools.old }
    ensures made_for { AreMadeFor node.entry.program.now pools.new }
{
    let mark = master.mark(alloc)?;
    let mut dive = Dive::make(alloc, node, known)?;
    let point = raise_all(alloc, node, pools, master, seed, &mut dive)?;
    master.go_back(alloc, &mark)?;
    Ok(point)
}

// What raising variables once comes to: a point may be left, none is, or this is it.
#[derive(Drop)]
enum Raised {
    On,
    Stuck,
    Point(Vec<i64>),
}

// Raises variables until each class has one column, or nothing can be raised.
fn raise_all(
    alloc: Global,
    node: NodeContext,
    pools: &mut Pools,
    master: &mut RestrictedMaster,
    seed: Option<u64>,
    dive: &mut Dive,
) -> Result<Option<Vec<i64>>, AllocError>
    requires made_for { AreMadeFor node.program.now pools.old }
    ensures made_for { AreMadeFor node.entry.program.now pools.new }
{
    if !tighten(node.program, dive.known, &mut dive.spans)? {
        return Ok(None);
    }
    let links = linking_vars(alloc, node.program)?;
    let mut seed = seed;
    for _ in 0..node.program.model().vars() {
        match raise_next(alloc, node, pools, master, links.as_slice(), seed, dive)? {
            Raised::Point(point) => return Ok(Some(point)),
            Raised::Stuck => return Ok(None),
            Raised::On => {}
        }
        if !settle_rest(alloc, node, pools, master, dive, ROUNDS)? {
            return Ok(None);
        }
        seed = next_seed(seed);
    }
    Ok(None)
}

// Raises variables once, or tells the point that all columns are of.
fn raise_next(
    alloc: Global,
    node: NodeContext,
    pools: &Pools,
    master: &mut RestrictedMaster,
    links: &[u32],
    seed: Option<u64>,
    dive: &mut Dive,
) -> Result<Raised, AllocError> {
    let found = means_of(alloc, node, pools, master)?;
    if let Some(point) = whole_point(alloc, node, pools, master, &found, dive)? {
        return Ok(Raised::Point(point));
    }
    if !move_on(alloc, node, &found, links, seed, dive)? {
        return Ok(Raised::Stuck);
    }
    switch_off_outside(alloc, node, pools, master, dive)?;
    Ok(Raised::On)
}

// Fixes linking variables, or raises others where no linking one is open; whether a point may be left.
fn move_on(
    alloc: Global,
    node: NodeContext,
    found: &Means,
    links: &[u32],
    seed: Option<u64>,
    dive: &mut Dive,
) -> Result<bool, AllocError> {
    let known = dive.known;
    let means = found.means.as_slice();
    if let Some(is_left) = fix_links(alloc, node.program, links, means, known, &mut dive.spans)? {
        return Ok(is_left);
    }
    let rises = rises_of(alloc, node, found, &dive.spans, seed)?;
    raise(node.program, rises.as_slice(), known, &mut dive.spans)
}

// The seed of the next step.
fn next_seed(seed: Option<u64>) -> Option<u64> {
    match seed {
        None => None,
        Some(number) => Some(drawn(number)),
    }
}

// The mean of the columns of each variable.
fn means_of(
    alloc: Global,
    node: NodeContext,
    pools: &Pools,
    master: &RestrictedMaster,
) -> Result<Means, AllocError> {
    let mut found = Means {
        means: Vec::from_elem(alloc, 0.0, node.program.model().vars() as usize)?,
        wholes: Vec::from_elem(alloc, None, node.classes.len() as usize)?,
    };
    for number in 0..master.len() {
        let weight = master.weight(number);
        if let Some(column) = master.column(number) {
            if weight >= WHOLE && column.class < node.classes.len() {
                let block = node.classes.first(column.class);
                if block < node.program.blocks() {
                    if let Some(point) = pools.column(column.place) {
                        let point = point.point.as_slice();
                        add_weighted(
                            node.program,
                            block,
                            point,
                            weight,
                            found.means.as_mut_slice(),
                        );
                    }
                }
                if weight > 1.0 - WHOLE {
                    if let Some(whole) = found.wholes.get_mut(column.class as usize) {
                        *whole = Some(number);
                    }
                }
            }
        }
    }
    Ok(found)
}

// Adds a part of a block's point to means, which are those of first copies.
fn add_weighted(b: &Blocked, number: u32, point: &[i64], weight: f64, means: &mut [f64])
    requires { number < length b.now.blocking.blocks }
{
    for (var, value) in b.block(number).vars().iter().zip(point) {
        if is_first_copy(b, number, *var) {
            if let Some(mean) = means.get_mut(*var as usize) {
                *mean += weight * nearest_i64_to_f64(*value);
            }
        }
    }
}

// The point where each class that isn't settled has one column, and these agree.
fn whole_point(
    alloc: Global,
    node: NodeContext,
    pools: &Pools,
    master: &RestrictedMaster,
    found: &Means,
    dive: &Dive,
) -> Result<Option<Vec<i64>>, AllocError> {
    for class in 0..node.classes.len() {
        let whole = found.wholes.get(class as usize);
        if master.size(class) > 0 && !matches!(whole, Some(Some(_))) {
            return Ok(None);
        }
    }
    let mut point = lows(alloc, dive.spans.now.as_slice())?;
    for class in 0..node.classes.len() {
        if let Some(Some(number)) = found.wholes.get(class as usize) {
            let point = point.as_mut_slice();
            if !write_column(node, pools, master, class, *number, point) {
                return Ok(None);
            }
        }
    }
    Ok(Some(point))
}

// Writes a column's numbers into the first block of its class; whether they agree with what first copies have already.
fn write_column(
    node: NodeContext,
    pools: &Pools,
    master: &RestrictedMaster,
    class: u32,
    number: usize,
    point: &mut [i64],
) -> bool {
    if class >= node.classes.len() {
        return true;
    }
    let block = node.classes.first(class);
    if block >= node.program.blocks() {
        return true;
    }
    if let Some(column) = master.column(number) {
        if let Some(found) = pools.column(column.place) {
            for (var, value) in node
                .program
                .block(block)
                .vars()
                .iter()
                .zip(found.point.as_slice())
            {
                if is_first_copy(node.program, block, *var) {
                    put(point, *var as usize, *value);
                } else if at(point, *var as usize) != *value {
                    return false;
                }
            }
        }
    }
    true
}

// The variables that may go up, those at whole numbers first, and then those with the greatest part.
fn rises_of(
    alloc: Global,
    node: NodeContext,
    found: &Means,
    spans: &Spans,
    seed: Option<u64>,
) -> Result<Vec<Rise>, AllocError> {
    let mut rises = Vec::new(alloc);
    let mut seed = seed;
    for class in 0..node.classes.len() {
        let number = node.classes.first(class);
        if number < node.program.blocks() {
            let block = node.program.block(number);
            for place in 0..block.var_count() {
                let var = block.vars()[place as usize];
                if !block.master(place).is_empty() && is_first_copy(node.program, number, var) {
                    if let Some(rise) = rise_of(var, found, spans, &mut seed) {
                        rises.push(rise)?;
                    }
                }
            }
        }
    }
    rises.sort_by_key(|rise| rise.key.saturating_neg())?;
    Ok(rises)
}

// What a variable may go up to, where its mean is above its lower end.
fn rise_of(var: u32, found: &Means, spans: &Spans, seed: &mut Option<u64>) -> Option<Rise> {
    let (Some(span), Some(mean)) = (
        spans.now.as_slice().get(var as usize),
        found.means.get(var as usize),
    ) else {
        return None;
    };
    if span.lo >= span.hi || *mean <= nearest_i64_to_f64(span.lo) + LEAST_RISE {
        return None;
    }
    let low = saturating_f64_to_i64(*mean + WHOLE);
    let part = *mean - nearest_i64_to_f64(low);
    let is_whole = part < WHOLE;
    let to = if is_whole { low } else { low.saturating_add(1) };
    let mut key = saturating_f64_to_i64(part * 1048576.0);
    if is_whole {
        key = WHOLE_KEY;
    } else if let Some(before) = *seed {
        let next = drawn(before);
        *seed = Some(next);
        key = key.saturating_add(((next >> 33) % 314_572) as i64);
    }
    if span.lo < to && to <= span.hi {
        Some(Rise { key, var, to })
    } else {
        None
    }
}

// Raises all variables at whole numbers, and the first between that may go up; whether one did, or was kept down.
fn raise(
    b: &Blocked,
    rises: &[Rise],
    known: Option<i64>,
    spans: &mut Spans,
) -> Result<bool, AllocError> {
    let mut moved = false;
    for rise in rises {
        if raise_one(b, rise, known, spans)? {
            moved = true;
            if rise.key < WHOLE_KEY {
                return Ok(true);
            }
        } else if rise.key < WHOLE_KEY {
            return keep_down(b, rise, known, spans);
        }
    }
    Ok(moved)
}

// Raises a variable's lower end and tightens; whether a point may be left. Else all is as before.
fn raise_one(
    b: &Blocked,
    rise: &Rise,
    known: Option<i64>,
    spans: &mut Spans,
) -> Result<bool, AllocError> {
    let Some(span) = spans.now.as_slice().get(rise.var as usize) else {
        return Ok(false);
    };
    let span = *span;
    if span.lo >= rise.to || rise.to > span.hi {
        return Ok(false);
    }
    let changes = spans.before.len();
    let part = Span {
        lo: rise.to,
        hi: span.hi,
    };
    set(spans, rise.var, part)?;
    if tighten(b, known, spans)? {
        return Ok(true);
    }
    take_back(spans, changes);
    forget(spans);
    Ok(false)
}

// Keeps a variable below what it can't be raised to, and tightens; whether a point may be left.
fn keep_down(
    b: &Blocked,
    rise: &Rise,
    known: Option<i64>,
    spans: &mut Spans,
) -> Result<bool, AllocError> {
    let Some(span) = spans.now.as_slice().get(rise.var as usize) else {
        return Ok(false);
    };
    let span = *span;
    let most = rise.to.saturating_sub(1);
    if most < span.lo || most >= span.hi {
        return Ok(false);
    }
    let part = Span {
        lo: span.lo,
        hi: most,
    };
    set(spans, rise.var, part)?;
    tighten(b, known, spans)
}
