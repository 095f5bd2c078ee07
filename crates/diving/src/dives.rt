// Dives for a point by columns: columns of great weight are fixed in blocks of their classes, all spans are
// tightened, and the restricted master of the rest is settled again with a few rounds of pricing. A hint, which the
// model judges. (Joncour, Michel, Sadykov, Sverdlov and Vanderbeck, Column generation based primal heuristics, 2010.)
ghost use Rattle.std.specs.Prelude.{◌≡◌, length};
ghost use Rattle.node_memory.specs.Pools.{AreMadeFor};

use crate::rest::{is_inside, settle_rest, switch_off_outside};
use block_class::Classes;
use block_program::Block;
use bp_theory::Span;
use node_memory::{NodeContext, Place, Pools};
use primal_heuristics::{Spans, forget, is_one_point, set, take_back, tighten};
use restricted_master::{MasterColumn, RestrictedMaster};
use std::alloc::{AllocError, Global};
use std::num::saturating_f64_to_i64;

/// How many rounds are made after each fixing.
const ROUNDS: u32 = 5;

/// The weight of one block in units, what may be missing of it, and the least weight that counts.
const ONE: i64 = 1 << 20;

const SLACK: i64 = 1;

const LEAST: i64 = 1;

/// How a dive by columns chooses.
#[derive(Clone, Copy)]
pub struct Style {
    /// Whether columns whose numbers are all 0 come last.
    pub is_loose: bool,
    /// What the weights of fractional columns are moved by, where they are.
    pub seed: Option<u64>,
}

/// What a dive by columns came to.
#[derive(Drop)]
pub struct Dived {
    /// The point that it reached, by variable, where it reached one.
    pub point: Option<Vec<i64>>,
    /// The columns that it fixed, in order, one for each block.
    pub taken: Vec<Place>,
}

// A column that a dive may fix.
#[derive(Clone, Copy)]
struct Choice {
    // What it is chosen by, in units of which 1,048,576 make one: the greatest first.
    key: i64,
    // Its weight, in units.
    weight: i64,
    // The column.
    column: MasterColumn,
}

/// Where a dive stands.
#[derive(Drop)]
pub struct Dive {
    /// The spans of all variables, tightened after each fixing.
    pub spans: Spans,
    /// By class of the node, how many of its blocks are fixed, in the order of its members.
    pub fixed: Vec<usize>,
    /// The columns that were fixed, in order, one for each block.
    pub taken: Vec<Place>,
    /// The incumbent's cost, where there is one: a dive is given up where its bound reaches this.
    pub known: Option<i64>,
}

impl Dive {
    /// The spans of a zone, where no block is fixed.
    pub fn make(alloc: Global, node: NodeContext, known: Option<i64>) -> Result<Dive, AllocError> {
        Ok(Dive {
            spans: Spans::make(alloc, node.program, node.zone.spans())?,
            fixed: Vec::from_elem(alloc, 0usize, node.classes.len() as usize)?,
            taken: Vec::new(alloc),
            known,
        })
    }

    /// The next block of a class that isn't fixed.
    pub fn next_block(&self, classes: &Classes, class: u32) -> Option<u32> {
        let rank = match self.fixed.get(class as usize) {
            Some(rank) => *rank,
            None => return None,
        };
        if class >= classes.len() {
            return None;
        }
        match classes.members(class).get(rank) {
            Some(block) => Some(*block),
            None => None,
        }
    }
}

/// A dive in a zone from a restricted master's solution, given up where the bound reaches the incumbent's cost. The
/// restricted master then stands as before, but for new columns.
pub fn dive_by_columns(
    alloc: Global,
    node: NodeContext,
    pools: &mut Pools,
    master: &mut RestrictedMaster,
    known: Option<i64>,
    style: Style,
) -> Result<Dived, AllocError>
    requires made_for { AreMadeFor node.program.now pools.old }
    ensures made_for { AreMadeFor node.entry.program.now pools.new }
{
    let mark = master.mark(alloc)?;
    let mut dive = Dive::make(alloc, node, known)?;
    let point = take_all(alloc, node, pools, master, style, &mut dive)?;
    master.go_back(alloc, &mark)?;
    Ok(Dived {
        point,
        taken: dive.taken,
    })
}

// Fixes columns until all blocks have one point, which is told, or nothing can be fixed.
fn take_all(
    alloc: Global,
    node: NodeContext,
    pools: &mut Pools,
    master: &mut RestrictedMaster,
    style: Style,
    dive: &mut Dive,
) -> Result<Option<Vec<i64>>, AllocError>
    requires made_for { AreMadeFor node.program.now pools.old }
    ensures made_for { AreMadeFor node.entry.program.now pools.new }
{
    if !tighten(node.program, dive.known, &mut dive.spans)? {
        return Ok(None);
    }
    for _ in 0..node.program.blocks() {
        if take_columns(alloc, node, pools, master, style, dive)? == 0 {
            return Ok(None);
        }
        if is_one_point(dive.spans.now.as_slice()) {
            return Ok(Some(lows(alloc, dive.spans.now.as_slice())?));
        }
        switch_off_outside(alloc, node, pools, master, dive)?;
        if !settle_rest(alloc, node, pools, master, dive, ROUNDS)? {
            return Ok(None);
        }
    }
    Ok(None)
}

// Fixes columns by weight: all whole ones, or else the first that fits; how many.
fn take_columns(
    alloc: Global,
    node: NodeContext,
    pools: &Pools,
    master: &mut RestrictedMaster,
    style: Style,
    dive: &mut Dive,
) -> Result<u32, AllocError> {
    let choices = choices(alloc, pools, master, style)?;
    let mut many: u32 = 0;
    for choice in choices.as_slice() {
        for _ in 0..times(choice, many) {
            if !take_column(node, pools, master, &choice.column, dive)? {
                break;
            }
            many = many.saturating_add(1);
        }
        if many > 0 && choice.key < ONE {
            break;
        }
    }
    Ok(many)
}

// How often a column is taken: as often as its weight is whole, and once where none was taken before.
fn times(choice: &Choice, many: u32) -> i64 {
    let whole = choice.weight.saturating_add(SLACK) / ONE;
    if whole >= 1 && choice.key >= ONE / 2 {
        whole
    } else if many == 0 {
        1
    } else {
        0
    }
}

// The columns with a weight by their keys, the greatest first.
fn choices(
    alloc: Global,
    pools: &Pools,
    master: &RestrictedMaster,
    style: Style,
) -> Result<Vec<Choice>, AllocError> {
    let mut choices = Vec::new(alloc);
    let mut seed = style.seed;
    for number in 0..master.len() {
        let weight = saturating_f64_to_i64(master.weight(number) * 1048576.0 + 0.5);
        if let Some(column) = master.column(number) {
            if weight >= LEAST {
                let mut key = weight;
                if style.is_loose && is_idle(pools, column.place) {
                    key = 0;
                } else if key.saturating_add(SLACK) >= ONE {
                    key = key.max(ONE);
                } else if let Some(before) = seed {
                    let next = drawn(before);
                    seed = Some(next);
                    key = key.saturating_add(part_of(next)).min(ONE - 1);
                }
                choices.push(Choice {
                    key,
                    weight,
                    column,
                })?;
            }
        }
    }
    choices.sort_by_key(|choice| choice.key.saturating_neg())?;
    Ok(choices)
}

/// The next number of a sequence that looks random. (Knuth.)
pub fn drawn(number: u64) -> u64 {
    number
        .wrapping_mul(6_364_136_223_846_793_005)
        .wrapping_add(1_442_695_040_888_963_407)
}

// Up to half the weight of a block.
fn part_of(number: u64) -> i64 {
    ((number >> 33) % 524_288) as i64
}

// Whether a column has no number but 0.
fn is_idle(pools: &Pools, place: Place) -> bool {
    match pools.column(place) {
        None => false,
        Some(found) => found.point.as_slice().iter().all(|number| *number == 0),
    }
}

// Takes a column into the next block of its class, and tightens the spans; whether a point may be left. Else all is as
// before.
fn take_column(
    node: NodeContext,
    pools: &Pools,
    master: &mut RestrictedMaster,
    column: &MasterColumn,
    dive: &mut Dive,
) -> Result<bool, AllocError> {
    let Some(block) = dive.next_block(node.classes, column.class) else {
        return Ok(false);
    };
    let Some(found) = pools.column(column.place) else {
        return Ok(false);
    };
    let point = found.point.as_slice();
    let changes = dive.spans.before.len();
    if block >= node.program.blocks()
        || !is_inside(node.program.block(block), point, dive.spans.now.as_slice())
        || !fix(node.program.block(block), point, &mut dive.spans)?
        || !tighten(node.program, dive.known, &mut dive.spans)?
    {
        take_back(&mut dive.spans, changes);
        forget(&mut dive.spans);
        return Ok(false);
    }
    master.take(found, column.class);
    if let Some(rank) = dive.fixed.get_mut(column.class as usize) {
        *rank = rank.saturating_add(1);
    }
    dive.taken.push(column.place)?;
    Ok(true)
}

// Narrows a block's spans to a point inside them; whether all of its variables are there.
fn fix(block: &Block, point: &[i64], spans: &mut Spans) -> Result<bool, AllocError> {
    let vars = block.vars();
    let many = vars.len().min(point.len());
    for place in 0..many {
        let number = point[place];
        let Some(span) = spans.now.as_slice().get(vars[place] as usize) else {
            return Ok(false);
        };
        if span.lo != number || span.hi != number {
            let one = Span {
                lo: number,
                hi: number,
            };
            set(spans, vars[place], one)?;
        }
    }
    Ok(true)
}

/// The lower ends of spans.
pub fn lows(alloc: Global, spans: &[Span]) -> Result<Vec<i64>, AllocError> {
    spans.iter().map(|span| span.lo).collect(alloc)
}
