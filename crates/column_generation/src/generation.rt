// Column generation in a zone: the restricted master gives multipliers, and pricing them gives columns and bounds. The
// multipliers are kept in a box round those of the best bound, which moves with it and is small beside them. (Marsten,
// Hogan and Blankenship, The boxstep method for large-scale optimization, 1975; du Merle, Villeneuve, Desrosiers and
// Hansen, Stabilized column generation, 1999.)
ghost use Rattle.std.specs.Prelude.{◌≡◌, ◌<◌, length};
ghost use Rattle.node_memory.specs.Pools.{AreMadeFor};

use crate::partition::add_partition;
use crate::several::add_several;
use block_class::Classes;
use block_program::Blocked;
use node_memory::{NodeContext, Pools};
use primal_heuristics::{UNIT, at, is_reached, quotient};
use restricted_master::{RestrictedMaster, at_scale};
use std::alloc::{AllocError, Global};
use std::num::{nearest_i64_to_f64, saturating_f64_to_i64};

/// How many rounds are made at most.
const ROUNDS: u32 = 138;

/// How many pivots a round may take.
const ROUND_PIVOTS: u32 = 5_000;

/// By how many units a bound may be below the restricted master's cost and count as equal.
const NEAR: i128 = 64;

/// The mean magnitude of multipliers over the width of their box.
const BOX_PART: f64 = 300.0;

/// The least width of the box.
const LEAST_WIDTH: f64 = 1e-4;

/// How many times the greatest cost and the greatest multiplier it costs to miss a row by one at first, by what that is
/// raised, and where it ends.
const COST_TIMES: f64 = 4.0;

const MULT_TIMES: f64 = 2.0;

const RAISE: f64 = 16.0;

const MOST_PENALTY: f64 = 524288.0;

/// The centre of a stabilized column generation: the multipliers of the best dual bound.
#[derive(Drop)]
pub struct Centre {
    /// The multipliers by row that proofs may name, at the greatest scale, 1,048,576.
    pub mults: Vec<i64>,
    /// Their dual bound in the zone, in units of which 1,048,576 make one.
    pub value: i128,
}

// A column generation at work.
#[derive(Drop)]
struct Generation {
    // The restricted master.
    master: RestrictedMaster,
    // The multipliers that it gave last, by row at the greatest scale.
    mults: Vec<i64>,
    // The point that reaches their bound, by copies of the variables.
    point: Vec<i64>,
    // How far multipliers may be from the centre, in ones; there is no box round it any more where there is none.
    width: Option<f64>,
    // How many rounds were made.
    round: u32,
}

/// How far generation goes.
#[derive(Clone, Copy)]
pub struct Effort {
    /// The incumbent's cost, where there is one, in ones: a dual bound that reaches it ends generation.
    pub known: Option<i64>,
    /// Whether partitions of the rows' sides give columns too.
    pub with_partitions: bool,
}

// How rounds go on.
#[derive(Clone, Copy, Debug, PartialEq, Eq)]
enum Step {
    On,
    Ended,
}

/// The mean magnitude, in ones, of multipliers by row at the greatest scale.
pub fn mean_mult(b: &Blocked, mults: &[i64]) -> f64 {
    let mut sum = 0.0;
    let mut many = 0.0;
    for row in 0..b.named_rows() {
        if b.master_row(row).is_some() {
            sum += nearest_i64_to_f64(at(mults, row as usize)).abs();
            many += 1.0;
        }
    }
    if many > 0.0 {
        sum / many / 1048576.0
    } else {
        0.0
    }
}

/// Rounds of master and pricing in a zone from a centre, which becomes that of the best bound there: the restricted
/// master after the last one, with a solution that may miss rows. There is none where a block has no point, or no
/// restricted master can be made.
pub fn generate_columns(
    alloc: Global,
    node: NodeContext,
    pools: &mut Pools,
    centre: &mut Centre,
    effort: Effort,
) -> Result<Option<RestrictedMaster>, AllocError>
    requires made_for { AreMadeFor node.program.now pools.old }
    ensures made_for { AreMadeFor node.entry.program.now pools.new }
{
    let Some(mut all) = begin(alloc, node, pools, centre)? else {
        return Ok(None);
    };
    let step = make_rounds(alloc, node, pools, centre, &mut all, effort)?;
    if step == Step::On {
        all.master.solve(alloc, ROUND_PIVOTS)?;
    }
    all.master.release();
    Ok(Some(all.master))
}

// Makes rounds until one ends generation, or as many as there may be.
fn make_rounds(
    alloc: Global,
    node: NodeContext,
    pools: &mut Pools,
    centre: &mut Centre,
    all: &mut Generation,
    effort: Effort,
) -> Result<Step, AllocError>
    requires made_for { AreMadeFor node.program.now pools.old }
    ensures made_for { AreMadeFor node.entry.program.now pools.new }
{
    for _ in 0..ROUNDS {
        let step = make_round(alloc, node, pools, centre, all, effort)?;
        if step == Step::Ended {
            return Ok(step);
        }
    }
    Ok(Step::On)
}

// The greatest magnitude of a cost.
fn greatest_cost(b: &Blocked) -> f64 {
    let mut most: u64 = 1;
    for term in b.model().costs() {
        most = most.max(term.coef.unsigned_abs());
    }
    nearest_i64_to_f64(primal_heuristics::whole(i128::from(most)))
}

// What it costs to miss a row by one at first.
fn first_penalty(b: &Blocked, mults: &[i64]) -> f64 {
    let mut most: u64 = 0;
    for mult in mults {
        most = most.max(mult.unsigned_abs());
    }
    let by_mults = nearest_i64_to_f64(primal_heuristics::whole(i128::from(most))) / 1048576.0
        * MULT_TIMES;
    let by_costs = greatest_cost(b) * COST_TIMES;
    if by_mults > by_costs {
        by_mults
    } else {
        by_costs
    }
}

// The restricted master with the pools' columns and the points of the centre.
fn begin(
    alloc: Global,
    node: NodeContext,
    pools: &mut Pools,
    centre: &mut Centre,
) -> Result<Option<Generation>, AllocError>
    requires made_for { AreMadeFor node.program.now pools.old }
    ensures made_for { AreMadeFor node.entry.program.now pools.new }
{
    let penalty = first_penalty(node.program, centre.mults.as_slice());
    let Some(master) = RestrictedMaster::make(alloc, node, penalty)? else {
        return Ok(None);
    };
    let mut all = Generation {
        master,
        mults: Vec::new(alloc),
        point: Vec::new(alloc),
        width: None,
        round: 0,
    };
    if begin_at(alloc, node, pools, centre, &mut all)? {
        Ok(Some(all))
    } else {
        Ok(None)
    }
}

// Prices the centre, and begins the restricted master with the pools' columns and the centre's points; whether there
// is a bound.
fn begin_at(
    alloc: Global,
    node: NodeContext,
    pools: &mut Pools,
    centre: &mut Centre,
    all: &mut Generation,
) -> Result<bool, AllocError>
    requires made_for { AreMadeFor node.program.now pools.old }
    ensures made_for { AreMadeFor node.entry.program.now pools.new }
{
    let mults = centre.mults.as_slice();
    all.mults = mults.to_vec(alloc)?;
    all.point = Vec::from_elem(alloc, 0i64, node.program.model().vars() as usize)?;
    let point = all.point.as_mut_slice();
    let Some(value) = pools.price(alloc, node, mults, point)? else {
        return Ok(false);
    };
    centre.value = value;
    pools.add_all_priced(alloc, node.program, node.classes)?;
    let mults = all.mults.as_slice();
    all.master.begin(alloc, node, pools, mults)?;
    let mean = mean_mult(node.program, mults) / BOX_PART;
    let width = if mean > LEAST_WIDTH {
        mean
    } else {
        LEAST_WIDTH
    };
    all.master.stay_near(mults, width);
    all.width = Some(width);
    Ok(true)
}

// What the restricted master comes to before a round's pricing.
#[derive(Clone, Copy)]
struct Solved {
    // Whether it meets its rows and the counts of its classes.
    is_whole: bool,
    // Its cost with the constant, in units.
    cost: i128,
}

impl Generation {
    // Solves the restricted master and writes its multipliers; none where its cost is reached, or no pivot may be made.
    fn solve_master(
        &mut self,
        alloc: Global,
        b: &Blocked,
        centre: &Centre,
    ) -> Result<Option<Solved>, AllocError> {
        self.master.solve(alloc, ROUND_PIVOTS)?;
        let solved = Solved {
            is_whole: !self.master.is_short(),
            cost: units(self.master.cost()),
        };
        if solved.is_reached(centre) || self.master.is_spent() {
            return Ok(None);
        }
        self.master.write_mults(b, self.mults.as_mut_slice());
        Ok(Some(solved))
    }
}

impl Solved {
    // Whether the restricted master meets its rows, and a centre's bound reaches its cost.
    fn is_reached(&self, centre: &Centre) -> bool {
        self.is_whole && is_near(centre.value, self.cost)
    }
}

impl Centre {
    // Becomes multipliers with a better bound; whether they are better.
    fn take_if_better(
        &mut self,
        alloc: Global,
        mults: &[i64],
        value: i128,
    ) -> Result<bool, AllocError> {
        if value <= self.value {
            return Ok(false);
        }
        self.mults = mults.to_vec(alloc)?;
        self.value = value;
        Ok(true)
    }
}

// A round of master and pricing.
fn make_round(
    alloc: Global,
    node: NodeContext,
    pools: &mut Pools,
    centre: &mut Centre,
    all: &mut Generation,
    effort: Effort,
) -> Result<Step, AllocError>
    requires made_for { AreMadeFor node.program.now pools.old }
    ensures made_for { AreMadeFor node.entry.program.now pools.new }
{
    let Some(solved) = all.solve_master(alloc, node.program, centre)? else {
        return Ok(Step::Ended);
    };
    let mults = all.mults.as_slice();
    let point = all.point.as_mut_slice();
    let Some(value) = pools.price(alloc, node, mults, point)? else {
        return Ok(Step::Ended);
    };
    let is_better = centre.take_if_better(alloc, all.mults.as_slice(), value)?;
    let added = add_priced(alloc, node.program, node.classes, pools, &mut all.master)?;
    let mults = all.mults.as_slice();
    let more = add_several(alloc, node, pools, &mut all.master, mults)?;
    let added = added.saturating_add(more);
    add_partition_if_asked(alloc, node, pools, all, effort)?;
    Ok(end_round(centre, all, effort, solved, added, is_better))
}

// Adds a partition's columns where they are asked for.
fn add_partition_if_asked(
    alloc: Global,
    node: NodeContext,
    pools: &mut Pools,
    all: &mut Generation,
    effort: Effort,
) -> Result<(), AllocError>
    requires made_for { AreMadeFor node.program.now pools.old }
    ensures made_for { AreMadeFor node.entry.program.now pools.new }
{
    if !effort.with_partitions {
        return Ok(());
    }
    let mults = all.mults.as_slice();
    let round = all.round;
    add_partition(alloc, node, pools, &mut all.master, mults, round)
}

// Ends a round: generation ends where the incumbent's cost is reached, where no column is new and the restricted
// master meets its rows with no box round its multipliers (in a box the slack of a row may be cheaper than columns
// that are not there yet), or where the bound reaches the restricted master's cost; else the box moves.
fn end_round(
    centre: &Centre,
    all: &mut Generation,
    effort: Effort,
    solved: Solved,
    added: u32,
    is_better: bool,
) -> Step {
    all.round = all.round.saturating_add(1);
    if is_reached(centre.value, effort.known) {
        return Step::Ended;
    }
    if solved.is_whole && added == 0 && all.width.is_none() || solved.is_reached(centre) {
        return Step::Ended;
    }
    move_box(centre, all, added > 0, is_better)
}

// Moves the box to a better centre, and makes it wider where no column is new; without a box penalties are raised then.
fn move_box(centre: &Centre, all: &mut Generation, is_new: bool, is_better: bool) -> Step {
    let Some(width) = all.width else {
        if is_new {
            return Step::On;
        }
        if all.master.penalty() >= MOST_PENALTY {
            return Step::Ended;
        }
        all.master.raise(RAISE);
        return Step::On;
    };
    let next = if is_new { width } else { width * 2.0 };
    if next >= all.master.penalty() {
        all.master.release();
        all.width = None;
    } else {
        if is_better || !is_new {
            all.master.stay_near(centre.mults.as_slice(), next);
        }
        all.width = Some(next);
    }
    Step::On
}

// A number of ones in units.
fn units(number: f64) -> i128 {
    i128::from(saturating_f64_to_i64(at_scale(number)))
}

// Whether a bound rounded up reaches the restricted master's cost rounded up.
fn is_near(value: i128, cost: i128) -> bool {
    round_up(value) >= round_up(cost.saturating_sub(NEAR))
}

/// The least whole number not below a number in units.
pub fn round_up(number: i128) -> i128 {
    let part = quotient(number, UNIT);
    if part.saturating_mul(UNIT) < number {
        part.saturating_add(1)
    } else {
        part
    }
}

// Adds the points that the last bound told; how many columns are new.
fn add_priced(
    alloc: Global,
    b: &Blocked,
    classes: &Classes,
    pools: &mut Pools,
    master: &mut RestrictedMaster,
) -> Result<u32, AllocError>
    requires made_for { AreMadeFor b.now pools.old }
    ensures made_for { AreMadeFor b.now pools.new }
{
    let mut added: u32 = 0;
    for class in 0..classes.len() {
        let first = classes.first(class);
        if add_class(alloc, b, pools, master, class, first)? {
            added = added.saturating_add(1);
        }
    }
    Ok(added)
}

/// Adds the point that the last bound told of a block, as a column of a class of the zone; whether it is a new column.
pub fn add_class(
    alloc: Global,
    b: &Blocked,
    pools: &mut Pools,
    master: &mut RestrictedMaster,
    class: u32,
    block: u32,
) -> Result<bool, AllocError>
    requires made_for { AreMadeFor b.now pools.old }
    ensures made_for { AreMadeFor b.now pools.new }
{
    if block >= b.blocks() {
        return Ok(false);
    }
    let Some(place) = pools.add_priced(alloc, b, block)? else {
        return Ok(false);
    };
    match pools.column(place) {
        None => Ok(false),
        Some(column) => master.add_if_better(alloc, column, class, place),
    }
}
