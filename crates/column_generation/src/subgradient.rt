// Multipliers by subgradient steps in whole numbers: hints, which exact bounds judge. A step goes along what the newest
// point leaves open, from its multipliers, with Polyak's length to a level above the best bound. Where blocks are
// alike, one priced point counts for many blocks and leaves far too much open: there a step goes from the best
// multipliers along what the mean of the priced points leaves open, as the volume algorithm takes it. (Polyak,
// Minimization of unsmooth functionals, 1969; Barahona and Anbil, The volume algorithm: producing primal solutions with
// a subgradient method, 2000.)
ghost use Rattle.std.specs.Prelude.{◌≡◌};
ghost use Rattle.node_memory.specs.Pools.{AreMadeFor};

use crate::costs::reduced_cost;
use crate::start::relaxed_mults;
use block_class::Classes;
use block_program::{Blocked, MAX_SCALE};
use bp_theory::{MasterRow, Sense, Span};
use branch_tree::Turn;
use node_memory::{NodeContext, Pools};
use primal_heuristics::{
    UNIT, at, clipped, copy_count, copy_place, feasible_cost, is_below, is_reached, meets, product,
    put, quotient, signed, slope, sum_at, write_sums,
};
use std::alloc::{AllocError, Global};

// How steps go.
#[derive(Clone, Copy)]
struct Pace {
    // How many steps are taken at most.
    steps: u32,
    // How many steps without a gain lower the aim.
    patience: u32,
    // The least gain that is aimed at, in units.
    least_gain: i128,
    // The greatest cost of a variable over the first aim, below the root.
    aim_part: i128,
}

// How steps go where columns are generated from their multipliers, and where not.
const WITH_COLUMNS: Pace = Pace {
    steps: 8,
    patience: 5,
    least_gain: 1 << 4,
    aim_part: 8,
};

const ALONE: Pace = Pace {
    steps: 60,
    patience: 3,
    least_gain: 1 << 9,
    aim_part: 32,
};

// How steps go from the multipliers of the relaxation.
const RELAXED: Pace = Pace {
    steps: 20,
    patience: 5,
    least_gain: 1 << 4,
    aim_part: 8,
};

/// How many steps are taken at the root, where columns are generated from their multipliers, and where not.
const ROOT_STEPS: u32 = 60;

const LONE_ROOT_STEPS: u32 = 199;

/// How many of the last steps give columns.
const COLUMN_STEPS: u32 = 20;

/// The least square of what is left open that directs a step.
const LEAST_NORM: i128 = 1 << 16;

/// How many parts make one in a share of the newest point, its least and its greatest share in what directs the steps, and
/// its share in the mean.
const PARTS: i128 = 1024;

const LEAST_SHARE: i128 = 72;

const MOST_SHARE: i128 = 716;

const MEAN_SHARE: i128 = 51;

/// The least gain that goes on with the newest point, as a part of what is aimed at.
const GAIN_PART: i128 = 8;

// What directs steps: the newest point, or the mean of the points.
#[derive(Clone, Copy, Debug, PartialEq, Eq)]
enum Course {
    Newest,
    Mean,
}

/// The state of the steps, and what they found. Multipliers are by row that proofs may name and at the greatest
/// scale, 1,048,576; sums are by such a row and in units of which as many make one.
#[derive(Drop)]
pub struct Subgradient {
    /// The multipliers of the best dual bound.
    pub best: Vec<i64>,
    /// The best dual bound, in units.
    pub value: i128,
    /// The mean of the priced points, by variable, in units.
    pub mean: Vec<i128>,
    /// A feasible point by variable that is cheaper than the incumbent, the cheapest one that was priced.
    pub found: Option<Vec<i64>>,
    /// The incumbent's cost, where there is one, in ones.
    pub known: Option<i64>,
    /// What directs the next step.
    course: Course,
    /// How steps go.
    pace: Pace,
    /// The multipliers that were priced last.
    mults: Vec<i64>,
    /// The point that reaches their bound, by copies of the variables.
    point: Vec<i64>,
    /// The rows' sums at this point.
    sums: Vec<i128>,
    /// The rows' sums at the point of the best bound.
    best_sums: Vec<i128>,
    /// The multipliers that the next step leaves from.
    from: Vec<i64>,
    /// The rows' sums at what directs the next step.
    along: Vec<i128>,
    /// How far the bound of `from` is below the best, in units.
    short: i128,
    /// How far above the best bound the aim is, in units.
    pub gain: i128,
    /// How many steps in a row had no gain.
    failures: u32,
    /// Whether steps began with the multipliers of the relaxation.
    is_relaxed: bool,
}

/// Multipliers with a great dual bound in a node's zone by subgradient steps from those of the node's proof. A dual bound that
/// reaches the incumbent's cost ends the steps.
pub fn take_steps(
    alloc: Global,
    node: NodeContext,
    pools: &mut Pools,
    turn: &Turn,
    known: Option<i64>,
    with_columns: bool,
) -> Result<Subgradient, AllocError>
    requires made_for { AreMadeFor node.program.now pools.old }
    ensures made_for { AreMadeFor node.entry.program.now pools.new }
{
    if let Some(steps) = relaxed_steps(alloc, node, pools, turn, known, with_columns)? {
        return Ok(steps);
    }
    let course = course_of(with_columns);
    let pace = pace_at(turn.depth, with_columns);
    let mut steps = make(alloc, node.program, turn, known, course, pace)?;
    take_all(alloc, node, pools, turn, with_columns, &mut steps)?;
    Ok(steps)
}

// Steps from the multipliers of the root's relaxation. There are none below the root, where no columns follow, where there are
// no such multipliers, and where the pricing of a block is cut at them: the node then begins anew.
fn relaxed_steps(
    alloc: Global,
    node: NodeContext,
    pools: &mut Pools,
    turn: &Turn,
    known: Option<i64>,
    with_columns: bool,
) -> Result<Option<Subgradient>, AllocError>
    requires made_for { AreMadeFor node.program.now pools.old }
    ensures made_for { AreMadeFor node.entry.program.now pools.new }
{
    if !with_columns || turn.depth > 0 {
        return Ok(None);
    }
    let mut steps = make(alloc, node.program, turn, known, Course::Newest, RELAXED)?;
    if !begin_relaxed(alloc, node, &mut steps)? {
        return Ok(None);
    }
    take_all(alloc, node, pools, turn, with_columns, &mut steps)?;
    if pools.budget.leaves_out() {
        pools.budget.begin();
        return Ok(None);
    }
    Ok(Some(steps))
}

// Begins with the multipliers of the node's relaxation, where most blocks are alike; whether it has such.
fn begin_relaxed(
    alloc: Global,
    node: NodeContext,
    steps: &mut Subgradient,
) -> Result<bool, AllocError> {
    if !are_alike(node.program, node.classes) {
        return Ok(false);
    }
    let Some(mults) = relaxed_mults(alloc, node)? else {
        return Ok(false);
    };
    steps.best = mults.as_slice().to_vec(alloc)?;
    steps.from = mults.as_slice().to_vec(alloc)?;
    steps.mults = mults;
    steps.is_relaxed = true;
    Ok(true)
}

// Takes steps as long as there is one to take. The last ones give columns, where columns follow.
fn take_all(
    alloc: Global,
    node: NodeContext,
    pools: &mut Pools,
    turn: &Turn,
    with_columns: bool,
    steps: &mut Subgradient,
) -> Result<(), AllocError>
    requires made_for { AreMadeFor node.program.now pools.old }
    ensures made_for { AreMadeFor node.entry.program.now pools.new }
{
    if !begin(alloc, node, pools, turn, steps)? {
        return Ok(());
    }
    let many = steps.pace.steps;
    for number in 0..many {
        if !go_on(alloc, node, pools, steps)? {
            break;
        }
        if with_columns && many - number <= COLUMN_STEPS {
            pools.add_all_priced(alloc, node.program, node.classes)?;
        }
    }
    Ok(())
}

// What directs steps: the mean where no columns follow.
fn course_of(with_columns: bool) -> Course {
    if with_columns {
        Course::Newest
    } else {
        Course::Mean
    }
}

/// Whether most blocks are like others.
pub fn are_alike(b: &Blocked, classes: &Classes) -> bool {
    u64::from(classes.len()) * 2 <= u64::from(b.blocks())
}

// How steps go at a depth.
fn pace_at(depth: u32, with_columns: bool) -> Pace {
    let mut pace = if with_columns { WITH_COLUMNS } else { ALONE };
    if depth == 0 {
        pace.steps = if with_columns {
            ROOT_STEPS
        } else {
            LONE_ROOT_STEPS
        };
    }
    pace
}

// Takes a step and prices it; whether there was one to take, and a bound.
fn go_on(
    alloc: Global,
    node: NodeContext,
    pools: &mut Pools,
    steps: &mut Subgradient,
) -> Result<bool, AllocError>
    requires made_for { AreMadeFor node.program.now pools.old }
    ensures made_for { AreMadeFor node.entry.program.now pools.new }
{
    if reaches(steps) || !step(node.program, steps) {
        return Ok(false);
    }
    let Some(value) = priced(alloc, node, pools, steps)? else {
        return Ok(false);
    };
    write_sums(
        node.program,
        steps.point.as_slice(),
        steps.sums.as_mut_slice(),
    );
    note(alloc, node.program, steps)?;
    mix_point(
        steps.mean.as_mut_slice(),
        steps.point.as_slice(),
        MEAN_SHARE,
    );
    take(node.program, steps, value);
    Ok(true)
}

// The state before the first pricing, with the node's multipliers.
fn make(
    alloc: Global,
    b: &Blocked,
    turn: &Turn,
    known: Option<i64>,
    course: Course,
    pace: Pace,
) -> Result<Subgradient, AllocError> {
    let mut steps = Subgradient {
        best: Vec::new(alloc),
        value: i128::MIN,
        mean: Vec::new(alloc),
        found: None,
        known,
        course,
        pace,
        mults: Vec::new(alloc),
        point: Vec::new(alloc),
        sums: Vec::new(alloc),
        best_sums: Vec::new(alloc),
        from: Vec::new(alloc),
        along: Vec::new(alloc),
        short: 0,
        gain: 0,
        failures: 0,
        is_relaxed: false,
    };
    fill(alloc, b, turn, &mut steps)?;
    Ok(steps)
}

// Gives the state its lists: the node's multipliers, the lower ends of the spans, and sums of 0.
fn fill(
    alloc: Global,
    b: &Blocked,
    turn: &Turn,
    steps: &mut Subgradient,
) -> Result<(), AllocError> {
    let rows = b.named_rows() as usize;
    steps.mults = leaf_mults(alloc, b, turn)?;
    steps.best = steps.mults.as_slice().to_vec(alloc)?;
    steps.from = steps.mults.as_slice().to_vec(alloc)?;
    steps.mean = Vec::from_elem(alloc, 0i128, b.model().vars() as usize)?;
    steps.point = Vec::from_elem(alloc, 0i64, copy_count(b))?;
    write_lows(b, steps.point.as_mut_slice(), turn.zone.spans());
    steps.sums = Vec::from_elem(alloc, 0i128, rows)?;
    steps.best_sums = Vec::from_elem(alloc, 0i128, rows)?;
    steps.along = Vec::from_elem(alloc, 0i128, rows)?;
    Ok(())
}

/// The node's multipliers by row at the greatest scale.
pub fn leaf_mults(alloc: Global, b: &Blocked, turn: &Turn) -> Result<Vec<i64>, AllocError> {
    let mut mults = Vec::from_elem(alloc, 0i64, b.named_rows() as usize)?;
    for mult in turn.proof.mults.as_slice() {
        let full = at_full_scale(&mult.1, turn.proof.scale);
        put(mults.as_mut_slice(), mult.0 as usize, full);
    }
    Ok(mults)
}

// Writes the lower ends of the copies' spans.
fn write_lows(b: &Blocked, point: &mut [i64], spans: &[Span]) {
    for number in 0..b.blocks() {
        let block = b.block(number);
        for place in 0..block.var_count() {
            if let Some(span) = spans.get(block.vars()[place as usize] as usize) {
                put(point, copy_place(b, number, block, place), span.lo);
            }
        }
    }
}

// A multiplier at the greatest scale.
fn at_full_scale(mult: &i64, scale: u32) -> i64 {
    clipped(quotient(product(mult, &i64::from(MAX_SCALE)), i128::from(scale)))
}

// Prices the node's multipliers; whether there is a bound.
fn begin(
    alloc: Global,
    node: NodeContext,
    pools: &mut Pools,
    turn: &Turn,
    steps: &mut Subgradient,
) -> Result<bool, AllocError>
    requires made_for { AreMadeFor node.program.now pools.old }
    ensures made_for { AreMadeFor node.entry.program.now pools.new }
{
    let Some(value) = priced(alloc, node, pools, steps)? else {
        return Ok(false);
    };
    steps.value = value;
    let is_far = turn.depth == 0 && !steps.is_relaxed;
    steps.gain = first_gain(node.program, is_far, steps.pace.aim_part, &value);
    write_sums(
        node.program,
        steps.point.as_slice(),
        steps.sums.as_mut_slice(),
    );
    mix_point(steps.mean.as_mut_slice(), steps.point.as_slice(), PARTS);
    keep(steps.best_sums.as_mut_slice(), steps.sums.as_slice());
    keep(steps.along.as_mut_slice(), steps.sums.as_slice());
    note(alloc, node.program, steps)?;
    Ok(true)
}

// The bound of the multipliers, with a point that reaches it.
fn priced(
    alloc: Global,
    node: NodeContext,
    pools: &mut Pools,
    steps: &mut Subgradient,
) -> Result<Option<i128>, AllocError>
    requires made_for { AreMadeFor node.program.now pools.old }
    ensures made_for { AreMadeFor node.entry.program.now pools.new }
{
    if pools.budget.leaves_out() {
        write_ends(node.program, node.zone.spans(), steps);
    }
    let mults = steps.mults.as_slice();
    let point = steps.point.as_mut_slice();
    pools.price(alloc, node, mults, point)
}

// Writes the cheaper ends of the copies' spans at the multipliers: the upper ones where reduced costs are negative.
fn write_ends(b: &Blocked, spans: &[Span], steps: &mut Subgradient) {
    let point = steps.point.as_mut_slice();
    for number in 0..b.blocks() {
        let block = b.block(number);
        for place in 0..block.var_count() {
            if let Some(span) = spans.get(block.vars()[place as usize] as usize) {
                let is_paid = reduced_cost(block, place, steps.mults.as_slice()) < 0;
                let end = if is_paid { span.hi } else { span.lo };
                put(point, copy_place(b, number, block, place), end);
            }
        }
    }
}

// How far above the first bound the first aim is: far where the multipliers are those of a root without a relaxation.
fn first_gain(b: &Blocked, is_far: bool, aim_part: i128, value: &i128) -> i128 {
    let mut most: i128 = 1;
    for term in b.model().costs() {
        most = most.max(i128::from(term.coef.unsigned_abs()));
    }
    let most = most.saturating_mul(UNIT);
    if is_far {
        let part = quotient(*value, 4);
        most.max(part).max(part.saturating_neg())
    } else {
        quotient(most, aim_part).max(1)
    }
}

/// Whether the bound reaches the incumbent's cost.
pub fn reaches(steps: &Subgradient) -> bool {
    is_reached(steps.value, steps.known)
}

// Takes a step towards the aim; whether there was one to take. Where nothing is left open along it, it begins again at
// the point of the best bound.
fn step(b: &Blocked, steps: &mut Subgradient) -> bool {
    let mut norm = norm_of(b, steps);
    if norm < LEAST_NORM {
        steps.gain = quotient(steps.gain, 2);
        steps.failures = 0;
        turn_back(steps);
        norm = norm_of(b, steps);
    }
    if norm < LEAST_NORM || steps.gain < steps.pace.least_gain {
        return false;
    }
    let want = steps.gain.saturating_add(steps.short);
    for row in 0..b.named_rows() {
        if let Some(named) = b.master_row(row) {
            let from = at(steps.from.as_slice(), row as usize);
            let open = slope(&named, &from, &sum_at(steps.along.as_slice(), row as usize));
            let far = want.saturating_mul(open).saturating_mul(UNIT);
            let moved = clipped(quotient(far, norm).saturating_add(i128::from(from)));
            put(
                steps.mults.as_mut_slice(),
                row as usize,
                signed(&named, moved),
            );
        }
    }
    true
}

// Lets the next step go from the best multipliers along what their point leaves open.
fn turn_back(steps: &mut Subgradient) {
    steps.short = 0;
    keep(steps.along.as_mut_slice(), steps.best_sums.as_slice());
    keep_mults(steps.from.as_mut_slice(), steps.best.as_slice());
}

// Sums written over others.
fn keep(kept: &mut [i128], sums: &[i128]) {
    let many = kept.len().min(sums.len());
    for i in 0..many {
        kept[i] = sums[i];
    }
}

// The square of what is left open along the next step.
fn norm_of(b: &Blocked, steps: &Subgradient) -> i128 {
    let mut norm: i128 = 0;
    for row in 0..b.named_rows() {
        if let Some(named) = b.master_row(row) {
            let from = at(steps.from.as_slice(), row as usize);
            let open = slope(&named, &from, &sum_at(steps.along.as_slice(), row as usize));
            norm = norm.saturating_add(open.saturating_mul(open));
        }
    }
    norm
}

// Takes a bound: a greater one is kept with its multipliers, and after others the aim is lowered.
fn take(b: &Blocked, steps: &mut Subgradient, value: i128) {
    let more = value.saturating_sub(steps.value);
    if more > 0 {
        steps.value = value;
        keep(steps.best_sums.as_mut_slice(), steps.sums.as_slice());
        keep_mults(steps.best.as_mut_slice(), steps.mults.as_slice());
    }
    let is_lower = lower_aim(steps, more);
    match steps.course {
        Course::Mean => {
            let share = best_share(b, steps);
            keep_mults(steps.from.as_mut_slice(), steps.best.as_slice());
            mix_sums(steps.along.as_mut_slice(), steps.sums.as_slice(), share);
        }
        Course::Newest if is_lower => turn_back(steps),
        Course::Newest => {
            steps.short = steps.value.saturating_sub(value);
            keep(steps.along.as_mut_slice(), steps.sums.as_slice());
            keep_mults(steps.from.as_mut_slice(), steps.mults.as_slice());
        }
    }
}

// Raises the aim after a great gain, and lowers it after some steps without one; whether it was lowered.
fn lower_aim(steps: &mut Subgradient, more: i128) -> bool {
    let least = match steps.course {
        Course::Newest => quotient(steps.gain, GAIN_PART),
        Course::Mean => 0,
    };
    if more >= quotient(steps.gain, 2) {
        steps.gain = steps.gain.saturating_mul(2);
    }
    if more > least {
        steps.failures = 0;
        return false;
    }
    steps.failures = steps.failures.saturating_add(1);
    if steps.failures < steps.pace.patience {
        return false;
    }
    steps.gain = quotient(steps.gain, 2);
    steps.failures = 0;
    true
}

// Multipliers written over others.
fn keep_mults(kept: &mut [i64], mults: &[i64]) {
    let many = kept.len().min(mults.len());
    for i in 0..many {
        kept[i] = mults[i];
    }
}

// Keeps the point, if it is feasible and cheaper than what is known.
fn note(alloc: Global, b: &Blocked, steps: &mut Subgradient) -> Result<(), AllocError> {
    if !all_meet(b, steps.sums.as_slice()) {
        return Ok(());
    }
    if let Some(cost) = feasible_cost(b, steps.point.as_slice()) {
        if is_below(cost, steps.known) {
            steps.known = Some(cost);
            steps.found = Some(steps.point.as_slice().to_vec(alloc)?);
        }
    }
    Ok(())
}

// Whether each row that proofs may name is met.
fn all_meet(b: &Blocked, sums: &[i128]) -> bool {
    for row in 0..b.named_rows() {
        if let Some(named) = b.master_row(row) {
            if !meets(&named, &sum_at(sums, row as usize)) {
                return false;
            }
        }
    }
    true
}

// Takes a share of a point into a mean.
fn mix_point(mean: &mut [i128], point: &[i64], share: i128) {
    let many = mean.len().min(point.len());
    for i in 0..many {
        let unit = i128::from(point[i]).saturating_mul(UNIT);
        mean[i] = mixed(&mean[i], &unit, &share);
    }
}

// Takes a share of sums into others.
fn mix_sums(mean: &mut [i128], sums: &[i128], share: i128) {
    let many = mean.len().min(sums.len());
    for i in 0..many {
        mean[i] = mixed(&mean[i], &sums[i], &share);
    }
}

// A number moved towards another by a share.
fn mixed(number: &i128, other: &i128, share: &i128) -> i128 {
    let far = other.saturating_sub(*number).saturating_mul(*share);
    number.saturating_add(quotient(far, PARTS))
}

// The share of the newest point in the mean that leaves least open.
fn best_share(b: &Blocked, steps: &Subgradient) -> i128 {
    let mut along: i128 = 0;
    let mut norm: i128 = 0;
    for row in 0..b.named_rows() {
        if let Some(named) = b.master_row(row) {
            let best = at(steps.best.as_slice(), row as usize);
            let mean = sum_at(steps.along.as_slice(), row as usize);
            let far = sum_at(steps.sums.as_slice(), row as usize).saturating_sub(mean);
            along = along.saturating_add(slope(&named, &best, &mean).saturating_mul(far));
            norm = norm.saturating_add(far.saturating_mul(far));
        }
    }
    quotient(along.saturating_mul(PARTS), norm)
        .max(LEAST_SHARE)
        .min(MOST_SHARE)
}
