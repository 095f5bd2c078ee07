// The root of a program whose blocks have rows, by column generation: the values of the variables that its columns come to, and
// the relaxation of the master rows and cuts over these columns, whose tableau has the multipliers of columns that are taken in
// part.
ghost use Rattle.std.specs.Prelude.{◌<◌, length};
ghost use Rattle.branch_tree.specs.Turns.{IsTurn};
ghost use Rattle.node_memory.specs.Pools.{AreMadeFor};

use crate::bind::Front;
use crate::numbers::low_at;
use crate::relaxation::Relaxation;
use basis_factor::{Entry, Vectors, at, put};
use block_class::Classes;
use block_program::Blocked;
use bp_theory::Span;
use branch_tree::{Grove, Turn};
use col_pool::Column;
use column_generation::{Centre, Effort, generate_columns, round_up, take_steps};
use compact_relaxation::relaxation_of;
use dual_simplex::{End, Lp, Range};
use node_memory::{NodeContext, Pools};
use primal_heuristics::{is_first_copy, whole};
use restricted_master::RestrictedMaster;
use std::alloc::{AllocError, Global};
use std::num::{nearest_i64_to_f64, saturating_f64_to_i64};

// How many times generation is made at most, where its bound isn't that of its columns before.
const GENERATIONS: u32 = 4;

// By how many units a bound may be below the columns' cost and count as equal.
const NEAR: i128 = 64;

// How many units one has.
const UNITS: f64 = 1048576.0;

// No number but 0.
const NOTHING: Range = Range {
    lower: 0.0,
    upper: 0.0,
};

/// The root of a program, by column generation.
#[derive(Drop)]
pub struct Root {
    /// Multipliers with a great dual bound, by row that proofs may name, at the greatest scale, 1,048,576.
    pub mults: Vec<i64>,
    /// This bound, in units of which as many make one.
    pub bound: i128,
    /// What the columns come to, where they meet the rows.
    pub point: Option<Point>,
}

/// What columns come to.
#[derive(Drop)]
pub struct Point {
    /// The values of the variables, those of first copies.
    pub values: Vec<f64>,
    /// The relaxation over the columns: a row for each row of the model, each cut, each link and each class of
    /// blocks, in this order.
    pub relaxation: Relaxation,
}

// A column of the restricted master.
#[derive(Clone, Copy)]
struct Member<'a> {
    // Its class of blocks at the root.
    class: u32,
    // The column.
    column: &'a Column,
}

// The columns of a program at the root.
#[derive(Clone, Copy)]
struct Columns<'a> {
    // The program.
    b: &'a Blocked,
    // Its classes of blocks at the root.
    classes: &'a Classes,
    // The pools of the columns.
    pools: &'a Pools,
    // The restricted master.
    master: &'a RestrictedMaster,
}

/// The root of a program from multipliers by row at the greatest scale, or from none. There is none where a program
/// has no open node.
pub fn root_of(alloc: Global, b: &Blocked, mults: Vec<i64>) -> Result<Option<Root>, AllocError> {
    let grove = Grove::plant(alloc, b)?;
    let Some(turn) = grove.take(alloc)? else {
        return Ok(None);
    };
    root_at(alloc, b, &turn, mults)
}

// The root of a program, whose zone is that of a node.
fn root_at(
    alloc: Global,
    b: &Blocked,
    turn: &Turn,
    mults: Vec<i64>,
) -> Result<Option<Root>, AllocError>
    requires { IsTurn b.now turn.now }
{
    let classes = Classes::of(alloc, b, &turn.zone)?;
    let mut pools = Pools::make(alloc, b)?;
    let node = NodeContext {
        program: b,
        classes: &classes,
        zone: &turn.zone,
    };
    let mut centre = first_centre(alloc, node, &mut pools, turn, mults)?;
    let point = generated(alloc, node, &mut pools, &mut centre)?;
    let Centre { mults, value } = centre;
    Ok(Some(Root {
        mults,
        bound: value,
        point,
    }))
}

// Generates columns from a centre, which becomes that of the best bound. Where generation ends before this bound
// reaches the cost of its columns, since what it may take is spent, the columns may miss rows, or the bound may be
// far from what the rows come to: it is made again then, with the columns that there are, from the centre. What the
// columns come to in the end, where they meet the rows.
fn generated(
    alloc: Global,
    node: NodeContext,
    pools: &mut Pools,
    centre: &mut Centre,
) -> Result<Option<Point>, AllocError>
    requires made_for { AreMadeFor node.program.now pools.old }
{
    let effort = Effort {
        known: None,
        with_partitions: true,
    };
    for generation in 1..GENERATIONS + 1 {
        let _ = pools.begin(alloc, node.program)?;
        let Some(master) = generate_columns(alloc, node, pools, centre, effort)? else {
            return Ok(None);
        };
        if generation == GENERATIONS || is_reached(&master, centre) {
            return solved(alloc, node, pools, &master);
        }
    }
    Ok(None)
}

// Whether a restricted master meets its rows, and a centre's bound reaches its cost, both rounded up.
fn is_reached(master: &RestrictedMaster, centre: &Centre) -> bool {
    let cost = i128::from(saturating_f64_to_i64(master.cost() * UNITS));
    !master.is_short() && round_up(centre.value) >= round_up(cost.saturating_sub(NEAR))
}

// The centre that column generation begins from: at multipliers, or where there are none at those of subgradient steps.
fn first_centre(
    alloc: Global,
    node: NodeContext,
    pools: &mut Pools,
    turn: &Turn,
    mults: Vec<i64>,
) -> Result<Centre, AllocError>
    requires made_for { AreMadeFor node.program.now pools.old }
    ensures made_for { AreMadeFor node.entry.program.now pools.new }
{
    if !mults.is_empty() {
        return Ok(Centre {
            mults,
            value: i128::MIN,
        });
    }
    let steps = take_steps(alloc, node, pools, turn, None, true)?;
    Ok(Centre {
        mults: steps.best,
        value: steps.value,
    })
}

// What the columns of a restricted master come to, where they meet the rows.
fn solved(
    alloc: Global,
    node: NodeContext,
    pools: &Pools,
    master: &RestrictedMaster,
) -> Result<Option<Point>, AllocError> {
    let columns = Columns {
        b: node.program,
        classes: node.classes,
        pools,
        master,
    };
    let mut relaxation = Relaxation::over(columns.relaxed(alloc)?);
    if relaxation.solve()? != End::Optimum {
        return Ok(None);
    }
    let values = columns.values_at(alloc, &relaxation)?;
    Ok(Some(Point { values, relaxation }))
}

// The columns of a relaxation.
#[derive(Drop)]
struct Lists {
    // By column, what it takes from the rows, and that it is one of its class.
    vectors: Vectors,
    // By column, from none of it to as many as its class has blocks.
    spans: Vec<Range>,
    // By column, its cost, in ones.
    costs: Vec<f64>,
}

impl<'a> Columns<'a> {
    // A column of the restricted master by its number, where it is there.
    fn member(&self, number: usize) -> Option<Member<'a>> {
        match self.master.column(number) {
            Some(found) => match self.pools.column(found.place) {
                Some(column) => Some(Member {
                    class: found.class,
                    column,
                }),
                None => None,
            },
            None => None,
        }
    }

    // The relaxation over the columns.
    fn relaxed(&self, alloc: Global) -> Result<Lp, AllocError> {
        let mut lists = Lists {
            vectors: Vectors::make(alloc),
            spans: Vec::new(alloc),
            costs: Vec::new(alloc),
        };
        for number in 0..self.master.len() {
            if let Some(member) = self.member(number) {
                self.list(&member, &mut lists)?;
            }
        }
        let ranges = self.ranges(alloc)?;
        let Lists {
            vectors,
            spans,
            costs,
        } = lists;
        Lp::make(
            alloc,
            vectors,
            ranges.as_slice(),
            spans.as_slice(),
            costs.as_slice(),
        )
    }

    // Lists a column: what it takes from the rows, and that it is one of its class; from none of it to as many as its class has
    // blocks; and its cost.
    fn list(&self, member: &Member<'a>, lists: &mut Lists) -> Result<(), AllocError> {
        let front = Front::of(self.b);
        for act in member.column.acts.as_slice() {
            lists.vectors.add(Entry {
                place: front.relaxed_place(act.0),
                value: nearest_i64_to_f64(act.1),
            })?;
        }
        lists.vectors.add(Entry {
            place: self.b.named_rows().saturating_add(member.class),
            value: 1.0,
        })?;
        lists.spans.push(Range {
            lower: 0.0,
            upper: self.many(member.class),
        })?;
        lists.costs.push(nearest_i64_to_f64(member.column.cost))?;
        lists.vectors.close()
    }

    // The ranges of rows less what blocks of one point take, and how many blocks each class has.
    fn ranges(&self, alloc: Global) -> Result<Vec<Range>, AllocError> {
        let own = relaxation_of(alloc, self.b)?;
        let many = own.rows().saturating_add(self.classes.len() as usize);
        let mut ranges = Vec::from_elem(alloc, NOTHING, many)?;
        self.write_ranges(&own, ranges.as_mut_slice());
        Ok(ranges)
    }

    // Writes the ranges of rows, which are those of a relaxation less what blocks of one point take, and those of classes.
    fn write_ranges(&self, own: &Lp, ranges: &mut [Range]) {
        let front = Front::of(self.b);
        for row in 0..self.b.named_rows() {
            let range = own.range(row as usize);
            let taken = self.taken(row);
            let place = front.relaxed_place(row) as usize;
            if place < ranges.len() {
                ranges[place] = Range {
                    lower: range.lower - taken,
                    upper: range.upper - taken,
                };
            }
        }
        for class in 0..self.classes.len() {
            let many = self.many(class);
            let place = own.rows().saturating_add(class as usize);
            if place < ranges.len() {
                ranges[place] = Range {
                    lower: many,
                    upper: many,
                };
            }
        }
    }

    // How many blocks a class has that have more points than one.
    fn many(&self, class: u32) -> f64 {
        nearest_i64_to_f64(i64::from(self.master.size(class)))
    }

    // What the blocks of one point take from a row.
    fn taken(&self, row: u32) -> f64 {
        let sums = self.master.settled_sums();
        let place = row as usize;
        if place < sums.len() {
            nearest_i64_to_f64(whole(sums[place]))
        } else {
            0.0
        }
    }

    // The values of the variables' first copies where a relaxation gives columns weights, those of a class dealt out
    // evenly to its blocks.
    fn values_at(&self, alloc: Global, relaxation: &Relaxation) -> Result<Vec<f64>, AllocError> {
        let spans = self.b.model().spans();
        let mut values: Vec<f64> = spans.iter().map(low_of).collect(alloc)?;
        let mut var: usize = 0;
        for number in 0..self.master.len() {
            if let Some(member) = self.member(number) {
                self.deal_out(&member, relaxation.value(var), values.as_mut_slice());
                var = var.saturating_add(1);
            }
        }
        Ok(values)
    }

    // Adds what a column with a weight has above the lower ends of spans to the values, in equal parts by the blocks
    // of its class.
    fn deal_out(&self, member: &Member<'a>, weight: f64, values: &mut [f64]) {
        if member.class >= self.classes.len() || weight <= 0.0 {
            return;
        }
        let many = nearest_i64_to_f64(i64::from(self.classes.size(member.class).max(1)));
        for block in self.classes.members(member.class) {
            if *block < self.b.blocks() {
                let point = member.column.point.as_slice();
                deal(self.b, *block, point, weight / many, values);
            }
        }
    }
}

// The lower end of a span.
fn low_of(span: &Span) -> f64 {
    nearest_i64_to_f64(span.lo)
}

// Adds a part of what a block's point has above the lower ends of spans to values of first copies.
fn deal(b: &Blocked, number: u32, point: &[i64], part: f64, values: &mut [f64])
    requires { number < length b.now.blocking.blocks }
{
    let spans = b.model().spans();
    for (k, var) in b.block(number).vars().iter().enumerate() {
        if k < point.len() && is_first_copy(b, number, *var) {
            let place = *var as usize;
            let above = point[k].saturating_sub(low_at(spans, *var));
            put(
                values,
                place,
                at(values, place) + part * nearest_i64_to_f64(above),
            );
        }
    }
}
