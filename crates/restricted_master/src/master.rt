// The restricted master of a zone: the master rows, link rows and cuts less what the blocks of one point take, the
// classes of the other blocks, and columns of these. What a row misses costs a penalty, which keeps its multiplier in
// a range.
use crate::lines::{Lines, at_scale, place_of};
use crate::program::{ColumnProgram, Mark};
use basis_factor::Entry;
use block_program::{Block, Blocked, Zone};
use bp_theory::Span;
use col_pool::Column;
use hash_index::NumberSet;
use node_memory::{NodeContext, Place, Pools, is_settled as is_settled_block};
use primal_heuristics::{product, reduced_cost};
use std::alloc::{AllocError, Global};
use std::num::{nearest_i64_to_f64, saturating_f64_to_i64};

/// How many columns of a pool a class of one block begins with, and how many times as many one of several blocks, or
/// twice as many as there are lines where that is more.
const FIRST_COLUMNS: usize = 50;

const ALIKE_TIMES: usize = 4;

/// How many pivots one solution may take.
const MOST_PIVOTS: u32 = 5_000;

/// How many pivots times lines the solutions of a node may take at least: a master of many lines needs about half as many
/// pivots as the square of its lines, and may take more.
const LEAST_WORK: u64 = 1 << 22;

// What stands for no line and no class.
pub const NONE: u32 = u32::MAX;

// How many times the greatest penalty of a row it costs that a class lacks a block or has one too many.
const CLASS_TIMES: f64 = 64.0;

// How much of what is missed counts as nothing.
const MISSED: f64 = 1e-5;

// How much a column's reduced cost is below zero at least where it is new.
const NEW: f64 = -1e-6;

/// A column with a weight in the solution of a restricted master.
#[derive(Clone, Copy)]
pub struct Weighted {
    /// Its class of blocks in the zone.
    pub class: u32,
    /// Where it is in the pools.
    pub place: Place,
    /// How many blocks of its class take it, in units of which 1,048,576 make one; above 0.
    pub weight: i64,
}

/// A column of a restricted master.
#[derive(Clone, Copy)]
pub struct MasterColumn {
    /// Its class of blocks in the zone.
    pub class: u32,
    /// Where it is in the pools.
    pub place: Place,
    /// Its cost, in ones.
    pub cost: i64,
}

/// The restricted master of a zone.
pub struct RestrictedMaster {
    /// The linear program: a line for each of `lines`, and behind them one for each class that isn't settled.
    program: ColumnProgram,
    /// The lines of the rows that proofs may name.
    lines: Lines,
    /// By class of the zone, its number among those that aren't settled; `NONE` where its blocks have one point.
    numbers: Vec<u32>,
    /// By number of a class that isn't settled, how many blocks it has.
    sizes: Vec<u32>,
    /// The columns, as the program numbers them.
    columns: Vec<MasterColumn>,
    /// Which columns there are: the class's number times 2^32 and the column's number in its pool.
    known: NumberSet,
    /// By row that proofs may name, what the blocks of one point take from it.
    sums: Vec<i128>,
    /// The constant and the cost of the blocks of one point, in ones.
    settled: i128,
    /// What it costs to miss a row by one, in ones: multipliers stay within it.
    penalty: f64,
    /// How many pivots times lines the solutions took.
    spent: u64,
}

impl Drop for RestrictedMaster {
    fn drop(self) {
        let RestrictedMaster {
            program: _,
            lines: _,
            numbers: _,
            sizes: _,
            columns: _,
            known: _,
            sums: _,
            settled: _,
            penalty: _,
            spent: _,
        } = self;
    }
}

/// Whether columns serve a program: a block has rows of its own, and there are master rows, links or cuts for proofs to name.
pub fn has_master_and_block_rows(b: &Blocked) -> bool {
    let mut has_master = false;
    for row in 0..b.named_rows() {
        if b.master_row(row).is_some() {
            has_master = true;
            break;
        }
    }
    has_master && has_rows(b)
}

// Whether a block has rows of its own.
fn has_rows(b: &Blocked) -> bool {
    for block in 0..b.blocks() {
        if !b.block(block).rows().is_empty() {
            return true;
        }
    }
    false
}

// The blocks of one point in a zone, and the classes of the others.
#[derive(Drop)]
struct Settled {
    // By row that proofs may name, what the blocks of one point take from it.
    sums: Vec<i128>,
    // The constant and the cost of these blocks, in ones.
    cost: i128,
    // By class, its number among those that aren't settled; `NONE` where it is.
    numbers: Vec<u32>,
    // By number of a class that isn't settled, how many blocks it has.
    sizes: Vec<u32>,
}

// The program without columns: a line for each row, behind them one for each class, which takes as many columns as it has
// blocks.
fn without_columns(
    alloc: Global,
    b: &Blocked,
    lines: &Lines,
    settled: &Settled,
) -> Result<ColumnProgram, AllocError> {
    let mut sides = lines.sides(alloc, b, settled.sums.as_slice())?;
    for size in settled.sizes.as_slice() {
        sides.push(nearest_i64_to_f64(i64::from(*size)))?;
    }
    ColumnProgram::make(alloc, sides.as_slice())
}

impl RestrictedMaster {
    /// The restricted master of a node's zone without columns, where missing a row by one costs a penalty, in ones. There
    /// is none without rows or classes that aren't settled.
    pub fn make(
        alloc: Global,
        node: NodeContext,
        penalty: f64,
    ) -> Result<Option<RestrictedMaster>, AllocError> {
        let settled = settle_blocks(alloc, node)?;
        let lines = Lines::of(alloc, node.program)?;
        if lines.is_empty() || settled.sizes.is_empty() {
            return Ok(None);
        }
        let known = NumberSet::new(alloc)?;
        let mut master = RestrictedMaster {
            program: without_columns(alloc, node.program, &lines, &settled)?,
            lines,
            numbers: settled.numbers,
            sizes: settled.sizes,
            columns: Vec::new(alloc),
            known,
            sums: settled.sums,
            settled: settled.cost,
            penalty,
            spent: 0,
        };
        master.release();
        Ok(Some(master))
    }

    /// Adds the pools' columns inside the zone, of each class those of least reduced cost at multipliers by row at the
    /// greatest scale, and begins with the first of each.
    pub fn begin(
        &mut self,
        alloc: Global,
        node: NodeContext,
        pools: &Pools,
        mults: &[i64],
    ) -> Result<(), AllocError> {
        for class in 0..node.classes.len() {
            if self.number(class) != NONE {
                let first = node.classes.first(class);
                self.begin_class(alloc, node, pools, mults, class, first)?;
            }
        }
        self.program.refactor()
    }

    // Adds the columns of least reduced cost of a class with this first block.
    fn begin_class(
        &mut self,
        alloc: Global,
        node: NodeContext,
        pools: &Pools,
        mults: &[i64],
        class: u32,
        first: u32,
    ) -> Result<(), AllocError> {
        let Some(home) = pools.home(first) else {
            return Ok(());
        };
        let many = if self.size(class) > 1 {
            (FIRST_COLUMNS * ALIKE_TIMES).max(self.program.rows().saturating_mul(2))
        } else {
            FIRST_COLUMNS
        };
        let ranked = ranked(alloc, node.program, node.zone, pools, mults, home, first)?;
        let before = self.columns.len();
        for rank in ranked.iter().take(many) {
            let place = Place { home, id: rank.1 };
            if let Some(column) = pools.column(place) {
                let _ = self.add(alloc, column, class, place)?;
            }
        }
        if before < self.columns.len() {
            let line = self.class_line(class);
            self.program.begin_with(line, place_of(before));
        }
        Ok(())
    }

    /// Adds a column of a class of the zone; whether it is new.
    pub fn add(
        &mut self,
        alloc: Global,
        column: &Column,
        class: u32,
        place: Place,
    ) -> Result<bool, AllocError> {
        let number = self.number(class);
        if number == NONE {
            return Ok(false);
        }
        let key = u64::from(number) * 4_294_967_296 + u64::from(place.id);
        if !self.known.insert(alloc, key)? {
            return Ok(false);
        }
        let mut entries = self.lines.entries(alloc, column.acts.as_slice())?;
        entries.push(Entry {
            place: place_of(self.class_line(class)),
            value: 1.0,
        })?;
        let cost = column.cost;
        let _ = self
            .program
            .add(nearest_i64_to_f64(cost), entries.as_slice())?;
        self.columns.push(MasterColumn { class, place, cost })?;
        Ok(true)
    }

    /// Adds a column of a class of the zone, if its reduced cost at the multipliers at hand is below zero; whether it is new.
    pub fn add_if_better(
        &mut self,
        alloc: Global,
        column: &Column,
        class: u32,
        place: Place,
    ) -> Result<bool, AllocError> {
        let line = self.class_line(class);
        let mut cost = nearest_i64_to_f64(column.cost) - self.program.mult(line);
        for act in column.acts.as_slice() {
            cost -= nearest_i64_to_f64(act.1) * self.lines.mult(&self.program, act.0);
        }
        if cost < NEW {
            self.add(alloc, column, class, place)
        } else {
            Ok(false)
        }
    }

    /// Lets multipliers go as far as the penalties.
    pub fn release(&mut self) {
        self.lines.set_penalties(&mut self.program, self.penalty);
        self.set_class_penalties();
    }

    /// Keeps multipliers near others, by row at the greatest scale, from now on: within a width, in ones.
    pub fn stay_near(&mut self, mults: &[i64], width: f64) {
        self.lines
            .stay_near(&mut self.program, mults, width, self.penalty);
        self.set_class_penalties();
    }

    /// Raises the penalties by a factor, and lets multipliers go as far.
    pub fn raise(&mut self, times: f64) {
        self.penalty *= times;
        self.release();
    }

    /// What it costs to miss a row by one.
    pub fn penalty(&self) -> f64 {
        self.penalty
    }

    // Sets what it costs that a class lacks a block or has one too many.
    fn set_class_penalties(&mut self) {
        let penalty = self.penalty * CLASS_TIMES;
        for number in 0..self.sizes.len() {
            let line = self.lines.len().saturating_add(number);
            self.program.set_penalties(line, penalty, penalty);
        }
    }

    /// Solves by at most so many pivots, within what a node's solutions may take.
    pub fn solve(&mut self, alloc: Global, most: u32) -> Result<(), AllocError> {
        let most = self.pivots_left(most);
        let before = self.program.pivots();
        let _ = self.program.solve(alloc, most)?;
        self.spend(before);
        Ok(())
    }

    /// Solves after columns were taken or switched off.
    pub fn settle(&mut self, alloc: Global, most: u32) -> Result<(), AllocError> {
        let left = self.pivots_left(most);
        let before = self.program.pivots();
        let _ = self.program.mend(left)?;
        self.spend(before);
        self.solve(alloc, most)
    }

    // How many pivots may be made.
    fn pivots_left(&self, most: u32) -> u32 {
        let lines = (self.program.rows() as u64).max(1);
        let needed = lines.saturating_mul(lines).saturating_mul(lines) / 2;
        let left = LEAST_WORK.max(needed).saturating_sub(self.spent) / lines;
        match u32::try_from(left) {
            Ok(left) => left.min(most).min(MOST_PIVOTS),
            Err(_) => most.min(MOST_PIVOTS),
        }
    }

    // Counts the pivots since a number.
    fn spend(&mut self, before: u64) {
        let pivots = self.program.pivots().saturating_sub(before);
        let work = pivots.saturating_mul(self.program.rows() as u64);
        self.spent = self.spent.saturating_add(work);
    }

    /// Whether no pivot may be made.
    pub fn is_spent(&self) -> bool {
        self.pivots_left(1) == 0
    }

    /// Writes the multipliers by row at the greatest scale.
    pub fn write_mults(&self, b: &Blocked, mults: &mut [i64]) {
        self.lines.write_mults(b, &self.program, mults);
    }

    /// Whether the weights miss rows or counts of blocks by more than rounding may.
    pub fn is_short(&self) -> bool {
        let mut missed = self.lines.missed(&self.program);
        for number in 0..self.sizes.len() {
            let line = self.lines.len().saturating_add(number);
            missed += self.program.gap(line).abs();
        }
        missed > MISSED
    }

    /// The cost of the columns by their weights with the constant and that of the blocks of one point, in ones.
    pub fn cost(&self) -> f64 {
        let mut cost = nearest_i64_to_f64(primal_heuristics::whole(self.settled));
        for number in 0..self.columns.len() {
            let weight = self.program.weight(place_of(number));
            if weight > 0.0 {
                cost += weight * nearest_i64_to_f64(self.columns[number].cost);
            }
        }
        cost
    }

    /// How many columns there are.
    pub fn len(&self) -> usize {
        self.columns.len()
    }

    /// A column, where there is one.
    pub fn column(&self, number: usize) -> Option<MasterColumn> {
        match self.columns.get(number) {
            Some(column) => Some(*column),
            None => None,
        }
    }

    /// The weight of a column that isn't switched off.
    pub fn weight(&self, number: usize) -> f64 {
        if self.program.is_off(place_of(number)) {
            0.0
        } else {
            self.program.weight(place_of(number))
        }
    }

    /// The columns that have a weight.
    pub fn used(&self, alloc: Global) -> Result<Vec<Weighted>, AllocError> {
        let mut used = Vec::new(alloc);
        for number in 0..self.columns.len() {
            let weight = saturating_f64_to_i64(at_scale(self.program.weight(place_of(number))));
            if weight > 0 {
                let column = self.columns[number];
                used.push(Weighted {
                    class: column.class,
                    place: column.place,
                    weight,
                })?;
            }
        }
        Ok(used)
    }

    /// What stands, to go back to.
    pub fn mark(&self, alloc: Global) -> Result<Mark, AllocError> {
        self.program.mark(alloc)
    }

    /// Goes back to what stood; columns stay.
    pub fn go_back(&mut self, alloc: Global, mark: &Mark) -> Result<(), AllocError> {
        self.program.go_back(alloc, mark)
    }

    /// Takes a column of a class out of the sides of rows and class.
    pub fn take(&mut self, column: &Column, class: u32) {
        self.lines.take(&mut self.program, column.acts.as_slice());
        let line = self.class_line(class);
        if self.number(class) != NONE {
            self.program.add_to_side(line, -1.0);
        }
    }

    /// Lets a column have no weight until `go_back`.
    pub fn switch_off(&mut self, number: usize) {
        self.program.switch_off(place_of(number));
    }

    /// Whether a column may have no weight.
    pub fn is_off(&self, number: usize) -> bool {
        self.program.is_off(place_of(number))
    }

    // The restricted master's number of a class of the zone.
    fn number(&self, class: u32) -> u32 {
        match self.numbers.get(class as usize) {
            None => NONE,
            Some(number) => *number,
        }
    }

    /// How many blocks a class has that isn't settled, 0 for others.
    pub fn size(&self, class: u32) -> u32 {
        match self.sizes.get(self.number(class) as usize) {
            None => 0,
            Some(size) => *size,
        }
    }

    /// What the blocks of one point take from the rows.
    pub fn settled_sums(&self) -> &[i128] {
        self.sums.as_slice()
    }

    // The line of a class.
    fn class_line(&self, class: u32) -> usize {
        self.lines.len().saturating_add(self.number(class) as usize)
    }
}

// What the blocks of one point take, and the classes of the others.
fn settle_blocks(alloc: Global, node: NodeContext) -> Result<Settled, AllocError> {
    let mut settled = Settled {
        sums: Vec::from_elem(alloc, 0i128, node.program.named_rows() as usize)?,
        cost: i128::from(node.program.model().constant()),
        numbers: Vec::new(alloc),
        sizes: Vec::new(alloc),
    };
    let mut many: u32 = 0;
    for class in 0..node.classes.len() {
        let first = node.classes.first(class);
        let size = node.classes.size(class);
        if is_settled(node.program, first, node.zone.spans()) {
            settle(node.program, first, size, node.zone.spans(), &mut settled);
            settled.numbers.push(NONE)?;
        } else {
            settled.numbers.push(many)?;
            settled.sizes.push(size)?;
            many = many.saturating_add(1);
        }
    }
    Ok(settled)
}

// Whether a block has one point in a zone, or isn't there.
fn is_settled(b: &Blocked, number: u32, spans: &[Span]) -> bool {
    if number >= b.blocks() {
        return true;
    }
    is_settled_block(b.block(number), spans)
}

// Takes so many blocks like one, of one point, from the rows.
fn settle(b: &Blocked, number: u32, size: u32, spans: &[Span], settled: &mut Settled) {
    if number >= b.blocks() {
        return;
    }
    let block = b.block(number);
    for place in 0..block.var_count() {
        let var = block.vars()[place as usize];
        if let Some(span) = spans.get(var as usize) {
            let times = product(&span.lo, &i64::from(size));
            let cost = i128::from(block.costs()[place as usize]);
            settled.cost = settled.cost.saturating_add(cost.saturating_mul(times));
            for entry in block.master(place) {
                let row = entry.0 as usize;
                if row < settled.sums.len() {
                    let more = i128::from(entry.1).saturating_mul(times);
                    settled.sums[row] = settled.sums[row].saturating_add(more);
                }
            }
        }
    }
}

// A pool's columns inside a block's zone with their reduced costs, the least first.
fn ranked(
    alloc: Global,
    b: &Blocked,
    zone: &Zone,
    pools: &Pools,
    mults: &[i64],
    home: u32,
    block: u32,
) -> Result<Vec<(i128, u32)>, AllocError> {
    let mut ranked = Vec::new(alloc);
    let Some(pool) = pools.pool(home) else {
        return Ok(ranked);
    };
    if block >= b.blocks() {
        return Ok(ranked);
    }
    let spans = block_spans(alloc, b.block(block), zone.spans())?;
    for id in pool.within(spans.as_slice()) {
        if let Some(column) = pools.column(Place { home, id }) {
            ranked.push((reduced_cost(column.cost, column.acts.as_slice(), mults), id))?;
        }
    }
    ranked.sort()?;
    Ok(ranked)
}

/// A block's spans of those of all variables.
pub fn block_spans(alloc: Global, block: &Block, all: &[Span]) -> Result<Vec<Span>, AllocError> {
    let mut spans = Vec::new(alloc);
    for var in block.vars() {
        if let Some(span) = all.get(*var as usize) {
            spans.push(*span)?;
        }
    }
    Ok(spans)
}
