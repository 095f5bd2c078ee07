// The simplex that proposes weights and multipliers: revised, primal, with an explicit inverse in fixed point. (Dantzig,
// Linear programming and extensions, 1963.)
// Each logical of a line may stand for what the line lacks or has too much; where its sense has no such side it pays.
use crate::fixed::{
    ONE, add_at, add_multiple, add_rounded, at, clear, clip, copy_clipped, dot, in_units, product,
    put, ratio, rounded, take_multiple,
};
use crate::line::{Line, NO_BOX, push_line, push_lines, starts_plus};
use crate::proposal::Proposal;
use bp_theory::MasterRow;
use search_laws::Column;
use std::alloc::{AllocError, Global};

// How many units reduced costs are to be below 0, so that their variable enters.
const TOLERANCE: i64 = 16;

// How many units of the inverse make the least pivot.
const LEAST_PIVOT: i64 = 1 << 26;

// How far a value with digits may be below 0.
const SLACK: i64 = 1 << 12;

// Solutions between two that the exact data corrects.
const CORRECTED_EACH: u32 = 100;

// Steps of no length after which the first variable enters that may, not the best.
const MOST_IDLE: u32 = 200;

// The least and greatest penalty of a missed line, in units, and how often it is the greatest cost of a column.
const LEAST_PENALTY: i64 = 1 << 24;

const MOST_PENALTY: i64 = 1 << 56;

const PENALTY_TIMES: i64 = 16;

// What a logical that pays may stand for, with digits, without a line that counts as missed.
const MOST_MISSED: i64 = 1 << 22;

// A variable: a column, or a logical that adds to a line or takes from it.
#[derive(Clone, Copy, PartialEq, Eq)]
enum Variable {
    Column(usize),
    Plus(usize),
    Minus(usize),
}

// A column by lines.
#[derive(Drop)]
struct Structural {
    // Its cost, in units of which 1,048,576 make one.
    cost: i64,
    // The line of its class.
    class: usize,
    // Its numbers by lines, with a 1 at that of its class.
    entries: Vec<(usize, i64)>,
    // Whether it is basic.
    is_basic: bool,
}

/// The lines, columns and basis of a restricted master, kept between solutions.
pub struct Simplex {
    /// The lines of the rows, and behind them one for each class.
    lines: Vec<Line>,
    /// By row, its first line; behind these the first line of a class.
    firsts: Vec<usize>,
    /// The columns that were taken in.
    columns: Vec<Structural>,
    /// What missing a line by one costs, in units.
    penalty: i64,
    /// The inverse of the basis, a column for each line, by positions, with 36 digits behind the point.
    inverse: Vec<Vec<i64>>,
    /// By position, the basic variable.
    basis: Vec<Variable>,
    /// By position, its value, with 36 digits behind the point.
    values: Vec<i64>,
    /// By line, its price, in units.
    prices: Vec<i64>,
    /// By position, the entering variable by the basis, with 36 digits behind the point.
    direction: Vec<i64>,
    /// Room for sums, by line or position.
    sums: Vec<i128>,
    /// Whether the right sides are nudged.
    is_nudged: bool,
}

// What goes with one is proved here once, and not again wherever one goes.
impl Drop for Simplex {
    fn drop(self) {
        let Simplex {
            lines: _,
            firsts: _,
            columns: _,
            penalty: _,
            inverse: _,
            basis: _,
            values: _,
            prices: _,
            direction: _,
            sums: _,
            is_nudged: _,
        } = self;
    }
}

impl Simplex {
    /// A basis of logicals for rows and for classes of so many blocks, and no columns yet.
    pub fn make(alloc: Global, rows: &[MasterRow], counts: &[u32]) -> Result<Simplex, AllocError> {
        let mut simplex = Simplex::empty(alloc);
        simplex.begin_with(alloc, rows, counts)?;
        Ok(simplex)
    }

    // No lines and no columns.
    fn empty(alloc: Global) -> Simplex {
        Simplex {
            lines: Vec::new(alloc),
            firsts: Vec::new(alloc),
            columns: Vec::new(alloc),
            penalty: LEAST_PENALTY,
            inverse: Vec::new(alloc),
            basis: Vec::new(alloc),
            values: Vec::new(alloc),
            prices: Vec::new(alloc),
            direction: Vec::new(alloc),
            sums: Vec::new(alloc),
            is_nudged: true,
        }
    }

    // Takes in the lines of rows and counts, and begins at a basis of logicals.
    fn begin_with(
        &mut self,
        alloc: Global,
        rows: &[MasterRow],
        counts: &[u32],
    ) -> Result<(), AllocError> {
        for row in rows {
            self.firsts.push(self.lines.len())?;
            push_lines(&mut self.lines, row)?;
        }
        self.firsts.push(self.lines.len())?;
        for count in counts {
            push_line(&mut self.lines, i64::from(*count), true, true)?;
        }
        let many = self.lines.len();
        for i in 0..many {
            self.push_logical(alloc, i, many)?;
        }
        self.values.resize(many, 0)?;
        self.prices.resize(many, 0)?;
        self.direction.resize(many, 0)?;
        self.sums.resize(many, 0)
    }

    // Makes a line's logical basic, the next of so many.
    fn push_logical(&mut self, alloc: Global, line: usize, many: usize) -> Result<(), AllocError> {
        let is_plus = match self.lines.get(line) {
            Some(line) => starts_plus(line),
            None => true,
        };
        let (variable, entry) = if is_plus {
            (Variable::Plus(line), ONE)
        } else {
            (Variable::Minus(line), -ONE)
        };
        self.basis.push(variable)?;
        let mut column = Vec::from_elem(alloc, 0, many)?;
        put(&mut column, line, entry);
        self.inverse.push(column)?;
        Ok(())
    }

    /// Wishes that later multipliers of rows be no further from these than so much, both in units of 2^-20. Where none
    /// is given, or the distance is negative, nothing is wished. The lines of a row of two sides share one multiplier:
    /// each takes what has its sign.
    pub fn stay_near(&mut self, mults: &[i64], width: i64) {
        for row in 1..self.firsts.len() {
            let (price, far) = match mults.get(row - 1) {
                Some(mult) => (*mult, width),
                None => (0, NO_BOX),
            };
            for line in self.first(row - 1)..self.first(row) {
                if line < self.lines.len() {
                    self.lines[line].wish(price, far);
                }
            }
        }
    }

    // Sets what logicals cost. Where prices are held in boxes, counts cost so much that no column is worth missing one.
    fn set_costs(&mut self) {
        let mut some = false;
        let classes = self.last_first();
        for i in 0..classes.min(self.lines.len()) {
            let is_boxed = self.lines[i].set_costs(self.penalty);
            some = some || is_boxed;
        }
        let penalty = if some {
            self.penalty.max(self.boxed_penalty())
        } else {
            self.penalty
        };
        for i in classes..self.lines.len() {
            self.lines[i].set_costs(penalty);
        }
    }

    // A penalty for the greatest cost of a column at the centres of the boxes.
    fn boxed_penalty(&self) -> i64 {
        let mut penalty = LEAST_PENALTY;
        for column in &self.columns {
            let rest = centred(
                column.cost,
                column.entries.as_slice(),
                self.lines.as_slice(),
            );
            penalty = penalty.max(penalty_for(rest));
        }
        penalty
    }

    /// What the basis gives after at most so many pivots, where these columns begin with those of the call before. An
    /// error is want of memory.
    pub fn propose(
        &mut self,
        alloc: Global,
        cols: &[Column],
        pivots: u32,
    ) -> Result<Proposal, AllocError> {
        self.take_in(alloc, cols)?;
        self.set_costs();
        self.is_nudged = true;
        self.correct();
        self.turn_signs();
        self.find_prices();
        let begun = self.enter_classes(pivots);
        self.improve(pivots.saturating_sub(begun));
        self.is_nudged = false;
        self.correct();
        self.find_prices();
        Ok(Proposal {
            weights: self.weights(alloc)?,
            mults: self.mults(alloc)?,
            is_short: self.is_short(),
        })
    }

    // Whether a logical that pays, or that holds a price in its box, stands for more than a little.
    fn is_short(&self) -> bool {
        for i in 0..self.basis.len() {
            if MOST_MISSED < at(self.values.as_slice(), i) && self.pays(self.basis[i]) {
                return true;
            }
        }
        false
    }

    // Whether a variable is a logical that pays, or whose cost isn't its own.
    fn pays(&self, variable: Variable) -> bool {
        match variable {
            Variable::Column(_) => false,
            Variable::Plus(i) => match self.lines.get(i) {
                Some(line) => line.plus_pays || line.plus_cost != 0,
                None => true,
            },
            Variable::Minus(i) => match self.lines.get(i) {
                Some(line) => line.minus_pays || line.minus_cost != 0,
                None => true,
            },
        }
    }

    // Takes in the columns that are new.
    fn take_in(&mut self, alloc: Global, cols: &[Column]) -> Result<(), AllocError> {
        for j in self.columns.len()..cols.len() {
            let column = self.structural(alloc, &cols[j])?;
            self.penalty = self.penalty.max(penalty_for(column.cost));
            self.columns.push(column)?;
        }
        Ok(())
    }

    // A column by lines.
    fn structural(&self, alloc: Global, col: &Column) -> Result<Structural, AllocError> {
        let mut entries = Vec::new(alloc);
        for act in col.acts.as_slice() {
            let row = act.0 as usize;
            for line in self.first(row)..self.first(row + 1) {
                entries.push((line, act.1))?;
            }
        }
        let class = self.last_first().saturating_add(col.class as usize);
        entries.push((class, 1))?;
        Ok(Structural {
            cost: clip(in_units(&col.cost)),
            class,
            entries,
            is_basic: false,
        })
    }

    // The first line of a row.
    fn first(&self, row: usize) -> usize {
        match self.firsts.get(row) {
            Some(first) => *first,
            None => 0,
        }
    }

    // The first line of a class.
    fn last_first(&self) -> usize {
        match self.firsts.last() {
            Some(first) => *first,
            None => 0,
        }
    }

    // What a variable costs in units.
    fn cost(&self, variable: Variable) -> i64 {
        match variable {
            Variable::Column(j) => match self.columns.get(j) {
                Some(column) => column.cost,
                None => 0,
            },
            Variable::Plus(i) => match self.lines.get(i) {
                Some(line) => line.plus_cost,
                None => self.penalty,
            },
            Variable::Minus(i) => match self.lines.get(i) {
                Some(line) => line.minus_cost,
                None => self.penalty,
            },
        }
    }

    // A variable's cost less prices times entries.
    fn reduced_cost(&self, variable: Variable) -> i64 {
        let cost = self.cost(variable);
        match variable {
            Variable::Column(j) => match self.columns.get(j) {
                Some(column) => priced(cost, column.entries.as_slice(), self.prices.as_slice()),
                None => 0,
            },
            Variable::Plus(i) => cost.saturating_sub(at(self.prices.as_slice(), i)),
            Variable::Minus(i) => cost.saturating_add(at(self.prices.as_slice(), i)),
        }
    }

    // Corrects prices by what they miss of the basic variables' costs.
    fn find_prices(&mut self) {
        for _pass in 0..3 {
            if !self.gather_missed_costs() {
                return;
            }
            for k in 0..self.prices.len().min(self.inverse.len()) {
                let more = rounded(dot(self.inverse[k].as_slice(), self.direction.as_slice()));
                self.prices[k] = clip(i128::from(self.prices[k]).wrapping_add(more));
            }
        }
    }

    // Writes down the reduced costs of the basic variables, and whether one isn't 0.
    fn gather_missed_costs(&mut self) -> bool {
        let mut some = false;
        for i in 0..self.basis.len() {
            let missed = self.reduced_cost(self.basis[i]);
            put(self.direction.as_mut_slice(), i, missed);
            some = some || missed != 0;
        }
        some
    }

    // Corrects values by what they miss of the lines' right sides.
    fn correct(&mut self) {
        for _pass in 0..3 {
            if !self.gather_missed_sides() {
                return;
            }
            clear(self.sums.as_mut_slice());
            add_all_columns(
                self.sums.as_mut_slice(),
                self.inverse.as_slice(),
                self.direction.as_slice(),
            );
            add_rounded(self.values.as_mut_slice(), self.sums.as_slice());
        }
    }

    // Writes down what the basic variables miss of the lines' right sides, and whether one isn't 0.
    fn gather_missed_sides(&mut self) -> bool {
        clear(self.sums.as_mut_slice());
        add_sides(
            self.sums.as_mut_slice(),
            self.lines.as_slice(),
            self.is_nudged,
        );
        for i in 0..self.basis.len() {
            let value = at(self.values.as_slice(), i);
            if let Some(variable) = self.basic(i) {
                self.take_variable(variable, value);
            }
        }
        copy_clipped(self.direction.as_mut_slice(), self.sums.as_slice())
    }

    // Takes a variable's entries, so often as its value says, from the sums.
    fn take_variable(&mut self, variable: Variable, value: i64) {
        let less = value.wrapping_neg();
        match variable {
            Variable::Column(j) => {
                if j < self.columns.len() {
                    add_entries(
                        self.sums.as_mut_slice(),
                        self.columns[j].entries.as_slice(),
                        less,
                    );
                }
            }
            Variable::Plus(i) => add_at(self.sums.as_mut_slice(), i, i128::from(less)),
            Variable::Minus(i) => add_at(self.sums.as_mut_slice(), i, i128::from(value)),
        }
    }

    // A basic logical below 0 becomes its opposite, which then may pay.
    fn turn_signs(&mut self) {
        for i in 0..self.basis.len() {
            if at(self.values.as_slice(), i) < 0 {
                let opposite = match self.basis[i] {
                    Variable::Column(_) => continue,
                    Variable::Plus(line) => Variable::Minus(line),
                    Variable::Minus(line) => Variable::Plus(line),
                };
                self.basis[i] = opposite;
                let value = at(self.values.as_slice(), i).wrapping_neg();
                put(self.values.as_mut_slice(), i, value);
                for k in 0..self.inverse.len() {
                    let turned = at(self.inverse[k].as_slice(), i).wrapping_neg();
                    put(self.inverse[k].as_mut_slice(), i, turned);
                }
            }
        }
    }

    // How much of each basic variable one of another takes.
    fn find_direction(&mut self, variable: Variable) {
        clear(self.sums.as_mut_slice());
        match variable {
            Variable::Column(j) => {
                if j < self.columns.len() {
                    add_columns(
                        self.sums.as_mut_slice(),
                        self.inverse.as_slice(),
                        self.columns[j].entries.as_slice(),
                    );
                }
            }
            Variable::Plus(i) => {
                if i < self.inverse.len() {
                    add_multiple(self.sums.as_mut_slice(), self.inverse[i].as_slice(), 1);
                }
            }
            Variable::Minus(i) => {
                if i < self.inverse.len() {
                    add_multiple(self.sums.as_mut_slice(), self.inverse[i].as_slice(), -1);
                }
            }
        }
        copy_clipped(self.direction.as_mut_slice(), self.sums.as_slice());
    }

    // Where a class's line has a logical, the class's column of least cost enters there. Says how many entered.
    fn enter_classes(&mut self, most: u32) -> u32 {
        let mut entered = 0;
        for i in self.last_first()..self.basis.len() {
            if entered < most && self.has_own_plus(i) && self.enter_class(i) {
                entered += 1;
            }
        }
        if entered > 0 {
            self.correct();
            self.turn_signs();
            self.find_prices();
        }
        entered
    }

    // The cheapest column of a class enters at its line, if it can.
    fn enter_class(&mut self, line: usize) -> bool {
        let Some(j) = self.cheapest(line) else {
            return false;
        };
        self.find_direction(Variable::Column(j));
        if at(self.direction.as_slice(), line) <= LEAST_PIVOT {
            return false;
        }
        self.exchange(Variable::Column(j), line);
        true
    }

    // Whether the logical that adds to a line is basic at the line's place.
    fn has_own_plus(&self, line: usize) -> bool {
        match self.basic(line) {
            Some(Variable::Plus(own)) => own == line,
            _ => false,
        }
    }

    // The basic variable at a place.
    fn basic(&self, place: usize) -> Option<Variable> {
        match self.basis.get(place) {
            Some(variable) => Some(*variable),
            None => None,
        }
    }

    // The cheapest column of a class that isn't basic.
    fn cheapest(&self, line: usize) -> Option<usize> {
        let mut best = None;
        let mut least = i64::MAX;
        for j in 0..self.columns.len() {
            let column = &self.columns[j];
            if column.class == line && !column.is_basic && column.cost < least {
                least = column.cost;
                best = Some(j);
            }
        }
        best
    }

    // Lets variables of negative reduced cost enter, until none is left or so many have.
    fn improve(&mut self, pivots: u32) {
        let mut idle: u32 = 0;
        let mut exact = true;
        for step in 0..pivots {
            let Some(variable) = self.entering(idle > MOST_IDLE) else {
                if exact {
                    return;
                }
                self.correct();
                self.find_prices();
                exact = true;
                continue;
            };
            self.find_direction(variable);
            let Some((place, length)) = self.leaving() else {
                return;
            };
            exact = false;
            idle = if length == 0 {
                idle.saturating_add(1)
            } else {
                0
            };
            self.step(variable, place, length);
            if step % CORRECTED_EACH == CORRECTED_EACH - 1 {
                self.correct();
                self.turn_signs();
                self.find_prices();
            }
        }
    }

    // The variable of most negative reduced cost, or the first that is negative.
    fn entering(&self, first: bool) -> Option<Variable> {
        let mut best = None;
        let mut gain = TOLERANCE;
        for j in 0..self.columns.len() {
            if self.columns[j].is_basic {
                continue;
            }
            let variable = Variable::Column(j);
            let more = self.reduced_cost(variable).wrapping_neg();
            if gain < more {
                gain = more;
                best = Some(variable);
                if first {
                    return best;
                }
            }
        }
        for i in 0..self.lines.len() {
            for variable in [Variable::Plus(i), Variable::Minus(i)] {
                let more = self.reduced_cost(variable).wrapping_neg();
                if gain < more && !self.basis.as_slice().contains(&variable) {
                    gain = more;
                    best = Some(variable);
                    if first {
                        return best;
                    }
                }
            }
        }
        best
    }

    // The place that is used up first along the direction, of the greatest pivot, and how far that is.
    fn leaving(&self) -> Option<(usize, i64)> {
        let mut limit = i64::MAX;
        for i in 0..self.direction.len() {
            let pivot = self.direction[i];
            if LEAST_PIVOT < pivot {
                let value = at(self.values.as_slice(), i).max(0);
                limit = limit.min(ratio(value.saturating_add(SLACK), pivot));
            }
        }
        let mut best = None;
        let mut greatest = LEAST_PIVOT;
        for i in 0..self.direction.len() {
            let pivot = self.direction[i];
            if greatest < pivot {
                let length = ratio(at(self.values.as_slice(), i).max(0), pivot);
                if length <= limit {
                    greatest = pivot;
                    best = Some((i, length));
                }
            }
        }
        best
    }

    // A step of a length: the variable enters at a place.
    fn step(&mut self, variable: Variable, place: usize, length: i64) {
        let gain = self.reduced_cost(variable);
        take_multiple(
            self.values.as_mut_slice(),
            self.direction.as_slice(),
            length,
        );
        put(self.values.as_mut_slice(), place, length);
        self.exchange(variable, place);
        for k in 0..self.prices.len().min(self.inverse.len()) {
            let entry = at(self.inverse[k].as_slice(), place);
            if entry != 0 {
                let more = rounded(product(&gain, &entry));
                self.prices[k] = clip(i128::from(self.prices[k]).wrapping_add(more));
            }
        }
    }

    // Puts a variable with its direction into the basis at a place.
    fn exchange(&mut self, variable: Variable, place: usize) {
        let Some(before) = self.basic(place) else {
            return;
        };
        let pivot = at(self.direction.as_slice(), place);
        exchange_columns(
            self.inverse.as_mut_slice(),
            self.direction.as_slice(),
            place,
            pivot,
        );
        self.mark(before, false);
        self.mark(variable, true);
        if place < self.basis.len() {
            self.basis[place] = variable;
        }
    }

    // Notes whether a column is basic.
    fn mark(&mut self, variable: Variable, is_basic: bool) {
        if let Variable::Column(j) = variable {
            if j < self.columns.len() {
                self.columns[j].is_basic = is_basic;
            }
        }
    }

    // The columns' weights in units. What a class's weights miss goes to its greatest one.
    fn weights(&self, alloc: Global) -> Result<Vec<i64>, AllocError> {
        let mut weights = Vec::from_elem(alloc, 0, self.columns.len())?;
        let mut missed = Vec::from_elem(alloc, 0, self.lines.len())?;
        let mut greatest = Vec::from_elem(alloc, 0, self.lines.len())?;
        for k in 0..self.lines.len().min(missed.len()) {
            missed[k] = clip(in_units(&self.lines[k].rhs));
        }
        for i in 0..self.basis.len() {
            if let Variable::Column(j) = self.basis[i] {
                if j < self.columns.len() && j < weights.len() {
                    let weight = at(self.values.as_slice(), i).max(0).saturating_add(32_768) >> 16;
                    weights[j] = weight;
                    let class = self.columns[j].class;
                    if class < missed.len() && class < greatest.len() {
                        missed[class] = missed[class].saturating_sub(weight);
                        let best = greatest[class];
                        if at(weights.as_slice(), best) <= weight {
                            greatest[class] = j;
                        }
                    }
                }
            }
        }
        for k in self.last_first()..missed.len().min(greatest.len()) {
            let j = greatest[k];
            if missed[k].saturating_abs() < 1_024
                && j < self.columns.len()
                && self.columns[j].class == k
            {
                let whole = at(weights.as_slice(), j).saturating_add(missed[k]);
                put(weights.as_mut_slice(), j, whole);
            }
        }
        Ok(weights)
    }

    // The rows' multipliers in units.
    fn mults(&self, alloc: Global) -> Result<Vec<i64>, AllocError> {
        let mut mults = Vec::new(alloc);
        for row in 1..self.firsts.len() {
            let mut sum: i64 = 0;
            for line in self.first(row - 1)..self.first(row) {
                sum = sum.saturating_add(at(self.prices.as_slice(), line));
            }
            mults.push(sum)?;
        }
        Ok(mults)
    }
}

// The penalty of a missed line for a column of this cost.
fn penalty_for(cost: i64) -> i64 {
    cost.saturating_abs()
        .saturating_mul(PENALTY_TIMES)
        .max(LEAST_PENALTY)
        .min(MOST_PENALTY)
}

// A cost less the centres of the lines' boxes times entries.
fn centred(cost: i64, entries: &[(usize, i64)], lines: &[Line]) -> i64 {
    let mut rest = i128::from(cost);
    for entry in entries {
        if let Some(line) = lines.get(entry.0) {
            rest = rest.wrapping_sub(product(&entry.1, &line.centre));
        }
    }
    clip(rest)
}

// A cost less prices times entries.
fn priced(cost: i64, entries: &[(usize, i64)], prices: &[i64]) -> i64 {
    let mut rest = i128::from(cost);
    for entry in entries {
        let price = at(prices, entry.0);
        rest = rest.wrapping_sub(product(&entry.1, &price));
    }
    clip(rest)
}

// Adds entries times a factor to sums by line.
fn add_entries(sums: &mut [i128], entries: &[(usize, i64)], factor: i64) {
    for entry in entries {
        add_at(sums, entry.0, product(&entry.1, &factor));
    }
}

// Adds the inverse's columns of entries' lines, times the entries, to sums by place.
fn add_columns(sums: &mut [i128], inverse: &[Vec<i64>], entries: &[(usize, i64)]) {
    for entry in entries {
        if let Some(column) = inverse.get(entry.0) {
            add_multiple(sums, column.as_slice(), entry.1);
        }
    }
}

// Adds the right sides of lines, with digits and nudged or not, to sums.
fn add_sides(sums: &mut [i128], lines: &[Line], is_nudged: bool) {
    let many = sums.len().min(lines.len());
    for k in 0..many {
        let nudge = if is_nudged { lines[k].nudge } else { 0 };
        let side = product(&lines[k].rhs, &ONE);
        sums[k] = sums[k].wrapping_add(side.wrapping_add(i128::from(nudge)));
    }
}

// Adds the inverse's columns, times factors, to sums by place.
fn add_all_columns(sums: &mut [i128], inverse: &[Vec<i64>], factors: &[i64]) {
    for (k, column) in inverse.iter().enumerate() {
        let factor = at(factors, k);
        if factor != 0 {
            add_multiple(sums, column.as_slice(), factor);
        }
    }
}

// What a column of the inverse becomes where a variable with a direction enters at a place.
fn exchange_column(column: &mut [i64], direction: &[i64], place: usize, pivot: i64) {
    let old = at(column, place);
    if old != 0 {
        let factor = ratio(old, pivot);
        take_multiple(column, direction, factor);
        put(column, place, factor);
    }
}

// What the inverse becomes where a variable with a direction enters at a place.
fn exchange_columns(inverse: &mut [Vec<i64>], direction: &[i64], place: usize, pivot: i64) {
    for k in 0..inverse.len() {
        exchange_column(inverse[k].as_mut_slice(), direction, place, pivot);
    }
}
