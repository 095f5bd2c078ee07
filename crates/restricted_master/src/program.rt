// The columns, the rows and the basis.
use crate::numbers::{NONE, at, dot, is_set, place, place_at, put, put_place};
use basis_factor::{Basic, Entry, Factor, Replaced, Vectors};
use std::alloc::{AllocError, Global};

/// What a sign may be below zero by noise.
pub const NOISE: f64 = 1e-7;

/// A linear program: columns of numbers by rows with weights from 0 on, at least cost, so that each row's sum is its
/// side. What a row lacks or has too much may stay, at a cost of its own for each: a slack is one of cost 0, and a
/// penalty keeps a multiplier in a range. So there is always a solution. The basis has a member for each row, a column
/// or what a row lacks or has too much, which is the factors' logical taken with a sign: -1 where it lacks.
pub struct ColumnProgram {
    /// The matrix, a vector for each column, by rows.
    pub(crate) columns: Vectors,
    /// By column, its cost, in ones.
    pub(crate) costs: Vec<f64>,
    /// By column, its position in the basis; `NONE` where it isn't basic.
    pub(crate) positions: Vec<u32>,
    /// By column, whether it is to have no weight.
    pub(crate) is_off: Vec<bool>,
    /// By row, its right side.
    sides: Vec<f64>,
    /// By row, what it costs that it lacks one, in ones.
    lacks: Vec<f64>,
    /// By row, what it costs that it has one too much, in ones.
    excesses: Vec<f64>,
    /// By position, the member of the basis.
    basis: Vec<Basic>,
    /// By position, 1 or -1: the sign with which a logical is taken, -1 where its row lacks; 1 for a column.
    pub(crate) signs: Vec<f64>,
    /// By row, the position of its logical in the basis; `NONE` where it isn't basic.
    pub(crate) logicals: Vec<u32>,
    /// By position, the weight of the member, in ones.
    pub(crate) weights: Vec<f64>,
    /// By row, the multiplier of the basis, in ones.
    pub(crate) mults: Vec<f64>,
    /// The factors of the basis, with updates.
    pub(crate) factor: Factor,
    /// The columns that pricing looks at between two looks at all.
    pub(crate) listed: Vec<u32>,
    /// By position, the entering column by the basis.
    pub(crate) alpha: Vec<f64>,
    /// By row, a row of the inverse.
    pub(crate) rho: Vec<f64>,
    /// How many pivots were made since the program was made.
    pub(crate) pivots: u64,
}

impl Drop for ColumnProgram {
    fn drop(self) {
        let ColumnProgram {
            columns: _,
            costs: _,
            positions: _,
            is_off: _,
            sides: _,
            lacks: _,
            excesses: _,
            basis: _,
            signs: _,
            logicals: _,
            weights: _,
            mults: _,
            factor: _,
            listed: _,
            alpha: _,
            rho: _,
            pivots: _,
        } = self;
    }
}

/// What stood at a moment.
#[derive(Drop)]
pub struct Mark {
    /// By position, the member of the basis.
    basis: Vec<Basic>,
    /// By position, the sign with which a logical is taken.
    signs: Vec<f64>,
    /// By row, its right side.
    sides: Vec<f64>,
}

/// What may enter the basis: a column, what a row lacks, or what it has too much.
#[derive(Clone, Copy, Debug, PartialEq, Eq)]
pub enum Entering {
    Column(u32),
    Lack(u32),
    Excess(u32),
}

impl ColumnProgram {
    /// Rows with sides and no columns. What rows lack or have too much costs nothing yet.
    pub fn make(alloc: Global, sides: &[f64]) -> Result<ColumnProgram, AllocError> {
        let factor = Factor::make(alloc, place(sides.len()))?;
        let mut program = ColumnProgram::empty(alloc, factor);
        program.take_rows(sides)?;
        program.compute_weights();
        program.turn_signs();
        Ok(program)
    }

    // No rows and no columns yet.
    fn empty(alloc: Global, factor: Factor) -> ColumnProgram {
        ColumnProgram {
            columns: Vectors::make(alloc),
            costs: Vec::new(alloc),
            positions: Vec::new(alloc),
            is_off: Vec::new(alloc),
            sides: Vec::new(alloc),
            lacks: Vec::new(alloc),
            excesses: Vec::new(alloc),
            basis: Vec::new(alloc),
            signs: Vec::new(alloc),
            logicals: Vec::new(alloc),
            weights: Vec::new(alloc),
            mults: Vec::new(alloc),
            factor,
            listed: Vec::new(alloc),
            alpha: Vec::new(alloc),
            rho: Vec::new(alloc),
            pivots: 0,
        }
    }

    // Takes in rows with sides, each with what it lacks in the basis.
    fn take_rows(&mut self, sides: &[f64]) -> Result<(), AllocError> {
        let rows = sides.len();
        self.sides.extend_from_slice(sides)?;
        self.lacks.resize(rows, 0.0)?;
        self.excesses.resize(rows, 0.0)?;
        self.signs.resize(rows, -1.0)?;
        self.weights.resize(rows, 0.0)?;
        self.mults.resize(rows, 0.0)?;
        self.alpha.resize(rows, 0.0)?;
        self.rho.resize(rows, 0.0)?;
        for row in 0..rows {
            self.basis.push(Basic::Logical(place(row)))?;
            self.logicals.push(place(row))?;
        }
        Ok(())
    }

    /// How many rows there are.
    pub fn rows(&self) -> usize {
        self.sides.len()
    }

    /// How many columns there are.
    pub fn columns(&self) -> usize {
        self.costs.len()
    }

    /// How many pivots were made since it was made.
    pub fn pivots(&self) -> u64 {
        self.pivots
    }

    /// Adds a column, which is out of the basis: its number.
    pub fn add(&mut self, cost: f64, entries: &[Entry]) -> Result<u32, AllocError> {
        let number = place(self.costs.len());
        self.costs.push(cost)?;
        self.columns.push(entries)?;
        self.positions.push(NONE)?;
        self.is_off.push(false)?;
        Ok(number)
    }

    /// Sets what it costs that a row lacks one, and that it has one too much.
    pub fn set_penalties(&mut self, row: usize, lack: f64, excess: f64) {
        put(self.lacks.as_mut_slice(), row, lack);
        put(self.excesses.as_mut_slice(), row, excess);
    }

    /// Adds to a row's side.
    pub fn add_to_side(&mut self, row: usize, more: f64) {
        let side = at(self.sides.as_slice(), row);
        put(self.sides.as_mut_slice(), row, side + more);
    }

    /// Switches a column off: it is to leave the basis and not to come back.
    pub fn switch_off(&mut self, column: u32) {
        if let Some(is_off) = self.is_off.get_mut(column as usize) {
            *is_off = true;
        }
    }

    /// Whether a column is switched off.
    pub fn is_off(&self, column: u32) -> bool {
        is_set(self.is_off.as_slice(), column as usize)
    }

    /// A column's weight.
    pub fn weight(&self, column: u32) -> f64 {
        match self.positions.get(column as usize) {
            Some(position) if *position != NONE => {
                let weight = at(self.weights.as_slice(), *position as usize);
                if weight < 0.0 { 0.0 } else { weight }
            }
            _ => 0.0,
        }
    }

    /// A row's multiplier, in ones.
    pub fn mult(&self, row: usize) -> f64 {
        at(self.mults.as_slice(), row)
    }

    /// How much a row lacks, and else how much it has too much, as a number below 0.
    pub fn gap(&self, row: usize) -> f64 {
        let position = place_at(self.logicals.as_slice(), row);
        if position == NONE {
            return 0.0;
        }
        let position = position as usize;
        let sign = at(self.signs.as_slice(), position);
        at(self.weights.as_slice(), position) * -sign
    }

    /// A column's cost less what the multipliers pay for it.
    pub fn reduced_cost(&self, column: u32) -> f64 {
        let place = column as usize;
        at(self.costs.as_slice(), place) - dot(self.mults.as_slice(), self.columns.of(place))
    }

    /// What stands.
    pub fn mark(&self, alloc: Global) -> Result<Mark, AllocError> {
        Ok(Mark {
            basis: self.basis.as_slice().to_vec(alloc)?,
            signs: self.signs.as_slice().to_vec(alloc)?,
            sides: self.sides.as_slice().to_vec(alloc)?,
        })
    }

    /// Goes back to what stood: basis and sides. All columns are switched on; those that came since stay, out of the basis.
    pub fn go_back(&mut self, alloc: Global, mark: &Mark) -> Result<(), AllocError> {
        self.is_off.as_mut_slice().fill(false);
        self.sides = mark.sides.as_slice().to_vec(alloc)?;
        self.basis = mark.basis.as_slice().to_vec(alloc)?;
        self.signs = mark.signs.as_slice().to_vec(alloc)?;
        self.refactor()?;
        self.turn_signs();
        Ok(())
    }

    /// Lets a column stand in the basis in place of what a row lacks, before the first solution.
    pub fn begin_with(&mut self, row: usize, column: u32) {
        if let Some(member) = self.basis.get_mut(row) {
            *member = Basic::Column(column);
        }
        put(self.signs.as_mut_slice(), row, 1.0);
    }

    /// Makes the factors of the basis anew, and the weights.
    pub fn refactor(&mut self) -> Result<(), AllocError> {
        let replaced = self.factor.factor(&self.columns, self.basis.as_slice())?;
        for one in replaced.as_slice() {
            self.replace(one);
        }
        self.positions.as_mut_slice().fill(NONE);
        self.logicals.as_mut_slice().fill(NONE);
        for position in 0..self.basis.len() {
            self.note(position);
        }
        self.compute_weights();
        Ok(())
    }

    // Takes a row's logical in place of a member that depends on the others.
    fn replace(&mut self, one: &Replaced) {
        let position = one.position as usize;
        if let Some(member) = self.basis.get_mut(position) {
            *member = Basic::Logical(one.row);
        }
        put(self.signs.as_mut_slice(), position, 1.0);
    }

    // Notes where the member of a position stands.
    fn note(&mut self, position: usize) {
        match self.basis.get(position) {
            Some(Basic::Logical(row)) => {
                put_place(self.logicals.as_mut_slice(), *row as usize, place(position))
            }
            Some(Basic::Column(column)) => {
                put_place(
                    self.positions.as_mut_slice(),
                    *column as usize,
                    place(position),
                )
            }
            None => {}
        }
    }

    // Notes that the member of a position is out of the basis.
    fn forget(&mut self, position: usize) {
        match self.basis.get(position) {
            Some(Basic::Logical(row)) => {
                put_place(self.logicals.as_mut_slice(), *row as usize, NONE)
            }
            Some(Basic::Column(column)) => {
                put_place(self.positions.as_mut_slice(), *column as usize, NONE)
            }
            None => {}
        }
    }

    /// Whether a position's member is a logical.
    pub(crate) fn is_logical(&self, position: usize) -> bool {
        match self.basis.get(position) {
            Some(Basic::Logical(_)) => true,
            _ => false,
        }
    }

    /// Whether a position's member is a column that is switched off.
    pub(crate) fn is_member_off(&self, position: usize) -> bool {
        match self.basis.get(position) {
            Some(Basic::Column(column)) => is_set(self.is_off.as_slice(), *column as usize),
            _ => false,
        }
    }

    /// The cost of a row's lack and of its excess.
    pub(crate) fn penalties(&self, row: usize) -> (f64, f64) {
        (
            at(self.lacks.as_slice(), row),
            at(self.excesses.as_slice(), row),
        )
    }

    // The cost of a position's member.
    fn member_cost(&self, position: usize) -> f64 {
        match self.basis.get(position) {
            Some(Basic::Logical(row)) => {
                if at(self.signs.as_slice(), position) < 0.0 {
                    at(self.lacks.as_slice(), *row as usize)
                } else {
                    at(self.excesses.as_slice(), *row as usize)
                }
            }
            Some(Basic::Column(column)) => at(self.costs.as_slice(), *column as usize),
            None => 0.0,
        }
    }

    /// Computes the weights of the basis.
    pub(crate) fn compute_weights(&mut self) {
        let many = self.sides.len();
        for row in 0..many {
            put(
                self.weights.as_mut_slice(),
                row,
                at(self.sides.as_slice(), row),
            );
        }
        self.factor.ftran(self.weights.as_mut_slice());
        for position in 0..many {
            let weight = at(self.weights.as_slice(), position);
            let sign = at(self.signs.as_slice(), position);
            put(self.weights.as_mut_slice(), position, weight * sign);
        }
    }

    /// Computes the multipliers of the basis.
    pub(crate) fn compute_mults(&mut self) {
        for position in 0..self.sides.len() {
            let cost = self.member_cost(position) * at(self.signs.as_slice(), position);
            put(self.mults.as_mut_slice(), position, cost);
        }
        self.factor.btran(self.mults.as_mut_slice());
    }

    /// Lets logicals below zero stand for the other side.
    pub(crate) fn turn_signs(&mut self) {
        for position in 0..self.sides.len() {
            let weight = at(self.weights.as_slice(), position);
            if weight < 0.0 && self.is_logical(position) {
                let sign = at(self.signs.as_slice(), position);
                put(self.signs.as_mut_slice(), position, -sign);
                put(self.weights.as_mut_slice(), position, -weight);
            }
        }
    }

    /// Writes what an entering member is by the factors' basis into `alpha`, and gives its sign.
    pub(crate) fn load(&mut self, entering: Entering) -> f64 {
        self.alpha.as_mut_slice().fill(0.0);
        let sign = match entering {
            Entering::Column(column) => {
                for entry in self.columns.of(column as usize) {
                    put(self.alpha.as_mut_slice(), entry.place as usize, entry.value);
                }
                1.0
            }
            Entering::Lack(row) => {
                put(self.alpha.as_mut_slice(), row as usize, -1.0);
                -1.0
            }
            Entering::Excess(row) => {
                put(self.alpha.as_mut_slice(), row as usize, -1.0);
                1.0
            }
        };
        self.factor.ftran(self.alpha.as_mut_slice());
        sign
    }

    /// By how much the member at a position falls for each unit of an entering one of a sign, whose numbers stand in
    /// `alpha`.
    pub(crate) fn fall(&self, position: usize, sign: f64) -> f64 {
        at(self.alpha.as_slice(), position) * at(self.signs.as_slice(), position) * sign
    }

    /// Exchanges the member at a position for an entering one of a sign, whose numbers stand in `alpha` and whose
    /// weight becomes `step`; whether it could.
    pub(crate) fn exchange(
        &mut self,
        position: usize,
        entering: Entering,
        sign: f64,
        step: f64,
    ) -> Result<bool, AllocError> {
        if !self.factor.update(place(position), self.alpha.as_slice())? {
            return Ok(false);
        }
        for other in 0..self.sides.len() {
            let fall = self.fall(other, sign);
            if fall != 0.0 {
                let weight = at(self.weights.as_slice(), other);
                put(self.weights.as_mut_slice(), other, weight - fall * step);
            }
        }
        self.forget(position);
        if let Some(member) = self.basis.get_mut(position) {
            *member = match entering {
                Entering::Column(column) => Basic::Column(column),
                Entering::Lack(row) => Basic::Logical(row),
                Entering::Excess(row) => Basic::Logical(row),
            };
        }
        put(self.signs.as_mut_slice(), position, sign);
        put(self.weights.as_mut_slice(), position, step);
        self.note(position);
        self.pivots = self.pivots.saturating_add(1);
        Ok(true)
    }
}
