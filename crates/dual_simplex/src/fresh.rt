// Factors, reduced costs and values from nothing.
use crate::lp::Lp;
use crate::variable::{Range, Status};
use basis_factor::{Basic, Vectors, at, dot, place, put, take_multiple};
use std::alloc::AllocError;

/// How far a reduced cost may be on the wrong side of 0.
pub const DUAL: f64 = 1e-7;

impl Lp {
    /// Makes factors, reduced costs and values anew.
    pub fn renew(&mut self) -> Result<(), AllocError> {
        self.refactor()?;
        self.fresh_reduced();
        self.fresh_values();
        Ok(())
    }

    /// Makes the factors of the basis anew. What depends on others leaves the basis.
    pub fn refactor(&mut self) -> Result<(), AllocError> {
        self.basics.clear();
        for basic in &self.head {
            self.basics.push(member(*basic, self.columns))?;
        }
        let replaced = self
            .factor
            .factor(&self.by_columns, self.basics.as_slice())?;
        for change in &replaced {
            self.replace(change.position as usize, change.row as usize);
        }
        self.is_stale = false;
        Ok(())
    }

    // Takes what is basic at a position out of the basis, and the logical of a row in.
    fn replace(&mut self, position: usize, row: usize) {
        let logical = self.columns.saturating_add(row);
        if position < self.head.len() {
            let old = self.head[position] as usize;
            if let Some(variable) = self.variables.get(old) {
                let rest = variable.rest();
                if old < self.statuses.len() {
                    self.statuses[old] = rest;
                }
            }
            self.head[position] = place(logical);
        }
        if logical < self.statuses.len() {
            self.statuses[logical] = Status::Basic;
        }
        put(self.weights.as_mut_slice(), position, 1.0);
    }

    /// Makes reduced costs anew, and stands each variable where its reduced cost wants it, or shifts its cost.
    pub fn fresh_reduced(&mut self) {
        for (position, basic) in self.head.iter().enumerate() {
            let cost = match self.variables.get(*basic as usize) {
                Some(variable) => variable.cost,
                None => 0.0,
            };
            put(self.spare.as_mut_slice(), position, cost);
        }
        self.factor.btran(self.spare.as_mut_slice());
        for index in 0..self.variables.len() {
            self.fresh_one(index);
        }
    }

    // Makes a variable's reduced cost anew from multipliers.
    fn fresh_one(&mut self, index: usize) {
        if index >= self.variables.len() || index >= self.statuses.len() {
            return;
        }
        let variable = &mut self.variables[index];
        let status = self.statuses[index];
        if status == Status::Basic {
            variable.reduced = 0.0;
            return;
        }
        let mults = self.spare.as_slice();
        variable.reduced = if index < self.columns {
            variable.cost - dot(mults, self.by_columns.of(index))
        } else {
            variable.cost + at(mults, index - self.columns)
        };
        self.statuses[index] = variable.stand(status, DUAL);
    }

    /// Makes values anew.
    pub fn fresh_values(&mut self) {
        self.spare.fill(0.0);
        for index in 0..self.variables.len() {
            self.fresh_value(index);
        }
        self.factor.ftran(self.spare.as_mut_slice());
        for (position, basic) in self.head.iter().enumerate() {
            if let Some(variable) = self.variables.get_mut(*basic as usize) {
                variable.value = at(self.spare.as_slice(), position);
            }
        }
    }

    // Sets the value of a variable that isn't basic, and takes what it gives from rows.
    fn fresh_value(&mut self, index: usize) {
        if index >= self.variables.len() || index >= self.statuses.len() {
            return;
        }
        let status = self.statuses[index];
        if status == Status::Basic {
            return;
        }
        let variable = &mut self.variables[index];
        let value = variable.end(status);
        variable.value = value;
        if value != 0.0 {
            take_column(
                self.spare.as_mut_slice(),
                &self.by_columns,
                self.columns,
                index,
                value,
            );
        }
    }

    /// Multipliers of rows by the true costs of what is basic: at least 0 where a row's lower side holds, and at most 0
    /// where its upper one does.
    pub fn multipliers(&mut self) -> &[f64] {
        for (position, basic) in self.head.iter().enumerate() {
            let cost = at(self.costs.as_slice(), *basic as usize);
            put(self.mults.as_mut_slice(), position, cost);
        }
        self.factor.btran(self.mults.as_mut_slice());
        self.mults.as_slice()
    }

    /// The multipliers that were made last.
    pub fn last_multipliers(&self) -> &[f64] {
        self.mults.as_slice()
    }

    /// The true cost of a column less what multipliers of rows give it.
    pub fn reduced_cost(&self, column: usize, mults: &[f64]) -> f64 {
        self.cost(column) - dot(mults, self.by_columns.of(column))
    }

    /// The range of a row.
    pub fn range(&self, row: usize) -> Range {
        self.span(self.columns.saturating_add(row))
    }
}

// What a variable is in the basis.
fn member(variable: u32, columns: usize) -> Basic {
    let index = variable as usize;
    if index < columns {
        Basic::Column(variable)
    } else {
        Basic::Logical(place(index - columns))
    }
}

/// Takes a multiple of a variable's column from a vector by rows.
pub fn take_column(
    numbers: &mut [f64],
    by_columns: &Vectors,
    columns: usize,
    index: usize,
    factor: f64,
) {
    if index < columns {
        take_multiple(numbers, by_columns.of(index), factor);
    } else {
        let row = index - columns;
        let number = at(numbers, row);
        put(numbers, row, number + factor);
    }
}
