// The relaxation of a program's rows while cuts are added to it.
use crate::numbers::set;
use basis_factor::{Basic, Entry, Factor, Vectors, place};
use block_program::Blocked;
use bp_theory::{Row, Term};
use compact_relaxation::relaxation_of;
use dual_simplex::{ENDLESS, Effort, End, Lp, Range};
use std::alloc::{AllocError, Global};
use std::num::nearest_i64_to_f64;

// How many times the iterations of the first optimum, and how many more, all together may take.
const TIMES: u64 = 10;

const FURTHER: u64 = 3000;

// How many iterations the first optimum may take.
const FIRST: u32 = 100_000;

// From which part to which a value is fractional enough to be cut off.
const LEAST_PART: f64 = 0.01;

const MOST_PART: f64 = 0.99;

// The least number of a ray that counts.
const NOTHING: f64 = 1e-9;

/// A program's relaxation while cuts are added to it.
pub struct Relaxation {
    /// The linear program.
    lp: Lp,
    /// How many iterations the first optimum took.
    first: u64,
    /// Whether there is no optimum yet.
    is_first: bool,
}

impl Drop for Relaxation {
    fn drop(self) {
        let Relaxation {
            lp: _,
            first: _,
            is_first: _,
        } = self;
    }
}

impl Relaxation {
    /// The relaxation of a program with its cuts.
    pub fn make(alloc: Global, b: &Blocked) -> Result<Relaxation, AllocError> {
        Ok(Relaxation {
            lp: relaxation_of(alloc, b)?,
            first: 0,
            is_first: true,
        })
    }

    /// A relaxation that is there.
    pub fn over(lp: Lp) -> Relaxation {
        Relaxation {
            lp,
            first: 0,
            is_first: true,
        }
    }

    /// Adds the row of a cut.
    pub fn add(&mut self, alloc: Global, row: &Row) -> Result<(), AllocError> {
        let terms = row.terms.as_slice();
        let entries: Vec<Entry> = terms.iter().map(entry_of).collect(alloc)?;
        let range = Range {
            lower: nearest_i64_to_f64(row.low),
            upper: ENDLESS,
        };
        self.lp.add_row(entries.as_slice(), &range)
    }

    /// Solves from the basis that there is.
    pub fn solve(&mut self) -> Result<End, AllocError> {
        let end = self.lp.solve(Effort {
            iterations: FIRST,
            cutoff: None,
            keeps_factors: false,
        })?;
        if self.is_first {
            self.first = self.lp.iterations();
            self.is_first = false;
        }
        Ok(end)
    }

    /// Whether the iterations are spent.
    pub fn is_spent(&self) -> bool {
        let most = self.first.saturating_mul(TIMES).saturating_add(FURTHER);
        self.lp.iterations() > most
    }

    /// What the values cost, not scaled and without the objective's constant.
    pub fn objective(&self) -> f64 {
        self.lp.objective()
    }

    /// The value of a variable.
    pub fn value(&self, var: usize) -> f64 {
        self.lp.value(var)
    }

    /// The values of the variables.
    pub fn values(&self, alloc: Global) -> Result<Vec<f64>, AllocError> {
        let mut values = Vec::from_elem(alloc, 0.0, self.lp.columns())?;
        for (var, value) in values.iter_mut().enumerate() {
            *value = self.lp.value(var);
        }
        Ok(values)
    }

    /// How many rows there are.
    pub fn rows(&self) -> usize {
        self.lp.rows()
    }

    /// The factors of the basis.
    pub fn factored(&self, alloc: Global) -> Result<Factor, AllocError> {
        let basis = self.basis(alloc)?;
        let columns = self.columns(alloc)?;
        let mut factor = Factor::make(alloc, place(self.lp.rows()))?;
        let _ = factor.factor(&columns, basis.as_slice())?;
        Ok(factor)
    }

    // The columns of the variables.
    fn columns(&self, alloc: Global) -> Result<Vectors, AllocError> {
        let mut columns = Vectors::make(alloc);
        for column in 0..self.lp.columns() {
            columns.push(self.lp.column(column))?;
        }
        Ok(columns)
    }

    // What the basis has.
    fn basis(&self, alloc: Global) -> Result<Vec<Basic>, AllocError> {
        let many = self.lp.columns();
        let mut basis = Vec::new(alloc);
        for basic in self.lp.head() {
            let index = *basic as usize;
            basis.push(if index < many {
                Basic::Column(*basic)
            } else {
                Basic::Logical(place(index - many))
            })?;
        }
        Ok(basis)
    }

    /// The positions of the basis at which a variable has a value that is to be cut off.
    pub fn fractional(&self, alloc: Global) -> Result<Vec<usize>, AllocError> {
        let mut positions = Vec::new(alloc);
        for (position, basic) in self.lp.head().iter().enumerate() {
            let var = *basic as usize;
            if var < self.lp.columns() {
                let value = self.lp.value(var);
                let part = value - value.floor();
                if part > LEAST_PART && part < MOST_PART {
                    positions.push(position)?;
                }
            }
        }
        Ok(positions)
    }

    /// Which rows hold with equality by the basis, or, where there are no values, show that there are none.
    pub fn binding(&self, alloc: Global, end: End) -> Result<Vec<bool>, AllocError> {
        let is_empty = end == End::Empty;
        let mut binds = Vec::from_elem(alloc, !is_empty, self.lp.rows())?;
        if is_empty {
            write_ray(self.lp.ray(), binds.as_mut_slice());
        } else {
            write_slack(self.lp.head(), self.lp.columns(), binds.as_mut_slice());
        }
        Ok(binds)
    }
}

// A term as an entry of a row.
fn entry_of(term: &Term) -> Entry {
    Entry {
        place: term.var,
        value: nearest_i64_to_f64(term.coef),
    }
}

// Sets the flags of the rows that a ray has.
fn write_ray(ray: &[f64], binds: &mut [bool]) {
    for (row, number) in ray.iter().enumerate() {
        if number.abs() > NOTHING {
            set(binds, place(row));
        }
    }
}

// Clears the flags of the rows whose logicals are basic, behind so many columns.
fn write_slack(head: &[u32], columns: usize, binds: &mut [bool]) {
    for basic in head {
        let index = *basic as usize;
        if columns <= index && index - columns < binds.len() {
            binds[index - columns] = false;
        }
    }
}
