// The lines of a restricted master that stand for the rows that proofs may name, which are master rows, link rows and
// cuts: one for each side that a row's sum must keep.
use crate::program::ColumnProgram;
use basis_factor::Entry;
use block_program::{Blocked, MAX_SCALE};
use bp_theory::Sense;
use primal_heuristics::{at, clipped, put, signed, sum_at, whole};
use std::alloc::{AllocError, Global};
use std::num::{nearest_i64_to_f64, saturating_f64_to_i64};

// Which side of its row a line stands for.
#[derive(Clone, Copy, Debug, PartialEq, Eq)]
enum Side {
    AtLeast,
    AtMost,
    Equal,
}

// A line of the restricted master.
#[derive(Clone, Copy)]
struct Line {
    // The row that it is of, as proofs number rows.
    row: u32,
    // The side of the row that it stands for.
    side: Side,
}

/// The lines of the rows that proofs may name: one for each side that a row has to keep, two for a row with both.
#[derive(Drop)]
pub struct Lines {
    /// The lines, in the order of their rows.
    lines: Vec<Line>,
    /// By row, the number of its first line, and how many it has.
    by_row: Vec<(u32, u32)>,
}

/// A place in 32 bits; the greatest number stands for all beyond.
pub fn place_of(index: usize) -> u32 {
    match u32::try_from(index) {
        Ok(place) => place,
        Err(_) => u32::MAX,
    }
}

/// A number of ones as one of units, rounded.
pub fn at_scale(number: f64) -> f64 {
    let units = number * 1048576.0;
    if units < 0.0 {
        units - 0.5
    } else {
        units + 0.5
    }
}

// A multiplier at the greatest scale as a number of ones.
fn ones(mult: i64) -> f64 {
    nearest_i64_to_f64(mult) / nearest_i64_to_f64(i64::from(MAX_SCALE))
}

impl Lines {
    /// The lines of the rows of a program that proofs may name.
    pub fn of(alloc: Global, b: &Blocked) -> Result<Lines, AllocError> {
        let mut lines = Lines {
            lines: Vec::new(alloc),
            by_row: Vec::new(alloc),
        };
        for row in 0..b.named_rows() {
            let first = place_of(lines.lines.len());
            let mut many = 0u32;
            if let Some(named) = b.master_row(row) {
                many = lines.push(row, named.sense)?;
            }
            lines.by_row.push((first, many))?;
        }
        Ok(lines)
    }

    // Adds the lines of a row; how many these are.
    fn push(&mut self, row: u32, sense: Sense) -> Result<u32, AllocError> {
        let side = match sense {
            Sense::Le => Side::AtMost,
            Sense::Ge => Side::AtLeast,
            Sense::Eq => Side::Equal,
            Sense::In => {
                let side = Side::AtLeast;
                self.lines.push(Line { row, side })?;
                let side = Side::AtMost;
                self.lines.push(Line { row, side })?;
                return Ok(2);
            }
        };
        self.lines.push(Line { row, side })?;
        Ok(1)
    }

    /// How many lines there are.
    pub fn len(&self) -> usize {
        self.lines.len()
    }

    /// Whether the program has no such row with a side to keep.
    pub fn is_empty(&self) -> bool {
        self.lines.is_empty()
    }

    /// The sides less sums by row.
    pub fn sides(&self, alloc: Global, b: &Blocked, sums: &[i128]) -> Result<Vec<f64>, AllocError> {
        let mut sides = Vec::new(alloc);
        for line in self.lines.as_slice() {
            let mut side: i128 = 0;
            if let Some(named) = b.master_row(line.row) {
                side = match line.side {
                    Side::AtLeast => i128::from(named.low),
                    Side::AtMost => i128::from(named.rhs),
                    Side::Equal => i128::from(named.rhs),
                };
            }
            let left = side.saturating_sub(sum_at(sums, line.row as usize));
            sides.push(nearest_i64_to_f64(whole(left)))?;
        }
        Ok(sides)
    }

    /// What a column's activities by row are by line.
    pub fn entries(&self, alloc: Global, acts: &[(u32, i64)]) -> Result<Vec<Entry>, AllocError> {
        let mut entries = Vec::new(alloc);
        for act in acts {
            let (first, many) = self.of_row(act.0);
            for line in first..first.saturating_add(many) {
                entries.push(Entry {
                    place: line,
                    value: nearest_i64_to_f64(act.1),
                })?;
            }
        }
        Ok(entries)
    }

    // The first line of a row, and how many it has.
    fn of_row(&self, row: u32) -> (u32, u32) {
        match self.by_row.get(row as usize) {
            Some(lines) => *lines,
            None => (0, 0),
        }
    }

    /// A row's multiplier, in ones.
    pub fn mult(&self, program: &ColumnProgram, row: u32) -> f64 {
        let (first, many) = self.of_row(row);
        let mut mult = 0.0;
        for line in first..first.saturating_add(many) {
            mult += program.mult(line as usize);
        }
        mult
    }

    /// Sets what it costs to miss a row by one.
    pub fn set_penalties(&self, program: &mut ColumnProgram, penalty: f64) {
        for (place, line) in self.lines.iter().enumerate() {
            match line.side {
                Side::AtLeast => program.set_penalties(place, penalty, 0.0),
                Side::AtMost => program.set_penalties(place, 0.0, penalty),
                Side::Equal => program.set_penalties(place, penalty, penalty),
            }
        }
    }

    /// Lets multipliers be within a width of others, by row at the greatest scale, and no farther than a penalty. Width and
    /// penalty are in ones.
    pub fn stay_near(&self, program: &mut ColumnProgram, mults: &[i64], width: f64, penalty: f64) {
        for (place, line) in self.lines.iter().enumerate() {
            let centre = self.centre(line, mults);
            let lack = least_of(centre + width, penalty);
            let excess = least_of(width - centre, penalty);
            let (lack, excess) = match line.side {
                Side::AtLeast => (lack, least_of(excess, 0.0)),
                Side::AtMost => (least_of(lack, 0.0), excess),
                Side::Equal => (lack, excess),
            };
            let gap = lack + excess;
            let lack = if gap < 0.0 { lack - gap } else { lack };
            program.set_penalties(place, lack, excess);
        }
    }

    // The part of a row's multiplier that its line has.
    fn centre(&self, line: &Line, mults: &[i64]) -> f64 {
        let mult = ones(at(mults, line.row as usize));
        match line.side {
            Side::AtLeast => if mult > 0.0 { mult } else { 0.0 },
            Side::AtMost => if mult < 0.0 { mult } else { 0.0 },
            Side::Equal => mult,
        }
    }

    /// Writes the multipliers by row at the greatest scale.
    pub fn write_mults(&self, b: &Blocked, program: &ColumnProgram, mults: &mut [i64]) {
        for row in 0..b.named_rows() {
            if let Some(named) = b.master_row(row) {
                let units = saturating_f64_to_i64(at_scale(self.mult(program, row)));
                let mult = signed(&named, clipped(i128::from(units)));
                put(mults, row as usize, mult);
            }
        }
    }

    /// By how much rows are missed in all.
    pub fn missed(&self, program: &ColumnProgram) -> f64 {
        let mut missed = 0.0;
        for (place, line) in self.lines.iter().enumerate() {
            let gap = program.gap(place);
            let counts = match line.side {
                Side::AtLeast => gap > 0.0,
                Side::AtMost => gap < 0.0,
                Side::Equal => true,
            };
            if counts {
                missed += gap.abs();
            }
        }
        missed
    }

    /// Takes a column's activities out of the sides.
    pub fn take(&self, program: &mut ColumnProgram, acts: &[(u32, i64)]) {
        for act in acts {
            let (first, many) = self.of_row(act.0);
            for line in first..first.saturating_add(many) {
                program.add_to_side(line as usize, -nearest_i64_to_f64(act.1));
            }
        }
    }
}

// The lesser of two numbers.
fn least_of(a: f64, b: f64) -> f64 {
    if a < b { a } else { b }
}
