// The multipliers that a search begins with: those of the linear relaxation of all rows, in which the blocks of a class are
// one block, so many times as large. They are hints, which exact bounds judge.
use basis_factor::{Entry, Vectors, at, place};
use block_program::{Block, Blocked};
use bp_theory::{Sense, Span};
use dual_simplex::{ENDLESS, Effort, End, Lp, Range};
use node_memory::NodeContext;
use primal_heuristics::{clipped, put, signed};
use restricted_master::at_scale;
use std::alloc::{AllocError, Global};
use std::num::{nearest_i64_to_f64, saturating_f64_to_i64};

/// How many rows steps and rounds without such multipliers serve.
const FEW_ROWS: usize = 138;

/// How many numbers times iterations the solution of the relaxation may take, and how many iterations.
const WORK: u64 = 1 << 31;

const MOST_ITERATIONS: u64 = 20_000;

// A relaxation as it is made.
#[derive(Drop)]
struct Parts {
    // By row that proofs may name, its number in the relaxation.
    lines: Vec<Option<u32>>,
    // The ranges of the rows: first these, and behind them those of the blocks' own rows.
    ranges: Vec<Range>,
    // The columns by rows.
    columns: Vectors,
    // Their spans.
    spans: Vec<Range>,
    // Their costs, in ones.
    costs: Vec<f64>,
    // How many numbers there are.
    numbers: u64,
}

/// The multipliers of the relaxation of a node's rows, by row that proofs may name, at the greatest scale. There are none where
/// these rows are few, the classes' blocks have more rows of their own than proofs may name, or no values meet all rows.
pub fn relaxed_mults(alloc: Global, node: NodeContext) -> Result<Option<Vec<i64>>, AllocError> {
    let rows = master_rows(node.program);
    if rows <= FEW_ROWS || block_rows(node) > rows {
        return Ok(None);
    }
    let Parts {
        lines,
        ranges,
        columns,
        spans,
        costs,
        numbers,
    } = parts_of(alloc, node)?;
    let spans = spans.as_slice();
    let mut lp = Lp::make(alloc, columns, ranges.as_slice(), spans, costs.as_slice())?;
    let end = lp.solve(Effort {
        iterations: iterations_of(numbers),
        cutoff: None,
        keeps_factors: false,
    })?;
    if end == End::Empty {
        return Ok(None);
    }
    let found = lp.multipliers();
    Ok(Some(mults_of(alloc, node.program, lines.as_slice(), found)?))
}

// How many iterations a relaxation of so many numbers may take.
fn iterations_of(numbers: u64) -> u32 {
    (WORK / numbers.max(1)).min(MOST_ITERATIONS) as u32
}

// How many rows proofs may name.
fn master_rows(b: &Blocked) -> usize {
    let mut rows: usize = 0;
    for row in 0..b.named_rows() {
        if b.master_row(row).is_some() {
            rows = rows.saturating_add(1);
        }
    }
    rows
}

// How many rows the first blocks of the classes have.
fn block_rows(node: NodeContext) -> usize {
    let mut rows: usize = 0;
    for class in 0..node.classes.len() {
        let first = node.classes.first(class);
        if first < node.program.blocks() {
            rows = rows.saturating_add(node.program.block(first).rows().len());
        }
    }
    rows
}

// The parts of a node's relaxation.
fn parts_of(alloc: Global, node: NodeContext) -> Result<Parts, AllocError> {
    let mut parts = Parts {
        lines: Vec::new(alloc),
        ranges: Vec::new(alloc),
        columns: Vectors::make(alloc),
        spans: Vec::new(alloc),
        costs: Vec::new(alloc),
        numbers: 0,
    };
    for row in 0..node.program.named_rows() {
        let line = place(parts.ranges.len());
        match node.program.master_row(row) {
            None => parts.lines.push(None)?,
            Some(named) => {
                parts.lines.push(Some(line))?;
                parts
                    .ranges
                    .push(range_of(named.sense, named.low, named.rhs, 1.0))?;
            }
        }
    }
    for class in 0..node.classes.len() {
        let first = node.classes.first(class);
        if first < node.program.blocks() {
            let size = nearest_i64_to_f64(i64::from(node.classes.size(class)));
            let spans = node.zone.spans();
            parts.add_block(alloc, node.program.block(first), spans, size)?;
        }
    }
    Ok(parts)
}

impl Parts {
    // Adds a block, so many times as large.
    fn add_block(
        &mut self,
        alloc: Global,
        block: &Block,
        spans: &[Span],
        size: f64,
    ) -> Result<(), AllocError> {
        let own = own_entries(alloc, block, place(self.ranges.len()))?;
        for row in block.rows() {
            self.ranges
                .push(range_of(row.sense, row.low, row.rhs, size))?;
        }
        for number in 0..block.var_count() {
            let index = number as usize;
            let span = match spans.get(block.vars()[index] as usize) {
                Some(span) => *span,
                None => Span { lo: 0, hi: 0 },
            };
            self.spans.push(Range {
                lower: nearest_i64_to_f64(span.lo) * size,
                upper: nearest_i64_to_f64(span.hi) * size,
            })?;
            self.costs.push(nearest_i64_to_f64(block.costs()[index]))?;
            self.add_master(block.master(number))?;
            if let Some(own) = own.get(index) {
                for entry in own.as_slice() {
                    self.add_entry(*entry)?;
                }
            }
            self.columns.close()?;
        }
        Ok(())
    }

    // Adds the coefficients of a column in the rows that proofs may name.
    fn add_master(&mut self, entries: &[(u32, i64)]) -> Result<(), AllocError> {
        for entry in entries {
            if let Some(Some(line)) = self.lines.get(entry.0 as usize) {
                let place = *line;
                let value = nearest_i64_to_f64(entry.1);
                self.add_entry(Entry { place, value })?;
            }
        }
        Ok(())
    }

    // Adds a coefficient of a column.
    fn add_entry(&mut self, entry: Entry) -> Result<(), AllocError> {
        self.numbers = self.numbers.saturating_add(1);
        self.columns.add(entry)
    }
}

// By place in a block, the coefficients in the block's own rows, of which the first has a number in the relaxation.
fn own_entries(alloc: Global, block: &Block, first: u32) -> Result<Vec<Vec<Entry>>, AllocError> {
    let mut own = Vec::new(alloc);
    for _ in 0..block.var_count() {
        own.push(Vec::new(alloc))?;
    }
    for (number, row) in block.rows().iter().enumerate() {
        for term in row.terms.as_slice() {
            if let Some(entries) = own.get_mut(term.var as usize) {
                entries.push(Entry {
                    place: first.saturating_add(place(number)),
                    value: nearest_i64_to_f64(term.coef),
                })?;
            }
        }
    }
    Ok(own)
}

// The range of a sum with these sides, so many times as large.
fn range_of(sense: Sense, low: i64, high: i64, times: f64) -> Range {
    let lower = nearest_i64_to_f64(low) * times;
    let upper = nearest_i64_to_f64(high) * times;
    match sense {
        Sense::Le => Range {
            lower: -ENDLESS,
            upper,
        },
        Sense::Ge => Range {
            lower,
            upper: ENDLESS,
        },
        _ => Range { lower, upper },
    }
}

// Multipliers by row at the greatest scale, of those of the relaxation's rows.
fn mults_of(
    alloc: Global,
    b: &Blocked,
    lines: &[Option<u32>],
    found: &[f64],
) -> Result<Vec<i64>, AllocError> {
    let mut mults = Vec::from_elem(alloc, 0i64, b.named_rows() as usize)?;
    for (row, line) in lines.iter().enumerate() {
        if let (Some(line), Some(named)) = (line, b.master_row(place(row))) {
            let units = saturating_f64_to_i64(at_scale(at(found, *line as usize)));
            let mult = signed(&named, clipped(i128::from(units)));
            put(mults.as_mut_slice(), row, mult);
        }
    }
    Ok(mults)
}
