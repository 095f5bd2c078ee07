// The linear relaxation of a program in blocks over the rows that proofs may name, its cuts among them, without the rows of
// its blocks: what the search without columns and the choice of cuts both begin from. Where blocks have no rows it is the
// relaxation of the whole program, and else its ranges of rows serve the master over columns.

use basis_factor::{Entry, Vectors, put};
use block_program::Blocked;
use bp_theory::{MasterRow, Sense, Span};
use dual_simplex::{ENDLESS, Lp, Range};
use std::alloc::{AllocError, Global};
use std::num::nearest_i64_to_f64;

/// The relaxation of a program's rows and of the cuts that it has, with a variable's first copy for its column.
pub fn relaxation_of(alloc: Global, b: &Blocked) -> Result<Lp, AllocError> {
    let model = b.model();
    let by_columns = columns_of(alloc, b)?;
    let mut ranges = Vec::new(alloc);
    for row in 0..b.named_rows() {
        ranges.push(match b.master_row(row) {
            Some(row) => range_of_sides(&row),
            None => endless(),
        })?;
    }
    let mut costs = Vec::from_elem(alloc, 0.0, model.vars() as usize)?;
    for term in model.costs() {
        let cost = nearest_i64_to_f64(term.coef);
        put(costs.as_mut_slice(), term.var as usize, cost);
    }
    let mut spans = Vec::new(alloc);
    for span in model.spans() {
        spans.push(range_of_span(span))?;
    }
    Lp::make(
        alloc,
        by_columns,
        ranges.as_slice(),
        spans.as_slice(),
        costs.as_slice(),
    )
}

// The coefficients of the variables' first copies in the rows that proofs may name, a column for each variable.
fn columns_of(alloc: Global, b: &Blocked) -> Result<Vectors, AllocError> {
    let mut columns = Vectors::make(alloc);
    for var in 0..b.model().vars() {
        let (number, place) = b.var_place(var);
        for entry in b.block(number).master(place) {
            columns.add(Entry {
                place: entry.0,
                value: nearest_i64_to_f64(entry.1),
            })?;
        }
        columns.close()?;
    }
    Ok(columns)
}

// A span as a range.
fn range_of_span(span: &Span) -> Range {
    Range {
        lower: nearest_i64_to_f64(span.lo),
        upper: nearest_i64_to_f64(span.hi),
    }
}

// All numbers.
fn endless() -> Range {
    Range {
        lower: -ENDLESS,
        upper: ENDLESS,
    }
}

// The range of the sum of a row with these sides.
fn range_of_sides(row: &MasterRow) -> Range {
    let low = nearest_i64_to_f64(row.low);
    let high = nearest_i64_to_f64(row.rhs);
    match row.sense {
        Sense::Le => Range {
            lower: -ENDLESS,
            upper: high,
        },
        Sense::Ge => Range {
            lower: low,
            upper: ENDLESS,
        },
        Sense::Eq => Range {
            lower: low,
            upper: high,
        },
        Sense::In => Range {
            lower: low,
            upper: high,
        },
    }
}
