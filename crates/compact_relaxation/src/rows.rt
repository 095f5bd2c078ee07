// The rows that multipliers are of, by the numbers that proofs name them by.
use basis_factor::place;
use block_program::{Block, Blocked};
use bp_theory::{Items, Row, Sense, Term};
use std::alloc::{AllocError, Global};

/// The rows of a program's cuts, by the coefficients of its blocks' copies.
pub fn cut_rows(alloc: Global, b: &Blocked) -> Result<Vec<Row>, AllocError> {
    let mut rows = Vec::with_capacity(alloc, b.cuts().len())?;
    let first = first_cut(b);
    for number in first..b.named_rows() {
        let low = match b.master_row(number) {
            Some(row) => row.low,
            None => 0,
        };
        rows.push(Row {
            sense: Sense::Ge,
            low,
            rhs: low,
            terms: Items::new(alloc),
        })?;
    }
    if !rows.is_empty() {
        for number in 0..b.blocks() {
            add_block(rows.as_mut_slice(), b.block(number), first)?;
        }
    }
    Ok(rows)
}

// Adds the coefficients of a block's copies in cuts, of which the first has a number.
fn add_block(rows: &mut [Row], block: &Block, first: u32) -> Result<(), AllocError> {
    for place in 0..block.var_count() {
        let Some(var) = block.vars().get(place as usize) else {
            continue;
        };
        for entry in block.master(place) {
            if first <= entry.0 {
                if let Some(row) = rows.get_mut((entry.0 - first) as usize) {
                    row.terms.push(Term {
                        var: *var,
                        coef: entry.1,
                    })?;
                }
            }
        }
    }
    Ok(())
}

// The number of the first cut.
fn first_cut(b: &Blocked) -> u32 {
    b.named_rows().saturating_sub(place(b.cuts().len()))
}

/// The row of the model or of a cut that has a number; none for a link row.
pub fn row_of<'a>(b: &'a Blocked, cuts: &'a [Row], number: u32) -> Option<&'a Row> {
    let own = b.model().all_rows();
    let first = first_cut(b);
    if (number as usize) < own.len() {
        own.get(number as usize)
    } else if number < first {
        None
    } else {
        cuts.get((number - first) as usize)
    }
}
