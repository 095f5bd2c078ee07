// Which cuts a program gets.
ghost use Rattle.std.specs.Prelude.{IfOk};
ghost use Rattle.round_cut.specs.Taken.{GoesOn};

use crate::by_columns::{may_serve, search_by_columns};
use crate::search::search_cuts;
use block_program::Blocked;
use bp_theory::Cut;
use round_cut::{MOST_CUTS, rows_of_cuts, with_others};
use std::alloc::{AllocError, Global};

/// The cuts of a program in blocks, and behind these what the search finds, so many in all at most; its own alone
/// where it has as many. The program may have them in place of its own.
pub fn choose(alloc: Global, b: &Blocked, most: u32) -> Result<Vec<Cut>, AllocError>
    ensures { IfOk result (λ cuts. GoesOn b.now.named.program b.now.dec b.now.cuts most cuts.items) }
{
    let found = searched(alloc, b, most)?;
    with_others(alloc, b, found, most)
}

// What the search finds behind a program's cuts, where there may be more.
fn searched(alloc: Global, b: &Blocked, most: u32) -> Result<Vec<Cut>, AllocError> {
    if b.cuts().len() >= most as usize {
        return Ok(Vec::new(alloc));
    }
    if is_rowless(b) {
        return search_by_rows(alloc, b, most);
    }
    if may_serve(b) {
        search_by_columns(alloc, b, most)
    } else {
        Ok(Vec::new(alloc))
    }
}

// What the search by the relaxation of a program's rows finds behind its cuts.
fn search_by_rows(alloc: Global, b: &Blocked, most: u32) -> Result<Vec<Cut>, AllocError> {
    let Some(rows) = rows_of_cuts(alloc, b, b.cuts())? else {
        return Ok(Vec::new(alloc));
    };
    search_cuts(alloc, b, rows, (most as usize).min(MOST_CUTS))
}

// Whether no block of a program has rows.
fn is_rowless(b: &Blocked) -> bool {
    for number in 0..b.blocks() {
        if !b.block(number).rows().is_empty() {
            return false;
        }
    }
    true
}
