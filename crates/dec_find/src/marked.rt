// Decompositions beside marked rows.
ghost use Rattle.std.specs.Prelude.{◌≡◌, ◌≤◌, ◌<◌, All, IfOk, IfSome, IfNone, length};
ghost use Rattle.bp_theory.specs.Limits.{most_blocks};
ghost use Rattle.dec_components.specs.Joined.{IsFound, HasTooMany};
ghost use Rattle.dec_find.specs.Guess.{IsFoundOrPlain, IsGuess, marked_rows};

use crate::{FindFault, find};
use bp_model::{Dec, Model};
use std::alloc::{AllocError, Global};

/// The decomposition of a model whose master rows are those that are marked, by their numbers; rows past the last mark
/// are not. There is none where it has more blocks than the model's limits allow.
pub fn beside(alloc: Global, m: &Model, marks: &[bool]) -> Result<Option<Dec>, AllocError>
    ensures found { IfOk result (λ found. IfSome found
        (IsFound m.now.program (marked_rows m.now.program marks.now))) }
    ensures few { IfOk result (λ found. IfSome found (λ dec. dec.blocks ≤ most_blocks m.now.program.limits)) }
    ensures many { IfOk result (λ found. IfNone found
        (HasTooMany m.now.program (marked_rows m.now.program marks.now))) }
{
    let master = numbers_of(alloc, m, marks)?;
    match find(alloc, m, master.as_slice()) {
        Ok(dec) => Ok(Some(dec)),
        Err(FindFault::Blocks) => Ok(None),
        Err(FindFault::NoMemory) => Err(AllocError),
    }
}

/// The decomposition of a model whose master rows are those that are marked, or where that has more blocks than the model's
/// limits allow the one with every row a master row.
pub fn beside_or_plain(alloc: Global, m: &Model, marks: &[bool]) -> Result<Dec, AllocError>
    ensures found { IfOk result
        (IsFoundOrPlain m.now.program (marked_rows m.now.program marks.now)) }
    ensures guess { IfOk result (IsGuess m.now.program) }
    ensures few { IfOk result (λ dec. dec.blocks ≤ most_blocks m.now.program.limits) }
{
    let found = beside(alloc, m, marks)?;
    match found {
        Some(dec) => Ok(dec),
        None => Dec::plain(alloc, m),
    }
}

// The numbers of the rows that are marked.
fn numbers_of(alloc: Global, m: &Model, marks: &[bool]) -> Result<Vec<u32>, AllocError>
    ensures marked { IfOk result (λ rows. rows.items ≡ marked_rows m.now.program marks.now) }
    ensures below { IfOk result (λ rows. All (λ r. r < length m.now.program.rows) rows.items) }
{
    let mut rows = Vec::new(alloc);
    for row in 0..m.rows() {
        if !marks.get(row as usize).copied().unwrap_or(false) {
            continue;
        }
        rows.push(row)?;
    }
    Ok(rows)
}
