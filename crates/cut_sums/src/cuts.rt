// Cuts of one row, and copies of cuts.
ghost use Rattle.std.specs.Prelude.{◌≡◌, [], ◌∷◌, IfOk};

use bp_theory::{Cut, Items};
use std::alloc::{AllocError, Global};

/// The cut of one row and its multiplier, a whole number, by a divisor.
pub fn lone_cut(alloc: Global, q: u32, mult: &(u32, i64)) -> Result<Cut, AllocError>
    ensures divisor { IfOk result (λ cut. cut.q ≡ q) }
    ensures rows { IfOk result (λ cut. cut.rows ≡ mult.now ∷ []) }
{
    let mut rows = Items::with_capacity(alloc, 1)?;
    rows.push(*mult)?;
    Ok(Cut { q, rows })
}

/// Copies of cuts.
pub fn copies_of(alloc: Global, cuts: &[Cut]) -> Result<Vec<Cut>, AllocError>
    ensures { IfOk result (λ copies. copies.items ≡ cuts.now) }
{
    let mut copies = Vec::with_capacity(alloc, cuts.len())?;
    for cut in cuts {
        let copy = copy_of(alloc, cut)?;
        copies.push(copy)?;
    }
    Ok(copies)
}

// A copy of a cut.
fn copy_of(alloc: Global, cut: &Cut) -> Result<Cut, AllocError>
    ensures { IfOk result (λ copy. copy ≡ cut.now) }
{
    let rows = cut.rows.as_slice().to_vec(alloc)?;
    Ok(Cut {
        q: cut.q,
        rows: Items::from_vec(rows),
    })
}
