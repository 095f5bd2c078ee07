// The plain cuts of a program in blocks.
ghost use Rattle.std.specs.Prelude.{◌≡◌, ◌≢◌, ◌+◌, ◌*◌, [], IfOk, None, OnOk};
ghost use Rattle.cut_sums.specs.declared.fault.CutFault.TheVariants.{NoMemory};
ghost use Rattle.cut_sums.specs.Plain.{AreFirstPlain};
ghost use Rattle.cut_sums.specs.PlainSteps.{rank_of, AreFirstBelow, IsPlainOf, IsUnit, SharpensRow};
ghost use Rattle.cut_sums.specs.Rows.{program_of, row_in, IsRows};

use crate::cut::row_over;
use block_program::Blocked;
use bp_theory::Cut;
use cut_sums::{CutFault, Rows, lone_cut, sharpening};
use std::alloc::{AllocError, Global};

/// The first plain cuts of a program in blocks, at most so many, in their order. A master row gives some where the greatest
/// common divisor of its coefficients is 2 to 2^20 and doesn't divide a side: it is divided by it, once as it stands and once
/// turned round, where the sign fits and the row's sums keep the limit.
pub fn first_cuts(alloc: Global, b: &Blocked, most: u32) -> Result<Vec<Cut>, AllocError>
    ensures { IfOk result (λ cuts. AreFirstPlain b.now.named.program b.now.dec most cuts.items) }
{
    let earlier = Vec::new(alloc);
    let rows = Rows::make(b, earlier.as_slice());
    cuts_below(alloc, &rows, b.model().rows(), most)
}

// The first plain cuts of the first rows.
fn cuts_below(alloc: Global, rows: &Rows, end: u32, most: u32) -> Result<Vec<Cut>, AllocError>
    requires rows { IsRows rows.now }
    requires none { rows.now.earlier.now ≡ [] }
    ensures { IfOk result (λ cuts. AreFirstBelow (program_of rows.now) rows.now.b.now.dec most (2 * end)
        cuts.items) }
{
    let mut cuts = Vec::new(alloc);
    for number in 0..end {
        add_plain(alloc, rows, number, most, &mut cuts)?;
    }
    Ok(cuts)
}

// Adds the plain cuts of a row, where it is a master row, while there is room.
fn add_plain(
    alloc: Global,
    rows: &Rows,
    number: u32,
    most: u32,
    cuts: &mut Vec<Cut>,
) -> Result<(), AllocError>
    requires rows { IsRows rows.now }
    requires none { rows.now.earlier.now ≡ [] }
    requires first { AreFirstBelow (program_of rows.now) rows.now.b.now.dec most (2 * number)
        cuts.old.items }
    ensures { OnOk result (AreFirstBelow (program_of rows.now) rows.now.b.now.dec most
        (2 * number + 2) cuts.new.items) }
{
    if !rows.has(number) {
        return Ok(());
    }
    match sharpening(rows.at(number)) {
        None => Ok(()),
        Some(q) => add_both(alloc, rows, number, q, most, cuts),
    }
}

// Adds the plain cuts of a master row and its divisor while there is room.
fn add_both(
    alloc: Global,
    rows: &Rows,
    number: u32,
    q: u32,
    most: u32,
    cuts: &mut Vec<Cut>,
) -> Result<(), AllocError>
    requires rows { IsRows rows.now }
    requires none { rows.now.earlier.now ≡ [] }
    requires sharp { SharpensRow (row_in rows.now number) q }
    requires first { AreFirstBelow (program_of rows.now) rows.now.b.now.dec most (2 * number)
        cuts.old.items }
    ensures { OnOk result (AreFirstBelow (program_of rows.now) rows.now.b.now.dec most
        (2 * number + 2) cuts.new.items) }
{
    add_cut(alloc, rows, &(number, 1), q, most, cuts)?;
    add_cut(alloc, rows, &(number, -1), q, most, cuts)
}

// Adds the plain cut of a row and a multiplier, where there is one and room for it.
fn add_cut(
    alloc: Global,
    rows: &Rows,
    mult: &(u32, i64),
    q: u32,
    most: u32,
    cuts: &mut Vec<Cut>,
) -> Result<(), AllocError>
    requires rows { IsRows rows.now }
    requires none { rows.now.earlier.now ≡ [] }
    requires sharp { SharpensRow (row_in rows.now mult.now.0) q }
    requires unit { IsUnit mult.now.1 }
    requires first { AreFirstBelow (program_of rows.now) rows.now.b.now.dec most (rank_of mult.now)
        cuts.old.items }
    ensures { OnOk result (AreFirstBelow (program_of rows.now) rows.now.b.now.dec most
        (rank_of mult.now + 1) cuts.new.items) }
{
    if cuts.len() >= most as usize {
        return Ok(());
    }
    let found = plain_cut(alloc, rows, mult, q)?;
    match found {
        None => Ok(()),
        Some(cut) => {
            cuts.push(cut)?;
            Ok(())
        }
    }
}

// The cut of a row and a multiplier, where its sign fits and its row's sums keep the limit.
fn plain_cut(
    alloc: Global,
    rows: &Rows,
    mult: &(u32, i64),
    q: u32,
) -> Result<Option<Cut>, AllocError>
    requires rows { IsRows rows.now }
    requires none { rows.now.earlier.now ≡ [] }
    requires sharp { SharpensRow (row_in rows.now mult.now.0) q }
    requires unit { IsUnit mult.now.1 }
    ensures { IfOk result (IsPlainOf (program_of rows.now) rows.now.b.now.dec mult.now) }
{
    let cut = lone_cut(alloc, q, mult)?;
    match row_over(alloc, rows, &cut) {
        Ok(_) => Ok(Some(cut)),
        Err(fault) => none_for(fault),
    }
}

// No cut where it is refused, or want of memory.
fn none_for(fault: CutFault) -> Result<Option<Cut>, AllocError>
    ensures { IfOk result (λ found. (found ≡ None) × (fault ≢ NoMemory)) }
{
    match fault {
        CutFault::Sign => Ok(None),
        CutFault::Large => Ok(None),
        CutFault::NoMemory => Err(AllocError),
    }
}
