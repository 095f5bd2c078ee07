// Cuts that keep the rules, with their rows.
ghost use Rattle.std.specs.Prelude.{◌≡◌, ◌≤◌, ◌⊎◌, ◌++◌, ℕ, List, [], length, All, IfNone, IfOk, IfSome};
ghost use Rattle.bp_theory.specs.Decomposition.{Decomposition};
ghost use Rattle.bp_theory.specs.Program.{Program};
ghost use Rattle.bp_theory.specs.declared.Cut as cuts;
ghost use Rattle.block_program.specs.Cuts.{KeepsCuts};
ghost use Rattle.cut_sums.specs.Cutting.{IsEarlierCut};
ghost use Rattle.round_cut.specs.Several.{AreRowsOfCuts};
ghost use Rattle.round_cut.specs.Taken.{HasFirstOf, IsRefused, IsTaken};

use crate::{CutFault, cut_row, keeps_rules};
use block_program::Blocked;
use bp_theory::{Cut, Row};
use cut_sums::copies_of;
use std::alloc::{AllocError, Global};

/// How many cuts there may be.
pub const MOST_CUTS: usize = 256;

/// A program's cuts go on with the first of others in one way.
pub fn one_list()
    ensures { (p : Program) (d : Decomposition) (given others cs ds : List cuts.Cut) (most : ℕ) →
        HasFirstOf p d given others most cs → HasFirstOf p d given others most ds → cs ≡ ds }
{}

/// The row of a cut over a program's rows and those of earlier cuts, where there is room for it, the cut keeps the rules, its
/// signs fit and its sums keep the limit; none for any other cut. It fails for want of memory alone.
pub fn row_of_cut(
    alloc: Global,
    b: &Blocked,
    earlier: &[Row],
    cut: &Cut,
) -> Result<Option<Row>, AllocError>
    requires { All (IsEarlierCut b.now.named.program) earlier.now }
    ensures taken { IfOk result (λ found. IfSome found
        (IsTaken b.now.named.program b.now.dec earlier.now cut.now)) }
    ensures refused { IfOk result (λ found. IfNone found
        (IsRefused b.now.named.program b.now.dec earlier.now cut.now)) }
{
    if earlier.len() >= MOST_CUTS {
        return Ok(None);
    }
    if !keeps_rules(b, earlier, cut) {
        return Ok(None);
    }
    match cut_row(alloc, b, earlier, cut) {
        Ok(row) => Ok(Some(row)),
        Err(CutFault::NoMemory) => Err(AllocError),
        Err(CutFault::Sign) => Ok(None),
        Err(CutFault::Large) => Ok(None),
    }
}

/// The rows of cuts that a program may have; none for others.
pub fn rows_of_cuts(
    alloc: Global,
    b: &Blocked,
    cuts: &[Cut],
) -> Result<Option<Vec<Row>>, AllocError>
    ensures rows { IfOk result (λ found. IfSome found
        (λ rows. AreRowsOfCuts b.now.named.program b.now.dec cuts.now rows.items)) }
    ensures none { IfOk result (λ found. IfNone found
        (KeepsCuts b.now.named.program b.now.dec cuts.now → ⊥)) }
{
    let mut rows = Vec::new(alloc);
    for cut in cuts {
        let found = row_of_cut(alloc, b, rows.as_slice(), cut)?;
        match found {
            Some(row) => rows.push(row)?,
            None => return Ok(None),
        }
    }
    Ok(Some(rows))
}

/// Cuts, of which these are the rows, and behind them the first of others, in their order and as many as can be: until there
/// are so many in all, or the next is one that may not stand behind these. It fails for want of memory alone.
pub fn extended(
    alloc: Global,
    b: &Blocked,
    cuts: Vec<Cut>,
    rows: Vec<Row>,
    more: Vec<Cut>,
    most: u32,
) -> Result<Vec<Cut>, AllocError>
    requires { AreRowsOfCuts b.now.named.program b.now.dec cuts.items rows.items }
    ensures { IfOk result (λ all. HasFirstOf b.now.named.program b.now.dec cuts.items more.items most
        all.items) }
{
    let mut all = cuts;
    let mut rows = rows;
    for cut in more {
        if all.len() >= most as usize {
            return Ok(all);
        }
        let found = row_of_cut(alloc, b, rows.as_slice(), &cut)?;
        match found {
            Some(row) => {
                rows.push(row)?;
                all.push(cut)?;
            }
            None => return Ok(all),
        }
    }
    Ok(all)
}

/// A program's cuts, and behind them the first of others, in their order and as many as can be: until there are so many in all,
/// or the next is one that may not stand behind these. It is the program's alone where there are as many already. It fails for
/// want of memory alone.
pub fn with_others(
    alloc: Global,
    b: &Blocked,
    others: Vec<Cut>,
    most: u32,
) -> Result<Vec<Cut>, AllocError>
    ensures { IfOk result (λ cuts. HasFirstOf b.now.named.program b.now.dec b.now.cuts others.items most
        cuts.items) }
{
    let own = copies_of(alloc, b.cuts())?;
    if own.len() >= most as usize {
        return Ok(own);
    }
    let Some(rows) = rows_of_cuts(alloc, b, own.as_slice())? else {
        return Ok(own);
    };
    extended(alloc, b, own, rows, others, most)
}
