// Programs in blocks with cuts.
ghost use Rattle.std.specs.Prelude.{◌≡◌, ◌≤◌, [], length, IfErr, IfOk};
ghost use Rattle.bp_theory.specs.Limits.{most_cuts};
ghost use Rattle.block_program.specs.Blocked.{IsFormed};
ghost use Rattle.round_cut.specs.Several.{AreCutsOver, AreRowsOfCuts, HasCutsFault};

use crate::cut::cut_row;
use block_form::recut;
use block_program::Blocked;
use bp_theory::{Cut, Items, Row};
use cut_sums::{CutFault, copies_of};
use std::alloc::{AllocError, Global};

/// The program in blocks of the same model and decomposition that has these cuts in place of its own; there are at most 256,
/// and each keeps the rules over the rows of those before it. The fault is that of the first cut at fault.
pub fn with_cuts(alloc: Global, b: &Blocked, cuts: &[Cut]) -> Result<Blocked, CutFault>
    requires few { length cuts.now ≤ most_cuts }
    requires rules { AreCutsOver b.now.named.program b.now.dec [] cuts.now }
    ensures model { IfOk result (λ other. other.named ≡ b.now.named) }
    ensures dec { IfOk result (λ other. other.dec ≡ b.now.dec) }
    ensures cuts { IfOk result (λ other. other.cuts ≡ cuts.now) }
    ensures formed { IfOk result IsFormed }
    ensures fault { IfErr result (HasCutsFault b.now.named.program b.now.dec cuts.now) }
{
    match rows_of(alloc, b, cuts) {
        Err(fault) => Err(fault),
        Ok(rows) => match cut_again(alloc, b, cuts, rows.as_slice()) {
            Err(_) => Err(CutFault::NoMemory),
            Ok(other) => Ok(other),
        },
    }
}

// The program with copies of cuts, of which these are the rows.
fn cut_again(alloc: Global, b: &Blocked, cuts: &[Cut], rows: &[Row]) -> Result<Blocked, AllocError>
    requires { AreRowsOfCuts b.now.named.program b.now.dec cuts.now rows.now }
    ensures model { IfOk result (λ other. other.named ≡ b.now.named) }
    ensures dec { IfOk result (λ other. other.dec ≡ b.now.dec) }
    ensures cuts { IfOk result (λ other. other.cuts ≡ cuts.now) }
    ensures formed { IfOk result IsFormed }
{
    let copies = copies_of(alloc, cuts)?;
    recut(alloc, b, Items::from_vec(copies), rows)
}

// The rows of cuts.
fn rows_of(alloc: Global, b: &Blocked, cuts: &[Cut]) -> Result<Vec<Row>, CutFault>
    requires few { length cuts.now ≤ most_cuts }
    requires rules { AreCutsOver b.now.named.program b.now.dec [] cuts.now }
    ensures rows { IfOk result (λ rows. AreRowsOfCuts b.now.named.program b.now.dec cuts.now rows.items) }
    ensures fault { IfErr result (HasCutsFault b.now.named.program b.now.dec cuts.now) }
{
    let mut rows = Vec::new(alloc);
    for cut in cuts {
        match cut_row(alloc, b, rows.as_slice(), cut) {
            Err(fault) => return Err(fault),
            Ok(row) => {
                if rows.push(row).is_err() {
                    return Err(CutFault::NoMemory);
                }
            }
        }
    }
    Ok(rows)
}
