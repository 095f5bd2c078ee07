// The judgement of cuts' lines.
ghost use Rattle.std.specs.Prelude.{◌≡◌, [], ◌+◌, ◌<◌, ◌≤◌, ◌^◌, length, All, IfOk};
ghost use Rattle.bp_theory.specs.Decomposition.{proof_rows};
ghost use Rattle.bp_theory.specs.Limits.{most_cuts};
ghost use Rattle.cut_sums.specs.Cutting.{IsCutOver, IsEarlierCut};
ghost use Rattle.round_cut.specs.Several.{AreCutsOver};
ghost use Rattle.cert_line_check.specs.Cutting.{JudgesCut, JudgesCuts};

use crate::place::Rejection;
use block_program::Blocked;
use bp_theory::{CheckKind, Cut, Items, Row};
use round_cut::{CutFault, cut_row};
use std::alloc::{AllocError, Global};

/// Judges the line of a cut behind earlier ones, of which these are the rows: first its signs, then whether the sums of its
/// row keep the limit. Gives the cut's row.
pub fn judge_cut(
    alloc: Global,
    b: &Blocked,
    earlier: &[Row],
    cut: &Cut,
    line: u64,
) -> Result<Result<Row, Rejection>, AllocError>
    requires few { length earlier.now ≤ 255 }
    requires earlier { All (IsEarlierCut b.now.named.program) earlier.now }
    requires cut { IsCutOver (proof_rows b.now.named.program b.now.dec earlier.now) cut.now }
    ensures { IfOk result (JudgesCut b.now.named.program (proof_rows b.now.named.program b.now.dec
        earlier.now) cut.now line) }
{
    match cut_row(alloc, b, earlier, cut) {
        Ok(row) => Ok(Ok(row)),
        Err(CutFault::Sign) => Ok(Err(fault_at(line, CheckKind::Sign))),
        Err(CutFault::Large) => Ok(Err(fault_at(line, CheckKind::Cut))),
        Err(CutFault::NoMemory) => Err(AllocError),
    }
}

// A line at fault.
fn fault_at(line: u64, kind: CheckKind) -> Rejection
    ensures { result ≡ record { line = line; kind = kind } }
{
    Rejection { line, kind }
}

/// Judges the lines of cuts in order, of which the first has a number: gives the rows of the cuts.
pub fn judge_cuts(
    alloc: Global,
    b: &Blocked,
    cuts: &[Cut],
    first: u64,
) -> Result<Result<Items<Row>, Rejection>, AllocError>
    requires few { length cuts.now ≤ most_cuts }
    requires cuts { AreCutsOver b.now.named.program b.now.dec [] cuts.now }
    requires lines { first + length cuts.now < 2 ^ 64 }
    ensures { IfOk result (JudgesCuts b.now.named.program b.now.dec cuts.now first) }
{
    let mut rows = Vec::new(alloc);
    let mut line = first;
    for cut in cuts {
        match judge_cut(alloc, b, rows.as_slice(), cut, line)? {
            Err(found) => return Ok(Err(found)),
            Ok(row) => rows.push(row)?,
        }
        line += 1;
    }
    Ok(Ok(Items::from_vec(rows)))
}
