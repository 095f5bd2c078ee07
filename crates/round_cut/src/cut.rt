// The row of a cut.
ghost use Rattle.std.specs.Prelude.{◌≡◌, ◌≤◌, ℤ, List, length, All, IfErr, IfOk};
ghost use Rattle.bp_theory.specs.Program.{IsFeasible, MeetsRow};
ghost use Rattle.bp_theory.specs.Decomposition.{proof_rows};
ghost use Rattle.bp_theory.specs.Cuts.{cut_row};
ghost use Rattle.cut_sums.specs.Cutting.{HasCutFault, HasFittingSigns, IsCutOver, IsEarlierCut};
ghost use Rattle.cut_sums.specs.Rows.{program_of, rows_in, IsRows};

use block_program::Blocked;
use bp_theory::{Cut, Row};
use cut_sums::{CutFault, Rows, bounded_row, demand, round_up, rounded, signs_fit};
use std::alloc::Global;

/// The row of a cut of a program in blocks, over its master rows and the rows of earlier cuts, of which there are at most 255;
/// the first of them is numbered behind the link rows. Each feasible point that meets the earlier cuts meets it.
/// Refused are a sign that doesn't fit its row, and else a row whose sums may leave 62 bits.
pub fn cut_row(alloc: Global, b: &Blocked, earlier: &[Row], cut: &Cut) -> Result<Row, CutFault>
    requires few { length earlier.now ≤ 255 }
    requires earlier { All (IsEarlierCut b.now.named.program) earlier.now }
    requires cut { IsCutOver (proof_rows b.now.named.program b.now.dec earlier.now) cut.now }
    ensures row { IfOk result (λ row. row ≡ cut_row b.now.named.program
        (proof_rows b.now.named.program b.now.dec earlier.now) cut.now) }
    ensures signs { IfOk result (λ row. HasFittingSigns
        (proof_rows b.now.named.program b.now.dec earlier.now) cut.now) }
    ensures kept { IfOk result (IsEarlierCut b.now.named.program) }
    ensures met { IfOk result (λ row. (x : List ℤ) → IsFeasible b.now.named.program x →
        All (MeetsRow x) earlier.now → MeetsRow x row) }
    ensures fault { IfErr result (HasCutFault b.now.named.program
        (proof_rows b.now.named.program b.now.dec earlier.now) cut.now) }
{
    let rows = Rows::make(b, earlier);
    row_over(alloc, &rows, cut)
}

/// The row of a cut over these rows.
pub fn row_over(alloc: Global, rows: &Rows, cut: &Cut) -> Result<Row, CutFault>
    requires rows { IsRows rows.now }
    requires cut { IsCutOver (rows_in rows.now) cut.now }
    ensures row { IfOk result (λ row. row ≡ cut_row (program_of rows.now) (rows_in rows.now) cut.now) }
    ensures signs { IfOk result (λ row. HasFittingSigns (rows_in rows.now) cut.now) }
    ensures kept { IfOk result (IsEarlierCut (program_of rows.now)) }
    ensures met { IfOk result (λ row. (x : List ℤ) → IsFeasible (program_of rows.now) x →
        All (MeetsRow x) rows.now.earlier.now → MeetsRow x row) }
    ensures fault { IfErr result (HasCutFault (program_of rows.now) (rows_in rows.now) cut.now) }
{
    let mults = cut.rows.as_slice();
    if !signs_fit(rows, mults) {
        return Err(CutFault::Sign);
    }
    let Ok(coefs) = rounded(alloc, rows, mults, cut.q) else {
        return Err(CutFault::NoMemory);
    };
    let above = round_up(&demand(rows, mults), cut.q);
    bounded_row(alloc, rows, &above, coefs.as_slice())
}
