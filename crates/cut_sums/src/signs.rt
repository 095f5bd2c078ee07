// Whether the signs of multipliers fit their rows.
ghost use Rattle.std.specs.Prelude.{◌↔◌, All, IsTrue};
ghost use Rattle.bp_theory.specs.Bound.{SignFitsSense};
ghost use Rattle.bp_theory.specs.Cuts.{CombinesWell};
ghost use Rattle.cut_sums.specs.Rows.{program_of, row_in, rows_in, AreEntries, IsRows};

use crate::rows::Rows;
use bp_theory::Sense;

/// Whether each multiplier's sign fits its row: at least rows have positive ones, at most rows negative ones, and other rows
/// either.
pub fn signs_fit(rows: &Rows, mults: &[(u32, i64)]) -> bool
    requires rows { IsRows rows.now }
    requires entries { AreEntries (program_of rows.now) (rows_in rows.now) mults.now }
    ensures { IsTrue result ↔ All (λ m. CombinesWell (row_in rows.now m.0) m.1) mults.now }
{
    for mult in mults {
        let row = rows.at(mult.0);
        if !sign_fits(&row.sense, &mult.1) {
            return false;
        }
    }
    true
}

// Whether a multiplier's sign fits a row of a sense.
fn sign_fits(sense: &Sense, mult: &i64) -> bool
    ensures { IsTrue result ↔ SignFitsSense sense.now mult.now }
{
    match sense {
        Sense::Le => *mult < 0,
        Sense::Ge => *mult > 0,
        Sense::Eq => true,
        Sense::In => true,
    }
}
