// Which cuts keep the rules.
ghost use Rattle.std.specs.Prelude.{◌≡◌, ◌≢◌, ◌≤◌, ◌↔◌, length, map, pos, unsigned_abs, All, IsTrue};
ghost use Rattle.std.specs.List.Sorted.{IsStrictlyIncreasing};
ghost use Rattle.bp_theory.specs.Limits.{greatest_divisor};
ghost use Rattle.bp_theory.specs.Decomposition.{proof_rows};
ghost use Rattle.cut_sums.specs.Cutting.{IsCutOver, IsEarlierCut, IsWhole};
ghost use Rattle.cut_sums.specs.Rows.{row_in, rows_in, IsRows};

use block_program::Blocked;
use bp_theory::{Cut, Row};
use cut_sums::{MAX_DIVISOR, Rows};

/// Whether a cut has a divisor, keeps the limits, and combines master rows and earlier cuts alone, each once and in order.
pub fn keeps_rules(b: &Blocked, earlier: &[Row], cut: &Cut) -> bool
    requires few { length earlier.now ≤ 255 }
    requires earlier { All (IsEarlierCut b.now.named.program) earlier.now }
    ensures { IsTrue result ↔
        IsCutOver (proof_rows b.now.named.program b.now.dec earlier.now) cut.now }
{
    let rows = Rows::make(b, earlier);
    if cut.q == 0 {
        return false;
    }
    if cut.q > MAX_DIVISOR {
        return false;
    }
    let mults = cut.rows.as_slice();
    if !are_small(mults) {
        return false;
    }
    if !are_nonzero(mults) {
        return false;
    }
    if !ascend(mults) {
        return false;
    }
    are_whole(&rows, mults)
}

// Whether each multiplier keeps the limit.
fn are_small(mults: &[(u32, i64)]) -> bool
    ensures { IsTrue result ↔ All (λ m. unsigned_abs m.1 ≤ greatest_divisor) mults.now }
{
    mults.iter().all(is_small)
}

// Whether a multiplier keeps the limit.
fn is_small(mult: &(u32, i64)) -> bool
    ensures { IsTrue result ↔ (unsigned_abs mult.now.1 ≤ greatest_divisor) }
{
    mult.1.unsigned_abs() <= u64::from(MAX_DIVISOR)
}

// Whether no multiplier is 0.
fn are_nonzero(mults: &[(u32, i64)]) -> bool
    ensures { IsTrue result ↔ All (λ m. m.1 ≢ pos 0) mults.now }
{
    mults.iter().all(is_nonzero)
}

// Whether a multiplier isn't 0.
fn is_nonzero(mult: &(u32, i64)) -> bool
    ensures { IsTrue result ↔ (mult.now.1 ≢ pos 0) }
{
    mult.1 != 0
}

// Whether the multipliers' rows ascend.
fn ascend(mults: &[(u32, i64)]) -> bool
    ensures { IsTrue result ↔ IsStrictlyIncreasing (map (λ m. m.0) mults.now) }
{
    for i in 1..mults.len() {
        if mults[i].0 <= mults[i - 1].0 {
            return false;
        }
    }
    true
}

// Whether each multiplier is that of a master row or of an earlier cut.
fn are_whole(rows: &Rows, mults: &[(u32, i64)]) -> bool
    requires { IsRows rows.now }
    ensures { IsTrue result ↔ All (λ m. IsWhole (row_in rows.now m.0)) mults.now }
{
    for mult in mults {
        if !rows.has(mult.0) {
            return false;
        }
    }
    true
}
