// Sums of rows, each times its multiplier, by variable.
ghost use Rattle.std.specs.Prelude.{◌≡◌, ℕ, ◌≤◌, ◌<◌, ◌^◌, ◌+ℤ◌, ◌*ℤ◌, pos, unsigned_abs, unwrap_or, IfOk, OnOk};
ghost use Rattle.std.specs.BTreeMap.{get, IsOrdered};
ghost use Rattle.std.specs.Ordering.{nat_cmp};
ghost use Rattle.bp_theory.specs.Limits.{greatest_divisor};
ghost use Rattle.bp_theory.specs.Program.{coefficient};
ghost use Rattle.cut_sums.specs.Rows.{program_of, rows_in, sum_in, AreEntries, IsRows, IsSmall};

use crate::rows::Rows;
use bp_theory::Term;
use std::alloc::{AllocError, Global};
use std::collections::BTreeMap;

/// The coefficients of the sum of rows, each times its multiplier, by variable. The multipliers are a cut's: whole
/// numbers without a scale.
pub fn combined(
    alloc: Global,
    rows: &Rows,
    mults: &[(u32, i64)],
) -> Result<BTreeMap<u32, i128>, AllocError>
    requires rows { IsRows rows.now }
    requires entries { AreEntries (program_of rows.now) (rows_in rows.now) mults.now }
    ensures sums { IfOk result (λ sums. (v : ℕ) → unwrap_or (get nat_cmp sums v) (pos 0) ≡
        sum_in (rows_in rows.now) mults.now v) }
    ensures ordered { IfOk result (IsOrdered nat_cmp) }
{
    let mut sums = BTreeMap::new(alloc);
    for mult in mults {
        let row = rows.at(mult.0);
        add_terms(&mut sums, row.terms.as_slice(), &mult.1)?;
    }
    Ok(sums)
}

// Adds terms times a multiplier to sums by variable.
fn add_terms(sums: &mut BTreeMap<u32, i128>, terms: &[Term], mult: &i64) -> Result<(), AllocError>
    requires ordered { IsOrdered nat_cmp sums.old }
    requires small { (v : ℕ) → unsigned_abs (unwrap_or (get nat_cmp sums.old v) (pos 0)) ≤ 2 ^ 116 }
    requires terms { IsSmall terms.now }
    requires mult { unsigned_abs mult.now ≤ greatest_divisor }
    ensures sums { OnOk result ((v : ℕ) → unwrap_or (get nat_cmp sums.new v) (pos 0) ≡
        unwrap_or (get nat_cmp sums.old v) (pos 0) +ℤ mult.now *ℤ coefficient terms.now v) }
    ensures ordered { OnOk result (IsOrdered nat_cmp sums.new) }
{
    for term in terms {
        let had = sum_at(sums, term.var);
        let sum = more(&had, term, mult);
        sums.insert(term.var, sum)?;
    }
    Ok(())
}

// The sum of a variable so far.
fn sum_at(sums: &BTreeMap<u32, i128>, var: u32) -> i128
    ensures { result ≡ unwrap_or (get nat_cmp sums.now var) (pos 0) }
{
    sums.get(&var).copied().unwrap_or(0)
}

// A sum and a term times a multiplier more.
fn more(had: &i128, term: &Term, mult: &i64) -> i128
    requires had { unsigned_abs had.now ≤ 2 ^ 120 }
    ensures { result ≡ had.now +ℤ mult.now *ℤ term.now.coef }
{
    *had + product(mult, &term.coef)
}

// The product of two numbers.
fn product(a: &i64, b: &i64) -> i128
    ensures value { result ≡ a.now *ℤ b.now }
    ensures size { unsigned_abs result ≤ 2 ^ 126 }
{
    i128::from(*a) * i128::from(*b)
}
