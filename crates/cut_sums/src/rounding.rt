// Quotients rounded up.
ghost use Rattle.std.specs.Prelude.{◌≡◌, ◌<◌, ◌+◌, ◌-◌, ◌/◌, ◌^◌, ◌<ℤ◌, pos, int_div, map, IfOk};
ghost use Rattle.bp_theory.specs.Sums.{round_up};
ghost use Rattle.bp_theory.specs.Cuts.{terms_of};
ghost use Rattle.bp_model.specs.Tidy.{as_term, nonzero};
ghost use Rattle.cut_sums.specs.Rounding.{round_entry};
ghost use Rattle.cut_sums.specs.Rows.{program_of, rows_in, sum_in, AreEntries, IsRows};

use crate::combine::combined;
use crate::rows::Rows;
use std::alloc::{AllocError, Global};
use std::collections::BTreeMap;

/// The coefficients of the sum of rows, each times its multiplier, divided by a number and rounded up, without zeros
/// and in order of variables. The multipliers are a cut's: whole numbers without a scale.
pub fn rounded(
    alloc: Global,
    rows: &Rows,
    mults: &[(u32, i64)],
    q: u32,
) -> Result<Vec<(u32, i128)>, AllocError>
    requires rows { IsRows rows.now }
    requires entries { AreEntries (program_of rows.now) (rows_in rows.now) mults.now }
    requires divisor { 0 < q }
    ensures { IfOk result (λ coefs. map as_term coefs.items ≡
        terms_of (program_of rows.now) (λ v. round_up (sum_in (rows_in rows.now) mults.now v) q)) }
{
    let sums = combined(alloc, rows, mults)?;
    let entries = entries_of(alloc, &sums)?;
    let all = round_each(alloc, entries.as_slice(), q)?;
    kept(alloc, all.as_slice())
}

// The entries of a map.
fn entries_of(alloc: Global, sums: &BTreeMap<u32, i128>) -> Result<Vec<(u32, i128)>, AllocError>
    ensures { IfOk result (λ entries. entries.items ≡ sums.now.entries) }
{
    sums.iter().map(|(var, sum)| (*var, *sum)).collect(alloc)
}

// The sums divided by a number and rounded up.
fn round_each(alloc: Global, sums: &[(u32, i128)], q: u32) -> Result<Vec<(u32, i128)>, AllocError>
    requires { 0 < q }
    ensures { IfOk result (λ all. all.items ≡ map (round_entry q) sums.now) }
{
    let mut all = Vec::with_capacity(alloc, sums.len())?;
    for sum in sums {
        all.push(round_entry(sum, q))?;
    }
    Ok(all)
}

// A sum divided by a number and rounded up.
fn round_entry(sum: &(u32, i128), q: u32) -> (u32, i128)
    requires { 0 < q }
    ensures { result ≡ round_entry q sum.now }
{
    (sum.0, round_up(&sum.1, q))
}

// The numbers that aren't 0.
fn kept(alloc: Global, sums: &[(u32, i128)]) -> Result<Vec<(u32, i128)>, AllocError>
    ensures { IfOk result (λ kept. kept.items ≡ nonzero sums.now) }
{
    sums.iter()
        .filter(|sum| sum.1 != 0)
        .map(|sum| *sum)
        .collect(alloc)
}

/// The least whole number not below `number / q`.
pub fn round_up(number: &i128, q: u32) -> i128
    requires { 0 < q }
    ensures { result ≡ round_up number.now q }
{
    if *number < 0 {
        quotient(number, i128::from(q))
    } else {
        quotient_up(number.unsigned_abs(), u128::from(q))
    }
}

// A quotient rounded up.
fn quotient_up(number: u128, q: u128) -> i128
    requires divisor { 0 < q }
    requires number { number < 2 ^ 127 }
    requires small { q < 2 ^ 32 }
    ensures { result ≡ pos ((number + (q - 1)) / q) }
{
    ((number + (q - 1)) / q) as i128
}

// A quotient rounded towards 0, which is up for a negative number.
fn quotient(number: &i128, q: i128) -> i128
    requires { pos 0 <ℤ q }
    ensures { result ≡ int_div number.now q }
{
    *number / q
}
