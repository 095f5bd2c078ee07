// Which proofs fit a program in blocks, and whether their signs fit.
ghost use Rattle.std.specs.Prelude.{◌≡◌, ◌≢◌, ◌↔◌, ◌<◌, ◌≤◌, ◌^◌, length, map, All, IsTrue, IsSome, unsigned_abs, pos, ℕ, ℤ};
ghost use Rattle.std.specs.List.Sorted.{IsStrictlyIncreasing};
ghost use Rattle.bp_theory.specs.Blocking.{row_at};
ghost use Rattle.bp_theory.specs.Bound.{ArePicked, Fits, SignFits, SignsFit};
ghost use Rattle.block_program.specs.Fitting.{FitRows};

use crate::Blocked;
use bp_theory::{MasterRow, Picked, Proof, Sense};

/// The greatest scale of a proof.
pub const MAX_SCALE: u32 = 1 << 20;

/// The greatest magnitude of a multiplier.
pub const MAX_MULTIPLIER: u64 = 1 << 40;

/// Whether a proof keeps the limits and names master rows and blocks that are there, each once and in order: its scale
/// is at most 1,048,576, and its multipliers, which are whole numbers at that scale, are not 0 and at most 2^40 in
/// size.
pub fn fits(b: &Blocked, proof: &Proof) -> bool
    ensures { IsTrue result ↔ Fits b.now.blocking proof.now }
{
    if proof.scale > MAX_SCALE {
        return false;
    }
    if !rows_fit(b, proof.mults.as_slice()) {
        return false;
    }
    are_picked(b.blocks() as usize, &proof.picked)
}

/// Whether each multiplier is that of a master row, and its sign fits: at least rows have positive multipliers, at most
/// rows negative ones, and other rows either.
pub fn signs_fit(b: &Blocked, proof: &Proof) -> bool
    ensures { IsTrue result ↔ SignsFit b.now.blocking proof.now }
{
    proof.mults.as_slice().iter().all(|m| multiplier_fits(b, m))
}

// Whether a multiplier is that of a master row, and its sign fits.
fn multiplier_fits(b: &Blocked, mult: &(u32, i64)) -> bool
    ensures { IsTrue result ↔ SignFits (row_at b.now.blocking mult.now.0) mult.now.1 }
{
    sign_fits(b.master_row(mult.0), mult.1)
}

// Whether a multiplier's sign fits a row.
fn sign_fits(row: Option<MasterRow>, mult: i64) -> bool
    ensures { IsTrue result ↔ SignFits row mult }
{
    match row {
        None => false,
        Some(row) => match row.sense {
            Sense::Le => mult < 0,
            Sense::Ge => mult > 0,
            Sense::Eq => true,
            Sense::In => true,
        },
    }
}

// Whether multipliers keep the limit, aren't 0, and name master rows, each once and in order.
fn rows_fit(b: &Blocked, mults: &[(u32, i64)]) -> bool
    ensures { IsTrue result ↔ FitRows b.now.blocking mults.now }
{
    if !are_small(mults) {
        return false;
    }
    if !are_nonzero(mults) {
        return false;
    }
    if !are_of_master_rows(b, mults) {
        return false;
    }
    ascend(mults)
}

// Whether each multiplier keeps the limit.
fn are_small(mults: &[(u32, i64)]) -> bool
    ensures { IsTrue result ↔ All (λ m. unsigned_abs m.1 ≤ 2 ^ 40) mults.now }
{
    mults.iter().all(is_small)
}

// Whether a multiplier keeps the limit.
fn is_small(mult: &(u32, i64)) -> bool
    ensures { IsTrue result ↔ (unsigned_abs mult.now.1 ≤ 2 ^ 40) }
{
    mult.1.unsigned_abs() <= MAX_MULTIPLIER
}

// Whether no multiplier is 0.
fn are_nonzero(mults: &[(u32, i64)]) -> bool
    ensures { IsTrue result ↔ All (λ m. m.1 ≢ pos 0) mults.now }
{
    mults.iter().all(is_nonzero)
}

// Whether a multiplier isn't 0.
fn is_nonzero(mult: &(u32, i64)) -> bool
    ensures { IsTrue result ↔ (mult.now.1 ≢ pos 0) }
{
    mult.1 != 0
}

// Whether each multiplier is that of a master row.
fn are_of_master_rows(b: &Blocked, mults: &[(u32, i64)]) -> bool
    ensures { IsTrue result ↔ All (λ m. IsSome (row_at b.now.blocking m.0)) mults.now }
{
    mults.iter().all(|m| is_of_master_row(b, m))
}

// Whether a multiplier is that of a master row.
fn is_of_master_row(b: &Blocked, mult: &(u32, i64)) -> bool
    ensures { IsTrue result ↔ IsSome (row_at b.now.blocking mult.now.0) }
{
    b.master_row(mult.0).is_some()
}

// Whether the multipliers' rows ascend.
fn ascend(mults: &[(u32, i64)]) -> bool
    ensures { IsTrue result ↔ IsStrictlyIncreasing (map (λ m. m.0) mults.now) }
{
    for i in 1..mults.len() {
        if mults[i].0 <= mults[i - 1].0 {
            return false;
        }
    }
    true
}

// Whether picked blocks ascend and are there.
fn are_picked(blocks: usize, picked: &Picked) -> bool
    ensures { IsTrue result ↔ ArePicked blocks picked.now }
{
    match picked {
        Picked::Every => true,
        Picked::These(numbers) => rise(numbers.as_slice()) && are_there(blocks, numbers.as_slice()),
    }
}

// Whether numbers rise.
fn rise(numbers: &[u32]) -> bool
    ensures { IsTrue result ↔ IsStrictlyIncreasing numbers.now }
{
    for i in 1..numbers.len() {
        if numbers[i] <= numbers[i - 1] {
            return false;
        }
    }
    true
}

// Whether numbers are those of blocks that are there.
fn are_there(blocks: usize, numbers: &[u32]) -> bool
    ensures { IsTrue result ↔ All (λ k. k < blocks) numbers.now }
{
    numbers.iter().all(|k| (*k as usize) < blocks)
}
