// What an answer may say, whatever is proposed.
ghost use Rattle.std.specs.Prelude.{◌≡◌, ◌⊎◌, ℕ, ◌<◌, ◌≤◌, ◌^◌, pos, length, All, IfOk, slice_index, unsigned_abs, vec_len};
ghost use Rattle.bp_theory.specs.Bound.{SignFitsSense};
ghost use Rattle.search_laws.specs.declared.Column.{Column as AColumn};
ghost use Rattle.master_gap.specs.Ranges.{AreWeights, AreMultipliers};

use bp_theory::{MasterRow, Sense};
use search_laws::Column;
use std::alloc::{AllocError, Global};

// The greatest weight, and the greatest of a class.
const MOST_WEIGHT: u64 = 1 << 33;

// The greatest magnitude of a multiplier.
const MOST_MULTIPLIER: i64 = 1 << 40;

// A proposed multiplier as a row may have it.
fn fitting(sense: &Sense, proposed: &i64) -> i64
    ensures small { unsigned_abs result ≤ 2 ^ 40 }
    ensures sign { (result ≡ pos 0) ⊎ SignFitsSense sense.now result }
{
    let (least, most) = match sense {
        Sense::Le => (-MOST_MULTIPLIER, 0),
        Sense::Ge => (0, MOST_MULTIPLIER),
        Sense::Eq => (-MOST_MULTIPLIER, MOST_MULTIPLIER),
        Sense::In => (-MOST_MULTIPLIER, MOST_MULTIPLIER),
    };
    let number = *proposed;
    number.max(least).min(most)
}

/// Proposed multipliers as rows may have them, 0 where none is proposed: of the row's sign, and up to 2^40 in size.
/// They are in units of 2^-20.
pub fn clipped_multipliers(
    alloc: Global,
    rows: &[MasterRow],
    proposed: &[i64],
) -> Result<Vec<i64>, AllocError>
    ensures { IfOk result (λ v. AreMultipliers rows.now v.items) }
{
    let mut mults = Vec::new(alloc);
    for i in 0..rows.len() {
        let number = number_at(proposed, i);
        mults.push(fitting(&rows[i].sense, &number))?;
    }
    Ok(mults)
}

// A proposed weight, as far as there is room for it.
fn within_room(proposed: &i64, room: u64) -> u64
    ensures { result ≤ room }
{
    match u64::try_from(*proposed) {
        Ok(weight) => weight.min(room),
        Err(_) => 0,
    }
}

// The number at a place, 0 where there is none.
fn number_at(numbers: &[i64], place: usize) -> i64 {
    match numbers.get(place) {
        Some(number) => *number,
        None => 0,
    }
}

// The room that each class has at first.
fn rooms(alloc: Global, classes: usize) -> Result<Vec<u64>, AllocError>
    ensures many { IfOk result (λ v. vec_len v ≡ classes) }
    ensures full { IfOk result (λ v. (k : ℕ) → k < classes → slice_index v.items k ≡ 2 ^ 33) }
{
    Vec::from_elem(alloc, MOST_WEIGHT, classes)
}

/// Proposed weights as an answer may have them, 0 where none is proposed: from 0 to 2^33, also those of a class
/// together. They are in units of 2^-20.
pub fn clipped_weights(
    alloc: Global,
    cols: &[Column],
    classes: usize,
    proposed: &[i64],
) -> Result<Vec<i64>, AllocError>
    requires { All (λ (c : AColumn). c.class < classes) cols.now }
    ensures { IfOk result (λ v. AreWeights cols.now classes v.items) }
{
    let mut room = rooms(alloc, classes)?;
    let mut weights = Vec::new(alloc);
    for j in 0..cols.len() {
        let class = cols[j].class as usize;
        let left = room[class];
        let number = number_at(proposed, j);
        let weight = within_room(&number, left);
        room[class] = left - weight;
        weights.push(weight as i64)?;
    }
    Ok(weights)
}
