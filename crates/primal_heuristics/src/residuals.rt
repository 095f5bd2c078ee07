// What points leave open of the rows that proofs may name: hints, which exact bounds judge.
ghost use Rattle.std.specs.Prelude.{◌<◌, length};

use crate::copies::{copy_place, has_further_rows};
use crate::reach::{at, product};
use block_program::{Blocked, MAX_SCALE};
use bp_theory::{MasterRow, Sense};

/// How many units make one in the mean of points.
pub const UNIT: i128 = MAX_SCALE as i128;

/// Writes the sums of the rows at a point by copies, in units.
pub fn write_sums(b: &Blocked, point: &[i64], sums: &mut [i128]) {
    for row in 0..b.model().rows() {
        let sum = row_sum(b, row, point).saturating_mul(UNIT);
        let place = row as usize;
        if place < sums.len() {
            sums[place] = sum;
        }
    }
    if has_further_rows(b) {
        write_further_sums(b, point, sums);
    }
}

// Writes the sums of link rows and cuts at a point by copies, in units.
fn write_further_sums(b: &Blocked, point: &[i64], sums: &mut [i128]) {
    let rows = b.model().rows();
    for row in rows as usize..sums.len() {
        sums[row] = 0;
    }
    for number in 0..b.blocks() {
        let block = b.block(number);
        for place in 0..block.var_count() {
            let value = at(point, copy_place(b, number, block, place));
            add_further(block.master(place), rows, &value, sums);
        }
    }
}

// Adds what a copy's number is in link rows and cuts, in units.
fn add_further(entries: &[(u32, i64)], rows: u32, value: &i64, sums: &mut [i128]) {
    for entry in entries {
        let place = entry.0 as usize;
        if entry.0 >= rows && place < sums.len() {
            let more = product(&entry.1, value).saturating_mul(UNIT);
            sums[place] = sums[place].saturating_add(more);
        }
    }
}

// The sum of a row at a point.
fn row_sum(b: &Blocked, number: u32, point: &[i64]) -> i128
    requires { number < length b.now.named.program.rows }
{
    let mut sum: i128 = 0;
    for term in b.model().row(number).terms.as_slice() {
        let number = at(point, term.var as usize);
        sum = sum.saturating_add(product(&term.coef, &number));
    }
    sum
}

/// How far a sum in units is from the side of a row that its multiplier pays for: 0 where no step helps.
pub fn slope(row: &MasterRow, mult: &i64, sum: &i128) -> i128 {
    let up = i128::from(row.low)
        .saturating_mul(UNIT)
        .saturating_sub(*sum);
    let down = i128::from(row.rhs)
        .saturating_mul(UNIT)
        .saturating_sub(*sum);
    match row.sense {
        Sense::Le => if *mult == 0 { down.min(0) } else { down },
        Sense::Ge => if *mult == 0 { up.max(0) } else { up },
        Sense::Eq => down,
        Sense::In => {
            if *mult > 0 {
                up
            } else if *mult < 0 {
                down
            } else {
                up.max(0).saturating_add(down.min(0))
            }
        }
    }
}

/// Whether a sum in units meets a row.
pub fn meets(row: &MasterRow, sum: &i128) -> bool {
    let up = i128::from(row.low).saturating_mul(UNIT) <= *sum;
    let down = *sum <= i128::from(row.rhs).saturating_mul(UNIT);
    match row.sense {
        Sense::Le => down,
        Sense::Ge => up,
        _ => up && down,
    }
}

/// A multiplier, or 0 where its sign doesn't fit.
pub fn signed(row: &MasterRow, mult: i64) -> i64 {
    match row.sense {
        Sense::Le => mult.min(0),
        Sense::Ge => mult.max(0),
        _ => mult,
    }
}
