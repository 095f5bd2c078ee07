// How far weighted columns miss rows and counts.
ghost use Rattle.std.specs.Prelude.{◌≡◌, ℕ, ◌<◌, ◌^◌, pos, ◌*ℤ◌, ◌-ℤ◌, length, All, slice_index_or, sum_by, unsigned_abs};
ghost use Rattle.std.specs.List.{range_with_len};
ghost use Rattle.std.specs.Int.{w128, int_wrap, int_gap};
ghost use Rattle.search_laws.specs.Master.{one_weight, master_row, class_size, side_miss};

use crate::numbers::{in_units, plus};
use bp_theory::{MasterRow, Sense};

// How far the second number is above the first.
fn gap_above(low: &i128, high: &i128) -> i128
    requires first { unsigned_abs low.now < 2 ^ 120 }
    requires second { unsigned_abs high.now < 2 ^ 120 }
    ensures { result ≡ pos (int_gap low.now high.now) }
{
    if *high <= *low { 0 } else { *high - *low }
}

// How far a sum misses the sides of a row, in units.
fn row_short(row: &MasterRow, sum: &i128) -> i128
    requires { unsigned_abs sum.now < 2 ^ 120 }
    ensures { result ≡ pos (side_miss row.now.sense (pos one_weight *ℤ row.now.low)
        (pos one_weight *ℤ row.now.rhs) sum.now) }
{
    let low = in_units(&row.low);
    let high = in_units(&row.rhs);
    match row.sense {
        Sense::Le => gap_above(&high, sum),
        Sense::Ge => gap_above(sum, &low),
        Sense::Eq => gap_above(sum, &low) + gap_above(&high, sum),
        Sense::In => gap_above(sum, &low) + gap_above(&high, sum),
    }
}

// How far sums miss rows, together; sums are in units, and so is this.
pub fn rows_short(rows: &[MasterRow], sums: &[i128]) -> i128
    requires each { length sums.now ≡ length rows.now }
    requires small { All (λ z. unsigned_abs z < 2 ^ 120) sums.now }
    ensures { result ≡ int_wrap w128
        (pos (sum_by (λ i. side_miss (master_row rows.now i).sense
        (pos one_weight *ℤ (master_row rows.now i).low)
        (pos one_weight *ℤ (master_row rows.now i).rhs) (slice_index_or sums.now i (pos 0)))
        (range_with_len 0 (length rows.now)))) }
{
    let mut total = 0;
    for i in 0..rows.len() {
        let part = row_short(&rows[i], &sums[i]);
        total = plus(&total, &part);
    }
    total
}

// How far a class's weight is from its count, in units.
fn class_short(count: &u32, weight: &i128) -> i128
    requires { unsigned_abs weight.now < 2 ^ 120 }
    ensures { result ≡ pos (unsigned_abs (weight.now -ℤ pos one_weight *ℤ pos count.now)) }
{
    let wanted = in_units(&i64::from(*count));
    (*weight - wanted).abs()
}

// How far weights are from counts, together; weights are in units, and so is this.
pub fn classes_short(counts: &[u32], weights: &[i128]) -> i128
    requires each { length weights.now ≡ length counts.now }
    requires small { All (λ z. unsigned_abs z < 2 ^ 120) weights.now }
    ensures { result ≡ int_wrap w128
        (pos (sum_by (λ k. unsigned_abs
        (slice_index_or weights.now k (pos 0) -ℤ pos one_weight *ℤ pos (class_size counts.now k)))
        (range_with_len 0 (length counts.now)))) }
{
    let mut total = 0;
    for k in 0..counts.len() {
        let part = class_short(&counts[k], &weights[k]);
        total = plus(&total, &part);
    }
    total
}
