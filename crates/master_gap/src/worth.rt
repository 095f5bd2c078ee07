// What multipliers and least prices give.
ghost use Rattle.std.specs.Prelude.{◌≡◌, pos, ◌*ℤ◌, length, slice_index_or};
ghost use Rattle.std.specs.List.{range_with_len};
ghost use Rattle.std.specs.Int.{w128, int_wrap};
ghost use Rattle.bp_theory.specs.Sums.{sum_of};
ghost use Rattle.bp_theory.specs.Bound.{side};
ghost use Rattle.search_laws.specs.Master.{multiplier, master_row, class_size};

use crate::numbers::{plus, product, times};
use bp_theory::MasterRow;

// The side of a row for a multiplier.
fn side_of(row: &MasterRow, mult: &i64) -> i64
    ensures { result ≡ side row.now mult.now }
{
    if *mult > 0 { row.low } else { row.rhs }
}

// A multiplier times its row's side.
fn row_worth(row: &MasterRow, mult: &i64) -> i128
    ensures { result ≡ mult.now *ℤ side row.now mult.now }
{
    let side = side_of(row, mult);
    product(mult, &side)
}

// Multipliers times sides, in units, as multipliers are.
pub fn rows_worth(rows: &[MasterRow], mults: &[i64]) -> i128
    requires { length mults.now ≡ length rows.now }
    ensures { result ≡ int_wrap w128
        (sum_of (λ i. multiplier mults.now i *ℤ side (master_row rows.now i)
        (multiplier mults.now i)) (range_with_len 0 (length rows.now))) }
{
    let mut sum = 0;
    for i in 0..rows.len() {
        let part = row_worth(&rows[i], &mults[i]);
        sum = plus(&sum, &part);
    }
    sum
}

// Counts times least prices, in units, as prices are.
pub fn classes_worth(counts: &[u32], convex: &[i128]) -> i128
    requires { length convex.now ≡ length counts.now }
    ensures { result ≡ int_wrap w128
        (sum_of (λ k. pos (class_size counts.now k) *ℤ slice_index_or convex.now k (pos 0))
        (range_with_len 0 (length counts.now))) }
{
    let mut sum = 0;
    for k in 0..counts.len() {
        let part = times(&counts[k], &convex[k]);
        sum = plus(&sum, &part);
    }
    sum
}
