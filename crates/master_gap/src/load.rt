// What weighted columns come to together.
ghost use Rattle.std.specs.Prelude.{◌≡◌, ℕ, ◌<◌, ℤ, pos, ◌+ℤ◌, ◌*ℤ◌, zip, length, All, IfOk, slice_index_or, vec_len};
ghost use Rattle.std.specs.Int.{w128, int_wrap};
ghost use Rattle.bp_theory.specs.Sums.{sum_at};
ghost use Rattle.search_laws.specs.declared.Column.{Column as AColumn};
ghost use Rattle.search_laws.specs.Master.{class_weight, weighted_activity, weighted_cost, IsKnownColumn};

use crate::numbers::{plus, product, widened};
use search_laws::Column;
use std::alloc::{AllocError, Global};

// The cost of weighted columns, in the unit of the weights: costs are not scaled.
pub fn cost_of(cols: &[Column], weights: &[i64]) -> i128
    requires { length weights.now ≡ length cols.now }
    ensures { result ≡ int_wrap w128 (weighted_cost (zip cols.now weights.now)) }
{
    let mut sum = 0;
    for j in 0..cols.len() {
        let part = product(&cols[j].cost, &weights[j]);
        sum = plus(&sum, &part);
    }
    sum
}

// The weights of each class's columns together.
pub fn class_weights(
    alloc: Global,
    cols: &[Column],
    weights: &[i64],
    classes: usize,
) -> Result<Vec<i128>, AllocError>
    requires each { length weights.now ≡ length cols.now }
    requires known { All (λ (c : AColumn). c.class < classes) cols.now }
    ensures many { IfOk result (λ v. vec_len v ≡ classes) }
    ensures sums { IfOk result (λ v. (k : ℕ) → k < classes →
        slice_index_or v.items k (pos 0) ≡
        int_wrap w128 (class_weight (zip cols.now weights.now) k)) }
{
    let mut sums = Vec::from_elem(alloc, 0, classes)?;
    for j in 0..cols.len() {
        let more = widened(&weights[j]);
        let class = cols[j].class as usize;
        sums[class] = plus(&sums[class], &more);
    }
    Ok(sums)
}

// Adds a weighted column's activities to the sums of the rows.
fn add_activities(sums: &mut [i128], acts: &[(u32, i64)], weight: &i64)
    requires { All (λ e. e.0 < length sums.old) acts.now }
    ensures { (i : ℕ) (t : ℤ) → slice_index_or sums.old i (pos 0) ≡ int_wrap w128 t →
        slice_index_or sums.new i (pos 0) ≡ int_wrap w128 (t +ℤ sum_at (λ e. e.0)
        (λ e. e.1) acts.now i *ℤ weight.now) }
{
    if *weight == 0 {
        return;
    }
    for act in acts {
        let more = product(&act.1, weight);
        let row = act.0 as usize;
        sums[row] = plus(&sums[row], &more);
    }
}

// The activity of weighted columns in each row, in the unit of the weights.
pub fn activities(
    alloc: Global,
    cols: &[Column],
    weights: &[i64],
    rows: usize,
) -> Result<Vec<i128>, AllocError>
    requires each { length weights.now ≡ length cols.now }
    requires known { All (λ (c : AColumn). All (λ e. e.0 < rows) c.acts) cols.now }
    ensures many { IfOk result (λ v. vec_len v ≡ rows) }
    ensures sums { IfOk result (λ v. (i : ℕ) → i < rows →
        slice_index_or v.items i (pos 0) ≡
        int_wrap w128 (weighted_activity (zip cols.now weights.now) i)) }
{
    let mut sums = Vec::from_elem(alloc, 0, rows)?;
    for j in 0..cols.len() {
        add_activities(&mut sums, cols[j].acts.as_slice(), &weights[j]);
    }
    Ok(sums)
}
