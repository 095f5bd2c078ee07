// Prices of columns, and the least of each class.
ghost use Rattle.std.specs.Prelude.{◌≡◌, ℕ, ◌-◌, ◌<◌, ◌^◌, pos, ◌*ℤ◌, length, All, Any, IfOk, slice_index_or, unsigned_abs, vec_len};
ghost use Rattle.std.specs.Int.{w128, int_wrap};
ghost use Rattle.bp_theory.specs.Sums.{sum_of};
ghost use Rattle.search_laws.specs.declared.Column.{Column as AColumn};
ghost use Rattle.search_laws.specs.Master.{multiplier, column_price, AreConvex};

use crate::numbers::{in_units, lesser, minus, plus, product};
use search_laws::Column;
use std::alloc::{AllocError, Global};

// The multiplier of a row, 0 where there is none.
fn multiplier_of(mults: &[i64], row: u32) -> i64
    ensures { result ≡ multiplier mults.now row }
{
    match mults.get(row as usize) {
        Some(mult) => *mult,
        None => 0,
    }
}

// Multipliers times activities.
fn spent(mults: &[i64], acts: &[(u32, i64)]) -> i128
    ensures { result ≡ int_wrap w128 (sum_of (λ e. e.1 *ℤ multiplier mults.now e.0) acts.now) }
{
    let mut sum = 0;
    for act in acts {
        let mult = multiplier_of(mults, act.0);
        let part = product(&act.1, &mult);
        sum = plus(&sum, &part);
    }
    sum
}

// A column's cost in units, less multipliers times activities.
fn price(mults: &[i64], col: &Column) -> i128
    ensures { result ≡ int_wrap w128 (column_price mults.now col.now) }
{
    let cost = in_units(&col.cost);
    let part = spent(mults, col.acts.as_slice());
    minus(&cost, &part)
}

// What the search for least prices begins with.
fn ceilings(alloc: Global, classes: usize) -> Result<Vec<i128>, AllocError>
    ensures many { IfOk result (λ v. vec_len v ≡ classes) }
    ensures high { IfOk result (λ v. (k : ℕ) → k < classes →
        slice_index_or v.items k (pos 0) ≡ pos (2 ^ 127 - 1)) }
{
    Vec::from_elem(alloc, i128::MAX, classes)
}

/// The least price of each class's columns: cost less multipliers times activities, in units of 2^-20, as multipliers
/// are. Costs of columns are not scaled.
pub fn least_prices(
    alloc: Global,
    cols: &[Column],
    classes: usize,
    mults: &[i64],
) -> Result<Vec<i128>, AllocError>
    requires known { All (λ (c : AColumn). c.class < classes) cols.now }
    requires each { (k : ℕ) → k < classes → Any (λ (c : AColumn). c.class ≡ k) cols.now }
    requires small { All (λ (c : AColumn). unsigned_abs (column_price mults.now c) <
        2 ^ 126) cols.now }
    ensures { IfOk result (λ v. AreConvex cols.now classes mults.now v.items) }
{
    let mut least = ceilings(alloc, classes)?;
    for col in cols {
        let more = price(mults, col);
        let class = col.class as usize;
        least[class] = lesser(&least[class], &more);
    }
    Ok(least)
}
