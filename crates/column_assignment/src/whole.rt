// Whether weights are whole and add up.
ghost use Rattle.std.specs.Prelude.{◌≡◌, ◌↔◌, ℕ, ◌<◌, pos, ◌+ℤ◌, ◌*ℤ◌, length, All, IfOk, IsTrue, slice_index_or, slice_set, vec_len};
ghost use Rattle.std.specs.Int.{w128, int_wrap};
ghost use Rattle.bp_theory.specs.Sums.{sum_at};
ghost use Rattle.search_laws.specs.declared.UsedColumn.{UsedColumn as AUsed};
ghost use Rattle.search_laws.specs.Master.{one_weight};
ghost use Rattle.search_laws.specs.Spread.{IsWhole, class_blocks};
ghost use Rattle.column_assignment.specs.Deals.{HasWeight, IsSpreadable};

use block_class::Classes;
use search_laws::UsedColumn;
use std::alloc::{AllocError, Global};

// How many units make one.
const UNITS: i64 = 1 << 20;

/// Whether each weight is a whole number of units, of which 2^20 make one, and each class's weights add up to its number
/// of blocks.
pub fn is_spreadable(
    alloc: Global,
    classes: &Classes,
    used: &[UsedColumn],
) -> Result<bool, AllocError>
    requires weights { All HasWeight used.now }
    requires known { All (λ (u : AUsed). u.class < length classes.now.firsts) used.now }
    ensures { IfOk result (λ yes. IsTrue yes ↔ IsSpreadable classes.now used.now) }
{
    if !used.iter().all(|column| is_whole(column)) {
        return Ok(false);
    }
    let totals = totals(alloc, classes.len() as usize, used)?;
    Ok(add_up(classes, &totals))
}

// Whether a weight is a whole number of units.
fn is_whole(column: &UsedColumn) -> bool
    requires { HasWeight column.now }
    ensures { IsTrue result ↔ IsWhole column.now }
{
    column.weight % UNITS == 0
}

// The weights of each class together.
fn totals(alloc: Global, count: usize, used: &[UsedColumn]) -> Result<Vec<i128>, AllocError>
    requires weights { All HasWeight used.now }
    requires known { All (λ (u : AUsed). u.class < count) used.now }
    ensures many { IfOk result (λ totals. vec_len totals ≡ count) }
    ensures totals { IfOk result (λ totals. (k : ℕ) → k < count →
        slice_index_or totals.items k (pos 0) ≡ sum_at (λ (u : AUsed). u.class)
        (λ u. u.weight) used.now k) }
{
    let mut totals = Vec::from_elem(alloc, 0, count)?;
    for place in 0..used.len() {
        let more = widened(&used[place].weight);
        add_to(&mut totals, used[place].class, &more);
    }
    Ok(totals)
}

// A number more in a sum, wrapped.
fn add_to(totals: &mut Vec<i128>, class: u32, more: &i128)
    requires { class < vec_len totals.old }
    ensures { totals.new.items ≡ slice_set totals.old.items class
        (int_wrap w128 (slice_index_or totals.old.items class (pos 0) +ℤ more.now)) }
{
    let sum = plus(&totals[class as usize], more);
    totals[class as usize] = sum;
}

// The sum of two numbers, wrapped.
fn plus(a: &i128, b: &i128) -> i128
    ensures { result ≡ int_wrap w128 (a.now +ℤ b.now) }
{
    a.wrapping_add(*b)
}

// A number of 64 bits.
fn widened(number: &i64) -> i128
    ensures { result ≡ number.now }
{
    i128::from(*number)
}

// Whether totals are the classes' numbers of blocks, in units.
fn add_up(classes: &Classes, totals: &[i128]) -> bool
    requires { length totals.now ≡ length classes.now.firsts }
    ensures { IsTrue result ↔ ((k : ℕ) → k < length classes.now.firsts →
        slice_index_or totals.now k (pos 0) ≡ pos one_weight *ℤ pos
        (class_blocks classes.now.classes k)) }
{
    for class in 0..classes.len() {
        if totals[class as usize] != in_units(classes.size(class)) {
            return false;
        }
    }
    true
}

// A number of blocks in units.
fn in_units(blocks: u32) -> i128
    ensures { result ≡ pos one_weight *ℤ pos blocks }
{
    1_048_576 * i128::from(blocks)
}
