// What a point of a block gives the restricted master: its cost and its activities in the master rows.
ghost use Rattle.std.specs.Prelude.{◌≡◌, ℕ, ℤ, pos, ◌+ℤ◌, ◌*ℤ◌, ◌<◌, ◌^◌, length, map, All, IfOk, OnOk, unwrap_or, unsigned_abs};
ghost use Rattle.std.specs.BTreeMap.{get, IsOrdered};
ghost use Rattle.std.specs.Int.{w128, int_wrap};
ghost use Rattle.std.specs.Ordering.{nat_cmp};
ghost use Rattle.bp_theory.specs.Sums.{dot, sum_at};
ghost use Rattle.bp_theory.specs.Blocking.{Copy, coef_in};
ghost use Rattle.bp_theory.specs.Program.{IsInside};
ghost use Rattle.bp_model.specs.Tidy.{nonzero};
ghost use Rattle.col_pool.specs.Pools.{HasSmallSums, HasActivities};

use crate::numbers::{plus, product, small};
use block_program::Block;
use bp_theory::Items;
use std::alloc::{AllocError, Global};
use std::collections::BTreeMap;

// The cost of a point of a block.
pub fn cost_of(block: &Block, point: &[i64]) -> i64
    requires small { HasSmallSums block.now }
    requires inside { IsInside block.now.spans point.now }
    requires each { length point.now ≡ length block.now.block.copies }
    ensures { result ≡ dot (map (λ (c : Copy). c.cost) block.now.block.copies) point.now }
{
    let total = total(block.costs(), point);
    small(&total)
}

// The scalar product of costs and numbers, wrapped.
fn total(costs: &[i64], point: &[i64]) -> i128
    requires { length point.now ≡ length costs.now }
    ensures { result ≡ int_wrap w128 (dot costs.now point.now) }
{
    let mut sum = 0;
    for place in 0..costs.len() {
        let more = product(&costs[place], &point[place]);
        sum = plus(&sum, &more);
    }
    sum
}

// The activities of a point of a block in the master rows, ascending and without zeros.
pub fn activities(
    alloc: Global,
    block: &Block,
    point: &[i64],
) -> Result<Items<(u32, i64)>, AllocError>
    requires small { HasSmallSums block.now }
    requires inside { IsInside block.now.spans point.now }
    requires each { length point.now ≡ length block.now.block.copies }
    ensures { IfOk result (HasActivities block.now.block point.now) }
{
    let sums = sums_of(alloc, block, point)?;
    let kept = kept(alloc, &sums)?;
    narrowed(alloc, &kept)
}

// The sums of a block's coefficients times a point's numbers, by master row.
fn sums_of(alloc: Global, block: &Block, point: &[i64]) -> Result<BTreeMap<u32, i128>, AllocError>
    requires { length point.now ≡ length block.now.block.copies }
    ensures sums { IfOk result (λ sums. (row : ℕ) → unwrap_or (get nat_cmp sums row) (pos 0) ≡
        int_wrap w128 (dot (map (λ (c : Copy). coef_in c row) block.now.block.copies) point.now)) }
    ensures ordered { IfOk result (IsOrdered nat_cmp) }
{
    let mut sums = BTreeMap::new(alloc);
    for place in 0..block.var_count() {
        add_scaled(&mut sums, block.master(place), &point[place as usize])?;
    }
    Ok(sums)
}

// Adds coefficients times a number to the sums by row.
fn add_scaled(
    sums: &mut BTreeMap<u32, i128>,
    coefs: &[(u32, i64)],
    number: &i64,
) -> Result<(), AllocError>
    requires { IsOrdered nat_cmp sums.old }
    ensures sums { OnOk result ((row : ℕ) (t : ℤ) → unwrap_or (get nat_cmp sums.old row) (pos 0) ≡
        int_wrap w128 t → unwrap_or (get nat_cmp sums.new row) (pos 0) ≡
        int_wrap w128 (t +ℤ sum_at (λ e. e.0) (λ e. e.1) coefs.now row *ℤ number.now)) }
    ensures ordered { IsOrdered nat_cmp sums.new }
{
    if *number == 0 {
        return Ok(());
    }
    for coef in coefs {
        let had = sum_in(sums, coef.0);
        let more = product(&coef.1, number);
        sums.insert(coef.0, plus(&had, &more))?;
    }
    Ok(())
}

// The sum of a row so far.
fn sum_in(sums: &BTreeMap<u32, i128>, row: u32) -> i128
    ensures { result ≡ unwrap_or (get nat_cmp sums.now row) (pos 0) }
{
    sums.get(&row).copied().unwrap_or(0)
}

// The sums that aren't 0, by row.
fn kept(alloc: Global, sums: &BTreeMap<u32, i128>) -> Result<Vec<(u32, i128)>, AllocError>
    ensures { IfOk result (λ kept. kept.items ≡ nonzero sums.now.entries) }
{
    sums.iter()
        .filter(|(_, sum)| **sum != 0)
        .map(|(row, sum)| (*row, *sum))
        .collect(alloc)
}

// The same sums in 64 bits.
fn narrowed(alloc: Global, sums: &[(u32, i128)]) -> Result<Items<(u32, i64)>, AllocError>
    requires { All (λ sum. unsigned_abs sum.1 < 2 ^ 62) sums.now }
    ensures { IfOk result (λ acts. acts ≡ sums.now) }
{
    let mut acts = Items::with_capacity(alloc, sums.len())?;
    for sum in sums {
        acts.push((sum.0, small(&sum.1)))?;
    }
    Ok(acts)
}
