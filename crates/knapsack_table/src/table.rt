// The table of least costs by weight: a row of cells for the items from each place on, from which the units are read
// off again.
ghost use Rattle.std.specs.Prelude.{◌≡◌, ◌≢◌, ◌+◌, ◌-◌, ◌*◌, ◌<◌, ◌≤◌, ◌^◌, ◌+ℤ◌, ◌*ℤ◌, All, pos, ℕ, length, vec_len, unsigned_abs};
ghost use Rattle.knapsack_table.specs.Tables.{far, cell_at, row_from, row_at, IsTried, IsFirstRow, AreRows, IsLesser, HasPart, AreBounded, worth_size};

use crate::items::Item;
use crate::splits::parts;
use pricing_problem::{plus, times};

/// The least cost that is none of a load's.
pub const NO_WAY: i128 = 1 << 125;

/// The cell of each weight but 0 where there are no items.
const FAR: i128 = 1 << 126;

/// The lesser of two costs.
fn lesser(a: &i128, b: &i128) -> i128
    ensures { IsLesser a.now b.now result }
{
    if *a < *b { *a } else { *b }
}

/// Takes the lesser of a cell and what further units cost with the cell of the weight without them.
fn relax(cells: &mut [i128], start: usize, weight: usize, shift: usize, gain: &i128)
    requires there { start + weight < length cells.old }
    requires shift { shift ≤ weight }
    requires small { unsigned_abs (row_from cells.old start (weight - shift)) ≤ 2 ^ 126 + 2 ^ 125 }
    requires gain { unsigned_abs gain.now ≤ 2 ^ 124 }
    ensures len { length cells.new ≡ length cells.old }
    ensures lesser { IsLesser (row_from cells.old start weight)
        (row_from cells.old start (weight - shift) +ℤ gain.now) (row_from cells.new start weight) }
    ensures others { (k : ℕ) → k ≢ start + weight → cell_at cells.new k ≡ cell_at cells.old k }
{
    let other = plus(&cells[start + (weight - shift)], gain);
    cells[start + weight] = lesser(&cells[start + weight], &other);
}

/// What so many units cost.
pub fn cost_of(cost: &i128, units: u64) -> i128
    requires units { units < 2 ^ 31 }
    requires small { unsigned_abs cost.now * units ≤ 2 ^ 124 }
    ensures value { result ≡ cost.now *ℤ pos units }
    ensures small { unsigned_abs result ≤ 2 ^ 124 }
{
    let number = units as i64;
    times(cost, &number)
}

/// Tries a part of an item at each weight of a row, from the greatest down.
fn add_part(cells: &mut [i128], start: usize, item: &Item, units: u64, top: usize)
    requires room { start + top < length cells.old }
    requires top { top ≤ 2 ^ 20 }
    requires small { item.now.weight * units ≤ 2 ^ 20 }
    requires units { units < 2 ^ 31 }
    requires cost { unsigned_abs item.now.cost * units ≤ 2 ^ 124 }
    requires bounded { AreBounded (2 ^ 126 + 2 ^ 125) top (row_from cells.old start) }
    ensures len { length cells.new ≡ length cells.old }
    ensures part { HasPart (item.now.weight * units) (item.now.cost *ℤ pos units) top
        (row_from cells.old start) (row_from cells.new start) }
    ensures below { (k : ℕ) → k < start → cell_at cells.new k ≡ cell_at cells.old k }
{
    let shift = (item.weight * units) as usize;
    let gain = cost_of(&item.cost, units);
    for weight in (shift..top + 1).rev() {
        relax(cells, start, weight, shift, &gain);
    }
}

/// Copies a row to the place after it.
fn copy_row(cells: &mut [i128], start: usize, top: usize)
    requires room { start + (top + 1) + top < length cells.old }
    ensures len { length cells.new ≡ length cells.old }
    ensures row { (c : ℕ) → c ≤ top → row_from cells.new (start + (top + 1)) c ≡
        row_from cells.old start c }
    ensures below { (k : ℕ) → k < start + (top + 1) → cell_at cells.new k ≡ cell_at cells.old k }
{
    let next = start + (top + 1);
    cells.copy_within(start..next, next);
}

/// Writes the row of the least costs with an item more, after the row without it.
fn add_item(cells: &mut [i128], start: usize, item: &Item, top: usize)
    requires room { start + (top + 1) + top < length cells.old }
    requires top { top ≤ 2 ^ 20 }
    requires heavy { 0 < item.now.width → 0 < item.now.weight }
    requires small { item.now.weight * item.now.width ≤ 2 ^ 20 }
    requires cost { unsigned_abs item.now.cost * item.now.width ≤ 2 ^ 124 }
    requires bounded { AreBounded (2 ^ 126 + 2 ^ 124) top (row_from cells.old start) }
    ensures len { length cells.new ≡ length cells.old }
    ensures tried { IsTried item.now item.now.width top (row_from cells.old start)
        (row_from cells.new (start + (top + 1))) }
    ensures below { (k : ℕ) → k < start + (top + 1) → cell_at cells.new k ≡ cell_at cells.old k }
{
    copy_row(cells, start, top);
    let next = start + (top + 1);
    for units in parts(item.width) {
        add_part(cells, next, item, units, top);
    }
}

/// Writes the row of no items.
fn begin(cells: &mut [i128], top: usize)
    requires room { top < length cells.old }
    ensures len { length cells.new ≡ length cells.old }
    ensures row { IsFirstRow far top (row_from cells.new 0) }
{
    cells[..top + 1].fill(FAR);
    cells[0] = 0;
}

/// Writes the rows of least costs of items, up to a greatest weight.
fn fill_rows(cells: &mut [i128], items: &[Item], top: usize)
    requires room { (length items.now + 1) * (top + 1) ≤ length cells.old }
    requires top { top ≤ 2 ^ 20 }
    requires heavy { All (λ item. 0 < item.width → 0 < item.weight) items.now }
    requires small { All (λ item. item.weight * item.width ≤ 2 ^ 20) items.now }
    requires cost { worth_size items.now ≤ 2 ^ 124 }
    ensures len { length cells.new ≡ length cells.old }
    ensures rows { AreRows far items.now top (row_at cells.new top) }
{
    begin(cells, top);
    let mut start = 0;
    for k in (0..items.len()).rev() {
        add_item(cells, start, &items[k], top);
        start += top + 1;
    }
}

/// Writes the rows of least costs of items into the cells of a table, up to a greatest weight.
pub fn fill(cells: &mut Vec<i128>, items: &[Item], top: usize)
    requires room { (length items.now + 1) * (top + 1) ≤ vec_len cells.old }
    requires top { top ≤ 2 ^ 20 }
    requires heavy { All (λ item. 0 < item.width → 0 < item.weight) items.now }
    requires small { All (λ item. item.weight * item.width ≤ 2 ^ 20) items.now }
    requires cost { worth_size items.now ≤ 2 ^ 124 }
    ensures len { vec_len cells.new ≡ vec_len cells.old }
    ensures rows { AreRows far items.now top (row_at cells.new.items top) }
{
    fill_rows(cells, items, top);
}
