// The table in 64 bits, where the costs of all loads are short.
ghost use Rattle.std.specs.Prelude.{◌≡◌, ◌≢◌, ◌+◌, ◌-◌, ◌*◌, ◌<◌, ◌≤◌, ◌^◌, ◌+ℤ◌, ◌*ℤ◌, All, FitsSigned, pos, ℕ, length, vec_len, unsigned_abs};
ghost use Rattle.std.specs.Bool.{OnTrue};
ghost use Rattle.std.specs.Int.{w64};
ghost use Rattle.knapsack_table.specs.Tables.{short_far, cell_at, row_from, row_at, IsTried, IsFirstRow, AreRows, IsLesser, HasPart, AreBounded, worth_size};

use crate::items::Item;
use crate::splits::parts;
use pricing_problem::times;

/// The least cost that is none of a load's.
pub const NO_WAY: i64 = 1 << 60;

/// The cell of each weight but 0 where there are no items.
const FAR: i64 = 1 << 61;

/// The greatest magnitude of loads' costs that a table in 64 bits may have.
const MOST_SIZE: u128 = 1 << 59;

/// The greatest magnitude of what units of an item cost.
fn size_of_item(item: &Item) -> u128
    requires { unsigned_abs item.now.cost * item.now.width ≤ 2 ^ 124 }
    ensures { result ≡ unsigned_abs item.now.cost * item.now.width }
{
    item.cost.unsigned_abs() * u128::from(item.width)
}

/// The greatest magnitude of a load's cost.
fn size_of(items: &[Item]) -> u128
    requires { worth_size items.now ≤ 2 ^ 124 }
    ensures { result ≡ worth_size items.now }
{
    let mut sum = 0;
    for k in (0..items.len()).rev() {
        sum += size_of_item(&items[k]);
    }
    sum
}

/// Whether costs are short: no load costs more than 2 to the 59 in magnitude.
pub fn are_short(items: &[Item]) -> bool
    requires { worth_size items.now ≤ 2 ^ 124 }
    ensures { OnTrue result (worth_size items.now ≤ 2 ^ 59) }
{
    size_of(items) <= MOST_SIZE
}

/// The sum of two costs.
pub fn plus(a: &i64, b: &i64) -> i64
    requires { FitsSigned w64 (a.now +ℤ b.now) }
    ensures { result ≡ a.now +ℤ b.now }
{
    *a + *b
}

/// The lesser of two costs.
fn lesser(a: &i64, b: &i64) -> i64
    ensures { IsLesser a.now b.now result }
{
    if *a < *b { *a } else { *b }
}

/// Takes the lesser of a cell and what further units cost with the cell of the weight without them.
fn relax(cells: &mut [i64], start: usize, weight: usize, shift: usize, gain: &i64)
    requires there { start + weight < length cells.old }
    requires shift { shift ≤ weight }
    requires small { unsigned_abs (row_from cells.old start (weight - shift)) ≤ 2 ^ 61 + 2 ^ 60 }
    requires gain { unsigned_abs gain.now ≤ 2 ^ 60 }
    ensures len { length cells.new ≡ length cells.old }
    ensures lesser { IsLesser (row_from cells.old start weight)
        (row_from cells.old start (weight - shift) +ℤ gain.now) (row_from cells.new start weight) }
    ensures others { (k : ℕ) → k ≢ start + weight → cell_at cells.new k ≡ cell_at cells.old k }
{
    let other = plus(&cells[start + (weight - shift)], gain);
    cells[start + weight] = lesser(&cells[start + weight], &other);
}

/// A cost in 64 bits.
fn shortened(cost: &i128) -> i64
    requires { unsigned_abs cost.now ≤ 2 ^ 60 }
    ensures { result ≡ cost.now }
{
    *cost as i64
}

/// What so many units cost, in 128 bits.
fn wide_cost_of(cost: &i128, units: u64) -> i128
    requires units { units < 2 ^ 31 }
    requires small { unsigned_abs cost.now * units ≤ 2 ^ 60 }
    ensures value { result ≡ cost.now *ℤ pos units }
    ensures small { unsigned_abs result ≤ 2 ^ 60 }
{
    let number = units as i64;
    times(cost, &number)
}

/// What so many units cost.
pub fn cost_of(cost: &i128, units: u64) -> i64
    requires units { units < 2 ^ 31 }
    requires small { unsigned_abs cost.now * units ≤ 2 ^ 60 }
    ensures value { result ≡ cost.now *ℤ pos units }
    ensures small { unsigned_abs result ≤ 2 ^ 60 }
{
    let wide = wide_cost_of(cost, units);
    shortened(&wide)
}

/// Tries a part of an item at each weight of a row, from the greatest down.
fn add_part(cells: &mut [i64], start: usize, item: &Item, units: u64, top: usize)
    requires room { start + top < length cells.old }
    requires top { top ≤ 2 ^ 20 }
    requires small { item.now.weight * units ≤ 2 ^ 20 }
    requires units { units < 2 ^ 31 }
    requires cost { unsigned_abs item.now.cost * units ≤ 2 ^ 60 }
    requires bounded { AreBounded (2 ^ 61 + 2 ^ 60) top (row_from cells.old start) }
    ensures len { length cells.new ≡ length cells.old }
    ensures part { HasPart (item.now.weight * units) (item.now.cost *ℤ pos units) top
        (row_from cells.old start) (row_from cells.new start) }
    ensures below { (k : ℕ) → k < start → cell_at cells.new k ≡ cell_at cells.old k }
{
    let shift = (item.weight * units) as usize;
    let gain = cost_of(&item.cost, units);
    for weight in (shift..top + 1).rev() {
        relax(cells, start, weight, shift, &gain);
    }
}

/// Copies a row to the place after it.
fn copy_row(cells: &mut [i64], start: usize, top: usize)
    requires room { start + (top + 1) + top < length cells.old }
    ensures len { length cells.new ≡ length cells.old }
    ensures row { (c : ℕ) → c ≤ top → row_from cells.new (start + (top + 1)) c ≡
        row_from cells.old start c }
    ensures below { (k : ℕ) → k < start + (top + 1) → cell_at cells.new k ≡ cell_at cells.old k }
{
    let next = start + (top + 1);
    cells.copy_within(start..next, next);
}

/// Writes the row of the least costs with an item more, after the row without it: a copy, and then part by part.
fn add_parts(cells: &mut [i64], start: usize, item: &Item, top: usize)
    requires room { start + (top + 1) + top < length cells.old }
    requires top { top ≤ 2 ^ 20 }
    requires heavy { 0 < item.now.width → 0 < item.now.weight }
    requires small { item.now.weight * item.now.width ≤ 2 ^ 20 }
    requires cost { unsigned_abs item.now.cost * item.now.width ≤ 2 ^ 59 }
    requires bounded { AreBounded (2 ^ 61 + 2 ^ 59) top (row_from cells.old start) }
    ensures len { length cells.new ≡ length cells.old }
    ensures tried { IsTried item.now item.now.width top (row_from cells.old start)
        (row_from cells.new (start + (top + 1))) }
    ensures below { (k : ℕ) → k < start + (top + 1) → cell_at cells.new k ≡ cell_at cells.old k }
{
    copy_row(cells, start, top);
    let next = start + (top + 1);
    for units in parts(item.width) {
        add_part(cells, next, item, units, top);
    }
}

/// Copies the weights below a shift to the row after.
fn copy_light(cells: &mut [i64], start: usize, shift: usize, top: usize)
    requires room { start + (top + 1) + top < length cells.old }
    ensures len { length cells.new ≡ length cells.old }
    ensures row { (c : ℕ) → c ≤ top → c < shift → row_from cells.new (start + (top + 1)) c ≡
        row_from cells.old start c }
    ensures below { (k : ℕ) → k < start + (top + 1) → cell_at cells.new k ≡ cell_at cells.old k }
{
    let next = start + (top + 1);
    if shift <= top {
        cells.copy_within(start..start + shift, next);
    } else {
        cells.copy_within(start..next, next);
    }
}

/// Writes the lesser of a cell of a row and what one unit costs with the cell of the weight without it to a row after.
fn join(cells: &mut [i64], start: usize, next: usize, weight: usize, shift: usize, gain: &i64)
    requires there { next + weight < length cells.old }
    requires after { start ≤ next }
    requires shift { shift ≤ weight }
    requires small { unsigned_abs (row_from cells.old start (weight - shift)) ≤ 2 ^ 61 + 2 ^ 60 }
    requires gain { unsigned_abs gain.now ≤ 2 ^ 60 }
    ensures len { length cells.new ≡ length cells.old }
    ensures lesser { IsLesser (row_from cells.old start weight)
        (row_from cells.old start (weight - shift) +ℤ gain.now) (row_from cells.new next weight) }
    ensures others { (k : ℕ) → k ≢ next + weight → cell_at cells.new k ≡ cell_at cells.old k }
{
    let other = plus(&cells[start + (weight - shift)], gain);
    cells[next + weight] = lesser(&cells[start + weight], &other);
}

/// Writes the row of the least costs with an item of one unit more, after the row without it: each cell once.
fn add_unit(cells: &mut [i64], start: usize, item: &Item, top: usize)
    requires one { item.now.width ≡ 1 }
    requires room { start + (top + 1) + top < length cells.old }
    requires top { top ≤ 2 ^ 20 }
    requires heavy { 0 < item.now.width → 0 < item.now.weight }
    requires small { item.now.weight * item.now.width ≤ 2 ^ 20 }
    requires cost { unsigned_abs item.now.cost * item.now.width ≤ 2 ^ 59 }
    requires bounded { AreBounded (2 ^ 61 + 2 ^ 59) top (row_from cells.old start) }
    ensures len { length cells.new ≡ length cells.old }
    ensures tried { IsTried item.now item.now.width top (row_from cells.old start)
        (row_from cells.new (start + (top + 1))) }
    ensures below { (k : ℕ) → k < start + (top + 1) → cell_at cells.new k ≡ cell_at cells.old k }
{
    let shift = item.weight as usize;
    let gain = cost_of(&item.cost, 1);
    let next = start + (top + 1);
    copy_light(cells, start, shift, top);
    for weight in shift..top + 1 {
        join(cells, start, next, weight, shift, &gain);
    }
}

/// Writes the row of the least costs with an item more, after the row without it.
fn add_item(cells: &mut [i64], start: usize, item: &Item, top: usize)
    requires room { start + (top + 1) + top < length cells.old }
    requires top { top ≤ 2 ^ 20 }
    requires heavy { 0 < item.now.width → 0 < item.now.weight }
    requires small { item.now.weight * item.now.width ≤ 2 ^ 20 }
    requires cost { unsigned_abs item.now.cost * item.now.width ≤ 2 ^ 59 }
    requires bounded { AreBounded (2 ^ 61 + 2 ^ 59) top (row_from cells.old start) }
    ensures len { length cells.new ≡ length cells.old }
    ensures tried { IsTried item.now item.now.width top (row_from cells.old start)
        (row_from cells.new (start + (top + 1))) }
    ensures below { (k : ℕ) → k < start + (top + 1) → cell_at cells.new k ≡ cell_at cells.old k }
{
    if item.width == 1 {
        add_unit(cells, start, item, top);
    } else {
        add_parts(cells, start, item, top);
    }
}

/// Writes the row of no items.
fn begin(cells: &mut [i64], top: usize)
    requires room { top < length cells.old }
    ensures len { length cells.new ≡ length cells.old }
    ensures row { IsFirstRow short_far top (row_from cells.new 0) }
{
    cells[..top + 1].fill(FAR);
    cells[0] = 0;
}

/// Writes the rows of least costs of items, up to a greatest weight.
fn fill_rows(cells: &mut [i64], items: &[Item], top: usize)
    requires room { (length items.now + 1) * (top + 1) ≤ length cells.old }
    requires top { top ≤ 2 ^ 20 }
    requires heavy { All (λ item. 0 < item.width → 0 < item.weight) items.now }
    requires small { All (λ item. item.weight * item.width ≤ 2 ^ 20) items.now }
    requires cost { worth_size items.now ≤ 2 ^ 59 }
    ensures len { length cells.new ≡ length cells.old }
    ensures rows { AreRows short_far items.now top (row_at cells.new top) }
{
    begin(cells, top);
    let mut start = 0;
    for k in (0..items.len()).rev() {
        add_item(cells, start, &items[k], top);
        start += top + 1;
    }
}

/// Writes the rows of least costs of items into the cells of a table, up to a greatest weight.
pub fn fill(cells: &mut Vec<i64>, items: &[Item], top: usize)
    requires room { (length items.now + 1) * (top + 1) ≤ vec_len cells.old }
    requires top { top ≤ 2 ^ 20 }
    requires heavy { All (λ item. 0 < item.width → 0 < item.weight) items.now }
    requires small { All (λ item. item.weight * item.width ≤ 2 ^ 20) items.now }
    requires cost { worth_size items.now ≤ 2 ^ 59 }
    ensures len { vec_len cells.new ≡ vec_len cells.old }
    ensures rows { AreRows short_far items.now top (row_at cells.new.items top) }
{
    fill_rows(cells, items, top);
}
