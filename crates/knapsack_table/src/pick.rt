// Picking a load of least cost whose weight meets a row, by a table.
ghost use Rattle.std.specs.Prelude.{◌≡◌, ◌<◌, ◌≤◌, ◌+◌, ◌*◌, ◌^◌, All, MatchOption, length, vec_len, unsigned_abs};
ghost use Rattle.bp_theory.specs.Trees.{IsProper};
ghost use Rattle.pricing_problem.specs.Form.{HasShortEnds};
ghost use Rattle.knapsack_table.specs.Loads.{items_of};
ghost use Rattle.knapsack_table.specs.Choices.{HasNoLoad, IsPicked};
ghost use Rattle.knapsack_table.specs.Rooms.{count_of};
ghost use Rattle.knapsack_table.specs.Tables.{cell_at, worth_size};

use crate::cells::Cells;
use crate::knapsack::Knapsack;
use crate::short::{self, are_short};
use crate::steps::choose;
use crate::table::fill;
use crate::trace::trace;
use crate::{short_choice, short_trace};
use bp_theory::Row;

/// The cost at a place.
fn cost_at(cells: &[i128], place: usize) -> i128
    requires { place < length cells.now }
    ensures { result ≡ cell_at cells.now place }
{
    cells[place]
}

/// The cost at a place, in 128 bits.
fn short_cost_at(cells: &[i64], place: usize) -> i128
    requires { place < length cells.now }
    ensures { result ≡ cell_at cells.now place }
{
    i128::from(cells[place])
}

/// The least cost of a load whose weight is at most a greatest one and meets a row, if there is such a load, whose point is
/// then written: by a table in 128 bits.
fn pick_long(
    cells: &mut Vec<i128>,
    point: &mut Vec<i64>,
    knapsack: &Knapsack,
    row: &Row,
    base: &i128,
    top: usize,
) -> Option<i128>
    requires point { vec_len point.old ≡ length knapsack.now.zone.now }
    requires coefs { length knapsack.now.coefs.now ≡ length knapsack.now.zone.now }
    requires costs { length knapsack.now.costs.now ≡ length knapsack.now.zone.now }
    requires proper { IsProper knapsack.now.zone.now }
    requires short { All HasShortEnds knapsack.now.zone.now }
    requires items { knapsack.now.items.now ≡ items_of knapsack.now.coefs.now knapsack.now.zone.now
        knapsack.now.costs.now }
    requires heavy { All (λ item. 0 < item.width → 0 < item.weight) knapsack.now.items.now }
    requires small { All (λ item. item.weight * item.width ≤ 2 ^ 20) knapsack.now.items.now }
    requires cost { worth_size knapsack.now.items.now ≤ 2 ^ 124 }
    requires base { unsigned_abs base.now ≤ 2 ^ 123 }
    requires top { top ≤ 2 ^ 20 }
    requires room { (length knapsack.now.zone.now + 1) * (top + 1) ≤ vec_len cells.old }
    ensures cells { vec_len cells.new ≡ vec_len cells.old }
    ensures point { vec_len point.new ≡ length knapsack.now.zone.now }
    ensures picked { MatchOption result (HasNoLoad knapsack.now.items.now row.now base.now top)
        (λ v. IsPicked knapsack.now.items.now row.now base.now top knapsack.now.coefs.now
        knapsack.now.zone.now knapsack.now.costs.now point.new.items v) }
{
    let last = knapsack.zone.len() * (top + 1);
    fill(cells, knapsack.items, top);
    match choose(cells, last, row, base, top) {
        Some(weight) => {
            trace(point, cells, knapsack, top, weight);
            Some(cost_at(cells, last + weight))
        }
        None => None,
    }
}

/// The same by a table in 64 bits, where no load costs more than 2 to the 59 in magnitude.
fn pick_short(
    cells: &mut Vec<i64>,
    point: &mut Vec<i64>,
    knapsack: &Knapsack,
    row: &Row,
    base: &i128,
    top: usize,
) -> Option<i128>
    requires point { vec_len point.old ≡ length knapsack.now.zone.now }
    requires coefs { length knapsack.now.coefs.now ≡ length knapsack.now.zone.now }
    requires costs { length knapsack.now.costs.now ≡ length knapsack.now.zone.now }
    requires proper { IsProper knapsack.now.zone.now }
    requires short { All HasShortEnds knapsack.now.zone.now }
    requires items { knapsack.now.items.now ≡ items_of knapsack.now.coefs.now knapsack.now.zone.now
        knapsack.now.costs.now }
    requires heavy { All (λ item. 0 < item.width → 0 < item.weight) knapsack.now.items.now }
    requires small { All (λ item. item.weight * item.width ≤ 2 ^ 20) knapsack.now.items.now }
    requires cost { worth_size knapsack.now.items.now ≤ 2 ^ 59 }
    requires base { unsigned_abs base.now ≤ 2 ^ 123 }
    requires top { top ≤ 2 ^ 20 }
    requires room { (length knapsack.now.zone.now + 1) * (top + 1) ≤ vec_len cells.old }
    ensures cells { vec_len cells.new ≡ vec_len cells.old }
    ensures point { vec_len point.new ≡ length knapsack.now.zone.now }
    ensures picked { MatchOption result (HasNoLoad knapsack.now.items.now row.now base.now top)
        (λ v. IsPicked knapsack.now.items.now row.now base.now top knapsack.now.coefs.now
        knapsack.now.zone.now knapsack.now.costs.now point.new.items v) }
{
    let last = knapsack.zone.len() * (top + 1);
    short::fill(cells, knapsack.items, top);
    match short_choice::choose(cells, last, row, base, top) {
        Some(weight) => {
            short_trace::trace(point, cells, knapsack, top, weight);
            Some(short_cost_at(cells, last + weight))
        }
        None => None,
    }
}

/// The same by the table in 64 bits where the costs allow it, else by that in 128 bits.
pub fn pick(
    cells: &mut Cells,
    point: &mut Vec<i64>,
    knapsack: &Knapsack,
    row: &Row,
    base: &i128,
    top: usize,
) -> Option<i128>
    requires point { vec_len point.old ≡ length knapsack.now.zone.now }
    requires coefs { length knapsack.now.coefs.now ≡ length knapsack.now.zone.now }
    requires costs { length knapsack.now.costs.now ≡ length knapsack.now.zone.now }
    requires proper { IsProper knapsack.now.zone.now }
    requires short { All HasShortEnds knapsack.now.zone.now }
    requires items { knapsack.now.items.now ≡ items_of knapsack.now.coefs.now knapsack.now.zone.now
        knapsack.now.costs.now }
    requires heavy { All (λ item. 0 < item.width → 0 < item.weight) knapsack.now.items.now }
    requires small { All (λ item. item.weight * item.width ≤ 2 ^ 20) knapsack.now.items.now }
    requires cost { worth_size knapsack.now.items.now ≤ 2 ^ 124 }
    requires base { unsigned_abs base.now ≤ 2 ^ 123 }
    requires top { top ≤ 2 ^ 20 }
    requires room { (length knapsack.now.zone.now + 1) * (top + 1) ≤ count_of cells.old }
    ensures cells { count_of cells.new ≡ count_of cells.old }
    ensures point { vec_len point.new ≡ length knapsack.now.zone.now }
    ensures picked { MatchOption result (HasNoLoad knapsack.now.items.now row.now base.now top)
        (λ v. IsPicked knapsack.now.items.now row.now base.now top knapsack.now.coefs.now
        knapsack.now.zone.now knapsack.now.costs.now point.new.items v) }
{
    if are_short(knapsack.items) {
        pick_short(&mut cells.short, point, knapsack, row, base, top)
    } else {
        pick_long(&mut cells.long, point, knapsack, row, base, top)
    }
}
