// The way back through a table: the units of a cheapest load, and its point.
ghost use Rattle.std.specs.Prelude.{◌≡◌, ◌<◌, ◌≤◌, ◌+◌, ◌*◌, ◌^◌, ◌↔◌, ◌<ℤ◌, ℕ, List, IsTrue, All, length, vec_len, unsigned_abs};
ghost use Rattle.bp_theory.specs.Trees.{IsProper};
ghost use Rattle.pricing_problem.specs.Form.{HasShortEnds};
ghost use Rattle.knapsack_table.specs.Loads.{items_of, point_of};
ghost use Rattle.knapsack_table.specs.Tables.{no_way, far, cell_at, row_from, row_at, Reaches, AreRows, AreBounded, Follows, worth_size};

use crate::items::{Item, number_with};
use crate::knapsack::Knapsack;
use crate::table::cost_of;
use pricing_problem::plus;

/// Whether a cell comes by so many units from the row above.
fn follows(
    cells: &[i128],
    above: usize,
    weight: usize,
    cell: &i128,
    item: &Item,
    units: u64,
) -> bool
    requires there { above + weight < length cells.now }
    requires fits { units ≤ item.now.width }
    requires small { item.now.weight * item.now.width ≤ 2 ^ 20 }
    requires heavy { 0 < item.now.width → 0 < item.now.weight }
    requires cost { unsigned_abs item.now.cost * item.now.width ≤ 2 ^ 124 }
    requires bounded { AreBounded (2 ^ 126 + 2 ^ 124) weight (row_from cells.now above) }
    ensures { IsTrue result ↔ Follows item.now (row_from cells.now above) weight cell.now units }
{
    let shift = (item.weight * units) as usize;
    if shift > weight {
        return false;
    }
    let more = cost_of(&item.cost, units);
    *cell == plus(&cells[above + (weight - shift)], &more)
}

/// The fewest units by which the cell of a weight comes from the row above.
fn units_at(cells: &[i128], here: usize, above: usize, item: &Item, weight: usize) -> u64
    requires here { here + weight < length cells.now }
    requires above { above + weight < length cells.now }
    requires small { item.now.weight * item.now.width ≤ 2 ^ 20 }
    requires heavy { 0 < item.now.width → 0 < item.now.weight }
    requires cost { unsigned_abs item.now.cost * item.now.width ≤ 2 ^ 124 }
    requires bounded { AreBounded (2 ^ 126 + 2 ^ 124) weight (row_from cells.now above) }
    requires some { (u : ℕ) × (u ≤ item.now.width) ×
        Follows item.now (row_from cells.now above) weight (row_from cells.now here weight) u }
    ensures fits { result ≤ item.now.width }
    ensures follows { Follows item.now (row_from cells.now above) weight
        (row_from cells.now here weight) result }
{
    let cell = &cells[here + weight];
    for units in 0..item.width {
        if follows(cells, above, weight, cell, item, units) {
            return units;
        }
    }
    item.width
}

/// Writes the point of a load that the cell of a weight in the last row stands for.
pub fn trace(point: &mut Vec<i64>, cells: &[i128], knapsack: &Knapsack, top: usize, weight: usize)
    requires point { vec_len point.old ≡ length knapsack.now.zone.now }
    requires coefs { length knapsack.now.coefs.now ≡ length knapsack.now.zone.now }
    requires costs { length knapsack.now.costs.now ≡ length knapsack.now.zone.now }
    requires proper { IsProper knapsack.now.zone.now }
    requires short { All HasShortEnds knapsack.now.zone.now }
    requires items { knapsack.now.items.now ≡ items_of knapsack.now.coefs.now knapsack.now.zone.now
        knapsack.now.costs.now }
    requires heavy { All (λ item. 0 < item.width → 0 < item.weight) knapsack.now.items.now }
    requires small { All (λ item. item.weight * item.width ≤ 2 ^ 20) knapsack.now.items.now }
    requires cost { worth_size knapsack.now.items.now ≤ 2 ^ 124 }
    requires room { (length knapsack.now.zone.now + 1) * (top + 1) ≤ length cells.now }
    requires rows { AreRows far knapsack.now.items.now top (row_at cells.now top) }
    requires weight { weight ≤ top }
    requires way { row_at cells.now top (length knapsack.now.zone.now) weight <ℤ no_way }
    ensures { (us : List ℕ) × Reaches knapsack.now.items.now us weight (row_at cells.now top (length
        knapsack.now.zone.now) weight) × (point.new.items ≡ point_of knapsack.now.coefs.now
        knapsack.now.zone.now knapsack.now.costs.now us) }
{
    let mut left = weight;
    let mut here = knapsack.zone.len() * (top + 1);
    for k in 0..knapsack.zone.len() {
        let above = here - (top + 1);
        let units = units_at(cells, here, above, &knapsack.items[k], left);
        point[k] = number_with(
            &knapsack.coefs[k],
            &knapsack.zone[k],
            &knapsack.costs[k],
            units,
        );
        left -= (knapsack.items[k].weight * units) as usize;
        here = above;
    }
}
