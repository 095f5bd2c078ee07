// The choice of a weight by a row of cells in 64 bits.
ghost use Rattle.std.specs.Prelude.{◌≡◌, ◌<◌, ◌≤◌, ◌+◌, ◌^◌, ◌↔◌, ℕ, Option, IfSome, IsTrue, length, unsigned_abs};
ghost use Rattle.knapsack_table.specs.Choices.{IsBetter, IsChosen};
ghost use Rattle.knapsack_table.specs.Tables.{short_no_way, row_from};

use crate::short::NO_WAY;
use crate::steps::{meets, moved};
use bp_theory::Row;

/// Whether a weight has a load that is cheaper than that of the best weight so far, by a row of cells.
fn improves(cells: &[i64], start: usize, weight: usize, best: Option<usize>) -> bool
    requires there { start + weight < length cells.now }
    requires best { IfSome best (λ b. start + b < length cells.now) }
    ensures { IsTrue result ↔ IsBetter short_no_way (row_from cells.now start) weight best }
{
    match best {
        Some(known) => cells[start + weight] < cells[start + known],
        None => cells[start + weight] < NO_WAY,
    }
}

/// The weight of the least cost among those that meet the row, by a row of cells.
pub fn choose(cells: &[i64], start: usize, row: &Row, base: &i128, top: usize) -> Option<usize>
    requires room { start + top < length cells.now }
    requires small { top ≤ 2 ^ 20 }
    requires base { unsigned_abs base.now ≤ 2 ^ 123 }
    ensures { IsChosen short_no_way (row_from cells.now start) row.now base.now (top + 1) result }
{
    let mut best = None;
    for weight in 0..top + 1 {
        best = better_of(cells, start, row, base, weight, best);
    }
    best
}

/// The better one of a weight and the best weight so far.
fn better_of(
    cells: &[i64],
    start: usize,
    row: &Row,
    base: &i128,
    weight: usize,
    best: Option<usize>,
) -> Option<usize>
    requires there { start + weight < length cells.now }
    requires small { weight ≤ 2 ^ 20 }
    requires base { unsigned_abs base.now ≤ 2 ^ 123 }
    requires best { IsChosen short_no_way (row_from cells.now start) row.now base.now weight best }
    ensures { IsChosen short_no_way (row_from cells.now start) row.now base.now (weight + 1) result }
{
    let sum = moved(base, weight);
    if !meets(row, &sum) {
        return best;
    }
    if improves(cells, start, weight, best) {
        return Some(weight);
    }
    best
}
