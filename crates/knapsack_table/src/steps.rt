// The steps of pricing by a table.
ghost use Rattle.std.specs.Prelude.{◌≡◌, ◌<◌, ◌≤◌, ◌+◌, ◌*◌, ◌^◌, ◌↔◌, ◌+ℤ◌, ◌≤ℤ◌, pos, ℕ, Option, IfSome, IsTrue, All, length, vec_len, unsigned_abs, min};
ghost use Rattle.std.specs.Int.{int_gap};
ghost use Rattle.bp_theory.specs.Sums.{dot};
ghost use Rattle.bp_theory.specs.Program.{IsInside, Meets};
ghost use Rattle.bp_theory.specs.Bound.{box_least};
ghost use Rattle.bp_theory.specs.Trees.{IsProper};
ghost use Rattle.pricing_problem.specs.Form.{HasShortEnds, cost_size};
ghost use Rattle.knapsack_table.specs.Loads.{items_of, point_of, none_of};
ghost use Rattle.knapsack_table.specs.Choices.{IsBetter, IsChosen};
ghost use Rattle.knapsack_table.specs.Rooms.{room_for};
ghost use Rattle.knapsack_table.specs.Tables.{no_way, row_from, full_load};

use crate::items::{Item, make_item, number_with};
use crate::table::NO_WAY;
use bp_theory::{Row, Sense, Span};
use pricing_problem::{least_end, plus, times};

/// The scalar product of factors with numbers of a zone.
pub fn product_sum(factors: &[i128], numbers: &[i64], zone: &[Span]) -> i128
    requires each { length factors.now ≡ length zone.now }
    requires inside { IsInside zone.now numbers.now }
    requires small { cost_size zone.now factors.now ≤ 2 ^ 123 }
    ensures value { result ≡ dot factors.now numbers.now }
    ensures small { unsigned_abs result ≤ 2 ^ 123 }
{
    let mut sum = 0;
    for k in 0..zone.len() {
        let more = times(&factors[k], &numbers[k]);
        sum = plus(&sum, &more);
    }
    sum
}

/// The least that a row can add up to within spans, by the coefficients of each variable.
pub fn least_sum(coefs: &[i128], spans: &[Span]) -> i128
    requires each { length coefs.now ≡ length spans.now }
    requires small { cost_size spans.now coefs.now ≤ 2 ^ 123 }
    ensures value { result ≡ box_least spans.now coefs.now }
    ensures small { unsigned_abs result ≤ 2 ^ 123 }
{
    let mut sum = 0;
    for k in 0..spans.len() {
        let end = least_end(&spans[k], &coefs[k]);
        sum = plus(&sum, &end);
    }
    sum
}

/// The weight of all items whole.
pub fn whole_load(items: &[Item]) -> usize
    requires { full_load items.now ≤ 2 ^ 20 }
    ensures { result ≡ full_load items.now }
{
    let mut sum = 0;
    for k in (0..items.len()).rev() {
        sum += (items[k].weight * items[k].width) as usize;
    }
    sum
}

/// Makes the items of variables, and the point without any unit.
pub fn set_items(
    items: &mut Vec<Item>,
    point: &mut Vec<i64>,
    coefs: &[i128],
    zone: &[Span],
    costs: &[i128],
)
    requires items { vec_len items.old ≡ length zone.now }
    requires point { vec_len point.old ≡ length zone.now }
    requires coefs { length coefs.now ≡ length zone.now }
    requires costs { length costs.now ≡ length zone.now }
    requires proper { IsProper zone.now }
    requires short { All HasShortEnds zone.now }
    requires narrow { All (λ a. unsigned_abs a < 2 ^ 62) coefs.now }
    requires small { cost_size zone.now costs.now ≤ 2 ^ 123 }
    ensures items { items.new.items ≡ items_of coefs.now zone.now costs.now }
    ensures point { point.new.items ≡ point_of coefs.now zone.now costs.now (none_of coefs.now) }
{
    for k in 0..zone.len() {
        items[k] = make_item(&coefs[k], &zone[k], &costs[k]);
        point[k] = number_with(&coefs[k], &zone[k], &costs[k], 0);
    }
}

/// Whether a sum meets a row.
pub fn meets(row: &Row, sum: &i128) -> bool
    ensures { IsTrue result ↔ Meets row.now.sense row.now.low row.now.rhs sum.now }
{
    match row.sense {
        Sense::Le => is_most(sum, &row.rhs),
        Sense::Ge => is_least(sum, &row.low),
        Sense::Eq | Sense::In => is_least(sum, &row.low) && is_most(sum, &row.rhs),
    }
}

/// Whether a sum is at most a side.
fn is_most(sum: &i128, side: &i64) -> bool
    ensures { IsTrue result ↔ (sum.now ≤ℤ side.now) }
{
    *sum <= i128::from(*side)
}

/// Whether a sum is at least a side.
fn is_least(sum: &i128, side: &i64) -> bool
    ensures { IsTrue result ↔ (side.now ≤ℤ sum.now) }
{
    i128::from(*side) <= *sum
}

/// The greatest weight up to a reach that a row's upper side leaves above a base.
pub fn top_of(row: &Row, base: &i128, reach: usize) -> usize
    requires base { unsigned_abs base.now ≤ 2 ^ 123 }
    ensures { result ≡ room_for row.now.sense row.now.rhs base.now reach }
{
    match row.sense {
        Sense::Ge => reach,
        Sense::Le | Sense::Eq | Sense::In => room_of(&row.rhs, base, reach),
    }
}

/// How far a side is above a base, up to a reach.
fn room_of(side: &i64, base: &i128, reach: usize) -> usize
    requires base { unsigned_abs base.now ≤ 2 ^ 123 }
    ensures { result ≡ min reach (int_gap base.now side.now) }
{
    let room = i128::from(*side) - *base;
    if room <= 0 {
        0
    } else if room < reach as i128 {
        room as usize
    } else {
        reach
    }
}

/// Whether a weight has a load that is cheaper than that of the best weight so far, by a row of cells.
fn improves(cells: &[i128], start: usize, weight: usize, best: Option<usize>) -> bool
    requires there { start + weight < length cells.now }
    requires best { IfSome best (λ b. start + b < length cells.now) }
    ensures { IsTrue result ↔ IsBetter no_way (row_from cells.now start) weight best }
{
    match best {
        Some(known) => cells[start + weight] < cells[start + known],
        None => cells[start + weight] < NO_WAY,
    }
}

/// The weight of the least cost among those that meet the row, by a row of cells.
pub fn choose(cells: &[i128], start: usize, row: &Row, base: &i128, top: usize) -> Option<usize>
    requires room { start + top < length cells.now }
    requires small { top ≤ 2 ^ 20 }
    requires base { unsigned_abs base.now ≤ 2 ^ 123 }
    ensures { IsChosen no_way (row_from cells.now start) row.now base.now (top + 1) result }
{
    let mut best = None;
    for weight in 0..top + 1 {
        best = better_of(cells, start, row, base, weight, best);
    }
    best
}

/// The better one of a weight and the best weight so far.
fn better_of(
    cells: &[i128],
    start: usize,
    row: &Row,
    base: &i128,
    weight: usize,
    best: Option<usize>,
) -> Option<usize>
    requires there { start + weight < length cells.now }
    requires small { weight ≤ 2 ^ 20 }
    requires base { unsigned_abs base.now ≤ 2 ^ 123 }
    requires best { IsChosen no_way (row_from cells.now start) row.now base.now weight best }
    ensures { IsChosen no_way (row_from cells.now start) row.now base.now (weight + 1) result }
{
    let sum = moved(base, weight);
    if !meets(row, &sum) {
        return best;
    }
    if improves(cells, start, weight, best) {
        return Some(weight);
    }
    best
}

/// A sum that is so much greater.
pub fn moved(base: &i128, weight: usize) -> i128
    requires small { weight ≤ 2 ^ 20 }
    requires base { unsigned_abs base.now ≤ 2 ^ 123 }
    ensures { result ≡ base.now +ℤ pos weight }
{
    *base + weight as i128
}
