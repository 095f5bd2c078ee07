// Pricing a zone by a table.
ghost use Rattle.std.specs.Prelude.{◌≡◌, ◌≤◌, ◌+◌, ◌*◌, MatchOption, length, vec_len};
ghost use Rattle.pricing_problem.specs.Form.{IsPriceable};
ghost use Rattle.pricing_problem.specs.Priced.{IsCheapest, HasNoPoint};
ghost use Rattle.knapsack_table.specs.Rooms.{HasRoom, form_room, count_of};

use crate::cells::Cells;
use crate::form::{Form, Table};
use crate::knapsack::Knapsack;
use crate::narrow::narrow;
use crate::pick::pick;
use crate::steps::{product_sum, set_items, top_of, whole_load};
use bp_theory::Span;
use pricing_problem::plus;

/// The least cost of a point in a zone, if there is a point, which the table's point then is.
fn price_table(
    form: &Form,
    cells: &mut Cells,
    table: &mut Table,
    zone: &[Span],
    costs: &[i128],
) -> Option<i128>
    requires cells { (length form.now.spans.items + 1) * (form_room form.now + 1) ≤
        count_of cells.old }
    requires room { HasRoom form.now table.old }
    requires priceable { IsPriceable form.now.spans.items zone.now costs.now }
    ensures cells { count_of cells.new ≡ count_of cells.old }
    ensures room { HasRoom form.now table.new }
    ensures answer { MatchOption result (HasNoPoint form.now.rows.items zone.now)
        (λ v. IsCheapest form.now.rows.items zone.now costs.now table.new.point.items v) }
{
    set_items(&mut table.items, &mut table.point, &form.coefs, zone, costs);
    let base = product_sum(&form.coefs, &table.point, zone);
    let base_cost = product_sum(costs, &table.point, zone);
    let row = &form.rows[0];
    let top = top_of(row, &base, whole_load(&table.items));
    let knapsack = Knapsack {
        items: &table.items,
        coefs: &form.coefs,
        zone,
        costs,
    };
    match pick(cells, &mut table.point, &knapsack, row, &base, top) {
        Some(least) => Some(plus(&base_cost, &least)),
        None => None,
    }
}

/// The least cost of a point in a zone, if there is a point, which the table's point then is. Variables that can't help the
/// row stay at an end.
pub fn price_zone(
    form: &Form,
    cells: &mut Cells,
    table: &mut Table,
    part: &mut Vec<Span>,
    zone: &[Span],
    costs: &[i128],
) -> Option<i128>
    requires cells { (length form.now.spans.items + 1) * (form_room form.now + 1) ≤
        count_of cells.old }
    requires room { HasRoom form.now table.old }
    requires part { vec_len part.old ≡ length form.now.spans.items }
    requires priceable { IsPriceable form.now.spans.items zone.now costs.now }
    ensures cells { count_of cells.new ≡ count_of cells.old }
    ensures room { HasRoom form.now table.new }
    ensures part { vec_len part.new ≡ length form.now.spans.items }
    ensures answer { MatchOption result (HasNoPoint form.now.rows.items zone.now)
        (λ v. IsCheapest form.now.rows.items zone.now costs.now table.new.point.items v) }
{
    let row = &form.rows[0];
    narrow(part, row, &form.coefs, zone, costs);
    price_table(form, cells, table, part, costs)
}
