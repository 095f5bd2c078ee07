// The least cost of a way within a zone, by each of the two passes.
ghost use Rattle.std.specs.Prelude.{◌≡◌, ◌<◌, ◌≤◌, ◌^◌, length, vec_len};
ghost use Rattle.pricing_problem.specs.Form.{cost_size};
ghost use Rattle.shortest_path.specs.Best.{cell_at, IsLeastFrom};
ghost use Rattle.shortest_path.specs.Short.{widened};
ghost use Rattle.shortest_path.specs.Pairs.{steps_with, AreLinked};
ghost use Rattle.shortest_path.specs.Rooms.{HasRoom};

use crate::pairs::Pair;
use crate::pass::{NO_WAY, Work, pass};
use crate::short::{has_short_way, short_pass};
use bp_theory::{Items, Span};
use layer_graph::Graph;

/// The first cell.
fn first_of(cells: &Vec<i128>) -> i128
    requires { 0 < vec_len cells.now }
    ensures { result ≡ cell_at cells.now.items 0 }
{
    cells[0]
}

/// A number in 128 bits.
fn widened_of(number: &i64) -> i128
    ensures { result ≡ number.now }
{
    i128::from(*number)
}

/// What the first cell of 64 bits says.
fn first_widened(cells: &Vec<i64>) -> i128
    requires { 0 < vec_len cells.now }
    ensures { result ≡ cell_at (widened cells.now.items) 0 }
{
    let cell = &cells[0];
    if !has_short_way(cell) {
        return NO_WAY;
    }
    widened_of(cell)
}

/// The least cost of a way within a zone, which the picks then lead, or that of no way: in 64 bits.
pub fn short_least(
    graph: &Graph,
    lists: &[Items<Pair>],
    work: &mut Work,
    zone: &[Span],
    costs: &[i128],
) -> i128
    requires room { HasRoom graph.now work.old }
    requires linked { AreLinked graph.now.wide graph.now.steps.items lists.now }
    requires zone { length zone.now ≡ vec_len graph.now.steps }
    requires costs { length costs.now ≡ vec_len graph.now.steps }
    requires sizes { cost_size zone.now costs.now ≤ 2 ^ 60 }
    ensures room { HasRoom graph.now work.new }
    ensures least { IsLeastFrom (steps_with graph.now.wide graph.now.steps.items lists.now)
        work.new.picks.items zone.now costs.now 0 result }
{
    short_pass(work, graph, lists, zone, costs);
    first_widened(&work.short_next)
}

/// The same in 128 bits.
pub fn long_least(graph: &Graph, work: &mut Work, zone: &[Span], costs: &[i128]) -> i128
    requires room { HasRoom graph.now work.old }
    requires zone { length zone.now ≡ vec_len graph.now.steps }
    requires costs { length costs.now ≡ vec_len graph.now.steps }
    requires sizes { cost_size zone.now costs.now ≤ 2 ^ 123 }
    ensures room { HasRoom graph.now work.new }
    ensures least { IsLeastFrom graph.now.steps.items work.new.picks.items zone.now costs.now 0
        result }
{
    pass(work, graph, zone, costs);
    first_of(&work.next)
}
