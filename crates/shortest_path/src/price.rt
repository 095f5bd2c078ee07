// The least cost of a point by a graph, and the point.
ghost use Rattle.std.specs.Prelude.{◌≡◌, ◌≤◌, ◌^◌, List, MatchOption, length, vec_len};
ghost use Rattle.bp_theory.specs.declared.Span.{Span};
ghost use Rattle.bp_theory.specs.declared.Row.{Row};
ghost use Rattle.pricing_problem.specs.Form.{IsPriceable, cost_size};
ghost use Rattle.pricing_problem.specs.Priced.{IsCheapest, HasNoPoint};
ghost use Rattle.layer_graph.specs.Graphs.{IsFaithful};
ghost use Rattle.shortest_path.specs.Best.{IsLeastFrom};
ghost use Rattle.shortest_path.specs.Pairs.{steps_with, AreLinked};
ghost use Rattle.shortest_path.specs.Rooms.{HasRoom};

use crate::least::{long_least, short_least};
use crate::pairs::Pair;
use crate::pass::{Work, has_way};
use crate::short::are_short;
use crate::walk::walk;
use bp_theory::{Items, Span};
use layer_graph::Graph;

/// A number as it is.
fn copied(number: &i128) -> i128
    ensures { result ≡ number.now }
{
    *number
}

/// The least cost of a way within a zone, if there is one, whose numbers the point then has, where the picks lead it.
fn answer_of(
    graph: &Graph,
    lists: &[Items<Pair>],
    work: &mut Work,
    zone: &[Span],
    costs: &[i128],
    least: &i128,
) -> Option<i128>
    requires room { HasRoom graph.now work.old }
    requires linked { AreLinked graph.now.wide graph.now.steps.items lists.now }
    requires zone { length zone.now ≡ vec_len graph.now.steps }
    requires costs { length costs.now ≡ vec_len graph.now.steps }
    requires least { IsLeastFrom (steps_with graph.now.wide graph.now.steps.items lists.now)
        work.old.picks.items zone.now costs.now 0 least.now }
    ensures room { HasRoom graph.now work.new }
    ensures answer { (rows : List Row) (spans : List Span) →
        IsFaithful rows spans (steps_with graph.now.wide graph.now.steps.items lists.now) →
        IsPriceable spans zone.now costs.now → MatchOption result (HasNoPoint rows zone.now)
        (λ v. IsCheapest rows zone.now costs.now work.new.point.items v) }
{
    if !has_way(least) {
        return None;
    }
    walk(&mut work.point, graph, lists, &work.picks, zone, costs);
    Some(copied(least))
}

/// The least cost of a way within a zone, if there is one, whose numbers the point then has: in 128 bits.
fn price_long(graph: &Graph, work: &mut Work, zone: &[Span], costs: &[i128]) -> Option<i128>
    requires room { HasRoom graph.now work.old }
    requires zone { length zone.now ≡ vec_len graph.now.steps }
    requires costs { length costs.now ≡ vec_len graph.now.steps }
    requires sizes { cost_size zone.now costs.now ≤ 2 ^ 123 }
    ensures room { HasRoom graph.now work.new }
    ensures answer { (rows : List Row) (spans : List Span) →
        IsFaithful rows spans graph.now.steps.items → IsPriceable spans zone.now costs.now →
        MatchOption result (HasNoPoint rows zone.now)
        (λ v. IsCheapest rows zone.now costs.now work.new.point.items v) }
{
    let least = long_least(graph, work, zone, costs);
    answer_of(graph, &[], work, zone, costs, &least)
}

/// The least cost of a way within a zone, if there is one, whose numbers the point then has: in 64 bits where that is enough.
pub fn price_zone(
    graph: &Graph,
    lists: &[Items<Pair>],
    work: &mut Work,
    zone: &[Span],
    costs: &[i128],
) -> Option<i128>
    requires room { HasRoom graph.now work.old }
    requires linked { AreLinked graph.now.wide graph.now.steps.items lists.now }
    requires zone { length zone.now ≡ vec_len graph.now.steps }
    requires costs { length costs.now ≡ vec_len graph.now.steps }
    requires sizes { cost_size zone.now costs.now ≤ 2 ^ 123 }
    ensures room { HasRoom graph.now work.new }
    ensures answer { (rows : List Row) (spans : List Span) →
        IsFaithful rows spans graph.now.steps.items →
        IsFaithful rows spans (steps_with graph.now.wide graph.now.steps.items lists.now) →
        IsPriceable spans zone.now costs.now →
        MatchOption result (HasNoPoint rows zone.now)
        (λ v. IsCheapest rows zone.now costs.now work.new.point.items v) }
{
    if are_short(zone, costs) {
        let least = short_least(graph, lists, work, zone, costs);
        return answer_of(graph, lists, work, zone, costs, &least);
    }
    price_long(graph, work, zone, costs)
}
