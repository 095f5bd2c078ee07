// The way that the picks lead.
ghost use Rattle.std.specs.Prelude.{◌≡◌, All, length, vec_len};
ghost use Rattle.shortest_path.specs.Best.{LeadsOn, way_of};
ghost use Rattle.shortest_path.specs.Pairs.{steps_with, AreLinked};

use crate::pairs::{Pair, arc_of, pairs_at};
use crate::pass::number_of;
use crate::picks::Picks;
use bp_theory::{Items, Span};
use layer_graph::Graph;

/// Writes the numbers of the way that the picks lead from the root.
pub fn walk(
    point: &mut Vec<i64>,
    graph: &Graph,
    lists: &[Items<Pair>],
    picks: &Vec<Picks>,
    zone: &[Span],
    costs: &[i128],
)
    requires point { vec_len point.old ≡ length zone.now }
    requires steps { vec_len graph.now.steps ≡ length zone.now }
    requires many { vec_len picks.now ≡ length zone.now }
    requires picks { All (λ row. length row ≡ graph.now.wide) picks.now.items }
    requires costs { length costs.now ≡ length zone.now }
    requires linked { AreLinked graph.now.wide graph.now.steps.items lists.now }
    requires leads { LeadsOn (steps_with graph.now.wide graph.now.steps.items lists.now)
        picks.now.items zone.now 0 }
    ensures { point.new.items ≡ way_of
        (steps_with graph.now.wide graph.now.steps.items lists.now) picks.now.items zone.now
        costs.now 0 }
{
    let mut node = 0;
    for k in 0..zone.len() {
        let place = picks[k].at(node) as usize;
        let arcs = graph.steps[k].as_slice();
        let arc = arc_of(arcs, pairs_at(lists, k), graph.wide, place);
        point[k] = number_of(&arc.label, &zone[k], &costs[k]);
        node = arc.to as usize;
    }
}
