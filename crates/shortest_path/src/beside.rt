// The numbers of a way through given arcs.
ghost use Rattle.std.specs.Prelude.{◌≡◌, ◌<◌, IfSome, length, vec_len};
ghost use Rattle.std.specs.Bool.{OnTrue};
ghost use Rattle.bp_theory.specs.Program.{IsInside};
ghost use Rattle.layer_graph.specs.Graphs.{IsWay};

use crate::pass::{is_open, number_of};
use bp_theory::Span;
use layer_graph::{Arc, Graph};

// The place of a layer's arc, where it has so many.
fn place_in(arcs: &[Arc], places: &[u32], layer: usize) -> Option<usize>
    ensures { IfSome result (λ place. place < length arcs.now) }
{
    match places.get(layer) {
        Some(place) if (*place as usize) < arcs.len() => Some(*place as usize),
        _ => None,
    }
}

/// Writes the cheapest numbers of arcs, one of each layer given by its place there, as long as these make a way within a zone,
/// from behind; whether they make one from the root.
pub fn write_way(
    point: &mut Vec<i64>,
    graph: &Graph,
    places: &[u32],
    zone: &[Span],
    costs: &[i128],
) -> bool
    requires point { vec_len point.old ≡ length zone.now }
    requires steps { vec_len graph.now.steps ≡ length zone.now }
    requires costs { length costs.now ≡ length zone.now }
    ensures many { vec_len point.new ≡ vec_len point.old }
    ensures way { OnTrue result (IsWay graph.now.steps.items 0 point.new.items) }
    ensures inside { OnTrue result (IsInside zone.now point.new.items) }
{
    let mut node = 0;
    for k in (0..zone.len()).rev() {
        let arcs = graph.steps[k].as_slice();
        let Some(place) = place_in(arcs, places, k) else {
            return false;
        };
        let arc = &arcs[place];
        let goes_on = k + 1 == zone.len() || arc.to == node;
        if !goes_on || !is_open(&arc.label, &zone[k]) {
            return false;
        }
        point[k] = number_of(&arc.label, &zone[k], &costs[k]);
        node = arc.from;
    }
    node == 0
}
