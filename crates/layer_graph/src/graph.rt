// The graph: nodes in layers, and what leads from one layer to the next.
ghost use Rattle.std.specs.Prelude.{◌<◌};
ghost use Rattle.layer_graph.specs.Graphs.{IsSafe};

use bp_theory::{Items, Span};

/// Numbers of a layer's variable that lead from a node of the layer to a node of the next.
#[derive(Clone, Copy)]
pub struct Arc {
    /// The number of the node that it starts at, from 0 in its layer.
    pub from: u32,
    /// The number of the node of the next layer that it leads to.
    pub to: u32,
    /// The numbers of the layer's variable that lead there.
    pub label: Span,
}

/// The arcs of each layer, a number above those of the nodes of each layer, and how many arcs there were before nodes were
/// merged. Node 0 of the first layer is the root; each node behind the last layer is an end.
#[derive(Drop)]
pub struct Graph {
    /// By layer: its arcs.
    pub steps: Vec<Items<Arc>>,
    /// A number above those of the nodes of each layer.
    pub wide: usize,
    /// How many arcs there were before nodes were merged.
    pub made: usize,
    // There is a root.
    pub ghost rooted: { 0 < wide },
    // Arcs start at nodes below `wide` and lead to such, and a layer has fewer than 2^32 arcs.
    pub ghost safe: { IsSafe wide steps.items },
}
