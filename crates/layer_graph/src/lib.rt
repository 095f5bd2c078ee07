//! Graphs of layers: nodes in layers, arcs from each layer to the next, each with the numbers of a variable, and the ways through
//! them. Here stand what such a graph is, and what it means that its ways are the points of rows within spans; how one is made
//! of a block (`state_graph`) and how a cheapest way is found (`shortest_path`) stand on this alone.
#![tactic(auto)]

mod graph;

pub use graph::{Arc, Graph};
