//! The graph of states of a block: layer by layer, what the rows that have begun still leave to the variables behind, one window of
//! sums for all rows with the same variables left. From the last layer to the first, nodes with the same arcs then become one.
//! Its ways are the block's points. (Trick, A dynamic programming approach for consistency and propagation for knapsack
//! constraints, 2003.)
#![tactic(auto)]

mod beginnings;
mod clip;
mod columns;
mod expand;
mod fans;
mod graph;
mod layers;
mod merge;
mod root;
mod states;
mod twins;

pub use beginnings::has_beginnings;
pub use graph::build;
