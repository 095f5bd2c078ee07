//! The nodes of a certificate's tree as those of a tree from which a search goes on: a leaf is shut or open, and the first open node
//! that is too deep is told by its line.
#![tactic(auto)]

mod leaf;
mod nodes;
mod walk;

pub use nodes::load_node;
pub use walk::Walk;
