//! What is searched for freely in a node's zone, in order: a point by plain costs, multipliers by subgradient steps,
//! points near them, columns, points of columns, and a variable to split. Nothing is promised of how good these are:
//! exact bounds and the model judge them. What pools keep from node to node is promised: columns are points of their
//! blocks.
#![tactic(auto)]

mod compact;
mod hint;
mod links;
mod points;

pub use compact::compact_hint;
pub use hint::{Hint, Split, hinted};
pub use node_memory::{MOST_VISITS, NodeContext, Pools, PricingBudget};
pub use primal_heuristics::unreached;
