//! What hints keep from node to node: the pricers of a program's blocks with a budget of prices, and pools of the points that
//! these gave, as columns. Nothing is promised of how good they are; that columns stay points of their blocks is.
#![tactic(auto)]

mod budget;
mod node;
mod pools;
mod wide;

pub use budget::{MOST_VISITS, PricingBudget, alone, is_settled};
pub use node::NodeContext;
pub use pools::{Place, Pools};
