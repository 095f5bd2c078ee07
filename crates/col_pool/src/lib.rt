//! Pools of columns: points of a block, each once and in the order in which they came, with what they give the
//! restricted master. Column generation adds the points that pricing finds, and takes those of a zone from there. Blocks
//! that are the same may share a pool, which stands beside the number of the block that owns it.
#![tactic(auto)]

mod activities;
mod column;
mod fault;
mod index;
mod numbers;
mod pool;
mod store;
mod within;

pub use column::Column;
pub use fault::{Added, PoolFault};
pub use pool::{MAX_COLUMNS, Pool};
pub use store::Store;
pub use within::Within;
