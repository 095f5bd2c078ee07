//! The open nodes of a branch-and-bound tree: the growing tree, the queue of its live leaves by dual bound with paths that
//! share their beginnings, the turn that a node is handed out as, the bound that a search begins with, and how nodes are queued and branched on.
#![tactic(auto)]

mod bound;
mod changes;
mod copies;
mod filling;
mod forking;
mod nodes;
mod path;
mod place;
mod queue;
mod shared;
mod tree;
mod turn;

pub use crate::bound::plain_bound;
pub use crate::copies::proof_copy;
pub use crate::filling::{depth_in, filled_queue, steps_in};
pub use crate::forking::{Fork, fork_leaf};
pub use crate::nodes::{GrowingNode, grown};
pub use crate::path::SharedPath;
pub use crate::place::put;
pub use crate::queue::{LeafQueue, bound_of, key_at};
pub use crate::shared::{Bases, SharedProof};
pub use crate::tree::Tree;
pub use crate::turn::{Turn, turn_at};
