//! The branch-and-bound tree of a search: open nodes (live leaves) with their dual proofs and bounds, shut leaves, and splits; which
//! open node is next, and what stands in the tree once a node is shut or branched on.
#![tactic(auto)]

mod grove;
mod loaded;
mod outcome;

pub use crate::grove::Grove;
pub use crate::loaded::Loaded;
pub use crate::outcome::Outcome;
pub use open_nodes::{Bases, Fork, GrowingNode, SharedProof, Tree, Turn, grown, proof_copy};
pub use search_laws::{Next, Side, Verdict};
