//! Making programs in blocks: the blocks that a decomposition gives a model or what it is refused for, and the same with
//! cuts. The parts are made by `block_build`; which proofs fit says `block_program`.
#![tactic(auto)]

mod check;
mod fault;

pub use block_program::{Block, Blocked, MAX_MULTIPLIER, MAX_SCALE, Zone, fits, signs_fit};
pub use check::{check_blocks, recut};
pub use fault::{BlockFault, Unblocked};
