//! Programs in blocks, their blocks, and zones of their points: what all that prices, bounds, branches and checks stands
//! on. `block_form` makes them of models and decompositions. A dual proof fits such a program if it names master rows and
//! blocks that are there, each once and in order, within the limits, and the signs of its multipliers fit the senses of the rows.
#![tactic(auto)]

mod block;
mod blocked;
mod fitting;
mod zone;

pub use block::Block;
pub use blocked::{Base, Blocked};
pub use fitting::{MAX_MULTIPLIER, MAX_SCALE, fits, signs_fit};
pub use zone::Zone;
