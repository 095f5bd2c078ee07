//! The parts of programs in blocks: from a model, a decomposition of it and rows of cuts the blocks and the rows that
//! proofs may name, by way of the rows of each variable, its homes and its link rows. `block_form` makes programs of them.
#![tactic(auto)]

mod assemble;
mod columns;
mod gather;
mod homes;
mod links;
mod parts;
mod places;
mod shares;
mod source;
mod stand;

pub use homes::first_elsewhere;
pub use links::are_large;
pub use parts::made_parts;
pub use places::var_places;
pub use source::{Source, Standing, source_of, standing_of};
