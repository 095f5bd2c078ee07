//! Rows that common variables join: the forest in which they are tied, and its trees as blocks, numbered by their first row;
//! with the laws of the decomposition beside master rows.
#![tactic(auto)]

mod fault;
mod join;
mod trees;

pub use fault::FindFault;
pub use join::tied_rows;
pub use trees::{Places, marks_of, numbered};
