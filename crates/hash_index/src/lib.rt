//! An index of hashes, by which what stands in a list is found, and sets of numbers. They serve where a type that crates above
//! see would otherwise have a map of a library in a field, all of which each of these crates would load.
#![tactic(auto)]

mod index;
mod number_set;

pub use index::HashIndex;
pub use number_set::NumberSet;
