//! The words of lists of master rows, and the lines of texts of decompositions; with the laws by which such a text is read
//! back.
#![tactic(auto)]

mod fault;
mod rows;
mod text;

pub use fault::{RowsFault, RowsKind};
pub use rows::Listing;
pub use text::Lines;
