//! Where a search begins: at the tree of a certificate's file, once it is judged, or at the root; at an open node of it by its number; and
//! over which program in blocks: with the cuts of that certificate, and further ones behind them.
#![tactic(auto)]

mod cuts;
mod leaf;
mod start;

pub use start::{Start, begin};
