//! The words of the command line: the order that they give, or their refusal.
#![tactic(auto)]

mod command;
mod read;

pub use cli_orders::{CheckOrder, MergeOrder, Order, SolveOrder, Text, Watching, WordFault};
pub use read::read_words;
