//! The lines of a certificate, written into a file one by one: those in front of a tree at once, then each node's. No text is
//! kept in memory.
#![tactic(auto)]

mod lines;
mod stop;

pub use lines::{put_heads, put_line, put_nodes};
pub use stop::StreamStop;
