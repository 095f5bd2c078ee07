//! Certificates written in one spelling: whole ones, and their heads and lines one by one.
#![tactic(auto)]

mod differences;
mod writer;

pub use writer::{put_changed_line, put_changed_lines, put_claim, put_head, rewrite, write};
