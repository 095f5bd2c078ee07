//! The commands that make and show decompositions. `show` prints the sizes of a program in blocks, `detect` writes the decomposition
//! beside master rows that a file lists, and `propose` writes one that it chooses itself.
#![tactic(auto)]

mod detection;
mod proposal;
mod showing;

pub use detection::detect;
pub use proposal::propose;
pub use showing::show;
