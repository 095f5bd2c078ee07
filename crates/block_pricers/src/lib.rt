//! Pricers for the blocks of a program: a table, a graph of states or an enumeration for each form of a block. Blocks of one form
//! have the same rows and root spans and share a pricer. What is known and told of each block stands beside it.
#![tactic(auto)]

mod desk;
mod desks;
mod forms;
mod pricers;
mod seats;
mod several;
mod told;
mod work;

pub use seats::seated;
pub use told::{Told, rooms_of, silence};
pub use work::Work;
