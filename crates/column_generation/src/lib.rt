//! Column generation in a zone: multipliers with a great dual bound by subgradient steps and by a restricted master, and the
//! columns that the pricing problems give for them. Nothing is promised of how good these are: exact bounds judge them. What
//! pools keep from node to node is promised: columns are points of their blocks.
#![tactic(auto)]

mod costs;
mod generation;
mod partition;
mod several;
mod start;
mod subgradient;

pub use generation::{Centre, Effort, add_class, generate_columns, mean_mult, round_up};
pub use subgradient::{Subgradient, are_alike, leaf_mults, take_steps};
