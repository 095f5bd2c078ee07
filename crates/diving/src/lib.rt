//! Dives to feasible points: columns of the restricted master, or variables, are fixed one after another and the rest is solved
//! again. Nothing is promised of how good the points are: the model judges them.
#![tactic(auto)]

mod dives;
mod link_dives;
mod rest;
mod var_dives;

pub use dives::{Dived, Style, dive_by_columns, drawn};
pub use var_dives::dive_by_variables;
