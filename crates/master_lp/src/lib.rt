//! The restricted master problem of column generation in whole numbers: weights of columns and multipliers of rows by a simplex
//! that rounds, and beside each answer its exact gap and its exact shortfall. It is the exact measure of a restricted master; the search
//! itself runs on the one in `f64` (`restricted_master`), since nothing that it claims rests on a master's answer.
#![tactic(auto)]

mod answer;
mod master;
mod measure;

pub use answer::MasterAnswer;
pub use exact_simplex::Proposal;
pub use master::{Master, solve_master};
