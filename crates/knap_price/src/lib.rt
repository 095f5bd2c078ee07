//! The pricing problem of a block of one row, a knapsack, solved by a table of least costs weight by weight (`knapsack_table`).
//! (Gilmore and Gomory, The theory and computation of knapsack functions, 1966.)
#![tactic(auto)]

mod pricer;

pub use knapsack_table::{Cells, Doubles, parts};
pub use pricer::{KnapPlan, KnapPricer};
