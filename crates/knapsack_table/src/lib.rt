//! The least costs of loads, weight by weight: a block of one row as items that are loaded unit by unit, its table in 64 or in
//! 128 bits, and the way back from a weight to a point. (Gilmore and Gomory, The theory and computation of knapsack functions,
//! 1966.)
#![tactic(auto)]

mod cells;
mod coefs;
mod form;
mod items;
mod knapsack;
mod narrow;
mod pick;
mod price;
mod short;
mod short_choice;
mod short_trace;
mod splits;
mod steps;
mod table;
mod trace;

pub use cells::Cells;
pub use coefs::is_taken;
pub use form::{Form, Table};
pub use price::price_zone;
pub use splits::{Doubles, parts};
