//! Sparse factors of a basis in `f64`: lower and upper factors by singletons and Markowitz's counts, and updates in
//! product form. A basis has one member for each row: a column, or the logical of a row. Everything here serves hints:
//! what is promised is that each call returns, keeps the lengths of what it is given, and names only members that there
//! are.
#![tactic(auto)]

mod builder;
mod etas;
mod factor;
mod lists;
mod nucleus;
mod numbers;
mod vectors;

pub use factor::{Basic, Factor, Replaced};
pub use numbers::{NONE, at, dot, place, put, take_multiple};
pub use vectors::{Entry, Vectors};
