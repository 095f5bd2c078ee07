//! Classes of identical blocks in a zone: each class has one pricing problem, and its blocks share columns.
#![tactic(auto)]

mod classes;
mod group;
mod members;
mod signature;
mod table;

pub use classes::Classes;
