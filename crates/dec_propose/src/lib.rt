//! A decomposition that is chosen for a model whose master rows nobody told: lists of master rows are tried, by the
//! names, the forms and the lengths of rows, by borders in orders of rows and by partitions of the graph of rows, and
//! the one is kept whose blocks promise most. The decomposition is always the one beside some master rows; nothing is
//! promised of how good it is.
#![tactic(auto)]

mod borders;
mod choose;
mod columns;
mod graph;
mod groups;
mod marks;
mod order;
mod partition;
mod peel;
mod score;

pub use choose::guess;
