//! Tables that find names, and the variables and rows of a model by their names.
//! They stand apart from `bp_model`, so that what stands on a model alone loads no map.
#![tactic(auto)]

mod indexed;
mod table;

pub use indexed::IndexedModel;
pub use table::NameTable;
