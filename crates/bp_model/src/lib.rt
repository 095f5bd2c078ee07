//! Bounded integer programs with named variables and rows: what a text means, and what all above solve.
//! A model keeps its limits, so that no sum over its points leaves 62 bits.
#![tactic(auto)]

mod dec;
mod limits;
mod model;
mod names;
mod parts;
mod points;
mod tidy;

pub use bp_theory::{Items, Row, Sense, Span, Term};
pub use dec::Dec;
pub use limits::MAX_NUMBER;
pub use model::Model;
pub use names::NameList;
pub use parts::{ModelFault, Parts};
pub use points::{Miss, activity, first_missed, first_outside, meets};
