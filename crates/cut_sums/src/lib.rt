//! The sums of rows that rounding cuts are made from: the rows that a cut may combine, whether its multipliers fit them,
//! their sum divided and rounded up by variable and at the lower ends of the spans, the row of these coefficients, and the
//! divisors that plain cuts are made with.
#![tactic(auto)]

mod bounded;
mod combine;
mod cuts;
mod demands;
mod divisor;
mod fault;
mod rounding;
mod rows;
mod signs;

pub use crate::bounded::bounded_row;
pub use crate::cuts::{copies_of, lone_cut};
pub use crate::demands::demand;
pub use crate::divisor::{MAX_DIVISOR, sharpening};
pub use crate::fault::CutFault;
pub use crate::rounding::{round_up, rounded};
pub use crate::rows::Rows;
pub use crate::signs::signs_fit;
