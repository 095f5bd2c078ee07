//! The evaluation of an open node: it is shut by a proof that settles its zone against the incumbent, or branched on with a dual bound
//! that a proof shows, and a cheaper point is told where one was found. Points and multipliers come as hints: the model judges the
//! points, and exact bounds judge the multipliers.
#![tactic(auto)]

mod compact;
mod leaf;
mod raise;

pub use leaf::evaluate;
