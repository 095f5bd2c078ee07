//! The simplex of a restricted master in whole numbers: it proposes weights of columns and multipliers of rows. Nothing is
//! promised of them but that calls return; `master_gap` tells exactly how far they are from best.
#![tactic(auto)]

mod fixed;
mod line;
mod proposal;
mod simplex;

pub use proposal::Proposal;
pub use simplex::Simplex;
