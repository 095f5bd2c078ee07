//! What proposed weights and multipliers of a restricted master come to: made to fit their ranges and signs, and measured
//! exactly, by how far they are from best and from meeting rows and counts.
#![tactic(auto)]

mod clip;
mod load;
mod measure;
mod numbers;
mod price;
mod short;
mod worth;

pub use clip::{clipped_multipliers, clipped_weights};
pub use measure::{gap_of, short_of};
pub use price::least_prices;
