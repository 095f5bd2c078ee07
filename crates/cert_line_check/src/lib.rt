//! How the lines of a certificate are judged: the line of its point, those of its cuts, and those of its tree, where each
//! leaf's bound is computed anew. A line passes, or has its fault; a leaf may ask for more visits than are left.
#![tactic(auto)]

mod ahead;
mod cuts;
mod leaf;
mod place;
mod point;
mod price;
mod tree;
mod visits;

pub use ahead::{Ahead, push_parts};
pub use cuts::{judge_cut, judge_cuts};
pub use leaf::judge_leaf;
pub use place::{NodePlace, Rejection, Stop};
pub use point::{judge_claim, judge_point};
pub use price::bound_in;
pub use tree::{back, judge_tree, sound_span, to_high, to_low};
