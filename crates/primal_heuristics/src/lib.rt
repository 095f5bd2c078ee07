//! Points of a program's blocks and rows: spans tightened by rows, a search by propagation, cheaper points by
//! exchanges, what rows can reach, and what points leave open of them. It needs the program in blocks alone. All are
//! hints, which exact bounds and the model judge.
#![tactic(auto)]

mod bins;
mod copies;
mod entries;
mod exchanges;
mod guide;
mod incumbent;
mod narrowing;
mod packing;
mod propagation;
mod reach;
mod residuals;
mod spans;

pub use copies::{copy_count, copy_place, has_further_rows, is_first_copy, linking_vars};
pub use entries::Entries;
pub use exchanges::improve_point;
pub use guide::{Guide, Order, dense_costs, guide_of, plain_guide, reduced_cost, reduced_costs};
pub use incumbent::{Incumbent, feasible_cost, is_below, is_reached};
pub use narrowing::{is_one_point, narrow};
pub use packing::{Alike, Moves, pack};
pub use propagation::search_point;
pub use reach::{
    Reach, at, clipped, count, ends, has_lower, has_upper, missing_sign, product, put, quotient,
    reach_of, sum_at, term_ends, unreached, whole,
};
pub use residuals::{UNIT, meets, signed, slope, write_sums};
pub use spans::{Spans, forget, set, take_back, tighten};
