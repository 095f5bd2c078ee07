//! Columns dealt out to the blocks of their classes in order, each as often as its weight says: whether weights are
//! whole and add up, the column that each block gets, the point of these and whether all copies of a variable agree in
//! it, the variable that is farthest from whole, and where a zone is split.
#![tactic(auto)]

mod agree;
mod deal;
mod mixed;
mod point;
mod split;
mod whole;

pub use agree::copies_agree;
pub use deal::{columns_of_blocks, decks};
pub use mixed::most_mixed;
pub use point::dealt_point;
pub use split::chosen_split;
pub use whole::is_spreadable;
