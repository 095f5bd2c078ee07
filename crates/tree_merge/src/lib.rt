//! Two trees of one program, with their incumbents, merged into one that is as far as both: what is shut in either stays shut,
//! and what is open in both keeps the better dual bound.
#![tactic(auto)]

mod laws;
mod merging;
mod nodes;

pub use laws::{
    bounds_rise, leaves_are_worth, merge_keeps, merged_by_node, merged_with_itself, nodes_add_up,
    nothing_is_lost, order_is_free,
};
pub use merging::merge;
