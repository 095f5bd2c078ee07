//! Reduced costs, exactly: what a dual proof's multipliers give before the blocks, the reduced cost of each variable of a block, and
//! the least of their sum over the block's box. (Geoffrion, Lagrangean relaxation for integer programming, 1974.)
#![tactic(auto)]

mod boxes;
mod costs;
mod filled;
mod picked;

pub use boxes::box_least;
pub use costs::{base, reduced_cost};
pub use filled::{fill_costs, fill_spans};
pub use picked::is_picked;
