//! The dual bound of a proof in a zone, exactly, by weak Lagrangian duality: what the multipliers give before the blocks
//! (`reduced_costs`), the optimum of each picked block's pricing problem (`block_pricers`), and the least reduced cost of each other
//! block over its box. (Geoffrion, Lagrangean relaxation for integer programming, 1974; Vanderbeck, On Dantzig-Wolfe decomposition in
//! integer programming and ways to perform branching in a branch-and-price algorithm, 2000.)
#![tactic(auto)]

mod alike;
mod bounded;
mod parts;
mod plain;
mod rounded;

pub use alike::bound;
pub use block_pricers::Work;
pub use bounded::{Bounded, sum_bound};
pub use plain::box_bound;
pub use reduced_costs::{base, box_least, fill_spans, is_picked, reduced_cost};
pub use rounded::round;
