//! The linear relaxation of the compact model, all rows and cuts without a decomposition, at nodes of programs whose
//! blocks have no rows: multipliers by a dual simplex that begins with the parent's basis, multipliers that show that
//! a node is empty, points by rounding and dives, and reliability branching (T. Achterberg, T. Koch and A. Martin,
//! Branching rules revisited, 2005). Nothing here decides: exact bounds judge multipliers, and the model judges
//! points.
#![tactic(auto)]

mod bases;
mod branch;
mod compact;
mod dive;
mod empty;
mod node;
mod numbers;
mod propagate;
mod relaxation;
mod rows;
mod scores;

pub use compact::relaxation_of;
pub use empty::at_scale;
pub use node::CompactHint;
pub use relaxation::{CompactRelaxation, has_no_block_rows};
