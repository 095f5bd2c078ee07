//! Orders of a block's variables: each stands in one once, at its place. Rows, spans, costs and points are written in an order and
//! back, and a rule says in which order the graph of a block may have fewer arcs.
#![tactic(auto)]

mod order;
mod rule;

pub use order::{Order, arrange_costs, arrange_spans, put_back, renamed_rows};
pub use rule::other_order;
