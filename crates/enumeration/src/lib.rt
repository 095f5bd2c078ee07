//! A search depth first over a block's variables for its cheapest point in a zone, pruned by what each row can still reach, by cost,
//! and by cost with rows added. All memory that it needs is taken before.
#![tactic(auto)]

mod caps;
mod columns;
mod dive;
mod divisor;
mod form;
mod frame;
mod moves;
mod multipliers;
mod order;
mod relax;
mod search;
mod shifts;
mod start;
mod steps;
mod subproblem;

pub use caps::{prefixes, visits_under};
pub use columns::Entry;
pub use dive::{Dive, Visits};
pub use form::Form;
pub use frame::Frame;
pub use moves::rows_can_meet;
pub use multipliers::Multipliers;
pub use order::{Key, set_order};
pub use relax::Relaxed;
pub use search::explore;
pub use start::{begin, least_cost};
pub use subproblem::Subproblem;
