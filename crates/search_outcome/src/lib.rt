//! What a search comes to: a search without a crew, from the start or from a tree, and what is written and printed of an
//! outcome, its certificate and its report, with the status of each.
#![tactic(auto)]

mod alone;
mod ran;
mod told;

pub use alone::{search_alone, watch_alone};
pub use ran::Ran;
pub use told::{status_of, tell};
