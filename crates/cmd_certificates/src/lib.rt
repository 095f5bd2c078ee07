//! The commands that write certificates anew: `merge` makes one of two valid certificates of the same model, as far as both, and
//! `migrate` writes one in the newest version of its text.
#![tactic(auto)]

mod joined;
mod merging;
mod migration;
mod opening;
mod same;
mod written;

pub use merging::merge;
pub use migration::{migrate, migrated_texts_are_alike};
