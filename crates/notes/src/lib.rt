//! Notes: why a run was refused or stopped, in words for people, on standard error, made of what a watched run has kept and
//! of its files, which are read again. Nothing rests on them: the run and its report are what they would be without.
#![tactic(auto)]

mod again;
mod blocks;
mod grammar;
mod kinds;
mod mps;
mod note;
mod number;
mod obstacle;
mod page;
mod place;
mod reading;
mod sums;
mod text;
mod usage;

pub use note::explain;
pub use obstacle::explain_obstacle;
pub use page::{Page, page_for, page_text};
pub use usage::VERSION;
