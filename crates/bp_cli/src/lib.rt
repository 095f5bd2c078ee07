//! The top call: all that the program does, over any shelf of files and any sink.
#![tactic(auto)]

mod top;

pub use bp_search::{Progress, Unwatched, Watch};
pub use frontend::Ended;
pub use search_outcome::Ran;
pub use top::run;
