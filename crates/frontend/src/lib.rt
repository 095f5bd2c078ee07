//! From files to a program in blocks: the front that the commands share, how a run that is stopped ends, and the forms in
//! which each command's theorem is stated.
#![tactic(auto)]

mod closing;
mod draft;
mod ending;
mod front;
mod read;

pub use closing::{finish, halted, reply_or_status};
pub use draft::{Draft, put_draft, write_draft};
pub use ending::{Ended, Reply, Unprinted, fault_status, print, stopped, stopped_by, unwritten};
pub use front::{Halt, Sources, blocks_of, load, load_model};
pub use read::{read_front, read_text};
