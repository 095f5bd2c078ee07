//! What the text of a certificate is: its grammar, its words and numbers with their faults, the certificate that it spells
//! and the first fault of a text that spells none. What reads texts and what writes them stands on it.
#![tactic(auto)]

mod cert;
mod fault;
mod frame;
mod judge;
mod lines;
mod sketch;
mod spots;
mod version;
mod words;

pub use block_program::MAX_MULTIPLIER;
pub use cert::Cert;
pub use cut_sums::MAX_DIVISOR;
pub use fault::{CertFault, CertKind};
pub use frame::Frame;
pub use judge::{
    is_last_cut, is_too_deep, judge_block, judge_combined, judge_coordinate, judge_divisor,
    judge_multiplier, judge_row, judge_scale, judge_value, judge_variable,
};
pub use lines::{NodeLine, NodeLines, SketchLines};
pub use sketch::Sketch;
pub use spots::{Sort, Spot, first_spot, pick, sort_of, words_at};
pub use version::Version;
pub use words::{Word, begins, bytes_of, ends_line};
