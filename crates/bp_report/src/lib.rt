//! The bytes of reports: what the program prints for a search, for sizes and for what it refuses. What it prints for a checked
//! or merged certificate is `cert_report`'s, for which these need not wait.
#![tactic(auto)]

mod ended;
mod migrated;
mod refused;
mod sizes;

pub use ended::{budget_text, ended_text, solve_text};
pub use migrated::migrated_text;
pub use refused::{
    Refusal, blocks_text, cert_text, dec_text, from_text, leaf_text, lp_text, merge_text,
    refusal_text, rows_text, words_text,
};
pub use sizes::{detected_text, made_text, proposed_text, show_blocks_text};
