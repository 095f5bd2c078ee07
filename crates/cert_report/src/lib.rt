//! The bytes of reports on certificates: what the program prints for a checked certificate, for one that two were merged into,
//! and for a made program whose certificate was checked.
#![tactic(auto)]

mod checked;
mod demo;
mod merged;

pub use checked::check_text;
pub use demo::{DEMO_STEPS, demo_text};
pub use merged::merged_text;
