//! The lines of reports: words and numbers, the kinds of faults by their names, the sizes, classes, rows and variables of blocks,
//! and how a search ended or was stopped, with the incumbent.
#![tactic(auto)]

mod blocks;
mod kinds;
mod lines;
mod searches;
mod sizes;

pub use blocks::{push_blocks, push_firsts};
pub use kinds::{cert_kind_name, check_kind_name, dec_kind_name, lp_kind_name, rows_kind_name};
pub use lines::{
    fault_text, push_count, push_count_line, push_fault, push_named, push_value, push_value_line,
};
pub use searches::{in_sense, point_of, push_budget, push_ended, push_known, push_outcome};
pub use sizes::{first_classes, master_rows, push_classes, push_proposed, push_sizes};
