//! Rounding cuts: rows that follow from a program's master rows and from earlier cuts for whole numbers. Given multipliers of
//! rows are added up and divided, and coefficients and side are rounded up, as Chvatal and Gomory do (R. E. Gomory, Outline of
//! an algorithm for integer solutions to linear programs, 1958; V. Chvatal, Edmonds polytopes and a hierarchy of combinatorial
//! problems, 1973), over spans whose lower ends need not be 0. A list of cuts keeps these rules one behind another, and a
//! program with cuts takes further ones behind its own, as many as there may be.
#![tactic(auto)]

mod cut;
mod plain;
mod rules;
mod several;
mod taken;

pub use crate::cut::cut_row;
pub use crate::plain::first_cuts;
pub use crate::rules::keeps_rules;
pub use crate::several::with_cuts;
pub use cut_sums::{CutFault, MAX_DIVISOR, copies_of};
pub use taken::{MOST_CUTS, extended, one_list, row_of_cut, rows_of_cuts, with_others};
