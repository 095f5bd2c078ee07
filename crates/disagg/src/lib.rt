//! Disaggregation: weights of columns, spread over the blocks of their classes. Whole weights give a point of the program, and others
//! show which variable to branch on.
#![tactic(auto)]

mod answer;
mod spreading;

pub use answer::Spread;
pub use column_assignment::most_mixed;
pub use search_laws::UsedColumn as Used;
pub use spreading::spread;
