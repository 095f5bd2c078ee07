//! Which rounding cuts serve a program: where no block has rows those that its relaxation's values miss, and else those that
//! the columns of its root miss, over the rows that cuts may combine. What guides the search is measured and not proved: of
//! each cut that is given the rules were tested, and its row was computed exactly (`round_cut`).
#![tactic(auto)]

mod bind;
mod by_columns;
mod choice;
mod columns;
mod halves;
mod lifted;
mod missed;
mod numbers;
mod relaxation;
mod search;
mod select;
mod state;
mod tableau;
mod trial;

pub use choice::choose;
