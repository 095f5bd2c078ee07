//! Orders, what the arguments of a subcommand say of them, and the command that tables of subcommands make for `clap`;
//! with the laws by which words that are taken give an order.
#![tactic(auto)]

mod command;
mod order;
mod orders;
mod parts;
mod placed;
mod text;
mod values;

pub use command::{
    Argument, MOST_CUTS, MOST_LEAF, MOST_SIZE, MOST_STEPS, MOST_VISITS, MOST_WORKERS, Subcommand,
    joined_command,
};
pub use order::{CheckOrder, MergeOrder, Order, SolveOrder, Watching, WordFault};
pub use orders::{
    check_order, demo_order, detect_order, gen_order, merge_order, migrate_order, propose_order,
    show_order,
};
pub use parts::{Ends, Pair, Problem, Scale, Sides, SolveNumbers};
pub use placed::are_placed;
pub use text::Text;
pub use values::{ends_of, limits_of, problem_of, solve_numbers, watching_of};
