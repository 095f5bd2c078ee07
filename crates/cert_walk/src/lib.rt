//! How a certificate's lines are judged as they come, without the tree: the splits above the next node, the zone there, the
//! cuts that came with the program that has them, and whether all lines pass so far.
#![tactic(auto)]

mod cutting;
mod path;
mod walk;

ghost use Rattle.cert_walk.specs.Laws.{LinesCome, RootsCome, WaitsAreTurns, RootStays, RootIsRead};

pub use cutting::Cutting;
pub use path::{Fork, Path, go_on};
pub use walk::{Walk, begin, enter, goes_on, leave};

/// The lines of a tree come in the order in which they are judged, and what reading keeps of them is where the judgement
/// stands.
pub fn lines_come_in_order()
    ensures lines { LinesCome }
    ensures roots { RootsCome }
    ensures waits { WaitsAreTurns }
    ensures stays { RootStays }
    ensures read { RootIsRead }
{}
