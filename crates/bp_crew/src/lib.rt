//! A crew that branches and prices together: workers take open nodes, report verdicts on them, or drop them, in any order. Whatever the
//! order, no node is lost or counted twice, and the tree is the certificate of what is claimed; the list of events tells who holds a node,
//! how many are open, and how many steps are taken. A run draws its events from a seed.
#![tactic(auto)]

mod run;

pub use crew_steps::Crew;
pub use run::run_crew;
pub use search_laws::{Event, Kind};
