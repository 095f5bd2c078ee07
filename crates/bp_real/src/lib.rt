//! The real outside: files of the system as a shelf, and the standard output as a sink. They tell no bytes, so that nothing is
//! claimed of what a disk or a terminal holds; what they ask a disk and a writer for is told where these keep an account, and
//! each fault that they answer is counted. A shelf and a sink that watch a run hand every call on and keep what a note on the
//! run needs. Before a run it is found whether the files that it names stand in its way.
#![tactic(auto)]

mod disk;
mod file_shelf;
mod obstacle;
mod out_sink;
mod place;
mod survey;
mod watch;
mod whole;

pub use disk::{Disk, HostDisk};
pub use file_shelf::FileShelf;
pub use obstacle::{NamedFiles, Obstacle, find_obstacle};
pub use out_sink::OutSink;
pub use place::Place;
pub use survey::{HostSurvey, Kind, Survey};
pub use watch::{Files, Watched, WatchedSink};
