// How a run ended whose search may have been watched.
use frontend::Ended;

/// How a run ended, and for how many steps its search was one.
#[derive(Drop)]
pub struct Ran {
    /// How the run ended.
    pub ended: Ended,
    /// The steps of the search: the given ones, or those that were taken of a search that was watched.
    pub steps: Option<u64>,
}
