// What a search keeps of the levels that it stands below.

/// What a search keeps of a level that it stands below.
#[derive(Clone, Copy)]
pub enum Frame {
    /// The level's variable had one number before.
    Passed,
    /// Whether the numbers of its variable are tried from the lower end up, and the step of the one that it has.
    At(bool, u64),
}

/// A node that is to be visited.
#[derive(Clone, Copy)]
pub struct Node {
    /// How many levels it stands below.
    pub level: usize,
    /// Whether a point that is cheaper than the best so far may be left there.
    pub alive: bool,
}
