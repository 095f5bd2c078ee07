// What cuts are refused for.

/// What a cut is refused for.
#[derive(Clone, Copy, Debug, PartialEq, Eq)]
pub enum CutFault {
    /// A multiplier's sign doesn't fit its row.
    Sign,
    /// The sums of the cut's row may leave 62 bits.
    Large,
    /// Want of memory.
    NoMemory,
}
