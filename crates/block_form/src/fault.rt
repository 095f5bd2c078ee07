// What a decomposition is refused for.
use bp_model::Model;

/// What a decomposition is refused for.
#[derive(Clone, Copy, Debug, PartialEq, Eq)]
pub enum BlockFault {
    /// This listed variable stands in a row of a block other than its list's.
    VarPlace(u32),
    /// Rows and link rows are too many, or the copies of a variable may differ by more than 62 bits hold.
    Links,
    /// Want of memory.
    NoMemory,
}

/// A refused model, unchanged, with what its decomposition is refused for.
#[derive(Drop)]
pub struct Unblocked {
    /// What the decomposition is refused for.
    pub fault: BlockFault,
    /// The model.
    pub model: Model,
}
