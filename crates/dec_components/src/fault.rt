// What the blocks that master rows leave are refused for.
ghost use Rattle.std.specs.Prelude.{◌≡◌};
ghost use Rattle.dec_components.specs.declared.fault.FindFault.TheVariants as found;

use std::alloc::AllocError;
use thiserror::Error;

/// Why master rows leave no decomposition.
#[derive(Clone, Copy, Debug, PartialEq, Eq, Error)]
pub enum FindFault {
    /// More blocks result than the limits of the model allow.
    #[error("more blocks than the limit")]
    Blocks,
    /// Want of memory.
    #[error("want of memory")]
    NoMemory,
}

impl From<AllocError> for FindFault {
    ghost from_gives = { λ _ fault. fault ≡ found.NoMemory };

    fn from(_: AllocError) -> Self {
        FindFault::NoMemory
    }
}
