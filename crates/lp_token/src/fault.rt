// What an LP text is refused for.
ghost use Rattle.std.specs.Prelude.{◌≡◌};
ghost use Rattle.lp_token.specs.declared.fault.LpFault.TheVariants.{NoMemory};

use crate::LpKind;
use std::alloc::{AllocError, AllocFailed};
use thiserror::Error;

/// Why a text has no model.
#[derive(Clone, Copy, Debug, PartialEq, Eq, Error)]
pub enum LpFault {
    /// The text's first fault. The line is 1 plus the number of line feeds before it, or 0 for a text that is too long.
    #[error("line {line}: {kind:?}")]
    At { line: u32, kind: LpKind },
    /// Want of memory.
    #[error("want of memory")]
    NoMemory,
}

impl From<AllocError> for LpFault {
    ghost from_gives = { λ _ fault. fault ≡ NoMemory };

    fn from(_: AllocError) -> Self {
        LpFault::NoMemory
    }
}

impl<T: Drop> From<AllocFailed<T>> for LpFault {
    ghost from_gives = { λ _ fault. fault ≡ NoMemory };

    fn from(_: AllocFailed<T>) -> Self {
        LpFault::NoMemory
    }
}
