// What a text is refused for.
ghost use Rattle.std.specs.Prelude.{◌≡◌};
ghost use Rattle.dec_read.specs.declared.fault.DecFault.TheVariants.{NoMemory};

use dec_syntax::DecKind;
use std::alloc::AllocError;
use thiserror::Error;

/// Why a text has no decomposition.
#[derive(Clone, Copy, Debug, PartialEq, Eq, Error)]
pub enum DecFault {
    /// The text's first fault. The line is 1 plus the number of line feeds before it, or 0 for a text that is too long.
    #[error("line {line}: {kind:?}")]
    At { line: u32, kind: DecKind },
    /// Want of memory.
    #[error("want of memory")]
    NoMemory,
}

impl From<AllocError> for DecFault {
    ghost from_gives = { λ _ fault. fault ≡ NoMemory };

    fn from(_: AllocError) -> Self {
        DecFault::NoMemory
    }
}
