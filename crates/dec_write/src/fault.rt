// What a list of master rows is refused for.
ghost use Rattle.std.specs.Prelude.{◌≡◌};
ghost use Rattle.dec_write.specs.declared.fault.RowsFault.TheVariants as rows;

use std::alloc::AllocError;
use thiserror::Error;

/// A kind of fault of a list of master rows.
#[derive(Clone, Copy, Debug, PartialEq, Eq)]
pub enum RowsKind {
    /// A byte that isn't a printed character of ASCII.
    BadByte,
    /// A name that no row has.
    UnknownRow,
    /// A row's second listing.
    RowTwice,
    /// More blocks beside the master rows than the limits allow; no fault of the text.
    Blocks,
    /// A text that is too long.
    Limit,
}

/// Why a text lists no master rows.
#[derive(Clone, Copy, Debug, PartialEq, Eq, Error)]
pub enum RowsFault {
    /// The text's first fault. The line is 1 plus the number of line feeds before it, or 0 for a text that is too long.
    #[error("line {line}: {kind:?}")]
    At { line: u32, kind: RowsKind },
    /// Want of memory.
    #[error("want of memory")]
    NoMemory,
}

impl From<AllocError> for RowsFault {
    ghost from_gives = { λ _ fault. fault ≡ rows.NoMemory };

    fn from(_: AllocError) -> Self {
        RowsFault::NoMemory
    }
}
