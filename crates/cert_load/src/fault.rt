// Why a certificate isn't loaded.
ghost use Rattle.std.specs.Prelude.{◌≡◌};
ghost use Rattle.cert_load.specs.declared.fault.LoadFault.TheVariants.{NoMemory};

use std::alloc::AllocError;
use thiserror::Error;

/// Why a valid certificate isn't loaded.
#[derive(Clone, Copy, Debug, PartialEq, Eq, Error)]
pub enum LoadFault {
    /// The leaf of this line would be live, and its depth and the bits of its zone are together above the greatest depth of
    /// the program's limits.
    #[error("line {0} has a live leaf that is too deep")]
    Deep(u64),
    /// Want of memory.
    #[error("want of memory")]
    NoMemory,
}

impl From<AllocError> for LoadFault {
    ghost from_gives = { λ _ fault. fault ≡ NoMemory };

    fn from(_: AllocError) -> Self {
        LoadFault::NoMemory
    }
}
