// Why a certificate was not written to its end.
ghost use Rattle.std.specs.Prelude.{◌≡◌};
ghost use Rattle.cert_file.specs.Appends.{stop_of};

use bp_shelf::ShelfFault;

/// Why a certificate was not written to its end.
#[derive(Clone, Copy, Debug, PartialEq, Eq)]
pub enum StreamStop {
    /// A write failed, which the shelf counts.
    Failed,
    /// Memory was wanting.
    NoMemory,
}

/// Why a write was not done; none answers that a file is missing.
pub fn stream_stop(fault: ShelfFault) -> StreamStop
    ensures { result ≡ stop_of fault }
{
    match fault {
        ShelfFault::Failed => StreamStop::Failed,
        ShelfFault::Missing | ShelfFault::NoMemory => StreamStop::NoMemory,
    }
}
