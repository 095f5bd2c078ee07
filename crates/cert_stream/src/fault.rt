// Why a certificate that is fed in pieces is not judged.
ghost use Rattle.std.specs.Prelude.{◌≡◌};
ghost use Rattle.cert_stream.specs.Faults.{fault_as};

use cert_text::{CertFault, CertKind};

/// Why a certificate that is fed in pieces is not judged.
#[derive(Clone, Copy, Debug, PartialEq, Eq)]
pub enum FeedFault {
    /// The first fault of the text: its line, from 1, and its kind.
    At { line: u64, kind: CertKind },
    /// Memory was wanted.
    NoMemory,
}

// A fault of reading.
pub fn feed_fault(fault: &CertFault) -> FeedFault
    ensures { result ≡ fault_as fault.now }
{
    match fault {
        CertFault::At { line, kind } => FeedFault::At {
            line: *line,
            kind: *kind,
        },
        CertFault::NoMemory => FeedFault::NoMemory,
    }
}
