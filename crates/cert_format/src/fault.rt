// What is wrong with the text of a certificate, by line and kind.
use thiserror::Error;

/// What is wrong with the text of a certificate.
#[derive(Clone, Copy, Debug, PartialEq, Eq)]
pub enum CertKind {
    /// The text leaves the grammar, or ends too early.
    Syntax,
    /// A number is past its limit.
    TooLarge,
    /// A variable, row or block isn't there or out of order, or a multiplier is what the row has without it.
    Number,
    /// A point has fewer or more values than there are variables.
    Length,
    /// A node is too deep.
    Depth,
    /// There are too many cuts.
    Limit,
}

/// Why a certificate isn't read.
#[derive(Debug, Drop, Error)]
pub enum CertFault {
    /// The first fault of the text.
    #[error("the certificate is at fault on line {line}: {kind:?}")]
    At { line: u64, kind: CertKind },
    #[error("out of memory")]
    NoMemory,
}
