//! Whether a certificate is valid for a program in blocks, or its first line at fault. What is accepted is true of the
//! program, whoever wrote the certificate.
#![tactic(auto)]

mod judge;

pub use judge::{Judged, check};
