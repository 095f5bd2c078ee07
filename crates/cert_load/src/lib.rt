//! A valid certificate as a tree from which a search goes on: each leaf that the certificate's own point settles is shut, and each
//! other is an open node with the dual bound of its proof.
#![tactic(auto)]

mod fault;
mod loading;
mod recut;

pub use crate::fault::LoadFault;
pub use crate::loading::load;
pub use crate::recut::with_cuts_of;
