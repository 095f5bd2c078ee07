//! Parsers of a certificate's text. One goes byte by byte, keeps no tree and no cuts, and tells what each line says where it ends;
//! the other is fed pieces, keeps the cuts and builds the tree. Both tell the first fault of the text by line and kind.
#![tactic(auto)]

mod lines;
mod multipliers;
mod reader;

pub use lines::{Event, Lines, SplitPlace};
pub use reader::{Reader, read};
