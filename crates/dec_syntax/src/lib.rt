//! The tokens of DEC texts: the cut of a text into words, what each word is by those before it (a keyword, a number, a name of
//! a row or of a variable), what a word or the end is refused for, and what a reader keeps of the words so far, up to the
//! decomposition that they mean. What a text as a whole means, or its first fault, is told above.
#![tactic(auto)]

mod cut;
mod kind;
mod state;
mod words;

pub use cut::{Cursor, Word, end_line, next_word};
pub use kind::DecKind;
pub use state::{Listing, Reader};
pub use words::{Keyword, Section, holds_bad_byte};
