//! Certificates of any length: judged as their text is fed in pieces, and written line by line. Neither keeps a text in
//! memory, and a judge keeps no tree: of the lines that came it keeps the cuts, as the program with them, and the splits above
//! the next node.
//!
//! What a caller gets. `Checker::make(alloc, b, visits)` stands for the empty text. `feed(alloc, b, piece)` answers Ok while no
//! fault has come that no further bytes can mend; the first such fault, and want of memory, are answered from then on, and a
//! caller stops reading there. `finish()`, which takes no memory, answers what `cert_text::read_cert` and then
//! `cert_check::check` with the same visits answer on the whole text, however it was cut into pieces: what it is judged to be,
//! or the text's first fault. The conditions: all calls are given the program in blocks that the checker was made for, which
//! has no cuts (`IsMadeFor`), and it is fed fewer than 2^63 bytes in all, which `fed` counts. `ChecksFor b visits checker text`
//! says for which texts it stands.
//!
//! `write_stream(alloc, b, outcome, shelf, name)` makes the named file hold the bytes of `cert_text::write_cert`. After want of
//! memory the file is as before or holds a beginning of them; `Failed` comes only where the shelf's count of failed writes rose.
//! `rewrite_stream(alloc, b, cert, shelf, name)` does the same with the bytes of `cert_text::rewrite`.
#![tactic(auto)]

mod checker;
mod fault;
mod stream;

ghost use Rattle.cert_stream.specs.Wholes.{JudgedAsWhole, FaultyAsWhole, NotFaultyToo, NotJudgedToo};

pub use cert_file::StreamStop;
pub use checker::Checker;
pub use fault::FeedFault;
pub use stream::{rewrite_stream, write_stream};

/// What a checker answers of a text that it was fed in pieces is what reading the whole text and judging it answers.
pub fn pieces_are_answered_as_the_whole()
    ensures judged { JudgedAsWhole }
    ensures faulty { FaultyAsWhole }
    ensures not_faulty { NotFaultyToo }
    ensures not_judged { NotJudgedToo }
{}
