// A text that is written into a file before its report is printed.
ghost use Rattle.std.specs.Prelude.{◌≡◌};
ghost use Rattle.frontend.specs.Endings.{WritesText, WritesDraft, write_status_of};

use crate::closing::halted;
use crate::ending::{Reply, Unprinted};
use crate::front::Halt;
use bp_shelf::{Shelf, ShelfFault};

/// A text that is to be written into a file, and the reply that is printed behind it.
#[derive(Drop)]
pub struct Draft {
    /// All bytes that the file is to have.
    pub text: Vec<u8>,
    /// The report and its status, where the write goes well.
    pub reply: Reply,
}

/// Writes a draft into a named file. What the run comes to is the reply to it, or an end at which nothing is printed: with 8
/// where the write failed, with 9 where memory was wanting, and the report that is lost. Where the run was halted before it had a draft, nothing
/// is written, and it comes to what it was halted for.
pub fn write_draft<F: Shelf>(
    shelf: &mut F,
    name: &str,
    draft: Result<Draft, Halt>,
) -> Result<Reply, Unprinted>
    ensures writes { WritesDraft (F.tells shelf.old) name.now (F.file shelf.old)
        (F.file shelf.new) (F.write_faults shelf.old) (F.write_faults shelf.new) draft result }
    ensures reads { F.read_faults shelf.new ≡ F.read_faults shelf.old }
{
    match draft {
        Ok(draft) => put_draft(shelf, name, draft),
        Err(halt) => halted(halt),
    }
}

/// Writes a draft into a named file, as above.
pub fn put_draft<F: Shelf>(shelf: &mut F, name: &str, draft: Draft) -> Result<Reply, Unprinted>
    ensures writes { WritesText (F.tells shelf.old) name.now draft.text.items (F.file shelf.old)
        (F.file shelf.new) (F.write_faults shelf.old) (F.write_faults shelf.new) draft.reply
        result }
    ensures reads { F.read_faults shelf.new ≡ F.read_faults shelf.old }
{
    let Draft { text, reply } = draft;
    write_text(shelf, name, &text, reply)
}

// Writes a text, with the reply that is printed behind it.
fn write_text<F: Shelf>(
    shelf: &mut F,
    name: &str,
    text: &[u8],
    reply: Reply,
) -> Result<Reply, Unprinted>
    ensures writes { WritesText (F.tells shelf.old) name.now text.now (F.file shelf.old)
        (F.file shelf.new) (F.write_faults shelf.old) (F.write_faults shelf.new) reply result }
    ensures reads { F.read_faults shelf.new ≡ F.read_faults shelf.old }
{
    match shelf.replace(name, text) {
        Ok(()) => Ok(reply),
        Err(fault) => Err(Unprinted {
            status: write_status(fault),
            lost: Some(reply.report),
        }),
    }
}

// The status of a write that failed.
fn write_status(fault: ShelfFault) -> u8
    ensures { result ≡ write_status_of fault }
{
    match fault {
        ShelfFault::Failed => 8,
        ShelfFault::NoMemory => 9,
        ShelfFault::Missing => 9,
    }
}
