// A checker that is fed the pieces of a file.
ghost use Rattle.std.specs.Prelude.{◌≡◌, ℕ, List, [], length, Option, None, OnOk, IsTrue, IsErrOf};
ghost use Rattle.bp_shelf.specs.Shelf.{CountsFailed};
ghost use Rattle.bp_shelf.specs.declared.shelf.ShelfFault.TheVariants.{Missing};
ghost use Rattle.cert_stream.specs.Checks.{IsMadeFor, ChecksFor};
ghost use Rattle.cmd_check.specs.Reading.{AsksForFewest};
ghost use Rattle.cmd_check.specs.Replies.{StandsForFile};

use crate::pieces::Pieces;
use block_program::Blocked;
use bp_shelf::ShelfFault;
use cert_stream::{Checker, FeedFault};
use std::alloc::Global;

/// Feeds pieces as a buffer takes them, up to the file's end or to the first fault that no further bytes can mend. Behind that
/// none is asked for.
pub(crate) fn feed_pieces<P: Pieces>(
    alloc: Global,
    b: &Blocked,
    checker: &mut Checker,
    pieces: &mut P,
    buffer: &mut [u8],
) -> Result<(), ShelfFault>
    requires made_for { IsMadeFor b.now checker.old }
    requires fresh { checker.old.fed ≡ 0 }
    requires faultless { checker.old.fault ≡ None }
    requires begun { (visits : Option ℕ) × ChecksFor b.now visits checker.old [] }
    requires front { P.given pieces.old ≡ 0 }
    requires room { length buffer.old ≡ 65536 }
    ensures made_for { IsMadeFor b.now checker.new }
    ensures fewest { AsksForFewest b.now P.asks pieces.old pieces.new result }
    ensures stands { OnOk result ((visits : Option ℕ) → ChecksFor b.now visits checker.old [] →
        StandsForFile (P.tells pieces.old) (P.file pieces.old) b.now visits checker.new) }
    ensures missing { IsTrue (P.tells pieces.old) → IsErrOf result ShelfFault.Missing →
        P.file pieces.old ≡ None }
    ensures cause { CountsFailed (P.faults pieces.old) (P.faults pieces.new) result }
{
    'reads: loop {
        let count = pieces.next(buffer)?;
        match checker.feed(alloc, b, &buffer[..count]) {
            Err(FeedFault::At { .. }) => return Ok(()),
            Err(FeedFault::NoMemory) => return Err(ShelfFault::NoMemory),
            Ok(()) => {}
        }
        if count == 0 {
            return Ok(());
        }
    }
}
