//! The command `check`: whether the certificate of a file is valid for a program in blocks, where a number of visits is given
//! as far as pricing takes no more. What it accepts is true.
#![tactic(auto)]

ghost use Rattle.std.specs.Prelude.{◌≡◌, ◌≢◌, ◌⊎◌, ◌+◌, ◌<◌, ◌≤◌, ℕ, List, [], length, vec_len, Option, None, IfOk, OnOk, IsOk, IsErrOf, IsSome, IsTrue};
ghost use Rattle.std.specs.Option.{option_map};
ghost use Rattle.bp_shelf.specs.Shelf.{CountsFailed, file_limit};
ghost use Rattle.bp_shelf.specs.declared.shelf.ShelfFault.TheVariants.{Missing};
ghost use Rattle.frontend.specs.Answers.{AnswersBy, IsOnly, CutsOff, HasCauses, PutsReport, IsUnput};
ghost use Rattle.frontend.specs.Endings.{IsReplyStatus, IsRightReply};
ghost use Rattle.frontend.specs.Halts.{CountsHalted};
ghost use Rattle.cmd_check.specs.Checks.{AnswersCheck, ChecksVisiting};
ghost use Rattle.block_program.specs.Blocked.{BlockedProgram};
ghost use Rattle.cert_stream.specs.Checks.{IsMadeFor, ChecksFor};
ghost use Rattle.cmd_check.specs.Replies.{IsReplyTo, StandsForFile, StandsForFront, TellsJudged};

mod feeding;
mod pieces;

use crate::feeding::feed_pieces;
use crate::pieces::FilePieces;
use block_program::Blocked;
use bp_report::cert_text;
use bp_shelf::{Shelf, ShelfFault, Sink};
use cert_check::Judged;
use cert_report::check_text;
use cert_stream::{Checker, FeedFault};
use frontend::{Ended, Halt, Reply, Sources, finish, load, reply_or_status};
use std::alloc::{AllocError, Global};

// How many bytes a read asks for.
const BUFFER: usize = 65536;

/// Checks the certificate of a file against the model of another, and prints what is accepted or rejected, or the line of the
/// first leaf that asks for more visits than are left, where a number of visits is given. The certificate is judged as it is
/// read, a buffer at a time, and reading stops at its first fault that no further bytes can mend.
pub fn check<F: Shelf, O: Sink>(
    alloc: Global,
    shelf: &mut F,
    out: &mut O,
    sources: Sources<'_>,
    cert: &str,
    visits: Option<u64>,
) -> Ended
    ensures answered { IsTrue (F.tells shelf.old) →
        AnswersBy (AnswersCheck sources.entry.limits (F.file shelf.old) sources.entry.lp.now
        cert.now (option_map (λ name. name.now) sources.entry.dec) visits) result.status (O.tells
        out.old) (O.taken out.old) (O.taken out.new) }
    ensures exact { IsTrue (F.tells shelf.old) →
        IsOnly (AnswersCheck sources.entry.limits (F.file shelf.old) sources.entry.lp.now cert.now
        (option_map (λ name. name.now) sources.entry.dec) visits) result.status }
    ensures causes { HasCauses result.status (F.read_faults shelf.old) (F.read_faults shelf.new)
        (F.write_faults shelf.old) (F.write_faults shelf.new) (O.faults out.old)
        (O.faults out.new) }
    ensures kept { result.kept ≡ None }
    ensures events { result.events.items ≡ [] }
    ensures words { result.status ≢ 2 }
    ensures files { F.file shelf.new ≡ F.file shelf.old }
    ensures writes { F.write_faults shelf.new ≡ F.write_faults shelf.old }
    ensures silent { (result.status ≡ 7) ⊎ (result.status ≡ 9) ⊎ (result.status ≡ 11) →
        O.taken out.new ≡ O.taken out.old }
    ensures puts { PutsReport result.status (O.puts out.old) (O.puts out.new) }
    ensures failed { result.status ≡ 8 →
        IsUnput (F.file shelf.new ≡ F.file shelf.old) (F.write_faults shelf.old)
        (F.write_faults shelf.new) (O.faults out.old) (O.faults out.new) (O.puts out.old)
        (O.puts out.new) }
    ensures cut_off { IsTrue (F.tells shelf.old) →
        CutsOff (λ kept. AnswersCheck sources.entry.limits (F.file shelf.old) sources.entry.lp.now
        cert.now (option_map (λ name. name.now) sources.entry.dec) visits) result.status result.lost
        (O.tells out.old) (O.taken out.old) (O.taken out.new) }
{
    let answer = checked(alloc, shelf, sources, cert, visits);
    finish(alloc, out, reply_or_status(answer))
}

// The reply to the certificate of a file beside a model's, or what a run ends with before it.
fn checked<F: Shelf>(
    alloc: Global,
    shelf: &mut F,
    sources: Sources<'_>,
    cert: &str,
    visits: Option<u64>,
) -> Result<Reply, Halt>
    ensures right { IsTrue (F.tells shelf.old) →
        IsRightReply (AnswersCheck sources.entry.limits (F.file shelf.old) sources.entry.lp.now
        cert.now (option_map (λ name. name.now) sources.entry.dec) visits) result }
    ensures statuses { IfOk result (λ reply. IsReplyStatus reply.status) }
    ensures files { F.file shelf.new ≡ F.file shelf.old }
    ensures cause { CountsHalted (F.read_faults shelf.old) (F.read_faults shelf.new) result }
    ensures writes { F.write_faults shelf.new ≡ F.write_faults shelf.old }
{
    match load(alloc, shelf, sources) {
        Ok(b) => judged_file(alloc, shelf, &b, cert, visits),
        Err(halt) => Err(halt),
    }
}

// The reply to the certificate of a file beside a program in blocks, or what a run ends with before it.
fn judged_file<F: Shelf>(
    alloc: Global,
    shelf: &mut F,
    b: &Blocked,
    cert: &str,
    visits: Option<u64>,
) -> Result<Reply, Halt>
    requires uncut { b.now.cuts ≡ [] }
    ensures right { IsTrue (F.tells shelf.old) →
        IsRightReply (ChecksVisiting visits (F.file shelf.old) cert.now b.now) result }
    ensures statuses { IfOk result (λ reply. IsReplyStatus reply.status) }
    ensures files { F.file shelf.new ≡ F.file shelf.old }
    ensures cause { CountsHalted (F.read_faults shelf.old) (F.read_faults shelf.new) result }
    ensures writes { F.write_faults shelf.new ≡ F.write_faults shelf.old }
{
    let Ok(made) = buffer_of(alloc, BUFFER) else {
        return Err(Halt::Stopped(ShelfFault::NoMemory));
    };
    let mut buffer = made;
    let Ok(fresh) = Checker::make(alloc, b, visits) else {
        return Err(Halt::Stopped(ShelfFault::NoMemory));
    };
    let mut checker = fresh;
    match feed_file(alloc, shelf, b, cert, &mut checker, &mut buffer) {
        Ok(()) => match reply_of(alloc, checker) {
            Ok(reply) => Ok(reply),
            Err(_) => Err(Halt::Stopped(ShelfFault::NoMemory)),
        },
        Err(fault) => Err(Halt::Stopped(fault)),
    }
}

// A buffer of some bytes, of which only the length is told.
fn buffer_of(alloc: Global, len: usize) -> Result<Vec<u8>, AllocError>
    ensures { IfOk result (λ buffer. vec_len buffer ≡ len) }
{
    Vec::from_elem(alloc, 0u8, len)
}

// Feeds the bytes of a file as a buffer takes them, up to the file's end or to the first fault that no further bytes can mend.
fn feed_file<F: Shelf>(
    alloc: Global,
    shelf: &mut F,
    b: &Blocked,
    cert: &str,
    checker: &mut Checker,
    buffer: &mut [u8],
) -> Result<(), ShelfFault>
    requires made_for { IsMadeFor b.now checker.old }
    requires fresh { checker.old.fed ≡ 0 }
    requires faultless { checker.old.fault ≡ None }
    requires begun { (visits : Option ℕ) × ChecksFor b.now visits checker.old [] }
    requires room { length buffer.old ≡ 65536 }
    ensures made_for { IsMadeFor b.now checker.new }
    ensures stands { OnOk result ((visits : Option ℕ) → ChecksFor b.now visits checker.old [] →
        StandsForFile (F.tells shelf.old) (F.file shelf.old cert.now) b.now visits checker.new) }
    ensures missing { IsTrue (F.tells shelf.old) → IsErrOf result ShelfFault.Missing →
        F.file shelf.old cert.now ≡ None }
    ensures files { F.file shelf.new ≡ F.file shelf.old }
    ensures cause { CountsFailed (F.read_faults shelf.old) (F.read_faults shelf.new) result }
    ensures writes { F.write_faults shelf.new ≡ F.write_faults shelf.old }
{
    let mut pieces = FilePieces {
        shelf,
        name: cert,
        at: 0,
    };
    feed_pieces(alloc, b, checker, &mut pieces, buffer)
}

// The reply to the certificate that a checker was fed.
fn reply_of(alloc: Global, checker: Checker) -> Result<Reply, AllocError>
    requires stands { (b : BlockedProgram) × (visits : Option ℕ) × (text : List ℕ) ×
        IsMadeFor b checker × ChecksFor b visits checker text }
    ensures right { (b : BlockedProgram) (visits : Option ℕ) (text : List ℕ) → IsMadeFor b checker →
        ChecksFor b visits checker text → IfOk result (IsReplyTo visits b text) }
    ensures statuses { IfOk result (λ reply. IsReplyStatus reply.status) }
{
    match checker.finish() {
        Ok(judged) => verdict(alloc, &judged),
        Err(FeedFault::At { line, kind }) => Ok(Reply {
            status: 3,
            report: cert_text(alloc, line, kind)?,
        }),
        Err(FeedFault::NoMemory) => Err(AllocError),
    }
}

// The reply to a judged certificate.
fn verdict(alloc: Global, judged: &Judged) -> Result<Reply, AllocError>
    ensures { IfOk result (TellsJudged judged.now) }
{
    let status = match judged {
        Judged::Accepted(_) => 0,
        Judged::Rejected { .. } => 6,
        Judged::Unknown { .. } => 10,
    };
    Ok(Reply {
        status,
        report: check_text(alloc, judged)?,
    })
}
