// The command `migrate`: the certificate of a file, written anew in version 2, or in version 3 where it has cuts.

ghost use Rattle.std.specs.Prelude.{◌≡◌, ◌≢◌, ◌⊎◌, ℕ, ◌-◌, ◌^◌, ◌<◌, List, [], length, min, Err, IfOk, IfErr, IsTrue, None, Some};
ghost use Rattle.std.specs.Option.{option_map};
ghost use Rattle.bp_shelf.specs.Shelf.{OthersAsBefore};
ghost use Rattle.frontend.specs.Halts.{CountsHalted};
ghost use Rattle.frontend.specs.Answers.{AnswersBy, IsOnly, CutsOff, HasCauses, PutsReport, FailsToWrite};
ghost use Rattle.frontend.specs.Written.{IsHalt, IsTextHalt};
ghost use Rattle.block_program.specs.Blocked.{BlockedProgram};
ghost use Rattle.cert_format.specs.Kept.{kept_cert};
ghost use Rattle.cert_text.specs.Programs.{ReadsFor};
ghost use Rattle.cert_format.specs.Nodes.{nodes};
ghost use Rattle.bp_report.specs.Report.{migrated_report};
ghost use Rattle.cmd_certificates.specs.Laws.{AreReadAlike, AreJudgedAlike};
ghost use Rattle.cmd_certificates.specs.Migrates.{TextMigrates, Migrates, AnswersMigrate, ReadsCert, ReadsFiles};
ghost use Rattle.cmd_certificates.specs.MigrateFiles.{MigrateLeaves, MigrateWrites};
ghost use Rattle.cmd_certificates.specs.Writes.{WritesAnew, WritesMigrated, stop_status_of};

use block_program::Blocked;
use bp_report::{cert_text, migrated_text};
use bp_shelf::{Shelf, ShelfFault, Sink};
use cert_input::read_file;
use cert_stream::{StreamStop, rewrite_stream};
use cert_text::{Cert, CertFault};
use frontend::{Ended, Halt, Reply, Sources, Unprinted, finish, halted, load};
use std::alloc::{AllocError, Global};

// A certificate that was read for a program in blocks, and the report on it.
#[derive(Drop)]
struct Migrated {
    // The program in blocks that the certificate was read for.
    b: Blocked,
    // The certificate.
    cert: Cert,
    // The report and its status, where the writing goes well.
    reply: Reply,
}

/// Writes the certificate of a file to a named file in version 2, or in version 3 where it has cuts, line by line, and prints
/// how many nodes it has. It is read whole before anything is written, so one file may be named for both, and it is not
/// judged. No other file is changed; what stands after a write that failed or for want of memory is told by the status: with 8
/// the named file may hold anything, and with 9 it is as before or holds a beginning of the text.
pub fn migrate<F: Shelf, O: Sink>(
    alloc: Global,
    shelf: &mut F,
    out: &mut O,
    sources: Sources<'_>,
    cert: &str,
    new: &str,
) -> Ended
    ensures answered { IsTrue (F.tells shelf.old) →
        AnswersBy (AnswersMigrate sources.entry.limits (F.file shelf.old) sources.entry.lp.now
        cert.now (option_map (λ name. name.now) sources.entry.dec)) result.status (O.tells out.old)
        (O.taken out.old) (O.taken out.new) }
    ensures exact { IsTrue (F.tells shelf.old) →
        IsOnly (AnswersMigrate sources.entry.limits (F.file shelf.old) sources.entry.lp.now cert.now
        (option_map (λ name. name.now) sources.entry.dec)) result.status }
    ensures causes { HasCauses result.status (F.read_faults shelf.old) (F.read_faults shelf.new)
        (F.write_faults shelf.old) (F.write_faults shelf.new) (O.faults out.old) (O.faults out.new) }
    ensures kept { result.kept ≡ None }
    ensures events { result.events.items ≡ [] }
    ensures words { result.status ≢ 2 }
    ensures leaves { IsTrue (F.tells shelf.old) →
        MigrateLeaves sources.entry.limits sources.entry.lp.now cert.now (option_map (λ name.
        name.now) sources.entry.dec) new.now (F.file shelf.old) (F.file shelf.new) result.status }
    ensures others { IsTrue (F.tells shelf.old) → OthersAsBefore new.now (F.file shelf.old) (F.file
        shelf.new) }
    ensures puts { PutsReport result.status (O.puts out.old) (O.puts out.new) }
    ensures failed { result.status ≡ 8 →
        FailsToWrite (IsTrue (F.tells shelf.old) → MigrateWrites sources.entry.limits
        sources.entry.lp.now cert.now (option_map (λ name. name.now) sources.entry.dec) new.now
        (F.file shelf.old) (F.file shelf.new)) (F.write_faults shelf.old) (F.write_faults shelf.new)
        (O.faults out.old) (O.faults out.new) (O.puts out.old) (O.puts out.new) (O.taken out.old)
        (O.taken out.new) }
    ensures silent { (result.status ≡ 7) ⊎ (result.status ≡ 9) ⊎ (result.status ≡ 11) → O.taken
        out.new ≡ O.taken out.old }
    ensures cut_off { IsTrue (F.tells shelf.old) →
        CutsOff (λ kept. AnswersMigrate sources.entry.limits (F.file shelf.old) sources.entry.lp.now
        cert.now (option_map (λ name. name.now) sources.entry.dec)) result.status result.lost
        (O.tells out.old) (O.taken out.old) (O.taken out.new) }
{
    let migrated = load_migrated(alloc, shelf, sources, cert);
    let come = write_migrated(alloc, shelf, new, migrated);
    finish(alloc, out, come)
}

// Writes a certificate anew into a named file: what the run comes to is the reply to it, or the status of the write, or what
// the run was halted for before there was one.
fn write_migrated<F: Shelf>(
    alloc: Global,
    shelf: &mut F,
    new: &str,
    migrated: Result<Migrated, Halt>,
) -> Result<Reply, Unprinted>
    ensures writes { WritesMigrated (F.tells shelf.old) new.now (F.file shelf.old)
        (F.file shelf.new) (F.write_faults shelf.old) (F.write_faults shelf.new) migrated result }
    ensures reads { F.read_faults shelf.new ≡ F.read_faults shelf.old }
{
    match migrated {
        Ok(migrated) => put_migrated(alloc, shelf, new, migrated),
        Err(halt) => halted(halt),
    }
}

// Writes a certificate that was read.
fn put_migrated<F: Shelf>(
    alloc: Global,
    shelf: &mut F,
    new: &str,
    migrated: Migrated,
) -> Result<Reply, Unprinted>
    ensures writes { WritesAnew migrated.b migrated.cert (F.tells shelf.old) new.now
        (F.file shelf.old) (F.file shelf.new) (F.write_faults shelf.old) (F.write_faults shelf.new)
        migrated.reply result }
    ensures reads { F.read_faults shelf.new ≡ F.read_faults shelf.old }
{
    let Migrated { b, cert, reply } = migrated;
    write_anew(alloc, shelf, new, &b, &cert, reply)
}

// Writes a certificate anew: what the run comes to is this reply, or the status of the write.
fn write_anew<F: Shelf>(
    alloc: Global,
    shelf: &mut F,
    new: &str,
    b: &Blocked,
    cert: &Cert,
    reply: Reply,
) -> Result<Reply, Unprinted>
    ensures writes { WritesAnew b.now cert.now (F.tells shelf.old) new.now (F.file shelf.old)
        (F.file shelf.new) (F.write_faults shelf.old) (F.write_faults shelf.new) reply result }
    ensures reads { F.read_faults shelf.new ≡ F.read_faults shelf.old }
{
    match rewrite_stream(alloc, b, cert, shelf, new) {
        Ok(()) => Ok(reply),
        Err(stop) => Err(Unprinted {
            status: stop_status(stop),
            lost: Some(reply.report),
        }),
    }
}

// The status of a writer that stopped.
fn stop_status(stop: StreamStop) -> u8
    ensures { result ≡ stop_status_of stop }
{
    match stop {
        StreamStop::Failed => 8,
        StreamStop::NoMemory => 9,
    }
}

// The certificate of a file, or what a run ends with.
fn load_migrated<F: Shelf>(
    alloc: Global,
    shelf: &mut F,
    sources: Sources<'_>,
    cert: &str,
) -> Result<Migrated, Halt>
    ensures read { IsTrue (F.tells shelf.old) →
        IfOk result (λ m. ReadsFiles sources.entry.limits (F.file shelf.old) sources.entry.lp.now
        cert.now (option_map (λ name. name.now) sources.entry.dec) m) }
    ensures done { IfOk result (λ m. m.reply.status ≡ 0) }
    ensures halted { IsTrue (F.tells shelf.old) →
        IfErr result (IsHalt (Migrates sources.entry.limits (F.file shelf.old) sources.entry.lp.now
        cert.now (option_map (λ name. name.now) sources.entry.dec))) }
    ensures told { F.tells shelf.new ≡ F.tells shelf.old }
    ensures files { F.file shelf.new ≡ F.file shelf.old }
    ensures cause { CountsHalted (F.read_faults shelf.old) (F.read_faults shelf.new) result }
    ensures writes { F.write_faults shelf.new ≡ F.write_faults shelf.old }
{
    let b = load(alloc, shelf, sources)?;
    let read = read_file(alloc, shelf, cert, &b)?;
    migrated_of(alloc, b, read)
}

// The certificate of a text, of which this was read, or the text's first fault.
fn migrated_of(alloc: Global, b: Blocked, read: Result<Cert, CertFault>) -> Result<Migrated, Halt>
    ensures read { (text : List ℕ) → length text < 2 ^ 64 → ReadsFor b text read →
        IfOk result (λ m. ReadsCert b (Some text) m) }
    ensures done { IfOk result (λ m. m.reply.status ≡ 0) }
    ensures halted { (text : List ℕ) → ReadsFor b text read →
        IfErr result (IsTextHalt (TextMigrates b (Some text))) }
{
    match read {
        Ok(cert) => Ok(told(alloc, b, cert)?),
        Err(fault) => Err(faulty_halt(alloc, fault)?),
    }
}

// What a text with a fault is refused for.
fn faulty_halt(alloc: Global, fault: CertFault) -> Result<Halt, AllocError>
    ensures { (b : BlockedProgram) (text : List ℕ) → ReadsFor b text (Err fault) →
        IfOk result (IsTextHalt (TextMigrates b (Some text))) }
{
    match fault {
        CertFault::At { line, kind } => Ok(Halt::Refused(cert_text(alloc, line, kind)?)),
        CertFault::NoMemory => Ok(Halt::Stopped(ShelfFault::NoMemory)),
    }
}

// A certificate with the report on it.
fn told(alloc: Global, b: Blocked, cert: Cert) -> Result<Migrated, AllocError>
    ensures b { IfOk result (λ m. m.b ≡ b) }
    ensures cert { IfOk result (λ m. m.cert ≡ cert) }
    ensures report { IfOk result (λ m. m.reply.report.items ≡ migrated_report (min (nodes (kept_cert
        cert).tree) (2 ^ 64 - 1))) }
    ensures done { IfOk result (λ m. m.reply.status ≡ 0) }
{
    let report = migrated_text(alloc, cert.nodes())?;
    Ok(Migrated {
        b,
        cert,
        reply: Reply { status: 0, report },
    })
}

/// What holds of a certificate's text in any version and of the text that it is written anew in: both are read as the same certificate, so
/// that every node stands on the same line, and `check` answers the same for both.
pub fn migrated_texts_are_alike()
    ensures read { AreReadAlike }
    ensures judged { AreJudgedAlike }
{}
