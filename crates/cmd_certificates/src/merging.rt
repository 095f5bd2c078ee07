// The command `merge`: two valid certificates of one model as one that is as far as both.

ghost use Rattle.std.specs.Prelude.{◌≡◌, ◌≢◌, ◌⊎◌, [], IfOk, IfErr, IsTrue, None};
ghost use Rattle.std.specs.Option.{option_map};
ghost use Rattle.bp_shelf.specs.Shelf.{OthersAsBefore};
ghost use Rattle.frontend.specs.Answers.{AnswersBy, IsOnly, CutsOff, HasCauses, PutsReport, FailsToWrite};
ghost use Rattle.frontend.specs.Written.{draft_answer};
ghost use Rattle.cmd_certificates.specs.Merges.{MergesBlocked, Merges, AnswersMerge};
ghost use Rattle.cmd_certificates.specs.Stops.{IsStop, IsRefusal, CountsStopped, WritesMerged, come_by_stop};
ghost use Rattle.cmd_certificates.specs.MergeFiles.{MergeLeaves, MergeWrites};

use crate::joined::join;
use crate::opening::{Stop, open_cert};
use block_program::Blocked;
use bp_shelf::{Shelf, Sink};
use frontend::{
    Draft, Ended, Halt, Reply, Sources, Unprinted, fault_status, finish, load, put_draft,
};
use std::alloc::Global;

/// Merges the certificates of two files, writes the merged one to a named file, and prints how many of its leaves are
/// open and what `check` prints for it. Both certificates are read and judged before anything is written, so one file
/// may be named for all. No other file is changed; what stands after a write that failed or for want of memory is told
/// by the status.
pub fn merge<F: Shelf, O: Sink>(
    alloc: Global,
    shelf: &mut F,
    out: &mut O,
    sources: Sources<'_>,
    first: &str,
    second: &str,
    new: &str,
) -> Ended
    ensures answered { IsTrue (F.tells shelf.old) →
        AnswersBy (AnswersMerge sources.entry.limits (F.file shelf.old) sources.entry.lp.now
        first.now second.now (option_map (λ name. name.now) sources.entry.dec)) result.status
        (O.tells out.old) (O.taken out.old) (O.taken out.new) }
    ensures exact { IsTrue (F.tells shelf.old) →
        IsOnly (AnswersMerge sources.entry.limits (F.file shelf.old) sources.entry.lp.now first.now
        second.now (option_map (λ name. name.now) sources.entry.dec)) result.status }
    ensures causes { HasCauses result.status (F.read_faults shelf.old) (F.read_faults shelf.new)
        (F.write_faults shelf.old) (F.write_faults shelf.new) (O.faults out.old)
        (O.faults out.new) }
    ensures kept { result.kept ≡ None }
    ensures events { result.events.items ≡ [] }
    ensures words { result.status ≢ 2 }
    ensures leaves { IsTrue (F.tells shelf.old) →
        MergeLeaves sources.entry.limits sources.entry.lp.now first.now second.now (option_map (λ
        name. name.now) sources.entry.dec) new.now (F.file shelf.old) (F.file shelf.new)
        result.status }
    ensures others { IsTrue (F.tells shelf.old) →
        OthersAsBefore new.now (F.file shelf.old) (F.file shelf.new) }
    ensures puts { PutsReport result.status (O.puts out.old) (O.puts out.new) }
    ensures failed { result.status ≡ 8 →
        FailsToWrite (IsTrue (F.tells shelf.old) → MergeWrites sources.entry.limits
        sources.entry.lp.now first.now second.now (option_map (λ name. name.now) sources.entry.dec)
        new.now (F.file shelf.old) (F.file shelf.new)) (F.write_faults shelf.old) (F.write_faults
        shelf.new) (O.faults out.old) (O.faults out.new) (O.puts out.old) (O.puts out.new) (O.taken
        out.old) (O.taken out.new) }
    ensures silent { (result.status ≡ 7) ⊎ (result.status ≡ 9) ⊎ (result.status ≡ 11) →
        O.taken out.new ≡ O.taken out.old }
    ensures cut_off { IsTrue (F.tells shelf.old) →
        CutsOff (λ kept. AnswersMerge sources.entry.limits (F.file shelf.old) sources.entry.lp.now
        first.now second.now (option_map (λ name. name.now) sources.entry.dec)) result.status
        result.lost (O.tells out.old) (O.taken out.old) (O.taken out.new) }
{
    let merged = load_merged(alloc, shelf, sources, first, second);
    let come = write_merged(shelf, new, merged);
    finish(alloc, out, come)
}

// Writes the merged certificate: what the run comes to is the reply to it, or the status of the write, or what the run stopped
// for before there was one.
fn write_merged<F: Shelf>(
    shelf: &mut F,
    new: &str,
    merged: Result<Draft, Stop>,
) -> Result<Reply, Unprinted>
    ensures writes { WritesMerged (F.tells shelf.old) new.now (F.file shelf.old)
        (F.file shelf.new) (F.write_faults shelf.old) (F.write_faults shelf.new) merged result }
    ensures reads { F.read_faults shelf.new ≡ F.read_faults shelf.old }
{
    match merged {
        Ok(draft) => put_draft(shelf, new, draft),
        Err(stop) => come_by(stop),
    }
}

// What a run comes to that stopped.
fn come_by(stop: Stop) -> Result<Reply, Unprinted>
    ensures { result ≡ come_by_stop stop }
{
    match stop {
        Stop::Refused(reply) => Ok(reply),
        Stop::Stopped(fault) => Err(Unprinted {
            status: fault_status(fault),
            lost: None,
        }),
    }
}

// The merged certificate of two files beside a model's, or what a run ends with.
fn load_merged<F: Shelf>(
    alloc: Global,
    shelf: &mut F,
    sources: Sources<'_>,
    first: &str,
    second: &str,
) -> Result<Draft, Stop>
    ensures merged { IsTrue (F.tells shelf.old) →
        IfOk result (λ m. Merges sources.entry.limits (F.file shelf.old) sources.entry.lp.now
        first.now second.now (option_map (λ name. name.now) sources.entry.dec) (draft_answer m)) }
    ensures done { IfOk result (λ m. m.reply.status ≡ 0) }
    ensures stopped { IsTrue (F.tells shelf.old) →
        IfErr result (IsStop (Merges sources.entry.limits (F.file shelf.old) sources.entry.lp.now
        first.now second.now (option_map (λ name. name.now) sources.entry.dec))) }
    ensures refusals { IfErr result IsRefusal }
    ensures told { F.tells shelf.new ≡ F.tells shelf.old }
    ensures files { F.file shelf.new ≡ F.file shelf.old }
    ensures cause { CountsStopped (F.read_faults shelf.old) (F.read_faults shelf.new) result }
    ensures writes { F.write_faults shelf.new ≡ F.write_faults shelf.old }
{
    match load(alloc, shelf, sources) {
        Ok(b) => merge_files(alloc, shelf, &b, first, second),
        Err(Halt::Refused(report)) => Err(Stop::Refused(Reply { status: 3, report })),
        Err(Halt::Stopped(fault)) => Err(Stop::Stopped(fault)),
    }
}

// The merged certificate of two files beside a program in blocks, or what a run ends with.
fn merge_files<F: Shelf>(
    alloc: Global,
    shelf: &mut F,
    b: &Blocked,
    first: &str,
    second: &str,
) -> Result<Draft, Stop>
    requires uncut { b.now.cuts ≡ [] }
    ensures merged { IsTrue (F.tells shelf.old) →
        IfOk result (λ m. MergesBlocked (F.file shelf.old) b.now first.now second.now
        (draft_answer m)) }
    ensures done { IfOk result (λ m. m.reply.status ≡ 0) }
    ensures stopped { IsTrue (F.tells shelf.old) →
        IfErr result (IsStop (MergesBlocked (F.file shelf.old) b.now first.now second.now)) }
    ensures refusals { IfErr result IsRefusal }
    ensures told { F.tells shelf.new ≡ F.tells shelf.old }
    ensures files { F.file shelf.new ≡ F.file shelf.old }
    ensures cause { CountsStopped (F.read_faults shelf.old) (F.read_faults shelf.new) result }
    ensures writes { F.write_faults shelf.new ≡ F.write_faults shelf.old }
{
    // For the proof alone: `b` is formed.
    let _ = b.blocks();
    let one = open_cert(alloc, shelf, b, first)?;
    let other = open_cert(alloc, shelf, b, second)?;
    join(alloc, one, other)
}
