// What is written and printed of the outcome of a search: its certificate and its report.
ghost use Rattle.std.specs.Prelude.{◌≡◌, ◌⊎◌, IfOk, IsOk, IsTrue, None, Some, IsErrOf, ℕ};
ghost use Rattle.std.specs.Option.{option_map};
ghost use Rattle.cert_text.specs.Outcomes.{IsWritable};
ghost use Rattle.bp_search.specs.Ends.{EndsWithin};
ghost use Rattle.cert_file.specs.Appends.{CountsStop};
ghost use Rattle.cert_file.specs.declared.stop.StreamStop.TheVariants.{NoMemory};
ghost use Rattle.frontend.specs.Answers.{AnswersBy, IsOnly, CutsOff, HasCauses, PutsReport, FailsToWrite, FilesStand};
ghost use Rattle.search_outcome.specs.Outcomes.{outcome_status, IsSolved, IsSaved, TellsOf, SavesBlocked, IsPartOf, HoldsPart, AsBeforeOr};

use block_program::Blocked;
use bp_report::solve_text;
use bp_search::MAX_STEPS;
use bp_shelf::{Shelf, Sink};
use branch_tree::Outcome;
use cert_stream::{StreamStop, write_stream};
use frontend::{Ended, Reply, print, stopped, unwritten};
use std::alloc::{AllocError, Global};

/// Writes the certificate of an outcome, where a file is named for it, and prints the report, which tells so many steps. The
/// certificate is written line by line before the report: where only the report could not be put, it stands whole, and where
/// memory was wanting, a beginning of it may stand.
pub fn tell<F: Shelf, O: Sink>(
    alloc: Global,
    shelf: &mut F,
    out: &mut O,
    b: &Blocked,
    outcome: Outcome,
    told: Option<u64>,
    cert: Option<&str>,
) -> Ended
    requires ends { (most : ℕ) × EndsWithin b.now most outcome }
    requires writable { IsWritable b.now outcome }
    ensures answered { AnswersBy (TellsOf b.now told outcome result.kept) result.status
        (O.tells out.old) (O.taken out.old) (O.taken out.new) }
    ensures exact { IsOnly (TellsOf b.now told outcome result.kept) result.status }
    ensures saved { IsTrue (F.tells shelf.old) →
        SavesBlocked b.now (option_map (λ name. name.now) cert.entry) (F.file shelf.new)
        result.kept }
    ensures puts { PutsReport result.status (O.puts out.old) (O.puts out.new) }
    ensures failed { result.status ≡ 8 →
        FailsToWrite (IsTrue (F.tells shelf.old) →
        IsSaved b.now outcome (option_map (λ name. name.now) cert.entry) (F.file shelf.new))
        (F.write_faults shelf.old) (F.write_faults shelf.new) (O.faults out.old) (O.faults out.new)
        (O.puts out.old) (O.puts out.new) (O.taken out.old) (O.taken out.new) }
    ensures causes { HasCauses result.status (F.read_faults shelf.old) (F.read_faults shelf.new)
        (F.write_faults shelf.old) (F.write_faults shelf.new) (O.faults out.old)
        (O.faults out.new) }
    ensures kept { (result.kept ≡ None) ⊎
        ((result.status ≡ 0) ⊎ (result.status ≡ 4) ⊎ (result.status ≡ 5)) }
    ensures outcome { (result.kept ≡ None) ⊎ (result.kept ≡ Some outcome) }
    ensures statuses { (result.status ≡ 0) ⊎ (result.status ≡ 4) ⊎ (result.status ≡ 5) ⊎
        (result.status ≡ 8) ⊎ (result.status ≡ 9) }
    ensures files { IsTrue (F.tells shelf.old) →
        FilesStand (option_map (λ name. name.now) cert.entry) (F.file shelf.old)
        (F.file shelf.new) }
    ensures part { IsTrue (F.tells shelf.old) → result.status ≡ 9 →
        AsBeforeOr (HoldsPart (TellsOf b.now told outcome) b.now)
        (option_map (λ name. name.now) cert.entry) (F.file shelf.old) (F.file shelf.new) }
    ensures silent { result.status ≡ 9 → O.taken out.new ≡ O.taken out.old }
    ensures cut_off { CutsOff (TellsOf b.now told outcome) result.status result.lost
        (O.tells out.old) (O.taken out.old) (O.taken out.new) }
{
    let Ok(reply) = reply_to(alloc, b, &outcome, told) else {
        return stopped(alloc, 9);
    };
    match save(alloc, shelf, b, &outcome, cert) {
        Ok(()) => print(alloc, out, reply, Some(outcome)),
        Err(StreamStop::Failed) => unwritten(alloc, reply.report),
        Err(StreamStop::NoMemory) => stopped(alloc, 9),
    }
}

// The report on an outcome that tells so many steps, with its status.
fn reply_to(
    alloc: Global,
    b: &Blocked,
    outcome: &Outcome,
    told: Option<u64>,
) -> Result<Reply, AllocError>
    requires { (most : ℕ) × EndsWithin b.now most outcome.now }
    ensures { IfOk result (IsSolved b.now told outcome.now) }
{
    let report = solve_text(alloc, b, outcome, told.unwrap_or(MAX_STEPS))?;
    let status = status_of(outcome);
    Ok(Reply { status, report })
}

/// The status of an outcome: optimal, infeasible, or out of steps.
pub fn status_of(outcome: &Outcome) -> u8
    ensures { result ≡ outcome_status outcome.now }
{
    match outcome {
        Outcome::Optimal { .. } => 0,
        Outcome::Infeasible { .. } => 4,
        Outcome::Budget { .. } => 5,
    }
}

// Writes the certificate of an outcome line by line, where a file is named for it.
fn save<F: Shelf>(
    alloc: Global,
    shelf: &mut F,
    b: &Blocked,
    outcome: &Outcome,
    cert: Option<&str>,
) -> Result<(), StreamStop>
    requires ends { (most : ℕ) × EndsWithin b.now most outcome.now }
    requires writable { IsWritable b.now outcome.now }
    ensures saved { IsTrue (F.tells shelf.old) → IsOk result →
        IsSaved b.now outcome.now (option_map (λ name. name.now) cert.entry) (F.file shelf.new) }
    ensures files { IsTrue (F.tells shelf.old) →
        FilesStand (option_map (λ name. name.now) cert.entry) (F.file shelf.old)
        (F.file shelf.new) }
    ensures part { IsTrue (F.tells shelf.old) → IsErrOf result StreamStop.NoMemory →
        AsBeforeOr (IsPartOf b.now outcome.now) (option_map (λ name. name.now) cert.entry)
        (F.file shelf.old) (F.file shelf.new) }
    ensures told { F.tells shelf.new ≡ F.tells shelf.old }
    ensures cause { CountsStop (F.write_faults shelf.old) (F.write_faults shelf.new) result }
    ensures reads { F.read_faults shelf.new ≡ F.read_faults shelf.old }
{
    match cert {
        None => Ok(()),
        Some(name) => write_stream(alloc, b, outcome, shelf, name),
    }
}
