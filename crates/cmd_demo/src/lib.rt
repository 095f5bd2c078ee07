//! The command `demo`: a made problem is solved in memory, and its certificate is checked.
#![tactic(auto)]

ghost use Rattle.std.specs.Prelude.{◌≡◌, ◌⊎◌, ◌<◌, ◌≤◌, ◌^◌, [], ℕ, IfOk, IfErr, IsTrue, None, Some, length};
ghost use Rattle.bp_search.specs.Ends.{IsOutcome};
ghost use Rattle.cert_text.specs.Outcomes.{IsWritable};
ghost use Rattle.cert_check.specs.Judging.{IsJudged};
ghost use Rattle.cert_stream.specs.Checks.{Finishes};
ghost use Rattle.frontend.specs.Answers.{AnswersBy, IsOnly, CutsOff, HasCauses, PutsReport, IsUnput};
ghost use Rattle.search_outcome.specs.Outcomes.{outcome_certificate};
ghost use Rattle.cmd_demo.specs.Demos.{AnswersDemo, IsSummary, IsDemo, DemoHalts};

use block_program::Blocked;
use bp_gen::{make_dec, make_lp};
use bp_search::search;
use bp_shelf::Sink;
use bp_theory::Limits;
use branch_tree::Outcome;
use cert_check::Judged;
use cert_report::{DEMO_STEPS, demo_text};
use cert_stream::{Checker, FeedFault};
use cert_text::write_cert;
use frontend::{Ended, Halt, Reply, blocks_of, print, stopped};
use search_outcome::status_of;
use std::alloc::{AllocError, Global};

// How many bytes of a certificate's text are fed at once.
const PIECE: usize = 4096;

// A checker is fed fewer bytes in all.
const TOO_LONG: usize = 1 << 63;

/// Makes the generator's texts for 1 to 1,024 jobs in memory, solves them within 2,000 steps, checks the certificate, whose
/// text is fed in pieces of 4,096 bytes, and prints a summary. The certificate is always accepted.
pub fn demonstrate<O: Sink>(alloc: Global, out: &mut O, seed: u64, size: u32) -> Ended
    requires some { 1 ≤ size }
    requires few { size ≤ 1024 }
    ensures answered { AnswersBy (AnswersDemo seed size result.kept) result.status (O.tells out.old)
        (O.taken out.old) (O.taken out.new) }
    ensures exact { IsOnly (AnswersDemo seed size result.kept) result.status }
    ensures causes { (reads writes : ℕ) →
        HasCauses result.status reads reads writes writes (O.faults out.old) (O.faults out.new) }
    ensures kept { (result.kept ≡ None) ⊎
        ((result.status ≡ 0) ⊎ (result.status ≡ 4) ⊎ (result.status ≡ 5)) }
    ensures events { result.events.items ≡ [] }
    ensures statuses { (result.status ≡ 0) ⊎ (result.status ≡ 3) ⊎ (result.status ≡ 4) ⊎
        (result.status ≡ 5) ⊎ (result.status ≡ 8) ⊎ (result.status ≡ 9) }
    ensures silent { result.status ≡ 9 → O.taken out.new ≡ O.taken out.old }
    ensures puts { PutsReport result.status (O.puts out.old) (O.puts out.new) }
    ensures failed { result.status ≡ 8 → (writes : ℕ) →
        IsUnput (Unit {0}) writes writes (O.faults out.old) (O.faults out.new) (O.puts out.old)
        (O.puts out.new) }
    ensures cut_off { CutsOff (AnswersDemo seed size) result.status result.lost (O.tells out.old) (O.taken out.old) (O.taken out.new) }
{
    match demonstrated(alloc, seed, size) {
        Ok((reply, outcome)) => print(alloc, out, reply, Some(outcome)),
        Err(Halt::Refused(report)) => print(alloc, out, Reply { status: 3, report }, None),
        Err(Halt::Stopped(_)) => stopped(alloc, 9),
    }
}

// The summary with the outcome.
fn demonstrated(alloc: Global, seed: u64, size: u32) -> Result<(Reply, Outcome), Halt>
    requires { size ≤ 1024 }
    ensures shown { IfOk result (IsDemo seed size) }
    ensures halted { IfErr result (DemoHalts seed size) }
{
    let lp = make_lp(alloc, seed, size)?;
    let dec = make_dec(alloc, size)?;
    let b = blocks_of(alloc, Limits::Usual, &lp, &dec)?;
    let outcome = search(alloc, &b, Some(DEMO_STEPS))?;
    let reply = summary(alloc, seed, size, &b, &outcome)?;
    Ok((reply, outcome))
}

// The summary of an outcome.
fn summary(
    alloc: Global,
    seed: u64,
    size: u32,
    b: &Blocked,
    outcome: &Outcome,
) -> Result<Reply, AllocError>
    requires uncut { b.now.cuts ≡ [] }
    requires ends { IsOutcome b.now (Some 2000) outcome.now }
    requires writable { IsWritable b.now outcome.now }
    ensures { IfOk result (IsSummary seed size b.now outcome.now) }
{
    let judged = judge_outcome(alloc, b, outcome)?;
    let report = demo_text(alloc, seed, size, b, outcome, &judged)?;
    let status = status_of(outcome);
    Ok(Reply { status, report })
}

// What the certificate of an outcome is judged to be. Its text has no fault, so that only memory can be wanting.
fn judge_outcome(alloc: Global, b: &Blocked, outcome: &Outcome) -> Result<Judged, AllocError>
    requires uncut { b.now.cuts ≡ [] }
    requires ends { IsOutcome b.now (Some 2000) outcome.now }
    requires writable { IsWritable b.now outcome.now }
    ensures { IfOk result (IsJudged b.now
        (outcome_certificate b.now outcome.now)) }
{
    let text = write_cert(alloc, b, outcome)?;
    if text.len() >= TOO_LONG {
        return Err(AllocError);
    }
    match judge_text(alloc, b, &text) {
        Ok(judged) => Ok(judged),
        Err(_) => Err(AllocError),
    }
}

// What a certificate is judged to be whose text is fed in pieces, or the text's first fault.
fn judge_text(alloc: Global, b: &Blocked, text: &[u8]) -> Result<Judged, FeedFault>
    requires uncut { b.now.cuts ≡ [] }
    requires few { length text.now < 2 ^ 63 }
    ensures { Finishes b.now None text.now result }
{
    let Ok(made) = Checker::make(alloc, b, None) else {
        return Err(FeedFault::NoMemory);
    };
    let mut checker = made;
    for piece in text.chunks(PIECE) {
        // A fault is kept, and answered at the end.
        let _ = checker.feed(alloc, b, piece);
    }
    checker.finish()
}
