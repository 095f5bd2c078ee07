//! The command `solve`: a best point of a program in blocks, or that it has none, or a dual bound where the steps ran out; from the start
//! or from where a certificate stopped, also below one open node alone; with a certificate where a file is named for it.
#![tactic(auto)]

mod crew;

ghost use Rattle.std.specs.Prelude.{[], ◌≡◌, ◌≢◌, ◌⊎◌, ◌≤◌, ◌^◌, IfSome, IsTrue, None};
ghost use Rattle.std.specs.Option.{option_map};
ghost use Rattle.branch_tree.specs.Loads.{IsLoaded};
ghost use Rattle.frontend.specs.Answers.{AnswersBy, IsOnly, CutsOff, HasCauses, PutsReport, FailsToWrite, FilesStand};
ghost use Rattle.cmd_solve.specs.Solves.{AnswersSolve, SolvesBy, SolvesAt};
ghost use Rattle.search_outcome.specs.Outcomes.{SavesBlocked, HoldsPart, AsBeforeOr};
ghost use Rattle.search_outcome.specs.Endings.{StopsAt};
ghost use Rattle.cmd_solve.specs.Crews.{HasEventsFrom, EventsBy, HasEvents, ordered_crew};
ghost use Rattle.cmd_solve.specs.Saves.{SavesBy, HasCertificate, LeavesAt, LeavesBy, LeavesCertificate, IsUntouched, HoldsPartBy, LeavesPart};

use crate::crew::{Origin, Searched, kept_events, search_asked};
use block_program::Blocked;
use bp_search::Watch;
use bp_shelf::{Shelf, Sink};
use frontend::{Ended, Halt, Reply, Sources, load, print, stopped, stopped_by};
use search_outcome::{Ran, tell};
use search_start::{Start, begin};
use std::alloc::Global;

/// What is asked of a search beside its model.
#[derive(Clone, Copy)]
pub struct SolveRequest<'a> {
    /// After how many steps to stop, at most 2^60, where a number is given.
    pub steps: Option<u64>,
    /// The file for the certificate, where one is wanted.
    pub cert: Option<&'a str>,
    /// The file of the certificate to go on from, where there is one.
    pub from: Option<&'a str>,
    /// The open leaf of that certificate below which alone to work, by its number from 1, where one is given.
    pub leaf: Option<u64>,
    /// How many workers a crew has, at least 1, where a number is given.
    pub workers: Option<u32>,
    /// The seed of the order in which the workers of a crew have their turns, where one is given.
    pub order: Option<u64>,
    /// How many rounding cuts may be added at most.
    pub cuts: u32,
    /// Whether the search is watched, where it has neither a leaf to work below nor a crew.
    pub watched: bool,
}

/// Solves the model of a file, from the start or from where the certificate of a named file stopped, writes the
/// certificate where a file is named for it, and prints the report. The certificate to go on from is read and judged
/// before the search, so one file may be named for both. Where the number of an open leaf of that certificate is given,
/// from 1 in the order of its lines, the search works at that leaf and below it alone: it ends when the steps are taken
/// or no leaf there is live, the certificate and the report are those of the whole tree, and `budget` tells the steps
/// that were taken. Where a number of workers or the seed of their order is given, a crew searches, whose events are
/// handed out beside the outcome. Before the search at most so many rounding cuts are added as `cuts` says, behind those of
/// the certificate to go on from, and no more than 256 in all: first the plain ones, none of which is left out while there
/// is room, and behind them such as are thought to serve. The certificate has all of them. It is written line by line before
/// the report: where only the report could not be put, it stands whole, and where memory was wanting, a beginning of it may
/// stand. A search that is watched may end before the given steps: all is then as for the steps that it took, which are handed
/// out.
pub fn solve<F: Shelf, O: Sink, W: Watch>(
    alloc: Global,
    shelf: &mut F,
    out: &mut O,
    sources: Sources<'_>,
    request: SolveRequest<'_>,
    watch: &mut W,
) -> Ran
    requires few { IfSome request.steps (λ n. n ≤ 2 ^ 60) }
    requires some { IfSome request.workers (λ w. 1 ≤ w) }
    requires alone { IfSome request.leaf (λ _. (request.workers ≡ None) × (request.order ≡ None)) }
    ensures answered { IsTrue (F.tells shelf.old) →
        AnswersBy (AnswersSolve sources.entry.limits (F.file shelf.old) sources.entry.lp.now
        (option_map (λ name. name.now) sources.entry.dec) result.steps (option_map (λ name. name.now)
        request.entry.from) request.entry.leaf request.entry.cuts result.ended.kept) result.ended.status (O.tells out.old) (O.taken out.old)
        (O.taken out.new) }
    ensures exact { IsTrue (F.tells shelf.old) →
        IsOnly (AnswersSolve sources.entry.limits (F.file shelf.old) sources.entry.lp.now
        (option_map (λ name. name.now) sources.entry.dec) result.steps (option_map (λ name. name.now)
        request.entry.from) request.entry.leaf request.entry.cuts result.ended.kept) result.ended.status }
    ensures saved { IsTrue (F.tells shelf.old) →
        HasCertificate sources.entry.limits (F.file shelf.old) sources.entry.lp.now (option_map (λ
        name. name.now) sources.entry.dec) (option_map (λ name. name.now) request.entry.cert) (option_map (λ
        name. name.now) request.entry.from) request.entry.cuts (F.file shelf.new) result.ended.kept }
    ensures puts { PutsReport result.ended.status (O.puts out.old) (O.puts out.new) }
    ensures failed { result.ended.status ≡ 8 →
        FailsToWrite (IsTrue (F.tells shelf.old) → LeavesCertificate sources.entry.limits (F.file
        shelf.old) sources.entry.lp.now (option_map (λ name. name.now) sources.entry.dec) result.steps
        (option_map (λ name. name.now) request.entry.cert) (option_map (λ name. name.now) request.entry.from) request.entry.leaf
        request.entry.cuts (F.file shelf.new)) (F.write_faults shelf.old) (F.write_faults shelf.new) (O.faults
        out.old) (O.faults out.new) (O.puts out.old) (O.puts out.new) (O.taken out.old) (O.taken
        out.new) }
    ensures causes { HasCauses result.ended.status (F.read_faults shelf.old) (F.read_faults shelf.new)
        (F.write_faults shelf.old) (F.write_faults shelf.new) (O.faults out.old)
        (O.faults out.new) }
    ensures kept { (result.ended.kept ≡ None) ⊎
        ((result.ended.status ≡ 0) ⊎ (result.ended.status ≡ 4) ⊎ (result.ended.status ≡ 5)) }
    ensures events { IsTrue (F.tells shelf.old) →
        HasEvents sources.entry.limits (F.file shelf.old) sources.entry.lp.now (option_map (λ name.
        name.now) sources.entry.dec) result.steps (option_map (λ name. name.now) request.entry.from) request.entry.workers request.entry.order
        request.entry.cuts result.ended.kept result.ended.events.items }
    ensures no_events { result.ended.kept ≡ None → result.ended.events.items ≡ [] }
    ensures stops { StopsAt request.entry.watched request.entry.steps result.steps }
    ensures words { result.ended.status ≢ 2 }
    ensures files { IsTrue (F.tells shelf.old) →
        FilesStand (option_map (λ name. name.now) request.entry.cert) (F.file shelf.old)
        (F.file shelf.new) }
    ensures untouched { IsTrue (F.tells shelf.old) → IsUntouched result.ended.status →
        F.file shelf.new ≡ F.file shelf.old }
    ensures part { IsTrue (F.tells shelf.old) →
        result.ended.status ≡ 9 → LeavesPart sources.entry.limits (F.file shelf.old) sources.entry.lp.now
        (option_map (λ name. name.now) sources.entry.dec) result.steps (option_map (λ name. name.now)
        request.entry.cert) (option_map (λ name. name.now) request.entry.from) request.entry.leaf request.entry.cuts (F.file shelf.new) }
    ensures silent { (result.ended.status ≡ 7) ⊎ (result.ended.status ≡ 9) ⊎ (result.ended.status ≡ 11) →
        O.taken out.new ≡ O.taken out.old }
    ensures cut_off { IsTrue (F.tells shelf.old) →
        CutsOff (AnswersSolve sources.entry.limits (F.file shelf.old) sources.entry.lp.now
        (option_map (λ name. name.now) sources.entry.dec) result.steps (option_map (λ name. name.now)
        request.entry.from) request.entry.leaf request.entry.cuts) result.ended.status result.ended.lost (O.tells out.old) (O.taken out.old)
        (O.taken out.new) }
{
    match load(alloc, shelf, sources) {
        Ok(b) => solve_blocks(alloc, shelf, out, b, request, watch),
        Err(Halt::Refused(report)) => Ran {
            ended: print(alloc, out, Reply { status: 3, report }, None),
            steps: request.steps,
        },
        Err(Halt::Stopped(fault)) => Ran {
            ended: stopped_by(alloc, fault),
            steps: request.steps,
        },
    }
}

// Solves a program in blocks without cuts, from the start or from where the certificate of a named file stopped, over the program
// with the cuts of that certificate and at most so many further ones.
fn solve_blocks<F: Shelf, O: Sink, W: Watch>(
    alloc: Global,
    shelf: &mut F,
    out: &mut O,
    b: Blocked,
    request: SolveRequest<'_>,
    watch: &mut W,
) -> Ran
    requires uncut { b.cuts ≡ [] }
    requires few { IfSome request.steps (λ n. n ≤ 2 ^ 60) }
    requires some { IfSome request.workers (λ w. 1 ≤ w) }
    requires alone { IfSome request.leaf (λ _. (request.workers ≡ None) × (request.order ≡ None)) }
    ensures answered { IsTrue (F.tells shelf.old) →
        AnswersBy (SolvesBy (F.file shelf.old) (option_map (λ name. name.now) request.entry.from) request.entry.leaf result.steps
        request.entry.cuts result.ended.kept b) result.ended.status (O.tells out.old) (O.taken out.old) (O.taken out.new) }
    ensures exact { IsTrue (F.tells shelf.old) →
        IsOnly (SolvesBy (F.file shelf.old) (option_map (λ name. name.now) request.entry.from) request.entry.leaf result.steps
        request.entry.cuts result.ended.kept b) result.ended.status }
    ensures saved { IsTrue (F.tells shelf.old) →
        SavesBy (F.file shelf.old) (option_map (λ name. name.now) request.entry.from) request.entry.cuts b (option_map
        (λ name. name.now) request.entry.cert) (F.file shelf.new) result.ended.kept }
    ensures puts { PutsReport result.ended.status (O.puts out.old) (O.puts out.new) }
    ensures failed { result.ended.status ≡ 8 →
        FailsToWrite (IsTrue (F.tells shelf.old) →
        LeavesBy (F.file shelf.old) (option_map (λ name. name.now) request.entry.from) request.entry.leaf result.steps request.entry.cuts
        (option_map (λ name. name.now) request.entry.cert) (F.file shelf.new) b)
        (F.write_faults shelf.old) (F.write_faults shelf.new) (O.faults out.old) (O.faults out.new)
        (O.puts out.old) (O.puts out.new) (O.taken out.old) (O.taken out.new) }
    ensures causes { HasCauses result.ended.status (F.read_faults shelf.old) (F.read_faults shelf.new)
        (F.write_faults shelf.old) (F.write_faults shelf.new) (O.faults out.old)
        (O.faults out.new) }
    ensures kept { (result.ended.kept ≡ None) ⊎
        ((result.ended.status ≡ 0) ⊎ (result.ended.status ≡ 4) ⊎ (result.ended.status ≡ 5)) }
    ensures events { IsTrue (F.tells shelf.old) →
        EventsBy (F.file shelf.old) (option_map (λ name. name.now) request.entry.from) result.steps (ordered_crew request.entry.workers request.entry.order) request.entry.cuts b
        result.ended.kept result.ended.events.items }
    ensures no_events { result.ended.kept ≡ None → result.ended.events.items ≡ [] }
    ensures stops { StopsAt request.entry.watched request.entry.steps result.steps }
    ensures words { result.ended.status ≢ 2 }
    ensures files { IsTrue (F.tells shelf.old) →
        FilesStand (option_map (λ name. name.now) request.entry.cert) (F.file shelf.old)
        (F.file shelf.new) }
    ensures untouched { IsTrue (F.tells shelf.old) → IsUntouched result.ended.status →
        F.file shelf.new ≡ F.file shelf.old }
    ensures part { IsTrue (F.tells shelf.old) → result.ended.status ≡ 9 →
        AsBeforeOr (HoldsPartBy (F.file shelf.old) (option_map (λ name. name.now) request.entry.from) request.entry.leaf
        result.steps request.entry.cuts b) (option_map (λ name. name.now) request.entry.cert) (F.file shelf.old)
        (F.file shelf.new) }
    ensures silent { (result.ended.status ≡ 7) ⊎ (result.ended.status ≡ 9) ⊎ (result.ended.status ≡ 11) →
        O.taken out.new ≡ O.taken out.old }
    ensures cut_off { IsTrue (F.tells shelf.old) →
        CutsOff (λ kept. SolvesBy (F.file shelf.old) (option_map (λ name. name.now) request.entry.from) request.entry.leaf
        result.steps request.entry.cuts kept b) result.ended.status result.ended.lost (O.tells out.old) (O.taken out.old) (O.taken out.new) }
{
    // For the proof alone: `b` is formed.
    let _ = b.blocks();
    match begin(alloc, shelf, b, request.from, request.leaf, request.cuts) {
        Ok(Start::Ready(c, from, below)) => {
            let origin = Origin { from, below };
            answer(alloc, shelf, out, &c, origin, request, watch)
        }
        Ok(Start::Refused(reply)) => Ran {
            ended: print(alloc, out, reply, None),
            steps: request.steps,
        },
        Err(fault) => Ran {
            ended: stopped_by(alloc, fault),
            steps: request.steps,
        },
    }
}

// Searches a program in blocks from a tree, or from the start, by a crew where one is ordered, or at a path of the tree and
// below it alone where there is one; writes the certificate where a file is named for it, and prints the report.
fn answer<F: Shelf, O: Sink, W: Watch>(
    alloc: Global,
    shelf: &mut F,
    out: &mut O,
    b: &Blocked,
    origin: Origin,
    request: SolveRequest<'_>,
    watch: &mut W,
) -> Ran
    requires loaded { IfSome origin.from (IsLoaded b.now) }
    requires few { IfSome request.steps (λ n. n ≤ 2 ^ 60) }
    requires some { IfSome request.workers (λ w. 1 ≤ w) }
    requires alone { IfSome origin.below (λ _. (request.workers ≡ None) × (request.order ≡ None)) }
    ensures answered { AnswersBy (SolvesAt origin.from origin.below result.steps result.ended.kept b.now) result.ended.status
        (O.tells out.old) (O.taken out.old) (O.taken out.new) }
    ensures exact { IsOnly (SolvesAt origin.from origin.below result.steps result.ended.kept b.now) result.ended.status }
    ensures saved { IsTrue (F.tells shelf.old) →
        SavesBlocked b.now (option_map (λ name. name.now) request.entry.cert) (F.file shelf.new)
        result.ended.kept }
    ensures puts { PutsReport result.ended.status (O.puts out.old) (O.puts out.new) }
    ensures failed { result.ended.status ≡ 8 →
        FailsToWrite (IsTrue (F.tells shelf.old) →
        LeavesAt origin.from origin.below result.steps (option_map (λ name. name.now) request.entry.cert) (F.file shelf.new)
        b.now) (F.write_faults shelf.old) (F.write_faults shelf.new) (O.faults out.old)
        (O.faults out.new) (O.puts out.old) (O.puts out.new) (O.taken out.old) (O.taken out.new) }
    ensures causes { HasCauses result.ended.status (F.read_faults shelf.old) (F.read_faults shelf.new)
        (F.write_faults shelf.old) (F.write_faults shelf.new) (O.faults out.old)
        (O.faults out.new) }
    ensures kept { (result.ended.kept ≡ None) ⊎
        ((result.ended.status ≡ 0) ⊎ (result.ended.status ≡ 4) ⊎ (result.ended.status ≡ 5)) }
    ensures events { HasEventsFrom b.now origin.from result.steps (ordered_crew request.entry.workers request.entry.order) result.ended.kept result.ended.events.items }
    ensures stops { StopsAt request.entry.watched request.entry.steps result.steps }
    ensures statuses { (result.ended.status ≡ 0) ⊎ (result.ended.status ≡ 4) ⊎ (result.ended.status ≡ 5) ⊎
        (result.ended.status ≡ 8) ⊎ (result.ended.status ≡ 9) }
    ensures files { IsTrue (F.tells shelf.old) →
        FilesStand (option_map (λ name. name.now) request.entry.cert) (F.file shelf.old)
        (F.file shelf.new) }
    ensures part { IsTrue (F.tells shelf.old) → result.ended.status ≡ 9 →
        AsBeforeOr (HoldsPart (λ kept. SolvesAt origin.from origin.below result.steps kept b.now) b.now)
        (option_map (λ name. name.now) request.entry.cert) (F.file shelf.old) (F.file shelf.new) }
    ensures silent { result.ended.status ≡ 9 → O.taken out.new ≡ O.taken out.old }
    ensures cut_off { CutsOff (λ kept. SolvesAt origin.from origin.below result.steps kept b.now) result.ended.status result.ended.lost (O.tells out.old) (O.taken out.old)
        (O.taken out.new) }
{
    let Ok(searched) = search_asked(alloc, b, origin, request, watch) else {
        return Ran {
            ended: stopped(alloc, 9),
            steps: request.steps,
        };
    };
    let Searched {
        outcome,
        steps,
        told,
        events,
    } = searched;
    let Ended {
        status,
        kept,
        lost,
        ..
    } = tell(alloc, shelf, out, b, outcome, told, request.cert);
    let events = kept_events(alloc, &kept, events);
    let ended = Ended {
        status,
        kept,
        events,
        lost,
    };
    Ran { ended, steps }
}
