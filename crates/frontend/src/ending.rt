// How a run ends: its status, what it keeps, and what it prints.
ghost use Rattle.std.specs.Prelude.{◌≡◌, ◌≢◌, ◌⊎◌, ◌++◌, ◌<◌, ℕ, [], IsTrue, take, None, Some};
ghost use Rattle.bp_shelf.specs.Shelf.{Rose, next_count};
ghost use Rattle.frontend.specs.Endings.{status_of};

use bp_shelf::{ShelfFault, Sink};
use branch_tree::Outcome;
use search_laws::Event;
use std::alloc::Global;

/// How a run ended.
#[derive(Drop)]
pub struct Ended {
    /// The status that the program ends with.
    pub status: u8,
    /// The outcome of a search, where one was printed.
    pub kept: Option<Outcome>,
    /// What the workers of a crew did in that search, in order; nothing where no crew ran or no outcome is kept.
    pub events: Vec<Event>,
    /// The whole report that would have been printed, where a write failed: that of a file, or that of the report.
    pub lost: Option<Vec<u8>>,
}

/// A report with the status that it is printed under.
#[derive(Drop)]
pub struct Reply {
    /// The status.
    pub status: u8,
    /// The bytes of the report.
    pub report: Vec<u8>,
}

/// An end of a run at which nothing is printed.
#[derive(Drop)]
pub struct Unprinted {
    /// The status.
    pub status: u8,
    /// The report that would have been printed, where the write of a file failed before it.
    pub lost: Option<Vec<u8>>,
}

/// An end of this status with nothing kept.
pub fn stopped(alloc: Global, status: u8) -> Ended
    ensures status { result.status ≡ status }
    ensures kept { result.kept ≡ None }
    ensures events { result.events.items ≡ [] }
    ensures lost { result.lost ≡ None }
{
    end_unprinted(alloc, Unprinted { status, lost: None })
}

/// An end at which nothing is printed, with nothing kept.
pub fn end_unprinted(alloc: Global, end: Unprinted) -> Ended
    ensures status { result.status ≡ end.status }
    ensures kept { result.kept ≡ None }
    ensures events { result.events.items ≡ [] }
    ensures lost { result.lost ≡ end.lost }
{
    let Unprinted { status, lost } = end;
    Ended {
        status,
        kept: None,
        events: Vec::new(alloc),
        lost,
    }
}

/// An end after a write that failed, before this report was printed.
pub fn unwritten(alloc: Global, report: Vec<u8>) -> Ended
    ensures status { result.status ≡ 8 }
    ensures kept { result.kept ≡ None }
    ensures events { result.events.items ≡ [] }
    ensures lost { result.lost ≡ Some report }
{
    end_unprinted(
        alloc,
        Unprinted {
            status: 8,
            lost: Some(report),
        },
    )
}

/// The end of a run after a read that failed.
pub fn stopped_by(alloc: Global, fault: ShelfFault) -> Ended
    ensures status { result.status ≡ status_of fault }
    ensures kept { result.kept ≡ None }
    ensures events { result.events.items ≡ [] }
{
    stopped(alloc, fault_status(fault))
}

/// The status of a read that failed: 7, or 9 where memory was wanting and 11 where there is no file of that name.
pub fn fault_status(fault: ShelfFault) -> u8
    ensures { result ≡ status_of fault }
{
    match fault {
        ShelfFault::Failed => 7,
        ShelfFault::NoMemory => 9,
        ShelfFault::Missing => 11,
    }
}

/// Prints a report by one put, and ends with its status and with what is kept, without events. A fault of the sink replaces
/// the status; then nothing is kept, and the report is lost.
pub fn print<O: Sink>(alloc: Global, out: &mut O, reply: Reply, kept: Option<Outcome>) -> Ended
    requires { reply.status ≢ 8 }
    ensures status { (result.status ≡ reply.status) ⊎ (result.status ≡ 8) }
    ensures kept { result.status ≢ 8 → result.kept ≡ kept }
    ensures none_kept { result.status ≡ 8 → result.kept ≡ None }
    ensures events { result.events.items ≡ [] }
    ensures once { O.puts out.new ≡ next_count (O.puts out.old) }
    ensures printed { IsTrue (O.tells out.old) → result.status ≢ 8 →
        O.taken out.new ≡ O.taken out.old ++ reply.report.items }
    ensures partly { IsTrue (O.tells out.old) → result.status ≡ 8 →
        (count : ℕ) × (O.taken out.new ≡ O.taken out.old ++ take count reply.report.items) }
    ensures lost { result.status ≡ 8 → result.lost ≡ Some reply.report }
    ensures fault { result.status ≡ 8 → Rose (O.faults out.old) (O.faults out.new) }
    ensures quiet { result.status ≢ 8 → O.faults out.new ≡ O.faults out.old }
{
    match out.put(&reply.report) {
        Ok(()) => Ended {
            status: reply.status,
            kept,
            events: Vec::new(alloc),
            lost: None,
        },
        Err(_) => unwritten(alloc, reply.report),
    }
}
