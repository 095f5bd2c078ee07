// The end of a run by what it came to: a reply, or the status of an end at which nothing is printed.
ghost use Rattle.std.specs.Prelude.{◌≡◌, ◌≢◌, [], Err, IfOk, None};
ghost use Rattle.frontend.specs.Endings.{Finishes, come_of};

use crate::ending::{Ended, Reply, Unprinted, end_unprinted, fault_status, print};
use crate::front::Halt;
use bp_shelf::Sink;
use std::alloc::Global;

/// Ends a run: prints the reply that it came to by one put, or prints nothing and ends with the status. A fault of the sink
/// replaces a reply's status. Nothing is kept, and no events. Where a write failed, the reply's report is lost.
pub fn finish<O: Sink>(alloc: Global, out: &mut O, come: Result<Reply, Unprinted>) -> Ended
    requires unfailed { IfOk come (λ reply. reply.status ≢ 8) }
    ensures ends { Finishes result.status result.lost (O.tells out.old) (O.taken out.old) (O.taken out.new)
        (O.faults out.old) (O.faults out.new) (O.puts out.old) (O.puts out.new) come }
    ensures kept { result.kept ≡ None }
    ensures events { result.events.items ≡ [] }
{
    match come {
        Ok(reply) => print(alloc, out, reply, None),
        Err(end) => end_unprinted(alloc, end),
    }
}

/// What a run comes to that has a reply or was halted before it.
pub fn reply_or_status(answer: Result<Reply, Halt>) -> Result<Reply, Unprinted>
    ensures { result ≡ come_of answer }
{
    match answer {
        Ok(reply) => Ok(reply),
        Err(halt) => halted(halt),
    }
}

/// What a run comes to that was halted: a refusal is printed under 3, and a file that could not be had is told by its status
/// alone.
pub fn halted(halt: Halt) -> Result<Reply, Unprinted>
    ensures { result ≡ come_of (Err halt) }
{
    match halt {
        Halt::Refused(report) => Ok(Reply { status: 3, report }),
        Halt::Stopped(fault) => Err(Unprinted {
            status: fault_status(fault),
            lost: None,
        }),
    }
}
