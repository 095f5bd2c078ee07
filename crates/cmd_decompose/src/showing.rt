// The command `show`: the sizes of a program in blocks, its classes at the root, and its blocks where they are wanted.

ghost use Rattle.std.specs.Prelude.{◌≡◌, ◌≢◌, ◌⊎◌, [], IfOk, IsTrue, None};
ghost use Rattle.std.specs.Option.{option_map};
ghost use Rattle.frontend.specs.Answers.{AnswersBy, IsOnly, CutsOff, HasCauses, PutsReport, IsUnput};
ghost use Rattle.frontend.specs.Endings.{IsReplyStatus, IsRightReply};
ghost use Rattle.frontend.specs.Halts.{CountsHalted};
ghost use Rattle.cmd_decompose.specs.Shows.{AnswersShow, RepliesShow};

use block_class::Classes;
use block_program::{Blocked, Zone};
use bp_report::show_blocks_text;
use bp_shelf::{Shelf, ShelfFault, Sink};
use frontend::{Ended, Halt, Reply, Sources, finish, load, reply_or_status};
use std::alloc::{AllocError, Global};

/// Prints the sizes of the program in blocks that the files come to, its classes at the root and, where they are wanted, the
/// names of the rows and variables of each block, or with `classes` alone of the first block of each class.
pub fn show<F: Shelf, O: Sink>(
    alloc: Global,
    shelf: &mut F,
    out: &mut O,
    sources: Sources<'_>,
    blocks: bool,
    classes: bool,
) -> Ended
    ensures answered { IsTrue (F.tells shelf.old) →
        AnswersBy (AnswersShow sources.entry.limits (F.file shelf.old) sources.entry.lp.now
        (option_map (λ name. name.now) sources.entry.dec) blocks classes) result.status (O.tells out.old)
        (O.taken out.old) (O.taken out.new) }
    ensures exact { IsTrue (F.tells shelf.old) →
        IsOnly (AnswersShow sources.entry.limits (F.file shelf.old) sources.entry.lp.now (option_map
        (λ name. name.now) sources.entry.dec) blocks classes) result.status }
    ensures causes { HasCauses result.status (F.read_faults shelf.old) (F.read_faults shelf.new)
        (F.write_faults shelf.old) (F.write_faults shelf.new) (O.faults out.old)
        (O.faults out.new) }
    ensures kept { result.kept ≡ None }
    ensures events { result.events.items ≡ [] }
    ensures words { result.status ≢ 2 }
    ensures files { F.file shelf.new ≡ F.file shelf.old }
    ensures writes { F.write_faults shelf.new ≡ F.write_faults shelf.old }
    ensures silent { (result.status ≡ 7) ⊎ (result.status ≡ 9) ⊎ (result.status ≡ 11) →
        O.taken out.new ≡ O.taken out.old }
    ensures puts { PutsReport result.status (O.puts out.old) (O.puts out.new) }
    ensures failed { result.status ≡ 8 →
        IsUnput (F.file shelf.new ≡ F.file shelf.old) (F.write_faults shelf.old)
        (F.write_faults shelf.new) (O.faults out.old) (O.faults out.new) (O.puts out.old)
        (O.puts out.new) }
    ensures cut_off { IsTrue (F.tells shelf.old) →
        CutsOff (λ kept. AnswersShow sources.entry.limits (F.file shelf.old) sources.entry.lp.now
        (option_map (λ name. name.now) sources.entry.dec) blocks classes) result.status result.lost (O.tells
        out.old) (O.taken out.old) (O.taken out.new) }
{
    let answer = shown(alloc, shelf, sources, blocks, classes);
    finish(alloc, out, reply_or_status(answer))
}

// The reply to `show`, or what a run ends with before it.
fn shown<F: Shelf>(
    alloc: Global,
    shelf: &mut F,
    sources: Sources<'_>,
    blocks: bool,
    classes: bool,
) -> Result<Reply, Halt>
    ensures right { IsTrue (F.tells shelf.old) →
        IsRightReply (AnswersShow sources.entry.limits (F.file shelf.old) sources.entry.lp.now
        (option_map (λ name. name.now) sources.entry.dec) blocks classes) result }
    ensures statuses { IfOk result (λ reply. IsReplyStatus reply.status) }
    ensures files { F.file shelf.new ≡ F.file shelf.old }
    ensures cause { CountsHalted (F.read_faults shelf.old) (F.read_faults shelf.new) result }
    ensures writes { F.write_faults shelf.new ≡ F.write_faults shelf.old }
{
    match load(alloc, shelf, sources) {
        Ok(b) => match reply_to(alloc, &b, blocks, classes) {
            Ok(reply) => Ok(reply),
            Err(_) => Err(Halt::Stopped(ShelfFault::NoMemory)),
        },
        Err(halt) => Err(halt),
    }
}

// The reply to `show` for a program in blocks.
fn reply_to(alloc: Global, b: &Blocked, blocks: bool, classes: bool) -> Result<Reply, AllocError>
    ensures { IfOk result (RepliesShow blocks classes b.now) }
{
    let root = Zone::root(alloc, b)?;
    let grouping = Classes::of(alloc, b, &root)?;
    Ok(Reply {
        status: 0,
        report: show_blocks_text(alloc, b, &grouping, blocks, classes)?,
    })
}
