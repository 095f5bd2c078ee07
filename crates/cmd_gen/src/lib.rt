//! The command `gen`: the texts of a generalised assignment problem, made from a seed and a size.
#![tactic(auto)]

ghost use Rattle.std.specs.Prelude.{◌≡◌, ◌≢◌, ◌⊎◌, ◌<◌, ◌≤◌, [], IfOk, IsErrOf, IsTrue, None};
ghost use Rattle.bp_shelf.specs.Shelf.{CountsFailed};
ghost use Rattle.bp_shelf.specs.declared.shelf.ShelfFault.TheVariants.{Missing};
ghost use Rattle.frontend.specs.Answers.{AnswersBy, IsOnly, CutsOff, HasCauses, PutsReport, FailsToWrite};
ghost use Rattle.cmd_gen.specs.Generates.{AnswersGen, HoldsTexts, OthersStand, WritesBoth, GenLeaves, GenWrites};

use bp_gen::{make_dec, make_lp};
use bp_report::made_text;
use bp_shelf::{Shelf, ShelfFault, Sink};
use frontend::{Ended, Reply, print, stopped, unwritten};
use std::alloc::{AllocError, Global};

// The generator's texts, and the report on them.
#[derive(Drop)]
struct Made {
    // The model's text, which is written first.
    lp: Vec<u8>,
    // The text of its decomposition, a block for each agent.
    dec: Vec<u8>,
    // The report and its status, where both writes go well.
    reply: Reply,
}

/// Writes the LP text and the DEC text of the generator for 1 to 1,024 jobs, the LP text first, and prints their sizes.
/// No other file is changed; what stands after a write that failed or for want of memory is told by the status.
pub fn generate<F: Shelf, O: Sink>(
    alloc: Global,
    shelf: &mut F,
    out: &mut O,
    seed: u64,
    size: u32,
    lp: &str,
    dec: &str,
) -> Ended
    requires some { 1 ≤ size }
    requires few { size ≤ 1024 }
    ensures answered { AnswersBy (AnswersGen size) result.status (O.tells out.old) (O.taken out.old)
        (O.taken out.new) }
    ensures exact { IsOnly (AnswersGen size) result.status }
    ensures causes { HasCauses result.status (F.read_faults shelf.old) (F.read_faults shelf.new)
        (F.write_faults shelf.old) (F.write_faults shelf.new) (O.faults out.old)
        (O.faults out.new) }
    ensures kept { result.kept ≡ None }
    ensures events { result.events.items ≡ [] }
    ensures statuses { (result.status ≡ 0) ⊎ (result.status ≡ 8) ⊎ (result.status ≡ 9) }
    ensures leaves { IsTrue (F.tells shelf.old) →
        GenLeaves seed size lp.now dec.now (F.file shelf.old) (F.file shelf.new) result.status }
    ensures others { IsTrue (F.tells shelf.old) →
        OthersStand lp.now dec.now (F.file shelf.old) (F.file shelf.new) }
    ensures puts { PutsReport result.status (O.puts out.old) (O.puts out.new) }
    ensures failed { result.status ≡ 8 →
        FailsToWrite (IsTrue (F.tells shelf.old) →
        GenWrites seed size lp.now dec.now (F.file shelf.old) (F.file shelf.new))
        (F.write_faults shelf.old) (F.write_faults shelf.new) (O.faults out.old) (O.faults out.new)
        (O.puts out.old) (O.puts out.new) (O.taken out.old) (O.taken out.new) }
    ensures silent { result.status ≡ 9 → O.taken out.new ≡ O.taken out.old }
    ensures cut_off { CutsOff (λ kept. AnswersGen size) result.status result.lost (O.tells out.old) (O.taken out.old) (O.taken out.new) }
{
    let Ok(made) = make(alloc, seed, size) else {
        return stopped(alloc, 9);
    };
    match write(shelf, &made, lp, dec) {
        Ok(()) => print(alloc, out, made.reply, None),
        Err(ShelfFault::Failed) => unwritten(alloc, made.reply.report),
        Err(_) => stopped(alloc, 9),
    }
}

// Makes both texts and the report: 4 variables a job, and a row for each job and each agent.
fn make(alloc: Global, seed: u64, size: u32) -> Result<Made, AllocError>
    requires { size ≤ 1024 }
    ensures { IfOk result (HoldsTexts seed size) }
{
    let lp = make_lp(alloc, seed, size)?;
    let dec = make_dec(alloc, size)?;
    let report = made_text(alloc, 4 * size, size + 4)?;
    Ok(Made {
        lp,
        dec,
        reply: Reply { status: 0, report },
    })
}

// Writes both texts.
fn write<F: Shelf>(shelf: &mut F, made: &Made, lp: &str, dec: &str) -> Result<(), ShelfFault>
    ensures files { IsTrue (F.tells shelf.old) →
        WritesBoth lp.now dec.now made.now.lp.items made.now.dec.items (F.file shelf.old)
        (F.file shelf.new) result }
    ensures never_missing { IsErrOf result ShelfFault.Missing → ⊥ }
    ensures cause { CountsFailed (F.write_faults shelf.old) (F.write_faults shelf.new) result }
    ensures reads { F.read_faults shelf.new ≡ F.read_faults shelf.old }
{
    shelf.replace(lp, &made.lp)?;
    shelf.replace(dec, &made.dec)
}
