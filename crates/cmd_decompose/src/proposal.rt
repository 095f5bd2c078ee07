// The command `propose`: a decomposition of a model whose master rows nobody told.

ghost use Rattle.std.specs.Prelude.{◌≡◌, ◌≢◌, ◌⊎◌, ◌<◌, ◌≤◌, [], All, IfOk, IfErr, IsTrue, None};
ghost use Rattle.bp_shelf.specs.Shelf.{OthersAsBefore};
ghost use Rattle.bp_theory.specs.Limits.{most_blocks};
ghost use Rattle.bp_model.specs.Named.{IsKept};
ghost use Rattle.dec_write.specs.Text.{IsRowName};
ghost use Rattle.dec_find.specs.Guess.{IsGuess};
ghost use Rattle.block_class.specs.Classes.{AreSameClasses};
ghost use Rattle.frontend.specs.Front.{BlocksCome, blocked};
ghost use Rattle.frontend.specs.Halts.{CountsHalted};
ghost use Rattle.frontend.specs.Answers.{AnswersBy, IsOnly, CutsOff, HasCauses, PutsReport, FailsToWrite};
ghost use Rattle.frontend.specs.Written.{IsHalt, draft_answer};
ghost use Rattle.cmd_decompose.specs.Proposes.{Proposes, ModelProposes, AnswersPropose, HasReport, IsReported};
ghost use Rattle.cmd_decompose.specs.ProposeFiles.{ProposeLeaves, ProposeWrites};

use block_class::Classes;
use block_form::{BlockFault, check_blocks};
use block_program::{Blocked, Zone};
use bp_model::{Dec, Model};
use bp_report::proposed_text;
use bp_shelf::{Shelf, Sink};
use bp_theory::Limits;
use dec_find::dec_text;
use dec_propose::guess;
use frontend::{Draft, Ended, Halt, Reply, finish, load_model, write_draft};
use std::alloc::{AllocError, Global};

/// Writes a decomposition of a model, which it chooses itself, and prints how many blocks, classes of blocks and master
/// rows it has. No other file is changed; what stands after a write that failed or for want of memory is told by the
/// status.
pub fn propose<F: Shelf, O: Sink>(
    alloc: Global,
    shelf: &mut F,
    out: &mut O,
    limits: Limits,
    lp: &str,
    dec: &str,
) -> Ended
    ensures answered { IsTrue (F.tells shelf.old) →
        AnswersBy (AnswersPropose limits (F.file shelf.old) lp.now) result.status (O.tells out.old)
        (O.taken out.old) (O.taken out.new) }
    ensures exact { IsTrue (F.tells shelf.old) →
        IsOnly (AnswersPropose limits (F.file shelf.old) lp.now) result.status }
    ensures causes { HasCauses result.status (F.read_faults shelf.old) (F.read_faults shelf.new)
        (F.write_faults shelf.old) (F.write_faults shelf.new) (O.faults out.old)
        (O.faults out.new) }
    ensures kept { result.kept ≡ None }
    ensures events { result.events.items ≡ [] }
    ensures words { result.status ≢ 2 }
    ensures leaves { IsTrue (F.tells shelf.old) →
        ProposeLeaves limits lp.now dec.now (F.file shelf.old) (F.file shelf.new) result.status }
    ensures others { IsTrue (F.tells shelf.old) →
        OthersAsBefore dec.now (F.file shelf.old) (F.file shelf.new) }
    ensures puts { PutsReport result.status (O.puts out.old) (O.puts out.new) }
    ensures failed { result.status ≡ 8 →
        FailsToWrite (IsTrue (F.tells shelf.old) →
        ProposeWrites limits lp.now dec.now (F.file shelf.old) (F.file shelf.new))
        (F.write_faults shelf.old) (F.write_faults shelf.new) (O.faults out.old) (O.faults out.new)
        (O.puts out.old) (O.puts out.new) (O.taken out.old) (O.taken out.new) }
    ensures silent { (result.status ≡ 7) ⊎ (result.status ≡ 9) ⊎ (result.status ≡ 11) →
        O.taken out.new ≡ O.taken out.old }
    ensures cut_off { IsTrue (F.tells shelf.old) →
        CutsOff (λ kept. AnswersPropose limits (F.file shelf.old) lp.now) result.status result.lost (O.tells out.old) (O.taken out.old)
        (O.taken out.new) }
{
    let draft = load_proposal(alloc, shelf, limits, lp);
    let come = write_draft(shelf, dec, draft);
    finish(alloc, out, come)
}

// A decomposition of a file's model, or what a run ends with.
fn load_proposal<F: Shelf>(
    alloc: Global,
    shelf: &mut F,
    limits: Limits,
    lp: &str,
) -> Result<Draft, Halt>
    ensures proposed { IsTrue (F.tells shelf.old) →
        IfOk result (λ p. Proposes limits (F.file shelf.old) lp.now (draft_answer p)) }
    ensures done { IfOk result (λ p. p.reply.status ≡ 0) }
    ensures halted { IsTrue (F.tells shelf.old) →
        IfErr result (IsHalt (Proposes limits (F.file shelf.old) lp.now)) }
    ensures told { F.tells shelf.new ≡ F.tells shelf.old }
    ensures files { F.file shelf.new ≡ F.file shelf.old }
    ensures cause { CountsHalted (F.read_faults shelf.old) (F.read_faults shelf.new) result }
    ensures writes { F.write_faults shelf.new ≡ F.write_faults shelf.old }
{
    let model = load_model(alloc, shelf, limits, lp)?;
    Ok(proposal_of(alloc, model)?)
}

// A decomposition of a model.
fn proposal_of(alloc: Global, model: Model) -> Result<Draft, AllocError>
    requires kept { IsKept model }
    requires names { All IsRowName model.row_names }
    ensures proposed { IfOk result (λ p. ModelProposes model (draft_answer p)) }
    ensures done { IfOk result (λ p. p.reply.status ≡ 0) }
{
    let dec = guess(alloc, &model)?;
    written(alloc, model, dec)
}

// The text of a decomposition beside master rows and the report on it.
fn written(alloc: Global, model: Model, dec: Dec) -> Result<Draft, AllocError>
    requires kept { IsKept model }
    requires names { All IsRowName model.row_names }
    requires guess { IsGuess model.program dec }
    requires few { dec.blocks ≤ most_blocks model.program.limits }
    ensures proposed { IfOk result (λ p. ModelProposes model (draft_answer p)) }
    ensures done { IfOk result (λ p. p.reply.status ≡ 0) }
{
    let text = dec_text(alloc, &model, &dec)?;
    let report = report_of(alloc, model, dec)?;
    Ok(Draft {
        text,
        reply: Reply { status: 0, report },
    })
}

// The report on a decomposition beside master rows.
fn report_of(alloc: Global, model: Model, dec: Dec) -> Result<Vec<u8>, AllocError>
    requires kept { IsKept model }
    requires guess { IsGuess model.program dec }
    ensures { IfOk result (λ report. IsReported model dec report.items) }
{
    let b = in_blocks(alloc, model, dec)?;
    report_on(alloc, &b)
}

// The report on a program in blocks.
fn report_on(alloc: Global, b: &Blocked) -> Result<Vec<u8>, AllocError>
    ensures { IfOk result (λ report. HasReport b.now report.items) }
{
    let root = root_classes(alloc, b)?;
    proposed_text(alloc, b, &root)
}

// The program in blocks of a decomposition beside master rows, which is refused for want of memory alone.
fn in_blocks(alloc: Global, model: Model, dec: Dec) -> Result<Blocked, AllocError>
    requires kept { IsKept model }
    requires guess { IsGuess model.program dec }
    ensures { IfOk result (λ b. BlocksCome model dec (blocked b)) }
{
    match check_blocks(alloc, model, dec) {
        Ok(b) => Ok(b),
        Err(refused) => match refused.fault {
            BlockFault::NoMemory => Err(AllocError),
            BlockFault::VarPlace(_) | BlockFault::Links => unreachable!(),
        },
    }
}

// The classes at the root.
fn root_classes(alloc: Global, b: &Blocked) -> Result<Classes, AllocError>
    ensures { IfOk result (AreSameClasses b.now.named.program.spans b.now.blocking) }
{
    let root = Zone::root(alloc, b)?;
    Classes::of(alloc, b, &root)
}
