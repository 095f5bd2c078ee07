// The command `detect`: the decomposition of a model beside master rows that a file lists.

ghost use Rattle.std.specs.Prelude.{◌≡◌, ◌≢◌, ◌⊎◌, ◌<◌, ◌≤◌, [], All, IfOk, IfErr, IsTrue, None, Some, length};
ghost use Rattle.bp_shelf.specs.Shelf.{OthersAsBefore};
ghost use Rattle.bp_theory.specs.Decomposition.{HasPlaces};
ghost use Rattle.bp_theory.specs.Limits.{most_blocks};
ghost use Rattle.bp_model.specs.Named.{IsKept};
ghost use Rattle.dec_write.specs.Rows.{ListsRows};
ghost use Rattle.dec_write.specs.Text.{IsRowName, text_of};
ghost use Rattle.bp_report.specs.Report.{detected_report};
ghost use Rattle.frontend.specs.Halts.{CountsHalted};
ghost use Rattle.frontend.specs.Answers.{AnswersBy, IsOnly, CutsOff, HasCauses, PutsReport, FailsToWrite};
ghost use Rattle.frontend.specs.Written.{IsHalt, IsTextHalt, draft_answer};
ghost use Rattle.cmd_decompose.specs.Detects.{DetectsBeside, RowsCome, Detects, AnswersDetect};
ghost use Rattle.cmd_decompose.specs.DetectFiles.{DetectLeaves, DetectWrites};

use bp_model::{Dec, Model};
use bp_report::{detected_text, rows_text};
use bp_shelf::{Shelf, ShelfFault, Sink};
use bp_theory::Limits;
use dec_find::{FindFault, RowsFault, RowsKind, dec_text, find, read_rows};
use frontend::{Draft, Ended, Halt, Reply, finish, load_model, read_text, write_draft};
use std::alloc::{AllocError, Global};

/// Writes the decomposition of a model beside the master rows that a file lists, and prints how many blocks it has. No
/// other file is changed; what stands after a write that failed or for want of memory is told by the status.
pub fn detect<F: Shelf, O: Sink>(
    alloc: Global,
    shelf: &mut F,
    out: &mut O,
    limits: Limits,
    lp: &str,
    rows: &str,
    dec: &str,
) -> Ended
    ensures answered { IsTrue (F.tells shelf.old) →
        AnswersBy (AnswersDetect limits (F.file shelf.old) lp.now rows.now) result.status (O.tells out.old)
        (O.taken out.old) (O.taken out.new) }
    ensures exact { IsTrue (F.tells shelf.old) →
        IsOnly (AnswersDetect limits (F.file shelf.old) lp.now rows.now) result.status }
    ensures causes { HasCauses result.status (F.read_faults shelf.old) (F.read_faults shelf.new)
        (F.write_faults shelf.old) (F.write_faults shelf.new) (O.faults out.old)
        (O.faults out.new) }
    ensures kept { result.kept ≡ None }
    ensures events { result.events.items ≡ [] }
    ensures words { result.status ≢ 2 }
    ensures leaves { IsTrue (F.tells shelf.old) →
        DetectLeaves limits lp.now rows.now dec.now (F.file shelf.old) (F.file shelf.new) result.status }
    ensures others { IsTrue (F.tells shelf.old) →
        OthersAsBefore dec.now (F.file shelf.old) (F.file shelf.new) }
    ensures puts { PutsReport result.status (O.puts out.old) (O.puts out.new) }
    ensures failed { result.status ≡ 8 →
        FailsToWrite (IsTrue (F.tells shelf.old) →
        DetectWrites limits lp.now rows.now dec.now (F.file shelf.old) (F.file shelf.new))
        (F.write_faults shelf.old) (F.write_faults shelf.new) (O.faults out.old) (O.faults out.new)
        (O.puts out.old) (O.puts out.new) (O.taken out.old) (O.taken out.new) }
    ensures silent { (result.status ≡ 7) ⊎ (result.status ≡ 9) ⊎ (result.status ≡ 11) →
        O.taken out.new ≡ O.taken out.old }
    ensures cut_off { IsTrue (F.tells shelf.old) →
        CutsOff (λ kept. AnswersDetect limits (F.file shelf.old) lp.now rows.now) result.status result.lost (O.tells out.old)
        (O.taken out.old) (O.taken out.new) }
{
    let draft = load_found(alloc, shelf, limits, lp, rows);
    let come = write_draft(shelf, dec, draft);
    finish(alloc, out, come)
}

// The decomposition beside the master rows of a file, or what a run ends with.
fn load_found<F: Shelf>(
    alloc: Global,
    shelf: &mut F,
    limits: Limits,
    lp: &str,
    rows: &str,
) -> Result<Draft, Halt>
    ensures found { IsTrue (F.tells shelf.old) →
        IfOk result (λ f. Detects limits (F.file shelf.old) lp.now rows.now (draft_answer f)) }
    ensures done { IfOk result (λ f. f.reply.status ≡ 0) }
    ensures halted { IsTrue (F.tells shelf.old) →
        IfErr result (IsHalt (Detects limits (F.file shelf.old) lp.now rows.now)) }
    ensures told { F.tells shelf.new ≡ F.tells shelf.old }
    ensures files { F.file shelf.new ≡ F.file shelf.old }
    ensures cause { CountsHalted (F.read_faults shelf.old) (F.read_faults shelf.new) result }
    ensures writes { F.write_faults shelf.new ≡ F.write_faults shelf.old }
{
    let model = load_model(alloc, shelf, limits, lp)?;
    let list = read_text(alloc, shelf, model.limits(), rows)?;
    found_in(alloc, &model, &list)
}

// The decomposition beside the master rows of a list, or what the list is refused for.
fn found_in(alloc: Global, model: &Model, list: &[u8]) -> Result<Draft, Halt>
    requires kept { IsKept model.now }
    requires names { All IsRowName model.now.row_names }
    ensures found { IfOk result (λ f. RowsCome model.now (Some list.now) (draft_answer f)) }
    ensures done { IfOk result (λ f. f.reply.status ≡ 0) }
    ensures halted { IfErr result (IsTextHalt (RowsCome model.now (Some list.now))) }
{
    let master = rows_of(alloc, model, list)?;
    blocks_of(alloc, model, &master)
}

// The master rows of a list, or what it is refused for.
fn rows_of(alloc: Global, model: &Model, list: &[u8]) -> Result<Vec<u32>, Halt>
    ensures rows { IfOk result (λ rows. ListsRows list.now model.now rows.items) }
    ensures below { IfOk result (λ rows. All (λ r. r < length model.now.program.rows) rows.items) }
    ensures halted { IfErr result (IsTextHalt (RowsCome model.now (Some list.now))) }
{
    match read_rows(alloc, list, model) {
        Ok(rows) => Ok(rows),
        Err(RowsFault::At { line, kind }) => Err(Halt::Refused(rows_text(alloc, line, kind)?)),
        Err(RowsFault::NoMemory) => Err(Halt::Stopped(ShelfFault::NoMemory)),
    }
}

// The decomposition beside master rows, or the refusal of too many blocks.
fn blocks_of(alloc: Global, model: &Model, master: &[u32]) -> Result<Draft, Halt>
    requires kept { IsKept model.now }
    requires names { All IsRowName model.now.row_names }
    requires below { All (λ r. r < length model.now.program.rows) master.now }
    ensures found { IfOk result (λ f. DetectsBeside model.now master.now (draft_answer f)) }
    ensures done { IfOk result (λ f. f.reply.status ≡ 0) }
    ensures halted { IfErr result (IsTextHalt (DetectsBeside model.now master.now)) }
{
    match find(alloc, model, master) {
        Ok(dec) => Ok(written(alloc, model, &dec)?),
        Err(FindFault::Blocks) => Err(Halt::Refused(rows_text(alloc, 0, RowsKind::Blocks)?)),
        Err(FindFault::NoMemory) => Err(Halt::Stopped(ShelfFault::NoMemory)),
    }
}

// The text of a decomposition and the report on it.
fn written(alloc: Global, model: &Model, dec: &Dec) -> Result<Draft, AllocError>
    requires places { HasPlaces model.now.program dec.now }
    requires few { dec.now.blocks ≤ most_blocks model.now.program.limits }
    requires unlisted { dec.now.listed ≡ [] }
    requires names { All IsRowName model.now.row_names }
    ensures text { IfOk result (λ f. f.text.items ≡ text_of model.now dec.now) }
    ensures report { IfOk result (λ f. f.reply.report.items ≡ detected_report dec.now.blocks) }
    ensures done { IfOk result (λ f. f.reply.status ≡ 0) }
{
    let text = dec_text(alloc, model, dec)?;
    let report = detected_text(alloc, dec.blocks())?;
    Ok(Draft {
        text,
        reply: Reply { status: 0, report },
    })
}
