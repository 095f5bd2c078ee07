// The program in blocks that the files of a model and of its decomposition come to.
ghost use Rattle.std.specs.Prelude.{All, ◌≡◌, ◌≢◌, [], IfOk, IfErr, IsTrue, Some, None};
ghost use Rattle.std.specs.Option.{option_map};
ghost use Rattle.bp_theory.specs.Decomposition.{HasPlaces};
ghost use Rattle.bp_model.specs.Dec.{HasListed};
ghost use Rattle.bp_model.specs.Named.{IsKept};
ghost use Rattle.dec_write.specs.Text.{IsRowName};
ghost use Rattle.frontend.specs.Front.{FilesCome, BlocksCome, TextsCome, HasModel, HasDec, blocked, ends};
ghost use Rattle.lp_semantics.specs.Model.{Means};
ghost use Rattle.dec_read.specs.Reading.{ReadsDecomposition};
ghost use Rattle.frontend.specs.Halts.{ComesToHalt, TextsHalt, LpHalts, DecHalts, CountsHalted, IsLpHalt, IsDecHalt, IsBlocksHalt};
ghost use Rattle.frontend.specs.declared.front.Halt.TheVariants.{Refused, Stopped};
ghost use Rattle.bp_shelf.specs.declared.shelf.ShelfFault.TheVariants.{NoMemory};

use crate::read::read_text;
use block_form::{BlockFault, check_blocks};
use block_program::Blocked;
use bp_model::{Dec, Model};
use bp_report::{blocks_text, dec_text, lp_text};
use bp_shelf::{Shelf, ShelfFault};
use bp_theory::Limits;
use dec_read::{DecFault, read_dec};
use lp_read::{LpFault, read_lp};
use std::alloc::{AllocError, Global};

/// Why a run ends before it has a program in blocks.
#[derive(Drop)]
pub enum Halt {
    /// A text or a decomposition is refused: what is printed for it.
    Refused(Vec<u8>),
    /// A file isn't there or couldn't be read, or memory was wanting.
    Stopped(ShelfFault),
}

impl From<AllocError> for Halt {
    ghost from_gives = { λ _ halt. halt ≡ Stopped NoMemory };

    fn from(_: AllocError) -> Self {
        Halt::Stopped(ShelfFault::NoMemory)
    }
}

impl From<ShelfFault> for Halt {
    ghost from_gives = { λ fault halt. halt ≡ Stopped fault };

    fn from(fault: ShelfFault) -> Self {
        Halt::Stopped(fault)
    }
}

/// The names of the files of a model and of its decomposition, where one is named, and the limits that the model keeps.
#[derive(Clone, Copy)]
pub struct Sources<'a> {
    /// The model's file.
    pub lp: &'a str,
    /// The decomposition's file.
    pub dec: Option<&'a str>,
    /// The limits.
    pub limits: Limits,
}

/// The program in blocks that a model's file and the file of its decomposition come to, or what a run ends with: the
/// first file that isn't there or can't be read, the first fault of the first text that is refused, or what the
/// decomposition is refused for. Without a decomposition every row is a master row. The program has no cuts.
pub fn load<F: Shelf>(alloc: Global, shelf: &mut F, sources: Sources<'_>) -> Result<Blocked, Halt>
    ensures blocked { IsTrue (F.tells shelf.old) →
        IfOk result (λ b. FilesCome sources.entry.limits (F.file shelf.old) sources.entry.lp.now
        (option_map (λ name. name.now) sources.entry.dec) (blocked b)) }
    ensures halted { IsTrue (F.tells shelf.old) →
        IfErr result (ComesToHalt sources.entry.limits (F.file shelf.old) sources.entry.lp.now
        (option_map (λ name. name.now) sources.entry.dec)) }
    ensures uncut { IfOk result (λ b. b.cuts ≡ []) }
    ensures told { F.tells shelf.new ≡ F.tells shelf.old }
    ensures files { F.file shelf.new ≡ F.file shelf.old }
    ensures cause { CountsHalted (F.read_faults shelf.old) (F.read_faults shelf.new) result }
    ensures writes { F.write_faults shelf.new ≡ F.write_faults shelf.old }
{
    let model = load_model(alloc, shelf, sources.limits, sources.lp)?;
    let parts = load_dec(alloc, shelf, &model, sources.dec)?;
    in_blocks(alloc, model, parts)
}

/// The program in blocks that an LP text and the text of a decomposition come to under limits, or what they are refused for:
/// what files with these texts come to, whatever their names. The program has no cuts.
pub fn blocks_of(alloc: Global, limits: Limits, lp: &[u8], dec: &[u8]) -> Result<Blocked, Halt>
    ensures blocked { IfOk result (λ b. TextsCome limits lp.now dec.now (blocked b)) }
    ensures halted { IfErr result (TextsHalt limits lp.now dec.now) }
    ensures uncut { IfOk result (λ b. b.cuts ≡ []) }
{
    let model = model_of(alloc, limits, lp)?;
    let parts = dec_of(alloc, dec, &model)?;
    in_blocks(alloc, model, parts)
}

/// The program that a model's file means under limits, or what a run ends with.
pub fn load_model<F: Shelf>(
    alloc: Global,
    shelf: &mut F,
    limits: Limits,
    lp: &str,
) -> Result<Model, Halt>
    ensures model { IsTrue (F.tells shelf.old) → IfOk result (HasModel limits (F.file shelf.old lp.now)) }
    ensures kept { IfOk result IsKept }
    ensures names { IfOk result (λ m. All IsRowName m.row_names) }
    ensures halted { IsTrue (F.tells shelf.old) → IfErr result (LpHalts limits (F.file shelf.old lp.now)) }
    ensures told { F.tells shelf.new ≡ F.tells shelf.old }
    ensures files { F.file shelf.new ≡ F.file shelf.old }
    ensures cause { CountsHalted (F.read_faults shelf.old) (F.read_faults shelf.new) result }
    ensures writes { F.write_faults shelf.new ≡ F.write_faults shelf.old }
{
    let text = read_text(alloc, shelf, limits, lp)?;
    model_of(alloc, limits, &text)
}

// The decomposition that a named file means, or the plain one.
fn load_dec<F: Shelf>(
    alloc: Global,
    shelf: &mut F,
    model: &Model,
    dec: Option<&str>,
) -> Result<Dec, Halt>
    ensures dec { IsTrue (F.tells shelf.old) →
        IfOk result (HasDec (F.file shelf.old) model.now (option_map
        (λ name. name.now) dec.entry)) }
    ensures places { IfOk result (λ parts. HasPlaces model.now.program parts) }
    ensures listed { IfOk result (λ parts. HasListed model.now.program parts) }
    ensures halted { IsTrue (F.tells shelf.old) →
        IfErr result (DecHalts (F.file shelf.old) model.now (option_map
        (λ name. name.now) dec.entry)) }
    ensures told { F.tells shelf.new ≡ F.tells shelf.old }
    ensures files { F.file shelf.new ≡ F.file shelf.old }
    ensures cause { CountsHalted (F.read_faults shelf.old) (F.read_faults shelf.new) result }
    ensures writes { F.write_faults shelf.new ≡ F.write_faults shelf.old }
{
    match dec {
        None => Ok(Dec::plain(alloc, model)?),
        Some(name) => {
            let text = read_text(alloc, shelf, model.limits(), name)?;
            dec_of(alloc, &text, model)
        }
    }
}

// The program that a text means under limits, or its refusal.
fn model_of(alloc: Global, limits: Limits, text: &[u8]) -> Result<Model, Halt>
    ensures model { IfOk result (Means limits text.now) }
    ensures kept { IfOk result IsKept }
    ensures names { IfOk result (λ m. All IsRowName m.row_names) }
    ensures halted { IfErr result (IsLpHalt limits text.now) }
{
    match read_lp(alloc, limits, text) {
        Ok(model) => {
            // For the proof alone: what a model keeps.
            let _rows = model.rows();
            Ok(model)
        }
        Err(LpFault::At { line, kind }) => Err(Halt::Refused(lp_text(alloc, line, kind)?)),
        Err(LpFault::NoMemory) => Err(Halt::Stopped(ShelfFault::NoMemory)),
    }
}

// The decomposition that a text means, or its refusal.
fn dec_of(alloc: Global, text: &[u8], model: &Model) -> Result<Dec, Halt>
    ensures dec { IfOk result (ReadsDecomposition text.now model.now) }
    ensures places { IfOk result (λ dec. HasPlaces model.now.program dec) }
    ensures listed { IfOk result (λ dec. HasListed model.now.program dec) }
    ensures halted { IfErr result (IsDecHalt text.now model.now) }
{
    match read_dec(alloc, text, model) {
        Ok(dec) => Ok(dec),
        Err(DecFault::At { line, kind }) => Err(Halt::Refused(dec_text(alloc, line, kind)?)),
        Err(DecFault::NoMemory) => Err(Halt::Stopped(ShelfFault::NoMemory)),
    }
}

// The program in blocks that a decomposition of a model makes, or the refusal of the decomposition.
fn in_blocks(alloc: Global, model: Model, dec: Dec) -> Result<Blocked, Halt>
    requires places { HasPlaces model.program dec }
    requires listed { HasListed model.program dec }
    ensures blocked { IfOk result (λ b. BlocksCome model dec (blocked b)) }
    ensures halted { IfErr result (IsBlocksHalt model dec) }
    ensures uncut { IfOk result (λ b. b.cuts ≡ []) }
{
    match check_blocks(alloc, model, dec) {
        Ok(b) => Ok(b),
        Err(refused) => match refused.fault {
            BlockFault::NoMemory => Err(Halt::Stopped(ShelfFault::NoMemory)),
            fault => Err(Halt::Refused(blocks_text(alloc, &refused.model, &fault)?)),
        },
    }
}
