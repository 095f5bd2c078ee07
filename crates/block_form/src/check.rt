// The blocks that a decomposition gives a model, or what it is refused for; and the same with cuts.
ghost use Rattle.std.specs.Prelude.{◌≡◌, [], All, IfOk, IfErr, OnOk};
ghost use Rattle.bp_theory.specs.Cuts.{cut_rows};
ghost use Rattle.bp_theory.specs.Decomposition.{HasPlaces, IsMisplaced};
ghost use Rattle.bp_model.specs.Dec.{HasListed};
ghost use Rattle.block_program.specs.Blocked.{AreMade, AreParts, IsFormed};
ghost use Rattle.block_form.specs.declared.fault.BlockFault.TheVariants.{NoMemory};
ghost use Rattle.block_form.specs.Checks.{HasBlockFault};
ghost use Rattle.block_program.specs.Cuts.{AreCutRows, KeepsCuts};

use crate::fault::{BlockFault, Unblocked};
use block_build::{are_large, first_elsewhere, made_parts, source_of, standing_of, var_places};
use block_program::{Base, Block, Blocked};
use bp_model::{Dec, Model};
use bp_theory::{Cut, Items, MasterRow, Row};
use std::alloc::{AllocError, Global};
use std::rc::Rc;

/// The program in blocks that a decomposition of a model makes, without cuts. Refused are the first listed variable that
/// stands in a row of a block other than its list's, and else too many rows and link rows, or a variable with copies in
/// several blocks whose difference may leave 62 bits. Each refusal hands the model back.
pub fn check_blocks(alloc: Global, model: Model, dec: Dec) -> Result<Blocked, Unblocked>
    requires places { HasPlaces model.program dec }
    requires listed { HasListed model.program dec }
    ensures model { IfOk result (λ b. b.named ≡ model) }
    ensures dec { IfOk result (λ b. b.dec ≡ dec) }
    ensures cuts { IfOk result (λ b. b.cuts ≡ []) }
    ensures formed { IfOk result IsFormed }
    ensures placed { OnOk result (All (λ e. IsMisplaced model.program dec e → ⊥) dec.listed) }
    ensures fault { IfErr result (λ refused. HasBlockFault model.program dec refused.fault) }
    ensures handed_back { IfErr result (λ refused. refused.model ≡ model) }
{
    match parts_of(alloc, &model, &dec) {
        Err(fault) => Err(Unblocked { fault, model }),
        Ok((blocks, rows)) => placed(alloc, model, dec, blocks, rows),
    }
}

/// The program in blocks of the same model and decomposition that has these cuts in place of its own; `rows` are the rows
/// of the cuts. The model and the decomposition are shared and not copied.
pub fn recut(
    alloc: Global,
    b: &Blocked,
    cuts: Items<Cut>,
    rows: &[Row],
) -> Result<Blocked, AllocError>
    requires kept { KeepsCuts b.now.named.program b.now.dec cuts }
    requires rows { rows.now ≡ cut_rows b.now.named.program b.now.dec [] cuts }
    ensures model { IfOk result (λ other. other.named ≡ b.now.named) }
    ensures dec { IfOk result (λ other. other.dec ≡ b.now.dec) }
    ensures cuts { IfOk result (λ other. other.cuts ≡ cuts) }
    ensures formed { IfOk result IsFormed }
{
    let (blocks, named) = parts_with(alloc, b, rows)?;
    let places = var_places(alloc, b.model().vars(), blocks.as_slice())?;
    let base = b.shared_base()?;
    Ok(Blocked::make(base, cuts, blocks, named, Items::from_vec(places)))
}

// The blocks and the named rows of a program's model and decomposition with these rows of cuts.
fn parts_with(
    alloc: Global,
    b: &Blocked,
    rows: &[Row],
) -> Result<(Items<Block>, Items<Option<MasterRow>>), AllocError>
    requires { AreCutRows b.now.named.program rows.now }
    ensures { IfOk result (λ parts. AreMade b.now.named b.now.dec rows.now parts.0 parts.1) }
{
    let standing = standing_of(alloc, b.model(), b.dec())?;
    let source = source_of(alloc, b.model(), b.dec(), rows, standing)?;
    made_parts(alloc, &source)
}

// The program in blocks of these parts, with an index of the variables' first copies.
fn placed(
    alloc: Global,
    model: Model,
    dec: Dec,
    blocks: Items<Block>,
    rows: Items<Option<MasterRow>>,
) -> Result<Blocked, Unblocked>
    requires { AreParts model dec [] blocks rows }
    ensures model { IfOk result (λ b. b.named ≡ model) }
    ensures dec { IfOk result (λ b. b.dec ≡ dec) }
    ensures cuts { IfOk result (λ b. b.cuts ≡ []) }
    ensures formed { IfOk result IsFormed }
    ensures fault { IfErr result (λ refused. refused.fault ≡ NoMemory) }
    ensures handed_back { IfErr result (λ refused. refused.model ≡ model) }
{
    let Ok(places) = var_places(alloc, model.vars(), blocks.as_slice()) else {
        return Err(Unblocked {
            fault: BlockFault::NoMemory,
            model,
        });
    };
    match Rc::new(alloc, Base { model, dec }) {
        Err(failed) => Err(Unblocked {
            fault: BlockFault::NoMemory,
            model: failed.value.model,
        }),
        Ok(base) => {
            let cuts = Items::new(alloc);
            Ok(Blocked::make(base, cuts, blocks, rows, Items::from_vec(places)))
        }
    }
}

// The blocks and the named rows, or what the decomposition is refused for.
fn parts_of(
    alloc: Global,
    model: &Model,
    dec: &Dec,
) -> Result<(Items<Block>, Items<Option<MasterRow>>), BlockFault>
    requires places { HasPlaces model.now.program dec.now }
    requires listed { HasListed model.now.program dec.now }
    ensures parts { IfOk result (λ parts. AreParts model.now dec.now [] parts.0 parts.1) }
    ensures placed { OnOk result (All (λ e. IsMisplaced model.now.program dec.now e → ⊥)
        dec.now.listed) }
    ensures fault { IfErr result (HasBlockFault model.now.program dec.now) }
{
    let Ok(standing) = standing_of(alloc, model, dec) else {
        return Err(BlockFault::NoMemory);
    };
    if let Some(var) = first_elsewhere(standing.homes.as_slice(), dec.listed()) {
        return Err(BlockFault::VarPlace(var));
    }
    if are_large(model, dec, standing.homes.as_slice()) {
        return Err(BlockFault::Links);
    }
    let cuts = Vec::new(alloc);
    let Ok(source) = source_of(alloc, model, dec, cuts.as_slice(), standing) else {
        return Err(BlockFault::NoMemory);
    };
    let Ok(parts) = made_parts(alloc, &source) else {
        return Err(BlockFault::NoMemory);
    };
    Ok(parts)
}
