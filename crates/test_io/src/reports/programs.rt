// Reports on a model of two variables and two rows, and on its programs in blocks.
ghost use Rattle.std.specs.Prelude.{◌≡◌, IfOk};
ghost use Rattle.block_class.specs.Classes.{AreSameClasses};

use block_class::Classes;
use block_form::{BlockFault, check_blocks};
use block_program::{Blocked, Zone};
use bp_model::Model;
use bp_report::{
    Refusal, blocks_text, budget_text, ended_text, proposed_text, refusal_text, show_blocks_text,
};
use bp_theory::{Claim, Limits};
use branch_tree::{Grove, Outcome};
use cert_check::Judged;
use cert_report::demo_text;
use dec_read::read_dec;
use lp_read::read_lp;
use std::alloc::{AllocError, Global};

/// The model: each point meets both rows.
const MODEL: &[u8] = b"max
 3 x - 2 x11 - 1
st
 c1: x + x11 <= 18
 c2: x - x11 <= 18
bounds
 -9 <= x <= 9
 -9 <= x11 <= 9
general
 x x11
end
";

/// A point of it.
const POINT: [i64; 2] = [9, -9];

/// What is told of the model.
#[derive(Clone, Copy)]
pub enum OfModel {
    /// That its blocks would take too many link rows.
    Links,
    /// That a variable of this number stands in a row of another block.
    VarPlace(u32),
    /// The same as one of all that may be refused.
    RefusedVarPlace(u32),
    /// A search that ended with the point.
    Best,
    /// A search that ended without a point.
    NoPoint,
    /// A search that was stopped after these steps, with the least cost that is left, and the point.
    BestSoFar(u64, i64),
    /// The same without a point.
    NoneSoFar(u64, i64),
}

/// What is told of a program in blocks.
#[derive(Clone, Copy)]
pub enum InBlocks {
    /// That it was made of this seed and size, has no point, and has an accepted certificate.
    Demo(u64, u32),
    /// Its sizes as those of a decomposition that is proposed.
    Proposed,
    /// Its sizes and its blocks.
    Shown,
}

/// The report on the model, or none without one.
pub fn of_model(alloc: Global, told: OfModel) -> Result<Vec<u8>, AllocError> {
    match read_lp(alloc, Limits::Usual, MODEL) {
        Ok(model) => with_model(alloc, &model, told),
        Err(_) => Ok(Vec::new(alloc)),
    }
}

// The report on a model.
fn with_model(alloc: Global, model: &Model, told: OfModel) -> Result<Vec<u8>, AllocError> {
    match told {
        OfModel::Links => blocks_text(alloc, model, &BlockFault::Links),
        OfModel::VarPlace(var) => misplaced(alloc, model, var, false),
        OfModel::RefusedVarPlace(var) => misplaced(alloc, model, var, true),
        OfModel::Best | OfModel::BestSoFar(..) => with_point(alloc, model, told),
        OfModel::NoPoint => ended_text(alloc, model, None),
        OfModel::NoneSoFar(steps, least) => budget_text(alloc, model, steps, &least, None),
    }
}

// The report on a variable in a row of another block.
fn misplaced(alloc: Global, model: &Model, var: u32, of_all: bool) -> Result<Vec<u8>, AllocError> {
    if model.vars() <= var {
        return Ok(Vec::new(alloc));
    }
    let fault = BlockFault::VarPlace(var);
    if of_all {
        refusal_text(alloc, Some(model), &Refusal::Blocks(fault))
    } else {
        blocks_text(alloc, model, &fault)
    }
}

// The report on a search with the point.
fn with_point(alloc: Global, model: &Model, told: OfModel) -> Result<Vec<u8>, AllocError> {
    let point: &[i64] = &POINT;
    if model.misses(point).is_some() {
        return Ok(Vec::new(alloc));
    }
    match told {
        OfModel::BestSoFar(steps, least) => {
            budget_text(alloc, model, steps, &least, Some(point))
        }
        _ => ended_text(alloc, model, Some(point)),
    }
}

/// The report on the model in the blocks of a decomposition, or none without them.
pub fn of_blocks(alloc: Global, dec: &str, told: InBlocks) -> Result<Vec<u8>, AllocError> {
    match read_lp(alloc, Limits::Usual, MODEL) {
        Ok(model) => of_dec(alloc, model, dec, told),
        Err(_) => Ok(Vec::new(alloc)),
    }
}

// The same of a model.
fn of_dec(alloc: Global, model: Model, dec: &str, told: InBlocks) -> Result<Vec<u8>, AllocError> {
    match read_dec(alloc, dec.as_bytes(), &model) {
        Ok(dec) => match check_blocks(alloc, model, dec) {
            Ok(b) => in_blocks(alloc, &b, told),
            Err(_) => Ok(Vec::new(alloc)),
        },
        Err(_) => Ok(Vec::new(alloc)),
    }
}

// The report on a program in blocks.
fn in_blocks(alloc: Global, b: &Blocked, told: InBlocks) -> Result<Vec<u8>, AllocError> {
    match told {
        InBlocks::Demo(seed, size) => demo(alloc, b, seed, size),
        InBlocks::Proposed => proposed(alloc, b),
        InBlocks::Shown => shown(alloc, b),
    }
}

// The report on a made program without a point.
fn demo(alloc: Global, b: &Blocked, seed: u64, size: u32) -> Result<Vec<u8>, AllocError> {
    let none = Outcome::Infeasible {
        grove: Grove::plant(alloc, b)?,
    };
    let accepted = Judged::Accepted(Claim::Infeasible);
    demo_text(alloc, seed, size, b, &none, &accepted)
}

// The report on its sizes.
fn proposed(alloc: Global, b: &Blocked) -> Result<Vec<u8>, AllocError> {
    let root = root_classes(alloc, b)?;
    proposed_text(alloc, b, &root)
}

// The report on its sizes and blocks.
fn shown(alloc: Global, b: &Blocked) -> Result<Vec<u8>, AllocError> {
    let root = root_classes(alloc, b)?;
    show_blocks_text(alloc, b, &root, true, false)
}

// The classes of a program in blocks at the root.
fn root_classes(alloc: Global, b: &Blocked) -> Result<Classes, AllocError>
    ensures { IfOk result (AreSameClasses b.now.named.program.spans b.now.blocking) }
{
    let root = Zone::root(alloc, b)?;
    Classes::of(alloc, b, &root)
}
