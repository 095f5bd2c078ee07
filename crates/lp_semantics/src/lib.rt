//! The meaning of LP texts: the model that a syntax tree means, or the first fault of its variables' bounds and digits or
//! of its sums.
#![tactic(auto)]

mod bounds;
mod extended;
mod number;
mod spans;
mod terms;

ghost use Rattle.std.specs.Prelude.{◌≡◌, IfOk, IfErr, List};
ghost use Rattle.bp_model.specs.Parts.{AreFitting};
ghost use Rattle.lp_syntax.specs.TreeIn.{tree_in};
ghost use Rattle.lp_syntax.specs.Roles as roles;
ghost use Rattle.lp_semantics.specs.Meaning.{tokens_of};
ghost use Rattle.lp_semantics.specs.PartsOf.{IsTextOfSome};
ghost use Rattle.lp_semantics.specs.PartsOf.{ArePartsOf, AreLimited, AreVariablesSound, IsRefused, IsModelOf};

use bp_model::{Model, ModelFault, Parts};
use bp_theory::Limits;
use lp_syntax::Tree;
use lp_token::LpKind;
use name_table::NameTable;
use std::alloc::{AllocError, Global};

/// What a tree is refused for.
#[derive(Clone, Copy, Debug, PartialEq, Eq)]
pub enum MeaningFault {
    /// The variable of this number has bounds that no model has, or one binary digit too many.
    At { variable: u32, kind: LpKind },
    /// The sums of the objective (none) or of this row may be too large.
    Sums(Option<u32>),
    /// Want of memory.
    NoMemory,
}

impl From<AllocError> for MeaningFault {
    ghost use Rattle.std.specs.Prelude.{◌≡◌};
    ghost use Rattle.lp_semantics.specs.declared.MeaningFault.TheVariants.{NoMemory};

    ghost from_gives = { λ _ fault. fault ≡ NoMemory };

    fn from(_: AllocError) -> Self {
        MeaningFault::NoMemory
    }
}

// The parts of the model that a text's tree means, from its variables and the names of its rows; or the first
// fault of its variables' bounds or digits.
fn parts_of(
    alloc: Global,
    limits: Limits,
    text: &[u8],
    tree: &Tree,
    names: NameTable,
    row_names: NameTable,
) -> Result<Parts, MeaningFault>
    requires text_of { IsTextOfSome limits text.now (tree_in text.now tree.now) }
    requires variables { names ≡ roles.variables (tokens_of (tree_in text.now tree.now)) }
    requires row_names { row_names ≡ roles.row_names (tokens_of (tree_in text.now tree.now)) }
    ensures parts { IfOk result (ArePartsOf limits (tree_in text.now tree.now)) }
    ensures fitting { IfOk result AreFitting }
    ensures limited { IfOk result AreLimited }
    ensures sound { IfOk result (λ _. AreVariablesSound limits (tree_in text.now tree.now)) }
    ensures fault { IfErr result (IsRefused limits (tree_in text.now tree.now)) }
{
    let stated = bounds::stated_of(alloc, text, &names, tree.parts.as_slice())?;
    let spans = match spans::spans_of(alloc, stated.as_slice()) {
        Ok(spans) => spans,
        Err(fault) => return Err(fault),
    };
    match spans::past_digits(limits, spans.as_slice()) {
        Some(variable) => return Err(MeaningFault::At {
            variable,
            kind: LpKind::Limit,
        }),
        None => {}
    }
    let rows = terms::rows_of(alloc, text, &names, tree.rows.as_slice())?;
    let objective = terms::objective_of(alloc, text, &names, tree)?;
    let names = names.into_list(alloc)?;
    let row_names = row_names.into_list(alloc)?;
    Ok(Parts {
        names,
        spans,
        row_names,
        rows,
        costs: objective.costs,
        constant: objective.constant,
        maximises: tree.maximises,
        limits,
    })
}

/// The model that a text's tree means, from its variables and the names of its rows; or the tree's first fault.
pub fn model_of(
    alloc: Global,
    limits: Limits,
    text: &[u8],
    tree: &Tree,
    names: NameTable,
    row_names: NameTable,
) -> Result<Model, MeaningFault>
    requires text_of { IsTextOfSome limits text.now (tree_in text.now tree.now) }
    requires variables { names ≡ roles.variables (tokens_of (tree_in text.now tree.now)) }
    requires row_names { row_names ≡ roles.row_names (tokens_of (tree_in text.now tree.now)) }
    ensures model { IfOk result (IsModelOf limits (tree_in text.now tree.now)) }
    ensures fault { IfErr result (IsRefused limits (tree_in text.now tree.now)) }
{
    let parts = match parts_of(alloc, limits, text, tree, names, row_names) {
        Ok(parts) => parts,
        Err(fault) => return Err(fault),
    };
    match Model::make(alloc, parts) {
        Ok(model) => Ok(model),
        Err(ModelFault::Activity(row)) => Err(MeaningFault::Sums(row)),
        Err(ModelFault::NoMemory) => Err(MeaningFault::NoMemory),
        Err(ModelFault::Crossed(_) | ModelFault::Bits | ModelFault::Limit) => unreachable!(),
    }
}
