//! The grammar of LP texts, as an automaton that reads symbols one by one: what is read so far of a text, with the syntax
//! tree up to there, and what the next symbol makes of it.
#![tactic(auto)]

mod bound;
mod objective;
mod row;
mod sign;
mod stage;

ghost use Rattle.std.specs.Prelude.{◌≡◌, ℕ, List, map, IfOk};
ghost use Rattle.lp_syntax.specs.TreeIn.{symbol_in, name_in, part_in};
ghost use Rattle.lp_parser.specs.StageIn.{step_in, stage_in, front_in};
ghost use Rattle.lp_parser.specs.Parser.{step as specs_step, from_p_generals, from_p_binaries};

use crate::bound::from_bound;
use crate::objective::{from_objective, from_start};
use crate::row::from_row;
use crate::stage::{Step, behind_part, let_tree_go};
use bp_theory::Items;
use lp_syntax::{Part, Site, Symbol, TextRange};
pub use sign::add_sign;
pub use stage::{BoundStage, Front, Gap, ObjectiveStage, RowHead, RowStage, Stage, Within, let_go};
use std::alloc::Global;

/// The stage of a text behind its next symbol, with what the symbol does there; or nothing where no text goes on so.
pub fn step(alloc: Global, bytes: &[u8], stage: Stage, symbol: Symbol) -> Step
    ensures { IfOk result (λ r. step_in bytes.now r ≡ specs_step (stage_in bytes.now stage)
        (symbol_in bytes.now symbol)) }
{
    match stage {
        Stage::Start => Ok(from_start(symbol)),
        Stage::Objective(maximises, stage) => from_objective(alloc, maximises, stage, symbol),
        Stage::Row(front, stage) => from_row(alloc, front, stage, symbol),
        Stage::Generals(front, parts, names) => from_generals(alloc, front, parts, names, symbol),
        Stage::Binaries(front, parts, names) => from_binaries(alloc, front, parts, names, symbol),
        Stage::Bounds(within, stage) => from_bound(alloc, bytes, within, stage, symbol),
        Stage::Done(tree) => {
            let_tree_go(tree);
            Ok(None)
        }
    }
}

/// A symbol in a generals section.
fn from_generals(
    alloc: Global,
    front: Front,
    parts: Items<Part>,
    names: Items<TextRange>,
    symbol: Symbol,
) -> Step
    ensures { (text : List ℕ) → IfOk result
        (λ r. step_in text r ≡ from_p_generals (front_in text front) (map (part_in text) parts)
        (map (name_in text) names) (symbol_in text symbol)) }
{
    let mut names = names;
    match symbol {
        Symbol::Name(name) => {
            names.push(name)?;
            Ok(Some((Site::Listed, Stage::Generals(front, parts, names))))
        }
        Symbol::Word(section) => behind_part(alloc, front, parts, Part::Generals(names), section),
        _ => Ok(None),
    }
}

/// A symbol in a binaries section.
fn from_binaries(
    alloc: Global,
    front: Front,
    parts: Items<Part>,
    names: Items<TextRange>,
    symbol: Symbol,
) -> Step
    ensures { (text : List ℕ) → IfOk result
        (λ r. step_in text r ≡ from_p_binaries (front_in text front) (map (part_in text) parts)
        (map (name_in text) names) (symbol_in text symbol)) }
{
    let mut names = names;
    match symbol {
        Symbol::Name(name) => {
            names.push(name)?;
            Ok(Some((Site::Listed, Stage::Binaries(front, parts, names))))
        }
        Symbol::Word(section) => behind_part(alloc, front, parts, Part::Binaries(names), section),
        _ => Ok(None),
    }
}
