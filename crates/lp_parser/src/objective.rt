// Reading an objective: what the next symbol makes of it.
ghost use Rattle.std.specs.Prelude.{◌≡◌, ℕ, List, IfOk};
ghost use Rattle.lp_syntax.specs.TreeIn.{symbol_in, name_in, label_in, item_in};
ghost use Rattle.lp_parser.specs.StageIn.{step_in, objective_in, item_sum_in, gap_in, objective_stage_in};
ghost use Rattle.lp_parser.specs.Parser.{put, named, signed_by, step as specs_step, from_start as specs_from_start, from_o_word, from_o_name, from_o_open, from_o_number, from_o_sum, rows_word as specs_rows_word, open_word as specs_open_word};
ghost use Rattle.lp_syntax.specs.Tree.{term, constant};

use crate::stage::{Front, Gap, ObjectiveStage, RowStage, Stage, Step, lone, longer, more_sign};
use bp_theory::Items;
use lp_syntax::{Item, Sign, Signed, Site, Sum, Symbol, Term, TextRange};
use lp_token::Section;
use std::alloc::{AllocError, Global};

/// The first symbol of a text.
pub fn from_start(symbol: Symbol) -> Option<(Site, Stage)>
    ensures { (text : List ℕ) → step_in text result ≡ specs_from_start (symbol_in text symbol) }
{
    let maximises = match symbol {
        Symbol::Word(Section::Maximize) => true,
        Symbol::Word(Section::Minimize) => false,
        _ => return None,
    };
    Some((
        Site::Other,
        Stage::Objective(maximises, ObjectiveStage::Word),
    ))
}

/// A symbol inside an objective.
pub fn from_objective(alloc: Global, maximises: bool, stage: ObjectiveStage, symbol: Symbol) -> Step
    ensures { (text : List ℕ) → IfOk result
        (λ r. step_in text r ≡ specs_step (objective_stage_in text maximises stage)
        (symbol_in text symbol)) }
{
    match stage {
        ObjectiveStage::Word => from_word(alloc, maximises, symbol),
        ObjectiveStage::Name(name) => from_name(alloc, maximises, name, symbol),
        ObjectiveStage::Open(label, gap) => from_open(alloc, maximises, label, gap, symbol),
        ObjectiveStage::Number(label, gap, size) => from_number(
            alloc, maximises, label, gap, size, symbol,
        ),
        ObjectiveStage::Sum(label, sum) => Ok(from_sum(alloc, maximises, label, sum, symbol)),
    }
}

/// A symbol behind the objective's word.
fn from_word(alloc: Global, maximises: bool, symbol: Symbol) -> Step
    ensures { (text : List ℕ) → IfOk result
        (λ r. step_in text r ≡ from_o_word maximises (symbol_in text symbol)) }
{
    let mut signs = Items::new(alloc);
    let stage = match symbol {
        Symbol::Name(name) => ObjectiveStage::Name(name),
        Symbol::Number(size) => ObjectiveStage::Number(
            None,
            Gap {
                before: None,
                signs,
            },
            size,
        ),
        Symbol::Sign(sign) => {
            signs.push(sign)?;
            ObjectiveStage::Open(
                None,
                Gap {
                    before: None,
                    signs,
                },
            )
        }
        Symbol::Word(section) => return Ok(rows_word(alloc, maximises, None, None, section)),
        _ => return Ok(None),
    };
    Ok(Some((Site::ObjectiveFirst, Stage::Objective(maximises, stage))))
}

/// A symbol behind an objective's first name.
fn from_name(alloc: Global, maximises: bool, name: TextRange, symbol: Symbol) -> Step
    ensures { (text : List ℕ) → IfOk result
        (λ r. step_in text r ≡ from_o_name maximises (name_in text name) (symbol_in text symbol)) }
{
    let signs = Items::new(alloc);
    match symbol {
        Symbol::Colon => {
            let gap = Gap {
                before: None,
                signs,
            };
            Ok(Some((
                Site::ObjectiveMore,
                Stage::Objective(maximises, ObjectiveStage::Open(Some(name), gap)),
            )))
        }
        _ => {
            let term = Term {
                signs,
                factor: None,
                variable: name,
            };
            Ok(from_sum(
                alloc,
                maximises,
                None,
                lone(alloc, Item::Term(term)),
                symbol,
            ))
        }
    }
}

/// A symbol where a summand may stand.
fn from_open(
    alloc: Global,
    maximises: bool,
    label: Option<TextRange>,
    gap: Gap<Item>,
    symbol: Symbol,
) -> Step
    ensures { (text : List ℕ) → IfOk result
        (λ r. step_in text r ≡ from_o_open maximises (label_in text label)
        (gap_in (item_in text) gap) (symbol_in text symbol)) }
{
    let stage = match symbol {
        Symbol::Sign(sign) => ObjectiveStage::Open(label, more_sign(gap, sign)?),
        Symbol::Number(size) => ObjectiveStage::Number(label, gap, size),
        Symbol::Name(name) => ObjectiveStage::Sum(label, put_item(alloc, gap, None, name)?),
        Symbol::Word(section) => return Ok(open_word(alloc, maximises, label, gap, section)),
        _ => return Ok(None),
    };
    Ok(Some((Site::ObjectiveMore, Stage::Objective(maximises, stage))))
}

/// A symbol behind a number.
fn from_number(
    alloc: Global,
    maximises: bool,
    label: Option<TextRange>,
    gap: Gap<Item>,
    size: u64,
    symbol: Symbol,
) -> Step
    ensures { (text : List ℕ) → IfOk result
        (λ r. step_in text r ≡ from_o_number maximises (label_in text label)
        (gap_in (item_in text) gap) size (symbol_in text symbol)) }
{
    match symbol {
        Symbol::Name(name) => {
            let sum = put_item(alloc, gap, Some(size), name)?;
            Ok(Some((
                Site::ObjectiveMore,
                Stage::Objective(maximises, ObjectiveStage::Sum(label, sum)),
            )))
        }
        _ => {
            let sum = put_constant(alloc, gap, size)?;
            Ok(from_sum(alloc, maximises, label, sum, symbol))
        }
    }
}

/// A symbol behind a summand.
fn from_sum(
    alloc: Global,
    maximises: bool,
    label: Option<TextRange>,
    sum: Sum<Item>,
    symbol: Symbol,
) -> Option<(Site, Stage)>
    ensures { (text : List ℕ) → step_in text result ≡ from_o_sum maximises (label_in text label)
        (item_sum_in text sum) (symbol_in text symbol) }
{
    match symbol {
        Symbol::Sign(sign) => {
            let gap = Gap {
                before: Some((sum, sign)),
                signs: Items::new(alloc),
            };
            Some((
                Site::ObjectiveMore,
                Stage::Objective(maximises, ObjectiveStage::Open(label, gap)),
            ))
        }
        Symbol::Word(section) => rows_word(alloc, maximises, label, Some(sum), section),
        _ => None,
    }
}

/// A word where a summand may stand: behind a label alone.
fn open_word(
    alloc: Global,
    maximises: bool,
    label: Option<TextRange>,
    gap: Gap<Item>,
    section: Section,
) -> Option<(Site, Stage)>
    ensures { (text : List ℕ) → step_in text result ≡ specs_open_word maximises
        (label_in text label) (gap_in (item_in text) gap) section }
{
    let (before, signs) = gap.into_parts();
    if before.is_none() && signs.len() == 0 {
        rows_word(alloc, maximises, label, None, section)
    } else {
        None
    }
}

/// The word behind an objective.
fn rows_word(
    alloc: Global,
    maximises: bool,
    label: Option<TextRange>,
    objective: Option<Sum<Item>>,
    section: Section,
) -> Option<(Site, Stage)>
    ensures { (text : List ℕ) → step_in text result ≡ specs_rows_word maximises
        (label_in text label) (objective_in text objective) section }
{
    match section {
        Section::Rows => {
            let front = Front {
                maximises,
                label,
                objective,
                rows: Items::new(alloc),
            };
            Some((Site::Other, Stage::Row(front, RowStage::Start)))
        }
        _ => None,
    }
}

/// The sum with a term in the gap place.
fn put_item(
    alloc: Global,
    gap: Gap<Item>,
    factor: Option<u64>,
    variable: TextRange,
) -> Result<Sum<Item>, AllocError>
    ensures { (text : List ℕ) → IfOk result
        (λ r. item_sum_in text r ≡ put (gap_in (item_in text) gap)
        (λ signs. term (named factor (name_in text variable) signs))) }
{
    let (before, signs) = gap.into_parts();
    let item = Item::Term(Term {
        signs,
        factor,
        variable,
    });
    match before {
        None => Ok(lone(alloc, item)),
        Some((sum, sign)) => longer(sum, sign, item),
    }
}

/// The sum with a constant in the gap place.
fn put_constant(alloc: Global, gap: Gap<Item>, size: u64) -> Result<Sum<Item>, AllocError>
    ensures { (text : List ℕ) → IfOk result
        (λ r. item_sum_in text r ≡ put (gap_in (item_in text) gap)
        (λ signs. constant (signed_by size signs))) }
{
    let (before, signs) = gap.into_parts();
    let item = Item::Constant(Signed { signs, size });
    match before {
        None => Ok(lone(alloc, item)),
        Some((sum, sign)) => longer(sum, sign, item),
    }
}
