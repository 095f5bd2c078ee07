// Reading rows: what the next symbol makes of one.
ghost use Rattle.std.specs.Prelude.{◌≡◌, ℕ, List, IfOk};
ghost use Rattle.lp_syntax.specs.TreeIn.{symbol_in, name_in, label_in, term_in};
ghost use Rattle.lp_parser.specs.StageIn.{step_in, front_in, term_sum_in, gap_in, row_stage_in};
ghost use Rattle.lp_parser.specs.Parser.{step as specs_step, from_r_row, from_r_name, from_r_signs, from_r_number, from_r_open, from_r_factor, from_r_sum, from_r_compared, from_n_open, from_n_factor, from_n_sum, from_n_compared, direction_of as specs_direction_of};

use crate::stage::{
    Front, Gap, RowHead, RowStage, Stage, Step, from_word, lone, longer, more_sign, put_term,
    with_row,
};
use bp_theory::Items;
use lp_syntax::{Comparison, Direction, Row, Sign, Signed, Site, Sum, Symbol, Term, TextRange};
use std::alloc::{AllocError, Global};

/// A symbol inside a row, or where one may begin.
pub fn from_row(alloc: Global, front: Front, stage: RowStage, symbol: Symbol) -> Step
    ensures { (text : List ℕ) → IfOk result
        (λ r. step_in text r ≡ specs_step (row_stage_in text (front_in text front) stage)
        (symbol_in text symbol)) }
{
    match stage {
        RowStage::Start => from_start(alloc, front, symbol),
        RowStage::Name(name) => from_name(alloc, front, name, symbol),
        RowStage::Signs(label, signs) => from_signs(alloc, front, label, signs, symbol),
        RowStage::Number(label, signs, size) => from_number(
            alloc, front, label, signs, size, symbol,
        ),
        RowStage::Open(label, sum, sign, signs) => from_open(
            front, label, sum, sign, signs, symbol,
        ),
        RowStage::Factor(label, sum, sign, signs, size) => from_factor(
            front, label, sum, sign, signs, size, symbol,
        ),
        RowStage::Sum(label, sum) => Ok(from_sum(alloc, front, label, sum, symbol)),
        RowStage::Compared(label, sum, comparison, signs) => from_compared(
            front, label, sum, comparison, signs, symbol,
        ),
        RowStage::NumberOpen(head, gap) => from_number_open(alloc, front, head, gap, symbol),
        RowStage::NumberFactor(head, gap, size) => from_number_factor(
            alloc, front, head, gap, size, symbol,
        ),
        RowStage::NumberSum(head, sum) => from_number_sum(alloc, front, head, sum, symbol),
        RowStage::NumberCompared(label, side, direction, sum, signs) => from_number_compared(
            front, label, side, direction, sum, signs, symbol,
        ),
    }
}

/// A symbol where a row may begin.
fn from_start(alloc: Global, front: Front, symbol: Symbol) -> Step
    ensures { (text : List ℕ) → IfOk result
        (λ r. step_in text r ≡ from_r_row (front_in text front) (symbol_in text symbol)) }
{
    let stage = match symbol {
        Symbol::Name(name) => RowStage::Name(name),
        Symbol::Number(size) => {
            let signs = Items::new(alloc);
            RowStage::Number(None, signs, size)
        }
        Symbol::Sign(sign) => {
            let mut signs = Items::new(alloc);
            signs.push(sign)?;
            RowStage::Signs(None, signs)
        }
        Symbol::Word(section) => {
            return Ok(from_word(alloc, front, Items::new(alloc), section));
        }
        _ => return Ok(None),
    };
    Ok(Some((Site::RowFirst, Stage::Row(front, stage))))
}

/// A symbol behind a row's first name.
fn from_name(alloc: Global, front: Front, name: TextRange, symbol: Symbol) -> Step
    ensures { (text : List ℕ) → IfOk result
        (λ r. step_in text r ≡ from_r_name (front_in text front) (name_in text name)
        (symbol_in text symbol)) }
{
    let signs = Items::new(alloc);
    match symbol {
        Symbol::Colon => Ok(Some((
            Site::RowMore,
            Stage::Row(front, RowStage::Signs(Some(name), signs)),
        ))),
        _ => {
            let term = Term {
                signs,
                factor: None,
                variable: name,
            };
            Ok(from_sum(alloc, front, None, lone(alloc, term), symbol))
        }
    }
}

/// A symbol where a row's first number or name may stand.
fn from_signs(
    alloc: Global,
    front: Front,
    label: Option<TextRange>,
    signs: Items<Sign>,
    symbol: Symbol,
) -> Step
    ensures { (text : List ℕ) → IfOk result
        (λ r. step_in text r ≡ from_r_signs (front_in text front) (label_in text label) signs
        (symbol_in text symbol)) }
{
    let mut signs = signs;
    let stage = match symbol {
        Symbol::Sign(sign) => {
            signs.push(sign)?;
            RowStage::Signs(label, signs)
        }
        Symbol::Number(size) => RowStage::Number(label, signs, size),
        Symbol::Name(variable) => RowStage::Sum(
            label,
            lone(
                alloc,
                Term {
                    signs,
                    factor: None,
                    variable,
                },
            ),
        ),
        _ => return Ok(None),
    };
    Ok(Some((Site::RowMore, Stage::Row(front, stage))))
}

/// A symbol behind a row's first number.
fn from_number(
    alloc: Global,
    front: Front,
    label: Option<TextRange>,
    signs: Items<Sign>,
    size: u64,
    symbol: Symbol,
) -> Step
    ensures { (text : List ℕ) → IfOk result
        (λ r. step_in text r ≡ from_r_number (front_in text front) (label_in text label) signs size
        (symbol_in text symbol)) }
{
    let stage = match symbol {
        Symbol::Name(variable) => RowStage::Sum(
            label,
            lone(
                alloc,
                Term {
                    signs,
                    factor: Some(size),
                    variable,
                },
            ),
        ),
        Symbol::Comparison(comparison) => {
            let gap = Gap {
                before: None,
                signs: Items::new(alloc),
            };
            let head = RowHead {
                label,
                side: Signed { signs, size },
                comparison,
            };
            RowStage::NumberOpen(head, gap)
        }
        _ => return Ok(None),
    };
    Ok(Some((Site::RowMore, Stage::Row(front, stage))))
}

/// A symbol where a further term may stand.
fn from_open(
    front: Front,
    label: Option<TextRange>,
    sum: Sum<Term>,
    first: Sign,
    signs: Items<Sign>,
    symbol: Symbol,
) -> Step
    ensures { (text : List ℕ) → IfOk result
        (λ r. step_in text r ≡ from_r_open (front_in text front) (label_in text label)
        (term_sum_in text sum) first signs (symbol_in text symbol)) }
{
    let mut signs = signs;
    let stage = match symbol {
        Symbol::Sign(sign) => {
            signs.push(sign)?;
            RowStage::Open(label, sum, first, signs)
        }
        Symbol::Number(size) => RowStage::Factor(label, sum, first, signs, size),
        Symbol::Name(variable) => RowStage::Sum(
            label,
            longer(
                sum,
                first,
                Term {
                    signs,
                    factor: None,
                    variable,
                },
            )?,
        ),
        _ => return Ok(None),
    };
    Ok(Some((Site::RowMore, Stage::Row(front, stage))))
}

/// A symbol behind a further term's number.
fn from_factor(
    front: Front,
    label: Option<TextRange>,
    sum: Sum<Term>,
    first: Sign,
    signs: Items<Sign>,
    size: u64,
    symbol: Symbol,
) -> Step
    ensures { (text : List ℕ) → IfOk result
        (λ r. step_in text r ≡ from_r_factor (front_in text front) (label_in text label)
        (term_sum_in text sum) first signs size (symbol_in text symbol)) }
{
    match symbol {
        Symbol::Name(variable) => {
            let sum = longer(
                sum,
                first,
                Term {
                    signs,
                    factor: Some(size),
                    variable,
                },
            )?;
            Ok(Some((Site::RowMore, Stage::Row(front, RowStage::Sum(label, sum)))))
        }
        _ => Ok(None),
    }
}

/// A symbol behind a term.
fn from_sum(
    alloc: Global,
    front: Front,
    label: Option<TextRange>,
    sum: Sum<Term>,
    symbol: Symbol,
) -> Option<(Site, Stage)>
    ensures { (text : List ℕ) → step_in text result ≡ from_r_sum (front_in text front)
        (label_in text label) (term_sum_in text sum) (symbol_in text symbol) }
{
    let signs = Items::new(alloc);
    let stage = match symbol {
        Symbol::Sign(sign) => RowStage::Open(label, sum, sign, signs),
        Symbol::Comparison(comparison) => RowStage::Compared(label, sum, comparison, signs),
        _ => return None,
    };
    Some((Site::RowMore, Stage::Row(front, stage)))
}

/// A symbol behind a row's comparison.
fn from_compared(
    front: Front,
    label: Option<TextRange>,
    sum: Sum<Term>,
    comparison: Comparison,
    signs: Items<Sign>,
    symbol: Symbol,
) -> Step
    ensures { (text : List ℕ) → IfOk result
        (λ r. step_in text r ≡ from_r_compared (front_in text front) (label_in text label)
        (term_sum_in text sum) comparison signs (symbol_in text symbol)) }
{
    let mut signs = signs;
    match symbol {
        Symbol::Sign(sign) => {
            signs.push(sign)?;
            Ok(Some((
                Site::RowMore,
                Stage::Row(front, RowStage::Compared(label, sum, comparison, signs)),
            )))
        }
        Symbol::Number(size) => {
            let front = with_row(
                front,
                Row::ExpressionFirst(label, sum, comparison, Signed { signs, size }),
            )?;
            Ok(Some((Site::RowMore, Stage::Row(front, RowStage::Start))))
        }
        _ => Ok(None),
    }
}

/// A symbol where a term of a number-first row may stand.
fn from_number_open(
    alloc: Global,
    front: Front,
    head: RowHead,
    gap: Gap<Term>,
    symbol: Symbol,
) -> Step
    ensures { (text : List ℕ) → IfOk result
        (λ r. step_in text r ≡ from_n_open (front_in text front) (label_in text head.label)
        head.side head.comparison (gap_in (term_in text) gap) (symbol_in text symbol)) }
{
    let stage = match symbol {
        Symbol::Sign(sign) => RowStage::NumberOpen(head, more_sign(gap, sign)?),
        Symbol::Number(size) => RowStage::NumberFactor(head, gap, size),
        Symbol::Name(name) => RowStage::NumberSum(head, put_term(alloc, gap, None, name)?),
        _ => return Ok(None),
    };
    Ok(Some((Site::RowMore, Stage::Row(front, stage))))
}

/// A symbol behind the number of a term of a number-first row.
fn from_number_factor(
    alloc: Global,
    front: Front,
    head: RowHead,
    gap: Gap<Term>,
    size: u64,
    symbol: Symbol,
) -> Step
    ensures { (text : List ℕ) → IfOk result
        (λ r. step_in text r ≡ from_n_factor (front_in text front) (label_in text head.label)
        head.side head.comparison (gap_in (term_in text) gap) size (symbol_in text symbol)) }
{
    match symbol {
        Symbol::Name(name) => {
            let sum = put_term(alloc, gap, Some(size), name)?;
            Ok(Some((
                Site::RowMore,
                Stage::Row(front, RowStage::NumberSum(head, sum)),
            )))
        }
        _ => Ok(None),
    }
}

/// The direction of two comparisons, if they agree.
pub fn direction_of(first: Comparison, second: Comparison) -> Option<Direction>
    ensures { result ≡ specs_direction_of first second }
{
    match (first, second) {
        (Comparison::AtMost, Comparison::AtMost) => Some(Direction::Upward),
        (Comparison::AtLeast, Comparison::AtLeast) => Some(Direction::Downward),
        _ => None,
    }
}

/// A symbol behind a term of a number-first row.
fn from_number_sum(
    alloc: Global,
    front: Front,
    head: RowHead,
    sum: Sum<Term>,
    symbol: Symbol,
) -> Step
    ensures { (text : List ℕ) → IfOk result
        (λ r. step_in text r ≡ from_n_sum (front_in text front) (label_in text head.label)
        head.side head.comparison (term_sum_in text sum) (symbol_in text symbol)) }
{
    match symbol {
        Symbol::Sign(sign) => {
            let gap = Gap {
                before: Some((sum, sign)),
                signs: Items::new(alloc),
            };
            Ok(Some((
                Site::RowMore,
                Stage::Row(front, RowStage::NumberOpen(head, gap)),
            )))
        }
        Symbol::Comparison(second) => match direction_of(head.comparison, second) {
            Some(direction) => {
                let RowHead {
                    label,
                    side,
                    comparison: _,
                } = head;
                let signs = Items::new(alloc);
                let stage = RowStage::NumberCompared(label, side, direction, sum, signs);
                Ok(Some((Site::RowMore, Stage::Row(front, stage))))
            }
            None => Ok(None),
        },
        _ => {
            let RowHead {
                label,
                side,
                comparison,
            } = head;
            let front = with_row(front, Row::NumberFirst(label, side, comparison, sum))?;
            from_start(alloc, front, symbol)
        }
    }
}

/// A symbol behind the second comparison of a row.
fn from_number_compared(
    front: Front,
    label: Option<TextRange>,
    side: Signed,
    direction: Direction,
    sum: Sum<Term>,
    signs: Items<Sign>,
    symbol: Symbol,
) -> Step
    ensures { (text : List ℕ) → IfOk result
        (λ r. step_in text r ≡ from_n_compared (front_in text front) (label_in text label) side
        direction (term_sum_in text sum) signs (symbol_in text symbol)) }
{
    let mut signs = signs;
    match symbol {
        Symbol::Sign(sign) => {
            signs.push(sign)?;
            Ok(Some((
                Site::RowMore,
                Stage::Row(
                    front,
                    RowStage::NumberCompared(label, side, direction, sum, signs),
                ),
            )))
        }
        Symbol::Number(size) => {
            let front = with_row(
                front,
                Row::Ranged(label, side, direction, sum, Signed { signs, size }),
            )?;
            Ok(Some((Site::RowMore, Stage::Row(front, RowStage::Start))))
        }
        _ => Ok(None),
    }
}
