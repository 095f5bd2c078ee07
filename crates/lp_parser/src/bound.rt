// Reading bounds: what the next symbol makes of a statement.
ghost use Rattle.std.specs.Prelude.{◌≡◌, ℕ, List, IfOk};
ghost use Rattle.lp_syntax.specs.Tree.{is_free as specs_is_free};
ghost use Rattle.lp_syntax.specs.TreeIn.{symbol_in, name_in, bound_in};
ghost use Rattle.lp_parser.specs.StageIn.{step_in, within_in, bound_stage_in};
ghost use Rattle.lp_parser.specs.Parser.{step as specs_step, from_b_signs, from_p_bounds, from_b_value, from_b_compared, from_b_half, from_b_between, from_b_name, from_b_named, free_word as specs_free_word, second_bound as specs_second_bound, with_bound as specs_with_bound};

use crate::row::direction_of;
use crate::stage::{BoundStage, Stage, Step, Within, behind_part};
use bp_theory::Items;
use lp_syntax::{
    Bound, Comparison, Direction, Part, Sign, Signed, Site, Symbol, TextRange, Value, bytes_at,
};
use std::alloc::{AllocError, Global};

/// A symbol inside a bounds section.
pub fn from_bound(
    alloc: Global,
    bytes: &[u8],
    within: Within,
    stage: BoundStage,
    symbol: Symbol,
) -> Step
    ensures { IfOk result (λ r. step_in bytes.now r ≡
        specs_step (bound_stage_in bytes.now (within_in bytes.now within) stage)
        (symbol_in bytes.now symbol)) }
{
    match stage {
        BoundStage::Start => from_start(alloc, within, symbol),
        BoundStage::Signs(signs) => from_signs(within, signs, symbol),
        BoundStage::Value(value) => Ok(from_value(within, value, symbol)),
        BoundStage::Compared(value, comparison) => Ok(from_compared(
            within, value, comparison, symbol,
        )),
        BoundStage::Half(value, comparison, name) => from_half(
            alloc, within, value, comparison, name, symbol,
        ),
        BoundStage::Between(value, direction, name, signs) => from_between(
            within, value, direction, name, signs, symbol,
        ),
        BoundStage::Name(name) => from_name(alloc, bytes, within, name, symbol),
        BoundStage::Named(name, comparison, signs) => from_named(
            within, name, comparison, signs, symbol,
        ),
    }
}

/// Bounds with one more.
fn with_bound(within: Within, bound: Bound) -> Result<Within, AllocError>
    ensures { (text : List ℕ) → IfOk result
        (λ r. within_in text r ≡ specs_with_bound (within_in text within) (bound_in text bound)) }
{
    let mut within = within;
    within.so_far.push(bound)?;
    Ok(within)
}

/// A symbol where a value may stand.
fn from_signs(within: Within, signs: Items<Sign>, symbol: Symbol) -> Step
    ensures { (text : List ℕ) → IfOk result
        (λ r. step_in text r ≡ from_b_signs (within_in text within) signs (symbol_in text symbol)) }
{
    let mut signs = signs;
    let stage = match symbol {
        Symbol::Sign(sign) => {
            signs.push(sign)?;
            BoundStage::Signs(signs)
        }
        Symbol::Number(size) => BoundStage::Value(Value::Finite(Signed { signs, size })),
        Symbol::Infinity => BoundStage::Value(Value::Endless(signs)),
        _ => return Ok(None),
    };
    Ok(Some((Site::Other, Stage::Bounds(within, stage))))
}

/// A symbol where a statement may begin.
fn from_start(alloc: Global, within: Within, symbol: Symbol) -> Step
    ensures { (text : List ℕ) → IfOk result
        (λ r. step_in text r ≡ from_p_bounds (within_in text within) (symbol_in text symbol)) }
{
    match symbol {
        Symbol::Name(name) => Ok(Some((
            Site::Listed,
            Stage::Bounds(within, BoundStage::Name(name)),
        ))),
        Symbol::Word(section) => {
            let (front, parts, so_far) = within.into_parts();
            behind_part(alloc, front, parts, Part::Bounds(so_far), section)
        }
        _ => from_signs(within, Items::new(alloc), symbol),
    }
}

/// A symbol behind a value.
fn from_value(within: Within, value: Value, symbol: Symbol) -> Option<(Site, Stage)>
    ensures { (text : List ℕ) → step_in text result ≡ from_b_value (within_in text within) value
        (symbol_in text symbol) }
{
    match symbol {
        Symbol::Comparison(comparison) => Some((
            Site::Other,
            Stage::Bounds(within, BoundStage::Compared(value, comparison)),
        )),
        _ => None,
    }
}

/// A symbol behind a value and a comparison.
fn from_compared(
    within: Within,
    value: Value,
    comparison: Comparison,
    symbol: Symbol,
) -> Option<(Site, Stage)>
    ensures { (text : List ℕ) → step_in text result ≡ from_b_compared (within_in text within) value
        comparison (symbol_in text symbol) }
{
    match symbol {
        Symbol::Name(name) => Some((
            Site::Listed,
            Stage::Bounds(within, BoundStage::Half(value, comparison, name)),
        )),
        _ => None,
    }
}

/// A second comparison of a bound, which has to agree with the first.
fn second_bound(
    alloc: Global,
    within: Within,
    value: Value,
    name: TextRange,
    direction: Option<Direction>,
) -> Option<(Site, Stage)>
    ensures { (text : List ℕ) → step_in text result ≡ specs_second_bound (within_in text within)
        value (name_in text name) direction }
{
    match direction {
        None => None,
        Some(direction) => {
            let stage = BoundStage::Between(value, direction, name, Items::new(alloc));
            Some((Site::Other, Stage::Bounds(within, stage)))
        }
    }
}

/// A symbol behind a value-first bound.
fn from_half(
    alloc: Global,
    within: Within,
    value: Value,
    comparison: Comparison,
    name: TextRange,
    symbol: Symbol,
) -> Step
    ensures { (text : List ℕ) → IfOk result
        (λ r. step_in text r ≡ from_b_half (within_in text within) value comparison
        (name_in text name) (symbol_in text symbol)) }
{
    match symbol {
        Symbol::Comparison(second) => Ok(second_bound(
            alloc,
            within,
            value,
            name,
            direction_of(comparison, second),
        )),
        _ => {
            let within = with_bound(within, Bound::ValueFirst(value, comparison, name))?;
            from_start(alloc, within, symbol)
        }
    }
}

/// A symbol behind the second comparison of a bound.
fn from_between(
    within: Within,
    value: Value,
    direction: Direction,
    name: TextRange,
    signs: Items<Sign>,
    symbol: Symbol,
) -> Step
    ensures { (text : List ℕ) → IfOk result
        (λ r. step_in text r ≡ from_b_between (within_in text within) value direction
        (name_in text name) signs (symbol_in text symbol)) }
{
    let mut signs = signs;
    let second = match symbol {
        Symbol::Sign(sign) => {
            signs.push(sign)?;
            return Ok(Some((
                Site::Other,
                Stage::Bounds(within, BoundStage::Between(value, direction, name, signs)),
            )));
        }
        Symbol::Number(size) => Value::Finite(Signed { signs, size }),
        Symbol::Infinity => Value::Endless(signs),
        _ => return Ok(None),
    };
    let within = with_bound(within, Bound::Between(value, direction, name, second))?;
    Ok(Some((Site::Other, Stage::Bounds(within, BoundStage::Start))))
}

/// Whether a name is the word `free`, in any case of letters.
fn is_free(name: &[u8]) -> bool
    ensures { result ≡ specs_is_free name.now }
{
    name.eq_ignore_ascii_case(b"free")
}

/// A name behind a bound's first name, by whether it is the word `free`.
fn free_word(within: Within, name: TextRange, word: TextRange, free: bool) -> Step
    ensures { (text : List ℕ) → IfOk result
        (λ r. step_in text r ≡ specs_free_word (within_in text within) (name_in text name)
        (name_in text word) free) }
{
    if free {
        let within = with_bound(within, Bound::Free(name, word))?;
        Ok(Some((Site::Other, Stage::Bounds(within, BoundStage::Start))))
    } else {
        Ok(None)
    }
}

/// A symbol behind a bound's first name.
fn from_name(alloc: Global, bytes: &[u8], within: Within, name: TextRange, symbol: Symbol) -> Step
    ensures { IfOk result (λ r. step_in bytes.now r ≡ from_b_name (within_in bytes.now within)
        (name_in bytes.now name) (symbol_in bytes.now symbol)) }
{
    match symbol {
        Symbol::Comparison(comparison) => {
            let stage = BoundStage::Named(name, comparison, Items::new(alloc));
            Ok(Some((Site::Other, Stage::Bounds(within, stage))))
        },
        Symbol::Name(word) => {
            let free = is_free(bytes_at(bytes, word));
            free_word(within, name, word, free)
        }
        _ => Ok(None),
    }
}

/// A symbol behind a name and a comparison.
fn from_named(
    within: Within,
    name: TextRange,
    comparison: Comparison,
    signs: Items<Sign>,
    symbol: Symbol,
) -> Step
    ensures { (text : List ℕ) → IfOk result
        (λ r. step_in text r ≡ from_b_named (within_in text within) (name_in text name) comparison
        signs (symbol_in text symbol)) }
{
    let mut signs = signs;
    let value = match symbol {
        Symbol::Sign(sign) => {
            signs.push(sign)?;
            return Ok(Some((
                Site::Other,
                Stage::Bounds(within, BoundStage::Named(name, comparison, signs)),
            )));
        }
        Symbol::Number(size) => Value::Finite(Signed { signs, size }),
        Symbol::Infinity => Value::Endless(signs),
        _ => return Ok(None),
    };
    let within = with_bound(within, Bound::NameFirst(name, comparison, value))?;
    Ok(Some((Site::Other, Stage::Bounds(within, BoundStage::Start))))
}
