// The tokens as the grammar sees them.
ghost use Rattle.std.specs.Prelude.{◌≡◌, ℕ, ◌≤◌, ◌^◌, ◌||◌, List, length, slice_range, codes};
ghost use Rattle.std.specs.Str.{bytes_eq, str_to_ascii_lowercase};
ghost use Rattle.lp_syntax.specs.Symbols.{symbol_of as specs_symbol_of, number_symbol as specs_number_symbol, name_symbol as specs_name_symbol, mark_symbol as specs_mark_symbol, word_symbol as specs_word_symbol, stays_in_bounds as specs_stays_in_bounds};
ghost use Rattle.lp_syntax.specs.TreeIn.{IsNameOf, IsNameAt, IsNoName, symbol_in, name_in};

use crate::number::{Worth, worth_of};
use crate::tree::{Comparison, Sign, TextRange, bytes_at};
use lp_token::{LpKind, Section, Tok, TokKind, section_of};

/// A token as the grammar sees it. An unfit one has a fault of its own, and stands in no text.
#[derive(Clone, Copy, Debug, PartialEq, Eq)]
pub enum Symbol {
    Word(Section),
    Name(TextRange),
    Number(u64),
    Infinity,
    Sign(Sign),
    Comparison(Comparison),
    Colon,
    Unfit(LpKind),
}

/// The symbol of a written number, by whether it stands in a bounds section.
fn number_symbol(bytes: &[u8], in_bounds: bool) -> Symbol
    requires { length bytes.now ≤ 2 ^ 28 }
    ensures other { IsNoName result }
    ensures same { (text : List ℕ) →
        symbol_in text result ≡ specs_number_symbol in_bounds bytes.now }
{
    match worth_of(bytes) {
        Worth::NotWhole => Symbol::Unfit(LpKind::NotWhole),
        Worth::Whole(size) => Symbol::Number(size),
        Worth::Large => Symbol::Unfit(LpKind::TooLarge),
        Worth::Infinite => {
            if in_bounds {
                Symbol::Infinity
            } else {
                Symbol::Unfit(LpKind::TooLarge)
            }
        }
    }
}

/// Whether a name is a word for an infinity.
fn is_infinity_word(name: &[u8]) -> bool
    ensures { result ≡ (bytes_eq (str_to_ascii_lowercase name.now) (codes "inf") || bytes_eq
        (str_to_ascii_lowercase name.now) (codes "infinity")) }
{
    name.eq_ignore_ascii_case(b"inf") || name.eq_ignore_ascii_case(b"infinity")
}

/// The symbol of a name, by whether it stands in a bounds section.
#[tactic(auto, unfolding(crate::specs::Symbols::name_symbol))]
fn name_symbol(bytes: &[u8], place: TextRange, in_bounds: bool) -> Symbol
    ensures named { IsNameAt place result }
    ensures same { symbol_in bytes.now result ≡ specs_name_symbol in_bounds
        (name_in bytes.now place) }
{
    if in_bounds && is_infinity_word(bytes_at(bytes, place)) {
        Symbol::Infinity
    } else {
        Symbol::Name(place)
    }
}

/// The symbol of a mark.
#[tactic(auto, unfolding(crate::specs::Symbols::mark_symbol))]
fn mark_symbol(bytes: &[u8]) -> Symbol
    ensures other { IsNoName result }
    ensures same { (text : List ℕ) → symbol_in text result ≡ specs_mark_symbol bytes.now }
{
    match bytes {
        b"<" | b"<=" | b"=<" => Symbol::Comparison(Comparison::AtMost),
        b">" | b">=" | b"=>" => Symbol::Comparison(Comparison::AtLeast),
        b"=" => Symbol::Comparison(Comparison::Equal),
        b"+" => Symbol::Sign(Sign::Plus),
        b"-" => Symbol::Sign(Sign::Minus),
        b":" => Symbol::Colon,
        _ => Symbol::Unfit(LpKind::Feature),
    }
}

/// The symbol of a section word.
#[tactic(auto, unfolding(crate::specs::Symbols::word_symbol))]
fn word_symbol(bytes: &[u8]) -> Symbol
    ensures other { IsNoName result }
    ensures same { (text : List ℕ) → symbol_in text result ≡ specs_word_symbol bytes.now }
{
    match section_of(bytes) {
        None | Some(Section::Unsupported) => Symbol::Unfit(LpKind::Feature),
        Some(section) => Symbol::Word(section),
    }
}

/// The symbol of a token, by whether it stands in a bounds section.
pub(crate) fn symbol_of(bytes: &[u8], token: &Tok, in_bounds: bool) -> Symbol
    requires { length bytes.now ≤ 2 ^ 28 }
    ensures same { symbol_in bytes.now result ≡ specs_symbol_of in_bounds token.now.kind
        (slice_range bytes.now token.now.from token.now.to) }
    ensures named { IsNameOf token.now result }
{
    let place = TextRange {
        from: token.from,
        to: token.to,
    };
    match token.kind {
        TokKind::Number => number_symbol(bytes_at(bytes, place), in_bounds),
        TokKind::Name => name_symbol(bytes, place, in_bounds),
        TokKind::Mark => mark_symbol(bytes_at(bytes, place)),
        TokKind::Word => word_symbol(bytes_at(bytes, place)),
    }
}

/// Whether what follows a symbol stands in a bounds section.
pub(crate) fn stays_in_bounds(in_bounds: bool, symbol: Symbol) -> bool
    ensures { (text : List ℕ) → result ≡ specs_stays_in_bounds in_bounds (symbol_in text symbol) }
{
    match symbol {
        Symbol::Word(Section::Bounds) => true,
        Symbol::Word(_) => false,
        _ => in_bounds,
    }
}
