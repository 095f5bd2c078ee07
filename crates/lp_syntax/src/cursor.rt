// Reading the symbols of a text, one by one.
ghost use Rattle.std.specs.Prelude.{◌≡◌, ℕ, ◌≤◌, ◌<◌, ◌^◌, List, length, IfSome};
ghost use Rattle.lp_token.specs.declared.Tok.{Tok};
ghost use Rattle.lp_token.specs.Cut.{Cut, IsBetween};
ghost use Rattle.lp_syntax.specs.Tree as plain;
ghost use Rattle.lp_syntax.specs.Symbols.{symbols};
ghost use Rattle.lp_syntax.specs.TreeIn.{IsNamed};
ghost use Rattle.lp_syntax.specs.Remaining.{Remain, IsRest};

use crate::symbol::{Symbol, stays_in_bounds, symbol_of};
use lp_token::{Position, beginning, behind, is_end, next};

/// Where a reader stands between two symbols of a text.
#[derive(Clone, Copy)]
pub struct Cursor {
    /// The place in the text.
    pub place: Position,
    /// Whether it is in a bounds section.
    pub in_bounds: bool,
    /// Whether the word `end` is behind it.
    pub is_done: bool,
}

/// The cursor before a text's first symbol.
pub fn first_cursor() -> Cursor
    ensures between { (text : List ℕ) → IsBetween text result.place }
    ensures start { result.place.at ≡ 0 }
    ensures all { (text : List ℕ) (tokens : List Tok) → Cut text tokens →
        Remain text result (symbols text tokens) }
{
    Cursor {
        place: beginning(),
        in_bounds: false,
        is_done: false,
    }
}

/// The next symbol of a text of at most 2^28 bytes that can be cut, if there is one, and the cursor behind it.
pub fn next_symbol(bytes: &[u8], cursor: Cursor) -> (Option<Symbol>, Cursor)
    requires size { length bytes.now ≤ 2 ^ 28 }
    requires between { IsBetween bytes.now cursor.place }
    requires cut { (rest : List plain.Symbol) × Remain bytes.now cursor rest }
    ensures between { IsBetween bytes.now result.1.place }
    ensures next { (rest : List plain.Symbol) → Remain bytes.now cursor rest →
        IsRest bytes.now rest result.0 result.1 }
    ensures named { IfSome result.0 (IsNamed bytes.now) }
    ensures further { IfSome result.0 (λ _. cursor.place.at < result.1.place.at) }
    ensures onward { cursor.place.at ≤ result.1.place.at }
{
    if cursor.is_done {
        return (None, cursor);
    }
    match next(bytes, cursor.place) {
        Ok(Some(token)) => {
            let symbol = symbol_of(bytes, &token, cursor.in_bounds);
            let further = Cursor {
                place: behind(&token),
                in_bounds: stays_in_bounds(cursor.in_bounds, symbol),
                is_done: is_end(bytes, &token),
            };
            (Some(symbol), further)
        }
        Ok(None) => (None, cursor),
        Err(_) => (None, cursor),
    }
}
