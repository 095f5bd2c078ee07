// Where in a text the fault of a refusal stands.
use crate::blocks::{Wrong, first_wrong};
use crate::grammar::expected;
use crate::reading::{Found, Reading, read, uncut};
use crate::sums::{Excess, excess_of};
use bp_theory::Limits;
use lp_token::Tok;
use std::alloc::{AllocError, Global};

/// The place of a fault: its column, from 1, in bytes; the slice of its token; the key of its sentence; and what is
/// expected in the token's place, or nothing.
#[derive(Clone, Copy)]
pub struct Spot {
    /// The column of the token's first byte, from 1, in bytes.
    pub column: u64,
    /// Where the token begins in the text, from 0.
    pub from: usize,
    /// One place behind its last byte.
    pub to: usize,
    /// The key of the sentence, as a line of `LP`, `DEC` or `ROWS` in `kinds.rt` begins.
    pub key: &'static str,
    /// What is expected in the token's place; empty but at the key `syntax`.
    pub expected: &'static str,
    /// How far the sums go past the most; none but at the key `activity`.
    pub excess: Option<Excess>,
}

// The line and the column of a place in a text, both from 1.
fn place_of(text: &[u8], at: usize) -> (u64, u64) {
    let end = at.min(text.len());
    let mut line = 1u64;
    let mut column = 1u64;
    for b in &text[..end] {
        if *b == b'\n' {
            line = line.saturating_add(1);
            column = 1;
        } else {
            column = column.saturating_add(1);
        }
    }
    (line, column)
}

// Where a line of a text begins and ends.
fn range_of(text: &[u8], number: u64) -> Option<(usize, usize)> {
    let mut line = 1u64;
    let mut from = 0usize;
    for at in 0..text.len() {
        if text[at] == b'\n' {
            if line == number {
                return Some((from, at));
            }
            line = line.saturating_add(1);
            from = at + 1;
        }
    }
    (line == number && from <= text.len()).then_some((from, text.len()))
}

// The spot of a slice of a text, where that stands on the line.
fn spot_at(
    text: &[u8],
    number: u64,
    slice: (usize, usize),
    key: &'static str,
    expected: &'static str,
) -> Option<Spot> {
    let (from, to) = slice;
    let (line, column) = place_of(text, from);
    if line != number {
        return None;
    }
    Some(Spot {
        column,
        from,
        to,
        key,
        expected,
        excess: None,
    })
}

/// The spot of the fault of an LP text that these limits are for, where it can be told.
pub fn lp_spot(
    alloc: Global,
    text: &[u8],
    limits: Limits,
    line: &str,
    kind: &str,
) -> Result<Option<Spot>, AllocError> {
    let Ok(number) = line.parse::<u64>() else {
        return Ok(None);
    };
    match kind {
        "bad-byte" => Ok(uncut_spot(text, number, "bad-byte")),
        "long-name" => Ok(uncut_spot(text, number, "long-name")),
        "no-end" => Ok(None),
        _ => read_spot(alloc, text, limits, number, kind),
    }
}

// The spot of what can't be cut on a line.
fn uncut_spot(text: &[u8], number: u64, key: &'static str) -> Option<Spot> {
    let (from, to) = range_of(text, number)?;
    let slice = uncut(text, from, to)?;
    spot_at(text, number, slice, key, "")
}

// The spot of a fault behind the cut of the text.
fn read_spot(
    alloc: Global,
    text: &[u8],
    limits: Limits,
    number: u64,
    kind: &str,
) -> Result<Option<Spot>, AllocError> {
    match read(alloc, text, limits) {
        Ok(Some(reading)) => match reading.found() {
            Some(found) => Ok(found_spot(text, number, kind, &reading, found)),
            None => sums_spot(alloc, text, number, kind, &reading),
        },
        Ok(None) => Ok(None),
        Err(fault) => Err(fault),
    }
}

// The spot of the fault that was found, where it is of this kind and on this line.
fn found_spot(
    text: &[u8],
    number: u64,
    kind: &str,
    reading: &Reading,
    found: Found,
) -> Option<Spot> {
    token_spot(text, number, kind, reading, found.key, found.token?)
}

// The spot of a fault of a token, where it is of this kind and on this line.
fn token_spot(
    text: &[u8],
    number: u64,
    kind: &str,
    reading: &Reading,
    key: &'static str,
    at: usize,
) -> Option<Spot> {
    if !is_of(key, kind) {
        return None;
    }
    let token = reading.token(at)?;
    let hint = match kind {
        "syntax" => expected(reading.state(), reading.symbol(text, at)),
        _ => "",
    };
    spot_at(text, number, (token.from, token.to), key, hint)
}

// Whether a sentence's key is of a kind: the kind, perhaps with a dash and a word behind it.
fn is_of(key: &str, kind: &str) -> bool {
    match key.strip_prefix(kind) {
        Some(rest) => rest.len() == 0 || rest.as_bytes().first() == Some(&b'-'),
        None => false,
    }
}

// The spot of sums that are too large: those of the objective, or of the only row, that the line begins.
fn sums_spot(
    alloc: Global,
    text: &[u8],
    number: u64,
    kind: &str,
    reading: &Reading,
) -> Result<Option<Spot>, AllocError> {
    if kind != "activity" {
        return Ok(None);
    }
    let Some(at) = reading.lone_sum(number) else {
        return Ok(None);
    };
    let excess = excess_of(alloc, text, reading, at)?;
    Ok(lone_spot(text, number, reading.token(at), excess))
}

// The spot of the token that begins such sums.
fn lone_spot(text: &[u8], number: u64, token: Option<Tok>, excess: Option<Excess>) -> Option<Spot> {
    let token = token?;
    let mut spot = spot_at(text, number, (token.from, token.to), "activity", "")?;
    spot.excess = excess;
    Some(spot)
}

/// The spot of the fault of a decomposition, or of a list of rows, beside the text of a model that these limits are for, where
/// it can be told.
pub fn names_spot(
    alloc: Global,
    text: &[u8],
    model: &[u8],
    limits: Limits,
    line: &str,
    kind: &str,
    list: bool,
) -> Result<Option<Spot>, AllocError> {
    let Ok(number) = line.parse::<u64>() else {
        return Ok(None);
    };
    match read(alloc, model, limits) {
        Ok(Some(reading)) => match first_wrong(alloc, text, &reading, list) {
            Ok(wrong) => Ok(wrong_spot(text, number, kind, wrong)),
            Err(fault) => Err(fault),
        },
        Ok(None) => Ok(None),
        Err(fault) => Err(fault),
    }
}

// The spot of a wrong word, where it is of this kind and on this line.
fn wrong_spot(text: &[u8], number: u64, kind: &str, wrong: Option<Wrong>) -> Option<Spot> {
    match wrong {
        Some(wrong) if wrong.key == kind => {
            let hint = if kind == "syntax" { wrong.expected } else { "" };
            let slice = (wrong.word.from, wrong.word.to);
            spot_at(text, number, slice, wrong.key, hint)
        }
        _ => None,
    }
}
