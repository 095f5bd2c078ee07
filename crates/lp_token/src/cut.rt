// The cut of a text.
ghost use Rattle.std.specs.Prelude.{◌≡◌, ◌+◌, ◌-◌, ◌^◌, ◌≤◌, ◌<◌, ◌||◌, ◌&&◌, ℕ, List, if◌then◌else◌, length, drop, slice_range, IsTrue, IsFalse, IsSome, IsNone, IfSome, IfNone, IfOk, IfErr, All};
ghost use Rattle.std.specs.List.{list_all};
ghost use Rattle.lp_token.specs.Lexeme.{begins, is_name_byte as specs_is_name_byte};
ghost use Rattle.lp_token.specs.Word.{is_space};
ghost use Rattle.lp_token.specs.Scan.{is_tab_or_space, ends_word, BreaksHere};
ghost use Rattle.lp_token.specs.Cut.{Cut, HasCut, IsPosition, IsBetween, IsNextToken, IsNextFault, IsCutFault, IsGap, IsSlice, IsToken, in_comment, is_blank, is_white, is_line_feed, goes_on, kind_at, colon_follows as specs_colon_follows, is_long as specs_is_long, is_end as specs_is_end, section_at as specs_section_at};

use crate::word::{is_space_byte, section_of};
use crate::{LpFault, LpKind, Section, Tok, TokKind, plain_end, run_end};
use std::alloc::Global;

/// The longest name.
const LONGEST_NAME: usize = 255;

/// A place in a text.
#[derive(Clone, Copy, Debug, PartialEq, Eq)]
pub struct Position {
    /// How many bytes stand before it.
    pub at: usize,
    /// Its line: 1 plus the number of line feeds before it.
    pub line: u32,
    /// Whether nothing but white space stands before it in its line.
    pub fresh: bool,
}

/// Whether a byte is white space.
fn is_white_byte(b: u8) -> bool
    ensures { result ≡ is_white b }
{
    b == b' ' || b == b'\t' || b == b'\r' || b == b'\n'
}

/// Whether the byte is of a comment, by whether the one before it is.
fn is_comment_byte(comment: bool, b: u8) -> bool
    ensures { result ≡ goes_on comment b }
{
    b != b'\n' && (comment || b == b'\\')
}

/// The line behind a byte.
fn line_behind(line: u32, b: u8) -> u32
    requires { line < 2 ^ 32 - 1 }
    ensures { result ≡ (if is_line_feed b then line + 1 else line) }
{
    if b == b'\n' { line + 1 } else { line }
}

/// Whether nothing but white space stands in the line behind a byte.
fn fresh_behind(fresh: bool, b: u8) -> bool
    ensures { result ≡ (is_line_feed b || (fresh && is_white b)) }
{
    b == b'\n' || (fresh && is_white_byte(b))
}

/// The first place from a place on that is no white space and in no comment, or the text's end.
fn skip_blanks(bytes: &[u8], from: Position) -> Position
    requires size { length bytes.now ≤ 2 ^ 28 }
    requires place { IsPosition bytes.now from }
    requires clear { IsFalse (in_comment bytes.now from.at) }
    ensures place { IsPosition bytes.now result }
    ensures gap { IsGap bytes.now from.at result.at }
    ensures seen { result.at < length bytes.now → IsFalse (is_blank bytes.now result.at) }
    ensures clear { result.at < length bytes.now → IsFalse (in_comment bytes.now result.at) }
{
    let mut at = from.at;
    let mut line = from.line;
    let mut fresh = from.fresh;
    let mut comment = false;
    while at < bytes.len() {
        let b = bytes[at];
        let next = is_comment_byte(comment, b);
        if !next && !is_white_byte(b) {
            return Position { at, line, fresh };
        }
        comment = next;
        line = line_behind(line, b);
        fresh = fresh_behind(fresh, b);
        at += 1;
    }
    Position { at, line, fresh }
}

/// Where the spaces end that stand at a place.
fn spaces_end(bytes: &[u8], from: usize) -> usize
    requires { from ≤ length bytes.now }
    ensures ordered { from ≤ result }
    ensures inside { result ≤ length bytes.now }
    ensures run { IsTrue (list_all is_space (slice_range bytes.now from result)) }
    ensures stop { IsFalse (begins is_space (drop result bytes.now)) }
{
    let mut at = from;
    while at < bytes.len() {
        let b = bytes[at];
        if !is_space_byte(b) {
            return at;
        }
        at += 1;
    }
    at
}

fn is_tab_or_space_byte(b: u8) -> bool
    ensures { result ≡ is_tab_or_space b }
{
    b == b' ' || b == b'\t'
}

/// Whether, after spaces and tabs, a colon stands at a place.
fn colon_follows(bytes: &[u8], from: usize) -> bool
    requires { from ≤ length bytes.now }
    ensures { result ≡ specs_colon_follows bytes.now from }
{
    let mut at = from;
    while at < bytes.len() {
        let b = bytes[at];
        if !is_tab_or_space_byte(b) {
            return b == b':';
        }
        at += 1;
    }
    false
}

/// Whether a slice that no name goes on behind is a section word, by what it is and what follows it.
fn is_word(bytes: &[u8], from: usize, to: usize) -> bool
    requires ordered { from ≤ to }
    requires inside { to ≤ length bytes.now }
    requires stop { IsFalse (begins specs_is_name_byte (drop to bytes.now)) }
    ensures { result ≡ ends_word bytes.now from to }
{
    section_of(&bytes[from..to]).is_some() && !colon_follows(bytes, to)
}

/// Where the longest section word ends that a line begins with at a place, if one does.
fn word_end(bytes: &[u8], from: usize) -> Option<usize>
    requires { from ≤ length bytes.now }
    ensures found { IfSome result (λ end. (end ≤ length bytes.now) ×
        IsTrue (ends_word bytes.now from end)) }
    ensures longest { IfSome result (λ end. (to : ℕ) → to ≤ length bytes.now →
        IsTrue (ends_word bytes.now from to) → to ≤ end) }
    ensures none { IfNone result ((to : ℕ) → to ≤ length bytes.now →
        IsFalse (ends_word bytes.now from to)) }
{
    let first = run_end(bytes, from);
    let gap = spaces_end(bytes, first);
    let second = run_end(bytes, gap);
    if gap > first && is_word(bytes, from, second) {
        Some(second)
    } else if is_word(bytes, from, first) {
        Some(first)
    } else {
        None
    }
}

/// The kind and the end of the longest token at a place, if one stands there.
fn token_end(bytes: &[u8], place: Position) -> Option<(TokKind, usize)>
    requires inside { place.at < length bytes.now }
    requires place { IsPosition bytes.now place }
    requires clear { IsFalse (in_comment bytes.now place.at) }
    ensures found { IfSome result (λ t. (t.1 ≤ length bytes.now) ×
        (kind_at bytes.now place.at t.1 ≡ Some t.0)) }
    ensures longest { IfSome result (λ t. (to : ℕ) → to ≤ length bytes.now →
        IsSome (kind_at bytes.now place.at to) → to ≤ t.1) }
    ensures none { IfNone result ((to : ℕ) → to ≤ length bytes.now →
        IsNone (kind_at bytes.now place.at to)) }
{
    if place.fresh {
        if let Some(end) = word_end(bytes, place.at) {
            return Some((TokKind::Word, end));
        }
    }
    plain_end(bytes, place.at)
}

/// Whether a token is a name that is too long.
#[tactic(auto, unfolding(crate::specs::Cut::is_long))]
fn is_long(token: &Tok) -> bool
    requires { token.now.from ≤ token.now.to }
    ensures { result ≡ specs_is_long token.now }
{
    match token.kind {
        TokKind::Name => token.to - token.from > LONGEST_NAME,
        _ => false,
    }
}

/// The token at a place, or its fault.
fn next_token(bytes: &[u8], place: Position) -> Result<Tok, LpFault>
    requires inside { place.at < length bytes.now }
    requires place { IsPosition bytes.now place }
    requires seen { IsFalse (is_blank bytes.now place.at) }
    requires clear { IsFalse (in_comment bytes.now place.at) }
    ensures token { IfOk result (λ token. (token.from ≡ place.at) × IsToken bytes.now token ×
        IsFalse (specs_is_long token)) }
    ensures fault { IfErr result (BreaksHere bytes.now place.at) }
{
    let (kind, to) = match token_end(bytes, place) {
        Some(found) => found,
        None => return Err(LpFault::At {
            line: place.line,
            kind: LpKind::BadByte,
        }),
    };
    let token = Tok {
        line: place.line,
        from: place.at,
        to,
        kind,
    };
    if is_long(&token) {
        return Err(LpFault::At {
            line: place.line,
            kind: LpKind::LongName,
        });
    }
    Ok(token)
}

/// The section that a token begins, if it is a section word.
#[tactic(auto, unfolding(crate::specs::Cut::section_at))]
pub fn section_at(bytes: &[u8], token: &Tok) -> Option<Section>
    requires ordered { token.now.from ≤ token.now.to }
    requires inside { token.now.to ≤ length bytes.now }
    ensures { result ≡ specs_section_at bytes.now token.now }
{
    match token.kind {
        TokKind::Word => section_of(&bytes[token.from..token.to]),
        _ => None,
    }
}

/// Whether a token is the section word `end`.
#[tactic(auto, unfolding(crate::specs::Cut::is_end))]
pub fn is_end(bytes: &[u8], token: &Tok) -> bool
    requires ordered { token.now.from ≤ token.now.to }
    requires inside { token.now.to ≤ length bytes.now }
    ensures { result ≡ specs_is_end bytes.now token.now }
{
    match section_at(bytes, token) {
        Some(Section::End) => true,
        _ => false,
    }
}

/// The place where a text begins.
pub fn beginning() -> Position
    ensures between { (text : List ℕ) → IsBetween text result }
    ensures start { result.at ≡ 0 }
{
    Position {
        at: 0,
        line: 1,
        fresh: true,
    }
}

/// The place behind a token.
pub fn behind(token: &Tok) -> Position
    ensures between { (text : List ℕ) → IsToken text token.now → IsBetween text result }
    ensures end { result.at ≡ token.now.to }
{
    Position {
        at: token.to,
        line: token.line,
        fresh: false,
    }
}

/// The first token from a place on of a text of at most 2^28 bytes, or none where only white space and comments are left;
/// or the fault that stands there: a byte that begins no token (`BadByte`), or a name of more than 255 characters
/// (`LongName`).
pub fn next(bytes: &[u8], from: Position) -> Result<Option<Tok>, LpFault>
    requires size { length bytes.now ≤ 2 ^ 28 }
    requires place { IsBetween bytes.now from }
    ensures token { IfOk result (IsNextToken bytes.now from.at) }
    ensures fault { IfErr result (IsNextFault bytes.now from.at) }
{
    let here = skip_blanks(bytes, from);
    if here.at == bytes.len() {
        return Ok(None);
    }
    match next_token(bytes, here) {
        Ok(token) => Ok(Some(token)),
        Err(fault) => Err(fault),
    }
}

/// The tokens of a text of at most 2^28 bytes, up to the section word `end` or the text's end, in one pass; or the first
/// place that can't be cut: a byte that begins no token (`BadByte`), or a name of more than 255 characters (`LongName`).
pub fn tokens(alloc: Global, bytes: &[u8]) -> Result<Vec<Tok>, LpFault>
    requires { length bytes.now ≤ 2 ^ 28 }
    ensures cut { IfOk result (λ found. Cut bytes.now found.items) }
    ensures slices { IfOk result (λ found. All (IsSlice bytes.now) found.items) }
    ensures fault { IfErr result (IsCutFault bytes.now) }
{
    let mut found = Vec::new(alloc);
    let mut place = beginning();
    'cut: loop {
        match next(bytes, place) {
            Ok(Some(token)) => {
                found.push(token)?;
                if is_end(bytes, &token) {
                    return Ok(found);
                }
                place = behind(&token);
            }
            Ok(None) => return Ok(found),
            Err(fault) => return Err(fault),
        }
    }
}

/// Whether a text of at most 2^28 bytes can be cut as `tokens` cuts it, or the first place that can't be cut. It keeps no
/// token.
pub fn check_cut(bytes: &[u8]) -> Result<(), LpFault>
    requires { length bytes.now ≤ 2 ^ 28 }
    ensures cut { IfOk result (λ _. HasCut bytes.now) }
    ensures fault { IfErr result (IsCutFault bytes.now) }
{
    let mut place = beginning();
    'check: loop {
        match next(bytes, place) {
            Ok(Some(token)) => {
                let is_last = is_end(bytes, &token);
                if is_last {
                    return Ok(());
                }
                place = behind(&token);
            }
            Ok(None) => return Ok(()),
            Err(fault) => return Err(fault),
        }
    }
}
