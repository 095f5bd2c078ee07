// The section words.
ghost use Rattle.std.specs.Prelude.{◌≡◌, ◌++◌, ◌<◌, IsTrue, IsFalse, IsSome, option_to_list};
ghost use Rattle.arrayvec.specs.ArrayVec.{array_vec_len};
ghost use Rattle.lp_token.specs.Word.{is_space, is_one_of, section_with, section_words, maximize_words, minimize_words, rows_words, bounds_words, generals_words, binaries_words, end_words, unsupported_words, section_of as specs_section_of};
ghost use Rattle.lp_token.specs.Scan.{gap_behind as specs_gap_behind, key_byte as specs_key_byte};

use crate::Section;
use arrayvec::ArrayVec;

/// The length of the longest section word.
const LONGEST_WORD: usize = 16;

/// Where a word's spaces stand, as seen from a place in it.
#[derive(Clone, Copy)]
enum Gap {
    Ahead,
    Here,
    Behind,
}

#[tactic(auto, unfolding(crate::specs::Word::is_one_of))]
fn is_maximize_word(key: &[u8]) -> bool
    ensures { result ≡ is_one_of maximize_words key.now }
{
    key == b"maximize".as_slice() || key == b"maximum".as_slice() || key == b"max".as_slice()
}

#[tactic(auto, unfolding(crate::specs::Word::is_one_of))]
fn is_minimize_word(key: &[u8]) -> bool
    ensures { result ≡ is_one_of minimize_words key.now }
{
    key == b"minimize".as_slice() || key == b"minimum".as_slice() || key == b"min".as_slice()
}

#[tactic(auto, unfolding(crate::specs::Word::is_one_of))]
fn is_rows_word(key: &[u8]) -> bool
    ensures { result ≡ is_one_of rows_words key.now }
{
    key == b"subject to".as_slice()
        || key == b"such that".as_slice()
        || key == b"st".as_slice()
        || key == b"s.t.".as_slice()
        || key == b"st.".as_slice()
}

#[tactic(auto, unfolding(crate::specs::Word::is_one_of))]
fn is_bounds_word(key: &[u8]) -> bool
    ensures { result ≡ is_one_of bounds_words key.now }
{
    key == b"bounds".as_slice() || key == b"bound".as_slice()
}

#[tactic(auto, unfolding(crate::specs::Word::is_one_of))]
fn is_generals_word(key: &[u8]) -> bool
    ensures { result ≡ is_one_of generals_words key.now }
{
    key == b"general".as_slice()
        || key == b"generals".as_slice()
        || key == b"gen".as_slice()
        || key == b"integer".as_slice()
        || key == b"integers".as_slice()
        || key == b"int".as_slice()
}

#[tactic(auto, unfolding(crate::specs::Word::is_one_of))]
fn is_binaries_word(key: &[u8]) -> bool
    ensures { result ≡ is_one_of binaries_words key.now }
{
    key == b"binary".as_slice() || key == b"binaries".as_slice() || key == b"bin".as_slice()
}

#[tactic(auto, unfolding(crate::specs::Word::is_one_of))]
fn is_end_word(key: &[u8]) -> bool
    ensures { result ≡ is_one_of end_words key.now }
{
    key == b"end".as_slice()
}

#[tactic(auto, unfolding(crate::specs::Word::is_one_of))]
fn is_unsupported_word(key: &[u8]) -> bool
    ensures { result ≡ is_one_of unsupported_words key.now }
{
    key == b"semi".as_slice()
        || key == b"semis".as_slice()
        || key == b"sos".as_slice()
        || key == b"sos1".as_slice()
        || key == b"sos2".as_slice()
        || key == b"pwlobj".as_slice()
        || key == b"lazy constraints".as_slice()
        || key == b"user cuts".as_slice()
}

/// The section of a word in lower case, with one space between two names.
fn section_named(key: &[u8]) -> Option<Section>
    ensures { result ≡ section_with section_words key.now }
{
    if is_maximize_word(key) {
        Some(Section::Maximize)
    } else if is_minimize_word(key) {
        Some(Section::Minimize)
    } else if is_rows_word(key) {
        Some(Section::Rows)
    } else if is_bounds_word(key) {
        Some(Section::Bounds)
    } else if is_generals_word(key) {
        Some(Section::Generals)
    } else if is_binaries_word(key) {
        Some(Section::Binaries)
    } else if is_end_word(key) {
        Some(Section::End)
    } else if is_unsupported_word(key) {
        Some(Section::Unsupported)
    } else {
        None
    }
}

/// Whether a byte is a space, a tab or a carriage return.
pub fn is_space_byte(b: u8) -> bool
    ensures { result ≡ is_space b }
{
    b == b' ' || b == b'\t' || b == b'\r'
}

/// Where a word's spaces stand, as seen from behind a byte.
fn gap_behind(gap: Gap, b: u8) -> Gap
    ensures { result ≡ specs_gap_behind gap b }
{
    match gap {
        Gap::Ahead => {
            if is_space_byte(b) {
                Gap::Here
            } else {
                Gap::Ahead
            }
        }
        Gap::Here => {
            if is_space_byte(b) {
                Gap::Here
            } else {
                Gap::Behind
            }
        }
        Gap::Behind => Gap::Behind,
    }
}

/// What stands for a byte in a word in lower case, with one space between two names.
fn key_byte(gap: Gap, b: u8) -> Option<u8>
    ensures { result ≡ specs_key_byte gap b }
{
    match gap {
        Gap::Ahead => {
            if is_space_byte(b) {
                Some(b' ')
            } else {
                Some(b.to_ascii_lowercase())
            }
        }
        Gap::Here => {
            if is_space_byte(b) {
                None
            } else {
                Some(b.to_ascii_lowercase())
            }
        }
        Gap::Behind => Some(b.to_ascii_lowercase()),
    }
}

/// Adds a byte, if one is there, where there is room for it.
fn add(key: &mut ArrayVec<u8, LONGEST_WORD>, byte: Option<u8>) -> bool
    ensures added { IsTrue result → key.new.items ≡ key.old.items ++ option_to_list byte }
    ensures full { IsFalse result → (array_vec_len key.old ≡ LONGEST_WORD) × IsSome byte }
{
    match byte {
        None => true,
        Some(b) => {
            if key.is_full() {
                return false;
            }
            key.push(b);
            true
        }
    }
}

/// The section that a word begins, in any case of letters and with any white space between two names.
pub fn section_of(bytes: &[u8]) -> Option<Section>
    ensures { result ≡ specs_section_of bytes.now }
{
    let mut key: ArrayVec<u8, LONGEST_WORD> = ArrayVec::new();
    let mut gap = Gap::Ahead;
    for b in bytes {
        if !add(&mut key, key_byte(gap, *b)) {
            return None;
        }
        gap = gap_behind(gap, *b);
    }
    section_named(key.as_slice())
}
