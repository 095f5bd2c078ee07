// What texts are cut into.
use crate::tables::{Reading, add, check, told};
use lp_token::{LpFault, LpKind, Section, Tok, TokKind, section_at, section_of, tokens};
use std::alloc::{AllocError, Global};
use std::test::Fail;

/// Lines of an answer and a text, with ` @ ` between them and `|` for each line feed of the text. An answer is the tokens,
/// each with its line, its slice and its kind, or the line and the kind of the first fault.
const TEXTS: &str = "\
; 1 0..1 Number; 1 1..3 Mark; 1 3..4 Name; 2 5..7 Mark; 2 7..13 Number; 2 13..15 Name; 2 16..18 Number; 2 18..19 Name; 2 20..22 Mark; 2 22..24 Number @ 2<=x|->1.5e+2e9 .5y =>3.
; 1 0..3 Word; 2 8..18 Word; 3 19..21 Name; 3 22..23 Mark; 3 24..25 Name; 3 26..28 Name; 4 29..36 Name; 4 37..39 Name; 4 39..40 Mark; 5 41..44 Word @ max\\ c| such\t that|st : x st|Subject To:|End x
 @  \\ no \0 token
; 1 0..3 Word @ end|\0
3 BadByte @ max| x|\0
2 BadByte @ x| .e3
; 1 0..255 Name @ 255 @  @ x @ 
1 LongName @ 256 @  @ x @ 
";

/// A token in short.
fn token_line(alloc: Global, token: &Tok) -> Result<String, AllocError> {
    let kind = token.kind;
    format!(in alloc; "; {} {}..{} {kind:?}", token.line, token.from, token.to)
}

/// The tokens in short, or the line and the kind of the first fault.
pub fn answer(alloc: Global, text: &[u8]) -> Result<String, AllocError> {
    if text.len() > 1000 {
        return String::from_str(alloc, "not tried");
    }
    let found = match tokens(alloc, text) {
        Ok(found) => found,
        Err(LpFault::At { line, kind }) => return format!(in alloc; "{line} {kind:?}"),
        Err(LpFault::NoMemory) => return Err(AllocError),
    };
    let mut all = String::new(alloc);
    for token in found.as_slice() {
        add(&mut all, token_line(alloc, token))?;
    }
    Ok(all)
}

#[test]
fn each_text_has_its_tokens_or_its_first_fault(rt: HostRuntime) -> Result<(), Fail> {
    check(&rt, told(rt.alloc(), Reading::Tokens, TEXTS), "8 texts")
}

/// Words with their sections.
const WORDS: [(&str, Option<Section>); 3] = [
    ("LAZY \t CONSTRAINTS", Some(Section::Unsupported)),
    ("s.T.", Some(Section::Rows)),
    ("generalss", None),
];

// Whether the words have these sections.
fn have_sections() -> bool {
    for (word, want) in WORDS {
        if section_of(word.as_bytes()) != want {
            return false;
        }
    }
    true
}

#[test]
fn words_are_of_their_sections_in_any_case_of_letters(rt: HostRuntime) {
    assert!(rt; have_sections());
}

// Whether a word within a text is of its section.
fn has_section() -> bool {
    let word = Tok {
        line: 2,
        from: 1,
        to: 4,
        kind: TokKind::Word,
    };
    section_at(b"\nBINx", &word) == Some(Section::Binaries)
}

#[test]
fn a_word_is_of_its_section_within_a_text(rt: HostRuntime) {
    assert!(rt; has_section());
}
