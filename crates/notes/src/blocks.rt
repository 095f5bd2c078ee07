// Decompositions and lists of rows, read for the place of their first fault.
use crate::number::number_in;
use crate::reading::{BLANKS, NO_MEMORY, Reading};
use std::alloc::{AllocError, Global};
use std::collections::BTreeSet;

// The bytes that end a comment, and a word.
const LINE_ENDS: &[u8] = b"\n";

const WORD_ENDS: &[u8] = b" \t\r\n\\";

// A keyword.
#[derive(Clone, Copy)]
enum Keyword {
    Presolved,
    Nblocks,
    Default,
    Block,
    Master,
    BlockVars,
    MasterVars,
    Links,
}

const KEYWORDS: [(&str, Keyword); 9] = [
    ("presolved", Keyword::Presolved),
    ("nblocks", Keyword::Nblocks),
    ("consdefaultmaster", Keyword::Default),
    ("block", Keyword::Block),
    ("blockconss", Keyword::Block),
    ("masterconss", Keyword::Master),
    ("blockvars", Keyword::BlockVars),
    ("mastervars", Keyword::MasterVars),
    ("linkingvars", Keyword::Links),
];

// What stands before a word.
#[derive(Clone, Copy)]
enum Part {
    Outside,
    Awaits(Keyword),
    Rows,
    Variables,
    Closed,
}

/// A word of a text: the slice `from..to`.
#[derive(Clone, Copy)]
pub struct Word {
    /// Where its first byte stands, from 0.
    pub from: usize,
    /// One place behind its last byte.
    pub to: usize,
}

/// A fault: the key of its sentence, its word, and what is expected there.
#[derive(Clone, Copy)]
pub struct Wrong {
    /// The kind of the fault, as a line of `DEC` or `ROWS` in `kinds.rt` begins.
    pub key: &'static str,
    /// The word at fault, the first in the text.
    pub word: Word,
    /// What may stand in the word's place; of use at the key `syntax` alone.
    pub expected: &'static str,
}

// What is kept of the words before a place: whether the text is a list of rows, the greatest number of blocks, whether the
// next word is the first of its line and may be a keyword, how many bytes are passed over, and what was said before.
#[derive(Drop)]
struct Reader {
    // What the names of listed rows are stored by.
    alloc: Global,
    // Whether the text is a list of rows; else it is a decomposition.
    list: bool,
    // The greatest number behind NBLOCKS, by the limits of the model.
    most_blocks: u64,
    // Whether the next word is the first of its line, and may be a keyword; never so in a list of rows.
    fresh: bool,
    // How many of the next bytes belong to the word or comment at hand, and are passed over.
    skip: usize,
    // What the next word is, unless it is a keyword.
    part: Part,
    // Whether PRESOLVED came, which comes at most once.
    presolved: bool,
    // Whether NBLOCKS came, which comes at most once, and before blocks are named.
    counted: bool,
    // Whether CONSDEFAULTMASTER came, which comes at most once.
    defaulted: bool,
    // The number behind NBLOCKS, 0 before.
    blocks: u64,
    // The names of the rows that were listed, each at most once.
    listed: BTreeSet<Vec<u8>>,
}

/// The first fault of a decomposition that has a word, or of a list of rows, beside a model.
pub fn first_wrong(
    alloc: Global,
    text: &[u8],
    model: &Reading,
    list: bool,
) -> Result<Option<Wrong>, AllocError> {
    let mut reader = Reader {
        alloc,
        list,
        most_blocks: u64::from(model.limits().blocks()),
        fresh: !list,
        skip: 0,
        part: if list { Part::Rows } else { Part::Outside },
        presolved: false,
        counted: false,
        defaulted: false,
        blocks: 0,
        listed: BTreeSet::new(alloc),
    };
    match reader.read_all(text, model) {
        Some(wrong) if wrong.key == NO_MEMORY => Err(AllocError),
        wrong => Ok(wrong),
    }
}

// How many bytes stand before one of these ends.
fn len_before(bytes: &[u8], ends: &[u8]) -> usize {
    for at in 0..bytes.len() {
        if ends.contains(&bytes[at]) {
            return at;
        }
    }
    bytes.len()
}

// Whether all bytes are printable.
fn is_printable(bytes: &[u8]) -> bool {
    for b in bytes {
        if !b.is_ascii_graphic() {
            return false;
        }
    }
    true
}

// The keyword that a word is.
fn keyword_of(word: &[u8]) -> Option<Keyword> {
    for (name, keyword) in KEYWORDS.as_slice() {
        if word.eq_ignore_ascii_case(name.as_bytes()) {
            return Some(*keyword);
        }
    }
    None
}

// What is expected in the place of a word that can't stand there.
fn expected(part: Part) -> &'static str {
    match part {
        Part::Outside => "a text begins with a keyword, as NBLOCKS 2, first in its line",
        Part::Awaits(Keyword::Presolved | Keyword::Default) => "0 or 1 stands behind this keyword",
        Part::Awaits(_) => "a number stands behind this keyword",
        Part::Closed => "this keyword has one number behind it",
        _ => "a keyword of this kind comes once",
    }
}

impl Reader {
    // Reads all words, up to the first fault.
    fn read_all(&mut self, text: &[u8], model: &Reading) -> Option<Wrong> {
        for at in 0..text.len() {
            if self.skip > 0 {
                self.skip -= 1;
            } else if let Some(wrong) = self.pass(text, model, at) {
                return Some(wrong);
            }
        }
        None
    }

    // Passes what begins at a place: the end of a line, a comment, white space, or a word; what is wrong with that.
    fn pass(&mut self, text: &[u8], model: &Reading, at: usize) -> Option<Wrong> {
        let rest = text.get(at..)?;
        let first = rest.first()?;
        if *first == b'\n' {
            self.fresh = !self.list;
            return None;
        }
        if *first == b'\\' {
            self.skip = len_before(rest, LINE_ENDS).saturating_sub(1);
            return None;
        }
        if BLANKS.contains(first) {
            return None;
        }
        self.take_at(rest, model, at)
    }

    // Takes the word that bytes begin with, which stand at a place of the text; what is wrong with it.
    fn take_at(&mut self, bytes: &[u8], model: &Reading, from: usize) -> Option<Wrong> {
        let count = len_before(bytes, WORD_ENDS);
        self.skip = count.saturating_sub(1);
        match self.take(bytes.get(..count)?, model) {
            Some(key) => Some(Wrong {
                key,
                word: Word {
                    from,
                    to: from.saturating_add(count),
                },
                expected: expected(self.part),
            }),
            None => None,
        }
    }

    // Takes a word; the key of its fault, where it is at fault.
    fn take(&mut self, word: &[u8], model: &Reading) -> Option<&'static str> {
        if !is_printable(word) {
            return Some("bad-byte");
        }
        let keyword = if self.fresh { keyword_of(word) } else { None };
        self.fresh = false;
        match keyword {
            Some(keyword) => self.keyword(keyword),
            None => self.take_plain(word, model),
        }
    }

    // Takes a word that is no keyword.
    fn take_plain(&mut self, word: &[u8], model: &Reading) -> Option<&'static str> {
        match self.part {
            Part::Outside | Part::Closed => Some("syntax"),
            Part::Awaits(keyword) => self.number(keyword, number_in(word)),
            Part::Rows => self.row(word, model),
            Part::Variables => (!model.has_variable(word)).then_some("unknown-var"),
        }
    }

    // Takes a keyword.
    fn keyword(&mut self, keyword: Keyword) -> Option<&'static str> {
        if matches!(self.part, Part::Awaits(_)) || self.was_said(keyword) {
            return Some("syntax");
        }
        match keyword {
            Keyword::Presolved => self.presolved = true,
            Keyword::Nblocks => self.counted = true,
            Keyword::Default => self.defaulted = true,
            Keyword::Block | Keyword::BlockVars if !self.counted => return Some("no-nblocks"),
            _ => {}
        }
        self.part = match keyword {
            Keyword::Master => Part::Rows,
            Keyword::MasterVars | Keyword::Links => Part::Variables,
            _ => Part::Awaits(keyword),
        };
        None
    }

    // Whether a keyword that comes once came before.
    fn was_said(&self, keyword: Keyword) -> bool {
        match keyword {
            Keyword::Presolved => self.presolved,
            Keyword::Nblocks => self.counted,
            Keyword::Default => self.defaulted,
            _ => false,
        }
    }

    // Takes the number behind a keyword.
    fn number(&mut self, keyword: Keyword, number: Option<u64>) -> Option<&'static str> {
        let Some(number) = number else {
            return Some("syntax");
        };
        if let Some(key) = self.number_fault(keyword, number) {
            return Some(key);
        }
        match keyword {
            Keyword::Nblocks => self.blocks = number,
            _ => {}
        }
        self.part = match keyword {
            Keyword::Block => Part::Rows,
            Keyword::BlockVars => Part::Variables,
            _ => Part::Closed,
        };
        None
    }

    // The key of the fault of a number behind a keyword.
    fn number_fault(&self, keyword: Keyword, number: u64) -> Option<&'static str> {
        let (least, most, key): (u64, u64, &'static str) = match keyword {
            Keyword::Presolved => (0, 0, if number == 1 { "presolved" } else { "syntax" }),
            Keyword::Default => (0, 1, "syntax"),
            Keyword::Nblocks => (0, self.most_blocks, "limit"),
            _ => (1, self.blocks, "block-number"),
        };
        (number < least || most < number).then_some(key)
    }

    // Takes the name of a row.
    fn row(&mut self, name: &[u8], model: &Reading) -> Option<&'static str> {
        if !model.has_row(name) {
            return Some("unknown-row");
        }
        if self.listed.contains(name) {
            return Some("row-twice");
        }
        match self.list(name) {
            Ok(()) => None,
            Err(AllocError) => Some(NO_MEMORY),
        }
    }

    // Lists a row.
    fn list(&mut self, name: &[u8]) -> Result<(), AllocError> {
        let name = name.to_vec(self.alloc)?;
        self.listed.insert(name)?;
        Ok(())
    }
}
