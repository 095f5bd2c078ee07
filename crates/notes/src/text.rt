// Notes and pieces of them.
use bp_theory::Limits;
use itoa::Buffer;
use std::alloc::{AllocError, Global};

/// The most bytes of a text that are quoted.
pub const MOST_QUOTED: usize = 60;

const DIGITS: [u8; 16] = *b"0123456789abcdef";

/// A note that is being written. Where memory is wanting for a piece, the note goes on without it, and fails at its end.
#[derive(Drop)]
pub struct Note {
    // What is written so far.
    text: Vec<u8>,
    // Whether memory was wanting for a piece.
    lacks: bool,
}

impl Note {
    /// A note without a word.
    pub fn new(alloc: Global) -> Note {
        Note {
            text: Vec::new(alloc),
            lacks: false,
        }
    }

    /// The whole note.
    pub fn finished(self) -> Result<Vec<u8>, AllocError> {
        if self.lacks {
            return Err(AllocError);
        }
        Ok(self.text)
    }

    /// What is known where memory served; else nothing, and the note fails.
    pub fn known<T: Drop>(&mut self, answer: Result<Option<T>, AllocError>) -> Option<T> {
        match answer {
            Ok(known) => known,
            Err(AllocError) => {
                self.lacks = true;
                None
            }
        }
    }

    /// How many bytes there are so far.
    pub fn len(&self) -> usize {
        self.text.len()
    }

    /// Adds bytes as they are.
    pub fn put_bytes(&mut self, bytes: &[u8]) {
        if self.text.extend_from_slice(bytes).is_err() {
            self.lacks = true;
        }
    }

    /// Adds words.
    pub fn put(&mut self, words: &str) {
        self.put_bytes(words.as_bytes());
    }

    /// Adds a number.
    pub fn put_number(&mut self, number: u64) {
        self.put_bytes(Buffer::new().format(number).as_bytes());
    }

    /// Adds the name of a file; its control characters are question marks, and two quotes stand for an empty name.
    pub fn put_name(&mut self, name: &str) {
        if name.len() == 0 {
            self.put("''");
        }
        for b in name.as_bytes() {
            self.put_bytes(&[if b.is_ascii_control() { b'?' } else { *b }]);
        }
    }

    /// Adds bytes of a text between quotes: the first 60, and dots for the others. Those that aren't printable are told by
    /// their numbers.
    pub fn put_quoted(&mut self, bytes: &[u8]) {
        let count = bytes.len().min(MOST_QUOTED);
        self.put("'");
        for b in &bytes[..count] {
            self.put_byte(*b);
        }
        self.put(if count < bytes.len() { "..'" } else { "'" });
    }

    // Adds a byte, or its number where it isn't printable.
    fn put_byte(&mut self, b: u8) {
        if b.is_ascii_graphic() || b == b' ' {
            self.put_bytes(&[b]);
        } else {
            self.put_bytes(&[
                b'\\',
                b'x',
                DIGITS[(b / 16) as usize],
                DIGITS[(b % 16) as usize],
            ]);
        }
    }

    /// Adds a sentence, in which `%` stands for a token; where none is known, the `%` is left out with the space behind it.
    pub fn put_sentence(&mut self, sentence: &str, token: Option<&[u8]>) {
        match sentence.split_once("% ") {
            Some((before, behind)) => {
                self.put(before);
                if let Some(token) = token {
                    self.put_quoted(token);
                    self.put(" ");
                }
                self.put(behind);
            }
            None => self.put(sentence),
        }
    }
}

/// Sentences, each of a kind: lines of a kind, ` @ ` and its sentence; and those that are others under the large limits.
#[derive(Clone, Copy)]
pub struct Sentences {
    /// One sentence for each kind; `%` in it stands for the token at fault.
    pub usual: &'static str,
    /// Only the kinds whose sentence differs under the large limits; for all others that of `usual` holds.
    pub large: &'static str,
}

impl Sentences {
    /// The sentence of a kind under these limits.
    pub fn of(&self, kind: &str, limits: Limits) -> Option<&'static str> {
        match limits {
            Limits::Usual => sentence_of(self.usual, kind),
            Limits::Large => sentence_of(self.large, kind).or_else(|| sentence_of(
                self.usual, kind,
            )),
        }
    }
}

/// The sentence of a kind in a table: lines of a kind, ` @ ` and its sentence.
pub fn sentence_of(table: &'static str, kind: &str) -> Option<&'static str> {
    for line in table.lines() {
        if let Some((name, sentence)) = line.split_once(" @ ") {
            if name == kind {
                return Some(sentence);
            }
        }
    }
    None
}

/// The word of a line with this number, from 0; an empty one where there are fewer.
pub fn word_at(line: &str, number: usize) -> &str {
    let mut at = 0usize;
    for word in line.split(' ') {
        if at == number {
            return word;
        }
        at = at.saturating_add(1);
    }
    ""
}
