// What the calls answered, line by line.
use std::alloc::{AllocError, Global};
use std::string::String;

/// Lines of text, in the order in which they came. Where memory is short for a part it is left out, and the lines are none
/// at their end.
#[derive(Drop)]
pub struct Told {
    // What the digits of numbers are written by.
    alloc: Global,
    // The lines so far, each with its line feed.
    bytes: Vec<u8>,
    // Whether memory was short for a part.
    is_short: bool,
}

impl Told {
    /// No lines yet.
    pub fn new(alloc: Global) -> Told {
        Told {
            alloc,
            bytes: Vec::new(alloc),
            is_short: false,
        }
    }

    /// One line more, or the rest of the line that was begun.
    pub fn line(&mut self, line: &str) {
        self.text(line);
        self.text("\n");
    }

    /// A part of a line.
    pub fn text(&mut self, text: &str) {
        if self.bytes.extend_from_slice(text.as_bytes()).is_err() {
            self.is_short = true;
        }
    }

    /// A part of a line and a number behind it.
    pub fn number(&mut self, words: &str, number: i128) {
        self.text(words);
        match format!(in self.alloc; "{number}") {
            Ok(digits) => self.text(digits.as_str()),
            Err(_) => self.is_short = true,
        }
    }

    /// The numbers of a point in a line, each behind a space.
    pub fn point(&mut self, point: &[i64]) {
        for number in point {
            self.number(" ", i128::from(*number));
        }
    }

    /// The lines, each with its line feed.
    ///
    /// # Errors
    /// Where memory was short for one of them.
    pub fn into_bytes(self) -> Result<Vec<u8>, AllocError> {
        if self.is_short {
            return Err(AllocError);
        }
        Ok(self.bytes)
    }
}
