// A file as a script writes it, line by line.
use std::alloc::{AllocError, Global};

// How many spaces are added at once.
const BLOCK: u32 = 4096;

/// A file whose lines are being read.
#[derive(Drop)]
pub struct Draft {
    // What repeated lines are made by.
    alloc: Global,
    /// The name of the file.
    pub name: String,
    /// Its lines so far, each with its line feed.
    pub bytes: Vec<u8>,
    /// Whether the last line ends with a line feed.
    pub is_ended: bool,
}

impl Draft {
    /// A file of this name without lines so far.
    pub fn begin(alloc: Global, name: &str, is_ended: bool) -> Result<Draft, AllocError> {
        Ok(Draft {
            alloc,
            name: String::from_str(alloc, name)?,
            bytes: Vec::new(alloc),
            is_ended,
        })
    }

    /// Adds what a line of the script stands for:
    ///
    /// - `@repeat A B TEXT`: for each number from A to B a line of this text, in which the number stands for each `#`;
    /// - `@pairs A B ONE | TWO`: the same with two lines, of the one text and of the other;
    /// - `@spaces N`: a line of so many spaces;
    /// - every other line: itself.
    pub fn add(&mut self, line: &str) -> Result<(), AllocError> {
        if let Some((first, last, text)) = repeated(line, "@repeat ") {
            return self.add_numbered(first, last, &[text]);
        }
        if let Some((first, last, text)) = repeated(line, "@pairs ") {
            let (one, two) = text.split_once(" | ").unwrap_or((text, ""));
            return self.add_numbered(first, last, &[one, two]);
        }
        if let Some(count) = spaces(line) {
            return self.add_spaces(count);
        }
        self.add_line(line)
    }

    /// Takes off the last line feed, where the file is to end without.
    pub fn end(&mut self) {
        if !self.is_ended {
            let _ = self.bytes.pop();
        }
    }

    fn add_line(&mut self, line: &str) -> Result<(), AllocError> {
        self.bytes.extend_from_slice(line.as_bytes())?;
        self.bytes.push(b'\n')?;
        Ok(())
    }

    fn add_numbered(&mut self, first: u32, last: u32, texts: &[&str]) -> Result<(), AllocError> {
        for number in first..=last {
            let digits = format!(in self.alloc; "{number}")?;
            for text in texts {
                let line = text.replace(self.alloc, '#', digits.as_str())?;
                self.add_line(line.as_str())?;
            }
        }
        Ok(())
    }

    fn add_spaces(&mut self, count: u32) -> Result<(), AllocError> {
        let block = [b' '; BLOCK as usize];
        for _ in 0..count / BLOCK {
            self.bytes.extend_from_slice(&block)?;
        }
        let rest = (count % BLOCK) as usize;
        self.bytes.extend_from_slice(&block[..rest])?;
        self.bytes.push(b'\n')?;
        Ok(())
    }
}

// The two numbers and the text of a line that is to be repeated, behind this word.
fn repeated<'a>(line: &'a str, word: &str) -> Option<(u32, u32, &'a str)> {
    let rest = line.strip_prefix(word)?;
    let (first, rest) = rest.split_once(' ')?;
    let (last, text) = rest.split_once(' ')?;
    Some((first.parse().ok()?, last.parse().ok()?, text))
}

// How many spaces a line asks for.
fn spaces(line: &str) -> Option<u32> {
    line.strip_prefix("@spaces ")?.parse().ok()
}
