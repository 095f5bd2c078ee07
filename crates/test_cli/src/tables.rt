// Tables of lines, and which are otherwise than written.
use crate::{lines, note_lines};
use std::alloc::{AllocError, Global};
use std::fmt::Write;
use std::process::Abort;
use std::test::Fail;

/// What the lines of a table have.
#[derive(Clone, Copy)]
pub enum Table {
    /// Orders, and the words that give them.
    Lines,
    /// Runs and the notes on them.
    Notes,
}

/// Fails where an answer is not the wanted one.
pub fn check(rt: &impl Abort, answer: Result<String, AllocError>, want: &str) -> Result<(), Fail> {
    match answer {
        Ok(found) => {
            assert_eq!(rt; found.as_str(), want);
            Ok(())
        }
        Err(_) => Err(Fail::new("want of memory")),
    }
}

// Adds a line that is otherwise than written. Tells whether it is none of the headings.
fn add_wrong(
    alloc: Global,
    all: &mut String,
    table: Table,
    line: &str,
) -> Result<bool, AllocError> {
    match table {
        Table::Lines => lines::add_wrong(alloc, all, line),
        Table::Notes => note_lines::add_wrong(alloc, all, line),
    }
}

/// The lines of a table that are otherwise than written, with what is found, and how many lines it has but for headings.
pub fn told(alloc: Global, table: Table, text: &str) -> Result<String, AllocError> {
    let mut all = String::new(alloc);
    let mut count = 0u32;
    for line in text.lines() {
        if add_wrong(alloc, &mut all, table, line)? {
            count = count.saturating_add(1);
        }
    }
    write!(all, "{count} lines")?;
    Ok(all)
}
