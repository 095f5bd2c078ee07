// Texts of files, read again for a note. No file is changed.
ghost use Rattle.std.specs.Prelude.{◌≡◌, ◌<◌, ◌≤◌, length, vec_len, IfOk, IfSome};

use bp_shelf::Shelf;
use std::alloc::{AllocError, Global};

// How many bytes a read asks for.
const BUFFER: usize = 65536;

/// The text of a file, where it can be read and has at most so many bytes.
pub fn text_of<F: Shelf>(
    alloc: Global,
    shelf: &mut F,
    name: &str,
    most: usize,
) -> Result<Option<Vec<u8>>, AllocError>
    ensures files { F.file shelf.new ≡ F.file shelf.old }
    ensures told { F.tells shelf.new ≡ F.tells shelf.old }
    ensures writes { F.write_faults shelf.new ≡ F.write_faults shelf.old }
{
    let mut buffer = zeros(alloc, BUFFER)?;
    let mut text = Vec::new(alloc);
    let is_whole = read_whole(shelf, name, most, &mut buffer, &mut text)?;
    Ok(is_whole.then_some(text))
}

// Reads a file to its end: whether it could be read and has at most so many bytes.
fn read_whole<F: Shelf>(
    shelf: &mut F,
    name: &str,
    most: usize,
    buffer: &mut [u8],
    text: &mut Vec<u8>,
) -> Result<bool, AllocError>
    requires { 0 < length buffer.old }
    ensures files { F.file shelf.new ≡ F.file shelf.old }
    ensures told { F.tells shelf.new ≡ F.tells shelf.old }
    ensures writes { F.write_faults shelf.new ≡ F.write_faults shelf.old }
{
    'reads: for _ in 0..u64::MAX {
        let Some(count) = read_on(shelf, name, text.len() as u64, buffer) else {
            return Ok(false);
        };
        if count == 0 {
            return Ok(true);
        }
        if count > most.saturating_sub(text.len()) {
            return Ok(false);
        }
        text.extend_from_slice(&buffer[..count])?;
    }
    Ok(false)
}

/// The first bytes of a line of a file, at most so many, where the file can be read and has such a line that isn't empty. It is
/// looked for a buffer at a time, however long the file is.
pub fn line_of<F: Shelf>(
    alloc: Global,
    shelf: &mut F,
    name: &str,
    number: u64,
    most: usize,
) -> Result<Option<Vec<u8>>, AllocError>
    ensures files { F.file shelf.new ≡ F.file shelf.old }
    ensures told { F.tells shelf.new ≡ F.tells shelf.old }
    ensures writes { F.write_faults shelf.new ≡ F.write_faults shelf.old }
{
    let mut buffer = zeros(alloc, BUFFER)?;
    let mut line = Line {
        number,
        most,
        here: 1,
        front: Vec::new(alloc),
    };
    let is_found = find_line(shelf, name, &mut buffer, &mut line)?;
    Ok((is_found && line.front.len() > 0).then_some(line.front))
}

// Reads a file until what is looked for of a line is known: whether it could be read so far.
fn find_line<F: Shelf>(
    shelf: &mut F,
    name: &str,
    buffer: &mut [u8],
    line: &mut Line,
) -> Result<bool, AllocError>
    requires { 0 < length buffer.old }
    ensures files { F.file shelf.new ≡ F.file shelf.old }
    ensures told { F.tells shelf.new ≡ F.tells shelf.old }
    ensures writes { F.write_faults shelf.new ≡ F.write_faults shelf.old }
{
    let mut at = 0u64;
    'reads: for _ in 0..u64::MAX {
        let Some(count) = read_on(shelf, name, at, buffer) else {
            return Ok(false);
        };
        if count == 0 || line.take(&buffer[..count])? {
            return Ok(true);
        }
        at = at.saturating_add(count as u64);
    }
    Ok(false)
}

// So many bytes 0: apart from its callers, so that no proof goes over them one by one.
fn zeros(alloc: Global, count: usize) -> Result<Vec<u8>, AllocError>
    ensures { IfOk result (λ bytes. vec_len bytes ≡ count) }
{
    Vec::from_elem(alloc, 0u8, count)
}

// Reads a file from a place on; how many bytes there are, none at its end, or nothing where it can't be read.
fn read_on<F: Shelf>(shelf: &mut F, name: &str, at: u64, into: &mut [u8]) -> Option<usize>
    requires { 0 < length into.old }
    ensures count { IfSome result (λ count. count ≤ length into.old) }
    ensures files { F.file shelf.new ≡ F.file shelf.old }
    ensures told { F.tells shelf.new ≡ F.tells shelf.old }
    ensures writes { F.write_faults shelf.new ≡ F.write_faults shelf.old }
{
    shelf.read_at(name, at, into).ok()
}

// A line that is looked for in a text that comes in pieces: its number, the most bytes of it that are kept, the number of
// the line that the next byte stands on, and what is found of it.
#[derive(Drop)]
struct Line {
    // The number of the line, from 1.
    number: u64,
    // The most of its bytes that are kept.
    most: usize,
    // The number of the line that the next byte stands on, from 1; past `number` the line is whole.
    here: u64,
    // Its first bytes so far, without the line feed.
    front: Vec<u8>,
}

impl Line {
    // Takes a piece; whether what is looked for is known behind it.
    fn take(&mut self, piece: &[u8]) -> Result<bool, AllocError> {
        for b in piece {
            if *b == b'\n' {
                self.here = self.here.saturating_add(1);
            } else if self.here == self.number {
                self.front.push(*b)?;
            }
            if self.here > self.number || self.front.len() >= self.most {
                return Ok(true);
            }
        }
        Ok(false)
    }
}
