// What of a text is printed.
use std::alloc::{AllocError, Global};

/// The part of a text that is printed.
#[derive(Clone, Copy)]
pub enum View {
    /// All of it.
    Whole,
    /// Its first line.
    First,
    /// The first word of each line.
    Heads,
    /// The first word of the last line.
    Last,
}

/// What a view shows of a text.
pub fn seen(alloc: Global, text: &[u8], view: View) -> Result<Vec<u8>, AllocError> {
    match view {
        View::Whole => text.to_vec(alloc),
        View::First => first_of(alloc, text),
        View::Heads => heads_of(alloc, text),
        View::Last => last_of(alloc, text),
    }
}

// The first line, with its line feed.
fn first_of(alloc: Global, text: &[u8]) -> Result<Vec<u8>, AllocError> {
    let mut line = Vec::new(alloc);
    for byte in text {
        line.push(*byte)?;
        if *byte == b'\n' {
            return Ok(line);
        }
    }
    Ok(line)
}

// The bytes before the first space of each line, and the line feeds.
fn heads_of(alloc: Global, text: &[u8]) -> Result<Vec<u8>, AllocError> {
    let mut heads = Vec::new(alloc);
    let mut in_head = true;
    for byte in text {
        if *byte == b'\n' {
            in_head = true;
        } else if *byte == b' ' {
            in_head = false;
        }
        if in_head {
            heads.push(*byte)?;
        }
    }
    Ok(heads)
}

// The first word of the last line, and a line feed.
fn last_of(alloc: Global, text: &[u8]) -> Result<Vec<u8>, AllocError> {
    let mut head = Vec::new(alloc);
    let mut in_head = true;
    let mut has_ended = false;
    for byte in text {
        if has_ended {
            head.clear();
            in_head = true;
            has_ended = false;
        }
        match *byte {
            b'\n' => has_ended = true,
            b' ' => in_head = false,
            _ if in_head => head.push(*byte)?,
            _ => {}
        }
    }
    head.push(b'\n')?;
    Ok(head)
}
