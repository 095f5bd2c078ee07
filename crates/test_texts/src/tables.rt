// Tables of texts, and what is read otherwise than a table says.
use crate::certificates::{Shape, said};
use crate::{cuts, decompositions, guesses, lp_texts, row_lists, tokens};
use bp_theory::Limits;
use std::alloc::{AllocError, Global};
use std::process::Abort;
use std::test::Fail;

/// What the texts of a table are read as.
#[derive(Clone, Copy)]
pub enum Reading {
    /// A model in short.
    Model,
    /// The size of a model under limits.
    Size(Limits),
    /// A decomposition in short.
    Decomposition,
    /// The blocks that a list of master rows leaves.
    RowList,
    /// The decomposition that is chosen for a model, in short.
    Guess,
    /// Tokens.
    Tokens,
    /// A certificate of a program of this shape.
    Certificate(Shape),
    /// The cuts of a certificate.
    Cuts,
}

/// What a text is read as, or the line and the kind of its first fault.
pub fn answer(alloc: Global, reading: Reading, text: &[u8]) -> Result<String, AllocError> {
    match reading {
        Reading::Model => lp_texts::answer(alloc, text),
        Reading::Size(limits) => lp_texts::counted(alloc, limits, text),
        Reading::Decomposition => decompositions::answer(alloc, text),
        Reading::RowList => row_lists::answer(alloc, text),
        Reading::Guess => guesses::answer(alloc, text),
        Reading::Tokens => tokens::answer(alloc, text),
        Reading::Certificate(shape) => said(alloc, shape, text),
        Reading::Cuts => cuts::answer(alloc, text),
    }
}

// A front of a text, a piece so many times, and what is behind.
#[derive(Clone, Copy)]
struct Part<'a> {
    // How often the piece stands there.
    count: u32,
    // What comes first; a bar in it is a line feed, and a `#` is 0.
    front: &'a str,
    // What is repeated; a bar in it is a line feed, and a `#` the number of the turn, from 1.
    piece: &'a str,
    // The rest of the line, which may begin with a further part.
    back: &'a str,
}

// The part that a line begins with: the count, the front, the piece and what is behind, with ` @ ` between them.
fn part_of(line: &str) -> Option<Part<'_>> {
    let (count, rest) = line.split_once(" @ ")?;
    let (front, rest) = rest.split_once(" @ ")?;
    let (piece, back) = rest.split_once(" @ ")?;
    let count = count.parse::<u32>().ok()?;
    Some(Part {
        count,
        front,
        piece,
        back,
    })
}

// Adds the digits of a number.
fn add_number(alloc: Global, text: &mut Vec<u8>, number: u32) -> Result<(), AllocError> {
    text.extend_from_slice(format!(in alloc; "{number}")?.as_bytes())
}

// Adds a byte, a line feed for a bar, or a number for a `#`.
fn add_byte(alloc: Global, text: &mut Vec<u8>, byte: u8, number: u32) -> Result<(), AllocError> {
    if byte == b'#' {
        return add_number(alloc, text, number);
    }
    text.push(if byte == b'|' { b'\n' } else { byte })?;
    Ok(())
}

// Adds some bytes, with a line feed for each bar and a number for each `#`.
fn add_bytes(
    alloc: Global,
    text: &mut Vec<u8>,
    bytes: &[u8],
    number: u32,
) -> Result<(), AllocError> {
    for byte in bytes {
        add_byte(alloc, text, *byte, number)?;
    }
    Ok(())
}

// Adds the first byte of a piece so many times: the longest texts have many of one.
fn add_same(alloc: Global, text: &mut Vec<u8>, piece: &str, count: u32) -> Result<(), AllocError> {
    let byte = match piece.as_bytes().first() {
        Some(byte) => *byte,
        None => return Ok(()),
    };
    text.extend_from_slice(Vec::from_elem(alloc, byte, count as usize)?.as_slice())
}

// Adds the front of a part, and its piece so many times with the number for each `#`.
fn add_part(alloc: Global, text: &mut Vec<u8>, part: &Part<'_>) -> Result<(), AllocError> {
    add_bytes(alloc, text, part.front.as_bytes(), 0)?;
    if part.piece == " " || part.piece == "x" {
        return add_same(alloc, text, part.piece, part.count);
    }
    for number in 1..=part.count {
        add_bytes(alloc, text, part.piece.as_bytes(), number)?;
    }
    Ok(())
}

// Adds at most two parts and a rest.
fn add_parts(alloc: Global, text: &mut Vec<u8>, line: &str) -> Result<(), AllocError> {
    let mut rest = line;
    for _ in 0..2 {
        if let Some(part) = part_of(rest) {
            add_part(alloc, text, &part)?;
            rest = part.back;
        }
    }
    add_bytes(alloc, text, rest.as_bytes(), 0)
}

// What the text of a line is read as.
fn answer_to(alloc: Global, reading: Reading, line: &str) -> Result<String, AllocError> {
    let mut text = Vec::new(alloc);
    add_parts(alloc, &mut text, line)?;
    answer(alloc, reading, text.as_slice())
}

/// Whether an answer is the wanted one.
pub fn is_wanted(answer: Result<String, AllocError>, want: &str) -> bool {
    match answer {
        Ok(text) => text.as_str() == want,
        Err(_) => false,
    }
}

/// Fails where an answer is not the wanted one.
pub fn check(rt: &impl Abort, answer: Result<String, AllocError>, want: &str) -> Result<(), Fail> {
    assert_eq!(rt; answer?.as_str(), want);
    Ok(())
}

/// Fails where there are any.
pub fn check_none(rt: &impl Abort, many: Result<u32, AllocError>) -> Result<(), Fail> {
    assert_eq!(rt; many?, 0);
    Ok(())
}

/// Adds a piece.
pub fn add(text: &mut String, piece: Result<String, AllocError>) -> Result<(), AllocError> {
    text.push_str(piece?.as_str())
}

// Adds the line of a text with another answer than its own, and that answer. Tells whether the line has a text.
fn add_wrong(
    alloc: Global,
    all: &mut String,
    reading: Reading,
    line: &str,
) -> Result<bool, AllocError> {
    let Some((want, text)) = line.split_once(" @ ") else {
        return Ok(false);
    };
    let found = answer_to(alloc, reading, text)?;
    if found.as_str() != want {
        add(all, format!(in alloc; "{found} at {line}\n"))?;
    }
    Ok(true)
}

/// The texts of a table that are read otherwise than it says, with how, and how many texts it has. Its lines are an answer
/// and a text, with ` @ ` between them and `|` for each line feed of the text, and a piece of the text may be said to come
/// many times: the answer, how many times, the front, the piece with `#` for the number of each, and the back. Other lines
/// are headings.
pub fn told(alloc: Global, reading: Reading, table: &str) -> Result<String, AllocError> {
    let mut all = String::new(alloc);
    let mut count = 0u32;
    for line in table.lines() {
        if add_wrong(alloc, &mut all, reading, line)? {
            count = count.saturating_add(1);
        }
    }
    add(&mut all, format!(in alloc; "{count} texts"))?;
    Ok(all)
}

/// Bytes past ASCII in comments and a bar in a name, with what they are read as.
const BYTES: [(Reading, &[u8], &str); 3] = [
    (
        Reading::Model,
        b"min \\ \xff\xc3 \x00\nst\nend\n\xff",
        "min",
    ),
    (
        Reading::Model,
        b"min\n#|\nst\nbin\n#|\nend\n",
        "min 1 #|; #| 0..1",
    ),
    (
        Reading::Decomposition,
        b"NBLOCKS 1 \\ \xff\x00\n",
        "1 blocks; - - - - -;",
    ),
];

#[test]
fn bytes_past_ascii_stand_in_comments_alone_and_a_bar_in_names(
    rt: HostRuntime,
) -> Result<(), Fail> {
    for (reading, text, want) in BYTES {
        check(&rt, answer(rt.alloc(), reading, text), want)?;
    }
    Ok(())
}
