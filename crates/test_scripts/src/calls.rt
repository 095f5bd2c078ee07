// Calls of the libraries over worked texts, and what they answer: classes of blocks, bounds of proofs, a pool that fills
// up, a spread of weights, the leaves of a tree that come next, a search and a crew. What each must answer is found by hand.
mod bounds;
mod classes;
mod leaves;
mod pools;
mod reading;
mod searches;
mod spreads;
mod told;
mod zones;

use block_program::Blocked;
use reading::blocks_of;
use std::alloc::{AllocError, Global};
use std::rt::Files;
use std::{fs, io};
use told::Told;

/// What the calls answer, over the texts in files of these names: `two.lp`, `linked.lp` and `line.lp` with their
/// decompositions, and `tall.lp`.
///
/// # Errors
/// Where a file can't be read, or memory is short for a call that is not tried again or for what is told. Where it is short for
/// a program in blocks, the text of that program counts as refused.
pub fn make(rt: &(impl Files + AllocGlobal)) -> io::Result<Vec<u8>> {
    let mut told = Told::new(rt.alloc());
    tell_two(rt, &mut told)?;
    tell_linked(rt, &mut told)?;
    tell_line(rt, &mut told)?;
    tell_tall(rt, &mut told)?;
    Ok(told.into_bytes()?)
}

// Two blocks that are the same, with a row over both.
fn tell_two(rt: &(impl Files + AllocGlobal), told: &mut Told) -> io::Result<()> {
    let alloc = rt.alloc();
    match blocks_in(rt, "two.lp", "two.dec")? {
        None => told.line("two.lp: not tried, a text is refused"),
        Some(b) => tell_blocks(alloc, &b, told)?,
    }
    Ok(())
}

// The classes, the bounds, a spread and searches of two blocks with a row over both.
fn tell_blocks(alloc: Global, b: &Blocked, told: &mut Told) -> Result<(), AllocError> {
    classes::tell_all(alloc, b, told)?;
    bounds::tell_all(alloc, b, told)?;
    spreads::tell_all(alloc, b, told)?;
    searches::tell_all(alloc, b, told)
}

// Two blocks that a variable links.
fn tell_linked(rt: &(impl Files + AllocGlobal), told: &mut Told) -> io::Result<()> {
    let alloc = rt.alloc();
    match blocks_in(rt, "linked.lp", "linked.dec")? {
        None => told.line("linked.lp: not tried, a text is refused"),
        Some(b) => bounds::tell_linked(alloc, &b, told)?,
    }
    Ok(())
}

// A block of one variable with one number more than a pool has room for.
fn tell_line(rt: &(impl Files + AllocGlobal), told: &mut Told) -> io::Result<()> {
    let alloc = rt.alloc();
    match blocks_in(rt, "line.lp", "line.dec")? {
        None => told.line("line.lp: not tried, a text is refused"),
        Some(b) => pools::tell_all(alloc, &b, told)?,
    }
    Ok(())
}

// A span of one variable that is split twice.
fn tell_tall(rt: &(impl Files + AllocGlobal), told: &mut Told) -> io::Result<()> {
    let alloc = rt.alloc();
    match plain_blocks_in(rt, "tall.lp")? {
        None => told.line("tall.lp: not tried, a text is refused"),
        Some(b) => leaves::tell_all(alloc, &b, told)?,
    }
    Ok(())
}

// The program in blocks of a model's file and of its decomposition's.
fn blocks_in(
    rt: &(impl Files + AllocGlobal),
    name: &str,
    dec: &str,
) -> io::Result<Option<Blocked>> {
    let text = fs::read_to_string(rt, name)?;
    let dec = fs::read_to_string(rt, dec)?;
    Ok(blocks_of(rt.alloc(), text.as_str(), Some(dec.as_str())))
}

// The program in blocks of a model's file alone: every row is a master row.
fn plain_blocks_in(rt: &(impl Files + AllocGlobal), name: &str) -> io::Result<Option<Blocked>> {
    let text = fs::read_to_string(rt, name)?;
    Ok(blocks_of(rt.alloc(), text.as_str(), None))
}
