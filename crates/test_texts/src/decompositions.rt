// What texts of decompositions of a small model, and lists of its rows, mean or are refused for.
use crate::tables::{Reading, add, check, told};
use bp_model::{Dec, Model};
use bp_theory::Limits;
use dec_read::{DecFault, read_dec};
use lp_read::read_lp;
use std::alloc::{AllocError, Global};
use std::test::Fail;

/// Lines of an answer and a text, with ` @ ` between them and `|` for each line feed of the text. An answer is the number
/// of blocks, the place of each row and the listed variables with theirs, or the line and the kind of the first fault.
/// Other lines are headings.
const TEXTS: &str = "\
# Worked texts.
2 blocks; - - - 0 1; @ NBLOCKS 2|BLOCK 1|cap1|BLOCK 2|cap2|MASTERCONSS|job1 job2 job3|
3 blocks; - - - - -; 1:2 3:2 0:2 1:- 2:- @ NBLOCKS 3|BLOCKVARS 3 x12 block|x11|MASTERVARS|x12 x13
2 blocks; - - - 1 -; @  nBlocks 2 \\ two\r|\tBlockConss 2| cap1\\cap2| MasterConss job1|consdefaultmaster 1
2 BlockNumber @ NBLOCKS 1|BLOCK 2|cap1
1 NoNblocks @ BLOCK 1|cap1
3 UnknownRow @ NBLOCKS 1|BLOCK 1|cap9
3 RowTwice @ NBLOCKS 1|BLOCK 1|cap1 cap1
5 Unassigned @ NBLOCKS 1|CONSDEFAULTMASTER 0|BLOCK 1|cap1|
3 UnknownVar @ NBLOCKS 1|BLOCKVARS 1|x99
3 UnknownVar @ NBLOCKS 1|LINKINGVARS|x99
2 blocks; - - - 0 1; @ NBLOCKS 2|BLOCK 1|cap1|BLOCK 2|cap2|LINKINGVARS|x11 x12|x13 block
2 blocks; - - - 0 1; 0:1 @ NBLOCKS 2|BLOCK 1|cap1|BLOCK 2|cap2|LINKINGVARS|x11|BLOCKVARS 2|x11
1 Presolved @ PRESOLVED 1|NBLOCKS 0
# Keywords stand at the front of a line.
2 UnknownRow @ NBLOCKS 1|BLOCK 1 cap1 BLOCK 1
3 Syntax @ NBLOCKS 1|BLOCKVARS 1 x11|block
1 blocks; - - - - -; 0:0 3:0 @ NBLOCKS 1|BLOCKVARS 1 x11 block
# Rows are listed once over all lines.
6 RowTwice @ NBLOCKS 2|BLOCK 1|cap1|job1|BLOCK 2|cap2 job1
5 RowTwice @ NBLOCKS 2|BLOCK 1|cap1|job1|MASTERCONSS cap1
1 blocks; - - - 0 0; @ CONSDEFAULTMASTER 0|NBLOCKS 1|BLOCK 1|cap1|cap2||MASTERCONSS|job1|job2 job3
# Numbers go by value.
1 Presolved @ PRESOLVED 01
1 Limit @ NBLOCKS 4097
1 Limit @ NBLOCKS 100000000000000000000000000000000000000000
2 BlockNumber @ NBLOCKS 1|BLOCK 18446744073709551617
2 BlockNumber @ NBLOCKS 1|BLOCK 0
2 blocks; - - - - -; @ PRESOLVED 00|NBLOCKS 002|BLOCK 2
4096 blocks; - - - - -; @ NBLOCKS 4096
# Tokens out of place.
2 Syntax @ |cap1|NBLOCKS 1
1 Syntax @ NBLOCKS 1 2
1 Syntax @ NBLOCKS +1
3 Syntax @ NBLOCKS 1||NBLOCKS 1
1 Syntax @ PRESOLVED 2
1 Syntax @ CONSDEFAULTMASTER 2
2 Syntax @ PRESOLVED|BLOCK 1
3 Syntax @ PRESOLVED||
2 Syntax @ NBLOCKS 1|BLOCK cap1
# Texts without a number of blocks.
1 NoNblocks @ 
2 NoNblocks @ \\ NBLOCKS 1|
2 NoNblocks @ MASTERCONSS job1|BLOCKVARS 1 x11|NBLOCKS 1
# Bad bytes stand first.
2 BadByte @ |\x7f
1 BadByte @ NBLOCKS 1 \0
3 BadByte @ NBLOCKS 1|BLOCK 1|cap1ä
";

/// The rows `job1`, `job2`, `job3`, `cap1`, `cap2` without terms, and the variables `x11`, `x12`, `x13`, `block`.
const MODEL: &[u8] = b"min
st
job1: 0 x11 >= 0
job2: 0 x12 >= 0
job3: 0 x13 >= 0
cap1: 0 block >= 0
cap2: 0 block >= 0
bin
x11 x12 x13 block
end
";

/// A place: a block's number, or a dash for the master.
fn place_text(alloc: Global, place: Option<u32>) -> Result<String, AllocError> {
    match place {
        Some(block) => format!(in alloc; "{block}"),
        None => String::from_str(alloc, "-"),
    }
}

/// Adds the place of each row, and the listed variables with theirs.
fn add_places(alloc: Global, text: &mut String, dec: &Dec) -> Result<(), AllocError> {
    for place in dec.places() {
        text.push_str(" ")?;
        add(text, place_text(alloc, *place))?;
    }
    text.push_str(";")?;
    for (var, place) in dec.listed() {
        add(text, format!(in alloc; " {var}:"))?;
        add(text, place_text(alloc, *place))?;
    }
    Ok(())
}

/// A decomposition in short: the number of blocks, the place of each row, and the listed variables with theirs.
pub fn short(alloc: Global, dec: &Dec) -> Result<String, AllocError> {
    let mut text = format!(in alloc; "{} blocks;", dec.blocks())?;
    add_places(alloc, &mut text, dec)?;
    Ok(text)
}

/// What a text means in short, or what it is refused for.
pub fn answer(alloc: Global, text: &[u8]) -> Result<String, AllocError> {
    answer_under(alloc, Limits::Usual, text)
}

// The same under limits.
fn answer_under(alloc: Global, limits: Limits, text: &[u8]) -> Result<String, AllocError> {
    match read_lp(alloc, limits, MODEL) {
        Ok(model) => answer_of(alloc, &model, text),
        Err(_) => String::from_str(alloc, "no model"),
    }
}

// The same of a model.
fn answer_of(alloc: Global, model: &Model, text: &[u8]) -> Result<String, AllocError> {
    match read_dec(alloc, text, model) {
        Ok(dec) => short(alloc, &dec),
        Err(DecFault::At { line, kind }) => format!(in alloc; "{line} {kind:?}"),
        Err(DecFault::NoMemory) => Err(AllocError),
    }
}

#[test]
fn each_text_means_its_decomposition_or_has_its_first_fault(rt: HostRuntime) -> Result<(), Fail> {
    check(
        &rt,
        told(rt.alloc(), Reading::Decomposition, TEXTS),
        "41 texts",
    )
}

/// Texts under the large limits with their answers.
const LARGE_TEXTS: [(&[u8], &str); 4] = [
    (b"NBLOCKS 4097", "4097 blocks; - - - - -;"),
    (
        b"NBLOCKS 131072\nBLOCK 131072\ncap1",
        "131072 blocks; - - - 131071 -;",
    ),
    (b"NBLOCKS 131073", "1 Limit"),
    (b"NBLOCKS 131072\nBLOCK 131073\ncap1", "2 BlockNumber"),
];

#[test]
fn large_limits_allow_more_blocks(rt: HostRuntime) -> Result<(), Fail> {
    for (text, want) in LARGE_TEXTS {
        check(&rt, answer_under(rt.alloc(), Limits::Large, text), want)?;
    }
    Ok(())
}

/// Texts at their greatest length and past it.
const LONG_TEXTS: &str = "\
0 Limit @ 16777217 @  @   @ 
1 NoNblocks @ 16777216 @  @   @ 
";

#[test]
fn texts_are_too_long_past_their_limit(rt: HostRuntime) -> Result<(), Fail> {
    check(
        &rt,
        told(rt.alloc(), Reading::Decomposition, LONG_TEXTS),
        "2 texts",
    )
}
