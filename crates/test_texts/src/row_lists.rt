// Lists of master rows, and the blocks that they leave.
use crate::decompositions::short;
use crate::tables::{Reading, check, told};
use bp_model::Model;
use bp_theory::Limits;
use dec_find::{RowsFault, find, read_rows};
use lp_read::read_lp;
use std::alloc::{AllocError, Global};
use std::test::Fail;

/// Lines of an answer and a list, with ` @ ` between them and `|` for each line feed of the list. An answer is the number
/// of blocks and the place of each row, or the line and the kind of the first fault.
const LISTS: &str = "\
4 blocks; 0 1 0 2 0 0 3; @ 
4 blocks; 0 1 2 - - 2 3; @  c5 \\ c1|\tc4
0 blocks; - - - - - - -; @ c7 c6 c5 c4 c3 c2 c1
2 UnknownRow @ c1|c9
3 RowTwice @ c1|| c2 c1 c9
1 BadByte @ c1 c\x7f c9
1 UnknownRow @ MASTERCONSS c1
# A byte order mark is refused.
1 BadByte @ \u{feff}c1
";

/// A chain of the rows 1, 3, 5 and 6, a row apart, and two rows without terms, over the variables `a` to `g`.
const CHAIN: &[u8] = b"min
st
c1: a + b <= 1
c2: c <= 1
c3: d + g <= 1
c4: 0 a <= 1
c5: b + d <= 1
c6: g <= 1
c7: 0 a <= 1
bin
a b c d g
end
";

/// The blocks that the rows of a list leave, in short, or what the list is refused for.
pub fn answer(alloc: Global, list: &[u8]) -> Result<String, AllocError> {
    match read_lp(alloc, Limits::Usual, CHAIN) {
        Ok(model) => answer_of(alloc, &model, list),
        Err(_) => String::from_str(alloc, "no model"),
    }
}

// The same in a model.
fn answer_of(alloc: Global, model: &Model, list: &[u8]) -> Result<String, AllocError> {
    match read_rows(alloc, list, model) {
        Ok(master) => match find(alloc, model, &master) {
            Ok(dec) => short(alloc, &dec),
            Err(_) => Err(AllocError),
        },
        Err(RowsFault::At { line, kind }) => format!(in alloc; "{line} {kind:?}"),
        Err(RowsFault::NoMemory) => Err(AllocError),
    }
}

#[test]
fn each_list_leaves_its_blocks_or_has_its_first_fault(rt: HostRuntime) -> Result<(), Fail> {
    check(&rt, told(rt.alloc(), Reading::RowList, LISTS), "8 texts")
}

/// Lists at their greatest length and past it.
const LONG_LISTS: &str = "\
4 blocks; 0 1 0 2 0 0 3; @ 16777216 @  @   @ 
0 Limit @ 16777217 @  @   @ 
";

#[test]
fn a_list_has_at_most_so_many_bytes(rt: HostRuntime) -> Result<(), Fail> {
    check(
        &rt,
        told(rt.alloc(), Reading::RowList, LONG_LISTS),
        "2 texts",
    )
}
