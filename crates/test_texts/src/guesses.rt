// Texts of models, and the decompositions that are chosen for these.
use crate::decompositions::short;
use crate::tables::{Reading, check, told};
use bp_model::Model;
use bp_theory::Limits;
use dec_propose::guess;
use lp_read::read_lp;
use std::alloc::{AllocError, Global};
use std::test::Fail;

/// A line of an answer and a text, with ` @ ` between them and `|` for each line feed of the text. An answer is the number of
/// blocks and the place of each row. Three jobs go to two rooms.
const ASSIGNMENT: &str = "\
2 blocks; - - - 0 1; @ min|st|job1: a + b = 1|job2: c + d = 1|job3: e + f = 1|room1: 3 a + 4 c + 5 e <= 7|room2: 2 b + 3 d + 4 f <= 6|bin|a b c d e f|end|
";

/// Such lines of two rows that have the same variables, of one of them, and of none.
const SHARED: &str = "\
0 blocks; - -; @ min|st|k1: 3 a + 4 b + 5 c <= 7|k2: 2 a + 6 b + 7 c <= 9|bin|a b c d e f|end|
0 blocks; -; @ min|st|k1: 3 a + 4 b + 5 c <= 7|bin|a b c d e f|end|
0 blocks;; @ min|st|bin|a b c d e f|end|
";

/// The decomposition that is chosen for the model of a text, in short.
pub fn answer(alloc: Global, text: &[u8]) -> Result<String, AllocError> {
    match read_lp(alloc, Limits::Usual, text) {
        Ok(model) => chosen(alloc, &model),
        Err(_) => String::from_str(alloc, "no model"),
    }
}

// The same for a model.
fn chosen(alloc: Global, model: &Model) -> Result<String, AllocError> {
    // For the proof alone: what a model keeps.
    let _rows = model.rows();
    let dec = guess(alloc, model)?;
    short(alloc, &dec)
}

#[test]
fn knapsacks_of_an_assignment_are_blocks(rt: HostRuntime) -> Result<(), Fail> {
    check(&rt, told(rt.alloc(), Reading::Guess, ASSIGNMENT), "1 texts")
}

#[test]
fn rows_that_share_all_variables_have_no_blocks(rt: HostRuntime) -> Result<(), Fail> {
    check(&rt, told(rt.alloc(), Reading::Guess, SHARED), "3 texts")
}
