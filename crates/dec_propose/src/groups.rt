// Keys of rows, by which rows that are alike in their names or in their forms have one, and the rows that are chosen by them.
ghost use Rattle.std.specs.Prelude.{◌<◌, length};

use bp_model::{Model, Row, Sense};
use std::alloc::{AllocError, Global};

// How many groups are told apart; rows of further groups are in none.
const MOST_GROUPS: usize = 24;

// The start and the factor of a hash of 64 bits.
const START: u64 = 14_695_981_039_346_656_037;

const FACTOR: u64 = 1_099_511_628_211;

// The bytes that end the stem of a name, and those behind its front.
const STEM_ENDS: &[u8] = b"0123456789([";

const FRONT_ENDS: &[u8] = b"0123456789()[]";

/// In what rows with one key are alike.
#[derive(Clone, Copy)]
pub enum Likeness {
    /// What their names have in front of the first digit or bracket.
    Stem,
    /// What their names have in front of the last digits or brackets.
    Front,
    /// Their sense, whether their side is 0, 1 or another, and whether their coefficients are 1, 1 and -1, or others.
    Form,
    /// The form and how many terms they have.
    Shape,
    /// Their sense, their sides and the range of their coefficients.
    Sides,
}

/// For each row its key, and for each group its key, the first groups alone.
#[derive(Drop)]
pub struct Keyed {
    /// By number of the row: a hash of that in which it is like others.
    pub keys: Vec<u64>,
    /// The keys that differ, in the order of their first rows, at most 24.
    pub groups: Vec<u64>,
}

impl Keyed {
    /// The keys of a model's rows, and the first that differ from all before them.
    pub fn new(alloc: Global, m: &Model, likeness: Likeness) -> Result<Keyed, AllocError> {
        let mut keyed = Keyed {
            keys: Vec::new(alloc),
            groups: Vec::new(alloc),
        };
        for row in 0..m.rows() {
            let key = key_of(m, row, likeness);
            keyed.keys.push(key)?;
            if keyed.groups.len() < MOST_GROUPS && !keyed.groups.as_slice().contains(&key) {
                keyed.groups.push(key)?;
            }
        }
        Ok(keyed)
    }
}

/// A hash with one value more. (Fowler, Noll and Vo, FNV-1a.)
pub fn mix(hash: u64, value: u64) -> u64 {
    (hash ^ value).wrapping_mul(FACTOR)
}

/// A hash with a whole number more.
pub fn mix_whole(hash: u64, number: i64) -> u64 {
    let bits = if number < 0 {
        number.unsigned_abs().wrapping_mul(2).wrapping_add(1)
    } else {
        number.unsigned_abs().wrapping_mul(2)
    };
    mix(hash, bits)
}

// A hash of what a name has in front of its first digit or bracket.
fn stem_key(name: &[u8]) -> u64 {
    let mut hash = START;
    for byte in name {
        if STEM_ENDS.contains(byte) {
            break;
        }
        hash = mix(hash, u64::from(*byte));
    }
    hash
}

// A hash of what a name has in front of its last digits or brackets.
fn front_key(name: &[u8]) -> u64 {
    let mut hash = START;
    let mut front = START;
    for byte in name {
        hash = mix(hash, u64::from(*byte));
        if !FRONT_ENDS.contains(byte) {
            front = hash;
        }
    }
    front
}

// A hash of a row's sense, of whether its side is 0, 1 or another, and of whether its coefficients are 1, 1 and -1, or
// others.
fn form_key(row: &Row) -> u64 {
    let side = match row.rhs {
        0 => 0,
        1 => 1,
        _ => 2,
    };
    mix(mix(mix(START, sense_key(row.sense)), side), coefs_key(row))
}

fn sense_key(sense: Sense) -> u64 {
    match sense {
        Sense::Le => 0,
        Sense::Ge => 1,
        Sense::Eq => 2,
        Sense::In => 3,
    }
}

fn coefs_key(row: &Row) -> u64 {
    let mut key = 0;
    for term in row.terms.as_slice() {
        key = match term.coef {
            1 => key,
            -1 => 1,
            _ => return 2,
        };
    }
    key
}

// A hash of a row's sense, of its sides, and of the least and the greatest of its coefficients.
fn sides_key(row: &Row) -> u64 {
    let mut least = i64::MAX;
    let mut greatest = i64::MIN;
    for term in row.terms.as_slice() {
        least = least.min(term.coef);
        greatest = greatest.max(term.coef);
    }
    let sides = mix_whole(
        mix_whole(mix(START, sense_key(row.sense)), row.low),
        row.rhs,
    );
    mix_whole(mix_whole(sides, least), greatest)
}

// A hash of that in which a row is like others.
fn key_of(m: &Model, row: u32, likeness: Likeness) -> u64
    requires { row < length m.now.program.rows }
{
    let whole = m.row(row);
    match likeness {
        Likeness::Stem => stem_key(m.row_name(row).as_bytes()),
        Likeness::Front => front_key(m.row_name(row).as_bytes()),
        Likeness::Form => form_key(whole),
        Likeness::Shape => mix(form_key(whole), whole.terms.len() as u64),
        Likeness::Sides => sides_key(whole),
    }
}

/// Marks for the rows that have one of two keys, or for all others, where each row has a key.
pub fn alike_marks(
    alloc: Global,
    keys: &[u64],
    one: u64,
    other: u64,
    are_others: bool,
) -> Result<Vec<bool>, AllocError> {
    let mut marks = Vec::new(alloc);
    for key in keys {
        marks.push((*key == one || *key == other) != are_others)?;
    }
    Ok(marks)
}

/// Marks for the rows with more terms than a number.
pub fn longer_marks(alloc: Global, m: &Model, terms: usize) -> Result<Vec<bool>, AllocError> {
    let mut marks = Vec::new(alloc);
    for row in m.all_rows() {
        marks.push(row.terms.len() > terms)?;
    }
    Ok(marks)
}
