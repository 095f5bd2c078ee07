// What the sections behind the rows say of each variable.
ghost use Rattle.std.specs.Prelude.{◌≡◌, ◌<◌, IfOk, length, vec_len, fold, All, map};
ghost use Rattle.lp_semantics.specs.Meaning.{value_of, lower, upper, turned};
ghost use Rattle.lp_syntax.specs.Tree.{comparison_of};
ghost use Rattle.lp_syntax.specs.TreeIn.{name_in, bound_in, part_in};
ghost use Rattle.lp_semantics.specs.Fit.{IsKnown, IsFitValue, IsFitBound, IsFitPart};
ghost use Rattle.lp_semantics.specs.Numbered.{say_at, say_bound, list_general, list_binary, say_part, table_of, compare_at};

use crate::extended::Extended;
use crate::number::{is_negative_run, number_of, signed_number};
use lp_syntax::{Bound, Comparison, Direction, Part, TextRange, Value};
use name_table::NameTable;
use std::alloc::{AllocError, Global};

/// What the text says of a variable.
#[derive(Clone, Copy, Debug, PartialEq, Eq)]
pub struct Stated {
    /// The lower bound that is stated last, 0 where none is.
    pub lo: Extended,
    /// The upper bound that is stated last, infinite where none is.
    pub hi: Extended,
    /// Whether a section of generals lists it.
    pub general: bool,
    /// Whether a section of binaries lists it.
    pub binary: bool,
}

const UNSAID: Stated = Stated {
    lo: Extended::Whole(0),
    hi: Extended::Above,
    general: false,
    binary: false,
};

// A comparison read from the right.
fn turned_around(comparison: Comparison) -> Comparison
    ensures { result ≡ turned comparison }
{
    match comparison {
        Comparison::AtMost => Comparison::AtLeast,
        Comparison::AtLeast => Comparison::AtMost,
        Comparison::Equal => Comparison::Equal,
    }
}

// The comparison of a direction.
fn comparison_in(direction: Direction) -> Comparison
    ensures { result ≡ comparison_of direction }
{
    match direction {
        Direction::Upward => Comparison::AtMost,
        Direction::Downward => Comparison::AtLeast,
    }
}

// What a written value is.
fn extended_of(value: &Value) -> Extended
    requires { IsFitValue value.now }
    ensures { result ≡ value_of value.now }
{
    match value {
        Value::Finite(number) => Extended::Whole(signed_number(
            false,
            number.signs.as_slice(),
            number.size,
        )),
        Value::Endless(signs) => {
            if is_negative_run(signs.as_slice()) {
                Extended::Below
            } else {
                Extended::Above
            }
        }
    }
}

// Sets a variable's lower end.
fn say_lower(table: &mut Vec<Stated>, number: u32, value: &Extended)
    requires { number < vec_len table.old }
    ensures items { table.new.items ≡ say_at table.old.items number lower value.now }
    ensures len { vec_len table.new ≡ vec_len table.old }
{
    let mut stated = table[number as usize];
    stated.lo = *value;
    table[number as usize] = stated;
}

// Sets a variable's upper end.
fn say_upper(table: &mut Vec<Stated>, number: u32, value: &Extended)
    requires { number < vec_len table.old }
    ensures items { table.new.items ≡ say_at table.old.items number upper value.now }
    ensures len { vec_len table.new ≡ vec_len table.old }
{
    let mut stated = table[number as usize];
    stated.hi = *value;
    table[number as usize] = stated;
}

// Compares a variable with a value.
fn compare(table: &mut Vec<Stated>, number: u32, comparison: Comparison, value: &Extended)
    requires { number < vec_len table.old }
    ensures items { table.new.items ≡ compare_at table.old.items number comparison value.now }
    ensures len { vec_len table.new ≡ vec_len table.old }
{
    match comparison {
        Comparison::AtMost => say_upper(table, number, value),
        Comparison::AtLeast => say_lower(table, number, value),
        Comparison::Equal => {
            say_lower(table, number, value);
            say_upper(table, number, value);
        }
    }
}

// Takes up the statements of a bound.
fn note_bound(text: &[u8], names: &NameTable, table: &mut Vec<Stated>, bound: &Bound)
    requires fit { IsFitBound text.now names.now bound.now }
    requires all { vec_len table.old ≡ length names.now }
    ensures items { table.new.items ≡ say_bound names.now table.old.items
        (bound_in text.now bound.now) }
    ensures len { vec_len table.new ≡ vec_len table.old }
{
    match bound {
        Bound::ValueFirst(value, comparison, name) => {
            let number = number_of(text, names, name);
            compare(
                table,
                number,
                turned_around(*comparison),
                &extended_of(value),
            );
        }
        Bound::NameFirst(name, comparison, value) => {
            let number = number_of(text, names, name);
            compare(table, number, *comparison, &extended_of(value));
        }
        Bound::Between(first, direction, name, last) => {
            let number = number_of(text, names, name);
            let comparison = comparison_in(*direction);
            compare(
                table,
                number,
                turned_around(comparison),
                &extended_of(first),
            );
            compare(table, number, comparison, &extended_of(last));
        }
        Bound::Free(name, _) => {
            let number = number_of(text, names, name);
            say_lower(table, number, &Extended::Below);
            say_upper(table, number, &Extended::Above);
        }
    }
}

// Takes up the bounds of a section.
fn note_bounds(text: &[u8], names: &NameTable, table: &mut Vec<Stated>, bounds: &[Bound])
    requires fit { All (IsFitBound text.now names.now) bounds.now }
    requires all { vec_len table.old ≡ length names.now }
    ensures items { table.new.items ≡ fold (λ t b. say_bound names.now t (bound_in text.now b))
        table.old.items bounds.now }
    ensures len { vec_len table.new ≡ vec_len table.old }
{
    for bound in bounds {
        note_bound(text, names, table, bound);
    }
}

// Lists names under generals.
fn note_generals(text: &[u8], names: &NameTable, table: &mut Vec<Stated>, listed: &[TextRange])
    requires fit { All (IsKnown text.now names.now) listed.now }
    requires all { vec_len table.old ≡ length names.now }
    ensures items { table.new.items ≡ fold (λ t n. list_general names.now t (name_in text.now n))
        table.old.items listed.now }
    ensures len { vec_len table.new ≡ vec_len table.old }
{
    for name in listed {
        let number = number_of(text, names, name);
        let mut stated = table[number as usize];
        stated.general = true;
        table[number as usize] = stated;
    }
}

// Lists names under binaries.
fn note_binaries(text: &[u8], names: &NameTable, table: &mut Vec<Stated>, listed: &[TextRange])
    requires fit { All (IsKnown text.now names.now) listed.now }
    requires all { vec_len table.old ≡ length names.now }
    ensures items { table.new.items ≡ fold (λ t n. list_binary names.now t (name_in text.now n))
        table.old.items listed.now }
    ensures len { vec_len table.new ≡ vec_len table.old }
{
    for name in listed {
        let number = number_of(text, names, name);
        let mut stated = table[number as usize];
        stated.binary = true;
        table[number as usize] = stated;
    }
}

// Takes up a section.
fn note_part(text: &[u8], names: &NameTable, table: &mut Vec<Stated>, part: &Part)
    requires fit { IsFitPart text.now names.now part.now }
    requires all { vec_len table.old ≡ length names.now }
    ensures items { table.new.items ≡ say_part names.now table.old.items
        (part_in text.now part.now) }
    ensures len { vec_len table.new ≡ vec_len table.old }
{
    match part {
        Part::Bounds(bounds) => note_bounds(text, names, table, bounds.as_slice()),
        Part::Generals(listed) => note_generals(text, names, table, listed.as_slice()),
        Part::Binaries(listed) => note_binaries(text, names, table, listed.as_slice()),
    }
}

/// What the sections of a text say of each variable, in the order of the names.
pub fn stated_of(
    alloc: Global,
    text: &[u8],
    names: &NameTable,
    parts: &[Part],
) -> Result<Vec<Stated>, AllocError>
    requires { All (IsFitPart text.now names.now) parts.now }
    ensures { IfOk result (λ table. table.items ≡
        table_of names.now (map (part_in text.now) parts.now)) }
{
    let mut table = Vec::from_elem(alloc, UNSAID, names.len() as usize)?;
    for part in parts {
        note_part(text, names, &mut table, part);
    }
    Ok(table)
}
