// Whether two blocks have the same rows and the same spans at the root.
ghost use Rattle.std.specs.Prelude.{◌≡◌};
ghost use Rattle.std.specs.Bool.{OnTrue};
ghost use Rattle.block_pricers.specs.Forms.{form_in};

use block_program::Block;
use bp_theory::{Row, Sense, Span, Term};

/// Whether two blocks have the same rows and the same spans at the root.
pub fn have_same_form(a: &Block, b: &Block) -> bool
    ensures { OnTrue result (form_in a.now ≡ form_in b.now) }
{
    are_same_spans(a.spans(), b.spans()) && are_same_rows(a.rows(), b.rows())
}

/// A hash of a block's rows and of its spans at the root.
pub fn hash_of(block: &Block) -> u64 {
    let mut hash = 0x517c_c1b7_2722_0a95;
    for span in block.spans() {
        hash = mixed(hash, &span.lo);
        hash = mixed(hash, &span.hi);
    }
    for row in block.rows() {
        hash = mixed_row(hash, row);
    }
    hash ^ (hash >> 29)
}

// A hash with a row more.
fn mixed_row(hash: u64, row: &Row) -> u64 {
    let mut hash = mixed(mixed(hash, &row.low), &row.rhs);
    for term in row.terms.as_slice() {
        hash = mixed(mixed(hash, &i64::from(term.var)), &term.coef);
    }
    hash
}

// A hash with a number more.
fn mixed(hash: u64, number: &i64) -> u64 {
    let size = number.unsigned_abs();
    let bits = if *number < 0 { !size } else { size };
    (hash.rotate_left(23) ^ bits).wrapping_mul(0x9e37_79b9_7f4a_7c15)
}

// Whether spans are the same.
fn are_same_spans(a: &[Span], b: &[Span]) -> bool
    ensures { OnTrue result (a.now ≡ b.now) }
{
    if a.len() != b.len() {
        return false;
    }
    for place in 0..a.len() {
        if !is_same_span(&a[place], &b[place]) {
            return false;
        }
    }
    true
}

// Whether two spans are the same.
fn is_same_span(a: &Span, b: &Span) -> bool
    ensures { OnTrue result (a.now ≡ b.now) }
{
    a.lo == b.lo && a.hi == b.hi
}

// Whether rows are the same.
fn are_same_rows(a: &[Row], b: &[Row]) -> bool
    ensures { OnTrue result (a.now ≡ b.now) }
{
    if a.len() != b.len() {
        return false;
    }
    for number in 0..a.len() {
        if !is_same_row(&a[number], &b[number]) {
            return false;
        }
    }
    true
}

// Whether two rows are the same.
fn is_same_row(a: &Row, b: &Row) -> bool
    ensures { OnTrue result (a.now ≡ b.now) }
{
    is_same_sense(a.sense, b.sense)
        && a.low == b.low
        && a.rhs == b.rhs
        && are_same_terms(a.terms.as_slice(), b.terms.as_slice())
}

// Whether two senses are the same.
fn is_same_sense(a: Sense, b: Sense) -> bool
    ensures { OnTrue result (a ≡ b) }
{
    match (a, b) {
        (Sense::Le, Sense::Le) => true,
        (Sense::Ge, Sense::Ge) => true,
        (Sense::Eq, Sense::Eq) => true,
        (Sense::In, Sense::In) => true,
        _ => false,
    }
}

// Whether terms are the same.
fn are_same_terms(a: &[Term], b: &[Term]) -> bool
    ensures { OnTrue result (a.now ≡ b.now) }
{
    if a.len() != b.len() {
        return false;
    }
    for place in 0..a.len() {
        if !is_same_term(&a[place], &b[place]) {
            return false;
        }
    }
    true
}

// Whether two terms are the same.
fn is_same_term(a: &Term, b: &Term) -> bool
    ensures { OnTrue result (a.now ≡ b.now) }
{
    a.var == b.var && a.coef == b.coef
}
