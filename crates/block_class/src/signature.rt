// A block's data in a zone as one list of numbers.
ghost use Rattle.std.specs.Prelude.{◌≡◌, ◌<◌, ◌++◌, ◌∷◌, [], length, All, IfOk, OnOk, pos, slice_index_or};
ghost use Rattle.bp_theory.specs.Blocking.{Copy};
ghost use Rattle.block_class.specs.Signatures.{signature, copy_signature, row_signature, coefs_signature, terms_signature, sense_number};

use block_program::{Block, Zone};
use bp_theory::{Row, Sense, Span, Term};
use std::alloc::{AllocError, Global};

/// A block's signature in a zone: two blocks have the same one exactly where they are the same there.
pub fn signature(alloc: Global, block: &Block, zone: &Zone) -> Result<Vec<i64>, AllocError>
    requires { All (λ (c : Copy). c.var < length zone.now) block.now.block.copies }
    ensures { IfOk result (λ numbers. numbers.items ≡ signature zone.now block.now.block) }
{
    let mut numbers = Vec::new(alloc);
    let count = block.var_count();
    numbers.push(i64::from(count))?;
    for place in 0..count {
        push_copy(&mut numbers, block, zone, place)?;
    }
    for row in block.rows() {
        push_row(&mut numbers, row)?;
    }
    Ok(numbers)
}

// A copy's cost, its span in the zone and its coefficients.
fn push_copy(
    numbers: &mut Vec<i64>,
    block: &Block,
    zone: &Zone,
    place: u32,
) -> Result<(), AllocError>
    requires place { place < length block.now.block.copies }
    requires below { All (λ (c : Copy). c.var < length zone.now) block.now.block.copies }
    ensures { (d : Copy) → OnOk result (numbers.new.items ≡ numbers.old.items ++
        copy_signature zone.now (slice_index_or block.now.block.copies place d)) }
{
    let span = zone.span(block.vars()[place as usize]);
    push_head(numbers, &block.costs()[place as usize], &span)?;
    push_coefs(numbers, block.master(place))?;
    Ok(())
}

// A copy's cost and its span.
fn push_head(numbers: &mut Vec<i64>, cost: &i64, span: &Span) -> Result<(), AllocError>
    ensures { OnOk result (numbers.new.items ≡ numbers.old.items ++ cost.now ∷ span.now.lo ∷
        span.now.hi ∷ []) }
{
    numbers.push(*cost)?;
    numbers.push(span.lo)?;
    numbers.push(span.hi)?;
    Ok(())
}

// Coefficients by rows, with an end that is no row's number.
fn push_coefs(numbers: &mut Vec<i64>, coefs: &[(u32, i64)]) -> Result<(), AllocError>
    ensures { OnOk result (numbers.new.items ≡ numbers.old.items ++ coefs_signature coefs.now) }
{
    for entry in coefs {
        push_entry(numbers, entry)?;
    }
    numbers.push(-1)?;
    Ok(())
}

// A row's number and a coefficient.
fn push_entry(numbers: &mut Vec<i64>, entry: &(u32, i64)) -> Result<(), AllocError>
    ensures { OnOk result (numbers.new.items ≡ numbers.old.items ++ pos entry.now.0 ∷
        entry.now.1 ∷ []) }
{
    numbers.push(i64::from(entry.0))?;
    numbers.push(entry.1)?;
    Ok(())
}

// A row's sense, its sides and its terms.
fn push_row(numbers: &mut Vec<i64>, row: &Row) -> Result<(), AllocError>
    ensures { OnOk result (numbers.new.items ≡ numbers.old.items ++ row_signature row.now) }
{
    numbers.push(sense_number(row.sense))?;
    numbers.push(row.low)?;
    numbers.push(row.rhs)?;
    push_terms(numbers, row.terms.as_slice())
}

// Terms, with an end that is no variable's number.
fn push_terms(numbers: &mut Vec<i64>, terms: &[Term]) -> Result<(), AllocError>
    ensures { OnOk result (numbers.new.items ≡ numbers.old.items ++ terms_signature terms.now) }
{
    for term in terms {
        push_term(numbers, term)?;
    }
    numbers.push(-1)?;
    Ok(())
}

// A term's variable and its coefficient.
fn push_term(numbers: &mut Vec<i64>, term: &Term) -> Result<(), AllocError>
    ensures { OnOk result (numbers.new.items ≡ numbers.old.items ++ pos term.now.var ∷
        term.now.coef ∷ []) }
{
    numbers.push(i64::from(term.var))?;
    numbers.push(term.coef)?;
    Ok(())
}

// A sense as a number.
fn sense_number(sense: Sense) -> i64
    ensures { result ≡ sense_number sense }
{
    match sense {
        Sense::Le => 0,
        Sense::Ge => 1,
        Sense::Eq => 2,
        Sense::In => 3,
    }
}
