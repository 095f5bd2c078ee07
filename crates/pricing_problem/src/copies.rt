// Copies of rows and spans.
ghost use Rattle.std.specs.Prelude.{◌≡◌, IfOk};

use bp_theory::{Items, Row, Span, Term};
use std::alloc::{AllocError, Global};

/// A copy of terms.
fn copied_terms(alloc: Global, terms: &[Term]) -> Result<Items<Term>, AllocError>
    ensures { IfOk result (λ copy. copy ≡ terms.now) }
{
    let mut copy = Items::new(alloc);
    for term in terms {
        copy.push(*term)?;
    }
    Ok(copy)
}

/// A copy of a row.
pub fn copied_row(alloc: Global, row: &Row) -> Result<Row, AllocError>
    ensures { IfOk result (λ copy. copy ≡ row.now) }
{
    let terms = copied_terms(alloc, row.terms.as_slice())?;
    Ok(Row {
        sense: row.sense,
        low: row.low,
        rhs: row.rhs,
        terms,
    })
}

/// Copies of rows.
pub fn copied_rows(alloc: Global, rows: &[Row]) -> Result<Vec<Row>, AllocError>
    ensures { IfOk result (λ copy. copy.items ≡ rows.now) }
{
    let mut copy = Vec::new(alloc);
    for row in rows {
        copy.push(copied_row(alloc, row)?)?;
    }
    Ok(copy)
}

/// A copy of spans.
pub fn copied_spans(alloc: Global, spans: &[Span]) -> Result<Vec<Span>, AllocError>
    ensures { IfOk result (λ copy. copy.items ≡ spans.now) }
{
    spans.to_vec(alloc)
}
