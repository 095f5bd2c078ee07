// Rows from their coefficients, where their sums keep the limit.
ghost use Rattle.std.specs.Prelude.{◌≡◌, ◌<◌, ◌≤◌, ◌^◌, length, map, unsigned_abs, All, IfErr, IfOk, MatchOption};
ghost use Rattle.bp_theory.specs.Limits.{number_limit};
ghost use Rattle.bp_theory.specs.Program.{reach};
ghost use Rattle.bp_model.specs.Tidy.{as_term, pair_limit};
ghost use Rattle.cut_sums.specs.Bounded.{row_from, HasRowFault, IsRowFrom};
ghost use Rattle.bp_theory.specs.declared.Sense.TheVariants.{Ge};
ghost use Rattle.cut_sums.specs.Rows.{program_of};

use crate::demands::at_lower_ends;
use crate::fault::CutFault;
use crate::rows::Rows;
use bp_theory::{Items, Row, Sense, Span, Term};
use std::alloc::{AllocError, Global};

// Each sum of a row is smaller than this.
const LIMIT: u128 = 1 << 62;

/// The at least row of coefficients by variable, whose side is a number more than their sum at the lower ends of the spans.
pub fn bounded_row(
    alloc: Global,
    rows: &Rows,
    above: &i128,
    coefs: &[(u32, i128)],
) -> Result<Row, CutFault>
    requires above { unsigned_abs above.now ≤ 2 ^ 116 }
    requires below { All (λ e. e.0 < length (program_of rows.now).spans) coefs.now }
    ensures row { IfOk result (IsRowFrom (program_of rows.now) above.now (map as_term coefs.now)) }
    ensures fault { IfErr result (HasRowFault (program_of rows.now)
        (row_from (program_of rows.now) above.now (map as_term coefs.now))) }
{
    let Some(limit) = limit_of(coefs, rows.spans()) else {
        return Err(CutFault::Large);
    };
    let Ok(terms) = terms_of(alloc, coefs) else {
        return Err(CutFault::NoMemory);
    };
    let low = *above + at_lower_ends(terms.as_slice(), rows.spans());
    if low.unsigned_abs() + limit >= LIMIT {
        return Err(CutFault::Large);
    }
    Ok(row_of(&low, Items::from_vec(terms)))
}

// The greatest magnitude of a sum of coefficients at points within spans, or none where it may leave 62 bits.
fn limit_of(coefs: &[(u32, i128)], spans: &[Span]) -> Option<u128>
    requires { All (λ e. e.0 < length spans.now) coefs.now }
    ensures { MatchOption result (number_limit ≤ pair_limit spans.now coefs.now)
        (λ limit. (limit ≡ pair_limit spans.now coefs.now) × (limit < number_limit)) }
{
    let mut limit = 0;
    for coef in coefs {
        let size = coef.1.unsigned_abs();
        if size >= LIMIT {
            return None;
        }
        limit += size * u128::from(reach(&spans[coef.0 as usize]));
        if limit >= LIMIT {
            return None;
        }
    }
    Some(limit)
}

// The greatest magnitude of a span's numbers, at least 1.
fn reach(span: &Span) -> u64
    ensures { result ≡ reach span.now }
{
    span.lo.unsigned_abs().max(span.hi.unsigned_abs()).max(1)
}

// Small coefficients as terms.
fn terms_of(alloc: Global, coefs: &[(u32, i128)]) -> Result<Vec<Term>, AllocError>
    requires { All (λ coef. unsigned_abs coef.1 < number_limit) coefs.now }
    ensures { IfOk result (λ terms. terms.items ≡ map as_term coefs.now) }
{
    let mut terms = Vec::with_capacity(alloc, coefs.len())?;
    for coef in coefs {
        terms.push(term_of(coef))?;
    }
    Ok(terms)
}

// A small coefficient as a term.
fn term_of(coef: &(u32, i128)) -> Term
    requires { unsigned_abs coef.now.1 < number_limit }
    ensures { result ≡ as_term coef.now }
{
    Term {
        var: coef.0,
        coef: coef.1 as i64,
    }
}

// The at least row of a small side and terms.
fn row_of(low: &i128, terms: Items<Term>) -> Row
    requires { unsigned_abs low.now < number_limit }
    ensures { result ≡ record { sense = Ge; low = low.now; rhs = low.now; terms = terms } }
{
    let low = *low as i64;
    Row {
        sense: Sense::Ge,
        low,
        rhs: low,
        terms,
    }
}
