// The coefficients of each variable of a row, and how far its sum can move.
ghost use Rattle.std.specs.Prelude.{◌≡◌, ◌<◌, ◌≤◌, ◌+◌, ◌*◌, ◌^◌, ◌↔◌, ◌+ℤ◌, pos, ℕ, IsTrue, IfOk, All, length, vec_len, unsigned_abs, sum_by, slice_index_or, slice_set};
ghost use Rattle.std.specs.Int.{int_gap};
ghost use Rattle.bp_theory.specs.Program.{span_at, reach};
ghost use Rattle.bp_theory.specs.Decomposition.{HasVariablesBelow};
ghost use Rattle.pricing_problem.specs.Form.{IsForm, HasShortEnds, term_size};
ghost use Rattle.knapsack_table.specs.Taken.{IsTaken, dense, row_reach, term_reach};

use bp_theory::{Row, Span, Term};
use pricing_problem::plus;
use std::alloc::{AllocError, Global};

/// The most cells of a table.
const MOST: u128 = 1_048_576;

/// A number in 128 bits.
fn widened(number: &i64) -> i128
    ensures { result ≡ number.now }
{
    i128::from(*number)
}

/// The coefficients of each variable of a row, added up.
pub fn coefs_of(alloc: Global, terms: &[Term], spans: &[Span]) -> Result<Vec<i128>, AllocError>
    requires places { HasVariablesBelow (length spans.now) terms.now }
    requires small { sum_by (term_size spans.now) terms.now < 2 ^ 62 }
    ensures { IfOk result (λ coefs. coefs.items ≡ dense terms.now (length spans.now)) }
{
    let mut coefs = Vec::from_elem(alloc, 0, spans.len())?;
    for term in terms {
        let more = widened(&term.coef);
        let var = term.var as usize;
        coefs[var] = plus(&coefs[var], &more);
    }
    Ok(coefs)
}

/// How far the upper end of a span is above the lower, 0 where it isn't.
pub fn gap_of(span: &Span) -> u64
    ensures { result ≡ int_gap span.now.lo span.now.hi }
{
    if span.hi <= span.lo {
        0
    } else {
        span.hi.abs_diff(span.lo)
    }
}

/// The magnitude of a number.
fn magnitude(number: &i64) -> u64
    ensures { result ≡ unsigned_abs number.now }
{
    number.unsigned_abs()
}

/// How far a term's product can move.
fn reach_of_term(term: &Term, spans: &[Span]) -> u64
    requires there { term.now.var < length spans.now }
    requires small { term_reach spans.now term.now < 2 ^ 63 }
    ensures { result ≡ term_reach spans.now term.now }
{
    magnitude(&term.coef) * gap_of(&spans[term.var as usize])
}

/// How far a row's sum can move.
pub fn reach_of(terms: &[Term], spans: &[Span]) -> u64
    requires places { HasVariablesBelow (length spans.now) terms.now }
    requires small { sum_by (term_size spans.now) terms.now < 2 ^ 62 }
    ensures { result ≡ row_reach spans.now terms.now }
{
    let mut sum = 0;
    for term in terms {
        sum += reach_of_term(term, spans);
    }
    sum
}

/// Whether a table takes these rows and spans.
pub fn is_taken(rows: &[Row], spans: &[Span]) -> bool
    requires { IsForm rows.now spans.now }
    ensures { IsTrue result ↔ IsTaken rows.now spans.now }
{
    match rows {
        [row] => {
            let reach = u128::from(reach_of(row.terms.as_slice(), spans));
            (spans.len() as u128 + 1) * (reach + 1) <= MOST
        }
        _ => false,
    }
}
