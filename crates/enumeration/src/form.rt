// What a search is made of: rows, root spans, and the rows by variables.
ghost use Rattle.std.specs.Prelude.{◌≡◌, ◌↔◌, IfOk, IsTrue, vec_len};
ghost use Rattle.pricing_problem.specs.Form.{IsForm};
ghost use Rattle.enumeration.specs.Columns.{AreColumns};
ghost use Rattle.enumeration.specs.Divisors.{LackMultiples};

use crate::columns::{Entry, columns_of};
use crate::divisor::lack_multiples;
use bp_theory::{Items, Row, Span};
use pricing_problem::{copied_rows, copied_spans};
use std::alloc::{AllocError, Global};

/// How many terms few are.
const FEW_TERMS: usize = 3;

/// Rows and root spans, and the rows by variables.
#[derive(Drop)]
pub struct Form {
    /// The rows; a term's variable is a place among the spans.
    pub rows: Vec<Row>,
    /// By place of the variable: its span at the root.
    pub spans: Vec<Span>,
    /// By place of the variable: its terms, by ascending row.
    pub columns: Vec<Items<Entry>>,
    // Whether rows have three terms at most in the mean.
    short: bool,
    // Whether the two sides of a row lie between neighbouring multiples of a common divisor of its coefficients.
    missed: bool,
    // Terms name places that are there, and sums of rows stay below 2^62 in size.
    pub ghost kept: { IsForm rows.items spans.items },
    // Each variable has a column.
    pub ghost wide: { vec_len columns ≡ vec_len spans },
    // The columns have the terms of the rows.
    pub ghost by_variables: { AreColumns rows.items columns.items },
    // `missed` is true exactly where there is such a row.
    pub ghost divided: { IsTrue missed ↔ LackMultiples rows.items },
}

/// Whether rows have few terms in the mean.
fn are_short(rows: &[Row]) -> bool {
    let mut terms: usize = 0;
    for row in rows {
        terms = terms.saturating_add(row.terms.len());
    }
    terms <= rows.len().saturating_mul(FEW_TERMS)
}

impl Form {
    /// A copy of rows and root spans.
    pub fn make(alloc: Global, rows: &[Row], spans: &[Span]) -> Result<Form, AllocError>
        requires { IsForm rows.now spans.now }
        ensures rows { IfOk result (λ form. form.rows.items ≡ rows.now) }
        ensures spans { IfOk result (λ form. form.spans.items ≡ spans.now) }
    {
        let rows_copied = copied_rows(alloc, rows)?;
        let spans_copied = copied_spans(alloc, spans)?;
        let columns = columns_of(alloc, spans.len(), rows)?;
        let short = are_short(rows);
        let missed = lack_multiples(rows);
        Ok(Form {
            rows: rows_copied,
            spans: spans_copied,
            columns,
            short,
            missed,
        })
    }

    /// Whether the two sides of a row lie between neighbouring multiples of a common divisor of its coefficients. No whole
    /// numbers meet the rows then.
    pub fn is_missed(&self) -> bool
        ensures { IsTrue result ↔ LackMultiples self.now.rows.items }
    {
        self.missed
    }

    /// Whether rows have few terms in the mean, so that each number of a variable that sits in many rows decides much.
    pub fn is_short(&self) -> bool {
        self.short
    }
}
