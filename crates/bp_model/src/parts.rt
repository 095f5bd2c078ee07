// What a model is made of, and what it is refused for.
ghost use Rattle.std.specs.Prelude.{◌↔◌, ◌<◌, ◌^◌, length, All, IsTrue};
ghost use Rattle.bp_theory.specs.Decomposition.{HasVariablesBelow};

use crate::names::NameList;
use bp_theory::{Items, Limits, Row, Span, Term};

/// The parts of a model. Terms may name a variable more than once: their coefficients add up.
#[derive(Drop)]
pub struct Parts {
    /// The variables' names.
    pub names: NameList,
    /// The variables' spans, in the order of the names.
    pub spans: Items<Span>,
    /// The rows' names.
    pub row_names: NameList,
    /// The rows, in the order of the names.
    pub rows: Items<Row>,
    /// The costs, in minimised form.
    pub costs: Items<Term>,
    /// The constant of the objective, in minimised form.
    pub constant: i128,
    /// Whether the text maximises.
    pub maximises: bool,
    /// The limits that the model keeps.
    pub limits: Limits,
}

/// What parts are refused for.
#[derive(Clone, Copy, Debug, PartialEq, Eq)]
pub enum ModelFault {
    /// The lower end of this variable's span is above its upper end.
    Crossed(u32),
    /// The spans have more binary digits than the limits allow.
    Bits,
    /// The sums of the objective (none) or of this row may leave 62 bits.
    Activity(Option<u32>),
    /// Too many variables, rows or terms, or a span's end past `2^62 - 1`.
    Limit,
    /// Want of memory.
    NoMemory,
}

impl Parts {
    ghost use Rattle.std.specs.Prelude.{◌↔◌, IsTrue};
    ghost use Rattle.bp_model.specs.Parts.{AreFitting};

    /// Whether the parts fit together: as many names as spans and as rows, fewer than `2^32` of each,
    /// and the terms' variables are there.
    pub fn are_fitting(&self) -> bool
        ensures { IsTrue result ↔ AreFitting self.now }
    {
        let vars = self.spans.len();
        let rows = self.rows.len();
        self.names.len() as usize == vars
            && self.row_names.len() as usize == rows
            && is_few(vars)
            && is_few(rows)
            && is_few(self.costs.len())
            && have_few_terms(self.rows.as_slice())
            && are_below(vars, self.costs.as_slice())
            && have_terms_below(vars, self.rows.as_slice())
    }
}

// Whether a count is below `2^32`.
fn is_few(count: usize) -> bool
    ensures { IsTrue result ↔ (count < 2 ^ 32) }
{
    count < 1 << 32
}

// Whether each row has fewer than `2^32` terms.
fn have_few_terms(rows: &[Row]) -> bool
    ensures { IsTrue result ↔ All (λ row. length row.terms < 2 ^ 32) rows.now }
{
    rows.iter().all(|row| is_few(row.terms.len()))
}

// Whether the terms' variables are below a number.
fn are_below(vars: usize, terms: &[Term]) -> bool
    ensures { IsTrue result ↔ HasVariablesBelow vars terms.now }
{
    terms.iter().all(|term| (term.var as usize) < vars)
}

// Whether the variables of the rows' terms are below a number.
fn have_terms_below(vars: usize, rows: &[Row]) -> bool
    ensures { IsTrue result ↔ All (λ row. HasVariablesBelow vars row.terms) rows.now }
{
    rows.iter().all(|row| are_below(vars, row.terms.as_slice()))
}
