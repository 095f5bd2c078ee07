// What the sum of rows demands above the lower ends of the spans.
ghost use Rattle.std.specs.Prelude.{◌≡◌, ◌≤◌, ◌<◌, ◌^◌, ◌+ℤ◌, ◌-ℤ◌, ◌*ℤ◌, length, unsigned_abs, FitsSigned};
ghost use Rattle.std.specs.Int.{w128};
ghost use Rattle.bp_theory.specs.Limits.{number_limit};
ghost use Rattle.bp_theory.specs.Program.{span_at};
ghost use Rattle.bp_theory.specs.Blocking.{sides_of};
ghost use Rattle.bp_theory.specs.Bound.{side};
ghost use Rattle.bp_theory.specs.Decomposition.{HasVariablesBelow};
ghost use Rattle.bp_theory.specs.Sums.{sum_of};
ghost use Rattle.bp_model.specs.Tidy.{sum_limit};
ghost use Rattle.cut_sums.specs.Rows.{entry_demand, low_activity, program_of, rows_in, AreEntries, IsBounded, IsRows};

use crate::rows::Rows;
use bp_theory::{Row, Span, Term};

/// The sum of rows' sides, each times its multiplier, less that of their sums where each variable is at the lower end
/// of its span. The multipliers are a cut's: whole numbers without a scale.
pub fn demand(rows: &Rows, mults: &[(u32, i64)]) -> i128
    requires rows { IsRows rows.now }
    requires entries { AreEntries (program_of rows.now) (rows_in rows.now) mults.now }
    ensures { result ≡ sum_of (entry_demand (program_of rows.now) (rows_in rows.now)) mults.now }
{
    let mut sum = 0;
    for mult in mults {
        let row = rows.at(mult.0);
        let above = row_demand(row, &mult.1, rows.spans());
        let more = product(&mult.1, &above);
        sum = plus(sum, more);
    }
    sum
}

// A row's side for a multiplier less its sum at the lower ends.
fn row_demand(row: &Row, mult: &i64, spans: &[Span]) -> i128
    requires below { HasVariablesBelow (length spans.now) row.now.terms }
    requires small { sum_limit spans.now row.now.terms < number_limit }
    ensures { result ≡ side (sides_of row.now) mult.now -ℤ low_activity spans.now row.now.terms }
{
    let low = at_lower_ends(row.terms.as_slice(), spans);
    minus(i128::from(side(row, mult)), low)
}

// The side of a row for a multiplier: the lower for a positive one, else the upper.
fn side(row: &Row, mult: &i64) -> i64
    ensures { result ≡ side (sides_of row.now) mult.now }
{
    if *mult > 0 { row.low } else { row.rhs }
}

/// A sum of terms where each variable is at the lower end of its span.
pub fn at_lower_ends(terms: &[Term], spans: &[Span]) -> i128
    requires below { HasVariablesBelow (length spans.now) terms.now }
    requires small { sum_limit spans.now terms.now < number_limit }
    ensures { result ≡ low_activity spans.now terms.now }
{
    let mut sum: i128 = 0;
    for term in terms {
        let more = low_product(term, spans);
        sum = plus(sum, more);
    }
    sum
}

// A term's coefficient times the lower end of its variable's span.
fn low_product(term: &Term, spans: &[Span]) -> i128
    requires { term.now.var < length spans.now }
    ensures { result ≡ term.now.coef *ℤ (span_at spans.now term.now.var).lo }
{
    term.coef as i128 * spans[term.var as usize].lo as i128
}

// A multiplier times a number.
fn product(mult: &i64, number: &i128) -> i128
    requires { FitsSigned w128 (mult.now *ℤ number.now) }
    ensures { result ≡ mult.now *ℤ number.now }
{
    i128::from(*mult) * *number
}

// A sum that fits.
fn plus(a: i128, b: i128) -> i128
    requires { FitsSigned w128 (a +ℤ b) }
    ensures { result ≡ a +ℤ b }
{
    a + b
}

// A difference that fits.
fn minus(a: i128, b: i128) -> i128
    requires { FitsSigned w128 (a -ℤ b) }
    ensures { result ≡ a -ℤ b }
{
    a - b
}
