// The start of a search.
ghost use Rattle.std.specs.Prelude.{◌≡◌, ◌<◌, ◌≤◌, ◌+◌, ◌*◌, ◌^◌, None, length, vec_len, unsigned_abs, sum_by};
ghost use Rattle.bp_theory.specs.Program.{reach, span_at};
ghost use Rattle.bp_theory.specs.Bound.{end_cost, box_least};
ghost use Rattle.bp_theory.specs.Decomposition.{HasVariablesBelow};
ghost use Rattle.bp_theory.specs.Trees.{IsSubzone, IsProper};
ghost use Rattle.pricing_problem.specs.Ends.{top_cost};
ghost use Rattle.pricing_problem.specs.Form.{IsPriceable, term_size, cost_size};
ghost use Rattle.enumeration.specs.Reach.{low_reach, high_reach};
ghost use Rattle.enumeration.specs.Search.{IsTracked};
ghost use Rattle.enumeration.specs.Sizes.{HasPlaces};

use crate::dive::Dive;
use crate::form::Form;
use bp_theory::{Span, Term};
use pricing_problem::{least_end, plus, top_end};

/// A number in 128 bits.
fn widened(number: &i64) -> i128
    ensures { result ≡ number.now }
{
    i128::from(*number)
}

/// The least of a term's products in a zone.
fn least_of(term: &Term, zone: &[Span]) -> i128
    requires there { term.now.var < length zone.now }
    requires short { unsigned_abs term.now.coef * reach (span_at zone.now term.now.var) < 2 ^ 62 }
    ensures value { result ≡ end_cost (span_at zone.now term.now.var) term.now.coef }
    ensures small { unsigned_abs result < 2 ^ 62 }
{
    let factor = widened(&term.coef);
    least_end(&zone[term.var as usize], &factor)
}

/// The greatest of a term's products in a zone.
fn top_of(term: &Term, zone: &[Span]) -> i128
    requires there { term.now.var < length zone.now }
    requires short { unsigned_abs term.now.coef * reach (span_at zone.now term.now.var) < 2 ^ 62 }
    ensures value { result ≡ top_cost (span_at zone.now term.now.var) term.now.coef }
    ensures small { unsigned_abs result < 2 ^ 62 }
{
    let factor = widened(&term.coef);
    top_end(&zone[term.var as usize], &factor)
}

/// The least that a row's terms can add up to in a zone.
fn sum_of_lows(terms: &[Term], zone: &[Span], spans: &[Span]) -> i128
    requires inside { IsSubzone zone.now spans.now }
    requires proper { IsProper zone.now }
    requires places { HasVariablesBelow (length zone.now) terms.now }
    requires small { sum_by (term_size spans.now) terms.now < 2 ^ 62 }
    ensures { result ≡ low_reach zone.now terms.now }
{
    let mut sum = 0;
    for term in terms {
        let end = least_of(term, zone);
        sum = plus(&sum, &end);
    }
    sum
}

/// The greatest that a row's terms can add up to in a zone.
fn sum_of_highs(terms: &[Term], zone: &[Span], spans: &[Span]) -> i128
    requires inside { IsSubzone zone.now spans.now }
    requires proper { IsProper zone.now }
    requires places { HasVariablesBelow (length zone.now) terms.now }
    requires small { sum_by (term_size spans.now) terms.now < 2 ^ 62 }
    ensures { result ≡ high_reach zone.now terms.now }
{
    let mut sum = 0;
    for term in terms {
        let end = top_of(term, zone);
        sum = plus(&sum, &end);
    }
    sum
}

/// The least cost in a zone, rows aside.
pub fn least_cost(zone: &[Span], costs: &[i128]) -> i128
    requires each { length costs.now ≡ length zone.now }
    requires sizes { cost_size zone.now costs.now ≤ 2 ^ 123 }
    ensures { result ≡ box_least zone.now costs.now }
{
    let mut sum = 0;
    for k in 0..zone.len() {
        let end = least_end(&zone[k], &costs[k]);
        sum = plus(&sum, &end);
    }
    sum
}

/// Stands at the start of a zone, where the least adjusted cost is given, with no best point.
pub fn begin(dive: &mut Dive, form: &Form, zone: &[Span], costs: &[i128], paid: &i128)
    requires places { HasPlaces form.now dive.old }
    requires priceable { IsPriceable form.now.spans.items zone.now costs.now }
    ensures zone { dive.new.zone.items ≡ zone.now }
    ensures tracked { IsTracked form.now.rows.items zone.now costs.now dive.new }
    ensures paid { dive.new.paid ≡ paid.now }
    ensures best { dive.new.best ≡ None }
{
    copy_spans(zone, &mut dive.zone);
    for row in 0..form.rows.len() {
        let terms = form.rows[row].terms.as_slice();
        dive.lows[row] = sum_of_lows(terms, zone, &form.spans);
        dive.highs[row] = sum_of_highs(terms, zone, &form.spans);
    }
    dive.least = least_cost(zone, costs);
    dive.paid = *paid;
    dive.best = None;
}

/// Copies spans.
fn copy_spans(from: &[Span], to: &mut Vec<Span>)
    requires { vec_len to.old ≡ length from.now }
    ensures { to.new.items ≡ from.now }
{
    for k in 0..from.len() {
        to[k] = from[k];
    }
}
