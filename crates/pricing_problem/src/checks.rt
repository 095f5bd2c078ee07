// Tests of what a pricer asks for.
ghost use Rattle.std.specs.Prelude.{◌≡◌, ◌<◌, ◌≤◌, ◌+◌, ◌*◌, ◌^◌, ◌↔◌, ◌≤ℤ◌, ℕ, IsTrue, All, length, min, max, unsigned_abs, sum_by, ◌-◌};
ghost use Rattle.bp_theory.specs.Program.{reach, span_at};
ghost use Rattle.bp_theory.specs.Trees.{IsZone};
ghost use Rattle.bp_theory.specs.Decomposition.{HasVariablesBelow};
ghost use Rattle.pricing_problem.specs.Checks.{IsFitting, IsProperPart};
ghost use Rattle.pricing_problem.specs.Form.{IsForm, IsPriceable, HasShortEnds, term_size, row_size, cost_size};

use bp_theory::{Row, Span, Term};

/// One more than the greatest magnitude of what rows add up to.
const ROW_LIMIT: u128 = 1 << 62;

/// The greatest size of costs.
const COST_LIMIT: u128 = 1 << 123;

/// One more than the most rows or spans.
const COUNT_LIMIT: usize = 1 << 32;

/// Whether both ends of a span stay below 2 to the 62.
fn is_short(span: &Span) -> bool
    ensures { IsTrue result ↔ HasShortEnds span.now }
{
    span.lo.unsigned_abs() < 1 << 62 && span.hi.unsigned_abs() < 1 << 62
}

/// The greatest magnitude of a span's numbers, at least 1.
fn reach_of(span: &Span) -> u64
    ensures { result ≡ reach span.now }
{
    span.lo.unsigned_abs().max(span.hi.unsigned_abs()).max(1)
}

/// Whether a term names a place below a count.
fn is_placed(term: &Term, count: usize) -> bool
    ensures { IsTrue result ↔ (term.now.var < count) }
{
    (term.var as usize) < count
}

/// Whether a row's terms name places below a count.
fn are_placed(terms: &[Term], count: usize) -> bool
    ensures { IsTrue result ↔ HasVariablesBelow count terms.now }
{
    terms.iter().all(|term| is_placed(term, count))
}

/// The magnitude of a number.
fn magnitude(number: &i64) -> u64
    ensures { result ≡ unsigned_abs number.now }
{
    number.unsigned_abs()
}

/// The greatest magnitude of a term at numbers of its span.
fn size_of_term(term: &Term, spans: &[Span]) -> u128
    requires { term.now.var < length spans.now }
    ensures size { result ≡ term_size spans.now term.now }
    ensures small { result < 2 ^ 128 }
{
    u128::from(magnitude(&term.coef)) * u128::from(reach_of(&spans[term.var as usize]))
}

/// The size of a row's terms, cut off at the greatest number of 128 bits.
fn size_of_terms(terms: &[Term], spans: &[Span]) -> u128
    requires { HasVariablesBelow (length spans.now) terms.now }
    ensures { result ≡ min (sum_by (term_size spans.now) terms.now) (2 ^ 128 - 1) }
{
    let mut sum: u128 = 0;
    for term in terms {
        sum = sum.saturating_add(size_of_term(term, spans));
    }
    sum
}

/// Whether a row's sums stay below 2 to the 62.
fn is_small(row: &Row, spans: &[Span]) -> bool
    requires { HasVariablesBelow (length spans.now) row.now.terms }
    ensures { IsTrue result ↔ (row_size spans.now row.now < 2 ^ 62) }
{
    let sides = u128::from(magnitude(&row.low).max(magnitude(&row.rhs)));
    size_of_terms(row.terms.as_slice(), spans).saturating_add(sides) < ROW_LIMIT
}

/// Whether a row's terms name places of spans, and its sums stay below 2 to the 62.
fn is_fitting(row: &Row, spans: &[Span]) -> bool
    ensures { IsTrue result ↔ IsFitting spans.now row.now }
{
    if !are_placed(row.terms.as_slice(), spans.len()) {
        return false;
    }
    is_small(row, spans)
}

/// Whether a pricer may be made of these rows and root spans.
pub fn is_form(rows: &[Row], spans: &[Span]) -> bool
    ensures { IsTrue result ↔ IsForm rows.now spans.now }
{
    if spans.len() >= COUNT_LIMIT || rows.len() >= COUNT_LIMIT {
        return false;
    }
    if !spans.iter().all(|span| is_short(span)) {
        return false;
    }
    rows.iter().all(|row| is_fitting(row, spans))
}

/// Whether a span lies inside another and has a number.
fn is_proper_part(span: &Span, root: &Span) -> bool
    ensures { IsTrue result ↔ IsProperPart span.now root.now }
{
    root.lo <= span.lo && span.lo <= span.hi && span.hi <= root.hi
}

/// The size of costs in a zone, cut off at the greatest number of 128 bits.
fn size_of_costs(zone: &[Span], costs: &[i128]) -> u128
    requires { length costs.now ≡ length zone.now }
    ensures { result ≡ min (cost_size zone.now costs.now) (2 ^ 128 - 1) }
{
    let mut sum: u128 = 0;
    for k in (0..zone.len()).rev() {
        let one = costs[k]
            .unsigned_abs()
            .saturating_mul(u128::from(reach_of(&zone[k])));
        sum = sum.saturating_add(one);
    }
    sum
}

/// Whether a zone lies inside root spans, and each of its spans has a number.
pub fn is_zone(spans: &[Span], zone: &[Span]) -> bool
    ensures { IsTrue result ↔ IsZone spans.now zone.now }
{
    if zone.len() != spans.len() {
        return false;
    }
    for k in 0..zone.len() {
        if !is_proper_part(&zone[k], &spans[k]) {
            return false;
        }
    }
    true
}

/// Whether a zone and costs may be priced by a pricer of these root spans.
pub fn is_priceable(spans: &[Span], zone: &[Span], costs: &[i128]) -> bool
    ensures { IsTrue result ↔ IsPriceable spans.now zone.now costs.now }
{
    if !is_zone(spans, zone) || costs.len() != zone.len() {
        return false;
    }
    size_of_costs(zone, costs) <= COST_LIMIT
}
