// The layers of a block.
ghost use Rattle.std.specs.Prelude.{◌≡◌, ◌<◌, ◌≤◌, ◌^◌, ◌+ℤ◌, unsigned_abs, IfOk, IfSome, IfNone, All, ℕ, List, ◌*◌, ◌⊎◌, sum_by, FitsSigned, length};
ghost use Rattle.bp_theory.specs.Bound.{end_cost};
ghost use Rattle.bp_theory.specs.Program.{span_at};
ghost use Rattle.pricing_problem.specs.Ends.{top_cost};
ghost use Rattle.bp_theory.specs.Decomposition.{HasVariablesBelow};
ghost use Rattle.std.specs.Bool.{OnTrue, OnFalse};
ghost use Rattle.std.specs.Int.{w64};
ghost use Rattle.bp_theory.specs.Limits.{number_limit};
ghost use Rattle.bp_theory.specs.declared.Span.{Span};
ghost use Rattle.state_graph.specs.Windows.{coef_of};
ghost use Rattle.pricing_problem.specs.Form.{IsForm, term_size, row_size};
ghost use Rattle.state_graph.specs.Layers.{AreLayersOf};
ghost use Rattle.state_graph.specs.Limits.{most_coefs, HasLongSpan};
ghost use Rattle.state_graph.specs.Columns.{AreCoefs, AreDense, IsColumn, IsLong, hull_with, AreWidened, AreZeros};

use crate::clip::product;
use crate::expand::count_of;
use crate::layers::Layer;
use crate::twins::{first_twins, refined};
use bp_theory::{Items, Row, Span, Term};
use std::alloc::{AllocError, Global};

/// The most coefficients of a block, zeros counted.
const MOST_COEFS: usize = 1 << 20;

/// The most numbers of a variable.
const MOST_NUMBERS: u64 = 4096;

/// The layers of a block, and for each row the least and the greatest that all variables can add up to.
#[derive(Drop)]
pub struct Layers {
    /// The layers, by variable in order.
    pub layers: Vec<Layer>,
    /// By number of the row: the least and the greatest that all variables can add up to.
    pub hulls: Items<Span>,
}

/// Adds a number to a sum. Tells whether the sum fits.
fn add_to(sum: &mut i64, more: &i64) -> bool
    ensures sum { OnTrue result (sum.new ≡ sum.old +ℤ more.now) }
    ensures over { OnFalse result (FitsSigned w64 (sum.old +ℤ more.now) → ⊥) }
{
    match sum.checked_add(*more) {
        Some(total) => {
            *sum = total;
            true
        }
        None => false,
    }
}

/// The coefficient of each variable in a row; none only where the terms add up to 2^62 in every spans, and then one may not fit
/// 64 bits.
fn coefs_of(alloc: Global, terms: &[Term], count: usize) -> Result<Option<Items<i64>>, AllocError>
    requires { HasVariablesBelow count terms.now }
    ensures none { IfOk result (λ made. IfNone made
        ((spans : List Span) → sum_by (term_size spans) terms.now < number_limit → ⊥)) }
    ensures coefs { IfOk result (λ made. IfSome made (λ coefs. AreCoefs terms.now count coefs)) }
{
    let mut coefs = Vec::from_elem(alloc, 0, count)?;
    for term in terms {
        let var = term.var as usize;
        if !add_to(&mut coefs[var], &term.coef) {
            return Ok(None);
        }
    }
    Ok(Some(Items::from_vec(coefs)))
}

/// The coefficients of each row; none only where a row is too large in every spans.
fn dense_rows(
    alloc: Global,
    rows: &[Row],
    count: usize,
) -> Result<Option<Items<Items<i64>>>, AllocError>
    requires { All (λ row. HasVariablesBelow count row.terms) rows.now }
    ensures none { IfOk result (λ made. IfNone made
        ((spans : List Span) → All (λ row. row_size spans row < number_limit) rows.now → ⊥)) }
    ensures dense { IfOk result (λ made. IfSome made (λ dense. AreDense rows.now count dense)) }
{
    let mut dense = Items::new(alloc);
    for row in rows {
        match coefs_of(alloc, row.terms.as_slice(), count)? {
            Some(coefs) => dense.push(coefs)?,
            None => return Ok(None),
        }
    }
    Ok(Some(dense))
}

/// The coefficient of a variable.
fn coef_at(coefs: &[i64], var: usize) -> i64
    requires { var < length coefs.now }
    ensures { result ≡ coef_of coefs.now var }
{
    coefs[var]
}

/// The coefficients of one variable in each row.
fn column_of(alloc: Global, dense: &[Items<i64>], var: usize) -> Result<Items<i64>, AllocError>
    requires { All (λ coefs. var < length coefs) dense.now }
    ensures { IfOk result (λ column. IsColumn dense.now var column) }
{
    let mut column = Vec::new(alloc);
    for row in 0..dense.len() {
        let coef = coef_at(dense[row].as_slice(), var);
        column.push(coef)?;
    }
    Ok(Items::from_vec(column))
}

/// The least product of a coefficient and a number of a span.
fn least_product(coef: &i64, span: &Span) -> i128
    ensures value { result ≡ end_cost span.now coef.now }
    ensures small { unsigned_abs result ≤ 2 ^ 126 }
{
    let low = product(coef, &span.lo);
    let high = product(coef, &span.hi);
    if high < low { high } else { low }
}

/// The greatest product of a coefficient and a number of a span.
fn most_product(coef: &i64, span: &Span) -> i128
    ensures value { result ≡ top_cost span.now coef.now }
    ensures small { unsigned_abs result ≤ 2 ^ 126 }
{
    let low = product(coef, &span.lo);
    let high = product(coef, &span.hi);
    if low < high { high } else { low }
}

/// An end of a hull with a product more.
fn end_with(end: &i64, product: &i128) -> i128
    requires { unsigned_abs product.now ≤ 2 ^ 126 }
    ensures { result ≡ end.now +ℤ product.now }
{
    i128::from(*end) + *product
}

/// Whether a number is at most 2 to the 62 in magnitude.
fn is_short(number: &i128) -> bool
    ensures short { OnTrue result (unsigned_abs number.now ≤ 2 ^ 62) }
    ensures long { OnFalse result (2 ^ 62 < unsigned_abs number.now) }
{
    number.unsigned_abs() <= 1 << 62
}

/// A number of at most 2 to the 62 in 64 bits.
fn shortened(number: &i128) -> i64
    requires { unsigned_abs number.now ≤ 2 ^ 62 }
    ensures { result ≡ number.now }
{
    *number as i64
}

/// What variables can add up to with one more in front; none only where an end is more than 2^62 in magnitude.
fn widened(hull: &Span, coef: &i64, span: &Span) -> Option<Span>
    ensures none { IfNone result (IsLong (hull_with hull.now coef.now span.now)) }
    ensures wider { IfSome result (λ wider. wider ≡ hull_with hull.now coef.now span.now) }
{
    let least = least_product(coef, span);
    let most = most_product(coef, span);
    let lo = end_with(&hull.lo, &least);
    let hi = end_with(&hull.hi, &most);
    if !is_short(&lo) || !is_short(&hi) {
        return None;
    }
    Some(Span {
        lo: shortened(&lo),
        hi: shortened(&hi),
    })
}

/// What variables can add up to in each row with one more in front; none only where that is too much in a row.
fn hulls_with(
    alloc: Global,
    hulls: &[Span],
    column: &[i64],
    span: &Span,
) -> Result<Option<Items<Span>>, AllocError>
    requires { length column.now ≡ length hulls.now }
    ensures none { IfOk result (λ made. IfNone made ((row : ℕ) × (row < length hulls.now) ×
        IsLong (hull_with (span_at hulls.now row) (coef_of column.now row) span.now))) }
    ensures wider { IfOk result (λ made. IfSome made
        (λ wider. AreWidened hulls.now column.now span.now wider)) }
{
    let mut wider = Vec::new(alloc);
    for row in 0..hulls.len() {
        match widened(&hulls[row], &column[row], span) {
            Some(hull) => wider.push(hull)?,
            None => return Ok(None),
        }
    }
    Ok(Some(Items::from_vec(wider)))
}

/// Nothing that can be added to so many rows.
fn zero_hulls(alloc: Global, count: usize) -> Result<Items<Span>, AllocError>
    ensures { IfOk result (λ hulls. AreZeros count hulls) }
{
    let mut hulls = Vec::new(alloc);
    for _ in 0..count {
        hulls.push(Span { lo: 0, hi: 0 })?;
    }
    Ok(Items::from_vec(hulls))
}

/// The layers of a block by the coefficients of its rows; none only where a variable has too many numbers.
fn layers_from(
    alloc: Global,
    rows: &[Row],
    spans: &[Span],
    dense: &[Items<i64>],
) -> Result<Option<Layers>, AllocError>
    requires form { IsForm rows.now spans.now }
    requires coefs { AreDense rows.now (length spans.now) dense.now }
    ensures none { IfOk result (λ made. IfNone made (HasLongSpan spans.now)) }
    ensures layers { IfOk result (λ made. IfSome made
        (λ l. AreLayersOf rows.now spans.now l.layers.items l.hulls)) }
{
    let mut layers = Vec::new(alloc);
    let mut hulls = zero_hulls(alloc, rows.len())?;
    let mut twins = first_twins(alloc, rows.len())?;
    for var in (0..spans.len()).rev() {
        let span = spans[var];
        if count_of(&span) > MOST_NUMBERS {
            return Ok(None);
        }
        let column = column_of(alloc, dense, var)?;
        let wider = match hulls_with(alloc, hulls.as_slice(), column.as_slice(), &span)? {
            Some(wider) => wider,
            None => return Ok(None),
        };
        let finer = refined(alloc, twins.as_slice(), column.as_slice())?;
        layers.push(Layer {
            span,
            column,
            hulls,
            twins,
        })?;
        hulls = wider;
        twins = finer;
    }
    layers.reverse();
    Ok(Some(Layers { layers, hulls }))
}

/// The layers of a block; none only where it has too many coefficients or a variable too many numbers.
pub fn layers_of(alloc: Global, rows: &[Row], spans: &[Span]) -> Result<Option<Layers>, AllocError>
    requires { IsForm rows.now spans.now }
    ensures none { IfOk result (λ made. IfNone made
        ((most_coefs < length rows.now * length spans.now) ⊎ HasLongSpan spans.now)) }
    ensures layers { IfOk result (λ made. IfSome made
        (λ l. AreLayersOf rows.now spans.now l.layers.items l.hulls)) }
{
    if rows.len().saturating_mul(spans.len()) > MOST_COEFS {
        return Ok(None);
    }
    match dense_rows(alloc, rows, spans.len())? {
        Some(dense) => layers_from(alloc, rows, spans, dense.as_slice()),
        None => Ok(None),
    }
}
