// Terms added up by variable in 128 bits, and their limits.
ghost use Rattle.std.specs.Prelude.{◌≡◌, ◌↔◌, ℕ, ◌+◌, ◌*◌, ◌<◌, ◌≤◌, ◌^◌, length, map, All, IsTrue, IfOk, IfErr, unsigned_abs, ◌+ℤ◌, pos, unwrap_or, max, MatchOption};
ghost use Rattle.std.specs.BTreeMap.{get, IsOrdered};
ghost use Rattle.std.specs.List.{AllZip};
ghost use Rattle.std.specs.Ordering.{nat_cmp};
ghost use Rattle.bp_theory.specs.Program.{coefficient, reach};
ghost use Rattle.bp_theory.specs.Decomposition.{HasVariablesBelow};
ghost use Rattle.bp_model.specs.Parts.{IsTidied, IsTidiedRow};
ghost use Rattle.bp_model.specs.Tidy.{as_term, nonzero, pair_limit, row_base, HasCostsFault, HasRowsFault, IsLarge, IsSmall, IsSmallRow};

use crate::parts::ModelFault;
use bp_theory::{Items, Row, Span, Term};
use std::alloc::{AllocError, Global};
use std::collections::BTreeMap;

// Each sum of a model is smaller than this.
const LIMIT: u128 = 1 << 62;

/// The costs added up, in order of variables.
pub fn tidied_costs(
    alloc: Global,
    costs: &[Term],
    constant: &i128,
    spans: &[Span],
) -> Result<Items<Term>, ModelFault>
    requires few { length costs.now < 2 ^ 32 }
    requires below { HasVariablesBelow (length spans.now) costs.now }
    ensures tidied { IfOk result (IsSmall spans.now (unsigned_abs constant.now) costs.now) }
    ensures fault { IfErr result (HasCostsFault spans.now constant.now costs.now) }
{
    match tidied(alloc, constant.unsigned_abs(), costs, spans) {
        Err(_) => Err(ModelFault::NoMemory),
        Ok(None) => Err(ModelFault::Activity(None)),
        Ok(Some(terms)) => Ok(terms),
    }
}

/// The rows with their terms added up, in order of variables.
pub fn tidied_rows(alloc: Global, rows: &[Row], spans: &[Span]) -> Result<Items<Row>, ModelFault>
    requires count { length rows.now < 2 ^ 32 }
    requires few { All (λ row. length row.terms < 2 ^ 32) rows.now }
    requires below { All (λ row. HasVariablesBelow (length spans.now) row.terms) rows.now }
    ensures tidied { IfOk result (AllZip (IsSmallRow spans.now) rows.now) }
    ensures fault { IfErr result (HasRowsFault spans.now rows.now) }
{
    let mut tidy = Vec::new(alloc);
    for i in 0..rows.len() {
        match tidied_row(alloc, &rows[i], spans) {
            Err(_) => return Err(ModelFault::NoMemory),
            Ok(None) => return Err(ModelFault::Activity(Some(i as u32))),
            Ok(Some(row)) => {
                if tidy.push(row).is_err() {
                    return Err(ModelFault::NoMemory);
                }
            }
        }
    }
    Ok(Items::from_vec(tidy))
}

// A row with its terms added up, or none where its sums may leave 62 bits.
fn tidied_row(alloc: Global, row: &Row, spans: &[Span]) -> Result<Option<Row>, AllocError>
    requires few { length row.now.terms < 2 ^ 32 }
    requires below { HasVariablesBelow (length spans.now) row.now.terms }
    ensures { IfOk result (λ tidy. MatchOption tidy
        (IsLarge spans.now (row_base row.now) row.now.terms) (IsSmallRow spans.now row.now)) }
{
    let base = row.low.unsigned_abs().max(row.rhs.unsigned_abs());
    let Some(terms) = tidied(alloc, u128::from(base), row.terms.as_slice(), spans)? else {
        return Ok(None);
    };
    Ok(Some(Row {
        sense: row.sense,
        low: row.low,
        rhs: row.rhs,
        terms,
    }))
}

// Terms added up, or none where their sums together with a magnitude may leave 62 bits.
fn tidied(
    alloc: Global,
    base: u128,
    terms: &[Term],
    spans: &[Span],
) -> Result<Option<Items<Term>>, AllocError>
    requires few { length terms.now < 2 ^ 32 }
    requires below { HasVariablesBelow (length spans.now) terms.now }
    ensures { IfOk result (λ tidy. MatchOption tidy (IsLarge spans.now base terms.now)
        (IsSmall spans.now base terms.now)) }
{
    let sums = sums_of(alloc, terms)?;
    if !fits(base, sums.as_slice(), spans) {
        return Ok(None);
    }
    let tidy = terms_of(alloc, sums.as_slice())?;
    Ok(Some(Items::from_vec(tidy)))
}

// The sums of terms by variable, in order and without zeros.
fn sums_of(alloc: Global, terms: &[Term]) -> Result<Vec<(u32, i128)>, AllocError>
    requires { length terms.now < 2 ^ 32 }
    ensures { IfOk result (λ sums. IsTidied terms.now (map as_term sums.items)) }
{
    let sums = added(alloc, terms)?;
    kept(alloc, &sums)
}

// The sums of terms by variable.
fn added(alloc: Global, terms: &[Term]) -> Result<BTreeMap<u32, i128>, AllocError>
    requires { length terms.now < 2 ^ 32 }
    ensures sums { IfOk result (λ sums. (v : ℕ) → unwrap_or (get nat_cmp sums v) (pos 0) ≡
        coefficient terms.now v) }
    ensures ordered { IfOk result (IsOrdered nat_cmp) }
{
    let mut sums = BTreeMap::new(alloc);
    for term in terms {
        let had = sum_at(&sums, term.var);
        let sum = more(&had, term);
        sums.insert(term.var, sum)?;
    }
    Ok(sums)
}

// The sum of a variable so far.
fn sum_at(sums: &BTreeMap<u32, i128>, var: u32) -> i128
    ensures { result ≡ unwrap_or (get nat_cmp sums.now var) (pos 0) }
{
    sums.get(&var).copied().unwrap_or(0)
}

// A sum and a term more.
fn more(had: &i128, term: &Term) -> i128
    requires { unsigned_abs had.now < 2 ^ 96 }
    ensures value { result ≡ had.now +ℤ term.now.coef }
    ensures size { unsigned_abs result ≤ unsigned_abs had.now + 2 ^ 63 }
{
    *had + i128::from(term.coef)
}

// The sums that aren't 0.
fn kept(alloc: Global, sums: &BTreeMap<u32, i128>) -> Result<Vec<(u32, i128)>, AllocError>
    ensures { IfOk result (λ kept. kept.items ≡ nonzero sums.now.entries) }
{
    sums.iter()
        .filter(|(_, sum)| **sum != 0)
        .map(|(var, sum)| (*var, *sum))
        .collect(alloc)
}

// Whether a magnitude and sums at points within spans stay within 62 bits together.
fn fits(base: u128, sums: &[(u32, i128)], spans: &[Span]) -> bool
    requires { All (λ sum. sum.0 < length spans.now) sums.now }
    ensures { IsTrue result ↔ (base + pair_limit spans.now sums.now < 2 ^ 62) }
{
    if base >= LIMIT {
        return false;
    }
    let mut limit = base;
    for sum in sums {
        let size = sum.1.unsigned_abs();
        if size >= LIMIT {
            return false;
        }
        limit += size * u128::from(reach(&spans[sum.0 as usize]));
        if limit >= LIMIT {
            return false;
        }
    }
    true
}

// The greatest magnitude of a span's numbers, at least 1.
fn reach(span: &Span) -> u64
    ensures { result ≡ reach span.now }
{
    span.lo.unsigned_abs().max(span.hi.unsigned_abs()).max(1)
}

/// A small number.
pub fn small(number: &i128) -> i64
    requires { unsigned_abs number.now < 2 ^ 62 }
    ensures { result ≡ number.now }
{
    *number as i64
}

// Small sums as terms.
fn terms_of(alloc: Global, sums: &[(u32, i128)]) -> Result<Vec<Term>, AllocError>
    requires { All (λ sum. unsigned_abs sum.1 < 2 ^ 62) sums.now }
    ensures { IfOk result (λ terms. terms.items ≡ map as_term sums.now) }
{
    let mut terms = Vec::with_capacity(alloc, sums.len())?;
    for sum in sums {
        terms.push(term_of(sum))?;
    }
    Ok(terms)
}

// A small sum as a term.
fn term_of(sum: &(u32, i128)) -> Term
    requires { unsigned_abs sum.now.1 < 2 ^ 62 }
    ensures { result ≡ as_term sum.now }
{
    Term {
        var: sum.0,
        coef: small(&sum.1),
    }
}
