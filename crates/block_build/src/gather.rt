// The parts of a block, from the model's rows and costs.
ghost use Rattle.std.specs.Prelude.{◌≡◌, ◌<◌, ◌^◌, length, map, slice_index_or, All, IfOk, OnOk, if◌then◌else◌, ◌++◌, ◌∷◌, []};
ghost use Rattle.std.specs.List.Sorted.{IsStrictlyIncreasing};
ghost use Rattle.bp_theory.specs.Decomposition.{row_with_places, term_with_place};
ghost use Rattle.bp_theory.specs.declared.Row.{Row as ARow};
ghost use Rattle.block_build.specs.Gather.{homeless};
ghost use Rattle.block_build.specs.Columns.{master_entries};

use crate::stand::{block_at, place_of};
use bp_theory::{Items, Row, Term};
use std::alloc::{AllocError, Global};

/// The variables that stand in no block's row, in order.
pub fn homeless(alloc: Global, homes: &[Items<u32>]) -> Result<Vec<u32>, AllocError>
    requires { length homes.now < 2 ^ 32 }
    ensures vars { IfOk result (λ vars. vars.items ≡ homeless homes.now) }
    ensures below { IfOk result (λ vars. All (λ v. v < length homes.now) vars.items) }
{
    let mut vars = Vec::new(alloc);
    for v in 0..homes.len() {
        push_if(&mut vars, v as u32, homes[v].is_empty())?;
    }
    Ok(vars)
}

// One number more where it is wanted.
fn push_if(numbers: &mut Vec<u32>, number: u32, wanted: bool) -> Result<(), AllocError>
    ensures { OnOk result (numbers.new.items ≡
        (if wanted then numbers.old.items ++ number ∷ [] else numbers.old.items)) }
{
    if wanted {
        numbers.push(number)?;
    }
    Ok(())
}

/// The rows of these numbers, with places among these variables.
pub fn block_rows(
    alloc: Global,
    numbers: &[u32],
    vars: &[u32],
    rows: &[Row],
) -> Result<Vec<Row>, AllocError>
    requires there { All (λ i. i < length rows.now) numbers.now }
    requires few { length vars.now < 2 ^ 32 }
    requires ascend { IsStrictlyIncreasing vars.now }
    ensures { IfOk result (λ all. (d : ARow) → all.items ≡
        map (λ i. row_with_places vars.now (slice_index_or rows.now i d)) numbers.now) }
{
    let mut all = Vec::with_capacity(alloc, numbers.len())?;
    for number in numbers {
        let row = placed_row(alloc, &rows[*number as usize], vars)?;
        all.push(row)?;
    }
    Ok(all)
}

// A row with places in place of variables.
fn placed_row(alloc: Global, row: &Row, vars: &[u32]) -> Result<Row, AllocError>
    requires few { length vars.now < 2 ^ 32 }
    requires ascend { IsStrictlyIncreasing vars.now }
    ensures { IfOk result (λ placed. placed ≡ row_with_places vars.now row.now) }
{
    let terms = placed_terms(alloc, row.terms.as_slice(), vars)?;
    Ok(Row {
        sense: row.sense,
        low: row.low,
        rhs: row.rhs,
        terms: Items::from_vec(terms),
    })
}

// Terms with places in place of variables.
fn placed_terms(alloc: Global, terms: &[Term], vars: &[u32]) -> Result<Vec<Term>, AllocError>
    requires few { length vars.now < 2 ^ 32 }
    requires ascend { IsStrictlyIncreasing vars.now }
    ensures { IfOk result (λ placed. placed.items ≡ map (term_with_place vars.now) terms.now) }
{
    let mut placed = Vec::with_capacity(alloc, terms.len())?;
    for term in terms {
        placed.push(placed_term(term, vars))?;
    }
    Ok(placed)
}

// A term with the place of its variable.
fn placed_term(term: &Term, vars: &[u32]) -> Term
    requires few { length vars.now < 2 ^ 32 }
    requires ascend { IsStrictlyIncreasing vars.now }
    ensures { result ≡ term_with_place vars.now term.now }
{
    Term {
        var: place_of(vars, term.var) as u32,
        coef: term.coef,
    }
}

/// The entries of a column in master rows.
pub fn master_coefs(
    alloc: Global,
    column: &[(u32, i64)],
    places: &[Option<u32>],
) -> Result<Vec<(u32, i64)>, AllocError>
    ensures { IfOk result (λ coefs. coefs.items ≡ master_entries places.now column.now) }
{
    let mut coefs = Vec::new(alloc);
    for entry in column {
        push_entry_if(&mut coefs, entry, block_at(places, entry.0).is_none())?;
    }
    Ok(coefs)
}

// One entry more where it is wanted.
fn push_entry_if(
    entries: &mut Vec<(u32, i64)>,
    entry: &(u32, i64),
    wanted: bool,
) -> Result<(), AllocError>
    ensures { OnOk result (entries.new.items ≡
        (if wanted then entries.old.items ++ entry.now ∷ [] else entries.old.items)) }
{
    if wanted {
        entries.push(*entry)?;
    }
    Ok(())
}
