// Rows by variables.
ghost use Rattle.std.specs.Prelude.{◌≡◌, ◌+◌, ◌<◌, ◌^◌, ℕ, [], ◌∷◌, ◌++◌, length, vec_len, slice_index_or, slice_set, IfOk, OnOk, All};
ghost use Rattle.bp_theory.specs.Decomposition.{HasVariablesBelow};
ghost use Rattle.block_build.specs.Columns.{row_entries, column_from};

use bp_theory::{Items, Row, Term};
use std::alloc::{AllocError, Global};

/// For each variable its column: the rows in which it stands, numbered from a first number on, each with the variable's
/// coefficient.
pub fn columns_of(
    alloc: Global,
    vars: u32,
    first: u32,
    rows: &[Row],
) -> Result<Vec<Items<(u32, i64)>>, AllocError>
    requires few { first + length rows.now < 2 ^ 32 }
    requires known { All (λ row. HasVariablesBelow vars row.terms) rows.now }
    ensures each { IfOk result (λ columns. vec_len columns ≡ vars) }
    ensures columns { IfOk result (λ columns. (v : ℕ) → v < vars →
        slice_index_or columns.items v [] ≡ column_from first rows.now v) }
{
    let mut columns = empty_columns(alloc, vars as usize)?;
    for (number, row) in rows.iter().enumerate() {
        add_terms(&mut columns, first + number as u32, row.terms.as_slice())?;
    }
    Ok(columns)
}

// Columns without entries.
fn empty_columns(alloc: Global, count: usize) -> Result<Vec<Items<(u32, i64)>>, AllocError>
    ensures len { IfOk result (λ columns. vec_len columns ≡ count) }
    ensures empty { IfOk result (λ columns. (v : ℕ) → slice_index_or columns.items v [] ≡ []) }
{
    let mut columns = Vec::new(alloc);
    for _ in 0..count {
        columns.push(Items::new(alloc))?;
    }
    Ok(columns)
}

// Adds a row's terms to their variables' columns.
fn add_terms(
    columns: &mut Vec<Items<(u32, i64)>>,
    row: u32,
    terms: &[Term],
) -> Result<(), AllocError>
    requires { HasVariablesBelow (vec_len columns.old) terms.now }
    ensures len { vec_len columns.new ≡ vec_len columns.old }
    ensures added { OnOk result ((v : ℕ) → v < vec_len columns.old →
        slice_index_or columns.new.items v [] ≡ slice_index_or columns.old.items v [] ++
        row_entries row v terms.now) }
{
    for term in terms {
        add_term(columns, row, term)?;
    }
    Ok(())
}

// Adds a term of a row to its variable's column.
fn add_term(columns: &mut Vec<Items<(u32, i64)>>, row: u32, term: &Term) -> Result<(), AllocError>
    requires { term.now.var < vec_len columns.old }
    ensures len { vec_len columns.new ≡ vec_len columns.old }
    ensures added { OnOk result (columns.new.items ≡ slice_set columns.old.items term.now.var
        (slice_index_or columns.old.items term.now.var [] ++ row_entries row term.now.var
        (term.now ∷ []))) }
{
    columns[term.var as usize].push((row, term.coef))?;
    Ok(())
}
