// Rows by variables.
ghost use Rattle.std.specs.Prelude.{◌≡◌, ◌+◌, ◌<◌, ◌^◌, ℕ, [], ◌∷◌, ◌++◌, length, vec_len, slice_index_or, slice_set, IfOk, OnOk, All};
ghost use Rattle.bp_theory.specs.Decomposition.{HasVariablesBelow};
ghost use Rattle.enumeration.specs.Columns.{row_entries, column_from, AreColumns};

use bp_theory::{Items, Row, Term};
use std::alloc::{AllocError, Global};

/// A term of a variable: its row's number and its coefficient.
#[derive(Clone, Copy)]
pub struct Entry {
    /// The number of the row, from 0.
    pub row: u32,
    /// The variable's coefficient there.
    pub coef: i128,
}

/// Columns without entries.
fn empty_columns(alloc: Global, count: usize) -> Result<Vec<Items<Entry>>, AllocError>
    ensures len { IfOk result (λ columns. vec_len columns ≡ count) }
    ensures empty { IfOk result (λ columns. (j : ℕ) → slice_index_or columns.items j [] ≡ []) }
{
    let mut columns = Vec::new(alloc);
    for _ in 0..count {
        columns.push(Items::new(alloc))?;
    }
    Ok(columns)
}

/// Adds a term of a row to its variable's column.
fn add_term(columns: &mut Vec<Items<Entry>>, row: u32, term: &Term) -> Result<(), AllocError>
    requires { term.now.var < vec_len columns.old }
    ensures len { vec_len columns.new ≡ vec_len columns.old }
    ensures added { OnOk result (columns.new.items ≡ slice_set columns.old.items term.now.var
        (slice_index_or columns.old.items term.now.var [] ++ row_entries row term.now.var
        (term.now ∷ []))) }
{
    let entry = Entry {
        row,
        coef: i128::from(term.coef),
    };
    columns[term.var as usize].push(entry)?;
    Ok(())
}

/// Adds a row's terms to their variables' columns.
fn add_terms(columns: &mut Vec<Items<Entry>>, row: u32, terms: &[Term]) -> Result<(), AllocError>
    requires { HasVariablesBelow (vec_len columns.old) terms.now }
    ensures len { vec_len columns.new ≡ vec_len columns.old }
    ensures added { OnOk result ((j : ℕ) → j < vec_len columns.old →
        slice_index_or columns.new.items j [] ≡ slice_index_or columns.old.items j [] ++
        row_entries row j terms.now) }
{
    for term in terms {
        add_term(columns, row, term)?;
    }
    Ok(())
}

/// The columns of rows over this many variables.
pub fn columns_of(
    alloc: Global,
    count: usize,
    rows: &[Row],
) -> Result<Vec<Items<Entry>>, AllocError>
    requires few { length rows.now < 2 ^ 32 }
    requires places { All (λ row. HasVariablesBelow count row.terms) rows.now }
    ensures len { IfOk result (λ columns. vec_len columns ≡ count) }
    ensures columns { IfOk result (λ columns. AreColumns rows.now columns.items) }
{
    let mut columns = empty_columns(alloc, count)?;
    for (number, row) in rows.iter().enumerate() {
        add_terms(&mut columns, number as u32, row.terms.as_slice())?;
    }
    Ok(columns)
}
