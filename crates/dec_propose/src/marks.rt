// Marks of rows and variables.
use bp_model::{Model, Term};
use std::alloc::{AllocError, Global};

/// The terms of a row, none where the row isn't there.
pub fn terms_of(m: &Model, row: u32) -> &[Term] {
    match m.all_rows().get(row as usize) {
        Some(row) => row.terms.as_slice(),
        None => &[],
    }
}

/// Marks for rows in numbered parts: none for a row whose variables stand in rows of its part alone, of those that were left
/// unmarked before it.
pub fn crossing_marks(
    alloc: Global,
    m: &Model,
    order: &[u32],
    parts: &[u32],
) -> Result<Vec<bool>, AllocError> {
    let mut homes = Vec::from_elem(alloc, None, m.vars() as usize)?;
    let mut marks = Vec::from_elem(alloc, true, m.rows() as usize)?;
    for row in order {
        if let Some(part) = parts.get(*row as usize) {
            if let Some(mark) = marks.get_mut(*row as usize) {
                *mark = !settle(homes.as_mut_slice(), terms_of(m, *row), *part);
            }
        }
    }
    Ok(marks)
}

// Gives the variables of a row's terms its part as their home, unless one has another home: whether it could.
fn settle(homes: &mut [Option<u32>], terms: &[Term], part: u32) -> bool {
    for term in terms {
        if let Some(Some(home)) = homes.get(term.var as usize) {
            if *home != part {
                return false;
            }
        }
    }
    for term in terms {
        if let Some(home) = homes.get_mut(term.var as usize) {
            *home = Some(part);
        }
    }
    true
}

/// How many variables of terms weren't known; they are then.
pub fn mark_variables(known: &mut [bool], terms: &[Term]) -> u32 {
    let mut new: u32 = 0;
    for term in terms {
        if let Some(seen) = known.get_mut(term.var as usize) {
            if !*seen {
                *seen = true;
                new = new.saturating_add(1);
            }
        }
    }
    new
}
