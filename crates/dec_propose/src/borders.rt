// Parts of an order of rows, cut where the fewest variables are open. (After Bergner, Caprara, Ceselli, Furini,
// Lübbecke, Malaguti and Traversi, 'Automatic Dantzig-Wolfe reformulation of mixed integer programs', 2015.)
use crate::columns::put;
use crate::marks::{crossing_marks, mark_variables, terms_of};
use bp_model::Model;
use std::alloc::{AllocError, Global};

/// How many variables are open behind each row of an order: stand in it or an earlier one, and in a later one.
pub fn open_counts(alloc: Global, m: &Model, order: &[u32]) -> Result<Vec<u32>, AllocError> {
    let mut known = Vec::from_elem(alloc, false, m.vars() as usize)?;
    let mut counts = ends_of(alloc, m, order)?;
    let mut open: u32 = 0;
    for place in 0..order.len() {
        let new = mark_variables(known.as_mut_slice(), terms_of(m, order[place]));
        if let Some(count) = counts.get_mut(place) {
            open = open.saturating_add(new).saturating_sub(*count);
            *count = open;
        }
    }
    Ok(counts)
}

// How many variables stand in each row of an order and in no later one.
fn ends_of(alloc: Global, m: &Model, order: &[u32]) -> Result<Vec<u32>, AllocError> {
    let mut lasts = Vec::from_elem(alloc, None, m.vars() as usize)?;
    let mut ends = Vec::from_elem(alloc, 0u32, order.len())?;
    for place in 0..order.len() {
        for term in terms_of(m, order[place]) {
            if let Some(last) = lasts.get_mut(term.var as usize) {
                *last = Some(place);
            }
        }
    }
    for last in lasts.as_slice() {
        if let Some(place) = last {
            if let Some(count) = ends.get_mut(*place) {
                *count = count.saturating_add(1);
            }
        }
    }
    Ok(ends)
}

/// Marks for the rows that cross the narrowest cuts of an order into so many parts, where so many variables are open behind
/// its rows: near the places of parts of one length, behind rows where the fewest variables are open.
pub fn border_marks(
    alloc: Global,
    m: &Model,
    order: &[u32],
    open: &[u32],
    count: u32,
) -> Result<Vec<bool>, AllocError> {
    let mut parts = Vec::from_elem(alloc, 0u32, m.rows() as usize)?;
    let mut part: u32 = 0;
    let mut cut = cut_near(open, 1, count);
    for place in 0..order.len() {
        put(parts.as_mut_slice(), order[place], part);
        if place == cut {
            part = part.saturating_add(1);
            cut = cut_near(open, part.saturating_add(1), count);
        }
    }
    crossing_marks(alloc, m, order, parts.as_slice())
}

// The place behind which the fewest variables are open, of those within a third of a part from a part's end.
fn cut_near(open: &[u32], part: u32, count: u32) -> usize {
    let middle = open.len().saturating_mul(part as usize) / (count as usize).max(1);
    let third = open.len() / (count as usize).saturating_mul(3).max(1);
    let from = middle.saturating_sub(third);
    let to = middle.saturating_add(third).min(open.len());
    let mut least = u32::MAX;
    let mut cut = middle;
    for place in from..to {
        if open[place] < least {
            least = open[place];
            cut = place;
        }
    }
    cut
}
