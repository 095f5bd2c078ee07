// Which of the cuts that were made are given: those that bind, and those that these were made of.
use crate::numbers::{is_set, set};
use basis_factor::{NONE, place};
use block_program::Blocked;
use bp_theory::{Cut, Items};
use std::alloc::{AllocError, Global};

/// The rows in front of the cuts that are made.
#[derive(Clone, Copy)]
pub struct Front {
    /// How many rows the model has.
    pub own: u32,
    /// The number of the first cut as proofs number rows, behind the links.
    pub first: u32,
    /// How many cuts the program had before.
    pub given: u32,
}

impl Front {
    /// The rows in front of cuts that are made behind a program's own.
    pub fn of(b: &Blocked) -> Front {
        let given = place(b.cuts().len());
        Front {
            own: b.model().rows(),
            first: b.named_rows().saturating_sub(given),
            given,
        }
    }

    /// Whether a cut may combine a row by its number: it is no link.
    pub fn is_combined(&self, number: u32) -> bool {
        number < self.own || number >= self.first
    }

    /// The place of a row by its number, links behind the cuts.
    pub fn relaxed_place(&self, number: u32) -> u32 {
        if number < self.own {
            number
        } else if number >= self.first {
            self.own.saturating_add(number - self.first)
        } else {
            number.saturating_add(self.given)
        }
    }

    /// How many places come before those of cuts that are made.
    pub fn behind(&self) -> u32 {
        self.own.saturating_add(self.given)
    }

    /// The number of a row by its place.
    pub fn number(&self, row: u32) -> u32 {
        if row < self.own {
            row
        } else {
            self.first.saturating_add(row - self.own)
        }
    }

    // The place of the row of a cut that was made.
    fn place(&self, made: usize) -> u32 {
        self.behind().saturating_add(place(made))
    }
}

/// The cuts that bind, and those that these were made of, with the numbers that they then have. Flags are by the
/// places of rows.
pub fn bound_cuts(
    alloc: Global,
    front: Front,
    made: &[Cut],
    is_wanted: &mut [bool],
) -> Result<Vec<Cut>, AllocError> {
    want_all(front, made, is_wanted);
    let mut places = Vec::from_elem(alloc, NONE, made.len())?;
    wanted(alloc, front, made, is_wanted, places.as_mut_slice())
}

// Wants the rows too that wanted cuts were made of.
fn want_all(front: Front, made: &[Cut], is_wanted: &mut [bool]) {
    for k in (0..made.len()).rev() {
        if is_set(is_wanted, front.place(k)) {
            for mult in made[k].rows.as_slice() {
                set(is_wanted, front.relaxed_place(mult.0));
            }
        }
    }
}

// The cuts that are wanted, whose places among them are written.
fn wanted(
    alloc: Global,
    front: Front,
    made: &[Cut],
    is_wanted: &[bool],
    places: &mut [u32],
) -> Result<Vec<Cut>, AllocError> {
    let mut cuts = Vec::new(alloc);
    for (k, cut) in made.iter().enumerate() {
        if k < places.len() && is_set(is_wanted, front.place(k)) {
            places[k] = front.place(cuts.len());
            cuts.push(renumbered(alloc, front, cut, places)?)?;
        }
    }
    Ok(cuts)
}

// A cut with other numbers of rows, where the cuts that were made have other places.
fn renumbered(alloc: Global, front: Front, cut: &Cut, places: &[u32]) -> Result<Cut, AllocError> {
    let mut rows = Items::new(alloc);
    for mult in cut.rows.as_slice() {
        let place = moved(front, front.relaxed_place(mult.0), places);
        rows.push((front.number(place), mult.1))?;
    }
    Ok(Cut { q: cut.q, rows })
}

// The new place of a row.
fn moved(front: Front, row: u32, places: &[u32]) -> u32 {
    let behind = front.behind();
    if row < behind {
        return row;
    }
    let made = (row - behind) as usize;
    if made < places.len() {
        places[made]
    } else {
        NONE
    }
}
