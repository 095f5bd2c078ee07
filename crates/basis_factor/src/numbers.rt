// Numbers at places of dense vectors, where nothing stands behind their ends.
use crate::vectors::Entry;

/// The place of what has none.
pub const NONE: u32 = u32::MAX;

/// A place as it is kept.
pub fn place(index: usize) -> u32 {
    match u32::try_from(index) {
        Ok(place) => place,
        Err(_) => NONE,
    }
}

/// The number at a place, 0 where there is none.
pub fn at(numbers: &[f64], place: usize) -> f64 {
    match numbers.get(place) {
        Some(number) => *number,
        None => 0.0,
    }
}

/// Writes a number at a place, if it is there.
pub fn put(numbers: &mut [f64], place: usize, number: f64) {
    if place < numbers.len() {
        numbers[place] = number;
    }
}

/// The place at an index, none where there is none.
pub fn place_at(places: &[u32], index: u32) -> u32 {
    match places.get(index as usize) {
        Some(place) => *place,
        None => NONE,
    }
}

/// Writes a place at an index, if it is there.
pub fn put_place(places: &mut [u32], index: u32, place: u32) {
    let index = index as usize;
    if index < places.len() {
        places[index] = place;
    }
}

/// Takes one from the count at an index, and says what is left.
pub fn count_down(counts: &mut [u32], index: u32) -> u32 {
    let index = index as usize;
    if index < counts.len() {
        let left = counts[index].saturating_sub(1);
        counts[index] = left;
        left
    } else {
        0
    }
}

/// Takes a multiple of a sparse vector from a dense one.
pub fn take_multiple(numbers: &mut [f64], entries: &[Entry], factor: f64) {
    for entry in entries {
        let place = entry.place as usize;
        if place < numbers.len() {
            numbers[place] -= entry.value * factor;
        }
    }
}

/// The product of a sparse vector and a dense one.
pub fn dot(numbers: &[f64], entries: &[Entry]) -> f64 {
    let mut sum = 0.0;
    for entry in entries {
        sum += entry.value * at(numbers, entry.place as usize);
    }
    sum
}
