// Numbers at places of vectors, where nothing stands behind their ends.
use basis_factor::Entry;

/// The place of what has none.
pub const NONE: u32 = u32::MAX;

/// The number at a place, 0 where there is none.
pub fn at(numbers: &[f64], place: usize) -> f64 {
    match numbers.get(place) {
        Some(number) => *number,
        None => 0.0,
    }
}

/// Writes a number at a place, if it is there.
pub fn put(numbers: &mut [f64], place: usize, number: f64) {
    if place < numbers.len() {
        numbers[place] = number;
    }
}

/// The place at an index, none where there is none.
pub fn place_at(places: &[u32], index: usize) -> u32 {
    match places.get(index) {
        Some(place) => *place,
        None => NONE,
    }
}

/// Writes a place at an index, if it is there.
pub fn put_place(places: &mut [u32], index: usize, place: u32) {
    if index < places.len() {
        places[index] = place;
    }
}

/// Whether a mark at an index is set.
pub fn is_set(marks: &[bool], index: usize) -> bool {
    match marks.get(index) {
        Some(mark) => *mark,
        None => false,
    }
}

/// A number as a place.
pub fn place(index: usize) -> u32 {
    match u32::try_from(index) {
        Ok(place) => place,
        Err(_) => NONE,
    }
}

/// The product of a sparse vector and a dense one.
pub fn dot(numbers: &[f64], entries: &[Entry]) -> f64 {
    let mut sum = 0.0;
    for entry in entries {
        sum += entry.value * at(numbers, entry.place as usize);
    }
    sum
}
