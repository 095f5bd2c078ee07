// Whole numbers that are divided, and numbers at places.
use bp_theory::Span;

/// A number less what it leaves when it is divided, from 0 to below the divisor.
pub fn remainder(number: i64, divisor: u32) -> i64 {
    number.rem_euclid(i64::from(divisor.max(1)))
}

/// A quotient rounded up.
pub fn rounded_up(number: i64, divisor: u32) -> i64 {
    let divisor = i64::from(divisor.max(1));
    let below = number.div_euclid(divisor);
    if number.rem_euclid(divisor) == 0 {
        below
    } else {
        below.saturating_add(1)
    }
}

/// The whole number at a place, 0 where there is none.
pub fn whole_at(numbers: &[i64], place: u32) -> i64 {
    let place = place as usize;
    if place < numbers.len() {
        numbers[place]
    } else {
        0
    }
}

/// The lower end of the span at a place, 0 where there is none.
pub fn low_at(spans: &[Span], place: u32) -> i64 {
    let place = place as usize;
    if place < spans.len() {
        spans[place].lo
    } else {
        0
    }
}

/// Whether a flag is set at a place.
pub fn is_set(flags: &[bool], place: u32) -> bool {
    let place = place as usize;
    place < flags.len() && flags[place]
}

/// Sets the flag at a place, if it is there.
pub fn set(flags: &mut [bool], place: u32) {
    let place = place as usize;
    if place < flags.len() {
        flags[place] = true;
    }
}
