// Numbers in `f64` as whole numbers of parts, by which they are compared.
use std::num::saturating_f64_to_i64;

// The nearest whole number.
fn nearest(number: f64) -> i64 {
    saturating_f64_to_i64(if number < 0.0 {
        number - 0.5
    } else {
        number + 0.5
    })
}

/// A number in millionths.
pub fn millionths(number: f64) -> i64 {
    nearest(number * 1e6)
}

/// A number in thousand-millionths.
pub fn billionths(number: f64) -> i64 {
    nearest(number * 1e9)
}
