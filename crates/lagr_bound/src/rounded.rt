// Bounds rounded up to whole costs.
ghost use Rattle.std.specs.Prelude.{◌≡◌, ◌+◌, ◌-◌, ◌*◌, ◌/◌, ◌^◌, ◌<◌, ◌≤◌, ◌<ℤ◌, pos, neg_ℤ};
ghost use Rattle.std.specs.Int.{int_min};
ghost use Rattle.bp_theory.specs.Sums.{round_up};

/// The greatest number of a text, at which rounded bounds are cut off.
const MOST: u128 = (1 << 62) - 1;

/// The least whole number not below `whole / scale`, no more than `2^62 - 1`.
pub fn round(scale: u32, whole: i128) -> i64
    requires scale { 1 ≤ scale }
    requires above { neg_ℤ (pos (scale * 2 ^ 62)) <ℤ whole }
    ensures { result ≡ int_min (round_up whole scale) (pos (2 ^ 62 - 1)) }
{
    if whole < 0 {
        below(scale, &whole)
    } else {
        up(scale, whole.unsigned_abs())
    }
}

// A quotient rounded up and cut off.
fn up(scale: u32, number: u128) -> i64
    requires scale { 1 ≤ scale }
    requires fits { number < 2 ^ 127 }
    ensures { result ≡ int_min (pos ((number + (scale - 1)) / scale)) (pos (2 ^ 62 - 1)) }
{
    let scale = u128::from(scale);
    let quotient = (number + (scale - 1)) / scale;
    if quotient < MOST {
        quotient as i64
    } else {
        MOST as i64
    }
}

// The quotient of a negative number rounded up.
fn below(scale: u32, whole: &i128) -> i64
    requires scale { 1 ≤ scale }
    requires above { neg_ℤ (pos (scale * 2 ^ 62)) <ℤ whole.now }
    requires negative { whole.now <ℤ pos 0 }
    ensures { result ≡ int_min (round_up whole.now scale) (pos (2 ^ 62 - 1)) }
{
    negated(whole.unsigned_abs() / u128::from(scale))
}

// A number's negative.
fn negated(number: u128) -> i64
    requires { number < 2 ^ 62 }
    ensures { result ≡ neg_ℤ (pos number) }
{
    -(number as i64)
}
