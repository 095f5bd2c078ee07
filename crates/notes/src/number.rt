// The numbers of LP texts.

/// What a number of an LP text is.
#[derive(Clone, Copy)]
pub enum Number {
    /// A whole number up to `2^62 - 1`.
    Whole(i64),
    /// One that is not whole.
    Part,
    /// A whole number past `2^62 - 1`.
    Large,
    /// A whole number of `10^20` or more.
    Endless,
}

// The greatest number.
const MOST: u64 = (1 << 62) - 1;

// The digits of the least endless number.
const ENDLESS_DIGITS: i64 = 21;

// A number's digits without the zeros at its ends, and where they stand.
#[derive(Clone, Copy)]
struct Digits {
    // The digits from the first to the last that is not 0, as long as they fit.
    value: u64,
    // Whether `value` lacks some of them, since all do not fit.
    past: bool,
    // How many they are, zeros among them included; 0 where no digit but 0 came.
    count: i64,
    // How many zeros came behind them.
    zeros: i64,
    // How many digits came behind the point, zeros included.
    places: i64,
    // Whether the point came.
    point: bool,
}

impl Digits {
    fn none() -> Digits {
        Digits {
            value: 0,
            past: false,
            count: 0,
            zeros: 0,
            places: 0,
            point: false,
        }
    }

    // With a further byte of a mantissa.
    fn with(self, b: u8) -> Digits {
        let mut next = self;
        if b == b'.' {
            next.point = true;
            return next;
        }
        if next.point {
            next.places = next.places.saturating_add(1);
        }
        if b == b'0' {
            if next.count > 0 {
                next.zeros = next.zeros.saturating_add(1);
            }
            return next;
        }
        let shift = next.zeros.saturating_add(1);
        next.count = next.count.saturating_add(shift);
        next.zeros = 0;
        match appended(next.value, shift, b.saturating_sub(b'0')) {
            Some(value) => next.value = value,
            None => next.past = true,
        }
        next
    }

    // The number with an exponent.
    fn number(self, exponent: i64) -> Number {
        if self.count == 0 {
            return Number::Whole(0);
        }
        let shift = self
            .zeros
            .saturating_sub(self.places)
            .saturating_add(exponent);
        if shift < 0 {
            return Number::Part;
        }
        if self.count.saturating_add(shift) >= ENDLESS_DIGITS {
            return Number::Endless;
        }
        if self.past {
            return Number::Large;
        }
        match shifted(self.value, shift) {
            Some(value) if value <= MOST => Number::Whole(value as i64),
            _ => Number::Large,
        }
    }
}

// A number with zeros behind it, where it fits.
fn shifted(value: u64, zeros: i64) -> Option<u64> {
    if value == 0 {
        return Some(0);
    }
    if zeros > 20 {
        return None;
    }
    let mut all = value;
    for _ in 0..zeros {
        all = all.checked_mul(10)?;
    }
    Some(all)
}

// A number with so many digits more: zeros, and a last one.
fn appended(value: u64, count: i64, digit: u8) -> Option<u64> {
    match shifted(value, count) {
        Some(all) => all.checked_add(u64::from(digit)),
        None => None,
    }
}

// The exponent that digits with a sign mean; far ones are read as one that is past every limit.
fn exponent_of(bytes: &[u8]) -> i64 {
    let mut value: i64 = 0;
    let mut negative = false;
    for b in bytes {
        if *b == b'-' {
            negative = true;
        } else if b.is_ascii_digit() {
            value = value
                .saturating_mul(10)
                .saturating_add(i64::from(b.saturating_sub(b'0')))
                .min(1_000_000_000_000);
        }
    }
    if negative {
        value.saturating_neg()
    } else {
        value
    }
}

/// What a number's token is.
pub fn number_of(token: &[u8]) -> Number {
    let mut digits = Digits::none();
    for (at, b) in token.iter().enumerate() {
        if *b == b'e' || *b == b'E' {
            return digits.number(exponent_of(&token[at..]));
        }
        digits = digits.with(*b);
    }
    digits.number(0)
}

/// The number that digits are; those past a million are read as that. None where there is no digit, or another byte.
pub fn number_in(digits: &[u8]) -> Option<u64> {
    let mut number = None;
    for b in digits {
        if !b.is_ascii_digit() {
            return None;
        }
        let before: u64 = number.unwrap_or(0);
        let next = before
            .saturating_mul(10)
            .saturating_add(u64::from(b.saturating_sub(b'0')));
        number = Some(next.min(1_000_000));
    }
    number
}
