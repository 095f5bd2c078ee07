// How far the sums of a row or an objective may go past the most that is allowed.
use crate::grammar::Symbol;
use crate::number::{Number, number_of};
use crate::reading::Reading;
use lp_token::TokKind;
use std::alloc::{AllocError, Global};
use std::collections::BTreeMap;

// The greatest sum.
const MOST: u128 = (1 << 62) - 1;

/// The digits of a number such that each number of so many is at most the greatest sum.
pub const SAFE_DIGITS: u64 = 18;

/// How far a sum goes past the most that is allowed.
#[derive(Clone, Copy)]
pub struct Excess {
    /// How many decimal digits it has.
    pub digits: u64,
    /// The least power of ten, by its exponent, that it has to be divided by.
    pub scale: u64,
}

// A row or an objective that is being read.
#[derive(Drop)]
struct Sum {
    // Whether it is the objective, whose constants add up.
    is_goal: bool,
    // The coefficient of each variable so far, by the variable's number.
    coefficients: BTreeMap<usize, i128>,
    // The constant of an objective; the greatest side of a row.
    constant: i128,
    // The number that came last, which a name or none may follow.
    number: Option<i64>,
    // Whether the signs before the next term are negative together.
    negative: bool,
}

/// How far the sum that a token begins goes past the most that is allowed within the bounds; none where it does not, or where
/// the excess is too large to be told.
pub fn excess_of(
    alloc: Global,
    text: &[u8],
    reading: &Reading,
    at: usize,
) -> Result<Option<Excess>, AllocError> {
    let mut sum = Sum {
        is_goal: at == 0,
        coefficients: BTreeMap::new(alloc),
        constant: 0,
        number: None,
        negative: false,
    };
    for token in at..sum_end(reading, at) {
        sum.take(text, reading, token)?;
    }
    sum.close();
    Ok(match sum.size(reading) {
        Some(size) => excess_in(size),
        None => None,
    })
}

// Where the row or the objective ends that a token begins: one place behind its last token.
fn sum_end(reading: &Reading, at: usize) -> usize {
    for place in at.saturating_add(1)..usize::MAX {
        match reading.token(place) {
            Some(token) if token.kind != TokKind::Word && !reading.begins_at(place) => {}
            _ => return place,
        }
    }
    usize::MAX
}

impl Sum {
    // Takes a token.
    fn take(&mut self, text: &[u8], reading: &Reading, at: usize) -> Result<(), AllocError> {
        let bytes = reading.bytes(text, at);
        match reading.symbol(text, at) {
            Symbol::Sign => {
                self.close();
                self.negative = self.negative != (bytes == b"-".as_slice());
            }
            Symbol::Number => self.number = Some(whole_of(bytes)),
            Symbol::Name => return self.add(reading.place(bytes)),
            _ => self.close(),
        }
        Ok(())
    }

    // Takes the number that came last as a constant or a side, where there is one.
    fn close(&mut self) {
        let Some(number) = self.number else {
            return;
        };
        let signed = self.signed(number);
        self.constant = if self.is_goal {
            self.constant.saturating_add(signed)
        } else {
            self.constant.max(i128::from(number))
        };
        self.number = None;
        self.negative = false;
    }

    // A number with the signs before it.
    fn signed(&self, number: i64) -> i128 {
        let number = i128::from(number);
        if self.negative {
            number.saturating_neg()
        } else {
            number
        }
    }

    // Adds a term of the variable of this number.
    fn add(&mut self, place: Option<usize>) -> Result<(), AllocError> {
        let term = self.signed(self.number.unwrap_or(1));
        self.number = None;
        self.negative = false;
        if let Some(place) = place {
            let before = match self.coefficients.get(&place) {
                Some(before) => *before,
                None => 0,
            };
            self.coefficients
                .insert(place, before.saturating_add(term))?;
        }
        Ok(())
    }

    // The greatest size of the sum with its constant or side; none where it does not fit.
    fn size(&self, reading: &Reading) -> Option<u128> {
        let mut size = self.constant.unsigned_abs();
        for (place, coefficient) in &self.coefficients {
            let reach = u128::from(reading.reach(*place));
            size = size.checked_add(coefficient.unsigned_abs().checked_mul(reach)?)?;
        }
        Some(size)
    }
}

// The value of a number's token; 0 of one that is not whole.
fn whole_of(token: &[u8]) -> i64 {
    match number_of(token) {
        Number::Whole(value) => value,
        _ => 0,
    }
}

// How far a number goes past the most; none where it does not.
fn excess_in(size: u128) -> Option<Excess> {
    let mut rest = size;
    let mut found = Excess {
        digits: 0,
        scale: 0,
    };
    for _ in 0..40 {
        if rest > MOST {
            found.scale = found.scale.saturating_add(1);
        }
        if rest > 0 {
            found.digits = found.digits.saturating_add(1);
        }
        rest /= 10;
    }
    (found.scale > 0).then_some(found)
}
