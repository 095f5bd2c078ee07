// Combinations of rows, and which of them cut the values off when they are rounded.
use crate::numbers::rounded_up;
use crate::state::State;
use basis_factor::place;
use std::alloc::{AllocError, Global};
use std::num::{nearest_i64_to_f64, saturating_f64_to_i64};

// By how much of its length a cut is to be missed.
const LEAST_VIOLATION: f64 = 1e-3;

// The greatest coefficient of a cut, and how many variables it may have: so many, and a half of all.
const MOST_COEFFICIENT: i64 = 1_000_000;

const SUPPORT: usize = 40;

// How much all combinations may take, in numbers that are looked at.
const WORK: u64 = 1 << 27;

// One in units of keys, by which violations are ordered.
const UNIT: f64 = 1e9;

/// A cut that the values miss.
#[derive(Drop)]
pub struct Found {
    /// The multipliers of the rows that it combines, by their places, ascending.
    pub mults: Vec<(u32, i64)>,
    /// The divisor.
    pub q: u32,
    /// Its coefficients that aren't 0, by variable.
    pub coefs: Vec<(u32, i64)>,
    /// The sum of their squares.
    pub square: f64,
    /// By how much it is missed for its length, in billionths: the greater the more.
    pub key: i64,
    /// Whether the round takes it.
    pub is_taken: bool,
}

// A variable in the combination at hand.
#[derive(Clone, Copy)]
struct Slot {
    // Its coefficient.
    sum: i64,
    // Whether a row with it was added.
    is_touched: bool,
}

// That of a variable which no row that was added has.
const UNTOUCHED: Slot = Slot {
    sum: 0,
    is_touched: false,
};

/// The combination at hand, and what was found. Sums that leave 64 bits stand at an end: the row of what is taken is computed
/// exactly. Where memory is wanting nothing more is looked at, and what was found can't be taken.
pub struct Trial {
    /// By variable, its coefficient in the combination.
    slots: Vec<Slot>,
    /// The variables of the rows that were added, each once.
    touched: Vec<u32>,
    /// The multipliers of these rows, by their places.
    mults: Vec<(u32, i64)>,
    /// The combination of the rows' sides.
    side: i64,
    /// The cuts that the values miss.
    found: Vec<Found>,
    /// How many numbers were looked at.
    work: u64,
    /// Whether memory was wanting.
    is_short: bool,
}

impl Drop for Trial {
    fn drop(self) {
        let Trial {
            slots: _,
            touched: _,
            mults: _,
            side: _,
            found: _,
            work: _,
            is_short: _,
        } = self;
    }
}

impl Trial {
    /// Nothing combined yet, of so many variables.
    pub fn make(alloc: Global, vars: usize) -> Result<Trial, AllocError> {
        let slots = Vec::from_elem(alloc, UNTOUCHED, vars)?;
        Ok(Trial {
            slots,
            touched: Vec::new(alloc),
            mults: Vec::new(alloc),
            side: 0,
            found: Vec::new(alloc),
            work: 0,
            is_short: false,
        })
    }

    /// Begins another combination.
    pub fn clear(&mut self) {
        for var in &self.touched {
            let place = *var as usize;
            if place < self.slots.len() {
                self.slots[place] = UNTOUCHED;
            }
        }
        self.touched.clear();
        self.mults.clear();
        self.side = 0;
    }

    /// Adds a row, by its place, times a multiplier: a whole number without a scale.
    pub fn add(&mut self, state: &State, row: u32, mult: i64) {
        let Some((side, terms)) = state.sided(row) else {
            return;
        };
        add_to(&mut self.mults, (row, mult), &mut self.is_short);
        self.side = self.side.saturating_add(side.number.saturating_mul(mult));
        self.spend(terms.len());
        for term in terms {
            let place = term.var as usize;
            if place < self.slots.len() {
                let slot = self.slots[place];
                let more = term.coef.saturating_mul(mult);
                self.slots[place] = Slot {
                    sum: slot.sum.saturating_add(more),
                    is_touched: true,
                };
                if !slot.is_touched {
                    add_to(&mut self.touched, term.var, &mut self.is_short);
                }
            }
        }
    }

    /// The coefficient of a variable in the combination.
    pub fn sum(&self, var: u32) -> i64 {
        let place = var as usize;
        if place < self.slots.len() {
            self.slots[place].sum
        } else {
            0
        }
    }

    /// Notes that so many numbers were looked at.
    pub fn spend(&mut self, numbers: usize) {
        self.work = self.work.saturating_add(u64::from(place(numbers)));
    }

    /// Whether all that may be looked at was, or memory is wanting.
    pub fn is_spent(&self) -> bool {
        self.is_short || self.work > WORK
    }

    /// Notes that memory is wanting.
    pub fn fall_short(&mut self) {
        self.is_short = true;
    }

    /// Keeps the combination divided by a divisor, where the values miss it by enough. It is used up.
    pub fn judge(&mut self, alloc: Global, state: &State, q: u32) {
        let many = self.touched.len();
        self.spend(many);
        let score = self.score(state, q);
        let most = SUPPORT.saturating_add(self.slots.len() / 2);
        if score.violation > LEAST_VIOLATION && score.support < most {
            if self.keep(alloc, q, &score).is_err() {
                self.fall_short();
            }
        }
    }

    // Keeps the combination divided by a divisor.
    fn keep(&mut self, alloc: Global, q: u32, score: &Score) -> Result<(), AllocError> {
        let coefs = self.coefs(alloc, q)?;
        let mut mults = std::mem::replace(&mut self.mults, Vec::new(alloc));
        mults.sort_unstable();
        self.found.push(Found {
            mults,
            q,
            coefs,
            square: score.square,
            key: saturating_f64_to_i64(score.violation * UNIT),
            is_taken: false,
        })?;
        Ok(())
    }

    // The coefficients that aren't 0 of the combination divided by a divisor.
    fn coefs(&self, alloc: Global, q: u32) -> Result<Vec<(u32, i64)>, AllocError> {
        let mut coefs = Vec::new(alloc);
        for var in &self.touched {
            let coef = rounded_up(self.sum(*var), q);
            if coef != 0 {
                coefs.push((*var, coef))?;
            }
        }
        Ok(coefs)
    }

    /// What was found, the most missed first.
    pub fn take_found(&mut self, alloc: Global) -> Result<Vec<Found>, AllocError> {
        if self.is_short {
            return Err(AllocError);
        }
        let mut found = std::mem::replace(&mut self.found, Vec::new(alloc));
        found.sort_by_key(|cut| cut.key.saturating_neg())?;
        Ok(found)
    }

    // The score of the combination divided by a divisor; that of no cut where a coefficient is too large.
    fn score(&self, state: &State, q: u32) -> Score {
        let mut score = Score {
            violation: 0.0,
            square: 0.0,
            support: 0,
        };
        let mut rest = self.side;
        let mut sum = 0.0;
        for var in &self.touched {
            let coef = self.sum(*var);
            rest = rest.saturating_sub(coef.saturating_mul(state.low(*var)));
            let rounded = rounded_up(coef, q);
            if rounded.saturating_abs() > MOST_COEFFICIENT {
                return score;
            }
            if rounded != 0 {
                let number = nearest_i64_to_f64(rounded);
                sum += number * state.above(*var);
                score.square += number * number;
                score.support = score.support.saturating_add(1);
            }
        }
        let length = f64::max(score.square, 1.0).sqrt();
        score.violation = (nearest_i64_to_f64(rounded_up(rest, q)) - sum) / length;
        score
    }
}

// Adds an item to a list, or notes that memory is wanting.
fn add_to<T: Drop>(list: &mut Vec<T>, item: T, is_short: &mut bool) {
    if list.push(item).is_err() {
        *is_short = true;
    }
}

// How good a cut is.
#[derive(Clone, Copy)]
struct Score {
    // By how much the values miss it for its length.
    violation: f64,
    // The sum of the squares of its coefficients.
    square: f64,
    // How many variables it has.
    support: usize,
}
