// The divisors that plain cuts are made with.
ghost use Rattle.std.specs.Prelude.{◌↔◌, ℕ, ◌<◌, IsTrue, MatchOption, unsigned_abs};
ghost use Rattle.std.specs.Int.{◌∣◌, IsGcd};
ghost use Rattle.cut_sums.specs.Plain.{IsDivisor, Sharpens};

use bp_theory::{Row, Term};

/// The greatest divisor of a cut, and the greatest magnitude of its multipliers.
pub const MAX_DIVISOR: u32 = 1 << 20;

/// The divisor that gives a row's plain cuts, where there is one: the greatest common divisor of its coefficients, from 2 to
/// 2^20, where it doesn't divide both sides.
pub fn sharpening(row: &Row) -> Option<u32>
    ensures { MatchOption result ((q : ℕ) → Sharpens row.now q → ⊥) (Sharpens row.now) }
{
    let q = divisor(row.terms.as_slice());
    let most = u64::from(MAX_DIVISOR);
    if q < 2 {
        return None;
    }
    if q > most {
        return None;
    }
    if divides_sides(row, q) {
        return None;
    }
    Some(q as u32)
}

// Whether a number divides both sides of a row.
fn divides_sides(row: &Row, q: u64) -> bool
    requires { 0 < q }
    ensures { IsTrue result ↔ ((q ∣ unsigned_abs row.now.low) × (q ∣ unsigned_abs row.now.rhs)) }
{
    divides(q, &row.low) && divides(q, &row.rhs)
}

// Whether a number divides another.
fn divides(q: u64, number: &i64) -> bool
    requires { 0 < q }
    ensures { IsTrue result ↔ (q ∣ unsigned_abs number.now) }
{
    number.unsigned_abs() % q == 0
}

// The greatest common divisor of coefficients, 0 of none.
fn divisor(terms: &[Term]) -> u64
    ensures { IsDivisor terms.now result }
{
    let mut q = 0;
    for term in terms {
        q = greatest_common_divisor(q, term.coef.unsigned_abs());
    }
    q
}

// The greatest common divisor of two numbers, by Euclid's algorithm.
fn greatest_common_divisor(a: u64, b: u64) -> u64
    ensures { IsGcd a b result }
{
    let mut x = a;
    let mut y = b;
    while y != 0 {
        let rest = x % y;
        x = y;
        y = rest;
    }
    x
}
