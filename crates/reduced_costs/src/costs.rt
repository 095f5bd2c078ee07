// What a proof gives before the blocks, and the reduced costs of copies.
ghost use Rattle.std.specs.Prelude.{◌≡◌, ◌^◌, ◌<◌, ◌≤◌, ◌*ℤ◌, ℤ, pos, map, length, All, unsigned_abs, slice_index_or};
ghost use Rattle.std.specs.List.Sorted.{IsStrictlyIncreasing};
ghost use Rattle.bp_theory.specs.Limits.{greatest_multiplier, number_limit, price_limit};
ghost use Rattle.bp_theory.specs.Sums.{sum_of, sum_at};
ghost use Rattle.bp_theory.specs.Blocking.{Copy, row_at};
ghost use Rattle.bp_theory.specs.Bound.{base, reduced_cost, side_at, side};
ghost use Rattle.reduced_costs.specs.Sizes.{IsSmallCopy, IsSmallProof, base_size, most_named_rows};

use block_program::{Block, Blocked};
use bp_theory::{MasterRow, Proof};
use pricing_problem::{minus, plus};

/// What a proof gives before the blocks, at its scale: scale times constant, and multipliers times sides of their rows.
pub fn base(b: &Blocked, proof: &Proof) -> i128
    requires { base_size b.now.blocking proof.now ≤ price_limit }
    ensures { result ≡ base b.now.blocking proof.now }
{
    let mut sum = scaled(proof.scale, &b.model().constant());
    for mult in proof.mults.as_slice() {
        let more = side_product(b, mult);
        sum = plus(&sum, &more);
    }
    sum
}

/// The reduced cost of the copy at a place of a block, at the proof's scale: scale times cost, less multipliers times
/// coefficients.
pub fn reduced_cost(block: &Block, place: u32, proof: &Proof) -> i128
    requires there { place < length block.now.block.copies }
    requires copies { All IsSmallCopy block.now.block.copies }
    requires proof { IsSmallProof proof.now }
    ensures { (d : Copy) → result ≡ reduced_cost proof.now
        (slice_index_or block.now.block.copies place d) }
{
    let cost = scaled(proof.scale, &block.costs()[place as usize]);
    let paid = payment(proof.mults.as_slice(), block.master(place));
    minus(&cost, &paid)
}

// A scale times a number.
fn scaled(scale: u32, number: &i64) -> i128
    ensures { result ≡ pos scale *ℤ number.now }
{
    i128::from(scale) * i128::from(*number)
}

// A multiplier times the side of its row.
fn side_product(b: &Blocked, mult: &(u32, i64)) -> i128
    ensures { result ≡ mult.now.1 *ℤ side_at (row_at b.now.blocking mult.now.0) mult.now.1 }
{
    match b.master_row(mult.0) {
        None => 0,
        Some(row) => product(&mult.1, &side(&row, &mult.1)),
    }
}

// The side of a row for a multiplier: the lower for a positive one, else the upper.
fn side(row: &MasterRow, mult: &i64) -> i64
    ensures { result ≡ side row.now mult.now }
{
    if *mult > 0 { row.low } else { row.rhs }
}

// Multipliers times the coefficients of their rows.
fn payment(mults: &[(u32, i64)], coefs: &[(u32, i64)]) -> i128
    requires sizes { All (λ m. unsigned_abs m.1 ≤ greatest_multiplier) mults.now }
    requires ascend { IsStrictlyIncreasing (map (λ m. m.0) mults.now) }
    requires few { length coefs.now ≤ most_named_rows }
    requires coefs { All (λ e. unsigned_abs e.1 < number_limit) coefs.now }
    ensures value { result ≡ sum_of (λ m. m.1 *ℤ sum_at (λ e. e.0) (λ e. e.1) coefs.now m.0)
        mults.now }
    ensures size { unsigned_abs result ≤ price_limit }
{
    let mut sum = 0;
    for coef in coefs {
        let more = coef_product(mults, coef);
        sum = plus(&sum, &more);
    }
    sum
}

// The multiplier of a row times a coefficient in it.
fn coef_product(mults: &[(u32, i64)], coef: &(u32, i64)) -> i128
    requires { IsStrictlyIncreasing (map (λ m. m.0) mults.now) }
    ensures { result ≡ sum_at (λ m. m.0) (λ m. m.1) mults.now coef.now.0 *ℤ coef.now.1 }
{
    product(&multiplier(mults, coef.0), &coef.1)
}

// The multiplier of a row, 0 where it has none. It is looked for at the row's own place first: where most rows have
// multipliers, it is there or, by the number of the row that is, not far below. Else the rest is halved.
fn multiplier(mults: &[(u32, i64)], row: u32) -> i64
    requires { IsStrictlyIncreasing (map (λ m. m.0) mults.now) }
    ensures { result ≡ sum_at (λ m. m.0) (λ m. m.1) mults.now row }
{
    let mut from = 0;
    let mut to = mults.len();
    let mut guess = row as usize;
    while from < to {
        let place = within(guess, from, to);
        let here = &mults[place];
        if here.0 == row {
            return number(here);
        }
        if here.0 < row {
            from = place + 1;
            guess = from + (to - from) / 2;
        } else {
            to = place;
            guess = place.saturating_sub((here.0 - row) as usize);
        }
    }
    0
}

// The place that is nearest to a guess, of those from one on and below another.
fn within(guess: usize, from: usize, to: usize) -> usize
    requires { from < to }
    ensures from { from ≤ result }
    ensures to { result < to }
{
    if guess < from {
        from
    } else if guess < to {
        guess
    } else {
        to - 1
    }
}

// The number of a row.
fn number(entry: &(u32, i64)) -> i64
    ensures { result ≡ entry.now.1 }
{
    entry.1
}

// The product of two numbers.
fn product(a: &i64, b: &i64) -> i128
    ensures { result ≡ a.now *ℤ b.now }
{
    i128::from(*a) * i128::from(*b)
}
