// What a search for a point goes by: costs, how much each variable is wanted, and how much each row costs.
ghost use Rattle.std.specs.Prelude.{◌<◌, length};

use crate::reach::{at, product, put, quotient};
use crate::residuals::UNIT;
use block_program::{Blocked, MAX_SCALE};
use std::alloc::{AllocError, Global};

/// How much a unit of the mean counts against a unit of reduced cost.
const WEIGHT: i128 = 1024;

/// How many units of a row's multiplier count like one of what is wanted.
const PRICE_PARTS: i128 = 1024;

/// What a search for a point goes by.
#[derive(Drop)]
pub struct Guide {
    /// By variable, its cost, in ones.
    pub costs: Vec<i64>,
    /// By variable, how much more of it is wanted: the greater the more.
    pub wants: Vec<i128>,
    /// By row that proofs may name, how much its multiplier counts among rows that are alike.
    pub prices: Vec<i128>,
    /// Which row that is missed comes first.
    pub order: Order,
}

/// Which row that is missed comes first: that whose best variable is wanted most before its next one, or that with the
/// fewest open spans.
#[derive(Clone, Copy, Debug, PartialEq, Eq)]
pub enum Order {
    Urgent,
    Scarce,
}

/// More of a variable is wanted for a great mean and a small reduced cost at multipliers by row. Multipliers are at the
/// greatest scale, 1,048,576, and means are in units of 2^-20.
pub fn guide_of(
    alloc: Global,
    b: &Blocked,
    mults: &[i64],
    mean: &[i128],
) -> Result<Guide, AllocError> {
    let costs = dense_costs(alloc, b)?;
    let mut wants = reduced_costs(alloc, b, mults, costs.as_slice())?;
    weigh(wants.as_mut_slice(), mean);
    let mut prices = Vec::from_elem(alloc, 0i128, mults.len())?;
    price(prices.as_mut_slice(), mults);
    Ok(Guide {
        costs,
        wants,
        prices,
        order: Order::Urgent,
    })
}

/// More of a variable is wanted for a small reduced cost at multipliers by row, which are at the greatest scale, and
/// rows with few open spans come first.
pub fn plain_guide(alloc: Global, b: &Blocked, mults: &[i64]) -> Result<Guide, AllocError> {
    let costs = dense_costs(alloc, b)?;
    let mut wants = reduced_costs(alloc, b, mults, costs.as_slice())?;
    turn(wants.as_mut_slice());
    Ok(Guide {
        costs,
        wants,
        prices: Vec::from_elem(alloc, 0i128, mults.len())?,
        order: Order::Scarce,
    })
}

// Writes the negatives of numbers.
fn turn(numbers: &mut [i128]) {
    for number in numbers.iter_mut() {
        *number = number.saturating_neg();
    }
}

// Writes how much multipliers count.
fn price(prices: &mut [i128], mults: &[i64]) {
    let many = prices.len().min(mults.len());
    for i in 0..many {
        prices[i] = quotient(i128::from(mults[i].unsigned_abs()), PRICE_PARTS);
    }
}

// Weighs means against reduced costs.
fn weigh(wants: &mut [i128], mean: &[i128]) {
    let many = wants.len().min(mean.len());
    for i in 0..many {
        wants[i] = mean[i].saturating_mul(WEIGHT).saturating_sub(wants[i]);
    }
}

/// The cost of each variable, minimised and not scaled.
pub fn dense_costs(alloc: Global, b: &Blocked) -> Result<Vec<i64>, AllocError> {
    let mut costs = Vec::from_elem(alloc, 0i64, b.model().vars() as usize)?;
    for term in b.model().costs() {
        put(costs.as_mut_slice(), term.var as usize, term.coef);
    }
    Ok(costs)
}

/// The reduced cost of what has this cost, in ones, and these coefficients by row, at multipliers by row: both the
/// multipliers and the reduced cost are at the greatest scale. A sum that 128 bits don't hold stays at their end.
pub fn reduced_cost(cost: i64, coefs: &[(u32, i64)], mults: &[i64]) -> i128 {
    let mut reduced = i128::from(cost).saturating_mul(UNIT);
    for coef in coefs {
        reduced = reduced.saturating_sub(product(&coef.1, &at(mults, coef.0 as usize)));
    }
    reduced
}

/// The reduced cost of each variable at multipliers by row: both are at the greatest scale, while costs are in ones.
pub fn reduced_costs(
    alloc: Global,
    b: &Blocked,
    mults: &[i64],
    costs: &[i64],
) -> Result<Vec<i128>, AllocError> {
    let mut reduced = Vec::from_elem(alloc, 0i128, b.model().vars() as usize)?;
    scale(reduced.as_mut_slice(), costs);
    for row in 0..b.model().rows() {
        let mult = at(mults, row as usize);
        if mult != 0 {
            pay(b, row, &mult, reduced.as_mut_slice());
        }
    }
    Ok(reduced)
}

// Writes costs at the greatest scale.
fn scale(reduced: &mut [i128], costs: &[i64]) {
    let many = reduced.len().min(costs.len());
    for i in 0..many {
        reduced[i] = product(&costs[i], &i64::from(MAX_SCALE));
    }
}

// A row's payment for a multiplier taken from the reduced costs.
fn pay(b: &Blocked, row: u32, mult: &i64, reduced: &mut [i128])
    requires { row < length b.now.named.program.rows }
{
    for term in b.model().row(row).terms.as_slice() {
        let place = term.var as usize;
        if place < reduced.len() {
            reduced[place] = reduced[place].saturating_sub(product(mult, &term.coef));
        }
    }
}
