// Items that are loaded unit by unit.
ghost use Rattle.std.specs.Prelude.{◌≡◌, ◌<◌, ◌≤◌, ◌^◌, ◌*◌, ◌≤ℤ◌, ℕ, neg_ℤ, unsigned_abs};
ghost use Rattle.bp_theory.specs.Program.{reach};
ghost use Rattle.pricing_problem.specs.Form.{HasShortEnds};
ghost use Rattle.knapsack_table.specs.Loads.{item_of, number_of};

use crate::coefs::gap_of;
use bp_theory::Span;

/// A variable of a row: the weight of a unit, how many units there are, and what a unit costs.
#[derive(Clone, Copy)]
pub struct Item {
    pub weight: u64,
    pub width: u64,
    pub cost: i128,
}

/// A number with its sign turned.
fn turned(number: &i128) -> i128
    requires { unsigned_abs number.now < 2 ^ 127 }
    ensures { result ≡ neg_ℤ number.now }
{
    -*number
}

/// The item of a variable.
pub fn make_item(coef: &i128, span: &Span, cost: &i128) -> Item
    requires narrow { unsigned_abs coef.now < 2 ^ 62 }
    requires proper { span.now.lo ≤ℤ span.now.hi }
    requires small { unsigned_abs cost.now < 2 ^ 127 }
    ensures { result ≡ item_of coef.now span.now cost.now }
{
    if *coef == 0 {
        return Item {
            weight: 0,
            width: 0,
            cost: 0,
        };
    }
    let weight = coef.unsigned_abs() as u64;
    let width = gap_of(span);
    if *coef > 0 {
        Item {
            weight,
            width,
            cost: *cost,
        }
    } else {
        Item {
            weight,
            width,
            cost: turned(cost),
        }
    }
}

/// The number of a variable with so many units loaded.
pub fn number_with(coef: &i128, span: &Span, cost: &i128, units: u64) -> i64
    requires proper { span.now.lo ≤ℤ span.now.hi }
    requires short { HasShortEnds span.now }
    requires fits { units ≤ (item_of coef.now span.now cost.now).width }
    ensures { result ≡ number_of coef.now span.now cost.now units }
{
    if *coef == 0 {
        return if *cost < 0 { span.hi } else { span.lo };
    }
    let offset = units as i64;
    if *coef > 0 {
        span.lo + offset
    } else {
        span.hi - offset
    }
}
