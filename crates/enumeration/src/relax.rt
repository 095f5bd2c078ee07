// Costs with rows added to them: a bound on costs that uses how much the rows leave room for.
//
// A point keeps the sum of each row that it meets on one side. So a multiple of the row, of a sign that fits, comes to at
// most that multiple of the side, and the costs with such multiples added bound the cost of each point from below: by their
// least over a box, less what the sides come to (Geoffrion, Lagrangean relaxation for integer programming, 1974). At one row
// and its best multiplier that is the bound of the knapsack that is filled in the order of cost by weight, the last item in
// part (Dantzig, Discrete-variable extremum problems, 1957).

ghost use Rattle.std.specs.Prelude.{◌≡◌, ◌<◌, ◌≤◌, ◌+ℤ◌, ◌-ℤ◌, ◌*ℤ◌, ◌≤ℤ◌, ℕ, ℤ, List, pos, length, vec_len, map, IfOk, IfSome, FitsSigned};
ghost use Rattle.std.specs.Bool.{OnTrue};
ghost use Rattle.std.specs.Int.{w128};
ghost use Rattle.bp_theory.specs.Sums.{dot};
ghost use Rattle.bp_theory.specs.Program.{activity, MeetsRow};
ghost use Rattle.bp_theory.specs.Decomposition.{HasVariablesBelow};
ghost use Rattle.pricing_problem.specs.Form.{IsPriceable};
ghost use Rattle.enumeration.specs.Relax.{HasFittingSign, IsRelaxed, IsUndercut, paid_side};

use crate::form::Form;
use bp_theory::{Row, Sense, Span, Term};
use pricing_problem::is_priceable;
use std::alloc::{AllocError, Global};

/// What costs are multiplied by before multiples of rows are added, so that multipliers are fine.
const SCALE: u32 = 1 << 20;

/// Adjusted costs: at each point of the rows they sum up to at most the scale times its cost, and the offset.
#[derive(Drop)]
pub struct Relaxed {
    /// What the plain costs are multiplied by.
    pub scale: u32,
    /// What the multiples of the rows' sides sum up to.
    pub offset: i128,
    /// The adjusted cost of each variable.
    pub costs: Vec<i128>,
}

impl Relaxed {
    /// Room for the adjusted costs of this many variables.
    pub fn make(alloc: Global, count: usize) -> Result<Relaxed, AllocError>
        ensures { IfOk result (λ relaxed. vec_len relaxed.costs ≡ count) }
    {
        let costs = Vec::from_elem(alloc, 0, count)?;
        Ok(Relaxed {
            scale: 1,
            offset: 0,
            costs,
        })
    }

    /// The greatest sum of adjusted costs at a point that is cheaper than this, where 128 bits hold it.
    pub fn goal(&self, best: &i128) -> Option<i128>
        ensures { IfSome result (λ goal. goal ≡ self.now.offset +ℤ (best.now -ℤ pos 1) *ℤ pos
            self.now.scale) }
    {
        let cheaper = best.checked_sub(1)?;
        with_multiple(&self.offset, &cheaper, &i64::from(self.scale))
    }
}

/// A sum with a multiple of a number added, where 128 bits hold it.
fn with_multiple(sum: &i128, factor: &i128, number: &i64) -> Option<i128>
    ensures sum { IfSome result (λ z. z ≡ sum.now +ℤ factor.now *ℤ number.now) }
    ensures fits { IfSome result (λ z. FitsSigned w128 z) }
{
    let multiple = factor.checked_mul(i128::from(*number))?;
    sum.checked_add(multiple)
}

/// A multiplier where its sign fits a row's sense, else 0.
pub fn fitting(sense: &Sense, multiplier: &i128) -> i128
    ensures { HasFittingSign sense.now result }
{
    match sense {
        Sense::Le => (*multiplier).max(0),
        Sense::Ge => (*multiplier).min(0),
        Sense::Eq | Sense::In => *multiplier,
    }
}

/// The side of a row that a multiple of it stays below: the lower side for a negative one.
fn side_of(row: &Row, factor: &i128) -> i64
    ensures { result ≡ paid_side row.now factor.now }
{
    if *factor < 0 { row.low } else { row.rhs }
}

/// Adds a multiple of terms to costs. Tells whether 128 bits held it.
fn add_terms(costs: &mut Vec<i128>, terms: &[Term], factor: &i128) -> bool
    requires { HasVariablesBelow (vec_len costs.old) terms.now }
    ensures len { vec_len costs.new ≡ vec_len costs.old }
    ensures added { OnTrue result ((y : List ℤ) → length y ≡ vec_len costs.old →
        dot costs.new.items y ≡ dot costs.old.items y +ℤ factor.now *ℤ activity terms.now y) }
{
    for term in terms {
        let place = term.var as usize;
        match with_multiple(&costs[place], factor, &term.coef) {
            Some(sum) => costs[place] = sum,
            None => return false,
        }
    }
    true
}

/// Adds a multiple of a row, if its sign fits. Tells whether 128 bits held it.
fn add_row(relaxed: &mut Relaxed, row: &Row, multiplier: &i128) -> bool
    requires { HasVariablesBelow (vec_len relaxed.old.costs) row.now.terms }
    ensures len { vec_len relaxed.new.costs ≡ vec_len relaxed.old.costs }
    ensures scale { relaxed.new.scale ≡ relaxed.old.scale }
    ensures paid { OnTrue result ((y : List ℤ) → length y ≡ vec_len relaxed.old.costs →
        MeetsRow y row.now → (dot relaxed.new.costs.items y -ℤ relaxed.new.offset) ≤ℤ
        (dot relaxed.old.costs.items y -ℤ relaxed.old.offset)) }
{
    let factor = fitting(&row.sense, multiplier);
    let side = side_of(row, &factor);
    match with_multiple(&relaxed.offset, &factor, &side) {
        Some(offset) => relaxed.offset = offset,
        None => return false,
    }
    add_terms(&mut relaxed.costs, row.terms.as_slice(), &factor)
}

/// Multiplies costs by a scale. Tells whether 128 bits held it.
fn scale_costs(to: &mut Vec<i128>, costs: &[i128], scale: u32) -> bool
    requires { vec_len to.old ≡ length costs.now }
    ensures len { vec_len to.new ≡ vec_len to.old }
    ensures scaled { OnTrue result (to.new.items ≡ map (λ c. c *ℤ pos scale) costs.now) }
{
    for k in 0..costs.len() {
        match costs[k].checked_mul(i128::from(scale)) {
            Some(scaled) => to[k] = scaled,
            None => return false,
        }
    }
    true
}

/// A number of a list, 0 behind its end.
pub fn number_in(list: &[i128], place: usize) -> i128 {
    match list.get(place) {
        Some(number) => *number,
        None => 0,
    }
}

/// Adjusts costs by these multiples of the rows, as far as the signs fit. Tells whether 128 bits held them.
pub fn adjust(
    relaxed: &mut Relaxed,
    form: &Form,
    zone: &[Span],
    costs: &[i128],
    multipliers: &[i128],
) -> bool
    requires many { vec_len relaxed.old.costs ≡ vec_len form.now.spans }
    requires priceable { IsPriceable form.now.spans.items zone.now costs.now }
    ensures len { vec_len relaxed.new.costs ≡ vec_len relaxed.old.costs }
    ensures below { OnTrue result (IsUndercut form.now.rows.items zone.now costs.now relaxed.new) }
{
    relaxed.scale = SCALE;
    relaxed.offset = 0;
    if !scale_costs(&mut relaxed.costs, costs, SCALE) {
        return false;
    }
    for row in 0..form.rows.len() {
        let multiplier = number_in(multipliers, row);
        if !add_row(relaxed, &form.rows[row], &multiplier) {
            return false;
        }
    }
    true
}

/// Takes the plain costs for the adjusted ones.
fn keep_plain(relaxed: &mut Relaxed, costs: &[i128])
    requires { vec_len relaxed.old.costs ≡ length costs.now }
    ensures costs { relaxed.new.costs.items ≡ costs.now }
    ensures scale { relaxed.new.scale ≡ 1 }
    ensures offset { relaxed.new.offset ≡ pos 0 }
{
    relaxed.scale = 1;
    relaxed.offset = 0;
    for k in 0..costs.len() {
        relaxed.costs[k] = costs[k];
    }
}

/// Adjusts costs by these multiples of the rows where the sums stay small enough to be searched by, else not at all.
pub fn relax(
    relaxed: &mut Relaxed,
    form: &Form,
    zone: &[Span],
    costs: &[i128],
    multipliers: &[i128],
)
    requires many { vec_len relaxed.old.costs ≡ vec_len form.now.spans }
    requires priceable { IsPriceable form.now.spans.items zone.now costs.now }
    ensures { IsRelaxed form.now.spans.items form.now.rows.items zone.now costs.now relaxed.new }
{
    let held = adjust(relaxed, form, zone, costs, multipliers);
    if !held || !is_priceable(&form.spans, zone, &relaxed.costs) {
        keep_plain(relaxed, costs);
    }
}
