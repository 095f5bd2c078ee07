// A search's moves from zone to zone.
ghost use Rattle.std.specs.Prelude.{◌≡◌, ◌<◌, ◌≤ℤ◌, ◌↔◌, IsTrue, All, length, vec_len, slice_set};
ghost use Rattle.std.specs.Bool.{OnTrue, OnFalse};
ghost use Rattle.bp_theory.specs.Program.{span_at, IsWithin};
ghost use Rattle.bp_theory.specs.Trees.{IsSubspan};
ghost use Rattle.pricing_problem.specs.Form.{IsPriceable};
ghost use Rattle.pricing_problem.specs.Priced.{HasNoPoint};
ghost use Rattle.enumeration.specs.Columns.{column_from};
ghost use Rattle.enumeration.specs.Reach.{CanMeet, CanMeetRow};
ghost use Rattle.enumeration.specs.Best.{IsCovered, AllCovered};
ghost use Rattle.enumeration.specs.Relax.{IsRelaxed, IsSurpassed};
ghost use Rattle.enumeration.specs.Search.{IsTracked, IsPaid, IsKept, CanMeetAt, single};

use crate::dive::Dive;
use crate::form::Form;
use crate::relax::Relaxed;
use crate::shifts::{change_of_cost, shift_highs, shift_lows};
use bp_theory::{Row, Sense, Span};
use pricing_problem::plus;

/// Gives a variable another span.
pub fn place(
    dive: &mut Dive,
    form: &Form,
    zone: &[Span],
    costs: &[i128],
    relaxed: &Relaxed,
    var: usize,
    to: &Span,
)
    requires priceable { IsPriceable form.now.spans.items zone.now costs.now }
    requires adjusted { IsPriceable form.now.spans.items zone.now relaxed.now.costs.items }
    requires tracked { IsTracked form.now.rows.items zone.now costs.now dive.old }
    requires paid { IsPaid relaxed.now dive.old }
    requires there { var < length zone.now }
    requires part { IsSubspan to.now (span_at zone.now var) }
    requires proper { to.now.lo ≤ℤ to.now.hi }
    ensures zone { dive.new.zone.items ≡ slice_set dive.old.zone.items var to.now }
    ensures tracked { IsTracked form.now.rows.items zone.now costs.now dive.new }
    ensures paid { IsPaid relaxed.now dive.new }
    ensures kept { IsKept dive.old dive.new }
{
    let from = dive.zone[var];
    let column = form.columns[var].as_slice();
    shift_lows(&mut dive.lows, column, &from, to);
    shift_highs(&mut dive.highs, column, &from, to);
    let change = change_of_cost(&costs[var], &from, to);
    dive.least = plus(&dive.least, &change);
    let change_paid = change_of_cost(&relaxed.costs[var], &from, to);
    dive.paid = plus(&dive.paid, &change_paid);
    dive.zone[var] = *to;
}

/// Whether a least sum is at most a side.
fn stays_below(least: &i128, side: &i64) -> bool
    ensures { IsTrue result ↔ (least.now ≤ℤ side.now) }
{
    *least <= i128::from(*side)
}

/// Whether a greatest sum is at least a side.
pub fn reaches(most: &i128, side: &i64) -> bool
    ensures { IsTrue result ↔ (side.now ≤ℤ most.now) }
{
    i128::from(*side) <= *most
}

/// Whether a row's sum between these two can still meet its sides.
fn can_meet(row: &Row, least: &i128, most: &i128) -> bool
    ensures { IsTrue result ↔ CanMeet row.now.sense row.now.low row.now.rhs least.now most.now }
{
    match row.sense {
        Sense::Le => stays_below(least, &row.rhs),
        Sense::Ge => reaches(most, &row.low),
        Sense::Eq | Sense::In => reaches(most, &row.low) && stays_below(least, &row.rhs),
    }
}

/// Whether a row can still be met.
fn row_can_meet(dive: &Dive, form: &Form, zone: &[Span], costs: &[i128], row: usize) -> bool
    requires priceable { IsPriceable form.now.spans.items zone.now costs.now }
    requires tracked { IsTracked form.now.rows.items zone.now costs.now dive.now }
    requires there { row < vec_len form.now.rows }
    ensures yes { OnTrue result (CanMeetAt form.now.rows.items dive.now.zone.items row) }
    ensures no { OnFalse result (HasNoPoint form.now.rows.items dive.now.zone.items) }
{
    can_meet(&form.rows[row], &dive.lows[row], &dive.highs[row])
}

/// Whether each row in which a variable stands can still be met.
pub fn column_can_meet(dive: &Dive, form: &Form, zone: &[Span], costs: &[i128], var: usize) -> bool
    requires priceable { IsPriceable form.now.spans.items zone.now costs.now }
    requires tracked { IsTracked form.now.rows.items zone.now costs.now dive.now }
    requires there { var < length zone.now }
    ensures yes { OnTrue result (All (λ e. CanMeetAt form.now.rows.items dive.now.zone.items e.row)
        (column_from 0 form.now.rows.items var)) }
    ensures no { OnFalse result (HasNoPoint form.now.rows.items dive.now.zone.items) }
{
    let column = form.columns[var].as_slice();
    for entry in column {
        if !row_can_meet(dive, form, zone, costs, entry.row as usize) {
            return false;
        }
    }
    true
}

/// Whether each row can still be met.
pub fn rows_can_meet(dive: &Dive, form: &Form, zone: &[Span], costs: &[i128]) -> bool
    requires priceable { IsPriceable form.now.spans.items zone.now costs.now }
    requires tracked { IsTracked form.now.rows.items zone.now costs.now dive.now }
    ensures yes { OnTrue result (All (CanMeetRow dive.now.zone.items) form.now.rows.items) }
    ensures no { OnFalse result (HasNoPoint form.now.rows.items dive.now.zone.items) }
{
    for row in 0..form.rows.len() {
        if !row_can_meet(dive, form, zone, costs, row) {
            return false;
        }
    }
    true
}

/// Whether a point of the zone may be cheaper than the best so far.
pub fn may_improve(dive: &Dive) -> bool
    ensures yes { OnTrue result (IsCovered dive.now.best dive.now.least → ⊥) }
    ensures no { OnFalse result (IsCovered dive.now.best dive.now.least) }
{
    match &dive.best {
        Some(best) => dive.least < *best,
        None => true,
    }
}

/// Whether the adjusted costs allow a point of the zone that is cheaper than the best so far.
pub fn may_undercut(dive: &Dive, relaxed: &Relaxed) -> bool
    ensures no { OnFalse result (IsSurpassed relaxed.now dive.now.best dive.now.paid) }
{
    match &dive.best {
        Some(best) => match relaxed.goal(best) {
            Some(goal) => dive.paid <= goal,
            None => true,
        },
        None => true,
    }
}

/// The span of one number.
fn span_of(value: &i64) -> Span
    ensures { result ≡ single value.now }
{
    Span {
        lo: *value,
        hi: *value,
    }
}

/// Gives a variable one number, and tells whether a point that is cheaper than the best so far may be left.
pub fn place_value(
    dive: &mut Dive,
    form: &Form,
    zone: &[Span],
    costs: &[i128],
    relaxed: &Relaxed,
    var: usize,
    value: &i64,
) -> bool
    requires priceable { IsPriceable form.now.spans.items zone.now costs.now }
    requires relaxed { IsRelaxed form.now.spans.items form.now.rows.items zone.now costs.now
        relaxed.now }
    requires tracked { IsTracked form.now.rows.items zone.now costs.now dive.old }
    requires paid { IsPaid relaxed.now dive.old }
    requires there { var < length zone.now }
    requires part { IsWithin (span_at zone.now var) value.now }
    requires others { All (CanMeetRow (slice_set dive.old.zone.items var (span_at zone.now var)))
        form.now.rows.items }
    ensures zone { dive.new.zone.items ≡ slice_set dive.old.zone.items var (single value.now) }
    ensures tracked { IsTracked form.now.rows.items zone.now costs.now dive.new }
    ensures paid { IsPaid relaxed.now dive.new }
    ensures kept { IsKept dive.old dive.new }
    ensures yes { OnTrue result (All (CanMeetRow dive.new.zone.items) form.now.rows.items) }
    ensures no { OnFalse result (AllCovered form.now.rows.items dive.new.zone.items costs.now
        dive.new.best) }
{
    let one = span_of(value);
    place(dive, form, zone, costs, relaxed, var, &one);
    if !may_improve(dive) {
        return false;
    }
    if !may_undercut(dive, relaxed) {
        return false;
    }
    column_can_meet(dive, form, zone, costs, var)
}
