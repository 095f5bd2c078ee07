// One level of the search: the numbers of one variable.
ghost use Rattle.std.specs.Prelude.{◌≡◌, ◌<◌, ◌+◌, ◌≤ℤ◌, pos, IfSome, IfNone, All, length, slice_set, slice_index_or};
ghost use Rattle.std.specs.Bool.{OnTrue, OnFalse};
ghost use Rattle.bp_theory.specs.Program.{IsWithin, span_at};
ghost use Rattle.bp_theory.specs.Classes.{width};
ghost use Rattle.pricing_problem.specs.Form.{IsPriceable, HasShortEnds};
ghost use Rattle.enumeration.specs.Reach.{CanMeetRow};
ghost use Rattle.enumeration.specs.Best.{AllCovered};
ghost use Rattle.enumeration.specs.Relax.{IsRelaxed};
ghost use Rattle.enumeration.specs.Search.{IsTracked, IsPaid, IsKept, IsOver, Follows, single, step_value};
ghost use Rattle.enumeration.specs.Levels.{AreCoveredTo};

use crate::dive::Dive;
use crate::form::Form;
use crate::moves::{may_improve, may_undercut, place, place_value};
use crate::relax::Relaxed;
use crate::subproblem::Subproblem;
use bp_theory::Span;

/// How many numbers a span has.
fn count_of(span: &Span) -> u64
    requires short { HasShortEnds span.now }
    requires proper { span.now.lo ≤ℤ span.now.hi }
    ensures { result ≡ width span.now }
{
    span.hi.abs_diff(span.lo) + 1
}

/// The number at a step of a span, from its lower end up or from its upper end down.
fn value_at(span: &Span, up: bool, step: u64) -> i64
    requires short { HasShortEnds span.now }
    requires there { step < width span.now }
    ensures value { result ≡ step_value up span.now step }
    ensures within { IsWithin span.now result }
{
    let offset = step as i64;
    if up {
        span.lo + offset
    } else {
        span.hi - offset
    }
}

/// Gives a variable its whole span back.
fn give_back(
    dive: &mut Dive,
    form: &Form,
    zone: &[Span],
    costs: &[i128],
    relaxed: &Relaxed,
    var: usize,
)
    requires priceable { IsPriceable form.now.spans.items zone.now costs.now }
    requires adjusted { IsPriceable form.now.spans.items zone.now relaxed.now.costs.items }
    requires tracked { IsTracked form.now.rows.items zone.now costs.now dive.old }
    requires paid { IsPaid relaxed.now dive.old }
    requires there { var < length zone.now }
    ensures zone { dive.new.zone.items ≡ slice_set dive.old.zone.items var (span_at zone.now var) }
    ensures tracked { IsTracked form.now.rows.items zone.now costs.now dive.new }
    ensures paid { IsPaid relaxed.now dive.new }
    ensures kept { IsKept dive.old dive.new }
{
    let whole = zone[var];
    place(dive, form, zone, costs, relaxed, var, &whole);
}

/// Whether numbers are to be tried from a span's lower end up: where the adjusted cost grows then, or else the cost.
pub fn is_upward(adjusted: &i128, cost: &i128) -> bool
    ensures { Follows result adjusted.now }
{
    *adjusted > 0 || *adjusted == 0 && *cost >= 0
}

/// Whether a cost doesn't fall in a direction of numbers.
fn follows(up: bool, cost: &i128) -> bool
    ensures { OnTrue result (Follows up cost.now) }
{
    if up { *cost >= 0 } else { *cost <= 0 }
}

/// Whether no later number of a variable leads to a cheaper point, since costs or adjusted costs only grow.
fn is_over(dive: &Dive, relaxed: &Relaxed, cost: &i128, up: bool) -> bool
    ensures { OnTrue result (IsOver relaxed.now dive.now up cost.now) }
{
    !may_undercut(dive, relaxed) || follows(up, cost) && !may_improve(dive)
}

/// Gives a variable the number at a step of its span, where the numbers before it are covered, and tells whether a
/// point that is cheaper than the best so far may be left with it. Where no number at this step or a later one is to be
/// tried, it gives the variable its whole span back.
pub fn place_step(
    dive: &mut Dive,
    problem: &Subproblem,
    var: usize,
    up: bool,
    step: u64,
) -> Option<bool>
    requires priceable { IsPriceable problem.now.form.now.spans.items problem.now.zone.now
        problem.now.costs.now }
    requires relaxed { IsRelaxed problem.now.form.now.spans.items problem.now.form.now.rows.items
        problem.now.zone.now problem.now.costs.now problem.now.relaxed.now }
    requires tracked { IsTracked problem.now.form.now.rows.items problem.now.zone.now
        problem.now.costs.now dive.old }
    requires paid { IsPaid problem.now.relaxed.now dive.old }
    requires there { var < length problem.now.zone.now }
    requires can { All (CanMeetRow (slice_set dive.old.zone.items var (span_at problem.now.zone.now
        var))) problem.now.form.now.rows.items }
    requires follows { Follows up (slice_index_or problem.now.relaxed.now.costs.items var (pos 0)) }
    requires covered { AreCoveredTo problem.now.form.now.rows.items (slice_set dive.old.zone.items
        var (span_at problem.now.zone.now var)) problem.now.costs.now up (span_at
        problem.now.zone.now var) var step dive.old.best }
    ensures tracked { IsTracked problem.now.form.now.rows.items problem.now.zone.now
        problem.now.costs.now dive.new }
    ensures paid { IsPaid problem.now.relaxed.now dive.new }
    ensures kept { IsKept dive.old dive.new }
    ensures step { IfSome result (λ goes_on. step < width (span_at problem.now.zone.now var)) }
    ensures zone { IfSome result (λ goes_on. dive.new.zone.items ≡ slice_set dive.old.zone.items var
        (single (step_value up (span_at problem.now.zone.now var) step))) }
    ensures yes { IfSome result (λ goes_on. OnTrue goes_on (All (CanMeetRow dive.new.zone.items)
        problem.now.form.now.rows.items)) }
    ensures no { IfSome result (λ goes_on. OnFalse goes_on (AllCovered
        problem.now.form.now.rows.items dive.new.zone.items problem.now.costs.now dive.new.best)) }
    ensures whole { IfNone result (dive.new.zone.items ≡ slice_set dive.old.zone.items var (span_at
        problem.now.zone.now var)) }
    ensures covered { IfNone result (AllCovered problem.now.form.now.rows.items dive.new.zone.items
        problem.now.costs.now dive.new.best) }
{
    let whole = problem.zone[var];
    if step >= count_of(&whole) {
        give_back(
            dive,
            problem.form,
            problem.zone,
            problem.costs,
            problem.relaxed,
            var,
        );
        return None;
    }
    let value = value_at(&whole, up, step);
    let goes_on = place_value(
        dive,
        problem.form,
        problem.zone,
        problem.costs,
        problem.relaxed,
        var,
        &value,
    );
    if !goes_on && is_over(dive, problem.relaxed, &problem.costs[var], up) {
        give_back(
            dive,
            problem.form,
            problem.zone,
            problem.costs,
            problem.relaxed,
            var,
        );
        return None;
    }
    Some(goes_on)
}
