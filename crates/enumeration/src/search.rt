// The search itself: depth first over the variables, with a stack of its own.
ghost use Rattle.std.specs.Prelude.{◌≡◌, ◌≤◌, ◌<◌, suc, IsTrue, IfSome, IfNone, All, length, vec_len};
ghost use Rattle.std.specs.Bool.{OnTrue, OnFalse};
ghost use Rattle.pricing_problem.specs.Form.{IsPriceable};
ghost use Rattle.enumeration.specs.Reach.{CanMeetRow, IsNarrowed, IsSingle, lows_of};
ghost use Rattle.enumeration.specs.Best.{AllCovered, IsReached, IsNoWorse};
ghost use Rattle.enumeration.specs.Relax.{IsRelaxed};
ghost use Rattle.enumeration.specs.Search.{IsTracked, IsPaid, IsKept};
ghost use Rattle.enumeration.specs.Levels.{IsBelow, IsOpen, IsAt, left_behind, left_from};

use crate::dive::{Dive, Visits};
use crate::form::Form;
use crate::frame::{Frame, Node};
use crate::moves::may_improve;
use crate::steps::{is_upward, place_step};
use crate::subproblem::Subproblem;
use bp_theory::Span;

/// Copies the lower ends of spans.
fn copy_lows(zone: &Vec<Span>, point: &mut Vec<i64>)
    requires { vec_len point.old ≡ vec_len zone.now }
    ensures { point.new.items ≡ lows_of zone.now.items }
{
    for k in 0..zone.len() {
        point[k] = zone[k].lo;
    }
}

/// Takes the one point of a zone of single numbers for the best where it is cheaper.
fn record(dive: &mut Dive, form: &Form, zone: &[Span], costs: &[i128])
    requires priceable { IsPriceable form.now.spans.items zone.now costs.now }
    requires tracked { IsTracked form.now.rows.items zone.now costs.now dive.old }
    requires one { IsSingle dive.old.zone.items }
    requires can { All (CanMeetRow dive.old.zone.items) form.now.rows.items }
    requires reached { IsReached form.now.rows.items zone.now costs.now dive.old.best
        dive.old.point.items }
    ensures zone { dive.new.zone.items ≡ dive.old.zone.items }
    ensures paid { dive.new.paid ≡ dive.old.paid }
    ensures tracked { IsTracked form.now.rows.items zone.now costs.now dive.new }
    ensures covered { AllCovered form.now.rows.items dive.old.zone.items costs.now dive.new.best }
    ensures no_worse { IsNoWorse dive.old.best dive.new.best }
    ensures reached { IsReached form.now.rows.items zone.now costs.now dive.new.best
        dive.new.point.items }
{
    if may_improve(dive) {
        copy_lows(&dive.zone, &mut dive.point);
        dive.best = Some(dive.least);
    }
}

/// Whether two spans are the same.
fn is_same(a: &Span, b: &Span) -> bool
    ensures yes { OnTrue result (a.now ≡ b.now) }
    ensures no { OnFalse result (a.now ≡ b.now → ⊥) }
{
    a.lo == b.lo && a.hi == b.hi
}

/// Goes from a node from which a cheaper point may be left to the first node below it, and tells whether a cheaper
/// point may be left there. Where no number of the level's variable is to be tried, the search stays at the node.
fn enter(
    dive: &mut Dive,
    frames: &mut Vec<Frame>,
    problem: &Subproblem,
    order: &[usize],
    level: usize,
) -> Option<bool>
    requires priceable { IsPriceable problem.now.form.now.spans.items problem.now.zone.now
        problem.now.costs.now }
    requires relaxed { IsRelaxed problem.now.form.now.spans.items problem.now.form.now.rows.items
        problem.now.zone.now problem.now.costs.now problem.now.relaxed.now }
    requires tracked { IsTracked problem.now.form.now.rows.items problem.now.zone.now
        problem.now.costs.now dive.old }
    requires paid { IsPaid problem.now.relaxed.now dive.old }
    requires order { All (λ v. v < length problem.now.zone.now) order.now }
    requires frames { length order.now ≤ vec_len frames.old }
    requires level { level < length order.now }
    requires can { All (CanMeetRow dive.old.zone.items) problem.now.form.now.rows.items }
    requires below { IsBelow problem.now.form.now.rows.items problem.now.zone.now
        problem.now.costs.now problem.now.relaxed.now.costs.items order.now frames.old.items
        dive.old.best level dive.old.zone.items }
    ensures frames { vec_len frames.new ≡ vec_len frames.old }
    ensures tracked { IsTracked problem.now.form.now.rows.items problem.now.zone.now
        problem.now.costs.now dive.new }
    ensures paid { IsPaid problem.now.relaxed.now dive.new }
    ensures kept { IsKept dive.old dive.new }
    ensures stays { IfNone result (IsBelow problem.now.form.now.rows.items problem.now.zone.now
        problem.now.costs.now problem.now.relaxed.now.costs.items order.now frames.new.items
        dive.new.best level dive.new.zone.items) }
    ensures covered { IfNone result (AllCovered problem.now.form.now.rows.items dive.new.zone.items
        problem.now.costs.now dive.new.best) }
    ensures left { IfNone result (left_behind problem.now.zone.now order.now frames.new.items level
        ≡ left_behind problem.now.zone.now order.now frames.old.items level) }
    ensures below { IfSome result (λ alive. IsBelow problem.now.form.now.rows.items
        problem.now.zone.now problem.now.costs.now problem.now.relaxed.now.costs.items order.now
        frames.new.items dive.new.best (suc level) dive.new.zone.items) }
    ensures opened { IfSome result (λ alive. IsOpen problem.now.form.now.rows.items
        dive.new.zone.items problem.now.costs.now dive.new.best alive) }
    ensures less { IfSome result (λ alive. left_from problem.now.zone.now order.now frames.new.items
        (suc level) < left_from problem.now.zone.now order.now frames.old.items level) }
{
    let var = order[level];
    if !is_same(&dive.zone[var], &problem.zone[var]) {
        frames[level] = Frame::Passed;
        return Some(true);
    }
    let up = is_upward(&problem.relaxed.costs[var], &problem.costs[var]);
    frames[level] = Frame::At(up, 0);
    place_step(dive, problem, var, up, 0)
}

/// Goes from behind a node below a level to the next node below it, and tells whether a cheaper point may be left
/// there. Where no number of the level's variable is to be tried, the search stands behind the node at the level.
fn go_on(
    dive: &mut Dive,
    frames: &mut Vec<Frame>,
    problem: &Subproblem,
    order: &[usize],
    level: usize,
) -> Option<bool>
    requires priceable { IsPriceable problem.now.form.now.spans.items problem.now.zone.now
        problem.now.costs.now }
    requires relaxed { IsRelaxed problem.now.form.now.spans.items problem.now.form.now.rows.items
        problem.now.zone.now problem.now.costs.now problem.now.relaxed.now }
    requires tracked { IsTracked problem.now.form.now.rows.items problem.now.zone.now
        problem.now.costs.now dive.old }
    requires paid { IsPaid problem.now.relaxed.now dive.old }
    requires order { All (λ v. v < length problem.now.zone.now) order.now }
    requires frames { length order.now ≤ vec_len frames.old }
    requires level { level < length order.now }
    requires below { IsBelow problem.now.form.now.rows.items problem.now.zone.now
        problem.now.costs.now problem.now.relaxed.now.costs.items order.now frames.old.items
        dive.old.best (suc level) dive.old.zone.items }
    requires covered { AllCovered problem.now.form.now.rows.items dive.old.zone.items
        problem.now.costs.now dive.old.best }
    ensures frames { vec_len frames.new ≡ vec_len frames.old }
    ensures tracked { IsTracked problem.now.form.now.rows.items problem.now.zone.now
        problem.now.costs.now dive.new }
    ensures paid { IsPaid problem.now.relaxed.now dive.new }
    ensures kept { IsKept dive.old dive.new }
    ensures left { IfNone result (IsBelow problem.now.form.now.rows.items problem.now.zone.now
        problem.now.costs.now problem.now.relaxed.now.costs.items order.now frames.new.items
        dive.new.best level dive.new.zone.items) }
    ensures covered { IfNone result (AllCovered problem.now.form.now.rows.items dive.new.zone.items
        problem.now.costs.now dive.new.best) }
    ensures fewer { IfNone result (left_behind problem.now.zone.now order.now frames.new.items level
        ≤ left_behind problem.now.zone.now order.now frames.old.items (suc level)) }
    ensures below { IfSome result (λ alive. IsBelow problem.now.form.now.rows.items
        problem.now.zone.now problem.now.costs.now problem.now.relaxed.now.costs.items order.now
        frames.new.items dive.new.best (suc level) dive.new.zone.items) }
    ensures opened { IfSome result (λ alive. IsOpen problem.now.form.now.rows.items
        dive.new.zone.items problem.now.costs.now dive.new.best alive) }
    ensures no_more { IfSome result (λ alive. left_from problem.now.zone.now order.now
        frames.new.items (suc level) ≤ left_behind problem.now.zone.now order.now frames.old.items
        (suc level)) }
{
    match frames[level] {
        Frame::Passed => None,
        Frame::At(up, step) => {
            frames[level] = Frame::At(up, step + 1);
            place_step(dive, problem, order[level], up, step + 1)
        }
    }
}

/// Goes from behind a node at a level to the next node, and leaves the levels that are done. After the last node the
/// whole zone is covered.
fn next_behind(
    dive: &mut Dive,
    frames: &mut Vec<Frame>,
    problem: &Subproblem,
    order: &[usize],
    from: usize,
) -> Option<Node>
    requires priceable { IsPriceable problem.now.form.now.spans.items problem.now.zone.now
        problem.now.costs.now }
    requires relaxed { IsRelaxed problem.now.form.now.spans.items problem.now.form.now.rows.items
        problem.now.zone.now problem.now.costs.now problem.now.relaxed.now }
    requires tracked { IsTracked problem.now.form.now.rows.items problem.now.zone.now
        problem.now.costs.now dive.old }
    requires paid { IsPaid problem.now.relaxed.now dive.old }
    requires order { All (λ v. v < length problem.now.zone.now) order.now }
    requires frames { length order.now ≤ vec_len frames.old }
    requires from { from ≤ length order.now }
    requires below { IsBelow problem.now.form.now.rows.items problem.now.zone.now
        problem.now.costs.now problem.now.relaxed.now.costs.items order.now frames.old.items
        dive.old.best from dive.old.zone.items }
    requires covered { AllCovered problem.now.form.now.rows.items dive.old.zone.items
        problem.now.costs.now dive.old.best }
    ensures frames { vec_len frames.new ≡ vec_len frames.old }
    ensures tracked { IsTracked problem.now.form.now.rows.items problem.now.zone.now
        problem.now.costs.now dive.new }
    ensures paid { IsPaid problem.now.relaxed.now dive.new }
    ensures kept { IsKept dive.old dive.new }
    ensures next { IfSome result (λ node. IsAt problem.now.form.now.rows.items problem.now.zone.now
        problem.now.costs.now problem.now.relaxed.now.costs.items order.now frames.new.items
        dive.new node) }
    ensures no_more { IfSome result (λ node. left_from problem.now.zone.now order.now
        frames.new.items node.level ≤ left_behind problem.now.zone.now order.now frames.old.items
        from) }
    ensures zone { IfNone result (dive.new.zone.items ≡ problem.now.zone.now) }
    ensures all { IfNone result (AllCovered problem.now.form.now.rows.items problem.now.zone.now
        problem.now.costs.now dive.new.best) }
{
    let mut level = from;
    while level > 0 {
        level -= 1;
        if let Some(alive) = go_on(dive, frames, problem, order, level) {
            return Some(Node {
                level: level + 1,
                alive,
            });
        }
    }
    None
}

/// Goes from a node to the first node below it, or else to the next one behind it. After the last node the whole zone
/// is covered.
fn next_after(
    dive: &mut Dive,
    frames: &mut Vec<Frame>,
    problem: &Subproblem,
    order: &[usize],
    node: &Node,
) -> Option<Node>
    requires priceable { IsPriceable problem.now.form.now.spans.items problem.now.zone.now
        problem.now.costs.now }
    requires relaxed { IsRelaxed problem.now.form.now.spans.items problem.now.form.now.rows.items
        problem.now.zone.now problem.now.costs.now problem.now.relaxed.now }
    requires tracked { IsTracked problem.now.form.now.rows.items problem.now.zone.now
        problem.now.costs.now dive.old }
    requires paid { IsPaid problem.now.relaxed.now dive.old }
    requires order { All (λ v. v < length problem.now.zone.now) order.now }
    requires frames { length order.now ≤ vec_len frames.old }
    requires at_node { IsAt problem.now.form.now.rows.items problem.now.zone.now
        problem.now.costs.now problem.now.relaxed.now.costs.items order.now frames.old.items
        dive.old node.now }
    requires reached { IsReached problem.now.form.now.rows.items problem.now.zone.now
        problem.now.costs.now dive.old.best dive.old.point.items }
    ensures frames { vec_len frames.new ≡ vec_len frames.old }
    ensures tracked { IsTracked problem.now.form.now.rows.items problem.now.zone.now
        problem.now.costs.now dive.new }
    ensures paid { IsPaid problem.now.relaxed.now dive.new }
    ensures no_worse { IsNoWorse dive.old.best dive.new.best }
    ensures reached { IsReached problem.now.form.now.rows.items problem.now.zone.now
        problem.now.costs.now dive.new.best dive.new.point.items }
    ensures next { IfSome result (λ next. IsAt problem.now.form.now.rows.items problem.now.zone.now
        problem.now.costs.now problem.now.relaxed.now.costs.items order.now frames.new.items
        dive.new next) }
    ensures less { IfSome result (λ next. left_from problem.now.zone.now order.now frames.new.items
        next.level < left_from problem.now.zone.now order.now frames.old.items node.now.level) }
    ensures zone { IfNone result (dive.new.zone.items ≡ problem.now.zone.now) }
    ensures all { IfNone result (AllCovered problem.now.form.now.rows.items problem.now.zone.now
        problem.now.costs.now dive.new.best) }
{
    if !node.alive {
        return next_behind(dive, frames, problem, order, node.level);
    }
    if node.level == order.len() {
        record(dive, problem.form, problem.zone, problem.costs);
        return next_behind(dive, frames, problem, order, node.level);
    }
    match enter(dive, frames, problem, order, node.level) {
        Some(alive) => Some(Node {
            level: node.level + 1,
            alive,
        }),
        None => next_behind(dive, frames, problem, order, node.level),
    }
}

/// Searches the points of a zone, with a frame for each level. Tells whether it came to the end, which it does where
/// visits aren't capped. A zone that isn't alive is known to have no point that is cheaper than the best so far.
pub fn explore(
    dive: &mut Dive,
    visits: &mut Visits,
    frames: &mut Vec<Frame>,
    problem: &Subproblem,
    order: &[usize],
    alive: bool,
) -> bool
    requires priceable { IsPriceable problem.now.form.now.spans.items problem.now.zone.now
        problem.now.costs.now }
    requires relaxed { IsRelaxed problem.now.form.now.spans.items problem.now.form.now.rows.items
        problem.now.zone.now problem.now.costs.now problem.now.relaxed.now }
    requires tracked { IsTracked problem.now.form.now.rows.items problem.now.zone.now
        problem.now.costs.now dive.old }
    requires paid { IsPaid problem.now.relaxed.now dive.old }
    requires order { All (λ v. v < length problem.now.zone.now) order.now }
    requires frames { length order.now ≤ vec_len frames.old }
    requires narrowed { IsNarrowed problem.now.zone.now order.now 0 dive.old.zone.items }
    requires whole { dive.old.zone.items ≡ problem.now.zone.now }
    requires can { OnTrue alive (All (CanMeetRow dive.old.zone.items)
        problem.now.form.now.rows.items) }
    requires covered { OnFalse alive (AllCovered problem.now.form.now.rows.items dive.old.zone.items
        problem.now.costs.now dive.old.best) }
    requires reached { IsReached problem.now.form.now.rows.items problem.now.zone.now
        problem.now.costs.now dive.old.best dive.old.point.items }
    ensures capped { visits.new.capped ≡ visits.old.capped }
    ensures cut { OnFalse result (IsTrue visits.old.capped) }
    ensures frames { vec_len frames.new ≡ vec_len frames.old }
    ensures tracked { IsTracked problem.now.form.now.rows.items problem.now.zone.now
        problem.now.costs.now dive.new }
    ensures paid { IsPaid problem.now.relaxed.now dive.new }
    ensures zone { OnTrue result (dive.new.zone.items ≡ dive.old.zone.items) }
    ensures covered { OnTrue result (AllCovered problem.now.form.now.rows.items dive.old.zone.items
        problem.now.costs.now dive.new.best) }
    ensures no_worse { OnTrue result (IsNoWorse dive.old.best dive.new.best) }
    ensures reached { OnTrue result (IsReached problem.now.form.now.rows.items problem.now.zone.now
        problem.now.costs.now dive.new.best dive.new.point.items) }
{
    let mut next = Some(Node { level: 0, alive });
    while let Some(node) = next {
        if visits.is_spent() {
            return false;
        }
        next = next_after(dive, frames, problem, order, &node);
    }
    true
}
