// One layer of the graph: from its states to those of the next.
ghost use Rattle.std.specs.Prelude.{◌≡◌, ◌<◌, ◌≤◌, ◌+◌, ◌*◌, ◌^◌, min, max, IfNone, ◌+ℤ◌, pos, IfOk, IfSome, List, length, vec_len};
ghost use Rattle.std.specs.Bool.{OnTrue, OnFalse};
ghost use Rattle.bp_theory.specs.Program.{IsWithin};
ghost use Rattle.bp_theory.specs.declared.Span.{Span};
ghost use Rattle.bp_theory.specs.Classes.{width};
ghost use Rattle.pricing_problem.specs.Form.{HasShortEnds};
ghost use Rattle.state_graph.specs.Layers.{IsShaped};
ghost use Rattle.state_graph.specs.Expansions.{IsStateOf, IsBuilt, IsExpanded, IsLeft, IsGone, HaveRows};

use crate::clip::move_state;
use crate::layers::Layer;
use crate::states::States;
use crate::twins::join;
use bp_theory::{Items, Span};
use layer_graph::Arc;
use std::alloc::{AllocError, Global};

/// The most states of a layer.
pub const MOST_STATES: usize = 1 << 20;

/// The arcs so far from a layer, and the states of the next that they lead to.
#[derive(Drop)]
pub struct Frontier {
    /// The arcs so far from the layer's states.
    pub arcs: Items<Arc>,
    /// The states of the next layer that they lead to.
    pub states: States,
}

/// How many numbers a span has.
pub fn count_of(span: &Span) -> u64
    requires { HasShortEnds span.now }
    ensures { result ≡ width span.now }
{
    if span.hi < span.lo {
        0
    } else {
        span.hi.abs_diff(span.lo) + 1
    }
}

/// The number at a step of a span.
fn number_at(span: &Span, step: u64) -> i64
    requires short { HasShortEnds span.now }
    requires there { step < width span.now }
    ensures value { result ≡ span.now.lo +ℤ pos step }
    ensures within { IsWithin span.now result }
{
    let offset = step as i64;
    span.lo + offset
}

/// The arc of one number.
fn arc_of(from: u32, to: usize, number: &i64) -> Arc
    requires { to < 2 ^ 32 }
    ensures { result ≡ record {
      from = from;
      to = to;
      label = record { lo = number.now; hi = number.now };
    } }
{
    let label = Span {
        lo: *number,
        hi: *number,
    };
    Arc {
        from,
        to: to as u32,
        label,
    }
}

/// What a number leaves of a state: its windows are moved, and those of twins joined. Tells whether each row has a
/// window left.
fn leave(moved: &mut Vec<Span>, layer: &Layer, state: &[Span], number: &i64) -> bool
    requires room { vec_len moved.old ≡ length state.now }
    requires shaped { IsShaped (length state.now) layer.now }
    ensures room { vec_len moved.new ≡ vec_len moved.old }
    ensures left { OnTrue result (IsLeft layer.now state.now number.now moved.new.items) }
    ensures gone { OnFalse result (IsGone layer.now state.now number.now) }
{
    if !move_state(
        moved,
        state,
        layer.column.as_slice(),
        layer.hulls.as_slice(),
        number,
    ) {
        return false;
    }
    join(moved, layer.twins.as_slice())
}

/// Tries a number of a state: where each row has a window left, an arc leads to the state with these.
fn place(
    frontier: &mut Frontier,
    moved: &mut Vec<Span>,
    alloc: Global,
    layer: &Layer,
    from: u32,
    state: &[Span],
    number: &i64,
) -> Result<(), AllocError>
    requires room { vec_len moved.old ≡ length state.now }
    requires shaped { IsShaped (length state.now) layer.now }
    requires few { vec_len frontier.old.states.list < 2 ^ 20 }
    ensures room { vec_len moved.new ≡ vec_len moved.old }
    ensures arcs { IfOk result (λ _. length frontier.new.arcs ≤ length frontier.old.arcs + 1) }
    ensures states { IfOk result (λ _. vec_len frontier.new.states.list ≤
        vec_len frontier.old.states.list + 1) }
    ensures fewer { IfOk result (λ _. vec_len frontier.old.states.list ≤ length frontier.old.arcs →
        vec_len frontier.new.states.list ≤ length frontier.new.arcs) }
    ensures built { IfOk result (λ _. (states : List (List Span)) →
        IsStateOf states from state.now → IsWithin layer.now.span number.now →
        IsBuilt layer.now states from number.now frontier.old.states.list.items frontier.old.arcs →
        IsBuilt layer.now states from (number.now +ℤ pos 1) frontier.new.states.list.items
        frontier.new.arcs) }
{
    if !leave(moved, layer, state, number) {
        return Ok(());
    }
    let to = frontier.states.find_or_add(alloc, moved.as_slice())?;
    frontier.arcs.push(arc_of(from, to, number))?;
    Ok(())
}

/// Whether a layer has as many arcs or states as it may have.
fn is_full(frontier: &Frontier, room: usize) -> bool
    ensures full { OnTrue result (min room (2 ^ 20) ≤
        max (length frontier.now.arcs) (vec_len frontier.now.states.list)) }
    ensures arcs { OnFalse result (length frontier.now.arcs < room) }
    ensures states { OnFalse result (vec_len frontier.now.states.list < 2 ^ 20) }
{
    frontier.arcs.len() >= room || frontier.states.list.len() >= MOST_STATES
}

/// Tries each number of a state. Tells whether there was room, which is short only where there are more numbers.
fn expand_state(
    frontier: &mut Frontier,
    moved: &mut Vec<Span>,
    alloc: Global,
    layer: &Layer,
    from: u32,
    state: &[Span],
    room: usize,
) -> Result<bool, AllocError>
    requires room { vec_len moved.old ≡ length state.now }
    requires shaped { IsShaped (length state.now) layer.now }
    requires short { HasShortEnds layer.now.span }
    requires arcs { length frontier.old.arcs ≤ room }
    requires states { vec_len frontier.old.states.list ≤ 2 ^ 20 }
    ensures room { vec_len moved.new ≡ vec_len moved.old }
    ensures arcs { IfOk result (λ _. length frontier.new.arcs ≤ room) }
    ensures states { IfOk result (λ _. vec_len frontier.new.states.list ≤ 2 ^ 20) }
    ensures fewer { IfOk result (λ _. vec_len frontier.old.states.list ≤ length frontier.old.arcs →
        vec_len frontier.new.states.list ≤ length frontier.new.arcs) }
    ensures many { IfOk result (λ _.
        length frontier.new.arcs ≤ length frontier.old.arcs + width layer.now.span) }
    ensures full { IfOk result (λ fits. OnFalse fits (
        vec_len frontier.old.states.list ≤ length frontier.old.arcs →
        min room (2 ^ 20) < length frontier.old.arcs + width layer.now.span)) }
    ensures built { IfOk result (λ fits. OnTrue fits ((states : List (List Span)) →
        IsStateOf states from state.now →
        IsBuilt layer.now states from layer.now.span.lo frontier.old.states.list.items
        frontier.old.arcs → IsBuilt layer.now states (from + 1) layer.now.span.lo
        frontier.new.states.list.items frontier.new.arcs)) }
{
    for step in 0..count_of(&layer.span) {
        if is_full(frontier, room) {
            return Ok(false);
        }
        let number = number_at(&layer.span, step);
        place(frontier, moved, alloc, layer, from, state, &number)?;
    }
    Ok(true)
}

/// The arcs from the states of a layer, and the states of the next; none only where the states have more numbers to try than
/// there is room for arcs.
pub fn expand(
    alloc: Global,
    layer: &Layer,
    states: &Vec<Items<Span>>,
    room: usize,
) -> Result<Option<Frontier>, AllocError>
    requires shaped { IsShaped (length layer.now.column) layer.now }
    requires short { HasShortEnds layer.now.span }
    requires rows { HaveRows (length layer.now.column) states.now.items }
    requires few { vec_len states.now ≤ 2 ^ 20 }
    ensures arcs { IfOk result (λ made. IfSome made (λ f. length f.arcs ≤ room)) }
    ensures states { IfOk result (λ made. IfSome made (λ f. vec_len f.states.list ≤ 2 ^ 20)) }
    ensures none { IfOk result (λ made. IfNone made
        (min room (2 ^ 20) < vec_len states.now * width layer.now.span)) }
    ensures many { IfOk result (λ made. IfSome made
        (λ f. length f.arcs ≤ vec_len states.now * width layer.now.span)) }
    ensures fewer { IfOk result (λ made. IfSome made
        (λ f. vec_len f.states.list ≤ length f.arcs)) }
    ensures expanded { IfOk result (λ made. IfSome made
        (λ f. IsExpanded layer.now states.now.items f.states.list.items f.arcs)) }
{
    let mut frontier = Frontier {
        arcs: Items::new(alloc),
        states: States::new(alloc)?,
    };
    let mut moved = Vec::from_elem(alloc, Span { lo: 0, hi: 0 }, layer.column.len())?;
    for from in 0..states.len() {
        let state = states[from].as_slice();
        if !expand_state(
            &mut frontier,
            &mut moved,
            alloc,
            layer,
            from as u32,
            state,
            room,
        )? {
            return Ok(None);
        }
    }
    Ok(Some(frontier))
}
