// The graph of a block.
ghost use Rattle.std.specs.Prelude.{◌≡◌, ◌<◌, ◌≤◌, ◌^◌, ◌↔◌, ◌⊎◌, ℕ, [], pos, All, IfOk, IfSome, IfNone, IsTrue, length, vec_len};
ghost use Rattle.bp_theory.specs.Classes.{prefixes};
ghost use Rattle.bp_theory.specs.Program.{IsWithin};
ghost use Rattle.pricing_problem.specs.Form.{IsForm, HasShortEnds};
ghost use Rattle.layer_graph.specs.Graphs.{AreOrdered, IsGraphOf};
ghost use Rattle.state_graph.specs.Layers.{AreLayers, spans_in};
ghost use Rattle.state_graph.specs.Expansions.{IsRight, IsEndState};
ghost use Rattle.state_graph.specs.Limits.{beginnings, AreManyArcs, HasManyArcs, HasManyNodes, IsBeyond};

use crate::columns::layers_of;
use crate::expand::{Frontier, MOST_STATES, expand};
use crate::layers::Layer;
use crate::merge::merge;
use crate::root::root_of;
use bp_theory::{Items, Row, Span};
use layer_graph::Graph;
use std::alloc::{AllocError, Global};

/// The most arcs of a graph.
const MOST_ARCS: usize = 1 << 18;

/// The most windows that the arcs of a graph lead to: for each arc one of each row. It bounds the time that a graph takes.
const MOST_WINDOWS: usize = 1 << 25;

/// The most windows that the arcs of a layer lead to. It bounds the memory that a graph takes while it is made.
const LAYER_WINDOWS: usize = 1 << 22;

/// The most nodes of a graph, as if each layer had as many as the widest: a pass clears a cell for each and keeps a pick.
const MOST_CELLS: usize = 1 << 21;

/// Whether a window allows the empty sum.
fn has_zero(window: &Span) -> bool
    ensures { IsTrue result ↔ IsWithin window.now (pos 0) }
{
    window.lo <= 0 && 0 <= window.hi
}

/// Whether a state allows that no variables are left.
fn is_end(state: &Items<Span>) -> bool
    ensures { IsTrue result ↔ IsEndState state.now }
{
    state.as_slice().iter().all(|window| has_zero(window))
}

/// Whether each state allows that no variables are left.
fn are_ends(states: &Vec<Items<Span>>) -> bool
    ensures { IsTrue result ↔ All IsEndState states.now.items }
{
    states.iter().all(|state| is_end(state))
}

/// The larger one of two numbers.
fn larger(a: usize, b: usize) -> usize
    ensures first { a ≤ result }
    ensures second { b ≤ result }
    ensures least { (n : ℕ) → a ≤ n → b ≤ n → result ≤ n }
{
    if a < b { b } else { a }
}

/// How many arcs a graph of so many rows may have.
fn room_for(rows: usize) -> usize
    ensures few { result ≤ 2 ^ 18 }
    ensures many { (arcs : ℕ) → result < arcs → AreManyArcs rows arcs }
{
    MOST_ARCS.min(MOST_WINDOWS / rows.max(1))
}

/// How many arcs a layer may have in a graph of so many rows.
fn layer_room_for(rows: usize) -> usize
    ensures { (arcs : ℕ) → result < arcs → AreManyArcs rows arcs }
{
    LAYER_WINDOWS / rows.max(1)
}

/// The graph of layers from a first state on; none only where more numbers are tried than it may have arcs, or where there are
/// no layers and the state doesn't allow that.
fn graph_of(alloc: Global, layers: &[Layer], root: Items<Span>) -> Result<Option<Graph>, AllocError>
    requires layers { AreLayers (length root) layers.now }
    requires short { All (λ l. HasShortEnds l.span) layers.now }
    ensures many { IfOk result (λ made. IfSome made (λ g. vec_len g.steps ≡ length layers.now)) }
    ensures made { IfOk result (λ made. IfSome made
        (λ g. g.made ≤ beginnings (spans_in layers.now))) }
    ensures none { IfOk result (λ made. IfNone made (HasManyArcs (length root) (spans_in layers.now) ⊎
        ((layers.now ≡ []) × (IsEndState root → ⊥)))) }
    ensures thin { IfOk result (λ made. IfSome made (λ g. g.wide ≤ prefixes (spans_in layers.now))) }
    ensures ordered { IfOk result (λ made. IfSome made (λ g. All AreOrdered g.steps.items)) }
    ensures narrow { IfOk result (λ made. IfSome made (λ g. g.wide ≤ 2 ^ 20)) }
    ensures right { IfOk result (λ made. IfSome made
        (λ g. IsRight layers.now root g.steps.items 0)) }
{
    let rows = root.len();
    let whole = room_for(rows);
    let most = layer_room_for(rows);
    let mut room = whole;
    let mut states = Vec::new(alloc);
    states.push(root)?;
    let mut steps = Vec::new(alloc);
    let mut wide = 1;
    for layer in layers {
        match expand(alloc, layer, &states, room.min(most))? {
            Some(Frontier { arcs, states: next }) => {
                room -= arcs.len().min(room);
                steps.push(arcs)?;
                states = next.into_list();
                wide = larger(wide, states.len());
            }
            None => return Ok(None),
        }
    }
    if !are_ends(&states) {
        return Ok(None);
    }
    let made = whole.saturating_sub(room);
    Ok(Some(Graph { steps, wide, made }))
}

/// The graph of layers from a first state on, with its nodes merged from behind; none only where there is none before, or where
/// it then has too many nodes. Merging makes no layer wider.
fn merged_of(
    alloc: Global,
    layers: &[Layer],
    root: Items<Span>,
) -> Result<Option<Graph>, AllocError>
    requires layers { AreLayers (length root) layers.now }
    requires short { All (λ l. HasShortEnds l.span) layers.now }
    ensures none { IfOk result (λ made. IfNone made (HasManyArcs (length root) (spans_in layers.now) ⊎
        HasManyNodes (spans_in layers.now) ⊎ ((layers.now ≡ []) × (IsEndState root → ⊥)))) }
    ensures many { IfOk result (λ made. IfSome made (λ g. vec_len g.steps ≡ length layers.now)) }
    ensures made { IfOk result (λ made. IfSome made
        (λ g. g.made ≤ beginnings (spans_in layers.now))) }
    ensures right { IfOk result (λ made. IfSome made
        (λ g. IsRight layers.now root g.steps.items 0)) }
{
    let graph = match graph_of(alloc, layers, root)? {
        Some(graph) => graph,
        None => return Ok(None),
    };
    let wide = graph.wide;
    let merged = match merge(alloc, graph)? {
        Some(merged) => merged,
        None => return Ok(None),
    };
    if merged.wide.min(wide).saturating_mul(layers.len()) > MOST_CELLS {
        return Ok(None);
    }
    Ok(Some(merged))
}

/// The graph whose ways are the points of rows within spans; none only where a limit may be passed, or where there are no spans
/// and no point.
pub fn build(alloc: Global, rows: &[Row], spans: &[Span]) -> Result<Option<Graph>, AllocError>
    requires { IsForm rows.now spans.now }
    ensures none { IfOk result (λ made. IfNone made (IsBeyond rows.now spans.now)) }
    ensures many { IfOk result (λ made. IfSome made (λ g. vec_len g.steps ≡ length spans.now)) }
    ensures made { IfOk result (λ made. IfSome made (λ g. g.made ≤ beginnings spans.now)) }
    ensures graph { IfOk result (λ made. IfSome made
        (λ g. IsGraphOf rows.now spans.now g.steps.items)) }
{
    let layers = match layers_of(alloc, rows, spans)? {
        Some(layers) => layers,
        None => return Ok(None),
    };
    let root = root_of(alloc, rows, layers.hulls.as_slice())?;
    match merged_of(alloc, layers.layers.as_slice(), root)? {
        Some(graph) => Ok(Some(graph)),
        None => Ok(None),
    }
}
