// Layers of binaries by pairs: for each node what 0 and 1 lead to. A pass over pairs reads half as much as one over arcs, and
// has no jump that depends on costs.
ghost use Rattle.std.specs.Prelude.{◌≡◌, ◌<◌, ◌≤◌, ◌^◌, ◌⊎◌, ℕ, [], All, IfOk, IsTrue, ◌↔◌, length, vec_len, slice_index_or};
ghost use Rattle.std.specs.Bool.{OnTrue};
ghost use Rattle.layer_graph.specs.Graphs.{arc_at, IsArcSafe, HasSameWays};
ghost use Rattle.shortest_path.specs.Pairs.{arc_to, arcs_with, steps_with, AreLinked, ArePairs, IsNumber, IsPut};

use bp_theory::{Items, Span};
use layer_graph::{Arc, Graph};
use std::alloc::{AllocError, Global};

/// The nodes of the next layer that 0 and 1 lead to from a node. A number that leads to none has the dead node, whose number is
/// above that of each other node.
#[derive(Clone, Copy)]
pub struct Pair {
    /// The node that 0 leads to.
    pub zero: u32,
    /// The node that 1 leads to.
    pub one: u32,
}

/// The number above those of nodes of which there may be pairs: twice that of a node is a number of 32 bits.
const MOST_NODES: usize = 1 << 31;

/// Whether a label is one number.
fn is_number(label: &Span, number: &i64) -> bool
    ensures { IsTrue result ↔ IsNumber label.now number.now }
{
    label.lo == *number && label.hi == *number
}

/// Writes an arc into the pair of the node that it starts at, if its label is 0 or 1 and the pair has no arc of that number.
fn put(pairs: &mut Vec<Pair>, arc: &Arc, dead: u32) -> bool
    requires { arc.now.from < vec_len pairs.old }
    ensures nodes { vec_len pairs.new ≡ vec_len pairs.old }
    ensures put { OnTrue result (IsPut dead pairs.old.items arc.now pairs.new.items) }
{
    let node = arc.from as usize;
    let pair = pairs[node];
    if is_number(&arc.label, &0) && pair.zero == dead {
        pairs[node] = Pair {
            zero: arc.to,
            one: pair.one,
        };
        return true;
    }
    if is_number(&arc.label, &1) && pair.one == dead {
        pairs[node] = Pair {
            zero: pair.zero,
            one: arc.to,
        };
        return true;
    }
    false
}

/// The pairs of so many nodes, if they can have all arcs of a layer; else none.
fn pairs_of(alloc: Global, arcs: &[Arc], nodes: usize, dead: u32) -> Result<Items<Pair>, AllocError>
    requires from { (j : ℕ) → j < length arcs.now → (arc_at arcs.now j).from < nodes }
    requires to { (j : ℕ) → j < length arcs.now → (arc_at arcs.now j).to < dead }
    ensures { IfOk result (λ pairs. (pairs ≡ []) ⊎
        ((length pairs ≡ nodes) × ArePairs dead arcs.now (length arcs.now) pairs)) }
{
    let none = Pair {
        zero: dead,
        one: dead,
    };
    let mut pairs = Vec::from_elem(alloc, none, nodes)?;
    for place in 0..arcs.len() {
        if !put(&mut pairs, &arcs[place], dead) {
            return Ok(Items::new(alloc));
        }
    }
    Ok(Items::from_vec(pairs))
}

/// A number above that of a node, and no less than another.
fn above(least: usize, node: u32) -> usize
    ensures least { least ≤ result }
    ensures above { node < result }
    ensures most { (n : ℕ) → least ≤ n → node < n → result ≤ n }
{
    let end = node as usize + 1;
    if least < end { end } else { least }
}

/// A number above those of the nodes that arcs start at, and no less than another.
fn starts_of(arcs: &[Arc], least: usize) -> usize
    ensures least { least ≤ result }
    ensures above { (j : ℕ) → j < length arcs.now → (arc_at arcs.now j).from < result }
    ensures most { (n : ℕ) → least ≤ n → All (IsArcSafe n) arcs.now → result ≤ n }
{
    let mut end = least;
    for arc in arcs {
        end = above(end, arc.from);
    }
    end
}

/// A number above those of the nodes that arcs lead to.
fn ends_of(arcs: &[Arc]) -> usize
    ensures some { 0 < result }
    ensures above { (j : ℕ) → j < length arcs.now → (arc_at arcs.now j).to < result }
    ensures most { (n : ℕ) → 0 < n → All (IsArcSafe n) arcs.now → result ≤ n }
{
    let mut end = 1;
    for arc in arcs {
        end = above(end, arc.to);
    }
    end
}

/// Whether nodes are few enough for pairs.
fn are_few(nodes: usize) -> bool
    ensures { OnTrue result (nodes < 2 ^ 31) }
{
    nodes < MOST_NODES
}

/// The pairs of each layer of a graph, and none of those whose numbers are not 0 and 1 alone, which stay with their arcs.
pub fn pairs_in(alloc: Global, graph: &Graph) -> Result<Vec<Items<Pair>>, AllocError>
    ensures linked { IfOk result
        (λ lists. AreLinked graph.now.wide graph.now.steps.items lists.items) }
    ensures same { IfOk result (λ lists. HasSameWays graph.now.steps.items
        (steps_with graph.now.wide graph.now.steps.items lists.items)) }
{
    let layers = graph.steps.len();
    let mut lists = Vec::with_capacity(alloc, layers)?;
    if !are_few(graph.wide) {
        return Ok(lists);
    }
    let mut nodes = 1;
    for k in 0..layers {
        let arcs = graph.steps[k].as_slice();
        let starts = starts_of(arcs, nodes);
        let ends = ends_of(arcs);
        let list = pairs_of(alloc, arcs, starts, graph.wide as u32)?;
        lists.push(list)?;
        nodes = ends;
    }
    Ok(lists)
}

/// The pairs of a layer; none where a list ends before it.
pub fn pairs_at(lists: &[Items<Pair>], layer: usize) -> &[Pair]
    ensures { result.now ≡ slice_index_or lists.now layer [] }
{
    if layer < lists.len() {
        lists[layer].as_slice()
    } else {
        &[]
    }
}

/// The arc of a number that leads from a node to a target; where that is the dead node, it has no number.
fn arc_for(dead: usize, from: u32, to: u32, number: &i64) -> Arc
    ensures { result ≡ arc_to dead from to number.now }
{
    if to as usize == dead {
        return Arc {
            from,
            to,
            label: Span { lo: 1, hi: 0 },
        };
    }
    Arc {
        from,
        to,
        label: Span {
            lo: *number,
            hi: *number,
        },
    }
}

/// The arc at a place of those that pairs stand for, or of a layer's own where it has no pairs.
pub fn arc_of(arcs: &[Arc], pairs: &[Pair], dead: usize, place: usize) -> Arc
    requires few { length pairs.now < 2 ^ 31 }
    requires place { place < length (arcs_with dead arcs.now pairs.now) }
    ensures { result ≡ arc_at (arcs_with dead arcs.now pairs.now) place }
{
    if pairs.is_empty() {
        return arcs[place];
    }
    let node = place / 2;
    let pair = &pairs[node];
    if place % 2 == 0 {
        arc_for(dead, node as u32, pair.zero, &0)
    } else {
        arc_for(dead, node as u32, pair.one, &1)
    }
}
