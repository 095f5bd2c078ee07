// Merging from behind: layer by layer from the last to the first, nodes with the same arcs become one, and nodes without a
// way to the end none. The numbers on the ways from the root stay the same.
ghost use Rattle.std.specs.Prelude.{◌≡◌, ◌<◌, ◌≤◌, ◌+◌, ◌^◌, ◌⊎◌, ◌∷◌, [], ◌++◌, ℕ, List, All, IfOk, IfSome, IfNone, OnOk, length, vec_len};
ghost use Rattle.layer_graph.specs.Graphs.{arc_at, AreOrdered, IsWay, IsArcSafe, IsStepSafe, IsSafe, HasSameWays};
ghost use Rattle.state_graph.specs.Merges.{gone, node_at, IsCopied, IsMerged, IsRooted, AreFew};

use crate::fans::{Fans, GONE};
use bp_theory::Items;
use layer_graph::{Arc, Graph};
use std::alloc::{AllocError, Global};

/// A layer's arcs as they are merged, and what each of its nodes has become.
#[derive(Drop)]
pub struct Merged {
    /// The arcs between nodes as they are merged.
    pub arcs: Items<Arc>,
    /// By number of the node before: its number now, `GONE` where it has no way to the end.
    pub nodes: Vec<u32>,
}

/// What a node has become.
fn node_of(nodes: &[u32], node: u32) -> u32
    ensures { result ≡ node_at nodes.now node }
{
    let place = node as usize;
    if place < nodes.len() {
        nodes[place]
    } else {
        GONE
    }
}

/// Adds an arc to the open node, where it leads to a node with a way.
fn copy_arc(fans: &mut Fans, arc: &Arc, behind: &[u32]) -> Result<(), AllocError>
    requires few { vec_len fans.old.list < 2 ^ 32 }
    ensures list { fans.new.list.items ≡ fans.old.list.items }
    ensures start { fans.new.start ≡ fans.old.start }
    ensures arcs { OnOk result (((node_at behind.now arc.now.to ≡ gone) ×
        (fans.new.arcs.items ≡ fans.old.arcs.items)) ⊎
        (fans.new.arcs.items ≡ fans.old.arcs.items ++ (record {
          from = vec_len fans.old.list;
          to = node_at behind.now arc.now.to;
          label = arc.now.label;
        } ∷ []))) }
{
    let to = node_of(behind, arc.to);
    if to == GONE {
        return Ok(());
    }
    fans.add(to, arc.label)
}

/// Adds the arcs of a node from a place on, and answers the place of the next arc.
fn copy_node(
    fans: &mut Fans,
    arcs: &[Arc],
    first: usize,
    from: usize,
    behind: &[u32],
) -> Result<usize, AllocError>
    requires few { vec_len fans.old.list < 2 ^ 32 }
    requires first { first ≤ length arcs.now }
    ensures list { fans.new.list.items ≡ fans.old.list.items }
    ensures start { fans.new.start ≡ fans.old.start }
    ensures copied { IfOk result (λ end. IsCopied arcs.now behind.now from first end
        fans.old.arcs.items fans.new.arcs.items) }
    ensures stops { IfOk result (λ end. end < length arcs.now →
        (arc_at arcs.now end).from ≡ from → ⊥) }
{
    for place in first..arcs.len() {
        if arcs[place].from as usize != from {
            return Ok(place);
        }
        copy_arc(fans, &arcs[place], behind)?;
    }
    Ok(arcs.len())
}

/// One more than the node that the last arc starts at.
fn count_of(arcs: &[Arc]) -> usize
    requires { All (IsArcSafe (2 ^ 20)) arcs.now }
    ensures few { result ≤ 2 ^ 20 }
    ensures above { AreOrdered arcs.now → (j : ℕ) → j < length arcs.now →
        (arc_at arcs.now j).from < result }
{
    match arcs.last() {
        Some(arc) => arc.from as usize + 1,
        None => 0,
    }
}

/// A layer whose nodes are merged, where those of the next have become others; none only where the arcs are not in the order
/// of their nodes.
fn merge_layer(alloc: Global, arcs: &[Arc], behind: &[u32]) -> Result<Option<Merged>, AllocError>
    requires safe { All (IsArcSafe (2 ^ 20)) arcs.now }
    ensures none { IfOk result (λ made. IfNone made (AreOrdered arcs.now → ⊥)) }
    ensures merged { IfOk result (λ made. IfSome made
        (λ m. IsMerged arcs.now behind.now m.arcs m.nodes.items)) }
{
    let count = count_of(arcs);
    let mut fans = Fans::new(alloc, count)?;
    let mut nodes = Vec::with_capacity(alloc, count)?;
    let mut place = 0;
    for from in 0..count {
        place = copy_node(&mut fans, arcs, place, from, behind)?;
        nodes.push(fans.settle()?)?;
    }
    if place < arcs.len() {
        return Ok(None);
    }
    Ok(Some(Merged {
        arcs: fans.into_arcs(),
        nodes,
    }))
}

/// Merges the nodes of each layer, from the last to the first, and answers what the root has become; none only where the arcs
/// of a layer are not in the order of their nodes.
fn merge_layers(
    steps: &mut Vec<Items<Arc>>,
    alloc: Global,
    wide: usize,
) -> Result<Option<u32>, AllocError>
    requires rooted { 0 < wide }
    requires narrow { wide ≤ 2 ^ 20 }
    requires safe { IsSafe wide steps.old.items }
    ensures none { IfOk result (λ made. IfNone made (All AreOrdered steps.old.items → ⊥)) }
    ensures many { IfOk result (λ made. IfSome made (λ _. vec_len steps.new ≡ vec_len steps.old)) }
    ensures few { IfOk result (λ made. IfSome made (λ _. AreFew steps.new.items)) }
    ensures rooted { IfOk result (λ made. IfSome made
        (λ root. IsRooted steps.old.items steps.new.items root)) }
{
    let mut behind = Vec::from_elem(alloc, 0, wide)?;
    for k in (0..steps.len()).rev() {
        match merge_layer(alloc, steps[k].as_slice(), &behind)? {
            Some(Merged { arcs, nodes }) => {
                steps[k] = arcs;
                behind = nodes;
            }
            None => return Ok(None),
        }
    }
    Ok(Some(node_of(&behind, 0)))
}

/// Takes the arcs of the first layer away where the root has become none, so that no way is left.
fn settle_root(steps: &mut Vec<Items<Arc>>, alloc: Global, root: u32)
    requires few { AreFew steps.old.items }
    ensures many { vec_len steps.new ≡ vec_len steps.old }
    ensures few { AreFew steps.new.items }
    ensures same { (before : List (List Arc)) → IsRooted before steps.old.items root →
        HasSameWays before steps.new.items }
{
    if root != GONE {
        return;
    }
    if steps.is_empty() {
        return;
    }
    steps[0] = Items::new(alloc);
}

/// A number above that of a node, and no less than another.
fn above(wide: usize, node: u32) -> usize
    ensures least { wide ≤ result }
    ensures above { node < result }
{
    let end = node as usize + 1;
    if wide < end { end } else { wide }
}

/// A number above those of the nodes that arcs start and end at, and no less than another.
fn wide_with(arcs: &[Arc], least: usize) -> usize
    ensures least { least ≤ result }
    ensures safe { All (IsArcSafe result) arcs.now }
{
    let mut wide = least;
    for arc in arcs {
        wide = above(above(wide, arc.from), arc.to);
    }
    wide
}

/// One more than the greatest number of a node.
fn wide_of(steps: &Vec<Items<Arc>>) -> usize
    requires few { AreFew steps.now.items }
    ensures rooted { 0 < result }
    ensures safe { IsSafe result steps.now.items }
{
    let mut wide = 1;
    for arcs in steps {
        wide = wide_with(arcs.as_slice(), wide);
    }
    wide
}

/// A graph with its nodes merged; none only where the arcs of a layer are not in the order of their nodes.
pub fn merge(alloc: Global, graph: Graph) -> Result<Option<Graph>, AllocError>
    requires narrow { graph.wide ≤ 2 ^ 20 }
    ensures none { IfOk result (λ made. IfNone made (All AreOrdered graph.steps.items → ⊥)) }
    ensures many { IfOk result (λ made. IfSome made (λ g. vec_len g.steps ≡ vec_len graph.steps)) }
    ensures made { IfOk result (λ made. IfSome made (λ g. g.made ≡ graph.made)) }
    ensures same { IfOk result (λ made. IfSome made
        (λ g. HasSameWays graph.steps.items g.steps.items)) }
{
    let wide = graph.wide;
    let made = graph.made;
    let mut steps = graph.steps;
    let root = match merge_layers(&mut steps, alloc, wide)? {
        Some(root) => root,
        None => return Ok(None),
    };
    settle_root(&mut steps, alloc, root);
    let wide = wide_of(&steps);
    Ok(Some(Graph { steps, wide, made }))
}
