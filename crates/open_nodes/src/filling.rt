// The queue of a tree's live leaves, its steps and its depth. Each walks over the tree with a list of the nodes that are
// still to come, the next one last: no more than two for each level of the tree.
ghost use Rattle.std.specs.Prelude.{◌≡◌, ◌<◌, ◌≤◌, ◌^◌, [], IfOk, None};
ghost use Rattle.bp_theory.specs.Limits.{greatest_depth};
ghost use Rattle.bp_theory.specs.declared.Limits.TheVariants.{Large};
ghost use Rattle.bp_theory.specs.Trees.{steps, depth};
ghost use Rattle.search_laws.specs.Grove.{live_count, certificate_tree};
ghost use Rattle.open_nodes.specs.Trees.{tree_of};
ghost use Rattle.open_nodes.specs.Queues.{queue_of};
ghost use Rattle.open_nodes.specs.Filled.{IsFilled};

use crate::path::SharedPath;
use crate::queue::{LeafQueue, key_at};
use crate::tree::Tree;
use std::alloc::{AllocError, Global};

// A node that is still to come, and its path.
#[derive(Drop)]
struct Ahead<'a> {
    node: &'a Tree,
    path: SharedPath,
}

/// The queue of a tree's live leaves, numbered in preorder from 0, and how many there are.
pub fn filled_queue(alloc: Global, tree: &Tree) -> Result<(LeafQueue, u64), AllocError>
    requires { live_count (tree_of tree.now) < 2 ^ 64 }
    ensures filled { IfOk result (λ k. IsFilled (λ _ _. None) (tree_of tree.now) [] 0 (queue_of k.0)) }
    ensures live { IfOk result (λ k. k.1 ≡ live_count (tree_of tree.now)) }
{
    let mut queue = LeafQueue::new(alloc);
    let mut ahead: Vec<Ahead> = Vec::new(alloc);
    let mut next: u64 = 0;
    ahead.push(ahead_of(tree, SharedPath::root()))?;
    while let Some(here) = ahead.pop() {
        let Ahead { node, path } = here;
        match node {
            Tree::Live(_, bound) => {
                queue.add(key_at(bound, next), path)?;
                next += 1;
            }
            Tree::Shut(_) => {}
            Tree::Fork { low, high, .. } => {
                let (left, right) = path.parts(alloc)?;
                ahead.push(ahead_of(high, right))?;
                ahead.push(ahead_of(low, left))?;
            }
        }
    }
    Ok((queue, next))
}

// A node that is still to come.
fn ahead_of(node: &Tree, path: SharedPath) -> Ahead
    ensures node { tree_of result.node.now ≡ tree_of node.now }
    ensures path { result.path ≡ path }
{
    Ahead { node, path }
}

/// How many splits and shut leaves a tree has.
pub fn steps_in(alloc: Global, tree: &Tree) -> Result<u64, AllocError>
    requires { steps (certificate_tree (tree_of tree.now)) < 2 ^ 64 }
    ensures { IfOk result (λ count. count ≡ steps (certificate_tree (tree_of tree.now))) }
{
    let mut ahead: Vec<&Tree> = Vec::new(alloc);
    let mut count: u64 = 0;
    ahead.push(tree)?;
    while let Some(node) = ahead.pop() {
        match node {
            Tree::Live(_, _) => {}
            Tree::Shut(_) => count += 1,
            Tree::Fork { low, high, .. } => {
                count += 1;
                ahead.push(high)?;
                ahead.push(low)?;
            }
        }
    }
    Ok(count)
}

// A node that is still to come, and its depth.
#[derive(Drop)]
struct AtDepth<'a> {
    node: &'a Tree,
    depth: u32,
}

/// The greatest depth of a tree's nodes.
pub fn depth_in(alloc: Global, tree: &Tree) -> Result<u32, AllocError>
    requires { depth (certificate_tree (tree_of tree.now)) ≤ greatest_depth Large }
    ensures { IfOk result (λ deepest. deepest ≡ depth (certificate_tree (tree_of tree.now))) }
{
    let mut ahead: Vec<AtDepth> = Vec::new(alloc);
    let mut deepest: u32 = 0;
    ahead.push(at_depth(tree, 0))?;
    while let Some(here) = ahead.pop() {
        match here.node {
            Tree::Live(_, _) => deepest = deepest.max(here.depth),
            Tree::Shut(_) => deepest = deepest.max(here.depth),
            Tree::Fork { low, high, .. } => {
                ahead.push(at_depth(high, here.depth + 1))?;
                ahead.push(at_depth(low, here.depth + 1))?;
            }
        }
    }
    Ok(deepest)
}

// A node that is still to come, and its depth.
fn at_depth<'a>(node: &'a Tree, depth: u32) -> AtDepth<'a>
    ensures node { tree_of result.node.now ≡ tree_of node.now }
    ensures depth { result.depth ≡ depth }
{
    AtDepth { node, depth }
}
