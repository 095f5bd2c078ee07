// A tree in place of a node of another.
ghost use Rattle.std.specs.Prelude.{◌≡◌, ◌≤◌, ◌∷◌, List, length, take, drop, reverse, Some, None, IsTrue, IsFalse};
ghost use Rattle.search_laws.specs.Grove.{GrowingTree, put_at};
ghost use Rattle.search_laws.specs.declared.Side.{Side};
ghost use Rattle.open_nodes.specs.Trees.{tree_of};
ghost use Rattle.open_nodes.specs.Turned.{gone_down, whole};

use crate::shared::SharedProof;
use crate::tree::Tree;
use search_laws::Side;
use std::mem;

/// Puts a tree in place of the node at a path. It takes no memory and no stack: on the way down, each fork keeps the node
/// above it in the place of the part that the path goes on in.
pub fn put(tree: &mut Tree, path: &[Side], new: Tree)
    ensures { tree_of tree.new ≡ put_at (tree_of tree.old) path.now (tree_of new) }
{
    let mut node = mem::replace(tree, Tree::Shut(SharedProof::plain()));
    let mut above = Tree::Shut(SharedProof::plain());
    let depth = go_down(&mut node, &mut above, path);
    if depth == path.len() {
        node = new;
    }
    go_up(&mut node, &mut above, &path[..depth]);
    *tree = node;
}

// Goes down a path as far as it leads to nodes: how many steps it went.
fn go_down(node: &mut Tree, above: &mut Tree, path: &[Side]) -> usize
    ensures within { result ≤ length path.now }
    ensures turned { (new : GrowingTree) → put_at (tree_of node.old) path.now new ≡ whole (reverse (take result path.now))
        (put_at (tree_of node.new) (drop result path.now) new) (tree_of above.new) }
    ensures leaf { (result ≡ length path.now → ⊥) → (new : GrowingTree) →
        put_at (tree_of node.new) (drop result path.now) new ≡ tree_of node.new }
{
    let mut depth = 0;
    for side in path {
        if !step_down(node, above, *side) {
            break;
        }
        depth += 1;
    }
    depth
}

// Goes down to the part of a node on a side, and leaves the node above with what was above it in that part's place.
// Nothing changes where the node is a leaf: then it is false.
fn step_down(node: &mut Tree, above: &mut Tree, side: Side) -> bool
    ensures fork { IsTrue result → gone_down side (tree_of node.old) (tree_of above.old) ≡
        Some (tree_of node.new, tree_of above.new) }
    ensures leaf { IsFalse result → gone_down side (tree_of node.old) (tree_of above.old) ≡ None }
    ensures node { IsFalse result → node.new ≡ node.old }
    ensures above { IsFalse result → above.new ≡ above.old }
{
    match side {
        Side::Low => {
            let Tree::Fork { low, .. } = &mut *node else {
                return false;
            };
            mem::swap(&mut **low, above);
        }
        Side::High => {
            let Tree::Fork { high, .. } = &mut *node else {
                return false;
            };
            mem::swap(&mut **high, above);
        }
    }
    mem::swap(node, above);
    true
}

// Goes up a path that was gone down, and puts each part back into its fork.
fn go_up(node: &mut Tree, above: &mut Tree, path: &[Side])
    ensures { tree_of node.new ≡ whole (reverse path.now) (tree_of node.old) (tree_of above.old) }
{
    let mut left = path;
    while let Some((side, rest)) = left.split_last() {
        step_up(node, above, *side);
        left = rest;
    }
}

// Goes up to the node above, whose part on a side it was gone down to.
fn step_up(node: &mut Tree, above: &mut Tree, side: Side)
    ensures { (sides : List Side) → whole sides (tree_of node.new) (tree_of above.new) ≡
        whole (side ∷ sides) (tree_of node.old) (tree_of above.old) }
{
    match side {
        Side::Low => {
            let Tree::Fork { low, .. } = &mut *above else {
                return;
            };
            mem::swap(&mut **low, node);
        }
        Side::High => {
            let Tree::Fork { high, .. } = &mut *above else {
                return;
            };
            mem::swap(&mut **high, node);
        }
    }
    mem::swap(node, above);
}
