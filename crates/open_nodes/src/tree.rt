// The tree of a search, and what is done with its leaves.
ghost use Rattle.std.specs.Prelude.{◌≡◌, ◌<◌, Some, IfOk, IsTrue, IsFalse, pos};
ghost use Rattle.bp_theory.specs.Trees.{HasSoundSplits};
ghost use Rattle.search_laws.specs.Grove.{zone_at, live_at, certificate_tree, LiveLeaf, live, fork};
ghost use Rattle.open_nodes.specs.Trees.{tree_of, weight, IsLeaf};

use crate::shared::SharedProof;
use block_program::Zone;
use bp_theory::Proof;
use search_laws::Side;
use std::alloc::{AllocError, Global};
use std::mem;

/// The tree of a search: live leaves with a proof and the bound that it shows in the leaf's zone, shut leaves with a proof,
/// and forks of a variable's span behind a number.
pub enum Tree {
    Live(SharedProof, i64),
    Shut(SharedProof),
    Fork {
        var: u32,
        at: i64,
        low: Box<Tree>,
        high: Box<Tree>,
    },
}

// It goes node by node, with no stack and no memory of its own: a fork whose low part is a fork is turned, and a leaf in
// its low part goes with it.
impl Drop for Tree {
    fn drop(mut self) {
        loop {
            match self {
                Tree::Live(_, _) => return,
                Tree::Shut(_) => return,
                Tree::Fork { var, at, low, high } => self = lessened(var, &at, low, high),
            }
        }
    }
}

// What is left of a fork with these parts: the fork turned about its low part where that is a fork, else its high part.
fn lessened(var: u32, at: &i64, low: Box<Tree>, high: Box<Tree>) -> Tree
    ensures { weight (tree_of result) < weight (fork var at.now (tree_of low.value)
        (tree_of high.value)) }
{
    let mut turned = low;
    let mut rest = high;
    if turns(&mut turned, &mut rest) {
        return Tree::Fork {
            var,
            at: *at,
            low: rest,
            high: turned,
        };
    }
    Box::into_inner(turned).go();
    Box::into_inner(rest)
}

// Turns a fork's low part, where that is a fork: its low part comes in place of the high one, which it takes up itself
// with its own. Whether there was something to turn.
fn turns(low: &mut Tree, high: &mut Box<Tree>) -> bool
    ensures turned { IsTrue result → weight (fork 0 (pos 0) (tree_of high.new.value) (tree_of low.new))
        < weight (fork 0 (pos 0) (tree_of low.old) (tree_of high.old.value)) }
    ensures leaf { IsFalse result → IsLeaf (tree_of low.new) }
    ensures rest { IsFalse result → high.new ≡ high.old }
{
    let Tree::Fork { high: second, .. } = &mut *low else {
        return false;
    };
    mem::swap(second, high);
    if let Tree::Fork { low: first, .. } = &mut *low {
        mem::swap(first, high);
    }
    true
}

impl Tree {
    // A leaf goes.
    fn go(self)
        requires { IsLeaf (tree_of self) }
    {
        match self {
            Tree::Live(_, _) => {}
            Tree::Shut(_) => {}
            Tree::Fork { .. } => unreachable!(),
        }
    }
}

// A fork into two live leaves of one bound.
pub(crate) fn forked(
    alloc: Global,
    var: u32,
    at: &i64,
    proofs: (SharedProof, SharedProof),
    bound: &i64,
) -> Result<Tree, AllocError>
    requires { proofs.0 ≡ proofs.1 }
    ensures { IfOk result (λ t. tree_of t ≡ fork var at.now (live proofs.0 bound.now)
        (live proofs.0 bound.now)) }
{
    let (first, second) = proofs;
    let low = Box::new(alloc, Tree::Live(first, *bound))?;
    let high = Box::new(alloc, Tree::Live(second, *bound))?;
    Ok(Tree::Fork {
        var,
        at: *at,
        low,
        high,
    })
}

// The node at a path, or the leaf where a longer path ends, and the zone there.
pub(crate) fn walk<'a>(tree: &'a Tree, path: &[Side], root: Zone) -> (&'a Tree, Zone)
    requires { HasSoundSplits (certificate_tree (tree_of tree.now)) root }
    ensures leaf { (leaf : LiveLeaf) → live_at (tree_of tree.now) path.now ≡ Some leaf →
        tree_of result.0.now ≡ live leaf.proof leaf.bound }
    ensures zone { result.1 ≡ zone_at (tree_of tree.now) root path.now }
{
    let mut node = tree;
    let mut zone = root;
    for side in path {
        match node {
            Tree::Live(_, _) => return (node, zone),
            Tree::Shut(_) => return (node, zone),
            Tree::Fork { var, at, low, high } => match side {
                Side::Low => {
                    zone = zone.into_low(*var, at);
                    node = low;
                }
                Side::High => {
                    zone = zone.into_high(*var, at);
                    node = high;
                }
            },
        }
    }
    (node, zone)
}
