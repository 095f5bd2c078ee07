// How a live leaf is forked.
ghost use Rattle.std.specs.Prelude.{◌≡◌, ◌+◌, ◌<◌, ◌^◌, ℕ, Some, None, OnOk, OnErr};
ghost use Rattle.search_laws.specs.Grove.{fork_at};
ghost use Rattle.open_nodes.specs.Trees.{tree_of};
ghost use Rattle.open_nodes.specs.Queues.{queue_of, IsParted};

use crate::place::put;
use crate::queue::{LeafQueue, key_at};
use crate::shared::Bases;
use crate::tree::{Tree, forked};
use crate::turn::Turn;
use bp_theory::Proof;
use std::alloc::{AllocError, Global};

/// How a live leaf is forked: into two live leaves with one proof and bound.
#[derive(Drop)]
pub struct Fork {
    /// The variable whose span is split.
    pub var: u32,
    /// The last number of the low part's span.
    pub at: i64,
    /// The proof of both parts: a dual proof of a bound in the leaf's zone.
    pub proof: Proof,
    /// The bound that the proof shows in the leaf's zone, as a cost that is minimised.
    pub bound: i64,
}

/// Forks a turn's leaf in the tree into two live leaves with one proof and bound, and puts their paths in place of its own in
/// the queue, under a number and the next one. Where memory is short nothing changes.
pub fn fork_leaf(
    alloc: Global,
    tree: &mut Tree,
    queue: &mut LeafQueue,
    bases: &mut Bases,
    turn: &Turn,
    number: u64,
    fork: Fork,
) -> Result<(), AllocError>
    requires there { (n : ℕ) × (queue_of queue.old turn.now.bound n ≡ Some turn.now.path) }
    requires none { queue_of queue.old fork.bound number ≡ None }
    requires none_behind { queue_of queue.old fork.bound (number + 1) ≡ None }
    requires fits { number + 1 < 2 ^ 64 }
    ensures same_tree { OnErr result (tree.new ≡ tree.old) }
    ensures same_queue { OnErr result (queue.new ≡ queue.old) }
    ensures tree { OnOk result (tree_of tree.new ≡ fork_at (tree_of tree.old) turn.now.path fork.var
        fork.at fork.proof fork.bound) }
    ensures queue { OnOk result (IsParted (queue_of queue.old) turn.now.path fork.bound
        number (queue_of queue.new)) }
{
    let Fork {
        var,
        at,
        proof,
        bound,
    } = fork;
    let path = turn.path.as_slice();
    let key = queue.key_of(&turn.bound, path);
    let (low, high) = queue.path_at(&key).parts(alloc)?;
    let first = bases.keep(alloc, proof)?;
    let second = first.share()?;
    let node = forked(alloc, var, &at, (first, second), &bound)?;
    queue.divide(&key, key_at(&bound, number), low, high)?;
    put(tree, path, node);
    Ok(())
}
