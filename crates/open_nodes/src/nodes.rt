// The nodes of a growing tree in preorder, and the tree that they make.
ghost use Rattle.std.specs.Prelude.{◌≡◌, ◌∷◌, List, IfOk, OnOk};
ghost use Rattle.search_laws.specs.Grove.{GrowingTree, fork};
ghost use Rattle.open_nodes.specs.Trees.{tree_of};
ghost use Rattle.open_nodes.specs.Nodes.{growing_nodes, built, last_first, CanTake};
ghost use Rattle.open_nodes.specs.declared.nodes.GrowingNode.{GrowingNode};

use crate::shared::Bases;
use crate::tree::Tree;
use bp_theory::Proof;
use std::alloc::{AllocError, Global};

/// A node of a growing tree: a live leaf with a proof and the bound that it shows in the leaf's zone, a shut leaf with a
/// proof, or the split of a variable's span behind a number.
#[derive(Drop)]
pub enum GrowingNode {
    Live(Proof, i64),
    Shut(Proof),
    Split {
        /// The variable.
        var: u32,
        /// The last number of the low part.
        at: i64,
    },
}

/// The tree that has these nodes in preorder: a split stands in front of the nodes of its low part, and these in front of
/// those of its high part.
pub fn grown(alloc: Global, nodes: Vec<GrowingNode>) -> Result<Tree, AllocError>
    requires { (t : GrowingTree) × (nodes.items ≡ growing_nodes t) }
    ensures { (t : GrowingTree) → nodes.items ≡ growing_nodes t →
        IfOk result (λ tree. tree_of tree ≡ t) }
{
    let mut left = nodes;
    let mut made: Vec<Tree> = Vec::new(alloc);
    let mut bases = Bases::new(alloc);
    while let Some(node) = left.pop() {
        take_node(alloc, &mut made, &mut bases, node)?;
    }
    match made.pop() {
        Some(tree) => Ok(tree),
        None => unreachable!(),
    }
}

// Takes the node in front of those that the last of these trees were made of.
fn take_node(
    alloc: Global,
    made: &mut Vec<Tree>,
    bases: &mut Bases,
    node: GrowingNode,
) -> Result<(), AllocError>
    requires { CanTake node (last_first made.old.items) }
    ensures { OnOk result ((nodes : List GrowingNode) →
        built (node ∷ nodes) (last_first made.old.items) ≡
        built nodes (last_first made.new.items)) }
{
    match node {
        GrowingNode::Live(proof, bound) => {
            let shared = bases.keep(alloc, proof)?;
            made.push(Tree::Live(shared, bound))?;
        }
        GrowingNode::Shut(proof) => {
            let shared = bases.keep(alloc, proof)?;
            made.push(Tree::Shut(shared))?;
        }
        GrowingNode::Split { var, at } => {
            let Some(low) = made.pop() else {
                unreachable!()
            };
            let Some(high) = made.pop() else {
                unreachable!()
            };
            let fork = fork_of(alloc, var, &at, low, high)?;
            made.push(fork)?;
        }
    }
    Ok(())
}

// A fork of two trees.
fn fork_of(alloc: Global, var: u32, at: &i64, low: Tree, high: Tree) -> Result<Tree, AllocError>
    ensures { IfOk result (λ tree. tree_of tree ≡ fork var at.now (tree_of low) (tree_of high)) }
{
    let low = Box::new(alloc, low)?;
    let high = Box::new(alloc, high)?;
    Ok(Tree::Fork {
        var,
        at: *at,
        low,
        high,
    })
}
