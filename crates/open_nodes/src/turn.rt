// A live leaf, as it is handed out.
ghost use Rattle.std.specs.Prelude.{◌≡◌, ◌<◌, ◌^◌, length, IfOk, Some};
ghost use Rattle.bp_theory.specs.Trees.{HasSoundSplits};
ghost use Rattle.search_laws.specs.Grove.{LiveLeaf, live_at, zone_at, certificate_tree};
ghost use Rattle.open_nodes.specs.Trees.{tree_of};

use crate::path::SharedPath;
use crate::tree::{Tree, walk};
use block_program::Zone;
use bp_theory::{Items, Proof};
use search_laws::Side;
use std::alloc::{AllocError, Global};

/// A live leaf of a tree: its path from the root, the zone of its node, its depth, its proof, and the bound that the proof
/// shows in the zone. What it keeps is the record `IsTurn` of the specifications.
#[derive(Drop)]
pub struct Turn {
    pub path: Items<Side>,
    pub zone: Zone,
    pub depth: u32,
    pub proof: Proof,
    pub bound: i64,
}

/// The live leaf at a path, with its zone: that of the node in a tree whose root has this zone.
pub fn turn_at(
    alloc: Global,
    tree: &Tree,
    path: &SharedPath,
    root: &Zone,
) -> Result<Turn, AllocError>
    requires splits { HasSoundSplits (certificate_tree (tree_of tree.now)) root.now }
    requires live { (leaf : LiveLeaf) × (live_at (tree_of tree.now) path.now ≡ Some leaf) }
    requires deep { length path.now < 2 ^ 32 }
    ensures live { IfOk result (λ turn. live_at (tree_of tree.now) path.now ≡
        Some (record { proof = turn.proof; bound = turn.bound })) }
    ensures zone { IfOk result (λ turn. turn.zone ≡ zone_at (tree_of tree.now) root.now path.now) }
    ensures path { IfOk result (λ turn. turn.path ≡ path.now) }
    ensures depth { IfOk result (λ turn. turn.depth ≡ length path.now) }
{
    let sides = path.to_items(alloc)?;
    let copy = root.copy(alloc)?;
    turn_in(alloc, tree, sides, copy)
}

// The same with a zone that is walked down.
fn turn_in(alloc: Global, tree: &Tree, path: Items<Side>, root: Zone) -> Result<Turn, AllocError>
    requires splits { HasSoundSplits (certificate_tree (tree_of tree.now)) root }
    requires live { (leaf : LiveLeaf) × (live_at (tree_of tree.now) path ≡ Some leaf) }
    requires deep { length path < 2 ^ 32 }
    ensures live { IfOk result (λ turn. live_at (tree_of tree.now) path ≡
        Some (record { proof = turn.proof; bound = turn.bound })) }
    ensures zone { IfOk result (λ turn. turn.zone ≡ zone_at (tree_of tree.now) root path) }
    ensures path { IfOk result (λ turn. turn.path ≡ path) }
    ensures depth { IfOk result (λ turn. turn.depth ≡ length path) }
{
    let (node, zone) = walk(tree, path.as_slice(), root);
    match node {
        Tree::Live(proof, bound) => {
            let proof = proof.to_proof(alloc)?;
            Ok(Turn {
                zone,
                depth: path.len() as u32,
                path,
                proof,
                bound: *bound,
            })
        }
        _ => unreachable!(),
    }
}
