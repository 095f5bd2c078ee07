// The nodes of a certificate's tree as those of a tree from which a search goes on.
ghost use Rattle.std.specs.Prelude.{◌≡◌, ◌∷◌, [], IfOk, IfSome};
ghost use Rattle.bp_theory.specs.Trees as trees;
ghost use Rattle.search_laws.specs.Grove.{GrowingTree};
ghost use Rattle.cert_format.specs.Sketch as sketches;
ghost use Rattle.open_nodes.specs.Trees.{tree_of};
ghost use Rattle.open_nodes.specs.Nodes.{growing_nodes};
ghost use Rattle.cert_line_check.specs.Steps.{node, steps_of};
ghost use Rattle.block_pricers.specs.Forms.{forms_in};
ghost use Rattle.block_pricers.specs.Works.{forms_of};
ghost use Rattle.tree_load.specs.Rooms.{IsLeaf};
ghost use Rattle.tree_load.specs.Nodes.{MayLoad, IsLoadedNode};
ghost use Rattle.tree_load.specs.Steps.{MayLoadSteps, LoadsNode};

use crate::leaf::load_leaf;
use crate::walk::{Walk, back, pass, to_high, to_low};
use block_program::Blocked;
use bp_theory::Proof;
use branch_tree::{GrowingNode, Tree, grown};
use cert_format::Sketch;
use cert_line_check::{Ahead, push_parts};
use lagr_bound::Work;
use std::alloc::{AllocError, Global};

/// The node that a certificate's is loaded as, with all below it. The walk's zone is changed along the path and changed
/// back, with a list of the steps that are still to come.
pub fn load_node(
    alloc: Global,
    b: &Blocked,
    best: &Option<i64>,
    work: &mut Option<Work>,
    at: Walk,
    sketch: &Sketch,
) -> Result<(Box<Tree>, Walk), AllocError>
    requires made_for { IfSome work.old (λ made. forms_of made ≡ forms_in b.now) }
    requires may { MayLoad b.now best.now at (sketches.tree_of sketch.now) }
    ensures loaded { IfOk result (λ r. IsLoadedNode b.now.named.program.limits b.now.blocking best.now at
        (sketches.tree_of sketch.now) (tree_of r.0.value) r.1) }
    ensures made_for { IfSome work.new (λ made. forms_of made ≡ forms_in b.now) }
{
    let mut walk = at;
    let mut nodes: Vec<GrowingNode> = Vec::new(alloc);
    let mut ahead: Vec<Ahead> = Vec::new(alloc);
    ahead.push(Ahead::Node(sketch))?;
    while let Some(step) = ahead.pop() {
        match step {
            Ahead::Node(here) => {
                let (node, next) = load_line(alloc, b, best, work, walk, here, &mut ahead)?;
                nodes.push(node)?;
                walk = next;
            }
            Ahead::High { var, at, span } => walk = to_high(walk, var, &span, &at),
            Ahead::Back { var, span } => walk = back(walk, var, &span),
        }
    }
    let tree = grown(alloc, nodes)?;
    Ok((Box::new(alloc, tree)?, walk))
}

// The node that a certificate's own line is loaded as, and the walk behind the line. Where it is a split, its parts are
// still to come.
fn load_line<'a>(
    alloc: Global,
    b: &Blocked,
    best: &Option<i64>,
    work: &mut Option<Work>,
    at: Walk,
    sketch: &'a Sketch,
    ahead: &mut Vec<Ahead<'a>>,
) -> Result<(GrowingNode, Walk), AllocError>
    requires made_for { IfSome work.old (λ made. forms_of made ≡ forms_in b.now) }
    requires may { MayLoadSteps b.now best.now
        (node (sketches.tree_of sketch.now) ∷ steps_of ahead.old.items) at }
    ensures loaded { IfOk result (λ r. LoadsNode b.now best.now
        (node (sketches.tree_of sketch.now) ∷ steps_of ahead.old.items) at r.0
        (steps_of ahead.new.items) r.1) }
    ensures made_for { IfSome work.new (λ made. forms_of made ≡ forms_in b.now) }
{
    match sketch {
        Sketch::Leaf(proof) => load_end(alloc, b, best, work, at, proof),
        Sketch::Open(proof) => load_end(alloc, b, best, work, at, proof),
        Sketch::Fork {
            var,
            at: split,
            low,
            high,
        } => {
            let span = at.zone.span(*var);
            push_parts(ahead, *var, split, &span, low, high)?;
            let node = GrowingNode::Split {
                var: *var,
                at: *split,
            };
            Ok((node, to_low(at, *var, split)))
        }
    }
}

// The leaf that a certificate's is loaded as, and the walk behind its line.
fn load_end(
    alloc: Global,
    b: &Blocked,
    best: &Option<i64>,
    work: &mut Option<Work>,
    at: Walk,
    proof: &Proof,
) -> Result<(GrowingNode, Walk), AllocError>
    requires made_for { IfSome work.old (λ made. forms_of made ≡ forms_in b.now) }
    requires may { MayLoad b.now best.now at (trees.open_leaf proof.now) }
    ensures loaded { IfOk result (λ r. (leaf : GrowingTree) ×
        IsLoadedNode b.now.named.program.limits b.now.blocking best.now at
        (trees.open_leaf proof.now) leaf r.1 × (growing_nodes leaf ≡ r.0 ∷ [])) }
    ensures made_for { IfSome work.new (λ made. forms_of made ≡ forms_in b.now) }
{
    let leaf = load_leaf(alloc, b, best, work, &at.zone, proof)?;
    let node = leaf_node(alloc, &leaf)?;
    let end = pass(at, b.model().limits(), &leaf);
    Ok((node, end))
}

// A leaf as a node.
fn leaf_node(alloc: Global, leaf: &Tree) -> Result<GrowingNode, AllocError>
    requires { IsLeaf (tree_of leaf.now) }
    ensures { IfOk result (λ node. growing_nodes (tree_of leaf.now) ≡ node ∷ []) }
{
    match leaf {
        Tree::Live(proof, bound) => {
            let own = proof.to_proof(alloc)?;
            Ok(GrowingNode::Live(own, *bound))
        }
        Tree::Shut(proof) => {
            let own = proof.to_proof(alloc)?;
            Ok(GrowingNode::Shut(own))
        }
        Tree::Fork { .. } => unreachable!(),
    }
}
