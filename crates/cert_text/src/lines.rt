// The lines of a search's tree, one after another in preorder.
ghost use Rattle.std.specs.Prelude.{◌≡◌, drop, IfOk};
ghost use Rattle.search_laws.specs.Grove.{certificate_tree};
ghost use Rattle.open_nodes.specs.Trees.{tree_of};
ghost use Rattle.cert_format.specs.Preorder.{node_lines};
ghost use Rattle.cert_text.specs.TreeLines.{lines_at, next_tree, tree_at, tree_lines};

use bp_theory::Proof;
use branch_tree::Tree;
use cert_format::{NodeLine, NodeLines};
use std::alloc::{AllocError, Global};

// The node at hand.
#[derive(Drop)]
enum AtHand<'a> {
    // None behind the last node.
    Behind,
    // A live leaf; its proof is rebuilt here.
    Open(Proof),
    // A shut leaf; its proof is rebuilt here.
    Leaf(Proof),
    Split {
        var: u32,
        at: i64,
        low: &'a Tree,
        high: &'a Tree,
    },
}

/// The lines of a search's tree, whose live leaves are open. It keeps no more than one node for each level of the tree and
/// the proof of one leaf.
#[derive(Drop)]
pub struct TreeLines<'a> {
    alloc: Global,
    here: AtHand<'a>,
    // The high parts that are still to come, the next one last.
    ahead: Vec<&'a Tree>,
}

impl<'a> TreeLines<'a> {
    /// The lines of a tree, the first at hand.
    pub fn new(alloc: Global, tree: &'a Tree) -> Result<TreeLines<'a>, AllocError>
        ensures { IfOk result (λ lines. tree_lines lines ≡ node_lines (certificate_tree (tree_of tree.now))) }
    {
        let here = at_hand(alloc, Some(tree))?;
        Ok(TreeLines {
            alloc,
            here,
            ahead: Vec::new(alloc),
        })
    }
}

// A node with its proof rebuilt.
fn at_hand<'a>(alloc: Global, next: Option<&'a Tree>) -> Result<AtHand<'a>, AllocError>
    ensures { IfOk result (λ here. tree_at here ≡ next_tree next.entry) }
{
    let Some(node) = next else {
        return Ok(AtHand::Behind);
    };
    match node {
        Tree::Live(proof, _) => Ok(AtHand::Open(proof.to_proof(alloc)?)),
        Tree::Shut(proof) => Ok(AtHand::Leaf(proof.to_proof(alloc)?)),
        Tree::Fork { var, at, low, high } => Ok(AtHand::Split {
            var: *var,
            at: *at,
            low,
            high,
        }),
    }
}

// The node behind the one at hand; the high part of a split goes to those that are still to come.
fn next_node<'a>(
    here: &AtHand<'a>,
    ahead: &mut Vec<&'a Tree>,
) -> Result<Option<&'a Tree>, AllocError>
    ensures { IfOk result (λ next. lines_at (next_tree next) ahead.new.items
        ≡ drop 1 (lines_at (tree_at here.now) ahead.old.items)) }
{
    match here {
        AtHand::Behind => Ok(None),
        AtHand::Open(_) | AtHand::Leaf(_) => Ok(ahead.pop()),
        AtHand::Split { low, high, .. } => {
            ahead.push(*high)?;
            Ok(Some(*low))
        }
    }
}

impl NodeLines for TreeLines<'_> {
    ghost lines = { tree_lines };

    fn line(&self) -> Option<NodeLine<'_>> {
        match &self.here {
            AtHand::Behind => None,
            AtHand::Open(proof) => Some(NodeLine::Open(proof)),
            AtHand::Leaf(proof) => Some(NodeLine::Leaf(proof)),
            AtHand::Split { var, at, .. } => Some(NodeLine::Split { var: *var, at: *at }),
        }
    }

    fn advance(&mut self) -> Result<(), AllocError> {
        let next = next_node(&self.here, &mut self.ahead)?;
        self.here = at_hand(self.alloc, next)?;
        Ok(())
    }
}
