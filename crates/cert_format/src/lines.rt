// The lines of a tree's nodes, one after another in preorder.
ghost use Rattle.std.specs.Prelude.{◌≡◌, List, Some, drop, OnOk};
ghost use Rattle.cert_format.specs.Sketch.{tree_of};
ghost use Rattle.cert_format.specs.Preorder.{Line, IsFirst, node_lines};
ghost use Rattle.cert_format.specs.SketchLines.{sketch_lines};

use crate::sketch::Sketch;
use bp_theory::Proof;
use std::alloc::{AllocError, Global};

/// What the line of a node says.
#[derive(Clone, Copy)]
pub enum NodeLine<'a> {
    /// A shut leaf with its proof.
    Leaf(&'a Proof),
    /// An open leaf with its proof.
    Open(&'a Proof),
    /// The split of a variable's span.
    Split {
        /// The variable, by its number from 0.
        var: u32,
        /// The last number of the low part.
        at: i64,
    },
}

/// The lines of a tree's nodes in preorder, one of which is at hand at a time. The proof of a leaf lasts no longer than its
/// line is at hand.
pub trait NodeLines {
    /// The lines that are still to come; the one at hand is the first of them.
    ghost lines: { Self → List Line };

    /// The line at hand, none behind the last one.
    fn line(&self) -> Option<NodeLine<'_>>
        ensures { IsFirst result (lines self.now) };

    /// Goes on to the next line. After want of memory nothing is said of the lines that are still to come.
    fn advance(&mut self) -> Result<(), AllocError>
        ensures { OnOk result (lines self.new ≡ drop 1 (lines self.old)) };
}

/// The lines of a certificate's tree as it was read. It keeps no more than one node for each level of the tree.
#[derive(Drop)]
pub struct SketchLines<'a> {
    // The node of the line at hand; none behind the last one.
    here: Option<&'a Sketch>,
    // The high parts that are still to come, the next one last.
    ahead: Vec<&'a Sketch>,
}

impl<'a> SketchLines<'a> {
    /// The lines of a tree, the first at hand.
    pub fn new(alloc: Global, tree: &'a Sketch) -> SketchLines<'a>
        ensures { sketch_lines result ≡ node_lines (tree_of tree.now) }
    {
        SketchLines {
            here: Some(tree),
            ahead: Vec::new(alloc),
        }
    }
}

// The line of a node.
fn line_at(node: &Sketch) -> NodeLine<'_>
    ensures { IsFirst (Some result) (node_lines (tree_of node.now)) }
{
    match node {
        Sketch::Leaf(proof) => NodeLine::Leaf(proof),
        Sketch::Open(proof) => NodeLine::Open(proof),
        Sketch::Fork { var, at, .. } => NodeLine::Split { var: *var, at: *at },
    }
}

impl NodeLines for SketchLines<'_> {
    ghost lines = { sketch_lines };

    #[tactic(auto, using(crate::proofs::Preorder::first_ahead))]
    fn line(&self) -> Option<NodeLine<'_>> {
        match self.here {
            None => None,
            Some(node) => Some(line_at(node)),
        }
    }

    fn advance(&mut self) -> Result<(), AllocError> {
        let here = self.here;
        match here {
            None => {}
            Some(Sketch::Fork { low, high, .. }) => {
                self.ahead.push(high)?;
                self.here = Some(low);
            }
            Some(Sketch::Leaf(_) | Sketch::Open(_)) => self.here = self.ahead.pop(),
        }
        Ok(())
    }
}
