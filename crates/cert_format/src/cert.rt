// A certificate as it is kept: its claim, the point of its value, its cuts, and its tree of proofs.
ghost use Rattle.std.specs.Prelude.{◌≡◌, ◌-◌, ◌^◌, min, IfOk, MatchOption, None, Some};
ghost use Rattle.cert_format.specs.Nodes.{nodes};
ghost use Rattle.cert_format.specs.Written.{written_tree};
ghost use Rattle.cert_format.specs.Sketch.{tree_of};

use crate::lines::{NodeLines, SketchLines};
use crate::sketch::Sketch;
use bp_theory::{Claim, Cut, Items};
use std::alloc::{AllocError, Global};

/// A certificate: a claim, the point of its value, rounding cuts, and a tree with the proofs of its leaves.
#[derive(Drop)]
pub struct Cert {
    /// What is claimed.
    pub claim: Claim,
    /// By number of the variable: the point of the claimed value; it has no meaning where the claim has none.
    pub point: Items<i64>,
    /// The cuts, in order: proofs and later cuts name them by numbers behind those of link rows.
    pub cuts: Items<Cut>,
    /// The branch tree, with the proofs of its leaves.
    pub tree: Sketch,
    // How many nodes the tree has, or the greatest number of a u64.
    size: u64,
    // The size is that of the tree.
    ghost counted: { size ≡ min (nodes (written_tree (tree_of tree))) (2 ^ 64 - 1) },
}

impl Cert {
    ghost use Rattle.cert_format.specs.Kept.{certificate_of, kept_cert};

    /// A certificate of these parts.
    pub fn new(
        alloc: Global,
        claim: Claim,
        point: Items<i64>,
        cuts: Items<Cut>,
        tree: Sketch,
    ) -> Result<Cert, AllocError>
        ensures claim { IfOk result (λ cert. cert.claim ≡ claim) }
        ensures point { IfOk result (λ cert. cert.point ≡ point) }
        ensures cuts { IfOk result (λ cert. cert.cuts ≡ cuts) }
        ensures tree { IfOk result (λ cert. cert.tree ≡ tree) }
    {
        let size = count(alloc, &tree)?;
        Ok(Cert {
            claim,
            point,
            cuts,
            tree,
            size,
        })
    }

    /// What is claimed.
    pub fn claim(&self) -> Claim
        ensures { result ≡ (certificate_of self.now).claim }
    {
        self.claim
    }

    /// The point of the claimed value, where there is one.
    pub fn point(&self) -> Option<&[i64]>
        ensures { MatchOption result ((certificate_of self.now).point ≡ None)
            (λ point. (certificate_of self.now).point ≡ Some point.now) }
    {
        match self.claim {
            Claim::Optimal(_) => Some(self.point.as_slice()),
            Claim::Infeasible => None,
            Claim::Bound(_, None) => None,
            Claim::Bound(_, Some(_)) => Some(self.point.as_slice()),
        }
    }

    /// The cuts, whose lines follow those of the claim and the point.
    pub fn cuts(&self) -> &[Cut]
        ensures { result.now ≡ (certificate_of self.now).cuts }
    {
        self.cuts.as_slice()
    }

    /// The tree. Its node lines follow one another in preorder, behind those of the claim, the point and the cuts.
    pub fn tree(&self) -> &Sketch
        ensures { tree_of result.now ≡ (certificate_of self.now).tree }
    {
        &self.tree
    }

    /// How many nodes the tree has: as many lines of a text. More than a u64 can hold are its greatest number.
    pub fn nodes(&self) -> u64
        ensures { result ≡ min (nodes (kept_cert self.now).tree) (2 ^ 64 - 1) }
    {
        self.size
    }
}

// How many nodes a tree has. More than a u64 can hold are its greatest number.
#[tactic(auto, using(crate::proofs::Preorder::one_line_less, crate::proofs::Preorder::as_many_lines))]
fn count(alloc: Global, tree: &Sketch) -> Result<u64, AllocError>
    ensures { IfOk result (λ count. count ≡ min (nodes (written_tree (tree_of tree.now))) (2 ^ 64 - 1)) }
{
    let mut lines = SketchLines::new(alloc, tree);
    let mut count: u64 = 0;
    while let Some(_line) = lines.line() {
        count = count.saturating_add(1);
        lines.advance()?;
    }
    Ok(count)
}
