// A leaf of a certificate as a leaf of a search's tree.
ghost use Rattle.std.specs.Prelude.{◌≡◌, ◌↔◌, ◌<◌, ◌<ℤ◌, ◌*ℤ◌, ◌-ℤ◌, pos, IsTrue, IfOk, IfSome};
ghost use Rattle.bp_theory.specs.Trees.{IsZone};
ghost use Rattle.block_pricers.specs.Forms.{forms_in};
ghost use Rattle.block_pricers.specs.Works.{forms_of};
ghost use Rattle.search_laws.specs.Loading.{LoadsLeaf};
ghost use Rattle.open_nodes.specs.Trees.{tree_of};
ghost use Rattle.tree_load.specs.Rooms.{CanLoadLeaf, SettlesBy};

use block_program::{Blocked, Zone};
use bp_theory::Proof;
use branch_tree::{Bases, Tree, proof_copy};
use cert_line_check::bound_in;
use lagr_bound::{Work, round};
use std::alloc::{AllocError, Global};

/// The leaf that a certificate's is loaded as: shut where its proof settles its zone against the best cost, or empties it
/// where there is none, and else live with the bound that the proof shows, rounded.
pub fn load_leaf(
    alloc: Global,
    b: &Blocked,
    best: &Option<i64>,
    work: &mut Option<Work>,
    zone: &Zone,
    proof: &Proof,
) -> Result<Tree, AllocError>
    requires made_for { IfSome work.old (λ made. forms_of made ≡ forms_in b.now) }
    requires zone { IsZone b.now.named.program.spans zone.now }
    requires can { CanLoadLeaf b.now.blocking best.now zone.now proof.now }
    ensures loads { IfOk result (λ leaf. LoadsLeaf b.now.blocking best.now zone.now proof.now
        (tree_of leaf)) }
    ensures made_for { IfSome work.new (λ made. forms_of made ≡ forms_in b.now) }
{
    let bound = bound_in(alloc, b, work, zone, proof)?;
    let own = proof_copy(alloc, proof)?;
    let copy = Bases::new(alloc).keep(alloc, own)?;
    match bound {
        None => Ok(Tree::Shut(copy)),
        Some(bound) => {
            if settles(best, proof.scale, &bound) {
                Ok(Tree::Shut(copy))
            } else {
                Ok(Tree::Live(copy, round(proof.scale, bound)))
            }
        }
    }
}

// Whether a bound of a proof of this scale settles a zone against the best cost, where there is one.
fn settles(best: &Option<i64>, scale: u32, bound: &i128) -> bool
    ensures { IsTrue result ↔ SettlesBy best.now scale bound.now }
{
    match best {
        None => is_positive(bound, scale),
        Some(cost) => is_above(bound, scale, cost),
    }
}

// Whether a bound is positive at scale 0.
fn is_positive(bound: &i128, scale: u32) -> bool
    ensures { IsTrue result ↔ ((scale ≡ 0) × (pos 0 <ℤ bound.now)) }
{
    scale == 0 && *bound > 0
}

// Whether a bound is above the scale times one less than a cost.
fn is_above(bound: &i128, scale: u32, cost: &i64) -> bool
    ensures { IsTrue result ↔ ((pos scale *ℤ (cost.now -ℤ pos 1)) <ℤ bound.now) }
{
    let product = below(scale, cost);
    *bound > product
}

// A scale times one less than a cost.
fn below(scale: u32, cost: &i64) -> i128
    ensures { result ≡ pos scale *ℤ (cost.now -ℤ pos 1) }
{
    i128::from(scale) * (i128::from(*cost) - 1)
}
