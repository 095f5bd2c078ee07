// What the boxes of all blocks show: bounds of zones, and that a zone has no point.
ghost use Rattle.std.specs.Prelude.{◌≡◌, ◌<◌, ◌^◌, ◌≤ℤ◌, [], ℤ, unsigned_abs, IfOk, IfSome};
ghost use Rattle.bp_theory.specs.Trees.{IsZone};
ghost use Rattle.bp_theory.specs.declared.Picked.TheVariants.{These};
ghost use Rattle.branch_tree.specs.Turns.{IsTurn};
ghost use Rattle.compact_relaxation.specs.Rowless.{AreRowless};
ghost use Rattle.node_bound.specs.Shown.{IsShown, ShutsOff};
ghost use Rattle.node_bound.specs.Openings.{IsStrong};

use crate::proofs::{by_scaled, plain};
use crate::shown::{Shown, inherited, is_sound, raised_to, shuts_off};
use block_program::{Blocked, Zone};
use bp_theory::Proof;
use branch_tree::Turn;
use lagr_bound::box_bound;
use std::alloc::{AllocError, Global};

/// The bound that a node's own proof shows, or that of all boxes without multipliers, where it is greater.
pub fn boxed(alloc: Global, b: &Blocked, turn: &Turn) -> Result<Shown, AllocError>
    requires turn { IsTurn b.now turn.now }
    requires rowless { AreRowless b.now.blocking }
    ensures shown { IfOk result (λ shown. IsShown b.now.blocking turn.now.zone turn.now.bound
        shown.proof shown.bound) }
    ensures strong { IfOk result (λ shown. IsStrong b.now.blocking turn.now.zone shown.bound) }
{
    // For the proof alone: `b` is formed.
    let _ = b.blocks();
    let own = inherited(alloc, b, turn)?;
    let proof = plain(alloc);
    let whole = box_bound(b, &turn.zone, &proof);
    Ok(raised_to(b, &turn.zone, own, proof, whole))
}

/// A bound, or a greater one that a proof without picked blocks shows, where it is sound and of a positive scale.
pub fn raised_by_box(b: &Blocked, zone: &Zone, shown: Shown, proof: Proof) -> Shown
    requires zone { IsZone b.now.named.program.spans zone.now }
    requires size { unsigned_abs shown.bound < 2 ^ 62 }
    requires picked { proof.picked ≡ These [] }
    ensures shown { (least : ℤ) → IsShown b.now.blocking zone.now least shown.proof shown.bound →
        IsShown b.now.blocking zone.now least result.proof result.bound }
    ensures no_less { shown.bound ≤ℤ result.bound }
{
    if proof.scale == 0 || !is_sound(b, &proof) {
        return shown;
    }
    let whole = box_bound(b, zone, &proof);
    raised_to(b, zone, shown, proof, whole)
}

/// The proof of whole multipliers by row, which it takes at scale 0, where they are given and show that a zone has no point.
pub fn shown_empty(
    alloc: Global,
    b: &Blocked,
    zone: &Zone,
    emptying: Option<Vec<i64>>,
) -> Result<Option<Proof>, AllocError>
    requires zone { IsZone b.now.named.program.spans zone.now }
    ensures off { IfOk result (λ found. IfSome found (ShutsOff b.now.blocking zone.now)) }
{
    let Some(mults) = emptying else {
        return Ok(None);
    };
    let proof = by_scaled(alloc, mults.as_slice(), 0)?;
    if !shuts_off(b, zone, &proof) {
        return Ok(None);
    }
    Ok(Some(proof))
}
