// Bounds of a zone and the proofs that show them.
ghost use Rattle.std.specs.Prelude.{◌≡◌, ◌⊎◌, ◌<◌, ◌-◌, ◌^◌, ◌<ℤ◌, ◌≤ℤ◌, ◌*ℤ◌, ◌↔◌, [], ℤ, pos, unsigned_abs, IfOk, IsTrue, MatchOption};
ghost use Rattle.bp_theory.specs.Bound.{IsBound};
ghost use Rattle.bp_theory.specs.Trees.{IsZone};
ghost use Rattle.bp_theory.specs.declared.Picked.TheVariants.{These};
ghost use Rattle.block_class.specs.Classes.{AreSameClasses};
ghost use Rattle.branch_tree.specs.Turns.{IsTurn};
ghost use Rattle.block_pricers.specs.Forms.{forms_in};
ghost use Rattle.block_pricers.specs.Works.{forms_of};
ghost use Rattle.search_laws.specs.GroveFacts.{IsSoundProof};
ghost use Rattle.node_bound.specs.Shown.{IsShown, ShutsOff, row_proof};
ghost use Rattle.node_bound.specs.Openings.{IsOpening, IsOfNoUse};

use crate::proofs::{by_row, every};
use block_class::Classes;
use block_program::{Blocked, MAX_SCALE, Zone, fits, signs_fit};
use bp_theory::Proof;
use branch_tree::{Turn, proof_copy};
use lagr_bound::{Bounded, Work, bound, box_bound, round};
use node_memory::{MOST_VISITS, NodeContext, PricingBudget};
use pricing_problem::Cap;
use std::alloc::{AllocError, Global};

/// The scale of a short proof.
const SHORT_SCALE: u32 = 1 << 8;

/// A dual bound of a zone.
#[derive(Drop)]
pub struct Shown {
    /// The proof that shows it.
    pub proof: Proof,
    /// The bound, in ones, with the constant; below 2^62 in magnitude.
    pub bound: i64,
}

/// The proofs of multipliers by row.
#[derive(Drop)]
pub struct Scaled {
    /// With the multipliers rounded to the scale 256.
    pub short: Proof,
    /// With the multipliers at the greatest scale, 1,048,576.
    pub full: Proof,
}

/// What pricing every block shows of a node's zone.
#[derive(Drop)]
pub enum Opening {
    /// A block has no point there: a proof that the zone has none.
    Empty(Proof),
    /// A bound, with the proof that shows it.
    Open(Shown),
}

/// What pricing every block shows of a node's zone: that it has no point, or a bound no less than the node's own. Where the
/// pricing of a block is cut, it is left out from then on.
pub fn opened(
    alloc: Global,
    b: &Blocked,
    classes: &Classes,
    budget: &mut PricingBudget,
    turn: &Turn,
) -> Result<Opening, AllocError>
    requires turn { IsTurn b.now turn.now }
    requires made_for { forms_of budget.old.work ≡ forms_in b.now }
    requires classes { AreSameClasses turn.now.zone b.now.blocking classes.now }
    ensures opening { IfOk result (IsOpening b.now.blocking turn.now.zone turn.now.bound) }
    ensures made_for { forms_of budget.new.work ≡ forms_of budget.old.work }
{
    // For the proof alone: `b` is formed.
    let _ = b.blocks();
    let own = inherited(alloc, b, turn)?;
    if let Some(_) = budget.first_wide(alloc, b, &turn.zone)? {
        budget.leave_out_wide(alloc, b, &turn.zone)?;
        return Ok(Opening::Open(own));
    }
    let proof = every(alloc);
    let cap = Cap::At(MOST_VISITS);
    match bound(&mut budget.work, b, classes, &turn.zone, &proof, cap) {
        Bounded::Endless => Ok(Opening::Empty(proof)),
        Bounded::Whole(whole) => Ok(Opening::Open(raised_to(b, &turn.zone, own, proof, whole))),
        Bounded::Cut(block) => {
            budget.leave_out(alloc, b, classes, block)?;
            Ok(Opening::Open(own))
        }
    }
}

/// The proofs of multipliers by row at the greatest scale, which price the blocks that heuristics price.
pub fn at_both_scales(
    alloc: Global,
    budget: &PricingBudget,
    mults: &[i64],
) -> Result<Scaled, AllocError> {
    Ok(Scaled {
        short: budget.proof_at(alloc, mults, SHORT_SCALE)?,
        full: budget.proof_at(alloc, mults, MAX_SCALE)?,
    })
}

/// The bound that a node's own proof shows.
pub fn inherited(alloc: Global, b: &Blocked, turn: &Turn) -> Result<Shown, AllocError>
    requires { IsTurn b.now turn.now }
    ensures { IfOk result (λ shown. IsShown b.now.blocking turn.now.zone turn.now.bound shown.proof
        shown.bound) }
{
    // For the proof alone: `b` stands in the contract.
    let _ = b;
    let proof = proof_copy(alloc, &turn.proof)?;
    Ok(Shown {
        proof,
        bound: turn.bound,
    })
}

/// A bound, or a greater one that a sound proof of this whole bound shows.
pub fn raised_to(b: &Blocked, zone: &Zone, shown: Shown, proof: Proof, whole: i128) -> Shown
    requires sound { IsSoundProof b.now.blocking proof }
    requires positive { 0 < proof.scale }
    requires whole { IsBound b.now.blocking zone.now proof whole }
    requires size { unsigned_abs shown.bound < 2 ^ 62 }
    ensures shown { (least : ℤ) → IsShown b.now.blocking zone.now least shown.proof shown.bound →
        IsShown b.now.blocking zone.now least result.proof result.bound }
    ensures size { unsigned_abs result.bound < 2 ^ 62 }
    ensures no_less { shown.bound ≤ℤ result.bound }
    ensures reached { (whole ≤ℤ (pos proof.scale *ℤ result.bound)) ⊎
        (result.bound ≡ pos (2 ^ 62 - 1)) }
{
    // For the proof alone: `b` and `zone` stand in the contract.
    let _ = b;
    let _ = zone;
    if !exceeds(proof.scale, &shown.bound, &whole) {
        return shown;
    }
    let bound = round(proof.scale, whole);
    Shown { proof, bound }
}

/// The proof of one row's multiplier, where it is sound and shows that a zone has no point.
pub fn emptied(
    alloc: Global,
    b: &Blocked,
    zone: &Zone,
    row: u32,
    mult: i64,
) -> Result<Option<Proof>, AllocError>
    requires { IsZone b.now.named.program.spans zone.now }
    ensures { IfOk result (λ found.
        MatchOption found (ShutsOff b.now.blocking zone.now (row_proof row mult) → ⊥)
        (ShutsOff b.now.blocking zone.now)) }
{
    let proof = by_row(alloc, row, mult)?;
    if !shuts_off(b, zone, &proof) {
        return Ok(None);
    }
    Ok(Some(proof))
}

/// The first of two proofs that is sound at scale 0 and shows that a zone has no point.
pub fn emptied_by(node: NodeContext, work: &mut Work, scaled: Scaled) -> Option<Proof>
    requires made_for { forms_of work.old ≡ forms_in node.program.now }
    ensures off { MatchOption result (IsOfNoUse node.entry.program.now.blocking node.entry.zone.now
        scaled.short × IsOfNoUse node.entry.program.now.blocking node.entry.zone.now scaled.full)
        (ShutsOff node.entry.program.now.blocking node.entry.zone.now) }
    ensures made_for { forms_of work.new ≡ forms_of work.old }
{
    match if_off(node, work, scaled.short) {
        Some(proof) => Some(proof),
        None => if_off(node, work, scaled.full),
    }
}

// A proof at scale 0, where it is sound and shows that a zone has no point.
fn if_off(node: NodeContext, work: &mut Work, scaled: Proof) -> Option<Proof>
    requires made_for { forms_of work.old ≡ forms_in node.program.now }
    ensures off { MatchOption result (IsOfNoUse node.entry.program.now.blocking node.entry.zone.now
        scaled) (ShutsOff node.entry.program.now.blocking node.entry.zone.now) }
    ensures made_for { forms_of work.new ≡ forms_of work.old }
{
    let proof = Proof {
        scale: 0,
        mults: scaled.mults,
        picked: scaled.picked,
    };
    if !is_sound(node.program, &proof) {
        return None;
    }
    match bound(
        work,
        node.program,
        node.classes,
        node.zone,
        &proof,
        Cap::At(MOST_VISITS),
    ) {
        Bounded::Whole(whole) if whole > 0 => Some(proof),
        Bounded::Whole(_) => None,
        Bounded::Endless => Some(proof),
        Bounded::Cut(_) => None,
    }
}

/// Whether a proof fits, with fitting signs.
pub fn is_sound(b: &Blocked, proof: &Proof) -> bool
    ensures { IsTrue result ↔ IsSoundProof b.now.blocking proof.now }
{
    if !fits(b, proof) {
        return false;
    }
    signs_fit(b, proof)
}

// Whether a proof without picked blocks is sound and shows that a zone has no point.
pub fn shuts_off(b: &Blocked, zone: &Zone, proof: &Proof) -> bool
    requires zone { IsZone b.now.named.program.spans zone.now }
    requires picked { proof.now.picked ≡ These [] }
    ensures { IsTrue result ↔ ShutsOff b.now.blocking zone.now proof.now }
{
    if proof.scale != 0 || !is_sound(b, proof) {
        return false;
    }
    box_bound(b, zone, proof) > 0
}

// Whether a number is above a scale times a bound.
fn exceeds(scale: u32, bound: &i64, whole: &i128) -> bool
    ensures { IsTrue result ↔ ((pos scale *ℤ bound.now) <ℤ whole.now) }
{
    i128::from(scale) * i128::from(*bound) < *whole
}
