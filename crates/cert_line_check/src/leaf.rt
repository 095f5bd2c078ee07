// The judgement of a leaf's line.
ghost use Rattle.std.specs.Prelude.{◌≡◌, ◌↔◌, ◌+◌, ◌<◌, ◌≤◌, ◌^◌, ◌*ℤ◌, ◌-ℤ◌, ◌<ℤ◌, pos, Bool, IsTrue, List, [], ◌∷◌, IfOk, IfSome, MatchOption, Some, unsigned_abs};
ghost use Rattle.bp_theory.specs.Program.{in_sense};
ghost use Rattle.bp_theory.specs.Bound.{Fits, IsBound, SignsFit};
ghost use Rattle.bp_theory.specs.Trees.{IsZone};
ghost use Rattle.bp_theory.specs.Claims.{Shows, MayBeOpen};
ghost use Rattle.bp_theory.specs.Judgement.{Passes, HasFault, leaf_line};
ghost use Rattle.bp_theory.specs.declared.Span.{Span};
ghost use Rattle.bp_theory.specs.declared.Proof as proofs;
ghost use Rattle.cert_text.specs.Programs.{IsSmallClaim};
ghost use Rattle.block_pricers.specs.Forms.{forms_in};
ghost use Rattle.block_pricers.specs.Works.{forms_of};
ghost use Rattle.cert_line_check.specs.Judging.{JudgesLines, LeavesOf};

use crate::place::{NodePlace, Stop};
use crate::price::bound_in;
use crate::visits::{Spent, spend};
use block_program::{Blocked, Zone, signs_fit};
use bp_theory::{CheckKind, Claim, Proof};
use lagr_bound::Work;
use std::alloc::{AllocError, Global};

// The proof of a leaf's line, and whether the leaf is open.
#[derive(Clone, Copy)]
struct LeafLine<'a> {
    // The proof.
    proof: &'a Proof,
    // Whether the leaf is open.
    is_open: bool,
}

/// Judges the line of a leaf: its signs, then its visits, then what its bound shows.
pub fn judge_leaf(
    alloc: Global,
    b: &Blocked,
    claim: &Claim,
    work: &mut Option<Work>,
    at: NodePlace,
    proof: &Proof,
    is_open: bool,
) -> Result<Result<NodePlace, Stop>, AllocError>
    requires made_for { IfSome work.old (λ made. forms_of made ≡ forms_in b.now) }
    requires claim { IsSmallClaim claim.now }
    requires zone { IsZone b.now.named.program.spans at.zone }
    requires fits { Fits b.now.blocking proof.now }
    requires few { at.line + 1 < 2 ^ 64 }
    ensures judged { IfOk result (λ found. JudgesLines b.now.named.program b.now.blocking claim.now
        (leaf_line (record { zone = at.zone; proof = proof.now; is_open = is_open }) ∷ [])
        at found) }
    ensures made_for { IfSome work.new (λ made. forms_of made ≡ forms_in b.now) }
{
    if !signs_fit(b, proof) {
        return Ok(Err(fault_at(at.line, CheckKind::Sign)));
    }
    match spend(alloc, b, &at.zone, proof, at.left)? {
        Spent::Exceeding => Ok(Err(Stop {
            line: at.line,
            fault: None,
        })),
        Spent::Within(left) => {
            let leaf = LeafLine { proof, is_open };
            judge_priced(alloc, b, claim, work, at, left, leaf)
        }
    }
}

// Judges the line of a leaf whose signs fit, and whose visits leave so many.
fn judge_priced(
    alloc: Global,
    b: &Blocked,
    claim: &Claim,
    work: &mut Option<Work>,
    at: NodePlace,
    left: Option<u64>,
    leaf: LeafLine<'_>,
) -> Result<Result<NodePlace, Stop>, AllocError>
    requires made_for { IfSome work.old (λ made. forms_of made ≡ forms_in b.now) }
    requires claim { IsSmallClaim claim.now }
    requires zone { IsZone b.now.named.program.spans at.zone }
    requires fits { Fits b.now.blocking leaf.proof.now }
    requires few { at.line + 1 < 2 ^ 64 }
    requires signs { SignsFit b.now.blocking leaf.proof.now }
    requires spent { LeavesOf b.now.named.program.spans b.now.blocking at.zone
        leaf.proof.now.picked at.left left }
    ensures judged { IfOk result (λ found. JudgesLines b.now.named.program b.now.blocking claim.now
        (leaf_line (record {
          zone = at.zone;
          proof = leaf.entry.proof.now;
          is_open = leaf.entry.is_open;
        }) ∷ []) at found) }
    ensures made_for { IfSome work.new (λ made. forms_of made ≡ forms_in b.now) }
{
    let fault = priced_fault(alloc, b, claim, work, &at.zone, leaf.proof, leaf.is_open)?;
    match fault {
        Some(kind) => Ok(Err(fault_at(at.line, kind))),
        None => Ok(Ok(NodePlace {
            zone: at.zone,
            line: at.line + 1,
            left,
        })),
    }
}

// A line at fault.
fn fault_at(line: u64, kind: CheckKind) -> Stop
    ensures { result ≡ record { line = line; fault = Some kind } }
{
    Stop {
        line,
        fault: Some(kind),
    }
}

// The fault of a leaf's line whose signs fit, if any.
fn priced_fault(
    alloc: Global,
    b: &Blocked,
    claim: &Claim,
    work: &mut Option<Work>,
    zone: &Zone,
    proof: &Proof,
    is_open: bool,
) -> Result<Option<CheckKind>, AllocError>
    requires made_for { IfSome work.old (λ made. forms_of made ≡ forms_in b.now) }
    requires claim { IsSmallClaim claim.now }
    requires zone { IsZone b.now.named.program.spans zone.now }
    requires fits { Fits b.now.blocking proof.now }
    requires signs { SignsFit b.now.blocking proof.now }
    ensures fault { IfOk result (λ found.
        MatchOption found (Passes b.now.named.program b.now.blocking claim.now
        (leaf_line (record { zone = zone.now; proof = proof.now; is_open = is_open })))
        (HasFault b.now.named.program b.now.blocking claim.now
        (leaf_line (record { zone = zone.now; proof = proof.now; is_open = is_open })))) }
    ensures made_for { IfSome work.new (λ made. forms_of made ≡ forms_in b.now) }
{
    let shown = shows(alloc, b, claim, work, zone, proof)?;
    if !shown {
        return Ok(Some(CheckKind::Weak));
    }
    if is_open {
        if !may_be_open(claim) {
            return Ok(Some(CheckKind::Open));
        }
    }
    Ok(None)
}

// Whether a proof shows in a leaf's zone what a claim asks of the leaf. An endless bound shows all.
fn shows(
    alloc: Global,
    b: &Blocked,
    claim: &Claim,
    work: &mut Option<Work>,
    zone: &Zone,
    proof: &Proof,
) -> Result<bool, AllocError>
    requires made_for { IfSome work.old (λ made. forms_of made ≡ forms_in b.now) }
    requires claim { IsSmallClaim claim.now }
    requires zone { IsZone b.now.named.program.spans zone.now }
    requires fits { Fits b.now.blocking proof.now }
    ensures shown { IfOk result (λ shown. (is_open : Bool) → IsTrue shown ↔
        Shows b.now.named.program b.now.blocking claim.now
        (record { zone = zone.now; proof = proof.now; is_open = is_open })) }
    ensures made_for { IfSome work.new (λ made. forms_of made ≡ forms_in b.now) }
{
    match bound_in(alloc, b, work, zone, proof)? {
        None => Ok(true),
        Some(bound) => Ok(is_enough(b, claim, proof.scale, &bound)),
    }
}

// Whether a bound is what a claim asks of a leaf, where a proof has it at this scale.
fn is_enough(b: &Blocked, claim: &Claim, scale: u32, bound: &i128) -> bool
    requires claim { IsSmallClaim claim.now }
    ensures { (zone : List Span) (proof : proofs.Proof) (is_open : Bool) → proof.scale ≡ scale →
        IsBound b.now.blocking zone proof bound.now → IsTrue result ↔
        Shows b.now.named.program b.now.blocking claim.now
        (record { zone = zone; proof = proof; is_open = is_open }) }
{
    let maximises = b.model().maximises();
    match claim {
        Claim::Optimal(value) => is_above(bound, scale, &one_less(maximises, value)),
        Claim::Infeasible => is_positive(bound, scale),
        Claim::Bound(value, _) => is_above(bound, scale, &one_less(maximises, value)),
    }
}

// One less than a value as a cost.
fn one_less(maximises: bool, value: &i64) -> i64
    requires { unsigned_abs value.now < 2 ^ 62 }
    ensures { result ≡ in_sense maximises value.now -ℤ pos 1 }
{
    if maximises { -*value - 1 } else { *value - 1 }
}

// Whether a bound is above scale times a number.
fn is_above(bound: &i128, scale: u32, number: &i64) -> bool
    ensures { IsTrue result ↔ ((pos scale *ℤ number.now) <ℤ bound.now) }
{
    let product = scaled(scale, number);
    *bound > product
}

// A scale times a number.
fn scaled(scale: u32, number: &i64) -> i128
    ensures { result ≡ pos scale *ℤ number.now }
{
    i128::from(scale) * i128::from(*number)
}

// Whether a bound is positive at scale 0.
fn is_positive(bound: &i128, scale: u32) -> bool
    ensures { IsTrue result ↔ ((scale ≡ 0) × (pos 0 <ℤ bound.now)) }
{
    scale == 0 && *bound > 0
}

// Whether open leaves may stand under a claim.
fn may_be_open(claim: &Claim) -> bool
    ensures { IsTrue result ↔ MayBeOpen claim.now }
{
    match claim {
        Claim::Optimal(_) => false,
        Claim::Infeasible => false,
        Claim::Bound(_, _) => true,
    }
}
