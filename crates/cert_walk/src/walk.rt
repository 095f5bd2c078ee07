// What has been judged of a certificate's lines.
ghost use Rattle.std.specs.Prelude.{◌≡◌, ◌↔◌, ℕ, ◌+◌, ◌≤◌, ◌<◌, ◌^◌, List, [], ◌∷◌, Option, IsTrue, IfOk, IfSome};
ghost use Rattle.bp_theory.specs.Program.{Program};
ghost use Rattle.bp_theory.specs.Blocking.{Blocking};
ghost use Rattle.bp_theory.specs.Bound.{Fits};
ghost use Rattle.bp_theory.specs.declared.Span.{Span};
ghost use Rattle.bp_theory.specs.declared.Claim as claims;
ghost use Rattle.cert_text.specs.Programs.{IsSmall, IsSmallClaim};
ghost use Rattle.block_pricers.specs.Forms.{forms_in};
ghost use Rattle.block_pricers.specs.Works.{forms_of};
ghost use Rattle.cert_walk.specs.Turns.{Turn, to_low};
ghost use Rattle.cert_walk.specs.Paths.{IsPathIn};
ghost use Rattle.cert_walk.specs.Walks.{Front, WalksBelow, WalksBehind, IsFresh, IsOn, GoesOver, IsWalkIn, IsWithin, leaf_with};
ghost use Rattle.cert_walk.specs.declared.walk.Walk.TheVariants.{At};

use crate::path::{Fork, Path, go_on};
use block_program::{Blocked, fits};
use bp_model::MAX_NUMBER;
use bp_theory::{CheckKind, Claim, Proof};
use cert_line_check::{NodePlace, Stop, judge_claim, judge_leaf, sound_span, to_low};
use cert_text::SplitPlace;
use lagr_bound::Work;
use std::alloc::{AllocError, Global};

// What has been judged of the lines that came: all of them pass, and the next one stands here; or one ended the judgement; or
// the claim, a cut or a proof is none that can be judged, so that the text that follows will show a fault.
#[derive(Drop)]
pub enum Walk {
    At(Path),
    Ended(Stop),
    Misfit,
}

// The walk behind the line of a claim's point, where the claim names a value.
pub fn begin(walk: Walk, b: &Blocked, claim: &Claim, point: &[i64]) -> Walk
    ensures judged { (visits : Option ℕ) (k : Blocking) →
        IsFresh b.now.named.program.spans visits walk → WalksBelow b.now.named.program k claim.now
        (record { point = point.now; dec = b.now.dec; cuts = [] }) visits [] result }
    ensures inside { IsWalkIn b.now.named.program.spans walk →
        IsWalkIn b.now.named.program.spans result }
    ensures line { (most : ℕ) → 3 ≤ most → IsWithin most walk → IsWithin (most + 1) result }
{
    match walk {
        Walk::At(path) => match judge_claim(b, claim, point) {
            Err(found) => Walk::Ended(Stop {
                line: found.line,
                fault: Some(found.kind),
            }),
            Ok(line) => Walk::At(Path {
                place: NodePlace {
                    zone: path.place.zone,
                    line,
                    left: path.place.left,
                },
                forks: path.forks,
            }),
        },
        Walk::Ended(stop) => Walk::Ended(stop),
        Walk::Misfit => Walk::Misfit,
    }
}

// The walk behind the line of a split.
pub fn enter(walk: Walk, split: SplitPlace) -> Result<Walk, AllocError>
    requires few { IsWithin (2 ^ 63 + 2) walk }
    ensures judged { (p : Program) (b : Blocking) (claim : claims.Claim) (front : Front)
        (visits : Option ℕ) (ts : List Turn) → WalksBelow p b claim front visits ts walk →
        IfOk result (WalksBelow p b claim front visits (to_low split.var split.at ∷ ts)) }
    ensures inside { (root : List Span) → IsWalkIn root walk → IfOk result (IsWalkIn root) }
    ensures line { (most : ℕ) → IsWithin most walk → IfOk result (IsWithin (most + 1)) }
    ensures on { IfOk result (λ now. IsOn now → IsOn walk) }
{
    match walk {
        Walk::At(path) => enter_from(path, split),
        Walk::Ended(stop) => Ok(Walk::Ended(stop)),
        Walk::Misfit => Ok(Walk::Misfit),
    }
}

// The same from a place.
fn enter_from(path: Path, split: SplitPlace) -> Result<Walk, AllocError>
    requires few { path.place.line ≤ 2 ^ 63 + 2 }
    ensures judged { (p : Program) (b : Blocking) (claim : claims.Claim) (front : Front)
        (visits : Option ℕ) (ts : List Turn) → WalksBelow p b claim front visits ts (At path) →
        IfOk result (WalksBelow p b claim front visits (to_low split.var split.at ∷ ts)) }
    ensures inside { (root : List Span) → IsPathIn root path → IfOk result (IsWalkIn root) }
    ensures line { (most : ℕ) → path.place.line ≤ most → IfOk result (IsWithin (most + 1)) }
{
    let at = path.place;
    match sound_span(&at.zone, split.var, &split.at) {
        None => Ok(Walk::Ended(Stop {
            line: at.line,
            fault: Some(CheckKind::Split),
        })),
        Some(span) => {
            let mut forks = path.forks;
            forks.push(Fork {
                place: split,
                span,
                is_high: false,
            })?;
            Ok(Walk::At(Path {
                place: to_low(at, split.var, &split.at),
                forks,
            }))
        }
    }
}

// The walk behind the line of a leaf.
pub fn leave(
    walk: Walk,
    alloc: Global,
    b: &Blocked,
    claim: &Claim,
    work: &mut Option<Work>,
    proof: &Proof,
    is_open: bool,
) -> Result<Walk, AllocError>
    requires made_for { IfSome work.old (λ made. forms_of made ≡ forms_in b.now) }
    requires inside { IsWalkIn b.now.named.program.spans walk }
    requires few { IsWithin (2 ^ 63 + 2) walk }
    ensures made_for { IfSome work.new (λ made. forms_of made ≡ forms_in b.now) }
    ensures judged { (p : Program) (k : Blocking) (front : Front) (visits : Option ℕ)
        (ts : List Turn) → GoesOver b.now p k walk → WalksBelow p k claim.now front visits ts walk →
        IfOk result (WalksBehind p k claim.now front visits ts (leaf_with is_open proof.now)) }
    ensures inside { IfOk result (IsWalkIn b.now.named.program.spans) }
    ensures line { (most : ℕ) → IsWithin most walk → IfOk result (IsWithin (most + 1)) }
    ensures on { IfOk result (λ now. IsOn now → IsOn walk) }
{
    match walk {
        Walk::At(path) => {
            if can_judge(b, claim, proof) {
                leave_from(path, alloc, b, claim, work, proof, is_open)
            } else {
                Ok(Walk::Misfit)
            }
        }
        Walk::Ended(stop) => Ok(Walk::Ended(stop)),
        Walk::Misfit => Ok(Walk::Misfit),
    }
}

// The same from a place, where the leaf can be judged.
fn leave_from(
    path: Path,
    alloc: Global,
    b: &Blocked,
    claim: &Claim,
    work: &mut Option<Work>,
    proof: &Proof,
    is_open: bool,
) -> Result<Walk, AllocError>
    requires made_for { IfSome work.old (λ made. forms_of made ≡ forms_in b.now) }
    requires claim { IsSmallClaim claim.now }
    requires fits { Fits b.now.blocking proof.now }
    requires inside { IsPathIn b.now.named.program.spans path }
    requires few { path.place.line ≤ 2 ^ 63 + 2 }
    ensures made_for { IfSome work.new (λ made. forms_of made ≡ forms_in b.now) }
    ensures judged { (front : Front) (visits : Option ℕ) (ts : List Turn) →
        WalksBelow b.now.named.program b.now.blocking claim.now front visits ts (At path) →
        IfOk result (WalksBehind b.now.named.program b.now.blocking claim.now front visits ts
        (leaf_with is_open proof.now)) }
    ensures inside { IfOk result (IsWalkIn b.now.named.program.spans) }
    ensures line { IfOk result (IsWithin (path.place.line + 1)) }
{
    let forks = path.forks;
    match judge_leaf(alloc, b, claim, work, path.place, proof, is_open)? {
        Err(stop) => Ok(Walk::Ended(stop)),
        Ok(place) => Ok(Walk::At(go_on(b, Path { place, forks })?)),
    }
}

// Whether a leaf can be judged: the numbers of the claim are those of texts, and the proof fits. In a certificate's text they
// do.
fn can_judge(b: &Blocked, claim: &Claim, proof: &Proof) -> bool
    ensures { IsTrue result ↔ (IsSmallClaim claim.now × Fits b.now.blocking proof.now) }
{
    is_small_claim(claim) && fits(b, proof)
}

// Whether the numbers of a claim are those of texts.
fn is_small_claim(claim: &Claim) -> bool
    ensures { IsTrue result ↔ IsSmallClaim claim.now }
{
    match claim {
        Claim::Optimal(value) => is_small(value),
        Claim::Infeasible => true,
        Claim::Bound(bound, None) => is_small(bound),
        Claim::Bound(bound, Some(value)) => is_small(bound) && is_small(value),
    }
}

// Whether a number is one of texts.
fn is_small(number: &i64) -> bool
    ensures { IsTrue result ↔ IsSmall number.now }
{
    number.unsigned_abs() <= MAX_NUMBER as u64
}

// Whether a walk goes on.
pub fn goes_on(walk: &Walk) -> bool
    ensures { IsTrue result ↔ IsOn walk.now }
{
    match walk {
        Walk::At(_) => true,
        Walk::Ended(_) | Walk::Misfit => false,
    }
}
