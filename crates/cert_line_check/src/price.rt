// The bounds of leaves' proofs.
ghost use Rattle.std.specs.Prelude.{◌≡◌, ◌↔◌, [], IsTrue, IfOk, IfSome, MatchOption};
ghost use Rattle.bp_theory.specs.Bound.{Fits, IsBound, IsEndless};
ghost use Rattle.bp_theory.specs.Trees.{IsZone};
ghost use Rattle.bp_theory.specs.declared.Picked.TheVariants.{These};
ghost use Rattle.pricing_problem.specs.declared.Cap.TheVariants.{Never};
ghost use Rattle.lagr_bound.specs.Bounded.{IsBounded};
ghost use Rattle.block_pricers.specs.Forms.{forms_in};
ghost use Rattle.block_pricers.specs.Works.{forms_of};
ghost use Rattle.cert_line_check.specs.Judging.{whole_of};

use block_class::Classes;
use block_program::{Blocked, Zone};
use bp_theory::{Picked, Proof};
use lagr_bound::{Bounded, Work, bound, box_bound};
use pricing_problem::Cap;
use std::alloc::{AllocError, Global};

/// The bound of a proof in a zone, or none where it is endless, since a picked block has no point there. Picked blocks are
/// priced once for each class of the zone, by pricers that are made for the first proof that picks a block; a proof that
/// picks none takes no memory.
pub fn bound_in(
    alloc: Global,
    b: &Blocked,
    work: &mut Option<Work>,
    zone: &Zone,
    proof: &Proof,
) -> Result<Option<i128>, AllocError>
    requires made_for { IfSome work.old (λ made. forms_of made ≡ forms_in b.now) }
    requires zone { IsZone b.now.named.program.spans zone.now }
    requires fits { Fits b.now.blocking proof.now }
    ensures bound { IfOk result (λ found.
        MatchOption found (IsEndless b.now.blocking zone.now proof.now)
        (λ v. IsBound b.now.blocking zone.now proof.now v)) }
    ensures made_for { IfSome work.new (λ made. forms_of made ≡ forms_in b.now) }
{
    if picks_nothing(proof) {
        return Ok(Some(box_bound(b, zone, proof)));
    }
    let classes = Classes::of(alloc, b, zone)?;
    let mut made = made_once(alloc, b, work.take())?;
    let found = bound(&mut made, b, &classes, zone, proof, Cap::Never);
    *work = Some(made);
    Ok(whole(&found))
}

/// Whether a proof picks no block.
pub fn picks_nothing(proof: &Proof) -> bool
    ensures { IsTrue result ↔ (proof.now.picked ≡ These []) }
{
    match &proof.picked {
        Picked::Every => false,
        Picked::These(blocks) => blocks.is_empty(),
    }
}

// The pricers of a program's blocks, made where there are none yet.
fn made_once(alloc: Global, b: &Blocked, work: Option<Work>) -> Result<Work, AllocError>
    requires { IfSome work (λ made. forms_of made ≡ forms_in b.now) }
    ensures { IfOk result (λ made. forms_of made ≡ forms_in b.now) }
{
    match work {
        Some(made) => Ok(made),
        None => Work::make(alloc, b),
    }
}

// What pricing without a cap found: the whole bound, or none where it is endless.
fn whole(found: &Bounded) -> Option<i128>
    ensures { result ≡ whole_of found.now }
{
    match found {
        Bounded::Whole(bound) => Some(*bound),
        Bounded::Endless => None,
        Bounded::Cut(_) => None,
    }
}
