// Copies of proofs.
ghost use Rattle.std.specs.Prelude.{◌≡◌, IfOk};
ghost use Rattle.bp_theory.specs.Bound.{plain_proof};

use bp_theory::{Items, Picked, Proof};
use std::alloc::{AllocError, Global};

/// A proof once more.
pub fn proof_copy(alloc: Global, proof: &Proof) -> Result<Proof, AllocError>
    ensures { IfOk result (λ copy. copy ≡ proof.now) }
{
    let mults = proof.mults.as_slice().to_vec(alloc)?;
    let picked = picked_copy(alloc, &proof.picked)?;
    Ok(Proof {
        scale: proof.scale,
        mults: Items::from_vec(mults),
        picked,
    })
}

// Picked blocks once more.
pub(crate) fn picked_copy(alloc: Global, picked: &Picked) -> Result<Picked, AllocError>
    ensures { IfOk result (λ copy. copy ≡ picked.now) }
{
    match picked {
        Picked::Every => Ok(Picked::Every),
        Picked::These(blocks) => {
            let copy = blocks.as_slice().to_vec(alloc)?;
            Ok(Picked::These(Items::from_vec(copy)))
        }
    }
}

// The proof of scale 1 that names no row and picks no block.
pub(crate) fn plain_proof(alloc: Global) -> Proof
    ensures { result ≡ plain_proof }
{
    Proof {
        scale: 1,
        mults: Items::new(alloc),
        picked: Picked::These(Items::new(alloc)),
    }
}
