// Proofs that share their memory: each keeps how its multipliers differ from a list that many proofs have.
ghost use Rattle.std.specs.Prelude.{◌≡◌, IfOk};
ghost use Rattle.open_nodes.specs.Changes.{replay};
ghost use Rattle.open_nodes.specs.Shared.{proof_of};

use crate::changes::{Change, changes_between, replay};
use crate::copies::{picked_copy, plain_proof};
use bp_theory::{Items, Picked, Proof};
use std::alloc::{AllocError, Global};
use std::rc::Rc;

// The greatest number of lists that proofs are kept by.
const MOST_BASES: usize = 8;

// A proof with the changes that make its multipliers of a list that others have.
#[derive(Drop)]
struct Kept {
    scale: u32,
    picked: Picked,
    base: Rc<Items<(u32, i64)>>,
    changes: Items<Change>,
}

impl Kept {
    // The proof, in memory of its own.
    fn to_proof(&self, alloc: Global) -> Result<Proof, AllocError>
        ensures { IfOk result (λ proof. proof ≡ proof_of self.now) }
    {
        let mults = replay(alloc, self.base.as_slice(), self.changes.as_slice())?;
        let picked = picked_copy(alloc, &self.picked)?;
        Ok(Proof {
            scale: self.scale,
            mults: Items::from_vec(mults),
            picked,
        })
    }
}

/// A dual proof in the memory that it shares with others: of its own it has what differs from a list of multipliers. The
/// proof of scale 1 that names no row and picks no block has no memory.
#[derive(Drop)]
pub struct SharedProof {
    kept: Option<Rc<Kept>>,
}

impl std::marker::Model for SharedProof {
    ghost use Rattle.bp_theory.specs.declared.Proof.{Proof};

    ghost Value = { Proof };

    ghost use Rattle.open_nodes.specs.Shared.{proof_in};

    ghost view = { λ p. proof_in p.kept };
}

impl SharedProof {
    ghost use Rattle.std.specs.Prelude.{◌≡◌, IfOk};
    ghost use Rattle.bp_theory.specs.Bound.{plain_proof};

    /// The proof of scale 1 that names no row and picks no block.
    pub fn plain() -> SharedProof
        ensures { result ≡ plain_proof }
    {
        SharedProof { kept: None }
    }

    /// The same proof in the same memory.
    pub fn share(&self) -> Result<SharedProof, AllocError>
        ensures { IfOk result (λ shared. shared ≡ self.now) }
    {
        match &self.kept {
            None => Ok(SharedProof { kept: None }),
            Some(kept) => {
                let again = kept.clone()?;
                Ok(SharedProof { kept: Some(again) })
            }
        }
    }

    /// The proof, in memory of its own.
    pub fn to_proof(&self, alloc: Global) -> Result<Proof, AllocError>
        ensures { IfOk result (λ proof. proof ≡ self.now) }
    {
        match &self.kept {
            None => Ok(plain_proof(alloc)),
            Some(kept) => kept.as_ref().to_proof(alloc),
        }
    }
}

// A list of multipliers that proofs of a scale are kept by.
#[derive(Drop)]
struct Base {
    scale: u32,
    mults: Rc<Items<(u32, i64)>>,
}

/// The lists of multipliers that proofs are kept by, at most one for each scale.
#[derive(Drop)]
pub struct Bases {
    lists: Vec<Base>,
}

impl Bases {
    ghost use Rattle.std.specs.Prelude.{◌≡◌, IfOk};

    /// No lists.
    pub fn new(alloc: Global) -> Bases {
        Bases {
            lists: Vec::new(alloc),
        }
    }

    /// A proof that keeps how it differs from the list of its scale. Where that is more than a quarter of it, or
    /// there is no list, its own multipliers are the list of its scale from then on.
    pub fn keep(&mut self, alloc: Global, proof: Proof) -> Result<SharedProof, AllocError>
        ensures { IfOk result (λ shared. shared ≡ proof) }
    {
        let Proof {
            scale,
            mults,
            picked,
        } = proof;
        if let Some(base) = self.base_of(scale)? {
            let most = mults.len() / 4;
            let found = changes_between(alloc, base.as_slice(), mults.as_slice(), most)?;
            if let Some(changes) = found {
                let changes = exact(alloc, &changes)?;
                return shared(alloc, scale, picked, base, changes);
            }
        }
        let base = Rc::new(alloc, mults)?;
        let again = base.clone()?;
        self.set(scale, again)?;
        shared(alloc, scale, picked, base, Items::new(alloc))
    }

    // The list of a scale, if there is one.
    fn base_of(&self, scale: u32) -> Result<Option<Rc<Items<(u32, i64)>>>, AllocError> {
        for base in self.lists.iter() {
            if base.scale == scale {
                let mults = base.mults.clone()?;
                return Ok(Some(mults));
            }
        }
        Ok(None)
    }

    // Takes a list as that of a scale. Where there are too many, the last one goes.
    fn set(&mut self, scale: u32, mults: Rc<Items<(u32, i64)>>) -> Result<(), AllocError> {
        self.lists.retain(|base| base.scale != scale);
        if self.lists.len() >= MOST_BASES {
            self.lists.pop();
        }
        self.lists.push(Base { scale, mults })?;
        Ok(())
    }
}

// A proof of these parts.
fn shared(
    alloc: Global,
    scale: u32,
    picked: Picked,
    base: Rc<Items<(u32, i64)>>,
    changes: Items<Change>,
) -> Result<SharedProof, AllocError>
    ensures { IfOk result (λ shared. shared ≡ record { scale = scale; mults = replay base.value changes; picked = picked }) }
{
    let kept = Rc::new(
        alloc,
        Kept {
            scale,
            picked,
            base,
            changes,
        },
    )?;
    Ok(SharedProof { kept: Some(kept) })
}

// Changes in no more memory than they need.
fn exact(alloc: Global, changes: &Items<Change>) -> Result<Items<Change>, AllocError>
    ensures { IfOk result (λ copy. copy ≡ changes.now) }
{
    let copy = changes.as_slice().to_vec(alloc)?;
    Ok(Items::from_vec(copy))
}
