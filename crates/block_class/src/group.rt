// Blocks grouped by their signatures.
ghost use Rattle.std.specs.Prelude.{◌≡◌, ◌<◌, ◌^◌, ◌++◌, ◌∷◌, [], vec_len, IfOk, OnOk, if◌then◌else◌};
ghost use Rattle.bp_theory.specs.Trees.{IsZone};
ghost use Rattle.block_class.specs.Classes.{AreSameClasses};

use crate::signature::signature;
use crate::table::Signatures;
use block_program::{Blocked, Zone};
use std::alloc::{AllocError, Global};

/// The classes of the blocks in a zone, and the first block of each class.
pub fn grouped(alloc: Global, b: &Blocked, zone: &Zone) -> Result<(Vec<u32>, Vec<u32>), AllocError>
    requires { IsZone b.now.named.program.spans zone.now }
    ensures few { IfOk result (λ g. (vec_len g.0 < 2 ^ 32) × (vec_len g.1 < 2 ^ 32)) }
    ensures classes { IfOk result (λ g. AreSameClasses zone.now b.now.blocking
        (record { classes = g.0.items; firsts = g.1.items })) }
{
    let mut signatures = Signatures::new(alloc);
    let mut classes = Vec::new(alloc);
    let mut firsts = Vec::new(alloc);
    for k in 0..b.blocks() {
        let numbers = signature(alloc, b.block(k), zone)?;
        let (class, is_new) = signatures.add(numbers)?;
        push_if(&mut firsts, k, is_new)?;
        classes.push(class)?;
    }
    Ok((classes, firsts))
}

// One number more where it is wanted.
fn push_if(numbers: &mut Vec<u32>, number: u32, wanted: bool) -> Result<(), AllocError>
    ensures { OnOk result (numbers.new.items ≡
        (if wanted then numbers.old.items ++ number ∷ [] else numbers.old.items)) }
{
    if wanted {
        numbers.push(number)?;
    }
    Ok(())
}
