// Proofs made from their parts.
ghost use Rattle.std.specs.Prelude.{◌≡◌, [], IfOk};
ghost use Rattle.bp_theory.specs.Bound.{plain_proof};
ghost use Rattle.bp_theory.specs.declared.Picked.TheVariants.{These};
ghost use Rattle.search_laws.specs.Verdicts.{every_block};
ghost use Rattle.node_bound.specs.Shown.{row_proof, block_proof};

use bp_theory::{Items, Picked, Proof};
use compact_relaxation::at_scale;
use std::alloc::{AllocError, Global};

/// The proof of scale 1 that names no row and picks no block.
pub fn plain(alloc: Global) -> Proof
    ensures { result ≡ plain_proof }
{
    Proof {
        scale: 1,
        mults: Items::new(alloc),
        picked: Picked::These(Items::new(alloc)),
    }
}

/// The proof of scale 1 that names no row and picks every block.
pub fn every(alloc: Global) -> Proof
    ensures { result ≡ every_block }
{
    Proof {
        scale: 1,
        mults: Items::new(alloc),
        picked: Picked::Every,
    }
}

/// The proof of scale 0 with one multiplier.
pub fn by_row(alloc: Global, row: u32, mult: i64) -> Result<Proof, AllocError>
    ensures { IfOk result (λ proof. proof ≡ row_proof row mult) }
{
    let mut mults = Items::new(alloc);
    mults.push((row, mult))?;
    Ok(Proof {
        scale: 0,
        mults,
        picked: Picked::These(Items::new(alloc)),
    })
}

/// The proof of multipliers by row at the greatest scale, each rounded to the nearest at a scale, that picks no block;
/// at scale 0 they are taken as they are.
pub fn by_scaled(alloc: Global, mults: &[i64], scale: u32) -> Result<Proof, AllocError>
    ensures picked { IfOk result (λ proof. proof.picked ≡ These []) }
{
    let count = mults
        .iter()
        .filter(|mult| at_scale(**mult, scale) != 0)
        .count();
    let mut kept = Items::with_capacity(alloc, count)?;
    let mut row: u32 = 0;
    for mult in mults {
        let part = at_scale(*mult, scale);
        if part != 0 {
            kept.push((row, part))?;
        }
        row = row.saturating_add(1);
    }
    Ok(Proof {
        scale,
        mults: kept,
        picked: Picked::These(Items::new(alloc)),
    })
}

/// The proof of scale 0 without multipliers that picks one block.
pub fn by_block(alloc: Global, block: u32) -> Result<Proof, AllocError>
    ensures { IfOk result (λ proof. proof ≡ block_proof block) }
{
    let mut blocks = Items::new(alloc);
    blocks.push(block)?;
    Ok(Proof {
        scale: 0,
        mults: Items::new(alloc),
        picked: Picked::These(blocks),
    })
}
