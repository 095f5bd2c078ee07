// Where each variable has its first copy.
ghost use Rattle.std.specs.Prelude.{◌≡◌, ℕ, ◌<◌, ◌^◌, length, vec_len, map, All, IfOk, slice_index_or};
ghost use Rattle.bp_theory.specs.Blocking.{Copy};
ghost use Rattle.block_program.specs.Blocked.{RootBlock, HasCopyAt, IsFirstCopyAt};
ghost use Rattle.block_build.specs.Places.{IsNoted};

use block_program::Block;
use std::alloc::{AllocError, Global};

/// For each variable the number of the first block that has a copy of it, and the copy's place in the block.
pub fn var_places(alloc: Global, vars: u32, blocks: &[Block]) -> Result<Vec<(u32, u32)>, AllocError>
    requires few { length blocks.now < 2 ^ 32 }
    requires below { All (λ k. All (λ (c : Copy). c.var < vars) k.block.copies) blocks.now }
    ensures each { IfOk result (λ places. vec_len places ≡ vars) }
    ensures places { IfOk result (λ places. (v : ℕ) (at : ℕ × ℕ) → v < vars →
        HasCopyAt (map (λ (k : RootBlock). k.block) blocks.now) v at →
        IsFirstCopyAt (map (λ (k : RootBlock). k.block) blocks.now) v
        (slice_index_or places.items v (0, 0))) }
{
    let mut places = Vec::from_elem(alloc, (0, 0), vars as usize)?;
    for k in (0..blocks.len()).rev() {
        let block = &blocks[k];
        note(&mut places, k as u32, block.vars(), block.var_count());
    }
    Ok(places)
}

// Notes the place of each of a block's variables.
fn note(places: &mut Vec<(u32, u32)>, block: u32, vars: &[u32], count: u32)
    requires below { All (λ v. v < vec_len places.old) vars.now }
    requires count { count ≡ length vars.now }
    ensures each { vec_len places.new ≡ vec_len places.old }
    ensures noted { (v : ℕ) → v < vec_len places.old →
        IsNoted block vars.now v (slice_index_or places.old.items v (0, 0))
        (slice_index_or places.new.items v (0, 0)) }
{
    for i in 0..count {
        places[vars[i as usize] as usize] = (block, i);
    }
}
