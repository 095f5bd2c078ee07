// The blocks of each class.
ghost use Rattle.std.specs.Prelude.{◌≡◌, ℕ, ◌+◌, ◌<◌, ◌^◌, ◌++◌, ◌∷◌, [], length, vec_len, map, All, IfOk, OnOk, slice_index_or, slice_set};
ghost use Rattle.std.specs.List.{range_with_len};
ghost use Rattle.block_class.specs.Classes.{members_of};

use bp_theory::Items;
use std::alloc::{AllocError, Global};

/// The blocks of each class, ascending.
pub fn members_of(
    alloc: Global,
    classes: &[u32],
    count: usize,
) -> Result<Vec<Items<u32>>, AllocError>
    requires known { All (λ c. c < count) classes.now }
    requires few { length classes.now < 2 ^ 32 }
    ensures { IfOk result (λ all. all.items ≡ map (members_of classes.now)
        (range_with_len 0 count)) }
{
    let mut all = empty(alloc, count)?;
    for k in 0..classes.len() {
        push_member(&mut all, classes[k], k as u32)?;
    }
    Ok(all)
}

// So many classes without blocks.
fn empty(alloc: Global, count: usize) -> Result<Vec<Items<u32>>, AllocError>
    ensures len { IfOk result (λ all. vec_len all ≡ count) }
    ensures empty { IfOk result (λ all. (c : ℕ) → slice_index_or all.items c [] ≡ []) }
{
    let mut all = Vec::new(alloc);
    for _ in 0..count {
        all.push(Items::new(alloc))?;
    }
    Ok(all)
}

// One block more at the end of a class.
fn push_member(all: &mut Vec<Items<u32>>, class: u32, block: u32) -> Result<(), AllocError>
    requires { class < vec_len all.old }
    ensures len { vec_len all.new ≡ vec_len all.old }
    ensures pushed { OnOk result (all.new.items ≡ slice_set all.old.items class
        (slice_index_or all.old.items class [] ++ block ∷ [])) }
{
    all[class as usize].push(block)?;
    Ok(())
}
