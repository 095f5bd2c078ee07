// What each block of a decomposition has: the variables and the rows that are dealt to it, each in one pass.
ghost use Rattle.std.specs.Prelude.{◌≡◌, ◌==◌, ◌<◌, ◌^◌, ◌++◌, ◌∷◌, [], ℕ, All, length, vec_len, slice_index_or, slice_set, if◌then◌else◌, IfOk, OnOk};
ghost use Rattle.std.specs.List.{list_any};
ghost use Rattle.std.specs.List.Sorted.{IsStrictlyIncreasing};
ghost use Rattle.bp_theory.specs.Decomposition.{IsPlace, is_block};
ghost use Rattle.block_build.specs.Gather.{at_home};
ghost use Rattle.block_build.specs.Shares.{AreShares, placed_in};

use bp_theory::Items;
use std::alloc::{AllocError, Global};

/// The variables and the rows of each block.
#[derive(Drop)]
pub struct Shares {
    /// For each block the variables that have it among their homes, ascending.
    pub vars: Vec<Items<u32>>,
    /// For each block the numbers of its rows, ascending.
    pub rows: Vec<Items<u32>>,
}

/// The shares of so many blocks, from the homes of variables and the places of rows.
pub fn shares_of(
    alloc: Global,
    blocks: u32,
    homes: &[Items<u32>],
    places: &[Option<u32>],
) -> Result<Shares, AllocError>
    requires few { length homes.now < 2 ^ 32 }
    requires there { All (All (λ k. k < blocks)) homes.now }
    requires once { All IsStrictlyIncreasing homes.now }
    requires few_rows { length places.now < 2 ^ 32 }
    requires known { All (IsPlace blocks) places.now }
    ensures { IfOk result (AreShares blocks homes.now places.now) }
{
    let vars = vars_by_block(alloc, blocks, homes)?;
    let rows = rows_by_block(alloc, blocks, places)?;
    Ok(Shares { vars, rows })
}

// The variables that have each of so many blocks among their homes.
fn vars_by_block(
    alloc: Global,
    blocks: u32,
    homes: &[Items<u32>],
) -> Result<Vec<Items<u32>>, AllocError>
    requires few { length homes.now < 2 ^ 32 }
    requires there { All (All (λ k. k < blocks)) homes.now }
    requires once { All IsStrictlyIncreasing homes.now }
    ensures each { IfOk result (λ all. vec_len all ≡ blocks) }
    ensures vars { IfOk result (λ all. (k : ℕ) → k < blocks →
        slice_index_or all.items k [] ≡ at_home k homes.now) }
{
    let mut all = empty_lists(alloc, blocks)?;
    for v in 0..homes.len() {
        deal(&mut all, homes[v].as_slice(), v as u32)?;
    }
    Ok(all)
}

// The numbers of the rows of each of so many blocks.
fn rows_by_block(
    alloc: Global,
    blocks: u32,
    places: &[Option<u32>],
) -> Result<Vec<Items<u32>>, AllocError>
    requires few { length places.now < 2 ^ 32 }
    requires known { All (IsPlace blocks) places.now }
    ensures each { IfOk result (λ all. vec_len all ≡ blocks) }
    ensures rows { IfOk result (λ all. (k : ℕ) → k < blocks →
        slice_index_or all.items k [] ≡ placed_in k places.now) }
{
    let mut all = empty_lists(alloc, blocks)?;
    for row in 0..places.len() {
        push_placed(&mut all, places[row], row as u32)?;
    }
    Ok(all)
}

// So many lists without numbers.
fn empty_lists(alloc: Global, count: u32) -> Result<Vec<Items<u32>>, AllocError>
    ensures len { IfOk result (λ all. vec_len all ≡ count) }
    ensures empty { IfOk result (λ all. (k : ℕ) → slice_index_or all.items k [] ≡ []) }
{
    let mut all = Vec::new(alloc);
    for _ in 0..count {
        all.push(Items::new(alloc))?;
    }
    Ok(all)
}

// A number more at the end of the list of each of these blocks.
fn deal(all: &mut Vec<Items<u32>>, blocks: &[u32], number: u32) -> Result<(), AllocError>
    requires there { All (λ k. k < vec_len all.old) blocks.now }
    requires once { IsStrictlyIncreasing blocks.now }
    ensures len { vec_len all.new ≡ vec_len all.old }
    ensures dealt { OnOk result ((k : ℕ) →
        slice_index_or all.new.items k [] ≡
        (if list_any (λ j. j == k) blocks.now then slice_index_or all.old.items k [] ++ number ∷
        [] else slice_index_or all.old.items k [])) }
{
    for block in blocks {
        push_to(all, *block, number)?;
    }
    Ok(())
}

// A number more at the end of the list of a place's block, if it has one.
fn push_placed(all: &mut Vec<Items<u32>>, place: Option<u32>, number: u32) -> Result<(), AllocError>
    requires { IsPlace (vec_len all.old) place }
    ensures len { vec_len all.new ≡ vec_len all.old }
    ensures pushed { OnOk result ((k : ℕ) →
        slice_index_or all.new.items k [] ≡
        (if is_block k place then slice_index_or all.old.items k [] ++ number ∷
        [] else slice_index_or all.old.items k [])) }
{
    match place {
        None => Ok(()),
        Some(block) => push_to(all, block, number),
    }
}

// A number more at the end of a block's list.
fn push_to(all: &mut Vec<Items<u32>>, block: u32, number: u32) -> Result<(), AllocError>
    requires { block < vec_len all.old }
    ensures len { vec_len all.new ≡ vec_len all.old }
    ensures pushed { OnOk result (all.new.items ≡ slice_set all.old.items block
        (slice_index_or all.old.items block [] ++ number ∷ [])) }
{
    all[block as usize].push(number)?;
    Ok(())
}
