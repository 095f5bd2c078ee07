// The blocks in whose rows variables stand, and what is wrong with them.
ghost use Rattle.std.specs.Prelude.{◌≡◌, ◌≢◌, ℕ, ◌<◌, length, All, IfOk, MatchOption, MatchBool, slice_index_or, true, Some, []};
ghost use Rattle.bp_theory.specs.Decomposition.{IsPlace};
ghost use Rattle.block_build.specs.Homes.{has_block, shown_homes, IsNearer, IsNext};
ghost use Rattle.block_build.specs.Gather.{IsElsewhere, IsFirstElsewhere, IsOneElse};

use crate::stand::block_at;
use bp_theory::Items;
use std::alloc::{AllocError, Global};

/// For each variable its homes, the blocks in whose rows it stands, ascending, by its column.
pub fn homes_of(
    alloc: Global,
    blocks: u32,
    columns: &[Items<(u32, i64)>],
    places: &[Option<u32>],
) -> Result<Vec<Items<u32>>, AllocError>
    requires { All (IsPlace blocks) places.now }
    ensures each { IfOk result (λ homes. length homes.items ≡ length columns.now) }
    ensures homes { IfOk result (λ homes. (v : ℕ) → v < length columns.now →
        slice_index_or homes.items v [] ≡
        shown_homes blocks places.now (slice_index_or columns.now v [])) }
{
    let mut homes = Vec::with_capacity(alloc, columns.len())?;
    for v in 0..columns.len() {
        let own = column_homes(alloc, blocks, columns[v].as_slice(), places)?;
        homes.push(own)?;
    }
    Ok(homes)
}

// The blocks in whose rows a column has entries, ascending.
fn column_homes(
    alloc: Global,
    blocks: u32,
    column: &[(u32, i64)],
    places: &[Option<u32>],
) -> Result<Items<u32>, AllocError>
    requires { All (IsPlace blocks) places.now }
    ensures { IfOk result (λ homes. homes ≡ shown_homes blocks places.now column.now) }
{
    let mut homes = Vec::new(alloc);
    let mut from = 0;
    while let Some(block) = next_home(column, places, from) {
        homes.push(block)?;
        from = block + 1;
    }
    Ok(Items::from_vec(homes))
}

// The least block from one on in whose rows a column has entries, or none.
fn next_home(column: &[(u32, i64)], places: &[Option<u32>], from: u32) -> Option<u32>
    ensures { IsNext (λ k. has_block places.now column.now k ≡ true) from result }
{
    let mut next = None;
    for entry in column {
        next = nearer(next, block_at(places, entry.0), from);
    }
    next
}

// The lesser of a block that was found and of a further one, if that isn't below `from`.
fn nearer(found: Option<u32>, place: Option<u32>, from: u32) -> Option<u32>
    ensures { IsNearer found place from result }
{
    match place {
        None => found,
        Some(block) => match found {
            None => { if block < from { None } else { Some(block) } }
            Some(next) => {
                if block < from {
                    Some(next)
                } else if next <= block {
                    Some(next)
                } else {
                    Some(block)
                }
            }
        },
    }
}

/// The first listed variable with a home that isn't that of its list.
pub fn first_elsewhere(homes: &[Items<u32>], listed: &[(u32, Option<u32>)]) -> Option<u32>
    requires { All (λ e. e.0 < length homes.now) listed.now }
    ensures { MatchOption result (All (λ e. IsElsewhere homes.now e → ⊥) listed.now)
        (λ v. IsFirstElsewhere homes.now listed.now v) }
{
    for i in 0..listed.len() {
        if is_elsewhere(homes, &listed[i]) {
            return Some(listed[i].0);
        }
    }
    None
}

// Whether a listed variable has a home elsewhere.
fn is_elsewhere(homes: &[Items<u32>], entry: &(u32, Option<u32>)) -> bool
    requires { entry.now.0 < length homes.now }
    ensures { MatchBool result (IsElsewhere homes.now entry.now)
        (IsElsewhere homes.now entry.now → ⊥) }
{
    has_other(homes[entry.0 as usize].as_slice(), entry.1)
}

// Whether one of a variable's homes isn't that of its list.
fn has_other(homes: &[u32], list: Option<u32>) -> bool
    ensures { MatchBool result (IsOneElse homes.now list) (IsOneElse homes.now list → ⊥) }
{
    for i in 0..homes.len() {
        if differs(list, homes[i]) {
            return true;
        }
    }
    false
}

// Whether a home isn't that of a list.
fn differs(list: Option<u32>, home: u32) -> bool
    ensures { MatchBool result (list ≢ Some home) (list ≡ Some home) }
{
    match list {
        None => true,
        Some(block) => block != home,
    }
}
