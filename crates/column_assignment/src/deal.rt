// The columns that blocks get.
ghost use Rattle.std.specs.Prelude.{◌≡◌, ℕ, ◌+◌, ◌<◌, ◌^◌, ◌++◌, [], length, replicate, slice_index, slice_index_or, slice_set, vec_len, All, IfOk, OnOk};
ghost use Rattle.search_laws.specs.declared.UsedColumn.{UsedColumn as AUsed};
ghost use Rattle.search_laws.specs.Spread.{times, class_points, class_at, class_blocks, rank};
ghost use Rattle.column_assignment.specs.Deals.{HasWeight, points_at};

use block_class::Classes;
use bp_theory::Items;
use search_laws::UsedColumn;
use std::alloc::{AllocError, Global};

/// For each class its deck: the places of its columns among those used, in order and each as often as its weight says,
/// in whole units of 2^20.
pub fn decks(
    alloc: Global,
    classes: &Classes,
    used: &[UsedColumn],
) -> Result<Vec<Items<usize>>, AllocError>
    requires weights { All HasWeight used.now }
    requires known { All (λ (u : AUsed). u.class < length classes.now.firsts) used.now }
    ensures many { IfOk result (λ decks. vec_len decks ≡ length classes.now.firsts) }
    ensures decks { IfOk result (λ decks. (k : ℕ) → k < length classes.now.firsts
        → points_at used.now (slice_index_or decks.items k []) ≡ class_points used.now k) }
{
    let mut decks = empty(alloc, classes.len() as usize)?;
    for place in 0..used.len() {
        let many = times(&used[place]);
        push_times(&mut decks, used[place].class, place, many)?;
    }
    Ok(decks)
}

// How often a column is taken.
fn times(column: &UsedColumn) -> u32
    requires { HasWeight column.now }
    ensures { result ≡ times column.now }
{
    (column.weight.unsigned_abs() >> 20) as u32
}

// So many decks without columns.
fn empty(alloc: Global, count: usize) -> Result<Vec<Items<usize>>, AllocError>
    ensures len { IfOk result (λ all. vec_len all ≡ count) }
    ensures empty { IfOk result (λ all. (k : ℕ) → slice_index_or all.items k [] ≡ []) }
{
    let mut all = Vec::new(alloc);
    for _ in 0..count {
        all.push(Items::new(alloc))?;
    }
    Ok(all)
}

// A column so many times more at the end of a class's deck.
fn push_times(
    decks: &mut Vec<Items<usize>>,
    class: u32,
    place: usize,
    many: u32,
) -> Result<(), AllocError>
    requires { class < vec_len decks.old }
    ensures len { vec_len decks.new ≡ vec_len decks.old }
    ensures pushed { OnOk result (decks.new.items ≡ slice_set decks.old.items class
        (slice_index_or decks.old.items class [] ++ replicate many place)) }
{
    add_times(&mut decks[class as usize], place, many)
}

// A column so many times more.
fn add_times(deck: &mut Items<usize>, place: usize, many: u32) -> Result<(), AllocError>
    ensures { OnOk result (deck.new ≡ deck.old ++ replicate many place) }
{
    for _ in 0..many {
        deck.push(place)?;
    }
    Ok(())
}

/// The place of each block's column: the blocks of a class, ascending, get its deck in order. A block for which the deck
/// has no column gets the first of those used.
pub fn columns_of_blocks(
    alloc: Global,
    classes: &Classes,
    blocks: u32,
    decks: &[Items<usize>],
) -> Result<Vec<usize>, AllocError>
    requires each { length classes.now.classes ≡ blocks }
    requires many { length decks.now ≡ length classes.now.firsts }
    ensures each { IfOk result (λ columns. vec_len columns ≡ blocks) }
    ensures columns { IfOk result (λ columns. (j : ℕ) → j < blocks →
        slice_index columns.items j ≡
        slice_index (slice_index_or decks.now (class_at classes.now.classes j) [])
        (rank classes.now.classes j)) }
{
    let mut ranks: Vec<usize> = Vec::from_elem(alloc, 0, decks.len())?;
    let mut columns = Vec::new(alloc);
    for block in 0..blocks {
        let class = classes.class_of(block);
        let rank = next_rank(&mut ranks, class);
        columns.push(place_in(&decks[class as usize], rank))?;
    }
    Ok(columns)
}

// A class's rank, which then goes up by one.
fn next_rank(ranks: &mut Vec<usize>, class: u32) -> usize
    requires there { class < vec_len ranks.old }
    requires room { slice_index ranks.old.items class < 2 ^ 32 }
    ensures rank { result ≡ slice_index ranks.old.items class }
    ensures raised { ranks.new.items ≡ slice_set ranks.old.items class
        (slice_index ranks.old.items class + 1) }
{
    let rank = ranks[class as usize];
    ranks[class as usize] = rank + 1;
    rank
}

// The column at a rank of a deck, the first where there is none.
fn place_in(deck: &Items<usize>, rank: usize) -> usize
    ensures { result ≡ slice_index deck.now rank }
{
    match deck.as_slice().get(rank) {
        Some(place) => *place,
        None => 0,
    }
}
