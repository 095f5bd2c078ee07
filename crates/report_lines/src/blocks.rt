// The lines of blocks: which rows and variables each has.
ghost use Rattle.std.specs.Prelude.{◌≡◌, ◌<◌, ◌^◌, ◌++◌, ◌∷◌, [], ℕ, All, length, vec_len, map, slice_index_or, slice_set, if◌then◌else◌, codes, IfOk, OnOk};
ghost use Rattle.std.specs.List.{range_with_len};
ghost use Rattle.bp_theory.specs.Blocking.{Copy};
ghost use Rattle.bp_theory.specs.Decomposition.{IsPlace, is_block};
ghost use Rattle.search_laws.specs.Spread.{block_at};
ghost use Rattle.report_lines.specs.Blocks.{rows_of_block, counted_names, shown_block, shown_blocks, shown_firsts};
ghost use Rattle.block_class.specs.Classes.{AreSameClasses};

use crate::push_named;
use block_class::Classes;
use block_program::Blocked;
use bp_model::Model;
use bp_theory::Items;
use std::alloc::{AllocError, Global};

/// The lines of all blocks.
pub fn push_blocks(alloc: Global, text: &mut Vec<u8>, b: &Blocked) -> Result<(), AllocError>
    ensures { OnOk result (text.new.items ≡ text.old.items ++ shown_blocks b.now) }
{
    let rows = all_rows(alloc, b)?;
    for block in 0..b.blocks() {
        push_block(text, b, block, rows[block as usize].as_slice())?;
    }
    Ok(())
}

/// The lines of the first blocks of all classes.
pub fn push_firsts(
    alloc: Global,
    text: &mut Vec<u8>,
    b: &Blocked,
    root: &Classes,
) -> Result<(), AllocError>
    requires { AreSameClasses b.now.named.program.spans b.now.blocking root.now }
    ensures { OnOk result (text.new.items ≡ text.old.items ++ shown_firsts b.now root.now) }
{
    let rows = all_rows(alloc, b)?;
    for class in 0..root.len() {
        let first = root.first(class);
        push_block(text, b, first, rows[first as usize].as_slice())?;
    }
    Ok(())
}

// The line of a block with these rows.
fn push_block(text: &mut Vec<u8>, b: &Blocked, block: u32, rows: &[u32]) -> Result<(), AllocError>
    requires there { block < length b.now.blocking.blocks }
    requires rows { rows.now ≡ rows_of_block b.now.dec.places block }
    ensures { OnOk result (text.new.items ≡ text.old.items ++ shown_block b.now block) }
{
    push_named(text, b"block ", block as u64 + 1)?;
    push_row_names(text, b.model(), rows)?;
    let vars = vars_of(b, block);
    push_var_names(text, b.model(), vars)?;
    text.extend_from_slice(b"\n")
}

// How many rows there are, and their names.
fn push_row_names(text: &mut Vec<u8>, m: &Model, rows: &[u32]) -> Result<(), AllocError>
    requires { All (λ row. row < length m.now.program.rows) rows.now }
    ensures { OnOk result (text.new.items ≡ text.old.items ++ counted_names (codes " rows ")
        m.now.row_names rows.now) }
{
    push_named(text, b" rows ", rows.len() as u64)?;
    for row in rows {
        push_name(text, m.row_name(*row))?;
    }
    Ok(())
}

// How many variables there are, and their names.
fn push_var_names(text: &mut Vec<u8>, m: &Model, vars: &[u32]) -> Result<(), AllocError>
    requires { All (λ var. var < length m.now.program.spans) vars.now }
    ensures { OnOk result (text.new.items ≡ text.old.items ++ counted_names (codes " variables ")
        m.now.names vars.now) }
{
    push_named(text, b" variables ", vars.len() as u64)?;
    for var in vars {
        push_name(text, m.name(*var))?;
    }
    Ok(())
}

// A name with a space before it.
fn push_name(text: &mut Vec<u8>, name: &str) -> Result<(), AllocError>
    ensures { OnOk result (text.new.items ≡ text.old.items ++ 32 ∷ name.now) }
{
    text.push(b' ')?;
    text.extend_from_slice(name.as_bytes())
}

// The variables of a block, in order.
fn vars_of(b: &Blocked, block: u32) -> &[u32]
    requires { block < length b.now.blocking.blocks }
    ensures vars { result.now ≡ map (λ (c : Copy). c.var) (block_at b.now.blocking block).copies }
    ensures known { All (λ var. var < length b.now.named.program.spans) result.now }
{
    // For the proof alone: `b` is formed.
    let _blocks = b.blocks();
    b.block(block).vars()
}

// The rows of all blocks.
fn all_rows(alloc: Global, b: &Blocked) -> Result<Vec<Items<u32>>, AllocError>
    ensures { IfOk result (λ all. all.items ≡ map (rows_of_block b.now.dec.places)
        (range_with_len 0 (length b.now.blocking.blocks))) }
{
    rows_by_block(alloc, b.dec().places(), b.blocks())
}

// The rows of each of so many blocks, in order.
fn rows_by_block(
    alloc: Global,
    places: &[Option<u32>],
    blocks: u32,
) -> Result<Vec<Items<u32>>, AllocError>
    requires known { All (IsPlace blocks) places.now }
    requires few { length places.now < 2 ^ 32 }
    ensures { IfOk result (λ all. all.items ≡ map (rows_of_block places.now)
        (range_with_len 0 blocks)) }
{
    let mut all = empty(alloc, blocks)?;
    for row in 0..places.len() {
        push_row(&mut all, places[row], row as u32)?;
    }
    Ok(all)
}

// So many blocks without rows.
fn empty(alloc: Global, blocks: u32) -> Result<Vec<Items<u32>>, AllocError>
    ensures len { IfOk result (λ all. vec_len all ≡ blocks) }
    ensures empty { IfOk result (λ all. (k : ℕ) → slice_index_or all.items k [] ≡ []) }
{
    let mut all = Vec::new(alloc);
    for _ in 0..blocks {
        all.push(Items::new(alloc))?;
    }
    Ok(all)
}

// One row more at the end of its block.
fn push_row(all: &mut Vec<Items<u32>>, place: Option<u32>, row: u32) -> Result<(), AllocError>
    requires { IsPlace (vec_len all.old) place }
    ensures len { vec_len all.new ≡ vec_len all.old }
    ensures pushed { OnOk result ((k : ℕ) →
        slice_index_or all.new.items k [] ≡
        (if is_block k place then slice_index_or all.old.items k [] ++ row ∷ [] else slice_index_or
        all.old.items k [])) }
{
    match place {
        None => Ok(()),
        Some(block) => push_to(all, block, row),
    }
}

// One row more at the end of a block.
fn push_to(all: &mut Vec<Items<u32>>, block: u32, row: u32) -> Result<(), AllocError>
    requires { block < vec_len all.old }
    ensures len { vec_len all.new ≡ vec_len all.old }
    ensures pushed { OnOk result (all.new.items ≡ slice_set all.old.items block
        (slice_index_or all.old.items block [] ++ row ∷ [])) }
{
    all[block as usize].push(row)?;
    Ok(())
}
