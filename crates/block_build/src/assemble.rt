// The blocks of a program, from its columns and the variables' homes.
ghost use Rattle.std.specs.Prelude.{◌≡◌, ◌<◌, ◌^◌, ◌++◌, ◌∷◌, [], length, map, replicate, All, Some, IfOk, OnOk};
ghost use Rattle.std.specs.List.{range_with_len, zip};
ghost use Rattle.bp_theory.specs.Blocking.{sides_of};
ghost use Rattle.bp_theory.specs.declared.Row as rows;
ghost use Rattle.bp_theory.specs.Program.{span_at};
ghost use Rattle.bp_theory.specs.Bound.{spans_of};
ghost use Rattle.bp_theory.specs.Decomposition.{members, lone_variables, rows_of, row_with_places};
ghost use Rattle.block_program.specs.Blocked.{HaveRootSpans, RootBlock};
ghost use Rattle.block_build.specs.Gather.{all_sides, link_sides, named_sides};
ghost use Rattle.block_build.specs.Homes.{IsHeld};
ghost use Rattle.block_build.specs.Shares.{placed_in};
ghost use Rattle.block_build.specs.Source.{IsSource, block_in, copy_in};

use crate::gather::{block_rows, homeless};
use crate::shares::shares_of;
use crate::source::Source;
use block_program::Block;
use bp_theory::{Items, MasterRow, Row, Sense, Span};
use std::alloc::{AllocError, Global};

/// The blocks of a decomposition's numbers, in order.
pub fn home_blocks(alloc: Global, source: &Source) -> Result<Vec<Block>, AllocError>
    requires { IsSource source.now }
    ensures blocks { IfOk result (λ all. map (λ (k : RootBlock). k.block) all.items ≡
        map (λ k. block_in source.now k
        (members source.now.model.now.program source.now.dec.now k))
        (range_with_len 0 source.now.dec.now.blocks)) }
    ensures spans { IfOk result (λ all.
        HaveRootSpans source.now.model.now.program.spans all.items) }
{
    let blocks = source.dec.blocks();
    let shares = shares_of(alloc, blocks, source.homes.as_slice(), source.dec.places())?;
    let mut all = Vec::with_capacity(alloc, blocks as usize)?;
    for k in 0..blocks {
        let vars = shares.vars[k as usize].as_slice();
        let rows = shares.rows[k as usize].as_slice();
        let block = home_block(alloc, source, k, vars, rows)?;
        all.push(block)?;
    }
    Ok(all)
}

// The block of a decomposition's number, with its variables and the numbers of its rows.
fn home_block(
    alloc: Global,
    source: &Source,
    block: u32,
    vars: &[u32],
    rows: &[u32],
) -> Result<Block, AllocError>
    requires source { IsSource source.now }
    requires there { block < source.now.dec.now.blocks }
    requires vars { vars.now ≡
        members source.now.model.now.program source.now.dec.now block }
    requires rows { rows.now ≡ placed_in block source.now.dec.now.places }
    ensures block { IfOk result (λ made. made.block ≡ block_in source.now block
        (members source.now.model.now.program source.now.dec.now block)) }
    ensures spans { IfOk result (λ made.
        made.spans ≡ spans_of source.now.model.now.program.spans made.block) }
{
    let own = block_rows(alloc, rows, vars, source.model.all_rows())?;
    let vars = Vec::from_slice(alloc, vars)?;
    made_block(alloc, source, block, vars, own)
}

/// One more block for each variable that stands in no block's row, in order.
pub fn push_lone_blocks(
    alloc: Global,
    source: &Source,
    all: &mut Vec<Block>,
) -> Result<(), AllocError>
    requires source { IsSource source.now }
    requires spans { HaveRootSpans source.now.model.now.program.spans all.old.items }
    ensures blocks { OnOk result (map (λ (k : RootBlock). k.block) all.new.items ≡
        map (λ (k : RootBlock). k.block) all.old.items ++
        map (λ v. block_in source.now source.now.dec.now.blocks (v ∷ []))
        (lone_variables source.now.model.now.program source.now.dec.now)) }
    ensures spans { OnOk result
        (HaveRootSpans source.now.model.now.program.spans all.new.items) }
{
    let lone = homeless(alloc, source.homes.as_slice())?;
    for i in 0..lone.len() {
        let block = lone_block(alloc, source, lone[i])?;
        all.push(block)?;
    }
    Ok(())
}

// The block of a variable that stands in no block's row. It has no rows, so none is looked at.
fn lone_block(alloc: Global, source: &Source, var: u32) -> Result<Block, AllocError>
    requires source { IsSource source.now }
    requires var { var < length source.now.model.now.program.spans }
    requires lone { IsHeld source.now.model.now.program source.now.dec.now var
        source.now.dec.now.blocks }
    ensures block { IfOk result (λ made. made.block ≡
        block_in source.now source.now.dec.now.blocks (var ∷ [])) }
    ensures spans { IfOk result (λ made.
        made.spans ≡ spans_of source.now.model.now.program.spans made.block) }
{
    let mut vars = Vec::with_capacity(alloc, 1)?;
    vars.push(var)?;
    made_block(alloc, source, source.dec.blocks(), vars, Vec::new(alloc))
}

// The block of these variables' copies, with the rows of a block's number.
fn made_block(
    alloc: Global,
    source: &Source,
    block: u32,
    vars: Vec<u32>,
    own: Vec<Row>,
) -> Result<Block, AllocError>
    requires source { IsSource source.now }
    requires below { All (λ v. v < length source.now.model.now.program.spans) vars.items }
    requires few { length vars.items < 2 ^ 32 }
    requires held { All (λ v.
        IsHeld source.now.model.now.program source.now.dec.now v block) vars.items }
    requires own { own.items ≡ map (row_with_places vars.items)
        (rows_of source.now.model.now.program source.now.dec.now block) }
    ensures block { IfOk result (λ made. made.block ≡ block_in source.now block vars.items) }
    ensures spans { IfOk result (λ made.
        made.spans ≡ spans_of source.now.model.now.program.spans made.block) }
{
    let root = vars_spans(alloc, vars.as_slice(), source.model.spans())?;
    let costs = vars_costs(alloc, source, block, vars.as_slice())?;
    let masters = vars_coefs(alloc, source, block, vars.as_slice())?;
    Ok(Block::make(
        Items::from_vec(vars),
        Items::from_vec(root),
        Items::from_vec(costs),
        Items::from_vec(masters),
        Items::from_vec(own),
    ))
}

// The spans of variables.
fn vars_spans(alloc: Global, vars: &[u32], spans: &[Span]) -> Result<Vec<Span>, AllocError>
    requires { All (λ v. v < length spans.now) vars.now }
    ensures { IfOk result (λ all. all.items ≡ map (span_at spans.now) vars.now) }
{
    let mut all = Vec::with_capacity(alloc, vars.len())?;
    for var in vars {
        all.push(spans[*var as usize])?;
    }
    Ok(all)
}

// The costs of variables' copies in a block.
fn vars_costs(
    alloc: Global,
    source: &Source,
    block: u32,
    vars: &[u32],
) -> Result<Vec<i64>, AllocError>
    requires source { IsSource source.now }
    requires below { All (λ v. v < length source.now.model.now.program.spans) vars.now }
    requires held { All (λ v.
        IsHeld source.now.model.now.program source.now.dec.now v block) vars.now }
    ensures { IfOk result (λ all.
        all.items ≡ map (λ v. (copy_in source.now block v).cost) vars.now) }
{
    let mut all = Vec::with_capacity(alloc, vars.len())?;
    for var in vars {
        all.push(source.copy_cost(block, *var))?;
    }
    Ok(all)
}

// The coefficients of variables' copies in a block.
fn vars_coefs(
    alloc: Global,
    source: &Source,
    block: u32,
    vars: &[u32],
) -> Result<Vec<Items<(u32, i64)>>, AllocError>
    requires source { IsSource source.now }
    requires below { All (λ v. v < length source.now.model.now.program.spans) vars.now }
    requires held { All (λ v.
        IsHeld source.now.model.now.program source.now.dec.now v block) vars.now }
    ensures { IfOk result (λ all.
        all.items ≡ map (λ v. (copy_in source.now block v).coefs) vars.now) }
{
    let mut all = Vec::with_capacity(alloc, vars.len())?;
    for var in vars {
        let coefs = source.copy_coefs(alloc, block, *var)?;
        all.push(coefs)?;
    }
    Ok(all)
}

/// The sides of the rows that proofs may name: of master rows, none at a block's row; of so many link rows; of cuts.
pub fn named_rows(
    alloc: Global,
    rows: &[Row],
    places: &[Option<u32>],
    links: u32,
    cuts: &[Row],
) -> Result<Vec<Option<MasterRow>>, AllocError>
    ensures { IfOk result (λ all. all.items ≡ all_sides rows.now places.now links cuts.now) }
{
    let mut all = own_sides(alloc, rows, places)?;
    push_link_sides(&mut all, links)?;
    push_cut_sides(&mut all, cuts)?;
    Ok(all)
}

// The sides of a program's rows that proofs may name, none at a block's row.
fn own_sides(
    alloc: Global,
    rows: &[Row],
    places: &[Option<u32>],
) -> Result<Vec<Option<MasterRow>>, AllocError>
    ensures { IfOk result (λ all. all.items ≡ map (λ e. named_sides e.0 e.1)
        (zip rows.now places.now)) }
{
    rows.iter()
        .zip(places)
        .map(|(row, place)| named_sides(row, place))
        .collect(alloc)
}

// The sides of so many link rows behind others.
fn push_link_sides(all: &mut Vec<Option<MasterRow>>, links: u32) -> Result<(), AllocError>
    ensures { OnOk result (all.new.items ≡ all.old.items ++ replicate links (Some link_sides)) }
{
    for _ in 0..links {
        all.push(Some(MasterRow {
            sense: Sense::Eq,
            low: 0,
            rhs: 0,
        }))?;
    }
    Ok(())
}

// The sides of cuts behind others.
fn push_cut_sides(all: &mut Vec<Option<MasterRow>>, cuts: &[Row]) -> Result<(), AllocError>
    ensures { OnOk result (all.new.items ≡
        all.old.items ++ map (λ (cut : rows.Row). Some (sides_of cut)) cuts.now) }
{
    for cut in cuts {
        all.push(Some(sides_of(cut)))?;
    }
    Ok(())
}

// The sides of a row that proofs may name.
fn named_sides(row: &Row, place: &Option<u32>) -> Option<MasterRow>
    ensures { result ≡ named_sides row.now place.now }
{
    match place {
        None => Some(sides_of(row)),
        Some(_) => None,
    }
}

// The sides of a row.
fn sides_of(row: &Row) -> MasterRow
    ensures { result ≡ sides_of row.now }
{
    MasterRow {
        sense: row.sense,
        low: row.low,
        rhs: row.rhs,
    }
}
