// Weights of columns, spread over the blocks of a class.
ghost use Rattle.std.specs.Prelude.{◌≡◌, ◌<◌, length, All, IfOk, IfSome};
ghost use Rattle.bp_theory.specs.Bound.{IsPoint};
ghost use Rattle.search_laws.specs.Spread.{IsUsed};
ghost use Rattle.col_pool.specs.Pools.{root_block};
ghost use Rattle.column_assignment.specs.Deals.{HasWeight};

use crate::calls::told::Told;
use block_class::Classes;
use block_program::{Blocked, Zone};
use bp_theory::Items;
use col_pool::{Pool, PoolFault};
use disagg::{Used, spread};
use std::alloc::{AllocError, Global};

// The weight of one column.
const ONE: i64 = 1_048_576;

/// Two points of the first class, each of weight one, spread over the class's blocks at the root.
pub fn tell_all(alloc: Global, b: &Blocked, told: &mut Told) -> Result<(), AllocError> {
    let point = found_point(alloc, b)?;
    told.text("spread of the points 2 0 and 1 0 of weight one:");
    match point {
        None => told.text(" none"),
        Some(point) => told.point(point.as_slice()),
    }
    told.line("");
    Ok(())
}

// The point that the two points give, where there is a class.
fn found_point(alloc: Global, b: &Blocked) -> Result<Option<Items<i64>>, AllocError> {
    let zone = Zone::root(alloc, b)?;
    let classes = Classes::of(alloc, b, &zone)?;
    if classes.len() == 0 {
        return Ok(None);
    }
    let used = used_columns(alloc, b, &zone, &classes)?;
    let found = spread(alloc, b, &zone, &classes, &used)?;
    Ok(found.point)
}

// The two points, where they are points of the first class's first block.
fn used_columns(
    alloc: Global,
    b: &Blocked,
    zone: &Zone,
    classes: &Classes,
) -> Result<Vec<Used>, AllocError>
    requires root { zone.now ≡ b.now.named.program.spans }
    requires class { 0 < length classes.now.firsts }
    ensures used { IfOk result (λ used. All (IsUsed zone.now b.now.blocking classes.now.firsts)
        used.items) }
    ensures weights { IfOk result (λ used. All HasWeight used.items) }
{
    let mut used = Vec::new(alloc);
    push_used(alloc, b, zone, classes, &[2, 0], &mut used)?;
    push_used(alloc, b, zone, classes, &[1, 0], &mut used)?;
    Ok(used)
}

// One used column more: a point of the first class's first block, where it is one, of weight one.
fn push_used(
    alloc: Global,
    b: &Blocked,
    zone: &Zone,
    classes: &Classes,
    point: &[i64],
    used: &mut Vec<Used>,
) -> Result<(), AllocError>
    requires root { zone.now ≡ b.now.named.program.spans }
    requires class { 0 < length classes.now.firsts }
    requires used { All (IsUsed zone.now b.now.blocking classes.now.firsts) used.old.items }
    requires weights { All HasWeight used.old.items }
    ensures used { All (IsUsed zone.now b.now.blocking classes.now.firsts) used.new.items }
    ensures weights { All HasWeight used.new.items }
{
    if let Some(column) = used_once(alloc, b, zone, classes, point)? {
        used.push(column)?;
    }
    Ok(())
}

// A point of the first class's first block, where it is one, used once.
fn used_once(
    alloc: Global,
    b: &Blocked,
    zone: &Zone,
    classes: &Classes,
    point: &[i64],
) -> Result<Option<Used>, AllocError>
    requires root { zone.now ≡ b.now.named.program.spans }
    requires class { 0 < length classes.now.firsts }
    ensures used { IfOk result (λ found. IfSome found
        (IsUsed zone.now b.now.blocking classes.now.firsts)) }
    ensures weight { IfOk result (λ found. IfSome found HasWeight) }
{
    let _ = zone.spans();
    let first = classes.first(0);
    if first >= b.blocks() {
        return Ok(None);
    }
    match point_in(alloc, b, first, point)? {
        Some(point) => Ok(Some(Used {
            class: 0,
            weight: ONE,
            point,
        })),
        None => Ok(None),
    }
}

// A point of a block at the root, where it is one: it is put into a pool, which takes no others.
fn point_in(
    alloc: Global,
    b: &Blocked,
    number: u32,
    point: &[i64],
) -> Result<Option<Items<i64>>, AllocError>
    requires { number < length b.now.blocking.blocks }
    ensures { IfOk result (λ found. IfSome found
        (λ y. IsPoint (root_block b.now number).block.rows (root_block b.now number).spans y)) }
{
    let block = b.block(number);
    if point.len() != block.vars().len() {
        return Ok(None);
    }
    let mut pool = Pool::make(alloc, b, number)?;
    if let Err(PoolFault::NoMemory) = pool.add(alloc, block, point) {
        return Err(AllocError);
    }
    if pool.len() == 0 {
        return Ok(None);
    }
    let copy = pool.column(0).point.as_slice().to_vec(alloc)?;
    Ok(Some(Items::from_vec(copy)))
}
