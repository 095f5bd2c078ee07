// A pool that is filled up.
ghost use Rattle.std.specs.Prelude.{◌≡◌, length};
ghost use Rattle.col_pool.specs.Pools.{IsPoolOf};

use crate::calls::told::Told;
use block_program::{Block, Blocked};
use col_pool::{Added, Pool, PoolFault};
use std::alloc::{AllocError, Global};

// How many columns a pool has room for.
const ROOM: u32 = 65_536;

/// Points of a block of one variable, added until the pool is full, and three more: one that it lacks, one that it has, and
/// one outside the span.
pub fn tell_all(alloc: Global, b: &Blocked, told: &mut Told) -> Result<(), AllocError> {
    if b.blocks() == 0 {
        told.line("pool: not tried, there is no block");
        return Ok(());
    }
    let block = b.block(0);
    if block.var_count() != 1 {
        told.line("pool: not tried, the block has not one variable");
        return Ok(());
    }
    let mut pool = Pool::make(alloc, b, 0)?;
    told.line(filled_words(is_filled(alloc, block, &mut pool)));
    tell_added(alloc, block, &mut pool, 65_536, told);
    tell_added(alloc, block, &mut pool, 5, told);
    tell_added(alloc, block, &mut pool, 70_000, told);
    Ok(())
}

// What became of the points from 0 on, as many as there is room for.
fn filled_words(is_filled: bool) -> &'static str {
    if is_filled {
        "the points 0 to 65535: new, in order"
    } else {
        "the points 0 to 65535: not all new"
    }
}

// Whether the points from 0 on become the columns of their own numbers, as many as there is room for.
fn is_filled(alloc: Global, block: &Block, pool: &mut Pool) -> bool
    requires pool { IsPoolOf block.now pool.old }
    requires one { length block.now.block.copies ≡ 1 }
    ensures pool { IsPoolOf block.now pool.new }
{
    let mut is_filled = true;
    for number in 0..ROOM {
        is_filled = is_added(alloc, block, pool, number) && is_filled;
    }
    is_filled
}

// Whether a number becomes the column of this number.
fn is_added(alloc: Global, block: &Block, pool: &mut Pool, number: u32) -> bool
    requires pool { IsPoolOf block.now pool.old }
    requires one { length block.now.block.copies ≡ 1 }
    ensures pool { IsPoolOf block.now pool.new }
{
    match added(alloc, block, pool, i64::from(number)) {
        Ok(Added::New(id)) => id == number,
        _ => false,
    }
}

// What adding a number answers.
fn tell_added(alloc: Global, block: &Block, pool: &mut Pool, number: i64, told: &mut Told)
    requires pool { IsPoolOf block.now pool.old }
    requires one { length block.now.block.copies ≡ 1 }
    ensures pool { IsPoolOf block.now pool.new }
{
    let answer = added(alloc, block, pool, number);
    told.number("then the point ", i128::from(number));
    tell_answer(answer, told);
}

// Adds a number, a second time where memory was short: the pool is then as it was.
fn added(alloc: Global, block: &Block, pool: &mut Pool, number: i64) -> Result<Added, PoolFault>
    requires pool { IsPoolOf block.now pool.old }
    requires one { length block.now.block.copies ≡ 1 }
    ensures pool { IsPoolOf block.now pool.new }
{
    match pool.add(alloc, block, &[number]) {
        Err(PoolFault::NoMemory) => pool.add(alloc, block, &[number]),
        answer => answer,
    }
}

// The answer to adding a number.
fn tell_answer(answer: Result<Added, PoolFault>, told: &mut Told) {
    match answer {
        Ok(Added::New(id)) => told.number(": new, the column ", i128::from(id)),
        Ok(Added::Known(id)) => told.number(": known, the column ", i128::from(id)),
        Err(PoolFault::Outside(place)) => {
            told.number(": outside the span at place ", i128::from(place));
        }
        Err(PoolFault::Row(row)) => told.number(": doesn't meet the row ", i128::from(row)),
        Err(PoolFault::Full) => told.text(": the pool is full"),
        Err(PoolFault::NoMemory) => told.text(": memory is short"),
    }
    told.line("");
}
