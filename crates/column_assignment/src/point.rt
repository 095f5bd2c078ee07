// The point in which blocks have the numbers of their columns.
ghost use Rattle.std.specs.Prelude.{◌≡◌, ℕ, ◌<◌, length, slice_index, vec_len, IfOk};
ghost use Rattle.bp_theory.specs.Program.{value_at};
ghost use Rattle.block_program.specs.Blocked.{HasCopyAt};
ghost use Rattle.column_assignment.specs.Deals.{point_at};

use block_program::Blocked;
use search_laws::UsedColumn;
use std::alloc::{AllocError, Global};

/// The point in which each variable has the number of its first copy in the column of the copy's block. `columns` are the
/// places among those used, by block; a block without one has the first, and a column without a number there has 0.
pub fn dealt_point(
    alloc: Global,
    b: &Blocked,
    used: &[UsedColumn],
    columns: &[usize],
) -> Result<Vec<i64>, AllocError>
    ensures each { IfOk result (λ point. vec_len point ≡ length b.now.named.program.spans) }
    ensures numbers { IfOk result (λ point. (v : ℕ) → v < length b.now.named.program.spans →
        (at : ℕ × ℕ) × HasCopyAt b.now.blocking.blocks v at ×
        (value_at point.items v ≡
        value_at (point_at used.now (slice_index columns.now at.0)) at.1)) }
{
    let mut point = Vec::new(alloc);
    for var in 0..b.model().vars() {
        let (block, place) = b.var_place(var);
        let column = column_of(columns, block);
        point.push(number_of(used, column, place))?;
    }
    Ok(point)
}

// A block's column, the first where it has none.
pub fn column_of(columns: &[usize], block: u32) -> usize
    ensures { result ≡ slice_index columns.now block }
{
    match columns.get(block as usize) {
        Some(column) => *column,
        None => 0,
    }
}

// The number of a column's point at a place, 0 where there is none.
pub fn number_of(used: &[UsedColumn], column: usize, place: u32) -> i64
    ensures { result ≡ value_at (point_at used.now column) place }
{
    match used.get(column) {
        Some(column) => number_at(column.point.as_slice(), place),
        None => 0,
    }
}

// The number at a place, 0 where there is none.
pub fn number_at(numbers: &[i64], place: u32) -> i64
    ensures { result ≡ value_at numbers.now place }
{
    match numbers.get(place as usize) {
        Some(number) => *number,
        None => 0,
    }
}
