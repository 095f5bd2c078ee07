// Columns by the hashes of their points.
ghost use Rattle.std.specs.Prelude.{◌≡◌, ◌<◌, ◌≤◌, length, IfOk, IfSome, IfNone};
ghost use Rattle.col_pool.specs.Indexed.{Indexes, hash_of};
ghost use Rattle.col_pool.specs.Pools.{HasPointAt, IsAbsent};

use crate::column::Column;
use hash_index::HashIndex;
use std::alloc::{AllocError, Global};
use std::hash::{FoldHasher, Hash, Hasher};

/// The hash of a column's point.
pub fn hash_of(column: &Column) -> u64
    ensures { result ≡ hash_of column.now }
{
    let mut hasher = FoldHasher::default();
    column.hash(&mut hasher);
    hasher.finish()
}

/// The number of the column with a column's point, where there is one.
pub fn place_of(columns: &[Column], index: &HashIndex, hash: u64, column: &Column) -> Option<u32>
    requires hash { hash ≡ hash_of column.now }
    requires index { Indexes index.now columns.now }
    ensures found { IfSome result (λ place. HasPointAt columns.now place column.now.point) }
    ensures absent { IfNone result (IsAbsent columns.now column.now.point) }
{
    let mut last = index.last_of(hash);
    while last > 0 {
        let place = last - 1;
        if columns[place as usize] == *column {
            return Some(place);
        }
        last = index.last_before(place);
    }
    None
}

/// Gives the index of columns more slots where it has no more of them than columns.
pub fn grow(alloc: Global, columns: &[Column], index: &mut HashIndex) -> Result<(), AllocError>
    requires index { Indexes index.old columns.now }
    requires few { length columns.now ≤ 65536 }
    ensures { Indexes index.new columns.now }
{
    if index.slots() <= columns.len() {
        *index = indexed(alloc, columns, 2 * columns.len())?;
    }
    Ok(())
}

// The index of columns with so many slots.
fn indexed(alloc: Global, columns: &[Column], slots: usize) -> Result<HashIndex, AllocError>
    requires slots { 0 < slots }
    requires few { length columns.now ≤ 65536 }
    ensures { IfOk result (λ index. Indexes index columns.now) }
{
    let mut index = HashIndex::new(alloc, slots)?;
    for column in columns {
        index.push(hash_of(column))?;
    }
    Ok(index)
}
