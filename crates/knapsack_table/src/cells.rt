// The cells of tables.
ghost use Rattle.std.specs.Prelude.{◌≡◌, vec_len};

use std::alloc::{AllocError, Global};

/// The cells of a table, each in 128 bits and in 64 bits, which several plans may use one after the other.
#[derive(Drop)]
pub struct Cells {
    pub(crate) long: Vec<i128>,
    pub(crate) short: Vec<i64>,
    ghost each: { vec_len short ≡ vec_len long },
}

impl Cells {
    ghost use Rattle.std.specs.Prelude.{◌≡◌, IfOk};
    ghost use Rattle.knapsack_table.specs.Rooms.{count_of};

    /// So many cells.
    pub fn make(alloc: Global, count: usize) -> Result<Cells, AllocError>
        ensures { IfOk result (λ cells. count_of cells ≡ count) }
    {
        let long = Vec::from_elem(alloc, 0, count)?;
        let short = Vec::from_elem(alloc, 0, count)?;
        Ok(Cells { long, short })
    }
}
