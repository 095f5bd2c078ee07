// The reduced costs of copies at multipliers by row, at the greatest scale.
ghost use Rattle.std.specs.Prelude.{◌<◌, length};

use block_program::Block;
use std::alloc::{AllocError, Global};

/// The reduced cost of the copy at a place of a block.
pub fn reduced_cost(block: &Block, place: u32, mults: &[i64]) -> i128
    requires { place < length block.now.block.copies }
{
    primal_heuristics::reduced_cost(block.costs()[place as usize], block.master(place), mults)
}

/// The reduced costs of a block's copies.
pub fn reduced_costs(alloc: Global, block: &Block, mults: &[i64]) -> Result<Vec<i128>, AllocError> {
    let mut costs = Vec::new(alloc);
    for place in 0..block.var_count() {
        costs.push(reduced_cost(block, place, mults))?;
    }
    Ok(costs)
}
