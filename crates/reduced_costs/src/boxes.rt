// The least of reduced costs over boxes.
ghost use Rattle.std.specs.Prelude.{◌≡◌, ◌≤◌, ◌<◌, length, slice_index_or, unsigned_abs};
ghost use Rattle.bp_theory.specs.Blocking.{Copy};
ghost use Rattle.reduced_costs.specs.Sizes.{IsSmallBlock, IsSmallProof, block_least, block_size, copy_least};

use crate::costs::reduced_cost;
use block_program::{Block, Zone};
use bp_theory::Proof;
use pricing_problem::{least_end, plus};

/// The least of a block's reduced costs over its box in a zone: at one end of each copy's span. It is at the proof's
/// scale.
pub fn box_least(block: &Block, zone: &Zone, proof: &Proof) -> i128
    requires block { IsSmallBlock zone.now proof.now block.now.block }
    requires proof { IsSmallProof proof.now }
    ensures value { result ≡ block_least zone.now proof.now block.now.block }
    ensures size { unsigned_abs result ≤ block_size zone.now proof.now block.now.block }
{
    let mut sum = 0;
    for place in 0..block.vars().len() {
        let end = copy_least(block, place as u32, zone, proof);
        sum = plus(&sum, &end);
    }
    sum
}

// The least of the reduced cost of the copy at a place over its span in a zone.
fn copy_least(block: &Block, place: u32, zone: &Zone, proof: &Proof) -> i128
    requires there { place < length block.now.block.copies }
    requires block { IsSmallBlock zone.now proof.now block.now.block }
    requires proof { IsSmallProof proof.now }
    ensures { (d : Copy) → result ≡ copy_least zone.now proof.now
        (slice_index_or block.now.block.copies place d) }
{
    let cost = reduced_cost(block, place, proof);
    let span = zone.span(block.vars()[place as usize]);
    least_end(&span, &cost)
}
