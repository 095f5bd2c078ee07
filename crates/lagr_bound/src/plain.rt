// Bounds of proofs that pick no block.
ghost use Rattle.std.specs.Prelude.{◌≡◌, ◌<◌, [], unsigned_abs};
ghost use Rattle.bp_theory.specs.Limits.{price_limit};
ghost use Rattle.bp_theory.specs.Bound.{Fits, IsBound};
ghost use Rattle.bp_theory.specs.Trees.{IsZone};
ghost use Rattle.bp_theory.specs.declared.Picked.TheVariants.{These};

use block_program::{Blocked, Zone};
use bp_theory::Proof;
use pricing_problem::plus;
use reduced_costs::{base, box_least};

/// The weak Lagrangian bound of a proof that picks no block: what it gives before the blocks, and for each block the
/// least of its reduced costs over its box in the zone. Its magnitude is below `2^123`.
pub fn box_bound(b: &Blocked, zone: &Zone, proof: &Proof) -> i128
    requires zone { IsZone b.now.named.program.spans zone.now }
    requires fits { Fits b.now.blocking proof.now }
    requires picked { proof.now.picked ≡ These [] }
    ensures bound { IsBound b.now.blocking zone.now proof.now result }
    ensures size { unsigned_abs result < price_limit }
{
    let blocks = b.blocks();
    let mut sum = base(b, proof);
    for number in 0..blocks {
        let part = box_least(b.block(number), zone, proof);
        sum = plus(&sum, &part);
    }
    sum
}
