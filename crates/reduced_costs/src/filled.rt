// Costs and spans of a block, written into room that is there.
ghost use Rattle.std.specs.Prelude.{◌≡◌, ◌≤◌, ◌<◌, length, vec_len, All};
ghost use Rattle.bp_theory.specs.Limits.{most_variables};
ghost use Rattle.bp_theory.specs.Bound.{spans_of};
ghost use Rattle.bp_theory.specs.declared.Limits.TheVariants.{Large};
ghost use Rattle.reduced_costs.specs.Sizes.{IsSmallCopy, IsSmallProof, reduced_costs};

use crate::costs::reduced_cost;
use block_program::{Block, Zone};
use bp_theory::{Proof, Span};

/// Writes a block's reduced costs, by place, at the proof's scale.
pub fn fill_costs(costs: &mut Vec<i128>, block: &Block, proof: &Proof)
    requires room { vec_len costs.old ≡ length block.now.block.copies }
    requires few { length block.now.block.copies ≤ most_variables Large }
    requires copies { All IsSmallCopy block.now.block.copies }
    requires proof { IsSmallProof proof.now }
    ensures { costs.new.items ≡ reduced_costs proof.now block.now.block }
{
    for place in 0..costs.len() {
        costs[place] = reduced_cost(block, place as u32, proof);
    }
}

/// Writes a block's spans in a zone.
pub fn fill_spans(spans: &mut Vec<Span>, block: &Block, zone: &Zone)
    requires room { vec_len spans.old ≡ length block.now.block.copies }
    requires there { All (λ c. c.var < length zone.now) block.now.block.copies }
    ensures { spans.new.items ≡ spans_of zone.now block.now.block }
{
    let vars = block.vars();
    for place in 0..vars.len() {
        spans[place] = zone.span(vars[place]);
    }
}
