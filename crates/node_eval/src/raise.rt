// Bounds raised by the proofs of a node's multipliers.
ghost use Rattle.std.specs.Prelude.{◌≡◌, ◌<◌, ◌^◌, ◌≤ℤ◌, ℤ, unsigned_abs};
ghost use Rattle.block_pricers.specs.Forms.{forms_in};
ghost use Rattle.block_pricers.specs.Works.{forms_of};
ghost use Rattle.node_bound.specs.Shown.{IsShown};
ghost use Rattle.node_bound.specs.Openings.{IsReached};

use bp_theory::Proof;
use lagr_bound::{Bounded, Work, bound};
use node_bound::{Scaled, Shown, is_sound, raised_to};
use node_heuristics::{MOST_VISITS, NodeContext};
use pricing_problem::Cap;

/// A bound of a zone, or a greater one that two proofs show, the short one where it does as well.
pub fn strongest(node: NodeContext, work: &mut Work, shown: Shown, scaled: Scaled) -> Shown
    requires made_for { forms_of work.old ≡ forms_in node.program.now }
    requires size { unsigned_abs shown.bound < 2 ^ 62 }
    ensures shown { (least : ℤ) → IsShown node.entry.program.now.blocking node.entry.zone.now least
        shown.proof shown.bound → IsShown node.entry.program.now.blocking node.entry.zone.now least
        result.proof result.bound }
    ensures no_less { shown.bound ≤ℤ result.bound }
    ensures short { IsReached node.entry.program.now.blocking node.entry.zone.now result.bound
        scaled.short }
    ensures full { IsReached node.entry.program.now.blocking node.entry.zone.now result.bound
        scaled.full }
    ensures made_for { forms_of work.new ≡ forms_of work.old }
{
    let first = raised(node, work, shown, scaled.short);
    raised(node, work, first, scaled.full)
}

// A bound, or a greater one that another proof shows.
fn raised(node: NodeContext, work: &mut Work, shown: Shown, proof: Proof) -> Shown
    requires made_for { forms_of work.old ≡ forms_in node.program.now }
    requires size { unsigned_abs shown.bound < 2 ^ 62 }
    ensures shown { (least : ℤ) → IsShown node.entry.program.now.blocking node.entry.zone.now least
        shown.proof shown.bound → IsShown node.entry.program.now.blocking node.entry.zone.now least
        result.proof result.bound }
    ensures size { unsigned_abs result.bound < 2 ^ 62 }
    ensures no_less { shown.bound ≤ℤ result.bound }
    ensures reached { IsReached node.entry.program.now.blocking node.entry.zone.now result.bound
        proof }
    ensures made_for { forms_of work.new ≡ forms_of work.old }
{
    if proof.scale == 0 || !is_sound(node.program, &proof) {
        return shown;
    }
    match bound(
        work,
        node.program,
        node.classes,
        node.zone,
        &proof,
        Cap::At(MOST_VISITS),
    ) {
        Bounded::Whole(whole) => raised_to(node.program, node.zone, shown, proof, whole),
        Bounded::Endless => shown,
        Bounded::Cut(_) => shown,
    }
}
