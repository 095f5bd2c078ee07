// A search at a path and below it alone.
ghost use Rattle.std.specs.Prelude.{◌≡◌, ◌⊎◌, ◌<◌, ◌≤◌, ◌-◌, ◌^◌, IfOk, IfSome, OnOk};
ghost use Rattle.bp_theory.specs.Trees.{steps};
ghost use Rattle.search_laws.specs.Grove.{certificate_tree};
ghost use Rattle.branch_tree.specs.Loads.{IsLoaded};
ghost use Rattle.branch_tree.specs.Groves.{NoneLiveBelow};
ghost use Rattle.cert_text.specs.Outcomes.{IsWritable};
ghost use Rattle.search_laws.specs.GroveFacts.{IsNoDearer};
ghost use Rattle.bp_search.specs.Searches.{IsRunning, kept_cost};
ghost use Rattle.bp_search.specs.Resumed.{Extends, GoesOn};
ghost use Rattle.bp_search.specs.Below.{EndsBelow, IsAsBeside};

use crate::MAX_STEPS;
use crate::ends::conclude;
use crate::kept::{Kept, kept_from};
use crate::steps::step;
use block_program::Blocked;
use branch_tree::{Grove, Loaded, Outcome};
use node_heuristics::Pools;
use search_laws::Side;
use std::alloc::{AllocError, Global};

/// Goes on with a search as `resume`, but only at a path and below it: what is not there stands as it was, live leaves
/// too. It ends when the given steps are taken or no leaf there is live. The outcome is that of the whole tree:
/// `Optimal` or `Infeasible` exactly where no leaf at all is live, and else `Budget` with the least bound of all live
/// leaves and the best point's cost.
pub fn resume_below(
    alloc: Global,
    b: &Blocked,
    from: Loaded,
    below: &[Side],
    steps: Option<u64>,
) -> Result<Outcome, AllocError>
    requires loaded { IsLoaded b.now from }
    requires few { IfSome steps (λ n. n ≤ 2 ^ 60) }
    ensures ends { IfOk result (EndsBelow b.now from.grove.tree below.now steps) }
    ensures goes_on { IfOk result (GoesOn b.now from.grove from.best) }
    ensures writable { IfOk result (IsWritable b.now) }
{
    // For the proof alone: `b` is formed.
    let _ = b.blocks();
    let Loaded { mut grove, best } = from;
    let mut best = kept_from(best);
    let last = grove.count() + steps.unwrap_or(MAX_STEPS);
    take_steps_below(alloc, b, &mut grove, &mut best, below, last)?;
    Ok(conclude(b, grove, best))
}

// Takes steps at a path and below it alone, until the whole tree has so many or no leaf there is live.
fn take_steps_below(
    alloc: Global,
    b: &Blocked,
    grove: &mut Grove,
    best: &mut Option<Kept>,
    below: &[Side],
    last: u64,
) -> Result<(), AllocError>
    requires running { IsRunning b.now grove.old best.old }
    requires few { steps (certificate_tree grove.old.tree) ≤ last }
    requires limit { last < 2 ^ 63 - 1 }
    ensures running { OnOk result (IsRunning b.now grove.new best.new) }
    ensures more { OnOk result (steps (certificate_tree grove.old.tree) ≤
        steps (certificate_tree grove.new.tree)) }
    ensures few { OnOk result (steps (certificate_tree grove.new.tree) ≤ last) }
    ensures done { OnOk result (NoneLiveBelow grove.new.tree below.now ⊎
        (steps (certificate_tree grove.new.tree) ≡ last)) }
    ensures beside { OnOk result (IsAsBeside below.now grove.old.tree grove.new.tree) }
    ensures extends { OnOk result (Extends grove.old.tree grove.new.tree) }
    ensures cheaper { OnOk result (IsNoDearer (kept_cost best.new) (kept_cost best.old)) }
{
    let mut pools = Pools::make(alloc, b)?;
    while grove.count() < last {
        let Some(turn) = grove.take_below(alloc, below)? else {
            return Ok(());
        };
        step(alloc, b, grove, &turn, best, &mut pools)?;
    }
    Ok(())
}
