// One step of a search: a leaf is shut or forked by its verdict.
ghost use Rattle.std.specs.Prelude.{◌≡◌, ◌+◌, ◌-◌, ◌<◌, ◌≤◌, ◌^◌, OnOk};
ghost use Rattle.bp_theory.specs.Trees.{steps};
ghost use Rattle.search_laws.specs.Grove.{live_count, certificate_tree};
ghost use Rattle.branch_tree.specs.Groves.{IsLiveTurn};
ghost use Rattle.node_memory.specs.Pools.{AreMadeFor};
ghost use Rattle.search_laws.specs.GroveFacts.{IsNoDearer};
ghost use Rattle.bp_search.specs.Searches.{IsRunning, kept_cost};
ghost use Rattle.bp_search.specs.Resumed.{Extends};
ghost use Rattle.bp_search.specs.Below.{IsAsBeside};

use crate::growth::grow;
use crate::kept::{Kept, cost_of, keep};
use block_program::Blocked;
use branch_tree::{Grove, Turn, Verdict};
use node_eval::evaluate;
use node_heuristics::Pools;
use std::alloc::{AllocError, Global};

/// Takes steps until so many are taken or no leaf is live.
pub fn take_steps(
    alloc: Global,
    b: &Blocked,
    grove: &mut Grove,
    best: &mut Option<Kept>,
    most: u64,
) -> Result<(), AllocError>
    requires running { IsRunning b.now grove.old best.old }
    requires few { steps (certificate_tree grove.old.tree) ≤ most }
    requires limit { most < 2 ^ 63 - 1 }
    ensures running { OnOk result (IsRunning b.now grove.new best.new) }
    ensures few { OnOk result (steps (certificate_tree grove.new.tree) ≤ most) }
    ensures spent { OnOk result (0 < live_count grove.new.tree →
        steps (certificate_tree grove.new.tree) ≡ most) }
    ensures extends { OnOk result (Extends grove.old.tree grove.new.tree) }
    ensures cheaper { OnOk result (IsNoDearer (kept_cost best.new) (kept_cost best.old)) }
{
    let mut pools = Pools::make(alloc, b)?;
    while grove.count() < most {
        let Some(turn) = grove.take(alloc)? else {
            return Ok(());
        };
        step(alloc, b, grove, &turn, best, &mut pools)?;
    }
    Ok(())
}

/// Evaluates a live leaf, shuts or forks it, and keeps the point that was found on the way.
pub fn step(
    alloc: Global,
    b: &Blocked,
    grove: &mut Grove,
    turn: &Turn,
    best: &mut Option<Kept>,
    pools: &mut Pools,
) -> Result<(), AllocError>
    requires made_for { AreMadeFor b.now pools.old }
    requires running { IsRunning b.now grove.old best.old }
    requires turn { IsLiveTurn grove.old turn.now }
    requires few { steps (certificate_tree grove.old.tree) < 2 ^ 63 - 1 }
    ensures running { OnOk result (IsRunning b.now grove.new best.new) }
    ensures made_for { AreMadeFor b.now pools.new }
    ensures one { OnOk result (steps (certificate_tree grove.new.tree) ≡
        steps (certificate_tree grove.old.tree) + 1) }
    ensures beside { OnOk result (IsAsBeside turn.now.path grove.old.tree grove.new.tree) }
    ensures extends { OnOk result (Extends grove.old.tree grove.new.tree) }
    ensures cheaper { OnOk result (IsNoDearer (kept_cost best.new) (kept_cost best.old)) }
{
    // For the proof alone: `b` is formed.
    let _ = b.blocks();
    let Verdict { point, next } = evaluate(alloc, b, turn, cost_of(best), pools)?;
    grow(alloc, b, grove, turn, next)?;
    keep(b, best, point);
    Ok(())
}
