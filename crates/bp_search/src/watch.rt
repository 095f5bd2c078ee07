// A search that is watched: between two steps it is asked whether the search goes on.
ghost use Rattle.std.specs.Prelude.{◌≡◌, ◌+◌, ◌-◌, ◌<◌, ◌≤◌, ◌^◌, IfOk, IfSome, OnOk, Some};
ghost use Rattle.bp_theory.specs.Trees.{steps};
ghost use Rattle.search_laws.specs.Grove.{certificate_tree};
ghost use Rattle.search_laws.specs.GroveFacts.{IsNoDearer};
ghost use Rattle.branch_tree.specs.Loads.{IsLoaded};
ghost use Rattle.cert_text.specs.Outcomes.{IsWritable};
ghost use Rattle.bp_search.specs.Ends.{EndsWithin, given_steps, last_step};
ghost use Rattle.bp_search.specs.Searches.{IsRunning, kept_cost};
ghost use Rattle.bp_search.specs.Resumed.{Extends, GoesOn};

use crate::MAX_STEPS;
use crate::ends::{conclude, remaining};
use crate::kept::{Kept, cost_of, kept_from};
use crate::steps::step;
use block_program::Blocked;
use branch_tree::{Grove, Loaded, Outcome};
use node_heuristics::Pools;
use std::alloc::{AllocError, Global};

/// Where a search stands between two steps. No contract speaks of it.
#[derive(Clone, Copy)]
pub struct Progress {
    /// How many steps were taken beside those of the tree that the search began with.
    pub steps: u64,
    /// How many leaves are live.
    pub leaves: u64,
    /// The least bound of the live leaves and the kept point's cost, where a leaf is live.
    pub bound: Option<i64>,
    /// The kept point's cost, where a point is kept.
    pub cost: Option<i64>,
    /// Whether the model maximises: costs and bounds are then those of the negated objective.
    pub maximises: bool,
}

/// What watches a search.
pub trait Watch {
    /// Whether the search goes on. It is asked before each step.
    fn goes_on(&mut self, progress: &Progress) -> bool;
}

/// A watch that lets every search go on.
#[derive(Clone, Copy)]
pub struct Unwatched;

impl Watch for Unwatched {
    fn goes_on(&mut self, _: &Progress) -> bool {
        true
    }
}

/// How a search ended that was watched, and how many steps it took.
#[derive(Drop)]
pub struct Stopped {
    /// The outcome.
    pub outcome: Outcome,
    /// How many steps were taken beside those of the tree that the search began with.
    pub taken: u64,
}

/// Searches as `search`, but ends too where the watch says so. The outcome is that of a search for as many steps as were
/// taken, which are no more than the given ones.
pub fn search_watched<W: Watch>(
    alloc: Global,
    b: &Blocked,
    steps: Option<u64>,
    watch: &mut W,
) -> Result<Stopped, AllocError>
    requires { IfSome steps (λ n. n ≤ 2 ^ 60) }
    ensures ends { IfOk result (λ s. EndsWithin b.now s.taken s.outcome) }
    ensures few { IfOk result (λ s. s.taken ≤ given_steps steps) }
    ensures writable { IfOk result (λ s. IsWritable b.now s.outcome) }
{
    let start = Loaded::fresh(alloc, b)?;
    resume_watched(alloc, b, start, steps, watch)
}

/// Goes on with a search as `resume`, but ends too where the watch says so. The outcome is that of a search for as many steps
/// as were taken beside those of the tree, which are no more than the given ones.
pub fn resume_watched<W: Watch>(
    alloc: Global,
    b: &Blocked,
    from: Loaded,
    steps: Option<u64>,
    watch: &mut W,
) -> Result<Stopped, AllocError>
    requires loaded { IsLoaded b.now from }
    requires few { IfSome steps (λ n. n ≤ 2 ^ 60) }
    ensures ends { IfOk result (λ s. EndsWithin b.now (last_step from.grove (Some s.taken)) s.outcome) }
    ensures few { IfOk result (λ s. s.taken ≤ given_steps steps) }
    ensures goes_on { IfOk result (λ s. GoesOn b.now from.grove from.best s.outcome) }
    ensures writable { IfOk result (λ s. IsWritable b.now s.outcome) }
{
    // For the proof alone: `b` is formed.
    let _ = b.blocks();
    let Loaded { mut grove, best } = from;
    let mut best = kept_from(best);
    let before = grove.count();
    let most = before + steps.unwrap_or(MAX_STEPS);
    take_steps_watched(alloc, b, &mut grove, &mut best, most, watch)?;
    let taken = grove.count() - before;
    let outcome = conclude(b, grove, best);
    Ok(Stopped { outcome, taken })
}

// Takes steps until so many are taken, no leaf is live, or the watch ends the search.
fn take_steps_watched<W: Watch>(
    alloc: Global,
    b: &Blocked,
    grove: &mut Grove,
    best: &mut Option<Kept>,
    most: u64,
    watch: &mut W,
) -> Result<(), AllocError>
    requires running { IsRunning b.now grove.old best.old }
    requires few { steps (certificate_tree grove.old.tree) ≤ most }
    requires limit { most < 2 ^ 63 - 1 }
    ensures running { OnOk result (IsRunning b.now grove.new best.new) }
    ensures more { OnOk result (steps (certificate_tree grove.old.tree) ≤
        steps (certificate_tree grove.new.tree)) }
    ensures few { OnOk result (steps (certificate_tree grove.new.tree) ≤ most) }
    ensures extends { OnOk result (Extends grove.old.tree grove.new.tree) }
    ensures cheaper { OnOk result (IsNoDearer (kept_cost best.new) (kept_cost best.old)) }
{
    let mut pools = Pools::make(alloc, b)?;
    let before = grove.count();
    while grove.count() < most {
        let progress = progress_of(b, grove, best, before);
        if !watch.goes_on(&progress) {
            return Ok(());
        }
        let Some(turn) = grove.take(alloc)? else {
            return Ok(());
        };
        step(alloc, b, grove, &turn, best, &mut pools)?;
    }
    Ok(())
}

// Where a search stands whose tree had so many steps before it.
fn progress_of(b: &Blocked, grove: &Grove, best: &Option<Kept>, before: u64) -> Progress {
    let leaves = grove.live();
    let bound = if leaves == 0 {
        None
    } else {
        Some(remaining(grove, best))
    };
    Progress {
        steps: grove.count().saturating_sub(before),
        leaves,
        bound,
        cost: cost_of(best),
        maximises: b.model().maximises(),
    }
}
