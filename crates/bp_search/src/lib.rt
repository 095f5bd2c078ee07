//! Branch and price: the open node of least dual bound is evaluated, and shut or branched on, until no node is open or the
//! given steps are taken. The incumbent and the tree at the end are the certificate of what is claimed. (Land and Doig, An automatic
//! method of solving discrete programming problems, 1960; Barnhart, Johnson, Nemhauser, Savelsbergh and Vance, Branch-and-price: column
//! generation for solving huge integer programs, 1998.)
#![tactic(auto)]

mod below;
mod ends;
mod growth;
mod kept;
mod steps;
mod watch;

ghost use Rattle.std.specs.Prelude.{◌≤◌, ◌^◌, IfOk, IfSome};
ghost use Rattle.branch_tree.specs.Loads.{IsLoaded};
ghost use Rattle.cert_text.specs.Outcomes.{IsWritable};
ghost use Rattle.bp_search.specs.Ends.{EndsWithin, IsOutcome, last_step};
ghost use Rattle.bp_search.specs.Resumed.{GoesOn};

use crate::steps::take_steps;
pub use below::resume_below;
use block_program::Blocked;
use branch_tree::{Loaded, Outcome};
pub use cert_load::{LoadFault, load, with_cuts_of};
pub use ends::conclude;
pub use growth::grow;
pub use kept::{Kept, cost_of, keep, kept_from};
use std::alloc::{AllocError, Global};
pub use watch::{Progress, Stopped, Unwatched, Watch, resume_watched, search_watched};

/// The greatest number of steps, and that where none is given.
pub const MAX_STEPS: u64 = 1 << 60;

/// Searches for a best point. A step shuts or forks one leaf, and a leaf is taken only while fewer than the given steps
/// have been taken. The outcome is `Optimal` or `Infeasible` exactly where no leaf is live, the first where a point is
/// kept, and `Budget` exactly where all steps are taken and a leaf is live. Each outcome may be written as a
/// certificate. The only error is want of memory.
///
/// Vanderbeck, Branching in branch-and-price: a generic scheme, 2011; Desaulniers, Desrosiers and Solomon, Column
/// generation, 2005.
pub fn search(alloc: Global, b: &Blocked, steps: Option<u64>) -> Result<Outcome, AllocError>
    requires { IfSome steps (λ n. n ≤ 2 ^ 60) }
    ensures ends { IfOk result (IsOutcome b.now steps) }
    ensures writable { IfOk result (IsWritable b.now) }
{
    let start = Loaded::fresh(alloc, b)?;
    resume(alloc, b, start, steps)
}

/// Goes on with a search from a tree and its incumbent. The tree that it ends with extends that tree: splits and shut leaves
/// stand as they were, and only live leaves grow. Its point is no dearer than the incumbent, and its dual bound is no less. The given steps
/// are taken beside those of the tree; else it is as `search`. What a search learns beside its tree, as columns and pricers, is
/// made anew.
pub fn resume(
    alloc: Global,
    b: &Blocked,
    from: Loaded,
    steps: Option<u64>,
) -> Result<Outcome, AllocError>
    requires loaded { IsLoaded b.now from }
    requires few { IfSome steps (λ n. n ≤ 2 ^ 60) }
    ensures ends { IfOk result (EndsWithin b.now (last_step from.grove steps)) }
    ensures goes_on { IfOk result (GoesOn b.now from.grove from.best) }
    ensures writable { IfOk result (IsWritable b.now) }
{
    // For the proof alone: `b` is formed.
    let _ = b.blocks();
    let Loaded { mut grove, best } = from;
    let mut best = kept_from(best);
    let most = grove.count() + steps.unwrap_or(MAX_STEPS);
    take_steps(alloc, b, &mut grove, &mut best, most)?;
    Ok(conclude(b, grove, best))
}
