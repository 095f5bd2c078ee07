// A search without a crew.
ghost use Rattle.std.specs.Prelude.{◌≡◌, ◌≤◌, ◌^◌, IfOk, IfSome, Some, None};
ghost use Rattle.branch_tree.specs.Loads.{IsLoaded};
ghost use Rattle.cert_text.specs.Outcomes.{IsWritable};
ghost use Rattle.bp_search.specs.Ends.{given_steps};
ghost use Rattle.bp_search.specs.Below.{steps_in};
ghost use Rattle.bp_search.specs.Resumed.{GoesOn};
ghost use Rattle.search_outcome.specs.Endings.{EndsAt, EndsOn, GoesOnAt};

use block_program::Blocked;
use bp_search::{Stopped, Watch, resume, resume_below, resume_watched, search, search_watched};
use bp_theory::Items;
use branch_tree::{Loaded, Outcome};
use search_laws::Side;
use std::alloc::{AllocError, Global};

/// A search from a tree, or from the start, without a crew, and how many steps its report tells. Where there is a path, a search
/// from a tree works at that path and below it alone.
pub fn search_alone(
    alloc: Global,
    b: &Blocked,
    from: Option<Loaded>,
    below: Option<Items<Side>>,
    steps: Option<u64>,
) -> Result<(Outcome, Option<u64>), AllocError>
    requires loaded { IfSome from (IsLoaded b.now) }
    requires few { IfSome steps (λ n. n ≤ 2 ^ 60) }
    ensures ends { IfOk result (λ r. EndsAt b.now from below steps r.0 r.1) }
    ensures goes_on { IfOk result (λ r. GoesOnAt b.now from r.0) }
    ensures writable { IfOk result (λ r. IsWritable b.now r.0) }
{
    match from {
        None => {
            let outcome = search(alloc, b, steps)?;
            Ok((outcome, steps))
        }
        Some(from) => search_on(alloc, b, from, below, steps),
    }
}

// A search from a tree without a crew, and how many steps its report tells: the given ones, or at a path those that it took.
fn search_on(
    alloc: Global,
    b: &Blocked,
    from: Loaded,
    below: Option<Items<Side>>,
    steps: Option<u64>,
) -> Result<(Outcome, Option<u64>), AllocError>
    requires loaded { IsLoaded b.now from }
    requires few { IfSome steps (λ n. n ≤ 2 ^ 60) }
    ensures ends { IfOk result (λ r. EndsOn b.now from.grove.tree below steps r.0 r.1) }
    ensures goes_on { IfOk result (λ r. GoesOn b.now from.grove from.best r.0) }
    ensures writable { IfOk result (λ r. IsWritable b.now r.0) }
{
    match below {
        None => {
            let outcome = resume(alloc, b, from, steps)?;
            Ok((outcome, steps))
        }
        Some(path) => {
            let before = from.grove.count();
            let outcome = resume_below(alloc, b, from, path.as_slice(), steps)?;
            let taken = steps_in(&outcome) - before;
            Ok((outcome, Some(taken)))
        }
    }
}

/// A search from a tree, or from the start, without a crew, that a watch may end. It ends as one for as many steps as it took, which
/// are no more than the given ones.
pub fn watch_alone<W: Watch>(
    alloc: Global,
    b: &Blocked,
    from: Option<Loaded>,
    steps: Option<u64>,
    watch: &mut W,
) -> Result<Stopped, AllocError>
    requires loaded { IfSome from (IsLoaded b.now) }
    requires few { IfSome steps (λ n. n ≤ 2 ^ 60) }
    ensures ends { IfOk result (λ s. EndsAt b.now from None (Some s.taken) s.outcome (Some s.taken)) }
    ensures few { IfOk result (λ s. s.taken ≤ given_steps steps) }
    ensures goes_on { IfOk result (λ s. GoesOnAt b.now from s.outcome) }
    ensures writable { IfOk result (λ s. IsWritable b.now s.outcome) }
{
    match from {
        None => search_watched(alloc, b, steps, watch),
        Some(from) => resume_watched(alloc, b, from, steps, watch),
    }
}

// The steps of an outcome's tree.
fn steps_in(outcome: &Outcome) -> u64
    ensures { result ≡ steps_in outcome.now }
{
    match outcome {
        Outcome::Optimal { grove, .. } => grove.count(),
        Outcome::Infeasible { grove } => grove.count(),
        Outcome::Budget { grove, .. } => grove.count(),
    }
}
