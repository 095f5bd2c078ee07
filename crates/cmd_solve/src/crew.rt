// A search by a crew, where one is ordered.
ghost use Rattle.std.specs.Prelude.{◌≡◌, ◌≤◌, ◌^◌, IfOk, IfSome, None, Some};
ghost use Rattle.branch_tree.specs.Loads.{IsLoaded};
ghost use Rattle.cert_text.specs.Outcomes.{IsWritable};
ghost use Rattle.bp_search.specs.Ends.{given_steps};
ghost use Rattle.search_outcome.specs.Endings.{EndsAt, StopsAt};
ghost use Rattle.cmd_solve.specs.Crews.{ordered_crew, IsSearchOf, events_with};

use crate::SolveRequest;
use block_program::Blocked;
use bp_crew::run_crew;
use bp_search::{Stopped, Watch};
use bp_theory::Items;
use branch_tree::{Loaded, Outcome};
use search_laws::{Event, Side};
use search_outcome::{search_alone, watch_alone};
use std::alloc::{AllocError, Global};

/// A crew as it is ordered: how many workers there are, and the seed of their order.
#[derive(Clone, Copy)]
pub struct CrewOrder {
    pub workers: u32,
    pub order: u64,
}

/// Where a search begins: at a tree that was loaded, or at the start; everywhere, or at a path and below it alone.
#[derive(Drop)]
pub struct Origin {
    pub from: Option<Loaded>,
    pub below: Option<Items<Side>>,
}

/// How a search ended, for how many steps it was one, how many its report tells, and what the workers of a crew did in it.
#[derive(Drop)]
pub struct Searched {
    pub outcome: Outcome,
    pub steps: Option<u64>,
    pub told: Option<u64>,
    pub events: Vec<Event>,
}

// The crew that is ordered by a number of workers or a seed of their order: one worker and the seed 0 where only the
// other is given, and none where neither is.
fn crew_ordered(workers: Option<u32>, order: Option<u64>) -> Option<CrewOrder>
    ensures { result ≡ ordered_crew workers order }
{
    match (workers, order) {
        (None, None) => None,
        (None, Some(order)) => Some(CrewOrder { workers: 1, order }),
        (Some(workers), None) => Some(CrewOrder { workers, order: 0 }),
        (Some(workers), Some(order)) => Some(CrewOrder { workers, order }),
    }
}

/// A search from a tree, or from the start, by a crew where one is ordered, and else watched where it is to be. Where there is a
/// path, it works at that path of the tree and below it alone, and is not watched. What it ends with goes on from the tree: only live
/// leaves have grown, its point is no dearer, and its dual bound is no less.
pub fn search_asked<W: Watch>(
    alloc: Global,
    b: &Blocked,
    origin: Origin,
    request: SolveRequest<'_>,
    watch: &mut W,
) -> Result<Searched, AllocError>
    requires loaded { IfSome origin.from (IsLoaded b.now) }
    requires few { IfSome request.steps (λ n. n ≤ 2 ^ 60) }
    requires some { IfSome request.workers (λ w. 1 ≤ w) }
    requires alone { IfSome origin.below (λ _. (request.workers ≡ None) × (request.order ≡ None)) }
    ensures ends { IfOk result (λ s. EndsAt b.now origin.from origin.below s.steps s.outcome s.told) }
    ensures stops { IfOk result (λ s. StopsAt request.entry.watched request.entry.steps s.steps) }
    ensures writable { IfOk result (λ s. IsWritable b.now s.outcome) }
    ensures events { IfOk result (λ s. IsSearchOf b.now origin.from s.steps
        (ordered_crew request.entry.workers request.entry.order) s.outcome s.events.items) }
{
    let crew = crew_ordered(request.workers, request.order);
    search_from(
        alloc,
        b,
        origin,
        request.steps,
        crew,
        request.watched,
        watch,
    )
}

// The same by a crew, where there is one.
fn search_from<W: Watch>(
    alloc: Global,
    b: &Blocked,
    origin: Origin,
    steps: Option<u64>,
    crew: Option<CrewOrder>,
    watched: bool,
    watch: &mut W,
) -> Result<Searched, AllocError>
    requires loaded { IfSome origin.from (IsLoaded b.now) }
    requires few { IfSome steps (λ n. n ≤ 2 ^ 60) }
    requires some { IfSome crew (λ c. 1 ≤ c.workers) }
    requires alone { IfSome origin.below (λ _. crew ≡ None) }
    ensures ends { IfOk result (λ s. EndsAt b.now origin.from origin.below s.steps s.outcome s.told) }
    ensures stops { IfOk result (λ s. StopsAt watched steps s.steps) }
    ensures writable { IfOk result (λ s. IsWritable b.now s.outcome) }
    ensures events { IfOk result (λ s. IsSearchOf b.now origin.from s.steps crew s.outcome s.events.items) }
{
    let Origin { from, below } = origin;
    match crew {
        None => search_lone(alloc, b, from, below, steps, watched, watch),
        Some(crew) => search_together(alloc, b, from, steps, crew),
    }
}

// The same without a crew: watched where it is to be and there is no path.
fn search_lone<W: Watch>(
    alloc: Global,
    b: &Blocked,
    from: Option<Loaded>,
    below: Option<Items<Side>>,
    steps: Option<u64>,
    watched: bool,
    watch: &mut W,
) -> Result<Searched, AllocError>
    requires loaded { IfSome from (IsLoaded b.now) }
    requires few { IfSome steps (λ n. n ≤ 2 ^ 60) }
    ensures ends { IfOk result (λ s. EndsAt b.now from below s.steps s.outcome s.told) }
    ensures stops { IfOk result (λ s. StopsAt watched steps s.steps) }
    ensures writable { IfOk result (λ s. IsWritable b.now s.outcome) }
    ensures events { IfOk result (λ s. IsSearchOf b.now from s.steps None s.outcome s.events.items) }
{
    if watched && below.is_none() {
        search_watching(alloc, b, from, steps, watch)
    } else {
        search_unwatched(alloc, b, from, below, steps)
    }
}

// A search from a tree, or from the start, without a crew and a watch.
fn search_unwatched(
    alloc: Global,
    b: &Blocked,
    from: Option<Loaded>,
    below: Option<Items<Side>>,
    steps: Option<u64>,
) -> Result<Searched, AllocError>
    requires loaded { IfSome from (IsLoaded b.now) }
    requires few { IfSome steps (λ n. n ≤ 2 ^ 60) }
    ensures ends { IfOk result (λ s. EndsAt b.now from below s.steps s.outcome s.told) }
    ensures same { IfOk result (λ s. s.steps ≡ steps) }
    ensures writable { IfOk result (λ s. IsWritable b.now s.outcome) }
    ensures events { IfOk result (λ s. IsSearchOf b.now from s.steps None s.outcome s.events.items) }
{
    let (outcome, told) = search_alone(alloc, b, from, below, steps)?;
    Ok(Searched {
        outcome,
        steps,
        told,
        events: Vec::new(alloc),
    })
}

// A search from a tree, or from the start, that is watched: as one for as many steps as it took.
fn search_watching<W: Watch>(
    alloc: Global,
    b: &Blocked,
    from: Option<Loaded>,
    steps: Option<u64>,
    watch: &mut W,
) -> Result<Searched, AllocError>
    requires loaded { IfSome from (IsLoaded b.now) }
    requires few { IfSome steps (λ n. n ≤ 2 ^ 60) }
    ensures ends { IfOk result (λ s. EndsAt b.now from None s.steps s.outcome s.told) }
    ensures few { IfOk result (λ s. given_steps s.steps ≤ given_steps steps) }
    ensures writable { IfOk result (λ s. IsWritable b.now s.outcome) }
    ensures events { IfOk result (λ s. IsSearchOf b.now from s.steps None s.outcome s.events.items) }
{
    let Stopped { outcome, taken } = watch_alone(alloc, b, from, steps, watch)?;
    Ok(Searched {
        outcome,
        steps: Some(taken),
        told: Some(taken),
        events: Vec::new(alloc),
    })
}

// A search from a tree, or from the start, by a crew.
fn search_together(
    alloc: Global,
    b: &Blocked,
    from: Option<Loaded>,
    steps: Option<u64>,
    crew: CrewOrder,
) -> Result<Searched, AllocError>
    requires loaded { IfSome from (IsLoaded b.now) }
    requires few { IfSome steps (λ n. n ≤ 2 ^ 60) }
    requires some { 1 ≤ crew.workers }
    ensures ends { IfOk result (λ s. EndsAt b.now from None s.steps s.outcome s.told) }
    ensures same { IfOk result (λ s. s.steps ≡ steps) }
    ensures writable { IfOk result (λ s. IsWritable b.now s.outcome) }
    ensures events { IfOk result (λ s. IsSearchOf b.now from s.steps (Some crew) s.outcome
        s.events.items) }
{
    // For the proof alone: `b` is formed.
    let _ = b.blocks();
    match from {
        None => {
            let start = Loaded::fresh(alloc, b)?;
            let (outcome, events) = run_crew(alloc, b, start, crew.workers, crew.order, steps)?;
            Ok(Searched {
                outcome,
                steps,
                told: steps,
                events,
            })
        }
        Some(start) => {
            let (outcome, events) = run_crew(alloc, b, start, crew.workers, crew.order, steps)?;
            Ok(Searched {
                outcome,
                steps,
                told: steps,
                events,
            })
        }
    }
}

/// The events that go with what is kept: none where nothing is.
pub fn kept_events(alloc: Global, kept: &Option<Outcome>, events: Vec<Event>) -> Vec<Event>
    ensures { result.items ≡ events_with kept.now events.items }
{
    match kept {
        None => Vec::new(alloc),
        Some(_) => events,
    }
}
