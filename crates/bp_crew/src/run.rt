// A run of a crew, whose events are drawn from a seed.
ghost use Rattle.std.specs.Prelude.{◌≡◌, ◌↔◌, ◌-◌, ◌<◌, ◌≤◌, ◌^◌, ℕ, length, Some, IfOk, OnOk, IfSome, IsTrue};
ghost use Rattle.bp_theory.specs.Trees.{steps};
ghost use Rattle.search_laws.specs.Grove.{live_count, certificate_tree};
ghost use Rattle.node_memory.specs.Pools.{AreMadeFor};
ghost use Rattle.branch_tree.specs.Loads.{IsLoaded};
ghost use Rattle.cert_text.specs.Outcomes.{IsWritable};
ghost use Rattle.bp_search.specs.Ends.{EndsWithin, last_step};
ghost use Rattle.bp_search.specs.Resumed.{GoesOn};
ghost use Rattle.crew_steps.specs.declared.hand.Hand.{Hand};
ghost use Rattle.crew_steps.specs.States.{IsCrewOf, IsRight, hand_of};
ghost use Rattle.bp_crew.specs.Runs.{IsAllowed, IsDone, IsDrawnTo, IsLetGo, IsLetGoAt, IsCrewRun};

use block_program::Blocked;
use bp_search::MAX_STEPS;
use branch_tree::{Loaded, Outcome, Verdict};
use crew_steps::{Choice, Crew, Task, drops_after, next_state};
use node_eval::evaluate;
use node_heuristics::Pools;
use search_laws::Event;
use std::alloc::{AllocError, Global};

/// A run of a crew of so many workers from a loaded tree. Its events are drawn from a seed, one after another, while a leaf
/// is live and given steps are left; then each leaf that is still held is dropped. It ends as `resume` does, and gives the
/// events beside the outcome.
pub fn run_crew(
    alloc: Global,
    b: &Blocked,
    from: Loaded,
    workers: u32,
    order: u64,
    steps: Option<u64>,
) -> Result<(Outcome, Vec<Event>), AllocError>
    requires loaded { IsLoaded b.now from }
    requires some { 1 ≤ workers }
    requires few { IfSome steps (λ n. n ≤ 2 ^ 60) }
    ensures ends { IfOk result (λ r. EndsWithin b.now (last_step from.grove steps) r.0) }
    ensures goes_on { IfOk result (λ r. GoesOn b.now from.grove from.best r.0) }
    ensures writable { IfOk result (λ r. IsWritable b.now r.0) }
    ensures run { IfOk result (λ r. IsCrewRun b.now from workers order (last_step from.grove steps)
        r.0 r.1.items) }
{
    // For the proof alone: `b` is formed.
    let _ = b.blocks();
    let most = from.grove.count() + steps.unwrap_or(MAX_STEPS);
    let mut crew = Crew::make(alloc, b, from, workers)?;
    draw_events(alloc, b, &mut crew, order, most)?;
    let_go(b, &mut crew, workers);
    Ok(crew.conclude(b))
}

// Draws events until no leaf is live or no step is left.
fn draw_events(
    alloc: Global,
    b: &Blocked,
    crew: &mut Crew,
    order: u64,
    most: u64,
) -> Result<(), AllocError>
    requires kept { IsCrewOf b.now crew.old }
    requires some { 1 ≤ length crew.old.hands }
    requires not_many { length crew.old.hands < 2 ^ 32 }
    requires few { steps (certificate_tree crew.old.grove.tree) ≤ most }
    requires limit { most < 2 ^ 63 - 1 }
    ensures kept { OnOk result (IsCrewOf b.now crew.new) }
    ensures all { OnOk result (length crew.new.hands ≡ length crew.old.hands) }
    ensures drawn { OnOk result ((drops : ℕ) × (state : ℕ) ×
        IsDrawnTo b.now most order crew.old crew.new drops state) }
    ensures few { OnOk result (steps (certificate_tree crew.new.grove.tree) ≤ most) }
    ensures over { OnOk result (0 < live_count crew.new.grove.tree →
        steps (certificate_tree crew.new.grove.tree) ≡ most) }
{
    let mut pools = Pools::make(alloc, b)?;
    let mut state = order;
    let mut drops = 0;
    while goes_on(crew, most) {
        state = next_state(state);
        let choice = crew.drawn(alloc, drops, state)?;
        act(alloc, b, crew, choice, &mut pools)?;
        drops = drops_after(choice.task, drops);
    }
    Ok(())
}

// Whether a leaf is live and a step is left.
fn goes_on(crew: &Crew, most: u64) -> bool
    ensures { IsTrue result ↔ ((0 < live_count crew.now.grove.tree) ×
        (steps (certificate_tree crew.now.grove.tree) < most)) }
{
    crew.live() > 0 && crew.count() < most
}

// Does what is drawn.
fn act(
    alloc: Global,
    b: &Blocked,
    crew: &mut Crew,
    choice: Choice,
    pools: &mut Pools,
) -> Result<(), AllocError>
    requires kept { IsCrewOf b.now crew.old }
    requires may { IsAllowed crew.old choice }
    requires few { steps (certificate_tree crew.old.grove.tree) < 2 ^ 63 - 1 }
    requires made_for { AreMadeFor b.now pools.old }
    ensures made_for { OnOk result (AreMadeFor b.now pools.new) }
    ensures done { OnOk result (IsDone b.now crew.old choice crew.new) }
{
    match choice.task {
        Task::Take => crew.take(alloc, choice.worker),
        Task::Report => {
            let verdict = verdict_for(alloc, b, crew, choice.worker, pools)?;
            crew.report(alloc, b, choice.worker, verdict)
        }
        Task::Drop => {
            crew.drop_turn(choice.worker);
            Ok(())
        }
    }
}

// The verdict on the leaf that a worker holds, against the best cost that it was given.
fn verdict_for(
    alloc: Global,
    b: &Blocked,
    crew: &Crew,
    worker: u32,
    pools: &mut Pools,
) -> Result<Verdict, AllocError>
    requires kept { IsCrewOf b.now crew.now }
    requires held { (hand : Hand) × (hand_of crew.now worker ≡ Some hand) }
    requires made_for { AreMadeFor b.now pools.old }
    ensures made_for { AreMadeFor b.now pools.new }
    ensures right { IfOk result (IsRight b.now crew.now worker) }
{
    match crew.turn(worker) {
        None => unreachable!(),
        Some(turn) => evaluate(alloc, b, turn, crew.given(worker), pools),
    }
}

// Each leaf that is held is dropped, in the order of workers.
fn let_go(b: &Blocked, crew: &mut Crew, workers: u32)
    requires kept { IsCrewOf b.now crew.old }
    requires all { length crew.old.hands ≡ workers }
    ensures kept { IsCrewOf b.now crew.new }
    ensures gone { IsLetGo b.now crew.old crew.new }
{
    for worker in 0..workers {
        let_go_one(b, crew, worker);
    }
}

// A worker drops its leaf, where it holds one.
fn let_go_one(b: &Blocked, crew: &mut Crew, worker: u32)
    requires kept { IsCrewOf b.now crew.old }
    requires known { worker < length crew.old.hands }
    ensures gone { IsLetGoAt b.now crew.old worker crew.new }
{
    // For the proof alone: `b` stands in the contract.
    let _ = b;
    if crew.turn(worker).is_some() {
        crew.drop_turn(worker);
    }
}
