// A search and a crew: each call a second time where memory was short.
ghost use Rattle.std.specs.Prelude.{◌≤◌, length};

use crate::calls::told::Told;
use block_program::Blocked;
use bp_crew::{Crew, Event, run_crew};
use bp_search::resume;
use branch_tree::{Loaded, Outcome};
use std::alloc::{AllocError, Global};

/// How a search ends, how one by a crew of two workers does, and what a crew has listed whose first worker took a leaf.
pub fn tell_all(alloc: Global, b: &Blocked, told: &mut Told) -> Result<(), AllocError> {
    tell_search(alloc, b, told)?;
    tell_run(alloc, b, told)?;
    tell_take(alloc, b, told)
}

// How a search ends.
fn tell_search(alloc: Global, b: &Blocked, told: &mut Told) -> Result<(), AllocError> {
    let ended = searched(alloc, b)?;
    told.text("search of two.lp: ");
    tell_cost(&ended, told);
    told.line("");
    Ok(())
}

// How a search ends, begun a second time where memory was short.
fn searched(alloc: Global, b: &Blocked) -> Result<Outcome, AllocError> {
    match searched_once(alloc, b) {
        Ok(ended) => Ok(ended),
        Err(_) => searched_once(alloc, b),
    }
}

// How a search ends that goes on from the start.
fn searched_once(alloc: Global, b: &Blocked) -> Result<Outcome, AllocError> {
    let from = Loaded::fresh(alloc, b)?;
    resume(alloc, b, from, None)
}

// How a crew's search ends, and how many events it lists.
fn tell_run(alloc: Global, b: &Blocked, told: &mut Told) -> Result<(), AllocError> {
    let (ended, events) = crew_run(alloc, b)?;
    told.text("search of two.lp by a crew: ");
    tell_cost(&ended, told);
    told.number(", ", i128::from(events.len() as u64));
    told.line(" events");
    Ok(())
}

// How a crew's search ends, with its events, begun a second time where memory was short.
fn crew_run(alloc: Global, b: &Blocked) -> Result<(Outcome, Vec<Event>), AllocError> {
    match crew_run_once(alloc, b) {
        Ok(ended) => Ok(ended),
        Err(_) => crew_run_once(alloc, b),
    }
}

// How the search of a crew of two workers ends that goes on from the start, with its events, drawn from the seed 0.
fn crew_run_once(alloc: Global, b: &Blocked) -> Result<(Outcome, Vec<Event>), AllocError> {
    let from = Loaded::fresh(alloc, b)?;
    run_crew(alloc, b, from, 2, 0, None)
}

// The cost of an outcome's best point.
fn tell_cost(ended: &Outcome, told: &mut Told) {
    match ended {
        Outcome::Optimal { cost, .. } => told.number("the least cost ", i128::from(*cost)),
        _ => told.text("no best point"),
    }
}

// What a crew of two workers has listed, and how many leaves are free, once the first worker took a leaf.
fn tell_take(alloc: Global, b: &Blocked, told: &mut Told) -> Result<(), AllocError> {
    let from = Loaded::fresh(alloc, b)?;
    let mut crew = Crew::make(alloc, b, from, 2)?;
    take(alloc, &mut crew)?;
    told.number(
        "crew of two.lp once a leaf is taken: ",
        i128::from(crew.events().len() as u64),
    );
    told.number(" event, ", i128::from(crew.free()));
    told.line(" free leaves");
    Ok(())
}

// The first worker takes a leaf, where it holds none and one is free; a second time where memory was short, since the crew
// is then as it was.
fn take(alloc: Global, crew: &mut Crew) -> Result<(), AllocError>
    requires { 1 ≤ length crew.old.hands }
{
    if crew.turn(0).is_some() || crew.free() < 1 {
        return Ok(());
    }
    match crew.take(alloc, 0) {
        Ok(()) => Ok(()),
        Err(_) => crew.take(alloc, 0),
    }
}
