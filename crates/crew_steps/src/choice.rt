// What workers may do, and which of it is drawn.
ghost use Rattle.std.specs.Prelude.{◌≡◌, ◌<◌, ◌%◌, ◌^◌, ◌++◌, Some, IfOk, OnOk, length, slice_get};
ghost use Rattle.crew_steps.specs.Draws.{next_state, draw_of, choices_from, choices_of, drops_after};

use std::alloc::{AllocError, Global};

/// What a worker may do: take a free leaf, report on the leaf that it holds, or drop it.
#[derive(Clone, Copy)]
pub enum Task {
    Take,
    Report,
    Drop,
}

/// What one worker may do.
#[derive(Clone, Copy)]
pub struct Choice {
    /// The number of the worker, from 0.
    pub worker: u32,
    /// What it may do next.
    pub task: Task,
}

/// The state behind one more draw, modulo 2^64, by a linear congruential generator: the multiplier and the increment are
/// those of MMIX. (Knuth, The Art of Computer Programming, volume 2: Seminumerical algorithms, 1997.)
pub fn next_state(state: u64) -> u64
    ensures { result ≡ next_state state }
{
    state
        .wrapping_mul(6_364_136_223_846_793_005)
        .wrapping_add(1_442_695_040_888_963_407)
}

/// What is drawn of all that workers may do.
pub fn picked(
    alloc: Global,
    holds: &[bool],
    may_take: bool,
    may_drop: bool,
    state: u64,
) -> Result<Choice, AllocError>
    requires few { length holds.now < 2 ^ 32 }
    requires some { 0 < length (choices_from 0 holds.now may_take may_drop) }
    ensures { IfOk result (λ choice. slice_get (choices_from 0 holds.now may_take may_drop)
        (draw_of state % length (choices_from 0 holds.now may_take may_drop)) ≡ Some choice) }
{
    let list = choices(alloc, holds, may_take, may_drop)?;
    let place = (state >> 33) as usize % list.len();
    Ok(list[place])
}

// All that workers may do, in their order.
fn choices(
    alloc: Global,
    holds: &[bool],
    may_take: bool,
    may_drop: bool,
) -> Result<Vec<Choice>, AllocError>
    requires { length holds.now < 2 ^ 32 }
    ensures { IfOk result (λ list. list.items ≡ choices_from 0 holds.now may_take may_drop) }
{
    let mut list = Vec::new(alloc);
    let mut worker = 0;
    for held in holds {
        push_choices(&mut list, worker, *held, may_take, may_drop)?;
        worker += 1;
    }
    Ok(list)
}

// Adds what one worker may do.
fn push_choices(
    list: &mut Vec<Choice>,
    worker: u32,
    held: bool,
    may_take: bool,
    may_drop: bool,
) -> Result<(), AllocError>
    ensures { OnOk result (list.new.items ≡ list.old.items ++ choices_of worker held may_take
        may_drop) }
{
    if held {
        list.push(Choice {
            worker,
            task: Task::Report,
        })?;
        if may_drop {
            list.push(Choice {
                worker,
                task: Task::Drop,
            })?;
        }
        return Ok(());
    }
    if may_take {
        list.push(Choice {
            worker,
            task: Task::Take,
        })?;
    }
    Ok(())
}

/// How many drops came since the last report, behind a task.
pub fn drops_after(task: Task, drops: u32) -> u32
    requires { drops_after task drops < 2 ^ 32 }
    ensures { result ≡ drops_after task drops }
{
    match task {
        Task::Take => drops,
        Task::Report => 0,
        Task::Drop => drops + 1,
    }
}
