//! Generated assignment problems: the LP and DEC texts of a seed and a number of jobs, byte by byte.
#![tactic(auto)]

ghost use Rattle.std.specs.Prelude.{◌≡◌, ℕ, ◌+◌, ◌*◌, ◌<◌, ◌≤◌, ◌++◌, ◌%◌, ◌^◌, ◌/◌, IfOk, OnOk, decimal, codes, map, sum, All, length, List, slice_index, slice_range};
ghost use Rattle.std.specs.List.{range_with_len, flat_map};
ghost use Rattle.bp_gen.specs.Generator.{next_state, weight_at, cost_at, weights, costs, place, capacity, variable, plus_before, product, cost_terms, objective_line, choice, job_line, weight_terms, capacity_line, spaced, names_line, lp_text, block_lines, master_line, dec_text};

use itoa::Buffer;
use std::alloc::{AllocError, Global};

const AGENTS: usize = 4;

/// The state behind one more draw.
fn next(t: u64) -> u64
    ensures { result ≡ next_state t }
{
    t.wrapping_mul(6_364_136_223_846_793_005)
        .wrapping_add(1_442_695_040_888_963_407)
}

/// The weights and the costs of all agents' jobs, in order.
fn drawn(alloc: Global, seed: u64, count: usize) -> Result<(Vec<u64>, Vec<u64>), AllocError>
    requires { count ≤ 4096 }
    ensures weights { IfOk result (λ r. r.0.items ≡ map (weight_at seed) (range_with_len 0 count)) }
    ensures small { IfOk result (λ r. All (λ w. w ≤ 25) r.0.items) }
    ensures each_weight { IfOk result (λ r. length r.0.items ≡ count) }
    ensures each_cost { IfOk result (λ r. length r.1.items ≡ count) }
    ensures costs { IfOk result (λ r. r.1.items ≡ map (cost_at seed) (range_with_len 0 count)) }
{
    let mut weights = Vec::with_capacity(alloc, count)?;
    let mut costs = Vec::with_capacity(alloc, count)?;
    let mut state = seed;
    for _ in 0..count {
        let first = next(state);
        state = next(first);
        weights.push(5 + (first >> 33) % 21)?;
        costs.push(10 + (state >> 33) % 41)?;
    }
    Ok((weights, costs))
}

/// Adds a number's digits.
fn push_number(text: &mut Vec<u8>, number: u64) -> Result<(), AllocError>
    ensures { OnOk result (text.new.items ≡ text.old.items ++ decimal number) }
{
    let mut buffer = Buffer::new();
    text.extend_from_slice(buffer.format(number).as_bytes())
}

/// Adds a variable's name.
fn push_variable(text: &mut Vec<u8>, agent: usize, job: usize) -> Result<(), AllocError>
    requires agent { agent < 4 }
    requires job { job < 1024 }
    ensures { OnOk result (text.new.items ≡ text.old.items ++ variable agent job) }
{
    text.extend_from_slice(b"x")?;
    push_number(text, agent as u64 + 1)?;
    text.extend_from_slice(b"_")?;
    push_number(text, job as u64 + 1)
}

/// Adds a plus, but before the first term.
fn push_plus(text: &mut Vec<u8>, before: usize) -> Result<(), AllocError>
    ensures { OnOk result (text.new.items ≡ text.old.items ++ plus_before before) }
{
    if before > 0 {
        text.extend_from_slice(b" + ")?;
    }
    Ok(())
}

/// Adds a term behind so many others.
fn push_term(
    text: &mut Vec<u8>,
    before: usize,
    number: u64,
    agent: usize,
    job: usize,
) -> Result<(), AllocError>
    requires agent { agent < 4 }
    requires job { job < 1024 }
    ensures { OnOk result (text.new.items ≡ text.old.items ++
        (plus_before before ++ product number agent job)) }
{
    push_plus(text, before)?;
    push_number(text, number)?;
    text.extend_from_slice(b" ")?;
    push_variable(text, agent, job)
}

/// Adds the terms of an agent's costs.
fn push_costs(
    text: &mut Vec<u8>,
    costs: &[u64],
    size: usize,
    agent: usize,
) -> Result<(), AllocError>
    requires agent { agent < 4 }
    requires size { size ≤ 1024 }
    requires each { length costs.now ≡ 4 * size }
    ensures { OnOk result (text.new.items ≡ text.old.items ++ cost_terms costs.now size agent) }
{
    for job in 0..size {
        let place = agent * size + job;
        push_term(text, place, costs[place], agent, job)?;
    }
    Ok(())
}

/// Adds the costs of all agents.
fn push_objective(text: &mut Vec<u8>, costs: &[u64], size: usize) -> Result<(), AllocError>
    requires size { size ≤ 1024 }
    requires each { length costs.now ≡ 4 * size }
    ensures { OnOk result (text.new.items ≡ text.old.items ++ flat_map (cost_terms costs.now size)
        (range_with_len 0 4)) }
{
    for agent in 0..AGENTS {
        push_costs(text, costs, size, agent)?;
    }
    Ok(())
}

/// Adds a job's variable of each agent, with a plus between them.
fn push_choices(text: &mut Vec<u8>, job: usize) -> Result<(), AllocError>
    requires { job < 1024 }
    ensures { OnOk result (text.new.items ≡ text.old.items ++ flat_map (choice job)
        (range_with_len 0 4)) }
{
    for agent in 0..AGENTS {
        push_plus(text, agent)?;
        push_variable(text, agent, job)?;
    }
    Ok(())
}

/// Adds the row that gives a job to one agent.
fn push_job_line(text: &mut Vec<u8>, job: usize) -> Result<(), AllocError>
    requires { job < 1024 }
    ensures { OnOk result (text.new.items ≡ text.old.items ++ job_line job) }
{
    text.extend_from_slice(b" job")?;
    push_number(text, job as u64 + 1)?;
    text.extend_from_slice(b": ")?;
    push_choices(text, job)?;
    text.extend_from_slice(b" = 1\n")
}

/// Adds the rows of all jobs.
fn push_job_lines(text: &mut Vec<u8>, size: usize) -> Result<(), AllocError>
    requires { size ≤ 1024 }
    ensures { OnOk result (text.new.items ≡ text.old.items ++
        flat_map job_line (range_with_len 0 size)) }
{
    for job in 0..size {
        push_job_line(text, job)?;
    }
    Ok(())
}

/// Adds the terms of an agent's weights.
fn push_weights(
    text: &mut Vec<u8>,
    weights: &[u64],
    size: usize,
    agent: usize,
) -> Result<(), AllocError>
    requires agent { agent < 4 }
    requires size { size ≤ 1024 }
    requires each { length weights.now ≡ 4 * size }
    ensures { OnOk result (text.new.items ≡ text.old.items ++ weight_terms weights.now size agent) }
{
    for job in 0..size {
        push_term(text, job, weights[agent * size + job], agent, job)?;
    }
    Ok(())
}

/// Four fifths of a fourth of an agent's weights.
fn capacity_of(weights: &[u64], size: usize, agent: usize) -> u64
    requires agent { agent < 4 }
    requires size { size ≤ 1024 }
    requires each { length weights.now ≡ 4 * size }
    requires small { All (λ w. w ≤ 25) weights.now }
    ensures { result ≡ capacity weights.now size agent }
{
    sum_of(&weights[agent * size..agent * size + size]) / 5
}

/// The sum of weights.
fn sum_of(weights: &[u64]) -> u64
    requires { sum weights.now < 2 ^ 32 }
    ensures { result ≡ sum weights.now }
{
    weights.iter().sum()
}

/// Adds the row that keeps an agent's capacity.
fn push_capacity_line(
    text: &mut Vec<u8>,
    weights: &[u64],
    size: usize,
    agent: usize,
) -> Result<(), AllocError>
    requires agent { agent < 4 }
    requires size { size ≤ 1024 }
    requires each { length weights.now ≡ 4 * size }
    requires small { All (λ w. w ≤ 25) weights.now }
    ensures { OnOk result (text.new.items ≡ text.old.items ++ capacity_line weights.now
        size agent) }
{
    text.extend_from_slice(b" cap")?;
    push_number(text, agent as u64 + 1)?;
    text.extend_from_slice(b": ")?;
    push_weights(text, weights, size, agent)?;
    text.extend_from_slice(b" <= ")?;
    push_number(text, capacity_of(weights, size, agent))?;
    text.extend_from_slice(b"\n")
}

/// Adds the capacity rows of all agents.
fn push_capacity_lines(text: &mut Vec<u8>, weights: &[u64], size: usize) -> Result<(), AllocError>
    requires size { size ≤ 1024 }
    requires each { length weights.now ≡ 4 * size }
    requires small { All (λ w. w ≤ 25) weights.now }
    ensures { OnOk result (text.new.items ≡ text.old.items ++
        flat_map (capacity_line weights.now size) (range_with_len 0 4)) }
{
    for agent in 0..AGENTS {
        push_capacity_line(text, weights, size, agent)?;
    }
    Ok(())
}

/// Adds the names of an agent's variables, each behind a space.
fn push_names(text: &mut Vec<u8>, size: usize, agent: usize) -> Result<(), AllocError>
    requires agent { agent < 4 }
    requires size { size ≤ 1024 }
    ensures { OnOk result (text.new.items ≡ text.old.items ++ flat_map (spaced agent)
        (range_with_len 0 size)) }
{
    for job in 0..size {
        text.extend_from_slice(b" ")?;
        push_variable(text, agent, job)?;
    }
    Ok(())
}

/// Adds the line of an agent's variables.
fn push_names_line(text: &mut Vec<u8>, size: usize, agent: usize) -> Result<(), AllocError>
    requires agent { agent < 4 }
    requires size { size ≤ 1024 }
    ensures { OnOk result (text.new.items ≡ text.old.items ++ names_line size agent) }
{
    push_names(text, size, agent)?;
    text.extend_from_slice(b"\n")
}

/// Adds the lines of all agents' variables.
fn push_names_lines(text: &mut Vec<u8>, size: usize) -> Result<(), AllocError>
    requires { size ≤ 1024 }
    ensures { OnOk result (text.new.items ≡ text.old.items ++ flat_map (names_line size)
        (range_with_len 0 4)) }
{
    for agent in 0..AGENTS {
        push_names_line(text, size, agent)?;
    }
    Ok(())
}

/// The LP text of a generated assignment problem: 4 agents and `size` jobs, from 1 to 1,024, with weights, costs and
/// capacities drawn from a linear congruential generator that starts at `seed`.
pub fn make_lp(alloc: Global, seed: u64, size: u32) -> Result<Vec<u8>, AllocError>
    requires { size ≤ 1024 }
    ensures { IfOk result (λ text. text.items ≡ lp_text seed size) }
{
    let size = size as usize;
    let (weights, costs) = drawn(alloc, seed, AGENTS * size)?;
    let mut text = Vec::from_slice(alloc, b"Minimize\n obj: ")?;
    push_objective(&mut text, &costs, size)?;
    text.extend_from_slice(b"\nSubject To\n")?;
    push_job_lines(&mut text, size)?;
    push_capacity_lines(&mut text, &weights, size)?;
    text.extend_from_slice(b"Binaries\n")?;
    push_names_lines(&mut text, size)?;
    text.extend_from_slice(b"End\n")?;
    Ok(text)
}

/// Adds an agent's block.
fn push_block(text: &mut Vec<u8>, agent: usize) -> Result<(), AllocError>
    requires { agent < 4 }
    ensures { OnOk result (text.new.items ≡ text.old.items ++ block_lines agent) }
{
    text.extend_from_slice(b"BLOCK ")?;
    push_number(text, agent as u64 + 1)?;
    text.extend_from_slice(b"\ncap")?;
    push_number(text, agent as u64 + 1)?;
    text.extend_from_slice(b"\n")
}

/// Adds all agents' blocks.
fn push_blocks(text: &mut Vec<u8>) -> Result<(), AllocError>
    ensures { OnOk result (text.new.items ≡ text.old.items ++ flat_map block_lines
        (range_with_len 0 4)) }
{
    for agent in 0..AGENTS {
        push_block(text, agent)?;
    }
    Ok(())
}

/// Adds the names of the jobs' rows.
fn push_masters(text: &mut Vec<u8>, size: usize) -> Result<(), AllocError>
    requires { size ≤ 1024 }
    ensures { OnOk result (text.new.items ≡ text.old.items ++ flat_map master_line
        (range_with_len 0 size)) }
{
    for job in 0..size {
        text.extend_from_slice(b"job")?;
        push_number(text, job as u64 + 1)?;
        text.extend_from_slice(b"\n")?;
    }
    Ok(())
}

/// The DEC text of a generated assignment problem with `size` jobs, from 1 to 1,024: each agent's capacity is a block,
/// and the jobs are master rows.
pub fn make_dec(alloc: Global, size: u32) -> Result<Vec<u8>, AllocError>
    requires { size ≤ 1024 }
    ensures { IfOk result (λ text. text.items ≡ dec_text size) }
{
    let mut text = Vec::from_slice(alloc, b"NBLOCKS 4\n")?;
    push_blocks(&mut text)?;
    text.extend_from_slice(b"MASTERCONSS\n")?;
    push_masters(&mut text, size as usize)?;
    Ok(text)
}
