// What a pricer answers.
ghost use Rattle.pricing_problem.specs.Form.{AreOf, IsForm, IsPriceable};

use crate::problem::{Problem, firsts, problem_block};
use block_program::Block;
use bp_theory::Span;
use knap_price::KnapPricer;
use pricing_problem::{Cap, Priced, Pricer, is_form, is_priceable};
use search_price::SearchPricer;
use state_price::StatePricer;
use std::alloc::{AllocError, Global};

/// Which pricer is asked.
#[derive(Clone, Copy)]
pub enum Kind {
    Table,
    Graph,
    Search,
}

/// What a pricer answers: the block or the zone is none that it may be asked, it declines the block, or an answer with the
/// point of the first four variables, which has 0 for each that is not there, and where there is no least cost.
#[derive(Clone, Copy)]
pub enum Found {
    Unfit,
    Declined,
    Answer(Priced, [i64; 4]),
}

/// What a pricer answers to a problem.
pub fn asked(alloc: Global, kind: Kind, problem: &Problem, cap: Cap) -> Result<Found, AllocError> {
    let zone = firsts(&problem.zone, problem.vars);
    let costs = firsts(&problem.costs, problem.vars);
    match problem_block(alloc, problem)? {
        Some(block) => ask(alloc, kind, &block, zone, costs, cap),
        None => Ok(Found::Unfit),
    }
}

/// What a pricer answers for a block in a zone.
pub fn ask(
    alloc: Global,
    kind: Kind,
    block: &Block,
    zone: &[Span],
    costs: &[i128],
    cap: Cap,
) -> Result<Found, AllocError> {
    if !is_form(block.rows(), block.spans()) || !is_priceable(block.spans(), zone, costs) {
        return Ok(Found::Unfit);
    }
    match kind {
        Kind::Table => by_table(alloc, block, zone, costs, cap),
        Kind::Graph => by_graph(alloc, block, zone, costs, cap),
        Kind::Search => by_search(alloc, block, zone, costs, cap),
    }
}

// What a table answers.
fn by_table(
    alloc: Global,
    block: &Block,
    zone: &[Span],
    costs: &[i128],
    cap: Cap,
) -> Result<Found, AllocError>
    requires form { IsForm block.now.block.rows block.now.spans }
    requires priceable { IsPriceable block.now.spans zone.now costs.now }
{
    if !KnapPricer::takes(block) {
        return Ok(Found::Declined);
    }
    let mut pricer = KnapPricer::make(alloc, block)?;
    let answer = pricer.price(block, zone, costs, cap);
    Ok(with_point(answer, pricer.point(), zone.len()))
}

// What a graph of states answers.
fn by_graph(
    alloc: Global,
    block: &Block,
    zone: &[Span],
    costs: &[i128],
    cap: Cap,
) -> Result<Found, AllocError>
    requires form { IsForm block.now.block.rows block.now.spans }
    requires priceable { IsPriceable block.now.spans zone.now costs.now }
{
    let Some(mut pricer) = StatePricer::make(alloc, block)? else {
        return Ok(Found::Declined);
    };
    let answer = pricer.price(block, zone, costs, cap);
    Ok(with_point(answer, pricer.point(), zone.len()))
}

// What a search answers.
fn by_search(
    alloc: Global,
    block: &Block,
    zone: &[Span],
    costs: &[i128],
    cap: Cap,
) -> Result<Found, AllocError>
    requires form { IsForm block.now.block.rows block.now.spans }
    requires priceable { IsPriceable block.now.spans zone.now costs.now }
{
    let mut pricer = SearchPricer::make(alloc, block)?;
    let answer = pricer.price(block, zone, costs, cap);
    Ok(with_point(answer, pricer.point(), zone.len()))
}

// An answer with its point, where that has a number for each variable.
fn with_point(answer: Priced, point: &[i64], vars: usize) -> Found {
    if point.len() != vars {
        return Found::Unfit;
    }
    let first = match answer {
        Priced::Least(_) => [at(point, 0), at(point, 1), at(point, 2), at(point, 3)],
        Priced::Nothing | Priced::Cut => [0; 4],
    };
    Found::Answer(answer, first)
}

// The number at a place, 0 where there is none.
fn at(numbers: &[i64], place: usize) -> i64 {
    match numbers.get(place) {
        Some(number) => *number,
        None => 0,
    }
}
