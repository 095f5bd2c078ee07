// The leaf that a tree begins with, and the leaves that come next once leaves are forked.
ghost use Rattle.std.specs.Prelude.{◌≡◌, IfOk, IfSome};
ghost use Rattle.branch_tree.specs.Groves.{IsGroveOf, IsLiveTurn};
ghost use Rattle.branch_tree.specs.Turns.{IsTurn};

use crate::calls::told::Told;
use crate::calls::zones::is_sound;
use block_program::{Blocked, Zone};
use bp_theory::{Limits, Proof};
use branch_tree::{Fork, Grove, Turn, proof_copy};
use std::alloc::{AllocError, Global};

// The variable whose span is split.
const VAR: u32 = 0;

// A tree of so many splits and shut leaves is not forked.
const MOST_STEPS: u64 = 1 << 60;

/// The bound of the leaf that a program's tree begins with, the leaves that come next once it is forked at 99 and the
/// next one at 49, and the counts of the tree then.
pub fn tell_all(alloc: Global, b: &Blocked, told: &mut Told) -> Result<(), AllocError> {
    let mut grove = Grove::plant(alloc, b)?;
    tell_first(alloc, &grove, told)?;
    fork_next(alloc, b, &mut grove, 99, told)?;
    tell_next(alloc, &grove, "after a fork at 99", told)?;
    fork_next(alloc, b, &mut grove, 49, told)?;
    tell_next(alloc, &grove, "after a fork of that leaf at 49", told)?;
    tell_counts(grove.live(), grove.count(), told);
    Ok(())
}

// The bound of the leaf that is next.
fn tell_first(alloc: Global, grove: &Grove, told: &mut Told) -> Result<(), AllocError> {
    match grove.take(alloc)? {
        None => told.line("first leaf: not tried, no leaf is live"),
        Some(turn) => tell_bound(turn.bound, told),
    }
    Ok(())
}

// The bound of the first leaf.
fn tell_bound(bound: i64, told: &mut Told) {
    told.number("first leaf of tall.lp: the bound ", i128::from(bound));
    told.line("");
}

// The leaf that is next: its bound and the span of the variable that is split.
fn tell_next(alloc: Global, grove: &Grove, when: &str, told: &mut Told) -> Result<(), AllocError> {
    match grove.take(alloc)? {
        None => told.line("next leaf: not tried, no leaf is live"),
        Some(turn) => tell_leaf(turn.bound, &turn.zone, when, told),
    }
    Ok(())
}

// A leaf's bound and the span of the variable that is split.
fn tell_leaf(bound: i64, zone: &Zone, when: &str, told: &mut Told) {
    told.text("next leaf of tall.lp ");
    told.text(when);
    told.number(": the bound ", i128::from(bound));
    if (VAR as usize) < zone.spans().len() {
        let span = zone.span(VAR);
        told.number(" over the numbers ", i128::from(span.lo));
        told.number(" to ", i128::from(span.hi));
    }
    told.line("");
}

// How many leaves are live, and how many splits and shut leaves there are together.
fn tell_counts(live: u64, count: u64, told: &mut Told) {
    told.number("tree of tall.lp then: ", i128::from(live));
    told.number(" live leaves, ", i128::from(count));
    told.line(" splits and shut leaves");
}

// Forks the leaf that is next behind a number, with the leaf's own proof and bound.
fn fork_next(
    alloc: Global,
    b: &Blocked,
    grove: &mut Grove,
    at: i64,
    told: &mut Told,
) -> Result<(), AllocError>
    requires { IsGroveOf b.now grove.old }
    ensures { IsGroveOf b.now grove.new }
{
    let Some(turn) = next_turn(alloc, b, grove)? else {
        told.line("fork: not tried, no leaf is live");
        return Ok(());
    };
    fork_leaf(alloc, b, grove, &turn, at, told)
}

// The leaf that is next, of a grove of a program.
fn next_turn(alloc: Global, b: &Blocked, grove: &Grove) -> Result<Option<Turn>, AllocError>
    requires { IsGroveOf b.now grove.now }
    ensures live { IfOk result (λ next. IfSome next (IsLiveTurn grove.now)) }
    ensures turn { IfOk result (λ next. IfSome next (IsTurn b.now)) }
{
    // For the proof alone: `b` stands in the contract.
    let _ = b;
    grove.take(alloc)
}

// Forks a live leaf behind a number, where its zone, its depth and the count of the tree's steps allow it; a second
// time where memory was short, since the grove is then as it was.
fn fork_leaf(
    alloc: Global,
    b: &Blocked,
    grove: &mut Grove,
    turn: &Turn,
    at: i64,
    told: &mut Told,
) -> Result<(), AllocError>
    requires kept { IsGroveOf b.now grove.old }
    requires live { IsLiveTurn grove.old turn.now }
    requires turn { IsTurn b.now turn.now }
    ensures { IsGroveOf b.now grove.new }
{
    if !is_sound(&turn.zone, VAR, at) {
        told.line("fork: not tried, a part has no number");
        return Ok(());
    }
    if turn.depth >= Limits::Large.depth() || grove.count() >= MOST_STEPS {
        told.line("fork: not tried, the tree is too deep or has too many steps");
        return Ok(());
    }
    let proof = proof_copy(alloc, &turn.proof)?;
    let again = proof_copy(alloc, &turn.proof)?;
    match grove.fork(alloc, b, turn, fork_of(turn, at, proof)) {
        Ok(()) => Ok(()),
        Err(_) => grove.fork(alloc, b, turn, fork_of(turn, at, again)),
    }
}

// The fork of a turn's leaf behind a number, with a proof of the turn's bound.
fn fork_of(turn: &Turn, at: i64, proof: Proof) -> Fork
    ensures var { result.var ≡ 0 }
    ensures at { result.at ≡ at }
    ensures proof { result.proof ≡ proof }
    ensures bound { result.bound ≡ turn.now.bound }
{
    Fork {
        var: VAR,
        at,
        proof,
        bound: turn.bound,
    }
}
