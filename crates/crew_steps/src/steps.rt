// The parts of a crew's steps.
ghost use Rattle.std.specs.Prelude.{◌≡◌, ◌+◌, ◌-◌, ◌<◌, ◌≤◌, ◌^◌, ◌∷◌, ◌++◌, [], OnOk, OnErr};
ghost use Rattle.std.specs.Vec.{vec_len, vec_capacity};
ghost use Rattle.bp_theory.specs.Trees.{steps};
ghost use Rattle.search_laws.specs.Crew.{kind_of_next};
ghost use Rattle.search_laws.specs.Grove.{certificate_tree};
ghost use Rattle.branch_tree.specs.Groves.{IsGroveOf};
ghost use Rattle.crew_steps.specs.Hands.{IsGrown, CanGrowHeld};

use crate::hand::Hand;
use block_program::Blocked;
use bp_search::grow;
use branch_tree::{Grove, Next};
use search_laws::{Event, Kind};
use std::alloc::{AllocError, Global};

/// The kind of a report, by what is done with the leaf.
pub fn kind_of(next: &Next) -> Kind
    ensures { result ≡ kind_of_next next.now }
{
    match next {
        Next::Shut(_) => Kind::Shut,
        Next::Fork { .. } => Kind::Fork,
    }
}

/// Adds an event where there is room for it. It takes no memory.
pub fn add(events: &mut Vec<Event>, event: Event)
    requires { vec_len events.old < vec_capacity events.old }
    ensures items { events.new.items ≡ events.old.items ++ event ∷ [] }
    ensures len { vec_len events.new ≡ vec_len events.old + 1 }
    ensures capacity { vec_capacity events.old ≤ vec_capacity events.new }
{
    if events.push(event).is_err() {
        unreachable!()
    }
}

/// Shuts or forks the leaf that a worker holds. Where memory is short the grove stays as it was.
pub fn grow_held(
    alloc: Global,
    b: &Blocked,
    grove: &mut Grove,
    hand: &Option<Hand>,
    next: Next,
) -> Result<(), AllocError>
    requires kept { IsGroveOf b.now grove.old }
    requires held { CanGrowHeld b.now.blocking grove.old hand.now next }
    requires few { steps (certificate_tree grove.old.tree) < 2 ^ 63 - 1 }
    ensures grown { OnOk result (IsGrown grove.old hand.now next grove.new) }
    ensures same { OnErr result (grove.new ≡ grove.old) }
{
    match hand {
        None => unreachable!(),
        Some(hand) => grow(alloc, b, grove, &hand.turn, next),
    }
}
