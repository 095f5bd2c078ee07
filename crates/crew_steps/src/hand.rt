// What workers hold.
ghost use Rattle.std.specs.Prelude.{◌≡◌, ◌↔◌, None, IsTrue, IfOk, replicate, map, is_some};
ghost use Rattle.crew_steps.specs.Hands.{IsHeld};

use branch_tree::{Side, Turn};
use std::alloc::{AllocError, Global};

/// What a worker holds: a live leaf as it was handed out, and the best cost of that moment, where there was one.
#[derive(Drop)]
pub struct Hand {
    /// The live leaf, with its zone and its bound.
    pub turn: Turn,
    /// The incumbent's cost when the leaf was handed out; none where there was no incumbent.
    pub given: Option<i64>,
}

/// So many workers that hold nothing.
pub fn no_hands(alloc: Global, workers: u32) -> Result<Vec<Option<Hand>>, AllocError>
    ensures { IfOk result (λ hands. hands.items ≡ replicate workers None) }
{
    let mut hands = Vec::with_capacity(alloc, workers as usize)?;
    for _ in 0..workers {
        hands.push(None)?;
    }
    Ok(hands)
}

/// Which workers hold a leaf.
pub fn holds_of(alloc: Global, hands: &[Option<Hand>]) -> Result<Vec<bool>, AllocError>
    ensures { IfOk result (λ holds. holds.items ≡ map is_some hands.now) }
{
    let mut holds = Vec::with_capacity(alloc, hands.len())?;
    for hand in hands {
        holds.push(hand.is_some())?;
    }
    Ok(holds)
}

/// Whether a worker holds the leaf at a path.
pub fn is_held(hands: &[Option<Hand>], path: &[Side]) -> bool
    ensures { IsTrue result ↔ IsHeld hands.now path.now }
{
    for hand in hands {
        if let Some(hand) = hand {
            if same_path(hand.turn.path.as_slice(), path) {
                return true;
            }
        }
    }
    false
}

// Whether two paths are one.
fn same_path(path: &[Side], other: &[Side]) -> bool
    ensures { IsTrue result ↔ (path.now ≡ other.now) }
{
    match (path, other) {
        ([], []) => true,
        ([Side::Low, rest @ ..], [Side::Low, others @ ..]) => same_path(rest, others),
        ([Side::High, rest @ ..], [Side::High, others @ ..]) => same_path(rest, others),
        _ => false,
    }
}
