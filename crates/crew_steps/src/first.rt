// The free leaf that is next.
ghost use Rattle.std.specs.Prelude.{◌<◌, IfOk, is_some, count_by};
ghost use Rattle.search_laws.specs.Grove.{live_count};
ghost use Rattle.crew_steps.specs.Hands.{IsFirstFree};

use crate::hand::{Hand, is_held};
use branch_tree::{Grove, Turn};
use std::alloc::{AllocError, Global};

/// The live leaf that nobody holds, of least bound, and of those the one made first.
pub fn first_free(alloc: Global, grove: &Grove, hands: &[Option<Hand>]) -> Result<Turn, AllocError>
    requires { count_by is_some hands.now < live_count grove.now.tree }
    ensures { IfOk result (IsFirstFree grove.now hands.now) }
{
    for place in 0..grove.live() {
        let Some(turn) = grove.take_at(alloc, place)? else {
            unreachable!()
        };
        if !is_held(hands, turn.path.as_slice()) {
            return Ok(turn);
        }
    }
    unreachable!()
}
