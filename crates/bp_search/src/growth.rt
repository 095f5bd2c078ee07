// What a verdict does with a live leaf.
ghost use Rattle.std.specs.Prelude.{◌≡◌, ◌-◌, ◌<◌, ◌^◌, OnOk, OnErr};
ghost use Rattle.bp_theory.specs.Trees.{steps};
ghost use Rattle.search_laws.specs.Grove.{certificate_tree};
ghost use Rattle.search_laws.specs.Verdicts.{grown};
ghost use Rattle.branch_tree.specs.Groves.{IsStanding, IsGroveOf, IsLiveTurn};
ghost use Rattle.bp_search.specs.Searches.{CanGrow};

use block_program::Blocked;
use branch_tree::{Fork, Grove, Next, Turn};
use std::alloc::{AllocError, Global};

/// Shuts or forks a live leaf. Where memory is short the grove stays as it was.
pub fn grow(
    alloc: Global,
    b: &Blocked,
    grove: &mut Grove,
    turn: &Turn,
    next: Next,
) -> Result<(), AllocError>
    requires kept { IsGroveOf b.now grove.old }
    requires turn { IsLiveTurn grove.old turn.now }
    requires next { CanGrow b.now.blocking turn.now next }
    requires few { steps (certificate_tree grove.old.tree) < 2 ^ 63 - 1 }
    ensures tree { OnOk result (grove.new.tree ≡ grown grove.old.tree turn.now.path next) }
    ensures root { grove.new.root ≡ grove.old.root }
    ensures standing { IsStanding grove.new }
    ensures same { OnErr result (grove.new ≡ grove.old) }
{
    // For the proof alone: the grove stands.
    let _ = grove.count();
    match next {
        Next::Shut(proof) => {
            let proof = grove.shared(alloc, proof)?;
            grove.shut(b, turn, proof);
            Ok(())
        }
        Next::Fork {
            var,
            at,
            proof,
            bound,
        } => {
            let fork = Fork {
                var,
                at,
                proof,
                bound,
            };
            grove.fork(alloc, b, turn, fork)
        }
    }
}
