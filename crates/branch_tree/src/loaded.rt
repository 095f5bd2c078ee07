// A tree from which a search goes on.
ghost use Rattle.std.specs.Prelude.{◌<◌, ◌^◌};
ghost use Rattle.bp_theory.specs.Trees.{steps};
ghost use Rattle.search_laws.specs.Grove.{certificate_tree};

use crate::grove::Grove;
use block_program::Blocked;
use bp_theory::Items;
use std::alloc::{AllocError, Global};

/// A tree from which a search goes on, with the best point so far and its cost, where there is one. It has fewer than
/// `2^62` splits and shut leaves. What it keeps of a program in blocks is the fact `IsLoaded` of the specifications.
#[derive(Drop)]
pub struct Loaded {
    pub grove: Grove,
    pub best: Option<(Items<i64>, i64)>,
    pub ghost few: { steps (certificate_tree grove.tree) < 2 ^ 62 },
}

impl Loaded {
    ghost use Rattle.std.specs.Prelude.{IfOk};
    ghost use Rattle.branch_tree.specs.Loads.{IsLoaded, IsFresh};

    /// The start of a search: the planted tree, and no best point.
    pub fn fresh(alloc: Global, b: &Blocked) -> Result<Loaded, AllocError>
        ensures fresh { IfOk result (IsFresh b.now) }
        ensures loaded { IfOk result (IsLoaded b.now) }
    {
        // For the proof alone: `b` is formed.
        let _ = b.blocks();
        let grove = Grove::plant(alloc, b)?;
        Ok(Loaded { grove, best: None })
    }
}
