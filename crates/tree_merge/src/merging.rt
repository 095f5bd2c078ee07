// Two loaded trees made into one.
ghost use Rattle.std.specs.Prelude.{◌≡◌, ◌+◌, ◌<◌, ◌^◌, IfOk};
ghost use Rattle.search_laws.specs.Verdicts.{cheaper_cost};
ghost use Rattle.branch_tree.specs.Groves.{made};
ghost use Rattle.branch_tree.specs.Loads.{IsLoaded};
ghost use Rattle.open_nodes.specs.Trees.{tree_of};
ghost use Rattle.tree_merge.specs.Merging.{merged, shut_by};
ghost use Rattle.tree_merge.specs.Merges.{cost_in, cheaper_of, IsMergedOf};

use crate::nodes::{join, less_of};
use block_program::Blocked;
use bp_theory::Items;
use branch_tree::{Grove, Loaded, Tree};
use std::alloc::{AllocError, Global};

/// The two trees made into one, with the cheaper of their best points, the first's of equals. A shut leaf of either
/// stands; a live leaf gives way to what the other tree has there, whose live leaves of less bound take its proof and
/// bound; equal splits are merged part by part, and where the trees split a node differently the part of greater least
/// bound stays whole. A live leaf whose bound is no less than the cheaper point's cost is shut. A search may go on from
/// what is made.
pub fn merge(
    alloc: Global,
    b: &Blocked,
    first: Loaded,
    second: Loaded,
) -> Result<Loaded, AllocError>
    requires first { IsLoaded b.now first }
    requires second { IsLoaded b.now second }
    requires few { made first.grove.tree + made second.grove.tree < 2 ^ 62 }
    ensures merged { IfOk result (IsMergedOf first second) }
    ensures loaded { IfOk result (IsLoaded b.now) }
{
    // For the proof alone: `b` is formed.
    let _ = b.blocks();
    let Loaded { grove: left, best } = first;
    let Loaded {
        grove: right,
        best: other,
    } = second;
    let cost = less_of(&cost_in(&best), &cost_in(&other));
    let best = cheaper_of(best, other);
    let tree = joined(alloc, &cost, left, right)?;
    let grove = Grove::adopt(alloc, b, tree)?;
    Ok(Loaded { grove, best })
}

// The trees of two groves made into one. The groves are let go here, on one path: each form of a tree goes in its own way,
// and a caller would have to prove all of them wherever it ends.
fn joined(alloc: Global, cost: &Option<i64>, left: Grove, right: Grove) -> Result<Tree, AllocError>
    ensures { IfOk result (λ tree. tree_of tree ≡ shut_by cost.now (merged left.tree right.tree)) }
{
    join(alloc, cost, left.tree(), right.tree())
}

// The cost of a best point, where there is one.
fn cost_in(best: &Option<(Items<i64>, i64)>) -> Option<i64>
    ensures { result ≡ cost_in best.now }
{
    match best {
        None => None,
        Some(best) => Some(best.1),
    }
}

// The cheaper of two best points, the first of equal ones.
fn cheaper_of(
    best: Option<(Items<i64>, i64)>,
    other: Option<(Items<i64>, i64)>,
) -> Option<(Items<i64>, i64)>
    ensures { result ≡ cheaper_of best other }
{
    match best {
        None => other,
        Some(known) => match other {
            None => Some(known),
            Some(found) => {
                if found.1 < known.1 {
                    Some(found)
                } else {
                    Some(known)
                }
            }
        },
    }
}
