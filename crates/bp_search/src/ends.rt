// The outcomes of a search.
ghost use Rattle.std.specs.Prelude.{◌≡◌, ℕ, ◌<◌, ◌++◌, option_to_list};
ghost use Rattle.std.specs.Int.{int_min};
ghost use Rattle.search_laws.specs.Grove.{live_count, live_bounds};
ghost use Rattle.search_laws.specs.GroveFacts.{IsLeastOf};
ghost use Rattle.cert_text.specs.Outcomes.{IsWritable};
ghost use Rattle.bp_search.specs.Ends.{ended, IsStopped, HasStopped, EndsWithin, grove_in, point_of};
ghost use Rattle.bp_search.specs.Searches.{kept_point, kept_cost, as_pair, IsRunning};
ghost use Rattle.branch_tree.specs.declared.outcome.Outcome.TheVariants.{Budget};

use crate::kept::Kept;
use block_program::Blocked;
use branch_tree::{Grove, Outcome};

/// How a search ends whose steps are taken, or that has no live leaf.
pub fn conclude(b: &Blocked, grove: Grove, best: Option<Kept>) -> Outcome
    requires { IsRunning b.now grove best }
    ensures ends { (most : ℕ) → HasStopped most grove.tree → EndsWithin b.now most result }
    ensures writable { IsWritable b.now result }
    ensures grove { grove_in result ≡ grove }
    ensures point { point_of result ≡ kept_point best }
{
    // For the proof alone: `b` is formed.
    let _ = b.blocks();
    if grove.live() == 0 {
        ended(grove, best)
    } else {
        stopped(grove, best)
    }
}

// The outcome where no leaf is live.
fn ended(grove: Grove, best: Option<Kept>) -> Outcome
    ensures { result ≡ ended grove best }
{
    match best {
        None => Outcome::Infeasible { grove },
        Some(kept) => {
            let Kept { point, cost } = kept;
            Outcome::Optimal { grove, point, cost }
        }
    }
}

// The outcome where a leaf is live: its bound is the least of the live leaves' bounds and the kept point's cost.
fn stopped(grove: Grove, best: Option<Kept>) -> Outcome
    requires { 0 < live_count grove.tree }
    ensures { IsStopped grove best result }
{
    let bound = remaining(&grove, &best);
    budget(grove, best, &bound)
}

/// The least of the live leaves' bounds and the kept point's cost.
pub(crate) fn remaining(grove: &Grove, best: &Option<Kept>) -> i64
    requires { 0 < live_count grove.now.tree }
    ensures { IsLeastOf (live_bounds grove.now.tree ++ option_to_list (kept_cost best.now)) result }
{
    let least = grove.least();
    match best {
        None => least,
        Some(kept) => less(&least, &kept.cost),
    }
}

// A search that is stopped with this bound.
fn budget(grove: Grove, best: Option<Kept>, bound: &i64) -> Outcome
    ensures { result ≡ Budget grove (as_pair best) bound.now }
{
    match best {
        None => Outcome::Budget {
            grove,
            best: None,
            bound: *bound,
        },
        Some(kept) => {
            let Kept { point, cost } = kept;
            Outcome::Budget {
                grove,
                best: Some((point, cost)),
                bound: *bound,
            }
        }
    }
}

// The less of two numbers.
fn less(a: &i64, b: &i64) -> i64
    ensures { result ≡ int_min a.now b.now }
{
    if *b < *a { *b } else { *a }
}
