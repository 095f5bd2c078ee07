// A point that is told, and a node shut or forked by its bound and a known cost.
ghost use Rattle.std.specs.Prelude.{◌≡◌, ◌<ℤ◌, IfSome};
ghost use Rattle.branch_tree.specs.Turns.{IsTurn};
ghost use Rattle.search_laws.specs.GroveFacts.{best_cost};
ghost use Rattle.search_laws.specs.Verdicts.{IsNext, IsThorough, cheaper_cost};
ghost use Rattle.node_bound.specs.Shown.{IsShown, IsBetter, IsOpen};
ghost use Rattle.node_bound.specs.Openings.{IsStrong};

use crate::fork::place;
use crate::point::if_better;
use crate::shown::Shown;
use block_program::Blocked;
use bp_theory::Items;
use branch_tree::{Next, Turn};

/// A point, where one was found, if it is feasible and cheaper than a given cost.
pub fn better_point(b: &Blocked, found: Option<Vec<i64>>, best: Option<i64>) -> Option<Items<i64>>
    ensures { IfSome result (IsBetter b.now.named.program best) }
{
    match found {
        None => None,
        Some(point) => judged(b, Items::from_vec(point), best),
    }
}

// A point, if it is feasible and cheaper than a given cost.
fn judged(b: &Blocked, point: Items<i64>, best: Option<i64>) -> Option<Items<i64>>
    ensures { IfSome result (IsBetter b.now.named.program best) }
{
    match b.model().misses(point.as_slice()) {
        None => if_better(b, point, best),
        Some(_) => None,
    }
}

/// The cheaper of a point's cost and a given cost.
pub fn cheaper(b: &Blocked, point: &Option<Items<i64>>, best: Option<i64>) -> Option<i64>
    requires { IfSome point.now (IsBetter b.now.named.program best) }
    ensures { result ≡ cheaper_cost (best_cost b.now.named.program point.now) best }
{
    match point {
        None => best,
        Some(point) => Some(b.model().cost(point.as_slice())),
    }
}

/// What is done with a node of a zone with an open variable: it is shut where the bound reaches the known cost, and
/// else forked.
pub fn settled(
    b: &Blocked,
    turn: &Turn,
    shown: Shown,
    known: Option<i64>,
    var: u32,
    at: i64,
) -> Next
    requires turn { IsTurn b.now turn.now }
    requires open { IsOpen turn.now.zone var }
    requires shown { IsShown b.now.blocking turn.now.zone turn.now.bound shown.proof shown.bound }
    requires strong { IsStrong b.now.blocking turn.now.zone shown.bound }
    ensures thorough { IsThorough b.now.blocking turn.now.zone result }
    ensures next { IsNext b.now.blocking turn.now.depth turn.now.zone turn.now.bound known result }
{
    match known {
        Some(best) if shown.bound >= best => Next::Shut(shown.proof),
        _ => forked(b, turn, shown, known, var, at),
    }
}

// A node forked in a variable's span: at a number, or the nearest that leaves both parts one, and from depth 64 on at
// the middle.
fn forked(b: &Blocked, turn: &Turn, shown: Shown, known: Option<i64>, var: u32, at: i64) -> Next
    requires turn { IsTurn b.now turn.now }
    requires open { IsOpen turn.now.zone var }
    requires shown { IsShown b.now.blocking turn.now.zone turn.now.bound shown.proof shown.bound }
    requires strong { IsStrong b.now.blocking turn.now.zone shown.bound }
    requires below { IfSome known (λ z. shown.bound <ℤ z) }
    ensures thorough { IsThorough b.now.blocking turn.now.zone result }
    ensures next { IsNext b.now.blocking turn.now.depth turn.now.zone turn.now.bound known result }
{
    // For the proof alone: `b` and `known` stand in the contract.
    let _ = b;
    let _ = known;
    let span = turn.zone.span(var);
    Next::Fork {
        var,
        at: place(turn.depth, &span, at),
        proof: shown.proof,
        bound: shown.bound,
    }
}
