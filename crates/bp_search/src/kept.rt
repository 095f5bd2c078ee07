// The cheapest point so far.
ghost use Rattle.std.specs.Prelude.{◌≡◌, IfSome};
ghost use Rattle.bp_theory.specs.Program.{IsFeasible};
ghost use Rattle.search_laws.specs.Verdicts.{better};
ghost use Rattle.bp_search.specs.Searches.{kept_point, kept_cost, as_pair, is_cheaper, HasItsCost};

use block_program::Blocked;
use bp_theory::Items;

/// The cheapest point so far, and its cost.
#[derive(Drop)]
pub struct Kept {
    pub point: Items<i64>,
    pub cost: i64,
}

/// A best point with its cost, as it is kept.
pub fn kept_from(best: Option<(Items<i64>, i64)>) -> Option<Kept>
    ensures { as_pair result ≡ best }
{
    match best {
        None => None,
        Some((point, cost)) => Some(Kept { point, cost }),
    }
}

/// The cost of the kept point, where there is one.
pub fn cost_of(best: &Option<Kept>) -> Option<i64>
    ensures { result ≡ kept_cost best.now }
{
    match best {
        None => None,
        Some(kept) => Some(kept.cost),
    }
}

/// Keeps a point where none is kept, or where it is cheaper than the kept one.
pub fn keep(b: &Blocked, best: &mut Option<Kept>, point: Option<Items<i64>>)
    requires feasible { IfSome point (IsFeasible b.now.named.program) }
    requires costs { HasItsCost b.now.named.program best.old }
    ensures point { kept_point best.new ≡ better b.now.named.program (kept_point best.old) point }
    ensures costs { HasItsCost b.now.named.program best.new }
{
    if let Some(point) = point {
        let cost = b.model().cost(point.as_slice());
        if is_cheaper(&cost, best) {
            *best = Some(Kept { point, cost });
        }
    }
}

// Whether a cost is below that of the kept point, or none is kept.
fn is_cheaper(cost: &i64, best: &Option<Kept>) -> bool
    ensures { result ≡ is_cheaper cost.now best.now }
{
    match best {
        None => true,
        Some(kept) => *cost < kept.cost,
    }
}
