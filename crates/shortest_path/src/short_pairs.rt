// The pass in 64 bits over a layer of pairs: two sums a node, and the lesser one kept.
ghost use Rattle.std.specs.Prelude.{◌≡◌, ◌<◌, ◌≤◌, ◌*◌, ◌^◌, ◌+ℤ◌, ℕ, All, FitsSigned, length, slice_set, vec_len, unsigned_abs};
ghost use Rattle.std.specs.Int.{w64};
ghost use Rattle.bp_theory.specs.Program.{reach};
ghost use Rattle.shortest_path.specs.Best.{cell_at, pick_at, IsBest};
ghost use Rattle.shortest_path.specs.Short.{widened, AreCells, AreReady, IsCostOf, lesser_cell, lesser_pick};
ghost use Rattle.shortest_path.specs.Pairs.{arcs_from, IsPairSafe};

use crate::pairs::Pair;
use crate::picks::Picks;
use crate::short::{FAR, either, lesser, own_of, with_own};
use bp_theory::Span;

/// The cost of a number that the zone's span doesn't have: with any cell it is more than what a way costs.
const SHUT: i64 = (1 << 62) - 1;

/// The most that a way costs by a number; what costs more is none.
const MOST_COST: i64 = 1 << 61;

/// The cost of the cheapest number of a label in a zone's span, if it has one, cut off at that of none.
fn cost_of(label: &Span, span: &Span, cost: &i64) -> i64
    requires { unsigned_abs cost.now * reach span.now ≤ 2 ^ 60 }
    ensures { IsCostOf label.now span.now cost.now result }
{
    let own = own_of(label, span, cost);
    lesser(&own, &SHUT)
}

/// The lesser of two costs, if it is that of a way.
fn least_of(zero: &i64, one: &i64) -> i64
    ensures { result ≡ lesser_cell zero.now one.now }
{
    let least = lesser(one, zero);
    if least > MOST_COST { FAR } else { least }
}

/// Which one of a node's two arcs costs less.
fn pick_of(node: usize, zero: &i64, one: &i64) -> u32
    requires { node < 2 ^ 31 }
    ensures { result ≡ lesser_pick node zero.now one.now }
{
    let first = 2 * (node as u32);
    either(*one < *zero, first + 1, first)
}

/// Writes the least cost at a node by its two targets, and which of them it is. There is no jump.
fn relax_pair(
    now: &mut Vec<i64>,
    picks: &mut Picks,
    node: usize,
    pair: &Pair,
    next: &Vec<i64>,
    zero: &i64,
    one: &i64,
)
    requires node { node < length picks.old }
    requires cell { node < vec_len now.old }
    requires few { node < 2 ^ 31 }
    requires zero_there { pair.now.zero < vec_len next.now }
    requires one_there { pair.now.one < vec_len next.now }
    requires zero { FitsSigned w64 (cell_at next.now.items pair.now.zero +ℤ zero.now) }
    requires one { FitsSigned w64 (cell_at next.now.items pair.now.one +ℤ one.now) }
    ensures cells { now.new.items ≡ slice_set now.old.items node
        (lesser_cell (cell_at next.now.items pair.now.zero +ℤ zero.now)
        (cell_at next.now.items pair.now.one +ℤ one.now)) }
    ensures picks { picks.new ≡ slice_set picks.old node
        (lesser_pick node (cell_at next.now.items pair.now.zero +ℤ zero.now)
        (cell_at next.now.items pair.now.one +ℤ one.now)) }
{
    let first = with_own(&next[pair.zero as usize], zero);
    let second = with_own(&next[pair.one as usize], one);
    now[node] = least_of(&first, &second);
    picks.put(node, pick_of(node, &first, &second));
}

/// The least costs of a layer's nodes from those of the next, by pairs.
pub fn relax_pairs(
    now: &mut Vec<i64>,
    picks: &mut Picks,
    pairs: &[Pair],
    next: &Vec<i64>,
    span: &Span,
    cost: &i64,
)
    requires nodes { length pairs.now ≤ length picks.old }
    requires few { length pairs.now < 2 ^ 31 }
    requires safe { All (IsPairSafe (length picks.old) (length picks.old)) pairs.now }
    requires cells { AreCells (length picks.old) now.old.items }
    requires next { AreCells (length picks.old) next.now.items }
    requires ready { AreReady next.now.items (arcs_from (length picks.old) 0 pairs.now) }
    requires cost { unsigned_abs cost.now * reach span.now ≤ 2 ^ 60 }
    ensures cells { AreCells (length picks.old) now.new.items }
    ensures picks { length picks.new ≡ length picks.old }
    ensures best { (node : ℕ) → node < length pairs.now →
        IsBest (arcs_from (length picks.old) 0 pairs.now) (widened next.now.items) span.now
        cost.now (length (arcs_from (length picks.old) 0 pairs.now)) node
        (cell_at (widened now.new.items) node) (pick_at picks.new node) }
{
    let zero = cost_of(&Span { lo: 0, hi: 0 }, span, cost);
    let one = cost_of(&Span { lo: 1, hi: 1 }, span, cost);
    for node in 0..pairs.len() {
        relax_pair(now, picks, node, &pairs[node], next, &zero, &one);
    }
}
