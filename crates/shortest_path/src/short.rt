// The pass in 64 bits, where the costs of all points are short.
ghost use Rattle.std.specs.Prelude.{◌≡◌, ◌<◌, ◌<ℤ◌, ◌↔◌, IsTrue, ◌≤◌, ◌+◌, ◌-◌, ◌*◌, ◌*ℤ◌, ◌+ℤ◌, ◌^◌, ℕ, pos, min, All, FitsSigned, length, slice_set, vec_len, unsigned_abs, if◌then◌else◌, int_lt};
ghost use Rattle.std.specs.Bool.{OnTrue};
ghost use Rattle.std.specs.Int.{w64, int_min};
ghost use Rattle.bp_theory.specs.Program.{reach};
ghost use Rattle.pricing_problem.specs.Form.{cost_size};
ghost use Rattle.layer_graph.specs.Graphs.{IsArcSafe, IsStepSafe};
ghost use Rattle.shortest_path.specs.Best.{no_way, cell_at, pick_at, chosen_number, IsBest, AreLeast};
ghost use Rattle.shortest_path.specs.Short.{far, widened, AreCells, IsReady, AreReady, IsOwn, IsTotal};
ghost use Rattle.shortest_path.specs.Pairs.{arcs_with, steps_with, cells_of, pairs_at, IsPairSafe, AreLinked};
ghost use Rattle.shortest_path.specs.Rooms.{HasRoom};

use crate::pairs::{Pair, pairs_at};
use crate::pass::{Work, is_open, number_of};
use crate::picks::Picks;
use crate::short_pairs::relax_pairs;
use bp_theory::{Items, Span};
use layer_graph::{Arc, Graph};

/// The cell of a node without a way to the end.
pub const FAR: i64 = 1 << 62;

/// The cost by a label without a number of the zone's span: with a cell of a way it is no less than that of no way.
const CLOSED: i64 = 3 << 61;

/// The greatest size of costs that the pass in 64 bits may have.
const MOST_SIZE: u128 = 1 << 60;

/// The greatest magnitude of a span's numbers, at least 1.
fn reach_of(span: &Span) -> u64
    ensures { result ≡ reach span.now }
{
    span.lo.unsigned_abs().max(span.hi.unsigned_abs()).max(1)
}

/// The size of costs in a zone, cut off at the greatest number of 128 bits.
fn size_of(zone: &[Span], costs: &[i128]) -> u128
    requires { length costs.now ≡ length zone.now }
    ensures { result ≡ min (cost_size zone.now costs.now) (2 ^ 128 - 1) }
{
    let mut sum: u128 = 0;
    for k in (0..zone.len()).rev() {
        let one = costs[k]
            .unsigned_abs()
            .saturating_mul(u128::from(reach_of(&zone[k])));
        sum = sum.saturating_add(one);
    }
    sum
}

/// Whether costs are short in a zone: no way costs more than 2 to the 60 in magnitude.
pub fn are_short(zone: &[Span], costs: &[i128]) -> bool
    requires { length costs.now ≡ length zone.now }
    ensures { OnTrue result (cost_size zone.now costs.now ≤ 2 ^ 60) }
{
    size_of(zone, costs) <= MOST_SIZE
}

/// A cost in 64 bits.
fn shortened(cost: &i128) -> i64
    requires { unsigned_abs cost.now ≤ 2 ^ 60 }
    ensures { result ≡ cost.now }
{
    *cost as i64
}

/// The product of a cost and a number.
fn product(cost: &i64, number: &i64) -> i64
    requires { FitsSigned w64 (cost.now *ℤ number.now) }
    ensures { result ≡ cost.now *ℤ number.now }
{
    *cost * *number
}

/// The cheapest number of a label in a zone's span, which is an end.
fn cheapest(label: &Span, span: &Span, cost: &i64) -> i64
    ensures { result ≡ chosen_number label.now span.now cost.now }
{
    let wide = i128::from(*cost);
    number_of(label, span, &wide)
}

/// The cost of the cheapest number of a label in a zone's span, if it has one.
pub fn own_of(label: &Span, span: &Span, cost: &i64) -> i64
    requires { unsigned_abs cost.now * reach span.now ≤ 2 ^ 60 }
    ensures { IsOwn label.now span.now cost.now result }
{
    if !is_open(label, span) {
        return CLOSED;
    }
    let number = cheapest(label, span, cost);
    product(cost, &number)
}

/// A cell of a way and a cost more.
pub fn with_own(rest: &i64, own: &i64) -> i64
    requires { FitsSigned w64 (rest.now +ℤ own.now) }
    ensures { result ≡ rest.now +ℤ own.now }
{
    *rest + *own
}

/// Whether a cell is that of a node with a way to the end.
pub fn has_short_way(cell: &i64) -> bool
    ensures { IsTrue result ↔ (cell.now <ℤ far) }
{
    *cell < FAR
}

/// The least cost by an arc; no less than that of no way where it may not be taken.
fn total_by(arc: &Arc, next: &Vec<i64>, span: &Span, cost: &i64) -> i64
    requires there { arc.now.to < vec_len next.now }
    requires ready { IsReady (cell_at next.now.items arc.now.to) }
    requires cost { unsigned_abs cost.now * reach span.now ≤ 2 ^ 60 }
    ensures { IsTotal (widened next.now.items) span.now cost.now arc.now result }
{
    let own = own_of(&arc.label, span, cost);
    let rest = &next[arc.to as usize];
    if !has_short_way(rest) {
        return FAR;
    }
    with_own(rest, &own)
}

/// The lesser one of two numbers.
pub fn lesser(a: &i64, b: &i64) -> i64
    ensures { result ≡ int_min a.now b.now }
{
    if *a < *b { *a } else { *b }
}

/// One of two arcs.
pub fn either(is_first: bool, first: u32, second: u32) -> u32
    ensures { result ≡ (if is_first then first else second) }
{
    if is_first { first } else { second }
}

/// Takes a cost for the least at a node, and an arc, where it is less. Both are written in any case, so that there is no jump.
fn keep(now: &mut Vec<i64>, picks: &mut Picks, node: usize, total: &i64, place: u32)
    requires node { node < length picks.old }
    requires cell { node < vec_len now.old }
    ensures cells { now.new.items ≡ slice_set now.old.items node
        (int_min total.now (cell_at now.old.items node)) }
    ensures picks { picks.new ≡ slice_set picks.old node
        (if int_lt total.now (cell_at now.old.items node) then place else pick_at picks.old node) }
{
    let cell = now[node];
    let pick = picks.at(node);
    now[node] = lesser(total, &cell);
    picks.put(node, either(*total < cell, place, pick));
}

/// Tries the arc of a number at the node that it starts from.
fn relax(
    now: &mut Vec<i64>,
    picks: &mut Picks,
    arcs: &[Arc],
    place: usize,
    next: &Vec<i64>,
    span: &Span,
    cost: &i64,
)
    requires place { place < length arcs.now }
    requires few { length arcs.now < 2 ^ 32 }
    requires safe { All (IsArcSafe (length picks.old)) arcs.now }
    requires cells { AreCells (length picks.old) now.old.items }
    requires next { AreCells (length picks.old) next.now.items }
    requires ready { AreReady next.now.items arcs.now }
    requires cost { unsigned_abs cost.now * reach span.now ≤ 2 ^ 60 }
    ensures cells { AreCells (length picks.old) now.new.items }
    ensures picks { length picks.new ≡ length picks.old }
    ensures best { (node : ℕ) →
        IsBest arcs.now (widened next.now.items) span.now cost.now place node
        (cell_at (widened now.old.items) node) (pick_at picks.old node) →
        IsBest arcs.now (widened next.now.items) span.now cost.now (place + 1) node
        (cell_at (widened now.new.items) node) (pick_at picks.new node) }
{
    let arc = &arcs[place];
    let total = total_by(arc, next, span, cost);
    keep(now, picks, arc.from as usize, &total, place as u32);
}

/// Writes that no node has a way.
fn clear(cells: &mut Vec<i64>, nodes: usize)
    requires { AreCells nodes cells.old.items }
    ensures cells { AreCells nodes cells.new.items }
    ensures none { (k : ℕ) → k < nodes → cell_at (widened cells.new.items) k ≡ no_way }
{
    for node in 0..nodes {
        cells[node] = FAR;
    }
}

/// Writes that no cost is left at a node. The dead node keeps its cell.
fn zero(cells: &mut Vec<i64>, nodes: usize)
    requires { AreCells nodes cells.old.items }
    ensures cells { AreCells nodes cells.new.items }
    ensures zeros { (k : ℕ) → k < nodes → cell_at (widened cells.new.items) k ≡ pos 0 }
{
    for node in 0..nodes {
        cells[node] = 0;
    }
}

/// The least costs of a layer's nodes from those of the next, by its arcs.
fn relax_layer(
    now: &mut Vec<i64>,
    picks: &mut Picks,
    arcs: &[Arc],
    next: &Vec<i64>,
    span: &Span,
    cost: &i64,
)
    requires safe { IsStepSafe (length picks.old) arcs.now }
    requires cells { AreCells (length picks.old) now.old.items }
    requires next { AreCells (length picks.old) next.now.items }
    requires ready { AreReady next.now.items arcs.now }
    requires cost { unsigned_abs cost.now * reach span.now ≤ 2 ^ 60 }
    ensures cells { AreCells (length picks.old) now.new.items }
    ensures picks { length picks.new ≡ length picks.old }
    ensures best { (node : ℕ) → node < length picks.old →
        IsBest arcs.now (widened next.now.items) span.now cost.now (length arcs.now) node
        (cell_at (widened now.new.items) node) (pick_at picks.new node) }
{
    clear(now, picks.len());
    for place in 0..arcs.len() {
        relax(now, picks, arcs, place, next, span, cost);
    }
}

/// The least costs of a layer's nodes from those of the next, by its pairs, or by its arcs where it has no pairs.
fn relax_step(
    now: &mut Vec<i64>,
    picks: &mut Picks,
    arcs: &[Arc],
    pairs: &[Pair],
    next: &Vec<i64>,
    span: &Span,
    cost: &i64,
)
    requires safe { IsStepSafe (length picks.old) arcs.now }
    requires nodes { length pairs.now ≤ length picks.old }
    requires few { length pairs.now < 2 ^ 31 }
    requires pairs { All (IsPairSafe (length picks.old) (length picks.old)) pairs.now }
    requires cells { AreCells (length picks.old) now.old.items }
    requires next { AreCells (length picks.old) next.now.items }
    requires ready { AreReady next.now.items (arcs_with (length picks.old) arcs.now pairs.now) }
    requires cost { unsigned_abs cost.now * reach span.now ≤ 2 ^ 60 }
    ensures cells { AreCells (length picks.old) now.new.items }
    ensures picks { length picks.new ≡ length picks.old }
    ensures best { (node : ℕ) → node < cells_of (length picks.old) pairs.now →
        IsBest (arcs_with (length picks.old) arcs.now pairs.now) (widened next.now.items)
        span.now cost.now (length (arcs_with (length picks.old) arcs.now pairs.now)) node
        (cell_at (widened now.new.items) node) (pick_at picks.new node) }
{
    if pairs.is_empty() {
        relax_layer(now, picks, arcs, next, span, cost);
        return;
    }
    relax_pairs(now, picks, pairs, next, span, cost);
}

/// Finds the least cost from each node of each layer to the end; at last `short_next` has those of the first layer.
pub fn short_pass(
    work: &mut Work,
    graph: &Graph,
    lists: &[Items<Pair>],
    zone: &[Span],
    costs: &[i128],
)
    requires room { HasRoom graph.now work.old }
    requires linked { AreLinked graph.now.wide graph.now.steps.items lists.now }
    requires zone { length zone.now ≡ vec_len graph.now.steps }
    requires costs { length costs.now ≡ vec_len graph.now.steps }
    requires sizes { cost_size zone.now costs.now ≤ 2 ^ 60 }
    ensures room { HasRoom graph.now work.new }
    ensures least { AreLeast (steps_with graph.now.wide graph.now.steps.items lists.now)
        work.new.picks.items zone.now costs.now (cells_of graph.now.wide (pairs_at lists.now 0))
        (widened work.new.short_next.items) }
{
    zero(&mut work.short_next, graph.wide);
    for k in (0..graph.steps.len()).rev() {
        let cost = shortened(&costs[k]);
        relax_step(
            &mut work.short_now,
            &mut work.picks[k],
            graph.steps[k].as_slice(),
            pairs_at(lists, k),
            &work.short_next,
            &zone[k],
            &cost,
        );
        std::mem::swap(&mut work.short_now, &mut work.short_next);
    }
}
