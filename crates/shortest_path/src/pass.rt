// The pass: the least cost from each node to the end, within a zone.
ghost use Rattle.std.specs.Prelude.{◌≡◌, ◌<◌, ◌≤◌, ◌+◌, ◌*◌, ◌^◌, ◌<ℤ◌, ℕ, pos, All, IfOk, IsTrue, ◌↔◌, MatchOption, length, vec_len, unsigned_abs};
ghost use Rattle.std.specs.Int.{int_min, int_max};
ghost use Rattle.bp_theory.specs.Program.{reach};
ghost use Rattle.pricing_problem.specs.Form.{cost_size};
ghost use Rattle.layer_graph.specs.Graphs.{arc_at, IsArcSafe, IsStepSafe};
ghost use Rattle.shortest_path.specs.Best.{no_way, cell_at, pick_at, IsOpen, chosen_number, AreBounded, IsUsable, IsCostBy, IsTried, IsBest, AreLeast};
ghost use Rattle.shortest_path.specs.Rooms.{HasRoom};

use crate::picks::Picks;
use crate::short::FAR;
use bp_theory::Span;
use layer_graph::{Arc, Graph};
use pricing_problem::{plus, times};
use std::alloc::{AllocError, Global};

/// The cell of a node without a way to the end.
pub const NO_WAY: i128 = i128::MAX;

/// The least costs of the nodes of a layer and of the next, both also in 64 bits, where the dead node has one too, the arcs that
/// reach them, and a point.
#[derive(Drop)]
pub struct Work {
    /// By node of the layer at hand: the least cost from there to the end, `NO_WAY` where there is no way.
    pub now: Vec<i128>,
    /// The same of the next layer.
    pub next: Vec<i128>,
    /// By node of the layer at hand, the dead node last: that cost in 64 bits, `FAR` where there is no way.
    pub short_now: Vec<i64>,
    /// The same of the next layer.
    pub short_next: Vec<i64>,
    /// By layer and node: the number of the arc by which the node is left cheapest.
    pub picks: Vec<Picks>,
    /// By layer: the number that the cheapest way takes.
    pub point: Vec<i64>,
}

/// The greater one of the lower ends.
fn low_end(label: &Span, span: &Span) -> i64
    ensures { result ≡ int_max label.now.lo span.now.lo }
{
    if label.lo < span.lo {
        span.lo
    } else {
        label.lo
    }
}

/// The lesser one of the upper ends.
fn high_end(label: &Span, span: &Span) -> i64
    ensures { result ≡ int_min label.now.hi span.now.hi }
{
    if span.hi < label.hi {
        span.hi
    } else {
        label.hi
    }
}

/// Whether a label has a number of a zone's span.
pub fn is_open(label: &Span, span: &Span) -> bool
    ensures { IsTrue result ↔ IsOpen label.now span.now }
{
    let lo = low_end(label, span);
    let hi = high_end(label, span);
    lo <= hi
}

/// The cheapest number of a label in a zone's span, which is an end.
pub fn number_of(label: &Span, span: &Span, cost: &i128) -> i64
    ensures { result ≡ chosen_number label.now span.now cost.now }
{
    if *cost < 0 {
        high_end(label, span)
    } else {
        low_end(label, span)
    }
}

/// Whether a cell is that of a node with a way to the end.
pub fn has_way(cell: &i128) -> bool
    ensures { IsTrue result ↔ (cell.now <ℤ no_way) }
{
    *cell < NO_WAY
}

/// The least cost by an arc, if it has a number of the zone's span and leads to a node with a way.
fn cost_through(arc: &Arc, next: &Vec<i128>, span: &Span, cost: &i128) -> Option<i128>
    requires there { arc.now.to < vec_len next.now }
    requires bounded { AreBounded (2 ^ 123) next.now.items }
    requires cost { unsigned_abs cost.now * reach span.now ≤ 2 ^ 123 }
    ensures { MatchOption result (IsUsable next.now.items span.now arc.now → ⊥)
        (λ v. IsCostBy next.now.items span.now cost.now arc.now v) }
{
    let rest = &next[arc.to as usize];
    if !has_way(rest) {
        return None;
    }
    if !is_open(&arc.label, span) {
        return None;
    }
    let number = number_of(&arc.label, span, cost);
    let own = times(cost, &number);
    Some(plus(rest, &own))
}

/// Takes a cost for the least at a node, and an arc, where it is less.
fn take(now: &mut Vec<i128>, picks: &mut Picks, node: usize, total: &i128, place: u32)
    requires node { node < vec_len now.old }
    requires picks { length picks.old ≡ vec_len now.old }
    ensures { IsTried now.old.items picks.old node total.now place now.new.items picks.new }
{
    if *total < now[node] {
        now[node] = *total;
        picks.put(node, place);
    }
}

/// Tries the arc of a number at the node that it starts from.
fn relax(
    now: &mut Vec<i128>,
    picks: &mut Picks,
    arcs: &[Arc],
    place: usize,
    next: &Vec<i128>,
    span: &Span,
    cost: &i128,
)
    requires place { place < length arcs.now }
    requires few { length arcs.now < 2 ^ 32 }
    requires safe { All (IsArcSafe (vec_len now.old)) arcs.now }
    requires picks { length picks.old ≡ vec_len now.old }
    requires next { vec_len next.now ≡ vec_len now.old }
    requires bounded { AreBounded (2 ^ 123) next.now.items }
    requires cost { unsigned_abs cost.now * reach span.now ≤ 2 ^ 123 }
    ensures cells { vec_len now.new ≡ vec_len now.old }
    ensures picks { length picks.new ≡ length picks.old }
    ensures best { (node : ℕ) → IsBest arcs.now next.now.items span.now cost.now place node
        (cell_at now.old.items node) (pick_at picks.old node) →
        IsBest arcs.now next.now.items span.now cost.now (place + 1) node
        (cell_at now.new.items node) (pick_at picks.new node) }
{
    let arc = &arcs[place];
    if let Some(total) = cost_through(arc, next, span, cost) {
        take(now, picks, arc.from as usize, &total, place as u32);
    }
}

/// Writes that no node has a way.
fn clear(cells: &mut [i128])
    ensures len { length cells.new ≡ length cells.old }
    ensures none { (k : ℕ) → k < length cells.old → cell_at cells.new k ≡ no_way }
{
    cells.fill(NO_WAY);
}

/// Writes that no cost is left.
fn zero(cells: &mut [i128])
    ensures len { length cells.new ≡ length cells.old }
    ensures zeros { (k : ℕ) → k < length cells.old → cell_at cells.new k ≡ pos 0 }
{
    cells.fill(0);
}

/// The least costs of a layer's nodes from those of the next.
fn relax_layer(
    now: &mut Vec<i128>,
    picks: &mut Picks,
    arcs: &[Arc],
    next: &Vec<i128>,
    span: &Span,
    cost: &i128,
)
    requires safe { IsStepSafe (vec_len now.old) arcs.now }
    requires picks { length picks.old ≡ vec_len now.old }
    requires next { vec_len next.now ≡ vec_len now.old }
    requires bounded { AreBounded (2 ^ 123) next.now.items }
    requires cost { unsigned_abs cost.now * reach span.now ≤ 2 ^ 123 }
    ensures cells { vec_len now.new ≡ vec_len now.old }
    ensures picks { length picks.new ≡ length picks.old }
    ensures best { (node : ℕ) → node < vec_len now.old →
        IsBest arcs.now next.now.items span.now cost.now (length arcs.now) node
        (cell_at now.new.items node) (pick_at picks.new node) }
{
    clear(now);
    for place in 0..arcs.len() {
        relax(now, picks, arcs, place, next, span, cost);
    }
}

/// Finds the least cost from each node of each layer to the end; at last `next` has those of the first layer.
pub fn pass(work: &mut Work, graph: &Graph, zone: &[Span], costs: &[i128])
    requires room { HasRoom graph.now work.old }
    requires zone { length zone.now ≡ vec_len graph.now.steps }
    requires costs { length costs.now ≡ vec_len graph.now.steps }
    requires sizes { cost_size zone.now costs.now ≤ 2 ^ 123 }
    ensures room { HasRoom graph.now work.new }
    ensures least { AreLeast graph.now.steps.items work.new.picks.items zone.now costs.now
        graph.now.wide work.new.next.items }
{
    zero(&mut work.next);
    for k in (0..graph.steps.len()).rev() {
        relax_layer(
            &mut work.now,
            &mut work.picks[k],
            graph.steps[k].as_slice(),
            &work.next,
            &zone[k],
            &costs[k],
        );
        std::mem::swap(&mut work.now, &mut work.next);
    }
}

/// Picks for each layer.
fn picks_of(alloc: Global, layers: usize, wide: usize) -> Result<Vec<Picks>, AllocError>
    ensures many { IfOk result (λ picks. vec_len picks ≡ layers) }
    ensures wide { IfOk result (λ picks. All (λ row. length row ≡ wide) picks.items) }
{
    let mut picks = Vec::new(alloc);
    for _ in 0..layers {
        picks.push(Picks::make(alloc, wide)?)?;
    }
    Ok(picks)
}

impl Work {
    ghost use Rattle.std.specs.Prelude.{IfOk};
    ghost use Rattle.shortest_path.specs.Rooms.{HasRoom};

    /// The memory for passes over a graph.
    pub fn make(alloc: Global, graph: &Graph) -> Result<Work, AllocError>
        ensures { IfOk result (λ work. HasRoom graph.now work) }
    {
        let layers = graph.steps.len();
        let Some(cells) = graph.wide.checked_add(1) else {
            return Err(AllocError);
        };
        Ok(Work {
            now: Vec::from_elem(alloc, 0, graph.wide)?,
            next: Vec::from_elem(alloc, 0, graph.wide)?,
            short_now: Vec::from_elem(alloc, FAR, cells)?,
            short_next: Vec::from_elem(alloc, FAR, cells)?,
            picks: picks_of(alloc, layers, graph.wide)?,
            point: Vec::from_elem(alloc, 0, layers)?,
        })
    }
}
