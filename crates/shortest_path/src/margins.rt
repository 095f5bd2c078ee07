// Ways beside the cheapest: for each variable a cheapest way where it has another number. A pass from behind gives what is
// left to pay from each node, one from the front what was paid up to it, and an arc between makes a way of both. (The
// reduced costs of arcs in constrained shortest paths: Irnich, Desaulniers, Desrosiers and Hadjar, Path-reduced costs for
// eliminating arcs in routing and scheduling, 2010.)
ghost use Rattle.std.specs.Prelude.{◌≡◌, length, vec_len};

use crate::pass::{is_open, number_of};
use bp_theory::Span;
use layer_graph::{Arc, Graph};
use std::alloc::{AllocError, Global};

/// What costs at least as much is no way.
const FAR: i64 = 1 << 62;

// A way through an arc: its cost, and the arc's layer and place there.
#[derive(Clone, Copy)]
struct Choice {
    // The cost of the way; `FAR` or more where there is none.
    cost: i64,
    // The number of the arc's layer.
    layer: usize,
    // The arc's place among the arcs of its layer.
    place: u32,
}

/// The memory of both passes over a graph: for each layer what is left to pay from its nodes, and the arcs by which it is
/// left or reached cheapest; of one layer and the next what was paid; and a choice of each layer. It takes at most 16
/// bytes for a node, as if each layer had as many as the widest, and with what is kept of single layers 39 MiB at 4,096 layers
/// or fewer, some 150 bytes more for each further one.
#[derive(Drop)]
pub struct Margins {
    // By layer, one behind the last included, and node: the least cost from there to the end, `FAR` for no way.
    rests: Vec<Vec<i64>>,
    // By layer and node: the place of the arc by which it is left cheapest.
    onward: Vec<Vec<u32>>,
    // By layer and node of the next: the place of the layer's arc by which that is reached cheapest.
    back: Vec<Vec<u32>>,
    // By node of the layer at hand: the least cost from the root to it.
    now: Vec<i64>,
    // By node of the next layer: the least cost from the root to it.
    next: Vec<i64>,
    // A choice of each layer, the cheapest first once they are ranked.
    choices: Vec<Choice>,
    // By layer: the place of the arc that the way of the rank at hand takes.
    places: Vec<u32>,
}

// The entry of a list, 0 where it has none.
fn entry(list: &[u32], place: usize) -> u32 {
    match list.get(place) {
        Some(entry) => *entry,
        None => 0,
    }
}

// The place of an arc in 32 bits, which each layer's places fit; 0 where it has more.
fn place_of(place: usize) -> u32 {
    match u32::try_from(place) {
        Ok(place) => place,
        Err(_) => 0,
    }
}

// What a node costs; it is far where there is none.
fn cell(cells: &[i64], node: u32) -> i64 {
    match cells.get(node as usize) {
        Some(cell) => *cell,
        None => FAR,
    }
}

// A cost in 64 bits; 0 where it has more.
fn shortened(cost: &i128) -> i64 {
    match i64::try_from(*cost) {
        Ok(short) => short,
        Err(_) => 0,
    }
}

// The cheapest number of an arc in a span, if it has one.
fn own_number(arc: &Arc, span: &Span, cost: i64) -> Option<i64> {
    if is_open(&arc.label, span) {
        Some(number_of(&arc.label, span, &i128::from(cost)))
    } else {
        None
    }
}

// A cost and that of a number more, where they are those of a way.
fn cost_with(before: i64, cost: i64, number: i64) -> i64 {
    if before >= FAR {
        FAR
    } else {
        before.saturating_add(cost.saturating_mul(number))
    }
}

// Takes a cost and an arc for a node, where the cost is less.
fn lower(cells: &mut [i64], picks: &mut [u32], node: u32, cost: i64, place: usize) {
    if let Some(cell) = cells.get_mut(node as usize) {
        if cost < *cell {
            *cell = cost;
            if let Some(pick) = picks.get_mut(node as usize) {
                *pick = place_of(place);
            }
        }
    }
}

// What is left to pay from a layer's nodes, by what is left from those of the next.
fn leave(cells: &mut [i64], picks: &mut [u32], arcs: &[Arc], next: &[i64], span: &Span, cost: i64) {
    cells.fill(FAR);
    for place in 0..arcs.len() {
        let arc = &arcs[place];
        if let Some(number) = own_number(arc, span, cost) {
            let total = cost_with(cell(next, arc.to), cost, number);
            lower(cells, picks, arc.from, total, place);
        }
    }
}

// What was paid up to the nodes of the next layer, by what was paid up to those of this one.
fn reach(cells: &mut [i64], picks: &mut [u32], arcs: &[Arc], paid: &[i64], span: &Span, cost: i64) {
    cells.fill(FAR);
    for place in 0..arcs.len() {
        let arc = &arcs[place];
        if let Some(number) = own_number(arc, span, cost) {
            let total = cost_with(cell(paid, arc.from), cost, number);
            lower(cells, picks, arc.to, total, place);
        }
    }
}

// The cheapest way through an arc of a layer by another number than this.
fn other(
    layer: usize,
    arcs: &[Arc],
    paid: &[i64],
    rest: &[i64],
    span: &Span,
    cost: i64,
    least: Option<i64>,
) -> Choice {
    let mut best = Choice {
        cost: FAR,
        layer,
        place: 0,
    };
    for place in 0..arcs.len() {
        let arc = &arcs[place];
        let number = own_number(arc, span, cost);
        if number != least {
            if let Some(number) = number {
                let total = cost_with(cell(paid, arc.from), cost, number);
                let total = cost_with(total, 1, cell(rest, arc.to));
                if total < best.cost {
                    best.cost = total;
                    best.place = place_of(place);
                }
            }
        }
    }
    best
}

// Rows of numbers, one of each layer.
fn cells_of(alloc: Global, layers: usize, wide: usize) -> Result<Vec<Vec<i64>>, AllocError> {
    let mut rows = Vec::new(alloc);
    for _ in 0..layers {
        rows.push(Vec::from_elem(alloc, 0, wide)?)?;
    }
    Ok(rows)
}

// Places of arcs at nodes, those of each layer.
fn picks_of(alloc: Global, layers: usize, wide: usize) -> Result<Vec<Vec<u32>>, AllocError> {
    let mut rows = Vec::new(alloc);
    for _ in 0..layers {
        rows.push(Vec::from_elem(alloc, 0, wide)?)?;
    }
    Ok(rows)
}

impl Margins {
    /// The memory for passes over a graph.
    pub fn make(alloc: Global, graph: &Graph) -> Result<Margins, AllocError> {
        let layers = graph.steps.len();
        let choice = Choice {
            cost: FAR,
            layer: 0,
            place: 0,
        };
        Ok(Margins {
            rests: cells_of(alloc, layers.saturating_add(1), graph.wide)?,
            onward: picks_of(alloc, layers, graph.wide)?,
            back: picks_of(alloc, layers, graph.wide)?,
            now: Vec::from_elem(alloc, 0, graph.wide)?,
            next: Vec::from_elem(alloc, 0, graph.wide)?,
            choices: Vec::from_elem(alloc, choice, layers)?,
            places: Vec::from_elem(alloc, 0, layers)?,
        })
    }

    /// Finds for each layer a cheapest way within a zone that has another number there than the cheapest way, where there is
    /// one, and ranks these by their costs, which are short; how many there are.
    pub fn rank(&mut self, graph: &Graph, zone: &[Span], costs: &[i128]) -> usize
        requires zone { length zone.now ≡ vec_len graph.now.steps }
        requires costs { length costs.now ≡ vec_len graph.now.steps }
    {
        self.pass_from_behind(graph, zone, costs);
        self.pass_from_front(graph, zone, costs);
        self.choices
            .as_mut_slice()
            .sort_unstable_by_key(|choice| choice.cost);
        let mut many: usize = 0;
        for choice in self.choices.as_slice() {
            if choice.cost < FAR {
                many = many.saturating_add(1);
            }
        }
        many
    }

    // Finds what is left to pay from each node.
    fn pass_from_behind(&mut self, graph: &Graph, zone: &[Span], costs: &[i128])
        requires zone { length zone.now ≡ vec_len graph.now.steps }
        requires costs { length costs.now ≡ vec_len graph.now.steps }
    {
        for layer in (0..zone.len()).rev() {
            let cost = shortened(&costs[layer]);
            let arcs = graph.steps[layer].as_slice();
            if let Some(next) = self.rests.get(layer + 1) {
                if let Some(picks) = self.onward.get_mut(layer) {
                    leave(
                        self.now.as_mut_slice(),
                        picks.as_mut_slice(),
                        arcs,
                        next.as_slice(),
                        &zone[layer],
                        cost,
                    );
                }
            }
            if let Some(rest) = self.rests.get_mut(layer) {
                std::mem::swap(rest, &mut self.now);
            }
        }
    }

    // Finds what was paid up to each node, and the choice of each layer.
    fn pass_from_front(&mut self, graph: &Graph, zone: &[Span], costs: &[i128])
        requires zone { length zone.now ≡ vec_len graph.now.steps }
        requires costs { length costs.now ≡ vec_len graph.now.steps }
    {
        self.now.as_mut_slice().fill(FAR);
        if let Some(root) = self.now.get_mut(0) {
            *root = 0;
        }
        let mut node = 0;
        for layer in 0..zone.len() {
            let cost = shortened(&costs[layer]);
            let arcs = graph.steps[layer].as_slice();
            node = self.choose_other(layer, arcs, &zone[layer], cost, node);
            if let Some(picks) = self.back.get_mut(layer) {
                reach(
                    self.next.as_mut_slice(),
                    picks.as_mut_slice(),
                    arcs,
                    self.now.as_slice(),
                    &zone[layer],
                    cost,
                );
            }
            std::mem::swap(&mut self.now, &mut self.next);
        }
    }

    // Writes the choice of a layer, where the cheapest way comes to a node, and tells where it goes on.
    fn choose_other(
        &mut self,
        layer: usize,
        arcs: &[Arc],
        span: &Span,
        cost: i64,
        node: u32,
    ) -> u32 {
        let picked = match self.onward.get(layer) {
            Some(picks) => entry(picks.as_slice(), node as usize),
            None => 0,
        };
        let (least, to) = match arcs.get(picked as usize) {
            Some(arc) => (own_number(arc, span, cost), arc.to),
            None => (None, 0),
        };
        if let Some(rest) = self.rests.get(layer.saturating_add(1)) {
            let paid = self.now.as_slice();
            let best = other(layer, arcs, paid, rest.as_slice(), span, cost, least);
            if let Some(choice) = self.choices.get_mut(layer) {
                *choice = best;
            }
        }
        to
    }

    /// The places of the arcs of a way of this rank: the one of its choice, behind it those that are left cheapest, before it
    /// those by which its nodes are reached cheapest.
    pub fn places(&mut self, graph: &Graph, rank: usize) -> &[u32] {
        if let Some(choice) = self.choices.get(rank) {
            let choice = *choice;
            self.put(choice.layer, choice.place);
            if let Some(arc) = arc_of(graph, choice.layer, choice.place) {
                self.go_on(graph, choice.layer, arc.to);
                self.go_back(graph, choice.layer, arc.from);
            }
        }
        self.places.as_slice()
    }

    // Puts the place of a layer's arc.
    fn put(&mut self, layer: usize, place: u32) {
        if let Some(old) = self.places.get_mut(layer) {
            *old = place;
        }
    }

    // Puts the places of the arcs by which nodes are left cheapest, from a node behind a layer on.
    fn go_on(&mut self, graph: &Graph, layer: usize, node: u32) {
        let mut node = node;
        for k in layer.saturating_add(1)..graph.steps.len() {
            let place = match self.onward.get(k) {
                Some(picks) => entry(picks.as_slice(), node as usize),
                None => 0,
            };
            self.put(k, place);
            node = match arc_of(graph, k, place) {
                Some(arc) => arc.to,
                None => 0,
            };
        }
    }

    // Puts the places of the arcs by which nodes are reached cheapest, back from a node of a layer.
    fn go_back(&mut self, graph: &Graph, layer: usize, node: u32) {
        let mut node = node;
        for k in (0..layer).rev() {
            let place = match self.back.get(k) {
                Some(picks) => entry(picks.as_slice(), node as usize),
                None => 0,
            };
            self.put(k, place);
            node = match arc_of(graph, k, place) {
                Some(arc) => arc.from,
                None => 0,
            };
        }
    }
}

// The arc at a place of a layer.
fn arc_of(graph: &Graph, layer: usize, place: u32) -> Option<&Arc> {
    match graph.steps.get(layer) {
        Some(arcs) => arcs.as_slice().get(place as usize),
        None => None,
    }
}
