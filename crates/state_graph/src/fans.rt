// The nodes of a layer as they are merged from behind, each once as far as a table by hash finds them.
ghost use Rattle.std.specs.Prelude.{◌≡◌, ◌<◌, ◌≤◌, length, vec_len};
ghost use Rattle.std.specs.Bool.{OnTrue};
ghost use Rattle.state_graph.specs.Merges.{AreParted, IsAlike, IsLike};

use crate::states::{mixed, note, place_at};
use bp_theory::{Items, Span};
use layer_graph::Arc;
use std::alloc::{AllocError, Global};

/// The number of a node without a way to the end.
pub const GONE: u32 = u32::MAX;

/// How many places of the table are looked at for a node.
const PROBES: usize = 64;

/// The fewest places of a table.
const FEWEST_PLACES: usize = 16;

/// The places of a node's arcs: from the first on, before the end.
#[derive(Clone, Copy)]
pub struct Fan {
    /// The place of its first arc.
    pub first: usize,
    /// The place behind its last arc.
    pub end: usize,
}

/// The arcs of nodes, node by node, and behind them those of a node that is still open. A table of places holds one more
/// than a node's number, or 0. The table is a hint: the arcs of each node that it names are compared.
#[derive(Drop)]
pub struct Fans {
    /// The arcs of all nodes, one node's behind another's, and then those of the open node.
    pub arcs: Vec<Arc>,
    /// By number of the node: the places of its arcs.
    pub list: Vec<Fan>,
    /// The place of the open node's first arc.
    pub start: usize,
    // The table: by place one more than a number, or 0.
    places: Vec<usize>,
    // The table has a place.
    ghost room: { 0 < vec_len places },
    // The arcs of a node start at it, and stand at its places.
    ghost parted: { AreParted list.items start arcs.items },
}

/// Whether two arcs have one label and lead to one node.
fn is_alike(a: &Arc, b: &Arc) -> bool
    ensures { OnTrue result (IsAlike a.now b.now) }
{
    a.to == b.to && a.label.lo == b.label.lo && a.label.hi == b.label.hi
}

/// Whether the arcs of a node are those behind a start, in their order.
fn is_like(arcs: &[Arc], fan: &Fan, start: usize) -> bool
    requires rises { fan.now.first ≤ fan.now.end }
    requires ends { fan.now.end ≤ start }
    requires within { start ≤ length arcs.now }
    ensures { OnTrue result (IsLike arcs.now fan.now start) }
{
    let many = fan.end - fan.first;
    if arcs.len() - start != many {
        return false;
    }
    for step in 0..many {
        if !is_alike(&arcs[start + step], &arcs[fan.first + step]) {
            return false;
        }
    }
    true
}

/// The hash of the arcs from a place on.
fn hash_of(arcs: &[Arc], start: usize) -> u64 {
    let mut hash = 0x517c_c1b7_2722_0a95;
    for place in start..arcs.len() {
        let arc = &arcs[place];
        hash = mixed(hash, u64::from(arc.to));
        hash = mixed(hash, arc.label.lo.unsigned_abs());
        hash = mixed(hash, arc.label.hi.unsigned_abs());
    }
    hash ^ (hash >> 29)
}

impl Fans {
    ghost use Rattle.std.specs.Prelude.{◌≡◌, ◌<◌, ◌≤◌, ◌^◌, ◌+◌, ◌⊎◌, [], ◌∷◌, ◌++◌, IfOk, IfSome, OnOk, length, vec_len};
    ghost use Rattle.state_graph.specs.Merges.{gone, fan_at, IsLike, IsSettled};

    /// No nodes yet, and a table for so many.
    pub fn new(alloc: Global, count: usize) -> Result<Fans, AllocError>
        ensures arcs { IfOk result (λ fans. fans.arcs.items ≡ []) }
        ensures list { IfOk result (λ fans. fans.list.items ≡ []) }
        ensures start { IfOk result (λ fans. fans.start ≡ 0) }
    {
        let places = count.saturating_mul(2).max(FEWEST_PLACES);
        Ok(Fans {
            arcs: Vec::new(alloc),
            list: Vec::new(alloc),
            start: 0,
            places: Vec::from_elem(alloc, 0, places)?,
        })
    }

    /// The arcs of all nodes.
    pub fn into_arcs(self) -> Items<Arc>
        ensures { result ≡ self.arcs.items }
    {
        Items::from_vec(self.arcs)
    }

    /// Adds an arc to the node that is open.
    pub fn add(&mut self, to: u32, label: Span) -> Result<(), AllocError>
        requires few { vec_len self.old.list < 2 ^ 32 }
        ensures list { self.new.list.items ≡ self.old.list.items }
        ensures start { self.new.start ≡ self.old.start }
        ensures arcs { OnOk result (self.new.arcs.items ≡ self.old.arcs.items ++
            (record { from = vec_len self.old.list; to = to; label = label } ∷ [])) }
    {
        let from = self.list.len() as u32;
        self.arcs.push(Arc { from, to, label })?;
        Ok(())
    }

    /// A node with the arcs of the one that is open, if the table finds it.
    fn find(&self, hash: u64) -> Option<usize>
        ensures there { IfSome result (λ m. m < vec_len self.now.list) }
        ensures like { IfSome result (λ m.
            IsLike self.now.arcs.items (fan_at self.now.list.items m) self.now.start) }
    {
        for step in 0..PROBES {
            let kept = self.places[place_at(hash, step, self.places.len())];
            if kept == 0 {
                return None;
            }
            if kept <= self.list.len() && is_like(&self.arcs, &self.list[kept - 1], self.start) {
                return Some(kept - 1);
            }
        }
        None
    }

    /// Leaves the arcs of the open node as those of a new one.
    fn close(&mut self, hash: u64) -> Result<u32, AllocError>
        requires few { vec_len self.old.list < 2 ^ 20 }
        ensures node { IfOk result (λ n. n ≡ vec_len self.old.list) }
        ensures list { IfOk result (λ _. self.new.list.items ≡ self.old.list.items ++
            (record { first = self.old.start; end = vec_len self.old.arcs } ∷ [])) }
        ensures arcs { IfOk result (λ _. self.new.arcs.items ≡ self.old.arcs.items) }
        ensures start { IfOk result (λ _. self.new.start ≡ vec_len self.new.arcs) }
    {
        let node = self.list.len();
        let end = self.arcs.len();
        let first = self.start;
        self.list.push(Fan { first, end })?;
        self.start = end;
        note(&mut self.places, hash, node + 1);
        Ok(node as u32)
    }

    /// Which node the open one is: none where it has no arcs, one that the table finds, or a new one.
    pub fn settle(&mut self) -> Result<u32, AllocError>
        requires few { vec_len self.old.list < 2 ^ 20 }
        ensures settled { IfOk result (λ n. IsSettled self.old.arcs.items self.old.start
            (length self.old.list.items) self.new.arcs.items n) }
        ensures node { IfOk result (λ n. (n ≡ gone) ⊎ (n < length self.new.list.items)) }
        ensures grows { IfOk result (λ _. length self.old.list.items ≤ length self.new.list.items) }
        ensures count { IfOk result (λ _.
            length self.new.list.items ≤ length self.old.list.items + 1) }
        ensures start { IfOk result (λ _. self.new.start ≡ vec_len self.new.arcs) }
    {
        if self.arcs.len() == self.start {
            return Ok(GONE);
        }
        let hash = hash_of(&self.arcs, self.start);
        match self.find(hash) {
            Some(node) => {
                self.arcs.truncate(self.start);
                Ok(node as u32)
            }
            None => self.close(hash),
        }
    }
}
