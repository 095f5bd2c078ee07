// The arcs that are picked at the nodes of a layer.
ghost use Rattle.std.specs.Prelude.{◌≡◌, ◌<◌, ℕ, length, slice_set, IfOk};
ghost use Rattle.shortest_path.specs.Best.{pick_at};

use std::alloc::{AllocError, Global};
use std::marker::Model;

/// For each node of a layer the number of an arc. Contracts see the list.
#[derive(Drop)]
pub struct Picks {
    // By node: the number of the arc.
    arcs: Vec<u32>,
}

impl Model for Picks {
    ghost use Rattle.std.specs.Prelude.{ℕ, List};

    ghost Value = { List ℕ };

    ghost view = { λ picks. picks.arcs.items };
}

impl Picks {
    /// The first arc at so many nodes.
    pub fn make(alloc: Global, count: usize) -> Result<Picks, AllocError>
        ensures { IfOk result (λ picks. length picks ≡ count) }
    {
        Ok(Picks {
            arcs: Vec::from_elem(alloc, 0, count)?,
        })
    }

    /// How many nodes it is for.
    pub fn len(&self) -> usize
        ensures { result ≡ length self.now }
    {
        self.arcs.len()
    }

    /// The arc at a node.
    pub fn at(&self, node: usize) -> u32
        requires { node < length self.now }
        ensures { result ≡ pick_at self.now node }
    {
        self.arcs[node]
    }

    /// Picks an arc at a node.
    pub fn put(&mut self, node: usize, arc: u32)
        requires { node < length self.old }
        ensures { self.new ≡ slice_set self.old node arc }
    {
        self.arcs[node] = arc;
    }
}
