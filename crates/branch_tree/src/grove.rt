// The tree of a search with the queue of its live leaves.
use block_program::{Blocked, Zone};
use bp_theory::Proof;
use open_nodes::{
    Bases, Fork, LeafQueue, SharedPath, SharedProof, Tree, Turn, bound_of, depth_in, filled_queue,
    fork_leaf, key_at, plain_bound, put, steps_in, turn_at,
};
use search_laws::Side;
use std::alloc::{AllocError, Global};

/// The tree of a search and the zone of its root, with the queue of the live leaves: by bound, and of equal bounds by the
/// order in which they were made.
pub struct Grove {
    tree: Tree,
    root: Zone,
    queue: LeafQueue,
    bases: Bases,
    live: u64,
    count: u64,
    depth: u32,
}

// What goes with a grove is proved here once, and not again wherever one goes.
impl Drop for Grove {
    fn drop(self) {
        let Grove {
            tree: _,
            root: _,
            queue: _,
            bases: _,
            live: _,
            count: _,
            depth: _,
        } = self;
    }
}

impl std::marker::Model for Grove {
    ghost use Rattle.branch_tree.specs.Groves.{GroveState, coded_grove, IsStanding, AreCounts};

    ghost Value = { GroveState };

    ghost coded = { coded_grove };

    ghost use Rattle.open_nodes.specs.Trees.{tree_of};

    ghost view = { λ g. record { tree = tree_of g.tree; root = g.root; queue = g.queue } };

    ghost invariant = { λ g. IsStanding (record { tree = tree_of g.tree; root = g.root; queue = g.queue })
        × AreCounts (tree_of g.tree) g.live g.count g.depth };
}

impl Grove {
    ghost use Rattle.std.specs.Prelude.{◌≡◌, ◌+◌, ◌-◌, ◌<◌, ◌≤◌, ◌^◌, IfOk, OnOk, OnErr, IfSome, MatchOption};
    ghost use Rattle.bp_theory.specs.Limits.{greatest_depth};
    ghost use Rattle.bp_theory.specs.Trees.{IsSoundSplit, steps, depth};
    ghost use Rattle.bp_theory.specs.declared.Limits.TheVariants.{Large};
    ghost use Rattle.search_laws.specs.Grove.{shut_at, fork_at, live_count, live_bounds, certificate_tree};
    ghost use Rattle.search_laws.specs.GroveFacts.{IsGrove, IsSoundProof, KeepsBound, IsLeastOf};
    ghost use Rattle.block_program.specs.Blocked.{BlockedProgram};
    ghost use Rattle.branch_tree.specs.Turns.{IsTurn};
    ghost use Rattle.open_nodes.specs.Trees.{tree_of};
    ghost use Rattle.open_nodes.specs.Queues.{queue_of};
    ghost use Rattle.branch_tree.specs.Groves.{IsStanding, IsGroveOf, IsPlanted, IsLiveTurn, IsNextTurn, IsTurnAt, IsTurnBelow, NoneLiveBelow, IsShutQueue, IsForkedQueue, made};
    ghost use Rattle.branch_tree.specs.Adopted.{IsAdopted};

    /// One live leaf with the program's whole zone, with the proof of scale 1 that names no row and picks no block, and
    /// with its bound: the costs at the better ends of the variables' spans, and the constant.
    pub fn plant(alloc: Global, b: &Blocked) -> Result<Grove, AllocError>
        ensures planted { IfOk result (IsPlanted b.now) }
        ensures kept { IfOk result (IsGroveOf b.now) }
        ensures standing { IfOk result IsStanding }
    {
        let root = Zone::root(alloc, b)?;
        let bound = plain_bound(b);
        let mut queue = LeafQueue::new(alloc);
        queue.add(key_at(&bound, 0), SharedPath::root())?;
        Ok(Grove {
            tree: Tree::Live(SharedProof::plain(), bound),
            root,
            queue,
            bases: Bases::new(alloc),
            live: 1,
            count: 0,
            depth: 0,
        })
    }

    /// The grove of a tree that keeps its facts for the program's spans, with a depth within the large limits and fewer than
    /// `2^62` nodes. Its live leaves count as made in preorder.
    pub fn adopt(alloc: Global, b: &Blocked, tree: Tree) -> Result<Grove, AllocError>
        requires kept { IsGrove b.now.blocking b.now.named.program.spans (tree_of tree) }
        requires deep { depth (certificate_tree (tree_of tree)) ≤ greatest_depth Large }
        requires few { made (tree_of tree) < 2 ^ 62 }
        ensures adopted { IfOk result (IsAdopted b.now (tree_of tree)) }
        ensures kept { IfOk result (IsGroveOf b.now) }
        ensures standing { IfOk result IsStanding }
    {
        let root = Zone::root(alloc, b)?;
        let (queue, live) = filled_queue(alloc, &tree)?;
        let count = steps_in(alloc, &tree)?;
        let depth = depth_in(alloc, &tree)?;
        Ok(Grove {
            tree,
            root,
            queue,
            bases: Bases::new(alloc),
            live,
            count,
            depth,
        })
    }

    /// The live leaf that is next: of least bound, and of those the one made first. None where no leaf is live. The
    /// leaf stays live.
    pub fn take(&self, alloc: Global) -> Result<Option<Turn>, AllocError>
        ensures next { IfOk result (λ turn. MatchOption turn (live_count self.now.tree ≡ 0)
            (IsNextTurn self.now)) }
        ensures kept { (b : BlockedProgram) → IsGroveOf b self.now →
            IfOk result (λ turn. IfSome turn (IsTurn b)) }
        ensures standing { IsStanding self.now }
    {
        let Some((_, path)) = self.queue.first() else {
            return Ok(None);
        };
        let turn = turn_at(alloc, &self.tree, path, &self.root)?;
        Ok(Some(turn))
    }

    /// The live leaf at a place, from 0: that which exactly `place` others come before, by bound and of equal bounds by the
    /// order in which they were made. None exactly where no more than `place` leaves are live. The leaf stays live. The walk
    /// through the queue is `place` entries long.
    pub fn take_at(&self, alloc: Global, place: u64) -> Result<Option<Turn>, AllocError>
        ensures next { IfOk result (λ turn. MatchOption turn (live_count self.now.tree ≤ place)
            (IsTurnAt self.now place)) }
        ensures within { IfOk result (λ turn. IfSome turn (λ _. place < live_count self.now.tree)) }
        ensures kept { (b : BlockedProgram) → IsGroveOf b self.now →
            IfOk result (λ turn. IfSome turn (IsTurn b)) }
        ensures standing { IsStanding self.now }
    {
        if place >= self.live {
            return Ok(None);
        }
        let Some((_, path)) = self.queue.at_place(place) else {
            return Ok(None);
        };
        let leaf = turn_at(alloc, &self.tree, path, &self.root)?;
        Ok(Some(leaf))
    }

    /// The live leaf at or below a path that is next of those: of least bound, and of equal bounds the one made first. None
    /// exactly where no leaf there is live. The leaf stays live. The walk through the queue passes all live leaves that come
    /// before it.
    pub fn take_below(&self, alloc: Global, above: &[Side]) -> Result<Option<Turn>, AllocError>
        ensures next { IfOk result (λ turn. MatchOption turn (NoneLiveBelow self.now.tree above.now)
            (IsTurnBelow self.now above.now)) }
        ensures kept { (b : BlockedProgram) → IsGroveOf b self.now →
            IfOk result (λ turn. IfSome turn (IsTurn b)) }
        ensures standing { IsStanding self.now }
    {
        let Some((_, path)) = self.queue.first_below(above) else {
            return Ok(None);
        };
        let leaf = turn_at(alloc, &self.tree, path, &self.root)?;
        Ok(Some(leaf))
    }

    /// A proof in memory that it shares with those of the tree.
    pub fn shared(&mut self, alloc: Global, proof: Proof) -> Result<SharedProof, AllocError>
        ensures shared { IfOk result (λ shared. shared ≡ proof) }
        ensures same { self.new ≡ self.old }
    {
        self.bases.keep(alloc, proof)
    }

    /// Shuts a live leaf with a proof. It takes no memory.
    pub fn shut(&mut self, b: &Blocked, turn: &Turn, proof: SharedProof)
        requires kept { IsGroveOf b.now self.old }
        requires turn { IsLiveTurn self.old turn.now }
        requires sound { IsSoundProof b.now.blocking proof }
        ensures tree { self.new.tree ≡ shut_at self.old.tree turn.now.path proof }
        ensures root { self.new.root ≡ self.old.root }
        ensures queue { IsShutQueue (queue_of self.old.queue) turn.now (queue_of self.new.queue) }
        ensures kept { IsGroveOf b.now self.new }
        ensures standing { IsStanding self.new }
    {
        // For the proof alone: `b` stands in the contract.
        let _ = b;
        let path = turn.path.as_slice();
        let key = self.queue.key_of(&turn.bound, path);
        self.queue.take_out(&key);
        put(&mut self.tree, path, Tree::Shut(proof));
        self.live -= 1;
        self.count += 1;
    }

    /// Forks a live leaf at a sound split into two live leaves with one proof and the bound that it shows in the leaf's
    /// zone. The low part is made before the high one. Where memory is short the grove stays as it was.
    pub fn fork(
        &mut self,
        alloc: Global,
        b: &Blocked,
        turn: &Turn,
        fork: Fork,
    ) -> Result<(), AllocError>
        requires kept { IsGroveOf b.now self.old }
        requires turn { IsLiveTurn self.old turn.now }
        requires split { IsSoundSplit turn.now.zone fork.var fork.at }
        requires sound { IsSoundProof b.now.blocking fork.proof }
        requires keeps { KeepsBound b.now.blocking turn.now.zone fork.proof fork.bound }
        requires depth { turn.now.depth < greatest_depth Large }
        requires count { steps (certificate_tree self.old.tree) < 2 ^ 63 - 1 }
        ensures same { OnErr result (self.new ≡ self.old) }
        ensures tree { OnOk result (self.new.tree ≡ fork_at self.old.tree turn.now.path fork.var
            fork.at fork.proof fork.bound) }
        ensures root { self.new.root ≡ self.old.root }
        ensures queue { OnOk result (IsForkedQueue (queue_of self.old.queue) turn.now
            fork.bound (made self.old.tree) (queue_of self.new.queue)) }
        ensures kept { IsGroveOf b.now self.new }
        ensures standing { IsStanding self.new }
    {
        // For the proof alone: `b` stands in the contract.
        let _ = b;
        let number = self.live + self.count;
        fork_leaf(
            alloc,
            &mut self.tree,
            &mut self.queue,
            &mut self.bases,
            turn,
            number,
            fork,
        )?;
        self.live += 1;
        self.count += 1;
        self.depth = self.depth.max(turn.depth + 1);
        Ok(())
    }

    /// The tree.
    pub fn tree(&self) -> &Tree
        ensures tree { tree_of result.now ≡ self.now.tree }
        ensures standing { IsStanding self.now }
    {
        &self.tree
    }

    /// How many leaves are live.
    pub fn live(&self) -> u64
        ensures live { result ≡ live_count self.now.tree }
        ensures standing { IsStanding self.now }
    {
        self.live
    }

    /// How many splits and shut leaves there are together.
    pub fn count(&self) -> u64
        ensures count { result ≡ steps (certificate_tree self.now.tree) }
        ensures standing { IsStanding self.now }
    {
        self.count
    }

    /// The greatest depth of a node.
    pub fn depth(&self) -> u32
        ensures depth { result ≡ depth (certificate_tree self.now.tree) }
        ensures standing { IsStanding self.now }
    {
        self.depth
    }

    /// The least bound of the live leaves.
    pub fn least(&self) -> i64
        requires { 0 < live_count self.now.tree }
        ensures { IsLeastOf (live_bounds self.now.tree) result }
    {
        match self.queue.first() {
            None => unreachable!(),
            Some((key, _)) => bound_of(key),
        }
    }
}
