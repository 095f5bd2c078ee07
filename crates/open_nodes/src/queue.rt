// The queue of a tree's live leaves, in order of bound and then of making.
ghost use Rattle.std.specs.Prelude.{◌≡◌};

use crate::path::SharedPath;
use search_laws::Side;
use std::alloc::{AllocError, Global};
use std::collections::BTreeMap;

/// The paths of live leaves, by bound and number of making.
#[derive(Drop)]
pub struct LeafQueue {
    entries: BTreeMap<(i64, u64), SharedPath>,
}

impl std::marker::Model for LeafQueue {
    ghost use Rattle.open_nodes.specs.Queues.{Entries};

    ghost Value = { Entries };

    ghost view = { λ q. q.entries.entries };
}

impl LeafQueue {
    ghost use Rattle.std.specs.Prelude.{◌≡◌, ◌+◌, ◌<◌, ◌≤◌, ◌^◌, length, IsSome, OnOk, OnErr, IfSome, IfNone, List, None, Some, ℕ, ℤ};
    ghost use Rattle.search_laws.specs.declared.Side.{Side};
    ghost use Rattle.search_laws.specs.Queue.{IsEmptyQueue, IsWith, IsWithout, IsFirstEntry};
    ghost use Rattle.std.specs.Ordering.{is_eq};
    ghost use Rattle.std.specs.Map.{remove_entry};
    ghost use Rattle.std.specs.BTreeMap.{insert_entry};
    ghost use Rattle.open_nodes.specs.Queues.{key_cmp, queue_of, IsDivided, IsEntryAt, LiesBelow, IsFirstBelow};

    /// No entries.
    pub fn new(alloc: Global) -> LeafQueue
        ensures { IsEmptyQueue (queue_of result) }
    {
        LeafQueue {
            entries: BTreeMap::new(alloc),
        }
    }

    /// One entry more, under a key that has none.
    pub fn add(&mut self, key: (i64, u64), path: SharedPath) -> Result<(), AllocError>
        requires { queue_of self.old key.0 key.1 ≡ None }
        ensures added { OnOk result (IsWith (queue_of self.old) key.0 key.1 path
            (queue_of self.new)) }
        ensures entries { OnOk result (self.new ≡ insert_entry key_cmp self.old key path) }
        ensures same { OnErr result (self.new ≡ self.old) }
    {
        self.entries.insert(key, path)?;
        Ok(())
    }

    /// The queue without the entry of a key.
    pub fn take_out(&mut self, key: &(i64, u64))
        ensures without { IsWithout (queue_of self.old) key.now.0 key.now.1 (queue_of self.new) }
        ensures entries { self.new ≡ remove_entry (λ k. is_eq (key_cmp key.now k)) self.old }
    {
        let _ = self.entries.remove(key);
    }

    /// The first entry: that of least bound, and of those the first made.
    pub fn first(&self) -> Option<(&(i64, u64), &SharedPath)>
        ensures some { IfSome result (λ e. IsFirstEntry (queue_of self.now) e.0.now.0
            e.0.now.1 e.1.now) }
        ensures none { IfNone result (IsEmptyQueue (queue_of self.now)) }
    {
        match self.entries.first_key_value() {
            None => None,
            Some((key, path)) => Some((key, path)),
        }
    }

    /// The entry that exactly `place` others come before, or None where there are no more entries than that. The walk from
    /// the front is `place` entries long.
    pub fn at_place(&self, place: u64) -> Option<(&(i64, u64), &SharedPath)>
        ensures some { IfSome result (λ e. IsEntryAt self.now place e.0.now.0 e.0.now.1 e.1.now) }
        ensures none { IfNone result (length self.now ≤ place) }
    {
        match self.entries.iter().nth(place as usize) {
            None => None,
            Some((key, path)) => Some((key, path)),
        }
    }

    /// The first of the entries whose leaves lie at or below a path, or None where there is no such entry. The walk from the
    /// front passes all entries before it.
    pub fn first_below(&self, above: &[Side]) -> Option<(&(i64, u64), &SharedPath)>
        ensures some { IfSome result (λ e. IsFirstBelow (queue_of self.now) above.now e.0.now.0
            e.0.now.1 e.1.now) }
        ensures none { IfNone result ((z : ℤ) (n : ℕ) (path : List Side) →
            queue_of self.now z n ≡ Some path → LiesBelow above.now path → ⊥) }
    {
        for (key, path) in self.entries.range(..) {
            if path.lies_below(above) {
                return Some((key, path));
            }
        }
        None
    }

    /// The path of a key that has an entry.
    pub fn path_at(&self, key: &(i64, u64)) -> &SharedPath
        requires { IsSome (queue_of self.now key.now.0 key.now.1) }
        ensures { queue_of self.now key.now.0 key.now.1 ≡ Some result.now }
    {
        match self.entries.get(key) {
            Some(path) => path,
            None => unreachable!(),
        }
    }

    /// Puts two entries in place of one, under a key and that of the next number. Where memory is short nothing changes.
    pub fn divide(
        &mut self,
        key: &(i64, u64),
        next: (i64, u64),
        low: SharedPath,
        high: SharedPath,
    ) -> Result<(), AllocError>
        requires there { IsSome (queue_of self.old key.now.0 key.now.1) }
        requires none { queue_of self.old next.0 next.1 ≡ None }
        requires none_behind { queue_of self.old next.0 (next.1 + 1) ≡ None }
        requires fits { next.1 + 1 < 2 ^ 64 }
        ensures divided { OnOk result (IsDivided (queue_of self.old) key.now.0 key.now.1 next.0
            next.1 low high (queue_of self.new)) }
        ensures same { OnErr result (self.new ≡ self.old) }
    {
        let behind = key_at(&next.0, next.1 + 1);
        self.add(key_at(&next.0, next.1), low)?;
        if let Err(error) = self.add(behind, high) {
            self.take_out(&next);
            return Err(error);
        }
        self.take_out(key);
        Ok(())
    }

    /// The key of a path that stands in the queue under this bound.
    pub fn key_of(&self, bound: &i64, path: &[Side]) -> (i64, u64)
        requires { (n : ℕ) × (queue_of self.now bound.now n ≡ Some path.now) }
        ensures { queue_of self.now result.0 result.1 ≡ Some path.now }
    {
        let start = key_at(bound, 0);
        for (key, other) in self.entries.range(start..) {
            if other.is(path) {
                return *key;
            }
        }
        unreachable!()
    }
}

/// The key of a bound and a number.
pub fn key_at(bound: &i64, number: u64) -> (i64, u64)
    ensures { result ≡ (bound.now, number) }
{
    (*bound, number)
}

/// The bound of a key.
pub fn bound_of(key: &(i64, u64)) -> i64
    ensures { result ≡ key.now.0 }
{
    key.0
}
