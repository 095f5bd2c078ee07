// An index of hashes in chains.
ghost use Rattle.std.specs.Prelude.{◌≡◌, ◌-◌, ◌<◌, length, map};

use std::alloc::{AllocError, Global};

/// An index of hashes: those that share a slot are chained, from the last to the first.
#[derive(Drop)]
pub struct HashIndex {
    // For each slot one more than the number of the last hash in it, 0 where there is none.
    heads: Vec<u32>,
    // For each hash one more than the number of the last one before it in its slot, 0 where there is none.
    links: Vec<u32>,
    // There is a slot: that of a hash is its rest by their number.
    ghost slotted: { 0 < length heads.items },
}

impl HashIndex {
    ghost use Rattle.std.specs.Prelude.{◌≡◌, ℕ, ◌+◌, ◌<◌, ◌^◌, ◌++◌, ◌∷◌, [], List, length, drop, slice_index_or, OnOk, OnErr, IfOk};
    ghost use Rattle.hash_index.specs.Indexed.{IsIndexOf, slot_in};

    /// No hashes yet, and so many slots.
    pub fn new(alloc: Global, slots: usize) -> Result<HashIndex, AllocError>
        requires { 0 < slots }
        ensures { IfOk result (λ index. IsIndexOf index []) }
    {
        Ok(HashIndex {
            heads: Vec::from_elem(alloc, 0, slots)?,
            links: Vec::new(alloc),
        })
    }

    /// How many slots there are.
    pub fn slots(&self) -> usize
        ensures { result ≡ length self.now.heads.items }
    {
        self.heads.len()
    }

    // The slot of a hash.
    fn slot_of(&self, hash: u64) -> usize
        ensures slot { result ≡ slot_in self.now hash }
        ensures there { result < length self.now.heads.items }
    {
        (hash % self.heads.len() as u64) as usize
    }

    /// Puts a hash last.
    pub fn push(&mut self, hash: u64) -> Result<(), AllocError>
        requires { length self.old.links.items + 1 < 2 ^ 32 }
        ensures added { (hashes : List ℕ) → IsIndexOf self.old hashes →
            OnOk result (IsIndexOf self.new (hashes ++ hash ∷ [])) }
        ensures slots { length self.new.heads.items ≡ length self.old.heads.items }
        ensures same { (hashes : List ℕ) → IsIndexOf self.old hashes →
            OnErr result (IsIndexOf self.new hashes) }
    {
        let slot = self.slot_of(hash);
        let last = self.heads[slot];
        self.links.push(last)?;
        self.heads[slot] = self.links.len() as u32;
        Ok(())
    }

    /// Takes out the first hash.
    pub fn drop_first(&mut self)
        requires { 0 < length self.old.links.items }
        ensures { (hashes : List ℕ) → IsIndexOf self.old hashes →
            IsIndexOf self.new (drop 1 hashes) }
    {
        let _ = self.links.remove(0);
        lower(&mut self.links);
        lower(&mut self.heads);
    }

    /// One more than the number of the last hash in the slot of one, 0 where there is none.
    pub fn last_of(&self, hash: u64) -> u32
        ensures last { result ≡ slice_index_or self.now.heads.items (slot_in self.now hash) 0 }
        ensures there { slot_in self.now hash < length self.now.heads.items }
    {
        self.heads[self.slot_of(hash)]
    }

    /// One more than the number of the last hash before one in its slot, 0 where there is none.
    pub fn last_before(&self, number: u32) -> u32
        requires { number < length self.now.links.items }
        ensures { result ≡ slice_index_or self.now.links.items number 0 }
    {
        self.links[number as usize]
    }
}

// Makes each number one less, but for 0.
fn lower(numbers: &mut [u32])
    ensures { numbers.new ≡ map (λ n. n - 1) numbers.old }
{
    for i in 0..numbers.len() {
        numbers[i] = numbers[i].saturating_sub(1);
    }
}
