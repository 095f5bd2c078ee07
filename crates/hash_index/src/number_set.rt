// Numbers, each once.
ghost use Rattle.std.specs.Prelude.{◌≡◌, ◌+◌, ◌<◌, ◌^◌, ◌↔◌, ◌++◌, ◌∷◌, [], length, Contains, IfOk, IfSome, IfNone, IsTrue, MatchBool, OnOk, OnErr};
ghost use Rattle.hash_index.specs.Numbers.{mixed, IndexesNumbers};

use crate::index::HashIndex;
use std::alloc::{AllocError, Global};
use std::marker::Model;

// How many slots the index of an empty set has.
const FIRST_SLOTS: usize = 16;

// What numbers are multiplied by, modulo 2^64, so that near ones lie apart: 2^64 divided by the golden ratio.
const MULTIPLIER: u64 = 0x9e37_79b9_7f4a_7c15;

/// Numbers, each once, in the order in which they came, fewer than `2^32`. Contracts see their list.
#[derive(Drop)]
pub struct NumberSet {
    // The numbers.
    numbers: Vec<u64>,
    // Their hashes.
    index: HashIndex,
}

impl Model for NumberSet {
    ghost use Rattle.std.specs.Prelude.{ℕ, List, length, ◌<◌, ◌^◌};
    ghost use Rattle.hash_index.specs.Numbers.{IndexesNumbers};

    ghost Value = { List ℕ };

    ghost view = { λ s. s.numbers.items };

    ghost invariant = { λ s. IndexesNumbers s.index s.numbers.items × (length s.numbers.items < 2 ^ 32) };
}

impl NumberSet {
    /// No numbers yet.
    pub fn new(alloc: Global) -> Result<NumberSet, AllocError>
        ensures { IfOk result (λ set. set ≡ []) }
    {
        Ok(NumberSet {
            numbers: Vec::new(alloc),
            index: HashIndex::new(alloc, FIRST_SLOTS)?,
        })
    }

    /// Puts a number last that isn't there, and tells whether it is new. There is no room for more than `2^32 - 1` numbers.
    pub fn insert(&mut self, alloc: Global, number: u64) -> Result<bool, AllocError>
        ensures is_new { IfOk result (λ is_new. IsTrue is_new ↔ (¬ (Contains self.old number))) }
        ensures numbers { IfOk result (λ is_new.
            MatchBool is_new (self.new ≡ self.old ++ number ∷ []) (self.new ≡ self.old)) }
        ensures same { OnErr result (self.new ≡ self.old) }
    {
        if contains(&self.numbers, &self.index, number) {
            return Ok(false);
        }
        self.put(alloc, number)?;
        Ok(true)
    }

    // Puts a number last.
    fn put(&mut self, alloc: Global, number: u64) -> Result<(), AllocError>
        ensures put { OnOk result (self.new ≡ self.old ++ number ∷ []) }
        ensures same { OnErr result (self.new ≡ self.old) }
    {
        if self.numbers.len() + 1 >= 1 << 32 {
            return Err(AllocError);
        }
        grow(alloc, &self.numbers, &mut self.index)?;
        self.numbers.reserve(1)?;
        self.index.push(mixed(number))?;
        match self.numbers.push(number) {
            Ok(()) => Ok(()),
            Err(_) => unreachable!(),
        }
    }
}

// The hash of a number.
fn mixed(number: u64) -> u64
    ensures { result ≡ mixed number }
{
    number.wrapping_mul(MULTIPLIER) >> 32
}

// Whether a number is among others.
fn contains(numbers: &[u64], index: &HashIndex, number: u64) -> bool
    requires { IndexesNumbers index.now numbers.now }
    ensures { IsTrue result ↔ Contains numbers.now number }
{
    let mut last = index.last_of(mixed(number));
    while last > 0 {
        let place = last - 1;
        if numbers[place as usize] == number {
            return true;
        }
        last = index.last_before(place);
    }
    false
}

// Gives the index of numbers more slots where it has no more of them than numbers.
fn grow(alloc: Global, numbers: &[u64], index: &mut HashIndex) -> Result<(), AllocError>
    requires index { IndexesNumbers index.old numbers.now }
    requires few { length numbers.now < 2 ^ 32 }
    ensures { IndexesNumbers index.new numbers.now }
{
    if index.slots() <= numbers.len() {
        *index = indexed(alloc, numbers, 2 * numbers.len())?;
    }
    Ok(())
}

// The index of numbers with so many slots.
fn indexed(alloc: Global, numbers: &[u64], slots: usize) -> Result<HashIndex, AllocError>
    requires slots { 0 < slots }
    requires few { length numbers.now < 2 ^ 32 }
    ensures { IfOk result (λ index. IndexesNumbers index numbers.now) }
{
    let mut index = HashIndex::new(alloc, slots)?;
    for number in numbers {
        index.push(mixed(*number))?;
    }
    Ok(index)
}
