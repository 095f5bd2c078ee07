// The states of a layer, each once as far as a table by hash finds them.
ghost use Rattle.std.specs.Prelude.{◌≡◌, ◌<◌, IfOk, vec_len};
ghost use Rattle.std.specs.Bool.{OnTrue};

use bp_theory::{Items, Span};
use std::alloc::{AllocError, Global};

/// How many places of the table are looked at for a state.
const PROBES: usize = 64;

/// The places of an empty table.
const FIRST_PLACES: usize = 64;

/// States, and a table of places that hold one more than a state's number, or 0. The table is a hint: each state that it
/// names is compared.
#[derive(Drop)]
pub struct States {
    /// By number of the state: its windows, by row; a window holds what the variables behind may add up to.
    pub list: Vec<Items<Span>>,
    // The table: by place one more than a number, or 0.
    places: Vec<usize>,
    // The table has a place.
    ghost room: { 0 < vec_len places },
}

/// A hash with one number more.
pub fn mixed(hash: u64, number: u64) -> u64 {
    (hash.rotate_left(23) ^ number).wrapping_mul(0x9e37_79b9_7f4a_7c15)
}

/// The hash of a state.
fn hash_of(state: &[Span]) -> u64 {
    let mut hash = 0x517c_c1b7_2722_0a95;
    for window in state {
        hash = mixed(hash, window.lo.unsigned_abs());
        hash = mixed(hash, window.hi.unsigned_abs());
    }
    hash ^ (hash >> 29)
}

/// Whether two windows are the same.
fn is_window(a: &Span, b: &Span) -> bool
    ensures { OnTrue result (a.now ≡ b.now) }
{
    a.lo == b.lo && a.hi == b.hi
}

/// Whether two states are the same.
fn is_same(a: &[Span], b: &[Span]) -> bool
    ensures { OnTrue result (a.now ≡ b.now) }
{
    if a.len() != b.len() {
        return false;
    }
    for row in 0..a.len() {
        if !is_window(&a[row], &b[row]) {
            return false;
        }
    }
    true
}

/// A copy of a state.
fn copied_state(alloc: Global, state: &[Span]) -> Result<Items<Span>, AllocError>
    ensures { IfOk result (λ copy. copy ≡ state.now) }
{
    let copy = state.to_vec(alloc)?;
    Ok(Items::from_vec(copy))
}

/// The place of a table at a step from a hash.
pub fn place_at(hash: u64, step: usize, count: usize) -> usize
    requires { 0 < count }
    ensures { result < count }
{
    (hash as usize).wrapping_add(step) % count
}

/// Puts a state's number into the first empty place from its hash, if one is near.
pub fn note(places: &mut Vec<usize>, hash: u64, number: usize)
    requires { 0 < vec_len places.old }
    ensures { vec_len places.new ≡ vec_len places.old }
{
    for step in 0..PROBES {
        let place = place_at(hash, step, places.len());
        if places[place] == 0 {
            places[place] = number;
            return;
        }
    }
}

/// A table of so many places with all states of a list.
fn table_of(alloc: Global, list: &Vec<Items<Span>>, count: usize) -> Result<Vec<usize>, AllocError>
    requires { 0 < count }
    ensures { IfOk result (λ places. 0 < vec_len places) }
{
    let mut places = Vec::from_elem(alloc, 0, count)?;
    for k in 0..list.len() {
        note(&mut places, hash_of(list[k].as_slice()), k + 1);
    }
    Ok(places)
}

impl States {
    ghost use Rattle.std.specs.Prelude.{◌≡◌, [], IfOk, IfSome};
    ghost use Rattle.state_graph.specs.Windows.{IsFound, IsGrown};

    /// No states yet.
    pub fn new(alloc: Global) -> Result<States, AllocError>
        ensures { IfOk result (λ states. states.list.items ≡ []) }
    {
        Ok(States {
            list: Vec::new(alloc),
            places: Vec::from_elem(alloc, 0, FIRST_PLACES)?,
        })
    }

    /// The states.
    pub fn into_list(self) -> Vec<Items<Span>>
        ensures { result.items ≡ self.list.items }
    {
        self.list
    }

    /// The number of a state, if the table finds it.
    fn find(&self, state: &[Span], hash: u64) -> Option<usize>
        ensures { IfSome result (λ k. IsFound self.now.list.items state.now k) }
    {
        for step in 0..PROBES {
            let kept = self.places[place_at(hash, step, self.places.len())];
            if kept == 0 {
                return None;
            }
            if kept <= self.list.len() && is_same(self.list[kept - 1].as_slice(), state) {
                return Some(kept - 1);
            }
        }
        None
    }

    /// Makes the table greater where it is half full.
    fn widen(&mut self, alloc: Global) -> Result<(), AllocError>
        ensures { IfOk result (λ _. self.new.list.items ≡ self.old.list.items) }
    {
        if self.list.len() / 2 >= self.places.len() / 4 {
            let count = self.places.len().saturating_mul(4);
            self.places = table_of(alloc, &self.list, count)?;
        }
        Ok(())
    }

    /// The number of a state, which is added where the table doesn't find it.
    pub fn find_or_add(&mut self, alloc: Global, state: &[Span]) -> Result<usize, AllocError>
        ensures found { IfOk result (λ k. IsFound self.new.list.items state.now k) }
        ensures grown { IfOk result (λ _. IsGrown self.old.list.items state.now
            self.new.list.items) }
    {
        let hash = hash_of(state);
        if let Some(number) = self.find(state, hash) {
            return Ok(number);
        }
        self.widen(alloc)?;
        let number = self.list.len();
        self.list.push(copied_state(alloc, state)?)?;
        note(&mut self.places, hash, number + 1);
        Ok(number)
    }
}
