// The decomposition of a model into blocks, as a text tells it.
ghost use Rattle.std.specs.Prelude.{◌≡◌, ◌<◌, ◌↔◌, All, IfOk, IsTrue, None, map};
ghost use Rattle.bp_theory.specs.Decomposition.{IsPlace};

use crate::model::Model;
use bp_theory::{Items, Row};
use std::alloc::{AllocError, Global};

/// A decomposition: the number of its blocks, for each row its block or the master, and the listed variables with
/// their places, at most 131,072 blocks. It goes with the model that it was made for.
pub struct Dec {
    // At most 131,072. The blocks of single variables, which a program in blocks adds, are not counted.
    blocks: u32,
    // By number of the row: its block, from 0, or none for a master row.
    places: Items<Option<u32>>,
    // In the order of the text: the number of a variable, and the block that it is listed with, or none for the master.
    // A variable may be listed several times.
    listed: Items<(u32, Option<u32>)>,
}

// What goes with one is proved here once, and not again wherever one goes.
impl Drop for Dec {
    fn drop(self) {
        let Dec {
            blocks: _,
            places: _,
            listed: _,
        } = self;
    }
}

impl std::marker::Model for Dec {
    ghost use Rattle.bp_theory.specs.Decomposition.{Decomposition};

    ghost Value = { Decomposition };

    ghost view = { λ d. record { blocks = d.blocks; places = d.places; listed = d.listed } };

    ghost use Rattle.std.specs.Prelude.{◌≤◌};

    ghost invariant = { λ d. d.blocks ≤ 131072 };
}

impl Dec {
    ghost use Rattle.std.specs.Prelude.{◌≡◌, ◌<◌, length, slice_get, Some, IfOk, IsTrue, ◌≤◌, ◌↔◌};
    ghost use Rattle.bp_theory.specs.Decomposition.{HasPlaces};
    ghost use Rattle.bp_model.specs.Dec.{plain_of, GoesWith};

    /// The decomposition of so many blocks, with each row's block (none: the master), and the listed variables
    /// with their blocks (none: the master).
    pub fn make(blocks: u32, places: Items<Option<u32>>, listed: Items<(u32, Option<u32>)>) -> Dec
        requires { blocks ≤ 131072 }
        ensures { result ≡ record { blocks = blocks; places = places; listed = listed } }
    {
        Dec {
            blocks,
            places,
            listed,
        }
    }

    /// The decomposition without a text: every row is a master row.
    pub fn plain(alloc: Global, model: &Model) -> Result<Dec, AllocError>
        ensures value { IfOk result (λ dec. dec ≡ plain_of model.now.program) }
        ensures places { IfOk result (λ dec. HasPlaces model.now.program dec) }
    {
        let places = master_places(alloc, model.all_rows())?;
        Ok(Dec {
            blocks: 0,
            places: Items::from_vec(places),
            listed: Items::new(alloc),
        })
    }

    /// Whether the decomposition goes with a model: each row has a place, and blocks and variables are there.
    pub fn goes_with(&self, model: &Model) -> bool
        ensures { IsTrue result ↔ GoesWith model.now.program self.now }
    {
        if self.places.len() != model.rows() as usize {
            return false;
        }
        if !are_places(self.blocks, self.places.as_slice()) {
            return false;
        }
        are_listed(model.vars(), self.blocks, self.listed.as_slice())
    }

    /// How many blocks there are.
    pub fn blocks(&self) -> u32
        ensures blocks { result ≡ self.now.blocks }
        ensures few { result ≤ 131072 }
    {
        self.blocks
    }

    /// A row's block, or none for a master row.
    pub fn block_of(&self, row: u32) -> Option<u32>
        requires { row < length self.now.places }
        ensures { slice_get self.now.places row ≡ Some result }
    {
        self.places.as_slice()[row as usize]
    }

    /// Each row's block, or none for a master row.
    pub fn places(&self) -> &[Option<u32>]
        ensures { result.now ≡ self.now.places }
    {
        self.places.as_slice()
    }

    /// The listed variables with their blocks, or none under the master, in order.
    pub fn listed(&self) -> &[(u32, Option<u32>)]
        ensures { result.now ≡ self.now.listed }
    {
        self.listed.as_slice()
    }
}

// A master row for each row.
fn master_places(alloc: Global, rows: &[Row]) -> Result<Vec<Option<u32>>, AllocError>
    ensures { IfOk result (λ places. places.items ≡ map (λ row. None) rows.now) }
{
    rows.iter().map(|_| None).collect(alloc)
}

// Whether a place is the master or a block that is there.
fn is_place(blocks: u32, place: &Option<u32>) -> bool
    ensures { IsTrue result ↔ IsPlace blocks place.now }
{
    match place {
        None => true,
        Some(block) => *block < blocks,
    }
}

// Whether each place is the master or a block that is there.
fn are_places(blocks: u32, places: &[Option<u32>]) -> bool
    ensures { IsTrue result ↔ All (IsPlace blocks) places.now }
{
    places.iter().all(|place| is_place(blocks, place))
}

// Whether a listed variable and its place are there.
fn is_listed(vars: u32, blocks: u32, entry: &(u32, Option<u32>)) -> bool
    ensures { IsTrue result ↔ ((entry.now.0 < vars) × IsPlace blocks entry.now.1) }
{
    if entry.0 >= vars {
        return false;
    }
    is_place(blocks, &entry.1)
}

// Whether the listed variables and their places are there.
fn are_listed(vars: u32, blocks: u32, listed: &[(u32, Option<u32>)]) -> bool
    ensures { IsTrue result ↔ All (λ e. (e.0 < vars) × IsPlace blocks e.1) listed.now }
{
    listed.iter().all(|entry| is_listed(vars, blocks, entry))
}
