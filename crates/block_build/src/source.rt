// What blocks are assembled from, and the coefficients of copies.
ghost use Rattle.std.specs.Prelude.{◌≡◌, ◌<◌, ◌^◌, ◌+◌, ◌++◌, ◌∷◌, [], ℕ, negsuc, IfOk, OnOk};
ghost use Rattle.bp_theory.specs.Decomposition.{HasLargeLinks, HasPlaces};
ghost use Rattle.block_build.specs.Homes.{link_entries};
ghost use Rattle.block_build.specs.Source.{IsSource, IsStanding};
ghost use Rattle.block_program.specs.Cuts.{AreCutRows};

use crate::columns::columns_of;
use crate::gather::master_coefs;
use crate::homes::homes_of;
use crate::links::first_links;
use crate::stand::{coefficient, place_of};
use bp_model::{Dec, Model};
use bp_theory::{Items, Row};
use std::alloc::{AllocError, Global};

/// Where the variables of a model stand, by variables.
#[derive(Drop)]
pub struct Standing {
    /// For each variable the model's rows in which it stands, each with its coefficient.
    pub columns: Vec<Items<(u32, i64)>>,
    /// For each variable the blocks in whose rows it stands, ascending.
    pub homes: Vec<Items<u32>>,
}

/// What blocks are assembled from: a model, a decomposition of it and the rows of cuts, and by variables the rows in
/// which each stands, its homes, the number of its first link row, and the cuts in which it stands.
pub struct Source<'a> {
    /// The model.
    pub model: &'a Model,
    /// The decomposition.
    pub dec: &'a Dec,
    /// The rows of the cuts.
    pub cuts: &'a [Row],
    /// For each variable the model's rows in which it stands, each with its coefficient.
    pub columns: Vec<Items<(u32, i64)>>,
    /// For each variable the blocks in whose rows it stands, ascending.
    pub homes: Vec<Items<u32>>,
    /// For each variable the number of its first link row.
    pub links: Vec<u32>,
    /// The number behind the last link row, which is the first cut's.
    pub end: u32,
    /// For each variable the cuts in which it stands, each with its coefficient.
    pub cut_columns: Vec<Items<(u32, i64)>>,
}

// What goes with one is proved here once, and not again wherever one goes.
impl<'a> Drop for Source<'a> {
    fn drop(self) {
        let Source {
            model: _,
            dec: _,
            cuts: _,
            columns: _,
            homes: _,
            links: _,
            end: _,
            cut_columns: _,
        } = self;
    }
}

impl<'a> Source<'a> {
    ghost use Rattle.std.specs.Prelude.{◌≡◌, ◌<◌, length, slice_index_or, IfOk};
    ghost use Rattle.bp_theory.specs.Decomposition.{HasPlaces, place_of};
    ghost use Rattle.block_build.specs.Columns.{AreColumns};
    ghost use Rattle.block_program.specs.Cuts.{AreCutRows};
    ghost use Rattle.block_build.specs.Homes.{homes_in, AreHomes, IsHeld};
    ghost use Rattle.block_build.specs.Source.{IsSource, copy_in, first_entries};

    /// The place of a block among a variable's homes: 0 where its copy there is the first.
    pub fn copy_place(&self, block: u32, var: u32) -> usize
        requires source { IsSource self.now }
        requires var { var < length self.now.model.now.program.spans }
        ensures { result ≡ place_of (homes_in self.now.model.now.program self.now.dec.now var)
            block }
    {
        place_of(self.homes[var as usize].as_slice(), block)
    }

    /// The cost of a variable's copy in a block, minimised and not scaled: the variable's at its first copy, 0 at a
    /// further one.
    pub fn copy_cost(&self, block: u32, var: u32) -> i64
        requires source { IsSource self.now }
        requires var { var < length self.now.model.now.program.spans }
        requires held { IsHeld self.now.model.now.program self.now.dec.now var block }
        ensures { result ≡ (copy_in self.now block var).cost }
    {
        if self.copy_place(block, var) == 0 {
            coefficient(self.model.costs(), var)
        } else {
            0
        }
    }

    /// The coefficients of a variable's copy in a block in the rows that proofs may name: of a first copy those of the
    /// variable in master rows and cuts, and 1 in each of its link rows; of a further copy -1 in its own link row.
    pub fn copy_coefs(
        &self,
        alloc: Global,
        block: u32,
        var: u32,
    ) -> Result<Items<(u32, i64)>, AllocError>
        requires source { IsSource self.now }
        requires var { var < length self.now.model.now.program.spans }
        requires held { IsHeld self.now.model.now.program self.now.dec.now var block }
        ensures { IfOk result (λ coefs. coefs ≡ (copy_in self.now block var).coefs) }
    {
        let place = self.copy_place(block, var);
        if place == 0 {
            self.first_coefs(alloc, var)
        } else {
            further_coefs(alloc, self.links[var as usize], place)
        }
    }

    // The coefficients of a variable's first copy.
    fn first_coefs(&self, alloc: Global, var: u32) -> Result<Items<(u32, i64)>, AllocError>
        requires source { IsSource self.now }
        requires var { var < length self.now.model.now.program.spans }
        ensures { IfOk result (λ coefs. coefs ≡ first_entries self.now var) }
    {
        let column = self.columns[var as usize].as_slice();
        let further = self.homes[var as usize].len().saturating_sub(1);
        let mut coefs = master_coefs(alloc, column, self.dec.places())?;
        push_links(&mut coefs, self.links[var as usize], further)?;
        push_entries(&mut coefs, self.cut_columns[var as usize].as_slice())?;
        Ok(Items::from_vec(coefs))
    }
}

/// Where the variables of a model stand, or want of memory.
pub fn standing_of(alloc: Global, model: &Model, dec: &Dec) -> Result<Standing, AllocError>
    requires { HasPlaces model.now.program dec.now }
    ensures { IfOk result (IsStanding model.now.program dec.now) }
{
    let columns = columns_of(alloc, model.vars(), 0, model.all_rows())?;
    let homes = homes_of(alloc, dec.blocks(), columns.as_slice(), dec.places())?;
    Ok(Standing { columns, homes })
}

/// The source of a model, a decomposition of it whose links are few, and rows of cuts, or want of memory.
pub fn source_of<'a>(
    alloc: Global,
    model: &'a Model,
    dec: &'a Dec,
    cuts: &'a [Row],
    standing: Standing,
) -> Result<Source<'a>, AllocError>
    requires places { HasPlaces model.now.program dec.now }
    requires cuts { AreCutRows model.now.program cuts.now }
    requires standing { IsStanding model.now.program dec.now standing }
    requires moderate { HasLargeLinks model.now.program dec.now → ⊥ }
    ensures model { IfOk result (λ s. s.model.now ≡ model.now) }
    ensures dec { IfOk result (λ s. s.dec.now ≡ dec.now) }
    ensures cuts { IfOk result (λ s. s.cuts.now ≡ cuts.now) }
    ensures source { IfOk result IsSource }
{
    // For the proof alone: how many blocks there are at most.
    let _blocks = dec.blocks();
    let found = first_links(alloc, model.rows(), standing.homes.as_slice())?;
    let end = found.1;
    let cut_columns = columns_of(alloc, model.vars(), end, cuts)?;
    Ok(Source {
        model,
        dec,
        cuts,
        columns: standing.columns,
        homes: standing.homes,
        links: found.0,
        end,
        cut_columns,
    })
}

// The coefficients of the copy at a place behind the first: -1 in its link row.
fn further_coefs(alloc: Global, link: u32, place: usize) -> Result<Items<(u32, i64)>, AllocError>
    requires behind { 0 < place }
    requires few { link + place < 2 ^ 32 }
    ensures { IfOk result (λ coefs. (n : ℕ) → n + 1 ≡ link + place → coefs ≡ (n, negsuc 0) ∷ []) }
{
    let mut coefs = Items::with_capacity(alloc, 1)?;
    coefs.push((link + (place - 1) as u32, -1))?;
    Ok(coefs)
}

// A coefficient of 1 in each of so many link rows, from one on.
fn push_links(coefs: &mut Vec<(u32, i64)>, first: u32, count: usize) -> Result<(), AllocError>
    requires { first + count < 2 ^ 32 }
    ensures { OnOk result (coefs.new.items ≡ coefs.old.items ++ link_entries first count) }
{
    for i in 0..count {
        coefs.push((first + i as u32, 1))?;
    }
    Ok(())
}

// Entries behind others.
fn push_entries(coefs: &mut Vec<(u32, i64)>, entries: &[(u32, i64)]) -> Result<(), AllocError>
    ensures { OnOk result (coefs.new.items ≡ coefs.old.items ++ entries.now) }
{
    for entry in entries {
        coefs.push(*entry)?;
    }
    Ok(())
}
