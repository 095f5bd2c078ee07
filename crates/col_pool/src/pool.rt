// The columns of a block.
ghost use Rattle.std.specs.Prelude.{◌≡◌, ℕ, ◌<◌, ◌≤◌, ◌++◌, ◌∷◌, [], length, drop, slice_get, Some, IsTrue, ◌↔◌, IfOk, IfErr, OnOk, OnErr};
ghost use Rattle.bp_theory.specs.Bound.{IsPoint};
ghost use Rattle.block_program.specs.Blocked.{RootBlock};
ghost use Rattle.col_pool.specs.Indexed.{hash_of};
ghost use Rattle.col_pool.specs.Pools.{AreApart, HasSmallSums, IsAbsent, IsPoolOf, IsPooled, HasAdded, HasKept, HasPoolFault, HasKeepFault, root_block};

use crate::activities::{activities, cost_of};
use crate::column::Column;
use crate::fault::{Added, PoolFault};
use crate::index::{grow, hash_of, place_of};
use crate::within::Within;
use block_program::{Block, Blocked};
use bp_model::{first_missed, first_outside};
use bp_theory::{Items, Span};
use hash_index::HashIndex;
use std::alloc::{AllocError, Global};
use std::marker::Model;

/// How many columns a pool may hold.
pub const MAX_COLUMNS: usize = 65_536;

// How many slots the index of an empty pool has.
const FIRST_SLOTS: usize = 16;

/// Columns of a block, numbered from 0 in the order in which they came, at most 65,536. No two have the same point.
/// Contracts see the list of the columns.
#[derive(Drop)]
pub struct Pool {
    // The columns, by number.
    columns: Vec<Column>,
    // The hashes of their points.
    index: HashIndex,
}

impl Model for Pool {
    ghost use Rattle.std.specs.Prelude.{List, length, ◌≤◌};
    ghost use Rattle.col_pool.specs.declared.column.Column.{Column};
    ghost use Rattle.col_pool.specs.Pools.{AreApart};
    ghost use Rattle.col_pool.specs.Indexed.{Indexes};

    ghost Value = { List Column };

    ghost view = { λ p. p.columns.items };

    ghost invariant = { λ p. AreApart p.columns.items × (length p.columns.items ≤ 65536) ×
        Indexes p.index p.columns.items };
}

impl Pool {
    /// No columns yet of a block of this program. They are a pool of that block.
    pub fn make(alloc: Global, b: &Blocked, block: u32) -> Result<Pool, AllocError>
        requires { block < length b.now.blocking.blocks }
        ensures empty { IfOk result (λ pool. pool ≡ []) }
        ensures pool { IfOk result (IsPoolOf (root_block b.now block)) }
    {
        // For the proof alone: `b` is formed.
        let _ = b.blocks();
        Ok(Pool {
            columns: Vec::new(alloc),
            index: HashIndex::new(alloc, FIRST_SLOTS)?,
        })
    }

    /// How many columns there are.
    pub fn len(&self) -> u32
        ensures len { result ≡ length self.now }
        ensures few { result ≤ 65536 }
        ensures apart { AreApart self.now }
    {
        self.columns.len() as u32
    }

    /// Whether there are no columns.
    pub fn is_empty(&self) -> bool
        ensures { IsTrue result ↔ (self.now ≡ []) }
    {
        self.len() == 0
    }

    /// The column of a number: point, cost and activities. In a pool of a block it is a column of that block.
    pub fn column(&self, id: u32) -> &Column
        requires { id < length self.now }
        ensures column { slice_get self.now id ≡ Some result.now }
        ensures pooled { (k : RootBlock) → IsPoolOf k self.now → IsPooled k result.now }
    {
        &self.columns.as_slice()[id as usize]
    }

    /// Adds a point of the block as the last column, if it isn't there. A point is refused, in this order, for the first
    /// variable outside its span at the root, for the first row of the block that it doesn't meet, and, where it isn't
    /// there, for a full pool. After an error the pool is as before.
    pub fn add(&mut self, alloc: Global, block: &Block, point: &[i64]) -> Result<Added, PoolFault>
        requires pool { IsPoolOf block.now self.old }
        requires each { length point.now ≡ length block.now.block.copies }
        ensures added { IfOk result (HasAdded block.now self.old self.new point.now) }
        ensures fault { IfErr result (HasPoolFault block.now self.old point.now) }
        ensures same { OnErr result (self.new ≡ self.old) }
        ensures pool { IsPoolOf block.now self.new }
    {
        if let Some(place) = first_outside(block.spans(), point) {
            return Err(PoolFault::Outside(place));
        }
        if let Some(row) = first_missed(block.rows(), point) {
            return Err(PoolFault::Row(row));
        }
        match made(alloc, block, point) {
            Ok(column) => self.keep(alloc, column),
            Err(_) => Err(PoolFault::NoMemory),
        }
    }

    // Puts a column last, if there is none with its point.
    fn keep(&mut self, alloc: Global, column: Column) -> Result<Added, PoolFault>
        ensures kept { IfOk result (HasKept self.old self.new column) }
        ensures fault { IfErr result (HasKeepFault self.old column) }
        ensures same { OnErr result (self.new ≡ self.old) }
    {
        let hash = hash_of(&column);
        if let Some(place) = place_of(&self.columns, &self.index, hash, &column) {
            return Ok(Added::Known(place));
        }
        let number = self.columns.len();
        if number >= MAX_COLUMNS {
            return Err(PoolFault::Full);
        }
        match self.put(alloc, hash, column) {
            Ok(()) => Ok(Added::New(number as u32)),
            Err(_) => Err(PoolFault::NoMemory),
        }
    }

    // Puts a column last whose point no other one has, with its hash.
    fn put(&mut self, alloc: Global, hash: u64, column: Column) -> Result<(), AllocError>
        requires hash { hash ≡ hash_of column }
        requires new { IsAbsent self.old column.point }
        requires room { length self.old < 65536 }
        ensures put { OnOk result (self.new ≡ self.old ++ column ∷ []) }
        ensures same { OnErr result (self.new ≡ self.old) }
    {
        grow(alloc, &self.columns, &mut self.index)?;
        self.columns.reserve(1)?;
        self.index.push(hash)?;
        match self.columns.push(column) {
            Ok(()) => Ok(()),
            Err(_) => unreachable!(),
        }
    }

    /// Takes out the first column, if there is one. The others move up by one.
    pub fn drop_oldest(&mut self)
        ensures { self.new ≡ drop 1 self.old }
    {
        if self.columns.is_empty() {
            return;
        }
        let _ = self.columns.remove(0);
        self.index.drop_first();
    }

    /// The numbers of the columns inside a zone of the block, ascending. It takes no memory.
    pub fn within<'a>(&'a self, zone: &'a [Span]) -> Within<'a>
        ensures left { result.left.now ≡ self.now }
        ensures zone { result.zone.now ≡ zone.now }
        ensures first { result.place ≡ 0 }
    {
        Within::begin(self.columns.as_slice(), zone)
    }
}

// A copy of a point.
fn copied(alloc: Global, point: &[i64]) -> Result<Items<i64>, AllocError>
    ensures { IfOk result (λ copy. copy ≡ point.now) }
{
    let copy = point.to_vec(alloc)?;
    Ok(Items::from_vec(copy))
}

// The column of a point of a block.
fn made(alloc: Global, block: &Block, point: &[i64]) -> Result<Column, AllocError>
    requires small { HasSmallSums block.now }
    requires point { IsPoint block.now.block.rows block.now.spans point.now }
    requires each { length point.now ≡ length block.now.block.copies }
    ensures pooled { IfOk result (IsPooled block.now) }
    ensures point { IfOk result (λ column. column.point ≡ point.now) }
{
    let cost = cost_of(block, point);
    let acts = activities(alloc, block, point)?;
    let point = copied(alloc, point)?;
    Ok(Column { point, cost, acts })
}
