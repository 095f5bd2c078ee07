// What a search keeps from node to node: the pricers, and the points that they gave, as columns.
ghost use Rattle.std.specs.Prelude.{◌≡◌, ◌<◌, IfOk, All, length};
ghost use Rattle.block_pricers.specs.Forms.{forms_in};
ghost use Rattle.block_pricers.specs.Works.{forms_of};
ghost use Rattle.col_pool.specs.Stores.{IsStoreOf};
ghost use Rattle.node_memory.specs.Pools.{AreMadeFor};

use crate::budget::PricingBudget;
use crate::node::NodeContext;
use block_class::Classes;
use block_program::{Blocked, Zone};
use bp_theory::Proof;
use col_pool::{Column, Pool, Store};
use compact_relaxation::{CompactRelaxation, has_no_block_rows};
use pricing_problem::Cap;
use std::alloc::{AllocError, Global};

/// How many numbers the points of all columns may have until pools are emptied.
const MOST_NUMBERS: usize = 1 << 22;

/// What a search keeps from node to node: pricers, columns and the compact relaxation. Each column is a point of its
/// class's first block, and no pool has two with the same point.
pub struct Pools {
    /// The pricers of the program's blocks, and what heuristics may price with them.
    pub budget: PricingBudget,
    /// The pools of columns, one for each class of blocks at the root.
    pub stores: Vec<Store>,
    /// The compact relaxation, where no block has rows.
    pub compact: Option<CompactRelaxation>,
    /// By block, the number of its class at the root: that of its pool.
    homes: Vec<u32>,
    /// How many numbers were offered to the pools since they were last emptied.
    size: usize,
    /// How many nodes there were; the count goes round.
    leaves: u32,
}

impl Drop for Pools {
    fn drop(self) {
        let Pools {
            budget: _,
            stores: _,
            compact: _,
            homes: _,
            size: _,
            leaves: _,
        } = self;
    }
}

/// Where a column is.
#[derive(Clone, Copy)]
pub struct Place {
    /// The number of its pool.
    pub home: u32,
    /// Its number in the pool.
    pub id: u32,
}

impl Pools {
    ghost use Rattle.std.specs.Prelude.{◌≡◌, ◌<◌, IfOk, length};
    ghost use Rattle.node_memory.specs.Pools.{AreMadeFor};

    /// The pricers of a program's blocks, and no columns yet.
    pub fn make(alloc: Global, b: &Blocked) -> Result<Pools, AllocError>
        ensures { IfOk result (AreMadeFor b.now) }
    {
        let budget = PricingBudget::make(alloc, b)?;
        let zone = Zone::root(alloc, b)?;
        let classes = Classes::of(alloc, b, &zone)?;
        Ok(Pools {
            budget,
            stores: stores_of(alloc, b, &classes)?,
            compact: compact_of(alloc, b)?,
            homes: homes_of(alloc, b, &classes)?,
            size: 0,
            leaves: 0,
        })
    }

    /// Begins with another node: its hints price all blocks, and pools that have grown too large are emptied. Tells
    /// whether an even number of nodes came before.
    pub fn begin(&mut self, alloc: Global, b: &Blocked) -> Result<bool, AllocError>
        requires made_for { AreMadeFor b.now self.old }
        ensures made_for { AreMadeFor b.now self.new }
    {
        self.budget.begin();
        if self.size > MOST_NUMBERS {
            self.size = 0;
            empty_all(alloc, b, &mut self.stores)?;
        }
        self.leaves = self.leaves.wrapping_add(1);
        Ok(self.leaves % 2 == 1)
    }

    /// The dual bound of multipliers by row at the greatest scale in a node's zone, in units, with a point by copies
    /// that reaches it but for the blocks that are left out, whose numbers stay. There is none where a block has no
    /// point, or the node's prices are spent.
    pub fn price(
        &mut self,
        alloc: Global,
        node: NodeContext,
        mults: &[i64],
        point: &mut [i64],
    ) -> Result<Option<i128>, AllocError>
        requires made_for { AreMadeFor node.program.now self.old }
        ensures made_for { AreMadeFor node.entry.program.now self.new }
    {
        self.budget.round(alloc, node, mults, point)
    }

    /// Whether a proof has a bound in a zone, within a cap for each block. The points that reach it are told then. No price
    /// of the node's is spent.
    pub fn has_bound(&mut self, node: NodeContext, proof: &Proof, cap: Cap) -> bool
        requires made_for { AreMadeFor node.program.now self.old }
        ensures made_for { AreMadeFor node.entry.program.now self.new }
    {
        self.budget.has_bound(node, proof, cap)
    }

    /// Adds the points that the last bound told.
    pub fn add_all_priced(
        &mut self,
        alloc: Global,
        b: &Blocked,
        classes: &Classes,
    ) -> Result<(), AllocError>
        requires made_for { AreMadeFor b.now self.old }
        ensures made_for { AreMadeFor b.now self.new }
    {
        for class in 0..classes.len() {
            let first = classes.first(class);
            if first < b.blocks() {
                let _ = self.add_priced(alloc, b, first)?;
            }
        }
        Ok(())
    }

    /// The pool of the blocks that are the same as a block at the root.
    pub fn home(&self, block: u32) -> Option<u32> {
        match self.homes.as_slice().get(block as usize) {
            None => None,
            Some(home) => Some(*home),
        }
    }

    /// The pool of this number, where there is one.
    pub fn pool(&self, home: u32) -> Option<&Pool> {
        match self.stores.as_slice().get(home as usize) {
            None => None,
            Some(store) => Some(&store.pool),
        }
    }

    /// The column at a place, where its pool has so many.
    pub fn column(&self, place: Place) -> Option<&Column> {
        match self.pool(place.home) {
            Some(pool) if place.id < pool.len() => Some(pool.column(place.id)),
            _ => None,
        }
    }

    /// Adds the point that the last bound told of a block, and tells where it is. There is none where no point was
    /// told, or its pool is full.
    pub fn add_priced(
        &mut self,
        alloc: Global,
        b: &Blocked,
        block: u32,
    ) -> Result<Option<Place>, AllocError>
        requires made_for { AreMadeFor b.now self.old }
        requires there { block < length b.now.blocking.blocks }
        ensures made_for { AreMadeFor b.now self.new }
    {
        let Some(home) = self.home(block) else {
            return Ok(None);
        };
        let place = home as usize;
        if place >= self.stores.len() {
            return Ok(None);
        }
        let Some(point) = self.budget.work.point(block) else {
            return Ok(None);
        };
        self.size = self.size.saturating_add(point.len());
        match self.stores[place].add(alloc, b, point)? {
            None => Ok(None),
            Some(id) => Ok(Some(Place { home, id })),
        }
    }

    /// Adds a point to the columns of a block, and tells where it is. There is none where it is no point of the block,
    /// or its pool is full.
    pub fn add_point(
        &mut self,
        alloc: Global,
        b: &Blocked,
        block: u32,
        point: &[i64],
    ) -> Result<Option<Place>, AllocError>
        requires made_for { AreMadeFor b.now self.old }
        ensures made_for { AreMadeFor b.now self.new }
    {
        let Some(home) = self.home(block) else {
            return Ok(None);
        };
        let place = home as usize;
        if place >= self.stores.len() {
            return Ok(None);
        }
        self.size = self.size.saturating_add(point.len());
        match self.stores[place].add(alloc, b, point)? {
            None => Ok(None),
            Some(id) => Ok(Some(Place { home, id })),
        }
    }
}

// The relaxation of a program's rows, where its blocks have none.
fn compact_of(alloc: Global, b: &Blocked) -> Result<Option<CompactRelaxation>, AllocError> {
    if has_no_block_rows(b) {
        Ok(Some(CompactRelaxation::make(alloc, b)?))
    } else {
        Ok(None)
    }
}

// Takes all columns out of pools.
fn empty_all(alloc: Global, b: &Blocked, stores: &mut Vec<Store>) -> Result<(), AllocError>
    requires { All (IsStoreOf b.now) stores.old.items }
    ensures { All (IsStoreOf b.now) stores.new.items }
{
    for place in 0..stores.len() {
        stores[place].empty(alloc, b)?;
    }
    Ok(())
}

// One pool more: that of a block, without columns.
fn push_store(
    alloc: Global,
    b: &Blocked,
    owner: u32,
    stores: &mut Vec<Store>,
) -> Result<(), AllocError>
    requires there { owner < length b.now.blocking.blocks }
    requires before { All (IsStoreOf b.now) stores.old.items }
    ensures { All (IsStoreOf b.now) stores.new.items }
{
    stores.push(Store::make(alloc, b, owner)?)?;
    Ok(())
}

// Pools without columns, one for each class.
fn stores_of(alloc: Global, b: &Blocked, classes: &Classes) -> Result<Vec<Store>, AllocError>
    ensures { IfOk result (λ stores. All (IsStoreOf b.now) stores.items) }
{
    let mut stores = Vec::new(alloc);
    for class in 0..classes.len() {
        let owner = classes.first(class);
        if owner < b.blocks() {
            push_store(alloc, b, owner, &mut stores)?;
        }
    }
    Ok(stores)
}

// The class of each block.
fn homes_of(alloc: Global, b: &Blocked, classes: &Classes) -> Result<Vec<u32>, AllocError>
    requires { length classes.now.classes ≡ length b.now.blocking.blocks }
{
    let mut homes = Vec::new(alloc);
    for block in 0..b.blocks() {
        homes.push(classes.class_of(block))?;
    }
    Ok(homes)
}
