// Columns with the block that owns them.
ghost use Rattle.std.specs.Prelude.{◌≡◌, ◌<◌, [], IfOk, OnOk, OnErr, length};
ghost use Rattle.col_pool.specs.Pools.{root_block};
ghost use Rattle.col_pool.specs.Stores.{IsStoreOf, HasStored};

use crate::fault::{Added, PoolFault};
use crate::pool::Pool;
use block_program::Blocked;
use std::alloc::{AllocError, Global};

/// The columns of blocks that are the same: points of the one that owns them.
#[derive(Drop)]
pub struct Store {
    /// The number of the block that owns the columns.
    pub owner: u32,
    /// The columns.
    pub pool: Pool,
}

impl Store {
    ghost use Rattle.std.specs.Prelude.{◌≡◌, ◌<◌, [], IfOk, OnOk, OnErr, length};
    ghost use Rattle.col_pool.specs.Pools.{root_block};
    ghost use Rattle.col_pool.specs.Stores.{IsStoreOf, HasStored};

    /// No columns yet of a block.
    pub fn make(alloc: Global, b: &Blocked, owner: u32) -> Result<Store, AllocError>
        requires { owner < length b.now.blocking.blocks }
        ensures owner { IfOk result (λ s. s.owner ≡ owner) }
        ensures empty { IfOk result (λ s. s.pool ≡ []) }
        ensures store { IfOk result (IsStoreOf b.now) }
    {
        let pool = Pool::make(alloc, b, owner)?;
        Ok(Store { owner, pool })
    }

    /// Takes all columns out. Where memory is wanting they stay.
    pub fn empty(&mut self, alloc: Global, b: &Blocked) -> Result<(), AllocError>
        requires { IsStoreOf b.now self.old }
        ensures owner { self.new.owner ≡ self.old.owner }
        ensures emptied { OnOk result (self.new.pool ≡ []) }
        ensures same { OnErr result (self.new ≡ self.old) }
        ensures store { IsStoreOf b.now self.new }
    {
        self.pool = Pool::make(alloc, b, self.owner)?;
        Ok(())
    }

    /// Adds a point, and tells its number: that of its column, which is a new one at the end where there was none. There is no
    /// number, and the columns stay, where it is no point of the block, or there are as many columns as may be and none has
    /// the point.
    pub fn add(
        &mut self,
        alloc: Global,
        b: &Blocked,
        point: &[i64],
    ) -> Result<Option<u32>, AllocError>
        requires { IsStoreOf b.now self.old }
        ensures owner { self.new.owner ≡ self.old.owner }
        ensures added { IfOk result (HasStored (root_block b.now self.old.owner) self.old.pool
            self.new.pool point.now) }
        ensures same { OnErr result (self.new ≡ self.old) }
        ensures store { IsStoreOf b.now self.new }
    {
        let block = b.block(self.owner);
        if point.len() != block.vars().len() {
            return Ok(None);
        }
        match self.pool.add(alloc, block, point) {
            Ok(Added::New(id)) => Ok(Some(id)),
            Ok(Added::Known(id)) => Ok(Some(id)),
            Err(PoolFault::NoMemory) => Err(AllocError),
            Err(PoolFault::Outside(_)) => Ok(None),
            Err(PoolFault::Row(_)) => Ok(None),
            Err(PoolFault::Full) => Ok(None),
        }
    }
}
