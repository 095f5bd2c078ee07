// A program in blocks.
ghost use Rattle.std.specs.Prelude.{◌≡◌, ◌<◌, length, slice_index_or};

use crate::block::Block;
use bp_model::{Dec, Model};
use bp_theory::{Cut, Items, MasterRow};
use std::alloc::AllocError;
use std::rc::Rc;

/// What programs in blocks share that differ by their cuts alone.
#[derive(Drop)]
pub struct Base {
    /// The model.
    pub model: Model,
    /// The decomposition of it.
    pub dec: Dec,
}

/// A program in blocks: a model, a decomposition of it, cuts, and the blocks that these make.
pub struct Blocked {
    // The model and the decomposition, shared with programs that differ by their cuts alone.
    base: Rc<Base>,
    // The cuts, in order: each may name the ones before it.
    cuts: Items<Cut>,
    // The blocks of the decomposition, and then one for each variable that stands in no block's row.
    blocks: Items<Block>,
    // By number of the row in proofs (the model's rows, the link rows, the cuts): its sides; none at a block's row.
    rows: Items<Option<MasterRow>>,
    // By number of the variable: the first block that has a copy of it, and the copy's place there.
    places: Items<(u32, u32)>,
}

// What goes with one is proved here once, and not again wherever one goes.
impl Drop for Blocked {
    fn drop(self) {
        let Blocked {
            base: _,
            cuts: _,
            blocks: _,
            rows: _,
            places: _,
        } = self;
    }
}

impl std::marker::Model for Blocked {
    ghost use Rattle.std.specs.Prelude.{map, length};
    ghost use Rattle.block_program.specs.Blocked.{BlockedProgram, RootBlock, IsFormed, HaveRootSpans, ArePlaces};

    ghost Value = { BlockedProgram };

    ghost view = { λ b. record {
      named = b.base.value.model;
      dec = b.base.value.dec;
      cuts = b.cuts;
      blocking = record { constant = b.base.value.model.program.constant; blocks = map (λ (k : RootBlock). k.block) b.blocks; rows = b.rows };
    } };

    ghost invariant = { λ b. IsFormed (record {
      named = b.base.value.model;
      dec = b.base.value.dec;
      cuts = b.cuts;
      blocking = record { constant = b.base.value.model.program.constant; blocks = map (λ (k : RootBlock). k.block) b.blocks; rows = b.rows };
    }) × HaveRootSpans b.base.value.model.program.spans b.blocks
        × ArePlaces (map (λ (k : RootBlock). k.block) b.blocks) (length b.base.value.model.program.spans) b.places };
}

impl Blocked {
    ghost use Rattle.std.specs.Prelude.{◌≡◌, ◌<◌, length, IfOk, map, slice_get, slice_index_or, Some, None};
    ghost use Rattle.bp_theory.specs.Blocking.{row_at};
    ghost use Rattle.bp_theory.specs.Blocking as theory;
    ghost use Rattle.bp_theory.specs.Bound.{spans_of};
    ghost use Rattle.block_program.specs.Blocked.{RootBlock, IsFormed, AreParts, ArePlaces, HasCopyAt, IsFirstCopyAt};

    /// The program in blocks of a model and a decomposition of it, shared with others, and cuts: with the blocks and the
    /// sides of named rows that these make, and for each variable the block and place of its first copy. `block_form`
    /// makes all of these.
    pub fn make(
        base: Rc<Base>,
        cuts: Items<Cut>,
        blocks: Items<Block>,
        rows: Items<Option<MasterRow>>,
        places: Items<(u32, u32)>,
    ) -> Blocked
        requires parts { AreParts base.value.model base.value.dec cuts blocks rows }
        requires places { ArePlaces (map (λ (k : RootBlock). k.block) blocks)
            (length base.value.model.program.spans) places }
        ensures named { result.named ≡ base.value.model }
        ensures dec { result.dec ≡ base.value.dec }
        ensures cuts { result.cuts ≡ cuts }
        ensures formed { IsFormed result }
    {
        Blocked {
            base,
            cuts,
            blocks,
            rows,
            places,
        }
    }

    /// The model and the decomposition, for another program in blocks that shares them.
    pub fn shared_base(&self) -> Result<Rc<Base>, AllocError>
        ensures model { IfOk result (λ base. base.value.model ≡ self.now.named) }
        ensures dec { IfOk result (λ base. base.value.dec ≡ self.now.dec) }
    {
        self.base.clone()
    }

    /// The model.
    pub fn model(&self) -> &Model
        ensures model { result.now ≡ self.now.named }
        ensures formed { IsFormed self.now }
    {
        &self.base.as_ref().model
    }

    /// The decomposition.
    pub fn dec(&self) -> &Dec
        ensures dec { result.now ≡ self.now.dec }
        ensures formed { IsFormed self.now }
    {
        &self.base.as_ref().dec
    }

    /// The cuts.
    pub fn cuts(&self) -> &[Cut]
        ensures cuts { result.now ≡ self.now.cuts }
        ensures formed { IsFormed self.now }
    {
        self.cuts.as_slice()
    }

    /// How many blocks there are, those of single variables included.
    pub fn blocks(&self) -> u32
        ensures blocks { result ≡ length self.now.blocking.blocks }
        ensures formed { IsFormed self.now }
    {
        self.blocks.len() as u32
    }

    /// A block.
    pub fn block(&self, number: u32) -> &Block
        requires { number < length self.now.blocking.blocks }
        ensures block { (d : theory.Block) →
            result.now.block ≡ slice_index_or self.now.blocking.blocks number d }
        ensures spans { result.now.spans ≡ spans_of self.now.named.program.spans result.now.block }
    {
        &self.blocks.as_slice()[number as usize]
    }

    /// A row's block, or none for a master row.
    pub fn row_place(&self, row: u32) -> Option<u32>
        requires { row < length self.now.named.program.rows }
        ensures { slice_get self.now.dec.places row ≡ Some result }
    {
        self.dec().block_of(row)
    }

    /// The first block that has a copy of a variable, and the place of the copy there.
    pub fn var_place(&self, var: u32) -> (u32, u32)
        requires { var < length self.now.named.program.spans }
        ensures copy { HasCopyAt self.now.blocking.blocks var result }
        ensures first { IsFirstCopyAt self.now.blocking.blocks var result }
    {
        place_at(self.places.as_slice(), var)
    }

    /// How many numbers of rows there are for proofs: those of the model's rows, then of the link rows, then of the cuts.
    pub fn named_rows(&self) -> u32
        ensures rows { result ≡ length self.now.blocking.rows }
        ensures formed { IsFormed self.now }
    {
        self.rows.len() as u32
    }

    /// The sense and sides of a row that proofs may name: a master row, a link row or a cut; none for each other number.
    pub fn master_row(&self, row: u32) -> Option<MasterRow>
        ensures { result ≡ row_at self.now.blocking row }
    {
        match self.rows.as_slice().get(row as usize) {
            None => None,
            Some(row) => *row,
        }
    }
}

// The place of a variable among those of all variables.
fn place_at(places: &[(u32, u32)], var: u32) -> (u32, u32)
    requires { var < length places.now }
    ensures { result ≡ slice_index_or places.now var (0, 0) }
{
    places[var as usize]
}
