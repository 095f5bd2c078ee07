// What pricing all blocks of a program takes.
ghost use Rattle.std.specs.Prelude.{◌≡◌, ◌<◌, [], All, length, map, vec_len, slice_index_or};
ghost use Rattle.bp_theory.specs.Bound.{spans_of};
ghost use Rattle.bp_theory.specs.Trees.{IsZone};
ghost use Rattle.knapsack_table.specs.Rooms.{count_of};
ghost use Rattle.pricing_problem.specs.Priced.{IsPriced};
ghost use Rattle.reduced_costs.specs.Sizes.{IsSmallBlock, IsSmallProof, reduced_costs};
ghost use Rattle.block_pricers.specs.Forms.{form_at, form_in, span_count};
ghost use Rattle.block_pricers.specs.Desks.{form_of, priced_point};
ghost use Rattle.block_pricers.specs.Pricers.{AreEnough};
ghost use Rattle.block_pricers.specs.Told.{room_of};

use crate::desk::Desk;
use crate::desks::{clear, desks_of};
use crate::{Told, rooms_of, seated, silence};
use block_program::{Block, Blocked, Zone};
use bp_theory::Proof;
use knap_price::Cells;
use pricing_problem::{Cap, Priced};
use std::alloc::{AllocError, Global};

/// Pricers for the blocks of a program in blocks, with all memory that pricing needs; and the points that the last bound
/// told. Blocks with the same rows and the same spans at the root share one pricer, as far as they are found: a table where
/// one takes the block, else a graph of states where one suits it, else a search. All tables share their cells.
pub struct Work {
    pub(crate) desks: Vec<Desk>,
    pub(crate) seats: Vec<usize>,
    /// What is told of each block.
    pub told: Vec<Told>,
    /// What is known of each class of blocks, at its first block.
    pub known: Vec<Option<i128>>,
    pub(crate) cells: Cells,
    ghost there: { All (λ seat. seat < vec_len desks) seats.items },
    ghost points: { map room_of told.items ≡ map span_count (map (form_at (map form_of desks.items)) seats.items) },
    ghost room: { vec_len known ≡ vec_len seats },
    ghost enough: { AreEnough (count_of cells) (map form_of desks.items) },
}

impl Drop for Work {
    fn drop(self) {
        let Work {
            desks: _,
            seats: _,
            told: _,
            known: _,
            cells: _,
        } = self;
    }
}

impl Work {
    ghost use Rattle.std.specs.Prelude.{◌≡◌, ◌<◌, ℕ, Some, None, IfOk, MatchOption, length, map, slice_index_or, slice_set};
    ghost use Rattle.bp_theory.specs.Bound.{Fits, spans_of};
    ghost use Rattle.bp_theory.specs.Trees.{IsZone};
    ghost use Rattle.search_laws.specs.Spread.{block_at};
    ghost use Rattle.block_program.specs.Blocked.{IsFormed};
    ghost use Rattle.pricing_problem.specs.Priced.{IsPriced};
    ghost use Rattle.block_pricers.specs.Forms.{forms_in, form_at, span_count};
    ghost use Rattle.reduced_costs.specs.Sizes.{reduced_costs};
    ghost use Rattle.block_pricers.specs.Told.{told_point};
    ghost use Rattle.block_pricers.specs.Desks.{HaveGraphs};
    ghost use Rattle.block_pricers.specs.Works.{forms_of, point_at, priced_at, IsSilent, HasTables};

    /// The pricers of a program's blocks, which tell no point. A block has a table exactly where a table takes it. Where no
    /// desk's graph may pass a limit, and the desks' beginnings of assignments are fewer in all than the arcs that may be
    /// spent, each other block with rows has a graph of states (`HaveGraphs`).
    pub fn make(alloc: Global, b: &Blocked) -> Result<Work, AllocError>
        ensures forms { IfOk result (λ work. forms_of work ≡ forms_in b.now) }
        ensures silent { IfOk result (λ work. IsSilent work) }
        ensures tables { IfOk result (λ work. HasTables b.now work) }
        ensures graphs { IfOk result (λ work. HaveGraphs work.desks.items) }
    {
        let known = Vec::from_elem(alloc, None, b.blocks() as usize)?;
        let told = rooms_of(alloc, b)?;
        let (seats, firsts) = seated(alloc, b)?;
        let (desks, most) = desks_of(alloc, b, firsts.as_slice())?;
        let cells = Cells::make(alloc, most)?;
        Ok(Work {
            desks,
            seats,
            told,
            known,
            cells,
        })
    }

    /// The point of a block that the last bound told: after a whole bound by classes a point of the lowest picked block
    /// of a class that reaches its least, and none for each other block.
    pub fn point(&self, block: u32) -> Option<&[i64]>
        requires { block < length (forms_of self.now) }
        ensures { MatchOption result (point_at self.now block ≡ None)
            (λ y. point_at self.now block ≡ Some y.now) }
    {
        self.told[block as usize].point()
    }

    /// Tells no point from now on.
    pub fn forget(&mut self)
        ensures forms { forms_of self.new ≡ forms_of self.old }
        ensures silent { IsSilent self.new }
    {
        silence(&mut self.told);
    }

    /// Knows no class and tells no point from now on.
    pub fn begin(&mut self)
        ensures forms { forms_of self.new ≡ forms_of self.old }
        ensures silent { IsSilent self.new }
        ensures unknown { (k : ℕ) → slice_index_or self.new.known.items k None ≡ None }
    {
        self.forget();
        clear(&mut self.known);
    }

    /// What is known of the class of this first block.
    pub fn known_at(&self, first: u32) -> Option<i128>
        requires { first < length (forms_of self.now) }
        ensures { result ≡ slice_index_or self.now.known.items first None }
    {
        self.known[first as usize]
    }

    /// Prices a block by its pricer. What is told and known stays.
    pub fn price(
        &mut self,
        b: &Blocked,
        number: u32,
        zone: &Zone,
        proof: &Proof,
        cap: Cap,
    ) -> Priced
        requires made_for { forms_of self.old ≡ forms_in b.now }
        requires there { number < length b.now.blocking.blocks }
        requires zone { IsZone b.now.named.program.spans zone.now }
        requires fits { Fits b.now.blocking proof.now }
        requires formed { IsFormed b.now }
        ensures answer { IsPriced (block_at b.now.blocking number).rows
            (spans_of zone.now (block_at b.now.blocking number))
            (reduced_costs proof.now (block_at b.now.blocking number)) cap result
            (priced_at self.new number) }
        ensures made_for { forms_of self.new ≡ forms_of self.old }
        ensures known { self.new.known ≡ self.old.known }
        ensures told { self.new.told ≡ self.old.told }
    {
        let seat = self.seats[number as usize];
        let block = b.block(number);
        price_at(
            &mut self.desks,
            &mut self.cells,
            seat,
            block,
            zone,
            proof,
            cap,
        )
    }

    /// Knows the least of the class of this first block, and tells the point of a block of it, which was priced last of all
    /// blocks of its pricer.
    pub fn keep(&mut self, first: u32, block: u32, least: &i128)
        requires first { first < length (forms_of self.old) }
        requires block { block < length (forms_of self.old) }
        requires point { length (priced_at self.old block) ≡
            span_count (form_at (forms_of self.old) block) }
        ensures forms { forms_of self.new ≡ forms_of self.old }
        ensures known { self.new.known.items ≡ slice_set self.old.known.items first
            (Some least.now) }
        ensures told { map told_point self.new.told.items ≡
            slice_set (map told_point self.old.told.items) block (Some (priced_at self.old block)) }
    {
        self.known[first as usize] = Some(*least);
        let seat = self.seats[block as usize];
        self.told[block as usize].tell(self.desks[seat].point());
    }
}

// Prices a block at the desk of a number, which is that of its form.
fn price_at(
    desks: &mut Vec<Desk>,
    cells: &mut Cells,
    seat: usize,
    block: &Block,
    zone: &Zone,
    proof: &Proof,
    cap: Cap,
) -> Priced
    requires there { seat < vec_len desks.old }
    requires same_block { form_at (map form_of desks.old.items) seat ≡ form_in block.now }
    requires cells { AreEnough (count_of cells.old) (map form_of desks.old.items) }
    requires zone { IsZone block.now.spans (spans_of zone.now block.now.block) }
    requires block { IsSmallBlock zone.now proof.now block.now.block }
    requires proof { IsSmallProof proof.now }
    ensures answer { IsPriced block.now.block.rows (spans_of zone.now block.now.block)
        (reduced_costs proof.now block.now.block) cap result
        (slice_index_or (map priced_point desks.new.items) seat []) }
    ensures len { vec_len desks.new ≡ vec_len desks.old }
    ensures cells { count_of cells.new ≡ count_of cells.old }
    ensures forms { map form_of desks.new.items ≡ map form_of desks.old.items }
{
    desks[seat].price(cells, block, zone, proof, cap)
}
