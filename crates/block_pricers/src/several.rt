// Several points of a price: those beside the cheapest one, where a block has a graph of states.
ghost use Rattle.std.specs.Prelude.{◌≡◌, ◌<◌, [], IfOk, All, map, length, vec_len, slice_index_or};
ghost use Rattle.std.specs.Bool.{OnTrue};
ghost use Rattle.bp_theory.specs.Bound.{IsPoint, spans_of};
ghost use Rattle.bp_theory.specs.Trees.{IsZone};
ghost use Rattle.block_pricers.specs.Desks.{form_of, priced_point};
ghost use Rattle.block_pricers.specs.Forms.{form_at, form_in};
ghost use Rattle.reduced_costs.specs.Sizes.{IsSmallBlock, IsSmallProof};

use crate::desk::Desk;
use crate::work::Work;
use block_program::{Block, Blocked, Zone};
use bp_theory::Proof;
use std::alloc::{AllocError, Global};

// Ranks points of a block at the desk of a number, which is that of its form.
fn rank_at(
    alloc: Global,
    desks: &mut Vec<Desk>,
    seat: usize,
    block: &Block,
    zone: &Zone,
    proof: &Proof,
) -> Result<usize, AllocError>
    requires there { seat < vec_len desks.old }
    requires same_block { form_at (map form_of desks.old.items) seat ≡ form_in block.now }
    requires zone { IsZone block.now.spans (spans_of zone.now block.now.block) }
    requires block { IsSmallBlock zone.now proof.now block.now.block }
    requires proof { IsSmallProof proof.now }
    ensures len { vec_len desks.new ≡ vec_len desks.old }
    ensures forms { map form_of desks.new.items ≡ map form_of desks.old.items }
{
    desks[seat].rank(alloc, block, zone, proof)
}

// Keeps the point of a rank at the desk of a number, which is that of a block's form.
fn choose_at(desks: &mut Vec<Desk>, seat: usize, block: &Block, zone: &Zone, rank: usize) -> bool
    requires there { seat < vec_len desks.old }
    requires same_block { form_at (map form_of desks.old.items) seat ≡ form_in block.now }
    requires zone { IsZone block.now.spans (spans_of zone.now block.now.block) }
    requires vars { All (λ c. c.var < length zone.now) block.now.block.copies }
    ensures point { OnTrue result (IsPoint block.now.block.rows (spans_of zone.now block.now.block)
        (slice_index_or (map priced_point desks.new.items) seat [])) }
    ensures len { vec_len desks.new ≡ vec_len desks.old }
    ensures forms { map form_of desks.new.items ≡ map form_of desks.old.items }
{
    desks[seat].choose(block, zone, rank)
}

impl Work {
    ghost use Rattle.std.specs.Prelude.{◌≡◌, ◌<◌, length};
    ghost use Rattle.std.specs.Bool.{OnTrue};
    ghost use Rattle.bp_theory.specs.Bound.{Fits, IsPoint, spans_of};
    ghost use Rattle.bp_theory.specs.Trees.{IsZone};
    ghost use Rattle.block_program.specs.Blocked.{IsFormed};
    ghost use Rattle.search_laws.specs.Spread.{block_at};
    ghost use Rattle.block_pricers.specs.Forms.{forms_in};
    ghost use Rattle.block_pricers.specs.Works.{forms_of, priced_at};

    /// Whether a block's pricer ranks points beside the cheapest one: where it has a graph of states.
    pub fn ranks(&self, number: u32) -> bool
        requires { number < length (forms_of self.now) }
    {
        let seat = self.seats[number as usize];
        self.desks[seat].ranks()
    }

    /// Ranks points of a block in a zone at its reduced costs, the least first: for each variable a cheapest one with another
    /// number of it than the cheapest point has. Tells how many there are, none without a graph of states. What is told
    /// and known stays. The only error is want of memory, which the first call for blocks of a form takes.
    pub fn rank(
        &mut self,
        alloc: Global,
        b: &Blocked,
        number: u32,
        zone: &Zone,
        proof: &Proof,
    ) -> Result<usize, AllocError>
        requires made_for { forms_of self.old ≡ forms_in b.now }
        requires there { number < length b.now.blocking.blocks }
        requires zone { IsZone b.now.named.program.spans zone.now }
        requires fits { Fits b.now.blocking proof.now }
        requires formed { IsFormed b.now }
        ensures made_for { forms_of self.new ≡ forms_of self.old }
        ensures known { self.new.known ≡ self.old.known }
        ensures told { self.new.told ≡ self.old.told }
    {
        let seat = self.seats[number as usize];
        let block = b.block(number);
        rank_at(alloc, &mut self.desks, seat, block, zone, proof)
    }

    /// Chooses the point of a rank, of the block that points were ranked of last among those of its form, and in the same
    /// zone; whether there is one. What is chosen is a point of the block in the zone in any case.
    pub fn choose(&mut self, b: &Blocked, number: u32, zone: &Zone, rank: usize) -> bool
        requires made_for { forms_of self.old ≡ forms_in b.now }
        requires there { number < length b.now.blocking.blocks }
        requires zone { IsZone b.now.named.program.spans zone.now }
        requires formed { IsFormed b.now }
        ensures point { OnTrue result (IsPoint (block_at b.now.blocking number).rows
            (spans_of zone.now (block_at b.now.blocking number)) (priced_at self.new number)) }
        ensures made_for { forms_of self.new ≡ forms_of self.old }
        ensures known { self.new.known ≡ self.old.known }
        ensures told { self.new.told ≡ self.old.told }
    {
        let seat = self.seats[number as usize];
        let block = b.block(number);
        choose_at(&mut self.desks, seat, block, zone, rank)
    }

    /// The point of a block that was chosen last, as long as no other call of `choose` or of a bound came.
    pub fn chosen(&self, number: u32) -> &[i64]
        requires { number < length (forms_of self.now) }
        ensures { result.now ≡ priced_at self.now number }
    {
        let seat = self.seats[number as usize];
        self.desks[seat].point()
    }
}
