// What pricing one block takes.
ghost use Rattle.block_pricers.specs.Rooms.{HasRoom};

use crate::pricers::{BlockPricer, GraphRoom};
use block_program::{Block, Zone};
use bp_theory::{Proof, Span};
use knap_price::Cells;
use pricing_problem::{Cap, Priced};
use reduced_costs::{fill_costs, fill_spans};
use std::alloc::{AllocError, Global};

/// The pricer of a block and of all that have its form, with room for reduced costs and for spans in a zone.
#[derive(Drop)]
pub struct Desk {
    pricer: BlockPricer,
    costs: Vec<i128>,
    spans: Vec<Span>,
    ghost room: { HasRoom pricer costs.items spans.items },
}

impl Desk {
    ghost use Rattle.std.specs.Prelude.{◌≡◌, ◌<◌, IfOk, IsTrue, All, length};
    ghost use Rattle.std.specs.Bool.{OnTrue};
    ghost use Rattle.bp_theory.specs.Bound.{IsPoint};
    ghost use Rattle.knapsack_table.specs.Rooms.{count_of};
    ghost use Rattle.block_pricers.specs.Pricers.{is_search, IsEnough, IsFitting, IsUngraphed, HasSpent};
    ghost use Rattle.bp_theory.specs.Bound.{spans_of};
    ghost use Rattle.bp_theory.specs.Trees.{IsZone};
    ghost use Rattle.pricing_problem.specs.Form.{IsForm};
    ghost use Rattle.pricing_problem.specs.Priced.{IsPriced};
    ghost use Rattle.reduced_costs.specs.Sizes.{IsSmallBlock, IsSmallProof, reduced_costs};
    ghost use Rattle.block_pricers.specs.Forms.{form_in};
    ghost use Rattle.block_pricers.specs.Desks.{form_of, priced_point};

    /// Made of a block's rows and of its spans at the root: it prices all blocks that have these, whatever their costs.
    /// A graph of states takes from what may be spent on such.
    pub fn make(alloc: Global, block: &Block, room: &mut GraphRoom) -> Result<Desk, AllocError>
        requires { IsForm block.now.block.rows block.now.spans }
        ensures form { IfOk result (λ desk. form_of desk ≡ form_in block.now) }
        ensures kind { IfOk result (λ desk. IsFitting desk.pricer) }
        ensures search { IfOk result (λ desk. IsTrue (is_search desk.pricer) →
            IsUngraphed room.old (form_of desk).rows (form_of desk).spans) }
        ensures spent { IfOk result (λ desk.
            HasSpent room.old (form_of desk).rows (form_of desk).spans room.new) }
    {
        let many = block.spans().len();
        let costs = Vec::from_elem(alloc, 0, many)?;
        let spans = Vec::from_elem(alloc, Span { lo: 0, hi: 0 }, many)?;
        let pricer = BlockPricer::make(alloc, block, room)?;
        Ok(Desk {
            pricer,
            costs,
            spans,
        })
    }

    /// Prices the block in a zone at its reduced costs.
    pub fn price(
        &mut self,
        cells: &mut Cells,
        block: &Block,
        zone: &Zone,
        proof: &Proof,
        cap: Cap,
    ) -> Priced
        requires same_block { form_of self.old ≡ form_in block.now }
        requires zone { IsZone block.now.spans (spans_of zone.now block.now.block) }
        requires block { IsSmallBlock zone.now proof.now block.now.block }
        requires proof { IsSmallProof proof.now }
        requires cells { IsEnough (count_of cells.old) (form_of self.old).rows
            (form_of self.old).spans }
        ensures answer { IsPriced block.now.block.rows (spans_of zone.now block.now.block)
            (reduced_costs proof.now block.now.block) cap result (priced_point self.new) }
        ensures cells { count_of cells.new ≡ count_of cells.old }
        ensures form { form_of self.new ≡ form_of self.old }
    {
        fill_costs(&mut self.costs, block, proof);
        fill_spans(&mut self.spans, block, zone);
        let zone = self.spans.as_slice();
        let costs = self.costs.as_slice();
        self.pricer.price(cells, block, zone, costs, cap)
    }

    /// How many cells of a table pricing takes.
    pub fn cells(&self) -> usize
        requires { IsFitting self.now.pricer }
        ensures { IsEnough result (form_of self.now).rows (form_of self.now).spans }
    {
        self.pricer.cells()
    }

    /// The point that the last `Least` reached, as long as no other call of `price` came.
    pub fn point(&self) -> &[i64]
        ensures { result.now ≡ priced_point self.now }
    {
        self.pricer.point()
    }

    /// Whether it ranks points of a block beside the cheapest one: where its blocks have a graph of states.
    pub fn ranks(&self) -> bool {
        self.pricer.ranks()
    }

    /// Ranks points of a block in a zone beside the cheapest one at its reduced costs; how many there are.
    pub fn rank(
        &mut self,
        alloc: Global,
        block: &Block,
        zone: &Zone,
        proof: &Proof,
    ) -> Result<usize, AllocError>
        requires same_block { form_of self.old ≡ form_in block.now }
        requires zone { IsZone block.now.spans (spans_of zone.now block.now.block) }
        requires block { IsSmallBlock zone.now proof.now block.now.block }
        requires proof { IsSmallProof proof.now }
        ensures form { form_of self.new ≡ form_of self.old }
    {
        fill_costs(&mut self.costs, block, proof);
        fill_spans(&mut self.spans, block, zone);
        self.pricer
            .rank(alloc, self.spans.as_slice(), self.costs.as_slice())
    }

    /// Keeps the point of a rank in place of the priced one, of the block that points were ranked of last, in the same zone;
    /// whether there is one. It is a point of the block in the zone in any case.
    pub fn choose(&mut self, block: &Block, zone: &Zone, rank: usize) -> bool
        requires same_block { form_of self.old ≡ form_in block.now }
        requires zone { IsZone block.now.spans (spans_of zone.now block.now.block) }
        requires there { All (λ c. c.var < length zone.now) block.now.block.copies }
        ensures point { OnTrue result (IsPoint block.now.block.rows
            (spans_of zone.now block.now.block) (priced_point self.new)) }
        ensures form { form_of self.new ≡ form_of self.old }
    {
        fill_spans(&mut self.spans, block, zone);
        self.pricer
            .choose(rank, self.spans.as_slice(), self.costs.as_slice())
    }
}
