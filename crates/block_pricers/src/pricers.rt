// Whichever pricer suits a block.
ghost use Rattle.std.specs.Prelude.{◌≡◌, IfOk, IfSome, IfNone};
ghost use Rattle.pricing_problem.specs.Form.{IsForm, AreOf};
ghost use Rattle.state_price.specs.Kept.{rows_of as states_rows, spans_of as states_spans};
ghost use Rattle.block_pricers.specs.Pricers.{IsUngraphed, HasSpent};

use block_program::Block;
use bp_theory::Span;
use knap_price::{Cells, KnapPlan, KnapPricer};
use pricing_problem::{Cap, Priced, Pricer};
use search_price::SearchPricer;
use state_price::StatePricer;
use std::alloc::{AllocError, Global};

/// How many arcs it may take to make the graphs of a program's blocks, together, until no more are made.
const MOST_ARCS: usize = 1 << 19;

/// How many blocks are tried that no graph suits.
const MOST_DECLINED: u32 = 2;

/// What may still be spent on graphs of states: arcs, and blocks that no graph suits.
#[derive(Drop)]
pub struct GraphRoom {
    arcs: usize,
    declined: u32,
}

impl GraphRoom {
    ghost use Rattle.std.specs.Prelude.{◌≡◌, ◌+◌, ◌≤◌, ◌⊎◌, [], IfSome, IfNone};
    ghost use Rattle.std.specs.Bool.{OnFalse};
    ghost use Rattle.state_price.specs.Kept.{spans_of};
    ghost use Rattle.state_graph.specs.Limits.{beginnings};
    ghost use Rattle.block_pricers.specs.Pricers.{IsSpent, most_graph_arcs};

    /// All that may be spent for a program.
    pub fn whole() -> GraphRoom
        ensures arcs { result.arcs ≡ most_graph_arcs }
        ensures declined { result.declined ≡ 2 }
    {
        GraphRoom {
            arcs: MOST_ARCS,
            declined: MOST_DECLINED,
        }
    }

    // Whether a graph of a block is tried.
    fn serves(&self, block: &Block) -> bool
        ensures { OnFalse result (IsSpent self.now ⊎ (block.now.block.rows ≡ [])) }
    {
        self.arcs > 0 && self.declined > 0 && !block.rows().is_empty()
    }

    // Spends what a graph that was tried took.
    fn spend(&mut self, made: &Option<StatePricer>)
        ensures arcs { IfSome made.now (λ pricer.
            self.old.arcs ≤ self.new.arcs + beginnings (spans_of pricer)) }
        ensures suited { IfSome made.now (λ _. self.new.declined ≡ self.old.declined) }
        ensures none { IfNone made.now (self.new.arcs ≡ self.old.arcs) }
    {
        match made {
            Some(pricer) => self.arcs = self.arcs.saturating_sub(pricer.made()),
            None => self.declined = self.declined.saturating_sub(1),
        }
    }
}

/// The pricer of a block: a table where one takes the block, else a graph of states where one is tried and suits it, else a
/// search. The cells of all tables are the same ones.
#[derive(Drop)]
pub enum BlockPricer {
    Table(KnapPlan),
    States(StatePricer),
    Search(SearchPricer),
}

impl BlockPricer {
    ghost use Rattle.std.specs.Prelude.{◌≡◌, IfOk, IsTrue, length};
    ghost use Rattle.std.specs.Bool.{OnTrue};
    ghost use Rattle.bp_theory.specs.Bound.{IsPoint};
    ghost use Rattle.pricing_problem.specs.Form.{IsForm, IsPriceable, AreOf};
    ghost use Rattle.pricing_problem.specs.Priced.{IsPriced};
    ghost use Rattle.knapsack_table.specs.Rooms.{count_of};
    ghost use Rattle.block_pricers.specs.Pricers.{rows_of, spans_of, kept_point, is_search, IsEnough, IsFitting, IsUngraphed, HasSpent};

    /// Made of a block's rows and of its spans at the root. A graph that is tried takes from what may be spent, whether it
    /// suits the block or not. There is a search only where nothing more may be spent, or where the block has no rows or so
    /// many beginnings of assignments that its graph may pass a limit (`IsUngraphed`). The only error is want of memory.
    pub fn make(
        alloc: Global,
        block: &Block,
        room: &mut GraphRoom,
    ) -> Result<BlockPricer, AllocError>
        requires { IsForm block.now.block.rows block.now.spans }
        ensures block { IfOk result (λ pricer. AreOf block.now (rows_of pricer) (spans_of pricer)) }
        ensures kind { IfOk result (λ pricer. IsFitting pricer) }
        ensures search { IfOk result (λ pricer. IsTrue (is_search pricer) →
            IsUngraphed room.old block.now.block.rows block.now.spans) }
        ensures spent { IfOk result (λ _.
            HasSpent room.old block.now.block.rows block.now.spans room.new) }
    {
        if KnapPricer::takes(block) {
            let plan = KnapPlan::make(alloc, block)?;
            return Ok(BlockPricer::Table(plan));
        }
        if let Some(states) = states_of(alloc, block, room)? {
            return Ok(BlockPricer::States(states));
        }
        let search = SearchPricer::make(alloc, block)?;
        Ok(BlockPricer::Search(search))
    }

    /// How many cells of a table pricing takes.
    pub fn cells(&self) -> usize
        requires { IsFitting self.now }
        ensures { IsEnough result (rows_of self.now) (spans_of self.now) }
    {
        match self {
            BlockPricer::Table(plan) => plan.cells(),
            BlockPricer::States(_) => 0,
            BlockPricer::Search(_) => 0,
        }
    }

    /// The least cost over the points of a block in a zone, if there is a point.
    pub fn price(
        &mut self,
        cells: &mut Cells,
        block: &Block,
        zone: &[Span],
        costs: &[i128],
        cap: Cap,
    ) -> Priced
        requires same_block { AreOf block.now (rows_of self.old) (spans_of self.old) }
        requires priceable { IsPriceable (spans_of self.old) zone.now costs.now }
        requires cells { IsEnough (count_of cells.old) (rows_of self.old) (spans_of self.old) }
        ensures answer { IsPriced (rows_of self.old) zone.now costs.now cap result
            (kept_point self.new) }
        ensures cells { count_of cells.new ≡ count_of cells.old }
        ensures same_rows { rows_of self.new ≡ rows_of self.old }
        ensures same_spans { spans_of self.new ≡ spans_of self.old }
    {
        match self {
            BlockPricer::Table(plan) => plan.price(cells, block, zone, costs),
            BlockPricer::States(pricer) => pricer.price(block, zone, costs, cap),
            BlockPricer::Search(pricer) => pricer.price(block, zone, costs, cap),
        }
    }

    /// The point that the last `Least` reached, as long as no other call of `price` came.
    pub fn point(&self) -> &[i64]
        ensures { result.now ≡ kept_point self.now }
    {
        match self {
            BlockPricer::Table(plan) => plan.point(),
            BlockPricer::States(pricer) => pricer.point(),
            BlockPricer::Search(pricer) => pricer.point(),
        }
    }

    /// Whether it ranks points beside the cheapest one: a graph does.
    pub fn ranks(&self) -> bool {
        match self {
            BlockPricer::States(_) => true,
            _ => false,
        }
    }

    /// Ranks points in a zone beside the cheapest one, as a graph of states does; how many there are, none without a graph.
    pub fn rank(
        &mut self,
        alloc: Global,
        zone: &[Span],
        costs: &[i128],
    ) -> Result<usize, AllocError>
        requires zone { length zone.now ≡ length (spans_of self.old) }
        requires costs { length costs.now ≡ length (spans_of self.old) }
        ensures same_rows { rows_of self.new ≡ rows_of self.old }
        ensures same_spans { spans_of self.new ≡ spans_of self.old }
    {
        match self {
            BlockPricer::States(pricer) => pricer.rank(alloc, zone, costs),
            _ => Ok(0),
        }
    }

    /// Keeps the point of a rank in place of the point that it keeps, in the zone and at the costs that points were ranked
    /// for; whether there is one.
    pub fn choose(&mut self, rank: usize, zone: &[Span], costs: &[i128]) -> bool
        requires zone { length zone.now ≡ length (spans_of self.old) }
        requires costs { length costs.now ≡ length (spans_of self.old) }
        ensures point { OnTrue result (IsPoint (rows_of self.old) zone.now (kept_point self.new)) }
        ensures same_rows { rows_of self.new ≡ rows_of self.old }
        ensures same_spans { spans_of self.new ≡ spans_of self.old }
    {
        match self {
            BlockPricer::States(pricer) => pricer.choose(rank, zone, costs),
            _ => false,
        }
    }
}

// The graph of a block, where one is tried and suits it.
fn states_of(
    alloc: Global,
    block: &Block,
    room: &mut GraphRoom,
) -> Result<Option<StatePricer>, AllocError>
    requires { IsForm block.now.block.rows block.now.spans }
    ensures none { IfOk result (λ made. IfNone made
        (IsUngraphed room.old block.now.block.rows block.now.spans)) }
    ensures spent { IfOk result (λ _.
        HasSpent room.old block.now.block.rows block.now.spans room.new) }
    ensures block { IfOk result (λ made. IfSome made
        (λ pricer. AreOf block.now (states_rows pricer) (states_spans pricer))) }
{
    if !room.serves(block) {
        return Ok(None);
    }
    let made = StatePricer::make(alloc, block)?;
    room.spend(&made);
    Ok(made)
}
