// The pricer by a table.
ghost use Rattle.knapsack_table.specs.Rooms.{HasRoom, cells_of, count_of};
ghost use Rattle.std.specs.Prelude.{◌≡◌, ◌≤◌, length, vec_len};

use block_program::Block;
use bp_theory::Span;
use knapsack_table::{Cells, Form, Table, is_taken, price_zone};
use pricing_problem::{Cap, Priced, Pricer, copied_spans};
use std::alloc::{AllocError, Global};

/// What pricing a block by a table takes, but for the table's cells, which several plans may use one after the other.
#[derive(Drop)]
pub struct KnapPlan {
    form: Form,
    table: Table,
    part: Vec<Span>,
    ghost room: { HasRoom form table },
    ghost many: { length part.items ≡ length form.spans.items },
}

impl KnapPlan {
    ghost use Rattle.std.specs.Prelude.{◌≡◌, ◌≤◌, IfOk, vec_len};
    ghost use Rattle.pricing_problem.specs.Form.{IsForm, IsPriceable, AreOf};
    ghost use Rattle.pricing_problem.specs.Priced.{IsPriced};
    ghost use Rattle.pricing_problem.specs.declared.Cap.TheVariants.{Never};
    ghost use Rattle.knap_price.specs.Kept.{plan_rows, plan_spans, plan_point};
    ghost use Rattle.knapsack_table.specs.Rooms.{cells_of, count_of};
    ghost use Rattle.knapsack_table.specs.Taken.{IsTaken};

    /// The plan of a block that a table takes.
    pub fn make(alloc: Global, block: &Block) -> Result<KnapPlan, AllocError>
        requires form { IsForm block.now.block.rows block.now.spans }
        requires taken { IsTaken block.now.block.rows block.now.spans }
        ensures { IfOk result (λ plan. AreOf block.now (plan_rows plan) (plan_spans plan)) }
    {
        let spans = block.spans();
        let table = Table::make(alloc, spans.len())?;
        let part = copied_spans(alloc, spans)?;
        let form = Form::make(alloc, block.rows(), spans)?;
        Ok(KnapPlan { form, table, part })
    }

    /// How many cells pricing takes.
    pub fn cells(&self) -> usize
        ensures { result ≡ cells_of (plan_rows self.now) (plan_spans self.now) }
    {
        self.form.cells()
    }

    /// The least cost over the points of a block in a zone, if there is a point, which `point` then gives.
    pub fn price(
        &mut self,
        cells: &mut Cells,
        block: &Block,
        zone: &[Span],
        costs: &[i128],
    ) -> Priced
        requires same_block { AreOf block.now (plan_rows self.old) (plan_spans self.old) }
        requires priceable { IsPriceable (plan_spans self.old) zone.now costs.now }
        requires cells { cells_of (plan_rows self.old) (plan_spans self.old) ≤ count_of cells.old }
        ensures answer { IsPriced (plan_rows self.old) zone.now costs.now Never result
            (plan_point self.new) }
        ensures cells { count_of cells.new ≡ count_of cells.old }
        ensures same_rows { plan_rows self.new ≡ plan_rows self.old }
        ensures same_spans { plan_spans self.new ≡ plan_spans self.old }
    {
        match price_zone(
            &self.form,
            cells,
            &mut self.table,
            &mut self.part,
            zone,
            costs,
        ) {
            Some(least) => Priced::Least(least),
            None => Priced::Nothing,
        }
    }

    /// The point that the last `Least` reached, as long as no other call of `price` came.
    pub fn point(&self) -> &[i64]
        ensures { result.now ≡ plan_point self.now }
    {
        self.table.point.as_slice()
    }
}

/// Prices a block of one row by a table of least costs by weight, whose cells it takes when it is made and uses again in
/// each call. It is never cut.
#[derive(Drop)]
pub struct KnapPricer {
    plan: KnapPlan,
    cells: Cells,
    ghost enough: { cells_of plan.form.rows.items plan.form.spans.items ≤ count_of cells },
}

impl KnapPricer {
    ghost use Rattle.std.specs.Prelude.{◌↔◌, IsTrue, IfOk};
    ghost use Rattle.pricing_problem.specs.Form.{IsForm, AreOf};
    ghost use Rattle.knap_price.specs.Kept.{rows_of, spans_of};
    ghost use Rattle.knapsack_table.specs.Taken.{IsTaken};

    /// Whether a table takes a block: exactly where the block has one row, and one more than its variables times one
    /// more than the row's reach is at most 1,048,576. The reach is the sum of each coefficient's magnitude times how
    /// far its variable can move.
    pub fn takes(block: &Block) -> bool
        requires { IsForm block.now.block.rows block.now.spans }
        ensures { IsTrue result ↔ IsTaken block.now.block.rows block.now.spans }
    {
        is_taken(block.rows(), block.spans())
    }

    /// The pricer of a block that a table takes.
    pub fn make(alloc: Global, block: &Block) -> Result<KnapPricer, AllocError>
        requires form { IsForm block.now.block.rows block.now.spans }
        requires taken { IsTaken block.now.block.rows block.now.spans }
        ensures { IfOk result (λ pricer. AreOf block.now (rows_of pricer) (spans_of pricer)) }
    {
        let plan = KnapPlan::make(alloc, block)?;
        let cells = Cells::make(alloc, plan.cells())?;
        Ok(KnapPricer { plan, cells })
    }
}

impl Pricer for KnapPricer {
    ghost use Rattle.std.specs.Prelude.{◌≡◌};
    ghost use Rattle.pricing_problem.specs.Form.{IsPriceable, AreOf};
    ghost use Rattle.pricing_problem.specs.Priced.{IsPriced};
    ghost use Rattle.pricing_problem.specs.declared.Cap.TheVariants.{Never};
    ghost use Rattle.knap_price.specs.Kept.{rows_of, spans_of, kept_point};

    ghost rows = { rows_of };

    ghost spans = { spans_of };

    ghost chosen = { kept_point };

    /// The least cost over the points of a block in a zone, if there is a point, under every cap.
    fn price(&mut self, block: &Block, zone: &[Span], costs: &[i128], cap: Cap) -> Priced
        requires same_block { AreOf block.now (rows_of self.old) (spans_of self.old) }
        requires priceable { IsPriceable (spans_of self.old) zone.now costs.now }
        ensures answer { IsPriced (rows_of self.old) zone.now costs.now Never result
            (kept_point self.new) }
        ensures same_rows { rows_of self.new ≡ rows_of self.old }
        ensures same_spans { spans_of self.new ≡ spans_of self.old }
    {
        self.plan.price(&mut self.cells, block, zone, costs)
    }

    fn point(&self) -> &[i64] {
        self.plan.point()
    }
}
