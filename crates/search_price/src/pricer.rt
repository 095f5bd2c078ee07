// The pricer by search.
ghost use Rattle.std.specs.Prelude.{◌≡◌, vec_len};
ghost use Rattle.enumeration.specs.Sizes.{HasPlaces};

use block_program::Block;
use bp_theory::Span;
use enumeration::{
    Dive, Form, Frame, Key, Multipliers, Relaxed, Subproblem, begin, explore, least_cost,
    rows_can_meet, set_order, visits_under,
};
use pricing_problem::{Cap, Priced, Pricer};
use std::alloc::{AllocError, Global};

/// Prices by a depth first search over a block's variables, pruned by what each row can still reach, by cost, and by cost
/// with rows added. Where the two sides of a row lie between neighbouring multiples of a common divisor of its coefficients,
/// there is no point, and it answers so without a search. It takes all memory that it needs when it is made.
#[derive(Drop)]
pub struct SearchPricer {
    // The block: its rows, spans and columns.
    form: Form,
    // Where a search stands, with the cheapest point so far.
    dive: Dive,
    // The costs of a price with multiples of rows added.
    relaxed: Relaxed,
    // How those multiples are found.
    multipliers: Multipliers,
    // The places of the variables, in the order in which a search takes them.
    order: Vec<usize>,
    // By level of that order: what a search keeps of it while it stands below.
    frames: Vec<Frame>,
    // By place of the variable: what it is ordered by.
    keys: Vec<Key>,
    // Each variable has an adjusted cost.
    ghost adjusted: { vec_len relaxed.costs ≡ vec_len form.spans },
    // The search has a place for each variable and each row.
    ghost places: { HasPlaces form dive },
    // Each variable has a place in the order.
    ghost long: { vec_len order ≡ vec_len form.spans },
    // Each level has a frame.
    ghost framed: { vec_len frames ≡ vec_len form.spans },
    // Each variable has a key.
    ghost wide: { vec_len keys ≡ vec_len form.spans },
}

impl SearchPricer {
    ghost use Rattle.std.specs.Prelude.{IfOk};
    ghost use Rattle.pricing_problem.specs.Form.{IsForm, AreOf};
    ghost use Rattle.search_price.specs.Kept.{rows_of, spans_of};

    /// The pricer of a block.
    pub fn make(alloc: Global, block: &Block) -> Result<SearchPricer, AllocError>
        requires { IsForm block.now.block.rows block.now.spans }
        ensures { IfOk result (λ pricer. AreOf block.now (rows_of pricer) (spans_of pricer)) }
    {
        let rows = block.rows();
        let spans = block.spans();
        let form = Form::make(alloc, rows, spans)?;
        let zone = Vec::from_elem(alloc, Span { lo: 0, hi: 0 }, spans.len())?;
        let lows = Vec::from_elem(alloc, 0, rows.len())?;
        let highs = Vec::from_elem(alloc, 0, rows.len())?;
        let point = Vec::from_elem(alloc, 0, spans.len())?;
        let dive = Dive {
            zone,
            lows,
            highs,
            least: 0,
            paid: 0,
            best: None,
            point,
        };
        Ok(SearchPricer {
            form,
            dive,
            relaxed: Relaxed::make(alloc, spans.len())?,
            multipliers: Multipliers::make(alloc, rows.len())?,
            order: Vec::from_elem(alloc, 0, spans.len())?,
            frames: Vec::from_elem(alloc, Frame::Passed, spans.len())?,
            keys: Vec::from_elem(alloc, Key { rows: 0, size: 0 }, spans.len())?,
        })
    }
}

impl Pricer for SearchPricer {
    ghost use Rattle.search_price.specs.Kept.{rows_of, spans_of, kept_point};

    ghost rows = { rows_of };

    ghost spans = { spans_of };

    ghost chosen = { kept_point };

    fn price(&mut self, block: &Block, zone: &[Span], costs: &[i128], cap: Cap) -> Priced {
        if self.form.is_missed() {
            return Priced::Nothing;
        }
        self.multipliers
            .relax(&mut self.relaxed, &self.form, zone, costs);
        let paid = least_cost(zone, &self.relaxed.costs);
        begin(&mut self.dive, &self.form, zone, costs, &paid);
        let alive = rows_can_meet(&self.dive, &self.form, zone, costs);
        let open = set_order(
            &mut self.order,
            &mut self.keys,
            &self.form,
            zone,
            &self.relaxed.costs,
        );
        let mut visits = visits_under(cap, zone);
        let problem = Subproblem {
            form: &self.form,
            zone,
            costs,
            relaxed: &self.relaxed,
        };
        if !explore(
            &mut self.dive,
            &mut visits,
            &mut self.frames,
            &problem,
            &self.order[..open],
            alive,
        ) {
            return Priced::Cut;
        }
        match self.dive.best {
            Some(least) => Priced::Least(least),
            None => Priced::Nothing,
        }
    }

    fn point(&self) -> &[i64] {
        self.dive.point.as_slice()
    }
}
