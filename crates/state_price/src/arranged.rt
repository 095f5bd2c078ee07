// What a price takes in another order than the block's.
ghost use Rattle.std.specs.Prelude.{◌≡◌, length, vec_len};

use bp_theory::Span;
use std::alloc::{AllocError, Global};
use variable_order::{Order, arrange_costs, arrange_spans, put_back};

/// An order of a block's variables, with room for a zone and costs in that order, and for a point in the block's.
#[derive(Drop)]
pub struct Arranged {
    /// The order.
    pub order: Order,
    /// By place in the order: the variable's span in the zone that is priced.
    pub zone: Vec<Span>,
    /// By place in the order: the variable's cost.
    pub costs: Vec<i128>,
    /// By number of the variable in the block: its number in the point.
    pub point: Vec<i64>,
    // Each variable has a span.
    ghost zone_room: { vec_len zone ≡ vec_len order.vars },
    // Each variable has a cost.
    ghost costs_room: { vec_len costs ≡ vec_len order.vars },
    // Each variable has a number.
    ghost point_room: { vec_len point ≡ vec_len order.vars },
}

impl Arranged {
    ghost use Rattle.std.specs.Prelude.{◌≡◌, IfOk, length, vec_len};
    ghost use Rattle.variable_order.specs.Orders.{spans_by, numbers_by};

    /// The room for an order.
    pub fn make(alloc: Global, order: Order) -> Result<Arranged, AllocError>
        ensures { IfOk result (λ arranged. arranged.order ≡ order) }
    {
        let count = order.vars.len();
        Ok(Arranged {
            order,
            zone: Vec::from_elem(alloc, Span { lo: 0, hi: 0 }, count)?,
            costs: Vec::from_elem(alloc, 0, count)?,
            point: Vec::from_elem(alloc, 0, count)?,
        })
    }

    /// Writes a zone in the order.
    pub fn set_zone(&mut self, zone: &[Span])
        requires { length zone.now ≡ vec_len self.old.order.vars }
        ensures zone { self.new.zone.items ≡ spans_by self.old.order.vars.items zone.now }
        ensures point { self.new.point.items ≡ self.old.point.items }
        ensures order { self.new.order ≡ self.old.order }
    {
        let order = &self.order;
        arrange_spans(&order.vars, zone, &mut self.zone);
    }

    /// Writes costs in the order.
    pub fn set_costs(&mut self, costs: &[i128])
        requires { length costs.now ≡ vec_len self.old.order.vars }
        ensures costs { self.new.costs.items ≡ numbers_by self.old.order.vars.items costs.now }
        ensures zone { self.new.zone.items ≡ self.old.zone.items }
        ensures point { self.new.point.items ≡ self.old.point.items }
        ensures order { self.new.order ≡ self.old.order }
    {
        let order = &self.order;
        arrange_costs(&order.vars, costs, &mut self.costs);
    }

    /// Writes a point in the block's own order.
    pub fn set_point(&mut self, numbers: &[i64])
        requires { length numbers.now ≡ vec_len self.old.order.vars }
        ensures point { self.new.point.items ≡
            numbers_by self.old.order.places.items numbers.now }
        ensures order { self.new.order ≡ self.old.order }
    {
        let order = &self.order;
        put_back(&order.places, numbers, &mut self.point);
    }
}
