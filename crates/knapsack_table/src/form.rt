// What pricing by a table is made of, and what it keeps from call to call.
ghost use Rattle.std.specs.Prelude.{◌≡◌, IfOk, length, vec_len};
ghost use Rattle.pricing_problem.specs.Form.{IsForm};
ghost use Rattle.knapsack_table.specs.Taken.{IsTaken, dense, first_terms};

use crate::coefs::{coefs_of, reach_of};
use crate::items::Item;
use crate::steps::{least_sum, top_of};
use bp_theory::{Row, Span};
use pricing_problem::{copied_rows, copied_spans};
use std::alloc::{AllocError, Global};

/// One row with its root spans and the coefficients of each variable.
#[derive(Drop)]
pub struct Form {
    pub rows: Vec<Row>,
    pub spans: Vec<Span>,
    pub coefs: Vec<i128>,
    ghost kept: { IsForm rows.items spans.items },
    ghost taken: { IsTaken rows.items spans.items },
    ghost dense_coefs: { coefs.items ≡ dense (first_terms rows.items) (length spans.items) },
}

/// The items of a row, and the point.
#[derive(Drop)]
pub struct Table {
    pub items: Vec<Item>,
    pub point: Vec<i64>,
}

impl Table {
    ghost use Rattle.std.specs.Prelude.{◌≡◌, IfOk, vec_len};

    /// Room for the items and the point of so many variables.
    pub fn make(alloc: Global, many: usize) -> Result<Table, AllocError>
        ensures items { IfOk result (λ table. vec_len table.items ≡ many) }
        ensures point { IfOk result (λ table. vec_len table.point ≡ many) }
    {
        let none = Item {
            weight: 0,
            width: 0,
            cost: 0,
        };
        let items = Vec::from_elem(alloc, none, many)?;
        let point = Vec::from_elem(alloc, 0, many)?;
        Ok(Table { items, point })
    }
}

impl Form {
    ghost use Rattle.std.specs.Prelude.{◌≡◌, ◌≤◌, ◌^◌, ◌+◌, ◌*◌, length};
    ghost use Rattle.knapsack_table.specs.Rooms.{form_room};

    /// A copy of a row and root spans.
    pub fn make(alloc: Global, rows: &[Row], spans: &[Span]) -> Result<Form, AllocError>
        requires form { IsForm rows.now spans.now }
        requires taken { IsTaken rows.now spans.now }
        ensures rows { IfOk result (λ form. form.rows.items ≡ rows.now) }
        ensures spans { IfOk result (λ form. form.spans.items ≡ spans.now) }
    {
        let coefs = coefs_of(alloc, rows[0].terms.as_slice(), spans)?;
        let rows_copied = copied_rows(alloc, rows)?;
        let spans_copied = copied_spans(alloc, spans)?;
        Ok(Form {
            rows: rows_copied,
            spans: spans_copied,
            coefs,
        })
    }

    /// The greatest weight of a table at the root: the lesser of how far the row's sum can move and of how far its
    /// upper side is above the least sum.
    pub fn room(&self) -> usize
        ensures value { result ≡ form_room self.now }
        ensures small { result ≤ 2 ^ 20 }
    {
        let row = &self.rows[0];
        let reach = reach_of(row.terms.as_slice(), &self.spans) as usize;
        let base = least_sum(&self.coefs, &self.spans);
        top_of(row, &base, reach)
    }

    /// How many cells a table has.
    pub fn cells(&self) -> usize
        ensures { result ≡ (length self.now.spans.items + 1) * (form_room self.now + 1) }
    {
        (self.spans.len() + 1) * (self.room() + 1)
    }
}
