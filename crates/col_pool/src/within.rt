// The numbers of a pool's columns inside a zone.
ghost use Rattle.std.specs.Prelude.{◌≡◌, ℕ, ◌+◌, ◌≤◌, ◌<◌, ◌↔◌, length, IsTrue};
ghost use Rattle.std.specs.Iterator.{YieldsFirst, item_count};
ghost use Rattle.bp_theory.specs.Program.{IsInside, IsWithin};
ghost use Rattle.col_pool.specs.Inside.{numbers_inside};

use crate::column::Column;
use bp_theory::Span;

/// Gives the numbers of the columns of a pool that lie inside a zone, ascending.
#[derive(Drop)]
pub struct Within<'a> {
    // The columns that are left.
    pub(crate) left: &'a [Column],
    // By place of the variable: the span that a column's number has to lie in.
    pub(crate) zone: &'a [Span],
    // The number of the first column that is left.
    pub(crate) place: u32,
    // A pool has 65,536 columns at most.
    ghost few: { place + length left.now ≤ 65536 },
}

impl<'a> Within<'a> {
    // All columns of a pool are left.
    pub(crate) fn begin(left: &'a [Column], zone: &'a [Span]) -> Within<'a>
        requires { length left.now ≤ 65536 }
        ensures left { result.left.now ≡ left.now }
        ensures zone { result.zone.now ≡ zone.now }
        ensures first { result.place ≡ 0 }
    {
        Within {
            left,
            zone,
            place: 0,
        }
    }
}

impl<'a> Iterator for Within<'a> {
    type Item = u32;

    ghost next_gives = { YieldsFirst (λ s. numbers_inside s.zone.now s.left.now s.place) };

    ghost remaining = { item_count (λ s. numbers_inside s.zone.now s.left.now s.place) };

    fn next(&mut self) -> Option<u32> {
        while let Some((column, others)) = self.left.split_first() {
            let place = self.place;
            self.left = others;
            self.place = place + 1;
            if is_inside(self.zone, column.point.as_slice()) {
                return Some(place);
            }
        }
        None
    }
}

// Whether a point lies inside a zone.
fn is_inside(zone: &[Span], point: &[i64]) -> bool
    ensures { IsTrue result ↔ IsInside zone.now point.now }
{
    if zone.len() != point.len() {
        return false;
    }
    for i in 0..zone.len() {
        if !is_within(&zone[i], &point[i]) {
            return false;
        }
    }
    true
}

// Whether a number lies within a span.
fn is_within(span: &Span, number: &i64) -> bool
    ensures { IsTrue result ↔ IsWithin span.now number.now }
{
    span.lo <= *number && *number <= span.hi
}
