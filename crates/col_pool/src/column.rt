// A point of a block with what it gives the restricted master.
ghost use Rattle.std.proofs.Common.{rules};
ghost use Rattle.std.specs.Cmp.{int_eq_equiv, on_equiv, on_per, partial_equiv_from_equiv};
ghost use Rattle.std.specs.Cmp.Lexicographic.{lists_equiv, pointwise};
ghost use Rattle.std.specs.Cmp.Rules.{signed_items};
ghost use Rattle.std.specs.Hash as fed;
ghost use Rattle.std.specs.Hash.{on_Alike, same_Alike};
ghost use Rattle.std.specs.Ordering.{int_eq};

use bp_theory::Items;
use std::hash::{Hash, Hasher};

/// A column of the restricted master: a point of a block, its cost, and its activities in the master rows, ascending
/// and without zeros. Two columns are equal where their points are.
#[derive(Drop)]
pub struct Column {
    /// A number for each of the block's variables.
    pub point: Items<i64>,
    /// The sum of the variables' costs times the numbers.
    pub cost: i64,
    /// For each master row the sum of the variables' coefficients times the numbers, where that isn't 0.
    pub acts: Items<(u32, i64)>,
}

impl PartialEq for Column {
    ghost eq = { λ a b. pointwise int_eq a.point b.point };

    ghost laws = { on_per (λ c. c.point) (partial_equiv_from_equiv (lists_equiv int_eq_equiv)) };

    fn eq(&self, other: &Column) -> bool {
        self.point.as_slice() == other.point.as_slice()
    }
}

impl Eq for Column {
    ghost laws = { on_equiv (λ c. c.point) (lists_equiv int_eq_equiv) };
}

impl Hash for Column {
    ghost hash_input = { λ c. fed.slice fed.i64 c.point };

    ghost respects_eq = { (on_Alike (λ c. c.point) (same_Alike (fed.slice fed.i64) signed_items)).fed };

    fn hash<H: Hasher>(&self, state: &mut H) {
        self.point.as_slice().hash(state);
    }
}
