// Signatures, each once and in order.
ghost use Rattle.std.specs.Prelude.{◌≡◌, ◌+◌, ◌<◌, ◌^◌, ◌++◌, ◌∷◌, [], length, slice_get, IfOk, MatchBool, Some};

use indexmap::IndexSet;
use std::alloc::{AllocError, Global};
use std::marker::Model;

/// Signatures, each once, numbered from 0 in the order in which they came. Contracts see the list of their numbers.
pub struct Signatures {
    // The signatures by their numbers.
    table: IndexSet<Vec<i64>>,
}

// One `drop` for all callers, which need not prove again how a table goes.
impl Drop for Signatures {
    fn drop(self) {
        let Signatures { table: _ } = self;
    }
}

impl Model for Signatures {
    ghost use Rattle.std.specs.Prelude.{List, ℤ, map};
    ghost use Rattle.std.specs.List.{IsDistinct};
    ghost use Rattle.std.specs.Cmp.Lexicographic.{pointwise};
    ghost use Rattle.std.specs.Ordering.{int_eq};

    ghost Value = { List (List ℤ) };

    ghost view = { λ s. map (λ k. k.items) s.table.keys };

    ghost invariant = { λ s. IsDistinct (pointwise int_eq) (map (λ k. k.items) s.table.keys) };
}

impl Signatures {
    ghost use Rattle.std.specs.List.{IsDistinct};
    ghost use Rattle.std.specs.Cmp.Lexicographic.{pointwise};
    ghost use Rattle.std.specs.Ordering.{int_eq};

    /// No signatures yet.
    pub fn new(alloc: Global) -> Signatures
        ensures { result ≡ [] }
    {
        Signatures {
            table: IndexSet::new(alloc),
        }
    }

    /// The number of a signature, and whether it is new: then it goes last.
    pub fn add(&mut self, signature: Vec<i64>) -> Result<(u32, bool), AllocError>
        requires { length self.old + 1 < 2 ^ 32 }
        ensures number { IfOk result (λ added. slice_get self.new added.0 ≡ Some signature.items) }
        ensures kept { IfOk result (λ added.
            MatchBool added.1 (self.new ≡ self.old ++ signature.items ∷ []) (self.new ≡ self.old)) }
        ensures distinct { IfOk result (λ added. IsDistinct (pointwise int_eq) self.new) }
    {
        let (number, is_new) = self.table.insert_full(signature)?;
        Ok((number as u32, is_new))
    }
}
