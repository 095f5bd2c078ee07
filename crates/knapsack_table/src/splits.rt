// The parts 1, 2, 4, .. of a number and a rest. (Martello and Toth, Knapsack problems: algorithms and computer
// implementations, 1990.)
ghost use Rattle.std.specs.Prelude.{◌≡◌, ◌≤◌, ◌<◌, ℕ, Bool, List, length, sum};
ghost use Rattle.search_laws.specs.Parts.{ArePartsOf, chosen_sum};

/// The parts of a number that are left, as an iterator. Contracts see their list.
#[derive(Drop)]
pub struct Doubles {
    first: u128,
    count: u32,
    rest: u64,
}

impl std::marker::Model for Doubles {
    ghost use Rattle.std.specs.Prelude.{ℕ, List, ◌*◌, ◌^◌, ◌≤◌};
    ghost use Rattle.knapsack_table.specs.Parts.{parts_left};

    ghost Value = { List ℕ };

    ghost view = { λ d. parts_left d.first d.count d.rest };

    ghost invariant = { λ d. d.first * 2 ^ d.count ≤ 2 ^ 64 };
}

impl Iterator for Doubles {
    type Item = u64;

    ghost use Rattle.std.specs.Iterator.{YieldsFirst, item_count};

    ghost next_gives = { YieldsFirst (λ rest. rest) };

    ghost remaining = { item_count (λ rest. rest) };

    fn next(&mut self) -> Option<u64> {
        if self.count > 0 {
            let part = self.first as u64;
            self.first *= 2;
            self.count -= 1;
            return Some(part);
        }
        if self.rest > 0 {
            let part = self.rest;
            self.rest = 0;
            return Some(part);
        }
        None
    }
}

/// The parts of a number.
fn split(w: u64) -> Doubles
    ensures { ArePartsOf w result }
{
    let next = u128::from(w) + 1;
    let count = next.ilog2();
    let rest = (next - (1 << count)) as u64;
    Doubles {
        first: 1,
        count,
        rest,
    }
}

/// The parts 1, 2, 4, .. of a number, as long as they fit together, and the rest that is left. They add up to the number,
/// and each smaller number is the sum of some of them.
pub fn parts(w: u64) -> Doubles
    ensures parts { ArePartsOf w result }
    ensures whole { sum result ≡ w }
    ensures each { (v : ℕ) → v ≤ w → (chosen : List Bool) × (length chosen ≡ length result) ×
        (chosen_sum chosen result ≡ v) }
{
    split(w)
}
