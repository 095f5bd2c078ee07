// The multipliers of a leaf, put and changed in the order of rows.
ghost use Rattle.std.specs.Prelude.{◌≡◌, ◌≤◌, [], true, false, IfOk, OnOk, map, vec_len};
ghost use Rattle.cert_format.specs.Cert.{multiplier, put, changed};
ghost use Rattle.cert_format.specs.Written.{in_text, written_pair};
ghost use Rattle.cert_format.specs.Versions.{had_behind};
ghost use Rattle.std.specs.List.Sorted.{IsStrictlyIncreasing};
ghost use Rattle.cert_format.specs.Ascending.{rows_of, lower, StandsAt};

use bp_theory::Items;
use cert_format::Version;
use std::alloc::{AllocError, Global};
use std::mem;

/// The multipliers of rows, in the order of rows.
#[derive(Drop)]
pub struct Multipliers {
    // Rows, by numbers from 0, with their multipliers, none of which is 0.
    pairs: Vec<(u32, i64)>,
    // Rows ascend, each once.
    ghost ascend: { IsStrictlyIncreasing (rows_of pairs.items) },
}

impl Multipliers {
    /// No row has a multiplier.
    pub fn new(alloc: Global) -> Multipliers
        ensures { result.pairs.items ≡ [] }
    {
        Multipliers {
            pairs: Vec::new(alloc),
        }
    }

    // How many pairs stand before a row.
    fn place(&self, row: u32) -> usize
        ensures place { result ≡ lower row self.now.pairs.items }
        ensures within { result ≤ vec_len self.now.pairs }
    {
        self.pairs.partition_point(|pair| pair.0 < row)
    }

    // Whether a row's pair stands at a place.
    fn stands(&self, at: usize, row: u32) -> bool
        ensures there { result ≡ true → StandsAt row self.now.pairs.items at }
        ensures not_there { result ≡ false → StandsAt row self.now.pairs.items at → ⊥ }
    {
        if at >= self.pairs.len() {
            return false;
        }
        self.pairs[at].0 == row
    }

    /// The multiplier of a row, 0 where it has none.
    pub fn get(&self, row: u32) -> i64
        ensures { result ≡ multiplier (map written_pair self.now.pairs.items) (in_text row) }
    {
        let at = self.place(row);
        if self.stands(at, row) {
            return self.pairs[at].1;
        }
        0
    }

    // A row gets a multiplier, or loses it by 0.
    fn put(&mut self, pair: (u32, i64)) -> Result<(), AllocError>
        ensures { OnOk result (self.new.pairs.items ≡ put pair.0 pair.1 self.old.pairs.items) }
    {
        let at = self.place(pair.0);
        if self.stands(at, pair.0) {
            if pair.1 == 0 {
                self.pairs.remove(at);
                return Ok(());
            }
            self.pairs[at] = pair;
            return Ok(());
        }
        if pair.1 == 0 {
            return Ok(());
        }
        self.pairs.insert(at, pair)?;
        Ok(())
    }

    // Some rows get others, one after another.
    #[tactic(auto, using(cert_format::proofs::Putting::changed_more))]
    fn change(&mut self, changes: &[(u32, i64)]) -> Result<(), AllocError>
        ensures { OnOk result (self.new.pairs.items ≡ changed self.old.pairs.items changes.now) }
    {
        for pair in changes {
            self.put(*pair)?;
        }
        Ok(())
    }

    /// The multipliers of a leaf that has these changes, which the next leaf changes in its turn, but in version 1. A
    /// change is the row's new multiplier, 0 where it loses it; all are as the text has them, each leaf's at its own
    /// scale.
    pub fn next(
        &mut self,
        alloc: Global,
        version: Version,
        changes: &[(u32, i64)],
    ) -> Result<Items<(u32, i64)>, AllocError>
        ensures mults { IfOk result (λ mults. mults ≡ changed self.old.pairs.items changes.now) }
        ensures had { OnOk result (self.new.pairs.items ≡ had_behind version self.old.pairs.items
            changes.now) }
    {
        self.change(changes)?;
        match version {
            Version::One => Ok(self.take(alloc)),
            Version::Two | Version::Three => Ok(Items::from_vec(Vec::from_slice(
                alloc,
                self.pairs.as_slice(),
            )?)),
        }
    }

    // All pairs, where no row keeps its multiplier.
    fn take(&mut self, alloc: Global) -> Items<(u32, i64)>
        ensures taken { result ≡ self.old.pairs.items }
        ensures empty { self.new.pairs.items ≡ [] }
    {
        let old = mem::replace(self, Multipliers::new(alloc));
        Items::from_vec(old.pairs)
    }
}
