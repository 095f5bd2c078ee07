// Names of variables or rows, to be found by their bytes.
ghost use Rattle.std.specs.Prelude.{◌≡◌, ◌≢◌, ◌+◌, ◌<◌, ◌^◌, ◌↔◌, ◌++◌, ◌∷◌, [], length, slice_get, Contains, IfOk, IfSome, IfNone, OnErr, IsTrue, MatchBool, Some};
ghost use Rattle.std.specs.List.{IsDistinct};
ghost use Rattle.std.specs.Str.{bytes_eq};

use bp_model::NameList;
use indexmap::IndexSet;
use std::alloc::{AllocError, Global};
use std::marker::Model;

/// Names, each once, numbered from 0 in the order in which they came: fewer than `2^32`.
/// Contracts see the list of their bytes.
pub struct NameTable {
    // The names, by number.
    table: IndexSet<String>,
}

// What goes with one is proved here once, and not again wherever one goes.
impl Drop for NameTable {
    fn drop(self) {
        let NameTable { table: _ } = self;
    }
}

impl Model for NameTable {
    ghost use Rattle.std.specs.Prelude.{ℕ, List, map, string_bytes, length, ◌<◌, ◌^◌};
    ghost use Rattle.std.specs.List.{IsDistinct};
    ghost use Rattle.std.specs.Str.{bytes_eq};

    ghost Value = { List (List ℕ) };

    ghost view = { λ n. map string_bytes n.table.keys };

    ghost invariant = { λ n. IsDistinct bytes_eq (map string_bytes n.table.keys) × (length n.table.keys < 2 ^ 32) };
}

impl NameTable {
    /// No names yet.
    pub fn new(alloc: Global) -> NameTable
        ensures { result ≡ [] }
    {
        NameTable {
            table: IndexSet::new(alloc),
        }
    }

    /// The table of a list's names, with their numbers.
    pub fn of(alloc: Global, names: &NameList) -> Result<NameTable, AllocError>
        ensures { IfOk result (λ table. table ≡ names.now) }
    {
        let mut table = NameTable::new(alloc);
        for number in 0..names.len() {
            table.add(alloc, names.get(number))?;
        }
        Ok(table)
    }

    /// The list of the names.
    pub fn into_list(self, alloc: Global) -> Result<NameList, AllocError>
        ensures { IfOk result (λ names. names ≡ self) }
    {
        // For the proof alone: how many names there can be.
        let _ = self.table.len();
        let NameTable { table } = self;
        let names: Vec<String> = table.into_iter().collect(alloc)?;
        Ok(NameList::from_vec(names))
    }

    /// How many names there are.
    pub fn len(&self) -> u32
        ensures len { result ≡ length self.now }
        ensures distinct { IsDistinct bytes_eq self.now }
    {
        self.table.len() as u32
    }

    /// Whether there is no name.
    pub fn is_empty(&self) -> bool
        ensures { IsTrue result ↔ (self.now ≡ []) }
    {
        self.len() == 0
    }

    /// The name of a number.
    pub fn get(&self, number: u32) -> &str
        requires { number < length self.now }
        ensures { slice_get self.now number ≡ Some result.now }
    {
        self.table.as_slice()[number as usize].as_str()
    }

    /// The number of a name, where it is there.
    pub fn place_of(&self, name: &str) -> Option<u32>
        ensures found { IfSome result (λ number. slice_get self.now number ≡ Some name.now) }
        ensures absent { IfNone result (¬ (Contains self.now name.now)) }
    {
        let place = self.table.get_index_of(name)?;
        Some(place as u32)
    }

    /// The number of the name with these bytes, where it is there.
    pub fn place_of_bytes(&self, name: &[u8]) -> Option<u32>
        ensures found { IfSome result (λ number. slice_get self.now number ≡ Some name.now) }
        ensures absent { IfNone result (¬ (Contains self.now name.now)) }
        ensures distinct { IsDistinct bytes_eq self.now }
    {
        // For the proof alone: how many names the table can have.
        let _count = self.table.len();
        match str::from_utf8(name) {
            Ok(text) => self.place_of(text),
            Err(_) => None,
        }
    }

    /// The number of a name, and whether it is new: then it goes last.
    pub fn add(&mut self, alloc: Global, name: &str) -> Result<(u32, bool), AllocError>
        requires { length self.old + 1 < 2 ^ 32 }
        ensures number { IfOk result (λ added. slice_get self.new added.0 ≡ Some name.now) }
        ensures names { IfOk result (λ added.
            MatchBool added.1 (self.new ≡ self.old ++ name.now ∷ []) (self.new ≡ self.old)) }
        ensures is_new { IfOk result (λ added. IsTrue added.1 ↔ (¬ (Contains self.old name.now))) }
        ensures err { OnErr result (self.new ≡ self.old) }
    {
        if let Some(place) = self.place_of(name) {
            return Ok((place, false));
        }
        let place = self.len();
        self.table.insert(String::from_str(alloc, name)?)?;
        Ok((place, true))
    }
}
