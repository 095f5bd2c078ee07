// Names of variables or rows, each once and in order.
ghost use Rattle.std.specs.Prelude.{◌≡◌, ◌<◌, ◌^◌, ◌↔◌, [], length, slice_get, map, string_bytes, IsTrue, Some};
ghost use Rattle.std.specs.List.{IsDistinct};
ghost use Rattle.std.specs.Str.{bytes_eq};

use std::marker::Model;

/// Names, each once, numbered from 0 in order: fewer than `2^32`. Contracts see the list of their bytes.
pub struct NameList {
    // The names, by number.
    names: Vec<String>,
}

// What goes with one is proved here once, and not again wherever one goes.
impl Drop for NameList {
    fn drop(self) {
        let NameList { names: _ } = self;
    }
}

impl Model for NameList {
    ghost use Rattle.std.specs.Prelude.{ℕ, List, map, string_bytes, length, ◌<◌, ◌^◌};
    ghost use Rattle.std.specs.List.{IsDistinct};
    ghost use Rattle.std.specs.Str.{bytes_eq};

    ghost Value = { List (List ℕ) };

    ghost view = { λ n. map string_bytes n.names.items };

    ghost invariant = { λ n. IsDistinct bytes_eq (map string_bytes n.names.items) × (length n.names.items < 2 ^ 32) };
}

impl NameList {
    /// The list of names that are distinct.
    pub fn from_vec(names: Vec<String>) -> NameList
        requires distinct { IsDistinct bytes_eq (map string_bytes names.items) }
        requires few { length names.items < 2 ^ 32 }
        ensures { result ≡ map string_bytes names.items }
    {
        NameList { names }
    }

    /// How many names there are.
    pub fn len(&self) -> u32
        ensures len { result ≡ length self.now }
        ensures distinct { IsDistinct bytes_eq self.now }
        ensures few { result < 2 ^ 32 }
    {
        self.names.len() as u32
    }

    /// Whether there is no name.
    pub fn is_empty(&self) -> bool
        ensures { IsTrue result ↔ (self.now ≡ []) }
    {
        self.len() == 0
    }

    /// The name of a number.
    pub fn get(&self, number: u32) -> &str
        requires { number < length self.now }
        ensures { slice_get self.now number ≡ Some result.now }
    {
        self.names.as_slice()[number as usize].as_str()
    }
}
