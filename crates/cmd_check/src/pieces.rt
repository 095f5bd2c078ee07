// The bytes of a file in pieces.
ghost use Rattle.std.specs.Prelude.{◌≡◌, ℕ, ◌+◌, ◌^◌, ◌<◌, ◌≤◌, Bool, List, Option, None, length, IfOk, IfSome, IsOk, IsTrue, IsErrOf, IsSome};
ghost use Rattle.bp_shelf.specs.Shelf.{CountsFailed, HoldsFrom, file_limit};
ghost use Rattle.bp_shelf.specs.declared.shelf.ShelfFault.TheVariants.{Missing};
ghost use Rattle.cmd_check.specs.Reading.{piece_of};

use bp_shelf::{Shelf, ShelfFault};

/// The bytes of a file in pieces, from the front on. The file may be told or not, which lasts.
pub(crate) trait Pieces {
    /// Whether the file is told.
    ghost tells: { Self → Bool };

    /// The bytes of the file, if there is one.
    ghost file: { Self → Option (List ℕ) };

    /// How many bytes the pieces had that were given.
    ghost given: { Self → ℕ };

    /// How often a read has failed.
    ghost faults: { Self → ℕ };

    /// What it is before and behind each single call, and the piece that the call gave. Nothing else is known of it where
    /// pieces are asked for, so that each call is accounted for.
    ghost asks: { Self → List ℕ → Self → Type 0 };

    /// Puts the next piece to the front of the buffer, and gives its length: 0 at the file's end.
    fn next(&mut self, buffer: &mut [u8]) -> Result<usize, ShelfFault>
        requires room { 0 < length buffer.old }
        requires few { given self.old + length buffer.old < 2 ^ 63 }
        ensures asked { asks self.old (piece_of result buffer.new) self.new }
        ensures count { IfOk result (λ count. count ≤ length buffer.old) }
        ensures given { IfOk result (λ count. given self.new ≡ given self.old + count) }
        ensures far { file_limit ≤ given self.old → IfOk result (λ count. count ≡ 0) }
        ensures bytes { IsTrue (tells self.old) → IfOk result (λ count. IfSome (file self.old)
            (λ bytes. HoldsFrom (given self.old) bytes buffer.new count)) }
        ensures end { IsTrue (tells self.old) →
            IfOk result (λ count. count ≡ 0 → IfSome (file self.old)
            (λ bytes. length bytes ≤ given self.old)) }
        ensures found { IsTrue (tells self.old) → IsOk result → IsSome (file self.old) }
        ensures missing { IsTrue (tells self.old) → IsErrOf result ShelfFault.Missing →
            file self.old ≡ None }
        ensures told { tells self.new ≡ tells self.old }
        ensures same { file self.new ≡ file self.old }
        ensures cause { CountsFailed (faults self.old) (faults self.new) result };
}

/// A file of a shelf, by its name, which is read from a place on.
#[derive(Drop)]
pub(crate) struct FilePieces<'a, F> {
    pub(crate) shelf: &'a mut F,
    pub(crate) name: &'a str,
    // How many bytes were read.
    pub(crate) at: u64,
}

impl<F: Shelf> Pieces for FilePieces<'_, F> {
    ghost tells = { λ pieces. F.tells pieces.shelf.now };

    ghost file = { λ pieces. F.file pieces.shelf.now pieces.name.now };

    ghost given = { λ pieces. pieces.at };

    ghost faults = { λ pieces. F.read_faults pieces.shelf.now };

    // The same shelf is read, whose files and count of failed writes stay.
    ghost asks = { λ old _ new. (new.shelf.ghost_name ≡ old.shelf.ghost_name) ×
        (F.file new.shelf.now ≡ F.file old.shelf.now) ×
        (F.write_faults new.shelf.now ≡ F.write_faults old.shelf.now) };

    fn next(&mut self, buffer: &mut [u8]) -> Result<usize, ShelfFault> {
        let count = self.shelf.read_at(self.name, self.at, buffer)?;
        self.at += count as u64;
        Ok(count)
    }
}
