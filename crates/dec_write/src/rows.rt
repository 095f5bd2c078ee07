// The master rows that the words of a text list.
ghost use Rattle.std.specs.Prelude.{◌≡◌, IfOk, List, ℕ, length, replicate, false, []};
ghost use Rattle.std.specs.Str.{IsUtf8};
ghost use Rattle.bp_model.specs.Named.{IsKept};
ghost use Rattle.dec_write.specs.Rows.{name_fault, word_fault};
ghost use Rattle.dec_write.specs.Listing.{Keeps, Takes};

use crate::fault::RowsKind;
use dec_syntax::holds_bad_byte;
use name_table::IndexedModel;
use std::alloc::{AllocError, Global};
use std::str;

/// The rows that were listed, in order, and for each row whether it is listed.
#[derive(Drop)]
pub struct Listing {
    /// By number of the row: whether it is listed.
    pub seen: Vec<bool>,
    /// The numbers of the listed rows, in the order of the text, each once.
    pub rows: Vec<u32>,
}

// None of so many rows listed.
fn unlisted(alloc: Global, rows: usize) -> Result<Vec<bool>, AllocError>
    ensures { IfOk result (λ seen. seen.items ≡ replicate rows false) }
{
    Vec::from_elem(alloc, false, rows)
}

impl Listing {
    /// Nothing listed of so many rows.
    pub fn new(alloc: Global, rows: usize) -> Result<Listing, AllocError>
        ensures { (names : List (List ℕ)) → length names ≡ rows →
            IfOk result (λ listing. Keeps names listing []) }
    {
        let seen = unlisted(alloc, rows)?;
        Ok(Listing {
            seen,
            rows: Vec::new(alloc),
        })
    }

    // Lists the row of a name; its fault, if it has one.
    fn list(&mut self, m: &IndexedModel<'_>, name: &[u8]) -> Result<Option<RowsKind>, AllocError>
        requires text { IsUtf8 name.now }
        requires kept { IsKept m.now }
        requires room { length self.old.seen.items ≡ length m.now.row_names }
        ensures { (earlier : List (List ℕ)) → Keeps m.now.row_names self.old earlier →
            Takes (name_fault m.now.row_names earlier name.now) m.now.row_names self.new earlier
            name.now result }
    {
        let Ok(name) = str::from_utf8(name) else {
            unreachable!()
        };
        let Some(row) = m.row_of(name) else {
            return Ok(Some(RowsKind::UnknownRow));
        };
        if self.seen[row as usize] {
            return Ok(Some(RowsKind::RowTwice));
        }
        self.seen[row as usize] = true;
        self.rows.push(row)?;
        Ok(None)
    }

    /// Takes a word; its fault, if it has one.
    pub fn take(
        &mut self,
        m: &IndexedModel<'_>,
        word: &[u8],
    ) -> Result<Option<RowsKind>, AllocError>
        requires kept { IsKept m.now }
        requires room { length self.old.seen.items ≡ length m.now.row_names }
        ensures { (earlier : List (List ℕ)) → Keeps m.now.row_names self.old earlier →
            Takes (word_fault m.now.row_names earlier word.now) m.now.row_names self.new earlier
            word.now result }
    {
        if holds_bad_byte(word) {
            return Ok(Some(RowsKind::BadByte));
        }
        self.list(m, word)
    }
}
