// The master rows that a text lists by their names.
ghost use Rattle.std.specs.Prelude.{◌<◌, ◌≤◌, All, IfOk, IfErr, length};
ghost use Rattle.bp_theory.specs.Limits.{most_bytes};
ghost use Rattle.dec_write.specs.Rows.{ListsRows, IsRowsFault};

use bp_model::Model;
use dec_syntax::{Cursor, next_word};
use dec_write::{Listing, RowsFault, RowsKind};
use name_table::IndexedModel;
use std::alloc::Global;

/// The rows that a text lists by their names, by number and in the text's order, or the text's first fault.
pub fn read_rows(alloc: Global, bytes: &[u8], m: &Model) -> Result<Vec<u32>, RowsFault>
    ensures rows { IfOk result (λ rows. ListsRows bytes.now m.now rows.items) }
    ensures below { IfOk result (λ rows. All (λ r. r < length m.now.program.rows) rows.items) }
    ensures fault { IfErr result (λ fault. IsRowsFault bytes.now m.now fault) }
{
    if m.limits().bytes() < bytes.len() {
        return Err(RowsFault::At {
            line: 0,
            kind: RowsKind::Limit,
        });
    }
    let indexed = IndexedModel::of(alloc, m)?;
    read_words(alloc, bytes, &indexed)
}

// The rows that a text of no more than the greatest length lists, or the text's first fault.
fn read_words(alloc: Global, bytes: &[u8], m: &IndexedModel<'_>) -> Result<Vec<u32>, RowsFault>
    requires { length bytes.now ≤ most_bytes m.now.program.limits }
    ensures rows { IfOk result (λ rows. ListsRows bytes.now m.now rows.items) }
    ensures below { IfOk result (λ rows. All (λ r. r < length m.now.program.rows) rows.items) }
    ensures fault { IfErr result (λ fault. IsRowsFault bytes.now m.now fault) }
{
    let mut listing = Listing::new(alloc, m.rows() as usize)?;
    let mut cursor = Cursor {
        at: 0,
        line: 1,
        first: true,
    };
    while let Some((word, next)) = next_word(bytes, cursor) {
        if let Some(kind) = listing.take(m, &bytes[word.from..word.to])? {
            return Err(RowsFault::At {
                line: word.line,
                kind,
            });
        }
        cursor = next;
    }
    Ok(listing.rows)
}
