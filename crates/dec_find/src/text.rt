// The text of a decomposition.
ghost use Rattle.std.specs.Prelude.{◌≡◌, ◌≤◌, [], IfOk, All};
ghost use Rattle.std.specs.List.{zip};
ghost use Rattle.bp_theory.specs.Limits.{most_blocks};
ghost use Rattle.bp_theory.specs.Decomposition.{HasPlaces};
ghost use Rattle.dec_read.specs.Reading.{ReadsDecomposition};
ghost use Rattle.dec_write.specs.Text.{IsRowName, text_of, AreLines};

use bp_model::{Dec, Model};
use dec_write::Lines;
use std::alloc::{AllocError, Global};

// The lines of a decomposition.
fn lines_of(alloc: Global, m: &Model, dec: &Dec) -> Result<Lines, AllocError>
    requires { HasPlaces m.now.program dec.now }
    ensures { IfOk result (AreLines dec.now.blocks (zip m.now.row_names dec.now.places)) }
{
    let mut lines = Lines::new(alloc, dec.blocks())?;
    for row in 0..m.rows() {
        lines.add(dec.block_of(row), m.row_name(row).as_bytes())?;
    }
    Ok(lines)
}

/// The text of a decomposition that lists no variables: the number of its blocks, a line of its rows for each block, and a
/// line of the master rows.
pub fn dec_text(alloc: Global, m: &Model, dec: &Dec) -> Result<Vec<u8>, AllocError>
    requires places { HasPlaces m.now.program dec.now }
    requires unlisted { dec.now.listed ≡ [] }
    requires names { All IsRowName m.now.row_names }
    requires few { dec.now.blocks ≤ most_blocks m.now.program.limits }
    ensures text { IfOk result (λ text. text.items ≡ text_of m.now dec.now) }
    ensures read_back { IfOk result (λ text. ReadsDecomposition text.items m.now dec.now) }
{
    // For the proof alone: what a model keeps.
    let _rows = m.rows();
    let lines = lines_of(alloc, m, dec)?;
    let text = lines.text(alloc, dec.blocks())?;
    Ok(text)
}
