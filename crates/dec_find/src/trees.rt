// The blocks of the rows that master rows leave.
ghost use Rattle.std.specs.Prelude.{◌≡◌, ◌≤◌, ◌<◌, IfOk, All, length};
ghost use Rattle.bp_theory.specs.Limits.{most_blocks};
ghost use Rattle.dec_components.specs.Joined.{IsFound, HasTooMany};
ghost use Rattle.dec_components.specs.declared.fault.FindFault.TheVariants.{Blocks};

use bp_model::{Dec, Items, Model};
use dec_components::{FindFault, marks_of, numbered, tied_rows};
use std::alloc::Global;

/// The decomposition of a model beside master rows: the other rows in blocks, of which each has the rows that common
/// variables join, at most as many as the model's limits allow.
pub fn find(alloc: Global, m: &Model, master: &[u32]) -> Result<Dec, FindFault>
    requires { All (λ r. r < length m.now.program.rows) master.now }
    ensures found { IfOk result (λ dec. IsFound m.now.program master.now dec) }
    ensures few { IfOk result (λ dec. dec.blocks ≤ most_blocks m.now.program.limits) }
    ensures many { result ≡ Err Blocks → HasTooMany m.now.program master.now }
{
    let marks = marks_of(alloc, m.rows(), master)?;
    let parents = tied_rows(alloc, m, &marks)?;
    let found = numbered(alloc, &parents, &marks)?;
    if m.limits().blocks() < found.blocks {
        return Err(FindFault::Blocks);
    }
    Ok(Dec::make(
        found.blocks,
        Items::from_vec(found.places),
        Items::new(alloc),
    ))
}
