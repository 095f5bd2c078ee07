// The blocks of a program and the rows that proofs may name.
ghost use Rattle.std.specs.Prelude.{IfOk};
ghost use Rattle.block_program.specs.Blocked.{AreMade};
ghost use Rattle.block_build.specs.Source.{IsSource};

use crate::assemble::{home_blocks, named_rows, push_lone_blocks};
use crate::source::Source;
use block_program::Block;
use bp_theory::{Items, MasterRow};
use std::alloc::{AllocError, Global};

/// The blocks and the named rows of a model, a decomposition of it and rows of cuts, or want of memory.
pub fn made_parts(
    alloc: Global,
    source: &Source,
) -> Result<(Items<Block>, Items<Option<MasterRow>>), AllocError>
    requires { IsSource source.now }
    ensures { IfOk result (λ parts. AreMade source.now.model.now source.now.dec.now
        source.now.cuts.now parts.0 parts.1) }
{
    let rows = source.model.all_rows();
    let mut blocks = home_blocks(alloc, source)?;
    push_lone_blocks(alloc, source, &mut blocks)?;
    let links = source.end.saturating_sub(source.model.rows());
    let named = named_rows(alloc, rows, source.dec.places(), links, source.cuts)?;
    Ok((Items::from_vec(blocks), Items::from_vec(named)))
}
