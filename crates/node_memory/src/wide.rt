// Blocks whose points have more beginnings than pricing may visit.
ghost use Rattle.std.specs.Prelude.{◌<◌, IfOk, IsTrue, length};
ghost use Rattle.bp_theory.specs.Trees.{IsZone};
ghost use Rattle.node_memory.specs.Wide.{IsWide};

use crate::budget::MOST_VISITS;
use block_program::{Blocked, Zone};
use bp_theory::Span;
use lagr_bound::fill_spans;
use search_price::prefixes;
use std::alloc::{AllocError, Global};

/// Whether a block has more beginnings of points than pricing may visit.
pub fn has_many_beginnings(
    alloc: Global,
    b: &Blocked,
    number: u32,
    zone: &Zone,
) -> Result<bool, AllocError>
    requires zone { IsZone b.now.named.program.spans zone.now }
    requires there { number < length b.now.blocking.blocks }
    ensures { IfOk result (λ many. IsTrue many → IsWide b.now.blocking zone.now number) }
{
    // For the proof alone: `b` is formed.
    let _ = b.blocks();
    let block = b.block(number);
    let mut spans = Vec::from_elem(alloc, Span { lo: 0, hi: 0 }, block.vars().len())?;
    fill_spans(&mut spans, block, zone);
    Ok(prefixes(block, spans.as_slice()) > u128::from(MOST_VISITS))
}
