// The desks of a program's blocks, one for all blocks of a form.
ghost use Rattle.std.specs.Prelude.{◌≡◌, ◌<◌, ◌≤◌, ℕ, None, IfOk, All, length, map, vec_len, slice_index_or};
ghost use Rattle.block_program.specs.Blocked.{IsFormed};
ghost use Rattle.block_pricers.specs.declared.desk.Desk.{Desk};
ghost use Rattle.block_pricers.specs.Desks.{form_of, HaveGraphs};
ghost use Rattle.block_pricers.specs.Forms.{form_at, forms_in};
ghost use Rattle.block_pricers.specs.Pricers.{AreEnough, IsFitting};

use crate::desk::Desk;
use crate::pricers::GraphRoom;
use block_program::Blocked;
use std::alloc::{AllocError, Global};

/// The larger of two counts.
fn larger(a: usize, b: usize) -> usize
    ensures first { a ≤ result }
    ensures second { b ≤ result }
{
    if a < b { b } else { a }
}

/// The desks of some blocks, and how many cells their tables share.
pub fn desks_of(
    alloc: Global,
    b: &Blocked,
    blocks: &[u32],
) -> Result<(Vec<Desk>, usize), AllocError>
    requires formed { IsFormed b.now }
    requires there { All (λ j. j < length b.now.blocking.blocks) blocks.now }
    ensures forms { IfOk result (λ made. map form_of made.0.items ≡ map (form_at (forms_in b.now))
        blocks.now) }
    ensures kinds { IfOk result (λ made. All (λ (desk : Desk). IsFitting desk.pricer)
        made.0.items) }
    ensures graphs { IfOk result (λ made. HaveGraphs made.0.items) }
    ensures cells { IfOk result (λ made. AreEnough made.1 (map form_of made.0.items)) }
{
    let mut desks = Vec::new(alloc);
    let mut most = 0;
    let mut room = GraphRoom::whole();
    for number in blocks {
        let desk = Desk::make(alloc, b.block(*number), &mut room)?;
        most = larger(most, desk.cells());
        desks.push(desk)?;
    }
    Ok((desks, most))
}

/// Lets nothing be known.
pub fn clear(known: &mut Vec<Option<i128>>)
    ensures len { vec_len known.new ≡ vec_len known.old }
    ensures cleared { (k : ℕ) → slice_index_or known.new.items k None ≡ None }
{
    for k in 0..known.len() {
        known[k] = None;
    }
}
