// The program in blocks that a search is over: with cuts behind those that there are.
ghost use Rattle.std.specs.Prelude.{◌≡◌, ◌+◌, ◌≤◌, length, IfOk};
ghost use Rattle.bp_theory.specs.Limits.{most_cuts};
ghost use Rattle.block_program.specs.Cuts.{KeepsCuts};
ghost use Rattle.cert_load.specs.Recut.{with_cuts};
ghost use Rattle.search_start.specs.Cuttings.{room_behind, HasCuts, HasPlain, HasOthers};

use block_program::Blocked;
use bp_theory::Cut;
use cut_separation::choose;
use round_cut::{CutFault, copies_of, first_cuts, with_cuts};
use std::alloc::{AllocError, Global};

// How many cuts a program may have.
const MOST_CUTS: u32 = 256;

/// The program in blocks with cuts behind its own, at most so many, and no more than 256 in all: first the plain cuts, as far as
/// there is room, and behind them those that are thought to serve. Without room it is the program itself.
pub fn with_added(alloc: Global, b: Blocked, most: u32) -> Result<Blocked, AllocError>
    ensures { IfOk result (HasCuts b b.cuts most) }
{
    // For the proof alone: `b` is formed.
    let _ = b.blocks();
    let room = room_behind(&b, most);
    if room == 0 {
        return Ok(b);
    }
    let end = b.cuts().len() as u32 + room;
    let plain = with_plain(alloc, &b, room)?;
    with_others(alloc, plain, end)
}

// How many cuts may be added behind those of a program where at most so many are ordered.
fn room_behind(b: &Blocked, most: u32) -> u32
    ensures { result ≡ room_behind b.now.cuts most }
{
    let left = MOST_CUTS - b.cuts().len() as u32;
    most.min(left)
}

// The program in blocks with the plain cuts that there is room for behind its own.
fn with_plain(alloc: Global, b: &Blocked, room: u32) -> Result<Blocked, AllocError>
    requires { length b.now.cuts + room ≤ most_cuts }
    ensures { IfOk result (HasPlain b.now room) }
{
    let mut cuts = copies_of(alloc, b.cuts())?;
    let mut plain = first_cuts(alloc, b, room)?;
    cuts.append(&mut plain)?;
    with_kept(alloc, b, cuts.as_slice())
}

// The program in blocks with the cuts behind its own that are thought to serve, and at most so many in all.
fn with_others(alloc: Global, b: Blocked, most: u32) -> Result<Blocked, AllocError>
    ensures { IfOk result (HasOthers b most) }
{
    let cuts = choose(alloc, &b, most)?;
    if cuts.len() == b.cuts().len() {
        return Ok(b);
    }
    with_kept(alloc, &b, cuts.as_slice())
}

// The program in blocks with cuts in place of its own that it may have.
fn with_kept(alloc: Global, b: &Blocked, cuts: &[Cut]) -> Result<Blocked, AllocError>
    requires { KeepsCuts b.now.named.program b.now.dec cuts.now }
    ensures { IfOk result (λ c. c ≡ with_cuts b.now cuts.now) }
{
    match with_cuts(alloc, b, cuts) {
        Ok(c) => Ok(c),
        Err(CutFault::NoMemory) => Err(AllocError),
        Err(CutFault::Sign) => unreachable!(),
        Err(CutFault::Large) => unreachable!(),
    }
}
