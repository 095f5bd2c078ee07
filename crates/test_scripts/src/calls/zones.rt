// The zones that calls are made over.
ghost use Rattle.std.specs.Prelude.{IfOk, IsTrue};
ghost use Rattle.bp_theory.specs.Trees.{IsSoundSplit, IsZone};

use block_program::{Blocked, Zone};
use std::alloc::{AllocError, Global};

/// The part of a zone with the numbers of a variable up to `at`, or the whole zone where no number would be left on a
/// side.
pub fn narrowed(
    alloc: Global,
    b: &Blocked,
    zone: &Zone,
    var: u32,
    at: i64,
) -> Result<Zone, AllocError>
    requires { IsZone b.now.named.program.spans zone.now }
    ensures { IfOk result (IsZone b.now.named.program.spans) }
{
    // For the proof alone: `b` stands in the contract.
    let _ = b;
    if !is_sound(zone, var, at) {
        return zone.copy(alloc);
    }
    let (low, _) = zone.split(alloc, var, at)?;
    Ok(low)
}

/// Whether a split of a variable's span behind `at` leaves each part a number.
pub fn is_sound(zone: &Zone, var: u32, at: i64) -> bool
    ensures { IsTrue result → IsSoundSplit zone.now var at }
{
    if zone.spans().len() <= var as usize {
        return false;
    }
    let span = zone.span(var);
    span.lo <= at && at < span.hi
}
