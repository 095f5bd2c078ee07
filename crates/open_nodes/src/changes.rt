// How one list of multipliers is made of another.
ghost use Rattle.std.specs.Prelude.{◌≡◌, ◌++◌, ◌+◌, ◌<◌, [], take, drop, length, pos, IfOk, OnOk, IfSome, IsTrue};
ghost use Rattle.open_nodes.specs.Changes.{replay, placed, passed, mult_of, from_halves, Starts};

use bp_theory::Items;
use std::alloc::{AllocError, Global};

// What a half of 32 bits goes up to.
const HALF: i64 = 1 << 32;

// A change of a list of multipliers: behind so many that it keeps, a row gets a multiplier, in place of that of the same
// row if it is the next one; or, by a multiplier 0, the next one is left out. It takes 12 bytes: the multiplier is in two
// halves of 32 bits, of which the high one takes 16.
#[derive(Clone, Copy)]
pub(crate) struct Change {
    row: u32,
    low: u32,
    high: i16,
    keep: u16,
}

// The list that changes make of another.
pub(crate) fn replay(
    alloc: Global,
    old: &[(u32, i64)],
    changes: &[Change],
) -> Result<Vec<(u32, i64)>, AllocError>
    ensures { IfOk result (λ made. made.items ≡ replay old.now changes.now) }
{
    let count = old.len().saturating_add(changes.len());
    let mut made = Vec::with_capacity(alloc, count)?;
    let mut left = old;
    for change in changes {
        left = replay_one(&mut made, left, change)?;
    }
    made.extend_from_slice(left)?;
    Ok(made)
}

// Puts what a change makes of the multipliers that are left behind those that are made: what is left then.
fn replay_one<'a>(
    made: &mut Vec<(u32, i64)>,
    left: &'a [(u32, i64)],
    change: &Change,
) -> Result<&'a [(u32, i64)], AllocError>
    ensures made { OnOk result (made.new.items ≡ made.old.items ++ take change.now.keep left.now ++
        placed change.now) }
    ensures left { IfOk result (λ rest. rest.now ≡ passed change.now (drop change.now.keep
        left.now)) }
{
    let keep = left.len().min(change.keep as usize);
    let (kept, rest) = left.split_at(keep);
    made.extend_from_slice(kept)?;
    let mult = mult_of(change);
    if mult != 0 {
        made.push((change.row, mult))?;
    }
    Ok(passed(change, rest))
}

// The multiplier that a change's row gets.
fn mult_of(change: &Change) -> i64
    ensures { result ≡ mult_of change.now }
{
    from_halves(change.high, change.low)
}

// A number of two halves.
fn from_halves(high: i16, low: u32) -> i64
    ensures { result ≡ from_halves high low }
{
    i64::from(high) * HALF + i64::from(low)
}

// What a change leaves of the multipliers behind those that it keeps.
fn passed<'a>(change: &Change, rest: &'a [(u32, i64)]) -> &'a [(u32, i64)]
    ensures { result.now ≡ passed change.now rest.now }
{
    match rest {
        [] => rest,
        [pair, behind @ ..] => {
            if mult_of(change) == 0 {
                return behind;
            }
            if pair.0 == change.row {
                return behind;
            }
            rest
        }
    }
}

// The changes that make one list of multipliers of another, or None where they are more than a number, or where a change
// has no room for a multiplier.
pub(crate) fn changes_between(
    alloc: Global,
    had: &[(u32, i64)],
    now: &[(u32, i64)],
    most: usize,
) -> Result<Option<Items<Change>>, AllocError>
    ensures { IfOk result (λ found. IfSome found (λ changes. replay had.now changes ≡ now.now)) }
{
    let mut changes: Items<Change> = Items::new(alloc);
    let mut keep: u16 = 0;
    let mut old = had;
    let mut new = now;
    while changes.len() <= most {
        if keep < u16::MAX {
            if let Some((before, rest)) = behind_same(old, new) {
                keep += 1;
                old = before;
                new = rest;
                continue;
            }
        }
        let Some((change, rest)) = next_change(keep, old, new) else {
            break;
        };
        changes.push(change)?;
        keep = 0;
        old = passed(&change, old);
        new = rest;
    }
    if is_end(old, new) {
        return Ok(Some(changes));
    }
    Ok(None)
}

// Whether nothing is left of two lists.
fn is_end(old: &[(u32, i64)], new: &[(u32, i64)]) -> bool
    ensures { IsTrue result → (old.now ≡ []) × (new.now ≡ []) }
{
    match (old, new) {
        ([], []) => true,
        _ => false,
    }
}

// What stands behind the first multipliers of two lists, where these are the same.
fn behind_same<'a>(
    old: &'a [(u32, i64)],
    new: &'a [(u32, i64)],
) -> Option<(&'a [(u32, i64)], &'a [(u32, i64)])>
    ensures { IfSome result (λ k. Starts old.now new.now k.0.now k.1.now) }
{
    match (old, new) {
        ([had, before @ ..], [now, rest @ ..]) => {
            if had.0 == now.0 && had.1 == now.1 {
                return Some((before, rest));
            }
            None
        }
        _ => None,
    }
}

// The change by which the multipliers that are left of one list differ first from those of another, with what is left of the
// other behind it. None where nothing is left, or the other list's multiplier there is 0 or has no room.
fn next_change<'a>(
    keep: u16,
    old: &[(u32, i64)],
    new: &'a [(u32, i64)],
) -> Option<(Change, &'a [(u32, i64)])>
    ensures keep { IfSome result (λ k. k.0.keep ≡ keep) }
    ensures placed { IfSome result (λ k. new.now ≡ placed k.0 ++ k.1.now) }
    ensures fewer { IfSome result (λ k. length (passed k.0 old.now) + length k.1.now <
        length old.now + length new.now) }
{
    match new {
        [] => match old {
            [] => None,
            [had, ..] => Some((left_out(keep, had.0), new)),
        },
        [now, rest @ ..] => {
            if let [had, ..] = old {
                if had.0 < now.0 {
                    return Some((left_out(keep, had.0), new));
                }
            }
            if now.1 == 0 {
                return None;
            }
            let (high, low) = halves(now.1)?;
            let change = Change {
                row: now.0,
                low,
                high,
                keep,
            };
            Some((change, rest))
        }
    }
}

// A change that leaves a row's multiplier out.
fn left_out(keep: u16, row: u32) -> Change
    ensures { result ≡ record { row = row; low = 0; high = pos 0; keep = keep } }
{
    Change {
        row,
        low: 0,
        high: 0,
        keep,
    }
}

// The halves of a multiplier, or None where the high one takes more than 16 bits.
fn halves(mult: i64) -> Option<(i16, u32)>
    ensures { IfSome result (λ k. from_halves k.0 k.1 ≡ mult) }
{
    let Ok(high) = i16::try_from(mult.div_euclid(HALF)) else {
        return None;
    };
    let Ok(low) = u32::try_from(mult.rem_euclid(HALF)) else {
        return None;
    };
    if from_halves(high, low) == mult {
        return Some((high, low));
    }
    None
}
