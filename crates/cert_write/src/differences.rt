// The rows whose multipliers differ between two leaves.
ghost use Rattle.std.specs.Prelude.{◌≡◌, ◌+◌, ◌<◌, ◌++◌, length, IfOk};
ghost use Rattle.cert_write.specs.Differences.{difference};

use bp_theory::Items;
use std::alloc::{AllocError, Global};

// One step over both lists, of which one has a pair left: what is left of them.
fn step<'a>(
    changes: &mut Items<(u32, i64)>,
    had: &'a [(u32, i64)],
    now: &'a [(u32, i64)],
) -> Result<(&'a [(u32, i64)], &'a [(u32, i64)]), AllocError>
    requires { 0 < length had.now + length now.now }
    ensures made { IfOk result (λ rest. changes.new ++ difference rest.0.now rest.1.now ≡
        changes.old ++ difference had.now now.now) }
    ensures fewer { IfOk result (λ rest. length rest.0.now + length rest.1.now < length had.now +
        length now.now) }
{
    match had {
        [] => match now {
            [] => Ok((had, now)),
            [new, rest @ ..] => {
                changes.push(*new)?;
                Ok((had, rest))
            }
        },
        [old, before @ ..] => match now {
            [] => {
                changes.push((old.0, 0))?;
                Ok((before, now))
            }
            [new, rest @ ..] => {
                if new.0 < old.0 {
                    changes.push(*new)?;
                    return Ok((had, rest));
                }
                if new.0 != old.0 {
                    changes.push((old.0, 0))?;
                    return Ok((before, now));
                }
                if new.1 == old.1 {
                    return Ok((before, rest));
                }
                changes.push(*new)?;
                Ok((before, rest))
            }
        },
    }
}

/// The rows whose multipliers differ between two lists in the order of rows, with those that they have in the second.
pub fn differences(
    alloc: Global,
    had: &[(u32, i64)],
    now: &[(u32, i64)],
) -> Result<Items<(u32, i64)>, AllocError>
    ensures { IfOk result (λ changes. changes ≡ difference had.now now.now) }
{
    let mut changes = Items::new(alloc);
    let mut old = had;
    let mut new = now;
    while old.len().saturating_add(new.len()) > 0 {
        let rest = step(&mut changes, old, new)?;
        old = rest.0;
        new = rest.1;
    }
    Ok(changes)
}
