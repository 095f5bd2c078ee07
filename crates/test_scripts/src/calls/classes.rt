// How many classes the blocks of a program have in zones.
ghost use Rattle.bp_theory.specs.Trees.{IsZone};

use crate::calls::told::Told;
use crate::calls::zones::narrowed;
use block_class::Classes;
use block_program::{Blocked, Zone};
use std::alloc::{AllocError, Global};

/// The classes at the root, where the first block's first variable ends at 1, and where that of the second does too.
pub fn tell_all(alloc: Global, b: &Blocked, told: &mut Told) -> Result<(), AllocError> {
    let root = Zone::root(alloc, b)?;
    let one = narrowed(alloc, b, &root, 0, 1)?;
    let both = narrowed(alloc, b, &one, 2, 1)?;
    tell_count(alloc, b, &root, "at the root", told)?;
    tell_count(alloc, b, &one, "with a1 up to 1", told)?;
    tell_count(alloc, b, &both, "with a1 and a2 up to 1", told)
}

// How many classes there are in a zone.
fn tell_count(
    alloc: Global,
    b: &Blocked,
    zone: &Zone,
    place: &str,
    told: &mut Told,
) -> Result<(), AllocError>
    requires { IsZone b.now.named.program.spans zone.now }
{
    let count = Classes::of(alloc, b, zone)?.len();
    told.text("classes of two.lp ");
    told.text(place);
    told.number(": ", i128::from(count));
    told.line("");
    Ok(())
}
