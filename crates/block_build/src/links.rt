// The numbers of link rows.
ghost use Rattle.std.specs.Prelude.{◌≡◌, ◌+◌, ◌*◌, ◌<◌, ◌≤◌, length, sum_by, unsigned_abs, All, IfOk, MatchBool};
ghost use Rattle.bp_theory.specs.Decomposition.{HasLargeLinks};
ghost use Rattle.bp_theory.specs.Program.{reach};
ghost use Rattle.bp_theory.specs.Limits.{most_blocks, most_lines, most_variables};
ghost use Rattle.bp_theory.specs.declared.Limits.TheVariants.{Large};
ghost use Rattle.block_build.specs.Homes.{further, AreHomes, AreLinks, HasWideCopies, IsWide};

use bp_model::{Dec, Model};
use bp_theory::{Items, Span};
use std::alloc::{AllocError, Global};

/// What the difference of two copies stays below.
const NUMBER_LIMIT: u64 = 1 << 62;

/// The number of each variable's first link row, behind so many rows, and the number behind the last link row: a
/// variable has one for each of its homes but the first.
pub fn first_links(
    alloc: Global,
    rows: u32,
    homes: &[Items<u32>],
) -> Result<(Vec<u32>, u32), AllocError>
    requires few { All (λ own. length own ≤ most_blocks Large) homes.now }
    requires end { rows + sum_by further homes.now ≤ most_lines Large }
    ensures links { IfOk result (λ found. AreLinks rows homes.now found.0.items) }
    ensures end { IfOk result (λ found. found.1 ≡ rows + sum_by further homes.now) }
{
    let mut links = Vec::with_capacity(alloc, homes.len())?;
    let mut next = rows;
    for own in homes {
        links.push(next)?;
        next += further(own);
    }
    Ok((links, next))
}

// How many further copies a variable with these homes has.
fn further(homes: &Items<u32>) -> u32
    requires { length homes.now ≤ most_blocks Large }
    ensures { result ≡ further homes.now }
{
    homes.len().saturating_sub(1) as u32
}

/// Whether rows and link rows are too many, or the copies of a variable may differ by more than 62 bits hold.
pub fn are_large(model: &Model, dec: &Dec, homes: &[Items<u32>]) -> bool
    requires { AreHomes model.now.program dec.now homes.now }
    ensures { MatchBool result
        (HasLargeLinks model.now.program dec.now)
        (HasLargeLinks model.now.program dec.now → ⊥) }
{
    // For the proof alone: how many blocks there are at most.
    let _blocks = dec.blocks();
    if u64::from(model.rows()) + further_copies(homes) > u64::from(model.limits().lines()) {
        return true;
    }
    has_wide_copies(homes, model.spans())
}

// How many further copies all variables have.
fn further_copies(homes: &[Items<u32>]) -> u64
    requires vars { length homes.now ≤ most_variables Large }
    requires few { All (λ own. length own ≤ most_blocks Large) homes.now }
    ensures count { result ≡ sum_by further homes.now }
    ensures few { result ≤ most_variables Large * most_blocks Large }
{
    let mut count = 0;
    for own in homes {
        count += u64::from(further(own));
    }
    count
}

// Whether the copies of some variable may differ by more than 62 bits hold.
fn has_wide_copies(homes: &[Items<u32>], spans: &[Span]) -> bool
    requires { length homes.now ≡ length spans.now }
    ensures { MatchBool result (HasWideCopies homes.now spans.now)
        (HasWideCopies homes.now spans.now → ⊥) }
{
    for v in 0..homes.len() {
        if homes[v].len() > 1 && is_wide(&spans[v]) {
            return true;
        }
    }
    false
}

// Whether two numbers of a span may differ by more than 62 bits hold.
fn is_wide(span: &Span) -> bool
    ensures { MatchBool result (IsWide span.now) (IsWide span.now → ⊥) }
{
    reach(span) >= NUMBER_LIMIT / 2
}

// The greatest magnitude of a span's numbers, at least 1.
fn reach(span: &Span) -> u64
    ensures { result ≡ reach span.now }
{
    span.lo.unsigned_abs().max(span.hi.unsigned_abs()).max(1)
}
