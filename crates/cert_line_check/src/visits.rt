// The visits of leaves, and those that are left.
ghost use Rattle.std.specs.Prelude.{◌≡◌, ℕ, ◌+◌, ◌<◌, length, IfOk};
ghost use Rattle.bp_theory.specs.Bound.{Fits};
ghost use Rattle.bp_theory.specs.Trees.{IsZone};
ghost use Rattle.block_class.specs.Classes.{AreSameClasses};
ghost use Rattle.cert_line_check.specs.Counting.{cut_off, AreCutPrefixes, IsCutBlock, AreCutVisits, AreSeen, IsDifference};
ghost use Rattle.cert_line_check.specs.Judging.{IsSpentOn};

use crate::price::picks_nothing;
use block_class::Classes;
use block_program::{Blocked, Zone};
use bp_theory::{Proof, Span};
use knap_price::KnapPricer;
use lagr_bound::{fill_spans, is_picked};
use search_price::prefixes;
use std::alloc::{AllocError, Global};

/// Where a number of visits is cut off.
const MOST: u128 = 1 << 127;

/// What is left where the visits of a leaf are spent, or that they exceed what was left.
#[derive(Clone, Copy)]
pub enum Spent {
    Within(Option<u64>),
    Exceeding,
}

/// Spends the visits of a leaf's proof in its zone, where visits are counted.
pub fn spend(
    alloc: Global,
    b: &Blocked,
    zone: &Zone,
    proof: &Proof,
    left: Option<u64>,
) -> Result<Spent, AllocError>
    requires zone { IsZone b.now.named.program.spans zone.now }
    requires fits { Fits b.now.blocking proof.now }
    ensures { IfOk result (IsSpentOn b.now.named.program.spans b.now.blocking zone.now
        proof.now.picked left) }
{
    match left {
        None => Ok(Spent::Within(None)),
        Some(left) => {
            let visits = zone_visits(alloc, b, zone, proof)?;
            Ok(less(left, visits))
        }
    }
}

// What visits leave of those that are left.
fn less(left: u64, visits: u128) -> Spent
    ensures { (n : ℕ) → visits ≡ cut_off n → IsDifference left n result }
{
    if visits > u128::from(left) {
        Spent::Exceeding
    } else {
        Spent::Within(Some(left - visits as u64))
    }
}

// The visits of a proof in a zone, cut off: over the classes of the zone that have a picked block the prefixes of the lowest
// one, or none where a table takes it.
fn zone_visits(alloc: Global, b: &Blocked, zone: &Zone, proof: &Proof) -> Result<u128, AllocError>
    requires zone { IsZone b.now.named.program.spans zone.now }
    requires fits { Fits b.now.blocking proof.now }
    ensures { IfOk result (AreCutVisits b.now.named.program.spans b.now.blocking zone.now
        proof.now.picked) }
{
    if picks_nothing(proof) {
        return Ok(0);
    }
    let classes = Classes::of(alloc, b, zone)?;
    class_visits(alloc, b, &classes, zone, proof)
}

// The same with the classes of the zone.
fn class_visits(
    alloc: Global,
    b: &Blocked,
    classes: &Classes,
    zone: &Zone,
    proof: &Proof,
) -> Result<u128, AllocError>
    requires zone { IsZone b.now.named.program.spans zone.now }
    requires classes { AreSameClasses zone.now b.now.blocking classes.now }
    requires fits { Fits b.now.blocking proof.now }
    ensures { IfOk result (AreCutVisits b.now.named.program.spans b.now.blocking zone.now
        proof.now.picked) }
{
    let blocks = b.blocks();
    let mut seen = Vec::from_elem(alloc, false, classes.len() as usize)?;
    let mut sum = 0;
    for number in 0..blocks {
        let more = block_visits(alloc, b, classes, &mut seen, number, zone, proof)?;
        sum = cut_sum(sum, more);
    }
    Ok(sum)
}

// A sum of visits, cut off.
fn cut_sum(a: u128, b: u128) -> u128
    ensures { result ≡ cut_off (a + b) }
{
    a.saturating_add(b).min(MOST)
}

// The visits of a block, where a picked block of its class was seen or not. It is seen from then on.
fn block_visits(
    alloc: Global,
    b: &Blocked,
    classes: &Classes,
    seen: &mut Vec<bool>,
    number: u32,
    zone: &Zone,
    proof: &Proof,
) -> Result<u128, AllocError>
    requires there { number < length b.now.blocking.blocks }
    requires zone { IsZone b.now.named.program.spans zone.now }
    requires classes { AreSameClasses zone.now b.now.blocking classes.now }
    requires fits { Fits b.now.blocking proof.now }
    requires seen { AreSeen classes.now.classes classes.now.firsts proof.now.picked number
        seen.old.items }
    ensures visits { IfOk result (IsCutBlock b.now.named.program.spans b.now.blocking zone.now
        proof.now.picked number) }
    ensures seen { AreSeen classes.now.classes classes.now.firsts proof.now.picked (number + 1)
        seen.new.items }
{
    if !is_picked(&proof.picked, b.blocks() as usize, number) {
        return Ok(0);
    }
    let class = classes.class_of(number) as usize;
    if seen[class] {
        return Ok(0);
    }
    seen[class] = true;
    searched(alloc, b, number, zone)
}

// How many prefixes a block has in a zone, cut off, or none where a table takes it.
fn searched(alloc: Global, b: &Blocked, number: u32, zone: &Zone) -> Result<u128, AllocError>
    requires there { number < length b.now.blocking.blocks }
    requires zone { IsZone b.now.named.program.spans zone.now }
    ensures { IfOk result (AreCutPrefixes b.now.named.program.spans b.now.blocking zone.now
        number) }
{
    // For the proof alone: `b` is formed.
    let _ = b.blocks();
    let block = b.block(number);
    if KnapPricer::takes(block) {
        return Ok(0);
    }
    let mut spans = Vec::from_elem(alloc, Span { lo: 0, hi: 0 }, block.vars().len())?;
    fill_spans(&mut spans, block, zone);
    Ok(prefixes(block, spans.as_slice()))
}
