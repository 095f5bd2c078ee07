// Bounds of proofs in zones, by classes and block by block.
ghost use Rattle.std.specs.Prelude.{◌≡◌, IfOk};
ghost use Rattle.bp_theory.specs.Bound.{Fits};
ghost use Rattle.bp_theory.specs.Trees.{IsZone};
ghost use Rattle.block_pricers.specs.Forms.{forms_in};
ghost use Rattle.block_pricers.specs.Works.{forms_of};

use crate::calls::told::Told;
use crate::calls::zones::narrowed;
use block_class::Classes;
use block_program::{Blocked, Zone, fits};
use bp_theory::{Items, Picked, Proof};
use lagr_bound::{Bounded, Work, bound, sum_bound};
use pricing_problem::Cap;
use std::alloc::{AllocError, Global};

// The row over both blocks, or the link row behind two rows.
const ROW: u32 = 2;

// Which blocks a proof picks.
#[derive(Clone, Copy)]
enum Pick {
    Every,
    Nothing,
    Second,
}

// A proof of a multiplier of the row and of picked blocks, with the words for it and for where it is tried.
#[derive(Clone, Copy)]
struct Case {
    // The multiplier of the row `ROW`, at scale 1.
    mult: i64,
    // The blocks that are priced over their points.
    pick: Pick,
    // What stands in the answer.
    name: &'static str,
}

const AT_ROOT: &[Case] = &[
    Case {
        mult: -3,
        pick: Pick::Every,
        name: "-3, all picked",
    },
    Case {
        mult: -3,
        pick: Pick::Nothing,
        name: "-3, none picked",
    },
    Case {
        mult: -3,
        pick: Pick::Second,
        name: "-3, block 1 picked",
    },
    Case {
        mult: -5,
        pick: Pick::Every,
        name: "-5, all picked",
    },
    Case {
        mult: -5,
        pick: Pick::Nothing,
        name: "-5, none picked",
    },
];

const NARROWED: &[Case] = &[Case {
    mult: -3,
    pick: Pick::Every,
    name: "-3, all picked, a1 up to 1",
}];

const NARROWED_TWICE: &[Case] = &[Case {
    mult: -3,
    pick: Pick::Every,
    name: "-3, all picked, a1 and a2 up to 1",
}];

const LINKED: &[Case] = &[
    Case {
        mult: -1,
        pick: Pick::Every,
        name: "a link's -1, all picked",
    },
    Case {
        mult: 1,
        pick: Pick::Every,
        name: "a link's 1, all picked",
    },
    Case {
        mult: -1,
        pick: Pick::Nothing,
        name: "a link's -1, none picked",
    },
];

const LINKED_WITHOUT: &[Case] = &[Case {
    mult: 1,
    pick: Pick::Every,
    name: "a link's 1, all picked, x up to 0",
}];

/// Bounds of proofs with a multiplier of the row over both blocks, at the root and in two smaller zones.
pub fn tell_all(alloc: Global, b: &Blocked, told: &mut Told) -> Result<(), AllocError> {
    let root = Zone::root(alloc, b)?;
    tell_points(alloc, b, &root, told)?;
    tell_cases(alloc, b, &root, AT_ROOT, told)?;
    tell_narrowed(alloc, b, &root, told)
}

/// Bounds of proofs with a multiplier of the link row of two blocks, at the root and where the variable that links them is 0.
pub fn tell_linked(alloc: Global, b: &Blocked, told: &mut Told) -> Result<(), AllocError> {
    let root = Zone::root(alloc, b)?;
    tell_cases(alloc, b, &root, LINKED, told)?;
    let without = narrowed(alloc, b, &root, 0, 0)?;
    tell_cases(alloc, b, &without, LINKED_WITHOUT, told)
}

// Bounds where the first block's first variable ends at 1, and where that of the second does too.
fn tell_narrowed(alloc: Global, b: &Blocked, root: &Zone, told: &mut Told) -> Result<(), AllocError>
    requires { IsZone b.now.named.program.spans root.now }
{
    let one = narrowed(alloc, b, root, 0, 1)?;
    tell_cases(alloc, b, &one, NARROWED, told)?;
    let both = narrowed(alloc, b, &one, 2, 1)?;
    tell_cases(alloc, b, &both, NARROWED_TWICE, told)
}

// The bounds of cases in a zone.
fn tell_cases(
    alloc: Global,
    b: &Blocked,
    zone: &Zone,
    cases: &[Case],
    told: &mut Told,
) -> Result<(), AllocError>
    requires { IsZone b.now.named.program.spans zone.now }
{
    for case in cases {
        tell_case(alloc, b, zone, case, told)?;
    }
    Ok(())
}

// The bounds of the proof of a multiplier and picked blocks in a zone.
fn tell_case(
    alloc: Global,
    b: &Blocked,
    zone: &Zone,
    case: &Case,
    told: &mut Told,
) -> Result<(), AllocError>
    requires { IsZone b.now.named.program.spans zone.now }
{
    let proof = proof_of(alloc, case.mult, case.pick)?;
    if !fits(b, &proof) {
        told.line("bound: not tried, the proof doesn't fit");
        return Ok(());
    }
    let shared = shared_bound(alloc, b, zone, &proof)?;
    let single = single_bound(alloc, b, zone, &proof)?;
    told.text("bound with ");
    told.text(case.name);
    tell_answer(": ", shared, told);
    tell_answer(" by classes, ", single, told);
    told.line(" block by block");
    Ok(())
}

// The proof of scale 1 with this multiplier of the row of both blocks.
fn proof_of(alloc: Global, mult: i64, pick: Pick) -> Result<Proof, AllocError> {
    let mut mults = Items::new(alloc);
    mults.push((ROW, mult))?;
    let picked = picked_of(alloc, pick)?;
    Ok(Proof {
        scale: 1,
        mults,
        picked,
    })
}

// The picked blocks.
fn picked_of(alloc: Global, pick: Pick) -> Result<Picked, AllocError> {
    match pick {
        Pick::Every => Ok(Picked::Every),
        Pick::Nothing => Ok(Picked::These(Items::new(alloc))),
        Pick::Second => second_alone(alloc),
    }
}

// The block of number 1 alone.
fn second_alone(alloc: Global) -> Result<Picked, AllocError> {
    let mut numbers = Items::new(alloc);
    numbers.push(1)?;
    Ok(Picked::These(numbers))
}

// The bound of a proof in a zone by classes.
fn shared_bound(
    alloc: Global,
    b: &Blocked,
    zone: &Zone,
    proof: &Proof,
) -> Result<Bounded, AllocError>
    requires zone { IsZone b.now.named.program.spans zone.now }
    requires fits { Fits b.now.blocking proof.now }
{
    let classes = Classes::of(alloc, b, zone)?;
    let mut work = Work::make(alloc, b)?;
    Ok(bound(&mut work, b, &classes, zone, proof, Cap::Never))
}

// The bound of a proof in a zone block by block.
fn single_bound(
    alloc: Global,
    b: &Blocked,
    zone: &Zone,
    proof: &Proof,
) -> Result<Bounded, AllocError>
    requires zone { IsZone b.now.named.program.spans zone.now }
    requires fits { Fits b.now.blocking proof.now }
{
    let mut work = Work::make(alloc, b)?;
    Ok(sum_bound(&mut work, b, zone, proof, Cap::Never))
}

// One answer, behind some words.
fn tell_answer(words: &str, answer: Bounded, told: &mut Told) {
    told.text(words);
    match answer {
        Bounded::Whole(whole) => told.number("", whole),
        Bounded::Endless => told.text("endless"),
        Bounded::Cut(block) => told.number("cut at block ", i128::from(block)),
    }
}

// The points that a bound by classes tells.
fn tell_points(alloc: Global, b: &Blocked, zone: &Zone, told: &mut Told) -> Result<(), AllocError>
    requires { IsZone b.now.named.program.spans zone.now }
{
    let proof = proof_of(alloc, -3, Pick::Every)?;
    if !fits(b, &proof) {
        told.line("points: not tried, the proof doesn't fit");
        return Ok(());
    }
    let work = worked(alloc, b, zone, &proof)?;
    for block in 0..b.blocks() {
        tell_point(b, &work, block, told);
    }
    Ok(())
}

// What a bound by classes was found with.
fn worked(alloc: Global, b: &Blocked, zone: &Zone, proof: &Proof) -> Result<Work, AllocError>
    requires zone { IsZone b.now.named.program.spans zone.now }
    requires fits { Fits b.now.blocking proof.now }
    ensures { IfOk result (λ work. forms_of work ≡ forms_in b.now) }
{
    let classes = Classes::of(alloc, b, zone)?;
    let mut work = Work::make(alloc, b)?;
    let _ = bound(&mut work, b, &classes, zone, proof, Cap::Never);
    Ok(work)
}

// The point of a block that the last bound told.
fn tell_point(b: &Blocked, work: &Work, block: u32, told: &mut Told)
    requires { forms_of work.now ≡ forms_in b.now }
{
    if block >= b.blocks() {
        told.line("point: not tried, the block isn't there");
        return;
    }
    told.number("point of block ", i128::from(block));
    told.text(" that a bound by classes tells:");
    match work.point(block) {
        None => told.text(" none"),
        Some(point) => told.point(point),
    }
    told.line("");
}
