// Restricted masters of few columns, and what their answers tell.
ghost use Rattle.std.specs.Prelude.{◌≡◌, ℤ, pos, negsuc, List, [], ◌∷◌, IfOk};
ghost use Rattle.bp_theory.specs.declared.Sense.TheVariants.{Le};
ghost use Rattle.bp_theory.specs.declared.MasterRow.{MasterRow as ARow};
ghost use Rattle.search_laws.specs.declared.Column.{Column as AColumn};
ghost use Rattle.master_gap.specs.Restricted.{IsModest};

use bp_theory::{Items, MasterRow, Sense};
use master_lp::{Master, MasterAnswer, solve_master};
use search_laws::Column;
use std::alloc::{AllocError, Global};
use std::fmt::Write;
use std::process::Abort;
use std::test::Fail;

// A column that does nothing.
fn idle(alloc: Global) -> Column
    ensures { result ≡ record { class = 0; cost = pos 0; acts = [] } }
{
    Column {
        class: 0,
        cost: 0,
        acts: Items::new(alloc),
    }
}

// A column that costs -10 and takes 2 of the row.
fn busy(alloc: Global) -> Result<Column, AllocError>
    ensures { IfOk result (λ c. c ≡ record { class = 0; cost = negsuc 9; acts = (0, pos 2) ∷ [] }) }
{
    let acts = vec![in alloc; (0, 2)]?;
    Ok(Column {
        class: 0,
        cost: -10,
        acts: Items::from_vec(acts),
    })
}

// A row that allows 3.
fn at_most_3() -> MasterRow
    ensures { result ≡ record { sense = Le; low = pos 3; rhs = pos 3 } }
{
    MasterRow {
        sense: Sense::Le,
        low: 3,
        rhs: 3,
    }
}

// A master of two blocks with a column that does nothing.
fn begun(alloc: Global) -> Result<Master, AllocError>
    ensures { IfOk result (λ m. m ≡ record {
      cols = record { class = 0; cost = pos 0; acts = [] } ∷
          [];
      rows = record { sense = Le; low = pos 3; rhs = pos 3 } ∷ [];
      counts = 2 ∷ [];
    }) }
{
    let mut master = Master::make(alloc, &[at_most_3()], &[2])?;
    master.add(alloc, &idle(alloc))?;
    Ok(master)
}

// The same master after a first solution with so many pivots.
fn solved_once(alloc: Global, pivots: u32) -> Result<Master, AllocError>
    ensures { IfOk result (λ m. m ≡ record {
      cols = record { class = 0; cost = pos 0; acts = [] } ∷
          [];
      rows = record { sense = Le; low = pos 3; rhs = pos 3 } ∷ [];
      counts = 2 ∷ [];
    }) }
{
    let mut master = begun(alloc)?;
    let _ = master.solve(alloc, pivots)?;
    Ok(master)
}

// A master of two blocks whose best multiplier is -5: its second column is added after a first solution.
#[tactic(auto, using(crate::proofs::Shared::two_blocks_modest_as))]
fn shared(alloc: Global, pivots: u32) -> Result<Master, AllocError>
    ensures { IfOk result IsModest }
{
    let mut master = solved_once(alloc, pivots)?;
    master.add(alloc, &busy(alloc)?)?;
    Ok(master)
}

// What the same columns, row and count give from the start.
#[tactic(auto, using(crate::proofs::Shared::two_blocks_modest_as))]
fn solved(alloc: Global) -> Result<MasterAnswer, AllocError> {
    let cols = vec![in alloc; idle(alloc), busy(alloc)?]?;
    solve_master(alloc, &cols, &[at_most_3()], &[2], 64)
}

// An answer in short: the weights, the multipliers, the least prices, the gap, and what it is short of.
fn short(alloc: Global, answer: &MasterAnswer) -> Result<String, AllocError> {
    let weights = answer.weights.as_slice();
    let mults = answer.mults.as_slice();
    let convex = answer.convex.as_slice();
    format!(in alloc;
        "{weights:?} {mults:?} {convex:?} {} {}",
        answer.gap, answer.short
    )
}

// What both columns give from the start.
fn at_once(alloc: Global) -> Result<String, AllocError> {
    let answer = solved(alloc)?;
    short(alloc, &answer)
}

// What they give where the second comes behind a first answer.
fn one_by_one(alloc: Global) -> Result<String, AllocError> {
    let mut master = shared(alloc, 64)?;
    let answer = master.solve(alloc, 64)?;
    short(alloc, &answer)
}

// Fails where an answer is not the wanted one.
fn check(rt: &impl Abort, answer: Result<String, AllocError>, want: &str) -> Result<(), Fail> {
    assert_eq!(rt; answer?.as_str(), want);
    Ok(())
}

/// The best answer.
const BEST: &str = "[524288, 1572864] [-5242880] [0] 0 0";

#[test]
fn two_blocks_share_one_row_exactly(rt: HostRuntime) -> Result<(), Fail> {
    check(&rt, at_once(rt.alloc()), BEST)
}

#[test]
fn a_column_added_after_a_first_answer_counts(rt: HostRuntime) -> Result<(), Fail> {
    check(&rt, one_by_one(rt.alloc()), BEST)
}

// Adds a proposal with the multiplier near to a number: the multipliers, the weights, and whether it is short.
fn add_proposal(
    alloc: Global,
    told: &mut String,
    master: &mut Master,
    near: (i64, i64),
) -> Result<(), AllocError> {
    master.stay_near(&[near.0], near.1);
    let held = master.propose(alloc, 64)?;
    let mults = held.mults.as_slice();
    let weights = held.weights.as_slice();
    write!(told, "; {mults:?} {weights:?} {}", held.is_short)
}

// The proposals for numbers with how near the multiplier stays, one behind another.
fn proposed(alloc: Global, nears: &[(i64, i64)]) -> Result<String, AllocError> {
    let mut told = String::new(alloc);
    let mut master = shared(alloc, 0)?;
    for near in nears {
        add_proposal(alloc, &mut told, &mut master, *near)?;
    }
    Ok(told)
}

/// Boxes above and below the best multiplier: at -3.25 the second column is worth taking twice, and at -6 it is not.
const HELD: [(i64, i64); 2] = [(-3_145_728, 262_144), (-7_340_032, 1_048_576)];

#[test]
fn a_box_holds_multipliers(rt: HostRuntime) -> Result<(), Fail> {
    check(
        &rt,
        proposed(rt.alloc(), &HELD),
        "; [-3407872] [0, 2097152] true; [-6291456] [2097152, 0] true",
    )
}

/// Boxes that are wider than costs, none, or wide enough.
const WIDE: [(i64, i64); 3] = [
    (-3_145_728, 1_152_921_504_606_846_976),
    (-3_145_728, -1),
    (-3_145_728, 3_145_728),
];

#[test]
fn a_wide_box_changes_nothing(rt: HostRuntime) -> Result<(), Fail> {
    check(
        &rt,
        proposed(rt.alloc(), &WIDE),
        "; [-5242880] [524288, 1572864] false\
        ; [-5242880] [524288, 1572864] false\
        ; [-5242880] [524288, 1572864] false",
    )
}
