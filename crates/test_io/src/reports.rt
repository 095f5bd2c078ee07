// Reports, and the text that each is to be.
mod programs;

use bp_report::{Refusal, cert_text, dec_text, lp_text, made_text, refusal_text, words_text};
use bp_theory::{CheckKind, Claim};
use cert_check::Judged;
use cert_report::check_text;
use cert_text::CertKind;
use dec_read::{DecFault, DecKind};
use lp_token::LpKind;
use programs::{InBlocks, OfModel, of_blocks, of_model};
use std::alloc::{AllocError, Global};
use std::process::Abort;
use std::test::Fail;

/// What a report tells of.
#[derive(Clone, Copy)]
enum Told {
    /// Words that are no command line.
    Words,
    /// The same as one of all that may be refused.
    RefusedWords,
    /// Want of memory, which has no report.
    NoMemory,
    /// What the text of a model is refused for.
    Lp(u32, LpKind),
    /// What the text of a decomposition is refused for.
    Dec(u32, DecKind),
    /// What the text of a certificate is refused for.
    Cert(u64, CertKind),
    /// What a certificate is judged to be.
    Judged(Judged),
    /// How many variables and rows a made model has.
    Made(u32, u32),
    /// A model of two variables.
    Model(OfModel),
    /// That model in the blocks that the text of a decomposition gives.
    Blocks(&'static str, InBlocks),
}

/// What a report tells of, and its text.
type Report = (Told, &'static str);

const REFUSED: &[Report] = &[
    (Told::Words, "refused words\n"),
    (Told::RefusedWords, "refused words\n"),
    (Told::NoMemory, ""),
    (Told::Lp(0, LpKind::Limit), "refused lp 0 limit\n"),
    (
        Told::Lp(u32::MAX, LpKind::RowTwice),
        "refused lp 4294967295 row-twice\n",
    ),
    (
        Told::Dec(5, DecKind::Unassigned),
        "refused dec 5 unassigned\n",
    ),
    (
        Told::Cert(4, CertKind::TooLarge),
        "refused cert 4 too-large\n",
    ),
    (Told::Model(OfModel::Links), "refused blocks links\n"),
    (
        Told::Model(OfModel::VarPlace(1)),
        "refused blocks var-place x11\n",
    ),
    (
        Told::Model(OfModel::RefusedVarPlace(1)),
        "refused blocks var-place x11\n",
    ),
];

const JUDGED: &[Report] = &[
    (
        Told::Judged(Judged::Accepted(Claim::Optimal(-8))),
        "accepted optimal -8\n",
    ),
    (
        Told::Judged(Judged::Accepted(Claim::Infeasible)),
        "accepted infeasible\n",
    ),
    (
        Told::Judged(Judged::Accepted(Claim::Bound(15, None))),
        "accepted bound 15\n",
    ),
    (
        Told::Judged(Judged::Accepted(Claim::Bound(15, Some(0)))),
        "accepted bound 15 value 0\n",
    ),
    (
        Told::Judged(Judged::Rejected {
            line: 4,
            kind: CheckKind::Weak,
        }),
        "rejected 4 weak\n",
    ),
    (
        Told::Judged(Judged::Rejected {
            line: u64::MAX,
            kind: CheckKind::PointRow,
        }),
        "rejected 18446744073709551615 point-row\n",
    ),
    (Told::Judged(Judged::Unknown { line: 4 }), "unknown 4\n"),
    (
        Told::Judged(Judged::Unknown { line: u64::MAX }),
        "unknown 18446744073709551615\n",
    ),
];

const SEARCHED: &[Report] = &[
    (Told::Model(OfModel::Best), "optimal 44\nx 9\nx11 -9\n"),
    (Told::Model(OfModel::NoPoint), "infeasible\n"),
    (
        Told::Model(OfModel::BestSoFar(7, -50)),
        "budget 7\nbound 50\nvalue 44\nx 9\nx11 -9\n",
    ),
    (
        Told::Model(OfModel::NoneSoFar(0, -50)),
        "budget 0\nbound 50\n",
    ),
];

/// Row c1 in a block, and c2 a master row.
const ONE_BLOCK: &str = "NBLOCKS 1\nBLOCK 1\nc1\nMASTERCONSS\nc2\n";

/// Row c1 in a block and c2 in another: both variables link the two.
const TWO_BLOCKS: &str = "NBLOCKS 2\nBLOCK 1\nc1\nBLOCK 2\nc2\n";

const MADE: &[Report] = &[
    (Told::Made(4, 5), "made variables 4 rows 5\n"),
    (
        Told::Blocks(ONE_BLOCK, InBlocks::Demo(7, 1)),
        "demo 7 1\ninfeasible\naccepted infeasible\n",
    ),
];

const SHOWN: &[Report] = &[
    (
        Told::Blocks(ONE_BLOCK, InBlocks::Proposed),
        "proposed blocks 1 classes 1 master 1\n",
    ),
    (
        Told::Blocks(ONE_BLOCK, InBlocks::Shown),
        "\
variables 2
rows 2
master 1
blocks 1
classes 1
class 1 first 1 size 1 variables 2 rows 1
block 1 rows 1 c1 variables 2 x x11
",
    ),
    (
        Told::Blocks(TWO_BLOCKS, InBlocks::Proposed),
        "proposed blocks 2 classes 2 master 0\n",
    ),
    (
        Told::Blocks(TWO_BLOCKS, InBlocks::Shown),
        "\
variables 2
rows 2
master 0
blocks 2
links 2
classes 2
class 1 first 1 size 1 variables 2 rows 1
class 2 first 2 size 1 variables 2 rows 1
block 1 rows 1 c1 variables 2 x x11
block 2 rows 1 c2 variables 2 x x11
",
    ),
];

// The report on what it tells of.
fn report(alloc: Global, told: Told) -> Result<Vec<u8>, AllocError> {
    match told {
        Told::Words => words_text(alloc),
        Told::RefusedWords => refusal_text(alloc, None, &Refusal::Words),
        Told::NoMemory => refusal_text(alloc, None, &Refusal::Dec(DecFault::NoMemory)),
        Told::Lp(line, kind) => lp_text(alloc, line, kind),
        Told::Dec(line, kind) => dec_text(alloc, line, kind),
        Told::Cert(line, kind) => cert_text(alloc, line, kind),
        Told::Judged(judged) => check_text(alloc, &judged),
        Told::Made(vars, rows) => made_text(alloc, vars, rows),
        Told::Model(told) => of_model(alloc, told),
        Told::Blocks(dec, told) => of_blocks(alloc, dec, told),
    }
}

// Fails where a report is another text than its own.
fn check_one(rt: &impl Abort, report: Result<Vec<u8>, AllocError>, text: &str) -> Result<(), Fail> {
    match report {
        Ok(found) => {
            assert_eq!(rt; found.as_slice(), text.as_bytes());
            Ok(())
        }
        Err(_) => Err(Fail::new("want of memory")),
    }
}

// Fails where one of these reports is another text than its own.
fn check(rt: &impl Abort, alloc: Global, reports: &[Report]) -> Result<(), Fail> {
    for (told, text) in reports {
        check_one(rt, report(alloc, *told), *text)?;
    }
    Ok(())
}

#[test]
fn refusals_are_told(rt: HostRuntime) -> Result<(), Fail> {
    check(&rt, rt.alloc(), REFUSED)
}

#[test]
fn judged_certificates_are_told(rt: HostRuntime) -> Result<(), Fail> {
    check(&rt, rt.alloc(), JUDGED)
}

#[test]
fn searches_are_told_by_names(rt: HostRuntime) -> Result<(), Fail> {
    check(&rt, rt.alloc(), SEARCHED)
}

#[test]
fn made_programs_are_told(rt: HostRuntime) -> Result<(), Fail> {
    check(&rt, rt.alloc(), MADE)
}

#[test]
fn sizes_and_blocks_are_told(rt: HostRuntime) -> Result<(), Fail> {
    check(&rt, rt.alloc(), SHOWN)
}
