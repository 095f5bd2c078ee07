// Certificates that are fed in pieces, beside certificates that are read whole.
ghost use Rattle.std.specs.Prelude.{◌≡◌, ℕ, ◌+◌, ◌<◌, ◌^◌, List, [], Option, length, IfSome};
ghost use Rattle.bp_theory.specs.Decomposition.{HasPlaces};
ghost use Rattle.bp_model.specs.Dec.{HasListed};
ghost use Rattle.block_program.specs.Blocked.{BlockedProgram};
ghost use Rattle.cert_stream.specs.Checks.{IsMadeFor, ChecksFor};

use block_form::check_blocks;
use block_program::Blocked;
use bp_model::{Dec, Model};
use bp_theory::{CheckKind, Limits};
use cert_check::{Judged, check};
use cert_stream::{Checker, FeedFault};
use cert_text::{CertFault, CertKind, read_cert};
use dec_read::read_dec;
use lp_read::read_lp;
use std::alloc::Global;
use std::test::Fail;

// No text is longer.
const LONGEST: usize = 1000;

const MODEL: &str =
    "Maximize\n obj: 3 x + 2 y\nSubject To\n c1: 2 x + y <= 5\n c2: x + 3 y <= 7\nBounds\n x <= 3\n y <= 3\nGenerals\n x y\nEnd\n";

const BLOCKS: &str = "NBLOCKS 1\nBLOCK 1\n c1\nMASTERCONSS\n c2\n";

// Two blocks that have a copy of the first variable, so that row 3 is a link row.
const LINKED_MODEL: &str =
    "Maximize\n obj: 3 x + 2 y + 2 z\nSubject To\n c1: x + y <= 1\n c2: x + z <= 1\nBinaries\n x y z\nEnd\n";

const LINKED_BLOCKS: &str = "NBLOCKS 2\nBLOCK 1\n c1\nBLOCK 2\n c2\nLINKINGVARS\n x\n";

// Twice a whole number is 5: cuts show that no point is feasible.
const CUT_MODEL: &str =
    "Minimize\n obj: x + y\nSubject To\n c1: 2 x + 2 y = 5\nBounds\n x <= 3\n y <= 3\nGenerals\n x y\nEnd\n";

// A row whose sums leave 62 bits where it is taken 2^20 times.
const LARGE_MODEL: &str =
    "Minimize\n obj: x\nSubject To\n c1: 8796093022208 x >= 0\nBounds\n x <= 1\nGenerals\n x\nEnd\n";

// What an answer comes to.
#[derive(Clone, Copy, PartialEq, Eq, Debug)]
enum Answer {
    Accepted,
    Rejected(u64, u8),
    Unknown(u64),
    Fault(u64, CertKind),
    NoMemory,
}

fn kind_number(kind: CheckKind) -> u8 {
    match kind {
        CheckKind::PointBound => 0,
        CheckKind::PointRow => 1,
        CheckKind::Value => 2,
        CheckKind::Sign => 3,
        CheckKind::Split => 4,
        CheckKind::Weak => 5,
        CheckKind::Open => 6,
        CheckKind::Cut => 7,
    }
}

fn judged(found: &Judged) -> Answer {
    match found {
        Judged::Accepted(_) => Answer::Accepted,
        Judged::Rejected { line, kind } => Answer::Rejected(*line, kind_number(*kind)),
        Judged::Unknown { line } => Answer::Unknown(*line),
    }
}

fn whole(alloc: Global, b: &Blocked, text: &[u8], visits: Option<u64>) -> Answer
    requires { b.now.cuts ≡ [] }
{
    match read_cert(alloc, text, b) {
        Err(CertFault::At { line, kind }) => Answer::Fault(line, kind),
        Err(CertFault::NoMemory) => Answer::NoMemory,
        Ok(cert) => match check(alloc, b, &cert, visits) {
            Err(_) => Answer::NoMemory,
            Ok(found) => judged(&found),
        },
    }
}

fn faulty(fault: &FeedFault) -> Answer {
    match fault {
        FeedFault::At { line, kind } => Answer::Fault(*line, *kind),
        FeedFault::NoMemory => Answer::NoMemory,
    }
}

// What a checker answers at the end of its text.
fn ended(checker: Checker) -> Answer
    requires { (b : BlockedProgram) × (visits : Option ℕ) × (text : List ℕ) × IsMadeFor b checker ×
        ChecksFor b visits checker text }
{
    match checker.finish() {
        Err(fault) => faulty(&fault),
        Ok(found) => judged(&found),
    }
}

// A text that is fed in two parts.
fn in_two(alloc: Global, b: &Blocked, first: &[u8], second: &[u8], visits: Option<u64>) -> Answer
    requires uncut { b.now.cuts ≡ [] }
    requires few { length first.now + length second.now < 2 ^ 63 }
{
    match Checker::make(alloc, b, visits) {
        Err(_) => Answer::NoMemory,
        Ok(made) => {
            let mut checker = made;
            let _ = checker.feed(alloc, b, first);
            let _ = checker.feed(alloc, b, second);
            ended(checker)
        }
    }
}

// A text that is fed byte by byte.
fn by_bytes(alloc: Global, b: &Blocked, text: &[u8], visits: Option<u64>) -> Answer
    requires uncut { b.now.cuts ≡ [] }
    requires few { length text.now < 2 ^ 63 }
{
    match Checker::make(alloc, b, visits) {
        Err(_) => Answer::NoMemory,
        Ok(made) => {
            let mut checker = made;
            for byte in text {
                let _ = checker.feed(alloc, b, &[*byte]);
            }
            ended(checker)
        }
    }
}

// The program in blocks of a model, with this decomposition or the plain one.
fn program(alloc: Global, model: &str, dec: Option<&str>) -> Option<Blocked>
    ensures { IfSome result (λ b. b.cuts ≡ []) }
{
    let Ok(model) = read_lp(alloc, Limits::Usual, model.as_bytes()) else {
        return None;
    };
    let Some(dec) = dec_of(alloc, &model, dec) else {
        return None;
    };
    match check_blocks(alloc, model, dec) {
        Ok(b) => Some(b),
        Err(_) => None,
    }
}

// The decomposition that a text means, or the plain one.
fn dec_of(alloc: Global, model: &Model, text: Option<&str>) -> Option<Dec>
    ensures places { IfSome result (λ dec. HasPlaces model.now.program dec) }
    ensures listed { IfSome result (λ dec. HasListed model.now.program dec) }
{
    match text {
        None => match Dec::plain(alloc, model) {
            Ok(dec) => Some(dec),
            Err(_) => None,
        },
        Some(text) => match read_dec(alloc, text.as_bytes(), model) {
            Ok(dec) => Some(dec),
            Err(_) => None,
        },
    }
}

const TEXTS: [&str; 16] = [
    "bpcert 1\nclaim optimal 8\npoint 2 1\nleaf 5 rows 2 1 -7 2 -1 priced 0\nend\n",
    "bpcert 2\nclaim optimal 8\npoint 2 1\nsplit 2 1\nleaf 5 change 2 1 -7 2 -1 priced 0\nleaf 5 change 0 priced 0\nend\n",
    "bpcert 2\nclaim optimal 8\npoint 2 1\nsplit 2 1\nsplit 1 1\nleaf 5 change 2 1 -7 2 -1 priced 0\nleaf 5 change 0 priced 0\nsplit 1 0\nleaf 5 change 0 priced all\nleaf 5 change 0 priced 0\nend\n",
    "bpcert 2\nclaim optimal 8\npoint 2 1\nsplit 2 1\nsplit 2 1\nleaf 5 change 2 1 -7 2 -1 priced 0\nleaf 5 change 0 priced 0\nleaf 5 change 0 priced 0\nend\n",
    "bpcert 2\nclaim optimal 8\npoint 2 1\nsplit 2 1\nleaf 5 change 2 1 7 2 -1 priced 0\nleaf 05 change 0 priced 0\nend\n",
    "bpcert 2\nclaim optimal 8\npoint 2 1\nsplit 2 1\nleaf 5 change 2 1 7 2 -1 priced 0\nleaf 5 change 0 priced 0\nend\n",
    "bpcert 2\nclaim bound 9 value 8\npoint 2 1\nsplit 2 1\nopen 5 change 2 1 -7 2 -1 priced 0\nleaf 5 change 0 priced 0\nend\n",
    "bpcert 2\nclaim bound 8\nsplit 2 1\nopen 5 change 2 1 -7 2 -1 priced 0\nleaf 5 change 0 priced 0\nend\n",
    "bpcert 2\nclaim optimal 8\npoint 2 1\nsplit 2 1\nopen 5 change 2 1 -7 2 -1 priced 0\nleaf 5 change 0 priced 0\nend\n",
    "bpcert 2\nclaim optimal 9\npoint 2 1\nsplit 2 1\nopen 5 change 2 1 -7 2 -1 priced 0\nleaf 5 change 0 priced 0\nend\n",
    "bpcert 2\nclaim infeasible\nsplit 2 1\nleaf 5 change 2 1 -7 2 -1 priced 0\nleaf 5 change 0 priced 0\nend\n",
    "bpcert 2\nclaim optimal 8\npoint 2 1\nleaf 1 change 0 priced 0\nend",
    "bpcert 2\nclaim optimal 8\npoint 2 9\nleaf 1 change 0 priced 0\nend\n",
    "bpcert 1\nclaim optimal 8\npoint 2 1\nleaf 5 rows 1 2 -1 priced all\nend\n",
    "bpcert 1\nclaim bound 99\nsplit 1 2\nleaf 1 rows 0 priced 1 1\nleaf 1 rows 0 priced 1 1\nend\nx",
    "bpcert 1\nclaim bound 4611686018427387904\nleaf 1 rows 0 priced 1 1\nend\n",
];

const LINKED_TEXTS: [&str; 5] = [
    "bpcert 2\nclaim optimal 4\npoint 0 1 1\nleaf 1 change 1 3 -1 priced all\nend\n",
    "bpcert 2\nclaim optimal 4\npoint 0 1 1\nsplit 1 0\nleaf 1 change 1 3 1 priced all\nleaf 1 change 1 3 0 priced all\nend\n",
    "bpcert 2\nclaim optimal 4\npoint 0 1 1\nleaf 1 change 0 priced all\nend\n",
    "bpcert 1\nclaim optimal 4\npoint 0 1 1\nleaf 1 rows 1 2 -1 priced all\nend\n",
    "bpcert 1\nclaim optimal 4\npoint 0 1 1\nleaf 1 rows 1 4 -1 priced all\nend\n",
];

const CUT_TEXTS: [&str; 10] = [
    "bpcert 3\nclaim infeasible\ncut 2 rows 1 1 1\ncut 2 rows 1 1 -1\nleaf 0 change 2 2 1 3 1 priced 0\nend\n",
    "bpcert 3\nclaim infeasible\ncut 2 rows 1 1 1\ncut 2 rows 1 1 1\nleaf 0 change 2 2 1 3 1 priced 0\nend\n",
    "bpcert 3\nclaim infeasible\ncut 2 rows 1 1 1\ncut 2 rows 1 1 -1\ncut 1 rows 2 2 1 3 1\nleaf 0 change 1 4 1 priced 0\nend\n",
    "bpcert 3\nclaim infeasible\ncut 2 rows 1 1 1\ncut 2 rows 1 1 -1\nsplit 1 1\nleaf 0 change 2 2 1 3 1 priced all\nleaf 0 change 0 priced all\nend\n",
    "bpcert 3\nclaim infeasible\ncut 2 rows 1 1 1\ncut 1 rows 1 2 -1\nleaf 0 change 1 2 1 priced 0\nend\n",
    "bpcert 3\nclaim infeasible\ncut 2 rows 1 1 1\ncut 2 rows 1 1 -1\nleaf 0 change 2 2 -1 3 1 priced 0\nend\n",
    "bpcert 3\nclaim infeasible\ncut 0 rows 1 1 1\nleaf 0 change 0 priced 0\nend\n",
    "bpcert 3\nclaim infeasible\ncut 2 rows 1 2 1\nleaf 0 change 0 priced 0\nend\n",
    "bpcert 3\nclaim infeasible\nleaf 0 change 0 priced 0\nend\n",
    "bpcert 3\nclaim infeasible\ncut 2 rows 1 1 1\ncut 1 rows 1 2 -1\nleaf 0 change 1 4 1 priced 0\nend\n",
];

// What the texts come to.
const CUT_ANSWERS: [Answer; 10] = [
    Answer::Accepted,
    Answer::Rejected(5, 5),
    Answer::Accepted,
    Answer::Accepted,
    Answer::Rejected(4, 3),
    Answer::Rejected(5, 3),
    Answer::Fault(3, CertKind::Number),
    Answer::Fault(3, CertKind::Number),
    Answer::Fault(3, CertKind::Syntax),
    Answer::Fault(5, CertKind::Number),
];

// The first place in a text where pieces are judged otherwise than the whole: the text in two parts, or its beginning byte
// by byte.
fn other_place(alloc: Global, b: &Blocked, text: &[u8], visits: Option<u64>) -> Option<usize>
    requires { b.now.cuts ≡ [] }
{
    if text.len() > LONGEST {
        return Some(text.len());
    }
    let wanted = whole(alloc, b, text, visits);
    for place in 0..text.len() {
        let (first, second) = text.split_at(place);
        if in_two(alloc, b, first, second, visits) != wanted {
            return Some(place);
        }
        if by_bytes(alloc, b, first, visits) != whole(alloc, b, first, visits) {
            return Some(place);
        }
    }
    if by_bytes(alloc, b, text, visits) == wanted {
        None
    } else {
        Some(text.len())
    }
}

// The first text of which pieces are judged otherwise than the whole, and the place.
fn first_other(
    alloc: Global,
    model: &str,
    dec: Option<&str>,
    texts: &[&str],
    visits: Option<u64>,
) -> Option<(usize, usize)> {
    let Some(b) = program(alloc, model, dec) else {
        return Some((0, 0));
    };
    for number in 0..texts.len() {
        if let Some(place) = other_place(alloc, &b, texts[number].as_bytes(), visits) {
            return Some((number, place));
        }
    }
    None
}

#[test]
fn pieces_are_judged_as_the_whole(rt: HostRuntime) -> Result<(), Fail> {
    assert_eq!(rt; first_other(rt.alloc(), MODEL, None, &TEXTS, None), None);
    Ok(())
}

#[test]
fn pieces_are_judged_in_blocks(rt: HostRuntime) -> Result<(), Fail> {
    assert_eq!(rt;
        first_other(rt.alloc(), MODEL, Some(BLOCKS), &TEXTS, None),
        None
    );
    Ok(())
}

#[test]
fn pieces_are_judged_with_link_rows(rt: HostRuntime) -> Result<(), Fail> {
    let alloc = rt.alloc();
    let blocks = Some(LINKED_BLOCKS);
    assert_eq!(rt;
        first_other(alloc, LINKED_MODEL, blocks, &LINKED_TEXTS, None),
        None
    );
    assert_eq!(rt;
        first_other(alloc, LINKED_MODEL, blocks, &LINKED_TEXTS, Some(6)),
        None
    );
    Ok(())
}

#[test]
fn pieces_are_judged_within_visits(rt: HostRuntime) -> Result<(), Fail> {
    assert_eq!(rt;
        first_other(rt.alloc(), MODEL, Some(BLOCKS), &TEXTS, Some(3)),
        None
    );
    assert_eq!(rt;
        first_other(rt.alloc(), MODEL, Some(BLOCKS), &TEXTS, Some(0)),
        None
    );
    Ok(())
}

// What a text comes to that is fed byte by byte.
fn answer_of(alloc: Global, text: &str, visits: Option<u64>) -> Option<Answer> {
    answer_in(alloc, MODEL, Some(BLOCKS), text, visits)
}

// The same for a model and a decomposition.
fn answer_in(
    alloc: Global,
    model: &str,
    dec: Option<&str>,
    text: &str,
    visits: Option<u64>,
) -> Option<Answer> {
    let Some(b) = program(alloc, model, dec) else {
        return None;
    };
    let bytes = text.as_bytes();
    if bytes.len() > LONGEST {
        return None;
    }
    Some(by_bytes(alloc, &b, bytes, visits))
}

#[test]
fn a_fault_behind_a_rejected_line_is_answered(rt: HostRuntime) -> Result<(), Fail> {
    let text =
        "bpcert 2\nclaim optimal 8\npoint 2 1\nsplit 2 1\nleaf 5 change 1 2 7 priced 0\nleaf 5 change 0 priced 0\n";
    assert_eq!(rt;
        answer_of(rt.alloc(), text, None),
        Some(Answer::Fault(7, CertKind::Syntax))
    );
    Ok(())
}

#[test]
fn lines_are_judged_in_their_zones(rt: HostRuntime) -> Result<(), Fail> {
    let alloc = rt.alloc();
    assert_eq!(rt;
        answer_of(
            alloc,
            "bpcert 2\nclaim bound 99\nsplit 2 1\nsplit 2 1\nleaf 1 change 0 priced 0\nleaf 1 change 0 priced 0\nleaf 1 change 0 priced 0\nend\n",
            None
        ),
        Some(Answer::Rejected(4, kind_number(CheckKind::Split)))
    );
    assert_eq!(rt;
        answer_of(
            alloc,
            "bpcert 2\nclaim bound 99\nsplit 2 1\nsplit 1 1\nleaf 1 change 0 priced 0\nleaf 1 change 0 priced 0\nsplit 1 1\nleaf 1 change 0 priced 0\nleaf 1 change 0 priced 0\nend\n",
            None
        ),
        Some(Answer::Accepted)
    );
    assert_eq!(rt;
        answer_of(
            alloc,
            "bpcert 2\nclaim bound 8\nsplit 2 1\nleaf 1 change 0 priced 1 1\nleaf 1 change 0 priced 1 1\nend\n",
            None
        ),
        Some(Answer::Rejected(5, kind_number(CheckKind::Weak)))
    );
    assert_eq!(rt;
        answer_of(
            alloc,
            "bpcert 2\nclaim bound 99\nleaf 1 change 0 priced 1 1\nend\n",
            Some(0)
        ),
        Some(Answer::Accepted)
    );
    Ok(())
}

// The link row's multiplier gives the further copy what it takes from the first one. Without it the copies have different numbers.
#[test]
fn a_link_row_may_be_named(rt: HostRuntime) -> Result<(), Fail> {
    let alloc = rt.alloc();
    let answers = [
        Answer::Accepted,
        Answer::Accepted,
        Answer::Rejected(4, kind_number(CheckKind::Weak)),
        Answer::Fault(4, CertKind::Number),
        Answer::Fault(4, CertKind::Number),
    ];
    for number in 0..LINKED_TEXTS.len() {
        assert_eq!(rt;
            answer_in(
                alloc,
                LINKED_MODEL,
                Some(LINKED_BLOCKS),
                LINKED_TEXTS[number],
                None
            ),
            Some(answers[number])
        );
    }
    Ok(())
}

#[test]
fn pieces_are_judged_with_cuts(rt: HostRuntime) -> Result<(), Fail> {
    assert_eq!(rt;
        first_other(rt.alloc(), CUT_MODEL, None, &CUT_TEXTS, None),
        None
    );
    Ok(())
}

// Each cut's line is judged over the rows and the cuts in front of it, and the leaves over all of them.
#[test]
fn cuts_are_judged(rt: HostRuntime) -> Result<(), Fail> {
    let alloc = rt.alloc();
    for number in 0..CUT_TEXTS.len() {
        assert_eq!(rt;
            answer_in(alloc, CUT_MODEL, None, CUT_TEXTS[number], None),
            Some(CUT_ANSWERS[number])
        );
    }
    Ok(())
}

#[test]
fn signs_and_sizes_of_cuts_are_judged(rt: HostRuntime) -> Result<(), Fail> {
    let alloc = rt.alloc();
    assert_eq!(rt;
        answer_in(
            alloc,
            MODEL,
            None,
            "bpcert 3\nclaim optimal 8\npoint 2 1\ncut 2 rows 1 1 1\nleaf 5 change 2 1 -7 2 -1 priced 0\nend\n",
            None
        ),
        Some(Answer::Rejected(4, kind_number(CheckKind::Sign)))
    );
    assert_eq!(rt;
        answer_in(
            alloc,
            LARGE_MODEL,
            None,
            "bpcert 3\nclaim bound 0\ncut 1 rows 1 1 1048576\nleaf 1 change 0 priced 0\nend\n",
            None
        ),
        Some(Answer::Rejected(3, kind_number(CheckKind::Cut)))
    );
    Ok(())
}
