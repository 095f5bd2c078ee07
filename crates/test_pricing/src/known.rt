// Problems whose answers are known.
use crate::ask::{Found, Kind, asked};
use crate::checks::check_none;
use crate::problem::{Numbers, Problem, firsts, line_at, problem_block, spans_of};
use bp_theory::Sense;
use knap_price::parts;
use pricing_problem::{Cap, Priced};
use search_price::prefixes;
use std::alloc::{AllocError, Global};
use std::test::Fail;

/// A pricer, its cap, how many variables and rows of those given there are, the root, the rows, the zone, costs, and the
/// answer with its point, or none where the pricer declines the block.
type Known = (
    Kind,
    Cap,
    [usize; 2],
    [[i64; 2]; 3],
    &'static [Numbers],
    [[i64; 2]; 3],
    [i128; 3],
    (Priced, Option<[i64; 4]>),
);

/// Two numbers from 0 to 2, and such that only 0 and 1 or only 2, and 1 or 2, are left; three from 0 to 3; two up to a
/// thousand millions; one up to 2^40 and two of at most 1; two up to 2^40.
const WHOLE: [[i64; 2]; 3] = [[0, 2], [0, 2], [0, 0]];

const LOW: [[i64; 2]; 3] = [[0, 1], [0, 2], [0, 0]];

const HIGH: [[i64; 2]; 3] = [[2, 2], [1, 2], [0, 0]];

const THREE: [[i64; 2]; 3] = [[0, 3], [0, 3], [0, 3]];

const WIDE: [[i64; 2]; 3] = [[0, 1_000_000_000], [0, 1_000_000_000], [0, 0]];

const FAR: [[i64; 2]; 3] = [[0, 1 << 40], [0, 1], [0, 1]];

const VAST: [[i64; 2]; 3] = [[0, 1 << 40], [0, 1 << 40], [0, 0]];

/// The row `3 a + 2 b` with a sense and sides.
const BETWEEN: Numbers = ([3, 2, 0], Sense::In, [2, 4]);

const SEVEN: Numbers = ([3, 2, 0], Sense::In, [7, 7]);

const ONE: Numbers = ([3, 2, 0], Sense::In, [1, 1]);

const SIX: Numbers = ([3, 2, 0], Sense::Le, [6, 6]);

const FIVE: Numbers = ([3, 2, 0], Sense::Le, [5, 5]);

const TEN: Numbers = ([3, 2, 0], Sense::Eq, [10, 10]);

const AT_LEAST: Numbers = ([3, 2, 0], Sense::Ge, [7, 7]);

/// The row `2 a + 4 b = 7`, which no numbers meet.
const EVEN: Numbers = ([2, 4, 0], Sense::Eq, [7, 7]);

/// Rows between whose sides there is no multiple of a common divisor of their coefficients.
const ODD_GAP: Numbers = ([2, -2, 0], Sense::Eq, [1, 1]);

const ODD_BETWEEN: Numbers = ([2, -2, 0], Sense::In, [1, 1]);

const ODD_BELOW: Numbers = ([2, -2, 0], Sense::In, [-1, -1]);

const THREE_BETWEEN: Numbers = ([4, 6, 0], Sense::In, [3, 3]);

/// Rows between whose sides there is one.
const EVEN_GAP: Numbers = ([2, -2, 0], Sense::Eq, [2, 2]);

const ABOUT_FOUR: Numbers = ([4, 6, 0], Sense::In, [3, 4]);

const ABOUT_SIX: Numbers = ([4, 6, 0], Sense::In, [6, 7]);

/// Rows of one side each, which no numbers meet together.
const ABOVE_NONE: Numbers = ([3, -3, 0], Sense::Ge, [1, 0]);

const BELOW_THREE: Numbers = ([3, -3, 0], Sense::Le, [0, 2]);

/// Rows of three variables: 2 a + b + 3 c at most 7, a - b + c at least 1, a + b + c at most 2, and a at most 2^20 b.
const ROOM: Numbers = ([2, 1, 3], Sense::Le, [0, 7]);

const MORE: Numbers = ([1, -1, 1], Sense::Ge, [1, 0]);

const SUM: Numbers = ([1, 1, 1], Sense::Le, [0, 2]);

const STEEP: Numbers = ([1, -(1 << 20), 0], Sense::Le, [0, 0]);

/// The row `2 a + 4 b + 3 c = 7`, which some numbers of `a` and `b` leave no `c` for.
const ODD_SUM: Numbers = ([2, 4, 3], Sense::Eq, [7, 7]);

const NEVER: Cap = Cap::Never;

const KNOWN: &[Known] = &[
    (
        Kind::Table,
        NEVER,
        [2, 1],
        WHOLE,
        &[BETWEEN],
        WHOLE,
        [5, 4, 0],
        (Priced::Least(4), Some([0, 1, 0, 0])),
    ),
    (
        Kind::Table,
        NEVER,
        [2, 1],
        WHOLE,
        &[SEVEN],
        WHOLE,
        [5, 4, 0],
        (Priced::Least(13), Some([1, 2, 0, 0])),
    ),
    (
        Kind::Table,
        NEVER,
        [2, 1],
        WHOLE,
        &[ONE],
        WHOLE,
        [5, 4, 0],
        (Priced::Nothing, Some([0, 0, 0, 0])),
    ),
    (
        Kind::Table,
        Cap::At(13),
        [2, 1],
        WHOLE,
        &[SIX],
        WHOLE,
        [-5, -4, 0],
        (Priced::Least(-10), Some([2, 0, 0, 0])),
    ),
    (
        Kind::Table,
        NEVER,
        [2, 1],
        WHOLE,
        &[SIX],
        LOW,
        [-5, -4, 0],
        (Priced::Least(-9), Some([1, 1, 0, 0])),
    ),
    (
        Kind::Table,
        NEVER,
        [2, 1],
        WHOLE,
        &[SIX],
        HIGH,
        [-5, -4, 0],
        (Priced::Nothing, Some([0, 0, 0, 0])),
    ),
    (
        Kind::Table,
        NEVER,
        [2, 2],
        WHOLE,
        &[SIX, FIVE],
        WHOLE,
        [-5, -4, 0],
        (Priced::Nothing, None),
    ),
    (
        Kind::Table,
        NEVER,
        [2, 0],
        WHOLE,
        &[],
        WHOLE,
        [-5, -4, 0],
        (Priced::Nothing, None),
    ),
    (
        Kind::Search,
        NEVER,
        [2, 1],
        WHOLE,
        &[BETWEEN],
        WHOLE,
        [5, 4, 0],
        (Priced::Least(4), Some([0, 1, 0, 0])),
    ),
    (
        Kind::Search,
        NEVER,
        [2, 1],
        WHOLE,
        &[SEVEN],
        WHOLE,
        [5, 4, 0],
        (Priced::Least(13), Some([1, 2, 0, 0])),
    ),
    (
        Kind::Search,
        NEVER,
        [2, 1],
        WHOLE,
        &[ONE],
        WHOLE,
        [5, 4, 0],
        (Priced::Nothing, Some([0, 0, 0, 0])),
    ),
    (
        Kind::Search,
        Cap::At(13),
        [2, 1],
        WHOLE,
        &[SIX],
        WHOLE,
        [-5, -4, 0],
        (Priced::Least(-10), Some([2, 0, 0, 0])),
    ),
    (
        Kind::Search,
        NEVER,
        [2, 1],
        WHOLE,
        &[SIX],
        LOW,
        [-5, -4, 0],
        (Priced::Least(-9), Some([1, 1, 0, 0])),
    ),
    (
        Kind::Search,
        NEVER,
        [2, 1],
        WHOLE,
        &[SIX],
        HIGH,
        [-5, -4, 0],
        (Priced::Nothing, Some([0, 0, 0, 0])),
    ),
    (
        Kind::Search,
        NEVER,
        [2, 1],
        WHOLE,
        &[TEN],
        WHOLE,
        [5, 4, 0],
        (Priced::Least(18), Some([2, 2, 0, 0])),
    ),
    (
        Kind::Search,
        Cap::At(1),
        [2, 1],
        WHOLE,
        &[TEN],
        WHOLE,
        [5, 4, 0],
        (Priced::Cut, Some([0, 0, 0, 0])),
    ),
    (
        Kind::Search,
        Cap::At(100),
        [2, 1],
        WIDE,
        &[AT_LEAST],
        WIDE,
        [5, 4, 0],
        (Priced::Least(13), Some([1, 2, 0, 0])),
    ),
    (
        Kind::Search,
        Cap::At(1000),
        [2, 2],
        WIDE,
        &[ABOVE_NONE, BELOW_THREE],
        WIDE,
        [5, 4, 0],
        (Priced::Cut, Some([0, 0, 0, 0])),
    ),
    (
        Kind::Search,
        NEVER,
        [2, 1],
        WIDE,
        &[EVEN],
        WIDE,
        [5, 4, 0],
        (Priced::Nothing, Some([0, 0, 0, 0])),
    ),
    (
        Kind::Search,
        NEVER,
        [2, 1],
        VAST,
        &[ODD_GAP],
        VAST,
        [5, 4, 0],
        (Priced::Nothing, Some([0, 0, 0, 0])),
    ),
    (
        Kind::Search,
        Cap::At(0),
        [2, 2],
        VAST,
        &[SIX, ODD_BETWEEN],
        VAST,
        [5, 4, 0],
        (Priced::Nothing, Some([0, 0, 0, 0])),
    ),
    (
        Kind::Search,
        NEVER,
        [2, 1],
        VAST,
        &[ODD_BELOW],
        VAST,
        [5, 4, 0],
        (Priced::Nothing, Some([0, 0, 0, 0])),
    ),
    (
        Kind::Search,
        NEVER,
        [2, 1],
        VAST,
        &[THREE_BETWEEN],
        VAST,
        [5, 4, 0],
        (Priced::Nothing, Some([0, 0, 0, 0])),
    ),
    (
        Kind::Search,
        NEVER,
        [2, 1],
        VAST,
        &[EVEN_GAP],
        VAST,
        [5, 4, 0],
        (Priced::Least(5), Some([1, 0, 0, 0])),
    ),
    (
        Kind::Search,
        NEVER,
        [2, 1],
        WHOLE,
        &[ABOUT_FOUR],
        WHOLE,
        [5, 4, 0],
        (Priced::Least(5), Some([1, 0, 0, 0])),
    ),
    (
        Kind::Search,
        NEVER,
        [2, 1],
        WHOLE,
        &[ABOUT_SIX],
        WHOLE,
        [5, 4, 0],
        (Priced::Least(4), Some([0, 1, 0, 0])),
    ),
    (
        Kind::Graph,
        Cap::At(0),
        [3, 2],
        THREE,
        &[ROOM, MORE],
        THREE,
        [-5, -4, -6],
        (Priced::Least(-19), Some([3, 1, 0, 0])),
    ),
    (
        Kind::Graph,
        Cap::At(0),
        [3, 1],
        THREE,
        &[SUM],
        THREE,
        [-(1 << 114), 1, 0],
        (Priced::Least(-(1 << 115)), Some([2, 0, 0, 0])),
    ),
    (
        Kind::Graph,
        Cap::At(0),
        [3, 1],
        FAR,
        &[STEEP],
        FAR,
        [0, 0, 0],
        (Priced::Nothing, None),
    ),
    (
        Kind::Graph,
        Cap::At(0),
        [2, 1],
        WHOLE,
        &[EVEN],
        WHOLE,
        [5, 4, 0],
        (Priced::Nothing, Some([0, 0, 0, 0])),
    ),
    (
        Kind::Graph,
        Cap::At(0),
        [2, 1],
        WHOLE,
        &[TEN],
        WHOLE,
        [5, 4, 0],
        (Priced::Least(18), Some([2, 2, 0, 0])),
    ),
    (
        Kind::Graph,
        Cap::At(0),
        [3, 1],
        THREE,
        &[ODD_SUM],
        THREE,
        [5, 4, 1],
        (Priced::Least(5), Some([0, 1, 1, 0])),
    ),
    (
        Kind::Table,
        NEVER,
        [2, 1],
        WHOLE,
        &[SIX],
        LOW,
        [-(1 << 58), -(1 << 57), 0],
        (Priced::Least(-(3 << 57)), Some([1, 1, 0, 0])),
    ),
    (
        Kind::Table,
        NEVER,
        [2, 1],
        WHOLE,
        &[SIX],
        LOW,
        [-(1 << 58) - 1, -(1 << 57), 0],
        (Priced::Least(-(3 << 57) - 1), Some([1, 1, 0, 0])),
    ),
];

// The problem of these numbers.
fn problem_of(known: &Known) -> Problem {
    Problem {
        vars: known.2[0],
        rows: known.2[1],
        root: spans_of(&known.3),
        lines: [
            line_at(known.4, 0),
            line_at(known.4, 1),
            line_at(known.4, 2),
        ],
        zone: spans_of(&known.5),
        costs: [known.6[0], known.6[1], known.6[2], 0],
    }
}

// Whether an answer is the wanted one.
fn is_wanted(found: &Found, wanted: &(Priced, Option<[i64; 4]>)) -> bool {
    match (found, wanted.1) {
        (Found::Answer(answer, point), Some(first)) => *answer == wanted.0 && *point == first,
        (Found::Declined, None) => true,
        _ => false,
    }
}

// The place of a problem with another answer than the wanted one.
fn wrong(alloc: Global) -> Result<Option<usize>, AllocError> {
    let mut wrong = None;
    for (place, known) in KNOWN.iter().enumerate() {
        let found = asked(alloc, known.0, &problem_of(known), known.1)?;
        if !is_wanted(&found, &known.7) {
            wrong = Some(place);
        }
    }
    Ok(wrong)
}

#[test]
fn each_problem_has_its_answer(rt: HostRuntime) -> Result<(), Fail> {
    check_none(&rt, wrong(rt.alloc()))
}

// How many beginnings of points the zone of a problem has.
fn zone_prefixes(alloc: Global, known: &Known) -> Result<u128, AllocError> {
    let problem = problem_of(known);
    let zone = firsts(&problem.zone, problem.vars);
    match problem_block(alloc, &problem)? {
        Some(block) if block.spans().len() == zone.len() => Ok(prefixes(&block, zone)),
        _ => Ok(0),
    }
}

// How many beginnings of points a whole zone of two variables has.
fn whole_prefixes(alloc: Global) -> Result<u128, AllocError> {
    match KNOWN.get(15) {
        Some(known) => zone_prefixes(alloc, known),
        None => Ok(0),
    }
}

#[test]
fn prefixes_of_two_spans(rt: HostRuntime) -> Result<(), Fail> {
    assert_eq!(rt; whole_prefixes(rt.alloc())?, 13);
    Ok(())
}

/// Numbers with their parts.
const PARTS: &[(u64, &[u64])] = &[(6, &[1, 2, 3]), (7, &[1, 2, 4]), (0, &[])];

// The part in a place, where there is one.
fn part_at(wanted: &[u64], place: usize) -> Option<u64> {
    match wanted.get(place) {
        Some(part) => Some(*part),
        None => None,
    }
}

// Whether a number has these parts.
fn has_parts(number: u64, wanted: &[u64]) -> bool {
    let mut found = parts(number);
    for place in 0..4 {
        if found.next() != part_at(wanted, place) {
            return false;
        }
    }
    true
}

#[test]
fn the_parts_of_small_numbers(rt: HostRuntime) {
    for (number, wanted) in PARTS {
        assert!(rt; has_parts(*number, *wanted), "{number}");
    }
}
