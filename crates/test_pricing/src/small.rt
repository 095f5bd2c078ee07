// Problems of two variables from -2 to 3, for which all points are tried.
use crate::ask::Kind;
use crate::checks::check_none;
use crate::problem::{Numbers, Problem, line_at, spans_of};
use crate::tried::agrees;
use bp_theory::Sense;
use pricing_problem::Cap;
use std::alloc::{AllocError, Global};
use std::test::Fail;

/// The numbers of a case: rows, zone and costs.
type Shown<'a> = (&'a [Numbers], [[i64; 2]; 2], [i128; 2]);

/// Cases of one row with each sense, negative coefficients and narrowed zones, some of them without a point.
const ONE_ROW: &[Shown<'static>] = &[
    (
        &[([3, 2, 0], Sense::Le, [5, 5])],
        [[-2, 3], [-2, 3]],
        [-5, -4],
    ),
    (
        &[([3, -2, 0], Sense::Le, [4, 4])],
        [[-2, 3], [-2, 3]],
        [-5, 4],
    ),
    (
        &[([-3, -2, 0], Sense::Le, [-5, -5])],
        [[-2, 3], [-2, 3]],
        [5, 4],
    ),
    (
        &[([3, -2, 0], Sense::Ge, [7, 7])],
        [[-1, 2], [-2, 1]],
        [5, -4],
    ),
    (
        &[([-1, 4, 0], Sense::Ge, [-3, -3])],
        [[0, 3], [-2, 0]],
        [-2, 7],
    ),
    (
        &[([2, -3, 0], Sense::Eq, [5, 5])],
        [[-2, 3], [-2, 3]],
        [-1, 3],
    ),
    (
        &[([2, 4, 0], Sense::Eq, [5, 5])],
        [[-2, 3], [-2, 3]],
        [1, 1],
    ),
    (
        &[([3, 5, 0], Sense::In, [4, 7])],
        [[-2, 3], [-2, 3]],
        [2, -3],
    ),
    (
        &[([-3, 5, 0], Sense::In, [6, 6])],
        [[-2, 2], [0, 2]],
        [-7, -1],
    ),
    (
        &[([0, 2, 0], Sense::In, [1, 3])],
        [[-2, 1], [-2, 3]],
        [-3, 5],
    ),
    (&[([3, 2, 0], Sense::In, [1, 1])], [[0, 3], [0, 3]], [5, 4]),
    (
        &[([2, 2, 0], Sense::Le, [-9, -9])],
        [[-2, 3], [-2, 3]],
        [1, 1],
    ),
];

/// Cases of two rows.
const TWO_ROWS: &[Shown<'static>] = &[
    (
        &[
            ([3, 2, 0], Sense::Le, [5, 5]),
            ([1, -1, 0], Sense::Ge, [-1, -1]),
        ],
        [[-2, 3], [-2, 3]],
        [-5, -4],
    ),
    (
        &[
            ([3, -2, 0], Sense::Le, [4, 4]),
            ([1, 1, 0], Sense::In, [1, 2]),
        ],
        [[-2, 3], [-2, 3]],
        [-5, 4],
    ),
    (
        &[
            ([-3, -2, 0], Sense::Le, [-5, -5]),
            ([1, 2, 0], Sense::Ge, [4, 4]),
        ],
        [[-2, 3], [-2, 3]],
        [5, 4],
    ),
    (
        &[
            ([3, -2, 0], Sense::Ge, [7, 7]),
            ([0, 0, 0], Sense::Le, [0, 0]),
        ],
        [[-1, 2], [-2, 1]],
        [5, -4],
    ),
    (
        &[
            ([-1, 4, 0], Sense::Ge, [-3, -3]),
            ([1, 1, 0], Sense::Eq, [1, 1]),
        ],
        [[0, 3], [-2, 0]],
        [-2, 7],
    ),
    (
        &[
            ([2, -3, 0], Sense::Eq, [5, 5]),
            ([1, 1, 0], Sense::Eq, [0, 0]),
        ],
        [[-2, 3], [-2, 3]],
        [-1, 3],
    ),
    (
        &[
            ([2, 4, 0], Sense::Eq, [6, 6]),
            ([1, 0, 0], Sense::Ge, [2, 2]),
        ],
        [[-2, 3], [-2, 3]],
        [1, 1],
    ),
    (
        &[
            ([3, 5, 0], Sense::In, [4, 7]),
            ([-1, 2, 0], Sense::In, [-3, 3]),
        ],
        [[-2, 3], [-2, 3]],
        [2, -3],
    ),
    (
        &[
            ([-3, 5, 0], Sense::In, [6, 6]),
            ([1, 1, 0], Sense::Le, [3, 3]),
        ],
        [[-2, 2], [0, 2]],
        [-7, -1],
    ),
    (
        &[
            ([0, 2, 0], Sense::In, [1, 3]),
            ([4, -1, 0], Sense::Ge, [-9, -9]),
        ],
        [[-2, 1], [-2, 3]],
        [-3, 5],
    ),
    (
        &[
            ([1, 2, 0], Sense::Eq, [3, 3]),
            ([1, 2, 0], Sense::Eq, [4, 4]),
        ],
        [[-2, 3], [-2, 3]],
        [1, 1],
    ),
    (
        &[
            ([2, 2, 0], Sense::Le, [3, 3]),
            ([1, 0, 0], Sense::Ge, [4, 4]),
        ],
        [[-2, 3], [-2, 3]],
        [1, 1],
    ),
];

// The problem of these numbers, with so many of the rows.
fn problem_of(shown: &Shown<'_>, rows: usize) -> Problem {
    Problem {
        vars: 2,
        rows,
        root: spans_of(&[[-2, 3], [-2, 3], [0, 0]]),
        lines: [
            line_at(shown.0, 0),
            line_at(shown.0, 1),
            line_at(shown.0, 2),
        ],
        zone: spans_of(&[shown.1[0], shown.1[1], [0, 0]]),
        costs: [shown.2[0], shown.2[1], 0, 0],
    }
}

/// Coefficients of the first and of the second variable, and senses.
const FIRSTS: &[i64; 4] = &[-3, -1, 0, 2];

const SECONDS: &[i64; 4] = &[-2, 0, 1, 3];

const SENSES: &[Sense; 4] = &[Sense::Le, Sense::Ge, Sense::Eq, Sense::In];

/// Costs of both signs, none, and close to the greatest that a pricer takes.
const COSTS: &[[i128; 2]; 5] = &[[-5, 3], [4, -7], [-1, -1], [0, 2], [1 << 113, -(1 << 113)]];

/// Zones within the root, narrow and whole.
const ZONES: &[[[i64; 2]; 2]; 3] = &[[[-2, 3], [-2, 3]], [[-1, 3], [0, 1]], [[2, 2], [-2, 2]]];

/// How many small rows there are, with lower sides from -4 to 4, and each upper one 1 above, with all costs and zones.
const SMALL: usize = 4 * 4 * 4 * 9 * 5 * 3;

// The problem of a number below that.
fn small(number: usize) -> Problem {
    let zone = ZONES[number % 3];
    let costs = COSTS[number / 3 % 5];
    let low = (number / 15 % 9) as i64 - 4;
    let sense = SENSES[number / 135 % 4];
    let coefs = [FIRSTS[number / 2160 % 4], SECONDS[number / 540 % 4], 0];
    problem_of(&(&[(coefs, sense, [low, low + 1])], zone, costs), 1)
}

/// Which problems.
#[derive(Clone, Copy)]
enum Source {
    /// These, with so many of their rows.
    Shown(&'static [Shown<'static>], usize),
    /// Those of small rows.
    Small,
}

// The problem of a number.
fn problem(source: Source, number: usize) -> Option<Problem> {
    match source {
        Source::Shown(all, rows) => match all.get(number) {
            Some(shown) => Some(problem_of(shown, rows)),
            None => None,
        },
        Source::Small => Some(small(number)),
    }
}

// Whether a pricer answers to the problem of a number what all points tried give.
fn is_right(alloc: Global, kind: Kind, source: Source, number: usize) -> Result<bool, AllocError> {
    match problem(source, number) {
        Some(problem) => agrees(alloc, kind, &problem, Cap::Never),
        None => Ok(false),
    }
}

// The last of so many problems to which it answers otherwise.
fn wrong(
    alloc: Global,
    kind: Kind,
    source: Source,
    many: usize,
) -> Result<Option<usize>, AllocError> {
    let mut wrong = None;
    for number in 0..many {
        if !is_right(alloc, kind, source, number)? {
            wrong = Some(number);
        }
    }
    Ok(wrong)
}

#[test]
fn one_row_with_each_sense(rt: HostRuntime) -> Result<(), Fail> {
    let source = Source::Shown(ONE_ROW, 1);
    check_none(&rt, wrong(rt.alloc(), Kind::Table, source, 12))
}

#[test]
fn two_rows_at_a_time(rt: HostRuntime) -> Result<(), Fail> {
    let source = Source::Shown(TWO_ROWS, 2);
    check_none(&rt, wrong(rt.alloc(), Kind::Search, source, 12))
}

#[test]
fn small_rows_of_each_sense(rt: HostRuntime) -> Result<(), Fail> {
    check_none(&rt, wrong(rt.alloc(), Kind::Table, Source::Small, SMALL))
}
