// Small linear programs with known optima, and ones without a point.
use crate::numbers::millionths;
use basis_factor::{Entry, Vectors};
use dual_simplex::{ENDLESS, Effort, End, Lp, Range};
use std::alloc::{AllocError, Global};
use std::test::Fail;

/// The columns of two rows: x + 2 y and 3 x + y.
const COLUMNS: [[f64; 2]; 2] = [[1.0, 3.0], [2.0, 1.0]];

const EFFORT: Effort = Effort {
    iterations: 100,
    cutoff: None,
    keeps_factors: false,
};

/// At most 1, 4 and 6, at least 9, from 0 to 3, and from 0 to 10.
const AT_MOST_1: Range = Range {
    lower: -ENDLESS,
    upper: 1.0,
};

const AT_MOST_4: Range = Range {
    lower: -ENDLESS,
    upper: 4.0,
};

const AT_MOST_6: Range = Range {
    lower: -ENDLESS,
    upper: 6.0,
};

const AT_LEAST_9: Range = Range {
    lower: 9.0,
    upper: ENDLESS,
};

const UP_TO_3: Range = Range {
    lower: 0.0,
    upper: 3.0,
};

const UP_TO_10: Range = Range {
    lower: 0.0,
    upper: 10.0,
};

/// A 1 in the first column or row.
const FIRST: [Entry; 1] = [Entry {
    place: 0,
    value: 1.0,
}];

// Adds a column of two rows.
fn add_column(columns: &mut Vectors, values: &[f64; 2]) -> Result<(), AllocError> {
    let entries = [
        Entry {
            place: 0,
            value: values[0],
        },
        Entry {
            place: 1,
            value: values[1],
        },
    ];
    columns.push(entries.as_slice())
}

// Both columns.
fn columns(alloc: Global) -> Result<Vectors, AllocError> {
    let mut columns = Vectors::make(alloc);
    for values in &COLUMNS {
        add_column(&mut columns, values)?;
    }
    Ok(columns)
}

// A program of both columns with this range of the first row, and a span and a cost of each column.
fn begun(alloc: Global, first: Range, span: Range, cost: f64) -> Result<Lp, AllocError> {
    let ranges = [first, AT_MOST_6];
    let columns = columns(alloc)?;
    Lp::make(
        alloc,
        columns,
        ranges.as_slice(),
        [span, span].as_slice(),
        [cost, cost].as_slice(),
    )
}

/// How a solution ended; the objective, the value of each of three columns, and the multiplier of each of three rows, in
/// millionths; and how many multipliers there are.
type Solved = (End, i64, [i64; 3], [i64; 3], usize);

// The number in a place in millionths, 0 where there is none.
fn at(numbers: &[f64], place: usize) -> i64 {
    match numbers.get(place) {
        Some(number) => millionths(*number),
        None => 0,
    }
}

// The value of a column in millionths, 0 where there is none.
fn value(lp: &Lp, column: usize) -> i64 {
    if column < lp.columns() {
        millionths(lp.value(column))
    } else {
        0
    }
}

// What a program is solved to.
fn solved(lp: &mut Lp) -> Result<Solved, AllocError> {
    let end = lp.solve(EFFORT)?;
    let objective = millionths(lp.objective());
    let values = [value(lp, 0), value(lp, 1), value(lp, 2)];
    let mults = lp.multipliers();
    let first = [at(mults, 0), at(mults, 1), at(mults, 2)];
    Ok((end, objective, values, first, mults.len()))
}

// Adds a row of the first column, and begins with the basis of before.
fn tighten(lp: &mut Lp) -> Result<(), AllocError> {
    let kept = lp.basis()?;
    lp.add_row(FIRST.as_slice(), &AT_MOST_1)?;
    lp.load(&kept)
}

// An optimum of upper sides and columns that cost -1 each, that with one more row, and that with one more column of the
// first row.
fn optima(alloc: Global) -> Result<[Solved; 3], AllocError> {
    let mut lp = begun(alloc, AT_MOST_4, UP_TO_10, -1.0)?;
    let first = solved(&mut lp)?;
    tighten(&mut lp)?;
    let second = solved(&mut lp)?;
    lp.add_column(FIRST.as_slice(), &UP_TO_10, -2.0)?;
    Ok([first, second, solved(&mut lp)?])
}

const OPTIMA: [Solved; 3] = [
    (
        End::Optimum,
        -2_800_000,
        [1_600_000, 1_200_000, 0],
        [-400_000, -200_000, 0],
        2,
    ),
    (
        End::Optimum,
        -2_500_000,
        [1_000_000, 1_500_000, 0],
        [-500_000, 0, -500_000],
        3,
    ),
    (
        End::Optimum,
        -8_000_000,
        [0, 0, 4_000_000],
        [-2_000_000, 0, 0],
        3,
    ),
];

#[test]
fn finds_an_optimum_and_goes_on(rt: HostRuntime) -> Result<(), Fail> {
    assert_eq!(rt; optima(rt.alloc())?, OPTIMA);
    Ok(())
}

// How a program ends whose first row asks for more than the second leaves, how many numbers the ray has, and whether the
// first is any but 0.
fn empty(alloc: Global) -> Result<(End, usize, bool), AllocError> {
    let mut lp = begun(alloc, AT_LEAST_9, UP_TO_3, 1.0)?;
    let end = lp.solve(EFFORT)?;
    let ray = lp.ray();
    Ok((end, ray.len(), at(ray, 0) != 0))
}

#[test]
fn shows_that_there_are_no_values(rt: HostRuntime) -> Result<(), Fail> {
    assert_eq!(rt; empty(rt.alloc())?, (End::Empty, 2, true));
    Ok(())
}
