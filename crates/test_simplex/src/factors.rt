// Small bases, factored, solved with and updated.
use crate::numbers::billionths;
use basis_factor::{Basic, Entry, Factor, Vectors};
use std::alloc::{AllocError, Global};
use std::test::Fail;

/// The columns of a matrix of five rows.
const COLUMNS: [[f64; 5]; 5] = [
    [2.0, 1.0, 0.0, 0.0, 1.0],
    [0.0, 3.0, 1.0, 0.0, 0.0],
    [1.0, 0.0, 4.0, 1.0, 0.0],
    [0.0, 0.0, 1.0, 5.0, 2.0],
    [1.0, 2.0, 0.0, 0.0, 6.0],
];

/// What the rows are solved for.
const ROWS: [f64; 5] = [1.0, -2.0, 3.0, 0.5, 7.0];

/// The members of a basis.
const BASIS: [Basic; 5] = [
    Basic::Column(3),
    Basic::Logical(1),
    Basic::Column(0),
    Basic::Column(2),
    Basic::Column(4),
];

/// Members of which three depend on the others: there is no column 9.
const DEPENDENT: [Basic; 5] = [
    Basic::Column(3),
    Basic::Column(3),
    Basic::Column(9),
    Basic::Logical(0),
    Basic::Logical(0),
];

// Adds a column's entries that are not 0.
fn add_column(columns: &mut Vectors, numbers: &[f64; 5]) -> Result<(), AllocError> {
    for row in 0..5usize {
        if numbers[row] != 0.0 {
            columns.add(Entry {
                place: row as u32,
                value: numbers[row],
            })?;
        }
    }
    columns.close()
}

// All columns.
fn columns(alloc: Global) -> Result<Vectors, AllocError> {
    let mut columns = Vectors::make(alloc);
    for numbers in &COLUMNS {
        add_column(&mut columns, numbers)?;
    }
    Ok(columns)
}

// Numbers in thousand-millionths.
fn parts_of(numbers: &[f64; 5]) -> [i64; 5] {
    let mut parts = [0; 5];
    for place in 0..5usize {
        parts[place] = billionths(numbers[place]);
    }
    parts
}

// What the rows are solved to.
fn solved(factor: &mut Factor) -> [i64; 5] {
    let mut vector = ROWS;
    factor.ftran(vector.as_mut_slice());
    parts_of(&vector)
}

// The row of the inverse that the third position has.
fn third_row(factor: &mut Factor) -> [i64; 5] {
    let mut left = [0.0, 0.0, 1.0, 0.0, 0.0];
    factor.btran(left.as_mut_slice());
    parts_of(&left)
}

// How many members of a basis depend on the others.
fn factored(
    factor: &mut Factor,
    columns: &Vectors,
    basis: &[Basic; 5],
) -> Result<usize, AllocError> {
    let replaced = factor.factor(columns, basis.as_slice())?;
    Ok(replaced.len())
}

// Takes column 1 in place of the logical, and tells whether that was done.
fn exchange(factor: &mut Factor) -> Result<bool, AllocError> {
    let mut alpha = [0.0, 3.0, 1.0, 0.0, 0.0];
    factor.ftran(alpha.as_mut_slice());
    factor.update(1, alpha.as_slice())
}

/// How many members of a basis are replaced, what the rows are solved to, whether a member was exchanged, and what the rows
/// are solved to then, with a row of the inverse.
type Solved = (usize, [i64; 5], bool, [i64; 5], [i64; 5]);

// What a factor of the basis answers.
fn answers(factor: &mut Factor, columns: &Vectors) -> Result<Solved, AllocError> {
    let replaced = factored(factor, columns, &BASIS)?;
    let first = solved(factor);
    let is_done = exchange(factor)?;
    Ok((replaced, first, is_done, solved(factor), third_row(factor)))
}

// The same of a new factor.
fn new_answers(alloc: Global) -> Result<Solved, AllocError> {
    let columns = columns(alloc)?;
    let mut factor = Factor::make(alloc, 5)?;
    answers(&mut factor, &columns)
}

/// The numbers are fractions of 418, and of 1282 once the member is exchanged.
const SOLVED: Solved = (
    0,
    [
        -52_631_579,
        4_023_923_445,
        -516_746_411,
        763_157_895,
        1_270_334_928,
    ],
    true,
    [
        -121_684_867,
        -1_312_012_480,
        -717_628_705,
        1_108_424_337,
        1_326_833_073,
    ],
    [
        527_301_092,
        49_921_997,
        -149_765_991,
        71_762_871,
        -104_524_181,
    ],
);

#[test]
fn solves_with_columns_and_logicals(rt: HostRuntime) -> Result<(), Fail> {
    assert_eq!(rt; new_answers(rt.alloc())?, SOLVED);
    Ok(())
}

// How many of the dependent members are replaced.
fn replaced(alloc: Global) -> Result<usize, AllocError> {
    let columns = columns(alloc)?;
    let mut factor = Factor::make(alloc, 5)?;
    factored(&mut factor, &columns, &DEPENDENT)
}

#[test]
fn replaces_what_depends(rt: HostRuntime) -> Result<(), Fail> {
    assert_eq!(rt; replaced(rt.alloc())?, 3);
    Ok(())
}
