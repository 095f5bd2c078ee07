// Small programs of columns, solved and mended.
use crate::numbers::billionths;
use basis_factor::Entry;
use restricted_master::ColumnProgram;
use std::alloc::{AllocError, Global};
use std::test::Fail;

/// The rows of each column.
const PAIRS: [[u32; 2]; 3] = [[0, 1], [1, 2], [0, 2]];

// Adds a column of cost 1 with a 1 in two rows.
fn add_pair(program: &mut ColumnProgram, rows: [u32; 2]) -> Result<(), AllocError> {
    let entries = [
        Entry {
            place: rows[0],
            value: 1.0,
        },
        Entry {
            place: rows[1],
            value: 1.0,
        },
    ];
    let _ = program.add(1.0, entries.as_slice())?;
    Ok(())
}

// Adds a column for each pair, and what it costs to miss a row.
fn add_pairs(program: &mut ColumnProgram) -> Result<(), AllocError> {
    for row in 0..3usize {
        program.set_penalties(row, 100.0, 0.0);
    }
    for rows in PAIRS {
        add_pair(program, rows)?;
    }
    Ok(())
}

// Three rows of side 1, and a column for each two of them at cost 1: each gets a half.
fn pairs(alloc: Global) -> Result<ColumnProgram, AllocError> {
    let mut program = ColumnProgram::make(alloc, &[1.0, 1.0, 1.0])?;
    add_pairs(&mut program)?;
    Ok(program)
}

/// Whether a solution ended, each weight and how far the first row is missed, in thousand-millionths.
type Solved = (bool, [i64; 3], i64);

// What a program is solved to.
fn solved(alloc: Global, program: &mut ColumnProgram) -> Result<Solved, AllocError> {
    let ended = program.solve(alloc, 100)?;
    let weights = [
        billionths(program.weight(0)),
        billionths(program.weight(1)),
        billionths(program.weight(2)),
    ];
    Ok((ended, weights, billionths(program.gap(0))))
}

// What a program is mended and solved to without its first column, and with a third side that is greater.
fn mended(alloc: Global, program: &mut ColumnProgram) -> Result<Solved, AllocError> {
    program.switch_off(0);
    program.add_to_side(2, 1.0);
    let _ = program.mend(100)?;
    solved(alloc, program)
}

// What a program is mended to, and what it is solved to once that is taken back.
fn mended_and_back(alloc: Global, program: &mut ColumnProgram) -> Result<[Solved; 2], AllocError> {
    let mark = program.mark(alloc)?;
    let mended = mended(alloc, program)?;
    program.go_back(alloc, &mark)?;
    Ok([mended, solved(alloc, program)?])
}

// What the pairs are solved to, with the multiplier of the first row, and mended to.
fn answers(alloc: Global) -> Result<(Solved, i64, [Solved; 2]), AllocError> {
    let mut program = pairs(alloc)?;
    let first = solved(alloc, &mut program)?;
    let mult = billionths(program.mult(0));
    Ok((first, mult, mended_and_back(alloc, &mut program)?))
}

const HALF: i64 = 500_000_000;

const HALVES: Solved = (true, [HALF, HALF, HALF], 0);

const WITHOUT_FIRST: Solved = (true, [0, 2 * HALF, 2 * HALF], 0);

#[test]
fn mends_what_is_switched_off(rt: HostRuntime) -> Result<(), Fail> {
    assert_eq!(rt;
        answers(rt.alloc())?,
        (HALVES, HALF, [WITHOUT_FIRST, HALVES])
    );
    Ok(())
}
