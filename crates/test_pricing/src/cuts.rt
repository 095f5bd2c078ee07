// Worked cuts.
mod programs;

use block_program::Blocked;
use bp_theory::{Row, Sense, Span};
use programs::{Line, is_row, master, own, program, tried};
use round_cut::{CutFault, first_cuts, with_cuts};
use std::alloc::{AllocError, Global};

// Whether the row of a cut over earlier ones is this.
fn gives(
    alloc: Global,
    b: &Blocked,
    q: u32,
    mults: &[(u32, i64)],
    terms: &[(u32, i64)],
    low: i64,
) -> Result<bool, AllocError> {
    match tried(alloc, b, &[], q, mults)? {
        Some(Ok(row)) => Ok(is_row(&row, terms, low)),
        _ => Ok(false),
    }
}

// What a cut over no others is refused for.
fn refused(
    alloc: Global,
    b: &Blocked,
    q: u32,
    mults: &[(u32, i64)],
) -> Result<Option<CutFault>, AllocError> {
    match tried(alloc, b, &[], q, mults)? {
        Some(Err(fault)) => Ok(Some(fault)),
        _ => Ok(None),
    }
}

#[test]
fn rounding_uses_the_lower_ends(rt: HostRuntime) -> Result<(), AllocError> {
    // `3 x >= 1` with x from -1 to 5.
    let alloc = rt.alloc();
    let lines = [master(&[(0, 3)], Sense::Ge, 1)];
    let b = program(alloc, &[Span { lo: -1, hi: 5 }], &lines)?;
    assert!(rt; gives(alloc, &b, 1, &[(0, 1)], &[(0, 3)], 1)?);
    assert!(rt; gives(alloc, &b, 2, &[(0, 1)], &[(0, 2)], 0)?);
    assert!(rt; gives(alloc, &b, 3, &[(0, 1)], &[(0, 1)], 1)?);
    assert!(rt; gives(alloc, &b, 4, &[(0, 1)], &[(0, 1)], 0)?);
    Ok(())
}

#[test]
fn signs_come_before_sizes(rt: HostRuntime) -> Result<(), AllocError> {
    let alloc = rt.alloc();
    let lines = [
        master(&[(0, 1)], Sense::Ge, 1),
        master(&[(0, 1)], Sense::Le, 3),
        master(&[(0, 1 << 60)], Sense::Ge, 0),
    ];
    let b = program(alloc, &[Span { lo: 0, hi: 3 }], &lines)?;
    assert_eq!(rt; refused(alloc, &b, 1, &[(0, 1), (1, -1)])?, None);
    assert_eq!(rt;
        refused(alloc, &b, 1, &[(0, -1), (1, -1)])?,
        Some(CutFault::Sign)
    );
    assert_eq!(rt;
        refused(alloc, &b, 1, &[(0, 1), (1, 1)])?,
        Some(CutFault::Sign)
    );
    assert_eq!(rt;
        refused(alloc, &b, 1, &[(0, 1), (2, 2)])?,
        Some(CutFault::Large)
    );
    assert_eq!(rt;
        refused(alloc, &b, 1, &[(0, -1), (2, 2)])?,
        Some(CutFault::Sign)
    );
    Ok(())
}

#[test]
fn a_later_cut_names_an_earlier_one_behind_the_links(rt: HostRuntime) -> Result<(), AllocError> {
    // x stands in two blocks, so row 3 is its link row, and the first cut is row 4.
    let alloc = rt.alloc();
    let lines = [
        own(&[(0, 1), (1, 1)], 3, 0),
        own(&[(0, 1), (2, 1)], 3, 1),
        master(&[(0, 2), (1, 2), (2, 2)], Sense::Ge, 3),
    ];
    let span = Span { lo: 0, hi: 3 };
    let b = program(alloc, &[span, span, span], &lines)?;
    assert!(rt; tried(alloc, &b, &[], 2, &[(0, -1)])?.is_none());
    assert!(rt; tried(alloc, &b, &[], 2, &[(4, 1)])?.is_none());
    assert!(rt; tried(alloc, &b, &[], 0, &[(2, 1)])?.is_none());
    let Some(Ok(first)) = tried(alloc, &b, &[], 2, &[(2, 1)])? else {
        return Err(AllocError);
    };
    let ones = [(0, 1), (1, 1), (2, 1)];
    assert!(rt; is_row(&first, &ones, 2));
    let earlier: [Row; 1] = [first];
    assert!(rt; tried(alloc, &b, &earlier, 2, &[(3, 1)])?.is_none());
    assert!(rt; tried(alloc, &b, &earlier, 2, &[(5, 1)])?.is_none());
    let Some(Ok(second)) = tried(alloc, &b, &earlier, 2, &[(4, 1)])? else {
        return Err(AllocError);
    };
    assert!(rt; is_row(&second, &ones, 1));
    Ok(())
}

// Whether the first plain cuts are those of these divisors, rows and multipliers.
fn first_are(
    alloc: Global,
    b: &Blocked,
    most: u32,
    want: &[(u32, u32, i64)],
) -> Result<bool, AllocError> {
    let cuts = first_cuts(alloc, b, most)?;
    if cuts.len() != want.len() {
        return Ok(false);
    }
    for i in 0..want.len() {
        let mults = cuts[i].rows.as_slice();
        if cuts[i].q != want[i].0 || mults != [(want[i].1, want[i].2)].as_slice() {
            return Ok(false);
        }
    }
    Ok(true)
}

// Five rows: one of a block, one that two cuts come of, one without cuts, one between two numbers, and an at least row.
fn five<'a>() -> [Line<'a>; 5] {
    let mut between = master(&[(1, 6), (2, 3)], Sense::In, 6);
    between.low = -5;
    [
        own(&[(0, 2)], 1, 0),
        master(&[(0, 2), (1, -4)], Sense::Eq, 7),
        master(&[(0, 3), (2, 6)], Sense::Le, 9),
        between,
        master(&[(0, 2), (1, 2), (2, 2)], Sense::Ge, 3),
    ]
}

#[test]
fn plain_cuts_come_in_order(rt: HostRuntime) -> Result<(), AllocError> {
    let alloc = rt.alloc();
    let span = Span { lo: 0, hi: 9 };
    let b = program(alloc, &[span, Span { lo: -2, hi: 9 }, span], &five())?;
    let all = [(2, 1, 1), (2, 1, -1), (3, 3, 1), (3, 3, -1), (2, 4, 1)];
    assert!(rt; first_are(alloc, &b, 0, &[])?);
    assert!(rt; first_are(alloc, &b, 3, &all[..3])?);
    assert!(rt; first_are(alloc, &b, 256, &all)?);
    Ok(())
}

#[test]
fn a_program_takes_its_plain_cuts(rt: HostRuntime) -> Result<(), AllocError> {
    // `2 x + 2 y = 1`: `x + y >= 1` and `- x - y >= 0`.
    let alloc = rt.alloc();
    let lines = [master(&[(0, 2), (1, 2)], Sense::Eq, 1)];
    let span = Span { lo: 0, hi: 1 };
    let b = program(alloc, &[span, span], &lines)?;
    assert!(rt; gives(alloc, &b, 2, &[(0, 1)], &[(0, 1), (1, 1)], 1)?);
    assert!(rt; gives(alloc, &b, 2, &[(0, -1)], &[(0, -1), (1, -1)], 0)?);
    let cuts = first_cuts(alloc, &b, 2)?;
    match with_cuts(alloc, &b, cuts.as_slice()) {
        Ok(other) => {
            assert_eq!(rt; other.cuts().len(), 2);
            assert_eq!(rt; other.named_rows(), 3);
        }
        Err(_) => return Err(AllocError),
    }
    Ok(())
}
