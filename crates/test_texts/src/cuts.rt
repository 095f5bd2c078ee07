// What texts of certificates with cuts read as, and what certificates with cuts are written as.
use crate::certificates::{Shape, frame_of};
use crate::tables::{Reading, add, check, told};
use bp_theory::Cut;
use cert_text::read;
use std::alloc::{AllocError, Global};
use std::test::Fail;

// What texts say with three rows, of which the second alone is a master row, and with the link rows 4 and 5: the first cut
// is row 6. Each has a `|` for each line feed.
const CUTS: &str = "\
read @ bpcert 3|claim infeasible|cut 2 rows 1 2 1|leaf 0 change 1 6 1 priced all|end|
read @ bpcert 3|claim infeasible|cut 1048576 rows 1 2 -1048576|cut 1 rows 2 2 1048576 6 1|leaf 0 change 4 2 1 4 1 5 -1 7 1 priced all|end|
read @ bpcert 3|claim infeasible|cut 2 rows 0|open 0 change 0 priced 0|end|
read @ bpcert 3|claim bound 3|cut 2 rows 1 2 1|split 1 0|leaf 0 change 1 6 1048577 priced all|leaf 0 change 1 6 0 priced all|end|
read @ bpcert 3|claim optimal 0|point 1 2 3|cut 3 rows 1 2 1|leaf 0 change 0 priced all|end|
read @ bpcert 3|claim bound 0 value 1|point 1 2 3|cut 3 rows 1 2 1|cut 3 rows 0|open 0 change 2 6 1 7 1 priced all|end|
3 Number @ bpcert 3|claim infeasible|cut 0 rows 1 2 1|leaf 0 change 0 priced all|end|
3 Number @ bpcert 3|claim infeasible|cut 2 rows 1 4 1|leaf 0 change 0 priced all|end|
3 Number @ bpcert 3|claim infeasible|cut 2 rows 1 5 1|leaf 0 change 0 priced all|end|
3 Number @ bpcert 3|claim infeasible|cut 2 rows 1 0 1|leaf 0 change 0 priced all|end|
3 Number @ bpcert 3|claim infeasible|cut 2 rows 1 1 1|leaf 0 change 0 priced all|end|
3 Number @ bpcert 3|claim infeasible|cut 2 rows 1 6 1|leaf 0 change 0 priced all|end|
3 Number @ bpcert 3|claim infeasible|cut 2 rows 1 7 1|cut 2 rows 1 2 1|leaf 0 change 0 priced all|end|
3 Number @ bpcert 3|claim infeasible|cut 2 rows 1 99999999999999999999 1|leaf 0 change 0 priced all|end|
4 Number @ bpcert 3|claim infeasible|cut 2 rows 1 2 1|cut 2 rows 1 7 1|leaf 0 change 0 priced all|end|
4 Number @ bpcert 3|claim infeasible|cut 2 rows 1 2 1|cut 2 rows 1 5 1|leaf 0 change 0 priced all|end|
4 Number @ bpcert 3|claim infeasible|cut 2 rows 1 2 1|cut 2 rows 2 6 1 2 1|leaf 0 change 0 priced all|end|
4 Number @ bpcert 3|claim infeasible|cut 2 rows 1 2 1|cut 2 rows 2 6 1 6 1|leaf 0 change 0 priced all|end|
3 Number @ bpcert 3|claim infeasible|cut 2 rows 1 2 0|leaf 0 change 0 priced all|end|
3 TooLarge @ bpcert 3|claim infeasible|cut 1048577 rows 1 2 1|leaf 0 change 0 priced all|end|
3 TooLarge @ bpcert 3|claim infeasible|cut 2 rows 1 2 1048577|leaf 0 change 0 priced all|end|
3 TooLarge @ bpcert 3|claim infeasible|cut 2 rows 1 2 -1048577|leaf 0 change 0 priced all|end|
3 Syntax @ bpcert 3|claim infeasible|cut 02 rows 1 2 1|leaf 0 change 0 priced all|end|
3 Syntax @ bpcert 3|claim infeasible|cut -2 rows 1 2 1|leaf 0 change 0 priced all|end|
3 Syntax @ bpcert 3|claim infeasible|cut 2 rows -1 2 1|leaf 0 change 0 priced all|end|
3 Syntax @ bpcert 3|claim infeasible|cut 2 rows 1 -2 1|leaf 0 change 0 priced all|end|
3 Syntax @ bpcert 3|claim infeasible|cut 2 rows 1 2 -0|leaf 0 change 0 priced all|end|
3 Syntax @ bpcert 3|claim infeasible|cut 2 change 1 2 1|leaf 0 change 0 priced all|end|
3 Syntax @ bpcert 3|claim infeasible|cut 2 rows 1|leaf 0 change 0 priced all|end|
3 Syntax @ bpcert 3|claim infeasible|cut 2 rows 0 2 1|leaf 0 change 0 priced all|end|
3 Syntax @ bpcert 3|claim infeasible|cut 2 rows 1 2 1 priced all|leaf 0 change 0 priced all|end|
3 Syntax @ bpcert 3|claim infeasible|leaf 0 change 0 priced all|end|
3 Syntax @ bpcert 3|claim infeasible|split 1 0|leaf 0 change 0 priced all|leaf 0 change 0 priced all|end|
4 Syntax @ bpcert 3|claim optimal 0|point 1 2 3|open 0 change 0 priced all|end|
3 Length @ bpcert 3|claim optimal 0|point 1 2|cut 2 rows 1 2 1|leaf 0 change 0 priced all|end|
3 Syntax @ bpcert 1|claim infeasible|cut 2 rows 1 2 1|leaf 0 rows 0 priced all|end|
3 Syntax @ bpcert 2|claim infeasible|cut 2 rows 1 2 1|leaf 0 change 0 priced all|end|
4 Syntax @ bpcert 3|claim infeasible|cut 2 rows 1 2 1|end|
4 Syntax @ bpcert 3|claim infeasible|cut 2 rows 1 2 1|leaf 0 rows 0 priced all|end|
5 Syntax @ bpcert 3|claim infeasible|cut 2 rows 1 2 1|split 1 0|cut 2 rows 1 2 1|leaf 0 change 0 priced all|leaf 0 change 0 priced all|end|
4 Number @ bpcert 3|claim infeasible|cut 2 rows 1 2 1|leaf 0 change 1 7 1 priced all|end|
4 Number @ bpcert 3|claim infeasible|cut 2 rows 1 2 1|leaf 0 change 1 6 0 priced all|end|
2 Syntax @ bpcert 3|
4 Syntax @ bpcert 3|claim infeasible|cut 2 rows 1 2 1|
3 Syntax @ bpcert 3|claim infeasible|cut 2 rows 1 2 1
3 Syntax @ bpcert 3|claim infeasible|cut 2
3 Number @ bpcert 3|claim infeasible|cut 0
3 Number @ bpcert 3|claim infeasible|cut 2 rows 1 6
3 TooLarge @ bpcert 3|claim infeasible|cut 2 rows 1 2 1048577
1 Syntax @ bpcert 4|claim infeasible|cut 2 rows 1 2 1|leaf 0 change 0 priced all|end|
";

// The same with one master row and no block: the first cut is row 2.
const ONE_ROW: &str = "\
read @ bpcert 3|claim infeasible|cut 2 rows 1 1 1|cut 2 rows 1 1 -1|leaf 0 change 2 2 1 3 1 priced 0|end|
read @ bpcert 3|claim infeasible|cut 2 rows 1 1 1|cut 2 rows 1 1 1|leaf 0 change 2 2 1 3 1 priced 0|end|
3 Number @ bpcert 3|claim infeasible|cut 0 rows 1 1 1|cut 2 rows 1 1 -1|leaf 0 change 2 2 1 3 1 priced 0|end|
4 Number @ bpcert 3|claim infeasible|cut 2 rows 1 1 1|cut 2 rows 1 3 1|leaf 0 change 2 2 1 3 1 priced 0|end|
5 Number @ bpcert 3|claim infeasible|cut 2 rows 1 1 1|cut 2 rows 2 1 1 2 1|leaf 0 change 1 4 1 priced 0|end|
";

// The same with two master rows.
const TWO_ROWS: &str = "\
# Behind 256 cuts one more is at fault for that, before every other fault of the numbers in its line.
259 Limit @ 256 @ bpcert 3|claim infeasible| @ cut 2 rows 0| @ cut 2 rows 0|
259 Limit @ 256 @ bpcert 3|claim infeasible| @ cut 2 rows 0| @ cut 2
259 Limit @ 256 @ bpcert 3|claim infeasible| @ cut 2 rows 0| @ cut 0 rows 0|
259 Limit @ 256 @ bpcert 3|claim infeasible| @ cut 2 rows 0| @ cut 02 rows
259 Limit @ 256 @ bpcert 3|claim infeasible| @ cut 2 rows 0| @ cut -1
259 Limit @ 256 @ bpcert 3|claim infeasible| @ cut 2 rows 0| @ cut -0
259 Limit @ 256 @ bpcert 3|claim infeasible| @ cut 2 rows 0| @ cut 1048577
259 Limit @ 256 @ bpcert 3|claim infeasible| @ cut 2 rows 0| @ cut 5x
259 Syntax @ 256 @ bpcert 3|claim infeasible| @ cut 2 rows 0| @ cut 
259 Syntax @ 256 @ bpcert 3|claim infeasible| @ cut 2 rows 0| @ cut -
259 Syntax @ 256 @ bpcert 3|claim infeasible| @ cut 2 rows 0| @ cut - 1
259 Syntax @ 256 @ bpcert 3|claim infeasible| @ cut 2 rows 0| @ cut x
259 Syntax @ 256 @ bpcert 3|claim infeasible| @ cut 2 rows 0| @ cut|
259 Syntax @ 256 @ bpcert 3|claim infeasible| @ cut 2 rows 0| @ cuts 1
259 Syntax @ 256 @ bpcert 3|claim infeasible| @ cut 2 rows 0| @ leaf 0 rows
259 Number @ 256 @ bpcert 3|claim infeasible| @ cut 2 rows 0| @ leaf 0 change 1 259 1
# As many cuts as may be, and some cuts.
read @ 256 @ bpcert 3|claim infeasible| @ cut 2 rows 1 2 -1| @ leaf 0 change 2 3 1 258 1 priced 0|end|
read @ bpcert 3|claim bound 3|cut 2 rows 2 1 1 2 -7|cut 1048576 rows 1 3 1048576|split 1 0|leaf 0 change 2 2 1 4 5 priced 0|split 2 2|leaf 1 change 0 priced all|open 1 change 2 2 0 4 -3 priced 1 2|end|
";

/// The tables, with the shape of the programs and how many texts there are.
const TABLES: [(Shape, &str, &str); 3] = [
    (Shape::TwoLinks, CUTS, "50 texts"),
    (Shape::OneRow, ONE_ROW, "5 texts"),
    (Shape::TwoRows, TWO_ROWS, "18 texts"),
];

#[test]
fn lines_of_cuts_have_their_faults(rt: HostRuntime) -> Result<(), Fail> {
    for (shape, table, want) in TABLES {
        check(
            &rt,
            told(rt.alloc(), Reading::Certificate(shape), table),
            want,
        )?;
    }
    Ok(())
}

// Adds a cut: its divisor, and each row with its multiplier.
fn add_cut(alloc: Global, told: &mut String, cut: &Cut) -> Result<(), AllocError> {
    add(told, format!(in alloc; "; {}", cut.q))?;
    for (row, mult) in cut.rows.as_slice() {
        add(told, format!(in alloc; " {row}:{mult}"))?;
    }
    Ok(())
}

// How many cuts there are, and the last two.
fn short(alloc: Global, cuts: &[Cut]) -> Result<String, AllocError> {
    let mut told = format!(in alloc; "{} cuts", cuts.len())?;
    for cut in cuts.iter().skip(cuts.len().saturating_sub(2)) {
        add_cut(alloc, &mut told, cut)?;
    }
    Ok(told)
}

/// The cuts of a certificate with two master rows.
pub fn answer(alloc: Global, text: &[u8]) -> Result<String, AllocError> {
    let frame = frame_of(alloc, Shape::TwoRows)?;
    match read(alloc, &frame, text) {
        Ok(cert) => short(alloc, cert.cuts()),
        Err(_) => String::from_str(alloc, "not read"),
    }
}

/// Cuts, with how many there are and the last two, and texts with them.
const KEPT: &str = "\
256 cuts; 2 1:-1; 2 1:-1 @ 256 @ bpcert 3|claim infeasible| @ cut 2 rows 1 2 -1| @ leaf 0 change 2 3 1 258 1 priced 0|end|
2 cuts; 2 0:1 1:-7; 1048576 2:1048576 @ bpcert 3|claim bound 3|cut 2 rows 2 1 1 2 -7|cut 1048576 rows 1 3 1048576|split 1 0|leaf 0 change 2 2 1 4 5 priced 0|split 2 2|leaf 1 change 0 priced all|open 1 change 2 2 0 4 -3 priced 1 2|end|
";

#[test]
fn cuts_are_kept(rt: HostRuntime) -> Result<(), Fail> {
    check(&rt, told(rt.alloc(), Reading::Cuts, KEPT), "2 texts")
}
