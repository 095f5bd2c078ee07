// What texts of certificates read as, and what certificates are written as.
use crate::tables::{Reading, check, check_none, is_wanted, told};
use bp_theory::{Claim, Items, Limits, Picked, Proof};
use cert_text::{Cert, CertFault, Frame, Sketch, read, rewrite, write};
use std::alloc::{AllocError, Global};
use std::test::Fail;

// A claim, the point of its value, and one leaf.
const ONE_LEAF: &str =
    "bpcert 1\nclaim optimal 8\npoint 2 1\nleaf 5 rows 2 1 -7 2 -1 priced 0\nend\n";

/// Programs that certificates are of.
#[derive(Clone, Copy)]
pub enum Shape {
    /// Two variables, two blocks, and two master rows.
    TwoRows,
    /// Three variables, two blocks with a row each, a master row between these rows, and two link rows.
    TwoLinks,
    /// One variable, one master row, and no block.
    OneRow,
}

/// What a certificate of a program of some shape has to keep to.
pub fn frame_of(alloc: Global, shape: Shape) -> Result<Frame, AllocError> {
    let (variables, masters, links, blocks): (u32, &[bool], u32, u32) = match shape {
        Shape::TwoRows => (2, &[true, true], 0, 2),
        Shape::TwoLinks => (3, &[false, true, false], 2, 2),
        Shape::OneRow => (1, &[true], 0, 0),
    };
    Ok(Frame {
        variables,
        masters: Items::from_vec(masters.to_vec(alloc)?),
        links,
        blocks,
        limits: Limits::Usual,
    })
}

// Whether what is written is a text.
fn is_text(written: Result<Vec<u8>, AllocError>, text: &[u8]) -> bool {
    match written {
        Ok(bytes) => bytes.as_slice() == text,
        Err(_) => false,
    }
}

// The point of a certificate, empty where it has none.
fn point_of(cert: &Cert) -> &[i64] {
    match cert.point() {
        Some(point) => point,
        None => &[],
    }
}

// Whether a certificate's text of version 1 is this.
fn is_first(alloc: Global, cert: &Cert, text: &[u8]) -> bool {
    let claim = cert.claim();
    is_text(write(alloc, &claim, point_of(cert), cert.tree()), text)
}

// Whether a certificate's text of version 2, or with cuts of version 3, is this.
fn is_latest(alloc: Global, cert: &Cert, text: &[u8]) -> bool {
    is_text(rewrite(alloc, cert), text)
}

// What is said of a certificate that is read of a text: whether it is written as that text again.
fn kept(alloc: Global, cert: &Cert, text: &[u8]) -> &'static str {
    if is_first(alloc, cert, text) || is_latest(alloc, cert, text) {
        "read"
    } else {
        "read otherwise"
    }
}

// What is said of a text where certificates keep to a frame.
fn said_in(alloc: Global, frame: &Frame, text: &[u8]) -> Result<String, AllocError> {
    match read(alloc, frame, text) {
        Ok(cert) => String::from_str(alloc, kept(alloc, &cert, text)),
        Err(CertFault::At { line, kind }) => format!(in alloc; "{line} {kind:?}"),
        Err(CertFault::NoMemory) => Err(AllocError),
    }
}

/// What is said of a text: that it is read and written again, or the line and the kind of its first fault.
pub fn said(alloc: Global, shape: Shape, text: &[u8]) -> Result<String, AllocError> {
    let frame = frame_of(alloc, shape)?;
    said_in(alloc, &frame, text)
}

/// What is said of texts with two master rows: lines of the tables.
const TWO_ROWS: &str = "\
# Texts that are read and written again.
read @ bpcert 1|claim infeasible|split 1 0|split 2 2|leaf 0 rows 1 1 1 priced 0|leaf 0 rows 1 1 -1 priced 0|open 3 rows 0 priced 2 1 2|end|
read @ bpcert 1|claim bound -4611686018427387903 value 0|point 4611686018427387903 -1|open 0 rows 0 priced all|end|
read @ bpcert 1|claim optimal 8|point 2 1|leaf 5 rows 2 1 -7 2 -1 priced 0|end|
read @ 2000 @ bpcert 1|claim infeasible| @ split 1 0| @ 2001 @  @ open 0 rows 0 priced 0| @ end|
# The first fault of leaves.
4 Number @ bpcert 1|claim optimal 8|point 2 1|leaf 5 rows 2 2 -1 1 -7 priced 0|end|
4 TooLarge @ bpcert 1|claim optimal 8|point 2 1|leaf 1048577x
4 Syntax @ bpcert 1|claim optimal 8|point 2 1|leaf 05 rows 2 1 -7 2 -1 priced 0|end|
5 Syntax @ bpcert 1|claim optimal 8|point 2 1|leaf 5 rows 2 1 -7 2 -1 priced 0|
4 Syntax @ bpcert 1|claim optimal 8|point 2 1|leaf 5 rows 99999999999999999999 1 -7 2 -1 priced 0|end|
4 Syntax @ bpcert 1|claim optimal 8|point 2 1|leaf 5 rows 1 1 -0 priced 0|end|
6 Syntax @ bpcert 1|claim optimal 8|point 2 1|leaf 5 rows 0 priced 0|end|x
# The first fault of numbers, points and trees.
2 TooLarge @ 5000 @ bpcert 1|claim optimal  @ 9 @ |
3 Length @ 1 @ bpcert 1|claim optimal 8|point @  1 @ |
8260 Depth @ 8257 @ bpcert 1|claim infeasible| @ split 1 0| @ leaf 0 rows 0 priced 0|
# On a line that is too deep the depth stands before every other fault of its numbers.
8260 Depth @ 8257 @ bpcert 1|claim infeasible| @ split 1 0| @ leaf 05 rows
8260 Depth @ 8257 @ bpcert 1|claim infeasible| @ split 1 0| @ leaf -1
8260 Depth @ 8257 @ bpcert 1|claim infeasible| @ split 1 0| @ split 01 0
8260 Depth @ 8257 @ bpcert 1|claim infeasible| @ split 1 0| @ open -1
8260 Depth @ 8257 @ bpcert 1|claim infeasible| @ split 1 0| @ leaf 1048577
8260 Depth @ 8257 @ bpcert 1|claim infeasible| @ split 1 0| @ split 3 0
8260 Depth @ 8257 @ bpcert 1|claim infeasible| @ split 1 0| @ leaf -0
8260 Depth @ 8257 @ bpcert 1|claim infeasible| @ split 1 0| @ leaf 5x
8260 Syntax @ 8257 @ bpcert 1|claim infeasible| @ split 1 0| @ leaf 
8260 Syntax @ 8257 @ bpcert 1|claim infeasible| @ split 1 0| @ leaf -
8260 Syntax @ 8257 @ bpcert 1|claim infeasible| @ split 1 0| @ leaf - 1
8260 Syntax @ 8257 @ bpcert 1|claim infeasible| @ split 1 0| @ leaf x
8260 Syntax @ 8257 @ bpcert 1|claim infeasible| @ split 1 0| @ leaf|
8260 Syntax @ 8257 @ bpcert 1|claim infeasible| @ split 1 0| @ split  1 0
8260 Syntax @ 8257 @ bpcert 1|claim infeasible| @ split 1 0| @ leave 1
# Each line has its faults.
4 TooLarge @ bpcert 1|claim optimal 8|point 2 1|leaf 1048577 rows 0 priced 0|leaf 0 rows 0 priced 0|leaf 0 rows 0 priced 0|end|
4 Syntax @ bpcert 1|claim optimal 8|point 2 1|leaf 007 rows 0 priced 0|leaf 0 rows 0 priced 0|leaf 0 rows 0 priced 0|end|
4 Syntax @ bpcert 1|claim optimal 8|point 2 1|leaf -1 rows 0 priced 0|leaf 0 rows 0 priced 0|leaf 0 rows 0 priced 0|end|
4 Number @ bpcert 1|claim optimal 8|point 2 1|leaf 1 rows 1 3 1 priced 0|leaf 0 rows 0 priced 0|leaf 0 rows 0 priced 0|end|
4 Number @ bpcert 1|claim optimal 8|point 2 1|leaf 1 rows 1 0 1 priced 0|leaf 0 rows 0 priced 0|leaf 0 rows 0 priced 0|end|
4 Number @ bpcert 1|claim optimal 8|point 2 1|leaf 1 rows 1 1 0 priced 0|leaf 0 rows 0 priced 0|leaf 0 rows 0 priced 0|end|
4 TooLarge @ bpcert 1|claim optimal 8|point 2 1|leaf 1 rows 1 1 -1099511627777 priced 0|leaf 0 rows 0 priced 0|leaf 0 rows 0 priced 0|end|
4 Number @ bpcert 1|claim optimal 8|point 2 1|leaf 1 rows 0 priced 1 3|leaf 0 rows 0 priced 0|leaf 0 rows 0 priced 0|end|
4 Number @ bpcert 1|claim optimal 8|point 2 1|leaf 1 rows 0 priced 2 2 2|leaf 0 rows 0 priced 0|leaf 0 rows 0 priced 0|end|
4 Syntax @ bpcert 1|claim optimal 8|point 2 1|leaf 1 rows 1 priced 0|leaf 0 rows 0 priced 0|leaf 0 rows 0 priced 0|end|
4 Number @ bpcert 1|claim optimal 8|point 2 1|split 3 0|leaf 0 rows 0 priced 0|leaf 0 rows 0 priced 0|end|
4 Number @ bpcert 1|claim optimal 8|point 2 1|split 0 0|leaf 0 rows 0 priced 0|leaf 0 rows 0 priced 0|end|
4 Syntax @ bpcert 1|claim optimal 8|point 2 1|split -1 0|leaf 0 rows 0 priced 0|leaf 0 rows 0 priced 0|end|
4 TooLarge @ bpcert 1|claim optimal 8|point 2 1|split 1 4611686018427387904|leaf 0 rows 0 priced 0|leaf 0 rows 0 priced 0|end|
4 Syntax @ bpcert 1|claim optimal 8|point 2 1|split 1|leaf 0 rows 0 priced 0|leaf 0 rows 0 priced 0|end|
4 Syntax @ bpcert 1|claim optimal 8|point 2 1|fork 1 0|leaf 0 rows 0 priced 0|leaf 0 rows 0 priced 0|end|
1 Syntax @ bpcert 4|
2 Syntax @ bpcert 1|claim best 8|
2 TooLarge @ bpcert 1|claim bound -4611686018427387904|
3 Length @ bpcert 1|claim optimal 8|point|
3 Syntax @ bpcert 1|claim optimal 8|point 1 |
3 Syntax @ bpcert 1|claim optimal 8|point 1
3 Length @ bpcert 1|claim optimal 8|point 1 2 3|
3 TooLarge @ bpcert 1|claim optimal 8|point 4611686018427387904 1|
read @ bpcert 1|claim optimal 8|point 2 1|split 1 0|leaf 0 rows 0 priced 0|leaf 0 rows 0 priced 0|end|
# Texts at fault in their version or their changes.
2 Syntax @ bpcert 3|
1 Syntax @ bpcert 12|
3 Syntax @ bpcert 2|claim infeasible|leaf 0 rows 0 priced 0|end|
3 Syntax @ bpcert 1|claim infeasible|leaf 0 change 0 priced 0|end|
3 Number @ bpcert 2|claim infeasible|leaf 0 change 1 1 0 priced 0|end|
5 Number @ bpcert 2|claim infeasible|split 1 0|leaf 0 change 1 1 -1 priced 0|leaf 0 change 1 1 -1 priced 0|end|
5 Number @ bpcert 2|claim infeasible|split 1 0|leaf 0 change 1 1 -1 priced 0|leaf 0 change 2 2 -1 1 3 priced 0|end|
3 TooLarge @ bpcert 2|claim infeasible|leaf 0 change 1 1 1099511627777 priced 0|end|
";

#[test]
fn texts_are_read_and_written_again_or_have_their_first_fault(rt: HostRuntime) -> Result<(), Fail> {
    check(
        &rt,
        told(rt.alloc(), Reading::Certificate(Shape::TwoRows), TWO_ROWS),
        "62 texts",
    )
}

// The same where there are link rows: they are rows 4 and 5.
const LINKED: &str = "\
read @ bpcert 1|claim infeasible|leaf 0 rows 3 2 -1 4 1 5 -7 priced all|end|
read @ bpcert 2|claim infeasible|split 1 0|leaf 0 change 1 4 1 priced all|leaf 0 change 2 4 0 5 1 priced all|end|
3 Number @ bpcert 1|claim infeasible|leaf 0 rows 1 1 1 priced all|end|
3 Number @ bpcert 1|claim infeasible|leaf 0 rows 1 3 1 priced all|end|
3 Number @ bpcert 1|claim infeasible|leaf 0 rows 1 6 1 priced all|end|
3 Number @ bpcert 1|claim infeasible|leaf 0 rows 2 5 1 4 1 priced all|end|
3 Number @ bpcert 1|claim infeasible|leaf 0 rows 1 4 0 priced all|end|
3 TooLarge @ bpcert 1|claim infeasible|leaf 0 rows 1 5 1099511627777 priced all|end|
3 Number @ bpcert 1|claim infeasible|leaf 0 rows 1 99999999999999999999 1 priced all|end|
4 Number @ bpcert 2|claim infeasible|split 1 0|leaf 0 change 1 3 1 priced all|leaf 0 change 0 priced all|end|
5 Number @ bpcert 2|claim infeasible|split 1 0|leaf 0 change 1 4 1 priced all|leaf 0 change 1 4 1 priced all|end|
";

#[test]
fn link_rows_are_named_behind_the_models_rows(rt: HostRuntime) -> Result<(), Fail> {
    check(
        &rt,
        told(rt.alloc(), Reading::Certificate(Shape::TwoLinks), LINKED),
        "11 texts",
    )
}

// A tree whose leaves all have a depth.
fn full(alloc: Global, depth: u8) -> Result<Sketch, AllocError> {
    if depth == 0 {
        return Ok(Sketch::Leaf(Proof {
            scale: 5,
            mults: Items::from_vec([(0, -7), (1, 12)].to_vec(alloc)?),
            picked: Picked::Every,
        }));
    }
    let low = Box::new(alloc, full(alloc, depth - 1)?)?;
    let high = Box::new(alloc, full(alloc, depth - 1)?)?;
    Ok(Sketch::Fork {
        var: 1,
        at: -3,
        low,
        high,
    })
}

// The text of a full tree.
fn full_text(alloc: Global) -> Result<Vec<u8>, AllocError> {
    let tree = full(alloc, 12)?;
    write(alloc, &Claim::Infeasible, &[], &tree)
}

// What is said of it.
fn full_said(alloc: Global) -> Result<String, AllocError> {
    let text = full_text(alloc)?;
    said(alloc, Shape::TwoRows, text.as_slice())
}

#[test]
fn a_full_tree_is_written_and_read(rt: HostRuntime) -> Result<(), Fail> {
    check(&rt, full_said(rt.alloc()), "read")
}

// Whether a text is at fault for its syntax on a line.
fn is_syntax(alloc: Global, text: &[u8], line: u64) -> Result<bool, AllocError> {
    let want = format!(in alloc; "{line} Syntax")?;
    Ok(is_wanted(said(alloc, Shape::TwoRows, text), want.as_str()))
}

// How many beginnings of a text are not at fault for their syntax on their last line.
fn other_beginnings(alloc: Global, text: &[u8]) -> Result<u32, AllocError> {
    let mut others = 0u32;
    let mut line = 1u64;
    for i in 0..text.len() {
        if !is_syntax(alloc, &text[..i], line)? {
            others = others.saturating_add(1);
        }
        if text[i] == b'\n' {
            line = line.saturating_add(1);
        }
    }
    Ok(others)
}

#[test]
fn a_text_cut_off_is_at_fault_on_its_last_line(rt: HostRuntime) -> Result<(), Fail> {
    check_none(&rt, other_beginnings(rt.alloc(), ONE_LEAF.as_bytes()))
}

// Texts of version 1, and those of version 2 that mean the same.
const BOTH: [(&str, &str); 3] = [
    (
        ONE_LEAF,
        "bpcert 2\nclaim optimal 8\npoint 2 1\nleaf 5 change 2 1 -7 2 -1 priced 0\nend\n",
    ),
    (
        "bpcert 1\nclaim bound 3\nsplit 1 0\nleaf 0 rows 1 2 1 priced 0\nsplit 2 2\nleaf 1 rows 1 1 4 priced all\nopen 1 rows 2 1 5 2 -3 priced 1 2\nend\n",
        "bpcert 2\nclaim bound 3\nsplit 1 0\nleaf 0 change 1 2 1 priced 0\nsplit 2 2\nleaf 1 change 2 1 4 2 0 priced all\nopen 1 change 2 1 5 2 -3 priced 1 2\nend\n",
    ),
    (
        "bpcert 1\nclaim bound 3\nsplit 1 0\nleaf 0 rows 2 1 1 2 1 priced 0\nsplit 2 2\nleaf 1 rows 2 1 1 2 1 priced all\nopen 1 rows 0 priced 1 2\nend\n",
        "bpcert 2\nclaim bound 3\nsplit 1 0\nleaf 0 change 2 1 1 2 1 priced 0\nsplit 2 2\nleaf 1 change 0 priced all\nopen 1 change 2 1 0 2 0 priced 1 2\nend\n",
    ),
];

// Whether a text is read as a certificate with these texts of versions 1 and 2.
fn has_texts(alloc: Global, frame: &Frame, text: &str, both: &(&str, &str)) -> bool {
    match read(alloc, frame, text.as_bytes()) {
        Ok(cert) => {
            is_first(alloc, &cert, both.0.as_bytes()) && is_latest(alloc, &cert, both.1.as_bytes())
        }
        Err(_) => false,
    }
}

// How many pairs there are of which a text is read otherwise.
fn other_changes(alloc: Global) -> Result<u32, AllocError> {
    let frame = frame_of(alloc, Shape::TwoRows)?;
    let mut others = 0u32;
    for both in &BOTH {
        if !has_texts(alloc, &frame, both.0, both) || !has_texts(alloc, &frame, both.1, both) {
            others = others.saturating_add(1);
        }
    }
    Ok(others)
}

#[test]
fn reads_and_writes_changes_between_leaves(rt: HostRuntime) -> Result<(), Fail> {
    check_none(&rt, other_changes(rt.alloc()))
}
