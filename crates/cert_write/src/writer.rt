// The text of a certificate, written in one spelling.
ghost use Rattle.std.specs.Prelude.{◌≡◌, ℕ, ◌++◌, List, [], codes, length, IfOk, OnOk};
ghost use Rattle.std.specs.List.{flat_map};
ghost use Rattle.cert_format.specs.Cert.{Frame};
ghost use Rattle.cert_format.specs.Text.{numeral, signed_numeral, text_of, tokens_of, One, Two};
ghost use Rattle.cert_format.specs.Plain.{pair_text, block_text, coordinate_text, picked_text, tail_text, proof_text, tree_text, point_text, bound_text, claim_text, cut_text, version_text, version_with, head_text, plain_text};
ghost use Rattle.cert_write.specs.Changes.{changing_proof, changing_nodes, last_mults};
ghost use Rattle.cert_write.specs.LineTexts.{split_text, line_text, changing_line, mults_behind};
ghost use Rattle.cert_format.specs.Fault.{IsText, IsCertText};
ghost use Rattle.cert_format.specs.Kept.{kept_cert};
ghost use Rattle.cert_format.specs.Sketch.{tree_of};
ghost use Rattle.cert_format.specs.Preorder.{line_of, node_lines};
ghost use Rattle.bp_theory.specs.Trees.{Tree};
ghost use Rattle.cert_format.specs.Written.{cert_of, certificate};

use crate::differences::differences;
use bp_theory::{Claim, Cut, Picked, Proof};
use cert_format::{Cert, NodeLine, NodeLines, Sketch, SketchLines};
use itoa::Buffer;
use std::alloc::{AllocError, Global};

// A number's digits at the end.
fn put_number(out: &mut Vec<u8>, n: u64) -> Result<(), AllocError>
    ensures { OnOk result (out.new.items ≡ out.old.items ++ numeral n) }
{
    let mut buffer = Buffer::new();
    out.extend_from_slice(buffer.format(n).as_bytes())
}

// The same with a sign.
fn put_signed(out: &mut Vec<u8>, z: &i64) -> Result<(), AllocError>
    ensures { OnOk result (out.new.items ≡ out.old.items ++ signed_numeral z.now) }
{
    let mut buffer = Buffer::new();
    out.extend_from_slice(buffer.format(*z).as_bytes())
}

// A row and its multiplier.
fn put_pair(out: &mut Vec<u8>, pair: &(u32, i64)) -> Result<(), AllocError>
    ensures { OnOk result (out.new.items ≡ out.old.items ++ pair_text pair.now) }
{
    out.extend_from_slice(b" ")?;
    put_number(out, u64::from(pair.0) + 1)?;
    out.extend_from_slice(b" ")?;
    put_signed(out, &pair.1)
}

// A block.
fn put_block(out: &mut Vec<u8>, k: u32) -> Result<(), AllocError>
    ensures { OnOk result (out.new.items ≡ out.old.items ++ block_text k) }
{
    out.extend_from_slice(b" ")?;
    put_number(out, u64::from(k) + 1)
}

// A value of a point.
fn put_coordinate(out: &mut Vec<u8>, z: &i64) -> Result<(), AllocError>
    ensures { OnOk result (out.new.items ≡ out.old.items ++ coordinate_text z.now) }
{
    out.extend_from_slice(b" ")?;
    put_signed(out, z)
}

// Rows and their multipliers.
fn put_pairs(out: &mut Vec<u8>, pairs: &[(u32, i64)]) -> Result<(), AllocError>
    ensures { OnOk result (out.new.items ≡ out.old.items ++ flat_map pair_text pairs.now) }
{
    for pair in pairs {
        put_pair(out, pair)?;
    }
    Ok(())
}

// Blocks.
fn put_blocks(out: &mut Vec<u8>, blocks: &[u32]) -> Result<(), AllocError>
    ensures { OnOk result (out.new.items ≡ out.old.items ++ flat_map block_text blocks.now) }
{
    for k in blocks {
        put_block(out, *k)?;
    }
    Ok(())
}

// The values of a point.
fn put_coordinates(out: &mut Vec<u8>, point: &[i64]) -> Result<(), AllocError>
    ensures { OnOk result (out.new.items ≡ out.old.items ++ flat_map coordinate_text point.now) }
{
    for z in point {
        put_coordinate(out, z)?;
    }
    Ok(())
}

// The priced blocks.
fn put_picked(out: &mut Vec<u8>, picked: &Picked) -> Result<(), AllocError>
    ensures { OnOk result (out.new.items ≡ out.old.items ++ picked_text picked.now) }
{
    match picked {
        Picked::Every => out.extend_from_slice(b"all"),
        Picked::These(blocks) => {
            put_number(out, blocks.len() as u64)?;
            put_blocks(out, blocks.as_slice())
        }
    }
}

// A leaf's multipliers and the blocks that it prices, to the end of its line.
fn put_tail(out: &mut Vec<u8>, pairs: &[(u32, i64)], picked: &Picked) -> Result<(), AllocError>
    ensures { OnOk result (out.new.items ≡ out.old.items ++ tail_text pairs.now picked.now) }
{
    put_number(out, pairs.len() as u64)?;
    put_pairs(out, pairs)?;
    out.extend_from_slice(b" priced ")?;
    put_picked(out, picked)?;
    out.extend_from_slice(b"\n")
}

// A leaf's line behind its first word, with all its multipliers.
fn put_proof(out: &mut Vec<u8>, proof: &Proof) -> Result<(), AllocError>
    ensures { OnOk result (out.new.items ≡ out.old.items ++ proof_text One proof.now) }
{
    put_number(out, u64::from(proof.scale))?;
    out.extend_from_slice(b" rows ")?;
    put_tail(out, proof.mults.as_slice(), &proof.picked)
}

// The same with those multipliers that the leaf before has otherwise.
fn put_changes(
    out: &mut Vec<u8>,
    alloc: Global,
    had: &[(u32, i64)],
    proof: &Proof,
) -> Result<(), AllocError>
    ensures { OnOk result (out.new.items ≡ out.old.items ++
        proof_text Two (changing_proof had.now proof.now)) }
{
    let changes = differences(alloc, had, proof.mults.as_slice())?;
    put_number(out, u64::from(proof.scale))?;
    out.extend_from_slice(b" change ")?;
    put_tail(out, changes.as_slice(), &proof.picked)
}

// A leaf's line of versions 2 and 3 with its first word, behind a leaf that has these multipliers, which become its own.
fn put_changed_leaf(
    out: &mut Vec<u8>,
    alloc: Global,
    word: &[u8],
    had: &mut Vec<(u32, i64)>,
    proof: &Proof,
) -> Result<(), AllocError>
    ensures text { OnOk result (out.new.items ≡ out.old.items ++
        (word.now ++ proof_text Two (changing_proof had.old.items proof.now))) }
    ensures last { OnOk result (had.new.items ≡ proof.now.mults) }
{
    out.extend_from_slice(word)?;
    put_changes(out, alloc, had.as_slice(), proof)?;
    had.clear();
    had.extend_from_slice(proof.mults.as_slice())
}

// A split's line.
fn put_split(out: &mut Vec<u8>, var: u32, at: &i64) -> Result<(), AllocError>
    ensures { OnOk result (out.new.items ≡ out.old.items ++ split_text var at.now) }
{
    out.extend_from_slice(b"split ")?;
    put_number(out, u64::from(var) + 1)?;
    out.extend_from_slice(b" ")?;
    put_signed(out, at)?;
    out.extend_from_slice(b"\n")
}

// A node's line of version 1.
fn put_line(out: &mut Vec<u8>, line: &NodeLine) -> Result<(), AllocError>
    ensures { OnOk result (out.new.items ≡ out.old.items ++ line_text One (line_of line.now)) }
{
    match line {
        NodeLine::Leaf(proof) => {
            out.extend_from_slice(b"leaf ")?;
            put_proof(out, proof)
        }
        NodeLine::Open(proof) => {
            out.extend_from_slice(b"open ")?;
            put_proof(out, proof)
        }
        NodeLine::Split { var, at } => put_split(out, *var, at),
    }
}

// The lines of a tree in version 1.
fn put_lines<L: NodeLines>(out: &mut Vec<u8>, lines: &mut L) -> Result<(), AllocError>
    ensures { OnOk result ((tree : Tree) → L.lines lines.old ≡ node_lines tree →
        out.new.items ≡ out.old.items ++ tree_text One tree) }
{
    while let Some(line) = lines.line() {
        put_line(out, &line)?;
        lines.advance()?;
    }
    Ok(())
}

/// A node's line of versions 2 and 3, behind a leaf that has these multipliers, which become those of a leaf of the line.
pub fn put_changed_line(
    out: &mut Vec<u8>,
    alloc: Global,
    had: &mut Vec<(u32, i64)>,
    line: &NodeLine,
) -> Result<(), AllocError>
    ensures text { OnOk result (out.new.items ≡ out.old.items ++
        line_text Two (changing_line had.old.items (line_of line.now))) }
    ensures last { OnOk result (had.new.items ≡ mults_behind had.old.items (line_of line.now)) }
{
    match line {
        NodeLine::Leaf(proof) => put_changed_leaf(out, alloc, b"leaf ", had, proof),
        NodeLine::Open(proof) => put_changed_leaf(out, alloc, b"open ", had, proof),
        NodeLine::Split { var, at } => put_split(out, *var, at),
    }
}

/// The lines of a tree in versions 2 and 3, behind a leaf that has these multipliers, which become those of the tree's last
/// leaf.
pub fn put_changed_lines<L: NodeLines>(
    out: &mut Vec<u8>,
    alloc: Global,
    lines: &mut L,
    had: &mut Vec<(u32, i64)>,
) -> Result<(), AllocError>
    ensures text { OnOk result ((tree : Tree) → L.lines lines.old ≡ node_lines tree →
        out.new.items ≡ out.old.items ++ tree_text Two (changing_nodes had.old.items tree)) }
    ensures last { OnOk result ((tree : Tree) → L.lines lines.old ≡ node_lines tree →
        had.new.items ≡ last_mults tree) }
{
    while let Some(line) = lines.line() {
        put_changed_line(out, alloc, had, &line)?;
        lines.advance()?;
    }
    Ok(())
}

// The line of a point.
fn put_point(out: &mut Vec<u8>, point: &[i64]) -> Result<(), AllocError>
    ensures { OnOk result (out.new.items ≡ out.old.items ++ point_text point.now) }
{
    out.extend_from_slice(b"point")?;
    put_coordinates(out, point)?;
    out.extend_from_slice(b"\n")
}

// The line of a claimed bound behind its words, and that of its point.
fn put_bound(
    out: &mut Vec<u8>,
    bound: &i64,
    value: &Option<i64>,
    point: &[i64],
) -> Result<(), AllocError>
    ensures { OnOk result (out.new.items ≡ out.old.items ++ bound_text bound.now value.now
        point.now) }
{
    put_signed(out, bound)?;
    match value {
        None => out.extend_from_slice(b"\n"),
        Some(value) => {
            out.extend_from_slice(b" value ")?;
            put_signed(out, value)?;
            out.extend_from_slice(b"\n")?;
            put_point(out, point)
        }
    }
}

/// The line of a claim, and that of its point.
pub fn put_claim(out: &mut Vec<u8>, claim: &Claim, point: &[i64]) -> Result<(), AllocError>
    ensures { OnOk result (out.new.items ≡ out.old.items ++ claim_text claim.now point.now) }
{
    match claim {
        Claim::Optimal(value) => {
            out.extend_from_slice(b"claim optimal ")?;
            put_signed(out, value)?;
            out.extend_from_slice(b"\n")?;
            put_point(out, point)
        }
        Claim::Infeasible => out.extend_from_slice(b"claim infeasible\n"),
        Claim::Bound(bound, value) => {
            out.extend_from_slice(b"claim bound ")?;
            put_bound(out, bound, value, point)
        }
    }
}

// A cut's line.
fn put_cut(out: &mut Vec<u8>, cut: &Cut) -> Result<(), AllocError>
    ensures { OnOk result (out.new.items ≡ out.old.items ++ cut_text cut.now) }
{
    out.extend_from_slice(b"cut ")?;
    put_number(out, u64::from(cut.q))?;
    out.extend_from_slice(b" rows ")?;
    put_number(out, cut.rows.len() as u64)?;
    put_pairs(out, cut.rows.as_slice())?;
    out.extend_from_slice(b"\n")
}

// The lines of cuts.
fn put_cuts(out: &mut Vec<u8>, cuts: &[Cut]) -> Result<(), AllocError>
    ensures { OnOk result (out.new.items ≡ out.old.items ++ flat_map cut_text cuts.now) }
{
    for cut in cuts {
        put_cut(out, cut)?;
    }
    Ok(())
}

// The first line of a certificate with these cuts: its leaves have changes, in version 2 where it has no cuts, else in
// version 3.
fn put_first(out: &mut Vec<u8>, cuts: &[Cut]) -> Result<(), AllocError>
    ensures { OnOk result (out.new.items ≡ out.old.items ++ version_text (version_with cuts.now)) }
{
    match cuts {
        [] => out.extend_from_slice(b"bpcert 2\n"),
        [_, ..] => out.extend_from_slice(b"bpcert 3\n"),
    }
}

/// The lines in front of a tree whose leaves have changes: the first line, of version 3 exactly where there are cuts and
/// else of version 2, those of the claim and its point, and those of the cuts.
pub fn put_head(
    out: &mut Vec<u8>,
    claim: &Claim,
    point: &[i64],
    cuts: &[Cut],
) -> Result<(), AllocError>
    ensures { OnOk result (out.new.items ≡ out.old.items ++
        head_text (version_with cuts.now) claim.now point.now cuts.now) }
{
    put_first(out, cuts)?;
    put_claim(out, claim, point)?;
    put_cuts(out, cuts)
}

// The text of a certificate without cuts.
fn put_cert(
    out: &mut Vec<u8>,
    alloc: Global,
    claim: &Claim,
    point: &[i64],
    tree: &Sketch,
) -> Result<(), AllocError>
    ensures { OnOk result (out.new.items ≡ out.old.items ++ plain_text One claim.now point.now []
        (tree_of tree.now)) }
{
    out.extend_from_slice(b"bpcert 1\n")?;
    put_claim(out, claim, point)?;
    put_lines(out, &mut SketchLines::new(alloc, tree))?;
    out.extend_from_slice(b"end\n")
}

// The text of a certificate whose leaves have changes.
#[tactic(auto, using(crate::proofs::CutTexts::whole_text))]
fn put_changed_cert(
    out: &mut Vec<u8>,
    alloc: Global,
    claim: &Claim,
    point: &[i64],
    cuts: &[Cut],
    tree: &Sketch,
) -> Result<(), AllocError>
    ensures { OnOk result (out.new.items ≡ out.old.items ++
        plain_text (version_with cuts.now) claim.now point.now cuts.now
        (changing_nodes [] (tree_of tree.now))) }
{
    put_head(out, claim, point, cuts)?;
    let mut had = Vec::new(alloc);
    put_changed_lines(out, alloc, &mut SketchLines::new(alloc, tree), &mut had)?;
    out.extend_from_slice(b"end\n")
}

/// The text of version 1 of the certificate of a claim and a tree, without cuts and with a point exactly where the claim
/// names a value.
pub fn write(
    alloc: Global,
    claim: &Claim,
    point: &[i64],
    tree: &Sketch,
) -> Result<Vec<u8>, AllocError>
    ensures { IfOk result (λ text. (frame : Frame) →
        text.items ≡ text_of (tokens_of frame One
        (cert_of (certificate claim.now point.now [] (tree_of tree.now))))) }
{
    let mut out = Vec::new(alloc);
    put_cert(&mut out, alloc, claim, point, tree)?;
    Ok(out)
}

/// The text of a certificate that some text was read of: in version 3 where it has cuts, else in version 2.
pub fn rewrite(alloc: Global, cert: &Cert) -> Result<Vec<u8>, AllocError>
    ensures { IfOk result (λ text. (frame : Frame) (old : List ℕ) →
        IsCertText frame (kept_cert cert.now) old →
        IsText frame (version_with cert.now.cuts) (kept_cert cert.now) text.items) }
{
    let mut out = Vec::new(alloc);
    put_changed_cert(
        &mut out,
        alloc,
        &cert.claim,
        cert.point.as_slice(),
        cert.cuts.as_slice(),
        &cert.tree,
    )?;
    Ok(out)
}
