// The judgement of a whole certificate.
ghost use Rattle.std.specs.Prelude.{◌≡◌, [], ◌+◌, ◌<◌, ◌^◌, length, IfOk, None, Ok};
ghost use Rattle.bp_theory.specs.Judgement.{named_value, point_lines, tree_lines, blocking_with};
ghost use Rattle.cert_format.specs.Kept.{certificate_of};
ghost use Rattle.cert_text.specs.Programs.{GoesWith, IsSmallClaim};
ghost use Rattle.round_cut.specs.Several.{AreRowsOfCuts};
ghost use Rattle.cert_line_check.specs.Judging.{JudgesLines, JudgesPoint, ProofsFit};
ghost use Rattle.cert_check.specs.Judging.{stopped_at, verdict_of, IsJudgedWithin, IsTrueIfAccepted};
ghost use Rattle.cert_check.specs.declared.judge.Judged.TheVariants.{Rejected};

use block_program::{Blocked, Zone};
use bp_theory::{CheckKind, Claim, Row};
use cert_line_check::{NodePlace, Rejection, Stop, judge_cuts, judge_point, judge_tree};
use cert_text::Cert;
use round_cut::with_cuts;
use std::alloc::{AllocError, Global};

/// What a certificate is judged to be: its claim is accepted, or a line is the first at fault; or, where visits are counted, a
/// leaf's line asks for more than are left before any line is at fault.
#[derive(Clone, Copy)]
pub enum Judged {
    /// What the certificate claims, which is true of the program.
    Accepted(Claim),
    /// The first line at fault, from 1, and what is wrong with it.
    Rejected { line: u64, kind: CheckKind },
    /// The line, from 1, of the leaf that asks for more visits than are left.
    Unknown { line: u64 },
}

/// Judges a certificate that was read for a program in blocks without cuts: accepts it exactly where it is valid, and else
/// gives its first line at fault. An accepted claim is true of the program. Each bound is computed anew, over the program
/// with the certificate's cuts: blocks that a leaf picks are priced, once for each class of its zone. Where a number of
/// visits is given, each leaf takes from it the beginnings of assignments that searches for its picked blocks may look at;
/// the first leaf that asks for more than are left isn't priced, and is unknown unless a sign in it doesn't fit.
pub fn check(
    alloc: Global,
    b: &Blocked,
    cert: &Cert,
    visits: Option<u64>,
) -> Result<Judged, AllocError>
    requires uncut { b.now.cuts ≡ [] }
    requires goes_with { GoesWith b.now (certificate_of cert.now) }
    ensures judged { IfOk result (IsJudgedWithin b.now (certificate_of cert.now) visits) }
    ensures truth { IfOk result (IsTrueIfAccepted b.now.named.program) }
{
    // For the proof alone: `b` is formed.
    let _model = b.model();
    match judge_point(b, cert) {
        Err(found) => Ok(rejected(&found)),
        Ok(line) => judge_behind(alloc, b, cert, line, visits),
    }
}

// Judges a certificate whose point's line passes, where it has one, from the line of the first cut on.
fn judge_behind(
    alloc: Global,
    b: &Blocked,
    cert: &Cert,
    line: u64,
    left: Option<u64>,
) -> Result<Judged, AllocError>
    requires uncut { b.now.cuts ≡ [] }
    requires goes_with { GoesWith b.now (certificate_of cert.now) }
    requires point { JudgesPoint b.now.named.program b.now.blocking (certificate_of cert.now).claim
        (point_lines (named_value (certificate_of cert.now).claim) (certificate_of cert.now).point)
        (Ok line) }
    ensures judged { IfOk result (IsJudgedWithin b.now (certificate_of cert.now) left) }
    ensures truth { IfOk result (IsTrueIfAccepted b.now.named.program) }
{
    // For the proof alone: `b` is formed.
    let _model = b.model();
    match judge_cuts(alloc, b, cert.cuts(), line)? {
        Err(found) => Ok(rejected(&found)),
        Ok(rows) => judge_nodes(alloc, b, cert, rows.as_slice(), line, left),
    }
}

// Judges a certificate whose lines in front of the tree pass; these are the rows of its cuts, and the number is that of the
// first cut's line.
fn judge_nodes(
    alloc: Global,
    b: &Blocked,
    cert: &Cert,
    rows: &[Row],
    line: u64,
    left: Option<u64>,
) -> Result<Judged, AllocError>
    requires uncut { b.now.cuts ≡ [] }
    requires goes_with { GoesWith b.now (certificate_of cert.now) }
    requires point { JudgesPoint b.now.named.program b.now.blocking (certificate_of cert.now).claim
        (point_lines (named_value (certificate_of cert.now).claim) (certificate_of cert.now).point)
        (Ok line) }
    requires rows { AreRowsOfCuts b.now.named.program b.now.dec (certificate_of cert.now).cuts
        rows.now }
    ensures judged { IfOk result (IsJudgedWithin b.now (certificate_of cert.now) left) }
    ensures truth { IfOk result (IsTrueIfAccepted b.now.named.program) }
{
    let claim = cert.claim();
    // For the proof alone: `b` is formed.
    let _model = b.model();
    let root = line + rows.len() as u64;
    let found = judge_over(alloc, b, cert, rows, root, left)?;
    Ok(verdict(&claim, &found))
}

// Judges the lines of a certificate's tree over the program with its cuts, of which these are the rows.
fn judge_over(
    alloc: Global,
    b: &Blocked,
    cert: &Cert,
    rows: &[Row],
    line: u64,
    left: Option<u64>,
) -> Result<Result<NodePlace, Stop>, AllocError>
    requires uncut { b.now.cuts ≡ [] }
    requires goes_with { GoesWith b.now (certificate_of cert.now) }
    requires rows { AreRowsOfCuts b.now.named.program b.now.dec (certificate_of cert.now).cuts
        rows.now }
    requires few { line + length (tree_lines (certificate_of cert.now).tree
        b.now.named.program.spans) < 2 ^ 64 }
    ensures { IfOk result (JudgesLines b.now.named.program (blocking_with b.now.named.program
        b.now.dec (certificate_of cert.now)) (certificate_of cert.now).claim
        (tree_lines (certificate_of cert.now).tree b.now.named.program.spans)
        (record { zone = b.now.named.program.spans; line = line; left = left })) }
{
    // For the proof alone: `b` is formed.
    let _model = b.model();
    if rows.is_empty() {
        return judge_root(alloc, b, cert, line, left);
    }
    let Ok(other) = with_cuts(alloc, b, cert.cuts()) else {
        // The lines of the cuts pass, so that memory is what can be wanting.
        return Err(AllocError);
    };
    judge_root(alloc, &other, cert, line, left)
}

// Judges the lines of a certificate's tree over a program.
fn judge_root(
    alloc: Global,
    b: &Blocked,
    cert: &Cert,
    line: u64,
    left: Option<u64>,
) -> Result<Result<NodePlace, Stop>, AllocError>
    requires claim { IsSmallClaim (certificate_of cert.now).claim }
    requires fits { ProofsFit b.now.blocking (certificate_of cert.now).tree }
    requires few { line + length (tree_lines (certificate_of cert.now).tree
        b.now.named.program.spans) < 2 ^ 64 }
    ensures { IfOk result (JudgesLines b.now.named.program b.now.blocking (certificate_of
        cert.now).claim (tree_lines (certificate_of cert.now).tree b.now.named.program.spans)
        (record { zone = b.now.named.program.spans; line = line; left = left })) }
{
    let claim = cert.claim();
    let zone = Zone::root(alloc, b)?;
    let mut work = None;
    let root = NodePlace { zone, line, left };
    judge_tree(alloc, b, &claim, &mut work, root, cert.tree())
}

// What a certificate is judged to be by its tree's lines.
fn verdict(claim: &Claim, found: &Result<NodePlace, Stop>) -> Judged
    ensures { result ≡ verdict_of claim.now found.now }
{
    match found {
        Err(found) => stopped(found),
        Ok(_) => Judged::Accepted(*claim),
    }
}

// A certificate is rejected for a line.
fn rejected(found: &Rejection) -> Judged
    ensures { result ≡ Rejected found.now.line found.now.kind }
{
    Judged::Rejected {
        line: found.line,
        kind: found.kind,
    }
}

// What it is judged to be by the line that ends a walk.
fn stopped(found: &Stop) -> Judged
    ensures { result ≡ stopped_at found.now.line found.now.fault }
{
    let line = found.line;
    match found.fault {
        Some(kind) => Judged::Rejected { line, kind },
        None => Judged::Unknown { line },
    }
}
