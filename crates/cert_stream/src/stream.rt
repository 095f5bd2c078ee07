// A certificate that is written line by line.
ghost use Rattle.std.specs.Prelude.{◌≡◌, ℕ, List, [], codes, unwrap_or, IsTrue, Some};
ghost use Rattle.cert_format.specs.Fault.{IsCertText};
ghost use Rattle.cert_format.specs.Kept.{certificate_of, kept_cert};
ghost use Rattle.cert_text.specs.Outcomes.{IsWritable};
ghost use Rattle.cert_text.specs.Programs.{frame_for};
ghost use Rattle.cert_file.specs.Appends.{Appends, CountsStop};
ghost use Rattle.cert_stream.specs.Streams.{Rewrites, Streams};

use block_program::Blocked;
use bp_shelf::Shelf;
use branch_tree::Outcome;
use cert_file::{StreamStop, put_heads, put_line, put_nodes};
use cert_text::{Cert, SketchLines, TreeLines, outcome_claim, outcome_grove, outcome_point};
use std::alloc::Global;

/// Writes the certificate of a search's outcome, with the cuts of the program, into a named file: the lines in front of the
/// tree at once, then each further line by itself. After Ok the file holds the bytes of `cert_text::write_cert`.
pub fn write_stream<F: Shelf>(
    alloc: Global,
    b: &Blocked,
    outcome: &Outcome,
    shelf: &mut F,
    name: &str,
) -> Result<(), StreamStop>
    requires { IsWritable b.now outcome.now }
    ensures files { IsTrue (F.tells shelf.old) → Streams b.now outcome.now name.now (F.file shelf.old) (F.file shelf.new) result }
    ensures told { F.tells shelf.new ≡ F.tells shelf.old }
    ensures cause { CountsStop (F.write_faults shelf.old) (F.write_faults shelf.new) result }
    ensures reads { F.read_faults shelf.new ≡ F.read_faults shelf.old }
{
    let mut lines = match TreeLines::new(alloc, outcome_grove(outcome).tree()) {
        Err(_) => return Err(StreamStop::NoMemory),
        Ok(lines) => lines,
    };
    let claim = outcome_claim(b.model().maximises(), outcome);
    match put_heads(alloc, shelf, name, &claim, outcome_point(outcome), b.cuts()) {
        Err(stop) => return Err(stop),
        Ok(()) => {}
    }
    let mut had = Vec::new(alloc);
    match put_nodes(alloc, shelf, name, &mut lines, &mut had) {
        Err(stop) => return Err(stop),
        Ok(()) => {}
    }
    put_end(shelf, name)
}

/// Writes a certificate that some text was read of, for a program in blocks, into a named file, in version 3 where it has
/// cuts and else in version 2: the lines in front of the tree at once, then each further line by itself. After Ok the file
/// holds the bytes of `cert_text::rewrite`.
pub fn rewrite_stream<F: Shelf>(
    alloc: Global,
    _b: &Blocked,
    cert: &Cert,
    shelf: &mut F,
    name: &str,
) -> Result<(), StreamStop>
    ensures files { IsTrue (F.tells shelf.old) → (old : List ℕ) → IsCertText (frame_for _b.now) (kept_cert cert.now) old → Rewrites (frame_for _b.now) cert.now name.now (F.file shelf.old) (F.file shelf.new) result }
    ensures told { F.tells shelf.new ≡ F.tells shelf.old }
    ensures cause { CountsStop (F.write_faults shelf.old) (F.write_faults shelf.new) result }
    ensures reads { F.read_faults shelf.new ≡ F.read_faults shelf.old }
{
    let claim = cert.claim();
    match put_heads(alloc, shelf, name, &claim, named_point(cert), cert.cuts()) {
        Err(stop) => return Err(stop),
        Ok(()) => {}
    }
    let mut lines = SketchLines::new(alloc, cert.tree());
    let mut had = Vec::new(alloc);
    match put_nodes(alloc, shelf, name, &mut lines, &mut had) {
        Err(stop) => return Err(stop),
        Ok(()) => {}
    }
    put_end(shelf, name)
}

// The point of a certificate; none has no values.
fn named_point(cert: &Cert) -> &[i64]
    ensures { result.now ≡ unwrap_or (certificate_of cert.now).point [] }
{
    match cert.point() {
        None => &[],
        Some(point) => point,
    }
}

// The last line.
fn put_end<F: Shelf>(shelf: &mut F, name: &str) -> Result<(), StreamStop>
    ensures files { IsTrue (F.tells shelf.old) → Appends name.now (codes "end\n") (F.file shelf.old) (F.file shelf.new) result }
    ensures told { F.tells shelf.new ≡ F.tells shelf.old }
    ensures cause { CountsStop (F.write_faults shelf.old) (F.write_faults shelf.new) result }
    ensures reads { F.read_faults shelf.new ≡ F.read_faults shelf.old }
{
    put_line(shelf, name, b"end\n")
}
