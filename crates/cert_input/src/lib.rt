//! The certificate of a file, read in pieces: the first fault of its text is told as soon as it has come, however long the file is.
#![tactic(auto)]

ghost use Rattle.std.specs.Prelude.{◌≡◌, ◌+◌, ◌<◌, ◌≤◌, [], length, vec_len, IfOk, IfErr, IsOk, IsErrOf, IsSome, IsTrue, None};
ghost use Rattle.bp_shelf.specs.Shelf.{CountsFailed, file_limit};
ghost use Rattle.bp_shelf.specs.declared.shelf.ShelfFault.TheVariants.{Missing};
ghost use Rattle.cert_format.specs.Kept.{certificate_of};
ghost use Rattle.cert_parser.specs.Builders.{Builds};
ghost use Rattle.cert_text.specs.Programs.{GoesWith};
ghost use Rattle.cert_input.specs.Files.{ReadsFile};
ghost use Rattle.cert_input.specs.Fronts.{BuildsFront, BuildsFile, FaultsFile};

use block_program::Blocked;
use bp_shelf::{Shelf, ShelfFault};
use cert_format::{Cert, CertFault, Frame};
use cert_parser::Reader;
use cert_text::program_frame;
use std::alloc::{AllocError, Global};

// How many bytes a read asks for.
const BUFFER: usize = 65536;

// What the length of a file in bytes stays below.
const FILE_LIMIT: u64 = 1 << 62;

/// Reads the certificate of a file for a program in blocks, a buffer at a time: gives the certificate, or the first fault of the
/// file's text by line and kind. Reading stops at its first fault that no further bytes can mend. The outer fault is that of a
/// file that isn't there or couldn't be read, or want of memory. What is read goes with the program.
pub fn read_file<F: Shelf>(
    alloc: Global,
    shelf: &mut F,
    name: &str,
    b: &Blocked,
) -> Result<Result<Cert, CertFault>, ShelfFault>
    ensures read { IfOk result (ReadsFile b.now (F.tells shelf.old) (F.file shelf.old name.now)) }
    ensures goes_with { IfOk result (λ read.
        IfOk read (λ cert. GoesWith b.now (certificate_of cert))) }
    ensures missing { IsTrue (F.tells shelf.old) → IsErrOf result ShelfFault.Missing →
        F.file shelf.old name.now ≡ None }
    ensures told { F.tells shelf.new ≡ F.tells shelf.old }
    ensures files { F.file shelf.new ≡ F.file shelf.old }
    ensures cause { CountsFailed (F.read_faults shelf.old) (F.read_faults shelf.new) result }
    ensures writes { F.write_faults shelf.new ≡ F.write_faults shelf.old }
{
    let frame = program_frame(alloc, b)?;
    let mut buffer = buffer_of(alloc, BUFFER)?;
    let mut reader = Reader::new(alloc);
    let fed = feed_file(alloc, shelf, &frame, name, &mut reader, &mut buffer)?;
    match fed {
        Ok(()) => Ok(reader.finish(alloc, &frame)),
        Err(fault) => Ok(Err(fault)),
    }
}

// A buffer of some bytes, of which only the length is told.
fn buffer_of(alloc: Global, len: usize) -> Result<Vec<u8>, AllocError>
    ensures { IfOk result (λ buffer. vec_len buffer ≡ len) }
{
    Vec::from_elem(alloc, 0u8, len)
}

// Feeds the bytes of a file to a reader, up to the file's end or to the first fault that no further bytes can mend.
fn feed_file<F: Shelf>(
    alloc: Global,
    shelf: &mut F,
    frame: &Frame,
    name: &str,
    reader: &mut Reader,
    buffer: &mut [u8],
) -> Result<Result<(), CertFault>, ShelfFault>
    requires fresh { Builds frame.now reader.old [] }
    requires room { length buffer.old ≡ 65536 }
    ensures builds { IfOk result (λ fed. IfOk fed (λ _. BuildsFile frame.now
        (F.tells shelf.old) (F.file shelf.old name.now) reader.new)) }
    ensures faults { IfOk result (λ fed. IfErr fed (FaultsFile frame.now
        (F.tells shelf.old) (F.file shelf.old name.now))) }
    ensures missing { IsTrue (F.tells shelf.old) → IsErrOf result ShelfFault.Missing →
        F.file shelf.old name.now ≡ None }
    ensures told { F.tells shelf.new ≡ F.tells shelf.old }
    ensures files { F.file shelf.new ≡ F.file shelf.old }
    ensures cause { CountsFailed (F.read_faults shelf.old) (F.read_faults shelf.new) result }
    ensures writes { F.write_faults shelf.new ≡ F.write_faults shelf.old }
{
    let mut at = 0;
    'reads: while at < FILE_LIMIT {
        let fed = feed_more(alloc, shelf, frame, name, at, reader, buffer)?;
        let count = match fed {
            Ok(count) => count,
            Err(fault) => return Ok(Err(fault)),
        };
        if count == 0 {
            return Ok(Ok(()));
        }
        at += count as u64;
    }
    Ok(Ok(()))
}

// Reads once, from a place on, and feeds what comes; gives how many bytes came: none where the file ends.
fn feed_more<F: Shelf>(
    alloc: Global,
    shelf: &mut F,
    frame: &Frame,
    name: &str,
    at: u64,
    reader: &mut Reader,
    buffer: &mut [u8],
) -> Result<Result<usize, CertFault>, ShelfFault>
    requires front { BuildsFront frame.now (F.tells shelf.old) (F.file shelf.old name.now)
        reader.old at }
    requires within { at < file_limit }
    requires room { length buffer.old ≡ 65536 }
    ensures count { IfOk result (λ fed. IfOk fed (λ count. count ≤ 65536)) }
    ensures front { IfOk result (λ fed. IfOk fed (λ count. BuildsFront frame.now
        (F.tells shelf.old) (F.file shelf.old name.now) reader.new (at + count))) }
    ensures end { IfOk result (λ fed. IfOk fed (λ count. count ≡ 0 → BuildsFile frame.now
        (F.tells shelf.old) (F.file shelf.old name.now) reader.new)) }
    ensures faults { IfOk result (λ fed. IfErr fed (FaultsFile frame.now
        (F.tells shelf.old) (F.file shelf.old name.now))) }
    ensures room { length buffer.new ≡ 65536 }
    ensures found { IsTrue (F.tells shelf.old) → IsOk result → IsSome (F.file shelf.old name.now) }
    ensures missing { IsTrue (F.tells shelf.old) → IsErrOf result ShelfFault.Missing →
        F.file shelf.old name.now ≡ None }
    ensures told { F.tells shelf.new ≡ F.tells shelf.old }
    ensures files { F.file shelf.new ≡ F.file shelf.old }
    ensures cause { CountsFailed (F.read_faults shelf.old) (F.read_faults shelf.new) result }
    ensures writes { F.write_faults shelf.new ≡ F.write_faults shelf.old }
{
    let count = shelf.read_at(name, at, buffer)?;
    match reader.feed(alloc, frame, &buffer[..count]) {
        Err(fault) => Ok(Err(fault)),
        Ok(()) => Ok(Ok(count)),
    }
}
