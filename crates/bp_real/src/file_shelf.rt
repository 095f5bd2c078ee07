// The files of the system as a shelf.
ghost use Rattle.std.specs.Prelude.{◌≡◌, ◌≤◌, ◌<◌, length, IfOk, IsOk, IsErrOf, is_ok};
ghost use Rattle.bp_shelf.specs.Shelf.{CountsFailed, file_limit};
ghost use Rattle.bp_real.specs.Asked.{Asks, reads, replaces, extends, given};

use crate::disk::{Disk, HostDisk};
use bp_shelf::{Shelf, ShelfFault};
use std::io;
use std::io::ErrorKind;
use std::rt::Files;

// No file is read or written from this place on.
const LIMIT: u64 = 1 << 62;

/// The files of a disk, by their paths. Each fault of a read or a write raises its count, which stays at its last
/// value, `2^64 - 1`. A path where no file is found is `Missing`, which is no fault. Each call asks the disk once for just what
/// it is called with, and answers as the disk does; what is past the limit of files isn't asked for.
#[derive(Drop)]
pub struct FileShelf<D> {
    // What reads and writes files.
    disk: D,
    // How many reads failed; a missing file is no fault.
    reads: u64,
    // How many writes failed.
    writes: u64,
    // Whether the last write that failed did so for want of space.
    is_full: bool,
}

impl<'a, R: Files> FileShelf<HostDisk<'a, R>> {
    /// The files of a runtime, with no faults counted.
    pub fn new(rt: &'a R) -> Self
        ensures reads { result.reads ≡ 0 }
        ensures writes { result.writes ≡ 0 }
    {
        FileShelf::over(HostDisk::new(rt))
    }
}

impl<D> FileShelf<D> {
    /// The files of a disk, with no faults counted.
    pub fn over(disk: D) -> Self
        ensures disk { result.disk ≡ disk }
        ensures reads { result.reads ≡ 0 }
        ensures writes { result.writes ≡ 0 }
    {
        FileShelf {
            disk,
            reads: 0,
            writes: 0,
            is_full: false,
        }
    }

    /// Whether the last write failed for want of space.
    pub fn is_full(&self) -> bool
        ensures { result ≡ self.now.is_full }
    {
        self.is_full
    }

    // Counts a write that failed.
    fn written(&mut self, answer: io::Result<()>) -> Result<(), ShelfFault>
        ensures ok { is_ok result ≡ is_ok answer }
        ensures never_missing { IsErrOf result ShelfFault.Missing → ⊥ }
        ensures cause { CountsFailed self.old.writes self.new.writes result }
        ensures reads { self.new.reads ≡ self.old.reads }
        ensures disk { self.new.disk ≡ self.old.disk }
    {
        match answer {
            Ok(()) => Ok(()),
            Err(fault) => {
                self.is_full = is_full(fault.kind());
                self.writes = self.writes.saturating_add(1);
                Err(ShelfFault::Failed)
            }
        }
    }
}

// Whether a fault says that no file is there: neither at the path, nor a folder where the path goes through.
fn is_missing(kind: ErrorKind) -> bool {
    kind == ErrorKind::NotFound || kind == ErrorKind::NotADirectory
}

/// Whether a fault says that there is no space left, on the disk or for this user.
pub(crate) fn is_full(kind: ErrorKind) -> bool {
    kind == ErrorKind::StorageFull || kind == ErrorKind::QuotaExceeded
}

impl<D: Disk> Shelf for FileShelf<D> {
    ghost use Rattle.std.specs.Prelude.{false, None};
    ghost use Rattle.std.proofs.lemmas.Bool.{false≢true};

    ghost tells = { λ _. false };

    ghost file = { λ _ _. None };

    ghost read_faults = { λ shelf. shelf.reads };

    ghost write_faults = { λ shelf. shelf.writes };

    ghost short = { λ shelf told. absurd (false≢true told) };

    fn read_at(&mut self, name: &str, at: u64, into: &mut [u8]) -> Result<usize, ShelfFault>
        ensures asked { at < file_limit → Asks (D.asked self.old.disk) (D.asked self.new.disk)
            (reads name.now at (given result into.new)) }
        ensures unasked { file_limit ≤ at → D.asked self.new.disk ≡ D.asked self.old.disk }
        ensures count { IfOk result (λ count. count ≤ length into.old) }
        ensures far { file_limit ≤ at → IfOk result (λ count. count ≡ 0) }
        ensures cause { CountsFailed self.old.reads self.new.reads result }
        ensures writes { self.new.writes ≡ self.old.writes }
    {
        if at >= LIMIT {
            return Ok(0);
        }
        match self.disk.read(name, at, into) {
            Ok(count) => Ok(count),
            Err(fault) => {
                if is_missing(fault.kind()) {
                    return Err(ShelfFault::Missing);
                }
                self.reads = self.reads.saturating_add(1);
                Err(ShelfFault::Failed)
            }
        }
    }

    fn replace(&mut self, name: &str, bytes: &[u8]) -> Result<(), ShelfFault>
        ensures asked { length bytes.now < file_limit →
            Asks (D.asked self.old.disk) (D.asked self.new.disk)
            (replaces name.now bytes.now (is_ok result)) }
        ensures unasked { file_limit ≤ length bytes.now →
            D.asked self.new.disk ≡ D.asked self.old.disk }
        ensures long { file_limit ≤ length bytes.now → IsOk result → ⊥ }
        ensures never_missing { IsErrOf result ShelfFault.Missing → ⊥ }
        ensures cause { CountsFailed self.old.writes self.new.writes result }
        ensures reads { self.new.reads ≡ self.old.reads }
    {
        let answer = if bytes.len() as u64 >= LIMIT {
            Err(io::Error::from(ErrorKind::FileTooLarge))
        } else {
            self.disk.replace(name, bytes)
        };
        self.written(answer)
    }

    fn extend(&mut self, name: &str, bytes: &[u8]) -> Result<(), ShelfFault>
        ensures asked { length bytes.now < file_limit →
            Asks (D.asked self.old.disk) (D.asked self.new.disk)
            (extends name.now bytes.now (is_ok result)) }
        ensures unasked { file_limit ≤ length bytes.now →
            D.asked self.new.disk ≡ D.asked self.old.disk }
        ensures long { file_limit ≤ length bytes.now → IsOk result → ⊥ }
        ensures never_missing { IsErrOf result ShelfFault.Missing → ⊥ }
        ensures cause { CountsFailed self.old.writes self.new.writes result }
        ensures reads { self.new.reads ≡ self.old.reads }
    {
        let answer = if bytes.len() as u64 >= LIMIT {
            Err(io::Error::from(ErrorKind::FileTooLarge))
        } else {
            self.disk.extend(name, bytes)
        };
        self.written(answer)
    }
}
