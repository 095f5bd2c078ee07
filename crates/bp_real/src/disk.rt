// The calls on the system's files, each with the account that a disk may keep of them.
ghost use Rattle.std.specs.Prelude.{◌≡◌, ◌≤◌, List, Option, length, IfOk, OnOk, is_ok};
ghost use Rattle.std.specs.Io.KnownBytes.{Appends};
ghost use Rattle.bp_real.specs.Asked.{Asked, Asks, reads, replaces, extends, given};

use crate::whole::fill;
use std::fs::OpenOptions;
use std::io;
use std::io::{Seek, SeekFrom, Write};
use std::rt::Files;

/// Named files, as the system has them: what each call asks is in the account, where one is kept, in order.
pub trait Disk {
    /// What was asked, in order; nothing where no account is kept.
    ghost asked: { Self → Option (List Asked) };

    /// Reads from a place on until the buffer is full or the file ends, and gives how many bytes it read.
    fn read(&mut self, name: &str, at: u64, into: &mut [u8]) -> io::Result<usize>
        ensures count { IfOk result (λ count. count ≤ length into.old) }
        ensures asked { Asks (asked self.old) (asked self.new)
            (reads name.now at (given result into.new)) };

    /// Makes the named file hold exactly these bytes.
    fn replace(&mut self, name: &str, bytes: &[u8]) -> io::Result<()>
        ensures asked { Asks (asked self.old) (asked self.new)
            (replaces name.now bytes.now (is_ok result)) };

    /// Adds bytes at the end of the named file, which begins empty where it isn't there.
    fn extend(&mut self, name: &str, bytes: &[u8]) -> io::Result<()>
        ensures asked { Asks (asked self.old) (asked self.new)
            (extends name.now bytes.now (is_ok result)) };
}

/// The files of a runtime, by their paths. No account is kept.
#[derive(Drop)]
pub struct HostDisk<'a, R> {
    // The runtime.
    rt: &'a R,
}

impl<'a, R: Files> HostDisk<'a, R> {
    /// The files of this runtime.
    pub fn new(rt: &'a R) -> Self {
        HostDisk { rt }
    }

    // Opens a file as the options say, and writes the bytes.
    fn write(&self, how: &OpenOptions, name: &str, bytes: &[u8]) -> io::Result<()> {
        let mut file = how.open(self.rt, name)?;
        put_all(&mut file, bytes)
    }
}

// Puts all bytes to a writer.
fn put_all<W: Write>(to: &mut W, bytes: &[u8]) -> io::Result<()>
    ensures { OnOk result (Appends (W.contents to.old) (W.contents to.new) bytes.now) }
{
    to.write_all(bytes)
}

impl<R: Files> Disk for HostDisk<'_, R> {
    ghost use Rattle.std.specs.Prelude.{None};

    ghost asked = { λ _. None };

    fn read(&mut self, name: &str, at: u64, into: &mut [u8]) -> io::Result<usize> {
        let mut file = OpenOptions::new().read(true).open(self.rt, name)?;
        file.seek(SeekFrom::Start(at))?;
        fill(&mut file, into)
    }

    fn replace(&mut self, name: &str, bytes: &[u8]) -> io::Result<()> {
        let mut how = OpenOptions::new();
        how.write(true).create(true).truncate(true);
        self.write(&how, name, bytes)
    }

    fn extend(&mut self, name: &str, bytes: &[u8]) -> io::Result<()> {
        let mut how = OpenOptions::new();
        how.append(true).create(true);
        self.write(&how, name, bytes)
    }
}
