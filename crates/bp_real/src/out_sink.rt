// The standard output as a sink.
ghost use Rattle.std.specs.Prelude.{◌≡◌, OnOk};
ghost use Rattle.std.specs.Io.KnownBytes.{Appends};
ghost use Rattle.bp_shelf.specs.Shelf.{CountsRefused, next_count};

use crate::file_shelf::is_full;
use bp_shelf::{Sink, SinkFault};
use std::io;
use std::io::{Printer, Write};

/// Where a writer goes, as the standard output. Each put, and each that fails, raises its count, which stays at its last value,
/// `2^64 - 1`. A put that succeeds has handed just its bytes to the writer.
#[derive(Drop)]
pub struct OutSink<W> {
    // The writer.
    to: W,
    // How many puts were asked for, those that failed included.
    puts: u64,
    // How many puts failed.
    faults: u64,
    // Whether the last put that failed did so for want of space.
    is_full: bool,
}

impl<'a, R: Print> OutSink<Printer<'a, R>> {
    /// The output of a runtime, with no puts and no faults counted.
    pub fn new(rt: &'a R) -> Self
        ensures puts { result.puts ≡ 0 }
        ensures faults { result.faults ≡ 0 }
    {
        OutSink::over(io::writer(rt))
    }
}

impl<W> OutSink<W> {
    /// A writer, with no puts and no faults counted.
    pub fn over(to: W) -> Self
        ensures to { result.to ≡ to }
        ensures puts { result.puts ≡ 0 }
        ensures faults { result.faults ≡ 0 }
    {
        OutSink {
            to,
            puts: 0,
            faults: 0,
            is_full: false,
        }
    }

    /// Whether the last put that failed did for want of space.
    pub fn is_full(&self) -> bool
        ensures { result ≡ self.now.is_full }
    {
        self.is_full
    }
}

impl<W: Write> Sink for OutSink<W> {
    ghost use Rattle.std.specs.Prelude.{false, []};

    ghost tells = { λ _. false };

    ghost taken = { λ _. [] };

    ghost faults = { λ sink. sink.faults };

    ghost puts = { λ sink. sink.puts };

    fn put(&mut self, bytes: &[u8]) -> Result<(), SinkFault>
        ensures handed { OnOk result
            (Appends (W.contents self.old.to) (W.contents self.new.to) bytes.now) }
        ensures counted { self.new.puts ≡ next_count self.old.puts }
        ensures cause { CountsRefused self.old.faults self.new.faults result }
    {
        self.puts = self.puts.saturating_add(1);
        match self.to.write_all(bytes) {
            Ok(()) => Ok(()),
            Err(fault) => {
                self.is_full = is_full(fault.kind());
                self.faults = self.faults.saturating_add(1);
                Err(SinkFault)
            }
        }
    }
}
