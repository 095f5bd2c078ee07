// A shelf and a sink that watch a run: every call is handed on to what is inside, and what a note on the run is made of
// is kept.
ghost use Rattle.std.specs.Prelude.{◌≡◌};

use bp_shelf::{Shelf, ShelfFault, Sink, SinkFault};
use std::alloc::{AllocError, Global};

/// What is kept of the files of a run: names, and why the last call failed.
#[derive(Drop)]
pub struct Files {
    // What names are stored by.
    alloc: Global,
    // The name of the file that was read first, where another was read behind it.
    first: Option<String>,
    // The name of the file that was read last.
    last: Option<String>,
    // The name of the file that could not be read or written, of the last such call.
    failed: Option<String>,
    // Whether that call was a write.
    written: bool,
    // Whether what failed did so for want of space.
    full: bool,
}

impl Files {
    /// None.
    pub fn new(alloc: Global) -> Files {
        Files {
            alloc,
            first: None,
            last: None,
            failed: None,
            written: false,
            full: false,
        }
    }

    /// Keeps the name of a file that was read from a place on. A read from its front begins a text: the one before becomes
    /// the first, where there is none.
    pub fn read(&mut self, name: &str, at: u64) {
        if at > 0 {
            return;
        }
        let fresh = String::from_str(self.alloc, name).ok();
        let before = std::mem::replace(&mut self.last, fresh);
        if self.first.is_none() {
            self.first = before;
        }
    }

    /// Keeps the name of a file that could not be read or written.
    pub fn fail(&mut self, name: &str, written: bool) {
        self.failed = String::from_str(self.alloc, name).ok();
        self.written = written;
    }

    /// Keeps that what failed did for want of space.
    pub fn fill(&mut self) {
        self.full = true;
    }

    /// The name of the file that was read first, where another was read behind it.
    pub fn first(&self) -> Option<&str> {
        name_in(&self.first)
    }

    /// The name of the file that was read last.
    pub fn last(&self) -> Option<&str> {
        name_in(&self.last)
    }

    /// The name of the file that could not be read or written.
    pub fn failed(&self) -> Option<&str> {
        name_in(&self.failed)
    }

    /// Whether the call that failed was a write.
    pub fn is_written(&self) -> bool {
        self.written
    }

    /// Whether what failed did for want of space.
    pub fn is_full(&self) -> bool {
        self.full
    }
}

// The name that is kept, if there is one.
fn name_in(kept: &Option<String>) -> Option<&str> {
    match kept {
        Some(name) => Some(name.as_str()),
        None => None,
    }
}

/// A shelf that hands every call on to the shelf inside, and keeps what a note is made of: the names of the files that were
/// read first and last, and of the file of the last call that failed. It keeps none of the bytes that are read or written,
/// however many there are.
#[derive(Drop)]
pub struct Watched<F> {
    // The shelf that each call is handed on to.
    inside: F,
    // What is kept of the files.
    files: Files,
}

impl<F: Shelf> Watched<F> {
    /// The shelf, with nothing kept.
    pub fn new(alloc: Global, inside: F) -> Watched<F>
        ensures { result.inside ≡ inside }
    {
        Watched {
            inside,
            files: Files::new(alloc),
        }
    }

    /// The shelf inside, and what is kept.
    pub fn into_parts(self) -> (F, Files)
        ensures { result.0 ≡ self.inside }
    {
        (self.inside, self.files)
    }
}

impl<F: Shelf> Shelf for Watched<F> {
    ghost tells = { λ w. F.tells w.inside };

    ghost file = { λ w. F.file w.inside };

    ghost read_faults = { λ w. F.read_faults w.inside };

    ghost write_faults = { λ w. F.write_faults w.inside };

    ghost short = { λ w. F.short w.inside };

    fn read_at(&mut self, name: &str, at: u64, into: &mut [u8]) -> Result<usize, ShelfFault> {
        match self.inside.read_at(name, at, into) {
            Ok(count) => {
                self.files.read(name, at);
                Ok(count)
            }
            Err(fault) => {
                self.files.fail(name, false);
                Err(fault)
            }
        }
    }

    fn replace(&mut self, name: &str, bytes: &[u8]) -> Result<(), ShelfFault> {
        match self.inside.replace(name, bytes) {
            Ok(()) => Ok(()),
            Err(fault) => {
                self.files.fail(name, true);
                Err(fault)
            }
        }
    }

    fn extend(&mut self, name: &str, bytes: &[u8]) -> Result<(), ShelfFault> {
        match self.inside.extend(name, bytes) {
            Ok(()) => Ok(()),
            Err(fault) => {
                self.files.fail(name, true);
                Err(fault)
            }
        }
    }
}

/// A sink that hands every put on to the sink inside, and keeps the bytes that were to be put, as far as memory serves.
#[derive(Drop)]
pub struct WatchedSink<O> {
    // The sink that each put is handed on to.
    inside: O,
    // The bytes of all puts, as far as memory serves.
    told: Vec<u8>,
}

impl<O: Sink> WatchedSink<O> {
    /// The sink, with nothing kept.
    pub fn new(alloc: Global, inside: O) -> WatchedSink<O>
        ensures { result.inside ≡ inside }
    {
        WatchedSink {
            inside,
            told: Vec::new(alloc),
        }
    }

    /// The sink inside, and the bytes that are kept.
    pub fn into_parts(self) -> (O, Vec<u8>)
        ensures { result.0 ≡ self.inside }
    {
        (self.inside, self.told)
    }
}

impl<O: Sink> Sink for WatchedSink<O> {
    ghost tells = { λ w. O.tells w.inside };

    ghost taken = { λ w. O.taken w.inside };

    ghost faults = { λ w. O.faults w.inside };

    ghost puts = { λ w. O.puts w.inside };

    fn put(&mut self, bytes: &[u8]) -> Result<(), SinkFault> {
        let _ = self.told.extend_from_slice(bytes);
        self.inside.put(bytes)
    }
}
