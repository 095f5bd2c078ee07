// Files in memory and an output, over which commands are run.
use bp_cli::{Unwatched, run};
use bp_shelf::{MemShelf, MemSink};
use frontend::read_front;
use search_laws::Event;
use std::alloc::{AllocError, Global};

// Every file is shorter than this.
const LIMIT: usize = 1 << 62;

// How many bytes an output takes where a script says nothing else.
const ROOM: usize = 1_000_000;

/// A file that a script gave.
#[derive(Drop)]
struct Given {
    // The name, which a later file may have too and then replaces it.
    name: String,
    // The whole file.
    bytes: Vec<u8>,
}

/// What a command answered: the bytes that it printed, its status, and what the workers of a crew did, if one worked.
#[derive(Drop)]
pub struct Answer {
    /// All bytes that it printed.
    pub report: Vec<u8>,
    /// The exit status.
    pub status: u8,
    /// The crew's events, in order; none without a crew.
    pub events: Vec<Event>,
}

impl Answer {
    /// Whether another answer has the same report and status.
    pub fn is_same(&self, other: &Answer) -> bool {
        self.status == other.status && self.report.as_slice() == other.report.as_slice()
    }
}

/// A shelf of files, with those that the script gave, and what the outputs of the commands are like.
#[derive(Drop)]
pub struct Stage {
    // What files and answers are stored by.
    alloc: Global,
    // The files that the script gave, in its order, to be put on each new shelf.
    given: Vec<Given>,
    // The files as the commands so far left them.
    shelf: MemShelf,
    // How many bytes each output takes.
    room: usize,
    // The numbers of the puts that fail, from 1 in each run.
    failing: Vec<u64>,
}

impl Stage {
    /// A stage without files and faults.
    pub fn make(alloc: Global) -> Result<Stage, AllocError> {
        Ok(Stage {
            alloc,
            given: Vec::new(alloc),
            shelf: MemShelf::make(alloc, &[])?,
            room: ROOM,
            failing: Vec::new(alloc),
        })
    }

    /// Puts a file on the shelf, uncounted.
    pub fn put(&mut self, name: &str, bytes: &[u8]) -> Result<(), AllocError> {
        if bytes.len() < LIMIT {
            self.shelf.put_file(name, bytes)?;
        }
        Ok(())
    }

    /// Puts a file on the shelf and keeps it for later shelves.
    pub fn give(&mut self, name: String, bytes: Vec<u8>) -> Result<(), AllocError> {
        self.put(name.as_str(), &bytes)?;
        self.given.push(Given { name, bytes })?;
        Ok(())
    }

    /// Takes a new shelf, whose calls with these numbers fail and whose reads give at most so many bytes, with the
    /// files that the script gave.
    pub fn renew(&mut self, failing: &[u64], most: usize) -> Result<(), AllocError> {
        let mut shelf = MemShelf::slow(self.alloc, failing, most.max(1))?;
        for file in &self.given {
            if file.bytes.len() < LIMIT {
                shelf.put_file(file.name.as_str(), &file.bytes)?;
            }
        }
        self.shelf = shelf;
        Ok(())
    }

    /// Has the outputs from now on take so many bytes, and fail at the puts with these numbers.
    pub fn print_into(&mut self, room: Option<usize>, failing: Vec<u64>) {
        self.room = room.unwrap_or(ROOM);
        self.failing = failing;
    }

    /// The bytes of a file, where it is there and can be read.
    pub fn file(&mut self, name: &str) -> Option<Vec<u8>> {
        read_front(self.alloc, &mut self.shelf, name, LIMIT - 1).ok()
    }

    /// Runs the program with these words, its own name first.
    pub fn run(&mut self, words: &[String]) -> Result<Answer, AllocError> {
        let mut sink = MemSink::make(self.alloc, self.room, &self.failing)?;
        let ended = run(
            self.alloc,
            words,
            &mut self.shelf,
            &mut sink,
            &mut Unwatched,
        )
        .ended;
        Ok(Answer {
            report: sink.bytes().to_vec(self.alloc)?,
            status: ended.status,
            events: ended.events,
        })
    }
}
