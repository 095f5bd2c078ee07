//! The program: the top call over the system's files and the standard output, unless its files stand in its way; a note on how
//! it ended goes to the standard error, and nothing rests on that. The words `help` and `version` ask for pages of its own on
//! the standard output.
#![tactic(auto)]

mod named;
mod watching;

use bp_cli::{Unwatched, Watch, run};
use bp_real::{
    FileShelf, Files, HostDisk, HostSurvey, Obstacle, OutSink, Watched, WatchedSink, find_obstacle,
};
use bp_shelf::Sink;
use bp_words::{Order, WordFault, read_words};
use named::files_of;
use notes::{Page, explain, explain_obstacle, page_for, page_text};
use std::io::{ErrorKind, Write};
use std::process::ExitCode;
use std::rt::Env;
use std::{env, io};
use watching::SearchWatch;

// The status of a run that is not begun.
const NOT_BEGUN: u8 = 125;

// The status where there was no memory to read the words, or for a page.
const NO_MEMORY: u8 = 9;

// The status where the standard output could not be written.
const NOT_WRITTEN: u8 = 8;

// The words that the program was called with, its own name first.
fn words_of<R: Env + AllocGlobal>(rt: &R) -> io::Result<Vec<String>> {
    Ok(env::args(rt)?.collect(rt.alloc())?)
}

// Puts the note on a run on the standard error. Where there is no memory for it, or it can't be written, there is none.
fn put_note(
    rt: &HostRuntime,
    words: &[String],
    status: u8,
    report: &[u8],
    files: &Files,
    shelf: &mut FileShelf<HostDisk<HostRuntime>>,
) {
    if let Ok(note) = explain(rt.alloc(), words, status, report, files, shelf) {
        let _ = rt.stderr().write_all(&note);
    }
}

// Puts the note on what stands in the way of a run, in the same way.
fn put_obstacle(rt: &HostRuntime, found: &Obstacle) {
    if let Ok(note) = explain_obstacle(rt.alloc(), found) {
        let _ = rt.stderr().write_all(&note);
    }
}

// Runs on these words, with this watch on the search, and gives the status that the run ended with.
fn run_words<W: Watch>(rt: &HostRuntime, words: &[String], watch: &mut W) -> u8 {
    let mut shelf = Watched::new(rt.alloc(), FileShelf::new(rt));
    let mut out = WatchedSink::new(rt.alloc(), OutSink::new(rt));
    let ended = run(rt.alloc(), words, &mut shelf, &mut out, watch).ended;
    let (mut shelf, mut files) = shelf.into_parts();
    let (out, put) = out.into_parts();
    // Where a write failed, the report that was lost; else what was put.
    let report = ended.lost.unwrap_or(put);
    if shelf.is_full() || out.is_full() {
        files.fill();
    }
    put_note(rt, words, ended.status, &report, &files, &mut shelf);
    ended.status
}

// Whether files stand in the way of what is ordered, which is told.
fn is_stopped(rt: &HostRuntime, order: &Order) -> bool {
    match find_obstacle(&HostSurvey::new(rt), &files_of(order)) {
        Some(found) => {
            put_obstacle(rt, &found);
            true
        }
        None => false,
    }
}

// Puts a page on the standard output, and gives the status.
fn show_page(rt: &HostRuntime, words: &[String], page: Page) -> u8 {
    let Ok(text) = page_text(rt.alloc(), page) else {
        return NO_MEMORY;
    };
    let mut out = OutSink::new(rt);
    if out.put(&text).is_ok() {
        return 0;
    }
    let mut files = Files::new(rt.alloc());
    if out.is_full() {
        files.fill();
    }
    put_note(rt, words, NOT_WRITTEN, &[], &files, &mut FileShelf::new(rt));
    NOT_WRITTEN
}

// Answers these words by a page of the program's own where they ask for one. Else runs on them, unless files stand in the way;
// words that are no command line name none.
fn start(rt: &HostRuntime, words: &[String]) -> u8 {
    if let Some(page) = page_for(words) {
        return show_page(rt, words, page);
    }
    match read_words(rt.alloc(), words) {
        Ok(order) => {
            if is_stopped(rt, &order) {
                return NOT_BEGUN;
            }
            run_words(rt, words, &mut SearchWatch::new(rt, &order))
        }
        Err(WordFault::Refused) => run_words(rt, words, &mut Unwatched),
        Err(WordFault::NoMemory) => NO_MEMORY,
    }
}

fn main(rt: HostRuntime) -> ExitCode {
    let status = match words_of(&rt) {
        Ok(words) => start(&rt, &words),
        // Words that are no text are no command line.
        Err(fault) if fault.kind() == ErrorKind::InvalidData => run_words(&rt, &[], &mut Unwatched),
        Err(_) => NO_MEMORY,
    };
    ExitCode::from(status)
}
