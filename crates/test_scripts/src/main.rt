//! Runs scripts of bprice commands over files in memory, and prints what each command answers; then calls the libraries
//! that the commands stand on, and prints what they answer. A script is a file that a word names, and the word `calls` has
//! the calls made. `data/` has scripts of worked texts and the texts of the calls, and the crate's `stdout` has what each of
//! them must answer.
#![tactic(auto)]

mod calls;
mod draft;
mod player;
mod stage;
mod view;

use player::play;
use std::io::Write;
use std::rt::Files;
use std::{env, fs, io};

// The word that has the calls made.
const CALLS: &str = "calls";

fn main(rt: HostRuntime) -> io::Result<()> {
    for word in env::args(&rt)?.skip(1) {
        let told = told_of(&rt, word.as_str())?;
        io::writer(&rt).write_all(&told)?;
    }
    Ok(())
}

// What a word has told: the calls, or the script in the file that it names.
fn told_of(rt: &(impl Files + AllocGlobal), word: &str) -> io::Result<Vec<u8>> {
    if word == CALLS {
        return calls::make(rt);
    }
    let script = fs::read_to_string(rt, word)?;
    Ok(play(rt.alloc(), script.as_str())?)
}
