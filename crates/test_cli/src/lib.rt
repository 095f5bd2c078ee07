//! Tests of what command lines are read as, and of the notes on runs. They stand apart from the crates that read and write
//! them, which are then proved once. Their cases are lines of tables, and one function goes over the lines, since tests are
//! proved too.
#![tactic(auto)]

#[cfg(test)]
mod lines;
#[cfg(test)]
mod note_lines;
#[cfg(test)]
mod tables;
