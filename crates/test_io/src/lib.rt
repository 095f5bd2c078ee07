//! Tests of bytes that go in and out: shelves and sinks, in memory and real, generated texts, reports, and certificates that
//! are fed in pieces, of which is answered what reading and judging the whole text answers. They stand apart from the crates
//! that they test, since a crate that has tests is proved twice, and together, since a crate of tests is a program of its
//! own that is linked and built. Reports are entries of tables, and one function makes and compares them, since tests are
//! proved too.
#![tactic(auto)]

#[cfg(test)]
mod generated;
#[cfg(test)]
mod memory;
#[cfg(test)]
mod pieces;
#[cfg(test)]
mod real;
#[cfg(test)]
mod reports;
