//! Tests of what linear programs answer: factors of bases, the dual simplex and the programs of columns in `f64`, and
//! restricted masters in whole numbers. They stand apart from the crates that they test, which are then proved once. A test
//! compares all that a program answers at once, since tests are proved too.
#![tactic(auto)]

#[cfg(test)]
mod columns;
#[cfg(test)]
mod factors;
#[cfg(test)]
mod masters;
#[cfg(test)]
mod numbers;
#[cfg(test)]
mod programs;
