//! Tests of what is reckoned exactly over small programs: least costs and points of blocks, by tables, graphs of states and
//! searches, and the rows of rounding cuts. They stand apart from the crates that they test, since a crate that has tests is
//! proved twice, and together, since a crate of tests is a program of its own that is linked and built. The pricers' cases
//! are entries of tables, and one function runs an entry, since tests are proved too.
#![tactic(auto)]

#[cfg(test)]
mod ask;
#[cfg(test)]
mod checks;
#[cfg(test)]
mod cuts;
#[cfg(test)]
mod drawn;
#[cfg(test)]
mod known;
#[cfg(test)]
mod plans;
#[cfg(test)]
mod problem;
#[cfg(test)]
mod small;
#[cfg(test)]
mod tried;
