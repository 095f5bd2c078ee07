//! Tests of what LP texts, texts of decompositions, lists of rows and certificates read as, of models at their limits, and of
//! the decompositions that are chosen for models. They stand apart from the crates that they test, since a crate that has
//! tests is proved twice, and others wait for these; and together, since a crate of tests is a program of its own that is
//! linked and built. Their cases are lines of tables, and one function reads a line, since tests are proved too.
#![tactic(auto)]

#[cfg(test)]
mod certificates;
#[cfg(test)]
mod cuts;
#[cfg(test)]
mod decompositions;
#[cfg(test)]
mod guesses;
#[cfg(test)]
mod lp_texts;
#[cfg(test)]
mod models;
#[cfg(test)]
mod row_lists;
#[cfg(test)]
mod tables;
#[cfg(test)]
mod tokens;
