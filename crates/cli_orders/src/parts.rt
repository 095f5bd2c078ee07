// What several orders name alike: files and numbers.
use crate::text::Text;

/// The files of a problem.
pub struct Problem {
    /// The LP file.
    pub lp: Text,
    /// The decomposition's file, where it is named.
    pub dec: Option<Text>,
}

/// The files of a problem whose decomposition's file must be named.
pub struct Pair {
    /// The LP file.
    pub lp: Text,
    /// The decomposition's file.
    pub dec: Text,
}

/// The files of two certificates to merge.
#[derive(Drop)]
pub struct Sides {
    /// The first certificate's file.
    pub first: Text,
    /// The second certificate's file.
    pub second: Text,
}

/// The files of the certificates that an order to solve may name.
#[derive(Drop)]
pub struct Ends {
    /// The file for the certificate.
    pub cert: Option<Text>,
    /// The file of the certificate to go on from.
    pub from: Option<Text>,
}

/// What the generator takes.
#[derive(Clone, Copy)]
pub struct Scale {
    /// The seed.
    pub seed: u64,
    /// How many jobs there are, 1 to 1,024.
    pub size: u32,
}

/// The numbers of an order to solve, with the ranges of that order's fields.
#[derive(Clone, Copy)]
pub struct SolveNumbers {
    /// After how many steps to stop.
    pub steps: Option<u64>,
    /// The open leaf below which alone to work.
    pub leaf: Option<u64>,
    /// How many workers there are.
    pub workers: Option<u32>,
    /// The seed of the order in which the workers have their turns.
    pub order: Option<u64>,
    /// How many rounding cuts may be added at most.
    pub cuts: u32,
}
