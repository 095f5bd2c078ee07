// What a command line orders, and why words are no command line.
ghost use Rattle.std.specs.Prelude.{◌≡◌};
ghost use Rattle.cli_orders.specs.declared.order.WordFault.TheVariants.{NoMemory};
ghost use Rattle.cli_orders.specs.Orders.{is_watched};

use crate::text::Text;
use bp_theory::Limits;
use std::alloc::AllocError;
use thiserror::Error;

/// What watches a search and may end it, each as it is written.
#[derive(Drop)]
pub struct Watching {
    /// For how many seconds the search may go on at most, where it is said.
    pub time: Option<Text>,
    /// Up to which gap in percent it goes on, where it is said.
    pub gap: Option<Text>,
    /// After how many seconds a line of its table comes, where one is wanted.
    pub log: Option<Text>,
    /// The file that ends the search once it is there, where one is named.
    pub stop: Option<Text>,
}

impl Watching {
    /// Whether anything watches the search.
    pub fn is_any(&self) -> bool
        ensures { result ≡ is_watched self.now }
    {
        self.time.is_some() || self.gap.is_some() || self.log.is_some() || self.stop.is_some()
    }
}

/// The files and the numbers of an order to solve.
#[derive(Drop)]
pub struct SolveOrder {
    /// The LP file.
    pub lp: Text,
    /// The decomposition's file, where there is one.
    pub dec: Option<Text>,
    /// After how many steps to stop, at most 2^60, where a number is given.
    pub steps: Option<u64>,
    /// The file for the certificate.
    pub cert: Option<Text>,
    /// The file of the certificate to go on from, where there is one.
    pub from: Option<Text>,
    /// The open leaf of that certificate below which alone to work, by its number from 1, where one is given.
    pub leaf: Option<u64>,
    /// How many workers there are, 1 to 64, where a number is given.
    pub workers: Option<u32>,
    /// The seed of the order in which the workers have their turns, where one is given.
    pub order: Option<u64>,
    /// How many rounding cuts may be added at most, 0 to 256: none where no number is given.
    pub cuts: u32,
    /// The limits that the model keeps.
    pub limits: Limits,
    /// What watches the search.
    pub watching: Watching,
}

/// The files and the number of an order to check.
#[derive(Drop)]
pub struct CheckOrder {
    /// The LP file.
    pub lp: Text,
    /// The certificate's file.
    pub cert: Text,
    /// The decomposition's file, where there is one.
    pub dec: Option<Text>,
    /// How many visits pricing may take in all, where a number is given.
    pub visits: Option<u64>,
    /// The limits that the model keeps.
    pub limits: Limits,
}

/// The files of an order to merge.
#[derive(Drop)]
pub struct MergeOrder {
    /// The LP file.
    pub lp: Text,
    /// The first certificate's file.
    pub first: Text,
    /// The second certificate's file.
    pub second: Text,
    /// The file for the merged certificate.
    pub new: Text,
    /// The decomposition's file, where there is one.
    pub dec: Option<Text>,
    /// The limits that the model keeps.
    pub limits: Limits,
}

/// What a command line orders.
#[derive(Drop)]
pub enum Order {
    /// Solve the LP file by a decomposition, from the start or from where a certificate stopped, by a crew where workers or
    /// their order are given, with rounding cuts where a number of them is given, and write a certificate where a file is
    /// named for it. A leaf goes with a certificate to go on from, and without a crew; what watches the search goes with neither a
    /// leaf nor a crew.
    Solve(SolveOrder),
    /// Check a certificate of the LP file.
    Check(CheckOrder),
    /// Show the sizes and the classes of the LP file and its decomposition.
    Show {
        /// The LP file.
        lp: Text,
        /// The decomposition's file, where there is one.
        dec: Option<Text>,
        /// Whether each block is listed.
        blocks: bool,
        /// Whether the first block of each class is listed, where not all are.
        classes: bool,
        /// The limits that the model keeps.
        limits: Limits,
    },
    /// Write the texts that the generator makes.
    Gen {
        /// The generator's seed.
        seed: u64,
        /// How many jobs there are, 1 to 1,024.
        size: u32,
        /// The LP file.
        lp: Text,
        /// The decomposition's file.
        dec: Text,
    },
    /// Make the texts of the generator, solve them and check the certificate.
    Demo {
        /// The generator's seed.
        seed: u64,
        /// How many jobs there are, 1 to 1,024.
        size: u32,
    },
    /// Write the decomposition of the LP file beside the master rows that a file lists.
    Detect {
        /// The LP file.
        lp: Text,
        /// The file of the master rows.
        rows: Text,
        /// The decomposition's file.
        dec: Text,
        /// The limits that the model keeps.
        limits: Limits,
    },
    /// Write a decomposition of the LP file that the program chooses.
    Propose {
        /// The LP file.
        lp: Text,
        /// The decomposition's file.
        dec: Text,
        /// The limits that the model keeps.
        limits: Limits,
    },
    /// Merge two certificates of the LP file.
    Merge(MergeOrder),
    /// Write a certificate of the LP file anew, in version 2.
    Migrate {
        /// The LP file.
        lp: Text,
        /// The certificate's file.
        cert: Text,
        /// The file for the certificate that is written.
        new: Text,
        /// The decomposition's file, where there is one.
        dec: Option<Text>,
        /// The limits that the model keeps.
        limits: Limits,
    },
}

/// Why words give no order.
#[derive(Clone, Copy, Debug, PartialEq, Eq, Error)]
pub enum WordFault {
    /// They are no command line.
    #[error("not a command line")]
    Refused,
    /// Want of memory.
    #[error("want of memory")]
    NoMemory,
}

impl From<AllocError> for WordFault {
    ghost from_gives = { λ _ fault. fault ≡ NoMemory };

    fn from(_: AllocError) -> Self {
        WordFault::NoMemory
    }
}
