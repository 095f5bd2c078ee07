//! Laws of stronger proofs: mixed-integer rounding cuts over any rows, rows of blocks in a leaf's proof, cuts that are
//! priced, and splits of a class of blocks. The definitions stand in specs/; each law is the contract of a public
//! function with an empty body, which nobody calls.
#![tactic(auto)]

ghost use Rattle.stronger_laws.specs.Laws.{MirShrinks, MirIsMet, MirIsBounded, RoundingIsMir, WideIsFaithful, PricedAlike, NamedRowsKeep, WideRowsKeep, FurtherCutsStay, PricedIsMet, AllCutsAreMet, AlikeTells, ClassSplitCovers, ClassCover, ClassPartsAreZones, WideCertifiedIsTrue, CertifiedStays, WideJudged};

use bp_theory::{Cut, Items, Proof, Term};

/// A mixed-integer rounding cut: its divisor, its remainder where that is lowered below that of the sum's side,
/// multipliers of rows by the rows' numbers, and the variables that are measured from their upper ends.
#[derive(Drop)]
pub struct MirCut {
    /// What the sum of the rows is divided by before it is rounded, at least 2.
    pub divisor: u32,
    /// The remainder to round by, from 1 to below that of the sum's side by the divisor; where there is none, the
    /// side's own.
    pub lowered: Option<u32>,
    /// Rows with multipliers of either sign. A row is one of the program, of a block too, or an earlier cut; the
    /// program's rows have their own numbers, the link rows come behind them, then the cuts.
    pub rows: Items<(u32, i64)>,
    /// The numbers of these variables, from 0; all others are measured from their lower ends.
    pub upper: Items<u32>,
}

/// A cut that is a price: an objective, its lower side, and a proof that shows it in the root's spans.
#[derive(Drop)]
pub struct PricedCut {
    /// The left side of the cut, over variables of the program.
    pub objective: Items<Term>,
    /// What the objective is at least, not scaled.
    pub low: i64,
    /// A proof for this objective in place of the program's, with constant 0: it shows `low` at the root.
    pub proof: Proof,
}

/// A cut of any kind.
#[derive(Drop)]
pub enum AnyCut {
    Rounding(Cut),
    Mir(MirCut),
    Priced(PricedCut),
}

/// What is wrong with a line of a certificate of any cuts, rows and splits.
#[derive(Clone, Copy)]
pub enum WideKind {
    PointBound,
    PointRow,
    Value,
    Split,
    Class,
    Sign,
    Divisor,
    Weak,
    Open,
    Cut,
}

/// The rounding function doesn't grow a number's size.
pub fn mir_shrinks()
    ensures { MirShrinks }
{}

/// A point that meets the rows meets the row of a mixed-integer rounding cut over them.
pub fn mir_is_met()
    ensures { MirIsMet }
{}

/// The numbers of such a row are within twice the limit of the rows that are combined.
pub fn mir_is_bounded()
    ensures { MirIsBounded }
{}

/// A rounding cut whose multipliers are below the divisor is a mixed-integer rounding cut of remainder 1.
pub fn rounding_is_mir()
    ensures { RoundingIsMir }
{}

/// The blocking in which proofs may name rows of blocks is faithful.
pub fn wide_is_faithful()
    ensures { WideIsFaithful }
{}

/// Blocks of equal rows, spans and reduced costs have the same least reduced cost.
pub fn priced_alike()
    ensures { PricedAlike }
{}

/// A proof whose rows stay keeps its signs and its bounds.
pub fn named_rows_keep()
    ensures { NamedRowsKeep }
{}

/// What a proof shows beside master rows alone it shows where proofs may name rows of blocks too.
pub fn wide_rows_keep()
    ensures { WideRowsKeep }
{}

/// Further cuts leave the rows that a proof names.
pub fn further_cuts_stay()
    ensures { FurtherCutsStay }
{}

/// Each feasible point meets the row of a priced cut.
pub fn priced_is_met()
    ensures { PricedIsMet }
{}

/// Each feasible point meets the row of each fitting cut, whatever its kind.
pub fn all_cuts_are_met()
    ensures { AllCutsAreMet }
{}

/// The test of two blocks tells whether they are the same in a zone.
pub fn alike_tells()
    ensures { AlikeTells }
{}

/// A feasible point, or another of the same cost, lies in one of the parts of a class split.
pub fn class_split_covers()
    ensures { ClassSplitCovers }
{}

/// Each feasible point, or another of the same cost, lies in a leaf.
pub fn class_cover()
    ensures { ClassCover }
{}

/// The parts of a class split and the leaves below are zones.
pub fn class_parts_are_zones()
    ensures { ClassPartsAreZones }
{}

/// What a valid certificate of any cuts, rows and splits claims is true.
pub fn wide_certified_is_true()
    ensures { WideCertifiedIsTrue }
{}

/// A valid certificate of rounding cuts, master rows and plain splits stays valid.
pub fn certified_stays()
    ensures { CertifiedStays }
{}

/// A certificate of any cuts, rows and splits is valid or has a first fault.
pub fn wide_judged()
    ensures { WideJudged }
{}
