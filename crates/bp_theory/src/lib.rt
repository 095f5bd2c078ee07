//! The definitions of a certifying branch-and-price solver and their laws: integer programs, blocks, weak Lagrangian
//! bounds, branch trees, certificates and their judgement. Every crate above speaks in these words.
#![tactic(auto)]

ghost use Rattle.std.specs.Prelude.{◌≡◌, [], ◌∷◌, ◌++◌, length, OnOk, OnErr, IfOk, IsTrue, ◌↔◌};
ghost use Rattle.bp_theory.specs.Digits.{DigitsAreFewest, DigitsByZeros};
ghost use Rattle.bp_theory.specs.Limits.{greatest_depth, most_blocks, most_bytes, most_digits, most_lines, most_rows, most_terms, most_variables};
ghost use Rattle.bp_theory.specs.Laws.{Duality, Cover, Older, ValidIsTrue, OneBound, Shrink, AddingUpIsFaithful, DecompositionIsFaithful, CutsAreMet, CertifiedIsTrue, SamePriceAlike, LeastOverBox, Judged, RoundedHolds, PartsAddUp, StandsWhereNonzero, CopiesOfEach, LinksCancel, OnePointCloses, SplitShrinks};

use std::alloc::{AllocError, Global};
use std::marker::Model;

/// A vector that contracts see as its list.
#[derive(Drop)]
pub struct Items<T> {
    // The elements, in the order of the list.
    inside: Vec<T>,
}

impl<T> Model for Items<T> {
    ghost use Rattle.std.specs.Prelude.{List};

    ghost Value = { List T };

    ghost view = { λ a. a.inside.items };
}

impl<T: Drop> Items<T> {
    /// No elements yet.
    pub fn new(alloc: Global) -> Items<T>
        ensures { result ≡ [] }
    {
        Items {
            inside: Vec::new(alloc),
        }
    }

    /// No elements yet, and room for some.
    pub fn with_capacity(alloc: Global, room: usize) -> Result<Items<T>, AllocError>
        ensures { IfOk result (λ a. a ≡ []) }
    {
        let inside = Vec::with_capacity(alloc, room)?;
        Ok(Items { inside })
    }

    /// The elements of a vector.
    pub fn from_vec(inside: Vec<T>) -> Items<T>
        ensures { result ≡ inside.items }
    {
        Items { inside }
    }

    /// The vector of the elements.
    pub fn into_vec(self) -> Vec<T>
        ensures { result.items ≡ self }
    {
        self.inside
    }

    /// One element more at the end.
    pub fn push(&mut self, x: T) -> Result<(), AllocError>
        ensures added { OnOk result (self.new ≡ self.old ++ x ∷ []) }
        ensures same { OnErr result (self.new ≡ self.old) }
    {
        self.inside.push(x)?;
        Ok(())
    }

    /// The elements as a slice.
    pub fn as_slice(&self) -> &[T]
        ensures { result.now ≡ self.now }
    {
        self.inside.as_slice()
    }

    /// How many elements there are.
    pub fn len(&self) -> usize
        ensures { result ≡ length self.now }
    {
        self.inside.len()
    }

    /// Whether there are no elements.
    pub fn is_empty(&self) -> bool
        ensures { IsTrue result ↔ (self.now ≡ []) }
    {
        self.inside.is_empty()
    }
}

/// The limits that a model, its decomposition and its certificates keep: the usual ones, or the large ones that are asked
/// for by name.
#[derive(Clone, Copy, Debug, PartialEq, Eq)]
pub enum Limits {
    Usual,
    Large,
}

impl Limits {
    /// The greatest number of a model's variables.
    pub fn variables(self) -> u32
        ensures { result ≡ most_variables self }
    {
        match self {
            Limits::Usual => 4096,
            Limits::Large => 524_288,
        }
    }

    /// The greatest number of a model's rows.
    pub fn rows(self) -> u32
        ensures { result ≡ most_rows self }
    {
        match self {
            Limits::Usual => 8192,
            Limits::Large => 524_288,
        }
    }

    /// The greatest number of a model's rows together with the link rows of its decomposition.
    pub fn lines(self) -> u32
        ensures { result ≡ most_lines self }
    {
        match self {
            Limits::Usual => 8192,
            Limits::Large => 1_048_576,
        }
    }

    /// The greatest number of terms written in the objective and in all rows.
    pub fn terms(self) -> u32
        ensures { result ≡ most_terms self }
    {
        match self {
            Limits::Usual => 65_536,
            Limits::Large => 4_194_304,
        }
    }

    /// The most binary digits that the lengths of a model's spans have together.
    pub fn digits(self) -> u32
        ensures { result ≡ most_digits self }
    {
        match self {
            Limits::Usual => 8192,
            Limits::Large => 1_048_576,
        }
    }

    /// The greatest number of a decomposition's blocks.
    pub fn blocks(self) -> u32
        ensures { result ≡ most_blocks self }
    {
        match self {
            Limits::Usual => 4096,
            Limits::Large => 131_072,
        }
    }

    /// The most bytes of a model's or a decomposition's text.
    pub fn bytes(self) -> usize
        ensures { result ≡ most_bytes self }
    {
        match self {
            Limits::Usual => 1 << 24,
            Limits::Large => 1 << 28,
        }
    }

    /// The greatest depth of a certificate's node.
    pub fn depth(self) -> u32
        ensures { result ≡ greatest_depth self }
    {
        64 + self.digits()
    }
}

/// The whole numbers from `lo` to `hi`.
#[derive(Clone, Copy)]
pub struct Span {
    /// The least number.
    pub lo: i64,
    /// The greatest number, included; at least `lo` in models and zones.
    pub hi: i64,
}

/// A variable with its coefficient.
#[derive(Clone, Copy)]
pub struct Term {
    /// The number of the variable, from 0; in a row of a block its place among the block's copies.
    pub var: u32,
    /// Its coefficient. In a row of a model none is 0, and no variable comes twice.
    pub coef: i64,
}

/// How a row's sum compares with its sides: at most, at least, equal, between.
#[derive(Clone, Copy)]
pub enum Sense {
    Le,
    Ge,
    Eq,
    In,
}

/// A row of a program or of a block, with two sides, equal but for `In`.
#[derive(Drop)]
pub struct Row {
    /// Which sides bind the sum: `Le` the upper, `Ge` the lower, `Eq` and `In` both.
    pub sense: Sense,
    /// The lower side. At `Le` it repeats `rhs` and binds nothing.
    pub low: i64,
    /// The upper side. At `Ge` it repeats `low` and binds nothing.
    pub rhs: i64,
    /// The left side; in a model by ascending variable.
    pub terms: Items<Term>,
}

/// What a proof needs of a row that it gives a multiplier.
#[derive(Clone, Copy)]
pub struct MasterRow {
    /// Which signs a multiplier may have: positive at `Ge`, negative at `Le`, either at `Eq` and `In`.
    pub sense: Sense,
    /// The lower side, which counts in a bound where the multiplier is positive.
    pub low: i64,
    /// The upper side, which counts in a bound where the multiplier is negative.
    pub rhs: i64,
}

/// The blocks that a proof prices over their points, by number.
#[derive(Drop)]
pub enum Picked {
    Every,
    These(Items<u32>),
}

/// A scale, multipliers of rows by the rows' numbers, and the picked blocks.
#[derive(Drop)]
pub struct Proof {
    /// What costs are multiplied by in the bound, up to 2^20. At 0 the costs drop out, and a positive bound shows that
    /// the zone is empty.
    pub scale: u32,
    /// Rows with multipliers: whole numbers other than 0, up to 2^40 in size, each the row's dual value times the
    /// scale. By ascending row, each once; rows are numbered as the model's, then the link rows, then the cuts.
    pub mults: Items<(u32, i64)>,
    /// The blocks that are priced over the points of their rows; the others are priced over their boxes.
    pub picked: Picked,
}

/// A rounding cut: a divisor, and multipliers of rows by the rows' numbers.
#[derive(Drop)]
pub struct Cut {
    /// What the sum of the rows is divided by before it is rounded up: 1 to 2^20.
    pub q: u32,
    /// Rows with multipliers: whole numbers other than 0, up to 2^20 in size. By ascending row, each once; a row is a
    /// master row or an earlier cut, numbered as in proofs.
    pub rows: Items<(u32, i64)>,
}

/// What a certificate claims, in the text's own sense: the best value, that no point is feasible,
/// or that none betters a value, and the value of a known point where there is one.
#[derive(Clone, Copy)]
pub enum Claim {
    Optimal(i64),
    Infeasible,
    Bound(i64, Option<i64>),
}

/// What is wrong with a line of a certificate.
#[derive(Clone, Copy)]
pub enum CheckKind {
    PointBound,
    PointRow,
    Value,
    Split,
    Sign,
    Weak,
    Open,
    Cut,
}

/// Weak Lagrangian duality.
pub fn duality()
    ensures { Duality }
{}

/// Each point of the root zone lies in exactly one leaf.
pub fn cover()
    ensures { Cover }
{}

/// What holds for a cost holds for each smaller one, and what empties a zone holds for every cost.
pub fn older()
    ensures { Older }
{}

/// A valid certificate's claim is true.
pub fn valid_is_true()
    ensures { ValidIsTrue }
{}

/// A proof has one bound in a proper zone.
pub fn one_bound()
    ensures { OneBound }
{}

/// In a smaller zone the bound is endless or no smaller.
pub fn shrink()
    ensures { Shrink }
{}

/// A blocking that adds up to a program is faithful.
pub fn adding_up_is_faithful()
    ensures { AddingUpIsFaithful }
{}

/// The blocking of a decomposition with cuts adds up to the program.
pub fn decomposition_is_faithful()
    ensures { DecompositionIsFaithful }
{}

/// Each feasible point meets the row of each fitting cut.
pub fn cuts_are_met()
    ensures { CutsAreMet }
{}

/// What a valid certificate claims is true, whatever the decomposition and the cuts.
pub fn certified_is_true()
    ensures { CertifiedIsTrue }
{}

/// Blocks that are the same in a zone have the same least reduced cost.
pub fn same_price_alike()
    ensures { SamePriceAlike }
{}

/// The least over a box is that of the better ends.
pub fn least_over_box()
    ensures { LeastOverBox }
{}

/// The parts of a sound split lie in the zone.
pub fn split_shrinks()
    ensures { SplitShrinks }
{}

/// A zone of one point can always be shut.
pub fn one_point_closes()
    ensures { OnePointCloses }
{}

/// A certificate is valid or has a first fault.
pub fn judged()
    ensures { Judged }
{}

/// A bound holds for its quotient by the scale, rounded up.
pub fn rounded_holds()
    ensures { RoundedHolds }
{}

/// The blocks' parts add up to the bound.
pub fn parts_add_up()
    ensures { PartsAddUp }
{}

/// A variable stands in a tidy row where its coefficient isn't 0.
pub fn stands_where_nonzero()
    ensures { StandsWhereNonzero }
{}

/// Each variable has copies, no two in one block.
pub fn copies_of_each()
    ensures { CopiesOfEach }
{}

/// Link rows cancel at each point.
pub fn links_cancel()
    ensures { LinksCancel }
{}

/// Binary digits are the fewest that suffice.
pub fn digits_are_fewest()
    ensures { DigitsAreFewest }
{}

/// Binary digits by leading zeros.
pub fn digits_by_zeros()
    ensures { DigitsByZeros }
{}
