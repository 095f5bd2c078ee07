// Places between two tokens of a certificate's text, and what may come there.
ghost use Rattle.std.specs.Prelude.{◌≡◌};
ghost use Rattle.cert_format.specs.Spots.{spot_sort, spot_words, spot_behind_claim, picked_word};

use crate::version::Version;
use crate::words::{Word, begins};

/// A place between two tokens of a certificate's text.
#[derive(Clone, Copy)]
pub enum Spot {
    Bpcert,
    Version,
    FirstEnd,
    Claim,
    Kind,
    OptimalValue,
    InfeasibleEnd,
    BoundValue,
    AfterBound,
    KnownValue,
    ClaimEnd,
    Point,
    Values,
    Coordinate,
    FirstCut,
    Cuts,
    Divisor,
    CutRows,
    CutCount,
    CutPairs,
    CutRow,
    CutGap,
    CutMultiplier,
    Node,
    Scale,
    Rows,
    Count,
    Pairs,
    Row,
    RowGap,
    Multiplier,
    Priced,
    Blocks,
    Block,
    LeafEnd,
    Variable,
    VariableGap,
    Place,
    SplitEnd,
    End,
    LastEnd,
    Over,
}

/// Whether a number may come at a place, with a sign or without one.
#[derive(Clone, Copy)]
pub enum Sort {
    Wordy,
    Natural,
    Whole,
}

/// Whether a number may come at a place.
pub fn sort_of(spot: Spot) -> Sort
    ensures { result ≡ spot_sort spot }
{
    match spot {
        Spot::OptimalValue
        | Spot::BoundValue
        | Spot::KnownValue
        | Spot::Coordinate
        | Spot::CutMultiplier
        | Spot::Multiplier
        | Spot::Place => Sort::Whole,
        Spot::Divisor
        | Spot::CutCount
        | Spot::CutRow
        | Spot::Scale
        | Spot::Count
        | Spot::Row
        | Spot::Priced
        | Spot::Block
        | Spot::Variable => Sort::Natural,
        _ => Sort::Wordy,
    }
}

/// The place behind a claim and its point.
pub fn first_spot(version: Version) -> Spot
    ensures { result ≡ spot_behind_claim version }
{
    match version {
        Version::One | Version::Two => Spot::Node,
        Version::Three => Spot::FirstCut,
    }
}

/// The words that may come at a place of a text in a version, where more pairs or blocks are to come or not.
pub fn words_at(version: Version, spot: Spot, more: bool) -> &'static [Word]
    ensures { result.now ≡ spot_words version spot more }
{
    match spot {
        Spot::Bpcert => &[Word::Bpcert],
        Spot::Version => &[Word::One, Word::Two, Word::Three],
        Spot::FirstEnd
        | Spot::InfeasibleEnd
        | Spot::ClaimEnd
        | Spot::LeafEnd
        | Spot::SplitEnd
        | Spot::LastEnd => &[Word::LineEnd],
        Spot::Claim => &[Word::Claim],
        Spot::Kind => &[Word::Optimal, Word::Infeasible, Word::Bound],
        Spot::AfterBound => &[Word::LineEnd, Word::Value],
        Spot::Point => &[Word::Point],
        Spot::Values => &[Word::LineEnd, Word::Space],
        Spot::FirstCut => &[Word::Cut],
        Spot::Cuts => &[Word::Cut, Word::Leaf, Word::Open, Word::Split],
        Spot::CutRows => &[Word::Rows],
        Spot::CutPairs => {
            if more {
                &[Word::Space]
            } else {
                &[Word::LineEnd]
            }
        }
        Spot::Node => &[Word::Leaf, Word::Open, Word::Split],
        Spot::Rows => match version {
            Version::One => &[Word::Rows],
            Version::Two => &[Word::Change],
            Version::Three => &[Word::Change],
        },
        Spot::Pairs => {
            if more {
                &[Word::Space]
            } else {
                &[Word::Priced]
            }
        }
        Spot::CutGap | Spot::RowGap | Spot::VariableGap => &[Word::Space],
        Spot::Priced => &[Word::All],
        Spot::Blocks => {
            if more {
                &[Word::Space]
            } else {
                &[Word::LineEnd]
            }
        }
        Spot::End => &[Word::End],
        _ => &[],
    }
}

/// The first of some words that begins with a byte.
pub fn pick(words: &[Word], byte: u8) -> Option<Word>
    ensures { result ≡ picked_word byte words.now }
{
    match words {
        [] => None,
        [word, rest @ ..] => {
            if begins(*word, byte) {
                Some(*word)
            } else {
                pick(rest, byte)
            }
        }
    }
}
