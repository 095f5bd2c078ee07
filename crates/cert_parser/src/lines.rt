// The lines of a certificate's text, read byte by byte: what has come of the text, and what each line says.
ghost use Rattle.std.specs.Prelude.{◌≡◌, ℕ, [], ◌∷◌, OnOk, IfOk, MatchResult, Ok, List, Some, None, false, length, ◌++◌, ◌+◌, ◌-◌};
ghost use Rattle.bp_theory.specs.declared.Limits.{Limits};
ghost use Rattle.cert_format.specs.declared.frame.Frame.{Frame};
ghost use Rattle.cert_format.specs.declared.words.Word.{Word};
ghost use Rattle.cert_format.specs.Written.{in_text, written_claim, written_proof};
ghost use Rattle.cert_format.specs.Cert as texts;
ghost use Rattle.cert_format.specs.Cert.{Tree};
ghost use Rattle.bp_theory.specs.declared.Picked.TheVariants.{Every, These};
ghost use Rattle.cert_format.specs.Stages.{Wait, begin, at_node, low_of, behind, behind_leaf};
ghost use Rattle.cert_format.specs.Versions.{version_of};
ghost use Rattle.cert_parser.specs.Readers.{Keeps, cutting, HasHighs, waits_behind, root_behind, waits_after, root_after, cuts_after, LeadsTo, KeepsHighs, told_of, stage_of, TakesNatural, TakesWhole};
ghost use Rattle.cert_parser.specs.Telling.{within, ahead, phase_of, phase_behind, HasSameClaim, IsShallow, Stays, Tells};
ghost use Rattle.cert_format.specs.Frames.{frame_of};
ghost use Rattle.cert_format.specs.Text.{is_deep, scale_fault, variable_fault};
ghost use Rattle.cert_parser.specs.Standing.{StandsFor};
ghost use Rattle.cert_format.specs.Spots.{spot_sort};
ghost use Rattle.cert_format.specs.declared.spots.Spot.TheVariants as spots;
ghost use Rattle.cert_format.specs.declared.spots.Sort.TheVariants.{Natural, Whole};

mod bytes;
mod cuts;

use crate::multipliers::Multipliers;
use bp_theory::{Claim, Cut, Items, Picked, Proof};
use cert_format::{
    CertFault, CertKind, Frame, MAX_MULTIPLIER, Spot, Version, Word, first_spot, is_too_deep,
    judge_block, judge_coordinate, judge_multiplier, judge_scale, judge_value, judge_variable,
};
use std::alloc::{AllocError, Global};
use std::mem;

// How much of a token has come.
#[derive(Clone, Copy)]
pub enum Part {
    // Nothing: the next byte begins a token.
    Fresh,
    // So many bytes of a word, at least one and not all.
    InWord { word: Word, done: usize },
    // The minus of a number.
    Minus,
    // The minus of a number on the line of a node that is too deep, or of a cut too many.
    DeepMinus,
    // Digits, behind a minus where `negative`; their number so far, which stands still at 2^64 - 1.
    Digits { negative: bool, value: u64 },
}

/// A variable, by its number from 0, and the number behind which its span is split.
#[derive(Clone, Copy)]
pub struct SplitPlace {
    /// The number of the variable, from 0; the text counts from 1.
    pub var: u32,
    /// The greatest number of the low part; the high part begins one above.
    pub at: i64,
}

/// What lines of a certificate say, told at the byte that ends the last of them.
#[derive(Drop)]
pub enum Event {
    /// The claim, and the point where it has one: the cuts come next in version 3, and else the tree.
    Claim,
    /// A cut: a further one comes next, or the tree.
    Cut(Cut),
    /// A split: its low part comes next.
    Split(SplitPlace),
    /// A leaf, open or shut, with its proof, which has all its multipliers in each version. What comes next is the
    /// nearest high part that is still to come, or the last line.
    Leaf { is_open: bool, proof: Proof },
}

/// A reader of a certificate's lines. It keeps no tree and no cuts: of the nodes that were read only the depths of the
/// high parts that are still to come, at most one more than the limits allow splits above a node, and the multipliers
/// that the next leaf changes; of the cuts that were read, how many there are.
#[derive(Drop)]
pub struct Lines {
    // Where in the grammar the token at hand stands, or else the next one.
    spot: Spot,
    // How much of that token has come.
    part: Part,
    // The number of the line at hand, from 1.
    line: u64,
    // The version that the first line says; 1 before.
    version: Version,
    /// The claim that the second line makes; `Infeasible` before.
    pub claim: Claim,
    // The bound of a claim, in the text's own sense, until the whole claim is known.
    bound: i64,
    /// The numbers of the claimed point so far, by number of variable.
    pub point: Items<i64>,
    // How many cuts have begun: their divisors have come.
    cuts: u16,
    // The divisor of the cut at hand.
    divisor: u32,
    // The depth of the node that comes next; the root's is 0.
    depth: usize,
    // The depths of the high parts that are still to come, the nearest last.
    highs: Vec<usize>,
    // The multipliers of the leaf before, which the next leaf changes; none in version 1.
    had: Multipliers,
    // Whether the leaf at hand is open.
    is_open: bool,
    // The scale of the leaf at hand.
    scale: u32,
    // The rows of the leaf or cut at hand so far, by numbers from 0, with their multipliers; from version 2 on a leaf
    // has only those that change, with 0 for a row that loses its multiplier.
    mults: Items<(u32, i64)>,
    // The picked blocks of the leaf at hand so far, by numbers from 0.
    blocks: Items<u32>,
    // The row, by its number from 0, whose multiplier comes next.
    row: u32,
    // The last row or block of the list at hand, as the text counts from 1; 0 before the first.
    last: u64,
    // How many rows or blocks of the list at hand are still to come.
    left: u64,
    // The variable and the number of the split at hand.
    place: SplitPlace,
}

impl Lines {
    // A leaf is whole: the nearest high part comes next, or the last line.
    fn leave_leaf(&mut self)
        requires { cutting self.old.spot ≡ 0 }
        ensures place { (above : List Wait) (root tree : Tree) (cuts : List texts.Cut) (n : ℕ) →
            HasHighs above cuts self.old →
            stage_of (waits_behind above tree) (root_behind above root tree) cuts self.new n ≡
            behind (told_of cuts self.old) above tree }
        ensures highs { (above : List Wait) (tree : Tree) (cuts : List texts.Cut) →
            HasHighs above cuts self.old → HasHighs (waits_behind above tree) cuts self.new }
        ensures keeps { Keeps self.old self.new }
        ensures phase { phase_of self.new ≡ phase_behind self.old.highs.items }
        ensures claim { HasSameClaim self.old self.new }
        ensures shallow { (limits : Limits) → IsShallow limits self.new }
    {
        match self.highs.pop() {
            Some(depth) => {
                self.depth = depth;
                self.spot = Spot::Node;
            }
            None => {
                self.depth = 0;
                self.spot = Spot::End;
            }
        }
    }

    // A leaf's line ends, where all blocks are priced.
    fn end_every(&mut self, alloc: Global) -> Result<Option<Event>, AllocError>
        requires { cutting self.old.spot ≡ 0 }
        ensures place { IfOk result (λ event. (above : List Wait) (root : Tree) (cuts : List texts.Cut) (n : ℕ) →
            HasHighs above cuts self.old →
            stage_of (waits_after above event) (root_after above root event) (cuts_after cuts event) self.new n ≡
            behind_leaf (told_of cuts self.old) above self.old.is_open (written_proof
            (record { scale = self.old.scale; mults = self.old.mults; picked = Every }))) }
        ensures highs { IfOk result (λ event. KeepsHighs self.old self.new event) }
        ensures keeps { OnOk result (Keeps self.old self.new) }
        ensures told { IfOk result (λ event. (limits : Limits) → phase_of self.old ≡ within →
            Tells limits self.old self.new event) }
    {
        let mults = self.had.next(alloc, self.version, self.mults.as_slice())?;
        let is_open = self.is_open;
        let proof = Proof {
            scale: self.scale,
            mults,
            picked: Picked::Every,
        };
        self.leave_leaf();
        Ok(Some(Event::Leaf { is_open, proof }))
    }

    // A leaf's line ends, where the blocks of a list are priced.
    fn end_these(&mut self, alloc: Global) -> Result<Option<Event>, AllocError>
        requires { cutting self.old.spot ≡ 0 }
        ensures place { IfOk result (λ event. (above : List Wait) (root : Tree) (cuts : List texts.Cut) (n : ℕ) →
            HasHighs above cuts self.old →
            stage_of (waits_after above event) (root_after above root event) (cuts_after cuts event) self.new n ≡
            behind_leaf (told_of cuts self.old) above self.old.is_open (written_proof
            (record {
              scale = self.old.scale;
              mults = self.old.mults;
              picked = These
                  self.old.blocks;
            }))) }
        ensures highs { IfOk result (λ event. KeepsHighs self.old self.new event) }
        ensures keeps { OnOk result (Keeps self.old self.new) }
        ensures told { IfOk result (λ event. (limits : Limits) → phase_of self.old ≡ within →
            Tells limits self.old self.new event) }
    {
        let mults = self.had.next(alloc, self.version, self.mults.as_slice())?;
        let blocks = mem::replace(&mut self.blocks, Items::new(alloc));
        let is_open = self.is_open;
        let proof = Proof {
            scale: self.scale,
            mults,
            picked: Picked::These(blocks),
        };
        self.leave_leaf();
        Ok(Some(Event::Leaf { is_open, proof }))
    }

    // A split's line ends.
    fn end_split(&mut self) -> Result<Option<Event>, AllocError>
        requires { cutting self.old.spot ≡ 0 }
        ensures place { IfOk result (λ event. (above : List Wait) (root : Tree) (cuts : List texts.Cut) (n : ℕ) →
            stage_of (waits_after above event) (root_after above root event) (cuts_after cuts event) self.new n ≡
            at_node (told_of cuts self.old)
            (low_of (in_text self.old.place.var) self.old.place.at ∷ above)) }
        ensures highs { IfOk result (λ event. KeepsHighs self.old self.new event) }
        ensures keeps { OnOk result (Keeps self.old self.new) }
        ensures told { IfOk result (λ event. (limits : Limits) → self.old.spot ≡ spots.SplitEnd →
            Tells limits self.old self.new event) }
    {
        self.depth = self.depth.saturating_add(1);
        self.highs.push(self.depth)?;
        self.spot = Spot::Node;
        Ok(Some(Event::Split(self.place)))
    }

    // A claim is whole: the cuts come next in version 3, and else the tree.
    fn begin_tree(&mut self, alloc: Global) -> Result<Option<Event>, AllocError>
        ensures place { IfOk result (λ event. (above : List Wait) (root : Tree) (cuts : List texts.Cut) (n : ℕ) →
            stage_of (waits_after above event) (root_after above root event) (cuts_after cuts event) self.new n ≡
            begin (version_of self.old.version) (written_claim self.old.claim self.old.point) []) }
        ensures highs { IfOk result (λ event. (above : List Wait) (cuts : List texts.Cut) →
            HasHighs (waits_after above event) (cuts_after cuts event) self.new) }
        ensures keeps { OnOk result (Keeps self.old self.new) }
        ensures told { IfOk result (λ event. (limits : Limits) → phase_of self.old ≡ ahead →
            Tells limits self.old self.new event) }
    {
        self.depth = 0;
        self.highs = Vec::new(alloc);
        self.had = Multipliers::new(alloc);
        self.cuts = 0;
        let spot = first_spot(self.version);
        self.spot = spot;
        Ok(Some(Event::Claim))
    }

    // The reader goes on at another place.
    fn go_to(&mut self, spot: Spot) -> Result<Option<Event>, AllocError>
        ensures moved { self.new ≡ record self.old { spot = spot } }
        ensures done { result ≡ Ok None }
    {
        self.spot = spot;
        Ok(None)
    }

    // The version is known: the claim comes next.
    fn begin_claim(&mut self, version: Version) -> Result<Option<Event>, AllocError>
        ensures moved { self.new ≡
            record self.old { spot = spots.FirstEnd; version = version } }
        ensures done { result ≡ Ok None }
    {
        self.version = version;
        self.spot = Spot::FirstEnd;
        Ok(None)
    }

    // The values of a point come next.
    fn begin_point(&mut self, alloc: Global) -> Result<Option<Event>, AllocError>
        ensures moved { self.new ≡ record self.old { spot = spots.Values; point = [] } }
        ensures done { result ≡ Ok None }
    {
        self.point = Items::new(alloc);
        self.spot = Spot::Values;
        Ok(None)
    }

    // A leaf's line begins.
    fn begin_leaf(&mut self, is_open: bool) -> Result<Option<Event>, AllocError>
        ensures moved { self.new ≡ record self.old { spot = spots.Scale; is_open = is_open } }
        ensures done { result ≡ Ok None }
    {
        self.is_open = is_open;
        self.spot = Spot::Scale;
        Ok(None)
    }

    // Behind a word of the kind of claim.
    fn after_kind(&mut self, word: Word) -> Result<Option<Event>, AllocError>
        requires { self.old.spot ≡ spots.Kind }
        ensures place { IfOk result (λ event. LeadsTo self.old self.new event word) }
        ensures highs { IfOk result (λ event. KeepsHighs self.old self.new event) }
        ensures keeps { OnOk result (Keeps self.old self.new) }
        ensures told { IfOk result (λ event. (limits : Limits) → Tells limits self.old self.new event) }
    {
        match word {
            Word::Optimal => self.go_to(Spot::OptimalValue),
            Word::Infeasible => self.go_to(Spot::InfeasibleEnd),
            _ => self.go_to(Spot::BoundValue),
        }
    }

    // Behind a word that follows a bound.
    fn after_bound(&mut self, alloc: Global, word: Word) -> Result<Option<Event>, AllocError>
        requires { self.old.spot ≡ spots.AfterBound }
        ensures place { IfOk result (λ event. LeadsTo self.old self.new event word) }
        ensures highs { IfOk result (λ event. KeepsHighs self.old self.new event) }
        ensures keeps { OnOk result (Keeps self.old self.new) }
        ensures told { IfOk result (λ event. (limits : Limits) → Tells limits self.old self.new event) }
    {
        match word {
            Word::Value => self.go_to(Spot::KnownValue),
            _ => {
                self.claim = Claim::Bound(self.bound, None);
                self.begin_tree(alloc)
            }
        }
    }

    // Behind the claim that a program is infeasible.
    fn end_infeasible(&mut self, alloc: Global) -> Result<Option<Event>, AllocError>
        requires { self.old.spot ≡ spots.InfeasibleEnd }
        ensures place { IfOk result (λ event. (word : Word) →
            LeadsTo self.old self.new event word) }
        ensures highs { IfOk result (λ event. KeepsHighs self.old self.new event) }
        ensures keeps { OnOk result (Keeps self.old self.new) }
        ensures told { IfOk result (λ event. (limits : Limits) → Tells limits self.old self.new event) }
    {
        self.claim = Claim::Infeasible;
        self.begin_tree(alloc)
    }

    // Behind a word with which a node's line begins.
    fn after_node(&mut self, word: Word) -> Result<Option<Event>, AllocError>
        requires { self.old.spot ≡ spots.Node }
        ensures place { IfOk result (λ event. LeadsTo self.old self.new event word) }
        ensures highs { IfOk result (λ event. KeepsHighs self.old self.new event) }
        ensures keeps { OnOk result (Keeps self.old self.new) }
        ensures told { IfOk result (λ event. (limits : Limits) → Tells limits self.old self.new event) }
    {
        match word {
            Word::Leaf => self.begin_leaf(false),
            Word::Open => self.begin_leaf(true),
            _ => self.go_to(Spot::Variable),
        }
    }

    // The reader goes on behind a word that may come.
    fn after_word(&mut self, alloc: Global, word: Word) -> Result<Option<Event>, AllocError>
        ensures place { IfOk result (λ event. LeadsTo self.old self.new event word) }
        ensures highs { IfOk result (λ event. KeepsHighs self.old self.new event) }
        ensures keeps { OnOk result (Keeps self.old self.new) }
        ensures told { IfOk result (λ event. (limits : Limits) → Tells limits self.old self.new event) }
    {
        match (self.spot, word) {
            (Spot::Bpcert, _) => self.go_to(Spot::Version),
            (Spot::Version, Word::Two) => self.begin_claim(Version::Two),
            (Spot::Version, Word::Three) => self.begin_claim(Version::Three),
            (Spot::Version, _) => self.begin_claim(Version::One),
            (Spot::FirstEnd, _) => self.go_to(Spot::Claim),
            (Spot::Claim, _) => self.go_to(Spot::Kind),
            (Spot::Kind, _) => self.after_kind(word),
            (Spot::InfeasibleEnd, _) => self.end_infeasible(alloc),
            (Spot::AfterBound, _) => self.after_bound(alloc, word),
            (Spot::ClaimEnd, _) => self.go_to(Spot::Point),
            (Spot::Point, _) => self.begin_point(alloc),
            (Spot::Values, Word::Space) => self.go_to(Spot::Coordinate),
            (Spot::Values, _) => self.begin_tree(alloc),
            (Spot::FirstCut, _) => self.go_to(Spot::Divisor),
            (Spot::Cuts, _) => self.after_cuts(word),
            (Spot::CutRows, _) => self.go_to(Spot::CutCount),
            (Spot::CutPairs, Word::Space) => self.go_to(Spot::CutRow),
            (Spot::CutPairs, _) => self.end_cut(alloc),
            (Spot::CutGap, _) => self.go_to(Spot::CutMultiplier),
            (Spot::Node, _) => self.after_node(word),
            (Spot::Rows, _) => self.go_to(Spot::Count),
            (Spot::Pairs, Word::Space) => self.go_to(Spot::Row),
            (Spot::Pairs, _) => self.go_to(Spot::Priced),
            (Spot::RowGap, _) => self.go_to(Spot::Multiplier),
            (Spot::Priced, _) => self.go_to(Spot::LeafEnd),
            (Spot::Blocks, Word::Space) => self.go_to(Spot::Block),
            (Spot::Blocks, _) => self.end_these(alloc),
            (Spot::LeafEnd, _) => self.end_every(alloc),
            (Spot::VariableGap, _) => self.go_to(Spot::Place),
            (Spot::SplitEnd, _) => self.end_split(),
            (Spot::End, _) => self.go_to(Spot::LastEnd),
            (Spot::LastEnd, _) => self.go_to(Spot::Over),
            _ => Ok(None),
        }
    }

    // A fault on the line of the reader.
    fn fault(&self, kind: CertKind) -> CertFault
        ensures { result ≡ CertFault.At self.now.line kind }
    {
        CertFault::At {
            line: self.line,
            kind,
        }
    }

    // Whether the next node is too deep.
    fn is_deep(&self, frame: &Frame) -> bool
        ensures { (above : List Wait) (cuts : List texts.Cut) → HasHighs above cuts self.now →
            result ≡ is_deep frame.now.limits (length above) }
    {
        is_too_deep(frame, self.depth)
    }

    // The scale of the next node.
    fn scale_of(&self, frame: &Frame, value: u64) -> Result<u32, CertKind>
        ensures { MatchResult result (λ s. ((above : List Wait) (cuts : List texts.Cut) → HasHighs above cuts self.now →
            scale_fault (frame_of frame.now) (length above) value ≡ None) × (s ≡ value))
            (λ kind. (above : List Wait) (cuts : List texts.Cut) → HasHighs above cuts self.now →
            scale_fault (frame_of frame.now) (length above) value ≡ Some kind) }
    {
        judge_scale(frame, self.depth, value)
    }

    // The variable behind which the next node is split, as its number from 0.
    fn variable_of(&self, frame: &Frame, value: u64) -> Result<u32, CertKind>
        ensures judged { MatchResult result (λ v. ((above : List Wait) (cuts : List texts.Cut) → HasHighs above cuts self.now →
            variable_fault (frame_of frame.now) (length above) value ≡ None) × (v + 1 ≡ value))
            (λ kind. (above : List Wait) (cuts : List texts.Cut) → HasHighs above cuts self.now →
            variable_fault (frame_of frame.now) (length above) value ≡ Some kind) }
        ensures shallow { OnOk result (is_deep frame.now.limits self.now.depth ≡ false) }
    {
        judge_variable(frame, self.depth, value)
    }

    // A leaf's scale is known.
    fn keep_scale(&mut self, scale: u32) -> Result<(), CertFault>
        ensures moved { self.new ≡ record self.old { spot = spots.Rows; scale = scale } }
        ensures done { result ≡ Ok tt }
    {
        self.scale = scale;
        self.spot = Spot::Rows;
        Ok(())
    }

    // So many rows come next, at this place.
    fn begin_pairs(&mut self, alloc: Global, count: u64, spot: Spot) -> Result<(), CertFault>
        ensures moved { self.new ≡
            record self.old { spot = spot; mults = []; last = 0; left = count } }
        ensures done { result ≡ Ok tt }
    {
        self.mults = Items::new(alloc);
        self.last = 0;
        self.left = count;
        self.spot = spot;
        Ok(())
    }

    // A row's number is known: its multiplier comes behind this place.
    fn keep_row(&mut self, row: u32, spot: Spot) -> Result<(), CertFault>
        ensures moved { self.new ≡ record self.old { spot = spot; row = row } }
        ensures done { result ≡ Ok tt }
    {
        self.row = row;
        self.spot = spot;
        Ok(())
    }

    // So many blocks come next.
    fn begin_blocks(&mut self, alloc: Global, count: u64) -> Result<(), CertFault>
        ensures moved { self.new ≡
            record self.old { spot = spots.Blocks; blocks = []; last = 0; left = count } }
        ensures done { result ≡ Ok tt }
    {
        self.blocks = Items::new(alloc);
        self.last = 0;
        self.left = count;
        self.spot = Spot::Blocks;
        Ok(())
    }

    // The variable of a split is known.
    fn keep_variable(&mut self, var: u32) -> Result<(), CertFault>
        ensures moved { self.new ≡ record self.old {
          spot = spots.VariableGap;
          place = record self.old.place { var = var };
        } }
        ensures done { result ≡ Ok tt }
    {
        self.place.var = var;
        self.spot = Spot::VariableGap;
        Ok(())
    }

    // A block is priced.
    fn take_block(&mut self, frame: &Frame, value: u64) -> Result<(), CertFault>
        requires { self.old.spot ≡ spots.Block }
        ensures takes { TakesNatural (frame_of frame.now) self.old self.new value result }
        ensures stays { OnOk result (Stays frame.now.limits self.old self.new) }
    {
        match judge_block(frame, self.last, value) {
            Err(kind) => Err(self.fault(kind)),
            Ok(block) => {
                if self.blocks.push(block).is_err() {
                    return Err(CertFault::NoMemory);
                }
                self.last = value;
                self.left = self.left.saturating_sub(1);
                self.spot = Spot::Blocks;
                Ok(())
            }
        }
    }

    // A number without a sign.
    fn take_natural(&mut self, alloc: Global, frame: &Frame, value: u64) -> Result<(), CertFault>
        requires { spot_sort self.old.spot ≡ Natural }
        ensures takes { TakesNatural (frame_of frame.now) self.old self.new value result }
        ensures stays { OnOk result (Stays frame.now.limits self.old self.new) }
    {
        match self.spot {
            Spot::Scale => match self.scale_of(frame, value) {
                Err(kind) => Err(self.fault(kind)),
                Ok(scale) => self.keep_scale(scale),
            },
            Spot::Divisor => match self.divisor_of(value) {
                Err(kind) => Err(self.fault(kind)),
                Ok(divisor) => self.keep_divisor(divisor),
            },
            Spot::CutCount => self.begin_pairs(alloc, value, Spot::CutPairs),
            Spot::CutRow => match self.combined_of(frame, value) {
                Err(kind) => Err(self.fault(kind)),
                Ok(row) => self.keep_row(row, Spot::CutGap),
            },
            Spot::Count => self.begin_pairs(alloc, value, Spot::Pairs),
            Spot::Row => match self.row_of(frame, value) {
                Err(kind) => Err(self.fault(kind)),
                Ok(row) => self.keep_row(row, Spot::RowGap),
            },
            Spot::Priced => self.begin_blocks(alloc, value),
            Spot::Block => self.take_block(frame, value),
            Spot::Variable => match self.variable_of(frame, value) {
                Err(kind) => Err(self.fault(kind)),
                Ok(var) => self.keep_variable(var),
            },
            _ => Ok(()),
        }
    }

    // A row's multiplier is kept; the next row comes at this place.
    fn keep_multiplier(&mut self, z: &i64, spot: Spot) -> Result<(), AllocError>
        ensures { OnOk result (self.new ≡
            record self.old {
              spot = spot;
              mults = self.old.mults ++ (self.old.row, z.now) ∷
                  [];
              last = self.old.row + 1;
              left = self.old.left - 1;
            }) }
    {
        self.mults.push((self.row, *z))?;
        self.last = u64::from(self.row) + 1;
        self.left = self.left.saturating_sub(1);
        self.spot = spot;
        Ok(())
    }

    // A multiplier of a leaf's row.
    fn take_multiplier(&mut self, negative: bool, value: u64) -> Result<(), CertFault>
        requires { self.old.spot ≡ spots.Multiplier }
        ensures takes { (frame : Frame) →
            TakesWhole (frame_of frame) self.old self.new negative value result }
        ensures stays { (limits : Limits) → OnOk result (Stays limits self.old self.new) }
    {
        match judge_multiplier(MAX_MULTIPLIER, &self.had.get(self.row), negative, value) {
            Err(kind) => Err(self.fault(kind)),
            Ok(z) => match self.keep_multiplier(&z, Spot::Pairs) {
                Err(_) => Err(CertFault::NoMemory),
                Ok(()) => Ok(()),
            },
        }
    }

    // A point's value.
    fn take_coordinate(
        &mut self,
        frame: &Frame,
        negative: bool,
        value: u64,
    ) -> Result<(), CertFault>
        requires { self.old.spot ≡ spots.Coordinate }
        ensures takes { TakesWhole (frame_of frame.now) self.old self.new negative value result }
        ensures stays { OnOk result (Stays frame.now.limits self.old self.new) }
    {
        match judge_coordinate(frame, self.point.len(), negative, value) {
            Err(kind) => Err(self.fault(kind)),
            Ok(z) => {
                if self.point.push(z).is_err() {
                    return Err(CertFault::NoMemory);
                }
                self.spot = Spot::Values;
                Ok(())
            }
        }
    }

    // A claim is known, but for its point.
    fn keep_claim(&mut self, claim: Claim) -> Result<(), CertFault>
        ensures moved { self.new ≡ record self.old { spot = spots.ClaimEnd; claim = claim } }
        ensures done { result ≡ Ok tt }
    {
        self.claim = claim;
        self.spot = Spot::ClaimEnd;
        Ok(())
    }

    // A claimed bound is known.
    fn keep_bound(&mut self, bound: i64) -> Result<(), CertFault>
        ensures moved { self.new ≡ record self.old { spot = spots.AfterBound; bound = bound } }
        ensures done { result ≡ Ok tt }
    {
        self.bound = bound;
        self.spot = Spot::AfterBound;
        Ok(())
    }

    // The number behind which a span is split is known.
    fn keep_place(&mut self, at: i64) -> Result<(), CertFault>
        ensures moved { self.new ≡ record self.old {
          spot = spots.SplitEnd;
          place = record self.old.place { at = at };
        } }
        ensures done { result ≡ Ok tt }
    {
        self.place.at = at;
        self.spot = Spot::SplitEnd;
        Ok(())
    }

    // A number with a sign.
    fn take_whole(&mut self, frame: &Frame, negative: bool, value: u64) -> Result<(), CertFault>
        requires { spot_sort self.old.spot ≡ Whole }
        ensures takes { TakesWhole (frame_of frame.now) self.old self.new negative value result }
        ensures stays { OnOk result (Stays frame.now.limits self.old self.new) }
    {
        match self.spot {
            Spot::Coordinate => self.take_coordinate(frame, negative, value),
            Spot::CutMultiplier => self.take_cut_multiplier(negative, value),
            Spot::Multiplier => self.take_multiplier(negative, value),
            Spot::OptimalValue => match judge_value(negative, value) {
                Err(kind) => Err(self.fault(kind)),
                Ok(z) => self.keep_claim(Claim::Optimal(z)),
            },
            Spot::BoundValue => match judge_value(negative, value) {
                Err(kind) => Err(self.fault(kind)),
                Ok(z) => self.keep_bound(z),
            },
            Spot::KnownValue => match judge_value(negative, value) {
                Err(kind) => Err(self.fault(kind)),
                Ok(z) => self.keep_claim(Claim::Bound(self.bound, Some(z))),
            },
            Spot::Place => match judge_value(negative, value) {
                Err(kind) => Err(self.fault(kind)),
                Ok(z) => self.keep_place(z),
            },
            _ => Ok(()),
        }
    }

    /// A reader that has read nothing.
    pub fn new(alloc: Global) -> Lines
        ensures stands { (root : Tree) (frame : Frame) → StandsFor [] root [] frame result [] }
        ensures phase { phase_of result ≡ ahead }
        ensures shallow { (limits : Limits) → IsShallow limits result }
    {
        Lines {
            spot: Spot::Bpcert,
            part: Part::Fresh,
            line: 1,
            version: Version::One,
            claim: Claim::Infeasible,
            bound: 0,
            point: Items::new(alloc),
            cuts: 0,
            divisor: 0,
            depth: 0,
            highs: Vec::new(alloc),
            had: Multipliers::new(alloc),
            is_open: false,
            scale: 0,
            mults: Items::new(alloc),
            blocks: Items::new(alloc),
            row: 0,
            last: 0,
            left: 0,
            place: SplitPlace { var: 0, at: 0 },
        }
    }

    /// What is claimed, once the claim has come.
    pub fn claim(&self) -> Claim
        ensures { result ≡ self.now.claim }
    {
        self.claim
    }

    /// The values of the point that came, if any.
    pub fn point(&self) -> &[i64]
        ensures { result.now ≡ self.now.point }
    {
        self.point.as_slice()
    }
}
