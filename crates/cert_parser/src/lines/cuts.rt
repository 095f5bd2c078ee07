// A reader of lines within the lines of cuts.
ghost use Rattle.std.specs.Prelude.{◌≡◌, ℕ, ◌+◌, ◌<◌, List, length, map, OnOk, IfOk, MatchResult, Ok, Some, None};
ghost use Rattle.bp_theory.specs.Limits.{most_cuts};
ghost use Rattle.bp_theory.specs.declared.Limits.{Limits};
ghost use Rattle.cert_format.specs.declared.frame.Frame.{Frame};
ghost use Rattle.cert_format.specs.declared.words.Word.{Word};
ghost use Rattle.cert_format.specs.declared.spots.Spot.TheVariants as spots;
ghost use Rattle.cert_format.specs.Cert as texts;
ghost use Rattle.cert_format.specs.Cert.{Tree};
ghost use Rattle.cert_format.specs.Frames.{frame_of};
ghost use Rattle.cert_format.specs.Text.{divisor_fault, row_fault, may_name, may_combine};
ghost use Rattle.cert_format.specs.Written.{written_pair};
ghost use Rattle.cert_format.specs.Stages.{Wait, at_cuts, with_cut, is_deep_stage};
ghost use Rattle.cert_parser.specs.Readers.{Keeps, HasHighs, waits_after, root_after, cuts_after, told_of, stage_of, LeadsTo, KeepsHighs, TakesWhole};
ghost use Rattle.cert_parser.specs.Telling.{Stays, Tells};

use crate::lines::{Event, Lines};
use bp_theory::{Cut, Items};
use cert_format::{
    CertFault, CertKind, Frame, MAX_DIVISOR, Spot, Word, is_last_cut, judge_combined,
    judge_divisor, judge_multiplier, judge_row,
};
use std::alloc::{AllocError, Global};
use std::mem;

impl Lines {
    // Behind a word with which a further cut's line begins, or that of the first node.
    pub fn after_cuts(&mut self, word: Word) -> Result<Option<Event>, AllocError>
        requires { self.old.spot ≡ spots.Cuts }
        ensures place { IfOk result (λ event. LeadsTo self.old self.new event word) }
        ensures highs { IfOk result (λ event. KeepsHighs self.old self.new event) }
        ensures keeps { OnOk result (Keeps self.old self.new) }
        ensures told { IfOk result (λ event. (limits : Limits) → Tells limits self.old self.new event) }
    {
        match word {
            Word::Leaf => self.begin_leaf(false),
            Word::Open => self.begin_leaf(true),
            Word::Split => self.go_to(Spot::Variable),
            _ => self.go_to(Spot::Divisor),
        }
    }

    // A cut's line ends.
    pub fn end_cut(&mut self, alloc: Global) -> Result<Option<Event>, AllocError>
        requires { self.old.spot ≡ spots.CutPairs }
        ensures place { IfOk result (λ event. (above : List Wait) (root : Tree) (cuts : List texts.Cut) (n : ℕ) →
            stage_of (waits_after above event) (root_after above root event) (cuts_after cuts event) self.new n ≡
            at_cuts (with_cut (told_of cuts self.old) self.old.divisor (map written_pair self.old.mults)) above) }
        ensures highs { IfOk result (λ event. KeepsHighs self.old self.new event) }
        ensures keeps { OnOk result (Keeps self.old self.new) }
        ensures told { IfOk result (λ event. (limits : Limits) → Tells limits self.old self.new event) }
    {
        let rows = mem::replace(&mut self.mults, Items::new(alloc));
        self.spot = Spot::Cuts;
        Ok(Some(Event::Cut(Cut {
            q: self.divisor,
            rows,
        })))
    }

    // Whether no further cut may come, where the next one's divisor does.
    pub fn has_all_cuts(&self) -> bool
        requires { self.now.spot ≡ spots.Divisor }
        ensures { (frame : texts.Frame) (above : List Wait) (root : Tree) (cuts : List texts.Cut) (n : ℕ) →
            HasHighs above cuts self.now → result ≡ is_deep_stage frame (stage_of above root cuts self.now n) }
    {
        is_last_cut(self.cuts)
    }

    // The divisor of the next cut.
    pub fn divisor_of(&self, value: u64) -> Result<u32, CertKind>
        requires { self.now.spot ≡ spots.Divisor }
        ensures judged { MatchResult result (λ q. ((above : List Wait) (cuts : List texts.Cut) → HasHighs above cuts self.now →
            divisor_fault (length cuts) value ≡ None) × (q ≡ value))
            (λ kind. (above : List Wait) (cuts : List texts.Cut) → HasHighs above cuts self.now →
            divisor_fault (length cuts) value ≡ Some kind) }
        ensures few { OnOk result (self.now.cuts < most_cuts) }
    {
        judge_divisor(self.cuts, value)
    }

    // A row of the cut in the making, as its number from 0: it names earlier cuts alone.
    pub fn combined_of(&self, frame: &Frame, value: u64) -> Result<u32, CertKind>
        requires { self.now.spot ≡ spots.CutRow }
        ensures { MatchResult result (λ r. ((above : List Wait) (cuts : List texts.Cut) → HasHighs above cuts self.now →
            row_fault (may_combine (frame_of frame.now) (length cuts)) self.now.last value ≡ None) × (r + 1 ≡ value))
            (λ kind. (above : List Wait) (cuts : List texts.Cut) → HasHighs above cuts self.now →
            row_fault (may_combine (frame_of frame.now) (length cuts)) self.now.last value ≡ Some kind) }
    {
        judge_combined(frame, self.cuts.saturating_sub(1), self.last, value)
    }

    // A row of a leaf, as its number from 0.
    pub fn row_of(&self, frame: &Frame, value: u64) -> Result<u32, CertKind>
        requires { self.now.spot ≡ spots.Row }
        ensures { MatchResult result (λ r. ((above : List Wait) (cuts : List texts.Cut) → HasHighs above cuts self.now →
            row_fault (may_name (frame_of frame.now) (length cuts)) self.now.last value ≡ None) × (r + 1 ≡ value))
            (λ kind. (above : List Wait) (cuts : List texts.Cut) → HasHighs above cuts self.now →
            row_fault (may_name (frame_of frame.now) (length cuts)) self.now.last value ≡ Some kind) }
    {
        judge_row(frame, self.cuts, self.last, value)
    }

    // A cut's divisor is known.
    pub fn keep_divisor(&mut self, divisor: u32) -> Result<(), CertFault>
        requires { self.old.cuts < most_cuts }
        ensures moved { self.new ≡ record self.old {
          spot = spots.CutRows;
          cuts = self.old.cuts + 1;
          divisor = divisor;
        } }
        ensures done { result ≡ Ok tt }
    {
        self.cuts = self.cuts.saturating_add(1);
        self.divisor = divisor;
        self.spot = Spot::CutRows;
        Ok(())
    }

    // A multiplier of a cut's row.
    pub fn take_cut_multiplier(&mut self, negative: bool, value: u64) -> Result<(), CertFault>
        requires { self.old.spot ≡ spots.CutMultiplier }
        ensures takes { (frame : Frame) →
            TakesWhole (frame_of frame) self.old self.new negative value result }
        ensures stays { (limits : Limits) → OnOk result (Stays limits self.old self.new) }
    {
        match judge_multiplier(u64::from(MAX_DIVISOR), &0, negative, value) {
            Err(kind) => Err(self.fault(kind)),
            Ok(z) => match self.keep_multiplier(&z, Spot::CutPairs) {
                Err(_) => Err(CertFault::NoMemory),
                Ok(()) => Ok(()),
            },
        }
    }
}
