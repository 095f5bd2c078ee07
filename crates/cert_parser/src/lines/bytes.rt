// A reader of lines goes on by a byte, or ends.
ghost use Rattle.std.specs.Prelude.{◌≡◌, ℕ, [], ◌∷◌, Bool, List, true, false, if◌then◌else◌, Ok, Some, None, IfOk, OnOk, IsErrOf, ℤ, pos, length, slice_index_or, ◌+◌, ◌-◌, ◌<◌, ◌^◌};
ghost use Rattle.bp_theory.specs.declared.Limits.{Limits};
ghost use Rattle.cert_format.specs.declared.frame.Frame.{Frame};
ghost use Rattle.cert_format.specs.declared.words.Word.{Word};
ghost use Rattle.cert_format.specs.Cert.{Cut, Tree};
ghost use Rattle.cert_format.specs.Stages.{Wait, words, line_fault, number_fault, is_deep_stage, deep_kind};
ghost use Rattle.cert_parser.specs.Readers.{HasHighs, stage_of};
ghost use Rattle.cert_parser.specs.Telling.{Stays, Tells};
ghost use Rattle.cert_format.specs.Frames.{frame_of};
ghost use Rattle.cert_format.specs.Words.{word_text, word_begins, word_token};
ghost use Rattle.cert_format.specs.Text.{fault_of};
ghost use Rattle.cert_format.specs.Fault.{IsFirstCertFault};
ghost use Rattle.cert_format.specs.Signed.{signed};
ghost use Rattle.cert_format.specs.Spots.{spot_sort};
ghost use Rattle.cert_format.specs.declared.spots.Sort.TheVariants.{Natural, Whole};
ghost use Rattle.cert_format.specs.Reached.{MayStand, Comes, is_digit};
ghost use Rattle.cert_parser.specs.Standing.{StandsFor, Between, InWordAt, Steps, EndsNumberAt, EndsWell};
ghost use Rattle.cert_parser.specs.declared.lines.Part.TheVariants.{Digits, Minus, DeepMinus};

use crate::lines::{Event, Lines, Part};
use cert_format::{
    CertFault, CertKind, Frame, MAX_DIVISOR, MAX_MULTIPLIER, Sort, Spot, Word, bytes_of, ends_line,
    judge_block, judge_coordinate, judge_multiplier, judge_value, pick, sort_of, words_at,
};
use std::alloc::Global;

// Whether a byte is a digit.
fn digit(byte: u8) -> bool
    ensures { result ≡ is_digit byte }
{
    byte >= b'0' && byte <= b'9'
}

impl Lines {
    // Whether a line's end would leave a point with too few values.
    fn is_short_point(&self, frame: &Frame) -> bool
        ensures { (above : List Wait) (root : Tree) (cuts : List Cut) (n : ℕ) → (result ≡ true → line_fault (frame_of
            frame.now) (stage_of above root cuts self.now n) ≡
            Some CertKind.Length) × (result ≡ false →
            line_fault (frame_of frame.now) (stage_of above root cuts self.now n) ≡ None) }
    {
        match self.spot {
            Spot::Values => self.point.len() < frame.variables as usize,
            _ => false,
        }
    }

    // Whether a word can't stand as a line's end would leave a point with too few values.
    fn is_faulty_end(&self, frame: &Frame, word: Word) -> bool
        ensures { (above : List Wait) (root : Tree) (cuts : List Cut) (n : ℕ) → fault_of (word_token
            (line_fault (frame_of frame.now) (stage_of above root cuts self.now n)) word) ≡
            (if result then Some CertKind.Length else None) }
    {
        if ends_line(word) {
            self.is_short_point(frame)
        } else {
            false
        }
    }

    // A number ends, where a byte follows that is no digit.
    fn end_number(
        &mut self,
        alloc: Global,
        frame: &Frame,
        negative: bool,
        value: u64,
    ) -> Result<(), CertFault>
        requires { self.old.part ≡ Digits negative value }
        ensures behind { (above : List Wait) (root : Tree) (cuts : List Cut) (text : List ℕ) (byte : ℕ) → length text
            + 1 < 2 ^ 64 →
            StandsFor above root cuts frame.now self.old text → is_digit byte ≡ false →
            EndsNumberAt above root cuts frame.now self.new text byte result }
        ensures stays { OnOk result (Stays frame.now.limits self.old self.new) }
    {
        match sort_of(self.spot) {
            Sort::Natural => self.take_natural(alloc, frame, value),
            Sort::Whole => self.take_whole(frame, negative, value),
            Sort::Wordy => Ok(()),
        }
    }

    // A word is whole.
    fn end_word(
        &mut self,
        alloc: Global,
        frame: &Frame,
        word: Word,
    ) -> Result<Option<Event>, CertFault>
        ensures steps { (above : List Wait) (root : Tree) (cuts : List Cut) (text : List ℕ) (byte count : ℕ) → length text +
            1 < 2 ^ 64 →
            InWordAt above root cuts frame.now self.old word count text → slice_index_or (word_text word)
            count 0 ≡
            byte → count + 1 ≡ length (word_text word) → Steps above root cuts frame.now self.new text
            byte result }
        ensures told { IfOk result (λ event. Tells frame.now.limits self.old self.new event) }
    {
        if self.is_faulty_end(frame, word) {
            return Err(self.fault(CertKind::Length));
        }
        match self.after_word(alloc, word) {
            Err(_) => Err(CertFault::NoMemory),
            Ok(event) => {
                self.part = Part::Fresh;
                if ends_line(word) {
                    self.line = self.line.saturating_add(1);
                    return Ok(event);
                }
                Ok(event)
            }
        }
    }

    // A word goes on with a byte.
    fn go_on(
        &mut self,
        alloc: Global,
        frame: &Frame,
        word: Word,
        done: usize,
        byte: u8,
    ) -> Result<Option<Event>, CertFault>
        ensures steps { (above : List Wait) (root : Tree) (cuts : List Cut) (text : List ℕ) → length text + 1 < 2 ^ 64 →
            (done ≡ 0 → word_begins word byte ≡ true) → InWordAt above root cuts frame.now self.old word
            done text →
            Steps above root cuts frame.now self.new text byte result }
        ensures told { IfOk result (λ event. Tells frame.now.limits self.old self.new event) }
    {
        let bytes = bytes_of(word);
        if done >= bytes.len() {
            return Err(self.fault(CertKind::Syntax));
        }
        if bytes[done] != byte {
            return Err(self.fault(CertKind::Syntax));
        }
        if done + 1 < bytes.len() {
            self.part = Part::InWord {
                word,
                done: done + 1,
            };
            return Ok(None);
        }
        self.end_word(alloc, frame, word)
    }

    // Whether the number comes of a node that is too deep, or of a cut too many.
    fn awaits_deep(&self, frame: &Frame) -> bool
        ensures { (above : List Wait) (root : Tree) (cuts : List Cut) (n : ℕ) → HasHighs above cuts self.now → result ≡
            is_deep_stage (frame_of frame.now) (stage_of above root cuts self.now n) }
    {
        match self.spot {
            Spot::Scale | Spot::Variable => self.is_deep(frame),
            Spot::Divisor => self.has_all_cuts(),
            _ => false,
        }
    }

    // The kind of such a number's fault.
    fn deep_kind(&self) -> CertKind
        ensures { (above : List Wait) (root : Tree) (cuts : List Cut) (n : ℕ) →
            result ≡ deep_kind (stage_of above root cuts self.now n) }
    {
        match self.spot {
            Spot::Divisor => CertKind::Limit,
            _ => CertKind::Depth,
        }
    }

    // Such a number begins with a byte, or the text leaves the grammar.
    fn begin_deep(&mut self, byte: u8) -> Result<Option<Event>, CertFault>
        ensures steps { (above : List Wait) (root : Tree) (cuts : List Cut) (frame : Frame) (text : List ℕ) (number : Bool)
            → length text + 1 < 2 ^ 64 →
            (between : Between above root cuts frame self.old number text) →
            is_deep_stage (frame_of frame) (stage_of above root cuts self.old between.count) ≡ true → MayStand number
            (byte ∷ []) →
            Steps above root cuts frame self.new text byte result }
        ensures told { IfOk result (λ event. (limits : Limits) → Tells limits self.old self.new event) }
    {
        if digit(byte) {
            return Err(self.fault(self.deep_kind()));
        }
        if byte == b'-' {
            self.part = Part::DeepMinus;
            return Ok(None);
        }
        Err(self.fault(CertKind::Syntax))
    }

    // The byte behind a minus, where the number comes of a node that is too deep, or of a cut too many.
    fn behind_deep_minus(&self, byte: u8) -> Result<Option<Event>, CertFault>
        requires { self.now.part ≡ DeepMinus }
        ensures steps { (above : List Wait) (root : Tree) (cuts : List Cut) (frame : Frame) (text : List ℕ) → length text +
            1 < 2 ^ 64 →
            StandsFor above root cuts frame self.now text → Steps above root cuts frame self.now text byte
            result }
        ensures told { IfOk result (λ event. (limits : Limits) → Tells limits self.now self.now event) }
    {
        if digit(byte) {
            return Err(self.fault(self.deep_kind()));
        }
        Err(self.fault(CertKind::Syntax))
    }

    // A number begins with a byte, or the text leaves the grammar.
    fn begin_number(&mut self, frame: &Frame, byte: u8) -> Result<Option<Event>, CertFault>
        ensures steps { (above : List Wait) (root : Tree) (cuts : List Cut) (text : List ℕ) (number : Bool)
            → length text + 1 < 2 ^ 64 →
            (between : Between above root cuts frame.now self.old number text) → MayStand number (byte ∷ [])
            →
            ((v : Word) → Comes v (words (stage_of above root cuts self.old between.count)) →
            word_begins v byte ≡ false) → Steps above root cuts frame.now self.new text byte result }
        ensures told { IfOk result (λ event. Tells frame.now.limits self.old self.new event) }
    {
        if self.awaits_deep(frame) {
            return self.begin_deep(byte);
        }
        match sort_of(self.spot) {
            Sort::Wordy => Err(self.fault(CertKind::Syntax)),
            Sort::Natural => {
                if digit(byte) {
                    self.begin_digits(false, byte)
                } else {
                    Err(self.fault(CertKind::Syntax))
                }
            }
            Sort::Whole => {
                if digit(byte) {
                    self.begin_digits(false, byte)
                } else if byte == b'-' {
                    self.part = Part::Minus;
                    Ok(None)
                } else {
                    Err(self.fault(CertKind::Syntax))
                }
            }
        }
    }

    // The first digit of a number.
    fn begin_digits(&mut self, negative: bool, byte: u8) -> Result<Option<Event>, CertFault>
        requires { is_digit byte ≡ true }
        ensures done { result ≡ Ok None }
        ensures digits { self.new ≡ record self.old { part = Digits negative (byte - 48) } }
    {
        self.part = Part::Digits {
            negative,
            value: u64::from(byte - b'0'),
        };
        Ok(None)
    }

    // A further digit of a number.
    fn more_digits(
        &mut self,
        negative: bool,
        value: u64,
        byte: u8,
    ) -> Result<Option<Event>, CertFault>
        requires part { self.old.part ≡ Digits negative value }
        requires digit { is_digit byte ≡ true }
        ensures steps { (above : List Wait) (root : Tree) (cuts : List Cut) (frame : Frame) (text : List ℕ) → length text +
            1 < 2 ^ 64 →
            StandsFor above root cuts frame self.old text → Steps above root cuts frame self.new text byte
            result }
        ensures told { IfOk result (λ event. (limits : Limits) → Tells limits self.old self.new event) }
    {
        if value == 0 {
            return Err(self.fault(CertKind::Syntax));
        }
        let last = u64::from(byte - b'0');
        self.part = Part::Digits {
            negative,
            value: value.saturating_mul(10).saturating_add(last),
        };
        Ok(None)
    }

    // The byte behind a minus.
    fn behind_minus(&mut self, byte: u8) -> Result<Option<Event>, CertFault>
        requires { self.old.part ≡ Minus }
        ensures steps { (above : List Wait) (root : Tree) (cuts : List Cut) (frame : Frame) (text : List ℕ) → length text +
            1 < 2 ^ 64 →
            StandsFor above root cuts frame self.old text → Steps above root cuts frame self.new text byte
            result }
        ensures told { IfOk result (λ event. (limits : Limits) → Tells limits self.old self.new event) }
    {
        if digit(byte) {
            if byte == b'0' {
                return Err(self.fault(CertKind::Syntax));
            }
            return self.begin_digits(true, byte);
        }
        Err(self.fault(CertKind::Syntax))
    }

    // A token begins with a byte.
    fn begin(&mut self, alloc: Global, frame: &Frame, byte: u8) -> Result<Option<Event>, CertFault>
        ensures steps { (above : List Wait) (root : Tree) (cuts : List Cut) (text : List ℕ) (number : Bool) → length text +
            1 < 2 ^ 64 →
            Between above root cuts frame.now self.old number text → (number ≡ true → is_digit byte ≡
            false) →
            Steps above root cuts frame.now self.new text byte result }
        ensures told { IfOk result (λ event. Tells frame.now.limits self.old self.new event) }
    {
        match pick(words_at(self.version, self.spot, self.left > 0), byte) {
            Some(word) => self.go_on(alloc, frame, word, 0, byte),
            None => self.begin_number(frame, byte),
        }
    }

    /// One byte more: where it ends the claim or a node's line, what was said is told. A fault is answered as soon as
    /// no further bytes can mend it.
    pub fn step(
        &mut self,
        alloc: Global,
        frame: &Frame,
        byte: u8,
    ) -> Result<Option<Event>, CertFault>
        ensures steps { (above : List Wait) (root : Tree) (cuts : List Cut) (text : List ℕ) → length text + 1 < 2 ^ 64 →
            StandsFor above root cuts frame.now self.old text →
            Steps above root cuts frame.now self.new text byte result }
        ensures told { IfOk result (λ event. Tells frame.now.limits self.old self.new event) }
    {
        match self.part {
            Part::Fresh => self.begin(alloc, frame, byte),
            Part::InWord { word, done } => self.go_on(alloc, frame, word, done, byte),
            Part::Minus => self.behind_minus(byte),
            Part::DeepMinus => self.behind_deep_minus(byte),
            Part::Digits { negative, value } => {
                if digit(byte) {
                    return self.more_digits(negative, value, byte);
                }
                match self.end_number(alloc, frame, negative, value) {
                    Err(fault) => Err(fault),
                    Ok(()) => self.begin(alloc, frame, byte),
                }
            }
        }
    }

    // What a number without a sign is at fault for, if for anything.
    fn natural_fault(&self, frame: &Frame, value: u64) -> Option<CertKind>
        requires { spot_sort self.now.spot ≡ Natural }
        ensures { (above : List Wait) (root : Tree) (cuts : List Cut) (n : ℕ) → HasHighs above cuts self.now → number_fault
            (frame_of frame.now) (stage_of above root cuts self.now n) (pos value) ≡
            result }
    {
        match self.spot {
            Spot::Divisor => self.divisor_of(value).err(),
            Spot::CutRow => self.combined_of(frame, value).err(),
            Spot::Scale => self.scale_of(frame, value).err(),
            Spot::Row => self.row_of(frame, value).err(),
            Spot::Block => judge_block(frame, self.last, value).err(),
            Spot::Variable => self.variable_of(frame, value).err(),
            _ => None,
        }
    }

    // What a number with a sign is at fault for, if for anything.
    fn whole_fault(&self, frame: &Frame, negative: bool, value: u64) -> Option<CertKind>
        requires { spot_sort self.now.spot ≡ Whole }
        ensures { (above : List Wait) (root : Tree) (cuts : List Cut) (n : ℕ) → HasHighs above cuts self.now → number_fault
            (frame_of frame.now) (stage_of above root cuts self.now n) (signed negative value) ≡
            result }
    {
        match self.spot {
            Spot::Coordinate => judge_coordinate(frame, self.point.len(), negative, value).err(),
            Spot::CutMultiplier => {
                judge_multiplier(u64::from(MAX_DIVISOR), &0, negative, value).err()
            }
            Spot::Multiplier => {
                judge_multiplier(MAX_MULTIPLIER, &self.had.get(self.row), negative, value).err()
            }
            Spot::OptimalValue | Spot::BoundValue | Spot::KnownValue | Spot::Place => {
                judge_value(negative, value).err()
            }
            _ => None,
        }
    }

    // What a text is at fault for that ends with a number: the number, or that no more comes.
    fn last_kind(&self, frame: &Frame, negative: bool, value: u64) -> CertKind
        requires { self.now.part ≡ Digits negative value }
        ensures { (above : List Wait) (root : Tree) (cuts : List Cut) (text : List ℕ) → StandsFor above root cuts frame.now
            self.now text → IsFirstCertFault (frame_of frame.now) text self.now.line result }
    {
        match sort_of(self.spot) {
            Sort::Natural => self.natural_fault(frame, value).unwrap_or(CertKind::Syntax),
            Sort::Whole => self
                .whole_fault(frame, negative, value)
                .unwrap_or(CertKind::Syntax),
            Sort::Wordy => CertKind::Syntax,
        }
    }

    /// The text ends here: it is a certificate's, or has a fault. This takes no memory.
    pub fn end(&self, frame: &Frame) -> Result<(), CertFault>
        ensures ends { (above : List Wait) (root : Tree) (cuts : List Cut) (text : List ℕ) →
            StandsFor above root cuts frame.now self.now text →
            EndsWell above root cuts frame.now self.now text result }
        ensures no_memory { IsErrOf result CertFault.NoMemory → ⊥ }
    {
        match self.part {
            Part::Fresh => match self.spot {
                Spot::Over => Ok(()),
                _ => Err(self.fault(CertKind::Syntax)),
            },
            Part::InWord { word: _, done: _ } => Err(self.fault(CertKind::Syntax)),
            Part::Minus => Err(self.fault(CertKind::Syntax)),
            Part::DeepMinus => Err(self.fault(CertKind::Syntax)),
            Part::Digits { negative, value } => {
                Err(self.fault(self.last_kind(frame, negative, value)))
            }
        }
    }
}
