// A certificate that is judged as its text is fed.
ghost use Rattle.std.specs.Prelude.{◌≡◌, ℕ, ◌+◌, ◌≤◌, ◌<◌, ◌^◌, List, [], ◌∷◌, ◌++◌, length, Option, None, Some, Result, Err, IfOk, IfSome, OnOk, IsErrOf};
ghost use Rattle.bp_theory.specs.Limits.{greatest_depth};
ghost use Rattle.bp_theory.specs.declared.Span.{Span};
ghost use Rattle.block_program.specs.Blocked.{BlockedProgram, IsFormed};
ghost use Rattle.cert_parser.specs.declared.lines.Event.TheVariants as e;
ghost use Rattle.block_pricers.specs.Forms.{forms_in};
ghost use Rattle.block_pricers.specs.Works.{forms_of};
ghost use Rattle.cert_check.specs.Judging.{stopped_at};
ghost use Rattle.cert_walk.specs.Cuttings.{IsCutting, IsClosed, cuts_in, program_by};
ghost use Rattle.cert_walk.specs.Walks.{IsOn, IsWalkIn, IsWithin};
ghost use Rattle.cert_stream.specs.Checks.{Keeps, IsMadeFor, TakesEvent, held_after, ChecksFor, answer_by, Finishes};
ghost use Rattle.cert_stream.specs.Seen.{TellsSeen};
ghost use Rattle.cert_stream.specs.declared.fault.FeedFault as faults;

use crate::fault::{FeedFault, feed_fault};
use block_program::{Blocked, Zone};
use bp_theory::{Cut, Proof};
use cert_check::Judged;
use cert_line_check::{NodePlace, Stop};
use cert_text::{Event, Frame, Lines, SplitPlace, program_frame};
use cert_walk::{Cutting, Path, Walk, begin, enter, goes_on, leave};
use lagr_bound::Work;
use std::alloc::{AllocError, Global};
use std::mem;

/// A judge of a certificate whose text is fed in pieces. It keeps neither the text nor the tree: of the nodes that came only
/// the splits above the one that comes next, and the program with the cuts that came. All its calls are to be given the
/// program in blocks that it was made for.
#[derive(Drop)]
pub struct Checker {
    // What reading needs to know of the program.
    frame: Frame,
    // What is read of the lines, and of the line at hand.
    lines: Lines,
    // The cuts that came, and the program with them.
    cuts: Cutting,
    // What has been judged of the lines that came.
    walk: Walk,
    // The pricers that leaves share; none before the first leaf, and none behind a further cut.
    work: Option<Work>,
    // How many high parts of splits are still to come.
    held: u64,
    // How many bytes came, up to the one that shows the first fault.
    fed: u64,
    // The first fault of the text or want of memory, which every later call answers.
    fault: Option<FeedFault>,
}

impl Checker {
    /// A checker that was fed nothing, for a program without cuts. Where a number of visits is given, the searches for the
    /// picked blocks of the leaves may look at so many beginnings of assignments together, as in `cert_check::check`.
    pub fn make(alloc: Global, b: &Blocked, visits: Option<u64>) -> Result<Checker, AllocError>
        requires uncut { b.now.cuts ≡ [] }
        ensures made_for { IfOk result (IsMadeFor b.now) }
        ensures stands { IfOk result (λ checker. ChecksFor b.now visits checker []) }
        ensures fed { IfOk result (λ checker. checker.fed ≡ 0) }
        ensures none { IfOk result (λ checker. checker.fault ≡ None) }
    {
        let frame = program_frame(alloc, b)?;
        let zone = Zone::root(alloc, b)?;
        Ok(Checker {
            frame,
            lines: Lines::new(alloc),
            cuts: Cutting::new(alloc),
            walk: Walk::At(Path {
                place: NodePlace {
                    zone,
                    line: 3,
                    left: visits,
                },
                forks: Vec::new(alloc),
            }),
            work: None,
            held: 0,
            fed: 0,
            fault: None,
        })
    }

    /// Feeds a further piece of the text. The first fault of the text is answered as soon as no further bytes can mend it, and
    /// from then on, and so is want of memory.
    pub fn feed(&mut self, alloc: Global, b: &Blocked, piece: &[u8]) -> Result<(), FeedFault>
        requires made_for { IsMadeFor b.now self.old }
        requires few { self.old.fed + length piece.now < 2 ^ 63 }
        ensures made_for { IsMadeFor b.now self.new }
        ensures fed { self.new.fed ≤ self.old.fed + length piece.now }
        ensures told { result ≡ answer_by self.new.fault }
        ensures kept { (fault : faults.FeedFault) → self.old.fault ≡ Some fault →
            self.new.fault ≡ Some fault }
        ensures stands { (visits : Option ℕ) (text : List ℕ) →
            ChecksFor b.now visits self.old text →
            ChecksFor b.now visits self.new (text ++ piece.now) }
        ensures seen { (visits : Option ℕ) (text : List ℕ) →
            ChecksFor b.now visits self.old text → TellsSeen b.now (text ++ piece.now) result }
    {
        match self.fault {
            Some(fault) => return Err(fault),
            None => {}
        }
        for byte in piece {
            match self.step(alloc, b, *byte) {
                Err(fault) => return Err(fault),
                Ok(()) => {}
            }
        }
        Ok(())
    }

    // One byte more, where no fault has come.
    fn step(&mut self, alloc: Global, b: &Blocked, byte: u8) -> Result<(), FeedFault>
        requires made_for { IsMadeFor b.now self.old }
        requires few { self.old.fed + 1 < 2 ^ 63 }
        requires none { self.old.fault ≡ None }
        ensures made_for { IsMadeFor b.now self.new }
        ensures fed { self.new.fed ≡ self.old.fed + 1 }
        ensures told { result ≡ answer_by self.new.fault }
        ensures stands { (visits : Option ℕ) (text : List ℕ) →
            ChecksFor b.now visits self.old text →
            ChecksFor b.now visits self.new (text ++ byte ∷ []) }
    {
        self.fed += 1;
        match self.lines.step(alloc, &self.frame, byte) {
            Err(fault) => Err(self.keep_fault(feed_fault(&fault))),
            Ok(None) => Ok(()),
            Ok(Some(event)) => match self.take(alloc, b, event) {
                Err(_) => Err(self.keep_fault(FeedFault::NoMemory)),
                Ok(()) => Ok(()),
            },
        }
    }

    // A fault is answered from now on.
    fn keep_fault(&mut self, fault: FeedFault) -> FeedFault
        ensures kept { self.new ≡ record self.old { fault = Some fault } }
        ensures told { result ≡ fault }
    {
        self.fault = Some(fault);
        fault
    }

    // What a line says is judged.
    fn take(&mut self, alloc: Global, b: &Blocked, event: Event) -> Result<(), AllocError>
        requires formed { IsFormed b.now }
        requires uncut { b.now.cuts ≡ [] }
        requires keeps { Keeps b.now self.old.cuts self.old.work self.old.walk }
        requires few { IsWithin (2 ^ 63 + 2) self.old.walk }
        ensures rest { self.new ≡ record self.old {
          cuts = self.new.cuts;
          walk = self.new.walk;
          work = self.new.work;
          held = self.new.held;
        } }
        ensures keeps { Keeps b.now self.new.cuts self.new.work self.new.walk }
        ensures line { (most : ℕ) → 3 ≤ most → IsWithin most self.old.walk →
            IsWithin (most + 1) self.new.walk }
        ensures held { OnOk result (self.new.held ≡ held_after self.old.held event) }
        ensures judged { OnOk result (TakesEvent b.now self.old.lines.claim self.old.lines.point
            self.old.cuts self.new.cuts self.old.walk self.new.walk event) }
    {
        match event {
            Event::Claim => {
                self.take_claim(b);
                Ok(())
            }
            Event::Cut(cut) => self.take_cut(alloc, b, cut),
            Event::Split(split) => self.take_split(split),
            Event::Leaf { is_open, proof } => self.take_leaf(alloc, b, &proof, is_open),
        }
    }

    // The line of a claim, or of its point where it names a value.
    fn take_claim(&mut self, b: &Blocked)
        requires keeps { Keeps b.now self.old.cuts self.old.work self.old.walk }
        ensures rest { self.new ≡ record self.old { walk = self.new.walk; held = 0 } }
        ensures keeps { Keeps b.now self.new.cuts self.new.work self.new.walk }
        ensures line { (most : ℕ) → 3 ≤ most → IsWithin most self.old.walk →
            IsWithin (most + 1) self.new.walk }
        ensures judged { TakesEvent b.now self.old.lines.claim self.old.lines.point
            self.old.cuts self.new.cuts self.old.walk self.new.walk e.Claim }
    {
        let walk = mem::replace(&mut self.walk, Walk::Misfit);
        self.walk = begin(walk, b, &self.lines.claim(), self.lines.point());
        self.held = 0;
    }

    // The line of a cut.
    fn take_cut(&mut self, alloc: Global, b: &Blocked, cut: Cut) -> Result<(), AllocError>
        requires uncut { b.now.cuts ≡ [] }
        requires keeps { Keeps b.now self.old.cuts self.old.work self.old.walk }
        requires few { IsWithin (2 ^ 63 + 2) self.old.walk }
        ensures rest { self.new ≡ record self.old {
          cuts = self.new.cuts;
          walk = self.new.walk;
          work = self.new.work;
        } }
        ensures keeps { Keeps b.now self.new.cuts self.new.work self.new.walk }
        ensures line { (most : ℕ) → IsWithin most self.old.walk →
            IsWithin (most + 1) self.new.walk }
        ensures judged { OnOk result (TakesEvent b.now self.old.lines.claim self.old.lines.point
            self.old.cuts self.new.cuts self.old.walk self.new.walk (e.Cut cut)) }
    {
        let walk = mem::replace(&mut self.walk, Walk::Misfit);
        let cuts = mem::replace(&mut self.cuts, Cutting::new(alloc));
        // No leaf has been judged yet.
        self.work = None;
        let (cuts, walk) = cuts.add(alloc, b, walk, cut)?;
        self.cuts = cuts;
        self.walk = walk;
        Ok(())
    }

    // The line of a split.
    fn take_split(&mut self, split: SplitPlace) -> Result<(), AllocError>
        requires few { IsWithin (2 ^ 63 + 2) self.old.walk }
        ensures rest { self.new ≡ record self.old { walk = self.new.walk; held = self.new.held } }
        ensures inside { (root : List Span) → IsWalkIn root self.old.walk →
            IsWalkIn root self.new.walk }
        ensures line { (most : ℕ) → IsWithin most self.old.walk →
            IsWithin (most + 1) self.new.walk }
        ensures held { OnOk result (self.new.held ≡ held_after self.old.held (e.Split split)) }
        ensures judged { (b : BlockedProgram) → OnOk result (TakesEvent b self.old.lines.claim
            self.old.lines.point self.old.cuts self.new.cuts self.old.walk self.new.walk
            (e.Split split)) }
    {
        let walk = mem::replace(&mut self.walk, Walk::Misfit);
        self.walk = enter(walk, split)?;
        self.held = self.held.saturating_add(1);
        Ok(())
    }

    // The line of a leaf.
    fn take_leaf(
        &mut self,
        alloc: Global,
        b: &Blocked,
        proof: &Proof,
        is_open: bool,
    ) -> Result<(), AllocError>
        requires formed { IsFormed b.now }
        requires uncut { b.now.cuts ≡ [] }
        requires keeps { Keeps b.now self.old.cuts self.old.work self.old.walk }
        requires few { IsWithin (2 ^ 63 + 2) self.old.walk }
        ensures rest { self.new ≡ record self.old {
          cuts = self.new.cuts;
          walk = self.new.walk;
          work = self.new.work;
          held = self.new.held;
        } }
        ensures keeps { Keeps b.now self.new.cuts self.new.work self.new.walk }
        ensures line { (most : ℕ) → IsWithin most self.old.walk →
            IsWithin (most + 1) self.new.walk }
        ensures held { OnOk result (self.new.held ≡
            held_after self.old.held (e.Leaf is_open proof.now)) }
        ensures judged { OnOk result (TakesEvent b.now self.old.lines.claim self.old.lines.point
            self.old.cuts self.new.cuts self.old.walk self.new.walk (e.Leaf is_open proof.now)) }
    {
        let walk = mem::replace(&mut self.walk, Walk::Misfit);
        self.close_cuts(alloc, b, &walk)?;
        let claim = self.lines.claim();
        let program = self.cuts.program(b);
        self.walk = leave(walk, alloc, program, &claim, &mut self.work, proof, is_open)?;
        self.held = self.held.saturating_sub(1);
        Ok(())
    }

    // Makes the program with the cuts where there are some, it isn't made, and a walk goes on.
    fn close_cuts(&mut self, alloc: Global, b: &Blocked, walk: &Walk) -> Result<(), AllocError>
        requires cuts { IsCutting b.now self.old.cuts }
        requires work { IfSome self.old.work (λ made. forms_of made ≡
            forms_in (program_by b.now self.old.cuts.program)) }
        ensures rest { self.new ≡ record self.old { cuts = self.new.cuts; work = self.new.work } }
        ensures cuts { IsCutting b.now self.new.cuts }
        ensures work { IfSome self.new.work (λ made. forms_of made ≡
            forms_in (program_by b.now self.new.cuts.program)) }
        ensures same { OnOk result (cuts_in self.new.cuts ≡ cuts_in self.old.cuts) }
        ensures closed { OnOk result (IsOn walk.now → IsClosed self.new.cuts) }
    {
        if !goes_on(walk) || self.cuts.is_closed() {
            return Ok(());
        }
        let cuts = mem::replace(&mut self.cuts, Cutting::new(alloc));
        self.work = None;
        self.cuts = cuts.close(alloc, b)?;
        Ok(())
    }

    /// What the certificate is judged to be, where its text ends here, or the first fault of the text. This takes no memory.
    pub fn finish(self) -> Result<Judged, FeedFault>
        requires stands { (b : BlockedProgram) × (visits : Option ℕ) × (text : List ℕ) ×
            IsMadeFor b self × ChecksFor b visits self text }
        ensures finishes { (b : BlockedProgram) (visits : Option ℕ) (text : List ℕ) →
            IsMadeFor b self → ChecksFor b visits self text → Finishes b visits text result }
        ensures kept { (fault : faults.FeedFault) → self.fault ≡ Some fault →
            result ≡ Err fault }
        ensures no_memory { IsErrOf result FeedFault.NoMemory → self.fault ≡ Some FeedFault.NoMemory }
    {
        self.judged()
    }

    // The same, and nothing is let go.
    fn judged(&self) -> Result<Judged, FeedFault>
        requires stands { (b : BlockedProgram) × (visits : Option ℕ) × (text : List ℕ) ×
            IsMadeFor b self.now × ChecksFor b visits self.now text }
        ensures finishes { (b : BlockedProgram) (visits : Option ℕ) (text : List ℕ) →
            IsMadeFor b self.now → ChecksFor b visits self.now text →
            Finishes b visits text result }
        ensures kept { (fault : faults.FeedFault) → self.now.fault ≡ Some fault →
            result ≡ Err fault }
        ensures no_memory { IsErrOf result FeedFault.NoMemory →
            self.now.fault ≡ Some FeedFault.NoMemory }
    {
        match self.fault {
            Some(fault) => return Err(fault),
            None => {}
        }
        match self.lines.end(&self.frame) {
            Err(fault) => Err(feed_fault(&fault)),
            Ok(()) => match &self.walk {
                Walk::At(_) => Ok(Judged::Accepted(self.lines.claim())),
                Walk::Ended(stop) => Ok(stopped(stop)),
                Walk::Misfit => unreachable!(),
            },
        }
    }

    /// How many high parts of splits are still to come, at most one more than the program's limits allow in depth: no more is
    /// kept of the nodes that came than the splits above the next one.
    pub fn held(&self) -> u64
        ensures held { result ≡ self.now.held }
        ensures few { (b : BlockedProgram) (visits : Option ℕ) (text : List ℕ) →
            self.now.fault ≡ None → ChecksFor b visits self.now text →
            result ≤ greatest_depth b.named.program.limits + 1 }
    {
        self.held
    }
}

// What a certificate is judged to be by the line that ends the judgement.
fn stopped(stop: &Stop) -> Judged
    ensures { result ≡ stopped_at stop.now.line stop.now.fault }
{
    let line = stop.line;
    match stop.fault {
        Some(kind) => Judged::Rejected { line, kind },
        None => Judged::Unknown { line },
    }
}
