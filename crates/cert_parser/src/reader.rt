// A reader of a certificate's text, which keeps the cuts and builds the tree that its lines say.
ghost use Rattle.std.specs.Prelude.{◌≡◌, List, ℕ, [], OnOk, IfOk, length, Some, ◌++◌, ◌+◌, ◌<◌, ◌^◌};
ghost use Rattle.cert_format.specs.Sketch.{tree_of};
ghost use Rattle.cert_format.specs.Cert.{Split};
ghost use Rattle.cert_format.specs.declared.frame.Frame.{Frame};
ghost use Rattle.cert_format.specs.Written.{in_text, written_tree, written_proof};
ghost use Rattle.cert_format.specs.Stages.{leaf_of};
ghost use Rattle.cert_parser.specs.Readers.{waits_behind, root_behind, waits_after, root_after, cuts_after};
ghost use Rattle.cert_parser.specs.Builders.{waits_of, root_of, cuts_of, Builds, BuildsOn, Feeds};
ghost use Rattle.cert_format.specs.Kept.{ReadsCertificate};

use crate::{Event, Lines, SplitPlace};
use bp_theory::{Cut, Items, Picked, Proof};
use cert_format::{Cert, CertFault, Frame, Sketch};
use std::alloc::{AllocError, Global};

// A split above the tree that comes next: its low part is still to come, or there.
#[derive(Drop)]
pub enum Pending {
    Low(SplitPlace),
    High(SplitPlace, Sketch),
}

/// A reader of a certificate's text, which is fed in pieces.
#[derive(Drop)]
pub struct Reader {
    // What is read of the lines, and of the line at hand.
    lines: Lines,
    // The cuts so far, in order.
    cuts: Items<Cut>,
    // The splits above the tree that comes next, the nearest last.
    pending: Vec<Pending>,
    // The whole tree, once its last leaf has come; before that a leaf that means nothing.
    root: Sketch,
}

// A split of two trees.
fn fork(alloc: Global, place: &SplitPlace, low: Sketch, high: Sketch) -> Result<Sketch, AllocError>
    ensures { IfOk result (λ t. written_tree (tree_of t) ≡ Split (in_text place.now.var)
        place.now.at (written_tree (tree_of low)) (written_tree (tree_of high))) }
{
    let low = Box::new(alloc, low)?;
    let high = Box::new(alloc, high)?;
    Ok(Sketch::Fork {
        var: place.var,
        at: place.at,
        low,
        high,
    })
}

// A leaf of a proof.
fn leaf(is_open: bool, proof: Proof) -> Sketch
    ensures { written_tree (tree_of result) ≡ leaf_of is_open (written_proof proof) }
{
    if is_open {
        Sketch::Open(proof)
    } else {
        Sketch::Leaf(proof)
    }
}

impl Reader {
    // A tree is whole: it goes into the splits above it.
    fn complete(&mut self, alloc: Global, tree: Sketch) -> Result<(), AllocError>
        ensures waits { OnOk result (waits_of self.new.pending.items ≡
            waits_behind (waits_of self.old.pending.items) (written_tree (tree_of tree))) }
        ensures root { OnOk result (root_of self.new.root ≡
            root_behind (waits_of self.old.pending.items) (root_of self.old.root)
            (written_tree (tree_of tree))) }
        ensures cuts { OnOk result (self.new.cuts ≡ self.old.cuts) }
        ensures lines { OnOk result (self.new.lines ≡ self.old.lines) }
    {
        let mut tree = tree;
        while let Some(pending) = self.pending.pop() {
            match pending {
                Pending::Low(place) => {
                    self.pending.push(Pending::High(place, tree))?;
                    return Ok(());
                }
                Pending::High(place, low) => {
                    tree = fork(alloc, &place, low, tree)?;
                }
            }
        }
        self.root = tree;
        Ok(())
    }

    // What a line says goes among the cuts or into the tree.
    fn take(&mut self, alloc: Global, event: Event) -> Result<(), AllocError>
        ensures waits { OnOk result (waits_of self.new.pending.items ≡
            waits_after (waits_of self.old.pending.items) (Some event)) }
        ensures root { OnOk result (root_of self.new.root ≡
            root_after (waits_of self.old.pending.items) (root_of self.old.root) (Some event)) }
        ensures cuts { OnOk result (cuts_of self.new ≡ cuts_after (cuts_of self.old) (Some event)) }
        ensures lines { OnOk result (self.new.lines ≡ self.old.lines) }
    {
        match event {
            Event::Claim => {
                self.pending = Vec::new(alloc);
                self.cuts = Items::new(alloc);
                Ok(())
            }
            Event::Cut(cut) => {
                self.cuts.push(cut)?;
                Ok(())
            }
            Event::Split(place) => {
                self.pending.push(Pending::Low(place))?;
                Ok(())
            }
            Event::Leaf { is_open, proof } => self.complete(alloc, leaf(is_open, proof)),
        }
    }

    // One byte more.
    fn step(&mut self, alloc: Global, frame: &Frame, byte: u8) -> Result<(), CertFault>
        ensures { (text : List ℕ) → length text + 1 < 2 ^ 64 → Builds frame.now self.old text →
            BuildsOn frame.now self.new text byte result }
    {
        match self.lines.step(alloc, frame, byte) {
            Err(fault) => Err(fault),
            Ok(None) => Ok(()),
            Ok(Some(event)) => match self.take(alloc, event) {
                Err(_) => Err(CertFault::NoMemory),
                Ok(()) => Ok(()),
            },
        }
    }

    /// A reader that has read nothing.
    pub fn new(alloc: Global) -> Reader
        ensures { (frame : Frame) → Builds frame result [] }
    {
        Reader {
            lines: Lines::new(alloc),
            cuts: Items::new(alloc),
            pending: Vec::new(alloc),
            root: Sketch::Leaf(Proof {
                scale: 0,
                mults: Items::new(alloc),
                picked: Picked::Every,
            }),
        }
    }

    /// Reads a further piece. A fault is answered as soon as no further bytes can mend it.
    pub fn feed(&mut self, alloc: Global, frame: &Frame, piece: &[u8]) -> Result<(), CertFault>
        ensures { (text : List ℕ) → length text + length piece.now < 2 ^ 64 →
            Builds frame.now self.old text → Feeds frame.now self.new text piece.now result }
    {
        for byte in piece {
            match self.step(alloc, frame, *byte) {
                Err(fault) => return Err(fault),
                Ok(()) => {}
            }
        }
        Ok(())
    }

    /// The certificate that was read, where the text ends here.
    pub fn finish(self, alloc: Global, frame: &Frame) -> Result<Cert, CertFault>
        ensures { (text : List ℕ) → Builds frame.now self text →
            ReadsCertificate frame.now text result }
    {
        let lines = self.lines;
        match lines.end(frame) {
            Err(fault) => return Err(fault),
            Ok(()) => {}
        }
        match Cert::new(alloc, lines.claim, lines.point, self.cuts, self.root) {
            Err(_) => Err(CertFault::NoMemory),
            Ok(cert) => Ok(cert),
        }
    }
}

/// Reads the text of a certificate: gives the certificate, or the first fault of the text by line
/// and kind.
pub fn read(alloc: Global, frame: &Frame, bytes: &[u8]) -> Result<Cert, CertFault>
    ensures { ReadsCertificate frame.now bytes.now result }
{
    // For the proof alone: how long `bytes` can be.
    let _size = bytes.len();
    let mut reader = Reader::new(alloc);
    match reader.feed(alloc, frame, bytes) {
        Err(fault) => Err(fault),
        Ok(()) => reader.finish(alloc, frame),
    }
}
