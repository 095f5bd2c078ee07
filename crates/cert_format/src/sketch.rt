// The tree of a certificate as it is read, with the proofs of its leaves.
ghost use Rattle.std.specs.Prelude.{◌≡◌, ◌<◌, IsTrue, IsFalse, pos};
ghost use Rattle.bp_theory.specs.Trees.{split};
ghost use Rattle.cert_format.specs.Sketch.{tree_of, weight, IsLeaf};

use bp_theory::Proof;
use std::mem;

/// A branch tree with the proofs of its leaves: shut leaves, open leaves, and splits of a
/// variable's span behind a number. Variables, rows and blocks go by their numbers from 0.
pub enum Sketch {
    Leaf(Proof),
    Open(Proof),
    Fork {
        /// The number of the variable that is split.
        var: u32,
        /// The greatest number of the low part; the high part begins at the next one.
        at: i64,
        /// The tree of the low part.
        low: Box<Sketch>,
        /// The tree of the high part.
        high: Box<Sketch>,
    },
}

// It goes node by node, with no stack and no memory of its own: a fork whose low part is a fork is turned, and a leaf in
// its low part goes with it.
impl Drop for Sketch {
    fn drop(mut self) {
        loop {
            match self {
                Sketch::Leaf(_) => return,
                Sketch::Open(_) => return,
                Sketch::Fork { var, at, low, high } => self = lessened(var, &at, low, high),
            }
        }
    }
}

// What is left of a fork with these parts: the fork turned about its low part where that is a fork, else its high part.
fn lessened(var: u32, at: &i64, low: Box<Sketch>, high: Box<Sketch>) -> Sketch
    ensures { weight (tree_of result) < weight (split var at.now (tree_of low.value)
        (tree_of high.value)) }
{
    let mut turned = low;
    let mut rest = high;
    if turns(&mut turned, &mut rest) {
        return Sketch::Fork {
            var,
            at: *at,
            low: rest,
            high: turned,
        };
    }
    Box::into_inner(turned).go();
    Box::into_inner(rest)
}

// Turns a fork's low part, where that is a fork: its low part comes in place of the high one, which it takes up itself
// with its own. Whether there was something to turn.
fn turns(low: &mut Sketch, high: &mut Box<Sketch>) -> bool
    ensures turned { IsTrue result → weight (split 0 (pos 0) (tree_of high.new.value) (tree_of low.new))
        < weight (split 0 (pos 0) (tree_of low.old) (tree_of high.old.value)) }
    ensures leaf { IsFalse result → IsLeaf (tree_of low.new) }
    ensures rest { IsFalse result → high.new ≡ high.old }
{
    let Sketch::Fork { high: second, .. } = &mut *low else {
        return false;
    };
    mem::swap(second, high);
    if let Sketch::Fork { low: first, .. } = &mut *low {
        mem::swap(first, high);
    }
    true
}

impl Sketch {
    // A leaf goes.
    fn go(self)
        requires { IsLeaf (tree_of self) }
    {
        match self {
            Sketch::Leaf(_) => {}
            Sketch::Open(_) => {}
            Sketch::Fork { .. } => unreachable!(),
        }
    }
}
