// What is searched for in a node's zone.
use crate::bases::{Forked, key_of};
use crate::branch::widest;
use crate::dive::{Found, manner_of};
use crate::numbers::{floor_in, span_at};
use crate::relaxation::{CompactRelaxation, Relaxed};
use block_program::{Blocked, MAX_SCALE};
use bp_theory::Span;
use branch_tree::Turn;
use dual_simplex::{Basis, Effort, End};
use search_laws::Side;
use std::alloc::{AllocError, Global};
use std::num::saturating_f64_to_i64;

// How many dives are made at the root, at which depths, and how much of all iterations they may take in percent, where
// a point is known and where none is.
const ROOT_DIVES: u32 = 3;

const DIVE_DEPTH: u32 = 10;

const SHARE: u64 = 20;

const FIRST_SHARE: u64 = 60;

// How far above a whole number a bound may be that counts as that number.
const NEAR: f64 = 1e-5;

/// What the relaxation of a node gives. Nothing is promised of it.
#[derive(Drop)]
pub struct CompactHint {
    /// Multipliers by row that proofs may name, at the greatest scale, 1,048,576.
    pub mults: Vec<i64>,
    /// The scale at which they show as much.
    pub scale: u32,
    /// Multipliers by row at the greatest scale that show that the zone has no point, where there are such.
    pub emptying: Option<Vec<i64>>,
    /// A point by variable that is cheaper than the incumbent, where one was found.
    pub point: Option<Vec<i64>>,
    /// A variable to fork at.
    pub var: u32,
    /// The number behind which its span is split.
    pub at: i64,
}

// What the node above gives.
#[derive(Clone, Copy)]
struct Parent {
    // The value of its relaxation, in ones, without the constant.
    value: f64,
    // The variable that it was forked at.
    var: u32,
    // How far the value of this variable was above a whole number, from 0 to 1.
    part: f64,
    // Whether this is the lower side of the fork.
    is_low: bool,
}

// The optimum of a node's relaxation, from which dives begin.
#[derive(Clone, Copy)]
struct Optimum<'a> {
    // How the relaxation ended, and its value.
    relaxed: &'a Relaxed,
    // The basis of the optimum.
    basis: &'a Basis,
}

impl CompactRelaxation {
    /// Hints for a node, where the incumbent's cost may be known: minimised, not scaled, with the constant.
    pub fn hint(
        &mut self,
        alloc: Global,
        b: &Blocked,
        turn: &Turn,
        best: Option<i64>,
    ) -> Result<CompactHint, AllocError> {
        let spans = turn.zone.spans();
        let parent = self.begin(turn)?;
        let relaxed = self.relax(best)?;
        let (var, at) = widest(spans);
        let mut hint = CompactHint {
            mults: self.scaled(alloc, b)?,
            scale: MAX_SCALE,
            emptying: None,
            point: None,
            var,
            at,
        };
        if relaxed.end == End::Empty {
            hint.emptying = self.emptying(alloc, b, spans)?;
            if hint.emptying.is_some() {
                self.note_emptying(spans);
            }
            return Ok(hint);
        }
        self.note_gain(parent, relaxed.value);
        self.complete(alloc, b, turn, &relaxed, best, &mut hint)?;
        Ok(hint)
    }

    // Writes into a node's hint what its relaxation tells where that has points: the scale, a point and a split.
    fn complete(
        &mut self,
        alloc: Global,
        b: &Blocked,
        turn: &Turn,
        relaxed: &Relaxed,
        best: Option<i64>,
        hint: &mut CompactHint,
    ) -> Result<(), AllocError> {
        let spans = turn.zone.spans();
        let wanted = self.wanted(relaxed, best);
        hint.scale = self.scale_of(b, hint.mults.as_slice(), spans, wanted);
        if relaxed.is_reached {
            self.note_shutting(spans);
            return Ok(());
        }
        let found = self.found(alloc, b, turn, relaxed, best)?;
        let known = found.known;
        hint.point = found.point;
        if !self.is_shut(relaxed, known) {
            self.split(alloc, turn, relaxed, known, hint)?;
        }
        Ok(())
    }

    // What rounding and dives find, where the relaxation has its optimum.
    fn found(
        &mut self,
        alloc: Global,
        b: &Blocked,
        turn: &Turn,
        relaxed: &Relaxed,
        best: Option<i64>,
    ) -> Result<Found, AllocError> {
        let mut found = Found {
            known: best,
            point: None,
        };
        if relaxed.end == End::Optimum {
            self.round(alloc, b, turn.zone.spans(), &mut found)?;
            self.dives(alloc, b, turn, relaxed, &mut found)?;
        }
        Ok(found)
    }

    // Takes a node's spans and the basis of the node above.
    fn begin(&mut self, turn: &Turn) -> Result<Option<Parent>, AllocError> {
        self.set_spans(turn.zone.spans());
        self.leaves = self.leaves.wrapping_add(1);
        let Some((side, above)) = turn.path.as_slice().split_last() else {
            return Ok(None);
        };
        let key = key_of(above);
        let is_near = self.last == Some(key);
        self.last = None;
        let parent = match self.bases.get(key) {
            None => None,
            Some(forked) => {
                if !is_near {
                    self.lp.load(&forked.basis)?;
                }
                Some(Parent {
                    value: forked.value,
                    var: forked.var,
                    part: forked.part,
                    is_low: *side == Side::Low,
                })
            }
        };
        self.bases.spend(key);
        Ok(parent)
    }

    // Notes by how much the bound rose from the node above.
    fn note_gain(&mut self, parent: Option<Parent>, value: f64) {
        let Some(parent) = parent else {
            return;
        };
        let gain = (value - parent.value).max(0.0);
        let distance = if parent.is_low {
            parent.part
        } else {
            1.0 - parent.part
        };
        if distance > 1e-3 && gain < 1e30 {
            if parent.is_low {
                self.scores.below.note(parent.var, gain / distance);
            } else {
                self.scores.above.note(parent.var, gain / distance);
            }
        }
    }

    // The bound that is wanted of multipliers: that of the relaxation rounded up, or the best cost.
    fn wanted(&self, relaxed: &Relaxed, best: Option<i64>) -> i64 {
        let bound = saturating_f64_to_i64((relaxed.value + self.constant - NEAR).ceil());
        match best {
            Some(best) if best < bound => best,
            _ => bound,
        }
    }

    // Whether nothing cheaper than a known cost is left.
    fn is_shut(&self, relaxed: &Relaxed, known: Option<i64>) -> bool {
        match self.cutoff(known) {
            None => false,
            Some(cutoff) => relaxed.value > cutoff,
        }
    }

    // Dives where it is their turn, and goes back to the optimum.
    fn dives(
        &mut self,
        alloc: Global,
        b: &Blocked,
        turn: &Turn,
        relaxed: &Relaxed,
        found: &mut Found,
    ) -> Result<(), AllocError> {
        let many = self.dive_count(turn.depth, found.known);
        if many == 0 || self.is_shut(relaxed, found.known) {
            return Ok(());
        }
        let basis = self.lp.basis()?;
        let optimum = Optimum {
            relaxed,
            basis: &basis,
        };
        self.dive_from(alloc, b, turn, optimum, many, found)?;
        self.go_back(turn.zone.spans(), &basis)
    }

    // Dives so many times from an optimum, until what is found shuts the node.
    fn dive_from(
        &mut self,
        alloc: Global,
        b: &Blocked,
        turn: &Turn,
        optimum: Optimum,
        many: u32,
        found: &mut Found,
    ) -> Result<(), AllocError> {
        let spans = turn.zone.spans();
        for dive in 0..many {
            if dive > 0 {
                self.go_back(spans, optimum.basis)?;
            }
            let number = if turn.depth == 0 { dive } else { self.leaves };
            self.dive(alloc, b, spans, manner_of(number), found)?;
            if self.is_shut(optimum.relaxed, found.known) {
                break;
            }
        }
        Ok(())
    }

    // Takes spans and a basis again.
    fn go_back(&mut self, spans: &[Span], basis: &Basis) -> Result<(), AllocError> {
        self.set_spans(spans);
        self.lp.load(basis)?;
        self.settle()
    }

    // How many dives are made at a depth.
    fn dive_count(&self, depth: u32, known: Option<i64>) -> u32 {
        if depth == 0 {
            return ROOT_DIVES;
        }
        let is_turn = match known {
            None => self.may_dive(FIRST_SHARE),
            Some(_) => depth % DIVE_DEPTH == 0 && self.may_dive(SHARE),
        };
        if is_turn { 1 } else { 0 }
    }

    // Solves without a cutoff.
    fn settle(&mut self) -> Result<(), AllocError> {
        let _ = self.lp.solve(Effort {
            iterations: self.most,
            cutoff: None,
            keeps_factors: false,
        })?;
        Ok(())
    }

    // Chooses the split, and keeps the basis for the nodes below.
    fn split(
        &mut self,
        alloc: Global,
        turn: &Turn,
        relaxed: &Relaxed,
        known: Option<i64>,
        hint: &mut CompactHint,
    ) -> Result<(), AllocError> {
        let fractions = self.fractions(alloc)?;
        let objective = self.lp.objective();
        let mut part = 0.5;
        if let Some(fraction) = self.choose(fractions, objective, known)? {
            hint.var = fraction.var;
            hint.at = split_at(turn.zone.spans(), fraction.var, fraction.value);
            part = fraction.part;
        }
        let key = key_of(turn.path.as_slice());
        self.bases.keep(
            key,
            Forked {
                basis: self.lp.basis()?,
                value: relaxed.value,
                var: hint.var,
                part,
                left: 2,
            },
        )?;
        self.last = Some(key);
        Ok(())
    }
}

// Where a value splits its variable's span.
fn split_at(spans: &[Span], var: u32, value: f64) -> i64 {
    floor_in(value, &span_at(spans, var as usize))
}
