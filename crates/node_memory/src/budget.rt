// Pricing for hints: the pricers of a program's blocks, and which blocks hints price.
ghost use Rattle.std.specs.Prelude.{◌≡◌, ◌<◌, length};

use crate::node::NodeContext;
use crate::wide::has_many_beginnings;
use block_class::Classes;
use block_program::{Block, Blocked, MAX_SCALE, Zone, fits};
use bp_theory::{Items, Picked, Proof, Span};
use lagr_bound::{Bounded, Work, bound};
use pricing_problem::Cap;
use primal_heuristics::{clipped, copy_place, product, put, quotient};
use std::alloc::{AllocError, Global};

/// How many beginnings of points the pricing of a block may visit.
pub const MOST_VISITS: u64 = 1_048_576;

/// How often the pricing of a block may be cut until hints price no block.
const MOST_CUTS: u32 = 4;

/// How often multipliers are priced until no pricing is cut.
const MOST_ROUNDS: u32 = 5;

/// How often the heuristics of a node may price.
const MOST_PRICES: u32 = 400;

/// After how many nodes it is forgotten which blocks' pricing was cut.
const MEMORY: u32 = 32;

/// The pricers of a program's blocks, and what the heuristics of nodes may price with them.
pub struct PricingBudget {
    /// The pricers, with the points that the last dual bound told.
    pub work: Work,
    /// The blocks that heuristics price in this node, ascending; all where there is no list.
    picks: Option<Vec<u32>>,
    /// How often the pricing of a block was cut in this node.
    cuts: u32,
    /// How often heuristics may still price in this node.
    left: u32,
    /// By block, whether its pricing was cut since it was last forgotten.
    was_cut: Vec<bool>,
    /// How many nodes there were; the count goes round.
    leaves: u32,
}

impl Drop for PricingBudget {
    fn drop(self) {
        let PricingBudget {
            work: _,
            picks: _,
            cuts: _,
            left: _,
            was_cut: _,
            leaves: _,
        } = self;
    }
}

impl PricingBudget {
    ghost use Rattle.std.specs.Prelude.{◌≡◌, ◌<◌, IfOk, IfSome, IsTrue, length};
    ghost use Rattle.node_memory.specs.Wide.{IsWide};
    ghost use Rattle.bp_theory.specs.Trees.{IsZone};
    ghost use Rattle.block_pricers.specs.Forms.{forms_in};
    ghost use Rattle.block_pricers.specs.Works.{forms_of};

    /// The pricers of a program's blocks, where hints price all.
    pub fn make(alloc: Global, b: &Blocked) -> Result<PricingBudget, AllocError>
        ensures { IfOk result (λ budget. forms_of budget.work ≡ forms_in b.now) }
    {
        let work = Work::make(alloc, b)?;
        Ok(PricingBudget {
            work,
            picks: None,
            cuts: 0,
            left: MOST_PRICES,
            was_cut: Vec::from_elem(alloc, false, b.blocks() as usize)?,
            leaves: 0,
        })
    }

    /// Begins with another node: hints price all blocks, as often as a node's may.
    pub fn begin(&mut self)
        ensures { self.new.work ≡ self.old.work }
    {
        self.picks = None;
        self.cuts = 0;
        self.left = MOST_PRICES;
        self.leaves = self.leaves.wrapping_add(1);
        if self.leaves % MEMORY == 0 {
            self.was_cut.fill(false);
        }
    }

    /// Whether hints have priced as often as they may.
    pub fn is_spent(&self) -> bool {
        self.left == 0
    }

    /// The dual bound of multipliers by row at the greatest scale in a node's zone, in units, with a point by copies
    /// that reaches it but for the blocks that are left out, whose numbers stay. There is none where a block has no
    /// point, or no price is left.
    pub fn round(
        &mut self,
        alloc: Global,
        node: NodeContext,
        mults: &[i64],
        point: &mut [i64],
    ) -> Result<Option<i128>, AllocError>
        requires made_for { forms_of self.old.work ≡ forms_in node.program.now }
        ensures made_for { forms_of self.new.work ≡ forms_of self.old.work }
    {
        if self.left == 0 {
            return Ok(None);
        }
        self.left -= 1;
        for _ in 0..MOST_ROUNDS {
            let proof = self.open_proof(alloc, node.program, node.zone, mults)?;
            if !fits(node.program, &proof) {
                return Ok(None);
            }
            let cap = Cap::At(MOST_VISITS);
            match bound(
                &mut self.work,
                node.program,
                node.classes,
                node.zone,
                &proof,
                cap,
            ) {
                Bounded::Whole(value) => {
                    self.write_point(node.program, node.classes, point);
                    write_settled(node.program, node.zone, point);
                    return Ok(Some(value));
                }
                Bounded::Endless => return Ok(None),
                Bounded::Cut(block) => self.leave_out(alloc, node.program, node.classes, block)?,
            }
        }
        Ok(None)
    }

    /// Whether a proof has a bound in a zone, within a cap for each block. The points that reach it are told then. No price
    /// of the node's is spent.
    pub(crate) fn has_bound(&mut self, node: NodeContext, proof: &Proof, cap: Cap) -> bool
        requires made_for { forms_of self.old.work ≡ forms_in node.program.now }
        ensures made_for { forms_of self.new.work ≡ forms_of self.old.work }
    {
        if !fits(node.program, proof) {
            return false;
        }
        match bound(
            &mut self.work,
            node.program,
            node.classes,
            node.zone,
            proof,
            cap,
        ) {
            Bounded::Whole(_) => true,
            _ => false,
        }
    }

    /// The proof of multipliers by row at the greatest scale, each rounded to a scale, which prices the blocks that hints
    /// price.
    pub fn proof_at(&self, alloc: Global, mults: &[i64], scale: u32) -> Result<Proof, AllocError> {
        let picked = self.picked(alloc)?;
        let mults = entries(alloc, mults, i64::from(scale))?;
        Ok(Proof {
            scale,
            mults: Items::from_vec(mults),
            picked,
        })
    }

    // The proof of multipliers by row at the greatest scale, which prices the blocks that hints price but for those of
    // one point in a zone: what these cost is the least over their box.
    fn open_proof(
        &self,
        alloc: Global,
        b: &Blocked,
        zone: &Zone,
        mults: &[i64],
    ) -> Result<Proof, AllocError> {
        let mut proof = self.proof_at(alloc, mults, MAX_SCALE)?;
        if has_settled(b, zone) {
            let picks = self.open_picks(alloc, b, zone)?;
            proof.picked = Picked::These(Items::from_vec(picks));
        }
        Ok(proof)
    }

    // The blocks that hints price and that have more than one point in the box of a zone.
    fn open_picks(&self, alloc: Global, b: &Blocked, zone: &Zone) -> Result<Vec<u32>, AllocError> {
        let mut picks = Vec::new(alloc);
        for block in 0..b.blocks() {
            if self.is_picked(block) && !is_settled(b.block(block), zone.spans()) {
                picks.push(block)?;
            }
        }
        Ok(picks)
    }

    // The blocks that hints price.
    fn picked(&self, alloc: Global) -> Result<Picked, AllocError> {
        match &self.picks {
            None => Ok(Picked::Every),
            Some(blocks) => {
                let copy = blocks.as_slice().to_vec(alloc)?;
                Ok(Picked::These(Items::from_vec(copy)))
            }
        }
    }

    /// Whether any block was left out of what hints price.
    pub fn leaves_out(&self) -> bool {
        self.picks.is_some()
    }

    /// Leaves a block's class out of what hints price, and all blocks after some cuts.
    pub fn leave_out(
        &mut self,
        alloc: Global,
        b: &Blocked,
        classes: &Classes,
        block: u32,
    ) -> Result<(), AllocError>
        requires { length classes.now.classes ≡ length b.now.blocking.blocks }
        ensures { self.new.work ≡ self.old.work }
    {
        let mut picks = Vec::new(alloc);
        self.cuts = self.cuts.saturating_add(1);
        if self.cuts < MOST_CUTS {
            for other in 0..b.blocks() {
                if are_same(b, classes, block, other) {
                    note(self.was_cut.as_mut_slice(), other);
                } else if self.is_picked(other) {
                    picks.push(other)?;
                }
            }
        }
        self.picks = Some(picks);
        Ok(())
    }

    /// The first block whose pricing was cut at a node before and may be cut again.
    pub fn first_wide(
        &self,
        alloc: Global,
        b: &Blocked,
        zone: &Zone,
    ) -> Result<Option<u32>, AllocError>
        requires { IsZone b.now.named.program.spans zone.now }
        ensures { IfOk result (λ found. IfSome found (IsWide b.now.blocking zone.now)) }
    {
        for block in 0..b.blocks() {
            if self.is_wide(alloc, b, block, zone)? {
                return Ok(Some(block));
            }
        }
        Ok(None)
    }

    // Whether the pricing of a block was cut before and may be cut again.
    fn is_wide(
        &self,
        alloc: Global,
        b: &Blocked,
        block: u32,
        zone: &Zone,
    ) -> Result<bool, AllocError>
        requires zone { IsZone b.now.named.program.spans zone.now }
        requires there { block < length b.now.blocking.blocks }
        ensures { IfOk result (λ wide. IsTrue wide → IsWide b.now.blocking zone.now block) }
    {
        match self.was_cut.as_slice().get(block as usize) {
            Some(true) => has_many_beginnings(alloc, b, block, zone),
            _ => Ok(false),
        }
    }

    /// Leaves the blocks out of what hints price whose pricing was cut before and may be cut again.
    pub fn leave_out_wide(
        &mut self,
        alloc: Global,
        b: &Blocked,
        zone: &Zone,
    ) -> Result<(), AllocError>
        requires { IsZone b.now.named.program.spans zone.now }
        ensures { self.new.work ≡ self.old.work }
    {
        let mut picks = Vec::new(alloc);
        for block in 0..b.blocks() {
            if !self.is_wide(alloc, b, block, zone)? {
                picks.push(block)?;
            }
        }
        self.picks = Some(picks);
        Ok(())
    }

    // Whether hints price a block.
    fn is_picked(&self, block: u32) -> bool {
        match &self.picks {
            None => true,
            Some(blocks) => blocks.as_slice().binary_search(&block).is_ok(),
        }
    }

    // Writes the points that the last bound told, each for all blocks of a class.
    fn write_point(&self, b: &Blocked, classes: &Classes, point: &mut [i64])
        requires made_for { forms_of self.now.work ≡ forms_in b.now }
        requires each { length classes.now.classes ≡ length b.now.blocking.blocks }
    {
        for block in 0..b.blocks() {
            if let Some(numbers) = self.work.point(block) {
                write_class(b, classes, block, numbers, point);
            }
        }
    }
}

/// The proof of multipliers by row at the greatest scale that prices one block alone.
pub fn alone(alloc: Global, mults: &[i64], block: u32) -> Result<Proof, AllocError> {
    let mut picks = Vec::new(alloc);
    picks.push(block)?;
    let mults = entries(alloc, mults, i64::from(MAX_SCALE))?;
    Ok(Proof {
        scale: MAX_SCALE,
        mults: Items::from_vec(mults),
        picked: Picked::These(Items::from_vec(picks)),
    })
}

// Whether a block has one point in the box of a zone.
fn has_settled(b: &Blocked, zone: &Zone) -> bool {
    for block in 0..b.blocks() {
        if is_settled(b.block(block), zone.spans()) {
            return true;
        }
    }
    false
}

/// Whether each variable of a block has one number in spans of all variables.
pub fn is_settled(block: &Block, spans: &[Span]) -> bool {
    block.vars().iter().all(|var| match spans.get(*var as usize) {
        None => true,
        Some(span) => span.lo == span.hi,
    })
}

// Writes the numbers of the blocks of one point in the box of a zone.
fn write_settled(b: &Blocked, zone: &Zone, point: &mut [i64]) {
    let spans = zone.spans();
    for number in 0..b.blocks() {
        let block = b.block(number);
        if is_settled(block, spans) {
            for place in 0..block.var_count() {
                let var = block.vars()[place as usize];
                if let Some(span) = spans.get(var as usize) {
                    put(point, copy_place(b, number, block, place), span.lo);
                }
            }
        }
    }
}

// Notes that a block's pricing was cut.
fn note(was_cut: &mut [bool], block: u32) {
    if let Some(place) = was_cut.get_mut(block as usize) {
        *place = true;
    }
}

// Whether two blocks are of one class.
fn are_same(b: &Blocked, classes: &Classes, block: u32, other: u32) -> bool
    requires each { length classes.now.classes ≡ length b.now.blocking.blocks }
    requires there { other < length b.now.blocking.blocks }
{
    block < b.blocks() && classes.class_of(block) == classes.class_of(other)
}

// Writes the numbers of each block of a block's class.
fn write_class(b: &Blocked, classes: &Classes, block: u32, numbers: &[i64], point: &mut [i64])
    requires each { length classes.now.classes ≡ length b.now.blocking.blocks }
    requires there { block < length b.now.blocking.blocks }
{
    for member in classes.members(classes.class_of(block)) {
        if *member < b.blocks() {
            write_copies(b, *member, b.block(*member), numbers, point);
        }
    }
}

// Writes the numbers of a block's copies.
fn write_copies(b: &Blocked, number: u32, block: &Block, numbers: &[i64], point: &mut [i64]) {
    for place in 0..block.var_count() {
        if let Some(value) = numbers.get(place as usize) {
            put(point, copy_place(b, number, block, place), *value);
        }
    }
}

// The multipliers that aren't 0 where they are rounded to a scale, with their rows.
fn entries(alloc: Global, mults: &[i64], scale: i64) -> Result<Vec<(u32, i64)>, AllocError> {
    let mut entries = Vec::new(alloc);
    let mut row: u32 = 0;
    for mult in mults {
        let part = rounded(mult, scale);
        if part != 0 {
            entries.push((row, part))?;
        }
        row = row.saturating_add(1);
    }
    Ok(entries)
}

// A multiplier at the greatest scale, at another scale, rounded towards 0.
fn rounded(mult: &i64, scale: i64) -> i64 {
    clipped(quotient(product(mult, &scale), i128::from(MAX_SCALE)))
}
