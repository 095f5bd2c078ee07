// What is read so far of a text, and what the next symbol makes of it.
ghost use Rattle.std.specs.Prelude.{◌≡◌, ℕ, List, [], ◌∷◌, ◌++◌, map, IfOk};
ghost use Rattle.lp_syntax.specs.TreeIn.{symbol_in, label_in, name_in, part_in, row_in, term_in};
ghost use Rattle.lp_parser.specs.StageIn.{step_in, front_in, within_in, gap_in, term_sum_in};
ghost use Rattle.lp_parser.specs.Parser.{put, named, with_row as specs_with_row, from_word as specs_from_word};

use bp_theory::Items;
use lp_syntax::{
    Bound, Comparison, Direction, Item, Part, Row, Sign, Signed, Site, Sum, Symbol, Term,
    TextRange, Tree, Value,
};
use lp_token::Section;
use std::alloc::{AllocError, Global};

/// A place for a summand: what stands before it, and its signs so far. With nothing before it, it is the first.
pub struct Gap<A> {
    /// The summands so far and the sign behind them; none at the first summand.
    pub before: Option<(Sum<A>, Sign)>,
    /// The summand's own signs so far.
    pub signs: Items<Sign>,
}

// How a gap goes is proved here once, and not again wherever one goes.
impl<A: Drop> Drop for Gap<A> {
    fn drop(self) {
        let Gap {
            before: _,
            signs: _,
        } = self;
    }
}

impl<A: Drop> Gap<A> {
    /// What stands before the place, and its signs.
    pub fn into_parts(self) -> (Option<(Sum<A>, Sign)>, Items<Sign>)
        ensures { result ≡ (self.before, self.signs) }
    {
        let Gap { before, signs } = self;
        (before, signs)
    }
}

/// An objective and the rows so far.
pub struct Front {
    /// Whether the objective is maximised; else it is minimised.
    pub maximises: bool,
    /// The objective's name, where one stands before a colon.
    pub label: Option<TextRange>,
    /// What the objective adds up; none where nothing is written.
    pub objective: Option<Sum<Item>>,
    /// The rows so far, in order.
    pub rows: Items<Row>,
}

// As of a gap: so that no caller has to prove how each form of an objective goes.
impl Drop for Front {
    fn drop(self) {
        let Front {
            maximises: _,
            label: _,
            objective: _,
            rows: _,
        } = self;
    }
}

impl Front {
    // The tree of an objective, rows and parts.
    fn into_tree(self, parts: Items<Part>) -> Tree
        ensures { result ≡ record {
          maximises = self.maximises;
          label = self.label;
          objective = self.objective;
          rows = self.rows;
          parts = parts;
        } }
    {
        let Front {
            maximises,
            label,
            objective,
            rows,
        } = self;
        Tree {
            maximises,
            label,
            objective,
            rows,
            parts,
        }
    }
}

/// Inside a bounds section: what stands before it, and its statements so far.
pub struct Within {
    /// The objective and all rows.
    pub front: Front,
    /// The sections before this one, in order.
    pub parts: Items<Part>,
    /// The statements of this section so far, in order.
    pub so_far: Items<Bound>,
}

// As of a gap.
impl Drop for Within {
    fn drop(self) {
        let Within {
            front: _,
            parts: _,
            so_far: _,
        } = self;
    }
}

impl Within {
    /// What stands before the section, and its statements.
    pub fn into_parts(self) -> (Front, Items<Part>, Items<Bound>)
        ensures { result ≡ (self.front, self.parts, self.so_far) }
    {
        let Within {
            front,
            parts,
            so_far,
        } = self;
        (front, parts, so_far)
    }
}

/// What stands before the terms of a row that begins with its number.
#[derive(Drop)]
pub struct RowHead {
    /// The row's name, where one stands before a colon.
    pub label: Option<TextRange>,
    /// The number, with its signs.
    pub side: Signed,
    /// The comparison behind the number.
    pub comparison: Comparison,
}

/// Inside an objective.
#[derive(Drop)]
pub enum ObjectiveStage {
    Word,
    Name(TextRange),
    Open(Option<TextRange>, Gap<Item>),
    Number(Option<TextRange>, Gap<Item>, u64),
    Sum(Option<TextRange>, Sum<Item>),
}

/// Inside a row.
#[derive(Drop)]
pub enum RowStage {
    Start,
    Name(TextRange),
    Signs(Option<TextRange>, Items<Sign>),
    Number(Option<TextRange>, Items<Sign>, u64),
    Open(Option<TextRange>, Sum<Term>, Sign, Items<Sign>),
    Factor(Option<TextRange>, Sum<Term>, Sign, Items<Sign>, u64),
    Sum(Option<TextRange>, Sum<Term>),
    Compared(Option<TextRange>, Sum<Term>, Comparison, Items<Sign>),
    NumberOpen(RowHead, Gap<Term>),
    NumberFactor(RowHead, Gap<Term>, u64),
    NumberSum(RowHead, Sum<Term>),
    NumberCompared(Option<TextRange>, Signed, Direction, Sum<Term>, Items<Sign>),
}

/// Inside a statement of a bounds section.
#[derive(Drop)]
pub enum BoundStage {
    Start,
    Signs(Items<Sign>),
    Value(Value),
    Compared(Value, Comparison),
    Half(Value, Comparison, TextRange),
    Between(Value, Direction, TextRange, Items<Sign>),
    Name(TextRange),
    Named(TextRange, Comparison, Items<Sign>),
}

/// What is read so far.
#[derive(Drop)]
pub enum Stage {
    Start,
    Objective(bool, ObjectiveStage),
    Row(Front, RowStage),
    Generals(Front, Items<Part>, Items<TextRange>),
    Binaries(Front, Items<Part>, Items<TextRange>),
    Bounds(Within, BoundStage),
    Done(Tree),
}

/// What a symbol does and the next stage, or nothing where no text goes on so; or want of memory.
pub type Step = Result<Option<(Site, Stage)>, AllocError>;

/// Lets a stage go, part by part. Each form of a part goes in its own way, so a caller that let a whole stage go by itself
/// would have as many paths to prove as the forms of all its parts together.
pub fn let_go(stage: Stage) {
    match stage {
        Stage::Start => {}
        Stage::Objective(_maximises, stage) => let_objective_go(stage),
        Stage::Row(front, stage) => {
            let_front_go(front);
            let_row_go(stage);
        }
        Stage::Generals(front, _parts, _names) => let_front_go(front),
        Stage::Binaries(front, _parts, _names) => let_front_go(front),
        Stage::Bounds(within, stage) => {
            let_within_go(within);
            let_bound_go(stage);
        }
        Stage::Done(tree) => let_tree_go(tree),
    }
}

fn let_front_go(_front: Front) {}

fn let_within_go(_within: Within) {}

fn let_objective_go(_stage: ObjectiveStage) {}

fn let_row_go(_stage: RowStage) {}

fn let_bound_go(_stage: BoundStage) {}

/// Lets a tree go.
pub(crate) fn let_tree_go(_tree: Tree) {}

/// A sum of one summand.
pub fn lone<A: Drop>(alloc: Global, first: A) -> Sum<A>
    ensures first { result.first ≡ first }
    ensures more { result.more ≡ [] }
{
    Sum {
        first,
        more: Items::new(alloc),
    }
}

/// A sum with one summand more.
pub fn longer<A: Drop>(sum: Sum<A>, sign: Sign, summand: A) -> Result<Sum<A>, AllocError>
    ensures first { IfOk result (λ r. r.first ≡ sum.first) }
    ensures more { IfOk result (λ r. r.more ≡ sum.more ++ (sign, summand) ∷ []) }
{
    let Sum { first, mut more } = sum;
    more.push((sign, summand))?;
    Ok(Sum { first, more })
}

/// The sum with a term in the gap place.
pub fn put_term(
    alloc: Global,
    gap: Gap<Term>,
    factor: Option<u64>,
    variable: TextRange,
) -> Result<Sum<Term>, AllocError>
    ensures { (text : List ℕ) → IfOk result
        (λ r. term_sum_in text r ≡ put (gap_in (term_in text) gap)
        (named factor (name_in text variable))) }
{
    let (before, signs) = gap.into_parts();
    let term = Term {
        signs,
        factor,
        variable,
    };
    match before {
        None => Ok(lone(alloc, term)),
        Some((sum, sign)) => longer(sum, sign, term),
    }
}

/// The gap place with one sign more.
pub fn more_sign<A: Drop>(gap: Gap<A>, sign: Sign) -> Result<Gap<A>, AllocError>
    ensures before { IfOk result (λ r. r.before ≡ gap.before) }
    ensures signs { IfOk result (λ r. r.signs ≡ gap.signs ++ sign ∷ []) }
{
    let (before, mut signs) = gap.into_parts();
    signs.push(sign)?;
    Ok(Gap { before, signs })
}

/// An objective and rows with one row more.
pub fn with_row(front: Front, row: Row) -> Result<Front, AllocError>
    ensures { (text : List ℕ) → IfOk result
        (λ r. front_in text r ≡ specs_with_row (front_in text front) (row_in text row)) }
{
    let mut front = front;
    front.rows.push(row)?;
    Ok(front)
}

/// A word behind rows and parts.
pub fn from_word(
    alloc: Global,
    front: Front,
    parts: Items<Part>,
    section: Section,
) -> Option<(Site, Stage)>
    ensures { (text : List ℕ) → step_in text result ≡ specs_from_word (front_in text front)
        (map (part_in text) parts) section }
{
    let stage = match section {
        Section::Bounds => Stage::Bounds(
            Within {
                front,
                parts,
                so_far: Items::new(alloc),
            },
            BoundStage::Start,
        ),
        Section::Generals => Stage::Generals(front, parts, Items::new(alloc)),
        Section::Binaries => Stage::Binaries(front, parts, Items::new(alloc)),
        Section::End => Stage::Done(front.into_tree(parts)),
        _ => return None,
    };
    Some((Site::Other, stage))
}

/// A word behind rows, parts and one part more.
pub fn behind_part(
    alloc: Global,
    front: Front,
    parts: Items<Part>,
    part: Part,
    section: Section,
) -> Step
    ensures { (text : List ℕ) → IfOk result
        (λ r. step_in text r ≡ specs_from_word (front_in text front)
        (map (part_in text) parts ++ part_in text part ∷ []) section) }
{
    let mut parts = parts;
    parts.push(part)?;
    Ok(from_word(alloc, front, parts, section))
}
