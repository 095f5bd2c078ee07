// The decomposition of the best of many lists of master rows.
ghost use Rattle.std.specs.Prelude.{◌≤◌, IfOk};
ghost use Rattle.bp_theory.specs.Limits.{most_blocks};
ghost use Rattle.bp_model.specs.Named.{IsKept};
ghost use Rattle.dec_find.specs.Guess.{IsGuess};

use crate::borders::{border_marks, open_counts};
use crate::columns::{Lists, columns_of};
use crate::groups::{Keyed, Likeness, alike_marks, longer_marks, mix};
use crate::order::{breadth_first, numbers_below, shortest_first, twice_mean_terms};
use crate::partition::Levels;
use crate::peel::peeled_marks;
use crate::score::score_of;
use bp_model::{Dec, Model};
use dec_find::{beside, beside_or_plain};
use std::alloc::{AllocError, Global};

// How much is looked at for all lists by names and forms together, and how much for all by structure: rows, variables
// and terms.
const WORK_ON_GROUPS: u64 = 10_000_000;

const WORK_ON_STRUCTURE: u64 = 9_000_000;

// How many lists by the lengths of rows are looked at.
const MOST_LENGTHS: usize = 32;

// By how much a list by structure has to be better than one by names and forms, which are nearer to what a planner means.
const MARGIN: u64 = 100;

// How many looks the graphs of a partition take.
const LOOKS_OF_LEVELS: u64 = 3;

// Lists by structure have at most this part of all rows.
const LEAST_INSIDE: usize = 4;

// Into how many parts rows are cut, or the largest part of so many that variables are peeled apart to.
const COUNTS: [u32; 6] = [2, 4, 8, 16, 32, 64];

// In what rows are alike whose groups are looked at one by one, and then by pairs.
const SINGLE: [Likeness; 5] = [
    Likeness::Stem,
    Likeness::Front,
    Likeness::Form,
    Likeness::Shape,
    Likeness::Sides,
];

const PAIRED: [Likeness; 5] = [
    Likeness::Stem,
    Likeness::Form,
    Likeness::Shape,
    Likeness::Front,
    Likeness::Sides,
];

// The master rows, marked, of the best decomposition so far with its score, by how much the first by structure has to be better,
// hashes of the lists that were looked at, how much one look takes, how much may still be looked at, and whether memory was
// wanting, with which no decomposition is proposed.
#[derive(Drop)]
struct Proposal {
    // By number of the row: whether it is a master row in the best decomposition so far; all are at the start.
    marks: Vec<bool>,
    // The score of that decomposition, 0 to 1,800 as `score_of` has it; 0 at the start.
    score: u64,
    // By how much the score of a list has to exceed `score` for the list to be taken; 0 once one was taken.
    margin: u64,
    // A hash of each list that was looked at.
    seen: Vec<u64>,
    // How much one look takes: the variables, rows and terms of the model together.
    size: u64,
    // How much may still be looked at, in the unit of `size`; granted anew for lists by structure.
    work_left: u64,
    // Whether memory was wanting; nothing more is looked at then.
    lacks: bool,
}

// How much one list's look takes.
fn size_of(m: &Model) -> u64 {
    let mut size = u64::from(m.vars());
    for row in m.all_rows() {
        size = size
            .saturating_add(row.terms.len() as u64)
            .saturating_add(1);
    }
    size
}

// The score of the decomposition beside marked rows, 0 where there is none.
fn score_beside(alloc: Global, m: &Model, marks: &[bool]) -> Result<u64, AllocError> {
    let found = beside(alloc, m, marks)?;
    match found {
        Some(dec) => score_of(alloc, m, &dec),
        None => Ok(0),
    }
}

impl Proposal {
    // Whether a list wasn't seen, by a hash of its rows; it then is.
    fn is_new(&mut self, marks: &[bool]) -> bool {
        let mut hash = 0;
        for (row, mark) in marks.iter().enumerate() {
            if *mark {
                hash = mix(hash, row as u64);
            }
        }
        if self.seen.as_slice().contains(&hash) {
            return false;
        }
        if self.seen.push(hash).is_err() {
            self.lacks = true;
        }
        true
    }

    // Whether so many looks more may be taken; they are then counted.
    fn may_look(&mut self, looks: u64) -> bool {
        let work = self.size.saturating_mul(looks);
        if self.lacks || self.work_left < work {
            return false;
        }
        self.work_left -= work;
        true
    }

    // Looks at the decomposition beside marked rows, unless they are more than so many or were seen.
    fn consider(
        &mut self,
        alloc: Global,
        m: &Model,
        marks: Result<Vec<bool>, AllocError>,
        most: usize,
    ) {
        match marks {
            Ok(marks) => {
                if count_of(marks.as_slice()) <= most
                    && self.is_new(marks.as_slice())
                    && self.may_look(1)
                {
                    self.take_if_better(alloc, m, marks);
                }
            }
            Err(AllocError) => self.lacks = true,
        }
    }

    // Takes the decomposition beside marked rows where its score is greater by more than the margin.
    fn take_if_better(&mut self, alloc: Global, m: &Model, marks: Vec<bool>) {
        match score_beside(alloc, m, marks.as_slice()) {
            Ok(score) => {
                if score > self.score.saturating_add(self.margin) {
                    self.marks = marks;
                    self.score = score;
                    self.margin = 0;
                }
            }
            Err(AllocError) => self.lacks = true,
        }
    }

    // Looks at the rows of each group as master rows, and at all others.
    fn consider_single(&mut self, alloc: Global, m: &Model, likeness: Likeness) {
        match Keyed::new(alloc, m, likeness) {
            Ok(keyed) => {
                let keys = keyed.keys.as_slice();
                for are_others in [false, true].as_slice() {
                    for group in keyed.groups.as_slice() {
                        let marks = alike_marks(alloc, keys, *group, *group, *are_others);
                        self.consider(alloc, m, marks, usize::MAX);
                    }
                }
            }
            Err(AllocError) => self.lacks = true,
        }
    }

    // Looks at the rows of each two groups as master rows.
    fn consider_paired(&mut self, alloc: Global, m: &Model, likeness: Likeness) {
        match Keyed::new(alloc, m, likeness) {
            Ok(keyed) => {
                let groups = keyed.groups.as_slice();
                for at in 0..groups.len() {
                    for other in &groups[at..] {
                        let keys = keyed.keys.as_slice();
                        let marks = alike_marks(alloc, keys, groups[at], *other, false);
                        self.consider(alloc, m, marks, usize::MAX);
                    }
                }
            }
            Err(AllocError) => self.lacks = true,
        }
    }

    // Looks at the rows as master rows that would join too much, where rows are taken in an order.
    fn consider_peeled(&mut self, alloc: Global, m: &Model, order: &[u32]) {
        for count in COUNTS.as_slice() {
            if !self.may_look(1) {
                return;
            }
            let marks = peeled_marks(alloc, m, order, m.vars() / *count.max(&1));
            self.consider(alloc, m, marks, few_of(m));
        }
    }

    // Looks at the rows as master rows that cross the narrowest cuts of an order, where so many variables are open behind
    // its rows.
    fn consider_borders(&mut self, alloc: Global, m: &Model, order: &[u32], open: &[u32]) {
        for count in COUNTS.as_slice() {
            if !self.may_look(1) {
                return;
            }
            let marks = border_marks(alloc, m, order, open, *count);
            self.consider(alloc, m, marks, few_of(m));
        }
    }

    // Looks at the rows as master rows that cross parts with few common variables.
    fn consider_partitions(
        &mut self,
        alloc: Global,
        m: &Model,
        levels: Result<Levels, AllocError>,
    ) {
        match levels {
            Ok(levels) => {
                for count in COUNTS.as_slice() {
                    if !self.may_look(LOOKS_OF_LEVELS) {
                        break;
                    }
                    let marks = levels.marks(alloc, m, *count);
                    self.consider(alloc, m, marks, few_of(m));
                }
            }
            Err(AllocError) => self.lacks = true,
        }
    }

    // Looks at what an order of rows and its narrowest cuts give.
    fn consider_order(&mut self, alloc: Global, m: &Model, order: Result<Vec<u32>, AllocError>) {
        match order {
            Ok(order) => {
                self.consider_peeled(alloc, m, order.as_slice());
                match open_counts(alloc, m, order.as_slice()) {
                    Ok(open) => self.consider_borders(alloc, m, order.as_slice(), open.as_slice()),
                    Err(AllocError) => self.lacks = true,
                }
            }
            Err(AllocError) => self.lacks = true,
        }
    }

    // Looks at what names and forms of rows give.
    fn consider_alike(&mut self, alloc: Global, m: &Model) {
        for likeness in SINGLE.as_slice() {
            self.consider_single(alloc, m, *likeness);
        }
        for likeness in PAIRED.as_slice() {
            self.consider_paired(alloc, m, *likeness);
        }
    }

    // Looks at the longest rows as master rows, for each number of terms those with more, and at what an order by lengths
    // gives.
    fn consider_lengths(&mut self, alloc: Global, m: &Model) {
        match lengths_of(alloc, m) {
            Ok(lengths) => {
                for length in lengths.as_slice() {
                    self.consider(alloc, m, longer_marks(alloc, m, *length), usize::MAX);
                }
            }
            Err(AllocError) => self.lacks = true,
        }
        match shortest_first(alloc, m) {
            Ok(shortest) => self.consider_peeled(alloc, m, shortest.as_slice()),
            Err(AllocError) => self.lacks = true,
        }
    }

    // Looks at what orders give in which rows stand together, that of the text and breadth-first ones, and what parts of
    // the graph of rows give.
    fn consider_orders(&mut self, alloc: Global, m: &Model) {
        self.consider_order(alloc, m, numbers_below(alloc, m.rows()));
        match columns_of(alloc, m) {
            Ok(columns) => {
                for most in [usize::MAX, twice_mean_terms(m)].as_slice() {
                    self.consider_order(alloc, m, breadth_first(alloc, m, &columns, *most));
                }
                self.consider_partitions(alloc, m, Levels::new(alloc, m, &columns));
            }
            Err(AllocError) => self.lacks = true,
        }
    }
}

// How many rows are few beside all.
fn few_of(m: &Model) -> usize {
    m.rows() as usize / LEAST_INSIDE
}

// How many rows are marked.
fn count_of(marks: &[bool]) -> usize {
    let mut count: usize = 0;
    for mark in marks {
        if *mark {
            count = count.saturating_add(1);
        }
    }
    count
}

// The greatest numbers of terms that rows have, each once, the greatest first.
fn lengths_of(alloc: Global, m: &Model) -> Result<Vec<usize>, AllocError> {
    let mut lengths = Vec::new(alloc);
    for row in m.all_rows() {
        lengths.push(row.terms.len())?;
    }
    lengths.sort_by_key(|length| usize::MAX - *length)?;
    lengths.dedup();
    lengths.truncate(MOST_LENGTHS);
    Ok(lengths)
}

/// A decomposition of a model: the blocks beside master rows that were chosen by the names and the forms of rows or by
/// the structure of the model, or every row a master row where no list of them promises anything.
pub fn guess(alloc: Global, m: &Model) -> Result<Dec, AllocError>
    requires kept { IsKept m.now }
    ensures guess { IfOk result (IsGuess m.now.program) }
    ensures few { IfOk result (λ dec. dec.blocks ≤ most_blocks m.now.program.limits) }
{
    let mut best = Proposal {
        marks: Vec::from_elem(alloc, true, m.rows() as usize)?,
        score: 0,
        margin: 0,
        seen: Vec::new(alloc),
        size: size_of(m),
        work_left: WORK_ON_GROUPS,
        lacks: false,
    };
    best.consider_alike(alloc, m);
    best.margin = MARGIN;
    best.work_left = WORK_ON_STRUCTURE;
    best.consider_lengths(alloc, m);
    best.consider_orders(alloc, m);
    if best.lacks {
        return Err(AllocError);
    }
    beside_or_plain(alloc, m, best.marks.as_slice())
}
