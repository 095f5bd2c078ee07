// Blocks, and those of at most four variables and three rows with a zone in each and costs.
use block_program::Block;
use bp_theory::{Items, Row, Sense, Span, Term};
use std::alloc::{AllocError, Global};

/// A row: coefficients of its variables, sense and sides.
#[derive(Clone, Copy)]
pub struct Line {
    /// By place of the variable.
    pub coefs: [i64; 4],
    /// Which sides bind.
    pub sense: Sense,
    /// The lower side.
    pub low: i64,
    /// The upper side.
    pub rhs: i64,
}

/// A block of so many variables, spans at the root and rows, of those given, with a zone and costs. Of two variables rows
/// keep terms of coefficient 0. The span of a variable that is not there is that of 0, and its coefficients are 0.
#[derive(Clone, Copy)]
pub struct Problem {
    /// How many variables count, up to 4.
    pub vars: usize,
    /// How many rows count, up to 3.
    pub rows: usize,
    /// By place of the variable: its span in the block.
    pub root: [Span; 4],
    /// The rows, of which the first `rows` count.
    pub lines: [Line; 3],
    /// By place of the variable: its span where the block is priced.
    pub zone: [Span; 4],
    /// By place of the variable: what it costs where the block is priced; the block's own costs are 0.
    pub costs: [i128; 4],
}

/// The first three coefficients, sense and sides of a row.
pub type Numbers = ([i64; 3], Sense, [i64; 2]);

// The line of these numbers.
fn line_of(numbers: &Numbers) -> Line {
    Line {
        coefs: [numbers.0[0], numbers.0[1], numbers.0[2], 0],
        sense: numbers.1,
        low: numbers.2[0],
        rhs: numbers.2[1],
    }
}

/// The line in a place, or one without terms that all numbers meet.
pub fn line_at(rows: &[Numbers], place: usize) -> Line {
    match rows.get(place) {
        Some(numbers) => line_of(numbers),
        None => line_of(&([0, 0, 0], Sense::Le, [0, 0])),
    }
}

/// The span of 0, which a variable has that is not there.
pub const ZERO: Span = Span { lo: 0, hi: 0 };

/// The spans with these ends, and that of 0.
pub fn spans_of(ends: &[[i64; 2]; 3]) -> [Span; 4] {
    [
        Span {
            lo: ends[0][0],
            hi: ends[0][1],
        },
        Span {
            lo: ends[1][0],
            hi: ends[1][1],
        },
        Span {
            lo: ends[2][0],
            hi: ends[2][1],
        },
        ZERO,
    ]
}

/// The first so many of a list.
pub fn firsts<T>(all: &[T], many: usize) -> &[T] {
    if many < all.len() { &all[..many] } else { all }
}

/// Coefficients of a row, one for each variable and maybe more, its sense and its sides.
pub type Given<'a> = (&'a [i64], Sense, [i64; 2]);

// The row of so many variables.
fn row_of(alloc: Global, given: &Given<'_>, vars: usize) -> Result<Row, AllocError> {
    let mut terms = Items::new(alloc);
    let mut var = 0u32;
    for coef in firsts(given.0, vars) {
        if *coef != 0 || vars == 2 {
            terms.push(Term { var, coef: *coef })?;
        }
        var = var.wrapping_add(1);
    }
    Ok(Row {
        sense: given.1,
        low: given.2[0],
        rhs: given.2[1],
        terms,
    })
}

// The rows of so many variables.
fn rows_of(alloc: Global, given: &[Given<'_>], vars: usize) -> Result<Items<Row>, AllocError> {
    let mut rows = Items::new(alloc);
    for one in given {
        rows.push(row_of(alloc, one, vars)?)?;
    }
    Ok(rows)
}

// Variables with their spans, their costs and their coefficients in master rows.
struct Vars {
    // By place: the variable of the copy.
    vars: Items<u32>,
    // By place: its span at the root.
    spans: Items<Span>,
    // By place: its own cost.
    costs: Items<i64>,
    // By place: its coefficients in master rows, none here.
    masters: Items<Items<(u32, i64)>>,
}

impl Drop for Vars {
    fn drop(self) {
        let Vars {
            vars: _,
            spans: _,
            costs: _,
            masters: _,
        } = self;
    }
}

// Adds a variable without coefficients in master rows.
fn add_var(
    alloc: Global,
    all: &mut Vars,
    var: u32,
    span: &Span,
    cost: i64,
) -> Result<(), AllocError> {
    all.vars.push(var)?;
    all.spans.push(*span)?;
    all.costs.push(cost)?;
    all.masters.push(Items::new(alloc))
}

// The variables of these spans and costs.
fn vars_of(alloc: Global, spans: &[Span], costs: &[i64]) -> Result<Vars, AllocError> {
    let mut all = Vars {
        vars: Items::new(alloc),
        spans: Items::new(alloc),
        costs: Items::new(alloc),
        masters: Items::new(alloc),
    };
    let mut var = 0u32;
    for (span, cost) in spans.iter().zip(costs.iter()) {
        add_var(alloc, &mut all, var, span, *cost)?;
        var = var.wrapping_add(1);
    }
    Ok(all)
}

/// The block of these root spans, costs and rows, without coefficients in master rows.
pub fn block_of(
    alloc: Global,
    spans: &[Span],
    costs: &[i64],
    rows: &[Given<'_>],
) -> Result<Option<Block>, AllocError> {
    let all = vars_of(alloc, spans, costs)?;
    let rows = rows_of(alloc, rows, spans.len())?;
    Ok(all.into_block(rows))
}

impl Vars {
    // The block of these variables and of rows, where the lists go together.
    fn into_block(self, rows: Items<Row>) -> Option<Block> {
        let many = self.vars.len();
        if many > 1000
            || self.spans.len() != many
            || self.costs.len() != many
            || self.masters.len() != many
        {
            return None;
        }
        let Vars {
            vars,
            spans,
            costs,
            masters,
        } = self;
        Some(Block::make(vars, spans, costs, masters, rows))
    }
}

// The row of a line.
fn given(line: &Line) -> Given<'_> {
    (&line.coefs, line.sense, [line.low, line.rhs])
}

/// The block of a problem, whose own costs are 0.
pub fn problem_block(alloc: Global, problem: &Problem) -> Result<Option<Block>, AllocError> {
    let lines = [
        given(&problem.lines[0]),
        given(&problem.lines[1]),
        given(&problem.lines[2]),
    ];
    let spans = firsts(&problem.root, problem.vars);
    block_of(alloc, spans, &[0, 0, 0, 0], firsts(&lines, problem.rows))
}
