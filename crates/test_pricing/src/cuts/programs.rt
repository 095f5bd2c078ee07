// Programs in blocks from their parts, and cuts of them.
ghost use Rattle.std.specs.Prelude.{◌≤◌, length, All, IfOk, IfSome};
ghost use Rattle.cut_sums.specs.Cutting.{IsEarlierCut};

use block_form::check_blocks;
use block_program::Blocked;
use bp_model::{Dec, Model, NameList, Parts};
use bp_theory::{Cut, Items, Limits, Row, Sense, Span, Term};
use name_table::NameTable;
use round_cut::{CutFault, cut_row, keeps_rules};
use std::alloc::{AllocError, Global};

/// A row: its terms, its sense, its sides, and its block.
#[derive(Drop)]
pub struct Line<'a> {
    /// Variables, by numbers from 0, with their coefficients.
    pub terms: &'a [(u32, i64)],
    /// Which sides bind.
    pub sense: Sense,
    /// The lower side, `rhs` but at `In`.
    pub low: i64,
    /// The upper side.
    pub rhs: i64,
    /// The number of its block, from 0; none for a master row.
    pub block: Option<u32>,
}

/// A master row with one side.
pub fn master<'a>(terms: &'a [(u32, i64)], sense: Sense, rhs: i64) -> Line<'a> {
    Line {
        terms,
        sense,
        low: rhs,
        rhs,
        block: None,
    }
}

/// An at most row of a block.
pub fn own<'a>(terms: &'a [(u32, i64)], rhs: i64, block: u32) -> Line<'a> {
    Line {
        terms,
        sense: Sense::Le,
        low: rhs,
        rhs,
        block: Some(block),
    }
}

// So many names: `v0`, `v1` and so on.
fn names(alloc: Global, count: usize) -> Result<NameList, AllocError> {
    let mut names = NameTable::new(alloc);
    for i in 0..count {
        if names.len() == u32::MAX {
            break;
        }
        names.add(alloc, format!(in alloc; "v{i}")?.as_str())?;
    }
    names.into_list(alloc)
}

// A row of a line.
fn row(alloc: Global, line: &Line) -> Result<Row, AllocError> {
    let mut terms = Vec::new(alloc);
    for (var, coef) in line.terms {
        terms.push(Term {
            var: *var,
            coef: *coef,
        })?;
    }
    Ok(Row {
        sense: line.sense,
        low: line.low,
        rhs: line.rhs,
        terms: Items::from_vec(terms),
    })
}

// A model of spans and rows, or want of memory.
fn model(alloc: Global, spans: &[Span], lines: &[Line]) -> Result<Model, AllocError> {
    let mut rows = Vec::new(alloc);
    for line in lines {
        rows.push(row(alloc, line)?)?;
    }
    let parts = Parts {
        names: names(alloc, spans.len())?,
        row_names: names(alloc, lines.len())?,
        spans: Items::from_vec(spans.to_vec(alloc)?),
        rows: Items::from_vec(rows),
        costs: Items::new(alloc),
        constant: 0,
        maximises: false,
        limits: Limits::Usual,
    };
    if !parts.are_fitting() {
        return Err(AllocError);
    }
    Model::make(alloc, parts).map_err(|_| AllocError)
}

/// The program in blocks of spans and rows, or want of memory.
pub fn program(alloc: Global, spans: &[Span], lines: &[Line]) -> Result<Blocked, AllocError> {
    let model = model(alloc, spans, lines)?;
    let mut places = Items::new(alloc);
    for line in lines {
        places.push(line.block)?;
    }
    let dec = Dec::make(2, places, Items::new(alloc));
    if !dec.goes_with(&model) {
        return Err(AllocError);
    }
    match check_blocks(alloc, model, dec) {
        Ok(b) => Ok(b),
        Err(_) => Err(AllocError),
    }
}

/// A cut from its divisor and multipliers.
pub fn cut(alloc: Global, q: u32, mults: &[(u32, i64)]) -> Result<Cut, AllocError> {
    Ok(Cut {
        q,
        rows: Items::from_vec(mults.to_vec(alloc)?),
    })
}

/// What the row of a cut over earlier ones is, or none where the cut breaks a rule.
pub fn tried(
    alloc: Global,
    b: &Blocked,
    earlier: &[Row],
    q: u32,
    mults: &[(u32, i64)],
) -> Result<Option<Result<Row, CutFault>>, AllocError>
    requires few { length earlier.now ≤ 255 }
    requires earlier { All (IsEarlierCut b.now.named.program) earlier.now }
    ensures { IfOk result (λ found. IfSome found (λ row. IfOk row (IsEarlierCut b.now.named.program))) }
{
    let cut = cut(alloc, q, mults)?;
    if !keeps_rules(b, earlier, &cut) {
        return Ok(None);
    }
    Ok(Some(cut_row(alloc, b, earlier, &cut)))
}

/// Whether a row is the at least row of these terms and this side.
pub fn is_row(row: &Row, terms: &[(u32, i64)], low: i64) -> bool {
    let own = row.terms.as_slice();
    if own.len() != terms.len() {
        return false;
    }
    for i in 0..terms.len() {
        if own[i].var != terms[i].0 || own[i].coef != terms[i].1 {
            return false;
        }
    }
    matches!(row.sense, Sense::Ge) && row.low == low && row.rhs == low
}
