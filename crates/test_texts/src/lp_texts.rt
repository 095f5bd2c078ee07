// Texts, and what each means or is refused for.
mod texts;

use crate::tables::{Reading, add, check, told};
use bp_model::Model;
use bp_theory::{Limits, Row, Sense, Term};
use lp_read::{LpFault, read_lp};
use std::alloc::{AllocError, Global};
use std::test::Fail;
use texts::{BLANKS, COMMENTS, LARGE_SIZES, SIZES, TEXTS};

/// Adds the terms of a sum, each behind a space.
fn add_terms(
    alloc: Global,
    text: &mut String,
    model: &Model,
    terms: &[Term],
) -> Result<(), AllocError> {
    for term in terms {
        if term.var < model.vars() {
            let name = model.name(term.var);
            add(text, format!(in alloc; " {} {name}", term.coef))?;
        }
    }
    Ok(())
}

/// The sides of a row.
fn sides(alloc: Global, row: &Row) -> Result<String, AllocError> {
    match row.sense {
        Sense::Le => format!(in alloc; " <= {}", row.rhs),
        Sense::Ge => format!(in alloc; " >= {}", row.rhs),
        Sense::Eq => format!(in alloc; " = {}", row.rhs),
        Sense::In => format!(in alloc; " in {}..{}", row.low, row.rhs),
    }
}

/// Adds the rows: of each its name, its terms, and its sides.
fn add_rows(alloc: Global, text: &mut String, model: &Model) -> Result<(), AllocError> {
    for row in 0..model.rows() {
        let name = model.row_name(row);
        add(text, format!(in alloc; "; {name}:"))?;
        add_terms(alloc, text, model, model.row(row).terms.as_slice())?;
        add(text, sides(alloc, model.row(row)))?;
    }
    Ok(())
}

/// Adds the spans of the variables.
fn add_spans(alloc: Global, text: &mut String, model: &Model) -> Result<(), AllocError> {
    for var in 0..model.vars() {
        let span = model.span(var);
        let name = model.name(var);
        add(text, format!(in alloc; "; {name} {}..{}", span.lo, span.hi))?;
    }
    Ok(())
}

/// Adds a model: the terms of the objective in minimised form and its constant, the rows, and the spans.
fn add_model(alloc: Global, text: &mut String, model: &Model) -> Result<(), AllocError> {
    add_terms(alloc, text, model, model.costs())?;
    if model.constant() != 0 {
        add(text, format!(in alloc; " {}", model.constant()))?;
    }
    add_rows(alloc, text, model)?;
    add_spans(alloc, text, model)
}

/// A model in short: the objective in minimised form, the rows, and the spans.
pub fn short(alloc: Global, model: &Model) -> Result<String, AllocError> {
    let mut text = String::new(alloc);
    text.push_str(if model.maximises() { "max" } else { "min" })?;
    add_model(alloc, &mut text, model)?;
    Ok(text)
}

/// The line and the kind of a fault.
fn refusal(alloc: Global, fault: LpFault) -> Result<String, AllocError> {
    match fault {
        LpFault::At { line, kind } => format!(in alloc; "{line} {kind:?}"),
        LpFault::NoMemory => String::from_str(alloc, "want of memory"),
    }
}

/// What a text means in short under the usual limits, or what it is refused for.
pub fn answer(alloc: Global, text: &[u8]) -> Result<String, AllocError> {
    match read_lp(alloc, Limits::Usual, text) {
        Ok(model) => short(alloc, &model),
        Err(fault) => refusal(alloc, fault),
    }
}

/// How many variables and rows a text has, or what it is refused for under limits.
pub fn counted(alloc: Global, limits: Limits, text: &[u8]) -> Result<String, AllocError> {
    match read_lp(alloc, limits, text) {
        Ok(model) => format!(in alloc; "{} variables, {} rows", model.vars(), model.rows()),
        Err(fault) => refusal(alloc, fault),
    }
}

#[test]
fn each_text_means_its_model_or_has_its_first_fault(rt: HostRuntime) -> Result<(), Fail> {
    check(&rt, told(rt.alloc(), Reading::Model, TEXTS), "318 texts")
}

#[test]
fn sizes_are_limited(rt: HostRuntime) -> Result<(), Fail> {
    check(
        &rt,
        told(rt.alloc(), Reading::Size(Limits::Usual), SIZES),
        "94 texts",
    )
}

#[test]
fn blanks_count_up_to_the_greatest_size(rt: HostRuntime) -> Result<(), Fail> {
    check(
        &rt,
        told(rt.alloc(), Reading::Size(Limits::Usual), BLANKS),
        "3 texts",
    )
}

#[test]
fn comments_count_up_to_the_greatest_size(rt: HostRuntime) -> Result<(), Fail> {
    check(
        &rt,
        told(rt.alloc(), Reading::Size(Limits::Usual), COMMENTS),
        "3 texts",
    )
}

#[test]
fn large_limits_allow_larger_sizes(rt: HostRuntime) -> Result<(), Fail> {
    check(
        &rt,
        told(rt.alloc(), Reading::Size(Limits::Large), LARGE_SIZES),
        "5 texts",
    )
}
