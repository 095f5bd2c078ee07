// The lines of reports on searches.
ghost use Rattle.std.specs.Prelude.{◌≡◌, ◌++◌, OnOk, Some, None, length};
ghost use Rattle.std.specs.Option.{ForSome, option_map};
ghost use Rattle.bp_theory.specs.Program.{IsInside, value, in_sense};
ghost use Rattle.report_lines.specs.Searches.{variable_line, variable_lines, known_lines, ended_line, known_line, budget_lines, outcome_lines, outcome_point, CanTell};

use crate::{push_count_line, push_value, push_value_line};
use bp_model::Model;
use bp_theory::Items;
use branch_tree::Outcome;
use std::alloc::AllocError;

/// The first lines on the outcome of a search.
pub fn push_outcome(
    text: &mut Vec<u8>,
    m: &Model,
    o: &Outcome,
    steps: u64,
) -> Result<(), AllocError>
    requires { CanTell m.now o.now }
    ensures { OnOk result (text.new.items ≡ text.old.items ++ outcome_lines m.now steps o.now) }
{
    match o {
        Outcome::Optimal { point, .. } => push_ended(text, m, Some(point.as_slice())),
        Outcome::Infeasible { .. } => push_ended(text, m, None),
        Outcome::Budget { best, bound, .. } => push_budget(
            text,
            m,
            steps,
            bound,
            known_point(best),
        ),
    }
}

/// The point of an outcome.
pub fn point_of(o: &Outcome) -> Option<&[i64]>
    ensures { option_map (λ x. x.now) result ≡ outcome_point o.now }
{
    match o {
        Outcome::Optimal { point, .. } => Some(point.as_slice()),
        Outcome::Infeasible { .. } => None,
        Outcome::Budget { best, .. } => known_point(best),
    }
}

// A known point without its cost.
fn known_point(best: &Option<(Items<i64>, i64)>) -> Option<&[i64]>
    ensures { option_map (λ x. x.now) result ≡ option_map (λ p. p.0) best.now }
{
    match best {
        Some((point, _)) => Some(point.as_slice()),
        None => None,
    }
}

/// The first line on a search that ended.
pub fn push_ended(text: &mut Vec<u8>, m: &Model, best: Option<&[i64]>) -> Result<(), AllocError>
    requires { ForSome best (λ x. IsInside m.now.program.spans x.now) }
    ensures { OnOk result (text.new.items ≡ text.old.items ++
        ended_line m.now (option_map (λ x. x.now) best.entry)) }
{
    match best {
        Some(point) => push_value_line(text, b"optimal ", &value(m, point)),
        None => text.extend_from_slice(b"infeasible\n"),
    }
}

/// The first lines on a search that was stopped. The bound is given as a minimised cost, and told as a value in the
/// text's own sense.
pub fn push_budget(
    text: &mut Vec<u8>,
    m: &Model,
    steps: u64,
    least: &i64,
    best: Option<&[i64]>,
) -> Result<(), AllocError>
    requires { ForSome best (λ x. IsInside m.now.program.spans x.now) }
    ensures { OnOk result (text.new.items ≡ text.old.items ++ budget_lines m.now steps least.now
        (option_map (λ x. x.now) best.entry)) }
{
    push_count_line(text, b"budget ", steps)?;
    push_value_line(text, b"bound ", &in_sense(m.maximises(), least))?;
    push_known_value(text, m, best)
}

// The line of the value of a known point.
fn push_known_value(text: &mut Vec<u8>, m: &Model, best: Option<&[i64]>) -> Result<(), AllocError>
    requires { ForSome best (λ x. IsInside m.now.program.spans x.now) }
    ensures { OnOk result (text.new.items ≡ text.old.items ++
        known_line m.now (option_map (λ x. x.now) best.entry)) }
{
    match best {
        Some(point) => push_value_line(text, b"value ", &value(m, point)),
        None => Ok(()),
    }
}

/// The lines of a known point.
pub fn push_known(text: &mut Vec<u8>, m: &Model, best: Option<&[i64]>) -> Result<(), AllocError>
    requires { ForSome best (λ x. IsInside m.now.program.spans x.now) }
    ensures { OnOk result (text.new.items ≡ text.old.items ++
        known_lines m.now (option_map (λ x. x.now) best.entry)) }
{
    match best {
        Some(point) => push_point(text, m, m.vars(), point),
        None => Ok(()),
    }
}

// The lines of a point.
fn push_point(text: &mut Vec<u8>, m: &Model, vars: u32, point: &[i64]) -> Result<(), AllocError>
    requires vars { vars ≡ length m.now.program.spans }
    requires named { length m.now.names ≡ length m.now.program.spans }
    requires inside { IsInside m.now.program.spans point.now }
    ensures { OnOk result (text.new.items ≡ text.old.items ++ variable_lines m.now.names point.now) }
{
    for var in 0..vars {
        push_line(text, m.name(var), &point[var as usize])?;
    }
    Ok(())
}

// The value of a point in the text's own sense.
fn value(m: &Model, point: &[i64]) -> i128
    requires { IsInside m.now.program.spans point.now }
    ensures { result ≡ value m.now.program point.now }
{
    let cost = m.cost(point);
    in_sense(m.maximises(), &cost)
}

/// A minimised cost as a value in the text's own sense: negated where the text maximises.
pub fn in_sense(maximises: bool, cost: &i64) -> i128
    ensures { result ≡ in_sense maximises cost.now }
{
    let cost = *cost as i128;
    if maximises { -cost } else { cost }
}

// One line more: a variable's name and its number.
fn push_line(text: &mut Vec<u8>, name: &str, number: &i64) -> Result<(), AllocError>
    ensures { OnOk result (text.new.items ≡ text.old.items ++ variable_line name.now number.now) }
{
    text.extend_from_slice(name.as_bytes())?;
    text.extend_from_slice(b" ")?;
    push_value(text, number)?;
    text.extend_from_slice(b"\n")
}
