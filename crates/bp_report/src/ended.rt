// The reports of searches.
ghost use Rattle.std.specs.Prelude.{◌≡◌, IfOk};
ghost use Rattle.std.specs.Option.{ForSome, option_map};
ghost use Rattle.bp_theory.specs.Program.{IsInside};
ghost use Rattle.report_lines.specs.Searches.{CanTell};
ghost use Rattle.bp_report.specs.Report.{ended_report, budget_report, solve_report};

use block_program::Blocked;
use bp_model::Model;
use branch_tree::Outcome;
use report_lines::{point_of, push_budget, push_ended, push_known, push_outcome};
use std::alloc::{AllocError, Global};

/// The report of a search that ended with this best point, or that found that no point is feasible.
pub fn ended_text(alloc: Global, m: &Model, best: Option<&[i64]>) -> Result<Vec<u8>, AllocError>
    requires { ForSome best (λ x. IsInside m.now.program.spans x.now) }
    ensures { IfOk result (λ text. text.items ≡ ended_report m.now (option_map
        (λ x. x.now) best.entry)) }
{
    let mut text = Vec::new(alloc);
    push_ended(&mut text, m, best)?;
    push_known(&mut text, m, best)?;
    Ok(text)
}

/// The report of a search that was stopped after so many steps, with the least cost that it leaves open, and with the
/// best point that it knows, where it knows one. The cost is given as a minimised one, and told as a bound in the
/// text's own sense.
pub fn budget_text(
    alloc: Global,
    m: &Model,
    steps: u64,
    least: &i64,
    best: Option<&[i64]>,
) -> Result<Vec<u8>, AllocError>
    requires { ForSome best (λ x. IsInside m.now.program.spans x.now) }
    ensures { IfOk result (λ text. text.items ≡ budget_report m.now steps least.now (option_map
        (λ x. x.now) best.entry)) }
{
    let mut text = Vec::new(alloc);
    push_budget(&mut text, m, steps, least, best)?;
    push_known(&mut text, m, best)?;
    Ok(text)
}

/// The report on the outcome of a search with so many steps.
pub fn solve_text(
    alloc: Global,
    b: &Blocked,
    o: &Outcome,
    steps: u64,
) -> Result<Vec<u8>, AllocError>
    requires { CanTell b.now.named o.now }
    ensures { IfOk result (λ text. text.items ≡ solve_report b.now.named steps o.now) }
{
    let mut text = Vec::new(alloc);
    push_outcome(&mut text, b.model(), o, steps)?;
    push_known(&mut text, b.model(), point_of(o))?;
    Ok(text)
}
