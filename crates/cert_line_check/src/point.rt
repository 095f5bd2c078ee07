// The judgement of a point's line.
ghost use Rattle.std.specs.Prelude.{◌≡◌, ◌↔◌, IsTrue, MatchOption, Some};
ghost use Rattle.bp_theory.specs.Program.{in_sense, value, IsFeasible};
ghost use Rattle.bp_theory.specs.Blocking.{Blocking};
ghost use Rattle.bp_theory.specs.Claims.{Reaches};
ghost use Rattle.bp_theory.specs.Judgement.{HasFault, point_line, point_lines, named_value};
ghost use Rattle.bp_theory.specs.declared.Claim as claims;
ghost use Rattle.cert_format.specs.Kept.{certificate_of};
ghost use Rattle.cert_line_check.specs.Judging.{kind_of, JudgesPoint};

use crate::place::Rejection;
use block_program::Blocked;
use bp_model::{Miss, Model};
use bp_theory::{CheckKind, Claim};
use cert_text::Cert;

/// Judges the line of a certificate's point, where it has one: gives the number of the line behind it.
pub fn judge_point(b: &Blocked, cert: &Cert) -> Result<u64, Rejection>
    ensures { JudgesPoint b.now.named.program b.now.blocking (certificate_of cert.now).claim
        (point_lines (named_value (certificate_of cert.now).claim) (certificate_of cert.now).point)
        result }
{
    let claim = cert.claim();
    match cert.point() {
        Some(point) => judge_claim(b, &claim, point),
        None => Ok(3),
    }
}

/// Judges the line of a claim's point, where the claim names a value: gives the number of the line behind it.
pub fn judge_claim(b: &Blocked, claim: &Claim, point: &[i64]) -> Result<u64, Rejection>
    ensures { JudgesPoint b.now.named.program b.now.blocking claim.now
        (point_lines (named_value claim.now) (Some point.now)) result }
{
    match &value_of(claim) {
        Some(value) => match value_fault(b.model(), value, point) {
            Some(kind) => Err(Rejection { line: 3, kind }),
            None => Ok(4),
        },
        None => Ok(3),
    }
}

// The value that a claim names.
fn value_of(claim: &Claim) -> Option<i64>
    ensures { result ≡ named_value claim.now }
{
    match claim {
        Claim::Optimal(value) => Some(*value),
        Claim::Infeasible => None,
        Claim::Bound(_, value) => *value,
    }
}

// What is wrong with a point of a value.
fn value_fault(model: &Model, value: &i64, point: &[i64]) -> Option<CheckKind>
    ensures { MatchOption result (Reaches model.now.program value.now point.now)
        (λ kind. (b : Blocking) (claim : claims.Claim) →
        HasFault model.now.program b claim (point_line value.now point.now) kind) }
{
    match model.misses(point) {
        Some(miss) => Some(miss_kind(&miss)),
        None => {
            if has_value(model, point, value) {
                None
            } else {
                Some(CheckKind::Value)
            }
        }
    }
}

// The kind of what a point misses.
fn miss_kind(miss: &Miss) -> CheckKind
    ensures { result ≡ kind_of miss.now }
{
    match miss {
        Miss::Length => CheckKind::PointBound,
        Miss::Bound(_) => CheckKind::PointBound,
        Miss::Row(_) => CheckKind::PointRow,
    }
}

// Whether a feasible point has a value, in the text's own sense.
fn has_value(model: &Model, point: &[i64], wanted: &i64) -> bool
    requires { IsFeasible model.now.program point.now }
    ensures { IsTrue result ↔ (value model.now.program point.now ≡ wanted.now) }
{
    let cost = model.cost(point);
    in_sense(model.maximises(), &cost) == i128::from(*wanted)
}

// A cost as a value, or a value as a cost.
fn in_sense(maximises: bool, number: &i64) -> i128
    ensures { result ≡ in_sense maximises number.now }
{
    let number = i128::from(*number);
    if maximises { -number } else { number }
}
