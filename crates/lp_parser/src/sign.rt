// One sign more, where signs stand before a number, a name or an infinity: the stage is changed in place, so that a long run of
// signs is read in time linear in its length, with nothing else moved.
ghost use Rattle.std.specs.Prelude.{◌≡◌, ℕ, Bool, List, IfOk, IfSome, IfNone};
ghost use Rattle.lp_syntax.specs.Tree.{sign as sign_symbol};
ghost use Rattle.lp_parser.specs.StageIn.{IsFurther, objective_stage_in, row_stage_in, bound_stage_in, stage_in};
ghost use Rattle.lp_parser.specs.Parser as plain;
ghost use Rattle.lp_parser.specs.Parser.{step as specs_step};

use crate::stage::{BoundStage, ObjectiveStage, RowStage, Stage};
use lp_syntax::{Sign, Site};
use std::alloc::AllocError;

/// Reads a sign where at least one sign or a label, a comparison or a summand stands before it in the same place, and gives the
/// sign's site. At other stages nothing changes, and there is no site.
pub fn add_sign(stage: &mut Stage, sign: Sign) -> Result<Option<Site>, AllocError>
    ensures added { (text : List ℕ) → IfOk result (λ r. IfSome r
        (λ site. specs_step (stage_in text stage.old) (sign_symbol sign) ≡
        plain.to site (stage_in text stage.new))) }
    ensures further { IfOk result (λ r. IfSome r IsFurther) }
    ensures same { IfOk result (λ r. IfNone r (stage.new ≡ stage.old)) }
{
    match stage {
        Stage::Objective(_, stage) => add_objective_sign(stage, sign),
        Stage::Row(_, stage) => add_row_sign(stage, sign),
        Stage::Bounds(_, stage) => add_bound_sign(stage, sign),
        _ => Ok(None),
    }
}

/// A sign more in an objective.
fn add_objective_sign(stage: &mut ObjectiveStage, sign: Sign) -> Result<Option<Site>, AllocError>
    ensures added { (text : List ℕ) (maximises : Bool) → IfOk result (λ r. IfSome r
        (λ site. specs_step (objective_stage_in text maximises stage.old) (sign_symbol sign) ≡
        plain.to site (objective_stage_in text maximises stage.new))) }
    ensures further { IfOk result (λ r. IfSome r IsFurther) }
    ensures same { IfOk result (λ r. IfNone r (stage.new ≡ stage.old)) }
{
    match stage {
        ObjectiveStage::Open(_, gap) => {
            gap.signs.push(sign)?;
            Ok(Some(Site::ObjectiveMore))
        }
        _ => Ok(None),
    }
}

/// A sign more in a row.
fn add_row_sign(stage: &mut RowStage, sign: Sign) -> Result<Option<Site>, AllocError>
    ensures added { (text : List ℕ) (front : plain.Front) → IfOk result (λ r. IfSome r
        (λ site. specs_step (row_stage_in text front stage.old) (sign_symbol sign) ≡
        plain.to site (row_stage_in text front stage.new))) }
    ensures further { IfOk result (λ r. IfSome r IsFurther) }
    ensures same { IfOk result (λ r. IfNone r (stage.new ≡ stage.old)) }
{
    match stage {
        RowStage::Signs(_, signs) => signs.push(sign)?,
        RowStage::Open(_, _, _, signs) => signs.push(sign)?,
        RowStage::Compared(_, _, _, signs) => signs.push(sign)?,
        RowStage::NumberOpen(_, gap) => gap.signs.push(sign)?,
        RowStage::NumberCompared(_, _, _, _, signs) => signs.push(sign)?,
        _ => return Ok(None),
    }
    Ok(Some(Site::RowMore))
}

/// A sign more in a statement of a bounds section.
fn add_bound_sign(stage: &mut BoundStage, sign: Sign) -> Result<Option<Site>, AllocError>
    ensures added { (text : List ℕ) (within : plain.Within) → IfOk result (λ r. IfSome r
        (λ site. specs_step (bound_stage_in text within stage.old) (sign_symbol sign) ≡
        plain.to site (bound_stage_in text within stage.new))) }
    ensures further { IfOk result (λ r. IfSome r IsFurther) }
    ensures same { IfOk result (λ r. IfNone r (stage.new ≡ stage.old)) }
{
    match stage {
        BoundStage::Signs(signs) => signs.push(sign)?,
        BoundStage::Between(_, _, _, signs) => signs.push(sign)?,
        BoundStage::Named(_, _, signs) => signs.push(sign)?,
        _ => return Ok(None),
    }
    Ok(Some(Site::Other))
}
