// What is still to come of a walk over a certificate's tree.
ghost use Rattle.std.specs.Prelude.{◌≡◌, ◌∷◌, OnOk};
ghost use Rattle.cert_format.specs.Sketch.{tree_of};
ghost use Rattle.cert_line_check.specs.Steps.{node, to_high, back, steps_of};

use bp_theory::Span;
use cert_text::Sketch;
use std::alloc::AllocError;

/// What is still to come of a walk over a certificate's tree in preorder: a node with all below it; the turn from the low
/// part of a split behind a number to its high part; or the way back from a split. The span is what the split's variable had
/// before.
#[derive(Drop)]
pub enum Ahead<'a> {
    /// A node with all below it.
    Node(&'a Sketch),
    /// The turn to the high part: the number of the split's variable, the greatest number of the low part, and the span.
    High { var: u32, at: i64, span: Span },
    /// The way back: the number of the split's variable, and the span.
    Back { var: u32, span: Span },
}

/// Puts the parts of a split in front of what is still to come, the next one last: they take four places of the list, and
/// no more than two are left of each split above the node that comes next.
pub fn push_parts<'a>(
    ahead: &mut Vec<Ahead<'a>>,
    var: u32,
    at: &i64,
    span: &Span,
    low: &'a Sketch,
    high: &'a Sketch,
) -> Result<(), AllocError>
    ensures { OnOk result (steps_of ahead.new.items ≡ node (tree_of low.now) ∷
        to_high var at.now span.now ∷ node (tree_of high.now) ∷ back var span.now ∷
        steps_of ahead.old.items) }
{
    let span = *span;
    ahead.push(Ahead::Back { var, span })?;
    ahead.push(Ahead::Node(high))?;
    ahead.push(Ahead::High { var, at: *at, span })?;
    ahead.push(Ahead::Node(low))?;
    Ok(())
}
