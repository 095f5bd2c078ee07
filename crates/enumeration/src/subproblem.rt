// What a search works on.
use crate::form::Form;
use crate::relax::Relaxed;
use bp_theory::Span;

/// A pricing subproblem: a block's rows with the zone and the costs that its points are priced in.
#[derive(Clone, Copy)]
pub struct Subproblem<'a> {
    /// The block's rows and root spans.
    pub form: &'a Form,
    /// The zone to be priced: the span of each variable, within its root span.
    pub zone: &'a [Span],
    /// The cost of each variable, scaled as the caller's costs are.
    pub costs: &'a [i128],
    /// The costs with multiples of the rows added, by which the search is pruned.
    pub relaxed: &'a Relaxed,
}
