// The knapsack that a row makes of its variables in a zone.
use crate::items::Item;
use bp_theory::Span;

/// The knapsack of a row within a zone: an item for each variable, and what turns units back into numbers. All four lists
/// go by variable and have one length.
#[derive(Clone, Copy)]
pub struct Knapsack<'a> {
    /// The items: what a unit weighs and costs, and how many units there are.
    pub items: &'a [Item],
    /// The row's coefficients.
    pub coefs: &'a [i128],
    /// The zone: a span for each variable.
    pub zone: &'a [Span],
    /// The cost of each variable, at the scale of the caller's costs.
    pub costs: &'a [i128],
}
