// A block, variable by variable.
use bp_theory::{Items, Span};

/// A variable of a block: its span at the root, its coefficient in each row, and for each row the least and the greatest
/// that the variables behind it can add up to, and a row that they add the same to.
#[derive(Drop)]
pub struct Layer {
    /// The variable's span at the root.
    pub span: Span,
    /// By number of the row: the variable's coefficient, 0 where it isn't there.
    pub column: Items<i64>,
    /// By number of the row: the least and the greatest that the variables behind can add up to.
    pub hulls: Items<Span>,
    /// By number of the row: the number of one that the variables behind add the same to, maybe its own.
    pub twins: Items<usize>,
}
