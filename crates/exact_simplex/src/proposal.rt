// What the simplex proposes.

/// Weights and multipliers as the simplex has them, in units of which 1,048,576 make one. Nothing is promised of them.
#[derive(Drop)]
pub struct Proposal {
    /// A weight for each column.
    pub weights: Vec<i64>,
    /// A multiplier for each row.
    pub mults: Vec<i64>,
    /// Whether weights and multipliers rest on more than the columns: a row or a count is missed, or a multiplier is
    /// held by the box that it was to stay in.
    pub is_short: bool,
}
