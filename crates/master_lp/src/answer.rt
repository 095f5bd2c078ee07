// What solving a restricted master gives.

/// An answer to a restricted master, in units of which 1,048,576 make one.
#[derive(Drop)]
pub struct MasterAnswer {
    /// The weight of each column, 0 to 2^33, also summed over a class.
    pub weights: Vec<i64>,
    /// The multiplier of each row, at most 2^40 in magnitude, 0 or of the row's sign.
    pub mults: Vec<i64>,
    /// The least price of each class's columns at these multipliers.
    pub convex: Vec<i128>,
    /// The weighted cost less what multipliers and least prices give.
    pub gap: i128,
    /// How far the weights miss rows and counts, together.
    pub short: i128,
}
