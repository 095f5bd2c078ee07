// What weights of columns give.
use bp_theory::Items;

/// What weights of columns give.
#[derive(Drop)]
pub struct Spread {
    /// The point in which the blocks of each class, ascending, have the class's columns in order, each as often as its
    /// weight says. It is there exactly where each weight is a whole number of units, each class's weights add up to its
    /// number of blocks, and all copies of each variable so have one number.
    pub point: Option<Items<i64>>,
    /// A variable with a number at which its span is split: its low part ends there. It is there exactly where some
    /// span has two numbers.
    pub split: Option<(u32, i64)>,
}
