// Bases that are kept, to begin another solution with.
use crate::variable::Status;

/// A basis that is kept. Variables are columns and, behind them, the logicals of rows.
#[derive(Drop)]
pub struct Basis {
    /// How many columns the program had.
    pub(crate) columns: usize,
    /// By position, the number of the basic variable.
    pub(crate) head: Vec<u32>,
    /// By variable, whether it is basic or at which end of its range it stands.
    pub(crate) statuses: Vec<Status>,
    /// By position, the pricing weight of its row, at least 1.
    pub(crate) weights: Vec<f32>,
}

impl Basis {
    /// How much memory it takes, in bytes.
    pub fn size(&self) -> usize {
        self.head
            .len()
            .saturating_mul(8)
            .saturating_add(self.statuses.len())
    }
}
