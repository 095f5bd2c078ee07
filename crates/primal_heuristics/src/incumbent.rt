// Costs of points that may be feasible.
use crate::exchanges::improve_point;
use crate::residuals::UNIT;
use block_program::Blocked;
use std::alloc::{AllocError, Global};

/// The cost of a point, minimised and not scaled, if it is feasible.
pub fn feasible_cost(b: &Blocked, point: &[i64]) -> Option<i64> {
    match b.model().misses(point) {
        None => Some(b.model().cost(point)),
        Some(_) => None,
    }
}

/// Whether a cost is below a known one, where there is one.
pub fn is_below(cost: i64, known: Option<i64>) -> bool {
    match known {
        None => true,
        Some(known) => cost < known,
    }
}

/// Whether a bound at the greatest scale, with the constant, reaches a known cost in ones, where there is one: no whole
/// cost below it is left.
pub fn is_reached(value: i128, known: Option<i64>) -> bool {
    match known {
        None => false,
        Some(known) => i128::from(known).saturating_sub(1).saturating_mul(UNIT) < value,
    }
}

/// The incumbent, as a node knows it.
#[derive(Drop)]
pub struct Incumbent {
    /// Its cost, where there is one, in ones.
    pub known: Option<i64>,
    /// A feasible point of that cost, by variable, where it was found in this node.
    pub point: Option<Vec<i64>>,
}

impl Incumbent {
    /// Takes a point, if it is feasible and cheaper than what is known, or a cheaper one near it.
    pub fn take(
        &mut self,
        alloc: Global,
        b: &Blocked,
        point: Option<Vec<i64>>,
    ) -> Result<(), AllocError> {
        if let Some(point) = point {
            if self.better_cost(b, point.as_slice()).is_some() {
                let near = improve_point(alloc, b, point)?;
                if let Some(cost) = self.better_cost(b, near.as_slice()) {
                    self.known = Some(cost);
                    self.point = Some(near);
                }
            }
        }
        Ok(())
    }

    // The cost of a point that is feasible and cheaper than what is known.
    fn better_cost(&self, b: &Blocked, point: &[i64]) -> Option<i64> {
        match feasible_cost(b, point) {
            Some(cost) if is_below(cost, self.known) => Some(cost),
            _ => None,
        }
    }
}
