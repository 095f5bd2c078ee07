// How a search ends.
use crate::grove::Grove;
use bp_theory::Items;

/// How a search ends: with a best point and its cost, with no feasible point, or stopped with live leaves left, with
/// the best point and its cost so far, where there is one, and a bound that no feasible point's cost is below. Each has
/// its tree.
pub enum Outcome {
    Optimal {
        grove: Grove,
        point: Items<i64>,
        cost: i64,
    },
    Infeasible {
        grove: Grove,
    },
    Budget {
        grove: Grove,
        best: Option<(Items<i64>, i64)>,
        bound: i64,
    },
}

// As of a grove, so that no caller has to prove how each form of an outcome goes.
impl Drop for Outcome {
    fn drop(self) {
        match self {
            Outcome::Optimal {
                grove: _,
                point: _,
                cost: _,
            } => {}
            Outcome::Infeasible { grove: _ } => {}
            Outcome::Budget {
                grove: _,
                best: _,
                bound: _,
            } => {}
        }
    }
}
