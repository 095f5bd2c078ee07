//! A bounded dual simplex in `f64` over sparse columns. Each row has a logical with the row's range, and each column a
//! span, so that every basis is dual feasible once columns stand at the better ends of their spans: there is no first
//! phase. Everything here serves hints: what is promised is that each call returns and that lists keep their lengths.
#![tactic(auto)]

mod basis;
mod enter;
mod fresh;
mod kept;
mod lp;
mod price;
mod ratio;
mod solve;
mod variable;

pub use basis::Basis;
pub use kept::Snapshot;
pub use lp::Lp;
pub use solve::{Effort, End};
pub use variable::{ENDLESS, Range, Status};
