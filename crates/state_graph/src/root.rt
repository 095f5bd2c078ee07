// The state of a block before its first variable has a number.
ghost use Rattle.std.specs.Prelude.{◌≡◌, IfOk, length};
ghost use Rattle.state_graph.specs.Layers.{window_in, IsRoot};

use bp_theory::{Items, Row, Sense, Span};
use std::alloc::{AllocError, Global};

/// The sums between which a row is met, within what its variables can add up to.
fn window_of(row: &Row, hull: &Span) -> Span
    ensures { result ≡ window_in row.now hull.now }
{
    match row.sense {
        Sense::Le => Span {
            lo: hull.lo,
            hi: row.rhs.min(hull.hi),
        },
        Sense::Ge => Span {
            lo: row.low.max(hull.lo),
            hi: hull.hi,
        },
        Sense::Eq | Sense::In => Span {
            lo: row.low.max(hull.lo),
            hi: row.rhs.min(hull.hi),
        },
    }
}

/// The root's state.
pub fn root_of(alloc: Global, rows: &[Row], hulls: &[Span]) -> Result<Items<Span>, AllocError>
    requires { length hulls.now ≡ length rows.now }
    ensures { IfOk result (λ windows. IsRoot rows.now hulls.now windows) }
{
    let mut windows = Vec::new(alloc);
    for k in 0..rows.len() {
        windows.push(window_of(&rows[k], &hulls[k]))?;
    }
    Ok(Items::from_vec(windows))
}
