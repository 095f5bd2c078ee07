// An answer from proposals: what it says of them is exact.
ghost use Rattle.std.specs.Prelude.{IfOk};
ghost use Rattle.master_gap.specs.Restricted.{IsModest};
ghost use Rattle.master_lp.specs.Answer.{IsAnswer, IsNearBest};

use crate::answer::MasterAnswer;
use bp_theory::MasterRow;
use master_gap::{clipped_multipliers, clipped_weights, gap_of, least_prices, short_of};
use search_laws::Column;
use std::alloc::{AllocError, Global};

// The answer that proposed weights and multipliers come to, both in units of 2^-20.
pub fn measured(
    alloc: Global,
    cols: &[Column],
    rows: &[MasterRow],
    counts: &[u32],
    weights: &[i64],
    mults: &[i64],
) -> Result<MasterAnswer, AllocError>
    requires { IsModest (record { cols = cols.now; rows = rows.now; counts = counts.now }) }
    ensures answer { IfOk result (IsAnswer
        (record { cols = cols.now; rows = rows.now; counts = counts.now })) }
    ensures near { IfOk result (IsNearBest
        (record { cols = cols.now; rows = rows.now; counts = counts.now })) }
{
    let weights = clipped_weights(alloc, cols, counts.len(), weights)?;
    let mults = clipped_multipliers(alloc, rows, mults)?;
    let convex = least_prices(alloc, cols, counts.len(), &mults)?;
    let gap = gap_of(cols, rows, counts, &weights, &mults, &convex);
    let short = short_of(alloc, cols, rows, counts, &weights)?;
    Ok(MasterAnswer {
        weights,
        mults,
        convex,
        gap,
        short,
    })
}
