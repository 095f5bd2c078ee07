// How far weights and multipliers are from best, and weights from meeting rows and counts, exactly.
ghost use Rattle.std.specs.Prelude.{◌≡◌, pos, zip, length, IfOk};
ghost use Rattle.search_laws.specs.Master.{AreConvex, gap, short};
ghost use Rattle.master_gap.specs.Restricted.{IsModest};
ghost use Rattle.master_gap.specs.Ranges.{AreWeights, AreMultipliers};

use crate::load::{activities, class_weights, cost_of};
use crate::numbers::{minus, plus};
use crate::short::{classes_short, rows_short};
use crate::worth::{classes_worth, rows_worth};
use bp_theory::MasterRow;
use search_laws::Column;
use std::alloc::{AllocError, Global};

/// The weighted cost less what multipliers and least prices give. It is in units of 2^-20, as weights, multipliers and
/// least prices are; costs, sides and counts are not scaled.
pub fn gap_of(
    cols: &[Column],
    rows: &[MasterRow],
    counts: &[u32],
    weights: &[i64],
    mults: &[i64],
    convex: &[i128],
) -> i128
    requires modest { IsModest (record { cols = cols.now; rows = rows.now; counts = counts.now }) }
    requires weights { AreWeights cols.now (length counts.now) weights.now }
    requires mults { AreMultipliers rows.now mults.now }
    requires convex { AreConvex cols.now (length counts.now) mults.now convex.now }
    ensures { result ≡ gap rows.now counts.now (zip cols.now weights.now) mults.now convex.now }
{
    let cost = cost_of(cols, weights);
    let of_rows = rows_worth(rows, mults);
    let of_classes = classes_worth(counts, convex);
    let worth = plus(&of_rows, &of_classes);
    minus(&cost, &worth)
}

/// How far weighted columns miss rows and counts, together, in units of 2^-20, as weights are.
pub fn short_of(
    alloc: Global,
    cols: &[Column],
    rows: &[MasterRow],
    counts: &[u32],
    weights: &[i64],
) -> Result<i128, AllocError>
    requires modest { IsModest (record { cols = cols.now; rows = rows.now; counts = counts.now }) }
    requires weights { AreWeights cols.now (length counts.now) weights.now }
    ensures { IfOk result (λ s. s ≡ pos (short rows.now counts.now (zip cols.now weights.now))) }
{
    let sums = activities(alloc, cols, weights, rows.len())?;
    let totals = class_weights(alloc, cols, weights, counts.len())?;
    let of_rows = rows_short(rows, &sums);
    let of_classes = classes_short(counts, &totals);
    Ok(plus(&of_rows, &of_classes))
}
