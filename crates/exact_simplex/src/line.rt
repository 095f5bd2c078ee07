// Lines of equations: a row's sides, or a class's count, with what each line's two logicals cost.
// The logical that adds to a line (plus) and the one that takes from it (minus) bound the line's price: it is at most
// the cost of plus and at least minus the cost of minus. So costs below the penalty hold the price in a box.
use bp_theory::{MasterRow, Sense};
use std::alloc::AllocError;

// The least by which a right side is nudged, and how much more at most.
const LEAST_NUDGE: i64 = 1 << 20;

const NUDGE_RANGE: u32 = 1 << 22;

// The half-width of a box that isn't there.
pub const NO_BOX: i64 = -1;

/// A line: a side of a row, or the count of a class.
#[derive(Clone, Copy)]
pub struct Line {
    /// Its right side.
    pub rhs: i64,
    /// Whether the logical that adds to it pays the penalty: the line may not lack anything.
    pub plus_pays: bool,
    /// Whether the logical that takes from it pays the penalty: the line may not have too much.
    pub minus_pays: bool,
    /// By how much its right side is nudged, in units of 2^-36.
    pub nudge: i64,
    /// The price that it is to stay near, in units of which 1,048,576 make one.
    wished: i64,
    /// How far from that, in units; `NO_BOX` where nothing is wished.
    width: i64,
    /// What the logical that adds to it costs, in units.
    pub plus_cost: i64,
    /// What the logical that takes from it costs, in units.
    pub minus_cost: i64,
    /// The centre of the box that these costs make, in units; 0 where they make none.
    pub centre: i64,
}

impl Line {
    // Wishes that the price be no further from this one than so much, both in units; a negative distance wishes
    // nothing.
    pub fn wish(&mut self, price: i64, width: i64) {
        self.wished = price;
        self.width = width;
    }

    // Sets what the logicals cost, where a missed line costs so much, in units. Says whether they make a box.
    // The centre is a price that the line may have, so that both costs together are never below 0.
    pub fn set_costs(&mut self, penalty: i64) -> bool {
        let most_plus = if self.plus_pays { penalty } else { 0 };
        let most_minus = if self.minus_pays { penalty } else { 0 };
        let is_boxed = 0 <= self.width && self.width <= penalty;
        self.centre = 0;
        self.plus_cost = most_plus;
        self.minus_cost = most_minus;
        if is_boxed {
            let centre = self.wished.max(most_minus.wrapping_neg()).min(most_plus);
            self.centre = centre;
            self.plus_cost = most_plus.min(centre.saturating_add(self.width));
            self.minus_cost = most_minus.min(self.width.saturating_sub(centre));
        }
        is_boxed
    }
}

// Adds the lines of a row.
pub fn push_lines(lines: &mut Vec<Line>, row: &MasterRow) -> Result<(), AllocError> {
    match row.sense {
        Sense::Le => push_line(lines, row.rhs, false, true),
        Sense::Ge => push_line(lines, row.low, true, false),
        Sense::Eq => push_line(lines, row.rhs, true, true),
        Sense::In => {
            push_line(lines, row.rhs, false, true)?;
            push_line(lines, row.low, true, false)
        }
    }
}

// Adds a line. Its nudge goes where the line asks for less, and differs from line to line.
pub fn push_line(
    lines: &mut Vec<Line>,
    rhs: i64,
    plus_pays: bool,
    minus_pays: bool,
) -> Result<(), AllocError> {
    let place = match u32::try_from(lines.len()) {
        Ok(place) => place,
        Err(_) => 0,
    };
    let spread = place.wrapping_add(1).wrapping_mul(2_654_435_761) % NUDGE_RANGE;
    let nudge = LEAST_NUDGE + i64::from(spread);
    lines.push(Line {
        rhs,
        plus_pays,
        minus_pays,
        nudge: if plus_pays && !minus_pays {
            -nudge
        } else {
            nudge
        },
        wished: 0,
        width: NO_BOX,
        plus_cost: 0,
        minus_cost: 0,
        centre: 0,
    })?;
    Ok(())
}

// Whether a line begins with the logical that adds to it.
pub fn starts_plus(line: &Line) -> bool {
    if line.rhs == 0 {
        !line.plus_pays || line.minus_pays
    } else {
        line.rhs > 0
    }
}
