// Whether the columns of blocks give all copies of each variable one number.
ghost use Rattle.std.specs.Prelude.{◌↔◌, IsTrue};
ghost use Rattle.column_assignment.specs.Deals.{HasNumbers, HaveNumbers, point_at};

use crate::point::{column_of, number_at, number_of};
use block_program::{Block, Blocked};
use search_laws::UsedColumn;

/// Whether each block's copies have, in the block's column, the numbers that a point gives their variables, so that all
/// copies of a variable have one number. `columns` are the places among those used, by block.
pub fn copies_agree(b: &Blocked, used: &[UsedColumn], columns: &[usize], point: &[i64]) -> bool
    ensures { IsTrue result ↔ HaveNumbers b.now.blocking used.now columns.now point.now }
{
    for block in 0..b.blocks() {
        let column = column_of(columns, block);
        if !block_agrees(b.block(block), used, column, point) {
            return false;
        }
    }
    true
}

// Whether a block's copies have the numbers of a point in a column.
fn block_agrees(block: &Block, used: &[UsedColumn], column: usize, point: &[i64]) -> bool
    ensures { IsTrue result ↔ HasNumbers point.now block.now.block (point_at used.now column) }
{
    let vars = block.vars();
    for place in 0..block.var_count() {
        let var = vars[place as usize];
        if number_of(used, column, place) != number_at(point, var) {
            return false;
        }
    }
    true
}
