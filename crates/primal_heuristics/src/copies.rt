// Rows that proofs may name, and points by copies: hints, which exact bounds judge. A variable that stands in rows of
// several blocks has a copy in each, and a link row for each copy but the first.
ghost use Rattle.std.specs.Prelude.{◌<◌, length};

use block_program::{Block, Blocked};
use std::alloc::{AllocError, Global};

/// Whether there are rows behind a model's that proofs may name.
pub fn has_further_rows(b: &Blocked) -> bool {
    b.model().rows() < b.named_rows()
}

/// How many numbers a point by copies has: one for each variable, which is that of its first copy, and behind these one
/// for each further copy, in the order of link rows.
pub fn copy_count(b: &Blocked) -> usize {
    let further = b.named_rows().saturating_sub(b.model().rows());
    (b.model().vars() as usize).saturating_add(further as usize)
}

/// Whether a block has the first copy of a variable.
pub fn is_first_copy(b: &Blocked, number: u32, var: u32) -> bool {
    var < b.model().vars() && b.var_place(var).0 == number
}

/// Where the number of a copy at a place of a block stands in a point by copies.
pub fn copy_place(b: &Blocked, number: u32, block: &Block, place: u32) -> usize
    requires { place < length block.now.block.copies }
{
    let var = block.vars()[place as usize];
    let rows = b.model().rows();
    match block.master(place).first() {
        Some(entry) if entry.0 >= rows && !is_first_copy(b, number, var) => {
            let further = entry.0.saturating_sub(rows);
            (b.model().vars() as usize).saturating_add(further as usize)
        }
        _ => var as usize,
    }
}

/// The variables that have several copies, in order.
pub fn linking_vars(alloc: Global, b: &Blocked) -> Result<Vec<u32>, AllocError> {
    let mut links = Vec::new(alloc);
    if has_further_rows(b) {
        let are_linking = are_linking(alloc, b)?;
        for var in 0..b.model().vars() {
            if let Some(true) = are_linking.as_slice().get(var as usize) {
                links.push(var)?;
            }
        }
    }
    Ok(links)
}

// By variable whether it has several copies.
fn are_linking(alloc: Global, b: &Blocked) -> Result<Vec<bool>, AllocError> {
    let mut are_linking = Vec::from_elem(alloc, false, b.model().vars() as usize)?;
    for number in 0..b.blocks() {
        for var in b.block(number).vars() {
            if !is_first_copy(b, number, *var) {
                if let Some(place) = are_linking.get_mut(*var as usize) {
                    *place = true;
                }
            }
        }
    }
    Ok(are_linking)
}
