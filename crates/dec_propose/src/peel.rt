// Parts of variables that rows join, as long as no part becomes too large: a row is left out where it would make one
// part of what falls apart without it. (Parts are joined by size: Tarjan and van Leeuwen, 'Worst-case analysis of set
// union algorithms', 1984.)
use crate::columns::{number_at, put};
use crate::marks::terms_of;
use crate::order::numbers_below;
use bp_model::{Model, Term};
use std::alloc::{AllocError, Global};

// How far a variable's part is looked for: parts are joined by size, so that no way is longer than their number's
// binary digits.
const LONGEST_WAY: u32 = 64;

// Variables in parts: each has another of its part above it, the first of a part knows how many are in it, and parts
// that are counted are told.
#[derive(Drop)]
struct Parts {
    // By number of the variable: one that is nearer to the first of its part; the first has itself.
    above: Vec<u32>,
    // By number of the variable: how many variables its part has; out of date where it isn't the first of the part.
    sizes: Vec<u32>,
    // By number of the variable: whether its part, of which it is the first, was counted; all false between two rows.
    counted: Vec<bool>,
}

impl Parts {
    // Each variable in a part of its own.
    fn new(alloc: Global, m: &Model) -> Result<Parts, AllocError> {
        let above = numbers_below(alloc, m.vars())?;
        let sizes = Vec::from_elem(alloc, 1, m.vars() as usize)?;
        let counted = Vec::from_elem(alloc, false, m.vars() as usize)?;
        Ok(Parts {
            above,
            sizes,
            counted,
        })
    }

    // The first variable of a variable's part.
    fn first_of(&mut self, var: u32) -> u32 {
        let mut at = var;
        for _ in 0..LONGEST_WAY {
            let next = number_at(self.above.as_slice(), at);
            if next == at {
                return at;
            }
            let above = number_at(self.above.as_slice(), next);
            put(self.above.as_mut_slice(), at, above);
            at = above;
        }
        at
    }

    // How many variables the parts of a row's terms have together, each part counted once.
    fn size_with(&mut self, terms: &[Term]) -> u32 {
        let mut size: u32 = 0;
        for term in terms {
            let first = self.first_of(term.var);
            if let Some(counted) = self.counted.get_mut(first as usize) {
                if !*counted {
                    *counted = true;
                    size = size.saturating_add(number_at(self.sizes.as_slice(), first));
                }
            }
        }
        for term in terms {
            let first = self.first_of(term.var);
            if let Some(counted) = self.counted.get_mut(first as usize) {
                *counted = false;
            }
        }
        size
    }

    // Joins the parts of two variables, the smaller below the larger.
    fn join(&mut self, one: u32, other: u32) {
        let one = self.first_of(one);
        let other = self.first_of(other);
        if one == other {
            return;
        }
        let size = number_at(self.sizes.as_slice(), one);
        let others = number_at(self.sizes.as_slice(), other);
        let (below, above) = if size < others {
            (one, other)
        } else {
            (other, one)
        };
        put(self.above.as_mut_slice(), below, above);
        put(
            self.sizes.as_mut_slice(),
            above,
            size.saturating_add(others),
        );
    }

    // Joins the parts of a row's terms where they have at most so many variables together: whether it did.
    fn take(&mut self, terms: &[Term], most: u32) -> bool {
        if most < self.size_with(terms) {
            return false;
        }
        if let Some(first) = terms.first() {
            for term in terms {
                self.join(first.var, term.var);
            }
        }
        true
    }
}

/// Marks for the rows that would join parts to more than so many variables, where rows are taken in an order.
pub fn peeled_marks(
    alloc: Global,
    m: &Model,
    order: &[u32],
    most: u32,
) -> Result<Vec<bool>, AllocError> {
    let mut parts = Parts::new(alloc, m)?;
    let mut marks = Vec::from_elem(alloc, true, m.rows() as usize)?;
    for row in order {
        if let Some(mark) = marks.get_mut(*row as usize) {
            *mark = !parts.take(terms_of(m, *row), most);
        }
    }
    Ok(marks)
}
