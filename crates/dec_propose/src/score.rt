// What the blocks of a decomposition promise for column generation: that they cover most variables, that many are
// alike, that none is large, and that few rows are left beside them. (After Khaniyev, Elhedhli and Erenay, Structure
// detection in mixed-integer programs, 2018, and the scores of Bergner et al., Automatic Dantzig-Wolfe reformulation of
// mixed integer programs, 2015.)
use crate::groups::{mix, mix_whole};
use crate::marks::mark_variables;
use bp_model::{Dec, Model, Row};
use std::alloc::{AllocError, Global};

// The weights of what a block of rows of each kind gains by columns.
const OF_CHOICES: u64 = 0;

const OF_LINKS: u64 = 6;

const OF_OTHERS: u64 = 10;

// The least share of variables, weighed, that blocks cover, and the greatest share of one block, in thousandths.
const LEAST_COVERED: u64 = 450;

const MOST_OF_ONE: u64 = 500;

// What is seen of a block: its rows, its variables, the weight of its rows, and a hash of them.
#[derive(Clone, Copy)]
struct Sight {
    // How many rows it has.
    rows: u64,
    // How many variables its rows have that no earlier row has, of another block either.
    vars: u64,
    // The greatest weight of a row: 0, 6 or 10.
    weight: u64,
    // A hash of sides and coefficients, but not of variables: blocks that are alike have the same.
    hash: u64,
}

impl Sight {
    // A row more, with so many variables that no row before has.
    fn add(&mut self, row: &Row, new: u64) {
        self.rows = self.rows.saturating_add(1);
        self.vars = self.vars.saturating_add(new);
        self.weight = self.weight.max(weight_of(row));
        self.hash = mix(mix_whole(mix_whole(self.hash, row.low), row.rhs), new);
        for term in row.terms.as_slice() {
            self.hash = mix_whole(self.hash, term.coef);
        }
    }

    // What columns gain: nothing for a block of one link between two variables, which is a box but for one point.
    fn gain(&self) -> u64 {
        if self.rows < 2 && self.weight < OF_OTHERS {
            return 0;
        }
        self.vars.saturating_mul(self.weight)
    }
}

// The weight of a row: nothing for a choice among variables, whose relaxation has whole points alone.
fn weight_of(row: &Row) -> u64 {
    let terms = row.terms.as_slice();
    let Some(first) = terms.first() else {
        return OF_CHOICES;
    };
    let is_even = terms.iter().all(|term| term.coef == first.coef);
    if is_even && row.rhs.unsigned_abs() == first.coef.unsigned_abs() {
        return OF_CHOICES;
    }
    if terms.len() == 2 && row.rhs == 0 && !is_even {
        OF_LINKS
    } else {
        OF_OTHERS
    }
}

// What is seen of each block.
fn sights_of(alloc: Global, m: &Model, dec: &Dec) -> Result<Vec<Sight>, AllocError> {
    let nothing = Sight {
        rows: 0,
        vars: 0,
        weight: OF_CHOICES,
        hash: 0,
    };
    let mut known = Vec::from_elem(alloc, false, m.vars() as usize)?;
    let mut sights = Vec::from_elem(alloc, nothing, dec.blocks() as usize)?;
    for (row, place) in m.all_rows().iter().zip(dec.places()) {
        if let Some(block) = place {
            if let Some(sight) = sights.get_mut(*block as usize) {
                sight.add(
                    row,
                    u64::from(mark_variables(known.as_mut_slice(), row.terms.as_slice())),
                );
            }
        }
    }
    Ok(sights)
}

// How many different hashes blocks have.
fn kinds_of(alloc: Global, sights: &[Sight]) -> Result<u64, AllocError> {
    let mut hashes = Vec::new(alloc);
    for sight in sights {
        hashes.push(sight.hash)?;
    }
    hashes.sort()?;
    hashes.dedup();
    Ok(hashes.len() as u64)
}

// So many thousandths a part is of a whole.
fn share(part: u64, whole: u64) -> u64 {
    part.saturating_mul(1000) / whole.max(1)
}

/// The score of a decomposition, up to 1,800: 0 where it promises nothing.
pub fn score_of(alloc: Global, m: &Model, dec: &Dec) -> Result<u64, AllocError> {
    let sights = sights_of(alloc, m, dec)?;
    let blocks = sights.len() as u64;
    let vars = u64::from(m.vars());
    let mut gain: u64 = 0;
    let mut largest: u64 = 0;
    let mut rows: u64 = 0;
    for sight in sights.as_slice() {
        gain = gain.saturating_add(sight.gain());
        largest = largest.max(sight.vars);
        rows = rows.saturating_add(sight.rows);
    }
    let covered = share(gain, vars) / OF_OTHERS;
    let of_one = share(largest, vars);
    if blocks < 2 || covered < LEAST_COVERED || of_one > MOST_OF_ONE {
        return Ok(0);
    }
    let kinds = kinds_of(alloc, sights.as_slice())?;
    let alike = share(blocks.saturating_sub(kinds), blocks);
    let small = 1000u64.saturating_sub(of_one);
    let inside = share(rows, u64::from(m.rows()));
    let beside = (alike.saturating_add(small) / 10).saturating_mul(3);
    Ok(covered.saturating_add(beside).saturating_add(inside / 5))
}
