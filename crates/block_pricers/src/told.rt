// Points of blocks that a bound tells.
ghost use Rattle.std.specs.Prelude.{◌≡◌, ℕ, None, IfOk, map, vec_len, slice_index_or};
ghost use Rattle.block_pricers.specs.Forms.{forms_in, span_count};
ghost use Rattle.block_pricers.specs.Told.{told_point, room_of};

use block_program::Blocked;
use std::alloc::{AllocError, Global};

/// Room for a point of a block, and whether it is told.
#[derive(Drop)]
pub struct Told {
    numbers: Vec<i64>,
    tells: bool,
}

impl Told {
    ghost use Rattle.std.specs.Prelude.{◌≡◌, Some, None, IfOk, MatchOption, length};
    ghost use Rattle.block_pricers.specs.Told.{told_point, room_of};

    /// Room for so many numbers, and nothing is told.
    pub fn make(alloc: Global, many: usize) -> Result<Told, AllocError>
        ensures silent { IfOk result (λ told. told_point told ≡ None) }
        ensures room { IfOk result (λ told. room_of told ≡ many) }
    {
        let numbers = Vec::from_elem(alloc, 0, many)?;
        Ok(Told {
            numbers,
            tells: false,
        })
    }

    /// Tells a point from now on.
    pub fn tell(&mut self, point: &[i64])
        requires { length point.now ≡ room_of self.old }
        ensures told { told_point self.new ≡ Some point.now }
        ensures room { room_of self.new ≡ room_of self.old }
    {
        self.numbers.as_mut_slice().copy_from_slice(point);
        self.tells = true;
    }

    /// Tells nothing from now on.
    pub fn silence(&mut self)
        ensures silent { told_point self.new ≡ None }
        ensures room { room_of self.new ≡ room_of self.old }
    {
        self.tells = false;
    }

    /// The point, as long as it is told.
    pub fn point(&self) -> Option<&[i64]>
        ensures { MatchOption result (told_point self.now ≡ None)
            (λ y. told_point self.now ≡ Some y.now) }
    {
        if self.tells {
            Some(self.numbers.as_slice())
        } else {
            None
        }
    }
}

/// Tells no point of any block from now on; their room stays.
pub fn silence(told: &mut Vec<Told>)
    ensures rooms { map room_of told.new.items ≡ map room_of told.old.items }
    ensures silent { (k : ℕ) → slice_index_or (map told_point told.new.items) k None ≡ None }
{
    for k in 0..told.len() {
        told[k].silence();
    }
}

/// Room for a point of each block, where nothing is told.
pub fn rooms_of(alloc: Global, b: &Blocked) -> Result<Vec<Told>, AllocError>
    ensures rooms { IfOk result (λ told. map room_of told.items ≡ map span_count (forms_in b.now)) }
    ensures silent { IfOk result (λ told. (k : ℕ) →
        slice_index_or (map told_point told.items) k None ≡ None) }
{
    let mut told = Vec::new(alloc);
    for number in 0..b.blocks() {
        let many = b.block(number).spans().len();
        told.push(Told::make(alloc, many)?)?;
    }
    Ok(told)
}
