// Which blocks share a desk: those with the same rows and the same spans at the root.
ghost use Rattle.std.specs.Prelude.{◌≡◌, ◌<◌, IfOk, length, vec_len};
ghost use Rattle.block_pricers.specs.Forms.{forms_in};
ghost use Rattle.block_pricers.specs.Seats.{AreSeated};

use crate::forms::{hash_of, have_same_form};
use block_program::Blocked;
use std::alloc::{AllocError, Global};

/// How many places of the table are looked at for a form.
const PROBES: usize = 64;

/// The first blocks of forms, and a table of places that hold one more than the number of a first block, or 0, by the
/// hash of its form. The table is a hint: each block that it names is compared.
#[derive(Drop)]
struct Firsts {
    list: Vec<u32>,
    places: Vec<usize>,
    ghost room: { 0 < vec_len places },
}

/// The place of a table at a step from a hash.
fn place_at(hash: u64, step: usize, count: usize) -> usize
    requires { 0 < count }
    ensures { result < count }
{
    (hash as usize).wrapping_add(step) % count
}

impl Firsts {
    ghost use Rattle.std.specs.Prelude.{◌≡◌, ◌<◌, [], All, IfOk, IfSome, length};
    ghost use Rattle.std.specs.Bool.{OnTrue};
    ghost use Rattle.block_pricers.specs.Forms.{forms_in};
    ghost use Rattle.block_pricers.specs.Seats.{IsSeat, AreGrown};

    // No first blocks yet, with room for those of so many blocks.
    fn new(alloc: Global, blocks: u32) -> Result<Firsts, AllocError>
        ensures { IfOk result (λ firsts. firsts.list.items ≡ []) }
    {
        Ok(Firsts {
            list: Vec::new(alloc),
            places: Vec::from_elem(alloc, 0, 2 * (blocks as usize) + 1)?,
        })
    }

    // The number of the first block with the form of a block, if the table finds it.
    fn find(&self, b: &Blocked, block: u32, hash: u64) -> Option<usize>
        requires firsts { All (λ j. j < length b.now.blocking.blocks) self.now.list.items }
        requires there { block < length b.now.blocking.blocks }
        ensures { IfSome result (λ seat. IsSeat (forms_in b.now) self.now.list.items block seat) }
    {
        for step in 0..PROBES {
            let kept = self.places[place_at(hash, step, self.places.len())];
            if kept == 0 {
                return None;
            }
            let seat = kept - 1;
            if self.serves(b, block, seat) {
                return Some(seat);
            }
        }
        None
    }

    // Whether the first block of a number is there and has the form of a block.
    fn serves(&self, b: &Blocked, block: u32, seat: usize) -> bool
        requires firsts { All (λ j. j < length b.now.blocking.blocks) self.now.list.items }
        requires there { block < length b.now.blocking.blocks }
        ensures { OnTrue result (IsSeat (forms_in b.now) self.now.list.items block seat) }
    {
        if seat >= self.list.len() {
            return false;
        }
        let first = b.block(self.list[seat]);
        let other = b.block(block);
        have_same_form(first, other)
    }

    // Puts one more than a number into the first empty place from a hash, if one is near.
    fn note(&mut self, hash: u64, kept: usize)
        ensures { self.new.list.items ≡ self.old.list.items }
    {
        for step in 0..PROBES {
            let place = place_at(hash, step, self.places.len());
            if self.places[place] == 0 {
                self.places[place] = kept;
                return;
            }
        }
    }

    // The number of a first block with the form of a block, which itself becomes one where the table finds none.
    fn find_or_add(&mut self, b: &Blocked, block: u32) -> Result<usize, AllocError>
        requires firsts { All (λ j. j < length b.now.blocking.blocks) self.old.list.items }
        requires there { block < length b.now.blocking.blocks }
        ensures seat { IfOk result (λ seat. IsSeat (forms_in b.now) self.new.list.items
            block seat) }
        ensures grown { IfOk result (λ _. AreGrown self.old.list.items block self.new.list.items) }
    {
        let hash = hash_of(b.block(block));
        if let Some(seat) = self.find(b, block, hash) {
            return Ok(seat);
        }
        let seat = self.list.len();
        self.list.push(block)?;
        self.note(hash, seat + 1);
        Ok(seat)
    }
}

/// The seat of each block, the number of its desk, and the first block of each desk: a block has the rows and the root
/// spans of the first block of its desk.
pub fn seated(alloc: Global, b: &Blocked) -> Result<(Vec<usize>, Vec<u32>), AllocError>
    ensures { IfOk result (λ made. AreSeated (forms_in b.now) (length b.now.blocking.blocks)
        made.0.items made.1.items) }
{
    let blocks = b.blocks();
    let mut firsts = Firsts::new(alloc, blocks)?;
    let mut seats = Vec::new(alloc);
    for block in 0..blocks {
        let seat = firsts.find_or_add(b, block)?;
        seats.push(seat)?;
    }
    Ok((seats, firsts.list))
}
