// Classes of blocks in a zone.
use crate::group::grouped;
use crate::members::members_of;
use block_program::{Blocked, Zone};
use bp_theory::Items;
use std::alloc::{AllocError, Global};

/// Classes of a program's blocks in a zone: two blocks share a class exactly where they are the same there, with as many
/// variables, in order of equal costs, spans and master coefficients, and with equal rows. Classes are numbered from 0
/// by their first blocks.
pub struct Classes {
    // By number of the block: the number of its class.
    classes: Items<u32>,
    // By number of the class: its first block.
    firsts: Items<u32>,
    // By number of the class: its blocks, ascending.
    members: Items<Items<u32>>,
}

impl Drop for Classes {
    fn drop(self) {
        let Classes {
            classes: _,
            firsts: _,
            members: _,
        } = self;
    }
}

impl std::marker::Model for Classes {
    ghost use Rattle.std.specs.Prelude.{◌≡◌, ◌<◌, ◌^◌, length, map, All};
    ghost use Rattle.std.specs.List.{range_with_len};
    ghost use Rattle.block_class.specs.Classes.{Grouping, members_of};

    ghost Value = { Grouping };

    ghost view = { λ c. record { classes = c.classes; firsts = c.firsts } };

    ghost invariant = { λ c. All (λ k. k < length c.firsts) c.classes × (length c.classes < 2 ^ 32) × (length c.firsts < 2 ^ 32)
        × (c.members ≡ map (members_of c.classes) (range_with_len 0 (length c.firsts))) };
}

impl Classes {
    ghost use Rattle.std.specs.Prelude.{◌≡◌, ◌<◌, length, IfOk};
    ghost use Rattle.std.specs.List.Sorted.{IsStrictlyIncreasing};
    ghost use Rattle.bp_theory.specs.Trees.{IsZone};
    ghost use Rattle.search_laws.specs.Spread.{AreClasses, class_at, class_blocks};
    ghost use Rattle.block_class.specs.Classes.{AreSameClasses, members_of};

    /// The classes of a program's blocks in a zone.
    pub fn of(alloc: Global, b: &Blocked, zone: &Zone) -> Result<Classes, AllocError>
        requires { IsZone b.now.named.program.spans zone.now }
        ensures classes { IfOk result (λ all. AreSameClasses zone.now b.now.blocking all) }
        ensures shared { IfOk result (λ all. AreClasses zone.now b.now.blocking all.classes
            all.firsts) }
    {
        let (classes, firsts) = grouped(alloc, b, zone)?;
        let members = members_of(alloc, classes.as_slice(), firsts.len())?;
        Ok(Classes {
            classes: Items::from_vec(classes),
            firsts: Items::from_vec(firsts),
            members: Items::from_vec(members),
        })
    }

    /// How many classes there are.
    pub fn len(&self) -> u32
        ensures { result ≡ length self.now.firsts }
    {
        self.firsts.len() as u32
    }

    /// The class of a block.
    pub fn class_of(&self, block: u32) -> u32
        requires { block < length self.now.classes }
        ensures class { result ≡ class_at self.now.classes block }
        ensures there { result < length self.now.firsts }
    {
        self.classes.as_slice()[block as usize]
    }

    /// How many blocks a class has.
    pub fn size(&self, class: u32) -> u32
        requires { class < length self.now.firsts }
        ensures { result ≡ class_blocks self.now.classes class }
    {
        self.members.as_slice()[class as usize].len() as u32
    }

    /// The first block of a class.
    pub fn first(&self, class: u32) -> u32
        requires { class < length self.now.firsts }
        ensures { result ≡ class_at self.now.firsts class }
    {
        self.firsts.as_slice()[class as usize]
    }

    /// The blocks of a class, ascending.
    pub fn members(&self, class: u32) -> &[u32]
        requires { class < length self.now.firsts }
        ensures members { result.now ≡ members_of self.now.classes class }
        ensures ascend { IsStrictlyIncreasing result.now }
    {
        self.members.as_slice()[class as usize].as_slice()
    }
}
