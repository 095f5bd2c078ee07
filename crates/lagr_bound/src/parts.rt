// What one block gives to a bound.
ghost use Rattle.std.specs.Prelude.{◌≡◌, ◌<◌, false, length};
ghost use Rattle.bp_theory.specs.Bound.{Fits, IsPart, is_picked};
ghost use Rattle.bp_theory.specs.Trees.{IsZone};
ghost use Rattle.block_program.specs.Blocked.{IsFormed};
ghost use Rattle.search_laws.specs.Spread.{block_at};
ghost use Rattle.block_pricers.specs.Forms.{forms_in};
ghost use Rattle.block_pricers.specs.Works.{forms_of};
ghost use Rattle.lagr_bound.specs.Bounded.{IsPartAnswer};

use block_pricers::Work;
use block_program::{Blocked, Zone};
use bp_theory::Proof;
use pricing_problem::{Cap, Priced};
use reduced_costs::{box_least, is_picked};

/// What a block that isn't picked gives to a bound.
pub fn box_part(b: &Blocked, number: u32, zone: &Zone, proof: &Proof) -> i128
    requires there { number < length b.now.blocking.blocks }
    requires zone { IsZone b.now.named.program.spans zone.now }
    requires fits { Fits b.now.blocking proof.now }
    requires formed { IsFormed b.now }
    requires other { is_picked proof.now.picked number ≡ false }
    ensures { IsPart zone.now proof.now number (block_at b.now.blocking number) result }
{
    box_least(b.block(number), zone, proof)
}

/// What a block gives to a bound, priced by itself where it is picked. What is told stays.
pub fn part(
    work: &mut Work,
    b: &Blocked,
    number: u32,
    zone: &Zone,
    proof: &Proof,
    cap: Cap,
) -> Priced
    requires made_for { forms_of work.old ≡ forms_in b.now }
    requires there { number < length b.now.blocking.blocks }
    requires zone { IsZone b.now.named.program.spans zone.now }
    requires fits { Fits b.now.blocking proof.now }
    ensures answer { IsPartAnswer b.now.blocking zone.now proof.now cap number result }
    ensures made_for { forms_of work.new ≡ forms_of work.old }
    ensures told { work.new.told ≡ work.old.told }
{
    if is_picked(&proof.picked, b.blocks() as usize, number) {
        return work.price(b, number, zone, proof, cap);
    }
    Priced::Least(box_part(b, number, zone, proof))
}
