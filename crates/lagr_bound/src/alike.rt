// Bounds of proofs, each class of blocks priced once.
ghost use Rattle.std.specs.Prelude.{◌≡◌, ◌<◌, ◌+◌, length, map, unsigned_abs};
ghost use Rattle.bp_theory.specs.Limits.{price_limit};
ghost use Rattle.bp_theory.specs.Bound.{Fits, IsEndless};
ghost use Rattle.bp_theory.specs.Trees.{IsZone};
ghost use Rattle.block_class.specs.Classes.{AreSameClasses};
ghost use Rattle.pricing_problem.specs.declared.Cap.TheVariants.{Never};
ghost use Rattle.block_pricers.specs.Told.{told_point};
ghost use Rattle.block_pricers.specs.Forms.{forms_in};
ghost use Rattle.block_pricers.specs.Works.{forms_of, point_at, IsSilent};
ghost use Rattle.lagr_bound.specs.Bounded.{IsBounded, IfWhole, IsPartAnswer, TellsPoints, AreTold, AreKnown, IfLeast};

use crate::bounded::Bounded;
use crate::parts::box_part;
use block_class::Classes;
use block_pricers::Work;
use block_program::{Blocked, Zone};
use bp_theory::Proof;
use pricing_problem::{Cap, Priced, plus};
use reduced_costs::{base, is_picked};

/// The weak Lagrangian bound of a proof in a zone with the zone's classes, whose picked blocks are priced once a class:
/// the lowest picked block, since blocks that are the same in the zone have the same least. It is the sum over all
/// blocks, as that of `sum_bound`, and its magnitude is below `2^123`. After a whole bound `Work::point` tells a point
/// of each such block that reaches its least.
pub fn bound(
    work: &mut Work,
    b: &Blocked,
    classes: &Classes,
    zone: &Zone,
    proof: &Proof,
    cap: Cap,
) -> Bounded
    requires made_for { forms_of work.old ≡ forms_in b.now }
    requires classes { AreSameClasses zone.now b.now.blocking classes.now }
    requires zone { IsZone b.now.named.program.spans zone.now }
    requires fits { Fits b.now.blocking proof.now }
    ensures answer { IsBounded b.now.blocking zone.now proof.now cap result }
    ensures endless { cap ≡ Never → IsEndless b.now.blocking zone.now proof.now →
        result ≡ Bounded.Endless }
    ensures size { IfWhole result (λ v. unsigned_abs v < price_limit) }
    ensures made_for { forms_of work.new ≡ forms_of work.old }
    ensures points { TellsPoints b.now.blocking zone.now proof.now classes.now.classes result
        (point_at work.new) }
{
    work.begin();
    let blocks = b.blocks();
    let mut sum = base(b, proof);
    for number in 0..blocks {
        match shared_part(work, b, classes, number, zone, proof, cap) {
            Priced::Least(least) => sum = plus(&sum, &least),
            Priced::Nothing => {
                work.forget();
                return Bounded::Endless;
            }
            Priced::Cut => {
                work.forget();
                return Bounded::Cut(number);
            }
        }
    }
    Bounded::Whole(sum)
}

// What a block gives to a bound: where it is picked, what is known of its class, else its price, which is known from
// then on.
fn shared_part(
    work: &mut Work,
    b: &Blocked,
    classes: &Classes,
    number: u32,
    zone: &Zone,
    proof: &Proof,
    cap: Cap,
) -> Priced
    requires made_for { forms_of work.old ≡ forms_in b.now }
    requires there { number < length b.now.blocking.blocks }
    requires classes { AreSameClasses zone.now b.now.blocking classes.now }
    requires zone { IsZone b.now.named.program.spans zone.now }
    requires fits { Fits b.now.blocking proof.now }
    requires known { AreKnown b.now.blocking zone.now proof.now classes.now.classes
        classes.now.firsts number work.old.known.items }
    requires told { AreTold b.now.blocking zone.now proof.now classes.now.classes number
        (map told_point work.old.told.items) }
    ensures answer { IsPartAnswer b.now.blocking zone.now proof.now cap number result }
    ensures made_for { forms_of work.new ≡ forms_of work.old }
    ensures known { IfLeast result (AreKnown b.now.blocking zone.now proof.now classes.now.classes
        classes.now.firsts (number + 1) work.new.known.items) }
    ensures told { IfLeast result (AreTold b.now.blocking zone.now proof.now classes.now.classes
        (number + 1) (map told_point work.new.told.items)) }
{
    if !is_picked(&proof.picked, b.blocks() as usize, number) {
        return Priced::Least(box_part(b, number, zone, proof));
    }
    let first = classes.first(classes.class_of(number));
    if let Some(least) = work.known_at(first) {
        return Priced::Least(least);
    }
    let answer = work.price(b, number, zone, proof, cap);
    if let Priced::Least(least) = answer {
        work.keep(first, number, &least);
    }
    answer
}
