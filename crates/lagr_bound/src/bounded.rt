// Bounds of proofs, each picked block priced by itself.
ghost use Rattle.std.specs.Prelude.{◌≡◌, ◌<◌, length, unsigned_abs};
ghost use Rattle.bp_theory.specs.Limits.{price_limit};
ghost use Rattle.bp_theory.specs.Bound.{Fits, IsEndless};
ghost use Rattle.bp_theory.specs.Trees.{IsZone};
ghost use Rattle.pricing_problem.specs.declared.Cap.TheVariants.{Never};
ghost use Rattle.block_pricers.specs.Forms.{forms_in};
ghost use Rattle.block_pricers.specs.Works.{forms_of, IsSilent};
ghost use Rattle.lagr_bound.specs.Bounded.{IsBounded, IfWhole};

use crate::parts::part;
use block_pricers::Work;
use block_program::{Blocked, Zone};
use bp_theory::Proof;
use pricing_problem::{Cap, Priced, plus};
use reduced_costs::base;

/// The weak Lagrangian bound of a proof in a zone, as far as it was priced.
#[derive(Clone, Copy, Debug, PartialEq, Eq)]
pub enum Bounded {
    /// The bound.
    Whole(i128),
    /// A picked block has no point.
    Endless,
    /// Pricing this picked block was cut.
    Cut(u32),
}

/// The weak Lagrangian bound of a proof in a zone, where each picked block is priced by itself: what the proof gives before
/// the blocks, for each picked block the least of its reduced costs over its points, and for each other block that over
/// its box. `Cut` comes only under a cap that the block's beginnings of assignments exceed. A whole bound's magnitude is
/// below `2^123`.
pub fn sum_bound(work: &mut Work, b: &Blocked, zone: &Zone, proof: &Proof, cap: Cap) -> Bounded
    requires made_for { forms_of work.old ≡ forms_in b.now }
    requires zone { IsZone b.now.named.program.spans zone.now }
    requires fits { Fits b.now.blocking proof.now }
    ensures answer { IsBounded b.now.blocking zone.now proof.now cap result }
    ensures endless { cap ≡ Never → IsEndless b.now.blocking zone.now proof.now →
        result ≡ Bounded.Endless }
    ensures size { IfWhole result (λ v. unsigned_abs v < price_limit) }
    ensures made_for { forms_of work.new ≡ forms_of work.old }
    ensures silent { IsSilent work.new }
{
    work.forget();
    let blocks = b.blocks();
    let mut sum = base(b, proof);
    for number in 0..blocks {
        match part(work, b, number, zone, proof, cap) {
            Priced::Least(least) => sum = plus(&sum, &least),
            Priced::Nothing => return Bounded::Endless,
            Priced::Cut => return Bounded::Cut(number),
        }
    }
    Bounded::Whole(sum)
}
