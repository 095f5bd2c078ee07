// How many visits a search may make.
ghost use Rattle.std.specs.Prelude.{◌≡◌, ◌+◌, ◌*◌, ◌^◌, min, IsTrue, length};
ghost use Rattle.bp_theory.specs.Classes.{width};
ghost use Rattle.pricing_problem.specs.Priced.{IsExceeded};
ghost use Rattle.enumeration.specs.Caps.{cut_prefixes};

use crate::dive::Visits;
use block_program::Block;
use bp_theory::Span;
use pricing_problem::Cap;

/// Where the number of prefixes is cut off.
const LIMIT: u128 = 1 << 127;

/// How many numbers a span has.
fn width_of(span: &Span) -> u128
    ensures { result ≡ width span.now }
{
    if span.hi < span.lo {
        0
    } else {
        u128::from(span.hi.abs_diff(span.lo)) + 1
    }
}

/// How many prefixes there are with one more variable in front.
fn one_more(width: u128, prefixes: u128) -> u128
    ensures { result ≡ min (1 + width * prefixes) (2 ^ 127) }
{
    width.saturating_mul(prefixes).saturating_add(1).min(LIMIT)
}

/// How many beginnings of assignments to a block's variables there are in a zone: 1, and for each number of the first
/// variable those of the rest. The number is cut off at `2^127`.
pub fn prefixes(block: &Block, zone: &[Span]) -> u128
    requires { length zone.now ≡ length block.now.spans }
    ensures { result ≡ cut_prefixes zone.now }
{
    prefixes_of(zone)
}

/// How many beginnings of assignments to these spans there are, cut off at `2^127`.
pub fn prefixes_of(spans: &[Span]) -> u128
    ensures { result ≡ cut_prefixes spans.now }
{
    let mut total = 1;
    for k in (0..spans.len()).rev() {
        total = one_more(width_of(&spans[k]), total);
    }
    total
}

/// The visits under a cap: they are counted only where the prefixes exceed it.
pub fn visits_under(cap: Cap, zone: &[Span]) -> Visits
    ensures { IsTrue result.capped → IsExceeded cap zone.now }
{
    match cap {
        Cap::Never => Visits {
            capped: false,
            left: 0,
        },
        Cap::At(most) => Visits {
            capped: prefixes_of(zone) > u128::from(most),
            left: most,
        },
    }
}
