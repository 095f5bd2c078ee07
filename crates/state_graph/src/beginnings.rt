// How many beginnings of assignments spans have.
ghost use Rattle.std.specs.Prelude.{◌≡◌, ◌+◌, ◌*◌, ◌≤◌, All};
ghost use Rattle.std.specs.Bool.{OnTrue};
ghost use Rattle.bp_theory.specs.Classes.{width};
ghost use Rattle.pricing_problem.specs.Form.{HasShortEnds};
ghost use Rattle.state_graph.specs.Limits.{beginnings};

use crate::expand::count_of;
use bp_theory::Span;

/// How many prefixes there are with one more variable in front, as far as the number fits.
fn one_more(width: u64, prefixes: usize) -> usize
    ensures { result ≤ 1 + width * prefixes }
{
    (width as usize).saturating_mul(prefixes).saturating_add(1)
}

/// Whether spans have so many beginnings of assignments. No answer that they have is wrong.
pub fn has_beginnings(spans: &[Span], many: usize) -> bool
    requires { All HasShortEnds spans.now }
    ensures { OnTrue result (many ≤ beginnings spans.now) }
{
    let mut prefixes = 1;
    for k in (0..spans.len()).rev() {
        prefixes = one_more(count_of(&spans[k]), prefixes);
    }
    many < prefixes
}
