// The bound of the plain proof: the costs at the better ends of the spans.
ghost use Rattle.std.specs.Prelude.{◌≡◌, ◌<◌, length, ◌^◌, unsigned_abs, ◌+ℤ◌, ◌*ℤ◌, FitsSigned};
ghost use Rattle.std.specs.Int.{w128, int_min};
ghost use Rattle.bp_theory.specs.Bound.{IsBound, plain_proof, end_cost};
ghost use Rattle.bp_theory.specs.Decomposition.{HasVariablesBelow};
ghost use Rattle.open_nodes.specs.Bounds.{better_total, total_limit};

use block_program::Blocked;
use bp_theory::{Span, Term};

/// The bound of the plain proof in the program's spans: each cost at the better end of its variable's span, and the
/// constant.
pub fn plain_bound(b: &Blocked) -> i64
    ensures bound { IsBound b.now.blocking b.now.named.program.spans plain_proof result }
    ensures small { unsigned_abs result < 2 ^ 62 }
{
    let model = b.model();
    let total = better_total(&model.constant(), model.costs(), model.spans());
    narrowed(&total)
}

// The costs at the better ends, and the constant.
fn better_total(constant: &i64, terms: &[Term], spans: &[Span]) -> i128
    requires below { HasVariablesBelow (length spans.now) terms.now }
    requires small { total_limit constant.now terms.now spans.now < 2 ^ 62 }
    ensures total { result ≡ better_total constant.now terms.now spans.now }
    ensures small { unsigned_abs result < 2 ^ 62 }
{
    let mut sum = *constant as i128;
    for term in terms {
        sum = plus(sum, end_cost(&term.coef, &spans[term.var as usize]));
    }
    sum
}

// A small number in fewer bits.
fn narrowed(number: &i128) -> i64
    requires { unsigned_abs number.now < 2 ^ 62 }
    ensures { result ≡ number.now }
{
    *number as i64
}

// The least of a cost times a span's numbers: that at the better end.
fn end_cost(cost: &i64, span: &Span) -> i128
    ensures { result ≡ end_cost span.now cost.now }
{
    let low = product(cost, &span.lo);
    let high = product(cost, &span.hi);
    less(&low, &high)
}

// A product of two numbers.
fn product(a: &i64, b: &i64) -> i128
    ensures { result ≡ a.now *ℤ b.now }
{
    *a as i128 * *b as i128
}

// The less of two numbers.
fn less(a: &i128, b: &i128) -> i128
    ensures { result ≡ int_min a.now b.now }
{
    if *b < *a { *b } else { *a }
}

// A sum that fits.
fn plus(a: i128, b: i128) -> i128
    requires { FitsSigned w128 (a +ℤ b) }
    ensures { result ≡ a +ℤ b }
{
    a + b
}
