// Sums and products of whole numbers of 128 bits.
ghost use Rattle.std.specs.Prelude.{◌≡◌, ◌*◌, ◌^◌, ◌<◌, ◌+ℤ◌, ◌-ℤ◌, ◌*ℤ◌, unsigned_abs, FitsSigned};
ghost use Rattle.std.specs.Int.{w128};
ghost use Rattle.bp_theory.specs.Program.{reach};
ghost use Rattle.bp_theory.specs.Bound.{end_cost};
ghost use Rattle.pricing_problem.specs.Ends.{top_cost};

use bp_theory::Span;

/// The sum of two numbers.
pub fn plus(a: &i128, b: &i128) -> i128
    requires { FitsSigned w128 (a.now +ℤ b.now) }
    ensures { result ≡ a.now +ℤ b.now }
{
    *a + *b
}

/// The difference of two numbers.
pub fn minus(a: &i128, b: &i128) -> i128
    requires { FitsSigned w128 (a.now -ℤ b.now) }
    ensures { result ≡ a.now -ℤ b.now }
{
    *a - *b
}

/// A factor times a number.
pub fn times(factor: &i128, number: &i64) -> i128
    requires { FitsSigned w128 (factor.now *ℤ number.now) }
    ensures { result ≡ factor.now *ℤ number.now }
{
    let wide = i128::from(*number);
    *factor * wide
}

/// The least of a factor times a number of a span.
pub fn least_end(span: &Span, factor: &i128) -> i128
    requires { unsigned_abs factor.now * reach span.now < 2 ^ 127 }
    ensures { result ≡ end_cost span.now factor.now }
{
    let low = times(factor, &span.lo);
    let high = times(factor, &span.hi);
    low.min(high)
}

/// The greatest of a factor times a number of a span.
pub fn top_end(span: &Span, factor: &i128) -> i128
    requires { unsigned_abs factor.now * reach span.now < 2 ^ 127 }
    ensures { result ≡ top_cost span.now factor.now }
{
    let low = times(factor, &span.lo);
    let high = times(factor, &span.hi);
    low.max(high)
}
