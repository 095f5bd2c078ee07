// Whole numbers of 128 bits. Sums wrap on the way: where the last one fits, it is exact.
ghost use Rattle.std.specs.Prelude.{◌≡◌, ◌+ℤ◌, ◌*ℤ◌, ◌<◌, ◌^◌, unsigned_abs};
ghost use Rattle.std.specs.Int.{w128, int_wrap};

// The sum of two numbers, wrapped.
pub fn plus(a: &i128, b: &i128) -> i128
    ensures { result ≡ int_wrap w128 (a.now +ℤ b.now) }
{
    a.wrapping_add(*b)
}

// The product of two numbers.
pub fn product(a: &i64, b: &i64) -> i128
    ensures { result ≡ a.now *ℤ b.now }
{
    i128::from(*a) * i128::from(*b)
}

// A small number.
pub fn small(number: &i128) -> i64
    requires { unsigned_abs number.now < 2 ^ 62 }
    ensures { result ≡ number.now }
{
    *number as i64
}
