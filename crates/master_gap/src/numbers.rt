// Whole numbers of 128 bits. Sums wrap on the way: where the last one fits, it is exact.
ghost use Rattle.std.specs.Prelude.{◌≡◌, pos, ◌+ℤ◌, ◌-ℤ◌, ◌*ℤ◌};
ghost use Rattle.std.specs.Int.{w128, int_wrap, int_min};
ghost use Rattle.search_laws.specs.Master.{one_weight};

// The sum of two numbers, wrapped.
pub fn plus(a: &i128, b: &i128) -> i128
    ensures { result ≡ int_wrap w128 (a.now +ℤ b.now) }
{
    a.wrapping_add(*b)
}

// The difference of two numbers, wrapped.
pub fn minus(a: &i128, b: &i128) -> i128
    ensures { result ≡ int_wrap w128 (a.now -ℤ b.now) }
{
    a.wrapping_sub(*b)
}

// A count times a number, wrapped.
pub fn times(count: &u32, number: &i128) -> i128
    ensures { result ≡ int_wrap w128 (pos count.now *ℤ number.now) }
{
    i128::from(*count).wrapping_mul(*number)
}

// The product of two numbers.
pub fn product(a: &i64, b: &i64) -> i128
    ensures { result ≡ a.now *ℤ b.now }
{
    i128::from(*a) * i128::from(*b)
}

// A whole number in units.
pub fn in_units(number: &i64) -> i128
    ensures { result ≡ pos one_weight *ℤ number.now }
{
    1_048_576 * i128::from(*number)
}

// The lesser of two numbers.
pub fn lesser(a: &i128, b: &i128) -> i128
    ensures { result ≡ int_min a.now b.now }
{
    let first = *a;
    first.min(*b)
}

// A number of 64 bits.
pub fn widened(number: &i64) -> i128
    ensures { result ≡ number.now }
{
    i128::from(*number)
}
