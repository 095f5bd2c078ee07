// Which blocks are picked.
ghost use Rattle.std.specs.Prelude.{◌≡◌, ◌==◌};
ghost use Rattle.std.specs.List.{list_any};
ghost use Rattle.std.specs.List.Sorted.{IsStrictlyIncreasing};
ghost use Rattle.bp_theory.specs.Bound.{ArePicked, is_picked};

use bp_theory::Picked;

/// Whether a block is picked.
pub fn is_picked(picked: &Picked, blocks: usize, block: u32) -> bool
    requires { ArePicked blocks picked.now }
    ensures { result ≡ is_picked picked.now block }
{
    match picked {
        Picked::Every => true,
        Picked::These(numbers) => has(numbers.as_slice(), block),
    }
}

// Whether a number is among ascending ones, by halving.
fn has(numbers: &[u32], number: u32) -> bool
    requires { IsStrictlyIncreasing numbers.now }
    ensures { result ≡ list_any (λ j. j == number) numbers.now }
{
    let mut from = 0;
    let mut to = numbers.len();
    while from < to {
        let middle = from + (to - from) / 2;
        let here = numbers[middle];
        if here == number {
            return true;
        }
        if here < number {
            from = middle + 1;
        } else {
            to = middle;
        }
    }
    false
}
