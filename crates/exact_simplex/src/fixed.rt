// Numbers in fixed point, clipped to 62 bits: nothing is promised of them but that they are there.
// The greatest magnitude that is kept.
const LIMIT: i128 = 1 << 62;

// How many digits behind the point the inverse and the values of basic variables have.
const DIGITS: u32 = 36;

// One, with these digits.
pub const ONE: i64 = 1 << 36;

// The product of two numbers.
pub fn product(a: &i64, b: &i64) -> i128 {
    i128::from(*a) * i128::from(*b)
}

// A whole number in units.
pub fn in_units(number: &i64) -> i128 {
    1_048_576 * i128::from(*number)
}

// A number within the limit.
pub fn clip(number: i128) -> i64 {
    number.max(-LIMIT).min(LIMIT) as i64
}

// A number without the digits, rounded.
pub fn rounded(number: i128) -> i128 {
    number.wrapping_add(34_359_738_368) >> DIGITS
}

// A quotient with the digits, 0 where there is none.
pub fn ratio(above: i64, below: i64) -> i64 {
    match product(&above, &ONE).checked_div(i128::from(below)) {
        Some(quotient) => clip(quotient),
        None => 0,
    }
}

// A number less a product of two with digits.
pub fn less(from: &i64, a: &i64, b: &i64) -> i64 {
    clip(i128::from(*from).wrapping_sub(rounded(product(a, b))))
}

// The number at a place, 0 where there is none.
pub fn at(numbers: &[i64], place: usize) -> i64 {
    match numbers.get(place) {
        Some(number) => *number,
        None => 0,
    }
}

// Writes a number at a place, if it is there.
pub fn put(numbers: &mut [i64], place: usize, number: i64) {
    if place < numbers.len() {
        numbers[place] = number;
    }
}

// Adds to a sum at a place, if it is there.
pub fn add_at(sums: &mut [i128], place: usize, more: i128) {
    if place < sums.len() {
        sums[place] = sums[place].wrapping_add(more);
    }
}

// Adds a multiple of numbers to sums.
pub fn add_multiple(sums: &mut [i128], numbers: &[i64], factor: i64) {
    let many = sums.len().min(numbers.len());
    for i in 0..many {
        sums[i] = sums[i].wrapping_add(product(&numbers[i], &factor));
    }
}

// Takes a multiple of numbers with digits from others.
pub fn take_multiple(from: &mut [i64], numbers: &[i64], factor: i64) {
    let many = from.len().min(numbers.len());
    for i in 0..many {
        from[i] = less(&from[i], &numbers[i], &factor);
    }
}

// The sum of products of numbers.
pub fn dot(a: &[i64], b: &[i64]) -> i128 {
    let mut sum: i128 = 0;
    let many = a.len().min(b.len());
    for i in 0..many {
        sum = sum.wrapping_add(product(&a[i], &b[i]));
    }
    sum
}

// Makes all sums 0.
pub fn clear(sums: &mut [i128]) {
    for i in 0..sums.len() {
        sums[i] = 0;
    }
}

// Copies sums, clipped, and says whether one isn't 0.
pub fn copy_clipped(into: &mut [i64], sums: &[i128]) -> bool {
    let mut some = false;
    let many = into.len().min(sums.len());
    for i in 0..many {
        let number = clip(sums[i]);
        into[i] = number;
        some = some || number != 0;
    }
    some
}

// Adds sums, without the digits, to numbers.
pub fn add_rounded(numbers: &mut [i64], sums: &[i128]) {
    let many = numbers.len().min(sums.len());
    for i in 0..many {
        numbers[i] = clip(i128::from(numbers[i]).wrapping_add(rounded(sums[i])));
    }
}
