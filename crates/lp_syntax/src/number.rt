// What a written number is worth.
ghost use Rattle.std.specs.Prelude.{◌≡◌, ◌*◌, ◌^◌, ◌+◌, ◌-◌, ◌/◌, ◌%◌, ◌==◌, ◌≤◌, ◌<◌, Bool, true, length, take, drop, count_by};
ghost use Rattle.std.specs.List.{list_any, after_first};
ghost use Rattle.std.specs.Char.{is_ascii_digit};
ghost use Rattle.lp_token.specs.Lexeme.{is_point, is_exponent_mark, mantissa, exponent};
ghost use Rattle.lp_syntax.specs.Number.{digits_number};
ghost use Rattle.lp_syntax.specs.Symbols.{infinite_from, number_symbol};
ghost use Rattle.lp_syntax.specs.Worth.{IsWorth, IsWorthOf, IsParted, worth_symbol, capped, digit_behind};

/// The least whole number that is infinite in a bounds section.
const INFINITE_FROM: u128 = 100_000_000_000_000_000_000;

/// The greatest magnitude of a number.
const GREATEST: u128 = 4_611_686_018_427_387_903;

/// So many zeros make any number but 0 infinite.
const FAR: u128 = 21;

/// What a written number is worth.
#[derive(Clone, Copy, Debug, PartialEq, Eq)]
pub enum Worth {
    /// Its value isn't whole.
    NotWhole,
    /// Whole, and at most 2^62 - 1.
    Whole(u64),
    /// Whole, more than 2^62 - 1 and less than 10^20.
    Large,
    /// Whole, and 10^20 or more.
    Infinite,
}

/// Where the exponent begins: at the first `e` or `E`, or at the end.
fn exponent_start(bytes: &[u8]) -> usize
    ensures inside { result ≤ length bytes.now }
    ensures mantissa { take result bytes.now ≡ mantissa bytes.now }
    ensures exponent { drop result bytes.now ≡ exponent bytes.now }
{
    let mut at = 0;
    while at < bytes.len() {
        let b = bytes[at];
        if is_exponent_byte(b) {
            return at;
        }
        at += 1;
    }
    at
}

fn is_exponent_byte(b: u8) -> bool
    ensures { result ≡ is_exponent_mark b }
{
    b == b'e' || b == b'E'
}

/// How many bytes stand behind the point.
fn decimal_places(mantissa: &[u8]) -> usize
    ensures { result ≡ length (after_first is_point mantissa.now) }
{
    let mut at = 0;
    while at < mantissa.len() {
        if mantissa[at] == b'.' {
            return mantissa.len() - at - 1;
        }
        at += 1;
    }
    0
}

/// Whether an exponent has a minus.
fn has_minus(exponent: &[u8]) -> bool
    ensures { result ≡ list_any (λ b. b == 45) exponent.now }
{
    exponent.iter().any(|b| *b == b'-')
}

/// The value with one more digit behind it, if the byte is one, up to what is infinite.
fn next_value(value: u128, b: u8) -> u128
    requires { value ≤ infinite_from }
    ensures { result ≡ digit_behind value b }
{
    if b.is_ascii_digit() {
        (value * 10 + u128::from(b - b'0')).min(INFINITE_FROM)
    } else {
        value
    }
}

/// The number that the digits of a text write, up to what is infinite.
fn capped_number(bytes: &[u8]) -> u128
    ensures { result ≡ capped (digits_number bytes.now) }
{
    let mut value = 0;
    for b in bytes {
        value = next_value(value, *b);
    }
    value
}

/// How many digits a text has.
fn digit_count(bytes: &[u8]) -> usize
    ensures { result ≡ count_by is_ascii_digit bytes.now }
{
    bytes.iter().filter(|b| b.is_ascii_digit()).count()
}

/// A place behind so many digits.
fn behind_digits(bytes: &[u8], count: usize) -> usize
    requires { count ≤ count_by is_ascii_digit bytes.now }
    ensures inside { result ≤ length bytes.now }
    ensures front { count_by is_ascii_digit (take result bytes.now) ≡ count }
{
    let mut at = 0;
    let mut seen = 0;
    while at < bytes.len() {
        if seen == count {
            return at;
        }
        seen += usize::from(bytes[at].is_ascii_digit());
        at += 1;
    }
    at
}

/// A value with so many zeros behind it, up to what is infinite.
fn with_zeros(value: u128, zeros: u128) -> u128
    requires { value ≤ infinite_from }
    ensures { result ≡ capped (value * 10 ^ zeros) }
{
    let mut grown = value;
    for _zero in 0..zeros.min(FAR) {
        grown = (grown * 10).min(INFINITE_FROM);
    }
    grown
}

/// The worth of a whole value, by its size.
fn whole_worth(value: u128) -> Worth
    ensures { IsWorth true value result }
{
    if value <= GREATEST {
        Worth::Whole(value as u64)
    } else if value < INFINITE_FROM {
        Worth::Large
    } else {
        Worth::Infinite
    }
}

/// The worth of a text's digits, with so many of them behind the point.
fn shifted_worth(mantissa: &[u8], places: u128) -> Worth
    ensures { IsWorth (digits_number mantissa.now % 10 ^ places == 0)
        (digits_number mantissa.now / 10 ^ places) result }
{
    let count = digit_count(mantissa);
    let kept = if places < count as u128 {
        count - places as usize
    } else {
        0
    };
    let (front, rest) = mantissa.split_at(behind_digits(mantissa, kept));
    if capped_number(rest) > 0 {
        Worth::NotWhole
    } else {
        whole_worth(capped_number(front))
    }
}

/// The worth of a mantissa and an exponent.
fn parted_worth(mantissa: &[u8], exponent: &[u8]) -> Worth
    requires { length mantissa.now ≤ 2 ^ 28 }
    ensures { IsParted mantissa.now exponent.now result }
{
    let shift = capped_number(exponent);
    let places = decimal_places(mantissa) as u128;
    if has_minus(exponent) {
        shifted_worth(mantissa, places + shift)
    } else if shift < places {
        shifted_worth(mantissa, places - shift)
    } else {
        whole_worth(with_zeros(capped_number(mantissa), shift - places))
    }
}

/// What a written number of at most 2^28 bytes is worth, exactly, in time linear in its length: no power of ten is made
/// for its exponent.
pub fn worth_of(bytes: &[u8]) -> Worth
    requires { length bytes.now ≤ 2 ^ 28 }
    ensures worth { IsWorthOf bytes.now result }
    ensures symbol { (in_bounds : Bool) →
        number_symbol in_bounds bytes.now ≡ worth_symbol in_bounds result }
{
    let (mantissa, exponent) = bytes.split_at(exponent_start(bytes));
    parted_worth(mantissa, exponent)
}
