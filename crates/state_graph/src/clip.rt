// The windows of sums after a variable has a number.
ghost use Rattle.std.specs.Prelude.{◌≡◌, ◌<◌, ◌≤◌, ◌^◌, ◌*ℤ◌, ◌-ℤ◌, ◌≤ℤ◌, MatchOption, IfSome, length, vec_len, unsigned_abs};
ghost use Rattle.std.specs.Bool.{OnTrue, OnFalse};
ghost use Rattle.std.specs.Int.{int_min, int_max};
ghost use Rattle.state_graph.specs.Windows.{clip, IsEmpty, IsMoved, IsLost, AreFilled};

use bp_theory::Span;

/// The product of two numbers.
pub fn product(a: &i64, b: &i64) -> i128
    ensures value { result ≡ a.now *ℤ b.now }
    ensures small { unsigned_abs result ≤ 2 ^ 126 }
{
    i128::from(*a) * i128::from(*b)
}

/// The greater one of a side less what was added, and another side.
fn lower_end(side: &i64, added: &i128, least: &i64) -> i128
    requires { unsigned_abs added.now ≤ 2 ^ 126 }
    ensures { result ≡ int_max (side.now -ℤ added.now) least.now }
{
    let left = i128::from(*side) - *added;
    let other = i128::from(*least);
    if left < other { other } else { left }
}

/// The lesser one of a side less what was added, and another side.
fn upper_end(side: &i64, added: &i128, most: &i64) -> i128
    requires { unsigned_abs added.now ≤ 2 ^ 126 }
    ensures { result ≡ int_min (side.now -ℤ added.now) most.now }
{
    let left = i128::from(*side) - *added;
    let other = i128::from(*most);
    if other < left { other } else { left }
}

/// A number between two numbers of 64 bits, in 64 bits.
fn shortened(number: &i128, least: &i64, most: &i64) -> i64
    requires above { least.now ≤ℤ number.now }
    requires below { number.now ≤ℤ most.now }
    ensures { result ≡ number.now }
{
    // For the proof alone: both are read, so that they are numbers of 64 bits.
    let _least = *least;
    let _most = *most;
    *number as i64
}

/// What a window of sums leaves to the variables behind one that has a number: it moves by what that number adds, and is
/// clipped to what these variables can add up to. None where nothing is left.
pub fn clipped(window: &Span, coef: &i64, number: &i64, hull: &Span) -> Option<Span>
    ensures left { MatchOption result (IsEmpty (clip window.now (coef.now *ℤ number.now) hull.now))
        (λ left. left ≡ clip window.now (coef.now *ℤ number.now) hull.now) }
    ensures filled { IfSome result (λ left. IsEmpty left → ⊥) }
{
    let added = product(coef, number);
    let lo = lower_end(&window.lo, &added, &hull.lo);
    let hi = upper_end(&window.hi, &added, &hull.hi);
    if hi < lo {
        return None;
    }
    Some(Span {
        lo: shortened(&lo, &hull.lo, &hull.hi),
        hi: shortened(&hi, &hull.lo, &hull.hi),
    })
}

/// Whether a row that the variable stands in has no window left after a number.
fn is_lost(state: &[Span], column: &[i64], hulls: &[Span], number: &i64) -> bool
    requires column { length column.now ≡ length state.now }
    requires hulls { length hulls.now ≡ length state.now }
    ensures { OnTrue result (IsLost column.now hulls.now state.now number.now) }
{
    for row in 0..column.len() {
        if column[row] != 0 {
            match clipped(&state[row], &column[row], number, &hulls[row]) {
                Some(_) => {}
                None => return true,
            }
        }
    }
    false
}

/// Moves a state's windows by a number of a variable with this column. Tells whether each row has a window left. The rows
/// that the variable stands in are looked at first, since most numbers that are lost are lost there.
pub fn move_state(
    moved: &mut Vec<Span>,
    state: &[Span],
    column: &[i64],
    hulls: &[Span],
    number: &i64,
) -> bool
    requires room { vec_len moved.old ≡ length state.now }
    requires column { length column.now ≡ length state.now }
    requires hulls { length hulls.now ≡ length state.now }
    ensures room { vec_len moved.new ≡ vec_len moved.old }
    ensures moved { OnTrue result (IsMoved column.now hulls.now state.now number.now
        moved.new.items) }
    ensures filled { OnTrue result (AreFilled moved.new.items) }
    ensures lost { OnFalse result (IsLost column.now hulls.now state.now number.now) }
{
    if is_lost(state, column, hulls, number) {
        return false;
    }
    for row in 0..state.len() {
        match clipped(&state[row], &column[row], number, &hulls[row]) {
            Some(window) => moved[row] = window,
            None => return false,
        }
    }
    true
}
