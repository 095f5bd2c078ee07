// What rows can reach after a variable's span has changed.
ghost use Rattle.std.specs.Prelude.{◌≡◌, ◌+◌, ◌*◌, ◌<◌, ◌≤◌, ◌^◌, ◌+ℤ◌, ◌-ℤ◌, ℕ, pos, unsigned_abs, length, vec_len, slice_index_or, All};
ghost use Rattle.bp_theory.specs.Sums.{sum_at};
ghost use Rattle.bp_theory.specs.Program.{reach};
ghost use Rattle.bp_theory.specs.Bound.{end_cost};
ghost use Rattle.pricing_problem.specs.Ends.{top_cost};
ghost use Rattle.enumeration.specs.Shifts.{IsShortAt, least_change, top_change};

use crate::columns::Entry;
use bp_theory::Span;
use pricing_problem::{least_end, minus, plus, top_end};

/// By how much the least of an entry's products changes from one span to another.
fn change_of_least(entry: &Entry, from: &Span, to: &Span) -> i128
    requires from { IsShortAt from.now entry.now }
    requires to { IsShortAt to.now entry.now }
    ensures change { result ≡ least_change from.now to.now entry.now }
    ensures small { unsigned_abs result < 2 ^ 63 }
{
    let new = least_end(to, &entry.coef);
    let old = least_end(from, &entry.coef);
    minus(&new, &old)
}

/// By how much the greatest of an entry's products changes from one span to another.
fn change_of_top(entry: &Entry, from: &Span, to: &Span) -> i128
    requires from { IsShortAt from.now entry.now }
    requires to { IsShortAt to.now entry.now }
    ensures change { result ≡ top_change from.now to.now entry.now }
    ensures small { unsigned_abs result < 2 ^ 63 }
{
    let new = top_end(to, &entry.coef);
    let old = top_end(from, &entry.coef);
    minus(&new, &old)
}

/// Adds to what each row can reach at least the changes of a variable's entries.
pub fn shift_lows(lows: &mut Vec<i128>, column: &[Entry], from: &Span, to: &Span)
    requires rows { All (λ e. e.row < vec_len lows.old) column.now }
    requires from { All (IsShortAt from.now) column.now }
    requires to { All (IsShortAt to.now) column.now }
    requires small { All (λ z. unsigned_abs z < 2 ^ 62) lows.old.items }
    ensures len { vec_len lows.new ≡ vec_len lows.old }
    ensures shifted { (q : ℕ) → slice_index_or lows.new.items q (pos 0) ≡
        slice_index_or lows.old.items q (pos 0) +ℤ sum_at
        (λ e. e.row) (least_change from.now to.now) column.now q }
{
    for entry in column {
        let change = change_of_least(entry, from, to);
        let row = entry.row as usize;
        lows[row] = plus(&lows[row], &change);
    }
}

/// Adds to what each row can reach at most the changes of a variable's entries.
pub fn shift_highs(highs: &mut Vec<i128>, column: &[Entry], from: &Span, to: &Span)
    requires rows { All (λ e. e.row < vec_len highs.old) column.now }
    requires from { All (IsShortAt from.now) column.now }
    requires to { All (IsShortAt to.now) column.now }
    requires small { All (λ z. unsigned_abs z < 2 ^ 62) highs.old.items }
    ensures len { vec_len highs.new ≡ vec_len highs.old }
    ensures shifted { (q : ℕ) → slice_index_or highs.new.items q (pos 0) ≡
        slice_index_or highs.old.items q (pos 0) +ℤ sum_at
        (λ e. e.row) (top_change from.now to.now) column.now q }
{
    for entry in column {
        let change = change_of_top(entry, from, to);
        let row = entry.row as usize;
        highs[row] = plus(&highs[row], &change);
    }
}

/// By how much the least of a cost's products changes from one span to another.
pub fn change_of_cost(cost: &i128, from: &Span, to: &Span) -> i128
    requires from { unsigned_abs cost.now * reach from.now ≤ 2 ^ 123 }
    requires to { unsigned_abs cost.now * reach to.now ≤ 2 ^ 123 }
    ensures change { result ≡ end_cost to.now cost.now -ℤ end_cost from.now cost.now }
    ensures small { unsigned_abs result ≤ 2 ^ 124 }
{
    let new = least_end(to, cost);
    let old = least_end(from, cost);
    minus(&new, &old)
}
