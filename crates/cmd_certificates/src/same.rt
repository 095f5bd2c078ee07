// The cuts that two certificates begin with alike.
ghost use Rattle.std.specs.Prelude.{◌≡◌, ◌<◌, ◌≤◌, ◌↔◌, length, take, slice_index_or, IsTrue};
ghost use Rattle.bp_theory.specs.declared.Cut.{Cut};

use bp_theory::Cut;

/// How many cuts two lists begin with that are the same.
pub fn common(one: &[Cut], other: &[Cut]) -> usize
    ensures first { result ≤ length one.now }
    ensures second { result ≤ length other.now }
    ensures alike { take result one.now ≡ take result other.now }
    ensures apart { result < length one.now → result < length other.now → (d : Cut) →
        slice_index_or one.now result d ≡ slice_index_or other.now result d → ⊥ }
{
    let mut count = 0;
    while count < one.len() && count < other.len() {
        if !is_same_cut(&one[count], &other[count]) {
            return count;
        }
        count += 1;
    }
    count
}

// Whether two cuts are the same.
fn is_same_cut(a: &Cut, b: &Cut) -> bool
    ensures { IsTrue result ↔ (a.now ≡ b.now) }
{
    a.q == b.q && are_same_rows(a.rows.as_slice(), b.rows.as_slice())
}

// Whether rows with their multipliers are the same.
fn are_same_rows(a: &[(u32, i64)], b: &[(u32, i64)]) -> bool
    ensures { IsTrue result ↔ (a.now ≡ b.now) }
{
    if a.len() != b.len() {
        return false;
    }
    for place in 0..a.len() {
        if !is_same_pair(&a[place], &b[place]) {
            return false;
        }
    }
    true
}

// Whether two rows with their multipliers are the same.
fn is_same_pair(a: &(u32, i64), b: &(u32, i64)) -> bool
    ensures { IsTrue result ↔ (a.now ≡ b.now) }
{
    a.0 == b.0 && a.1 == b.1
}
