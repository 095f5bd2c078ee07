// Where variables stand in rows of blocks.
ghost use Rattle.std.specs.Prelude.{◌≡◌, ◌≤◌, length, slice_index_or, None};
ghost use Rattle.std.specs.List.Sorted.{IsStrictlyIncreasing};
ghost use Rattle.bp_theory.specs.Program.{coefficient};
ghost use Rattle.bp_theory.specs.Decomposition.{place_of, IsTidyFrom};

use bp_theory::Term;

/// The block of a row, none for a master row.
pub fn block_at(places: &[Option<u32>], row: u32) -> Option<u32>
    ensures { result ≡ slice_index_or places.now row None }
{
    match places.get(row as usize) {
        None => None,
        Some(place) => *place,
    }
}

/// The coefficient of a variable in terms that are in order, each variable once.
pub fn coefficient(terms: &[Term], var: u32) -> i64
    requires { IsTidyFrom 0 terms.now }
    ensures { result ≡ coefficient terms.now var }
{
    match terms.binary_search_by_key(&var, |term| term.var) {
        Ok(place) => terms[place].coef,
        Err(_) => 0,
    }
}

/// The place of a variable among others that ascend, or their number where it isn't there.
pub fn place_of(vars: &[u32], var: u32) -> usize
    requires { IsStrictlyIncreasing vars.now }
    ensures place { result ≡ place_of vars.now var }
    ensures within { result ≤ length vars.now }
{
    match vars.binary_search(&var) {
        Ok(place) => place,
        Err(_) => vars.len(),
    }
}
