// Orders of a block's variables.
ghost use Rattle.std.specs.Prelude.{◌≡◌, ◌<◌, ◌≤◌, ◌^◌, IfOk, All, map, length, vec_len};
ghost use Rattle.std.specs.List.{range_with_len};
ghost use Rattle.std.specs.List.Sorted.{IsPermutation};
ghost use Rattle.bp_theory.specs.Decomposition.{HasVariablesBelow};
ghost use Rattle.variable_order.specs.Orders.{IsOrder, number_at, term_by, row_by, rows_by, spans_by, numbers_by};

use bp_theory::{Items, Row, Span, Term};
use std::alloc::{AllocError, Global};

/// The variables of a block in an order, each once, and the place of each.
#[derive(Drop)]
pub struct Order {
    /// By place: the variable that stands there, by its number in the block.
    pub vars: Vec<usize>,
    /// By number of the variable: its place.
    pub places: Vec<usize>,
    // Each variable stands once, at its place.
    pub ghost order: { IsOrder (length vars.items) vars.items places.items },
}

impl Order {
    ghost use Rattle.std.specs.Prelude.{◌≡◌, IfOk, length};
    ghost use Rattle.std.specs.List.{range_with_len};
    ghost use Rattle.std.specs.List.Sorted.{IsPermutation};

    /// The order of these variables, which are the numbers below their count, each once.
    pub fn make(alloc: Global, vars: Vec<usize>) -> Result<Order, AllocError>
        requires { IsPermutation (range_with_len 0 (length vars.items)) vars.items }
        ensures { IfOk result (λ order. order.vars.items ≡ vars.items) }
    {
        let places = places_of(alloc, &vars)?;
        Ok(Order { vars, places })
    }
}

/// The place of each variable in an order.
fn places_of(alloc: Global, vars: &Vec<usize>) -> Result<Vec<usize>, AllocError>
    requires { IsPermutation (range_with_len 0 (length vars.now.items)) vars.now.items }
    ensures { IfOk result (λ places. IsOrder (length vars.now.items) vars.now.items places.items) }
{
    let mut places = Vec::from_elem(alloc, 0, vars.len())?;
    for place in 0..vars.len() {
        places[vars[place]] = place;
    }
    Ok(places)
}

/// The place of a variable, in 32 bits.
fn place_of(places: &Vec<usize>, var: u32) -> u32
    requires there { var < vec_len places.now }
    requires few { All (λ k. k < 2 ^ 32) places.now.items }
    ensures { result ≡ number_at places.now.items var }
{
    places[var as usize] as u32
}

/// A term with the place of its variable in the variable's stead.
fn renamed_term(places: &Vec<usize>, term: &Term) -> Term
    requires there { term.now.var < vec_len places.now }
    requires few { All (λ k. k < 2 ^ 32) places.now.items }
    ensures { result ≡ term_by places.now.items term.now }
{
    Term {
        var: place_of(places, term.var),
        coef: term.coef,
    }
}

/// Terms by the places of their variables.
fn renamed_terms(
    alloc: Global,
    places: &Vec<usize>,
    terms: &[Term],
) -> Result<Items<Term>, AllocError>
    requires there { HasVariablesBelow (vec_len places.now) terms.now }
    requires few { All (λ k. k < 2 ^ 32) places.now.items }
    ensures { IfOk result (λ made. made ≡ map (term_by places.now.items) terms.now) }
{
    let mut renamed = Vec::new(alloc);
    for term in terms {
        renamed.push(renamed_term(places, term))?;
    }
    Ok(Items::from_vec(renamed))
}

/// A row by the places of its variables.
fn renamed_row(alloc: Global, places: &Vec<usize>, row: &Row) -> Result<Row, AllocError>
    requires there { HasVariablesBelow (vec_len places.now) row.now.terms }
    requires few { All (λ k. k < 2 ^ 32) places.now.items }
    ensures { IfOk result (λ made. made ≡ row_by places.now.items row.now) }
{
    let terms = renamed_terms(alloc, places, row.terms.as_slice())?;
    Ok(Row {
        sense: row.sense,
        low: row.low,
        rhs: row.rhs,
        terms,
    })
}

/// Rows by the places of their variables.
pub fn renamed_rows(
    alloc: Global,
    places: &Vec<usize>,
    rows: &[Row],
) -> Result<Vec<Row>, AllocError>
    requires there { All (λ row. HasVariablesBelow (vec_len places.now) row.terms) rows.now }
    requires few { All (λ k. k < 2 ^ 32) places.now.items }
    ensures { IfOk result (λ made. made.items ≡ rows_by places.now.items rows.now) }
{
    let mut renamed = Vec::new(alloc);
    for row in rows {
        renamed.push(renamed_row(alloc, places, row)?)?;
    }
    Ok(renamed)
}

/// Writes spans in an order.
pub fn arrange_spans(vars: &Vec<usize>, spans: &[Span], arranged: &mut Vec<Span>)
    requires vars { All (λ v. v < length spans.now) vars.now.items }
    requires room { vec_len arranged.old ≡ vec_len vars.now }
    ensures { arranged.new.items ≡ spans_by vars.now.items spans.now }
{
    for place in 0..vars.len() {
        arranged[place] = spans[vars[place]];
    }
}

/// Writes costs in an order.
pub fn arrange_costs(vars: &Vec<usize>, costs: &[i128], arranged: &mut Vec<i128>)
    requires vars { All (λ v. v < length costs.now) vars.now.items }
    requires room { vec_len arranged.old ≡ vec_len vars.now }
    ensures { arranged.new.items ≡ numbers_by vars.now.items costs.now }
{
    for place in 0..vars.len() {
        arranged[place] = costs[vars[place]];
    }
}

/// Writes numbers that stand in an order for their variables.
pub fn put_back(places: &Vec<usize>, numbers: &[i64], point: &mut Vec<i64>)
    requires places { All (λ k. k < length numbers.now) places.now.items }
    requires room { vec_len point.old ≡ vec_len places.now }
    ensures { point.new.items ≡ numbers_by places.now.items numbers.now }
{
    for var in 0..places.len() {
        point[var] = numbers[places[var]];
    }
}
