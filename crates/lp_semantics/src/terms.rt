// The rows and the objective with their terms as they are written.
ghost use Rattle.std.specs.Prelude.{◌≡◌, ◌≤◌, ◌<◌, ◌+◌, ◌^◌, ◌++◌, ◌+ℤ◌, IfOk, OnOk, All, map, unsigned_abs, option_to_list, MatchOption, false};
ghost use Rattle.lp_semantics.specs.Meaning.{sense_of, turned, as_items, items_of, number_of, minimised, constant_of, total, objective_items};
ghost use Rattle.lp_syntax.specs.TreeIn.{term_in, item_in, sum_in, row_in, tree_in};
ghost use Rattle.lp_semantics.specs.Fit.{IsSmall, IsFitTerm, IsFitItem, IsFitSum, IsFitRow};
ghost use Rattle.lp_semantics.specs.Numbered.{turned_by, raw_term, raw_item, raw_terms, raw_row};

use crate::number::{number_of, signed_number};
use bp_theory::{Items, Sense};
use lp_syntax::{Comparison, Direction, Item, Row, Sign, Signed, Sum, Term, Tree};
use name_table::NameTable;
use std::alloc::{AllocError, Global};

/// The costs with their terms as they are written, and the constant, both in minimised form.
#[derive(Drop)]
pub struct Objective {
    /// In the order of the text, with zeros, and a variable as often as it is written.
    pub costs: Items<bp_theory::Term>,
    /// The sum of the constants.
    pub constant: i128,
}

// Whether a term is turned that has a further sign in front.
fn turned_with(turned: bool, sign: &Sign) -> bool
    ensures { result ≡ turned_by turned sign.now }
{
    match sign {
        Sign::Plus => turned,
        Sign::Minus => !turned,
    }
}

// A term with its variable's number.
fn numbered(text: &[u8], names: &NameTable, turned: bool, term: &Term) -> bp_theory::Term
    requires { IsFitTerm text.now names.now term.now }
    ensures { result ≡ raw_term names.now turned (term_in text.now term.now) }
{
    let size = term.factor.unwrap_or(1);
    bp_theory::Term {
        var: number_of(text, names, &term.variable),
        coef: signed_number(turned, term.signs.as_slice(), size),
    }
}

// The terms of a row's sum.
fn terms_of(
    alloc: Global,
    text: &[u8],
    names: &NameTable,
    sum: &Sum<Term>,
) -> Result<Items<bp_theory::Term>, AllocError>
    requires { IsFitSum (IsFitTerm text.now names.now) sum.now }
    ensures { IfOk result (λ terms. terms ≡ raw_terms names.now false
        (as_items (sum_in (term_in text.now) sum.now))) }
{
    let mut terms = Items::new(alloc);
    terms.push(numbered(text, names, false, &sum.first))?;
    for (sign, term) in sum.more.as_slice() {
        terms.push(numbered(text, names, turned_with(false, sign), term))?;
    }
    Ok(terms)
}

// What a comparison asks of a row's sum on its left.
fn sense_in(comparison: &Comparison) -> Sense
    ensures { result ≡ sense_of comparison.now }
{
    match comparison {
        Comparison::AtMost => Sense::Le,
        Comparison::AtLeast => Sense::Ge,
        Comparison::Equal => Sense::Eq,
    }
}

// What a comparison asks of a row's sum on its right.
fn sense_behind(comparison: &Comparison) -> Sense
    ensures { result ≡ sense_of (turned comparison.now) }
{
    match comparison {
        Comparison::AtMost => Sense::Ge,
        Comparison::AtLeast => Sense::Le,
        Comparison::Equal => Sense::Eq,
    }
}

// A written number.
fn side_of(number: &Signed) -> i64
    requires { IsSmall number.now }
    ensures { result ≡ number_of number.now }
{
    signed_number(false, number.signs.as_slice(), number.size)
}

// A row of terms with written sides.
fn row_with(
    sense: Sense,
    low: &Signed,
    rhs: &Signed,
    terms: Items<bp_theory::Term>,
) -> bp_theory::Row
    requires small_low { IsSmall low.now }
    requires small_rhs { IsSmall rhs.now }
    ensures { result ≡ record {
      sense = sense;
      low = number_of low.now;
      rhs = number_of rhs.now;
      terms = terms;
    } }
{
    bp_theory::Row {
        sense,
        low: side_of(low),
        rhs: side_of(rhs),
        terms,
    }
}

// A row with its terms as they are written.
fn row_of(
    alloc: Global,
    text: &[u8],
    names: &NameTable,
    row: &Row,
) -> Result<bp_theory::Row, AllocError>
    requires { IsFitRow text.now names.now row.now }
    ensures { IfOk result (λ made. made ≡ raw_row names.now (row_in text.now row.now)) }
{
    match row {
        Row::ExpressionFirst(_, sum, comparison, number) => {
            let terms = terms_of(alloc, text, names, sum)?;
            Ok(row_with(sense_in(comparison), number, number, terms))
        }
        Row::NumberFirst(_, number, comparison, sum) => {
            let terms = terms_of(alloc, text, names, sum)?;
            Ok(row_with(sense_behind(comparison), number, number, terms))
        }
        Row::Ranged(_, first, Direction::Upward, sum, last) => {
            let terms = terms_of(alloc, text, names, sum)?;
            Ok(row_with(Sense::In, first, last, terms))
        }
        Row::Ranged(_, first, Direction::Downward, sum, last) => {
            let terms = terms_of(alloc, text, names, sum)?;
            Ok(row_with(Sense::In, last, first, terms))
        }
    }
}

/// The rows with their terms as they are written.
pub fn rows_of(
    alloc: Global,
    text: &[u8],
    names: &NameTable,
    rows: &[Row],
) -> Result<Items<bp_theory::Row>, AllocError>
    requires { All (IsFitRow text.now names.now) rows.now }
    ensures { IfOk result (λ made. made ≡ map (λ r. raw_row names.now (row_in text.now r))
        rows.now) }
{
    let mut made = Items::new(alloc);
    for row in rows {
        made.push(row_of(alloc, text, names, row)?)?;
    }
    Ok(made)
}

// The sum of two numbers.
fn plus(a: &i128, b: i64) -> i128
    requires { unsigned_abs a.now + unsigned_abs b < 2 ^ 127 }
    ensures { result ≡ a.now +ℤ b }
{
    *a + b as i128
}

// A written constant, turned or not.
fn constant_in(turned: bool, constant: &Signed) -> i64
    requires { IsSmall constant.now }
    ensures value { result ≡ minimised turned (number_of constant.now) }
    ensures small { unsigned_abs result < 2 ^ 62 }
{
    signed_number(turned, constant.signs.as_slice(), constant.size)
}

impl Objective {
    // One item more.
    fn add(
        &mut self,
        text: &[u8],
        names: &NameTable,
        turned: bool,
        item: &Item,
    ) -> Result<(), AllocError>
        requires fit { IsFitItem text.now names.now item.now }
        requires room { unsigned_abs self.old.constant + 2 ^ 62 < 2 ^ 127 }
        ensures costs { OnOk result (self.new.costs ≡ self.old.costs ++
            option_to_list (raw_item names.now turned (item_in text.now item.now))) }
        ensures constant { OnOk result (self.new.constant ≡ self.old.constant +ℤ minimised turned
            (constant_of (item_in text.now item.now))) }
        ensures small { unsigned_abs self.new.constant ≤ unsigned_abs self.old.constant + 2 ^ 62 }
    {
        match item {
            Item::Term(term) => self.costs.push(numbered(text, names, turned, term))?,
            Item::Constant(constant) => {
                self.constant = plus(&self.constant, constant_in(turned, constant));
            }
        }
        Ok(())
    }

    // One item more behind its sign.
    fn add_signed(
        &mut self,
        text: &[u8],
        names: &NameTable,
        turned: bool,
        item: &(Sign, Item),
    ) -> Result<(), AllocError>
        requires fit { IsFitItem text.now names.now item.now.1 }
        requires room { unsigned_abs self.old.constant + 2 ^ 62 < 2 ^ 127 }
        ensures costs { OnOk result (self.new.costs ≡ self.old.costs ++
            option_to_list (raw_item names.now (turned_by turned item.now.0)
            (item_in text.now item.now.1))) }
        ensures constant { OnOk result (self.new.constant ≡ self.old.constant +ℤ minimised
            (turned_by turned item.now.0) (constant_of (item_in text.now item.now.1))) }
        ensures small { unsigned_abs self.new.constant ≤ unsigned_abs self.old.constant + 2 ^ 62 }
    {
        let (sign, item) = item;
        self.add(text, names, turned_with(turned, sign), item)
    }
}

// The sum of an objective, turned or not.
fn sum_of_items(
    alloc: Global,
    text: &[u8],
    names: &NameTable,
    turned: bool,
    sum: &Sum<Item>,
) -> Result<Objective, AllocError>
    requires { IsFitSum (IsFitItem text.now names.now) sum.now }
    ensures costs { IfOk result (λ o. o.costs ≡ raw_terms names.now turned
        (items_of (sum_in (item_in text.now) sum.now))) }
    ensures constant { IfOk result (λ o. o.constant ≡
        minimised turned (total (map constant_of (items_of (sum_in (item_in text.now) sum.now))))) }
    ensures small { IfOk result (λ o. unsigned_abs o.constant < 2 ^ 127) }
{
    let mut objective = Objective {
        costs: Items::new(alloc),
        constant: 0,
    };
    objective.add(text, names, turned, &sum.first)?;
    for item in sum.more.as_slice() {
        objective.add_signed(text, names, turned, item)?;
    }
    Ok(objective)
}

/// The objective with its terms as they are written.
pub fn objective_of(
    alloc: Global,
    text: &[u8],
    names: &NameTable,
    tree: &Tree,
) -> Result<Objective, AllocError>
    requires { MatchOption tree.now.objective (Unit {0}) (IsFitSum (IsFitItem text.now names.now)) }
    ensures costs { IfOk result (λ o. o.costs ≡ raw_terms names.now tree.now.maximises
        (objective_items (tree_in text.now tree.now))) }
    ensures constant { IfOk result (λ o. o.constant ≡ minimised tree.now.maximises
        (total (map constant_of (objective_items (tree_in text.now tree.now))))) }
    ensures small { IfOk result (λ o. unsigned_abs o.constant < 2 ^ 127) }
{
    match &tree.objective {
        None => Ok(Objective {
            costs: Items::new(alloc),
            constant: 0,
        }),
        Some(sum) => sum_of_items(alloc, text, names, tree.maximises, sum),
    }
}
