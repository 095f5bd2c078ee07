// What the tokens of a text name and count as.
ghost use Rattle.std.specs.Prelude.{◌≡◌, ℕ, ◌+◌, ◌<◌, ◌^◌, ◌≤◌, List, [], ◌++◌, ◌∷◌, length, IfOk, IfErr, IfSome, IsTrue, IsFalse, Option, Some, false, true};
ghost use Rattle.bp_theory.specs.Limits.{most_terms};
ghost use Rattle.bp_theory.specs.declared.Limits.TheVariants.{Large};
ghost use Rattle.lp_token.specs.declared.LpKind.TheVariants.{RowTwice, Limit};
ghost use Rattle.std.specs.Option.{ForSome};
ghost use Rattle.lp_token.specs.Lexeme.{is_name};
ghost use Rattle.lp_syntax.specs.Tree as plain;
ghost use Rattle.lp_syntax.specs.declared.tree.Site.TheVariants.{RowFirst as row_first, Listed as listed};
ghost use Rattle.lp_syntax.specs.TreeIn.{IsNamed, symbol_in, next_in, name_in, label_in};
ghost use Rattle.lp_syntax.specs.Roles.{label_of, is_colon as specs_is_colon, is_name_symbol as specs_is_name, variable_of as specs_variable_of, counts_as_term as specs_counts_as_term, row_of as specs_row_of};
ghost use Rattle.lp_read.specs.Noted.{seen_in, with_name, with_token, names_with, tokens_with, row_name, rows_with, row_tokens_with, is_repeated, terms_with, with_rows, with_variables, noted, is_repeated_in, are_too_many, HaveRoom, HaveRoomForVariables, IsTwice, IsRowFault, IsRoleFault};
ghost use Rattle.lp_syntax.specs.declared.symbol.Symbol.TheVariants as symbols;
ghost use Rattle.lp_semantics.specs.Meaning.{has_name};
ghost use Rattle.lp_read.specs.declared.notes.ParseFault.TheVariants.{At, NoMemory};

use bp_theory::{Items, Limits};
use lp_syntax::{Site, Symbol, TextRange, name_at};
use lp_token::LpKind;
use name_table::NameTable;
use std::alloc::{AllocError, Global};

/// Why tokens are no text.
#[derive(Clone, Copy, Debug, PartialEq, Eq)]
pub enum ParseFault {
    /// The first token at fault.
    At { token: usize, kind: LpKind },
    /// The tokens end without the word `end`.
    NoEnd,
    /// Want of memory.
    NoMemory,
}

impl From<AllocError> for ParseFault {
    ghost from_gives = { λ _ fault. fault ≡ NoMemory };

    fn from(_: AllocError) -> Self {
        ParseFault::NoMemory
    }
}

/// The variables and the rows so far with the tokens where they first stand, how many terms there are, and the limits
/// that all of them keep.
#[derive(Drop)]
pub struct Notes {
    /// The variables, numbered from 0 in the order in which they first stand.
    pub names: NameTable,
    /// By number of the variable: the number of the token where it first stands, from 0.
    pub first_tokens: Items<usize>,
    /// The rows' names, numbered from 0 in order; the k-th one, from 1, is `ck` where it has no label.
    pub row_names: NameTable,
    /// By number of the row: the number of its first token, from 0.
    pub row_tokens: Items<usize>,
    /// How many variables in sums and constants of the objective there are, each as often as it is written.
    pub terms: u32,
    /// The limits that the numbers of variables, rows and terms keep.
    pub limits: Limits,
}

/// A symbol in its site.
#[derive(Clone, Copy)]
pub struct Seen {
    /// What the symbol is doing in the text.
    pub site: Site,
    /// The symbol.
    pub symbol: Symbol,
    /// The symbol behind it, if one stands there.
    pub next: Option<Symbol>,
}

/// Nothing yet.
pub fn no_notes(alloc: Global, limits: Limits) -> Notes
    ensures { result ≡ record {
      names = [];
      first_tokens = [];
      row_names = [];
      row_tokens = [];
      terms = 0;
      limits = limits;
    } }
{
    Notes {
        names: NameTable::new(alloc),
        first_tokens: Items::new(alloc),
        row_names: NameTable::new(alloc),
        row_tokens: Items::new(alloc),
        terms: 0,
        limits,
    }
}

/// Lets notes go, in one place for all callers.
pub fn let_notes_go(_notes: Notes) {}

/// Whether a colon follows.
fn is_colon(next: Option<Symbol>) -> bool
    ensures { (text : List ℕ) → result ≡ specs_is_colon (next_in text next) }
{
    match next {
        Some(Symbol::Colon) => true,
        _ => false,
    }
}

/// Whether a name follows.
fn is_name_next(next: Option<Symbol>) -> bool
    ensures { (text : List ℕ) → result ≡ specs_is_name (next_in text next) }
{
    match next {
        Some(Symbol::Name(_)) => true,
        _ => false,
    }
}

/// The variable that a name names where a label may stand.
fn unless_label(symbol: Symbol, next: Option<Symbol>) -> Option<TextRange>
    ensures same { (text : List ℕ) →
        label_in text result ≡ specs_variable_of row_first (symbol_in text symbol)
        (next_in text next) }
    ensures named { IfSome result (λ name. symbol ≡ symbols.Name name) }
{
    match symbol {
        Symbol::Name(name) => { if is_colon(next) { None } else { Some(name) } }
        _ => None,
    }
}

/// The name that a symbol is.
fn name_of(symbol: Symbol) -> Option<TextRange>
    ensures same { (text : List ℕ) (next : Option plain.Symbol) →
        label_in text result ≡ specs_variable_of listed (symbol_in text symbol) next }
    ensures named { IfSome result (λ name. symbol ≡ symbols.Name name) }
{
    match symbol {
        Symbol::Name(name) => Some(name),
        _ => None,
    }
}

/// The variable that a symbol names.
fn variable_of(site: Site, symbol: Symbol, next: Option<Symbol>) -> Option<TextRange>
    ensures same { (text : List ℕ) →
        label_in text result ≡ specs_variable_of site (symbol_in text symbol) (next_in text next) }
    ensures named { IfSome result (λ name. symbol ≡ symbols.Name name) }
{
    match site {
        Site::Other => None,
        Site::ObjectiveFirst => unless_label(symbol, next),
        Site::RowFirst => unless_label(symbol, next),
        Site::ObjectiveMore => name_of(symbol),
        Site::RowMore => name_of(symbol),
        Site::Listed => name_of(symbol),
    }
}

/// Whether a symbol counts as a term: a variable's name, and in the objective a number that no name follows.
fn counts_as_term(site: Site, symbol: Symbol, next: Option<Symbol>) -> bool
    ensures { (text : List ℕ) → result ≡ specs_counts_as_term site (symbol_in text symbol)
        (next_in text next) }
{
    match (site, symbol) {
        (Site::ObjectiveFirst, Symbol::Number(_)) => !is_name_next(next),
        (Site::ObjectiveMore, Symbol::Number(_)) => !is_name_next(next),
        (Site::ObjectiveFirst, Symbol::Name(_)) => !is_colon(next),
        (Site::RowFirst, Symbol::Name(_)) => !is_colon(next),
        (Site::ObjectiveMore, Symbol::Name(_)) => true,
        (Site::RowMore, Symbol::Name(_)) => true,
        _ => false,
    }
}

/// The label of a row's first symbol.
fn row_label(symbol: Symbol, next: Option<Symbol>) -> Option<TextRange>
    ensures same { (text : List ℕ) →
        label_in text result ≡ label_of row_first (symbol_in text symbol) (next_in text next) }
    ensures named { IfSome result (λ name. symbol ≡ symbols.Name name) }
{
    match symbol {
        Symbol::Name(name) => { if is_colon(next) { Some(name) } else { None } }
        _ => None,
    }
}

/// With a row of this name more, unless an earlier one has it.
fn add_row(alloc: Global, notes: Notes, at: usize, name: &str) -> Result<Notes, ParseFault>
    requires { HaveRoom notes }
    ensures new { IfOk result (λ r. has_name notes.row_names name.now ≡ false) }
    ensures added { IfOk result (λ r.
        r ≡ record notes {
          row_names = notes.row_names ++ name.now ∷
              [];
          row_tokens = notes.row_tokens ++ at ∷ [];
        }) }
    ensures fault { IfErr result (IsTwice notes.row_names name.now at) }
{
    let mut notes = notes;
    let added = notes.row_names.add(alloc, name)?;
    if added.1 {
        notes.row_tokens.push(at)?;
        Ok(notes)
    } else {
        let_notes_go(notes);
        Err(ParseFault::At {
            token: at,
            kind: LpKind::RowTwice,
        })
    }
}

/// With the row of this label, or of none, more.
fn add_labelled_row(
    alloc: Global,
    bytes: &[u8],
    notes: Notes,
    at: usize,
    label: Option<TextRange>,
) -> Result<Notes, ParseFault>
    requires room { HaveRoom notes }
    requires named { ForSome label (λ place. IsTrue (is_name (name_in bytes.now place))) }
    ensures added { IfOk result (λ r.
        r ≡ record notes {
          row_names = rows_with notes.row_names (Some (label_in bytes.now label));
          row_tokens = notes.row_tokens ++ at ∷ [];
        }) }
    ensures new { IfOk result (λ r.
        is_repeated notes.row_names (Some (label_in bytes.now label)) ≡ false) }
    ensures fault { IfErr result (IsTwice notes.row_names
        (row_name (length notes.row_names + 1) (label_in bytes.now label)) at) }
{
    match label {
        Some(place) => add_row(alloc, notes, at, name_at(bytes, place)),
        None => {
            let position = notes.row_names.len() + 1;
            let name = format!(in alloc; "c{position}")?;
            add_row(alloc, notes, at, name.as_str())
        }
    }
}

/// With the row that begins at a symbol, if one does.
fn note_row(
    alloc: Global,
    bytes: &[u8],
    notes: Notes,
    at: usize,
    seen: Seen,
) -> Result<Notes, ParseFault>
    requires room { HaveRoom notes }
    requires named { IsNamed bytes.now seen.symbol }
    ensures added { IfOk result (λ r. r ≡ with_rows notes at (seen_in bytes.now seen)) }
    ensures new { IfOk result (λ r. is_repeated_in notes (seen_in bytes.now seen) ≡ false) }
    ensures fault { IfErr result (IsRowFault notes at (seen_in bytes.now seen)) }
{
    match seen.site {
        Site::RowFirst => {
            let label = row_label(seen.symbol, seen.next);
            add_labelled_row(alloc, bytes, notes, at, label)
        }
        _ => Ok(notes),
    }
}

/// With this variable, if it is new.
fn add_variable(alloc: Global, notes: Notes, at: usize, name: &str) -> Result<Notes, AllocError>
    requires { HaveRoomForVariables notes }
    ensures { IfOk result (λ r. r ≡
        record notes {
          names = with_name notes.names name.now;
          first_tokens = with_token notes.names
              notes.first_tokens name.now at;
        }) }
{
    let mut notes = notes;
    let added = notes.names.add(alloc, name)?;
    if added.1 {
        notes.first_tokens.push(at)?;
        Ok(notes)
    } else {
        Ok(notes)
    }
}

/// With the variable that a symbol names, if it names one.
fn note_variable(
    alloc: Global,
    bytes: &[u8],
    notes: Notes,
    at: usize,
    seen: Seen,
) -> Result<Notes, AllocError>
    requires room { HaveRoomForVariables notes }
    requires named { IsNamed bytes.now seen.symbol }
    ensures { IfOk result (λ r. r ≡ with_variables notes at (seen_in bytes.now seen)) }
{
    match variable_of(seen.site, seen.symbol, seen.next) {
        None => Ok(notes),
        Some(place) => add_variable(alloc, notes, at, name_at(bytes, place)),
    }
}

/// With the term that a symbol counts as, if it does.
fn note_term(notes: Notes, counts: bool) -> Notes
    requires { notes.terms ≤ most_terms Large }
    ensures { result ≡ record notes { terms = terms_with notes.terms counts } }
{
    let mut notes = notes;
    if counts {
        notes.terms += 1;
    }
    notes
}

/// Whether there is a variable, a row or a term too many.
fn too_many(notes: &Notes) -> bool
    ensures { result ≡ are_too_many notes.now }
{
    let limits = notes.limits;
    notes.names.len() > limits.variables()
        || notes.row_names.len() > limits.rows()
        || notes.terms > limits.terms()
}

/// The notes, unless there are too many.
fn within_limits(notes: Notes, at: usize) -> Result<Notes, ParseFault>
    ensures same { IfOk result (λ r. r ≡ notes) }
    ensures room { IfOk result HaveRoom }
    ensures few { IfOk result (λ r. are_too_many notes ≡ false) }
    ensures fault { IfErr result (λ f. (f ≡ At at Limit) × (are_too_many notes ≡ true)) }
{
    if too_many(&notes) {
        let_notes_go(notes);
        Err(ParseFault::At {
            token: at,
            kind: LpKind::Limit,
        })
    } else {
        Ok(notes)
    }
}

/// Notes a token in its site, by the symbol behind it.
pub fn note(
    alloc: Global,
    bytes: &[u8],
    notes: Notes,
    at: usize,
    seen: Seen,
) -> Result<Notes, ParseFault>
    requires room { HaveRoom notes }
    requires named { IsNamed bytes.now seen.symbol }
    ensures added { IfOk result (λ r. r ≡ noted notes at (seen_in bytes.now seen)) }
    ensures sound { IfOk result (λ r.
        (is_repeated_in notes (seen_in bytes.now seen) ≡ false) × (are_too_many r ≡ false)) }
    ensures room { IfOk result HaveRoom }
    ensures fault { IfErr result (IsRoleFault notes at (seen_in bytes.now seen)) }
{
    let notes = note_row(alloc, bytes, notes, at, seen)?;
    let notes = note_variable(alloc, bytes, notes, at, seen)?;
    let notes = note_term(notes, counts_as_term(seen.site, seen.symbol, seen.next));
    within_limits(notes, at)
}
