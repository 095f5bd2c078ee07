// Reading the symbols of a text, one by one, up to its tree or its first fault.
ghost use Rattle.std.specs.Prelude.{◌≡◌, ℕ, ◌≤◌, ◌^◌, List, Option, length, IfOk, IfErr, None, false, true};
ghost use Rattle.lp_syntax.specs.declared.tree.Tree.{Tree};
ghost use Rattle.lp_syntax.specs.TreeIn.{IsNamed, symbol_in};
ghost use Rattle.lp_syntax.specs.Symbols.{symbols as specs_symbols};
ghost use Rattle.lp_syntax.specs.declared.symbol.Symbol as symbols;
ghost use Rattle.lp_token.specs.declared.Tok.{Tok};
ghost use Rattle.lp_token.specs.Cut.{Cut, HasCut};
ghost use Rattle.lp_semantics.specs.Reading.{own_fault as specs_own_fault};
ghost use Rattle.lp_read.specs.Noted.{HaveRoom, seen_in, noted, is_repeated_in, are_too_many, IsRoleFault};
ghost use Rattle.lp_read.specs.Parsing.{ReadsOn, StopsAt, IsParseFault, IsParsed};
ghost use Rattle.lp_parser.specs.declared.stage.Stage.TheVariants as stages;
ghost use Rattle.lp_read.specs.declared.notes.ParseFault.TheVariants as faults;

use crate::notes::{Notes, ParseFault, Seen, let_notes_go, no_notes, note};
use bp_theory::Limits;
use lp_parser::{Stage, add_sign, let_go, step};
use lp_syntax::{Symbol, Tree, first_cursor, next_symbol};
use lp_token::LpKind;
use std::alloc::Global;

/// What is read so far, and what is noted of it.
#[derive(Drop)]
pub struct State {
    /// What is read so far.
    pub stage: Stage,
    /// What is noted of it.
    pub notes: Notes,
}

/// The tree of a text, and what is noted of its tokens.
#[derive(Drop)]
pub struct Parsed {
    /// The tree of the whole text.
    pub tree: Tree,
    /// What is noted of its tokens.
    pub notes: Notes,
}

/// The fault that a symbol has by itself.
fn own_fault(symbol: Symbol) -> Option<LpKind>
    ensures { (text : List ℕ) → result ≡ specs_own_fault (symbol_in text symbol) }
{
    match symbol {
        Symbol::Unfit(kind) => Some(kind),
        _ => None,
    }
}

/// Notes a symbol that leads to a stage.
fn advance(
    alloc: Global,
    bytes: &[u8],
    stage: Stage,
    notes: Notes,
    at: usize,
    seen: Seen,
) -> Result<State, ParseFault>
    requires room { HaveRoom notes }
    requires named { IsNamed bytes.now seen.symbol }
    ensures stage { IfOk result (λ r. r.stage ≡ stage) }
    ensures notes { IfOk result (λ r. r.notes ≡ noted notes at (seen_in bytes.now seen)) }
    ensures sound { IfOk result (λ r.
        (is_repeated_in notes (seen_in bytes.now seen) ≡ false) × (are_too_many r.notes ≡ false)) }
    ensures room { IfOk result (λ r. HaveRoom r.notes) }
    ensures fault { IfErr result (IsRoleFault notes at (seen_in bytes.now seen)) }
{
    match note(alloc, bytes, notes, at, seen) {
        Ok(notes) => Ok(State { stage, notes }),
        Err(fault) => {
            let_go(stage);
            Err(fault)
        }
    }
}

/// Reads the next symbol, which has no fault of its own, by the one behind it.
fn read_fit(
    alloc: Global,
    bytes: &[u8],
    stage: Stage,
    notes: Notes,
    at: usize,
    symbol: Symbol,
    next: Option<Symbol>,
) -> Result<State, ParseFault>
    requires room { HaveRoom notes }
    requires named { IsNamed bytes.now symbol }
    requires fit { specs_own_fault (symbol_in bytes.now symbol) ≡ None }
    ensures room { IfOk result (λ r. HaveRoom r.notes) }
    ensures read { IfOk result (λ r. ReadsOn bytes.now at symbol next
        (record { stage = stage; notes = notes }) r) }
    ensures fault { IfErr result (λ f. StopsAt bytes.now at symbol next
        (record { stage = stage; notes = notes }) f) }
{
    match step(alloc, bytes, stage, symbol) {
        Err(_) => Err(ParseFault::NoMemory),
        Ok(None) => Err(ParseFault::At {
            token: at,
            kind: LpKind::Syntax,
        }),
        Ok(Some((site, reached))) => {
            let seen = Seen { site, symbol, next };
            advance(alloc, bytes, reached, notes, at, seen)
        }
    }
}

/// Reads the next symbol, by the one behind it: its own fault stands first, then syntax, then what it names.
fn read_symbol(
    alloc: Global,
    bytes: &[u8],
    state: State,
    at: usize,
    symbol: Symbol,
    next: Option<Symbol>,
) -> Result<State, ParseFault>
    requires room { HaveRoom state.notes }
    requires named { IsNamed bytes.now symbol }
    ensures room { IfOk result (λ r. HaveRoom r.notes) }
    ensures read { IfOk result (λ r. ReadsOn bytes.now at symbol next state r) }
    ensures fault { IfErr result (λ f. StopsAt bytes.now at symbol next state f) }
{
    let State { stage, notes } = state;
    match own_fault(symbol) {
        Some(kind) => {
            let_go(stage);
            let_notes_go(notes);
            Err(ParseFault::At { token: at, kind })
        }
        None => read_fit(alloc, bytes, stage, notes, at, symbol, next),
    }
}

/// Reads a sign in place where a run of signs goes on, and tells whether it did; else nothing changes.
fn read_sign(state: &mut State, symbol: Symbol) -> Result<bool, ParseFault>
    requires room { HaveRoom state.old.notes }
    ensures read { IfOk result (λ read. read ≡ true →
        (text : List ℕ) (at : ℕ) (next : Option symbols.Symbol) →
        ReadsOn text at symbol next state.old state.new) }
    ensures other { IfOk result (λ read. read ≡ false → state.new ≡ state.old) }
    ensures notes { state.new.notes ≡ state.old.notes }
    ensures fault { IfErr result (λ f. f ≡ faults.NoMemory) }
{
    match symbol {
        Symbol::Sign(sign) => {
            let site = add_sign(&mut state.stage, sign)?;
            Ok(site.is_some())
        }
        _ => Ok(false),
    }
}

/// What is read at the end.
fn finish(state: State) -> Result<Parsed, ParseFault>
    ensures done { IfOk result (λ p. (state.stage ≡ stages.Done p.tree) × (p.notes ≡ state.notes)) }
    ensures fault { IfErr result (λ f. (f ≡ faults.NoEnd) ×
        ((tree : Tree) → state.stage ≡ stages.Done tree → ⊥)) }
{
    let State { stage, notes } = state;
    match stage {
        Stage::Done(tree) => Ok(Parsed { tree, notes }),
        other => {
            let_go(other);
            Err(ParseFault::NoEnd)
        }
    }
}

/// The tree of a text of at most 2^28 bytes that can be cut, with what is noted of its tokens; or the first fault of its symbols.
/// No more of them is kept than the tree.
pub fn parse(alloc: Global, limits: Limits, bytes: &[u8]) -> Result<Parsed, ParseFault>
    requires size { length bytes.now ≤ 2 ^ 28 }
    requires cut { HasCut bytes.now }
    ensures text { IfOk result (λ parsed. (tokens : List Tok) → Cut bytes.now tokens →
        IsParsed limits bytes.now (specs_symbols bytes.now tokens) parsed) }
    ensures fault { IfErr result (λ fault. (tokens : List Tok) → Cut bytes.now tokens →
        IsParseFault limits (specs_symbols bytes.now tokens) fault) }
{
    let mut state = State {
        stage: Stage::Start,
        notes: no_notes(alloc, limits),
    };
    let (mut current, mut cursor) = next_symbol(bytes, first_cursor());
    let mut at = 0;
    'read: while let Some(symbol) = current {
        let (next, further) = next_symbol(bytes, cursor);
        let here = at;
        current = next;
        cursor = further;
        at += 1;
        if !read_sign(&mut state, symbol)? {
            state = read_symbol(alloc, bytes, state, here, symbol, next)?;
        }
    }
    finish(state)
}
