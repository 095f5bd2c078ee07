// The model that an LP text means, or its first fault.
ghost use Rattle.std.specs.Prelude.{◌≡◌, ◌+◌, ◌≤◌, ◌^◌, List, length, count_by, slice_index_or, IfOk, IfErr};
ghost use Rattle.bp_theory.specs.Limits.{most_bytes};
ghost use Rattle.lp_token.specs.declared.Tok.{Tok};
ghost use Rattle.lp_token.specs.Cut.{Cut, HasCut, is_line_feed, line_at};
ghost use Rattle.lp_syntax.specs.Symbols.{symbols};
ghost use Rattle.lp_syntax.specs.TreeIn.{tree_in};
ghost use Rattle.lp_syntax.specs.Roles as roles;
ghost use Rattle.lp_semantics.specs.Meaning.{tokens_of};
ghost use Rattle.lp_semantics.specs.PartsOf.{IsTextOfSome, IsRefused, IsModelOf};
ghost use Rattle.lp_read.specs.Parsing.{IsParsed};
ghost use Rattle.lp_semantics.specs.Model.{Means, IsFaultOf};

use crate::lines::line_of;
use crate::notes::{Notes, ParseFault};
use crate::parse::{Parsed, parse};
use bp_model::Model;
use bp_theory::{Items, Limits};
use lp_semantics::{MeaningFault, model_of};
use lp_syntax::Tree;
use lp_token::{LpFault, LpKind, check_cut};
use name_table::NameTable;
use std::alloc::Global;

/// The model that an LP text means under limits, or the text's first fault: its size, the first byte that can't be cut, the first
/// token at fault, a lack of the word `end`, and then what the text means.
pub fn read_lp(alloc: Global, limits: Limits, bytes: &[u8]) -> Result<Model, LpFault>
    ensures read { IfOk result (λ model. Means limits bytes.now model) }
    ensures fault { IfErr result (λ fault. IsFaultOf limits bytes.now fault) }
{
    if bytes.len() > limits.bytes() {
        return Err(LpFault::At {
            line: 0,
            kind: LpKind::Limit,
        });
    }
    match check_cut(bytes) {
        Ok(()) => read_cut(alloc, limits, bytes),
        Err(fault) => Err(fault),
    }
}

/// The model of a text that can be cut, or its first fault.
fn read_cut(alloc: Global, limits: Limits, bytes: &[u8]) -> Result<Model, LpFault>
    requires size { length bytes.now ≤ most_bytes limits }
    requires cut { HasCut bytes.now }
    ensures read { IfOk result (λ model. Means limits bytes.now model) }
    ensures fault { IfErr result (λ fault. IsFaultOf limits bytes.now fault) }
{
    match parse(alloc, limits, bytes) {
        Ok(parsed) => read_tree(alloc, limits, bytes, parsed),
        Err(ParseFault::At { token, kind }) => Err(LpFault::At {
            line: line_of(bytes, token),
            kind,
        }),
        Err(ParseFault::NoEnd) => Err(LpFault::At {
            line: last_line(bytes),
            kind: LpKind::NoEnd,
        }),
        Err(ParseFault::NoMemory) => Err(LpFault::NoMemory),
    }
}

/// The model of a text's tree, or the tree's first fault.
fn read_tree(alloc: Global, limits: Limits, bytes: &[u8], parsed: Parsed) -> Result<Model, LpFault>
    requires size { length bytes.now ≤ most_bytes limits }
    requires cut { HasCut bytes.now }
    requires parsed { (tokens : List Tok) → Cut bytes.now tokens →
        IsParsed limits bytes.now (symbols bytes.now tokens) parsed }
    ensures read { IfOk result (λ model. Means limits bytes.now model) }
    ensures fault { IfErr result (λ fault. IsFaultOf limits bytes.now fault) }
{
    let Parsed { tree, notes } = parsed;
    let Notes {
        names,
        first_tokens,
        row_names,
        row_tokens,
        terms: _,
        limits: _,
    } = notes;
    match model_of_tree(alloc, limits, bytes, tree, names, row_names) {
        Ok(model) => Ok(model),
        Err(MeaningFault::At { variable, kind }) => Err(LpFault::At {
            line: line_of(bytes, place_at(&first_tokens, variable)),
            kind,
        }),
        Err(MeaningFault::Sums(None)) => Err(LpFault::At {
            line: line_of(bytes, 0),
            kind: LpKind::Activity,
        }),
        Err(MeaningFault::Sums(Some(row))) => Err(LpFault::At {
            line: line_of(bytes, place_at(&row_tokens, row)),
            kind: LpKind::Activity,
        }),
        Err(MeaningFault::NoMemory) => Err(LpFault::NoMemory),
    }
}

/// The model that a text's tree means, or its first fault, by which time the tree is let go.
fn model_of_tree(
    alloc: Global,
    limits: Limits,
    text: &[u8],
    tree: Tree,
    names: NameTable,
    row_names: NameTable,
) -> Result<Model, MeaningFault>
    requires text_of { IsTextOfSome limits text.now (tree_in text.now tree) }
    requires variables { names ≡ roles.variables (tokens_of (tree_in text.now tree)) }
    requires row_names { row_names ≡ roles.row_names (tokens_of (tree_in text.now tree)) }
    ensures model { IfOk result (IsModelOf limits (tree_in text.now tree)) }
    ensures fault { IfErr result (IsRefused limits (tree_in text.now tree)) }
{
    model_of(alloc, limits, text, &tree, names, row_names)
}

/// The place of a number, 0 where there is none.
fn place_at(places: &Items<usize>, number: u32) -> usize
    ensures { result ≡ slice_index_or places.now number 0 }
{
    match places.as_slice().get(number as usize) {
        Some(place) => *place,
        None => 0,
    }
}

/// How many line feeds a text has.
fn line_feeds(bytes: &[u8]) -> usize
    ensures count { result ≡ count_by is_line_feed bytes.now }
    ensures few { result ≤ length bytes.now }
{
    bytes.iter().filter(|b| **b == b'\n').count()
}

/// The line of a text's end.
fn last_line(bytes: &[u8]) -> u32
    requires { length bytes.now ≤ 2 ^ 28 }
    ensures { result ≡ line_at bytes.now (length bytes.now) }
{
    1 + line_feeds(bytes) as u32
}
