// Rows to which the variables of the layers behind add the same, and their windows.
ghost use Rattle.std.specs.Prelude.{◌≡◌, ◌<◌, ◌↔◌, IfOk, IsTrue, All, length, vec_len, slice_set};
ghost use Rattle.std.specs.Bool.{OnTrue, OnFalse};
ghost use Rattle.bp_theory.specs.Program.{span_at};
ghost use Rattle.state_graph.specs.Windows.{IsJoined, IsVoid, IsEmpty, both};
ghost use Rattle.state_graph.specs.Columns.{IsTwin, AreRefined, AreFirst};

use crate::states::{mixed, place_at};
use bp_theory::{Items, Span};
use std::alloc::{AllocError, Global};

/// How many places of the table are looked at for a row.
const PROBES: usize = 16;

/// The twins behind the last variable, which is the first row for each of so many.
pub fn first_twins(alloc: Global, count: usize) -> Result<Items<usize>, AllocError>
    ensures { IfOk result (λ twins. AreFirst count twins) }
{
    let mut twins = Vec::new(alloc);
    for _ in 0..count {
        twins.push(0)?;
    }
    Ok(Items::from_vec(twins))
}

/// Whether two rows have the same coefficient and the same twin.
fn is_twin(twins: &[usize], column: &[i64], row: usize, other: usize) -> bool
    requires column { length column.now ≡ length twins.now }
    requires row { row < length twins.now }
    requires other { other < length twins.now }
    ensures { OnTrue result (IsTwin twins.now column.now row other) }
{
    column[other] == column[row] && twins[other] == twins[row]
}

/// A row before this one with the same coefficient and the same twin, as far as the table finds one, or this row, which is
/// then put into the table. The table is a hint: each row that it names is compared.
fn twin_of(table: &mut Vec<usize>, twins: &[usize], column: &[i64], row: usize) -> usize
    requires table { 0 < vec_len table.old }
    requires column { length column.now ≡ length twins.now }
    requires row { row < length twins.now }
    ensures table { vec_len table.new ≡ vec_len table.old }
    ensures twin { IsTwin twins.now column.now row result }
{
    let hash = mixed(mixed(0, twins[row] as u64), column[row].unsigned_abs());
    for step in 0..PROBES {
        let place = place_at(hash, step, table.len());
        let kept = table[place];
        if kept == 0 {
            table[place] = row + 1;
            return row;
        }
        if kept <= row && is_twin(twins, column, row, kept - 1) {
            return kept - 1;
        }
    }
    row
}

/// The twins with one variable more in front: rows with the same coefficient and the same twin before.
pub fn refined(alloc: Global, twins: &[usize], column: &[i64]) -> Result<Items<usize>, AllocError>
    requires { length column.now ≡ length twins.now }
    ensures { IfOk result (λ finer. AreRefined twins.now column.now finer) }
{
    let places = twins.len().saturating_mul(2).max(1);
    let mut table = Vec::from_elem(alloc, 0, places)?;
    let mut finer = Vec::new(alloc);
    for row in 0..twins.len() {
        let twin = twin_of(&mut table, twins, column, row);
        finer.push(twin)?;
    }
    Ok(Items::from_vec(finer))
}

/// What lies in both of two windows.
fn both(a: &Span, b: &Span) -> Span
    ensures { result ≡ both a.now b.now }
{
    Span {
        lo: a.lo.max(b.lo),
        hi: a.hi.min(b.hi),
    }
}

/// Whether nothing lies in a window.
fn is_empty(window: &Span) -> bool
    ensures { IsTrue result ↔ IsEmpty window.now }
{
    window.hi < window.lo
}

/// Leaves of a row's window what lies in that of another too. Tells whether anything does.
fn join_row(windows: &mut Vec<Span>, into: usize, other: usize) -> bool
    requires into { into < vec_len windows.old }
    requires other { other < vec_len windows.old }
    ensures room { vec_len windows.new ≡ vec_len windows.old }
    ensures joined { OnTrue result (windows.new.items ≡ slice_set windows.old.items into
        (both (span_at windows.old.items into) (span_at windows.old.items other))) }
    ensures empty { OnFalse result (IsEmpty
        (both (span_at windows.old.items into) (span_at windows.old.items other))) }
{
    let left = both(&windows[into], &windows[other]);
    if is_empty(&left) {
        return false;
    }
    windows[into] = left;
    true
}

/// Joins a row's window with that of its twin, into the twin's or into the row's own. Tells whether anything is left.
fn join_twin(windows: &mut Vec<Span>, twins: &[usize], row: usize, own: bool) -> bool
    requires room { vec_len windows.old ≡ length twins.now }
    requires below { All (λ twin. twin < length twins.now) twins.now }
    requires row { row < length twins.now }
    ensures room { vec_len windows.new ≡ vec_len windows.old }
    ensures joined { OnTrue result (IsJoined twins.now windows.old.items windows.new.items) }
    ensures empty { OnFalse result (IsVoid twins.now windows.old.items) }
{
    let twin = twins[row];
    if twin == row {
        return true;
    }
    if own {
        join_row(windows, row, twin)
    } else {
        join_row(windows, twin, row)
    }
}

/// Joins each row's window with that of its twin. Tells whether anything is left.
fn join_all(windows: &mut Vec<Span>, twins: &[usize], own: bool) -> bool
    requires room { vec_len windows.old ≡ length twins.now }
    requires below { All (λ twin. twin < length twins.now) twins.now }
    ensures room { vec_len windows.new ≡ vec_len windows.old }
    ensures joined { OnTrue result (IsJoined twins.now windows.old.items windows.new.items) }
    ensures empty { OnFalse result (IsVoid twins.now windows.old.items) }
{
    for row in 0..twins.len() {
        if !join_twin(windows, twins, row, own) {
            return false;
        }
    }
    true
}

/// Leaves of each window what lies in those of all rows with its twin. Tells whether anything is left.
pub fn join(windows: &mut Vec<Span>, twins: &[usize]) -> bool
    requires room { vec_len windows.old ≡ length twins.now }
    requires below { All (λ twin. twin < length twins.now) twins.now }
    ensures room { vec_len windows.new ≡ vec_len windows.old }
    ensures joined { OnTrue result (IsJoined twins.now windows.old.items windows.new.items) }
    ensures empty { OnFalse result (IsVoid twins.now windows.old.items) }
{
    if !join_all(windows, twins, false) {
        return false;
    }
    join_all(windows, twins, true)
}
