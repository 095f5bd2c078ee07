// Points: what they cost, and what is done with a zone of one point.
ghost use Rattle.std.specs.Prelude.{◌≡◌, ◌<◌, length, map, pos, negsuc, int_lt, if◌then◌else◌, Some, slice_index_or, IfOk, IfSome, MatchOption};
ghost use Rattle.bp_theory.specs.Program.{IsFeasible, IsInside, activity, cost};
ghost use Rattle.bp_theory.specs.declared.Row as rows;
ghost use Rattle.bp_theory.specs.declared.Span as span_type;
ghost use Rattle.bp_theory.specs.Trees.{zone_of};
ghost use Rattle.block_program.specs.Blocked.{IsFormed};
ghost use Rattle.branch_tree.specs.Turns.{IsTurn};
ghost use Rattle.search_laws.specs.GroveFacts.{best_cost, IsNoDearer};
ghost use Rattle.search_laws.specs.Verdicts.{IsVerdict, IsThorough, cheaper_cost};
ghost use Rattle.node_bound.specs.Shown.{IsOnePoint, ShutsOff, IsBetter, IsMissed, closing_sign};

use crate::proofs::{by_block, by_row, plain};
use block_program::Blocked;
use bp_model::{Miss, activity};
use bp_theory::{Items, Proof, Row, Sense, Span};
use branch_tree::{Next, Turn, Verdict};
use std::alloc::{AllocError, Global};

/// What is done with a zone of one point: it is shut, and its point is told where it is feasible and cheaper.
pub fn one_point(
    alloc: Global,
    b: &Blocked,
    turn: &Turn,
    best: Option<i64>,
) -> Result<Verdict, AllocError>
    requires formed { IsFormed b.now }
    requires turn { IsTurn b.now turn.now }
    requires one { IsOnePoint turn.now.zone }
    ensures verdict { IfOk result (IsVerdict b.now.named.program b.now.blocking turn.now.depth
        turn.now.zone turn.now.bound best) }
    ensures thorough { IfOk result (λ verdict. IsThorough b.now.blocking turn.now.zone
        verdict.next) }
{
    let point = low_ends(alloc, turn.zone.spans())?;
    match missed_row(b, point.as_slice()) {
        None => Ok(reached(alloc, b, turn, Items::from_vec(point), best)),
        Some(row) => {
            let proof = missed_proof(alloc, b, point.as_slice(), row)?;
            Ok(Verdict {
                point: None,
                next: Next::Shut(proof),
            })
        }
    }
}

// The verdict on a zone of one feasible point.
fn reached(alloc: Global, b: &Blocked, turn: &Turn, point: Items<i64>, best: Option<i64>) -> Verdict
    requires formed { IsFormed b.now }
    requires feasible { IsFeasible b.now.named.program point }
    requires one { turn.now.zone ≡ zone_of point }
    ensures verdict { IsVerdict b.now.named.program b.now.blocking turn.now.depth turn.now.zone
        turn.now.bound best result }
    ensures thorough { IsThorough b.now.blocking turn.now.zone result.next }
{
    Verdict {
        point: if_better(b, point, best),
        next: Next::Shut(plain(alloc)),
    }
}

/// A feasible point, if it is cheaper than a given cost.
pub fn if_better(b: &Blocked, point: Items<i64>, best: Option<i64>) -> Option<Items<i64>>
    requires { IsFeasible b.now.named.program point }
    ensures better { IfSome result (IsBetter b.now.named.program best) }
    ensures known { IsNoDearer (cheaper_cost (best_cost b.now.named.program result) best)
        (Some (cost b.now.named.program point)) }
{
    let cost = b.model().cost(point.as_slice());
    match best {
        Some(best) if cost >= best => None,
        _ => Some(point),
    }
}

// The lower ends of spans.
fn low_ends(alloc: Global, spans: &[Span]) -> Result<Vec<i64>, AllocError>
    ensures { IfOk result (λ point. point.items ≡ map (λ (s : span_type.Span). s.lo) spans.now) }
{
    spans.iter().map(|span| span.lo).collect(alloc)
}

// The first row that a point within the spans misses.
fn missed_row(b: &Blocked, point: &[i64]) -> Option<u32>
    requires { IsInside b.now.named.program.spans point.now }
    ensures { MatchOption result (IsFeasible b.now.named.program point.now)
        (IsMissed b.now.named.program point.now) }
{
    match b.model().misses(point) {
        None => None,
        Some(Miss::Row(row)) => Some(row),
        Some(Miss::Length) => None,
        Some(Miss::Bound(_)) => None,
    }
}

// The proof that a point's zone is empty, by a row that it misses: by a multiplier of a master row, or by the block.
fn missed_proof(alloc: Global, b: &Blocked, point: &[i64], row: u32) -> Result<Proof, AllocError>
    requires formed { IsFormed b.now }
    requires inside { IsInside b.now.named.program.spans point.now }
    requires missed { IsMissed b.now.named.program point.now row }
    ensures { IfOk result (ShutsOff b.now.blocking (zone_of point.now)) }
{
    match b.row_place(row) {
        None => {
            let sign = sign(b, point, row);
            by_row(alloc, row, sign)
        }
        Some(block) => by_block(alloc, block),
    }
}

// The sign by which a missed row closes its point.
fn sign(b: &Blocked, point: &[i64], row: u32) -> i64
    requires inside { IsInside b.now.named.program.spans point.now }
    requires there { row < length b.now.named.program.rows }
    ensures { (d : rows.Row) → let full = slice_index_or b.now.named.program.rows row d in
        result ≡ closing_sign full.sense full.low (activity full.terms point.now) }
{
    let row = &b.model().all_rows()[row as usize];
    let sum = activity(row.terms.as_slice(), point);
    closing_sign(row, &sum)
}

// The sign by which a sum that misses a row closes its point.
fn closing_sign(row: &Row, sum: &i128) -> i64
    ensures { result ≡ closing_sign row.now.sense row.now.low sum.now }
{
    match row.sense {
        Sense::Le => -1,
        Sense::Ge => 1,
        Sense::Eq => below(&row.low, sum),
        Sense::In => below(&row.low, sum),
    }
}

// One where a sum is below the lower side, and else less one.
fn below(low: &i64, sum: &i128) -> i64
    ensures { result ≡ (if int_lt sum.now low.now then pos 1 else negsuc 0) }
{
    if *sum < i128::from(*low) { 1 } else { -1 }
}
