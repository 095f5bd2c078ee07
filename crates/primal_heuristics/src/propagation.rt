// A search for a feasible point by tightening spans and narrowing them further where a guide points to, depth first: the
// point is a hint, which the model judges.
use crate::guide::{Guide, Order};
use crate::incumbent::{feasible_cost, is_below};
use crate::reach::{has_lower, has_upper, sum_at};
use crate::spans::{Spans, cheap_end, set, take_back, tighten};
use block_program::Blocked;
use bp_theory::{Row, Span};
use branch_tree::Turn;
use std::alloc::{AllocError, Global};

/// How many nodes are visited while no point is known, and otherwise.
const FIRST_VISITS: u32 = 500;

const VISITS: u32 = 200;

/// How many terms are looked at in all.
const EFFORT: u64 = 20_000_000;

// A variable whose span was narrowed in a search.
#[derive(Clone, Copy)]
struct Choice {
    // The variable.
    var: u32,
    // The other part of its span, which is still to be tried.
    other: Span,
    // How many changes of spans came before.
    changes: usize,
}

// A variable whose span is to be narrowed.
#[derive(Clone, Copy)]
struct Split {
    // The variable.
    var: u32,
    // The part of its span that is tried first.
    first: Span,
    // The other part.
    other: Span,
}

// A depth-first search for a point.
#[derive(Drop)]
struct Search {
    // The spans of the node at hand, tightened.
    spans: Spans,
    // The choices that lead to it, from the root on.
    choices: Vec<Choice>,
    // The cheapest cost that is known, where there is one, in ones.
    known: Option<i64>,
    // A feasible point of that cost, by variable, where it was found here.
    found: Option<Vec<i64>>,
    // How many terms all rows have.
    terms: u64,
    // How many terms were looked at.
    effort: u64,
}

// What a node is.
#[derive(Clone, Copy)]
enum Node {
    Empty,
    Point,
    Open(Split),
}

/// The cheapest point in a leaf's zone that was found and is feasible and cheaper than a known cost, which is in ones.
pub fn search_point(
    alloc: Global,
    b: &Blocked,
    turn: &Turn,
    guide: &Guide,
    known: Option<i64>,
) -> Result<Option<Vec<i64>>, AllocError> {
    let mut search = Search {
        spans: Spans::make(alloc, b, turn.zone.spans())?,
        choices: Vec::new(alloc),
        known,
        found: None,
        terms: terms_of(b),
        effort: 0,
    };
    for _ in 0..visits(turn, known) {
        if search.effort.saturating_add(search.spans.looked) > EFFORT
            || !go_on(alloc, b, guide, &mut search)?
        {
            break;
        }
    }
    Ok(search.found)
}

// How many terms all rows have.
fn terms_of(b: &Blocked) -> u64 {
    let mut many: u64 = 0;
    for row in b.model().all_rows() {
        many = many.saturating_add(row.terms.len() as u64);
    }
    many
}

// Visits a node, and goes on to the next; whether there is one.
fn go_on(
    alloc: Global,
    b: &Blocked,
    guide: &Guide,
    search: &mut Search,
) -> Result<bool, AllocError> {
    match visit(b, guide, search)? {
        Node::Open(split) => {
            narrow(search, split)?;
            Ok(true)
        }
        Node::Point => {
            let point = cheap_ends(alloc, guide, search.spans.now.as_slice())?;
            keep_cheaper(b, search, point);
            turn_back(search)
        }
        Node::Empty => turn_back(search),
    }
}

// Keeps a point, if it is feasible and cheaper than what is known.
fn keep_cheaper(b: &Blocked, search: &mut Search, point: Vec<i64>) {
    if let Some(cost) = feasible_cost(b, point.as_slice()) {
        if is_below(cost, search.known) {
            search.known = Some(cost);
            search.found = Some(point);
        }
    }
}

// How many nodes are visited.
fn visits(turn: &Turn, known: Option<i64>) -> u32 {
    if turn.depth == 0 || known.is_none() {
        FIRST_VISITS
    } else {
        VISITS
    }
}

// Narrows a span to the part that is tried first.
fn narrow(search: &mut Search, split: Split) -> Result<(), AllocError> {
    search.choices.push(Choice {
        var: split.var,
        other: split.other,
        changes: search.spans.before.len(),
    })?;
    set(&mut search.spans, split.var, split.first)
}

// Goes back to the last choice and takes the other part; whether there was one.
fn turn_back(search: &mut Search) -> Result<bool, AllocError> {
    match search.choices.pop() {
        None => Ok(false),
        Some(choice) => {
            take_back(&mut search.spans, choice.changes);
            set(&mut search.spans, choice.var, choice.other)?;
            Ok(true)
        }
    }
}

// Tightens the spans, and tells whether no point is left, the cheap ends are a point, or which span to narrow.
fn visit(b: &Blocked, guide: &Guide, search: &mut Search) -> Result<Node, AllocError> {
    search.effort = search.effort.saturating_add(search.terms);
    if tighten(b, search.known, &mut search.spans)? {
        Ok(node_of(b, guide, &search.spans))
    } else {
        Ok(Node::Empty)
    }
}

// The split that is needed most urgently by a row that the cheap ends miss. Among rows that are alike it is the one of the
// greatest multiplier.
fn node_of(b: &Blocked, guide: &Guide, spans: &Spans) -> Node {
    let mut most: i128 = 0;
    let mut chosen = None;
    for number in 0..b.model().rows() {
        let row = b.model().row(number);
        if let Some(more) = missed(row, spans.cheap_sum(number)) {
            match need_of(row, guide, spans.now.as_slice(), more) {
                None => return Node::Empty,
                Some(need) => {
                    let price = sum_at(guide.prices.as_slice(), number as usize);
                    let urgency = need.urgency.saturating_add(price);
                    if chosen.is_none() || urgency > most {
                        most = urgency;
                        chosen = Some(need.split);
                    }
                }
            }
        }
    }
    match chosen {
        None => Node::Point,
        Some(split) => Node::Open(split),
    }
}

// For a row that a sum misses, whether the sum is to be more.
fn missed(row: &Row, sum: i128) -> Option<bool> {
    if has_lower(row) && sum < i128::from(row.low) {
        Some(true)
    } else if has_upper(row) && sum > i128::from(row.rhs) {
        Some(false)
    } else {
        None
    }
}

// A split that helps a row.
#[derive(Clone, Copy)]
struct Need {
    // The split.
    split: Split,
    // How much more it is wanted than the next one of the row: the greater the more urgent.
    urgency: i128,
}

// The split that helps a row and is wanted most.
fn need_of(row: &Row, guide: &Guide, spans: &[Span], more: bool) -> Option<Need> {
    let mut chosen = None;
    let mut most = i128::MIN;
    let mut next = i128::MIN;
    let mut open: i128 = 0;
    for term in row.terms.as_slice() {
        if let Some(span) = spans.get(term.var as usize) {
            if span.lo < span.hi {
                open = open.saturating_add(1);
            }
            let up = more == (term.coef > 0);
            let from_below = cheap_end(span, cost_of(guide, term.var)) == span.lo;
            if span.lo < span.hi && from_below == up {
                let want = want_of(guide, term.var, up);
                if chosen.is_none() || want > most {
                    next = most;
                    most = want;
                    chosen = Some(halves(term.var, span, up));
                } else {
                    next = next.max(want);
                }
            }
        }
    }
    match chosen {
        None => None,
        Some(split) => Some(Need {
            split,
            urgency: match guide.order {
                Order::Urgent => most.saturating_sub(next),
                Order::Scarce => open.saturating_neg(),
            },
        }),
    }
}

// How much more, or less, of a variable is wanted.
fn want_of(guide: &Guide, var: u32, up: bool) -> i128 {
    match guide.wants.as_slice().get(var as usize) {
        None => 0,
        Some(want) if up => *want,
        Some(want) => want.saturating_neg(),
    }
}

// A span halved, with the upper or the lower half first.
fn halves(var: u32, span: &Span, up: bool) -> Split {
    let width = span.hi.saturating_sub(span.lo);
    let part = if up { width.saturating_sub(1) } else { width };
    let middle = span.lo.saturating_add(part / 2);
    let low = Span {
        lo: span.lo,
        hi: middle,
    };
    let high = Span {
        lo: middle.saturating_add(1),
        hi: span.hi,
    };
    if up {
        Split {
            var,
            first: high,
            other: low,
        }
    } else {
        Split {
            var,
            first: low,
            other: high,
        }
    }
}

// The cost of a variable.
fn cost_of(guide: &Guide, var: u32) -> i64 {
    match guide.costs.as_slice().get(var as usize) {
        None => 0,
        Some(cost) => *cost,
    }
}

// The cheap ends of all spans.
fn cheap_ends(alloc: Global, guide: &Guide, spans: &[Span]) -> Result<Vec<i64>, AllocError> {
    let mut point = Vec::new(alloc);
    let mut var: u32 = 0;
    for span in spans {
        point.push(cheap_end(span, cost_of(guide, var)))?;
        var = var.saturating_add(1);
    }
    Ok(point)
}
