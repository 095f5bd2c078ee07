// Problems of at most four variables and three rows that a simple generator draws.
use crate::ask::Kind;
use crate::checks::check_none;
use crate::problem::{Line, Problem, ZERO};
use crate::tried::agrees;
use bp_theory::{Sense, Span};
use pricing_problem::Cap;
use std::alloc::{AllocError, Global};
use std::test::Fail;

/// How many problems are drawn for each pricer.
const DRAWN: usize = 2000;

// The next number of the generator.
fn draw(seed: &mut u64) -> u64 {
    *seed = seed
        .wrapping_mul(6_364_136_223_846_793_005)
        .wrapping_add(1_442_695_040_888_963_407);
    *seed >> 33
}

// A number from -3 to 3.
fn draw_coef(seed: &mut u64) -> i64 {
    (draw(seed) % 7) as i64 - 3
}

// A side from -6 to 6.
fn draw_side(seed: &mut u64) -> i64 {
    (draw(seed) % 13) as i64 - 6
}

// A sense.
fn draw_sense(seed: &mut u64) -> Sense {
    match draw(seed) % 4 {
        0 => Sense::Le,
        1 => Sense::Ge,
        2 => Sense::Eq,
        _ => Sense::In,
    }
}

// A row of so many variables; one without terms and one whose lower side is above the upper come too.
fn draw_line(seed: &mut u64, vars: usize) -> Line {
    let mut coefs = [0; 4];
    for k in 0..4 {
        if k < vars {
            coefs[k] = draw_coef(seed);
        }
    }
    let sense = draw_sense(seed);
    let rhs = draw_side(seed);
    let other = draw_side(seed);
    let low = match sense {
        Sense::Eq => rhs,
        Sense::Le | Sense::Ge | Sense::In => other,
    };
    Line {
        coefs,
        sense,
        low,
        rhs,
    }
}

// A span of one to four numbers.
fn draw_span(seed: &mut u64) -> Span {
    let lo = (draw(seed) % 4) as i64 - 2;
    let wide = (draw(seed) % 4) as i64;
    Span {
        lo,
        hi: lo.wrapping_add(wide),
    }
}

// A span within a span.
fn draw_part(seed: &mut u64, root: &Span) -> Span {
    let other = draw_span(seed);
    let lo = other.lo.max(root.lo);
    let hi = other.hi.min(root.hi);
    if lo <= hi { Span { lo, hi } } else { *root }
}

// A cost from -9 to 9.
fn draw_cost(seed: &mut u64) -> i128 {
    (draw(seed) % 19) as i128 - 9
}

// A problem of one to four variables, with so many of three rows.
fn draw_problem(seed: &mut u64, rows: usize) -> Problem {
    let vars = 1 + (draw(seed) % 4) as usize;
    let lines = [
        draw_line(seed, vars),
        draw_line(seed, vars),
        draw_line(seed, vars),
    ];
    let mut root = [ZERO; 4];
    let mut zone = [ZERO; 4];
    let mut costs = [0; 4];
    for k in 0..4 {
        if k < vars {
            root[k] = draw_span(seed);
            zone[k] = draw_part(seed, &root[k]);
            costs[k] = draw_cost(seed);
        }
    }
    Problem {
        vars,
        rows,
        root,
        lines,
        zone,
        costs,
    }
}

// Gives each row the first one's coefficients of the variables behind the second, and so the same sums there.
fn join(problem: &mut Problem) {
    let coefs = problem.lines[0].coefs;
    for k in 1..3 {
        problem.lines[k].coefs[2] = coefs[2];
        problem.lines[k].coefs[3] = coefs[3];
    }
}

// How many rows there are: a table takes one, the others none to three.
fn draw_rows(seed: &mut u64, kind: Kind) -> usize {
    match kind {
        Kind::Table => 1,
        Kind::Graph | Kind::Search => (draw(seed) % 4) as usize,
    }
}

// The last drawn problem to which a pricer answers otherwise than all points tried. In every second one the rows are joined.
fn last_wrong(alloc: Global, kind: Kind, cap: Cap) -> Result<Option<usize>, AllocError> {
    let mut seed = 7;
    let mut wrong = None;
    for number in 0..DRAWN {
        let rows = draw_rows(&mut seed, kind);
        let mut problem = draw_problem(&mut seed, rows);
        if number % 2 == 1 {
            join(&mut problem);
        }
        if !agrees(alloc, kind, &problem, cap)? {
            wrong = Some(number);
        }
    }
    Ok(wrong)
}

#[test]
fn tables_answer_what_all_points_tried_give(rt: HostRuntime) -> Result<(), Fail> {
    check_none(&rt, last_wrong(rt.alloc(), Kind::Table, Cap::Never))
}

#[test]
fn graphs_answer_what_all_points_tried_give(rt: HostRuntime) -> Result<(), Fail> {
    check_none(&rt, last_wrong(rt.alloc(), Kind::Graph, Cap::At(0)))
}

#[test]
fn searches_answer_what_all_points_tried_give(rt: HostRuntime) -> Result<(), Fail> {
    check_none(&rt, last_wrong(rt.alloc(), Kind::Search, Cap::Never))
}
