// Plans of lots, whose stocks stand before what is produced, so that its graph takes them by the last row of each; and
// knapsacks with two limits.
use crate::ask::{Found, Kind, ask};
use crate::checks::check_none;
use crate::problem::{Given, block_of, firsts};
use block_program::Block;
use bp_theory::{Sense, Span};
use pricing_problem::{Cap, Priced, is_form};
use state_price::StatePricer;
use std::alloc::{AllocError, Global};
use std::test::Fail;

/// Costs and rows of a block.
type Plan = (&'static [i64], &'static [Given<'static>]);

/// The stocks behind four periods and what is produced in each, at 1 for what is in stock and at these costs for a piece:
/// stock before and what is produced, less stock behind, is what is asked for.
const LOTS: &Plan = &(
    &[1, 1, 1, 1, 2, 9, 9, 3],
    &[
        (&[-1, 0, 0, 0, 1, 0, 0, 0], Sense::Eq, [3, 3]),
        (&[1, -1, 0, 0, 0, 1, 0, 0], Sense::Eq, [1, 1]),
        (&[0, 1, -1, 0, 0, 0, 1, 0], Sense::Eq, [4, 4]),
        (&[0, 0, 1, -1, 0, 0, 0, 1], Sense::Eq, [2, 2]),
    ],
);

const STOCK: Span = Span { lo: 0, hi: 6 };

const PIECES: Span = Span { lo: 0, hi: 8 };

/// Any stock behind the second period, at most 3, and none.
const FREE: [Span; 8] = [STOCK, STOCK, STOCK, STOCK, PIECES, PIECES, PIECES, PIECES];

const UP_TO_3: [Span; 8] = [
    STOCK,
    Span { lo: 0, hi: 3 },
    STOCK,
    STOCK,
    PIECES,
    PIECES,
    PIECES,
    PIECES,
];

const NO_STOCK: [Span; 8] = [
    STOCK,
    Span { lo: 0, hi: 0 },
    STOCK,
    STOCK,
    PIECES,
    PIECES,
    PIECES,
    PIECES,
];

/// Items of a knapsack: costs, weights of at most 170, and volumes of at most 150. The cost of each is near to what it takes
/// up, so that none is far better than another.
const ITEMS: &Plan = &(
    &[
        -32, -28, -56, -29, -38, -47, -43, -29, -38, -34, -43, -16, -44, -53, -49, -35, -31, -40,
        -26, -22, -31, -59, -32, -41, -37, -46, -32, -28, -37, -33, -19, -47, -43, -52, -38, -34,
        -43, -39, -25, -34,
    ],
    &[
        (
            &[
                12, 18, 24, 7, 13, 19, 25, 8, 14, 20, 26, 9, 15, 21, 27, 10, 16, 22, 5, 11, 17, 23,
                6, 12, 18, 24, 7, 13, 19, 25, 8, 14, 20, 26, 9, 15, 21, 27, 10, 16,
            ],
            Sense::Le,
            [170, 170],
        ),
        (
            &[
                9, 7, 24, 22, 20, 18, 16, 14, 12, 10, 8, 6, 23, 21, 19, 17, 15, 13, 11, 9, 7, 24,
                22, 20, 18, 16, 14, 12, 10, 8, 6, 23, 21, 19, 17, 15, 13, 11, 9, 7,
            ],
            Sense::Le,
            [150, 150],
        ),
    ],
);

const BINARY: Span = Span { lo: 0, hi: 1 };

/// All items, and the first half.
const FORTY: [Span; 40] = [BINARY; 40];

const TWENTY: [Span; 20] = [BINARY; 20];

/// A zone, with which its block goes.
#[derive(Clone, Copy)]
enum Zone {
    Free,
    UpTo3,
    NoStock,
    Forty,
    Twenty,
}

// The spans of a zone.
fn spans_of(zone: Zone) -> &'static [Span] {
    match zone {
        Zone::Free => &FREE,
        Zone::UpTo3 => &UP_TO_3,
        Zone::NoStock => &NO_STOCK,
        Zone::Forty => &FORTY,
        Zone::Twenty => &TWENTY,
    }
}

// The zone of the whole block.
fn root_of(zone: Zone) -> Zone {
    match zone {
        Zone::Free | Zone::UpTo3 | Zone::NoStock => Zone::Free,
        Zone::Forty | Zone::Twenty => zone,
    }
}

// The costs and the rows of the block.
fn plan_of(zone: Zone) -> &'static Plan {
    match zone {
        Zone::Free | Zone::UpTo3 | Zone::NoStock => LOTS,
        Zone::Forty | Zone::Twenty => ITEMS,
    }
}

/// A pricer, its cap, the zone, and the least cost with the first four numbers of its point, where there is one such point
/// alone.
type Planned = (Kind, Cap, Zone, (i128, Option<[i64; 4]>));

/// A graph takes no visits.
const NO_VISITS: Cap = Cap::At(0);

const PLANNED: &[Planned] = &[
    (Kind::Graph, NO_VISITS, Zone::Free, (31, Some([5, 4, 0, 0]))),
    (
        Kind::Graph,
        NO_VISITS,
        Zone::UpTo3,
        (36, Some([4, 3, 0, 0])),
    ),
    (
        Kind::Graph,
        NO_VISITS,
        Zone::NoStock,
        (51, Some([1, 0, 0, 0])),
    ),
    // The least costs are those of a table over both limits.
    (Kind::Search, Cap::At(1_048_576), Zone::Forty, (-441, None)),
    (Kind::Search, Cap::At(20_000), Zone::Forty, (-441, None)),
    (Kind::Graph, NO_VISITS, Zone::Twenty, (-409, None)),
];

// Costs of a zone.
fn costs_of(alloc: Global, costs: &[i64]) -> Result<Vec<i128>, AllocError> {
    let mut all = Vec::new(alloc);
    for cost in costs {
        all.push(i128::from(*cost))?;
    }
    Ok(all)
}

// What a pricer answers.
fn answer(alloc: Global, planned: &Planned) -> Result<Found, AllocError> {
    let (own, rows) = *plan_of(planned.2);
    let root = spans_of(root_of(planned.2));
    let zone = spans_of(planned.2);
    let costs = costs_of(alloc, firsts(own, zone.len()))?;
    match block_of(alloc, root, own, rows)? {
        Some(block) => ask(alloc, planned.0, &block, zone, costs.as_slice(), planned.1),
        None => Ok(Found::Unfit),
    }
}

// Whether an answer is the wanted one.
fn is_wanted(found: &Found, wanted: &(i128, Option<[i64; 4]>)) -> bool {
    match (found, wanted.1) {
        (Found::Answer(Priced::Least(cost), point), Some(first)) => {
            *cost == wanted.0 && *point == first
        }
        (Found::Answer(Priced::Least(cost), _), None) => *cost == wanted.0,
        _ => false,
    }
}

// The place of a plan with another answer than the wanted one.
fn wrong(alloc: Global) -> Result<Option<usize>, AllocError> {
    let mut wrong = None;
    for (place, planned) in PLANNED.iter().enumerate() {
        let found = answer(alloc, planned)?;
        if !is_wanted(&found, &planned.3) {
            wrong = Some(place);
        }
    }
    Ok(wrong)
}

#[test]
fn each_plan_has_its_answer(rt: HostRuntime) -> Result<(), Fail> {
    check_none(&rt, wrong(rt.alloc()))
}

// Whether the graph of a block has less than half of the arcs that it took to make it.
fn is_merged(alloc: Global, block: &Block) -> Result<bool, AllocError> {
    if !is_form(block.rows(), block.spans()) {
        return Ok(false);
    }
    match StatePricer::make(alloc, block)? {
        Some(pricer) => Ok(pricer.arcs() < pricer.made() / 2),
        None => Ok(false),
    }
}

// How many items the graph of the first half is not merged for.
fn unmerged(alloc: Global) -> Result<Option<usize>, AllocError> {
    match block_of(alloc, &TWENTY, ITEMS.0, ITEMS.1)? {
        Some(block) if is_merged(alloc, &block)? => Ok(None),
        _ => Ok(Some(20)),
    }
}

#[test]
fn nodes_with_the_same_arcs_are_one(rt: HostRuntime) -> Result<(), Fail> {
    check_none(&rt, unmerged(rt.alloc()))
}
