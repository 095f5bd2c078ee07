// Models of parts: worked values of the limits, and each call once with ample memory.
use crate::lp_texts::short;
use crate::tables::{add, check, check_none};
use bp_model::{Items, Miss, Model, ModelFault, NameList, Parts, Row, Sense, Span, Term};
use bp_theory::Limits;
use name_table::{IndexedModel, NameTable};
use std::alloc::{AllocError, Global};
use std::test::Fail;

// A span's ends that are the greatest numbers of texts.
const MOST: i64 = (1 << 62) - 1;

/// Ends of spans, and how many of these there are.
type Spans = (i64, i64, u32);

/// Terms of a row or of costs.
#[derive(Clone, Copy)]
enum Terms {
    /// None.
    No,
    /// A term of coefficient 0.
    Zero,
    /// A term of coefficient 2.
    Two,
    /// A term that is at most 2^61 - 1.
    Half,
    /// Two terms whose sum leaves 62 bits.
    Large,
    /// Terms of three variables, some of which add up and some of which leave nothing.
    Added,
}

// The variables and the coefficients of terms.
fn terms_of(terms: Terms) -> &'static [(u32, i64)] {
    match terms {
        Terms::No => &[],
        Terms::Zero => &[(0, 0)],
        Terms::Two => &[(0, 2)],
        Terms::Half => &[(0, 2_305_843_009_213_693_951)],
        Terms::Large => &[(0, i64::MAX), (0, i64::MAX)],
        Terms::Added => &[(2, 5), (1, 1), (0, 7), (2, -3), (1, -1)],
    }
}

/// Parts of a model: spans, how many rows of these terms with what their sums are at most, how many times these terms are
/// costs with their constant; and what the model is refused for.
type Case = (
    [Spans; 2],
    (u32, Terms, i64),
    (u32, Terms, i128),
    Option<ModelFault>,
);

const NO_SPANS: Spans = (0, 0, 0);

const BIT: [Spans; 2] = [(0, 1, 1), NO_SPANS];

const NO_ROWS: (u32, Terms, i64) = (0, Terms::No, 0);

const NO_COSTS: (u32, Terms, i128) = (0, Terms::No, 0);

const LARGE: (u32, Terms, i64) = (1, Terms::Large, 0);

/// A span for each of three variables, and a row and costs of the same terms.
const ADDED_UP: Case = (
    [(0, 3, 3), NO_SPANS],
    (1, Terms::Added, 20),
    (1, Terms::Added, 4),
    None,
);

/// A variable that costs 2, and a constant.
const PAID: Case = ([(-5, 3, 1), NO_SPANS], NO_ROWS, (1, Terms::Two, 7), None);

const ACTIVITY: Option<ModelFault> = Some(ModelFault::Activity(Some(0)));

const OBJECTIVE: Option<ModelFault> = Some(ModelFault::Activity(None));

const LIMIT: Option<ModelFault> = Some(ModelFault::Limit);

const CASES: [Case; 18] = [
    // An activity is at its limit.
    (
        BIT,
        (1, Terms::Half, 2_305_843_009_213_693_951),
        NO_COSTS,
        None,
    ),
    (
        BIT,
        (1, Terms::Half, 2_305_843_009_213_693_952),
        NO_COSTS,
        None,
    ),
    (
        BIT,
        (1, Terms::Half, 2_305_843_009_213_693_953),
        NO_COSTS,
        ACTIVITY,
    ),
    // The objective is refused before a row.
    (BIT, LARGE, (0, Terms::No, MOST as i128), ACTIVITY),
    (BIT, LARGE, (0, Terms::No, MOST as i128 + 1), OBJECTIVE),
    (BIT, LARGE, (0, Terms::No, -(MOST as i128)), ACTIVITY),
    (BIT, LARGE, (0, Terms::No, i128::MIN), OBJECTIVE),
    // Binary digits: 132 times 62 are 8,184, and 255 has 8 more.
    ([(0, MOST, 132), (0, 127, 1)], NO_ROWS, NO_COSTS, None),
    ([(0, MOST, 132), (0, 255, 1)], NO_ROWS, NO_COSTS, None),
    (
        [(0, MOST, 132), (0, 256, 1)],
        NO_ROWS,
        NO_COSTS,
        Some(ModelFault::Bits),
    ),
    // The first crossed span is refused.
    (
        [(0, 0, 1), (1, 0, 2)],
        NO_ROWS,
        NO_COSTS,
        Some(ModelFault::Crossed(1)),
    ),
    // Ends are numbers of texts.
    ([(-MOST, MOST, 1), NO_SPANS], NO_ROWS, NO_COSTS, None),
    (
        [(MOST + 1, MOST + 1, 1), NO_SPANS],
        NO_ROWS,
        NO_COSTS,
        LIMIT,
    ),
    ([(-MOST - 1, 0, 1), NO_SPANS], NO_ROWS, NO_COSTS, LIMIT),
    // Variables, rows and terms have limits.
    (
        [(0, 0, 4096), NO_SPANS],
        (8192, Terms::No, 0),
        (65_536, Terms::Zero, 0),
        None,
    ),
    (
        [(0, 0, 4097), NO_SPANS],
        (8192, Terms::No, 0),
        (65_536, Terms::Zero, 0),
        LIMIT,
    ),
    (
        [(0, 0, 4096), NO_SPANS],
        (8193, Terms::No, 0),
        (65_536, Terms::Zero, 0),
        LIMIT,
    ),
    (
        [(0, 0, 4096), NO_SPANS],
        (8192, Terms::No, 0),
        (65_537, Terms::Zero, 0),
        LIMIT,
    ),
];

// Parts without any.
fn nothing(alloc: Global, constant: i128) -> Result<Parts, AllocError> {
    Ok(Parts {
        names: names(alloc, 0)?,
        row_names: names(alloc, 0)?,
        spans: Items::new(alloc),
        rows: Items::new(alloc),
        costs: Items::new(alloc),
        constant,
        maximises: false,
        limits: Limits::Usual,
    })
}

// So many names: `v0`, `v1` and so on.
fn names(alloc: Global, count: usize) -> Result<NameList, AllocError> {
    let mut names = NameTable::new(alloc);
    for number in 0..count {
        if names.len() == u32::MAX {
            break;
        }
        names.add(alloc, format!(in alloc; "v{number}")?.as_str())?;
    }
    names.into_list(alloc)
}

// More spans.
fn add_spans(parts: &mut Parts, spans: Spans) -> Result<(), AllocError> {
    for _ in 0..spans.2 {
        parts.spans.push(Span {
            lo: spans.0,
            hi: spans.1,
        })?;
    }
    Ok(())
}

// More terms.
fn add_terms(all: &mut Items<Term>, terms: &[(u32, i64)]) -> Result<(), AllocError> {
    for (var, coef) in terms {
        all.push(Term {
            var: *var,
            coef: *coef,
        })?;
    }
    Ok(())
}

// A row whose sum is at most a number.
fn at_most(alloc: Global, terms: &[(u32, i64)], rhs: i64) -> Result<Row, AllocError> {
    let mut all = Items::new(alloc);
    add_terms(&mut all, terms)?;
    Ok(Row {
        sense: Sense::Le,
        low: rhs,
        rhs,
        terms: all,
    })
}

// More rows.
fn add_rows(alloc: Global, parts: &mut Parts, rows: (u32, Terms, i64)) -> Result<(), AllocError> {
    for _ in 0..rows.0 {
        parts.rows.push(at_most(alloc, terms_of(rows.1), rows.2)?)?;
    }
    Ok(())
}

// More costs.
fn add_costs(parts: &mut Parts, costs: (u32, Terms, i128)) -> Result<(), AllocError> {
    for _ in 0..costs.0 {
        add_terms(&mut parts.costs, terms_of(costs.1))?;
    }
    Ok(())
}

// Adds the parts of a case.
fn add_parts(alloc: Global, parts: &mut Parts, case: &Case) -> Result<(), AllocError> {
    add_spans(parts, case.0[0])?;
    add_spans(parts, case.0[1])?;
    add_rows(alloc, parts, case.1)?;
    add_costs(parts, case.2)
}

// The parts of a case.
fn parts_of(alloc: Global, case: &Case) -> Result<Parts, AllocError> {
    let mut parts = nothing(alloc, case.2.2)?;
    add_parts(alloc, &mut parts, case)?;
    parts.names = names(alloc, parts.spans.len())?;
    parts.row_names = names(alloc, parts.rows.len())?;
    Ok(parts)
}

// What the model of a case is refused for.
fn refusal(alloc: Global, case: &Case) -> Result<Option<ModelFault>, AllocError> {
    let parts = parts_of(alloc, case)?;
    if !parts.are_fitting() {
        return Ok(Some(ModelFault::NoMemory));
    }
    match Model::make(alloc, parts) {
        Ok(_) => Ok(None),
        Err(fault) => Ok(Some(fault)),
    }
}

// The places of the cases in which it is something else.
fn wrong(alloc: Global) -> Result<String, AllocError> {
    let mut all = String::new(alloc);
    for place in 0..18 {
        let case = CASES[place];
        if refusal(alloc, &case)? != case.3 {
            add(&mut all, format!(in alloc; "{place} "))?;
        }
    }
    Ok(all)
}

#[test]
fn models_are_made_of_parts_within_their_limits(rt: HostRuntime) -> Result<(), Fail> {
    check(&rt, wrong(rt.alloc()), "")
}

// The model of a case.
fn made(alloc: Global, case: &Case) -> Result<Model, AllocError> {
    let parts = parts_of(alloc, case)?;
    if !parts.are_fitting() {
        return Err(AllocError);
    }
    match Model::make(alloc, parts) {
        Ok(model) => Ok(model),
        Err(_) => Err(AllocError),
    }
}

// Where a model has names: of a variable, of none, of a row, and of none.
fn places(alloc: Global, model: &Model) -> Result<String, AllocError> {
    let indexed = IndexedModel::of(alloc, model)?;
    let (var, no_var) = (indexed.var_of("v1"), indexed.var_of("w"));
    let (row, no_row) = (indexed.row_of("v0"), indexed.row_of("v1"));
    let spans = model.spans().len();
    format!(in alloc; "; {spans} spans; {var:?} {no_var:?}; {row:?} {no_row:?}")
}

// A model in short, and where it has names.
fn told(alloc: Global) -> Result<String, AllocError> {
    let model = made(alloc, &ADDED_UP)?;
    let mut told = short(alloc, &model)?;
    add(&mut told, places(alloc, &model))?;
    Ok(told)
}

#[test]
fn a_model_tells_its_parts_and_terms_add_up_in_order_and_without_zeros(
    rt: HostRuntime,
) -> Result<(), Fail> {
    check(
        &rt,
        told(rt.alloc()),
        "min 7 v0 2 v2 4; v0: 7 v0 2 v2 <= 20; v0 0..3; v1 0..3; v2 0..3; 3 spans; Some(1) None; Some(0) None",
    )
}

/// Points with what each misses: its length, a bound, a row or nothing.
const POINTS: [(&[i64], Option<Miss>); 4] = [
    (&[0, 0], Some(Miss::Length)),
    (&[0, -1, 4], Some(Miss::Bound(1))),
    (&[3, 0, 0], Some(Miss::Row(0))),
    (&[2, 3, 3], None),
];

// How many points miss something else.
fn other_misses(alloc: Global) -> Result<u32, AllocError> {
    let model = made(alloc, &ADDED_UP)?;
    let mut others = 0u32;
    for (point, want) in POINTS {
        if model.misses(point) != want {
            others = others.saturating_add(1);
        }
    }
    Ok(others)
}

#[test]
fn a_point_misses_its_length_a_bound_a_row_or_nothing(rt: HostRuntime) -> Result<(), Fail> {
    check_none(&rt, other_misses(rt.alloc()))
}

// What a point costs, where it misses nothing.
fn cost_of(model: &Model, point: &[i64]) -> Option<i64> {
    if model.misses(point).is_some() {
        return None;
    }
    Some(model.cost(point))
}

// What the point of -5 costs.
fn cost_told(alloc: Global) -> Result<String, AllocError> {
    let model = made(alloc, &PAID)?;
    format!(in alloc; "{:?}", cost_of(&model, &[-5]))
}

#[test]
fn a_point_costs_its_sum_and_the_constant(rt: HostRuntime) -> Result<(), Fail> {
    check(&rt, cost_told(rt.alloc()), "Some(-3)")
}

// Adds the number that a name has, and whether it is a new one.
fn add_number(
    alloc: Global,
    told: &mut String,
    names: &mut NameTable,
    name: &str,
) -> Result<(), AllocError> {
    if names.len() < 9 {
        let (number, is_new) = names.add(alloc, name)?;
        add(told, format!(in alloc; "; {number} {is_new}"))?;
    }
    Ok(())
}

// What names tell: how many there are, three of them, and the places of one and of none.
fn names_told(alloc: Global, names: &NameTable) -> Result<String, AllocError> {
    if names.len() != 3 {
        return String::from_str(alloc, "not three");
    }
    let (first, second, third) = (names.get(0), names.get(1), names.get(2));
    let (found, none) = (names.place_of("a"), names.place_of("c"));
    format!(in alloc; "; {first} {second} {third}.; {found:?} {none:?}")
}

// What a list of names tells: whether it has none, how many it has, and its second one, in a table of its own too.
fn list_told(alloc: Global, names: &NameList) -> Result<String, AllocError> {
    if names.len() < 2 {
        return String::from_str(alloc, "too few");
    }
    let (none, count, second) = (names.is_empty(), names.len(), names.get(1));
    let found = NameTable::of(alloc, names)?.place_of(second);
    format!(in alloc; "; {none} {count} {second} {found:?}")
}

// What is told of names while they are added, and of their list.
fn numbered(alloc: Global) -> Result<String, AllocError> {
    let mut names = NameTable::new(alloc);
    let mut told = format!(in alloc; "{}", names.is_empty())?;
    for name in ["b", "a", "b", ""] {
        add_number(alloc, &mut told, &mut names, name)?;
    }
    add(&mut told, names_told(alloc, &names))?;
    add(&mut told, list_told(alloc, &names.into_list(alloc)?))?;
    Ok(told)
}

#[test]
fn names_are_numbered_in_order(rt: HostRuntime) -> Result<(), Fail> {
    check(
        &rt,
        numbered(rt.alloc()),
        "true; 0 true; 1 true; 0 false; 2 true; b a .; Some(1) None; false 3 a Some(1)",
    )
}
