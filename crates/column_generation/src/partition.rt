// Columns that go together, for classes of identical blocks without a graph of states: each block of a class is priced in
// what those before it leave of the rows' sides. One class gives one column a round otherwise. No bound comes from these.
ghost use Rattle.std.specs.Prelude.{◌<◌, length};
ghost use Rattle.std.specs.Bool.{OnTrue};
ghost use Rattle.knap_price.specs.Kept as by_table;
ghost use Rattle.pricing_problem.specs.Form.{AreOf};
ghost use Rattle.node_memory.specs.Pools.{AreMadeFor};

use crate::costs::reduced_costs;
use crate::several::gives_several;
use block_class::Classes;
use block_program::{Block, Blocked, Zone};
use bp_theory::{Proof, Sense, Span};
use knap_price::KnapPricer;
use node_memory::{NodeContext, Pools, alone};
use pricing_problem::{Cap, Priced, Pricer, is_form, is_priceable};
use primal_heuristics::{at, narrow, product, sum_at};
use restricted_master::{RestrictedMaster, block_spans};
use std::alloc::{AllocError, Global};

/// How many blocks of a class are priced at most.
const MOST_BLOCKS: u32 = 9;

/// How many beginnings of points the pricing of a block may visit.
const VISITS: u64 = 5_000;

// A row's side, as blocks use it up.
#[derive(Clone, Copy)]
struct Side {
    // What is left of it.
    left: i128,
    // The row's sense.
    sense: Sense,
}

// What a class is priced with.
#[derive(Drop)]
struct Member {
    // The spans of its first block, by place in the block, narrowed to what is left.
    spans: Vec<Span>,
    // How many of its blocks are priced.
    many: u32,
}

/// Adds columns of partitions at multipliers by row at the greatest scale, the classes in turn from one that depends on the
/// round.
pub fn add_partition(
    alloc: Global,
    node: NodeContext,
    pools: &mut Pools,
    master: &mut RestrictedMaster,
    mults: &[i64],
    round: u32,
) -> Result<(), AllocError>
    requires made_for { AreMadeFor node.program.now pools.old }
    ensures made_for { AreMadeFor node.entry.program.now pools.new }
{
    let mut sides = sides_of(alloc, node.program, master)?;
    let many = node.classes.len();
    for offset in 0..many {
        let class = place_after(round, offset, many);
        add_parted(alloc, node, pools, master, mults, class, &mut sides)?;
    }
    Ok(())
}

// Adds the columns of a class, where it gets some.
fn add_parted(
    alloc: Global,
    node: NodeContext,
    pools: &mut Pools,
    master: &mut RestrictedMaster,
    mults: &[i64],
    class: u32,
    sides: &mut Vec<Side>,
) -> Result<(), AllocError>
    requires made_for { AreMadeFor node.program.now pools.old }
    ensures made_for { AreMadeFor node.entry.program.now pools.new }
{
    if !is_parted(node.program, node.classes, pools, master, class) {
        return Ok(());
    }
    let first = node.classes.first(class);
    let size = master.size(class);
    let found = priced_blocks(alloc, node, pools, mults, first, size, sides)?;
    add_points(alloc, node.program, pools, master, class, first, found)
}

// Whether a class gets columns of partitions: where it has several blocks, which give no points beside the cheapest one.
fn is_parted(
    b: &Blocked,
    classes: &Classes,
    pools: &Pools,
    master: &RestrictedMaster,
    class: u32,
) -> bool
    requires made_for { AreMadeFor b.now pools.now }
    ensures { OnTrue result (class < length classes.now.firsts) }
{
    class < classes.len()
        && master.size(class) > 1
        && !gives_several(b, pools, classes.first(class))
}

// The place so far behind a start, round from the end to the beginning.
fn place_after(start: u32, offset: u32, many: u32) -> u32 {
    if many == 0 {
        0
    } else {
        let sum = u64::from(start) + u64::from(offset);
        (sum % u64::from(many)) as u32
    }
}

// What the blocks of one point leave of the rows' sides.
fn sides_of(
    alloc: Global,
    b: &Blocked,
    master: &RestrictedMaster,
) -> Result<Vec<Side>, AllocError> {
    let mut sides = Vec::new(alloc);
    for row in 0..b.named_rows() {
        let (side, sense) = match b.master_row(row) {
            None => (0, Sense::In),
            Some(named) => match named.sense {
                Sense::Ge => (named.low, Sense::Ge),
                sense => (named.rhs, sense),
            },
        };
        let left = i128::from(side).saturating_sub(sum_at(master.settled_sums(), row as usize));
        sides.push(Side { left, sense })?;
    }
    Ok(sides)
}

// The points of blocks of a class, each priced in what those before it leave: by a table of their own where one takes
// the block, else as their bounds are, by a search that is made already.
fn priced_blocks(
    alloc: Global,
    node: NodeContext,
    pools: &mut Pools,
    mults: &[i64],
    first: u32,
    size: u32,
    sides: &mut Vec<Side>,
) -> Result<Vec<Vec<i64>>, AllocError>
    requires made_for { AreMadeFor node.program.now pools.old }
    ensures made_for { AreMadeFor node.entry.program.now pools.new }
{
    if first >= node.program.blocks() {
        return Ok(Vec::new(alloc));
    }
    let block = node.program.block(first);
    if !is_form(block.rows(), block.spans()) {
        return Ok(Vec::new(alloc));
    }
    let mut member = Member {
        spans: block_spans(alloc, block, node.zone.spans())?,
        many: size.min(MOST_BLOCKS),
    };
    if !KnapPricer::takes(block) {
        return price_as_bounds(alloc, node, pools, mults, first, &mut member, sides);
    }
    let costs = reduced_costs(alloc, block, mults)?;
    let mut pricer = KnapPricer::make(alloc, block)?;
    price_by_table(
        alloc,
        &mut pricer,
        block,
        costs.as_slice(),
        &mut member,
        sides,
    )
}

// Prices blocks by a table, one after the other, each in what those before it leave, until nothing is left to take.
fn price_by_table(
    alloc: Global,
    pricer: &mut KnapPricer,
    block: &Block,
    costs: &[i128],
    member: &mut Member,
    sides: &mut Vec<Side>,
) -> Result<Vec<Vec<i64>>, AllocError>
    requires same_block { AreOf block.now (by_table.rows_of pricer.old)
        (by_table.spans_of pricer.old) }
{
    let mut points = Vec::new(alloc);
    for _ in 0..member.many {
        narrow_to(block, sides.as_slice(), &mut member.spans);
        let spans = member.spans.as_slice();
        if !is_priceable(block.spans(), spans, costs) {
            break;
        }
        let Priced::Least(_) = pricer.price(block, spans, costs, Cap::At(VISITS)) else {
            break;
        };
        if !take(block, pricer.point(), sides) {
            break;
        }
        points.push(pricer.point().to_vec(alloc)?)?;
    }
    Ok(points)
}

// Prices blocks by the pricer of their bounds, one after the other, each in what those before it leave, until nothing is
// left to take.
fn price_as_bounds(
    alloc: Global,
    node: NodeContext,
    pools: &mut Pools,
    mults: &[i64],
    first: u32,
    member: &mut Member,
    sides: &mut Vec<Side>,
) -> Result<Vec<Vec<i64>>, AllocError>
    requires made_for { AreMadeFor node.program.now pools.old }
    requires there { first < length node.program.now.blocking.blocks }
    ensures made_for { AreMadeFor node.entry.program.now pools.new }
{
    let proof = alone(alloc, mults, first)?;
    let mut points = Vec::new(alloc);
    for _ in 0..member.many {
        let spans = &mut member.spans;
        let Some(point) = next_point(alloc, node, pools, &proof, first, spans, sides)? else {
            break;
        };
        points.push(point)?;
    }
    Ok(points)
}

// The point of a block that is priced as its bounds are in what is left of the sides, and taken out of them. There is none
// where the block has no point there, its pricing is cut, or the point takes nothing.
fn next_point(
    alloc: Global,
    node: NodeContext,
    pools: &mut Pools,
    proof: &Proof,
    first: u32,
    spans: &mut Vec<Span>,
    sides: &mut Vec<Side>,
) -> Result<Option<Vec<i64>>, AllocError>
    requires made_for { AreMadeFor node.program.now pools.old }
    requires there { first < length node.program.now.blocking.blocks }
    ensures made_for { AreMadeFor node.entry.program.now pools.new }
{
    let block = node.program.block(first);
    narrow_to(block, sides.as_slice(), spans);
    if !is_priced_within(alloc, node, pools, proof, first, spans.as_slice())? {
        return Ok(None);
    }
    let Some(point) = pools.budget.work.point(first) else {
        return Ok(None);
    };
    if !take(block, point, sides) {
        return Ok(None);
    }
    Ok(Some(point.to_vec(alloc)?))
}

// Prices a block within spans of its own variables; whether there is a bound.
fn is_priced_within(
    alloc: Global,
    node: NodeContext,
    pools: &mut Pools,
    proof: &Proof,
    first: u32,
    spans: &[Span],
) -> Result<bool, AllocError>
    requires made_for { AreMadeFor node.program.now pools.old }
    requires there { first < length node.program.now.blocking.blocks }
    ensures made_for { AreMadeFor node.entry.program.now pools.new }
{
    let all = spans_with(alloc, node.zone, node.program.block(first), spans)?;
    let left = narrow(node.program, node.zone.copy(alloc)?, all.as_slice());
    let classes = Classes::of(alloc, node.program, &left)?;
    let inner = NodeContext {
        program: node.program,
        classes: &classes,
        zone: &left,
    };
    Ok(pools.has_bound(inner, proof, Cap::At(VISITS)))
}

// The spans of a zone, but for a block's own.
fn spans_with(
    alloc: Global,
    zone: &Zone,
    block: &Block,
    own: &[Span],
) -> Result<Vec<Span>, AllocError> {
    let mut all = zone.spans().to_vec(alloc)?;
    for (var, span) in block.vars().iter().zip(own) {
        if let Some(place) = all.get_mut(*var as usize) {
            *place = *span;
        }
    }
    Ok(all)
}

// Narrows the upper ends of a block's spans to what rows leave.
fn narrow_to(block: &Block, sides: &[Side], spans: &mut Vec<Span>) {
    for place in 0..block.var_count() {
        let index = place as usize;
        if index < spans.len() {
            for entry in block.master(place) {
                if let Some(side) = sides.get(entry.0 as usize) {
                    let span = spans[index];
                    let most = room_of(side, entry.1).max(span.lo);
                    spans[index] = Span {
                        lo: span.lo,
                        hi: span.hi.min(most),
                    };
                }
            }
        }
    }
}

// How many of a variable fit into what is left of a side.
fn room_of(side: &Side, coef: i64) -> i64 {
    if coef <= 0 {
        return i64::MAX;
    }
    let coef = i128::from(coef);
    let left = side.left.max(0);
    let many = match side.sense {
        Sense::Ge => left.saturating_add(coef - 1) / coef,
        _ => left / coef,
    };
    primal_heuristics::whole(many)
}

// Takes a point out of the sides; whether it takes anything.
fn take(block: &Block, point: &[i64], sides: &mut Vec<Side>) -> bool {
    let mut takes = false;
    for place in 0..block.var_count() {
        let number = at(point, place as usize);
        if number != 0 {
            for entry in block.master(place) {
                if let Some(side) = sides.get_mut(entry.0 as usize) {
                    side.left = side.left.saturating_sub(product(&entry.1, &number));
                    takes = true;
                }
            }
        }
    }
    takes
}

// Adds points of a block to its pool and to the restricted master.
fn add_points(
    alloc: Global,
    b: &Blocked,
    pools: &mut Pools,
    master: &mut RestrictedMaster,
    class: u32,
    block: u32,
    points: Vec<Vec<i64>>,
) -> Result<(), AllocError>
    requires made_for { AreMadeFor b.now pools.old }
    ensures made_for { AreMadeFor b.now pools.new }
{
    for point in points.as_slice() {
        if let Some(place) = pools.add_point(alloc, b, block, point.as_slice())? {
            if let Some(column) = pools.column(place) {
                let _ = master.add(alloc, column, class, place)?;
            }
        }
    }
    Ok(())
}
