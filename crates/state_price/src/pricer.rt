// The pricer by states.
ghost use Rattle.std.specs.Prelude.{◌≡◌, ◌<◌, ◌≤◌, ◌^◌, ℤ, List, MatchOption, IfOk, IfSome, IfNone, length, vec_len};
ghost use Rattle.std.specs.Bool.{OnTrue};
ghost use Rattle.bp_theory.specs.Bound.{IsPoint};
ghost use Rattle.pricing_problem.specs.Form.{IsForm, IsPriceable, cost_size};
ghost use Rattle.pricing_problem.specs.Priced.{IsCheapest, HasNoPoint};
ghost use Rattle.bp_theory.specs.declared.Span.{Span};
ghost use Rattle.bp_theory.specs.declared.Row.{Row};
ghost use Rattle.layer_graph.specs.Graphs.{IsFaithful};
ghost use Rattle.shortest_path.specs.Pairs.{steps_with, AreLinked};
ghost use Rattle.shortest_path.specs.Rooms.{HasRoom};
ghost use Rattle.state_graph.specs.Limits.{beginnings, IsBeyond};
ghost use Rattle.variable_order.specs.Orders.{rows_by, spans_by};
ghost use Rattle.state_price.specs.Arranged.{graph_rows, graph_spans, block_point};

use crate::arranged::Arranged;
use block_program::Block;
use bp_theory::{Items, Row, Span};
use layer_graph::Graph;
use pricing_problem::{Cap, Priced, Pricer, copied_rows, copied_spans};
use shortest_path::{Margins, Pair, Work, are_short, pairs_in, price_zone, write_way};
use state_graph::{build, has_beginnings};
use std::alloc::{AllocError, Global};
use variable_order::{Order, arrange_spans, other_order, renamed_rows};

/// Prices a block by a graph of states, which is made once, as is all memory that a price needs. It is never cut. Where the graph
/// takes the block's variables in another order, zone and costs are written in that order, and the point is written back.
#[derive(Drop)]
pub struct StatePricer {
    // The block's rows.
    rows: Vec<Row>,
    // The block's spans at the root.
    spans: Vec<Span>,
    // The graph; the k-th layer is of the k-th variable in the order that it takes.
    graph: Graph,
    // By layer: its pairs, none where its numbers aren't 0 and 1 alone; the list may end before the last layer.
    pairs: Vec<Items<Pair>>,
    // What a price is found with.
    work: Work,
    // The order of the graph, where it isn't the block's own.
    arranged: Option<Arranged>,
    // What points are ranked with; none before the first call for ranks.
    margins: Option<Margins>,
    // The ways from the root are the points of the block's rows within its spans.
    ghost ways: { IsFaithful (graph_rows arranged rows.items) (graph_spans arranged spans.items)
        graph.steps.items },
    // So are the ways by pairs, where there are some, and else by arcs.
    ghost paired: { IsFaithful (graph_rows arranged rows.items) (graph_spans arranged spans.items)
        (steps_with graph.wide graph.steps.items pairs.items) },
    // What a layer leads to has a cell of the next.
    ghost linked: { AreLinked graph.wide graph.steps.items pairs.items },
    // The order has as many variables as the block.
    ghost whole: { length (graph_spans arranged spans.items) ≡ length spans.items },
    // Each variable has a layer.
    ghost many: { length graph.steps.items ≡ length spans.items },
    // The work has room for the graph.
    ghost room: { HasRoom graph work },
    // The graph took no more arcs than assignments have beginnings.
    ghost few: { graph.made ≤ beginnings spans.items },
}

impl StatePricer {
    ghost use Rattle.std.specs.Prelude.{◌≡◌, ◌≤◌, IfOk, IfSome, IfNone, length};
    ghost use Rattle.std.specs.Bool.{OnTrue};
    ghost use Rattle.bp_theory.specs.Bound.{IsPoint};
    ghost use Rattle.pricing_problem.specs.Form.{IsForm, AreOf};
    ghost use Rattle.state_price.specs.Kept.{rows_of, spans_of, kept_point};
    ghost use Rattle.state_graph.specs.Limits.{beginnings, IsBeyond};

    /// The pricer of a block, if its graph keeps the limits: at most 2^18 arcs and 2^25 windows that they lead to (arcs times
    /// rows), at most 2^22 windows that the arcs of a layer lead to, at most 2^21 nodes if each layer had as many as the widest
    /// once nodes with the same arcs are one, at most 2^20 coefficients with zeros counted, and at most 4,096 numbers of a
    /// variable. So it holds at most 52 MiB of a block of at most 4,096 variables, two of them for the pairs of layers of binaries
    /// (8 bytes a node), and while it is made at most 230 MiB; of a longer block some 400 bytes more for each further variable.
    /// There is none only where a graph with an arc for each beginning of an assignment would pass one of these, or where there are
    /// no variables and no point (`IsBeyond`): a block of few beginnings has a graph. One of many beginnings may have a graph too,
    /// since its beginnings share states; whether it has, no clause tells. The graph takes the block's variables in the order that
    /// a rule gives (`variable_order`), or in the block's own where the rule gives none, or none whose graph keeps the limits and
    /// took no more arcs than there are beginnings.
    pub fn make(alloc: Global, block: &Block) -> Result<Option<StatePricer>, AllocError>
        requires { IsForm block.now.block.rows block.now.spans }
        ensures none { IfOk result (λ made. IfNone made
            (IsBeyond block.now.block.rows block.now.spans)) }
        ensures block { IfOk result (λ made. IfSome made
            (λ pricer. AreOf block.now (rows_of pricer) (spans_of pricer))) }
    {
        let rows = block.rows();
        let spans = block.spans();
        if let Some(pricer) = ruled_pricer(alloc, rows, spans)? {
            return Ok(Some(pricer));
        }
        own_pricer(alloc, rows, spans)
    }

    /// How many arcs its graph has, which is what a price takes.
    pub fn arcs(&self) -> usize {
        let mut many: usize = 0;
        for step in self.graph.steps.as_slice() {
            many = many.saturating_add(step.len());
        }
        many
    }

    /// How many arcs it took to make its graph, before nodes with the same arcs became one: no more than beginnings.
    pub fn made(&self) -> usize
        ensures { result ≤ beginnings (spans_of self.now) }
    {
        self.graph.made
    }

    /// Finds points in a zone beside the cheapest one, and ranks them by cost, the least first: for each variable a cheapest
    /// point with another number of it than the cheapest point has. Tells how many there are, none where costs need more
    /// than 64 bits; the same point may have several ranks. The first call takes memory for both passes: at most 16 bytes
    /// for a node, as if each layer had as many as the widest, and 39 MiB in all of a block of at most 4,096 variables, some
    /// 150 bytes more for each further one.
    pub fn rank(
        &mut self,
        alloc: Global,
        zone: &[Span],
        costs: &[i128],
    ) -> Result<usize, AllocError>
        requires zone { length zone.now ≡ length (spans_of self.old) }
        requires costs { length costs.now ≡ length (spans_of self.old) }
        ensures same_rows { rows_of self.new ≡ rows_of self.old }
        ensures same_spans { spans_of self.new ≡ spans_of self.old }
        ensures same_point { kept_point self.new ≡ kept_point self.old }
    {
        if !are_short(zone, costs) {
            return Ok(0);
        }
        if self.margins.is_none() {
            self.margins = Some(Margins::make(alloc, &self.graph)?);
        }
        match &mut self.margins {
            Some(margins) => Ok(rank_by(&self.graph, margins, &mut self.arranged, zone, costs)),
            None => Ok(0),
        }
    }

    /// Keeps the point of a rank in place of the point that it keeps, in the zone and at the costs that points were ranked
    /// for; whether there is one. What is kept then is a point of the block in the zone, whatever was ranked before.
    pub fn choose(&mut self, rank: usize, zone: &[Span], costs: &[i128]) -> bool
        requires zone { length zone.now ≡ length (spans_of self.old) }
        requires costs { length costs.now ≡ length (spans_of self.old) }
        ensures point { OnTrue result (IsPoint (rows_of self.old) zone.now (kept_point self.new)) }
        ensures same_rows { rows_of self.new ≡ rows_of self.old }
        ensures same_spans { spans_of self.new ≡ spans_of self.old }
    {
        match &mut self.margins {
            Some(margins) => {
                let places = margins.places(&self.graph, rank);
                choose_by(
                    &self.graph,
                    &mut self.work.point,
                    &mut self.arranged,
                    places,
                    zone,
                    costs,
                )
            }
            None => false,
        }
    }
}

/// The pricer of rows and spans by a graph, in an order, if there is one, else in their own.
fn kept(
    alloc: Global,
    rows: &[Row],
    spans: &[Span],
    graph: Graph,
    arranged: Option<Arranged>,
) -> Result<StatePricer, AllocError>
    requires ways { IsFaithful (graph_rows arranged rows.now) (graph_spans arranged spans.now)
        graph.steps.items }
    requires whole { length (graph_spans arranged spans.now) ≡ length spans.now }
    requires many { length graph.steps.items ≡ length spans.now }
    requires few { graph.made ≤ beginnings spans.now }
    ensures rows { IfOk result (λ pricer. pricer.rows.items ≡ rows.now) }
    ensures spans { IfOk result (λ pricer. pricer.spans.items ≡ spans.now) }
{
    let pairs = pairs_in(alloc, &graph)?;
    let work = Work::make(alloc, &graph)?;
    let rows = copied_rows(alloc, rows)?;
    let spans = copied_spans(alloc, spans)?;
    Ok(StatePricer {
        rows,
        spans,
        graph,
        pairs,
        work,
        arranged,
        margins: None,
    })
}

/// The pricer of rows and spans in their own order.
fn own_pricer(
    alloc: Global,
    rows: &[Row],
    spans: &[Span],
) -> Result<Option<StatePricer>, AllocError>
    requires { IsForm rows.now spans.now }
    ensures none { IfOk result (λ made. IfNone made (IsBeyond rows.now spans.now)) }
    ensures rows { IfOk result (λ made. IfSome made (λ p. p.rows.items ≡ rows.now)) }
    ensures spans { IfOk result (λ made. IfSome made (λ p. p.spans.items ≡ spans.now)) }
{
    let graph = match build(alloc, rows, spans)? {
        Some(graph) => graph,
        None => return Ok(None),
    };
    let pricer = kept(alloc, rows, spans, graph, None)?;
    Ok(Some(pricer))
}

/// The graph of rows and spans in an order, if it keeps the limits, and took no more arcs than the spans have beginnings in their
/// own order.
fn graph_by(
    alloc: Global,
    rows: &[Row],
    spans: &[Span],
    order: &Order,
) -> Result<Option<Graph>, AllocError>
    requires form { IsForm rows.now spans.now }
    requires order { vec_len order.now.vars ≡ length spans.now }
    ensures many { IfOk result (λ made. IfSome made (λ g. vec_len g.steps ≡ length spans.now)) }
    ensures few { IfOk result (λ made. IfSome made (λ g. g.made ≤ beginnings spans.now)) }
    ensures ways { IfOk result (λ made. IfSome made
        (λ g. IsFaithful (rows_by order.now.places.items rows.now)
        (spans_by order.now.vars.items spans.now) g.steps.items)) }
{
    let renamed = renamed_rows(alloc, &order.places, rows)?;
    let mut arranged = copied_spans(alloc, spans)?;
    arrange_spans(&order.vars, spans, &mut arranged);
    let graph = match build(alloc, renamed.as_slice(), arranged.as_slice())? {
        Some(graph) => graph,
        None => return Ok(None),
    };
    if has_beginnings(spans, graph.made) {
        return Ok(Some(graph));
    }
    Ok(None)
}

/// The pricer of rows and spans in another order, if the rule has one that gives a graph.
fn ruled_pricer(
    alloc: Global,
    rows: &[Row],
    spans: &[Span],
) -> Result<Option<StatePricer>, AllocError>
    requires { IsForm rows.now spans.now }
    ensures rows { IfOk result (λ made. IfSome made (λ p. p.rows.items ≡ rows.now)) }
    ensures spans { IfOk result (λ made. IfSome made (λ p. p.spans.items ≡ spans.now)) }
{
    let order = match other_order(alloc, rows, spans.len())? {
        Some(order) => order,
        None => return Ok(None),
    };
    let graph = match graph_by(alloc, rows, spans, &order)? {
        Some(graph) => graph,
        None => return Ok(None),
    };
    let arranged = Arranged::make(alloc, order)?;
    let pricer = kept(alloc, rows, spans, graph, Some(arranged))?;
    Ok(Some(pricer))
}

/// The least cost of a way by a graph in another order, if there is one, and its point in the block's own.
fn price_arranged(
    graph: &Graph,
    lists: &[Items<Pair>],
    work: &mut Work,
    arranged: &mut Arranged,
    zone: &[Span],
    costs: &[i128],
) -> Option<i128>
    requires room { HasRoom graph.now work.old }
    requires linked { AreLinked graph.now.wide graph.now.steps.items lists.now }
    requires steps { vec_len graph.now.steps ≡ vec_len arranged.old.order.vars }
    requires zone { length zone.now ≡ vec_len graph.now.steps }
    requires costs { length costs.now ≡ vec_len graph.now.steps }
    requires sizes { cost_size zone.now costs.now ≤ 2 ^ 123 }
    ensures room { HasRoom graph.now work.new }
    ensures order { arranged.new.order ≡ arranged.old.order }
    ensures answer { (rows : List Row) (spans : List Span) →
        IsFaithful (rows_by arranged.old.order.places.items rows)
        (spans_by arranged.old.order.vars.items spans) graph.now.steps.items →
        IsFaithful (rows_by arranged.old.order.places.items rows)
        (spans_by arranged.old.order.vars.items spans)
        (steps_with graph.now.wide graph.now.steps.items lists.now) →
        IsPriceable spans zone.now costs.now →
        MatchOption result (HasNoPoint rows zone.now)
        (λ v. IsCheapest rows zone.now costs.now arranged.new.point.items v) }
{
    arranged.set_zone(zone);
    arranged.set_costs(costs);
    let least = price_zone(
        graph,
        lists,
        work,
        arranged.zone.as_slice(),
        arranged.costs.as_slice(),
    );
    arranged.set_point(work.point.as_slice());
    least
}

/// The least cost of a way by a graph in an order, if there is one, else in the block's own, and its point in the block's own.
fn price_by(
    graph: &Graph,
    lists: &[Items<Pair>],
    work: &mut Work,
    arranged: &mut Option<Arranged>,
    zone: &[Span],
    costs: &[i128],
) -> Option<i128>
    requires room { HasRoom graph.now work.old }
    requires linked { AreLinked graph.now.wide graph.now.steps.items lists.now }
    requires whole { length (graph_spans arranged.old zone.now) ≡ length zone.now }
    requires zone { length zone.now ≡ vec_len graph.now.steps }
    requires costs { length costs.now ≡ vec_len graph.now.steps }
    requires sizes { cost_size zone.now costs.now ≤ 2 ^ 123 }
    ensures room { HasRoom graph.now work.new }
    ensures rows { (rows : List Row) → graph_rows arranged.new rows ≡ graph_rows arranged.old rows }
    ensures spans { (spans : List Span) →
        graph_spans arranged.new spans ≡ graph_spans arranged.old spans }
    ensures answer { (rows : List Row) (spans : List Span) →
        IsFaithful (graph_rows arranged.old rows) (graph_spans arranged.old spans)
        graph.now.steps.items →
        IsFaithful (graph_rows arranged.old rows) (graph_spans arranged.old spans)
        (steps_with graph.now.wide graph.now.steps.items lists.now) →
        IsPriceable spans zone.now costs.now →
        MatchOption result (HasNoPoint rows zone.now)
        (λ v. IsCheapest rows zone.now costs.now
        (block_point arranged.new work.new.point.items) v) }
{
    match arranged {
        Some(arranged) => price_arranged(graph, lists, work, arranged, zone, costs),
        None => price_zone(graph, lists, work, zone, costs),
    }
}

/// Ranks the ways of a graph in an order beside the cheapest one.
fn rank_arranged(
    graph: &Graph,
    margins: &mut Margins,
    arranged: &mut Arranged,
    zone: &[Span],
    costs: &[i128],
) -> usize
    requires steps { vec_len graph.now.steps ≡ vec_len arranged.old.order.vars }
    requires zone { length zone.now ≡ vec_len graph.now.steps }
    requires costs { length costs.now ≡ vec_len graph.now.steps }
    ensures order { arranged.new.order ≡ arranged.old.order }
    ensures point { arranged.new.point.items ≡ arranged.old.point.items }
{
    arranged.set_zone(zone);
    arranged.set_costs(costs);
    margins.rank(graph, arranged.zone.as_slice(), arranged.costs.as_slice())
}

/// Ranks the ways of a graph beside the cheapest one: in an order, if there is one, else in the block's own.
fn rank_by(
    graph: &Graph,
    margins: &mut Margins,
    arranged: &mut Option<Arranged>,
    zone: &[Span],
    costs: &[i128],
) -> usize
    requires whole { length (graph_spans arranged.old zone.now) ≡ length zone.now }
    requires zone { length zone.now ≡ vec_len graph.now.steps }
    requires costs { length costs.now ≡ vec_len graph.now.steps }
    ensures rows { (rows : List Row) → graph_rows arranged.new rows ≡ graph_rows arranged.old rows }
    ensures spans { (spans : List Span) →
        graph_spans arranged.new spans ≡ graph_spans arranged.old spans }
    ensures point { (way : List ℤ) → block_point arranged.new way ≡ block_point arranged.old way }
{
    match arranged {
        Some(arranged) => rank_arranged(graph, margins, arranged, zone, costs),
        None => margins.rank(graph, zone, costs),
    }
}

/// Writes the way through given arcs, where they make one within a zone; whether they do.
fn choose_own(
    graph: &Graph,
    point: &mut Vec<i64>,
    places: &[u32],
    zone: &[Span],
    costs: &[i128],
) -> bool
    requires point { vec_len point.old ≡ length zone.now }
    requires zone { length zone.now ≡ vec_len graph.now.steps }
    requires costs { length costs.now ≡ vec_len graph.now.steps }
    ensures many { vec_len point.new ≡ vec_len point.old }
    ensures point { (rows : List Row) (spans : List Span) →
        IsFaithful rows spans graph.now.steps.items →
        OnTrue result (IsPoint rows zone.now point.new.items) }
{
    write_way(point, graph, places, zone, costs)
}

/// Writes the way through given arcs of a graph in an order, where they make one within a zone, and its point in the block's
/// own order; whether they do.
fn choose_arranged(
    graph: &Graph,
    point: &mut Vec<i64>,
    arranged: &mut Arranged,
    places: &[u32],
    zone: &[Span],
    costs: &[i128],
) -> bool
    requires steps { vec_len graph.now.steps ≡ vec_len arranged.old.order.vars }
    requires point { vec_len point.old ≡ length zone.now }
    requires zone { length zone.now ≡ vec_len graph.now.steps }
    requires costs { length costs.now ≡ vec_len graph.now.steps }
    ensures many { vec_len point.new ≡ vec_len point.old }
    ensures order { arranged.new.order ≡ arranged.old.order }
    ensures point { (rows : List Row) (spans : List Span) →
        IsFaithful (rows_by arranged.old.order.places.items rows)
        (spans_by arranged.old.order.vars.items spans) graph.now.steps.items →
        OnTrue result (IsPoint rows zone.now arranged.new.point.items) }
{
    arranged.set_zone(zone);
    arranged.set_costs(costs);
    let is_way = write_way(
        point,
        graph,
        places,
        arranged.zone.as_slice(),
        arranged.costs.as_slice(),
    );
    arranged.set_point(point.as_slice());
    is_way
}

/// Writes the way through given arcs, where they make one within a zone: by a graph in an order, if there is one, else in the
/// block's own, and its point in the block's own; whether they do.
fn choose_by(
    graph: &Graph,
    point: &mut Vec<i64>,
    arranged: &mut Option<Arranged>,
    places: &[u32],
    zone: &[Span],
    costs: &[i128],
) -> bool
    requires whole { length (graph_spans arranged.old zone.now) ≡ length zone.now }
    requires point { vec_len point.old ≡ length zone.now }
    requires zone { length zone.now ≡ vec_len graph.now.steps }
    requires costs { length costs.now ≡ vec_len graph.now.steps }
    ensures many { vec_len point.new ≡ vec_len point.old }
    ensures rows { (rows : List Row) → graph_rows arranged.new rows ≡ graph_rows arranged.old rows }
    ensures spans { (spans : List Span) →
        graph_spans arranged.new spans ≡ graph_spans arranged.old spans }
    ensures point { (rows : List Row) (spans : List Span) →
        IsFaithful (graph_rows arranged.old rows) (graph_spans arranged.old spans)
        graph.now.steps.items →
        OnTrue result (IsPoint rows zone.now (block_point arranged.new point.new.items)) }
{
    match arranged {
        Some(arranged) => choose_arranged(graph, point, arranged, places, zone, costs),
        None => choose_own(graph, point, places, zone, costs),
    }
}

impl Pricer for StatePricer {
    ghost use Rattle.std.specs.Prelude.{◌≡◌};
    ghost use Rattle.pricing_problem.specs.Form.{IsPriceable, AreOf};
    ghost use Rattle.pricing_problem.specs.Priced.{IsPriced};
    ghost use Rattle.pricing_problem.specs.declared.Cap.TheVariants.{Never};
    ghost use Rattle.state_price.specs.Kept.{rows_of, spans_of, kept_point};

    ghost rows = { rows_of };

    ghost spans = { spans_of };

    ghost chosen = { kept_point };

    /// The least cost over the points of a block in a zone, if there is a point, under every cap.
    fn price(&mut self, block: &Block, zone: &[Span], costs: &[i128], cap: Cap) -> Priced
        requires same_block { AreOf block.now (rows_of self.old) (spans_of self.old) }
        requires priceable { IsPriceable (spans_of self.old) zone.now costs.now }
        ensures answer { IsPriced (rows_of self.old) zone.now costs.now Never result
            (kept_point self.new) }
        ensures same_rows { rows_of self.new ≡ rows_of self.old }
        ensures same_spans { spans_of self.new ≡ spans_of self.old }
    {
        let answer = price_by(
            &self.graph,
            &self.pairs,
            &mut self.work,
            &mut self.arranged,
            zone,
            costs,
        );
        match answer {
            Some(least) => Priced::Least(least),
            None => Priced::Nothing,
        }
    }

    fn point(&self) -> &[i64] {
        match &self.arranged {
            Some(arranged) => arranged.point.as_slice(),
            None => self.work.point.as_slice(),
        }
    }
}
