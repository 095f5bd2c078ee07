// Parts of rows with few common variables between them, by graphs that become coarser. (George Karypis and Vipin Kumar,
// 'Multilevel k-way partitioning scheme for irregular graphs', 1998.)
use crate::columns::{Lists, number_at, put};
use crate::graph::{Graph, matched};
use crate::marks::crossing_marks;
use crate::order::{Walk, numbers_below};
use bp_model::Model;
use std::alloc::{AllocError, Global};

// How many graphs there are at most, each coarser than the one before.
const MOST_LEVELS: u32 = 12;

// How many vertices a part has at least where parts are grown.
const LEAST_VERTICES: u32 = 4;

// How often each vertex is looked at on a level.
const PASSES: u32 = 3;

// A graph, and for each of its vertices the vertex of the next coarser graph, of so many.
#[derive(Drop)]
struct Level {
    // The graph of this level; on the first level its vertices are the rows.
    graph: Graph,
    // By number of the vertex: the vertex of the next coarser graph, which one or two have.
    merged: Vec<u32>,
    // How many vertices the next coarser graph has.
    count: u32,
}

impl Level {
    // For each vertex its part, of so many, where those of the coarser vertices are known, or none.
    fn parts(&self, alloc: Global, coarser: &[u32], count: u32) -> Result<Vec<u32>, AllocError> {
        if coarser.is_empty() {
            grown(alloc, &self.graph, count)
        } else {
            handed_down(alloc, self.merged.as_slice(), coarser)
        }
    }
}

/// The graphs of a model's rows, each coarser than the one before.
#[derive(Drop)]
pub struct Levels {
    // The graphs, at most 12, the finest first.
    all: Vec<Level>,
}

impl Levels {
    /// The graphs of a model's rows.
    pub fn new(alloc: Global, m: &Model, columns: &Lists) -> Result<Levels, AllocError> {
        let graph = Graph::of_rows(alloc, m, columns)?;
        let mut levels = Levels {
            all: Vec::new(alloc),
        };
        levels.add(alloc, graph)?;
        for _ in 1..MOST_LEVELS {
            levels.add_coarser(alloc)?;
        }
        Ok(levels)
    }

    // Adds a graph.
    fn add(&mut self, alloc: Global, graph: Graph) -> Result<(), AllocError> {
        match matched(alloc, &graph) {
            Ok((merged, count)) => {
                self.all.push(Level {
                    graph,
                    merged,
                    count,
                })?;
                Ok(())
            }
            Err(fault) => Err(fault),
        }
    }

    // Adds the last graph with its vertices merged.
    fn add_coarser(&mut self, alloc: Global) -> Result<(), AllocError> {
        match self.all.last() {
            Some(level) => {
                let graph = level
                    .graph
                    .merged(alloc, level.merged.as_slice(), level.count)?;
                self.add(alloc, graph)
            }
            None => Ok(()),
        }
    }

    // For each row its part, of so many: parts are grown in a coarse graph, and mended in each finer one.
    fn parts(&self, alloc: Global, count: u32) -> Result<Vec<u32>, AllocError> {
        let mut parts = Vec::new(alloc);
        for level in self.all.as_slice().iter().rev() {
            if level.graph.vertices >= count.saturating_mul(LEAST_VERTICES) {
                parts = level.parts(alloc, parts.as_slice(), count)?;
                mend(alloc, &level.graph, parts.as_mut_slice(), count)?;
            }
        }
        Ok(parts)
    }

    /// Marks for the rows that cross so many parts, which have few common variables: rows whose neighbours are in their own
    /// part come first, and then those with the fewest in others.
    pub fn marks(&self, alloc: Global, m: &Model, count: u32) -> Result<Vec<bool>, AllocError> {
        let parts = self.parts(alloc, count)?;
        let mut order = numbers_below(alloc, m.rows())?;
        if let Some(level) = self.all.first() {
            order.sort_by_key(|row| crossings_of(&level.graph, parts.as_slice(), *row))?;
        }
        crossing_marks(alloc, m, order.as_slice(), parts.as_slice())
    }
}

fn crossings_of(graph: &Graph, parts: &[u32], row: u32) -> u32 {
    let own = number_at(parts, row);
    let mut crossings: u32 = 0;
    for other in graph.neighbours.of(row) {
        if number_at(parts, *other) != own {
            crossings = crossings.saturating_add(1);
        }
    }
    crossings
}

// The part of each vertex from that of the coarser one.
fn handed_down(alloc: Global, merged: &[u32], parts: &[u32]) -> Result<Vec<u32>, AllocError> {
    let mut finer = Vec::new(alloc);
    for vertex in merged {
        finer.push(number_at(parts, *vertex))?;
    }
    Ok(finer)
}

// The vertices breadth first.
fn grown_order(alloc: Global, graph: &Graph) -> Result<Vec<u32>, AllocError> {
    let seen = Vec::from_elem(alloc, false, graph.vertices as usize)?;
    let mut walk = Walk::new(alloc, seen);
    for vertex in 0..graph.vertices {
        walk.come_to(vertex);
        for _ in 0..graph.vertices {
            let Some(next) = walk.next() else {
                break;
            };
            for other in graph.neighbours.of(next) {
                walk.come_to(*other);
            }
        }
    }
    walk.finished()
}

// Parts of a graph, of about as many rows each, grown breadth first one behind the other.
fn grown(alloc: Global, graph: &Graph, count: u32) -> Result<Vec<u32>, AllocError> {
    let order = grown_order(alloc, graph)?;
    let mut parts = Vec::from_elem(alloc, 0u32, graph.vertices as usize)?;
    let target = graph.rows / count.max(1);
    let mut part: u32 = 0;
    let mut rows: u32 = 0;
    for vertex in order.as_slice() {
        put(parts.as_mut_slice(), *vertex, part);
        rows = rows.saturating_add(number_at(graph.weights.as_slice(), *vertex));
        if target <= rows && part.saturating_add(1) < count {
            part = part.saturating_add(1);
            rows = 0;
        }
    }
    Ok(parts)
}

// Moves vertices into the parts that most of their edges lead to, as long as no part becomes too large.
fn mend(alloc: Global, graph: &Graph, parts: &mut [u32], count: u32) -> Result<(), AllocError> {
    let mut rows = Vec::from_elem(alloc, 0u32, count as usize)?;
    let links = Vec::from_elem(alloc, 0u32, count as usize)?;
    for vertex in 0..graph.vertices {
        if let Some(sum) = rows.get_mut(number_at(parts, vertex) as usize) {
            *sum = sum.saturating_add(number_at(graph.weights.as_slice(), vertex));
        }
    }
    let most = graph.rows.saturating_mul(5) / count.saturating_mul(4).max(1);
    let mut sizes = Sizes {
        rows,
        most: most.saturating_add(1),
        links,
    };
    for _ in 0..PASSES {
        for vertex in 0..graph.vertices {
            sizes.move_vertex(graph, parts, vertex);
        }
    }
    Ok(())
}

// How many rows each part has, how many it may have, and how many edges lead from a vertex to each part.
#[derive(Drop)]
struct Sizes {
    // By number of the part: how many rows it has.
    rows: Vec<u32>,
    // How many rows a part may have: an equal share, a quarter of it and one more. No move takes a part past it.
    most: u32,
    // By number of the part: how many edges lead there from the vertex at hand; all 0 between two vertices.
    links: Vec<u32>,
}

impl Sizes {
    // Moves a vertex where more of its edges lead than into its own part.
    fn move_vertex(&mut self, graph: &Graph, parts: &mut [u32], vertex: u32) {
        let own = number_at(parts, vertex);
        let part = self.best_part(graph, parts, vertex);
        if part == own {
            return;
        }
        let weight = number_at(graph.weights.as_slice(), vertex);
        if let Some(rows) = self.rows.get_mut(own as usize) {
            *rows = rows.saturating_sub(weight);
        }
        if let Some(rows) = self.rows.get_mut(part as usize) {
            *rows = rows.saturating_add(weight);
        }
        put(parts, vertex, part);
    }

    // The part with room that most edges of a vertex lead to, its own where none has more.
    fn best_part(&mut self, graph: &Graph, parts: &[u32], vertex: u32) -> u32 {
        let neighbours = graph.neighbours.of(vertex);
        for other in neighbours {
            if let Some(count) = self.links.get_mut(number_at(parts, *other) as usize) {
                *count = count.saturating_add(1);
            }
        }
        let weight = number_at(graph.weights.as_slice(), vertex);
        let mut best = number_at(parts, vertex);
        let mut most = number_at(self.links.as_slice(), best);
        for other in neighbours {
            let part = number_at(parts, *other);
            let links = number_at(self.links.as_slice(), part);
            let rows = number_at(self.rows.as_slice(), part);
            if most < links && rows.saturating_add(weight) <= self.most {
                most = links;
                best = part;
            }
        }
        for other in neighbours {
            put(self.links.as_mut_slice(), number_at(parts, *other), 0);
        }
        best
    }
}
