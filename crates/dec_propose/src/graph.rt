// Graphs of rows, and coarser ones of pairs of their vertices.
use crate::columns::{Lists, number_at, put};
use bp_model::Model;
use std::alloc::{AllocError, Global};

// What stands for the new number of a vertex that has none.
const FREE: u32 = u32::MAX;

/// A graph: how many rows and vertices there are, for each vertex how many rows it stands for, its edges, each in both
/// directions, and its neighbours, one that several edges lead to as often.
#[derive(Drop)]
pub struct Graph {
    /// How many rows the model has: the sum of the weights.
    pub rows: u32,
    /// How many vertices there are, at most one for each row.
    pub vertices: u32,
    /// By number of the vertex: how many rows it stands for.
    pub weights: Vec<u32>,
    // The edges as pairs of vertices, in both directions, each as often as there are between the two.
    edges: Vec<(u32, u32)>,
    /// By number of the vertex: the other ends of its edges.
    pub neighbours: Lists,
}

impl Graph {
    /// The graph of the rows of a model: each two rows that follow one another among those of a variable are neighbours.
    pub fn of_rows(alloc: Global, m: &Model, columns: &Lists) -> Result<Graph, AllocError> {
        let weights = Vec::from_elem(alloc, 1, m.rows() as usize)?;
        match edges_of(alloc, m, columns) {
            Ok(edges) => Graph::new(alloc, m.rows(), m.rows(), weights, edges),
            Err(fault) => Err(fault),
        }
    }

    // The graph of so many rows and vertices with these weights and edges.
    fn new(
        alloc: Global,
        rows: u32,
        vertices: u32,
        weights: Vec<u32>,
        edges: Vec<(u32, u32)>,
    ) -> Result<Graph, AllocError> {
        match Lists::new(alloc, vertices as usize, edges.as_slice()) {
            Ok(neighbours) => Ok(Graph {
                rows,
                vertices,
                weights,
                edges,
                neighbours,
            }),
            Err(fault) => Err(fault),
        }
    }

    /// The graph whose vertices are those of this one merged, so many by their new numbers.
    pub fn merged(
        &self,
        alloc: Global,
        merged: &[u32],
        vertices: u32,
    ) -> Result<Graph, AllocError> {
        let mut weights = Vec::from_elem(alloc, 0u32, vertices as usize)?;
        for (vertex, weight) in merged.iter().zip(self.weights.as_slice()) {
            if let Some(sum) = weights.get_mut(*vertex as usize) {
                *sum = sum.saturating_add(*weight);
            }
        }
        match merged_edges(alloc, merged, self.edges.as_slice()) {
            Ok(edges) => Graph::new(alloc, self.rows, vertices, weights, edges),
            Err(fault) => Err(fault),
        }
    }
}

// The edges between each two rows that follow one another among those of a variable, in both directions.
fn edges_of(alloc: Global, m: &Model, columns: &Lists) -> Result<Vec<(u32, u32)>, AllocError> {
    let mut edges = Vec::new(alloc);
    for var in 0..m.vars() {
        for pair in columns.of(var).windows(2) {
            if let [one, other] = pair {
                edges.extend_from_slice(&[(*one, *other), (*other, *one)])?;
            }
        }
    }
    Ok(edges)
}

// The edges whose ends are merged to different vertices.
fn merged_edges(
    alloc: Global,
    merged: &[u32],
    edges: &[(u32, u32)],
) -> Result<Vec<(u32, u32)>, AllocError> {
    let mut all = Vec::new(alloc);
    for (one, other) in edges {
        let one = number_at(merged, *one);
        let other = number_at(merged, *other);
        if one != other {
            all.push((one, other))?;
        }
    }
    Ok(all)
}

/// Merges each vertex with the free neighbour that most edges lead to: new numbers of vertices, and how many there are.
/// (Heavy-edge matching.)
pub fn matched(alloc: Global, graph: &Graph) -> Result<(Vec<u32>, u32), AllocError> {
    let mut links = Vec::from_elem(alloc, 0u32, graph.vertices as usize)?;
    let mut merged = Vec::from_elem(alloc, FREE, graph.vertices as usize)?;
    let mut count: u32 = 0;
    for vertex in 0..graph.vertices {
        if number_at(merged.as_slice(), vertex) == FREE {
            let mate = heaviest(graph, merged.as_slice(), links.as_mut_slice(), vertex);
            put(merged.as_mut_slice(), vertex, count);
            put(merged.as_mut_slice(), mate, count);
            count = count.saturating_add(1);
        }
    }
    Ok((merged, count))
}

// The free neighbour of a vertex that most edges lead to, or the vertex itself.
fn heaviest(graph: &Graph, merged: &[u32], links: &mut [u32], vertex: u32) -> u32 {
    let mut best = vertex;
    let mut most: u32 = 0;
    for other in graph.neighbours.of(vertex) {
        if let Some(count) = links.get_mut(*other as usize) {
            *count = count.saturating_add(1);
            if most < *count && number_at(merged, *other) == FREE {
                most = *count;
                best = *other;
            }
        }
    }
    for other in graph.neighbours.of(vertex) {
        put(links, *other, 0);
    }
    best
}
