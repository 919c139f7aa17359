//! Graphs of numbered nodes, and their components.
use crate::lists::{number_at, put_at, zeros};
use std::alloc::{AllocError, Global};

/// An edge.
#[derive(Clone, Copy)]
pub(crate) struct Edge {
    /// Where it begins.
    pub(crate) from: usize,
    /// Where it leads.
    pub(crate) to: usize,
}

/// The edges of each node, one node behind the other.
#[derive(Drop)]
pub(crate) struct Graph {
    /// How many nodes there are.
    pub(crate) nodes: usize,
    starts: Vec<usize>,
    ends: Vec<usize>,
}

impl Graph {
    /// The graph of these edges; turned, each leads back.
    pub(crate) fn of(
        alloc: Global,
        nodes: usize,
        edges: &[Edge],
        turned: bool,
    ) -> Result<Graph, AllocError> {
        let mut starts = zeros(alloc, nodes.saturating_add(1))?;
        for edge in edges {
            let node = if turned { edge.to } else { edge.from };
            let next = node.saturating_add(1);
            let count = number_at(starts.as_slice(), next);
            put_at(starts.as_mut_slice(), next, count.saturating_add(1));
        }
        let mut sum = 0usize;
        for node in 0..starts.len() {
            sum = sum.saturating_add(number_at(starts.as_slice(), node));
            put_at(starts.as_mut_slice(), node, sum);
        }
        let mut next = starts.clone()?;
        let mut ends = zeros(alloc, edges.len())?;
        for edge in edges {
            let (node, end) = if turned {
                (edge.to, edge.from)
            } else {
                (edge.from, edge.to)
            };
            let place = number_at(next.as_slice(), node);
            put_at(ends.as_mut_slice(), place, end);
            put_at(next.as_mut_slice(), node, place.saturating_add(1));
        }
        Ok(Graph {
            nodes,
            starts,
            ends,
        })
    }

    /// Where the edges of a node begin.
    pub(crate) fn first(&self, node: usize) -> usize {
        number_at(self.starts.as_slice(), node)
    }

    /// Where they end.
    pub(crate) fn past(&self, node: usize) -> usize {
        number_at(self.starts.as_slice(), node.saturating_add(1))
    }

    /// Where an edge leads.
    pub(crate) fn end(&self, edge: usize) -> usize {
        number_at(self.ends.as_slice(), edge)
    }

    /// How many edges there are.
    pub(crate) fn edges(&self) -> usize {
        self.ends.len()
    }
}

/// The nodes in the order in which a walk over the graph leaves them.
fn left_in_order(alloc: Global, graph: &Graph) -> Result<Vec<usize>, AllocError> {
    let mut seen = zeros(alloc, graph.nodes)?;
    let mut next = zeros(alloc, graph.nodes)?;
    let mut left = Vec::new(alloc);
    let mut stack: Vec<usize> = Vec::new(alloc);
    let steps = graph.edges().saturating_add(graph.nodes.saturating_mul(2));
    for root in 0..graph.nodes {
        if number_at(seen.as_slice(), root) != 0 {
            continue;
        }
        put_at(seen.as_mut_slice(), root, 1);
        put_at(next.as_mut_slice(), root, graph.first(root));
        stack.push(root)?;
        for _ in 0..steps {
            let node = match stack.last() {
                Some(node) => *node,
                None => break,
            };
            let edge = number_at(next.as_slice(), node);
            if edge >= graph.past(node) {
                let _ = stack.pop();
                left.push(node)?;
                continue;
            }
            put_at(next.as_mut_slice(), node, edge.saturating_add(1));
            let end = graph.end(edge);
            if number_at(seen.as_slice(), end) == 0 {
                put_at(seen.as_mut_slice(), end, 1);
                put_at(next.as_mut_slice(), end, graph.first(end));
                stack.push(end)?;
            }
        }
    }
    Ok(left)
}

/// For each node the number of its strongly connected component, from 1 on (Sharir 1981).
pub(crate) fn components(
    alloc: Global,
    nodes: usize,
    edges: &[Edge],
) -> Result<Vec<usize>, AllocError> {
    let graph = Graph::of(alloc, nodes, edges, false)?;
    let left = left_in_order(alloc, &graph)?;
    drop(graph);
    let back = Graph::of(alloc, nodes, edges, true)?;
    let mut component = zeros(alloc, nodes)?;
    let mut stack: Vec<usize> = Vec::new(alloc);
    let mut count = 0usize;
    let steps = back.edges().saturating_add(nodes);
    for root in left.as_slice().iter().rev() {
        if number_at(component.as_slice(), *root) != 0 {
            continue;
        }
        count = count.saturating_add(1);
        put_at(component.as_mut_slice(), *root, count);
        stack.push(*root)?;
        for _ in 0..steps {
            let node = match stack.pop() {
                Some(node) => node,
                None => break,
            };
            for edge in back.first(node)..back.past(node) {
                let end = back.end(edge);
                if number_at(component.as_slice(), end) == 0 {
                    put_at(component.as_mut_slice(), end, count);
                    stack.push(end)?;
                }
            }
        }
    }
    Ok(component)
}
