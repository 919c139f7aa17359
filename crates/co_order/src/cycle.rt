//! The shortest cycles.
use crate::graph::{Edge, Graph, components};
use crate::lists::{number_at, put_at, zeros};
use std::alloc::{AllocError, Global};

/// Of the cycles of transactions, which are the first nodes, the one that begins with the least transaction that is on one: a shortest, and of
/// those the least. Nodes past the transactions only gather edges: a way through them counts as one edge. Between two of them an edge leads to the
/// greater one.
pub(crate) fn least_cycle(
    alloc: Global,
    transactions: usize,
    nodes: usize,
    edges: &[Edge],
) -> Result<Option<Vec<usize>>, AllocError> {
    let component = components(alloc, nodes, edges)?;
    let mut sizes = zeros(alloc, nodes.saturating_add(1))?;
    for txn in 0..transactions {
        let number = number_at(component.as_slice(), txn);
        let size = number_at(sizes.as_slice(), number);
        put_at(sizes.as_mut_slice(), number, size.saturating_add(1));
    }
    for txn in 0..transactions {
        let number = number_at(component.as_slice(), txn);
        if number_at(sizes.as_slice(), number) > 1 {
            return Ok(Some(cycle_from(
                alloc,
                transactions,
                nodes,
                edges,
                component.as_slice(),
                txn,
            )?));
        }
    }
    Ok(None)
}

/// How many transactions the shortest way from each node of the component to a transaction has, that one and the node counted where it is one; 0
/// where there is no way.
fn distances(
    alloc: Global,
    transactions: usize,
    nodes: usize,
    edges: &[Edge],
    component: &[usize],
    target: usize,
) -> Result<Vec<usize>, AllocError> {
    let back = Graph::of(alloc, nodes, edges, true)?;
    let mut distance = zeros(alloc, nodes)?;
    put_at(distance.as_mut_slice(), target, 1);
    let here = number_at(component, target);
    let mut now: Vec<usize> = Vec::new(alloc);
    now.push(target)?;
    let steps = back.edges().saturating_mul(2);
    for level in 1..transactions.saturating_add(2) {
        let mut next: Vec<usize> = Vec::new(alloc);
        for _ in 0..=steps {
            let node = match now.pop() {
                Some(node) => node,
                None => break,
            };
            if number_at(distance.as_slice(), node) != level {
                continue;
            }
            for edge in back.first(node)..back.past(node) {
                let from = back.end(edge);
                if number_at(component, from) != here {
                    continue;
                }
                let reach = if from < transactions {
                    level.saturating_add(1)
                } else {
                    level
                };
                let known = number_at(distance.as_slice(), from);
                if known == 0 || known > reach {
                    put_at(distance.as_mut_slice(), from, reach);
                    if reach == level {
                        now.push(from)?;
                    } else {
                        next.push(from)?;
                    }
                }
            }
        }
        if next.is_empty() {
            break;
        }
        now = next;
    }
    Ok(distance)
}

/// Of the transactions to which a node leads, by the nodes that gather edges, the nearest, and of those the least.
fn nearest(graph: &Graph, distance: &[usize], onward: &[usize], node: usize) -> Option<usize> {
    let mut best: Option<usize> = None;
    let mut least = usize::MAX;
    for edge in graph.first(node)..graph.past(node) {
        let end = graph.end(edge);
        let far = number_at(distance, end);
        if far == 0 || far > least {
            continue;
        }
        let txn = number_at(onward, end);
        best = match best {
            Some(old) if far == least && old <= txn => Some(old),
            _ => Some(txn),
        };
        least = far;
    }
    best
}

/// For each node the nearest transaction from it on, of those the least; a transaction is its own.
fn onward_of(
    alloc: Global,
    transactions: usize,
    graph: &Graph,
    distance: &[usize],
) -> Result<Vec<usize>, AllocError> {
    let mut onward = Vec::new(alloc);
    for node in 0..graph.nodes {
        onward.push(node)?;
    }
    for back in 0..graph.nodes.saturating_sub(transactions) {
        let node = graph.nodes.saturating_sub(back).saturating_sub(1);
        if number_at(distance, node) == 0 {
            continue;
        }
        if let Some(txn) = nearest(graph, distance, onward.as_slice(), node) {
            put_at(onward.as_mut_slice(), node, txn);
        }
    }
    Ok(onward)
}

/// A shortest cycle from a transaction, and of those the least.
fn cycle_from(
    alloc: Global,
    transactions: usize,
    nodes: usize,
    edges: &[Edge],
    component: &[usize],
    start: usize,
) -> Result<Vec<usize>, AllocError> {
    let distance = distances(alloc, transactions, nodes, edges, component, start)?;
    let graph = Graph::of(alloc, nodes, edges, false)?;
    let onward = onward_of(alloc, transactions, &graph, distance.as_slice())?;
    let mut cycle = Vec::new(alloc);
    cycle.push(start)?;
    let mut at = start;
    for _ in 0..transactions {
        match nearest(&graph, distance.as_slice(), onward.as_slice(), at) {
            Some(txn) if txn != start => {
                cycle.push(txn)?;
                at = txn;
            }
            _ => break,
        }
    }
    Ok(cycle)
}
