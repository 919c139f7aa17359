//! Orders in which blocks stand by ranks.
use crate::graph::{Edge, Graph};
use crate::lists::{number_at, put_at, zeros};
use crate::web::{RING, START, VERSION, Web};
use std::alloc::{AllocError, Global};
use std::collections::BTreeMap;

/// The first version of a block, by record and rank.
#[derive(Clone, Copy, PartialEq, Eq, PartialOrd, Ord)]
struct Ranked {
    record: usize,
    rank: usize,
}

/// The edges by two lines, and those of the blocks of each record in the order of these ranks. Behind each block stands a node of its own.
pub(crate) fn ranked_edges(
    alloc: Global,
    web: &Web,
    ranks: &[usize],
) -> Result<Vec<Edge>, AllocError> {
    let mut edges = web.edges(alloc)?;
    let digest = &web.digest;
    let nodes = web.nodes();
    let mut roots: BTreeMap<Ranked, usize> = BTreeMap::new(alloc);
    for place in 0..digest.left.len() {
        if let Some(left) = digest.left_at(place) {
            if web.is_root(place) {
                roots.insert(
                    Ranked {
                        record: left.record,
                        rank: number_at(ranks, left.txn),
                    },
                    place,
                )?;
            }
        }
    }
    let mut last: Option<(usize, usize)> = None;
    for (ranked, place) in roots.iter() {
        if let Some((record, before)) = last {
            if record == ranked.record {
                if let Some(left) = digest.left_at(*place) {
                    edges.push(Edge {
                        from: nodes.saturating_add(before),
                        to: left.txn,
                    })?;
                }
            }
        }
        last = Some((ranked.record, *place));
    }
    for place in 0..digest.left.len() {
        let block = number_at(web.blocks.as_slice(), place);
        if let Some(left) = digest.left_at(place) {
            add_member(&mut edges, web, left.txn, left.record, block)?;
        }
    }
    for place in 0..digest.reads.len() {
        if let Some(read) = digest.read_at(place) {
            let block = web.block_of(&read);
            add_member(&mut edges, web, read.txn, read.record, block)?;
        }
    }
    Ok(edges)
}

/// Adds the edge from a member of a block to the node behind that.
fn add_member(
    edges: &mut Vec<Edge>,
    web: &Web,
    txn: usize,
    record: usize,
    block: usize,
) -> Result<(), AllocError> {
    if block < VERSION || block == RING || block == START {
        return Ok(());
    }
    if let Some(place) = web.digest.left_of(block.saturating_sub(VERSION), record) {
        edges.push(Edge {
            from: txn,
            to: web.nodes().saturating_add(place),
        })?;
    }
    Ok(())
}

/// How many nodes these edges have.
pub(crate) fn ranked_nodes(web: &Web) -> usize {
    web.nodes().saturating_add(web.digest.left.len())
}

/// The transactions in an order that the edges allow, the least rank in front; those on cycles and behind them are left out (Kahn 1962).
pub(crate) fn sorted(
    alloc: Global,
    transactions: usize,
    nodes: usize,
    edges: &[Edge],
    ranks: &[usize],
) -> Result<Vec<usize>, AllocError> {
    let graph = Graph::of(alloc, nodes, edges, false)?;
    let mut open = zeros(alloc, nodes)?;
    for edge in edges {
        let count = number_at(open.as_slice(), edge.to);
        put_at(open.as_mut_slice(), edge.to, count.saturating_add(1));
    }
    let mut ready: BTreeMap<usize, usize> = BTreeMap::new(alloc);
    let mut gathers: Vec<usize> = Vec::new(alloc);
    for node in 0..nodes {
        if number_at(open.as_slice(), node) == 0 {
            if node < transactions {
                ready.insert(number_at(ranks, node), node)?;
            } else {
                gathers.push(node)?;
            }
        }
    }
    let mut order = Vec::new(alloc);
    for _ in 0..nodes {
        let node = match gathers.pop() {
            Some(node) => node,
            None => {
                let next = match ready.iter().next() {
                    Some((rank, node)) => Some((*rank, *node)),
                    None => None,
                };
                match next {
                    Some((rank, node)) => {
                        let _ = ready.remove(&rank);
                        order.push(node)?;
                        node
                    }
                    None => break,
                }
            }
        };
        for edge in graph.first(node)..graph.past(node) {
            let end = graph.end(edge);
            let count = number_at(open.as_slice(), end).saturating_sub(1);
            put_at(open.as_mut_slice(), end, count);
            if count == 0 {
                if end < transactions {
                    ready.insert(number_at(ranks, end), end)?;
                } else {
                    gathers.push(end)?;
                }
            }
        }
    }
    Ok(order)
}
