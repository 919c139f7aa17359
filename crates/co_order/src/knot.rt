//! The search in a knot: transactions that two lines alone do not put in order.
use crate::blocks::{Block, blocks_in};
use crate::build::Build;
use crate::facts::{Ground, Known};
use crate::graph::Edge;
use crate::line::Line;
use crate::lists::number_at;
use crate::sorting::sorted;
use crate::web::Web;
use std::alloc::{AllocError, Global};

/// The most transactions of a knot.
pub(crate) const MOST_OF_KNOT: usize = 2_048;

/// The most steps of a search.
pub(crate) const MOST_STEPS: usize = 300_000_000;

/// A choice that was made.
#[derive(Clone, Copy)]
struct Choice {
    facts: usize,
    one: usize,
    other: usize,
    turned: bool,
}

/// What a search ends with.
#[derive(Drop)]
pub(crate) enum Searched {
    /// An order of the transactions of the knot.
    Order(Vec<usize>),
    /// There is none: the lines of that.
    Refuted(Vec<Line>),
    /// Neither was found.
    Open,
}

/// A search.
#[derive(Drop)]
pub(crate) struct Search<'w, 'i, 'r> {
    pub(crate) alloc: Global,
    pub(crate) web: &'w Web,
    pub(crate) ids: &'i [usize],
    pub(crate) ranks: &'r [usize],
    pub(crate) words: usize,
    pub(crate) blocks: Vec<Block>,
    pub(crate) facts: Vec<Known>,
    pub(crate) reach: Vec<u64>,
    pub(crate) spent: usize,
}

impl Search<'_, '_, '_> {
    /// The transaction at a place of the knot.
    pub(crate) fn id(&self, place: usize) -> usize {
        number_at(self.ids, place)
    }

    /// The place of a transaction in the knot, whose transactions ascend.
    pub(crate) fn place_of(&self, txn: usize) -> Option<usize> {
        match self.ids.binary_search(&txn) {
            Ok(place) => Some(place),
            Err(_) => None,
        }
    }

    /// The transactions in an order that the facts allow, the least rank in front.
    fn order(&self) -> Result<Vec<usize>, AllocError> {
        let mut edges = Vec::new(self.alloc);
        for fact in self.facts.as_slice() {
            edges.push(Edge {
                from: fact.from,
                to: fact.to,
            })?;
        }
        let mut ranks = Vec::new(self.alloc);
        for place in 0..self.ids.len() {
            ranks.push(number_at(self.ranks, self.id(place)))?;
        }
        let count = self.ids.len();
        let order = sorted(self.alloc, count, count, edges.as_slice(), ranks.as_slice())?;
        let mut found = Vec::new(self.alloc);
        for place in order.as_slice() {
            found.push(self.id(*place))?;
        }
        Ok(found)
    }
}

/// Searches a knot of these transactions, which ascend, for an order, or for a refutation.
pub(crate) fn search_knot(
    alloc: Global,
    build: &mut Build<'_, '_>,
    ids: &[usize],
    ranks: &[usize],
) -> Result<Searched, AllocError> {
    let words = (ids.len() / 64).saturating_add(1);
    let mut search = Search {
        alloc,
        web: build.web,
        ids,
        ranks,
        words,
        blocks: Vec::new(alloc),
        facts: Vec::new(alloc),
        reach: vec![in alloc; 0u64; words.saturating_mul(ids.len())]?,
        spent: 0,
    };
    blocks_in(&mut search)?;
    search.facts_by_two_lines()?;
    let mut choices: Vec<Choice> = Vec::new(alloc);
    let mut lines: Vec<Line> = Vec::new(alloc);
    for _ in 0..MOST_STEPS {
        if search.spent > MOST_STEPS {
            return Ok(Searched::Open);
        }
        if search.close()? {
            if search.settle()? {
                continue;
            }
            if search.spent > MOST_STEPS {
                return Ok(Searched::Open);
            }
            let (one, other) = match search.undecided() {
                Some(pair) => pair,
                None => return Ok(Searched::Order(search.order()?)),
            };
            lines.push(Line::Cases)?;
            lines.push(Line::Either(search.id(one), search.id(other)))?;
            build.either(search.id(one), search.id(other))?;
            let depth = choices.len();
            choices.push(Choice {
                facts: search.facts.len(),
                one,
                other,
                turned: false,
            })?;
            search.facts.push(Known {
                from: one,
                to: other,
                ground: Ground::Taken(depth),
            })?;
            continue;
        }
        build.known = choices.len();
        if !search.tell(build, &mut lines)? {
            return Ok(Searched::Open);
        }
        let mut turned = false;
        for _ in 0..=choices.len() {
            let choice = match choices.pop() {
                Some(choice) => choice,
                None => break,
            };
            if choice.turned {
                continue;
            }
            search.facts.truncate(choice.facts);
            lines.push(Line::Or(search.id(choice.other), search.id(choice.one)))?;
            let depth = choices.len();
            choices.push(Choice {
                facts: choice.facts,
                one: choice.one,
                other: choice.other,
                turned: true,
            })?;
            search.facts.push(Known {
                from: choice.other,
                to: choice.one,
                ground: Ground::Taken(depth),
            })?;
            turned = true;
            break;
        }
        if !turned {
            return Ok(Searched::Refuted(lines));
        }
    }
    Ok(Searched::Open)
}
