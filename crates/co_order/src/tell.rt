//! Telling of a cycle of facts.
use crate::blocks::Member;
use crate::build::Build;
use crate::cycle::least_cycle;
use crate::facts::{Ground, Known};
use crate::graph::Edge;
use crate::knot::Search;
use crate::line::Line;
use crate::lists::{number_at, put_at, zeros};
use std::alloc::AllocError;
use std::collections::BTreeMap;

impl Search<'_, '_, '_> {
    /// The numbers of facts that lead from one to another, of those below a bound: a shortest way.
    fn way(&self, from: usize, to: usize, bound: usize) -> Result<Vec<usize>, AllocError> {
        let count = self.ids.len();
        let mut came = zeros(self.alloc, count)?;
        let mut now: Vec<usize> = Vec::new(self.alloc);
        now.push(from)?;
        let mut found = false;
        let mut outs: BTreeMap<usize, Vec<usize>> = BTreeMap::new(self.alloc);
        for number in 0..bound.min(self.facts.len()) {
            if let Some(fact) = self.facts.get(number) {
                match outs.get_mut(&fact.from) {
                    Some(list) => list.push(number)?,
                    None => {
                        let mut list = Vec::new(self.alloc);
                        list.push(number)?;
                        outs.insert(fact.from, list)?;
                    }
                }
            }
        }
        for _ in 0..=count {
            if found || now.is_empty() {
                break;
            }
            let mut next: Vec<usize> = Vec::new(self.alloc);
            for node in now.as_slice() {
                if let Some(list) = outs.get(node) {
                    for number in list.as_slice() {
                        if let Some(fact) = self.facts.get(*number) {
                            if number_at(came.as_slice(), fact.to) == 0 {
                                put_at(came.as_mut_slice(), fact.to, number.saturating_add(1));
                                next.push(fact.to)?;
                                if fact.to == to {
                                    found = true;
                                }
                            }
                        }
                    }
                }
            }
            now = next;
        }
        let mut back: Vec<usize> = Vec::new(self.alloc);
        let mut at = to;
        for _ in 0..=count {
            let number = number_at(came.as_slice(), at);
            if number == 0 {
                break;
            }
            let number = number.saturating_sub(1);
            back.push(number)?;
            match self.facts.get(number) {
                Some(fact) => at = fact.from,
                None => break,
            }
            if at == from {
                break;
            }
        }
        back.as_mut_slice().reverse();
        Ok(back)
    }

    /// A cycle of facts, from its least transaction.
    fn ring(&self) -> Result<Vec<usize>, AllocError> {
        let count = self.ids.len();
        let mut edges = Vec::new(self.alloc);
        for fact in self.facts.as_slice() {
            edges.push(Edge {
                from: fact.from,
                to: fact.to,
            })?;
        }
        let cycle = least_cycle(self.alloc, count, count, edges.as_slice())?;
        match cycle {
            Some(cycle) => Ok(cycle),
            None => Ok(Vec::new(self.alloc)),
        }
    }

    /// The least fact that puts one before another.
    fn fact_between(&self, from: usize, to: usize) -> Option<usize> {
        for number in 0..self.facts.len() {
            if let Some(fact) = self.facts.get(number) {
                if fact.from == from && fact.to == to {
                    return Some(number);
                }
            }
        }
        None
    }

    /// What a member of a block has there first.
    fn member(&self, block: usize, txn: usize) -> Option<Member> {
        for member in self.blocks.get(block)?.members.as_slice() {
            if member.txn == txn {
                return Some(*member);
            }
        }
        None
    }

    /// Tells of a cycle of facts, and takes the steps that show it. Gives whether all could be.
    pub(crate) fn tell(
        &mut self,
        build: &mut Build<'_, '_>,
        lines: &mut Vec<Line>,
    ) -> Result<bool, AllocError> {
        let ring = self.ring()?;
        let count = self.facts.len();
        let mut needed = zeros(self.alloc, count)?;
        let mut ways: BTreeMap<usize, Vec<usize>> = BTreeMap::new(self.alloc);
        let mut round: Vec<usize> = Vec::new(self.alloc);
        for at in 0..ring.len() {
            let from = number_at(ring.as_slice(), at);
            let next = if at.saturating_add(1) < ring.len() {
                at.saturating_add(1)
            } else {
                0
            };
            let to = number_at(ring.as_slice(), next);
            match self.fact_between(from, to) {
                Some(number) => {
                    round.push(number)?;
                    put_at(needed.as_mut_slice(), number, 1);
                }
                None => return Ok(false),
            }
        }
        for back in 0..count {
            let number = count.saturating_sub(back).saturating_sub(1);
            if number_at(needed.as_slice(), number) == 0 {
                continue;
            }
            let fact = match self.facts.get(number) {
                Some(fact) => *fact,
                None => return Ok(false),
            };
            if let Ground::Blocks { first, second, .. } = fact.ground {
                let way = self.way(first, second, number)?;
                if way.is_empty() {
                    return Ok(false);
                }
                for step in way.as_slice() {
                    put_at(needed.as_mut_slice(), *step, 1);
                }
                ways.insert(number, way)?;
            }
        }
        let mut cycle = Vec::new(self.alloc);
        for place in ring.as_slice() {
            cycle.push(self.id(*place))?;
        }
        lines.push(Line::Cycle(cycle))?;
        let mut numbers = zeros(self.alloc, count)?;
        for number in 0..count {
            if number_at(needed.as_slice(), number) == 0 {
                continue;
            }
            let fact = match self.facts.get(number) {
                Some(fact) => *fact,
                None => return Ok(false),
            };
            let known = match ways.get(&number) {
                Some(way) => self.conclude(build, fact, way.as_slice(), numbers.as_slice(), lines)?,
                None => self.conclude(build, fact, &[], numbers.as_slice(), lines)?,
            };
            match known {
                Some(known) => put_at(numbers.as_mut_slice(), number, known),
                None => return Ok(false),
            }
        }
        let mut facts = Vec::new(self.alloc);
        for number in round.as_slice() {
            facts.push(number_at(numbers.as_slice(), *number))?;
        }
        build.shut(facts.as_slice())?;
        Ok(true)
    }

    /// Takes the steps of one fact, and tells its line. Gives its number among what is known.
    fn conclude(
        &self,
        build: &mut Build<'_, '_>,
        fact: Known,
        way: &[usize],
        numbers: &[usize],
        lines: &mut Vec<Line>,
    ) -> Result<Option<usize>, AllocError> {
        let one = self.id(fact.from);
        let other = self.id(fact.to);
        match fact.ground {
            Ground::Taken(depth) => Ok(Some(depth)),
            Ground::Two => match self.web.forced(one, other) {
                Some(forced) => {
                    lines.push(Line::Before(one, other, forced.first, forced.second))?;
                    build.two_lines(one, other, forced.why)
                }
                None => Ok(None),
            },
            Ground::Blocks {
                one: block,
                other: then,
                first,
                second,
            } => {
                let mut sum: Option<usize> = None;
                for step in way {
                    let known = number_at(numbers, *step);
                    sum = match sum {
                        None => Some(known),
                        Some(before) => Some(build.through(before, known)?),
                    };
                }
                let members = (
                    self.member(block, first),
                    self.member(then, second),
                    self.member(block, fact.from),
                );
                let (x, y, t) = match members {
                    (Some(x), Some(y), Some(t)) => (x, y, t),
                    _ => return Ok(None),
                };
                let blocks = (self.blocks.get(block), self.blocks.get(then));
                let (block, then) = match blocks {
                    (Some(block), Some(then)) => (block, then),
                    _ => return Ok(None),
                };
                let line = match self.web.root_line(other, then.record) {
                    Some(line) => line,
                    None => return Ok(None),
                };
                lines.push(Line::Before(one, other, t.line, line))?;
                let to_x = build.path_to(block.record, x.read, self.id(x.txn))?;
                let to_y = build.path_to(then.record, y.read, self.id(y.txn))?;
                let to_t = build.path_to(block.record, t.read, one)?;
                match (to_x, to_y, to_t, sum) {
                    (Some(to_x), Some(to_y), Some(to_t), Some(sum)) => {
                        let roots = build.apart(to_x, to_y, sum)?;
                        if fact.from == block.root {
                            return Ok(Some(roots));
                        }
                        Ok(Some(build.behind(to_t, other, roots)?))
                    }
                    _ => Ok(None),
                }
            }
        }
    }
}
