//! What reaches what in a knot.
use crate::knot::Search;
use crate::lists::{number_at, put_at, zeros};
use std::alloc::AllocError;

impl Search<'_, '_, '_> {
    /// The word and the bit of a pair.
    fn word(&self, row: usize, word: usize) -> u64 {
        match self
            .reach
            .get(row.saturating_mul(self.words).saturating_add(word))
        {
            Some(bits) => *bits,
            None => 0,
        }
    }

    /// Whether one reaches another.
    pub(crate) fn reaches(&self, from: usize, to: usize) -> bool {
        self.word(from, to / 64) & (1u64 << (to % 64)) != 0
    }

    /// Marks that one reaches another.
    pub(crate) fn mark(&mut self, from: usize, to: usize) {
        let at = from.saturating_mul(self.words).saturating_add(to / 64);
        if let Some(bits) = self.reach.get_mut(at) {
            *bits |= 1u64 << (to % 64);
        }
    }

    /// Lets one reach all that another reaches.
    fn join(&mut self, from: usize, to: usize) {
        self.mark(from, to);
        for word in 0..self.words {
            let more = self.word(to, word);
            let at = from.saturating_mul(self.words).saturating_add(word);
            if let Some(bits) = self.reach.get_mut(at) {
                *bits |= more;
            }
        }
        self.spent = self.spent.saturating_add(self.words);
    }

    /// Finds what reaches what. Gives whether nothing reaches itself.
    pub(crate) fn close(&mut self) -> Result<bool, AllocError> {
        let count = self.ids.len();
        let mut starts = zeros(self.alloc, count.saturating_add(1))?;
        let mut open = zeros(self.alloc, count)?;
        for fact in self.facts.as_slice() {
            let out = number_at(open.as_slice(), fact.from);
            put_at(open.as_mut_slice(), fact.from, out.saturating_add(1));
            let next = fact.to.saturating_add(1);
            let came = number_at(starts.as_slice(), next);
            put_at(starts.as_mut_slice(), next, came.saturating_add(1));
        }
        let mut sum = 0usize;
        for node in 0..starts.len() {
            sum = sum.saturating_add(number_at(starts.as_slice(), node));
            put_at(starts.as_mut_slice(), node, sum);
        }
        let mut next = starts.clone()?;
        let mut before = zeros(self.alloc, self.facts.len())?;
        for fact in self.facts.as_slice() {
            let place = number_at(next.as_slice(), fact.to);
            put_at(before.as_mut_slice(), place, fact.from);
            put_at(next.as_mut_slice(), fact.to, place.saturating_add(1));
        }
        for bits in self.reach.as_mut_slice() {
            *bits = 0;
        }
        self.spent = self.spent.saturating_add(self.reach.len());
        let mut ready: Vec<usize> = Vec::new(self.alloc);
        for node in 0..count {
            if number_at(open.as_slice(), node) == 0 {
                ready.push(node)?;
            }
        }
        let mut done = 0usize;
        for _ in 0..count {
            let node = match ready.pop() {
                Some(node) => node,
                None => break,
            };
            done = done.saturating_add(1);
            let first = number_at(starts.as_slice(), node);
            let past = number_at(starts.as_slice(), node.saturating_add(1));
            for at in first..past {
                let from = number_at(before.as_slice(), at);
                self.join(from, node);
                let left = number_at(open.as_slice(), from).saturating_sub(1);
                put_at(open.as_mut_slice(), from, left);
                if left == 0 {
                    ready.push(from)?;
                }
            }
        }
        Ok(done == count)
    }
}
