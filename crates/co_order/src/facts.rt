//! What two lines force in a knot.
use crate::knot::{MOST_STEPS, Search};
use crate::lists::number_at;
use crate::source::Source;
use crate::web::START;
use std::alloc::{AllocError, Global};
use std::collections::BTreeMap;
use std::ops::Bound;

/// Why a fact is known in a knot.
#[derive(Clone, Copy)]
pub(crate) enum Ground {
    /// By two lines.
    Two,
    /// It is taken so in the case of this depth.
    Taken(usize),
    /// A member of one block stands before one of the other.
    Blocks {
        one: usize,
        other: usize,
        first: usize,
        second: usize,
    },
}

/// The one stands before the other, by their places in the knot.
#[derive(Clone, Copy)]
pub(crate) struct Known {
    pub(crate) from: usize,
    pub(crate) to: usize,
    pub(crate) ground: Ground,
}

/// Transactions of the knot, by a record.
type ByRecord = BTreeMap<usize, Vec<usize>>;

/// Adds a transaction to those of a record.
fn add_to(
    alloc: Global,
    found: &mut ByRecord,
    record: usize,
    place: usize,
) -> Result<(), AllocError> {
    match found.get_mut(&record) {
        Some(places) => places.push(place)?,
        None => {
            let mut places = Vec::new(alloc);
            places.push(place)?;
            found.insert(record, places)?;
        }
    }
    Ok(())
}

impl Search<'_, '_, '_> {
    /// Adds a fact by two lines, where it is new.
    fn add_fact(&mut self, from: usize, to: usize) -> Result<(), AllocError> {
        self.spent = self.spent.saturating_add(1);
        if self.reaches(from, to) {
            return Ok(());
        }
        self.mark(from, to);
        self.facts.push(Known {
            from,
            to,
            ground: Ground::Two,
        })?;
        Ok(())
    }

    /// Adds the fact that one of the knot stands before a transaction, where that is another one of the knot.
    fn add_edge(&mut self, from: usize, to: Option<usize>) -> Result<(), AllocError> {
        if let Some(txn) = to {
            if let Some(to) = self.place_of(txn) {
                if to != from {
                    self.add_fact(from, to)?;
                }
            }
        }
        Ok(())
    }

    /// Adds the facts by reads. Takes in who read the start's block of a record.
    fn facts_by_reads(&mut self, behind: &mut ByRecord) -> Result<(), AllocError> {
        let web = self.web;
        let starts = web.digest.read_starts.as_slice();
        for place in 0..self.ids.len() {
            let txn = self.id(place);
            for at in number_at(starts, txn)..number_at(starts, txn.saturating_add(1)) {
                let read = match web.digest.read_at(at) {
                    Some(read) => read,
                    None => break,
                };
                if let Source::One(source) = read.source {
                    if let Some(from) = self.place_of(source) {
                        self.add_fact(from, place)?;
                    }
                }
                let least = web.least_of(at);
                self.add_edge(place, least.first)?;
                self.add_edge(place, least.second)?;
                if web.block_of(&read) == START {
                    add_to(self.alloc, behind, read.record, place)?;
                }
            }
        }
        Ok(())
    }

    /// Adds the facts by what was left: who stands in the start's block of a record, and these, stands before a version that stands behind none.
    fn facts_by_starts(&mut self, behind: &mut ByRecord) -> Result<(), AllocError> {
        let web = self.web;
        let starts = web.digest.left_starts.as_slice();
        for place in 0..self.ids.len() {
            let txn = self.id(place);
            for at in number_at(starts, txn)..number_at(starts, txn.saturating_add(1)) {
                if let Some(left) = web.digest.left_at(at) {
                    if number_at(web.blocks.as_slice(), at) == START {
                        add_to(self.alloc, behind, left.record, place)?;
                    }
                }
            }
        }
        for place in 0..self.ids.len() {
            let txn = self.id(place);
            for at in number_at(starts, txn)..number_at(starts, txn.saturating_add(1)) {
                if !web.is_root(at) {
                    continue;
                }
                if self.spent > MOST_STEPS {
                    return Ok(());
                }
                if let Some(left) = web.digest.left_at(at) {
                    if let Some(places) = behind.get(&left.record) {
                        self.facts_to(places.as_slice(), place)?;
                    }
                }
            }
        }
        Ok(())
    }

    /// Adds the facts that these stand before another one.
    fn facts_to(&mut self, places: &[usize], to: usize) -> Result<(), AllocError> {
        for from in places {
            if *from != to {
                self.add_fact(*from, to)?;
            }
        }
        Ok(())
    }

    /// Who of the knot wrote what a scan may have passed over, so that the scan stands before it: by the records.
    fn behind_scans(&self) -> Result<ByRecord, AllocError> {
        let web = self.web;
        let mut found: ByRecord = BTreeMap::new(self.alloc);
        let starts = web.digest.left_starts.as_slice();
        for place in 0..self.ids.len() {
            let txn = self.id(place);
            for at in number_at(starts, txn)..number_at(starts, txn.saturating_add(1)) {
                if let Some(left) = web.digest.left_at(at) {
                    let erased = number_at(web.digest.erased.as_slice(), left.record);
                    let behind = web.is_root(at) || web.least_of_start(left.record).has(txn);
                    if behind && erased != left.record {
                        add_to(self.alloc, &mut found, left.record, place)?;
                    }
                }
            }
        }
        Ok(found)
    }

    /// Adds the facts by what scans passed over, as far as the bound on steps lets it.
    fn facts_by_scans(&mut self) -> Result<(), AllocError> {
        let web = self.web;
        let written = self.behind_scans()?;
        let starts = web.digest.passed_starts.as_slice();
        for place in 0..self.ids.len() {
            let txn = self.id(place);
            for at in number_at(starts, txn)..number_at(starts, txn.saturating_add(1)) {
                let span = match web.digest.passed.get(at) {
                    Some(passed) => passed.span,
                    None => break,
                };
                if self.spent > MOST_STEPS {
                    return Ok(());
                }
                self.spent = self.spent.saturating_add(1);
                for (record, places) in written.range((
                    Bound::Included(&span.first),
                    Bound::Unbounded,
                )) {
                    if *record >= span.past {
                        break;
                    }
                    for to in places.as_slice() {
                        self.add_fact(place, *to)?;
                    }
                }
            }
        }
        Ok(())
    }

    /// Adds the facts by two lines.
    pub(crate) fn facts_by_two_lines(&mut self) -> Result<(), AllocError> {
        let mut behind: ByRecord = BTreeMap::new(self.alloc);
        self.facts_by_reads(&mut behind)?;
        self.facts_by_starts(&mut behind)?;
        self.facts_by_scans()
    }
}
