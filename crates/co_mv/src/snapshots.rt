//! The numbers of installs at which records are read.
ghost use Rattle.std.specs.Prelude.{◌≡◌, ◌==◌, ◌≤◌, nat_lt, not, length, max, OnOk};
ghost use Rattle.std.specs.List.{list_any};
ghost use Rattle.co_mv.specs.Versions.{sees, is_gone, is_kept, stays};
ghost use Rattle.co_mv.specs.Kept.{needed, held, stamp_of, entered, pinned, unpinned, greater, IsLeastHeldFrom, IsGreatestHeldBelow, IsNext};
ghost use Rattle.co_state.specs.Table.{look, lesser};

use crate::version::Version;
use co_base::Txn;
use co_stamps::Stamps;
use std::alloc::{AllocError, Global};

/// The number of installs, for each active transaction the number of installs at its first operation, and for
/// each reader that is pinned the number of installs at its pin.
#[derive(Drop)]
pub struct Snapshots {
    /// How many installs there were.
    pub installs: u64,
    /// How many there were at the first operation of each active transaction.
    pub stamps: Stamps,
    /// How many there were at each pin. The id of a pin stands where the number of a transaction does.
    pub pins: Stamps,
}

/// The lesser of two numbers, where there are any.
fn lesser(one: Option<u64>, other: Option<u64>) -> Option<u64>
    ensures { result ≡ lesser one other }
{
    match (one, other) {
        (Some(one), Some(other)) => Some(one.min(other)),
        (Some(one), None) => Some(one),
        (None, other) => other,
    }
}

/// The greater of two numbers, where there are any.
fn greater(one: Option<u64>, other: Option<u64>) -> Option<u64>
    ensures { result ≡ greater one other }
{
    match (one, other) {
        (Some(one), Some(other)) => Some(one.max(other)),
        (Some(one), None) => Some(one),
        (None, other) => other,
    }
}

impl Snapshots {
    /// How many installs an operation of a transaction sees.
    pub fn stamp_of(&self, t: Txn) -> u64
        ensures { result ≡ stamp_of self.now t }
    {
        match self.stamps.get(t) {
            Some(stamp) => stamp,
            None => self.installs,
        }
    }

    /// A transaction becomes active, or stays so.
    pub fn enter(&mut self, alloc: Global, t: Txn) -> Result<(), AllocError>
        ensures state { OnOk result (self.new ≡ entered self.old t) }
        ensures pins { self.new.pins ≡ self.old.pins }
    {
        match self.stamps.get(t) {
            Some(_) => Ok(()),
            None => self.stamps.insert(alloc, t, self.installs),
        }
    }

    /// How many installs there were at the pin of an id, if it is pinned.
    pub fn pin_of(&self, id: u32) -> Option<u64>
        ensures { result ≡ look self.now.pins id }
    {
        self.pins.get(Txn(id))
    }

    /// Pins an id at the number of installs.
    pub fn pin(&mut self, alloc: Global, id: u32) -> Result<(), AllocError>
        ensures { OnOk result (self.new ≡ pinned self.old id) }
    {
        self.pins.insert(alloc, Txn(id), self.installs)
    }

    /// Ends the pin of an id and gives its number, where it is pinned. Takes no memory.
    pub fn unpin(&mut self, id: u32) -> Option<u64>
        ensures number { result ≡ look self.old.pins id }
        ensures rest { self.new ≡ unpinned self.old id }
    {
        self.pins.remove(Txn(id))
    }

    /// Whether some active transaction or pinned reader holds a number.
    pub fn has_readers(&self) -> bool
        ensures { result ≡ not (length (held self.now) == 0) }
    {
        !self.stamps.is_empty() || !self.pins.is_empty()
    }

    /// The least number that is held at or above one, if there is such a number.
    fn least_held_from(&self, number: u64) -> Option<u64>
        ensures { IsLeastHeldFrom self.now number result }
    {
        lesser(self.stamps.least_from(number), self.pins.least_from(number))
    }

    /// The greatest number that is held below one, if there is such a number.
    pub fn greatest_held_below(&self, number: u64) -> Option<u64>
        ensures { IsGreatestHeldBelow self.now number result }
    {
        greater(
            self.stamps.greatest_below(number),
            self.pins.greatest_below(number),
        )
    }

    /// Whether some active transaction or pinned reader reads the version.
    fn is_read(&self, version: &Version) -> bool
        ensures { result ≡ list_any (λ n. sees n version.now) (held self.now) }
    {
        match self.least_held_from(version.written) {
            Some(number) => version.is_seen_at(number),
            None => false,
        }
    }

    /// Whether some reader, now or later, reads the version.
    fn is_seen(&self, version: &Version) -> bool
        ensures { result ≡ list_any (λ n. sees n version.now) (needed self.now) }
    {
        version.is_seen_at(self.installs) || self.is_read(version)
    }

    /// Whether a number below one is held.
    fn has_before(&self, n: u64) -> bool
        ensures { result ≡ list_any (λ m. nat_lt m n) (held self.now) }
    {
        self.greatest_held_below(n).is_some()
    }

    /// Whether the record is absent for every reader, now or later, since the version took it away.
    fn is_gone(&self, version: &Version) -> bool
        ensures { result ≡ is_gone (needed self.now) version.now }
    {
        match version.value {
            Some(_) => false,
            None => version.written <= self.installs && !self.has_before(version.written),
        }
    }

    /// Whether the version is kept.
    pub fn is_kept(&self, version: &Version) -> bool
        ensures { result ≡ is_kept (needed self.now) version.now }
    {
        self.is_seen(version) && !self.is_gone(version)
    }

    /// Whether a version that was kept stays, once a reader at a number has gone.
    pub fn stays(&self, version: &Version, number: u64) -> bool
        ensures { result ≡ stays number (needed self.now) version.now }
    {
        version.is_apart_from(number) || self.is_kept(version)
    }

    /// The least number that records are read at and that is at or above this one, which is at most the number
    /// of installs.
    pub fn next_from(&self, from: u64) -> u64
        ensures { from ≤ self.now.installs → IsNext self.now from result }
    {
        self.least_held_from(from).unwrap_or(self.installs)
    }
}
