//! What a coordinator tells of its transactions.
ghost use Rattle.std.specs.Prelude.{◌≡◌, true};
ghost use Rattle.co_plain.specs.CoordStep.{members_of};
ghost use Rattle.co_plain.specs.declared.coord_state.CoordState.{CoordState};
ghost use Rattle.co_state.specs.Table.{look, holds, is_above, least_where};
ghost use Rattle.co_coord.specs.Reading.{lacking_above, lacking_of, stage_of};
ghost use Rattle.co_coord.specs.Standing.{is_up, RepresentsCoord};

use crate::coord::Coord;
use co_base::{Part, Txn};
use co_log::Log;
use co_plain::{Entry, has_number};
use co_state::Table;

/// Where a transaction stands in the table of its coordinator.
#[derive(Clone, Copy)]
pub enum Stage {
    /// It was begun, and its client has not asked for the end.
    Idle,
    /// Its participants were asked to vote.
    Collecting,
    /// It is committed, and an acknowledgement is missing.
    Committed,
    /// It is not in the table.
    Unknown,
}

/// Where a transaction of this table stands.
fn stage_in(table: &Table<Entry>, t: Txn) -> Stage
    ensures { result ≡ stage_of (look table.now t) }
{
    match table.get(t) {
        None => Stage::Unknown,
        Some(Entry::Idle) => Stage::Idle,
        Some(Entry::Collecting { parts: _, yeses: _ }) => Stage::Collecting,
        Some(
            Entry::Committed {
                members: _,
                acks: _,
            },
        ) => Stage::Committed,
    }
}

/// The first of the numbers above another one that is not among the given ones.
fn lacking_above(numbers: &[u8], given: &[u8], after: u8) -> Option<u8>
    ensures { result ≡ lacking_above numbers.now given.now after }
{
    numbers
        .iter()
        .copied()
        .find(|n| *n > after && !has_number(given, *n))
}

/// The first participant above another one that is not among the given ones.
fn part_lacking_above(parts: &[Part], given: &[u8], after: u8) -> Option<u8>
    ensures { result ≡ lacking_above (members_of parts.now) given.now after }
{
    parts
        .iter()
        .map(|part| part.member)
        .find(|n| *n > after && !has_number(given, *n))
}

/// Whom a transaction of this table lacks above another one.
fn lacking_in(table: &Table<Entry>, t: Txn, after: u8) -> Option<u8>
    ensures { result ≡ lacking_of after (look table.now t) }
{
    match table.get(t) {
        None => None,
        Some(Entry::Idle) => None,
        Some(Entry::Collecting { parts, yeses }) => {
            part_lacking_above(parts.as_slice(), yeses.as_slice(), after)
        }
        Some(Entry::Committed { members, acks }) => {
            lacking_above(members.as_slice(), acks.as_slice(), after)
        }
    }
}

impl Coord {
    /// Whether the coordinator runs.
    pub fn up(&self) -> bool
        ensures { result ≡ is_up self.now }
    {
        self.table.is_some()
    }

    /// The log.
    pub fn log(&self) -> &Log
        ensures { result.now ≡ self.now.log }
    {
        &self.log
    }

    /// Whether a transaction is in the table.
    pub fn holds(&self, t: Txn) -> bool
        requires up { is_up self.now ≡ true }
        ensures { (y : CoordState) → RepresentsCoord self.now y → result ≡ holds y.table t }
    {
        self.table().contains(t)
    }

    /// Where a transaction stands.
    pub fn stage(&self, t: Txn) -> Stage
        requires up { is_up self.now ≡ true }
        ensures { (y : CoordState) → RepresentsCoord self.now y → result ≡ stage_of (look y.table t) }
    {
        stage_in(self.table(), t)
    }

    /// The least transaction of the table above a number, or the least of all. Takes no memory.
    pub fn open_after(&self, after: Option<Txn>) -> Option<Txn>
        requires up { is_up self.now ≡ true }
        ensures { (y : CoordState) → RepresentsCoord self.now y → result ≡ least_where (λ t e. is_above after t) y.table }
    {
        self.table().first_above(after)
    }

    /// The least participant above a number without a recorded yes of a collecting transaction, or without an acknowledgement of a
    /// committed one; none of another one.
    pub fn lacks(&self, t: Txn, after: u8) -> Option<u8>
        requires up { is_up self.now ≡ true }
        ensures { (y : CoordState) → RepresentsCoord self.now y → result ≡ lacking_of after (look y.table t) }
    {
        lacking_in(self.table(), t, after)
    }
}
