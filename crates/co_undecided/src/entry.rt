//! What is kept of an undecided transaction beside its engine and the index.
ghost use Rattle.std.specs.Prelude.{◌≡◌};
ghost use Rattle.co_undecided.specs.Kept.{asked_in, coord_in, voted_in_entry};

use co_plain::AskedMark;

/// An undecided transaction of a member.
#[derive(Clone, Copy)]
pub enum Entry {
    /// It has not voted.
    Active {
        /// How many of its operations were answered here.
        kept: u16,
        /// What asked for its vote, where that was held.
        asked: Option<AskedMark>,
    },
    /// It voted yes, and the decision is not known here.
    Voted {
        /// The coordinator that asked for the vote.
        coord: u8,
        /// How many operations were answered here.
        count: u16,
    },
}

/// What asked for the vote of an active transaction, where that is held.
pub(crate) fn asked_of(entry: Option<Entry>) -> Option<AskedMark>
    ensures { result ≡ asked_in entry }
{
    match entry {
        Some(Entry::Active { kept: _, asked }) => asked,
        Some(Entry::Voted { coord: _, count: _ }) => None,
        None => None,
    }
}

/// The coordinator that asked for the vote of a voted transaction.
pub(crate) fn coord_of(entry: Option<Entry>) -> Option<u8>
    ensures { result ≡ coord_in entry }
{
    match entry {
        Some(Entry::Active { kept: _, asked: _ }) => None,
        Some(Entry::Voted { coord, count: _ }) => Some(coord),
        None => None,
    }
}

/// Whether an undecided transaction has voted.
pub(crate) fn voted_of(entry: Option<Entry>) -> Option<bool>
    ensures { result ≡ voted_in_entry entry }
{
    match entry {
        Some(Entry::Active { kept: _, asked: _ }) => Some(false),
        Some(Entry::Voted { coord: _, count: _ }) => Some(true),
        None => None,
    }
}
