//! What active transactions read.
ghost use Rattle.std.specs.Prelude.{◌≡◌, IfOk};
ghost use Rattle.co_state.specs.Table.{lesser};
ghost use Rattle.co_occ.specs.Kept.{or_unread, with_read};

use co_base::Range;
use co_state::History;
use std::alloc::{AllocError, Global};

/// A range that an active transaction read.
#[derive(Drop)]
pub struct Read {
    /// The keys that it read.
    pub range: Range,
    /// How many installs the read saw.
    pub stamp: u64,
}

/// What an active transaction read.
#[derive(Drop)]
pub struct Reads {
    /// The least number of installs that a read saw, if there is a read.
    pub oldest: Option<u64>,
    /// The reads, newest first.
    pub list: History<Read>,
}

/// The lesser of two numbers, where there are any.
fn lesser(one: Option<u64>, other: Option<u64>) -> Option<u64>
    ensures { result ≡ lesser one other }
{
    match one {
        None => other,
        Some(stamp) => match other {
            None => one,
            Some(other) => Some(stamp.min(other)),
        },
    }
}

/// What a transaction read; nothing yet where it is new. Takes no memory.
pub fn or_unread(alloc: Global, reads: Option<Reads>) -> Reads
    ensures { result ≡ or_unread reads }
{
    match reads {
        Some(reads) => reads,
        None => Reads {
            oldest: None,
            list: History::new(alloc),
        },
    }
}

impl Reads {
    /// What was read, with one range more, if there is one, as a read that saw so many installs.
    pub fn reading(self, range: Option<Range>, stamp: u64) -> Result<Reads, AllocError>
        ensures { IfOk result (λ more. more ≡ with_read range stamp self) }
    {
        match range {
            Some(range) => {
                let oldest = lesser(Some(stamp), self.oldest);
                let mut list = self.list;
                list.push(Read { range, stamp })?;
                Ok(Reads { oldest, list })
            }
            None => Ok(self),
        }
    }
}
