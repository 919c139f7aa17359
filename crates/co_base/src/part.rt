//! The participants of a transaction, ascending by member, each with the count of its operations.
ghost use Rattle.std.specs.Prelude.{◌≡◌, ◌+◌, ◌<◌, ◌^◌, OnOk, OnErr};
ghost use Rattle.co_base.specs.Parts.{count_among, with_part};

use crate::sequence::Sequence;
use std::alloc::AllocError;

/// A participant, with how many operations it answered.
#[derive(Clone, Copy)]
pub struct Part {
    /// The number of the member.
    pub member: u8,
    /// How many operations of the transaction it answered.
    pub count: u16,
}

/// A list of participants.
pub type Parts = Sequence<Part>;

/// How many operations these participants have at the member.
pub fn count_among(parts: &[Part], member: u8) -> u16
    ensures { result ≡ count_among parts.now member }
{
    for part in parts {
        if part.member == member {
            return part.count;
        }
    }
    0
}

/// Counts one operation more at the member. Want of memory leaves the counts as they were.
pub fn count_one(parts: &mut Vec<Part>, member: u8) -> Result<(), AllocError>
    requires { count_among parts.old.items member + 1 < 2 ^ 16 }
    ensures ok { OnOk result (parts.new.items ≡ with_part member parts.old.items) }
    ensures err { OnErr result (parts.new.items ≡ parts.old.items) }
{
    let first = Part { member, count: 1 };
    for place in 0..parts.len() {
        let part = parts[place];
        if part.member == member {
            parts[place] = Part {
                member,
                count: part.count + 1,
            };
            return Ok(());
        }
        if member < part.member {
            parts.insert(place, first)?;
            return Ok(());
        }
    }
    parts.push(first)?;
    Ok(())
}
