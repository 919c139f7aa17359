//! Messages that an exchange waits for.
ghost use Rattle.std.specs.Prelude.{◌≡◌, ◌≤◌, map};
ghost use Rattle.co_law_settle.specs.SettlingTurns.{note_in};
ghost use Rattle.co_settle.specs.Notes.{wanted_by, AreInRange};

use co_base::Txn;
use co_message::{Item, ItemKind, Message};

/// Which message is wanted: one to or from a member.
#[derive(Clone, Copy)]
pub(crate) enum Want {
    Prepare,
    Vote,
    Decide,
    Ask,
    Ack,
    /// None.
    Nothing,
}

/// Whether a message is wanted.
fn is_wanted(want: Want, member: u8, note: &Message) -> bool
    ensures { result ≡ wanted_by want member note.now }
{
    match (want, note) {
        (Want::Prepare, Message::Prepare { member: to, .. }) => *to == member,
        (Want::Vote, Message::Vote { member: from, .. }) => *from == member,
        (Want::Decide, Message::Decide { member: to, .. }) => *to == member,
        (Want::Ask, Message::Ask { member: from, .. }) => *from == member,
        (Want::Ack, Message::Ack { member: from, .. }) => *from == member,
        _ => false,
    }
}

/// The first message among the items that was sent and is wanted.
pub(crate) fn first_wanted(want: Want, member: u8, items: &[Item]) -> Option<Message>
    ensures { result ≡ note_in (wanted_by want member) (map (λ i. i.what) items.now) }
{
    for item in items {
        if let ItemKind::Sent(note) = &item.what {
            if is_wanted(want, member, note) {
                return Some(*note);
            }
        }
    }
    None
}

/// The numbers of a transaction and of a count are in their ranges.
pub(crate) fn numbers_in_range(txn: Txn, count: u16)
    ensures { (txn ≤ 4294967295) × (count ≤ 65535) }
{
    let _numbers = (txn, count);
}

/// The numbers of a message are in their ranges, as its type says.
pub(crate) fn in_range(note: &Message)
    ensures { AreInRange note.now }
{
    match note {
        Message::Prepare { txn, count, .. } => numbers_in_range(*txn, *count),
        Message::Vote { txn, .. } => numbers_in_range(*txn, 0),
        Message::Decide { txn, .. } => numbers_in_range(*txn, 0),
        Message::Ask { txn, .. } => numbers_in_range(*txn, 0),
        Message::Ack { txn, .. } => numbers_in_range(*txn, 0),
    }
}
