//! The head of every trial, and what is known of the events that are made.
ghost use Rattle.std.specs.Prelude.{◌≡◌, ◌≤◌, [], ◌∷◌, IfOk};
ghost use Rattle.co_base.specs.declared.head.Kind.TheVariants.{Lock, Occ, Mv};
ghost use Rattle.co_base.specs.Letters.{IsText, most_key_bytes, most_value_bytes};
ghost use Rattle.hex.specs.Hex.{IsBytes};
ghost use Rattle.co_schedule.specs.View.{IsLeaves};
ghost use Rattle.co_trial.specs.Making.{HasFields, HasMessage, IsRange};

use co_base::{Head, Key, Kind, Kinds, Leaves, Range, Txn, Value};
use co_message::{Event, Message};
use std::alloc::{AllocError, Global};

/// One member of each kind, and two coordinators.
pub(crate) fn trial_head(alloc: Global) -> Result<Head, AllocError>
    ensures kinds { IfOk result (λ head. head.kinds ≡ Lock ∷ Occ ∷ Mv ∷ []) }
    ensures coords { IfOk result (λ head. head.coords ≡ 2) }
{
    let mut kinds = Kinds::new(alloc);
    kinds.push(Kind::Lock)?;
    kinds.push(Kind::Occ)?;
    kinds.push(Kind::Mv)?;
    Ok(Head { kinds, coords: 2 })
}

/// The number of a transaction is in its range.
fn number_in_range(txn: Txn)
    ensures { txn ≤ 4294967295 }
{
    let _number = txn;
}

/// A count is in its range.
fn count_in_range(count: u16)
    ensures { count ≤ 65535 }
{
    let _count = count;
}

/// A key is one.
fn key_is_text(key: &Key)
    ensures { IsText most_key_bytes key.now }
{
    let _ = key.text();
}

/// A value is one.
fn value_is_text(value: &Value)
    ensures { IsText most_value_bytes value.now }
{
    let _ = value.text();
}

/// The numbers of a message are in their ranges, as its type says.
fn message_in_range(message: &Message)
    ensures { HasMessage message.now }
{
    match message {
        Message::Prepare { txn, count, .. } => {
            number_in_range(*txn);
            count_in_range(*count)
        }
        Message::Vote { txn, .. }
        | Message::Decide { txn, .. }
        | Message::Ask { txn, .. }
        | Message::Ack { txn, .. } => number_in_range(*txn),
    }
}

/// The bounds of a range are keys, in their order.
fn range_is_one(range: &Range)
    ensures { IsRange range.now }
{
    let (lo, hi) = range.bounds();
    key_is_text(lo);
    key_is_text(hi)
}

/// Bytes are in their range.
fn bytes_fit(bytes: &[u8])
    ensures { IsBytes bytes.now }
{
    let _ = bytes;
}

/// An image that is given has bytes.
fn image_has_bytes(leaves: &Leaves)
    ensures { IsLeaves leaves.now }
{
    match leaves {
        Leaves::Old | Leaves::New => {}
        Leaves::Filled(bytes) => { bytes_fit(bytes.as_slice()) }
    }
}

/// The numbers, keys and values of an event are in their sets, as its type says.
pub(crate) fn fields_in_sets(event: &Event)
    ensures { HasFields event.now }
{
    match event {
        Event::Begin { txn, .. }
        | Event::Local { txn, .. }
        | Event::Commit { txn }
        | Event::Abort { txn }
        | Event::Vote { txn, .. }
        | Event::Timer { txn, .. }
        | Event::Ask { txn, .. }
        | Event::Resend { txn, .. } => number_in_range(*txn),
        Event::Read { txn, key, .. } | Event::Erase { txn, key, .. } => {
            number_in_range(*txn);
            key_is_text(key)
        }
        Event::Write {
            txn,
            key,
            value,
            ..
        } => {
            number_in_range(*txn);
            key_is_text(key);
            value_is_text(value)
        }
        Event::Scan { txn, range, .. } => {
            number_in_range(*txn);
            range_is_one(range)
        }
        Event::Deliver(message) => message_in_range(message),
        Event::Arm { leaves, .. } => image_has_bytes(leaves),
        Event::Crash(_) | Event::Restart(_) | Event::Checkpoint(_) => {}
    }
}
