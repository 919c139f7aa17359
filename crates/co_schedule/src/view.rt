//! Lines as they were read, with their texts lent.
ghost use Rattle.std.specs.Prelude.{◌≡◌, false, true, IfOk};
ghost use Rattle.std.specs.Ordering.{is_gt};
ghost use Rattle.co_base.specs.Letters.{IsText, most_key_bytes, most_value_bytes};
ghost use Rattle.co_base.specs.Order.{key_cmp};
ghost use Rattle.co_schedule.specs.Places.{is_hex};
ghost use Rattle.co_message.specs.declared.event.Event.TheVariants as event;
ghost use Rattle.co_schedule.specs.View.{decoded, leaves_of, event_of, IsLent, IsSpelledLeaves};

use co_base::{BaseFault, Bytes, Key, Leaves, Node, Range, Txn, Value};
use co_message::{Event, Message};
use hex::FromHexError;
use std::alloc::{AllocError, Global};

/// The chosen image of an armed stop, with its digits lent.
#[derive(Clone, Copy)]
pub enum LeavesView<'a> {
    /// The stable bytes alone.
    Old,
    /// Every pending write.
    New,
    /// These bytes, as two digits for each.
    Digits(&'a [u8]),
}

/// An event whose keys, values and digits are lent from its line.
#[derive(Clone, Copy)]
pub enum LineView<'a> {
    /// A client begins the transaction at a coordinator.
    Begin {
        txn: Txn,
        coord: u8,
    },
    /// A client begins the transaction at a member, which decides it alone.
    Local {
        txn: Txn,
        member: u8,
    },
    /// A read of one record.
    Read {
        txn: Txn,
        member: u8,
        key: &'a [u8],
    },
    /// A write of one record.
    Write {
        txn: Txn,
        member: u8,
        key: &'a [u8],
        value: &'a [u8],
    },
    /// An erasure of one record.
    Erase {
        txn: Txn,
        member: u8,
        key: &'a [u8],
    },
    /// A read of the records of a range.
    Scan {
        txn: Txn,
        member: u8,
        lo: &'a [u8],
        hi: &'a [u8],
    },
    /// The client asks for the commit.
    Commit {
        txn: Txn,
    },
    /// The client asks for the abort.
    Abort {
        txn: Txn,
    },
    /// A message that was sent arrives.
    Deliver(Message),
    /// The member tries a vote again that it held back.
    Vote {
        txn: Txn,
        member: u8,
    },
    /// The timer of the transaction fires at the node.
    Timer {
        txn: Txn,
        node: Node,
    },
    /// A member that voted asks its coordinator.
    Ask {
        txn: Txn,
        member: u8,
    },
    /// The coordinator sends again what was not answered.
    Resend {
        txn: Txn,
        coord: u8,
    },
    /// The node stops between two log writes.
    Crash(Node),
    /// The node starts again from its log.
    Restart(Node),
    /// The next log write of the node stops in this device call, 1 to 4, and leaves this image.
    Arm {
        node: Node,
        call: u8,
        leaves: LeavesView<'a>,
    },
    /// One step of a checkpoint.
    Checkpoint(Node),
}

/// The key of this text.
pub fn key_of(alloc: Global, text: &[u8]) -> Result<Key, AllocError>
    requires { IsText most_key_bytes text.now }
    ensures { IfOk result (λ key. key ≡ text.now) }
{
    match Key::new(alloc, text) {
        Ok(key) => Ok(key),
        Err(BaseFault::Memory) => Err(AllocError),
        Err(BaseFault::Length) => unreachable!(),
        Err(BaseFault::Letter) => unreachable!(),
        Err(BaseFault::Order) => unreachable!(),
    }
}

/// The value of this text.
pub fn value_of(alloc: Global, text: &[u8]) -> Result<Value, AllocError>
    requires { IsText most_value_bytes text.now }
    ensures { IfOk result (λ value. value ≡ text.now) }
{
    match Value::new(alloc, text) {
        Ok(value) => Ok(value),
        Err(BaseFault::Memory) => Err(AllocError),
        Err(BaseFault::Length) => unreachable!(),
        Err(BaseFault::Letter) => unreachable!(),
        Err(BaseFault::Order) => unreachable!(),
    }
}

fn range_of(alloc: Global, lo: &[u8], hi: &[u8]) -> Result<Range, AllocError>
    requires texts { IsText most_key_bytes lo.now × IsText most_key_bytes hi.now }
    requires order { is_gt (key_cmp lo.now hi.now) ≡ false }
    ensures { IfOk result (λ range. range ≡ record { lo = lo.now; hi = hi.now }) }
{
    match Range::new(key_of(alloc, lo)?, key_of(alloc, hi)?) {
        Ok(range) => Ok(range),
        Err(_) => unreachable!(),
    }
}

/// The bytes of these digits.
fn bytes_of(alloc: Global, digits: &[u8]) -> Result<Bytes, AllocError>
    requires { is_hex digits.now ≡ true }
    ensures { IfOk result (λ bytes. bytes ≡ decoded digits.now) }
{
    match hex::decode(alloc, digits) {
        Ok(bytes) => Ok(Bytes::of(bytes)),
        Err(FromHexError::OutOfMemory) => Err(AllocError),
        Err(FromHexError::InvalidHexCharacter { .. }) => unreachable!(),
        Err(FromHexError::OddLength) => unreachable!(),
        Err(FromHexError::InvalidStringLength) => unreachable!(),
    }
}

fn leaves_of_view(alloc: Global, leaves: &LeavesView<'_>) -> Result<Leaves, AllocError>
    requires { IsSpelledLeaves leaves.now }
    ensures { IfOk result (λ l. l ≡ leaves_of leaves.now) }
{
    match leaves {
        LeavesView::Old => Ok(Leaves::Old),
        LeavesView::New => Ok(Leaves::New),
        LeavesView::Digits(digits) => Ok(Leaves::Filled(bytes_of(alloc, digits)?)),
    }
}

/// A read, with a key of its own.
fn read(alloc: Global, txn: Txn, member: u8, key: &[u8]) -> Result<Event, AllocError>
    requires { IsText most_key_bytes key.now }
    ensures { IfOk result (λ made. made ≡ event.Read txn member key.now) }
{
    let key = key_of(alloc, key)?;
    Ok(Event::Read { txn, member, key })
}

/// A write, with a key and a value of its own.
fn write(alloc: Global, txn: Txn, member: u8, key: &[u8], value: &[u8]) -> Result<Event, AllocError>
    requires { IsText most_key_bytes key.now × IsText most_value_bytes value.now }
    ensures { IfOk result (λ made. made ≡ event.Write txn member key.now value.now) }
{
    let key = key_of(alloc, key)?;
    let value = value_of(alloc, value)?;
    Ok(Event::Write {
        txn,
        member,
        key,
        value,
    })
}

/// An erasure, with a key of its own.
fn erase(alloc: Global, txn: Txn, member: u8, key: &[u8]) -> Result<Event, AllocError>
    requires { IsText most_key_bytes key.now }
    ensures { IfOk result (λ made. made ≡ event.Erase txn member key.now) }
{
    let key = key_of(alloc, key)?;
    Ok(Event::Erase { txn, member, key })
}

/// A scan, with a range of its own.
fn scan(alloc: Global, txn: Txn, member: u8, lo: &[u8], hi: &[u8]) -> Result<Event, AllocError>
    requires texts { IsText most_key_bytes lo.now × IsText most_key_bytes hi.now }
    requires order { is_gt (key_cmp lo.now hi.now) ≡ false }
    ensures { IfOk result (λ made. made ≡ event.Scan txn member (record { lo = lo.now; hi = hi.now })) }
{
    let range = range_of(alloc, lo, hi)?;
    Ok(Event::Scan { txn, member, range })
}

/// An armed stop, with an image of its own.
fn arm(alloc: Global, node: Node, call: u8, leaves: &LeavesView<'_>) -> Result<Event, AllocError>
    requires { IsSpelledLeaves leaves.now }
    ensures { IfOk result (λ made. made ≡ event.Arm node call (leaves_of leaves.now)) }
{
    let leaves = leaves_of_view(alloc, leaves)?;
    Ok(Event::Arm { node, call, leaves })
}

impl<'a> LineView<'a> {
    /// The event, with texts of its own.
    pub fn event(&self, alloc: Global) -> Result<Event, AllocError>
        requires { IsLent self.now }
        ensures { IfOk result (λ event. event ≡ event_of self.now) }
    {
        match *self {
            LineView::Begin { txn, coord } => Ok(Event::Begin { txn, coord }),
            LineView::Local { txn, member } => Ok(Event::Local { txn, member }),
            LineView::Read { txn, member, key } => read(alloc, txn, member, key),
            LineView::Write {
                txn,
                member,
                key,
                value,
            } => write(alloc, txn, member, key, value),
            LineView::Erase { txn, member, key } => erase(alloc, txn, member, key),
            LineView::Scan {
                txn,
                member,
                lo,
                hi,
            } => scan(alloc, txn, member, lo, hi),
            LineView::Commit { txn } => Ok(Event::Commit { txn }),
            LineView::Abort { txn } => Ok(Event::Abort { txn }),
            LineView::Deliver(message) => Ok(Event::Deliver(message)),
            LineView::Vote { txn, member } => Ok(Event::Vote { txn, member }),
            LineView::Timer { txn, node } => Ok(Event::Timer { txn, node }),
            LineView::Ask { txn, member } => Ok(Event::Ask { txn, member }),
            LineView::Resend { txn, coord } => Ok(Event::Resend { txn, coord }),
            LineView::Crash(node) => Ok(Event::Crash(node)),
            LineView::Restart(node) => Ok(Event::Restart(node)),
            LineView::Arm { node, call, leaves } => arm(alloc, node, call, &leaves),
            LineView::Checkpoint(node) => Ok(Event::Checkpoint(node)),
        }
    }
}
