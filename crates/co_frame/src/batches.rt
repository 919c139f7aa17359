//! The walk over the batches of a log text.
ghost use Rattle.std.specs.Prelude.{◌≡◌, ◌≤◌, ◌<◌, ◌+◌, ◌++◌, ℕ, List, length, drop, IfSome, IfOk, IfNone};
ghost use Rattle.co_base.specs.Limits.{most_log_bytes};
ghost use Rattle.co_frame.specs.LogText.{GateWalk, Tells, HasPassed, HasBatch, IsBatch, IsLentFrom, batch_text};

use crate::batch::Batch;
use crate::fault::FrameFault;
use std::marker::Model;

/// The byte of an open gate. Every other byte is a gate that is not open.
pub const OPEN_GATE: u8 = 0xa5;

/// The byte that closes a gate.
pub const CLOSED_GATE: u8 = 0x00;

/// A walk over the batches of a log text, from its front to the first gate that is not open.
///
/// A contract sees the text and the place of the next gate.
#[derive(Drop)]
pub struct Batches<'a> {
    bytes: &'a [u8],
    at: usize,
}

impl<'a> Model for Batches<'a> {
    ghost use Rattle.std.specs.Prelude.{◌≤◌, ◌<◌, length};
    ghost use Rattle.co_base.specs.Limits.{most_log_bytes};
    ghost use Rattle.co_frame.specs.LogText.{GateWalk};

    ghost Value = { GateWalk };

    ghost view = { λ b. record { source = b.bytes.now; at = b.at } };

    ghost invariant = { λ b. (length b.bytes.now ≤ most_log_bytes) × (1 < length b.bytes.now → b.at < length b.bytes.now) × (b.at ≤ length b.bytes.now) };
}

/// The records of the batch at the front, where a whole batch and a gate stand there.
fn batch_behind(behind: &[u8]) -> Option<&[u8]>
    ensures batch { IfSome result (λ records. IsBatch records.now × (4 + length records.now < length behind.now)) }
    ensures text { IfSome result (λ records. behind.now ≡ batch_text records.now ++ drop (4 + length records.now) behind.now) }
    ensures none { IfNone result (¬ (HasBatch behind.now)) }
{
    if behind.len() < 4 {
        return None;
    }
    let (front, rest) = behind.split_at(4);
    let count = u32::from_be_bytes([front[0], front[1], front[2], front[3]]) as usize;
    if count == 0 || rest.len() <= count {
        return None;
    }
    Some(rest.split_at(count).0)
}

impl<'a> Batches<'a> {
    /// A walk from the front of these bytes, of which there are at most 268,435,456.
    pub fn new(bytes: &'a [u8]) -> Batches<'a>
        requires { length bytes.now ≤ most_log_bytes }
        ensures { result ≡ record { source = bytes.now; at = 0 } }
    {
        Batches { bytes, at: 0 }
    }

    /// Lends the next batch behind an open gate. `None` comes at the first gate that is not open, and
    /// in a text of at most one byte. `Broken` comes exactly where the batch behind the open gate has
    /// the length 0, or it or the gate behind it is not whole. After both the walk stands where it
    /// stood. Takes no memory.
    pub fn next(&mut self) -> Option<Result<Batch<'a>, FrameFault>>
        ensures text { (batches : List (List ℕ)) → HasPassed self.old batches → Tells self.old result self.new batches }
        ensures source { self.new.source ≡ self.old.source }
        ensures moves { IfSome result (λ told. IfOk told (λ batch. (self.new.at ≡ batch.at + length batch.records.now) × (self.new.at < length self.new.source))) }
        ensures lent { IfSome result (λ told. IfOk told (λ batch. IsLentFrom self.old batch)) }
    {
        if self.bytes.len() <= 1 || self.bytes[self.at] != OPEN_GATE {
            return None;
        }
        let Some(records) = batch_behind(&self.bytes[self.at + 1..]) else {
            return Some(Err(FrameFault::Broken { at: self.at as u32 }));
        };
        let at = self.at + 5;
        self.at = at + records.len();
        Some(Ok(Batch {
            at: at as u32,
            records,
        }))
    }

    /// The place of the gate where the walk stands: once `next` gave `None`, that of the first gate
    /// that is not open.
    pub fn gate(&self) -> u32
        ensures { result ≡ self.now.at }
    {
        self.at as u32
    }
}
