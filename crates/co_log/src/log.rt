//! The log of a node.
ghost use Rattle.std.specs.Prelude.{◌≡◌, ◌≤◌, ◌<◌, ◌++◌, ◌∷◌, ◌==◌, [], ℕ, List, length, OnOk, OnErr, Some, None};
ghost use Rattle.std.specs.List.{AllByRecursion};
ghost use Rattle.co_disk.specs.DiskModel.{read_of};
ghost use Rattle.co_record.specs.declared.record.Record.{Record};
ghost use Rattle.co_record.specs.Spelling.{IsWritable};
ghost use Rattle.co_record.specs.Stored.{HasRecords, HasLeft};

use crate::fault::LogFault;
use co_base::{Leaves, Marks, Node, Stop};
use co_disk::Disk;
use co_frame::begins_closed;
use co_outside::{Home, Spot};
use co_record::{LentPrepare, Record, Views};
use std::alloc::{AllocError, Global};
use std::marker::Model;

/// The forced log of a node over two files: records that are stable, and records that wait in memory
/// until the next log write.
///
/// One file is current and holds the records; the other one is a spare, into which a shorter log is
/// written to become the current one.
#[derive(Drop)]
pub struct Log {
    pub(crate) alloc: Global,
    pub(crate) node: Node,
    pub(crate) version: u8,
    pub(crate) current: Disk,
    pub(crate) spare: Disk,
    pub(crate) gate: u32,
    pub(crate) generation: u32,
    pub(crate) waiting: Vec<Record>,
    pub(crate) stop: Option<Stop>,
}

impl Model for Log {
    ghost use Rattle.std.specs.Prelude.{◌≤◌, IfSome};
    ghost use Rattle.std.specs.List.{AllByRecursion};
    ghost use Rattle.co_record.specs.Spelling.{IsWritable};
    ghost use Rattle.co_log.specs.LogView.{LogView, IsShort};

    ghost Value = { LogView };

    ghost view = { λ l. record { node = l.node; version = l.version; current = l.current; spare = l.spare; gate = l.gate; generation = l.generation; waiting = l.waiting.items; stop = l.stop } };

    ghost invariant = { λ l. AllByRecursion IsWritable l.waiting.items × IfSome l.stop (λ s. (1 ≤ s.call) × (s.call ≤ 4)) × IsShort l.current × IsShort l.spare };
}

impl Log {
    ghost use Rattle.co_log.specs.Appending.{IsTooLong};
    ghost use Rattle.co_log.specs.Calls.{MayForce, HasForced};
    ghost use Rattle.co_frame.specs.Gate.{begins_closed};
    ghost use Rattle.co_log.specs.LogView.{IsForcible, IsShort, MayWait, lengths_of};

    /// The lengths of both files in bytes, that of part `a` first. Each is at most 268,435,456.
    pub fn lengths(&self) -> (u32, u32)
        ensures lengths { result ≡ lengths_of self.now }
        ensures within { IsShort self.now.current × IsShort self.now.spare }
    {
        let current = self.current.bytes().len() as u32;
        let spare = self.spare.bytes().len() as u32;
        if self.current.spot().part == 0 {
            (current, spare)
        } else {
            (spare, current)
        }
    }

    /// The spot of the current file: that of part `a` for a fresh log.
    pub fn spot(&self) -> Spot
        ensures { result ≡ self.now.current.spot }
    {
        self.current.spot()
    }

    /// Whether neither file has a batch.
    pub fn fresh(&self) -> bool
        ensures { result ≡ (self.now.gate == 0) }
    {
        self.gate == 0
    }

    /// The version of the current file, 1 or 2, and 2 for a fresh log. Takes no memory.
    pub fn version(&self) -> u8
        ensures { result ≡ self.now.version }
    {
        self.version
    }

    /// Lends the records of the current file in order, each with its place in it. Takes no memory.
    pub fn views(&self) -> Views<'_>
        requires { (items : List (ℕ × Record)) × HasRecords (read_of self.now.current.state) items }
        ensures { (items : List (ℕ × Record)) → HasRecords (read_of self.now.current.state) items → HasLeft result items }
    {
        Views::new(self.current.bytes())
    }

    /// Keeps a record waiting for the next log write: an abort, an end, or a prepare before the commit that is
    /// forced. Want of memory leaves the log as it was.
    pub fn later(&mut self, item: Record) -> Result<(), AllocError>
        requires writable { IsWritable item }
        requires kind { MayWait item }
        ensures ok { OnOk result (self.new ≡ record self.old { waiting = self.old.waiting ++ item ∷ [] }) }
        ensures err { OnErr result (self.new ≡ self.old) }
    {
        self.waiting.push(item)?;
        Ok(())
    }

    /// Arms the next log write of the node: its device call with this number, counted from 1, stops and
    /// leaves this image. A number above the count of its device calls passes unused.
    pub fn arm(&mut self, stop: u8, leaves: Leaves)
        requires { (1 ≤ stop) × (stop ≤ 4) }
        ensures { self.new ≡ record self.old { stop = Some (record { call = stop; leaves = leaves }) } }
    {
        self.stop = Some(Stop { call: stop, leaves });
    }

    /// Takes the armed stop away.
    pub fn disarm(&mut self)
        ensures { self.new ≡ record self.old { stop = None } }
    {
        self.stop = None;
    }

    /// Whether the spare file has a first byte that is no open gate.
    pub fn spare_closed(&self) -> bool
        ensures { result ≡ begins_closed (read_of self.now.spare.state) }
    {
        begins_closed(self.spare.bytes())
    }

    /// Appends the waiting records, then the lent ones, and then those, in one log write, as `force` does one record.
    fn force_all<H: Home>(
        &mut self,
        home: &mut H,
        lent: &[LentPrepare<'_>],
        back: &[Record],
    ) -> Result<Marks, LogFault>
        requires ready { MayForce (H.seen home.old) self.old }
        requires some { 0 < length (lent.now ++ back.now) }
        requires lent { AllByRecursion IsWritable lent.now }
        requires back { AllByRecursion IsWritable back.now }
        ensures called { HasForced (IsTooLong self.old.gate (self.old.waiting ++ (lent.now ++ back.now))) self.old self.new (lent.now ++ back.now) (H.seen home.old) (H.seen home.new) result }
        ensures untouched { IsTooLong self.old.gate (self.old.waiting ++ (lent.now ++ back.now)) → (self.new ≡ self.old) × (home.new ≡ home.old) }
    {
        // What is read of either file is within its bounds, also where nothing is written.
        let _ = self.lengths();
        let batch = self.spell_all(lent, back)?;
        self.force_batch(home, batch)
    }

    /// Appends one batch in one log write: the waiting records in order, and then this one, which is a prepare, a
    /// commit, an abort or an end. The current file is of version 2, as the records that are written are. The four device calls are: write the batch with a closed gate behind it, sync, write the open gate before it, sync.
    ///
    /// `Full` comes where the file would have more than 268,435,456 bytes, and changes nothing; `Stopped` at
    /// the armed device call; `Device` where the home failed, and only there; `Memory` before or in the first
    /// device call, and the file has the old records alone then. Whatever the answer is, the file stays the current
    /// one, and both are within 268,435,456 bytes.
    pub fn force<H: Home>(&mut self, home: &mut H, item: Record) -> Result<Marks, LogFault>
        requires ready { MayForce (H.seen home.old) self.old }
        requires item { IsWritable item × IsForcible item }
        ensures called { HasForced (IsTooLong self.old.gate (self.old.waiting ++ item ∷ [])) self.old self.new (item ∷ []) (H.seen home.old) (H.seen home.new) result }
        ensures untouched { IsTooLong self.old.gate (self.old.waiting ++ item ∷ []) → (self.new ≡ self.old) × (home.new ≡ home.old) }
    {
        self.force_all(home, &[], &[item])
    }

    /// As `force`, of a prepare record whose sets are lent.
    pub fn force_prepare<H: Home>(
        &mut self,
        home: &mut H,
        item: LentPrepare<'_>,
    ) -> Result<Marks, LogFault>
        requires ready { MayForce (H.seen home.old) self.old }
        requires writable { IsWritable item }
        ensures called { HasForced (IsTooLong self.old.gate (self.old.waiting ++ item.entry ∷ [])) self.old self.new (item.entry ∷ []) (H.seen home.old) (H.seen home.new) result }
        ensures untouched { IsTooLong self.old.gate (self.old.waiting ++ item.entry ∷ []) → (self.new ≡ self.old) × (home.new ≡ home.old) }
    {
        self.force_all(home, &[item], &[])
    }
}
