//! Batches that are spelled out before they are written.
ghost use Rattle.std.specs.Prelude.{◌≡◌, ◌≤◌, ◌<◌, ◌+◌, ◌++◌, ◌∷◌, [], ℕ, List, length, IfErr, IsErrOf, Some, ◌⊎◌};
ghost use Rattle.std.specs.List.{AllByRecursion};
ghost use Rattle.co_outside.specs.Home.{File};
ghost use Rattle.co_record.specs.declared.record.Record.{Record};
ghost use Rattle.co_record.specs.Format.{newest};
ghost use Rattle.co_record.specs.Spelling.{IsWritable};

use crate::append::{Ending, batch_of, lay};
use crate::fault::LogFault;
use crate::log::Log;
use crate::marks::{marks, marks_if};
use co_base::Marks;
use co_outside::Home;
use co_record::{LentPrepare, Record};

/// The records that waited in a log and others behind them, spelled out as one batch. It keeps no sets of theirs.
#[derive(Drop)]
pub struct SpelledBatch {
    pub(crate) bytes: Vec<u8>,
    /// What its log write tells.
    pub(crate) told: Marks,
}

impl Log {
    ghost use Rattle.co_outside.specs.Home.{IsClean, RestStays, HasFailed};
    ghost use Rattle.co_log.specs.Batches.{AreSpelledFor, IsBatchOf};
    ghost use Rattle.co_log.specs.Calls.{MayForce, HasForced};
    ghost use Rattle.co_log.specs.Current.{IsOrdered, IsCurrentForced};
    ghost use Rattle.co_log.specs.Forcing.{IsForced, IsDone, IsOfForce};
    ghost use Rattle.co_log.specs.LogFile.{EndsAt, OldOrBoth};
    ghost use Rattle.co_log.specs.LogView.{IsLive, IsHeld, IsForcible};
    ghost use Rattle.co_log.specs.Others.{BothWithin};

    /// Spells out the waiting records, then the lent ones, and then those.
    pub(crate) fn spell_all(
        &self,
        lent: &[LentPrepare<'_>],
        back: &[Record],
    ) -> Result<SpelledBatch, LogFault>
        requires some { 0 < length (lent.now ++ back.now) }
        requires lent { AllByRecursion IsWritable lent.now }
        requires back { AllByRecursion IsWritable back.now }
        ensures { AreSpelledFor self.now (lent.now ++ back.now) result }
    {
        let front = self.waiting.as_slice();
        let told = marks(self.alloc, self.node, front, lent, back)?;
        let spot = self.current.spot();
        let bytes = batch_of(self.alloc, spot, self.gate, front, lent, back)?;
        Ok(SpelledBatch { bytes, told })
    }

    /// Spells out the waiting records, then a prepare record whose sets are lent, and then this one, for one log write of all of them.
    ///
    /// `Full` comes where the file would have more than 268,435,456 bytes with them, `Memory` where there was none, and no other fault.
    pub fn spell_both(
        &self,
        prepare: LentPrepare<'_>,
        item: Record,
    ) -> Result<SpelledBatch, LogFault>
        requires prepare { IsWritable prepare }
        requires item { IsWritable item × IsForcible item }
        ensures { AreSpelledFor self.now (prepare.entry ∷ item ∷ []) result }
    {
        self.spell_all(&[prepare], &[item])
    }

    /// Appends a batch that was spelled out for this log, in one log write, as `force` does its record.
    pub(crate) fn lay_batch<H: Home>(
        &mut self,
        home: &mut H,
        batch: SpelledBatch,
    ) -> Result<Marks, LogFault>
        requires held { IsHeld (H.seen home.old) self.old }
        requires newest { self.old.version ≡ newest }
        requires live { (items : List (ℕ × Record)) × IsLive self.old items }
        requires batch { (more : List Record) × IsBatchOf self.old more batch }
        ensures forced { (more : List Record) (items : List (ℕ × Record)) → IsBatchOf self.old more batch → IsLive self.old items → IsForced self.old items (self.old.waiting ++ more) self.new result }
        ensures held { IsDone result → IsHeld (H.seen home.new) self.new }
        ensures clean { IsDone result → IsClean (H.seen home.new) self.old.current.spot }
        ensures full { IsErrOf result (LogFault.Full self.old.current.spot) → ⊥ }
        ensures told { (more : List Record) (items : List (ℕ × Record)) → IsBatchOf self.old more batch → IsLive self.old items → (f : File) → (H.seen home.new).file self.old.current.spot ≡ Some f → IsDone result ⊎ OldOrBoth f.bytes self.old.gate items (self.old.waiting ++ more) }
        ensures memory { (items : List (ℕ × Record)) → IsLive self.old items → IsErrOf result LogFault.Memory → (f : File) → (H.seen home.new).file self.old.current.spot ≡ Some f → EndsAt f.bytes self.old.gate items }
        ensures current { (more : List Record) (items : List (ℕ × Record)) → IsBatchOf self.old more batch → IsOrdered self.old items → (c s : File) → (H.seen home.new).file self.old.current.spot ≡ Some c → (H.seen home.new).file self.old.spare.spot ≡ Some s → IsCurrentForced self.old items (self.old.waiting ++ more) c.bytes s.bytes result }
        ensures short { BothWithin (H.seen home.new).file self.old }
        ensures faults { IfErr result (IsOfForce self.old.current.spot) }
        ensures rest { RestStays self.old.current.spot (H.seen home.old) (H.seen home.new) }
        ensures device { IsErrOf result (LogFault.Device self.old.current.spot) → HasFailed self.old.current.spot (H.seen home.old) (H.seen home.new) }
        ensures quiet { (IsErrOf result (LogFault.Device self.old.current.spot) → ⊥) → (H.seen home.new).faults ≡ (H.seen home.old).faults }
    {
        let SpelledBatch { bytes, told } = batch;
        let ending = lay(&mut self.current, home, self.gate, &bytes, &mut self.stop)?;
        self.waiting.clear();
        match ending {
            Ending::Whole { next } => {
                self.gate = next;
                Ok(told)
            }
            Ending::Stopped { call, stable, next } => {
                self.gate = next;
                let marks = marks_if(self.alloc, stable, told);
                Err(LogFault::Stopped {
                    call,
                    stable,
                    marks,
                })
            }
        }
    }

    /// Writes a batch that was spelled out for this log, as it stands, in one log write of the four device calls of `force`.
    ///
    /// `Stopped` comes at the armed device call; `Device` where the home failed, and only there; `Memory` in the first device call, and the
    /// file has the old records alone then; no other fault. Whatever the answer is, the file stays the current one, and both are within
    /// 268,435,456 bytes.
    pub fn force_batch<H: Home>(
        &mut self,
        home: &mut H,
        batch: SpelledBatch,
    ) -> Result<Marks, LogFault>
        requires ready { MayForce (H.seen home.old) self.old }
        requires batch { (more : List Record) × IsBatchOf self.old more batch }
        ensures { (more : List Record) → IsBatchOf self.old more batch → HasForced ⊥ self.old self.new more (H.seen home.old) (H.seen home.new) result }
    {
        self.lay_batch(home, batch)
    }
}
