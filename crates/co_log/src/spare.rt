//! The spare file of a log.
ghost use Rattle.std.specs.Prelude.{◌≡◌, ◌<◌, ◌⊎◌, [], ◌∷◌, ℕ, List, IfErr, IsErrOf, All, if◌then◌else◌, Some, None, true, false};
ghost use Rattle.std.specs.List.{AllByRecursion};
ghost use Rattle.co_base.specs.Nodes.{IsValidNode};
ghost use Rattle.co_record.specs.declared.record.Record.{Record};
ghost use Rattle.co_record.specs.Spelling.{IsWritable};
ghost use Rattle.co_outside.specs.Home.{File, HomeView};
ghost use Rattle.co_disk.specs.DiskModel.{read_of};

use crate::append::{Ending, append};
use crate::counting::are_counted;
use crate::fault::LogFault;
use crate::log::Log;
use crate::marks::{marks_if, one_mark};
use co_base::{Mark, MarkKind, Marks};
use co_outside::Home;
use co_record::{NEWEST_VERSION, Record};

impl Log {
    ghost use Rattle.co_log.specs.Calls.{MayFill, HasFilled};
    ghost use Rattle.co_outside.specs.Home.{IsClean, RestStays, HasFailed};
    ghost use Rattle.co_frame.specs.Gate.{begins_closed};
    ghost use Rattle.co_log.specs.Forcing.{IsDone, IsOfForce};
    ghost use Rattle.co_log.specs.LogFile.{EndsAt, OldOrBoth};
    ghost use Rattle.co_log.specs.LogView.{IsHeld, IsLive};
    ghost use Rattle.co_log.specs.Others.{BothWithin};
    ghost use Rattle.co_log.specs.Spare.{IsOverfull, IsFilling, IsFillable, filling, filling_mark, turned};
    ghost use Rattle.co_log.specs.Current.{IsOrdered, IsCurrentAfter};

    /// Makes the spare file the current one: writes a header of the next generation and these records there
    /// as one batch, in one log write. The file that was current is the spare then, and the waiting records
    /// are dropped. The filled file is of version 2, whatever the old one was.
    ///
    /// Whatever the answer is, the old file is current with its records, or the filled one with the new ones:
    /// after Ok the filled one, and after a stop exactly where the image has its gate open.
    ///
    /// `Full` comes where the file would have more than 268,435,456 bytes, as it would with a list of 4,294,967,296
    /// elements or more, or the generation is 4,294,967,295, and changes nothing; `Stopped` at the armed device call;
    /// `Device` where the home failed, and only there; `Memory` before or in the first device call, and the spare has
    /// no batch then. Both files are within 268,435,456 bytes after every answer.
    pub fn fill_spare<H: Home>(&mut self, home: &mut H, items: &[Record]) -> Result<Mark, LogFault>
        requires ready { MayFill (H.seen home.old) self.old }
        requires fillable { AllByRecursion IsFillable items.now }
        ensures called { HasFilled self.old self.new items.now (H.seen home.old) (H.seen home.new) result }
        ensures untouched { IsOverfull self.old items.now → (self.new ≡ self.old) × (home.new ≡ home.old) }
    {
        self.fill(home, items)
    }

    /// Writes the records into the spare file where they fit and there is a next generation, and turns the files where the batch counts.
    fn fill<H: Home>(&mut self, home: &mut H, items: &[Record]) -> Result<Mark, LogFault>
        requires held { IsHeld (H.seen home.old) self.old }
        requires live { (items : List (ℕ × Record)) × IsLive self.old items }
        requires node { IsValidNode self.old.node }
        requires still { self.old.spare.state.pending ≡ [] }
        requires closed { begins_closed self.old.spare.state.stable ≡ true }
        requires fillable { AllByRecursion IsFillable items.now }
        ensures filling { IsFilling self.old items.now self.new result }
        ensures held { IsDone result → IsHeld (H.seen home.new) self.new }
        ensures clean { IsDone result → IsClean (H.seen home.new) self.old.spare.spot }
        ensures full { IsErrOf result (LogFault.Full self.old.spare.spot) → IsOverfull self.old items.now }
        ensures overfull { IsOverfull self.old items.now → IsErrOf result (LogFault.Full self.old.spare.spot) ⊎ IsErrOf result LogFault.Memory }
        ensures untouched { IsOverfull self.old items.now → (self.new ≡ self.old) × (home.new ≡ home.old) }
        ensures told { IsDone result ⊎ ((f : File) → (H.seen home.new).file self.old.spare.spot ≡ Some f → OldOrBoth f.bytes 0 [] (filling self.old items.now)) }
        ensures memory { IsErrOf result LogFault.Memory → (f : File) → (H.seen home.new).file self.old.spare.spot ≡ Some f → EndsAt f.bytes 0 [] }
        ensures current { (kept : List (ℕ × Record)) → IsOrdered self.old kept → (c s : File) → (H.seen home.new).file self.old.current.spot ≡ Some c → (H.seen home.new).file self.old.spare.spot ≡ Some s → IsCurrentAfter self.old kept items.now c.bytes s.bytes result }
        ensures short { BothWithin (H.seen home.new).file self.old }
        ensures faults { IfErr result (IsOfForce self.old.spare.spot) }
        ensures rest { RestStays self.old.spare.spot (H.seen home.old) (H.seen home.new) }
        ensures device { IsErrOf result (LogFault.Device self.old.spare.spot) → HasFailed self.old.spare.spot (H.seen home.old) (H.seen home.new) }
        ensures quiet { (IsErrOf result (LogFault.Device self.old.spare.spot) → ⊥) → (H.seen home.new).faults ≡ (H.seen home.old).faults }
    {
        if self.generation == u32::MAX || !are_counted(items) {
            return Err(LogFault::Full {
                spot: self.spare.spot(),
            });
        }
        let mark = Mark {
            node: self.node,
            kind: MarkKind::Checkpoint,
            number: self.generation + 1,
        };
        let told = one_mark(self.alloc, mark)?;
        self.write_filling(home, items, mark, told)
    }

    /// Writes a header of the next generation and the records into the spare file, as one batch, and turns the files where it
    /// counts. The mark is what that tells, and so are the marks where it was stopped.
    fn write_filling<H: Home>(
        &mut self,
        home: &mut H,
        items: &[Record],
        mark: Mark,
        told: Marks,
    ) -> Result<Mark, LogFault>
        requires held { IsHeld (H.seen home.old) self.old }
        requires live { (items : List (ℕ × Record)) × IsLive self.old items }
        requires node { IsValidNode self.old.node }
        requires still { self.old.spare.state.pending ≡ [] }
        requires closed { begins_closed self.old.spare.state.stable ≡ true }
        requires writable { AllByRecursion IsWritable items.now }
        requires next { self.old.generation < 4294967295 }
        requires mark { mark ≡ filling_mark self.old }
        requires marks { told ≡ mark ∷ [] }
        ensures filling { IsFilling self.old items.now self.new result }
        ensures held { IsDone result → IsHeld (H.seen home.new) self.new }
        ensures clean { IsDone result → IsClean (H.seen home.new) self.old.spare.spot }
        ensures full { IsErrOf result (LogFault.Full self.old.spare.spot) → IsOverfull self.old items.now }
        ensures overfull { IsOverfull self.old items.now → IsErrOf result (LogFault.Full self.old.spare.spot) ⊎ IsErrOf result LogFault.Memory }
        ensures untouched { IsOverfull self.old items.now → (self.new ≡ self.old) × (home.new ≡ home.old) }
        ensures told { IsDone result ⊎ ((f : File) → (H.seen home.new).file self.old.spare.spot ≡ Some f → OldOrBoth f.bytes 0 [] (filling self.old items.now)) }
        ensures memory { IsErrOf result LogFault.Memory → (f : File) → (H.seen home.new).file self.old.spare.spot ≡ Some f → EndsAt f.bytes 0 [] }
        ensures current { (kept : List (ℕ × Record)) → IsOrdered self.old kept → (c s : File) → (H.seen home.new).file self.old.current.spot ≡ Some c → (H.seen home.new).file self.old.spare.spot ≡ Some s → IsCurrentAfter self.old kept items.now c.bytes s.bytes result }
        ensures short { BothWithin (H.seen home.new).file self.old }
        ensures faults { IfErr result (IsOfForce self.old.spare.spot) }
        ensures rest { RestStays self.old.spare.spot (H.seen home.old) (H.seen home.new) }
        ensures device { IsErrOf result (LogFault.Device self.old.spare.spot) → HasFailed self.old.spare.spot (H.seen home.old) (H.seen home.new) }
        ensures quiet { (IsErrOf result (LogFault.Device self.old.spare.spot) → ⊥) → (H.seen home.new).faults ≡ (H.seen home.old).faults }
    {
        let next_generation = self.generation + 1;
        let header = [Record::Header {
            node: self.node,
            generation: next_generation,
        }];
        let ending = append(
            self.alloc,
            &mut self.spare,
            home,
            0,
            &header,
            &[],
            items,
            &mut self.stop,
        )?;
        self.waiting.clear();
        match ending {
            Ending::Whole { next } => {
                self.turn(next, next_generation);
                Ok(mark)
            }
            Ending::Stopped { call, stable, next } => {
                self.turn_if(stable, next, next_generation);
                let marks = marks_if(self.alloc, stable, told);
                Err(LogFault::Stopped {
                    call,
                    stable,
                    marks,
                })
            }
        }
    }

    /// Makes the spare file, which was filled in version 2, the current one, and the current one the spare.
    fn turn(&mut self, gate: u32, generation: u32)
        ensures turned { self.new ≡ turned self.old gate generation }
        ensures held { (home : HomeView) → IsHeld home self.old → IsHeld home self.new }
    {
        std::mem::swap(&mut self.current, &mut self.spare);
        self.version = NEWEST_VERSION;
        self.gate = gate;
        self.generation = generation;
    }

    /// The same where a filling counts.
    fn turn_if(&mut self, stable: bool, gate: u32, generation: u32)
        ensures turned { self.new ≡ (if stable then turned self.old gate generation else self.old) }
        ensures held { (home : HomeView) → IsHeld home self.old → IsHeld home self.new }
    {
        if stable {
            self.turn(gate, generation);
        }
    }
}
