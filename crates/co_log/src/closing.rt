//! Gates that are closed.
ghost use Rattle.std.specs.Prelude.{◌≡◌, ◌≤◌, ◌∷◌, [], ℕ, List, length, OnOk, OnErr, IfErr, IsErrOf, Some, true, false};
ghost use Rattle.co_outside.specs.Home.{File, Agrees, IsClean, RestStays, HasFailed};
ghost use Rattle.co_record.specs.declared.record.Record.{Record};
ghost use Rattle.co_disk.specs.DiskModel.{read_of};
ghost use Rattle.co_frame.specs.LogText.{IsLogText};
ghost use Rattle.co_log.specs.Fresh.{IsOfDevice};
ghost use Rattle.co_log.specs.LogFile.{EndsAt};
ghost use Rattle.co_log.specs.LogView.{IsShort};

use crate::fault::LogFault;
use crate::log::Log;
use crate::stop::arm_for;
use crate::writing::write_through;
use co_base::Marks;
use co_disk::{Disk, DiskFault};
use co_frame::{CLOSED_GATE, begins_closed};
use co_outside::Home;

/// Closes the first gate of a file without a batch, where it is not closed: two device calls, of which
/// none is stopped.
pub(crate) fn close_unmade<H: Home>(disk: &mut Disk, home: &mut H) -> Result<(), LogFault>
    requires agrees { Agrees (H.seen home.old) disk.old.spot (read_of disk.old.state) }
    requires stable { disk.old.state.pending ≡ [] }
    requires short { IsShort disk.old }
    requires none { IsLogText disk.old.state.stable [] }
    ensures spot { disk.new.spot ≡ disk.old.spot }
    ensures ends { OnOk result (EndsAt disk.new.state.stable 0 []) }
    ensures stable { OnOk result (disk.new.state.pending ≡ []) }
    ensures agrees { OnOk result (Agrees (H.seen home.new) disk.old.spot (read_of disk.new.state)) }
    ensures told { OnErr result ((f : File) → (H.seen home.new).file disk.old.spot ≡ Some f → length f.bytes ≤ 1) }
    ensures short { IsShort disk.new }
    ensures faults { IfErr result (IsOfDevice disk.old.spot) }
    ensures rest { RestStays disk.old.spot (H.seen home.old) (H.seen home.new) }
    ensures device { IsErrOf result (LogFault.Device disk.old.spot) → HasFailed disk.old.spot (H.seen home.old) (H.seen home.new) }
    ensures quiet { (IsErrOf result (LogFault.Device disk.old.spot) → ⊥) → (H.seen home.new).faults ≡ (H.seen home.old).faults }
{
    if begins_closed(disk.bytes()) {
        return Ok(());
    }
    disk.disarm();
    match write_through(disk, home, 0, &[CLOSED_GATE]) {
        Ok(()) => Ok(()),
        Err(DiskFault::Device) => Err(LogFault::Device { spot: disk.spot() }),
        Err(DiskFault::Memory) => Err(LogFault::Memory),
        Err(DiskFault::Stopped { .. }) => unreachable!(),
        Err(DiskFault::Differs { .. } | DiskFault::Long) => unreachable!(),
    }
}

impl Log {
    ghost use Rattle.co_log.specs.Calls.{MayClose, HasClosed};
    ghost use Rattle.co_frame.specs.Gate.{begins_closed};
    ghost use Rattle.co_log.specs.Current.{IsCurrentOf, IsOrdered};
    ghost use Rattle.co_log.specs.Forcing.{IsDone};
    ghost use Rattle.co_log.specs.LogView.{IsHeld};
    ghost use Rattle.co_log.specs.Others.{BothWithin};
    ghost use Rattle.co_log.specs.Spare.{IsClosing, IsOfClosing, IsSpareImage};

    /// Closes the first gate of the spare file, in two device calls: it writes `00` there and syncs. The
    /// current file is not touched, and whatever the answer is, it stays the current one.
    ///
    /// `Stopped` comes at the armed device call; `Device` where the home failed, and only there. Both files are within
    /// 268,435,456 bytes then.
    pub fn close_spare<H: Home>(&mut self, home: &mut H) -> Result<(), LogFault>
        requires { MayClose (H.seen home.old) self.old }
        ensures { HasClosed self.old self.new (H.seen home.old) (H.seen home.new) result }
    {
        self.close(home)
    }

    /// Writes a closed gate at the front of the spare file, and syncs it.
    fn close<H: Home>(&mut self, home: &mut H) -> Result<(), LogFault>
        requires held { IsHeld (H.seen home.old) self.old }
        requires still { self.old.spare.state.pending ≡ [] }
        requires unclosed { begins_closed self.old.spare.state.stable ≡ false }
        ensures closing { IsClosing self.old self.new result }
        ensures held { IsDone result → IsHeld (H.seen home.new) self.new }
        ensures clean { IsDone result → IsClean (H.seen home.new) self.old.spare.spot }
        ensures told { (f : File) → (H.seen home.new).file self.old.spare.spot ≡ Some f → IsSpareImage self.old.spare.state.stable f.bytes }
        ensures current { (items : List (ℕ × Record)) → IsOrdered self.old items → (c s : File) → (H.seen home.new).file self.old.current.spot ≡ Some c → (H.seen home.new).file self.old.spare.spot ≡ Some s → IsCurrentOf self.old.node self.old.version self.old.generation c.bytes s.bytes items }
        ensures short { BothWithin (H.seen home.new).file self.old }
        ensures faults { IfErr result (IsOfClosing self.old.spare.spot) }
        ensures rest { RestStays self.old.spare.spot (H.seen home.old) (H.seen home.new) }
        ensures device { IsErrOf result (LogFault.Device self.old.spare.spot) → HasFailed self.old.spare.spot (H.seen home.old) (H.seen home.new) }
        ensures quiet { (IsErrOf result (LogFault.Device self.old.spare.spot) → ⊥) → (H.seen home.new).faults ≡ (H.seen home.old).faults }
    {
        let stop = self.stop.take();
        arm_for(&mut self.spare, stop);
        match write_through(&mut self.spare, home, 0, &[CLOSED_GATE]) {
            Ok(()) => {
                self.spare.disarm();
                Ok(())
            }
            Err(DiskFault::Stopped { call }) => {
                self.waiting.clear();
                let marks = Marks::new(self.alloc);
                Err(LogFault::Stopped {
                    call,
                    stable: false,
                    marks,
                })
            }
            Err(DiskFault::Device) => Err(LogFault::Device {
                spot: self.spare.spot(),
            }),
            Err(DiskFault::Memory) => Err(LogFault::Memory),
            Err(DiskFault::Differs { .. } | DiskFault::Long) => unreachable!(),
        }
    }
}
