//! Crashes between events, and logs that are read again.
ghost use Rattle.std.specs.Prelude.{◌+◌, ◌≡◌, ◌≢◌, ◌≤◌, [], None, OnOk, IfErr, IsErrOf, IsOk};
ghost use Rattle.co_base.specs.Limits.{most_log_bytes};
ghost use Rattle.co_outside.specs.declared.spot.Spot.{Spot};
ghost use Rattle.co_disk.specs.DiskModel.{read_of};
ghost use Rattle.co_outside.specs.Home.{Agrees, RestStays, HasFailed};
ghost use Rattle.co_log.specs.Rereading.{IsOfReread, IsOfReattach, AreReread};

use crate::fault::LogFault;
use crate::log::Log;
use co_disk::{Disk, DiskFault};
use co_outside::Home;

/// Reads the file of a disk again.
fn reread<H: Home>(disk: &mut Disk, home: &mut H) -> Result<(), LogFault>
    requires agrees { Agrees (H.seen home.old) disk.old.spot (read_of disk.old.state) }
    ensures disk { disk.new ≡ disk.old }
    ensures file { (H.seen home.new).file disk.old.spot ≡ (H.seen home.old).file disk.old.spot }
    ensures agrees { Agrees (H.seen home.new) disk.old.spot (read_of disk.new.state) }
    ensures same { OnOk result (H.gives home.old disk.old.spot (most_log_bytes + 1) (read_of disk.old.state)) }
    ensures rest { RestStays disk.old.spot (H.seen home.old) (H.seen home.new) }
    ensures device { IsErrOf result (LogFault.Device disk.old.spot) → HasFailed disk.old.spot (H.seen home.old) (H.seen home.new) }
    ensures quiet { (IsErrOf result (LogFault.Device disk.old.spot) → ⊥) → (H.seen home.new).faults ≡ (H.seen home.old).faults }
    ensures faults { IfErr result (IsOfReread (H.gives home.old disk.old.spot (most_log_bytes + 1)) ((H.seen home.old).file disk.old.spot) disk.old) }
{
    let spot = disk.spot();
    match disk.reread(home) {
        Ok(()) => Ok(()),
        Err(DiskFault::Device) => Err(LogFault::Device { spot }),
        Err(DiskFault::Differs { at, kept, read }) => Err(LogFault::Differs {
            spot,
            at,
            kept,
            read,
        }),
        Err(DiskFault::Memory) => Err(LogFault::Memory),
        Err(DiskFault::Stopped { .. }) => unreachable!(),
        Err(DiskFault::Long) => unreachable!(),
    }
}

impl Log {
    ghost use Rattle.co_log.specs.Calls.{MayCut, HasReattached};
    ghost use Rattle.co_log.specs.LogView.{IsHeld};
    ghost use Rattle.co_log.specs.Others.{OtherNodesStay};

    /// Reads both files again, that of the current one first, after a stop or a cut. Nothing of the log
    /// changes.
    ///
    /// `Differs` comes exactly where a file is not what is kept of it, with the first place that differs and both
    /// bytes there, and never over a home that tells it;
    /// `Device` where the home failed, and only there; `Memory` where there was none.
    pub fn reattach<H: Home>(&mut self, home: &mut H) -> Result<(), LogFault>
        requires held { IsHeld (H.seen home.old) self.old }
        ensures called { HasReattached H.gives H.seen self.old home.old home.new result }
        ensures log { self.new ≡ self.old }
    {
        self.reread_both(home)
    }

    /// Reads the current file, and then the spare.
    fn reread_both<H: Home>(&mut self, home: &mut H) -> Result<(), LogFault>
        requires held { IsHeld (H.seen home.old) self.old }
        ensures log { self.new ≡ self.old }
        ensures current { (H.seen home.new).file self.old.current.spot ≡ (H.seen home.old).file self.old.current.spot }
        ensures spare { (H.seen home.new).file self.old.spare.spot ≡ (H.seen home.old).file self.old.spare.spot }
        ensures held { IsHeld (H.seen home.new) self.new }
        ensures faults { IfErr result (IsOfReattach H.gives H.seen self.old home.old) }
        ensures same { OnOk result (AreReread H.gives H.seen self.old home.old home.new) }
        ensures rest { OtherNodesStay self.old.node (H.seen home.old) (H.seen home.new) }
        ensures device { (spot : Spot) → IsErrOf result (LogFault.Device spot) → HasFailed spot (H.seen home.old) (H.seen home.new) }
        ensures quiet { ((spot : Spot) → IsErrOf result (LogFault.Device spot) → ⊥) → (H.seen home.new).faults ≡ (H.seen home.old).faults }
    {
        reread(&mut self.current, home)?;
        reread(&mut self.spare, home)?;
        Ok(())
    }

    /// A crash between events: the waiting records and the armed stop are lost. It makes no call of the
    /// home, since nothing pends between events.
    pub fn cut<H: Home>(&mut self, _home: &mut H) -> Result<(), LogFault>
        requires { MayCut (H.seen _home.old) self.old }
        ensures log { self.new ≡ record self.old { waiting = []; stop = None } }
        ensures home { _home.new ≡ _home.old }
        ensures held { IsHeld (H.seen _home.new) self.new }
        ensures ok { IsOk result }
    {
        self.waiting.clear();
        self.stop = None;
        Ok(())
    }
}
