//! Log writes on one disk.
ghost use Rattle.std.specs.Prelude.{◌≡◌, ◌≤◌, ◌<◌, ◌+◌, [], ◌∷◌, ℕ, List, length, OnOk, OnErr, IfErr, IfSome, IsErrOf, None, Some, ◌⊎◌};
ghost use Rattle.co_base.specs.Limits.{most_log_bytes};
ghost use Rattle.co_disk.specs.DiskModel.{read_of, after_write, after_sync, IsImage};
ghost use Rattle.co_outside.specs.Home.{File, Agrees, IsClean, RestStays, HasFailed};
ghost use Rattle.co_disk.specs.Faults.{IsOfWrite};
ghost use Rattle.co_disk.specs.Homes.{IsImageIn};
ghost use Rattle.co_log.specs.BatchWrite.{batch_pending, gate_pending, disk_at, disk_after};
ghost use Rattle.co_log.specs.LogView.{IsShort};
ghost use Rattle.co_log.specs.Stopping.{IsStoppedWithin, HasPassed, after_calls, IsWriteStopped};

use crate::stop::arm_for;
use co_base::Stop;
use co_disk::{Disk, DiskFault};
use co_frame::OPEN_GATE;
use co_outside::Home;

/// Writes a piece and syncs: two device calls. Only the first one wants memory.
pub(crate) fn write_through<H: Home>(
    disk: &mut Disk,
    home: &mut H,
    at: u32,
    piece: &[u8],
) -> Result<(), DiskFault>
    requires agrees { Agrees (H.seen home.old) disk.old.spot (read_of disk.old.state) }
    requires stable { disk.old.state.pending ≡ [] }
    requires at { at ≤ length disk.old.state.stable }
    requires end { at + length piece.now ≤ most_log_bytes }
    ensures spot { disk.new.spot ≡ disk.old.spot }
    ensures done { OnOk result (disk.new.state ≡ after_sync (after_write disk.old.state at piece.now)) }
    ensures passed { OnOk result (HasPassed 2 disk.old.armed) }
    ensures counted { OnOk result (disk.new.armed ≡ after_calls 2 disk.old.armed) }
    ensures stopped { (call : ℕ) → IsErrOf result (DiskFault.Stopped call) → IsStoppedWithin 2 disk.old.armed call (after_write disk.old.state at piece.now) disk.new }
    ensures left { (call : ℕ) → IsErrOf result (DiskFault.Stopped call) → Agrees (H.seen home.new) disk.old.spot (read_of disk.new.state) × IsClean (H.seen home.new) disk.old.spot }
    ensures agrees { OnOk result (Agrees (H.seen home.new) disk.old.spot (read_of disk.new.state)) }
    ensures clean { OnOk result (IsClean (H.seen home.new) disk.old.spot) }
    ensures image { IsImageIn (after_write disk.old.state at piece.now) ((H.seen home.new).file disk.old.spot) }
    ensures faults { IfErr result IsOfWrite }
    ensures memory { length piece.now ≡ 1 → at < length disk.old.state.stable → IsErrOf result DiskFault.Memory → ⊥ }
    ensures rest { RestStays disk.old.spot (H.seen home.old) (H.seen home.new) }
    ensures device { IsErrOf result DiskFault.Device → HasFailed disk.old.spot (H.seen home.old) (H.seen home.new) }
    ensures quiet { (IsErrOf result DiskFault.Device → ⊥) → (H.seen home.new).faults ≡ (H.seen home.old).faults }
    ensures short { IsShort disk.new }
{
    disk.write_at(home, at, piece)?;
    disk.sync(home)?;
    Ok(())
}

/// Writes a batch with a closed gate behind it and syncs, then opens the gate in front of it and syncs:
/// four device calls. Only the first one wants memory.
pub(crate) fn write_batch<H: Home>(
    disk: &mut Disk,
    home: &mut H,
    gate: u32,
    batch: &[u8],
    stop: Option<Stop>,
) -> Result<(), DiskFault>
    requires agrees { Agrees (H.seen home.old) disk.old.spot (read_of disk.old.state) }
    requires stable { disk.old.state.pending ≡ [] }
    requires stop { IfSome stop (λ s. (1 ≤ s.call) × (s.call ≤ 4)) }
    requires gate { gate < length disk.old.state.stable }
    requires end { gate + 1 + length batch.now ≤ most_log_bytes }
    ensures spot { disk.new.spot ≡ disk.old.spot }
    ensures done { OnOk result (disk.new.state ≡ disk_after disk.old.state.stable gate batch.now) }
    ensures passed { OnOk result (stop ≡ None) }
    ensures disarmed { OnOk result (disk.new.armed ≡ None) }
    ensures stopped { (call : ℕ) → IsErrOf result (DiskFault.Stopped call) → IsWriteStopped stop call (λ n. disk_at n disk.old.state.stable gate batch.now) disk.new }
    ensures left { (call : ℕ) → IsErrOf result (DiskFault.Stopped call) → Agrees (H.seen home.new) disk.old.spot (read_of disk.new.state) × IsClean (H.seen home.new) disk.old.spot }
    ensures agrees { OnOk result (Agrees (H.seen home.new) disk.old.spot (read_of disk.new.state)) }
    ensures clean { OnOk result (IsClean (H.seen home.new) disk.old.spot) }
    ensures image { OnErr result ((f : File) → (H.seen home.new).file disk.old.spot ≡ Some f → IsImage (batch_pending disk.old.state.stable gate batch.now) f.bytes ⊎ IsImage (gate_pending disk.old.state.stable gate batch.now) f.bytes) }
    ensures faults { IfErr result IsOfWrite }
    ensures memory { IsErrOf result DiskFault.Memory → IsImageIn (batch_pending disk.old.state.stable gate batch.now) ((H.seen home.new).file disk.old.spot) }
    ensures rest { RestStays disk.old.spot (H.seen home.old) (H.seen home.new) }
    ensures device { IsErrOf result DiskFault.Device → HasFailed disk.old.spot (H.seen home.old) (H.seen home.new) }
    ensures quiet { (IsErrOf result DiskFault.Device → ⊥) → (H.seen home.new).faults ≡ (H.seen home.old).faults }
    ensures short { IsShort disk.new }
{
    arm_for(disk, stop);
    write_through(disk, home, gate + 1, batch)?;
    // The batch is stable here, and only now may its gate be opened.
    write_through(disk, home, gate, &[OPEN_GATE])?;
    Ok(())
}
