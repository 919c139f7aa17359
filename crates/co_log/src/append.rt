//! Records as they are appended to a file: in one batch, in one log write.
ghost use Rattle.std.specs.Prelude.{◌≡◌, ◌⊎◌, ◌≤◌, ◌<◌, ◌+◌, ◌++◌, ◌∷◌, [], ℕ, List, length, OnOk, OnErr, IfOk, IfErr, IfSome, IsErrOf, Some, None, slice_get, if◌then◌else◌};
ghost use Rattle.std.specs.List.{AllByRecursion};
ghost use Rattle.co_base.specs.Limits.{most_log_bytes};
ghost use Rattle.co_outside.specs.Home.{File, Agrees, IsClean, RestStays, HasFailed};
ghost use Rattle.co_disk.specs.DiskModel.{read_of};
ghost use Rattle.co_record.specs.declared.record.Record.{Record};
ghost use Rattle.co_record.specs.Spelling.{IsWritable, IsSpelled};
ghost use Rattle.co_log.specs.Appending.{IsEnding, IsTooLong, IsOfAppend};
ghost use Rattle.co_log.specs.Attaching.{IsWithin};
ghost use Rattle.co_log.specs.LogView.{IsShort};
ghost use Rattle.co_log.specs.Batches.{IsBatchAt};
ghost use Rattle.co_log.specs.Fresh.{IsOfDevice};
ghost use Rattle.co_log.specs.LogFile.{spelled, opened, EndsAt, OldOrBoth};

use crate::fault::LogFault;
use crate::writing::write_batch;
use co_base::{MOST_LOG_BYTES, Stop};
use co_disk::{Disk, DiskFault};
use co_frame::{OPEN_GATE, put_batch};
use co_outside::{Home, Spot};
use co_record::{LentPrepare, Record, put_prepare, put_record};
use std::alloc::{AllocError, Global};

/// How a log write that met no fault ended.
#[derive(Clone, Copy)]
pub(crate) enum Ending {
    /// All its device calls were done, and the next gate stands at this place.
    Whole { next: u32 },
    /// It was stopped at the device call with this number, the batch counts or does not, and the first
    /// gate that is not open stands at this place.
    Stopped { call: u8, stable: bool, next: u32 },
}

/// Appends the spellings of records.
fn put_records(items: &[Record], into: &mut Vec<u8>) -> Result<(), AllocError>
    requires { AllByRecursion IsWritable items.now }
    ensures bytes { OnOk result (into.new.items ≡ into.old.items ++ spelled items.now) }
    ensures each { OnOk result (AllByRecursion IsSpelled items.now) }
{
    for item in items {
        put_record(item, into)?;
    }
    Ok(())
}

/// Appends the spellings of prepare records whose sets are lent.
fn put_lent(items: &[LentPrepare<'_>], into: &mut Vec<u8>) -> Result<(), AllocError>
    requires { AllByRecursion IsWritable items.now }
    ensures bytes { OnOk result (into.new.items ≡ into.old.items ++ spelled items.now) }
    ensures each { OnOk result (AllByRecursion IsSpelled items.now) }
{
    for item in items {
        put_prepare(item, into)?;
    }
    Ok(())
}

/// The bytes of these records, then of the lent ones, and then of those.
fn spell(
    alloc: Global,
    front: &[Record],
    lent: &[LentPrepare<'_>],
    back: &[Record],
) -> Result<Vec<u8>, AllocError>
    requires front { AllByRecursion IsWritable front.now }
    requires lent { AllByRecursion IsWritable lent.now }
    requires back { AllByRecursion IsWritable back.now }
    ensures bytes { IfOk result (λ v. v.items ≡ spelled (front.now ++ (lent.now ++ back.now))) }
    ensures each { OnOk result (AllByRecursion IsSpelled (front.now ++ (lent.now ++ back.now))) }
{
    let mut bytes = Vec::new(alloc);
    put_records(front, &mut bytes)?;
    put_lent(lent, &mut bytes)?;
    put_records(back, &mut bytes)?;
    Ok(bytes)
}

/// Whether the gate at a place is there and open.
fn is_opened(bytes: &[u8], gate: u32) -> bool
    ensures { result ≡ opened (slice_get bytes.now gate) }
{
    match bytes.get(gate as usize) {
        Some(byte) => *byte == OPEN_GATE,
        None => false,
    }
}

/// The place of the first gate that is not open.
fn gate_after(stable: bool, gate: u32, next: u32) -> u32
    ensures { result ≡ (if stable then next else gate) }
{
    if stable { next } else { gate }
}

/// The bytes of a batch of these records, then of the lent ones, and then of those, with a closed gate behind it. `Full` comes where the file
/// would have more than 268,435,456 bytes with it behind the gate at this place.
pub(crate) fn batch_of(
    alloc: Global,
    spot: Spot,
    gate: u32,
    front: &[Record],
    lent: &[LentPrepare<'_>],
    back: &[Record],
) -> Result<Vec<u8>, LogFault>
    requires some { 0 < length (front.now ++ (lent.now ++ back.now)) }
    requires front { AllByRecursion IsWritable front.now }
    requires lent { AllByRecursion IsWritable lent.now }
    requires back { AllByRecursion IsWritable back.now }
    ensures batch { IfOk result (λ v. IsBatchAt gate (front.now ++ (lent.now ++ back.now)) v.items) }
    ensures full { IsErrOf result (LogFault.Full spot) → IsTooLong gate (front.now ++ (lent.now ++ back.now)) }
    ensures faults { IfErr result (λ e. (e ≡ LogFault.Full spot) ⊎ (e ≡ LogFault.Memory)) }
{
    let records = spell(alloc, front, lent, back)?;
    if gate as usize + 6 + records.len() > MOST_LOG_BYTES as usize {
        return Err(LogFault::Full { spot });
    }
    let mut batch = Vec::new(alloc);
    put_batch(&records, &mut batch)?;
    Ok(batch)
}

/// Lays a batch behind the gate at a place, and opens it. `Device` comes only where the home failed; `Memory` before or in the first device
/// call.
pub(crate) fn lay<H: Home>(
    disk: &mut Disk,
    home: &mut H,
    gate: u32,
    batch: &[u8],
    stop: &mut Option<Stop>,
) -> Result<Ending, LogFault>
    requires agrees { Agrees (H.seen home.old) disk.old.spot (read_of disk.old.state) }
    requires stable { disk.old.state.pending ≡ [] }
    requires read { IsShort disk.old }
    requires stop { IfSome stop.old (λ s. (1 ≤ s.call) × (s.call ≤ 4)) }
    requires ends { (kept : List (ℕ × Record)) × EndsAt disk.old.state.stable gate kept }
    requires batch { (items : List Record) × IsBatchAt gate items batch.now }
    ensures spot { disk.new.spot ≡ disk.old.spot }
    ensures ended { (items : List Record) (kept : List (ℕ × Record)) → IsBatchAt gate items batch.now → EndsAt disk.old.state.stable gate kept → IfOk result (λ e. IsEnding e stop.old disk.new gate kept items) }
    ensures disarmed { OnOk result (stop.new ≡ None) }
    ensures stop { IfSome stop.new (λ s. (1 ≤ s.call) × (s.call ≤ 4)) }
    ensures stable { OnOk result (disk.new.state.pending ≡ []) }
    ensures agrees { OnOk result (Agrees (H.seen home.new) disk.old.spot (read_of disk.new.state)) }
    ensures clean { OnOk result (IsClean (H.seen home.new) disk.old.spot) }
    ensures told { (items : List Record) (kept : List (ℕ × Record)) → IsBatchAt gate items batch.now → EndsAt disk.old.state.stable gate kept → OnErr result ((f : File) → (H.seen home.new).file disk.old.spot ≡ Some f → OldOrBoth f.bytes gate kept items) }
    ensures memory { (kept : List (ℕ × Record)) → EndsAt disk.old.state.stable gate kept → IsErrOf result LogFault.Memory → (f : File) → (H.seen home.new).file disk.old.spot ≡ Some f → EndsAt f.bytes gate kept }
    ensures read { IsShort disk.new }
    ensures within { IsWithin most_log_bytes ((H.seen home.new).file disk.old.spot) }
    ensures faults { IfErr result (IsOfDevice disk.old.spot) }
    ensures rest { RestStays disk.old.spot (H.seen home.old) (H.seen home.new) }
    ensures device { IsErrOf result (LogFault.Device disk.old.spot) → HasFailed disk.old.spot (H.seen home.old) (H.seen home.new) }
    ensures quiet { (IsErrOf result (LogFault.Device disk.old.spot) → ⊥) → (H.seen home.new).faults ≡ (H.seen home.old).faults }
{
    let next = gate + batch.len() as u32;
    let stop = stop.take();
    match write_batch(disk, home, gate, batch, stop) {
        Ok(()) => Ok(Ending::Whole { next }),
        Err(DiskFault::Stopped { call }) => {
            let stable = is_opened(disk.bytes(), gate);
            Ok(Ending::Stopped {
                call,
                stable,
                next: gate_after(stable, gate, next),
            })
        }
        Err(DiskFault::Device) => Err(LogFault::Device { spot: disk.spot() }),
        Err(DiskFault::Memory) => Err(LogFault::Memory),
        Err(DiskFault::Differs { .. } | DiskFault::Long) => unreachable!(),
    }
}

/// Appends these records, then the lent ones, and then those in one batch behind the gate at a place, and opens it. The memory that the
/// batch wants is taken before the first device call. `Full` comes, before any device call, where the file would have
/// more than 268,435,456 bytes; `Device` only where the home failed; `Memory` before or in the first device call.
pub(crate) fn append<H: Home>(
    alloc: Global,
    disk: &mut Disk,
    home: &mut H,
    gate: u32,
    front: &[Record],
    lent: &[LentPrepare<'_>],
    back: &[Record],
    stop: &mut Option<Stop>,
) -> Result<Ending, LogFault>
    requires agrees { Agrees (H.seen home.old) disk.old.spot (read_of disk.old.state) }
    requires stable { disk.old.state.pending ≡ [] }
    requires read { IsShort disk.old }
    requires stop { IfSome stop.old (λ s. (1 ≤ s.call) × (s.call ≤ 4)) }
    requires ends { (kept : List (ℕ × Record)) × EndsAt disk.old.state.stable gate kept }
    requires some { 0 < length (front.now ++ (lent.now ++ back.now)) }
    requires front { AllByRecursion IsWritable front.now }
    requires lent { AllByRecursion IsWritable lent.now }
    requires back { AllByRecursion IsWritable back.now }
    ensures spot { disk.new.spot ≡ disk.old.spot }
    ensures ended { (kept : List (ℕ × Record)) → EndsAt disk.old.state.stable gate kept → IfOk result (λ e. IsEnding e stop.old disk.new gate kept (front.now ++ (lent.now ++ back.now))) }
    ensures disarmed { OnOk result (stop.new ≡ None) }
    ensures stop { IfSome stop.new (λ s. (1 ≤ s.call) × (s.call ≤ 4)) }
    ensures stable { OnOk result (disk.new.state.pending ≡ []) }
    ensures agrees { OnOk result (Agrees (H.seen home.new) disk.old.spot (read_of disk.new.state)) }
    ensures clean { OnOk result (IsClean (H.seen home.new) disk.old.spot) }
    ensures full { IsErrOf result (LogFault.Full disk.old.spot) → IsTooLong gate (front.now ++ (lent.now ++ back.now)) }
    ensures too_long { IsTooLong gate (front.now ++ (lent.now ++ back.now)) → IsErrOf result (LogFault.Full disk.old.spot) ⊎ IsErrOf result LogFault.Memory }
    ensures untouched { IsTooLong gate (front.now ++ (lent.now ++ back.now)) → (disk.new ≡ disk.old) × (stop.new ≡ stop.old) × (home.new ≡ home.old) }
    ensures short { OnOk result (gate + 6 + length (spelled (front.now ++ (lent.now ++ back.now))) ≤ most_log_bytes) }
    ensures told { (kept : List (ℕ × Record)) → EndsAt disk.old.state.stable gate kept → OnErr result ((f : File) → (H.seen home.new).file disk.old.spot ≡ Some f → OldOrBoth f.bytes gate kept (front.now ++ (lent.now ++ back.now))) }
    ensures memory { (kept : List (ℕ × Record)) → EndsAt disk.old.state.stable gate kept → IsErrOf result LogFault.Memory → (f : File) → (H.seen home.new).file disk.old.spot ≡ Some f → EndsAt f.bytes gate kept }
    ensures read { IsShort disk.new }
    ensures within { IsWithin most_log_bytes ((H.seen home.new).file disk.old.spot) }
    ensures faults { IfErr result (IsOfAppend disk.old.spot) }
    ensures rest { RestStays disk.old.spot (H.seen home.old) (H.seen home.new) }
    ensures device { IsErrOf result (LogFault.Device disk.old.spot) → HasFailed disk.old.spot (H.seen home.old) (H.seen home.new) }
    ensures quiet { (IsErrOf result (LogFault.Device disk.old.spot) → ⊥) → (H.seen home.new).faults ≡ (H.seen home.old).faults }
{
    let batch = batch_of(alloc, disk.spot(), gate, front, lent, back)?;
    lay(disk, home, gate, &batch, stop)
}
