//! The durable records of a directory of logs.
ghost use Rattle.std.specs.Prelude.{◌≡◌, ◌≤◌, Some, OnOk, IfOk, IfErr, IsErrOf, length};
ghost use Rattle.co_base.specs.Limits.{most_coordinators, most_members};
ghost use Rattle.co_outside.specs.declared.spot.Spot.{Spot};
ghost use Rattle.co_outside.specs.Home.{HasFailed};
ghost use Rattle.co_durable.specs.Directory.{IsUnreadable};
ghost use Rattle.co_durable.specs.Durable.{IsDurable, IsUndurable};
ghost use Rattle.co_durable.specs.Reading.{OnlyReads};

use crate::fault::WorldFault;
use crate::laying::durable_rows;
use crate::reading::{read_coords, read_members};
use crate::recovering::{recover_coords, recover_members};
use co_base::{Head, MOST_COORDINATORS, MOST_MEMBERS};
use co_outside::{Home, HomeFault, Spot};
use co_serial::MemberRows;
use std::alloc::Global;

/// The durable records of so many members and coordinators, by their logs.
fn read_rows<H: Home>(
    alloc: Global,
    home: &mut H,
    members: u8,
    coords: u8,
) -> Result<MemberRows, WorldFault>
    requires members { members ≤ most_members }
    requires coords { coords ≤ most_coordinators }
    ensures durable { IfOk result (IsDurable (H.seen home.old).file members coords) }
    ensures undurable { IfErr result (IsUndurable (H.seen home.old).file members coords) }
    ensures reads { OnlyReads (H.seen home.old) (H.seen home.new) }
    ensures device { (spot : Spot) → IsErrOf result (WorldFault.Device spot) → HasFailed spot (H.seen home.old) (H.seen home.new) }
    ensures quiet { ((spot : Spot) → IsErrOf result (WorldFault.Device spot) → ⊥) → (H.seen home.new).faults ≡ (H.seen home.old).faults }
{
    let member_logs = read_members(alloc, home, members)?;
    let coord_logs = read_coords(alloc, home, coords)?;
    let pasts = recover_members(alloc, member_logs.as_slice(), coords)?;
    let seen = recover_coords(alloc, coord_logs.as_slice(), members)?;
    Ok(durable_rows(alloc, pasts.as_slice(), seen.as_slice())?)
}

/// The durable records of a federation with this head, by its logs in the directory that was entered. Writes
/// no file.
///
/// The files are read in the order of nodes, members before coordinators, and of each node part `a` before
/// part `b`. Then the records of every current file are told, in the same order. `Device` comes where the home
/// failed, and only there; `Full` where a file has more than 268,435,456 bytes; `Bad` where the files of a node are no
/// log, at the place of the first fault, and where all are logs but a record is not allowed at its place;
/// `Memory` where there was none. `Differs`, `InUse`, `Count` and `Old` never come.
pub fn read_durable<H: Home>(
    alloc: Global,
    home: &mut H,
    head: &Head,
) -> Result<MemberRows, WorldFault>
    ensures durable { IfOk result (IsDurable (H.seen home.old).file (length head.now.kinds) head.now.coords) }
    ensures undurable { IfErr result (IsUndurable (H.seen home.old).file (length head.now.kinds) head.now.coords) }
    ensures reads { OnlyReads (H.seen home.old) (H.seen home.new) }
    ensures device { (spot : Spot) → IsErrOf result (WorldFault.Device spot) → HasFailed spot (H.seen home.old) (H.seen home.new) }
    ensures quiet { ((spot : Spot) → IsErrOf result (WorldFault.Device spot) → ⊥) → (H.seen home.new).faults ≡ (H.seen home.old).faults }
{
    let members = head.kinds.len() as u8;
    read_rows(alloc, home, members, head.coords)
}

/// The durable records of all logs in a directory, of 16 members and 8 coordinators. The directory is entered, and made
/// where it is missing; no file is written.
///
/// `Device`, `Bad`, `Full` and `Memory` come as `read_durable` says, and `Device` with `m1.a` where the directory could not be
/// entered. `Differs`, `InUse`, `Count` and `Old` never come.
pub fn read_directory<H: Home>(
    alloc: Global,
    home: &mut H,
    dir: &str,
) -> Result<MemberRows, WorldFault>
    ensures durable { IfOk result (IsDurable (H.seen home.old).file most_members most_coordinators) }
    ensures refused { IfErr result (IsUnreadable (H.seen home.old).file) }
    ensures files { (s : Spot) → (H.seen home.new).file s ≡ (H.seen home.old).file s }
    ensures entered { OnOk result ((H.seen home.new).entered ≡ Some dir.now) }
    ensures device { (spot : Spot) → IsErrOf result (WorldFault.Device spot) → HasFailed spot (H.seen home.old) (H.seen home.new) }
    ensures quiet { ((spot : Spot) → IsErrOf result (WorldFault.Device spot) → ⊥) → (H.seen home.new).faults ≡ (H.seen home.old).faults }
{
    match home.enter(alloc, dir) {
        Ok(()) => read_rows(alloc, home, MOST_MEMBERS, MOST_COORDINATORS),
        Err(HomeFault::Failed) => Err(WorldFault::Device { spot: Spot::FIRST }),
        Err(HomeFault::Memory) => Err(WorldFault::Memory),
    }
}
