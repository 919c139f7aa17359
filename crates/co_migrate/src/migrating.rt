//! A directory of logs is migrated.
ghost use Rattle.std.specs.Prelude.{◌≡◌, ◌≤◌, ◌+◌, Option, Some, None, IfOk, IfErr, IsErrOf, OnOk, length, map};
ghost use Rattle.std.specs.List.{AllByRecursion};
ghost use Rattle.co_base.specs.Limits.{most_coordinators, most_members};
ghost use Rattle.co_outside.specs.Home.{File, HasFailed, IsClean};
ghost use Rattle.co_outside.specs.declared.spot.Spot.{Spot};
ghost use Rattle.co_durable.specs.Reading.{OnlyReads};
ghost use Rattle.co_durable.specs.Told.{AreTold};
ghost use Rattle.co_migrate.specs.Migrating.{all_nodes, AllStand, IsMigrated};
ghost use Rattle.co_migrate.specs.Planning.{migrate_fault, ArePlanned, IsUnplanned};
ghost use Rattle.co_migrate.specs.Refilling.{refill_node, AreApart, MayRefill, StaysClean};

use crate::fault::MigrateFault;
use crate::filling::refill_all;
use crate::planning::{Refill, plan_of};
use co_base::{Head, Kind, Kinds, MOST_COORDINATORS, MOST_MEMBERS};
use co_durable::WorldFault;
use co_opening::{attach_all, tell};
use co_outside::{Home, HomeFault, Spot};
use std::alloc::{AllocError, Global};

/// A head of as many members and coordinators as there may be. No log says of which kind its member is.
fn widest_head(alloc: Global) -> Result<Head, AllocError>
    ensures members { IfOk result (λ head. length head.kinds ≡ most_members) }
    ensures coords { IfOk result (λ head. head.coords ≡ most_coordinators) }
{
    let mut kinds = Kinds::new(alloc);
    let mut count = 0;
    while count < MOST_MEMBERS {
        kinds.push(Kind::Occ)?;
        count += 1;
    }
    Ok(Head {
        kinds,
        coords: MOST_COORDINATORS,
    })
}

/// The fault of logs that were not read.
fn of_world(fault: WorldFault) -> MigrateFault
    requires { (file : Spot → Option File) × IsUnplanned file fault }
    ensures { result ≡ migrate_fault fault }
{
    match fault {
        WorldFault::Device { spot } => MigrateFault::Device { spot },
        WorldFault::Bad { spot, at } => MigrateFault::Bad { spot, at },
        WorldFault::Full { spot } => MigrateFault::Full { spot },
        WorldFault::Memory => MigrateFault::Memory,
        WorldFault::Differs { .. } => unreachable!(),
        WorldFault::InUse { .. } => unreachable!(),
        WorldFault::Count => unreachable!(),
        WorldFault::Old { .. } => unreachable!(),
    }
}

/// The logs of version 1 of all nodes, with what they are to be filled with. All logs are read and judged for it, and no file is written.
fn read_plan<H: Home>(alloc: Global, home: &mut H) -> Result<Vec<Refill>, WorldFault>
    ensures planned { IfOk result (λ plan. ArePlanned (H.seen home.old).file all_nodes plan.items) }
    ensures may { IfOk result (λ plan. AllByRecursion (MayRefill (H.seen home.new)) plan.items) }
    ensures few { IfOk result (λ plan. length plan.items ≤ most_members + most_coordinators) }
    ensures stand { OnOk result (AllStand (H.seen home.old).file) }
    ensures unplanned { IfErr result (IsUnplanned (H.seen home.old).file) }
    ensures reads { OnlyReads (H.seen home.old) (H.seen home.new) }
    ensures device { (spot : Spot) → IsErrOf result (WorldFault.Device spot) → HasFailed spot (H.seen home.old) (H.seen home.new) }
    ensures quiet { ((spot : Spot) → IsErrOf result (WorldFault.Device spot) → ⊥) → (H.seen home.new).faults ≡ (H.seen home.old).faults }
{
    let head = widest_head(alloc)?;
    let logs = attach_all(alloc, home, &head, true)?;
    let pasts = tell(alloc, &head, &logs)?;
    Ok(plan_of(alloc, logs, pasts)?)
}

/// Migrates the logs of 16 members and 8 coordinators in the directory that was entered: of each node whose current file is of version 1, in the
/// order of nodes, the spare file is closed where it is not, and filled with version 2 of what the log tells, as a checkpoint does (checkpoints of redo
/// logs: Bernstein, Hadzilacos and Goodman 1987). How many nodes that were. The old file stays, as the spare. A node whose current file is of version
/// 2, or that has none, is left byte for byte, whatever the answer is; so a migration that was cut short and is made again fills the rest, and one that
/// follows another fills nothing.
///
/// All files are read and all records judged before the first write, as those of a run that is resumed are: `Bad` and `Full` come then as
/// `co_durable::read_durable` says, and no file is changed. `Full` comes also at a node whose filled file would have more than 268,435,456 bytes, or
/// that has no next generation, with the earlier nodes filled; `Device` where the directory failed, and only there; `Memory` where there was none. After
/// each of them every node has its old records or the migrated ones.
pub fn migrate<H: Home>(alloc: Global, home: &mut H) -> Result<u32, MigrateFault>
    ensures migrated { AreTold (H.seen home.old).file most_members most_coordinators → IsMigrated (H.seen home.old).file (H.seen home.new).file result }
    ensures clean { OnOk result ((s : Spot) → IsClean (H.seen home.old) s → IsClean (H.seen home.new) s) }
    ensures told { (s : Spot) → (H.seen home.new).file s ≡ None → (H.seen home.old).file s ≡ None }
    ensures directory { (H.seen home.new).entered ≡ (H.seen home.old).entered }
    ensures device { (spot : Spot) → IsErrOf result (MigrateFault.Device spot) → HasFailed spot (H.seen home.old) (H.seen home.new) }
    ensures quiet { ((spot : Spot) → IsErrOf result (MigrateFault.Device spot) → ⊥) → (H.seen home.new).faults ≡ (H.seen home.old).faults }
{
    match read_plan(alloc, home) {
        Ok(plan) => refill_all(home, plan),
        Err(fault) => Err(of_world(fault)),
    }
}

/// Enters the directory, and makes it where it is missing, and migrates its logs as `migrate` does. `Device` comes with `m1.a` where the directory
/// could not be entered.
pub fn migrate_directory<H: Home>(
    alloc: Global,
    home: &mut H,
    dir: &str,
) -> Result<u32, MigrateFault>
    ensures migrated { AreTold (H.seen home.old).file most_members most_coordinators → IsMigrated (H.seen home.old).file (H.seen home.new).file result }
    ensures clean { OnOk result ((s : Spot) → IsClean (H.seen home.old) s → IsClean (H.seen home.new) s) }
    ensures told { (s : Spot) → (H.seen home.new).file s ≡ None → (H.seen home.old).file s ≡ None }
    ensures entered { OnOk result ((H.seen home.new).entered ≡ Some dir.now) }
    ensures device { (spot : Spot) → IsErrOf result (MigrateFault.Device spot) → HasFailed spot (H.seen home.old) (H.seen home.new) }
    ensures quiet { ((spot : Spot) → IsErrOf result (MigrateFault.Device spot) → ⊥) → (H.seen home.new).faults ≡ (H.seen home.old).faults }
{
    match home.enter(alloc, dir) {
        Ok(()) => migrate(alloc, home),
        Err(HomeFault::Failed) => Err(MigrateFault::Device { spot: Spot::FIRST }),
        Err(HomeFault::Memory) => Err(MigrateFault::Memory),
    }
}
