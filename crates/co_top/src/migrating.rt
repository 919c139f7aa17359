//! The logs of version 1 of a directory are migrated.
ghost use Rattle.std.specs.Prelude.{◌≡◌, ℕ, List, Some, None, IfOk, IsErrOf};
ghost use Rattle.co_base.specs.Limits.{most_coordinators, most_members};
ghost use Rattle.co_durable.specs.Told.{AreTold};
ghost use Rattle.co_outside.specs.Faults.{HasRisen};
ghost use Rattle.co_outside.specs.Home.{HasFailed, IsClean};
ghost use Rattle.co_outside.specs.declared.spot.Spot.{Spot};
ghost use Rattle.co_top.specs.Migrating.{migrated_text, of_migrate, IsMigrateEnd, IsOfMigrate};
ghost use Rattle.co_top.specs.Replayed.{status_of};
ghost use Rattle.co_top.specs.Telling.{IsTextPut};

use crate::playing::put;
use crate::status::{LimitKind, Status};
use co_migrate::{MigrateFault, migrate_directory};
use co_outside::{Home, Sink};
use co_schedule::append_number;
use std::alloc::{AllocError, Global};

/// The line that tells how many nodes were filled.
fn migrated_text(alloc: Global, count: u32) -> Result<Vec<u8>, AllocError>
    ensures { IfOk result (λ text. text.items ≡ migrated_text count) }
{
    let mut text = Vec::new(alloc);
    text.extend_from_slice(b"migrated")?;
    append_number(&mut text, u64::from(count))?;
    text.push(b'\n')?;
    Ok(text)
}

/// The status that stands for a fault of a migration.
fn of_migrate(fault: MigrateFault) -> Status
    ensures { result ≡ of_migrate fault }
{
    match fault {
        MigrateFault::Device { spot } => Status::Device { spot },
        MigrateFault::Bad { spot, at } => Status::BadLog { spot, at },
        MigrateFault::Full { spot } => Status::Limit(LimitKind::Log { spot }),
        MigrateFault::Memory => Status::Memory,
    }
}

/// Puts the line that tells how many nodes were filled.
fn tell_migrated<K: Sink>(alloc: Global, out: &mut K, count: u32) -> Result<(), Status>
    ensures told { IsTextPut (migrated_text count) (K.told out.old) (K.told out.new) result }
    ensures failed { IsErrOf result Status.Write → HasRisen (K.faults out.old) (K.faults out.new) }
    ensures quiet { (IsErrOf result Status.Write → ⊥) → K.faults out.new ≡ K.faults out.old }
{
    let text = migrated_text(alloc, count)?;
    put(alloc, out, text.as_slice())
}

/// Migrates the logs of version 1 in a directory, and puts how many nodes were filled.
fn told_migration<K: Sink, H: Home>(
    alloc: Global,
    directory: &str,
    out: &mut K,
    home: &mut H,
) -> Result<(), Status>
    ensures end { AreTold (H.seen home.old).file most_members most_coordinators → (held : List ℕ) → K.told out.old ≡ Some held →
        IsMigrateEnd (H.seen home.old).file (H.seen home.new).file held (K.told out.new) (status_of result) }
    ensures own { IsOfMigrate (status_of result) }
    ensures write { IsErrOf result Status.Write → HasRisen (K.faults out.old) (K.faults out.new) }
    ensures device { (spot : Spot) → IsErrOf result (Status.Device spot) → HasFailed spot (H.seen home.old) (H.seen home.new) }
    ensures quiet_sink { (IsErrOf result Status.Write → ⊥) → K.faults out.new ≡ K.faults out.old }
    ensures quiet_home { ((spot : Spot) → IsErrOf result (Status.Device spot) → ⊥) → (H.seen home.new).faults ≡ (H.seen home.old).faults }
    ensures told { (s : Spot) → (H.seen home.new).file s ≡ None → (H.seen home.old).file s ≡ None }
    ensures entered { status_of result ≡ Status.Done → (H.seen home.new).entered ≡ Some directory.now }
    ensures clean { status_of result ≡ Status.Done → (s : Spot) → IsClean (H.seen home.old) s → IsClean (H.seen home.new) s }
{
    match migrate_directory(alloc, home, directory) {
        Ok(count) => tell_migrated(alloc, out, count),
        Err(fault) => Err(of_migrate(fault)),
    }
}

/// Migrates the logs of version 1 in a directory, and writes how many nodes were filled.
pub(crate) fn migrate<K: Sink, H: Home>(
    alloc: Global,
    directory: &str,
    out: &mut K,
    home: &mut H,
) -> Status
    ensures end { AreTold (H.seen home.old).file most_members most_coordinators → (held : List ℕ) → K.told out.old ≡ Some held →
        IsMigrateEnd (H.seen home.old).file (H.seen home.new).file held (K.told out.new) result }
    ensures own { IsOfMigrate result }
    ensures write { result ≡ Status.Write → HasRisen (K.faults out.old) (K.faults out.new) }
    ensures device { (spot : Spot) → result ≡ Status.Device spot → HasFailed spot (H.seen home.old) (H.seen home.new) }
    ensures quiet_sink { (result ≡ Status.Write → ⊥) → K.faults out.new ≡ K.faults out.old }
    ensures quiet_home { ((spot : Spot) → result ≡ Status.Device spot → ⊥) → (H.seen home.new).faults ≡ (H.seen home.old).faults }
    ensures told { (s : Spot) → (H.seen home.new).file s ≡ None → (H.seen home.old).file s ≡ None }
    ensures entered { result ≡ Status.Done → (H.seen home.new).entered ≡ Some directory.now }
    ensures clean { result ≡ Status.Done → (s : Spot) → IsClean (H.seen home.old) s → IsClean (H.seen home.new) s }
{
    match told_migration(alloc, directory, out, home) {
        Ok(()) => Status::Done,
        Err(status) => status,
    }
}
