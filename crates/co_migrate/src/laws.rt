//! What holds of every migration.
ghost use Rattle.std.specs.Prelude.{ℕ, ◌≡◌, Option, Result, Err};
ghost use Rattle.std.specs.List.{AllByRecursion};
ghost use Rattle.co_base.specs.Limits.{most_coordinators, most_members};
ghost use Rattle.co_outside.specs.Home.{File};
ghost use Rattle.co_outside.specs.declared.spot.Spot.{Spot};
ghost use Rattle.co_plain.specs.Opening.{Found};
ghost use Rattle.co_plain.specs.SoundLogs.{AreSound};
ghost use Rattle.co_durable.specs.Told.{AreTold};
ghost use Rattle.co_opening.specs.Found.{AreFound};
ghost use Rattle.co_migrate.specs.declared.fault.MigrateFault.{MigrateFault};
ghost use Rattle.co_migrate.specs.declared.fault.MigrateFault.TheVariants.{Device};
ghost use Rattle.co_migrate.specs.Images.{IsCutMigration};
ghost use Rattle.co_migrate.specs.Kept.{records_in, KeepsRecords};
ghost use Rattle.co_opening.specs.Versions.{IsNewIn};
ghost use Rattle.co_migrate.specs.Migrating.{all_nodes, AreAllFilled, IsMigrated, NoFileChanges};

/// Whatever a migration answers over a directory that tells its files: where the logs that are found in them are sound, those that are found then
/// are, each of them is the old one or the old one migrated, and they give the same durable records.
pub fn migrations_keep_records()
    ensures { (old new : Spot → Option File) (result : Result ℕ MigrateFault) (found_member found_coord : ℕ → Found) → AreTold old most_members most_coordinators → IsMigrated old new result →
        AreFound old most_members most_coordinators found_member found_coord → AreSound (records_in found_member) (records_in found_coord) → KeepsRecords new found_member found_coord }
{}

/// After a migration that was done each node that has a batch in a file has a current one of version 2. Where that is so, a migration that is done
/// fills nothing, and changes no file.
pub fn migrations_are_made_once()
    ensures newest { (old new : Spot → Option File) (count : ℕ) → AreAllFilled old new count → AllByRecursion (IsNewIn new) all_nodes }
    ensures again { (new newer : Spot → Option File) (again : ℕ) → AreTold new most_members most_coordinators → AllByRecursion (IsNewIn new) all_nodes → AreAllFilled new newer again →
        (again ≡ 0) × NoFileChanges new newer }
{}

/// Every image of the files at each device call of a migration: of the spare file of one node as it is closed or filled, with the earlier nodes of version
/// 1 filled and all other files byte for byte as they were. What it leaves is what a migration leaves where the device fails in that call: the node
/// has its old records, or the migrated ones. So where the logs that were found are sound, those that are found after the crash are, and give the
/// same durable records. The files are stable where the migration begins, and each filled one is before the next node. The disks are those that a log
/// write has at its calls (`disk_at`), in which `Log::close_spare` and `Log::fill_spare` may be stopped, with the batch of the migrated records.
pub fn images_keep_records()
    ensures left { (old image : Spot → Option File) → AreTold old most_members most_coordinators → IsCutMigration old image → (spot : Spot) × IsMigrated old image (Err (Device spot)) }
    ensures records { (old image : Spot → Option File) (found_member found_coord : ℕ → Found) → AreTold old most_members most_coordinators → IsCutMigration old image →
        AreFound old most_members most_coordinators found_member found_coord → AreSound (records_in found_member) (records_in found_coord) → KeepsRecords image found_member found_coord }
{}
