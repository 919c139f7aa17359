//! The directory of logs over std's files.
ghost use Rattle.std.specs.Prelude.{◌≡◌, ◌≤◌, ◌+◌, ◌==◌, [], None, Some, Ok, length, max, IfOk, OnOk, OnErr, IsErr, IsErrOf};

use crate::folder::Folder;
use co_outside::{Home, HomeFault, Spot};
use std::alloc::Global;
use std::io::{self, ErrorKind};

/// A directory of real files. It tells nothing of what they hold, and every call of the system that it made on them.
///
/// `enter` makes the directory and its missing parents, syncs it and those above it on its device whatever existed before, and locks it against every other
/// home until another one is entered or this home is dropped. A log file is opened at its first use and kept open: it is then synced before its first bytes are
/// given, since an earlier process may have left it unsynced. Once a call on a file has failed, every later one on it fails. A file that is no plain file, or that is the file of another
/// spot too, is a fault; so is one that has gone or was replaced while it was open, which is looked up before it is read and before a sync where its length has changed; and so is a write that would leave a gap. Before a directory is entered every call fails.
#[derive(Drop)]
pub struct HomeStd {
    rt: HostRuntime,
    folder: Option<Folder>,
    last_failed: Spot,
    faults: u64,
}

impl HomeStd {
    ghost use Rattle.co_outside.specs.Faults.{HasRisen};
    ghost use Rattle.co_outside.specs.Home.{IsCounted};
    ghost use Rattle.co_files.specs.Seen.{std_seen};

    /// No directory is entered yet, and no call has failed. Takes no memory.
    pub fn new(rt: HostRuntime) -> HomeStd
        ensures folder { result.folder ≡ None }
        ensures faults { result.faults ≡ 0 }
        ensures last_failed { result.last_failed ≡ record { node = 1; part = 0 } }
    {
        HomeStd {
            rt,
            folder: None,
            last_failed: Spot::FIRST,
            faults: 0,
        }
    }

    /// Counts a failed call, and says why it failed.
    fn fail(&mut self, spot: Spot) -> HomeFault
        ensures fault { result ≡ HomeFault.Failed }
        ensures risen { HasRisen self.old.faults self.new.faults }
        ensures count { self.old.faults ≤ self.new.faults }
        ensures named { self.new.last_failed ≡ spot }
        ensures folder { self.new.folder ≡ self.old.folder }
    {
        self.faults = self.faults.saturating_add(1);
        self.last_failed = spot;
        HomeFault::Failed
    }

    /// The answer of a call that may want memory.
    fn answer<T: Drop>(&mut self, spot: Spot, done: io::Result<T>) -> Result<T, HomeFault>
        ensures value { IfOk result (λ v. done ≡ Ok v) }
        ensures failed { OnErr result (IsErr done) }
        ensures counted { IsCounted spot (std_seen self.old) (std_seen self.new) result }
        ensures folder { self.new.folder ≡ self.old.folder }
    {
        match done {
            Ok(value) => Ok(value),
            Err(e) if e.kind() == ErrorKind::OutOfMemory => Err(HomeFault::Memory),
            Err(_) => Err(self.fail(spot)),
        }
    }

    /// The answer of a call that wants no memory.
    fn answer_without_memory(&mut self, spot: Spot, done: io::Result<()>) -> Result<(), HomeFault>
        ensures value { IfOk result (λ v. done ≡ Ok v) }
        ensures failed { OnErr result (IsErr done) }
        ensures counted { IsCounted spot (std_seen self.old) (std_seen self.new) result }
        ensures memory { IsErrOf result HomeFault.Memory → ⊥ }
        ensures folder { self.new.folder ≡ self.old.folder }
    {
        match done {
            Ok(()) => Ok(()),
            Err(_) => Err(self.fail(spot)),
        }
    }
}

impl Home for HomeStd {
    ghost use Rattle.co_outside.specs.Home.{OthersStay, IsCounted};
    ghost use Rattle.co_outside.specs.Untold.{none_is_no_file};
    ghost use Rattle.co_files.specs.declared.call.Work.TheVariants.{Read, Write, Cut, Sync};
    ghost use Rattle.co_files.specs.Folder.{IsCallAt, IsCallOrNone};
    ghost use Rattle.co_files.specs.Seen.{std_seen, calls_in, directory_calls, IsEntered, IsAtSpot};

    ghost seen = { std_seen };

    ghost gives = { λ _ _ _ _. Unit {0} };

    ghost told_gives = { λ h s most bytes f told gives. absurd (none_is_no_file f told) };

    ghost told_reach = { λ h s f told. absurd (none_is_no_file f told) };

    fn enter(&mut self, alloc: Global, dir: &str) -> Result<(), HomeFault>
        ensures entered { OnOk result ((std_seen self.new).entered ≡ Some dir.now) }
        ensures stays { OnErr result ((std_seen self.new).entered ≡ (std_seen self.old).entered) }
        ensures made { OnOk result (IsEntered dir.now self.new.folder) }
        ensures counted { IsCounted (record { node = 1; part = 0 }) (std_seen self.old) (std_seen self.new) result }
    {
        let done = Folder::enter(&self.rt, alloc, dir, &mut self.folder);
        let folder = self.answer(Spot::FIRST, done)?;
        self.folder = Some(folder);
        Ok(())
    }

    fn read_all(&mut self, alloc: Global, spot: Spot, most: u32) -> Result<Vec<u8>, HomeFault>
        ensures most { IfOk result (λ v. length v.items ≤ most) }
        ensures absent { IfOk result (λ v. calls_in self.new.folder spot ≡ [] → v.items ≡ []) }
        ensures made { IsAtSpot spot (λ path old new. IsCallOrNone path (λ v. Read v.items) (Read []) (directory_calls self.old.folder) (directory_calls self.new.folder) old new result) self.old.folder self.new.folder result }
        ensures others { OthersStay spot (std_seen self.old) (std_seen self.new) }
        ensures counted { IsCounted spot (std_seen self.old) (std_seen self.new) result }
    {
        let Some(folder) = &mut self.folder else {
            return Err(self.fail(spot));
        };
        let done = folder.read(&self.rt, alloc, spot, most);
        self.answer(spot, done)
    }

    fn write_at(
        &mut self,
        _alloc: Global,
        spot: Spot,
        at: u32,
        piece: &[u8],
    ) -> Result<(), HomeFault>
        ensures made { IsAtSpot spot (λ path old new. IsCallAt path (at == 0) (λ _. Write at piece.now) (Write at piece.now) old new result) self.old.folder self.new.folder result }
        ensures reach { OnOk result (max ((std_seen self.old).reach spot) (at + length piece.now) ≤ (std_seen self.new).reach spot) }
        ensures memory { IsErrOf result HomeFault.Memory → ⊥ }
        ensures others { OthersStay spot (std_seen self.old) (std_seen self.new) }
        ensures counted { IsCounted spot (std_seen self.old) (std_seen self.new) result }
    {
        let Some(folder) = &mut self.folder else {
            return Err(self.fail(spot));
        };
        let done = folder.write(&self.rt, spot, at, piece);
        self.answer_without_memory(spot, done)
    }

    fn set_len(&mut self, spot: Spot, len: u32) -> Result<(), HomeFault>
        ensures absent { OnOk result (calls_in self.new.folder spot ≡ [] → len ≡ 0) }
        ensures made { IsAtSpot spot (λ path old new. IsCallOrNone path (λ _. Cut len) (Cut len) (directory_calls self.old.folder) (directory_calls self.new.folder) old new result) self.old.folder self.new.folder result }
        ensures memory { IsErrOf result HomeFault.Memory → ⊥ }
        ensures others { OthersStay spot (std_seen self.old) (std_seen self.new) }
        ensures counted { IsCounted spot (std_seen self.old) (std_seen self.new) result }
    {
        let Some(folder) = &mut self.folder else {
            return Err(self.fail(spot));
        };
        let done = folder.cut(&self.rt, spot, len);
        self.answer_without_memory(spot, done)
    }

    fn sync(&mut self, spot: Spot) -> Result<(), HomeFault>
        ensures made { IsAtSpot spot (λ path old new. IsCallOrNone path (λ _. Sync) Sync (directory_calls self.old.folder) (directory_calls self.new.folder) old new result) self.old.folder self.new.folder result }
        ensures memory { IsErrOf result HomeFault.Memory → ⊥ }
        ensures others { OthersStay spot (std_seen self.old) (std_seen self.new) }
        ensures counted { IsCounted spot (std_seen self.old) (std_seen self.new) result }
    {
        let Some(folder) = &mut self.folder else {
            return Err(self.fail(spot));
        };
        let done = folder.sync(&self.rt, spot);
        self.answer_without_memory(spot, done)
    }
}
