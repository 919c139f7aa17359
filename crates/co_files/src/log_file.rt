//! A log file that is kept open.
ghost use Rattle.std.specs.Prelude.{◌≡◌, ◌≤◌, ◌∷◌, [], true, false, IfOk, length};
ghost use Rattle.co_files.specs.declared.call.Work.TheVariants.{Open, Make, Read, Write, Cut, Sync, SyncName};
ghost use Rattle.co_files.specs.Calls.{did, begun_by, has_failed, is_held, is_used, IsOneCall};

use crate::descriptor::{Descriptor, found};
use crate::directory::Identity;
use crate::guarded::Guarded;
use co_outside::Spot;
use std::alloc::Global;
use std::fs::OpenOptions;
use std::io::{self, ErrorKind};

/// A log file that is kept open. It is read, written, cut and synced by one descriptor, so that an error at write-back reaches the next sync.
///
/// Whether it still stands at its path, with the length that its own calls gave it, is looked up before it is read, and before a sync where its length
/// has changed since the last look: once in the write of a log.
#[derive(Drop)]
pub(crate) struct LogFile {
    pub(crate) spot: Spot,
    pub(crate) file: Guarded,
    identity: Identity,
    length: u64,
    seen: u64,
    ghost used: { is_used file ≡ true },
}

impl LogFile {
    /// Opens the file at a path, and settles it.
    pub(crate) fn open(
        rt: &HostRuntime,
        path: &str,
        spot: Spot,
        directory: &mut Guarded,
    ) -> io::Result<LogFile>
        ensures begun { IfOk result (λ log. log.file ≡ begun_by (Open path.now)) }
        ensures spot { IfOk result (λ log. log.spot ≡ spot) }
        ensures held { is_held directory.old ≡ true → is_held directory.new ≡ true }
    {
        LogFile::settled(spot, open(rt, path)?, directory)
    }

    /// Makes the file at a path, where nothing may stand yet.
    pub(crate) fn make(
        rt: &HostRuntime,
        path: &str,
        spot: Spot,
        directory: &mut Guarded,
    ) -> io::Result<LogFile>
        ensures begun { IfOk result (λ log. log.file ≡ begun_by (Make path.now)) }
        ensures spot { IfOk result (λ log. log.spot ≡ spot) }
        ensures held { is_held directory.old ≡ true → is_held directory.new ≡ true }
    {
        LogFile::settled(spot, Descriptor::make(rt, path)?, directory)
    }

    /// Syncs what an earlier process may have left unsynced, and makes its name stable.
    fn settled(spot: Spot, mut file: Descriptor, directory: &mut Guarded) -> io::Result<LogFile>
        requires { has_failed file ≡ false }
        ensures begun { IfOk result (λ log. log.file ≡ did SyncName ∷ did Sync ∷ file) }
        ensures spot { IfOk result (λ log. log.spot ≡ spot) }
        ensures held { is_held directory.old ≡ true → is_held directory.new ≡ true }
    {
        let found = file.metadata()?;
        file.sync()?;
        directory.sync_name(&mut file)?;
        Ok(LogFile {
            spot,
            file: Guarded::new(file),
            identity: Identity::of(&found),
            length: found.len(),
            seen: found.len(),
        })
    }

    /// Whether it is the same file as another one.
    pub(crate) fn is_same(&self, other: &LogFile) -> bool {
        self.identity == other.identity
    }

    /// Refuses a file that has gone from its path, was replaced there, or has another length than its own calls gave it.
    fn look(&mut self, rt: &HostRuntime, path: &str) -> io::Result<()>
        ensures spot { self.new.spot ≡ self.old.spot }
        ensures file { self.new.file ≡ self.old.file }
    {
        match found(rt, path)? {
            Some(found) if Identity::of(&found) == self.identity && found.len() == self.length => {
                self.seen = self.length;
                Ok(())
            }
            _ => Err(ErrorKind::NotFound.into()),
        }
    }

    /// Refuses a place behind the end.
    fn reach(&self, at: u32) -> io::Result<()> {
        if u64::from(at) <= self.length {
            Ok(())
        } else {
            Err(ErrorKind::UnexpectedEof.into())
        }
    }

    /// The first `most` bytes, or all of a shorter file.
    pub(crate) fn read(
        &mut self,
        rt: &HostRuntime,
        alloc: Global,
        path: &str,
        most: u32,
    ) -> io::Result<Vec<u8>>
        ensures most { IfOk result (λ v. length v.items ≤ most) }
        ensures spot { self.new.spot ≡ self.old.spot }
        ensures called { IsOneCall (λ v. Read v.items) (Read []) self.old.file self.new.file result }
    {
        self.look(rt, path)?;
        let count = self.length.min(u64::from(most));
        let mut bytes = vec![in alloc; 0u8; count as usize]?;
        self.file.read(&mut bytes)?;
        Ok(bytes)
    }

    /// Lays a piece into the file at a place that is not behind its end.
    pub(crate) fn write(&mut self, at: u32, piece: &[u8]) -> io::Result<()>
        ensures spot { self.new.spot ≡ self.old.spot }
        ensures called { IsOneCall (λ _. Write at piece.now) (Write at piece.now) self.old.file self.new.file result }
    {
        self.reach(at)?;
        self.file.write(at, piece)?;
        let end = u64::from(at).saturating_add(piece.len() as u64);
        self.length = self.length.max(end);
        Ok(())
    }

    /// Cuts the file to a length that is not greater than its own.
    pub(crate) fn cut(&mut self, len: u32) -> io::Result<()>
        ensures spot { self.new.spot ≡ self.old.spot }
        ensures called { IsOneCall (λ _. Cut len) (Cut len) self.old.file self.new.file result }
    {
        self.reach(len)?;
        self.file.cut(len)?;
        self.length = u64::from(len);
        Ok(())
    }

    /// Makes the file stable.
    pub(crate) fn sync(&mut self, rt: &HostRuntime, path: &str) -> io::Result<()>
        ensures spot { self.new.spot ≡ self.old.spot }
        ensures called { IsOneCall (λ _. Sync) Sync self.old.file self.new.file result }
    {
        if self.length != self.seen {
            self.look(rt, path)?;
        }
        self.file.sync()
    }

    /// Makes what was written stable, wherever the file stands by now.
    pub(crate) fn settle(&mut self) -> io::Result<()>
        ensures spot { self.new.spot ≡ self.old.spot }
        ensures called { IsOneCall (λ _. Sync) Sync self.old.file self.new.file result }
    {
        self.file.sync()
    }
}

/// Opens a file to read and write, or to read alone where no more is permitted: then each write fails.
fn open(rt: &HostRuntime, path: &str) -> io::Result<Descriptor>
    ensures { IfOk result (λ d. d ≡ did (Open path.now) ∷ []) }
{
    let mut how = OpenOptions::new();
    how.read(true).write(true);
    match Descriptor::open(rt, path, &how) {
        Err(e) if is_denied(e.kind()) => {
            how.write(false);
            Descriptor::open(rt, path, &how)
        }
        opened => opened,
    }
}

fn is_denied(kind: ErrorKind) -> bool {
    matches!(
        kind,
        ErrorKind::PermissionDenied | ErrorKind::ReadOnlyFilesystem
    )
}
