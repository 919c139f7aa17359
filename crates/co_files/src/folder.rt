//! The directory that was entered, with the log files that are kept open in it.
ghost use Rattle.std.specs.Prelude.{◌≡◌, ◌≢◌, ◌≤◌, ◌⊎◌, ◌==◌, [], ◌∷◌, true, length, option_map, string_bytes, IfOk, IfSome, IfNone, OnOk};
ghost use Rattle.co_outside.specs.declared.spot.Spot.{Spot};
ghost use Rattle.co_files.specs.declared.call.Work.TheVariants.{Miss, Open, Make, Read, Write, Cut, Sync, Lock, HandOn};
ghost use Rattle.co_files.specs.Calls.{did, begun_by, is_held};
ghost use Rattle.co_files.specs.Climb.{IsClimb};
ghost use Rattle.co_files.specs.Folder.{calls_at, IsAttended, IsCallAt, IsCallOrNone};
ghost use Rattle.co_files.specs.Paths.{dir_name, path_of};

use crate::call::Call;
use crate::descriptor::Descriptor;
use crate::directory::{self, Identity};
use crate::guarded::Guarded;
use crate::keeping::{cut_at, keep, kept, read_at, sync_at, write_at};
use crate::log_file::LogFile;
use co_outside::Spot;
use co_trace::Trace;
use std::alloc::Global;
use std::fmt::Write;
use std::fs;
use std::io::{self, ErrorKind};

/// The most bytes of a file's name behind the directory's, with the slash before it.
const NAME_ROOM: usize = 8;

/// How many spots there are: 256 nodes, each with two parts.
const MOST_FILES: usize = 512;

/// A directory that is locked, with the log files that were used in it.
#[derive(Drop)]
pub(crate) struct Folder {
    /// As it was entered.
    pub(crate) name: String,
    /// Room for the path of a file.
    path: String,
    pub(crate) files: Vec<LogFile>,
    /// The directory itself, which is locked as long as it is open. It is closed last.
    pub(crate) directory: Guarded,
    /// How many directories were missing and made, it and those above it.
    pub(crate) made: usize,
    /// What was synced above it.
    pub(crate) above: Trace<Call>,
    ghost held: { is_held directory ≡ true },
}

impl Folder {
    /// Enters a directory: makes it and its missing parents, locks it, makes it stable, and takes the room that its calls need.
    ///
    /// The files of the directory before are synced first, each by the descriptor that wrote it.
    pub(crate) fn enter(
        rt: &HostRuntime,
        alloc: Global,
        dir: &str,
        before: &mut Option<Folder>,
    ) -> io::Result<Folder>
        ensures name { IfOk result (λ f. string_bytes f.name ≡ dir.now) }
        ensures unused { IfOk result (λ f. f.files.items ≡ []) }
        ensures above { IfOk result (λ f. IsClimb f.made dir.now f.above) }
        ensures before { option_map (λ f. string_bytes f.name) before.new ≡ option_map (λ f. string_bytes f.name) before.old }
        ensures entered { IfOk result (λ f. (f.directory ≡ did Sync ∷ did Lock ∷ did (Open (dir_name dir.now)) ∷ []) ⊎ (f.directory ≡ did Sync ∷ did HandOn ∷ [])) }
    {
        let made = directory::make(rt, dir)?;
        let mut directory = Guarded::new(locked(directory::open(rt, dir)?, before)?);
        directory.sync()?;
        let found = Identity::of(&directory.metadata()?);
        let above = directory::sync_above(rt, dir, made, found)?;
        if let Some(before) = before {
            settle(&mut before.files)?;
        }
        let name = String::from_str(alloc, dir)?;
        let path = String::with_capacity(alloc, dir.len().saturating_add(NAME_ROOM))?;
        Ok(Folder {
            name,
            path,
            files: Vec::with_capacity(alloc, MOST_FILES)?,
            directory,
            made,
            above,
        })
    }

    /// The first `most` bytes of the file, or all of a shorter one. An absent file is empty, and is not made.
    pub(crate) fn read(
        &mut self,
        rt: &HostRuntime,
        alloc: Global,
        spot: Spot,
        most: u32,
    ) -> io::Result<Vec<u8>>
        ensures name { self.new.name ≡ self.old.name }
        ensures most { IfOk result (λ v. length v.items ≤ most) }
        ensures absent { IfOk result (λ v. calls_at self.new.files.items spot ≡ [] → v.items ≡ []) }
        ensures called { IsCallOrNone (path_of (string_bytes self.old.name) spot) (λ v. Read v.items) (Read []) self.old.directory self.new.directory (calls_at self.old.files.items spot) (calls_at self.new.files.items spot) result }
        ensures others { (s : Spot) → s ≢ spot → calls_at self.new.files.items s ≡ calls_at self.old.files.items s }
    {
        self.attend(rt, spot, false)?;
        match kept(&self.files, spot) {
            Some(place) => read_at(rt, alloc, &mut self.files, place, &self.path, spot, most),
            None => Ok(Vec::new(alloc)),
        }
    }

    /// Lays a piece into the file. An absent file is made, stable in the directory, where the piece stands at its front.
    pub(crate) fn write(
        &mut self,
        rt: &HostRuntime,
        spot: Spot,
        at: u32,
        piece: &[u8],
    ) -> io::Result<()>
        ensures name { self.new.name ≡ self.old.name }
        ensures called { IsCallAt (path_of (string_bytes self.old.name) spot) (at == 0) (λ _. Write at piece.now) (Write at piece.now) (calls_at self.old.files.items spot) (calls_at self.new.files.items spot) result }
        ensures others { (s : Spot) → s ≢ spot → calls_at self.new.files.items s ≡ calls_at self.old.files.items s }
    {
        self.attend(rt, spot, at == 0)?;
        match kept(&self.files, spot) {
            Some(place) => write_at(&mut self.files, place, spot, at, piece),
            None => Err(ErrorKind::UnexpectedEof.into()),
        }
    }

    /// Cuts the file. An absent file is empty already.
    pub(crate) fn cut(&mut self, rt: &HostRuntime, spot: Spot, len: u32) -> io::Result<()>
        ensures name { self.new.name ≡ self.old.name }
        ensures absent { OnOk result (calls_at self.new.files.items spot ≡ [] → len ≡ 0) }
        ensures called { IsCallOrNone (path_of (string_bytes self.old.name) spot) (λ _. Cut len) (Cut len) self.old.directory self.new.directory (calls_at self.old.files.items spot) (calls_at self.new.files.items spot) result }
        ensures others { (s : Spot) → s ≢ spot → calls_at self.new.files.items s ≡ calls_at self.old.files.items s }
    {
        self.attend(rt, spot, false)?;
        match kept(&self.files, spot) {
            Some(place) => cut_at(&mut self.files, place, spot, len),
            None if len == 0 => Ok(()),
            None => Err(ErrorKind::UnexpectedEof.into()),
        }
    }

    /// Makes the file stable. An absent file is stable already.
    pub(crate) fn sync(&mut self, rt: &HostRuntime, spot: Spot) -> io::Result<()>
        ensures name { self.new.name ≡ self.old.name }
        ensures called { IsCallOrNone (path_of (string_bytes self.old.name) spot) (λ _. Sync) Sync self.old.directory self.new.directory (calls_at self.old.files.items spot) (calls_at self.new.files.items spot) result }
        ensures others { (s : Spot) → s ≢ spot → calls_at self.new.files.items s ≡ calls_at self.old.files.items s }
    {
        self.attend(rt, spot, false)?;
        match kept(&self.files, spot) {
            Some(place) => sync_at(rt, &mut self.files, place, &self.path, spot),
            None => Ok(()),
        }
    }

    /// Spells the path of a file. At its first use the file is opened, where there is one, or made, where it may be.
    fn attend(&mut self, rt: &HostRuntime, spot: Spot, makes: bool) -> io::Result<()>
        ensures name { self.new.name ≡ self.old.name }
        ensures attended { IsAttended (path_of (string_bytes self.old.name) spot) makes (calls_at self.old.files.items spot) (calls_at self.new.files.items spot) }
        ensures missed { OnOk result (calls_at self.new.files.items spot ≡ [] → self.new.directory ≡ did (Miss (path_of (string_bytes self.old.name) spot)) ∷ self.old.directory) }
        ensures others { (s : Spot) → s ≢ spot → calls_at self.new.files.items s ≡ calls_at self.old.files.items s }
    {
        self.spell(spot)?;
        if kept(&self.files, spot).is_some() {
            return Ok(());
        }
        self.stay(rt)?;
        match begin(rt, &self.path, spot, makes, &mut self.directory)? {
            Some(log) => keep(&mut self.files, log, spot),
            None => Ok(()),
        }
    }

    /// Refuses a directory of this name that is not the one which was locked.
    fn stay(&self, rt: &HostRuntime) -> io::Result<()> {
        let name = directory::name_of(&self.name);
        if Identity::of(&fs::metadata(rt, name)?) == Identity::of(&self.directory.metadata()?) {
            Ok(())
        } else {
            Err(ErrorKind::NotFound.into())
        }
    }

    /// Spells the path of a file.
    fn spell(&mut self, spot: Spot) -> io::Result<()>
        ensures name { self.new.name ≡ self.old.name }
        ensures files { self.new.files ≡ self.old.files }
        ensures directory { self.new.directory ≡ self.old.directory }
        ensures path { OnOk result (string_bytes self.new.path ≡ path_of (string_bytes self.old.name) spot) }
    {
        self.path.clear();
        self.path.push_str(directory::name_of(&self.name))?;
        write!(self.path, "/{spot}")?;
        Ok(())
    }
}

/// Opens the file of a spot, where there is one, or makes it where it may be made.
fn begin(
    rt: &HostRuntime,
    path: &str,
    spot: Spot,
    makes: bool,
    directory: &mut Guarded,
) -> io::Result<Option<LogFile>>
    ensures begun { IfOk result (λ begun. IfSome begun (λ log. (log.file ≡ begun_by (Open path.now)) ⊎ ((makes ≡ true) × (log.file ≡ begun_by (Make path.now))))) }
    ensures spot { IfOk result (λ begun. IfSome begun (λ log. log.spot ≡ spot)) }
    ensures missed { IfOk result (λ begun. IfNone begun (directory.new ≡ did (Miss path.now) ∷ directory.old)) }
    ensures held { is_held directory.old ≡ true → is_held directory.new ≡ true }
{
    if directory.look(rt, path)?.is_some() {
        return Ok(Some(LogFile::open(rt, path, spot, directory)?));
    }
    if makes {
        return Ok(Some(LogFile::make(rt, path, spot, directory)?));
    }
    Ok(None)
}

/// Locks a directory. The lock of the directory before is handed on where it is the same one.
fn locked(mut directory: Descriptor, before: &Option<Folder>) -> io::Result<Descriptor>
    ensures { IfOk result (λ d. (d ≡ did Lock ∷ directory) ⊎ (d ≡ did HandOn ∷ [])) }
{
    if let Some(before) = before {
        let held = Identity::of(&before.directory.metadata()?);
        if held == Identity::of(&directory.metadata()?) {
            return before.directory.hand_on();
        }
    }
    directory.lock()?;
    Ok(directory)
}

/// Syncs each of the files.
fn settle(files: &mut [LogFile]) -> io::Result<()> {
    for log in files.iter_mut() {
        log.settle()?;
    }
    Ok(())
}
