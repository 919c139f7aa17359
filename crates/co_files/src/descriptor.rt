//! A descriptor of the operating system, with the history of its calls.
//!
//! Each method makes one call of the system, and then notes it with its answer. That it makes the
//! call that it notes, once, is trusted: std's clauses tell nothing of what a file holds.
ghost use Rattle.std.specs.Prelude.{◌≡◌, [], ◌∷◌, true, false, is_ok, IfOk, MatchResult};
ghost use Rattle.co_files.specs.declared.call.Work.TheVariants.{Open, Make, Read, Write, Cut, Sync, SyncName, SyncAbove, Lock, HandOn};
ghost use Rattle.co_files.specs.Calls.{called, did, is_held, looked};

use crate::call::{Call, Work};
use co_trace::{Text, Trace};
use std::fs::{self, File, Metadata, OpenOptions};
use std::io::{self, ErrorKind};
use std::marker::Model;
use std::os::fd::AsRawFd;
use std::os::unix::fs::FileExt;

/// An open file or directory, which clauses see as its calls, the newest first.
#[derive(Drop)]
pub(crate) struct Descriptor {
    file: File,
    calls: Trace<Call>,
}

impl Model for Descriptor {
    ghost use Rattle.std.specs.Prelude.{List};
    ghost use Rattle.co_files.specs.declared.call.Call.{Call};

    ghost Value = { List Call };

    ghost view = { λ descriptor. descriptor.calls };
}

impl Descriptor {
    /// One `open` that makes the file, where nothing may stand yet.
    pub(crate) fn make(rt: &HostRuntime, path: &str) -> io::Result<Descriptor>
        ensures { IfOk result (λ d. d ≡ did (Make path.now) ∷ []) }
    {
        let file = File::create_new(rt, path)?;
        Ok(Descriptor::first(file, Work::Make(Text::of(path.as_bytes()))))
    }

    /// One `open`.
    pub(crate) fn open(rt: &HostRuntime, path: &str, how: &OpenOptions) -> io::Result<Descriptor>
        ensures { IfOk result (λ d. d ≡ did (Open path.now) ∷ []) }
    {
        let file = how.open(rt, path)?;
        Ok(Descriptor::first(file, Work::Open(Text::of(path.as_bytes()))))
    }

    /// Another descriptor of the same open directory, which has its lock.
    pub(crate) fn hand_on(&self) -> io::Result<Descriptor>
        requires { is_held self.now ≡ true }
        ensures { IfOk result (λ d. d ≡ did HandOn ∷ []) }
    {
        Ok(Descriptor::first(self.file.try_clone()?, Work::HandOn))
    }

    /// One `pread` of all these bytes from the front.
    pub(crate) fn read(&mut self, bytes: &mut [u8]) -> io::Result<()>
        ensures { MatchResult result (λ _. self.new ≡ did (Read bytes.new) ∷ self.old) (λ _. self.new ≡ called (Read []) false ∷ self.old) }
    {
        let answer = self.file.read_exact_at(bytes, 0);
        let gave = if answer.is_ok() {
            Text::of(bytes)
        } else {
            Text::new()
        };
        self.note(Work::Read(gave), answer.is_ok());
        answer
    }

    /// One `pwrite` of the whole piece.
    pub(crate) fn write(&mut self, at: u32, piece: &[u8]) -> io::Result<()>
        ensures { self.new ≡ called (Write at piece.now) (is_ok result) ∷ self.old }
    {
        let answer = self.file.write_all_at(piece, u64::from(at));
        self.note(Work::Write(at, Text::of(piece)), answer.is_ok());
        answer
    }

    /// One `ftruncate`.
    pub(crate) fn cut(&mut self, len: u32) -> io::Result<()>
        ensures { self.new ≡ called (Cut len) (is_ok result) ∷ self.old }
    {
        let answer = self.file.set_len(u64::from(len));
        self.note(Work::Cut(len), answer.is_ok());
        answer
    }

    /// One `fsync`.
    pub(crate) fn sync(&mut self) -> io::Result<()>
        ensures { self.new ≡ called Sync (is_ok result) ∷ self.old }
    {
        let answer = self.file.sync_all();
        self.note(Work::Sync, answer.is_ok());
        answer
    }

    /// One `fsync` of the directory that has this file.
    pub(crate) fn sync_name(&mut self, directory: &mut Descriptor) -> io::Result<()>
        ensures directory { directory.new ≡ called Sync (is_ok result) ∷ directory.old }
        ensures file { self.new ≡ called SyncName (is_ok result) ∷ self.old }
    {
        let answer = directory.sync();
        self.note(Work::SyncName, answer.is_ok());
        answer
    }

    /// One `flock`, which does not wait.
    pub(crate) fn lock(&mut self) -> io::Result<()>
        ensures { self.new ≡ called Lock (is_ok result) ∷ self.old }
    {
        let answer = self.file.try_lock();
        self.note(Work::Lock, answer.is_ok());
        Ok(answer?)
    }

    /// One `lstat`, which is noted in the history of this directory where nothing stands at the path.
    pub(crate) fn look(&mut self, rt: &HostRuntime, path: &str) -> io::Result<Option<Metadata>>
        ensures { self.new ≡ looked path.now self.old result }
    {
        let found = found(rt, path)?;
        if found.is_none() {
            self.note(Work::Miss(Text::of(path.as_bytes())), true);
        }
        Ok(found)
    }

    /// What the system tells of it.
    pub(crate) fn metadata(&self) -> io::Result<Metadata> {
        self.file.metadata()
    }

    /// Whether it took the place of a standard stream.
    pub(crate) fn is_stream(&self) -> bool {
        self.file.as_raw_fd() <= LAST_STREAM
    }

    /// A file that a call gave.
    fn first(file: File, work: Work) -> Descriptor
        ensures { result ≡ did work ∷ [] }
    {
        let mut calls = Trace::new();
        calls.note(Call { work, done: true });
        Descriptor { file, calls }
    }

    /// Notes a call.
    fn note(&mut self, work: Work, done: bool)
        ensures { self.new ≡ called work done ∷ self.old }
    {
        self.calls.note(Call { work, done });
    }
}

/// The last descriptor of a standard stream.
const LAST_STREAM: i32 = 2;

/// One `fsync` of the directory at a path, opened for it alone and noted in a history of its own.
pub(crate) fn sync_above(rt: &HostRuntime, path: &str, above: &mut Trace<Call>) -> io::Result<()>
    ensures { above.new ≡ called (SyncAbove path.now) (is_ok result) ∷ above.old }
{
    let answer = sync_path(rt, path);
    above.note(Call {
        work: Work::SyncAbove(Text::of(path.as_bytes())),
        done: answer.is_ok(),
    });
    answer
}

fn sync_path(rt: &HostRuntime, path: &str) -> io::Result<()> {
    File::open(rt, path)?.sync_all()
}

/// What stands at a path: a plain file, or nothing. Anything else is refused before it is opened, which may wait for ever at a pipe.
pub(crate) fn found(rt: &HostRuntime, path: &str) -> io::Result<Option<Metadata>> {
    match fs::symlink_metadata(rt, path) {
        Ok(found) if found.is_file() => Ok(Some(found)),
        Ok(_) => Err(ErrorKind::Unsupported.into()),
        Err(e) if e.kind() == ErrorKind::NotFound => Ok(None),
        Err(e) => Err(e),
    }
}
