//! A descriptor that is given up once a call of it has failed.
ghost use Rattle.std.specs.Prelude.{◌≡◌, [], true, false, IfOk, OnOk, ◌∷◌};
ghost use Rattle.co_files.specs.declared.call.Work.TheVariants.{Read, Write, Cut, Sync, SyncName, HandOn};
ghost use Rattle.co_files.specs.Calls.{did, has_failed, is_held, looked, IsOneCall};

use crate::descriptor::Descriptor;
use std::fs::Metadata;
use std::io::{self, ErrorKind};
use std::marker::Model;

/// A descriptor of which every call fails once one has failed: what the disk has is not known from
/// then on. Clauses see it as its calls, the newest first.
#[derive(Drop)]
pub(crate) struct Guarded {
    descriptor: Descriptor,
    failed: bool,
}

impl Model for Guarded {
    ghost use Rattle.std.specs.Prelude.{◌≡◌, List};
    ghost use Rattle.co_files.specs.declared.call.Call.{Call};
    ghost use Rattle.co_files.specs.Calls.{has_failed};

    ghost Value = { List Call };

    ghost view = { λ guarded. guarded.descriptor };

    ghost invariant = { λ guarded. guarded.failed ≡ has_failed guarded.descriptor };
}

impl Guarded {
    /// A descriptor of which no call has failed.
    pub(crate) fn new(descriptor: Descriptor) -> Guarded
        requires { has_failed descriptor ≡ false }
        ensures { result ≡ descriptor }
    {
        Guarded {
            descriptor,
            failed: false,
        }
    }

    /// Reads these bytes from the front.
    pub(crate) fn read(&mut self, bytes: &mut [u8]) -> io::Result<()>
        ensures { IsOneCall (λ _. Read bytes.new) (Read []) self.old self.new result }
    {
        self.stay_sound()?;
        let done = self.descriptor.read(bytes);
        self.failed = done.is_err();
        done
    }

    /// Lays a piece at a place.
    pub(crate) fn write(&mut self, at: u32, piece: &[u8]) -> io::Result<()>
        ensures { IsOneCall (λ _. Write at piece.now) (Write at piece.now) self.old self.new result }
    {
        self.stay_sound()?;
        let done = self.descriptor.write(at, piece);
        self.failed = done.is_err();
        done
    }

    /// Cuts the file to a length.
    pub(crate) fn cut(&mut self, len: u32) -> io::Result<()>
        ensures { IsOneCall (λ _. Cut len) (Cut len) self.old self.new result }
    {
        self.stay_sound()?;
        let done = self.descriptor.cut(len);
        self.failed = done.is_err();
        done
    }

    /// Makes the file or directory stable.
    pub(crate) fn sync(&mut self) -> io::Result<()>
        ensures { IsOneCall (λ _. Sync) Sync self.old self.new result }
    {
        self.stay_sound()?;
        let done = self.descriptor.sync();
        self.failed = done.is_err();
        done
    }

    /// Makes the name of a file of this directory stable.
    pub(crate) fn sync_name(&mut self, file: &mut Descriptor) -> io::Result<()>
        ensures directory { IsOneCall (λ _. Sync) Sync self.old self.new result }
        ensures file { OnOk result (file.new ≡ did SyncName ∷ file.old) }
    {
        self.stay_sound()?;
        let done = file.sync_name(&mut self.descriptor);
        self.failed = done.is_err();
        done
    }

    /// Another descriptor of the same open directory, which has its lock.
    pub(crate) fn hand_on(&self) -> io::Result<Descriptor>
        requires { is_held self.now ≡ true }
        ensures { IfOk result (λ d. d ≡ did HandOn ∷ []) }
    {
        self.stay_sound()?;
        self.descriptor.hand_on()
    }

    /// What stands at a path in this directory.
    pub(crate) fn look(&mut self, rt: &HostRuntime, path: &str) -> io::Result<Option<Metadata>>
        ensures { self.new ≡ looked path.now self.old result }
    {
        self.descriptor.look(rt, path)
    }

    /// What the system tells of it.
    pub(crate) fn metadata(&self) -> io::Result<Metadata> {
        self.descriptor.metadata()
    }

    /// Refuses a descriptor of which a call has failed.
    fn stay_sound(&self) -> io::Result<()>
        ensures { IfOk result (λ _. has_failed self.now ≡ false) }
    {
        if self.failed {
            Err(ErrorKind::Other.into())
        } else {
            Ok(())
        }
    }
}
