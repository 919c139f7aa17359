//! Versions of records.
ghost use Rattle.std.specs.Prelude.{◌≡◌};
ghost use Rattle.co_mv.specs.Versions.{sees, is_apart, closed_by};

use co_base::Value;

/// What a key held from one install to another one (Larson and others, VLDB 2012, on versions with the times
/// of their begin and their end).
#[derive(Drop)]
pub struct Version {
    /// The number of the install that wrote it; 0 for a record that was there before all installs.
    pub written: u64,
    /// The number of the install that wrote over it, if one did.
    pub overwritten: Option<u64>,
    /// The value; none where the record was taken away.
    pub value: Option<Value>,
}

impl Version {
    /// Whether it is the last write of its key among the first so many installs.
    pub fn is_seen_at(&self, installs: u64) -> bool
        ensures { result ≡ sees installs self.now }
    {
        match self.overwritten {
            None => self.written <= installs,
            Some(end) => self.written <= installs && installs < end,
        }
    }

    /// Whether the version stays as it was read, once a reader at this number of installs has gone.
    pub fn is_apart_from(&self, installs: u64) -> bool
        ensures { result ≡ is_apart installs self.now }
    {
        !self.is_seen_at(installs) && (self.value.is_some() || self.written <= installs)
    }

    /// An install writes over the version, if none did before.
    pub fn close(&mut self, install: u64)
        ensures { self.new ≡ record self.old { overwritten = closed_by install self.old.overwritten } }
    {
        if self.overwritten.is_none() {
            self.overwritten = Some(install);
        }
    }
}
