//! The versions of one key.
ghost use Rattle.std.specs.Prelude.{◌≡◌, ◌==◌, ◌<◌, ◌≤◌, nat_le, [], ◌∷◌, Some, map, reverse, filter, length, slice_get, IfOk, OnOk, option_copied};
ghost use Rattle.co_mv.specs.Versions.{seen_value, is_kept, stays, base_versions, written_since, with_newest, with_closed, with_write};
ghost use Rattle.co_mv.specs.Kept.{needed, WereKept};
ghost use Rattle.co_mv.specs.Ordered.{IsOrdered, IsCountUntil, forgotten_at};

use crate::snapshots::Snapshots;
use crate::version::Version;
use co_base::Value;
use std::alloc::{AllocError, Global};
use std::marker::Model;

/// The versions of a key. A contract sees the list of them, the newest first.
#[derive(Drop)]
pub struct Chain {
    oldest_first: Vec<Version>,
}

impl Model for Chain {
    ghost use Rattle.std.specs.Prelude.{List, reverse};
    ghost use Rattle.co_mv.specs.declared.version.Version.{Version};

    ghost Value = { List Version };

    ghost view = { λ c. reverse c.oldest_first.items };
}

impl Chain {
    /// No version. Takes no memory.
    pub fn new(alloc: Global) -> Chain
        ensures { result ≡ [] }
    {
        Chain {
            oldest_first: Vec::new(alloc),
        }
    }

    /// One version, which was there before all installs. It takes the memory of one, since most keys have no other.
    pub fn of_value(alloc: Global, value: Value) -> Result<Chain, AllocError>
        ensures { IfOk result (λ chain. chain ≡ base_versions (Some value)) }
    {
        let mut oldest_first = Vec::with_capacity(alloc, 1)?;
        oldest_first.push(Version {
            written: 0,
            overwritten: None,
            value: Some(value),
        })?;
        Ok(Chain { oldest_first })
    }

    /// How many versions there are.
    pub fn len(&self) -> usize
        ensures { result ≡ length self.now }
    {
        self.oldest_first.len()
    }

    /// Whether there is no version.
    pub fn is_empty(&self) -> bool
        ensures { result ≡ (length self.now == 0) }
    {
        self.oldest_first.is_empty()
    }

    /// The value of the version at a place, counted from the oldest one at place 0.
    pub fn value_of(&self, place: usize) -> Option<&Value>
        requires { place < length self.now }
        ensures { slice_get (map (λ v. v.value) (reverse self.now)) place ≡ Some (option_copied result) }
    {
        self.oldest_first[place].value.as_ref()
    }

    /// The value of the key after the first so many installs, where the versions are in order.
    pub fn value_at(&self, installs: u64) -> Option<&Value>
        ensures { IsOrdered self.now → option_copied result ≡ seen_value installs self.now }
    {
        let later = count_until(self.oldest_first.as_slice(), installs);
        if later == 0 {
            return None;
        }
        let version = &self.oldest_first[later - 1];
        if version.is_seen_at(installs) {
            version.value.as_ref()
        } else {
            None
        }
    }

    /// Whether an install after the first so many wrote the key. Where the versions are in order, the newest one
    /// tells.
    pub fn is_written_since(&self, installs: u64) -> bool
        ensures { IsOrdered self.now → result ≡ written_since installs self.now }
    {
        match self.oldest_first.last() {
            Some(newest) => installs < newest.written,
            None => false,
        }
    }

    /// Lays a version over the others, if a reader reads it.
    fn lay(&mut self, version: Version, snapshots: &Snapshots) -> Result<(), AllocError>
        ensures { OnOk result (self.new ≡ with_newest (is_kept (needed snapshots.now)) version self.old) }
    {
        if !snapshots.is_kept(&version) {
            return Ok(());
        }
        self.oldest_first.push(version)?;
        Ok(())
    }

    /// The newest version is overwritten by an install, and forgotten if no reader reads it any more.
    fn close(&mut self, install: u64, snapshots: &Snapshots) -> Result<(), AllocError>
        ensures { OnOk result (self.new ≡ with_closed (is_kept (needed snapshots.now)) install self.old) }
    {
        let Some(mut newest) = self.oldest_first.pop() else {
            return Ok(());
        };
        newest.close(install);
        self.lay(newest, snapshots)
    }

    /// Adds the version that an install wrote. It and the one that was the newest are forgotten if no reader
    /// reads them; no other one is looked at.
    pub fn write(
        &mut self,
        install: u64,
        value: Option<Value>,
        snapshots: &Snapshots,
    ) -> Result<(), AllocError>
        ensures { OnOk result (self.new ≡ with_write (is_kept (needed snapshots.now)) install value self.old) }
    {
        self.close(install, snapshots)?;
        let version = Version {
            written: install,
            overwritten: None,
            value,
        };
        self.lay(version, snapshots)
    }

    /// Forgets the versions that only a reader at this number read, which has gone. Where they are those that
    /// were kept before, these are the version that it read, or the one written behind it, which may have taken the
    /// record away: no other one is looked at. Takes no memory.
    pub fn prune(&mut self, number: u64, snapshots: &Snapshots)
        ensures { WereKept snapshots.now number self.old → self.new ≡ filter (stays number (needed snapshots.now)) self.old }
    {
        let later = count_until(self.oldest_first.as_slice(), number);
        forget(&mut self.oldest_first, later, number, snapshots);
        if later > 0 {
            forget(&mut self.oldest_first, later - 1, number, snapshots);
        }
    }
}

/// How many versions were written by the first so many installs, where the oldest one stands first.
fn count_until(oldest_first: &[Version], installs: u64) -> usize
    ensures bound { result ≤ length oldest_first.now }
    ensures count { IsCountUntil installs oldest_first.now result }
{
    oldest_first.partition_point(
        |version: &Version| -> bool
            ensures { result ≡ nat_le version.now.written installs }
        { version.written <= installs },
    )
}

/// Forgets the version at a place, if it does not stay once a reader at this number has gone.
fn forget(versions: &mut Vec<Version>, place: usize, number: u64, snapshots: &Snapshots)
    ensures { versions.new.items ≡ forgotten_at (stays number (needed snapshots.now)) place versions.old.items }
{
    let Some(version) = versions.get(place) else {
        return;
    };
    if !snapshots.stays(version, number) {
        let _ = versions.remove(place);
    }
}
