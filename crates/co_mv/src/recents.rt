//! Which keys the recent installs wrote.
ghost use Rattle.std.specs.Prelude.{◌≡◌, [], map, IfOk, OnOk, option_copied};
ghost use Rattle.co_state.specs.Table.{no_entries, look, put, without};
ghost use Rattle.co_mv.specs.Recents.{keys_at};

use co_base::{Key, Sequence, Written};
use std::alloc::{AllocError, Global};
use std::collections::BTreeMap;
use std::marker::Model;

/// The keys that installs wrote, by the numbers of the installs. A contract sees the finite map.
#[derive(Drop)]
pub struct Recents {
    map: BTreeMap<u64, Sequence<Key>>,
}

impl Model for Recents {
    ghost use Rattle.std.specs.Prelude.{List, ℕ};
    ghost use Rattle.std.specs.Ordering.{nat_cmp};
    ghost use Rattle.std.specs.FinMap.{FinMap, code, from_entries};
    ghost use Rattle.std.specs.Coded.{coded_ℕ, coded_list};

    ghost Value = { FinMap nat_cmp (List (List ℕ)) };

    ghost coded = { code coded_ℕ (coded_list (coded_list coded_ℕ)) };

    ghost view = { λ r. from_entries r.map.entries };
}

/// The keys of changes.
pub fn keys_of(alloc: Global, changes: &[Written]) -> Result<Sequence<Key>, AllocError>
    ensures { IfOk result (λ keys. keys ≡ map (λ w. w.key) changes.now) }
{
    let mut keys = Vec::new(alloc);
    for change in changes {
        keys.push(change.key.copy()?)?;
    }
    Ok(Sequence::of(keys))
}

impl Recents {
    /// No installs. Takes no memory.
    pub fn new(alloc: Global) -> Recents
        ensures { result ≡ no_entries }
    {
        Recents {
            map: BTreeMap::new(alloc),
        }
    }

    /// The entry of an install, if there is one.
    fn get(&self, install: u64) -> Option<&Sequence<Key>>
        ensures { option_copied result ≡ look self.now install }
    {
        self.map.get(&install)
    }

    /// The keys that an install wrote; none where they are not kept.
    pub fn keys_at(&self, install: u64) -> &[Key]
        ensures { result.now ≡ keys_at self.now install }
    {
        match self.get(install) {
            Some(keys) => keys.as_slice(),
            None => &[],
        }
    }

    /// Keeps the keys that an install wrote.
    pub fn put(&mut self, install: u64, keys: Sequence<Key>) -> Result<(), AllocError>
        ensures { OnOk result (self.new ≡ put self.old install keys) }
    {
        self.map.insert(install, keys)?;
        Ok(())
    }

    /// Forgets what an install wrote. Takes no memory.
    pub fn forget(&mut self, install: u64)
        ensures { self.new ≡ without self.old install }
    {
        let _ = self.map.remove(&install);
    }
}
