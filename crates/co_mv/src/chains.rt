//! The versions of all keys.
ghost use Rattle.std.specs.Prelude.{◌≡◌, ◌<◌, [], Some, map, reverse, slice_get, filter, length, IfOk, OnOk, option_copied};
ghost use Rattle.std.specs.FinMap as finite;
ghost use Rattle.std.specs.FinMap.{entries};
ghost use Rattle.co_base.specs.Span.{span_has};
ghost use Rattle.co_mv.specs.Versions.{is_kept, stays, base_versions, seen_value};
ghost use Rattle.co_mv.specs.Chains.{chain_in, chain_of, narrowed, settled, pruned, pruned_all, rewritten, rewritten_all, chains_from};
ghost use Rattle.co_mv.specs.Kept.{needed, WereKept, WereAllKept};

use crate::chain::Chain;
use crate::snapshots::Snapshots;
use co_base::{Key, Range, Row, Value, Written};
use std::alloc::{AllocError, Global};
use std::collections::BTreeMap;
use std::collections::btree_map::{self, Iter};
use std::marker::Model;
use std::ops::Bound;

/// The versions by key; a key without versions is absent. A contract sees the finite map.
#[derive(Drop)]
pub struct Chains {
    map: BTreeMap<Key, Chain>,
}

impl Model for Chains {
    ghost use Rattle.std.specs.Prelude.{List};
    ghost use Rattle.std.specs.Coded.{codes, coded_ℕ, coded_list};
    ghost use Rattle.std.specs.FinMap.{FinMap, code, from_entries};
    ghost use Rattle.co_base.specs.Order.{key_cmp};
    ghost use Rattle.co_mv.specs.contracts.version.Version as version;
    ghost use Rattle.co_mv.specs.declared.version.Version.{Version};

    ghost Value = { FinMap key_cmp (List Version) };

    ghost coded = { Prim.hlevel (codes, code {R = key_cmp} (coded_list coded_ℕ) (coded_list version.the_row.coded)) };

    ghost view = { λ c. from_entries c.map.entries };
}

impl Chains {
    /// No versions. Takes no memory.
    pub fn new(alloc: Global) -> Chains
        ensures { result ≡ finite.empty }
    {
        Chains {
            map: BTreeMap::new(alloc),
        }
    }

    /// The versions of a key, if it has any.
    pub fn get(&self, key: &Key) -> Option<&Chain>
        ensures { option_copied result ≡ finite.get self.now key.now }
    {
        self.map.get(key)
    }

    /// How many versions of a key there are.
    pub fn len_of(&self, key: &Key) -> usize
        ensures { result ≡ length (chain_of self.now key.now) }
    {
        match self.get(key) {
            Some(chain) => chain.len(),
            None => 0,
        }
    }

    /// The value of a version of a key, in the order of installation, or none where the record was taken away.
    pub fn value_at(&self, key: &Key, place: usize) -> Option<&Value>
        requires { place < length (chain_of self.now key.now) }
        ensures { slice_get (map (λ v. v.value) (reverse (chain_of self.now key.now))) place ≡ Some (option_copied result) }
    {
        match self.get(key) {
            Some(chain) => chain.value_of(place),
            None => None,
        }
    }

    /// The versions of each key, in the order of the keys.
    pub fn iter(&self) -> Iter<'_, Key, Chain>
        ensures { result ≡ entries self.now }
    {
        self.map.iter()
    }

    /// The versions of the keys of a range, in their order.
    pub fn within(&self, range: &Range) -> btree_map::Range<'_, Key, Chain>
        ensures { result ≡ filter (λ e. span_has range.now e.0) (entries self.now) }
    {
        let (lo, hi) = range.bounds();
        self.map.range((Bound::Included(lo), Bound::Included(hi)))
    }

    /// Lays in the versions of a key.
    fn lay(&mut self, key: Key, chain: Chain) -> Result<(), AllocError>
        ensures { OnOk result (self.new ≡ finite.insert self.old key chain) }
    {
        self.map.insert(key, chain)?;
        Ok(())
    }

    /// Takes the versions of a key away.
    fn remove(&mut self, key: &Key) -> Option<Chain>
        ensures value { result ≡ finite.get self.old key.now }
        ensures rest { self.new ≡ finite.remove self.old key.now }
    {
        self.map.remove(key)
    }

    /// Takes the versions of a key away and gives them; none where it has none.
    fn take(&mut self, alloc: Global, key: &Key) -> Chain
        ensures value { result ≡ chain_of self.old key.now }
        ensures rest { self.new ≡ finite.remove self.old key.now }
    {
        match self.remove(key) {
            Some(chain) => chain,
            None => Chain::new(alloc),
        }
    }

    /// Lays in what a key held before all installs.
    fn begin(&mut self, alloc: Global, key: Key, value: Value) -> Result<(), AllocError>
        ensures { OnOk result (self.new ≡ finite.insert self.old key (base_versions (Some value))) }
    {
        let chain = Chain::of_value(alloc, value)?;
        self.lay(key, chain)
    }

    /// The versions before all installs. Of two rows of one key the first counts.
    pub fn of_rows(alloc: Global, mut rows: Vec<Row>) -> Result<Chains, AllocError>
        ensures { IfOk result (λ chains. chains ≡ chains_from rows.items) }
    {
        let mut chains = Chains::new(alloc);
        while let Some(row) = rows.pop() {
            chains.begin(alloc, row.key, row.value)?;
        }
        Ok(chains)
    }

    /// An install writes a key.
    fn write(
        &mut self,
        alloc: Global,
        key: Key,
        install: u64,
        value: Option<Value>,
        snapshots: &Snapshots,
    ) -> Result<(), AllocError>
        ensures { OnOk result (self.new ≡ rewritten (is_kept (needed snapshots.now)) install self.old key value) }
    {
        let mut chain = self.take(alloc, &key);
        chain.write(install, value, snapshots)?;
        if chain.is_empty() {
            return Ok(());
        }
        self.lay(key, chain)
    }

    /// An install makes changes.
    pub fn write_all(
        &mut self,
        alloc: Global,
        changes: &[Written],
        install: u64,
        snapshots: &Snapshots,
    ) -> Result<(), AllocError>
        ensures { OnOk result (self.new ≡ rewritten_all (is_kept (needed snapshots.now)) install self.old changes.now) }
    {
        for change in changes {
            let change = change.copy()?;
            self.write(alloc, change.key, install, change.value, snapshots)?;
        }
        Ok(())
    }

    /// Forgets the versions of a key that only a reader at this number read, which has gone.
    fn narrow(&mut self, key: &Key, number: u64, snapshots: &Snapshots)
        ensures { WereKept snapshots.now number (chain_of self.old key.now) → self.new ≡ narrowed (stays number (needed snapshots.now)) self.old key.now }
    {
        let Some(chain) = self.map.get_mut(key) else {
            return;
        };
        chain.prune(number, snapshots);
    }

    /// Takes a key away that has no versions.
    fn settle(&mut self, key: &Key)
        ensures { self.new ≡ settled self.old key.now }
    {
        if self.len_of(key) == 0 {
            let _ = self.remove(key);
        }
    }

    /// Forgets the versions of a key that only a reader at this number read, which has gone, and the key where
    /// none is left. Takes no memory.
    fn prune(&mut self, key: &Key, number: u64, snapshots: &Snapshots)
        ensures { WereKept snapshots.now number (chain_of self.old key.now) → self.new ≡ pruned (stays number (needed snapshots.now)) self.old key.now }
    {
        self.narrow(key, number, snapshots);
        self.settle(key);
    }

    /// Forgets the versions of some keys that only a reader at this number read, which has gone. Takes no memory.
    pub fn prune_all(&mut self, keys: &[Key], number: u64, snapshots: &Snapshots)
        ensures { WereAllKept snapshots.now number self.old → self.new ≡ pruned_all (stays number (needed snapshots.now)) self.old keys.now }
    {
        for key in keys {
            self.prune(key, number, snapshots);
        }
    }
}
