//! The versions that are still read.
ghost use Rattle.std.specs.Prelude.{◌≡◌, ◌⊎◌, [], ◌∷◌, ℕ, List, None, IfOk, OnOk};
ghost use Rattle.co_mv.specs.Kept.{Keeps, IsNarrowed, IsReleased, entered, left, pinned, unpinned, grown};
ghost use Rattle.co_serial.specs.Records.{Records};
ghost use Rattle.co_state.specs.declared.engine_state.Install.{Install};
ghost use Rattle.co_state.specs.Effects.{records_from};
ghost use Rattle.co_state.specs.Table.{look, no_entries};
ghost use Rattle.co_mv.specs.declared.snapshots.Snapshots.{Snapshots};

use crate::chains::Chains;
use crate::pruning::{forget_window, prune_window};
use crate::recents::{Recents, keys_of};
use crate::snapshots::Snapshots;
use co_base::{Rows, Txn, Written};
use co_stamps::Stamps;
use std::alloc::{AllocError, Global};

/// Versions by key, who reads them, and which keys the installs wrote that some active transaction or pinned
/// reader does not see.
///
/// `Keeps` says for which records and installs over them an archive stands, and each clause holds for all of
/// these. After want of memory an archive is only dropped.
#[derive(Drop)]
pub struct Archive {
    /// The numbers of installs that records are read at.
    pub snapshots: Snapshots,
    /// The versions.
    pub chains: Chains,
    /// The keys of recent installs.
    pub recents: Recents,
}

/// The window of fewer installs, of the one from `before` up to `number` and the one from there up to `next`.
fn narrower(before: u64, number: u64, next: u64) -> (u64, u64)
    ensures { (result ≡ (before, number)) ⊎ (result ≡ (number, next)) }
{
    if number.saturating_sub(before) < next.saturating_sub(number) {
        (before, number)
    } else {
        (number, next)
    }
}

impl Archive {
    /// Records before all installs, without an active transaction or a pin.
    pub fn of_rows(alloc: Global, rows: Rows) -> Result<Archive, AllocError>
        ensures keeps { IfOk result (λ archive. Keeps archive (records_from rows) []) }
        ensures stamps { IfOk result (λ archive. archive.snapshots.stamps ≡ no_entries) }
        ensures pins { IfOk result (λ archive. archive.snapshots.pins ≡ no_entries) }
    {
        Ok(Archive {
            snapshots: Snapshots {
                installs: 0,
                stamps: Stamps::new(alloc),
                pins: Stamps::new(alloc),
            },
            chains: Chains::of_rows(alloc, rows.into_vec())?,
            recents: Recents::new(alloc),
        })
    }

    /// A transaction becomes active, or stays so.
    pub fn enter(&mut self, alloc: Global, t: Txn) -> Result<(), AllocError>
        ensures snapshots { OnOk result (self.new.snapshots ≡ entered self.old.snapshots t) }
        ensures pins { self.new.snapshots.pins ≡ self.old.snapshots.pins }
        ensures keeps { (base : Records) (installed : List Install) → Keeps self.old base installed → OnOk result (Keeps self.new base installed) }
    {
        self.snapshots.enter(alloc, t)
    }

    /// A transaction is active no more. The versions that it alone read are forgotten. Takes no memory.
    pub fn leave(&mut self, t: Txn)
        ensures snapshots { self.new.snapshots ≡ left self.old.snapshots t }
        ensures keeps { (base : Records) (installed : List Install) → Keeps self.old base installed → Keeps self.new base installed }
    {
        if let Some(stamp) = self.snapshots.stamps.remove(t) {
            self.release(stamp);
        }
    }

    /// Pins an id that is not pinned: the records as they are installed now are kept until its pin ends.
    pub fn pin(&mut self, alloc: Global, id: u32) -> Result<(), AllocError>
        requires { look self.old.snapshots.pins id ≡ None }
        ensures snapshots { OnOk result (self.new.snapshots ≡ pinned self.old.snapshots id) }
        ensures keeps { (base : Records) (installed : List Install) → Keeps self.old base installed → OnOk result (Keeps self.new base installed) }
    {
        self.snapshots.pin(alloc, id)
    }

    /// Ends the pin of an id, if it is pinned. The versions that it alone read are forgotten. Takes no memory.
    pub fn unpin(&mut self, id: u32)
        ensures snapshots { self.new.snapshots ≡ unpinned self.old.snapshots id }
        ensures keeps { (base : Records) (installed : List Install) → Keeps self.old base installed → Keeps self.new base installed }
    {
        if let Some(number) = self.snapshots.unpin(id) {
            self.release(number);
        }
    }

    /// Forgets the versions that only a reader at this number read, after one that held it has gone. Takes no
    /// memory.
    fn release(&mut self, number: u64)
        ensures snapshots { self.new.snapshots ≡ self.old.snapshots }
        ensures keeps { (held : Snapshots) (base : Records) (installed : List Install) → IsReleased held self.old.snapshots number → Keeps (record self.old { snapshots = held }) base installed → Keeps self.new base installed }
    {
        let next = self.snapshots.next_from(number);
        match self.snapshots.greatest_held_below(number) {
            Some(before) => {
                let (from, to) = narrower(before, number, next);
                self.prune(number, from, to);
            }
            None => {
                self.prune(number, number, next);
                forget_window(&mut self.recents, number, next);
            }
        }
    }

    /// Forgets the versions that only a reader at this number read, which has gone, of the keys that were written
    /// by the installs after `from` and up to `to`. Takes no memory.
    fn prune(&mut self, number: u64, from: u64, to: u64)
        ensures { IsNarrowed number from to self.old self.new }
    {
        prune_window(
            &mut self.chains,
            &self.recents,
            number,
            from,
            to,
            &self.snapshots,
        );
    }

    /// An install makes changes. The versions that it leaves unread are forgotten. There are 2^64 - 1 installs at
    /// most; memory for more of them is not found.
    pub fn install(&mut self, alloc: Global, changes: &[Written]) -> Result<(), AllocError>
        ensures snapshots { OnOk result (self.new.snapshots ≡ grown self.old.snapshots) }
        ensures pins { self.new.snapshots.pins ≡ self.old.snapshots.pins }
        ensures keeps { (base : Records) (installed : List Install) (txn : ℕ) → Keeps self.old base installed → OnOk result (Keeps self.new base (record { txn = txn; writes = changes.now } ∷ installed)) }
    {
        if self.snapshots.installs == u64::MAX {
            return Err(AllocError);
        }
        let install = self.snapshots.installs + 1;
        self.snapshots.installs = install;
        self.chains
            .write_all(alloc, changes, install, &self.snapshots)?;
        if self.snapshots.has_readers() {
            let keys = keys_of(alloc, changes)?;
            self.recents.put(install, keys)?;
        }
        Ok(())
    }
}
