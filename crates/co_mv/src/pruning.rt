//! Versions and installs that are forgotten, install after install.
ghost use Rattle.std.specs.Prelude.{◌≡◌, ◌<◌, ◌≤◌, [], ℕ};
ghost use Rattle.co_mv.specs.Versions.{stays};
ghost use Rattle.co_mv.specs.Kept.{needed, IsPruned, AreLeft, WereAllKept};
ghost use Rattle.co_mv.specs.Recents.{keys_at};

use crate::chains::Chains;
use crate::recents::Recents;
use crate::snapshots::Snapshots;

/// Forgets the versions that only a reader at this number read, which has gone, of the keys that were written by
/// the installs after `from` and up to `to`. Takes no memory.
pub fn prune_window(
    chains: &mut Chains,
    recents: &Recents,
    number: u64,
    from: u64,
    to: u64,
    snapshots: &Snapshots,
)
    ensures pruned { WereAllKept snapshots.now number chains.old → IsPruned (stays number (needed snapshots.now)) recents.now from to chains.old chains.new }
    ensures others { WereAllKept snapshots.now number chains.old → AreLeft recents.now from to chains.old chains.new }
{
    let mut install = from;
    while install < to {
        install += 1;
        chains.prune_all(recents.keys_at(install), number, snapshots);
    }
}

/// Forgets what the installs after `from` and up to `to` wrote. Takes no memory.
pub fn forget_window(recents: &mut Recents, from: u64, to: u64)
    ensures later { (n : ℕ) → to < n → keys_at recents.new n ≡ keys_at recents.old n }
    ensures gone { (n : ℕ) → from < n → n ≤ to → keys_at recents.new n ≡ [] }
    ensures earlier { (n : ℕ) → n ≤ from → keys_at recents.new n ≡ keys_at recents.old n }
{
    let mut install = from;
    while install < to {
        install += 1;
        recents.forget(install);
    }
}
