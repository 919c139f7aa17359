//! The transactions with their ranks.
ghost use Rattle.std.specs.Prelude.{◌≡◌, ◌≢◌, map, IfOk};
ghost use Rattle.std.specs.FinMap.{entries};
ghost use Rattle.co_wait.specs.Searching.{NoneIsOpen, ranked_of};

use crate::knot::{Rank, Ranks};
use crate::search::{Known, Progress};
use co_base::Txn;
use std::alloc::{AllocError, Global};

/// A transaction whose chains all end, with its rank.
fn rank_of(txn: Txn, progress: Progress) -> Rank
    requires { progress ≢ Progress.Open }
    ensures { result ≡ ranked_of (txn, progress) }
{
    match progress {
        Progress::Ended { rank } => Rank { txn, rank },
        Progress::Open => unreachable!(),
    }
}

/// Each transaction that is known, with its rank.
pub(crate) fn ranks_of(alloc: Global, known: &Known) -> Result<Ranks, AllocError>
    requires { NoneIsOpen known.now }
    ensures { IfOk result (λ ranks. ranks ≡ map ranked_of (entries known.now)) }
{
    let mut ranks = Ranks::new(alloc);
    for (txn, progress) in known.iter() {
        ranks.push(rank_of(*txn, *progress))?;
    }
    Ok(ranks)
}
