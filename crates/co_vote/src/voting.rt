//! The voting rule.
ghost use Rattle.std.specs.Prelude.{◌≡◌, ◌≢◌, ◌↔◌, List, ℕ, Option, None, Some, option_copied};
ghost use Rattle.co_state.specs.declared.verdict.Verdict.TheVariants.{LostOperations, StaleRead, HeldBy, VoteYes};
ghost use Rattle.co_vote.specs.Ballots.{verdict_of, verdict_on};

use crate::verdict::Ballot;
use co_base::{Key, Txn};

/// The ballot, by the first that applies: `NoLost` exactly where the count of kept operations differs
/// from the count that the client carried; `NoStale` exactly where an overwritten key is given; `Held`
/// exactly where a transaction is in the way, the least such one; else `Yes`. Takes no memory.
pub fn ballot(kept: u16, carried: u16, stale: Option<&Key>, holder: Option<Txn>) -> Ballot<'_>
    ensures lost { (verdict_of result ≡ LostOperations) ↔ (kept ≢ carried) }
    ensures stale { (key : List ℕ) → (verdict_of result ≡ StaleRead key) ↔ ((kept ≡ carried) × (option_copied stale.entry ≡ Some key)) }
    ensures held { (u : ℕ) → (verdict_of result ≡ HeldBy u) ↔ ((kept ≡ carried) × (option_copied stale.entry ≡ None) × (holder ≡ Some u)) }
    ensures yes { (verdict_of result ≡ VoteYes) ↔ ((kept ≡ carried) × (option_copied stale.entry ≡ None) × (holder ≡ None)) }
    ensures rule { verdict_of result ≡ verdict_on kept carried (option_copied stale.entry) holder }
{
    if kept != carried {
        return Ballot::NoLost;
    }
    if let Some(key) = stale {
        return Ballot::NoStale(key);
    }
    match holder {
        Some(u) => Ballot::Held(u),
        None => Ballot::Yes,
    }
}
