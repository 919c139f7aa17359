//! Whether a knot holds of waits.
ghost use Rattle.std.specs.Prelude.{◌≡◌, ◌==◌, ◌↔◌, IsTrue};
ghost use Rattle.std.specs.List.{list_all, list_any};
ghost use Rattle.co_wait.specs.Holding.{KnotHolds};
ghost use Rattle.co_wait.specs.Testing.{same_wait, has_wait, leads_on, goes_round, all_apart, in_waits, rank_of, falls, cycle_test, order_test};

use crate::knot::{Knot, Rank};
use crate::wait::{Wait, Waits};
use co_base::Txn;

/// Whether two waits are the same.
fn same_wait(wait: &Wait, other: &Wait) -> bool
    ensures { result ≡ same_wait wait.now other.now }
{
    wait.member == other.member && wait.held == other.held && wait.by == other.by
}

/// Whether this is one of the waits.
fn has_wait(waits: &[Wait], leg: &Wait) -> bool
    ensures { result ≡ has_wait waits.now leg.now }
{
    waits.iter().any(|wait| same_wait(wait, leg))
}

/// Whether all legs are waits.
fn are_waits(waits: &[Wait], legs: &[Wait]) -> bool
    ensures { result ≡ list_all (has_wait waits.now) legs.now }
{
    legs.iter().all(|leg| has_wait(waits, leg))
}

/// Whether legs lead from one transaction to another one.
fn leads_on(from: Txn, legs: &[Wait], to: Txn) -> bool
    ensures { result ≡ leads_on from legs.now to }
{
    let mut at = from;
    for leg in legs {
        if at != leg.held {
            return false;
        }
        at = leg.by;
    }
    at == to
}

/// Whether legs go round.
fn goes_round(legs: &[Wait]) -> bool
    ensures { result ≡ goes_round legs.now }
{
    match legs {
        [] => false,
        [first, rest @ ..] => leads_on(first.by, rest, first.held),
    }
}

/// Whether a leg is of this transaction.
fn has_leg(legs: &[Wait], txn: Txn) -> bool
    ensures { result ≡ list_any (λ w. w.held == txn) legs.now }
{
    legs.iter().any(|leg| leg.held == txn)
}

/// Whether all legs are of distinct transactions.
fn are_distinct(legs: &[Wait]) -> bool
    ensures { result ≡ all_apart (λ w. w.held) legs.now }
{
    let mut rest = legs;
    while let Some((first, others)) = rest.split_first() {
        if has_leg(others, first.held) {
            return false;
        }
        rest = others;
    }
    true
}

/// Whether these are waits of distinct transactions that go round.
fn cycle_holds(waits: &[Wait], legs: &[Wait]) -> bool
    ensures { result ≡ cycle_test waits.now legs.now }
{
    are_waits(waits, legs) && are_distinct(legs) && goes_round(legs)
}

/// Whether a rank is of this transaction.
fn has_rank(ranks: &[Rank], txn: Txn) -> bool
    ensures { result ≡ list_any (λ r. r.txn == txn) ranks.now }
{
    ranks.iter().any(|rank| rank.txn == txn)
}

/// Whether each transaction stands there once.
fn stand_once(ranks: &[Rank]) -> bool
    ensures { result ≡ all_apart (λ r. r.txn) ranks.now }
{
    let mut rest = ranks;
    while let Some((first, others)) = rest.split_first() {
        if has_rank(others, first.txn) {
            return false;
        }
        rest = others;
    }
    true
}

/// Whether the transaction waits, or is waited for.
fn in_waits(waits: &[Wait], txn: Txn) -> bool
    ensures { result ≡ in_waits waits.now txn }
{
    waits.iter().any(|wait| wait.held == txn || wait.by == txn)
}

/// Whether all transactions are of the waits.
fn are_in_waits(waits: &[Wait], ranks: &[Rank]) -> bool
    ensures { result ≡ list_all (λ r. in_waits waits.now r.txn) ranks.now }
{
    ranks.iter().all(|rank| in_waits(waits, rank.txn))
}

/// The rank of a transaction.
fn rank_of(ranks: &[Rank], txn: Txn) -> Option<u32>
    ensures { result ≡ rank_of ranks.now txn }
{
    for rank in ranks {
        if rank.txn == txn {
            return Some(rank.rank);
        }
    }
    None
}

/// Whether a wait leads to a transaction of a lesser rank.
fn falls(ranks: &[Rank], wait: &Wait) -> bool
    ensures { result ≡ falls ranks.now wait.now }
{
    match (rank_of(ranks, wait.by), rank_of(ranks, wait.held)) {
        (Some(lesser), Some(greater)) => lesser < greater,
        _ => false,
    }
}

/// Whether all waits lead to transactions of lesser ranks.
fn all_fall(ranks: &[Rank], waits: &[Wait]) -> bool
    ensures { result ≡ list_all (falls ranks.now) waits.now }
{
    waits.iter().all(|wait| falls(ranks, wait))
}

/// Whether each transaction of the waits stands there once, and no other, and each wait leads to one of a lesser rank.
fn order_holds(waits: &[Wait], ranks: &[Rank]) -> bool
    ensures { result ≡ order_test waits.now ranks.now }
{
    stand_once(ranks) && are_in_waits(waits, ranks) && all_fall(ranks, waits)
}

/// Whether a knot holds of waits: the legs of a cycle are waits of distinct transactions, at least one, each leg's `by` is the next one's `held`, and
/// the last one's the first one's; an order has exactly the transactions of the waits, each once, and each wait's `held` has a greater rank
/// than its `by`. It takes no memory, and so its time grows with the product of the lengths.
pub fn knot_holds(waits: &Waits, knot: &Knot) -> bool
    ensures { IsTrue result ↔ KnotHolds waits.now knot.now }
{
    match knot {
        Knot::Cycle(legs) => cycle_holds(waits.as_slice(), legs.as_slice()),
        Knot::Order(ranks) => order_holds(waits.as_slice(), ranks.as_slice()),
    }
}
