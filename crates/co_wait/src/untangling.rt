//! Waits are untangled.
ghost use Rattle.std.specs.Prelude.{◌≡◌, ◌<◌, length, map, drop, AllPairs, Any, IfOk, OnOk, MatchOption, HoldsAt};
ghost use Rattle.co_wait.specs.Chains.{IsWaitBefore};
ghost use Rattle.co_wait.specs.Knots.{IsCycle, IsKnot};
ghost use Rattle.co_wait.specs.Searching.{HasGoneThrough, IsNextFirst, IsRingOf, KeepsEnded};

use crate::knot::{Knot, Legs};
use crate::ranking::ranks_of;
use crate::search::{Known, Next, Pause, enter, go_on};
use crate::turning::turned;
use crate::wait::{Wait, Waits};
use co_base::Txn;
use std::alloc::{AllocError, Global};

/// The place of a transaction's wait.
fn place_of(path: &[Pause], txn: Txn) -> usize
    requires { Any (λ p. p.wait.held ≡ txn) path.now }
    ensures within { result < length path.now }
    ensures here { HoldsAt (λ p. p.wait.held ≡ txn) path.now result }
{
    match path.iter().position(|pause| pause.wait.held == txn) {
        Some(place) => place,
        None => unreachable!(),
    }
}

/// The waits that were followed, from a place on.
fn waits_from(alloc: Global, path: &[Pause], place: usize) -> Result<Vec<Wait>, AllocError>
    requires { place < length path.now }
    ensures { IfOk result (λ ring. ring.items ≡ map (λ p. p.wait) (drop place path.now)) }
{
    let (_, followed) = path.split_at(place);
    followed.iter().map(|pause| pause.wait).collect(alloc)
}

/// The waits that were followed, from those of this transaction on.
fn ring_of(alloc: Global, path: &[Pause], txn: Txn) -> Result<Vec<Wait>, AllocError>
    requires { Any (λ p. p.wait.held ≡ txn) path.now }
    ensures { IfOk result (λ ring. IsRingOf path.now txn ring.items) }
{
    waits_from(alloc, path, place_of(path, txn))
}

/// Goes through all chains from a transaction, up to a cycle.
fn search(
    alloc: Global,
    waits: &[Wait],
    known: &mut Known,
    first: Txn,
) -> Result<Option<Legs>, AllocError>
    requires ordered { AllPairs IsWaitBefore waits.now }
    requires next { IsNextFirst waits.now known.old first }
    ensures found { IfOk result (λ found. MatchOption found (HasGoneThrough waits.now first known.new) (IsCycle waits.now)) }
    ensures kept { OnOk result (KeepsEnded known.old known.new) }
{
    let mut path = Vec::new(alloc);
    let mut visit = enter(waits, known, first)?;
    loop {
        match go_on(waits, known, &mut path, visit)? {
            Next::Visit(next) => visit = next,
            Next::Ended => return Ok(None),
            Next::Again(txn) => {
                let ring = ring_of(alloc, path.as_slice(), txn)?;
                return Ok(Some(turned(alloc, ring.as_slice())?));
            }
        }
    }
}

/// How waits hang together: in the order of all transactions of the waits, or in a cycle. There is one answer, and it takes time that grows with
/// the number of waits and its logarithm.
///
/// The rank of a transaction is the length of the longest chain of waits from it. Where every chain ends, the answer is the order. Else the
/// transactions are set aside whose chains all end; from the least one that is left, the wait of the least member is followed whose `by` is
/// left, and so on, until a transaction comes again; and the cycle is turned so that its least transaction is first.
pub fn untangle(alloc: Global, waits: &Waits) -> Result<Knot, AllocError>
    requires { AllPairs IsWaitBefore waits.now }
    ensures { IfOk result (IsKnot waits.now) }
{
    let mut known = Known::new(alloc);
    for wait in waits.as_slice() {
        if known.contains(wait.held) {
            continue;
        }
        if let Some(legs) = search(alloc, waits.as_slice(), &mut known, wait.held)? {
            return Ok(Knot::Cycle(legs));
        }
    }
    Ok(Knot::Order(ranks_of(alloc, &known)?))
}
