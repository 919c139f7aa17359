//! The transactions among which the first exchange is sought.
ghost use Rattle.std.specs.Prelude.{◌≡◌, ◌<◌, ℕ, Some, None, All, IfOk, OnOk, MatchOption};
ghost use Rattle.co_plain.specs.Federation.{Federation};
ghost use Rattle.co_plain.specs.Quiet.{IsEnabled};
ghost use Rattle.co_plain.specs.Quiet as plain;
ghost use Rattle.co_plain.specs.Settling.{IsFirstExchange};
ghost use Rattle.co_state.specs.Table.{is_above, least_where};
ghost use Rattle.co_cluster.specs.Conditions.{IsReady};
ghost use Rattle.co_world.specs.Standing.{StandsUp, RepresentsWorld};
ghost use Rattle.co_cluster.specs.Readings.{exchange_of};
ghost use Rattle.co_settle.specs.Busy.{IsKnown, IsLaidIn, HaveBusy, AreKnown};
ghost use Rattle.co_settle.specs.Reached.{IsReached};

use co_base::Txn;
use co_cluster::Exchange;
use co_durable::Numbers;
use co_engine::Engine;
use co_world::World;
use std::alloc::{AllocError, Global};

/// The transactions that were busy when all nodes were up, once they were collected. An exchange can help no other one, since none becomes busy
/// while settling goes on.
#[derive(Drop)]
pub(crate) struct Candidates {
    numbers: Option<Numbers>,
}

/// Lays a transaction in, where it is busy.
fn lay_in<E: Engine + Drop>(world: &World<E>, found: &mut Numbers, t: Txn) -> Result<(), AllocError>
    requires stands { StandsUp E.takes E.stands_for world.now }
    ensures { (s : Federation) → RepresentsWorld E.takes E.stands_for world.now s → OnOk result (IsLaidIn s t found.old found.new) }
{
    if world.is_busy(t) {
        found.insert(t, ())?;
    }
    Ok(())
}

/// The busy ones of these transactions.
fn busy_among<E: Engine + Drop>(
    alloc: Global,
    world: &World<E>,
    txns: &[Txn],
) -> Result<Numbers, AllocError>
    requires stands { StandsUp E.takes E.stands_for world.now }
    ensures { (s : Federation) → RepresentsWorld E.takes E.stands_for world.now s → IfOk result (λ found. All (IsKnown s found) txns.now) }
{
    let mut found = Numbers::new(alloc);
    for t in txns {
        lay_in(world, &mut found, *t)?;
    }
    Ok(found)
}

/// Takes a candidate away that is no longer busy.
fn let_go<E: Engine + Drop>(world: &World<E>, numbers: &mut Numbers, t: Txn)
    requires stands { StandsUp E.takes E.stands_for world.now }
    ensures { (s : Federation) → RepresentsWorld E.takes E.stands_for world.now s → HaveBusy s numbers.old → HaveBusy s numbers.new }
{
    if !world.is_busy(t) {
        let _ = numbers.remove(t);
    }
}

/// The least candidate above one.
fn next_above(numbers: &Numbers, t: Txn) -> Option<Txn>
    ensures number { t < 4294967296 }
    ensures next { result ≡ least_where (λ u e. is_above (Some t) u) numbers.now }
{
    numbers.first_above(Some(t))
}

/// The first exchange that can help, sought among these candidates. Those that are no longer busy are taken away.
fn first_among<E: Engine + Drop>(world: &World<E>, numbers: &mut Numbers) -> Option<Exchange>
    requires stands { StandsUp E.takes E.stands_for world.now }
    ensures first { (s : Federation) → RepresentsWorld E.takes E.stands_for world.now s → IsReady s → HaveBusy s numbers.old →
        MatchOption result ((e : plain.Exchange) → IsEnabled s e → ⊥) (λ e. IsFirstExchange s (exchange_of e)) }
    ensures busy { (s : Federation) → RepresentsWorld E.takes E.stands_for world.now s → IsReady s → HaveBusy s numbers.old → HaveBusy s numbers.new }
{
    let mut next = numbers.first_above(None);
    while let Some(t) = next {
        let found = world.exchange_with(t);
        if found.is_some() {
            return found;
        }
        let_go(world, numbers, t);
        next = next_above(numbers, t);
    }
    None
}

impl Candidates {
    /// None were collected.
    pub(crate) fn new() -> Candidates
        ensures { result.numbers ≡ None }
    {
        Candidates { numbers: None }
    }

    /// Collects the busy transactions, where no node is down and they were not collected before.
    pub(crate) fn collect<E: Engine + Drop>(
        &mut self,
        alloc: Global,
        world: &World<E>,
    ) -> Result<(), AllocError>
        requires stands { (s : Federation) × RepresentsWorld E.takes E.stands_for world.now s × IsReached s }
        ensures { (s : Federation) → RepresentsWorld E.takes E.stands_for world.now s → IsReached s → AreKnown s self.old.numbers → OnOk result (AreKnown s self.new.numbers) }
    {
        if self.numbers.is_none() && world.first_down().is_none() {
            let open = world.still_open()?;
            self.numbers = Some(busy_among(alloc, world, open.as_slice())?);
        }
        Ok(())
    }

    /// The first exchange that can help, where no node is down. Takes no memory.
    pub(crate) fn first_exchange<E: Engine + Drop>(&mut self, world: &World<E>) -> Option<Exchange>
        requires stands { StandsUp E.takes E.stands_for world.now }
        ensures first { (s : Federation) → RepresentsWorld E.takes E.stands_for world.now s → IsReady s → AreKnown s self.old.numbers →
            MatchOption result ((e : plain.Exchange) → IsEnabled s e → ⊥) (λ e. IsFirstExchange s (exchange_of e)) }
        ensures busy { (s : Federation) → RepresentsWorld E.takes E.stands_for world.now s → IsReady s → AreKnown s self.old.numbers → AreKnown s self.new.numbers }
    {
        match &mut self.numbers {
            Some(numbers) => first_among(world, numbers),
            None => world.first_exchange(),
        }
    }
}
