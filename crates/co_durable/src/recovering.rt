//! What the records of logs tell.
ghost use Rattle.std.specs.Prelude.{◌≡◌, IfOk, IfErr};
ghost use Rattle.std.specs.List.{AllByRecursion};
ghost use Rattle.co_plain.specs.MemberView.{numbers_from};
ghost use Rattle.co_durable.specs.Pairs.{EachPair};
ghost use Rattle.co_durable.specs.Recovering.{member_refuses, coord_refuses, fallen, IsReadable, IsPastOf, IsSeenIn, LogFalls, IsFirstToFall};

use crate::fault::WorldFault;
use co_base::Txn;
use co_log::Log;
use co_recover::{MemberPast, RecoverFault, recover_coord, recover_member};
use co_state::Table;
use std::alloc::{AllocError, Global};

/// A set of transaction numbers.
pub type Numbers = Table<()>;

/// The set of these numbers.
pub fn numbers_from(alloc: Global, list: &[Txn]) -> Result<Numbers, AllocError>
    ensures { IfOk result (λ numbers. numbers ≡ numbers_from list.now) }
{
    let mut numbers = Numbers::new(alloc);
    for t in list {
        numbers.insert(*t, ())?;
    }
    Ok(numbers)
}

/// The fault of a log that was not recovered.
fn fallen(log: &Log, fault: RecoverFault) -> WorldFault
    ensures { result ≡ fallen log.now.current.spot fault }
{
    match fault {
        RecoverFault::Inconsistent { at } => {
            let spot = log.spot();
            WorldFault::Bad { spot, at }
        }
        RecoverFault::Memory => WorldFault::Memory,
    }
}

/// What the log of a member tells, in a federation of so many coordinators.
fn member_past(alloc: Global, log: &Log, coords: u8) -> Result<MemberPast, WorldFault>
    requires { IsReadable log.now }
    ensures past { IfOk result (IsPastOf coords log.now) }
    ensures refused { IfErr result (λ fault. LogFalls (member_refuses coords) fault log.now) }
{
    match recover_member(alloc, log.views(), coords) {
        Ok(past) => Ok(past),
        Err(fault) => Err(fallen(log, fault)),
    }
}

/// The numbers of all commits in the log of a coordinator, in a federation of so many members.
fn seen_in(alloc: Global, log: &Log, members: u8) -> Result<Numbers, WorldFault>
    requires { IsReadable log.now }
    ensures seen { IfOk result (IsSeenIn members log.now) }
    ensures refused { IfErr result (λ fault. LogFalls (coord_refuses members) fault log.now) }
{
    match recover_coord(alloc, log.views(), members) {
        Ok(past) => Ok(numbers_from(alloc, past.seen.as_slice())?),
        Err(fault) => Err(fallen(log, fault)),
    }
}

/// What the logs of members tell, in their order. The first log with a record that is not allowed at its
/// place ends it.
pub(crate) fn recover_members(
    alloc: Global,
    logs: &[Log],
    coords: u8,
) -> Result<Vec<MemberPast>, WorldFault>
    requires { AllByRecursion IsReadable logs.now }
    ensures pasts { IfOk result (λ pasts. EachPair (IsPastOf coords) logs.now pasts.items) }
    ensures refused { IfErr result (IsFirstToFall (member_refuses coords) logs.now) }
{
    let mut pasts = Vec::new(alloc);
    for log in logs {
        pasts.push(member_past(alloc, log, coords)?)?;
    }
    Ok(pasts)
}

/// The numbers of all commits in the logs of coordinators, in their order. The first log with a record that
/// is not allowed at its place ends it.
pub(crate) fn recover_coords(
    alloc: Global,
    logs: &[Log],
    members: u8,
) -> Result<Vec<Numbers>, WorldFault>
    requires { AllByRecursion IsReadable logs.now }
    ensures seen { IfOk result (λ seen. EachPair (IsSeenIn members) logs.now seen.items) }
    ensures refused { IfErr result (IsFirstToFall (coord_refuses members) logs.now) }
{
    let mut seen = Vec::new(alloc);
    for log in logs {
        seen.push(seen_in(alloc, log, members)?)?;
    }
    Ok(seen)
}
