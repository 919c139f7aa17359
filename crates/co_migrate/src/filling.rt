//! Spare files that are filled.
ghost use Rattle.std.specs.Prelude.{◌≡◌, ◌≤◌, ◌+◌, true, None, IsErrOf, length, map};
ghost use Rattle.std.specs.List.{AllByRecursion};
ghost use Rattle.co_base.specs.Limits.{most_coordinators, most_members};
ghost use Rattle.co_outside.specs.Home.{HasFailed};
ghost use Rattle.co_outside.specs.declared.spot.Spot.{Spot};
ghost use Rattle.co_frame.specs.Gate.{begins_closed};
ghost use Rattle.co_log.specs.Others.{OtherNodesStay};
ghost use Rattle.co_log.specs.Spare.{IsFillable};
ghost use Rattle.co_migrate.specs.Refilling.{refill_node, AreApart, IsAtRest, MayRefill, IsStillOld, IsClosedAs, IsFilledAs, AreRefilledAs};

use crate::fault::MigrateFault;
use crate::planning::Refill;
use co_log::{Log, LogFault};
use co_outside::Home;
use co_record::Record;

/// Closes the spare file, where it is not closed.
fn close<H: Home>(home: &mut H, log: &mut Log) -> Result<(), MigrateFault>
    requires { IsAtRest (H.seen home.old) log.old }
    ensures closed { IsClosedAs log.old log.new (H.seen home.old) (H.seen home.new) result }
    ensures unturned { IsStillOld log.old (H.seen home.old).file (H.seen home.new).file }
    ensures others { OtherNodesStay log.old.node (H.seen home.old) (H.seen home.new) }
{
    if log.spare_closed() {
        return Ok(());
    }
    match log.close_spare(home) {
        Ok(()) => Ok(()),
        Err(LogFault::Device { spot }) => Err(MigrateFault::Device { spot }),
        Err(LogFault::Memory) => Err(MigrateFault::Memory),
        Err(LogFault::Stopped { .. }) => unreachable!(),
        Err(LogFault::Bad { .. }) => unreachable!(),
        Err(LogFault::Differs { .. }) => unreachable!(),
        Err(LogFault::Full { .. }) => unreachable!(),
        Err(LogFault::InUse { .. }) => unreachable!(),
    }
}

/// Fills the spare file, which is closed.
fn fill<H: Home>(home: &mut H, mut log: Log, records: &[Record]) -> Result<(), MigrateFault>
    requires rest { IsAtRest (H.seen home.old) log }
    requires closed { begins_closed log.spare.state.stable ≡ true }
    requires fillable { AllByRecursion IsFillable records.now }
    ensures filled { IsFilledAs log records.now (H.seen home.old) (H.seen home.new) result }
    ensures others { OtherNodesStay log.node (H.seen home.old) (H.seen home.new) }
{
    match log.fill_spare(home, records) {
        Ok(_) => Ok(()),
        Err(LogFault::Device { spot }) => Err(MigrateFault::Device { spot }),
        Err(LogFault::Full { spot }) => Err(MigrateFault::Full { spot }),
        Err(LogFault::Memory) => Err(MigrateFault::Memory),
        Err(LogFault::Stopped { .. }) => unreachable!(),
        Err(LogFault::Bad { .. }) => unreachable!(),
        Err(LogFault::Differs { .. }) => unreachable!(),
        Err(LogFault::InUse { .. }) => unreachable!(),
    }
}

/// Closes the spare file where it is not closed, and fills it.
fn refill<H: Home>(home: &mut H, refill: Refill) -> Result<(), MigrateFault>
    requires { MayRefill (H.seen home.old) refill }
    ensures filled { IsFilledAs refill.log refill.records (H.seen home.old) (H.seen home.new) result }
    ensures others { OtherNodesStay refill.log.node (H.seen home.old) (H.seen home.new) }
{
    let Refill { mut log, records } = refill;
    close(home, &mut log)?;
    fill(home, log, records.as_slice())
}

/// Fills these logs, in their order. How many they are.
pub(crate) fn refill_all<H: Home>(home: &mut H, plan: Vec<Refill>) -> Result<u32, MigrateFault>
    requires few { length plan.items ≤ most_members + most_coordinators }
    requires may { AllByRecursion (MayRefill (H.seen home.old)) plan.items }
    requires apart { AreApart (map refill_node plan.items) }
    ensures refilled { AreRefilledAs plan.items (H.seen home.old) (H.seen home.new) result }
    ensures told { (s : Spot) → (H.seen home.new).file s ≡ None → (H.seen home.old).file s ≡ None }
    ensures directory { (H.seen home.new).entered ≡ (H.seen home.old).entered }
    ensures device { (spot : Spot) → IsErrOf result (MigrateFault.Device spot) → HasFailed spot (H.seen home.old) (H.seen home.new) }
    ensures quiet { ((spot : Spot) → IsErrOf result (MigrateFault.Device spot) → ⊥) → (H.seen home.new).faults ≡ (H.seen home.old).faults }
{
    let mut count = 0;
    for next in plan {
        refill(home, next)?;
        count += 1;
    }
    Ok(count)
}
