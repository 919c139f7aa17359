//! Which logs are to be filled, and with what.
ghost use Rattle.std.specs.Prelude.{◌≡◌, ◌==◌, ◌++◌, IfOk, OnOk, length};
ghost use Rattle.co_record.specs.Format.{oldest};
ghost use Rattle.co_migrate.specs.Planning.{planned};
ghost use Rattle.co_migrate.specs.Telling.{member_again, coord_again};

use crate::telling::{coord_records, member_records};
use co_base::Sequence;
use co_log::Log;
use co_opening::{Logs, Pasts};
use co_record::{OLDEST_VERSION, Record};
use co_recover::{CoordPast, MemberPast};
use std::alloc::{AllocError, Global};

/// A log of version 1, and the records that its spare file is to be filled with.
#[derive(Drop)]
pub struct Refill {
    /// The log.
    pub(crate) log: Log,
    /// The records, the oldest first.
    pub(crate) records: Sequence<Record>,
}

/// Whether the log is of version 1.
fn is_old(log: &Log) -> bool
    ensures { result ≡ (log.now.version == oldest) }
{
    log.version() == OLDEST_VERSION
}

/// Adds the logs of version 1 among those of members, with what they tell.
fn plan_members(
    alloc: Global,
    logs: Vec<Log>,
    pasts: Vec<MemberPast>,
    plan: &mut Vec<Refill>,
) -> Result<(), AllocError>
    requires { length logs.items ≡ length pasts.items }
    ensures { OnOk result (plan.new.items ≡ plan.old.items ++ planned member_again logs.items pasts.items) }
{
    let mut pasts = pasts.into_iter();
    for log in logs {
        let Some(past) = pasts.next() else {
            unreachable!()
        };
        if is_old(&log) {
            let records = Sequence::of(member_records(alloc, past)?);
            plan.push(Refill { log, records })?;
        }
    }
    Ok(())
}

/// Adds the logs of version 1 among those of coordinators, with what they tell.
fn plan_coords(
    alloc: Global,
    logs: Vec<Log>,
    pasts: Vec<CoordPast>,
    plan: &mut Vec<Refill>,
) -> Result<(), AllocError>
    requires { length logs.items ≡ length pasts.items }
    ensures { OnOk result (plan.new.items ≡ plan.old.items ++ planned coord_again logs.items pasts.items) }
{
    let mut pasts = pasts.into_iter();
    for log in logs {
        let Some(past) = pasts.next() else {
            unreachable!()
        };
        if is_old(&log) {
            let records = Sequence::of(coord_records(alloc, past)?);
            plan.push(Refill { log, records })?;
        }
    }
    Ok(())
}

/// The logs of version 1, members before coordinators, with what they tell.
pub(crate) fn plan_of(alloc: Global, logs: Logs, pasts: Pasts) -> Result<Vec<Refill>, AllocError>
    requires members { length logs.members.items ≡ length pasts.members.items }
    requires coords { length logs.coords.items ≡ length pasts.coords.items }
    ensures { IfOk result (λ plan. plan.items ≡ planned member_again logs.members.items pasts.members.items ++ planned coord_again logs.coords.items pasts.coords.items) }
{
    let mut plan = Vec::new(alloc);
    plan_members(alloc, logs.members, pasts.members, &mut plan)?;
    plan_coords(alloc, logs.coords, pasts.coords, &mut plan)?;
    Ok(plan)
}
