//! What the records of the logs tell is judged: where each is allowed, and of which version the logs are.
ghost use Rattle.std.specs.Prelude.{◌≡◌, Bool, Option, IfOk, IfErr, OnOk, length};
ghost use Rattle.std.specs.List.{AllByRecursion};
ghost use Rattle.co_outside.specs.Home.{File};
ghost use Rattle.co_outside.specs.declared.spot.Spot.{Spot};
ghost use Rattle.co_durable.specs.Pairs.{EachPair};
ghost use Rattle.co_durable.specs.Recovering.{member_refuses, coord_refuses, fallen, IsReadable, IsPastOf, LogFalls, IsFirstToFall};
ghost use Rattle.co_opening.specs.Attached.{AreAttached};
ghost use Rattle.co_opening.specs.Judged.{AreJudged, IsOfJudging, IsOfTelling};
ghost use Rattle.co_opening.specs.Opened.{IsUnopened};
ghost use Rattle.co_opening.specs.Standing.{IsCoordPastOf};
ghost use Rattle.co_opening.specs.Versions.{IsVersioned, IsLatest, IsFirstOldLog};

use crate::attaching::Logs;
use co_base::Head;
use co_durable::WorldFault;
use co_log::Log;
use co_recover::{CoordPast, MemberPast, RecoverFault, recover_coord, recover_member};
use std::alloc::Global;

/// What the logs of all nodes tell.
#[derive(Drop)]
pub struct Pasts {
    /// Those of the members, from member 1 on.
    pub members: Vec<MemberPast>,
    /// Those of the coordinators, from coordinator 1 on.
    pub coords: Vec<CoordPast>,
}

/// The fault of a log that was not recovered.
fn fallen(log: &Log, fault: RecoverFault) -> WorldFault
    ensures { result ≡ fallen log.now.current.spot fault }
{
    match fault {
        RecoverFault::Inconsistent { at } => {
            let spot = log.spot();
            WorldFault::Bad { spot, at }
        }
        RecoverFault::Memory => WorldFault::Memory,
    }
}

/// What the log of a member tells, in a federation of so many coordinators.
fn member_past(alloc: Global, log: &Log, coords: u8) -> Result<MemberPast, WorldFault>
    requires { IsReadable log.now }
    ensures past { IfOk result (IsPastOf coords log.now) }
    ensures refused { IfErr result (λ fault. LogFalls (member_refuses coords) fault log.now) }
{
    match recover_member(alloc, log.views(), coords) {
        Ok(past) => Ok(past),
        Err(fault) => Err(fallen(log, fault)),
    }
}

/// What the log of a coordinator tells, in a federation of so many members.
fn coord_past(alloc: Global, log: &Log, members: u8) -> Result<CoordPast, WorldFault>
    requires { IsReadable log.now }
    ensures past { IfOk result (IsCoordPastOf members log.now) }
    ensures refused { IfErr result (λ fault. LogFalls (coord_refuses members) fault log.now) }
{
    match recover_coord(alloc, log.views(), members) {
        Ok(past) => Ok(past),
        Err(fault) => Err(fallen(log, fault)),
    }
}

/// What the logs of members tell, in their order. The first log with a record that is not allowed at its
/// place ends it.
fn member_pasts(alloc: Global, logs: &[Log], coords: u8) -> Result<Vec<MemberPast>, WorldFault>
    requires { AllByRecursion IsReadable logs.now }
    ensures pasts { IfOk result (λ pasts. EachPair (IsPastOf coords) logs.now pasts.items) }
    ensures refused { IfErr result (IsFirstToFall (member_refuses coords) logs.now) }
{
    let mut pasts = Vec::new(alloc);
    for log in logs {
        pasts.push(member_past(alloc, log, coords)?)?;
    }
    Ok(pasts)
}

/// What the logs of coordinators tell, in their order. The first log with a record that is not allowed at its
/// place ends it.
fn coord_pasts(alloc: Global, logs: &[Log], members: u8) -> Result<Vec<CoordPast>, WorldFault>
    requires { AllByRecursion IsReadable logs.now }
    ensures pasts { IfOk result (λ pasts. EachPair (IsCoordPastOf members) logs.now pasts.items) }
    ensures refused { IfErr result (IsFirstToFall (coord_refuses members) logs.now) }
{
    let mut pasts = Vec::new(alloc);
    for log in logs {
        pasts.push(coord_past(alloc, log, members)?)?;
    }
    Ok(pasts)
}

/// Only logs of version 2 are written: the first one of version 1 is refused.
fn refuse_old(logs: &[Log]) -> Result<(), WorldFault>
    requires { AllByRecursion IsVersioned logs.now }
    ensures latest { OnOk result (AllByRecursion IsLatest logs.now) }
    ensures old { IfErr result (IsFirstOldLog logs.now) }
{
    for log in logs {
        if log.version() == 1 {
            return Err(WorldFault::Old { spot: log.spot() });
        }
    }
    Ok(())
}

/// What the logs of all nodes tell, members before coordinators, of whatever version they are. The first log with a record that is not
/// allowed at its place ends it, with `Bad` at the place of that record; no other fault comes but want of memory.
pub fn tell(alloc: Global, head: &Head, logs: &Logs) -> Result<Pasts, WorldFault>
    requires { (file : Spot → Option File) × (resume : Bool) × AreAttached file resume (length head.now.kinds) head.now.coords logs.now.members.items logs.now.coords.items }
    ensures members { IfOk result (λ pasts. EachPair (IsPastOf head.now.coords) logs.now.members.items pasts.members.items) }
    ensures coords { IfOk result (λ pasts. EachPair (IsCoordPastOf (length head.now.kinds)) logs.now.coords.items pasts.coords.items) }
    ensures refused { (file : Spot → Option File) (resume : Bool) → AreAttached file resume (length head.now.kinds) head.now.coords logs.now.members.items logs.now.coords.items →
        IfErr result (IsUnopened file head.now resume) }
    ensures faults { IfErr result IsOfTelling }
{
    let count = head.kinds.len() as u8;
    let members = member_pasts(alloc, logs.members.as_slice(), head.coords)?;
    let coords = coord_pasts(alloc, logs.coords.as_slice(), count)?;
    Ok(Pasts { members, coords })
}

/// What the logs of all nodes tell, each of which is to be of version 2.
pub(crate) fn judge(alloc: Global, head: &Head, logs: &Logs) -> Result<Pasts, WorldFault>
    requires { (file : Spot → Option File) × (resume : Bool) × AreAttached file resume (length head.now.kinds) head.now.coords logs.now.members.items logs.now.coords.items }
    ensures judged { (file : Spot → Option File) (resume : Bool) → AreAttached file resume (length head.now.kinds) head.now.coords logs.now.members.items logs.now.coords.items →
        IfOk result (λ pasts. AreJudged file resume head.now logs.now.members.items logs.now.coords.items pasts.members.items pasts.coords.items) }
    ensures refused { (file : Spot → Option File) (resume : Bool) → AreAttached file resume (length head.now.kinds) head.now.coords logs.now.members.items logs.now.coords.items →
        IfErr result (IsUnopened file head.now resume) }
    ensures faults { IfErr result IsOfJudging }
{
    let pasts = tell(alloc, head, logs)?;
    refuse_old(logs.members.as_slice())?;
    refuse_old(logs.coords.as_slice())?;
    Ok(pasts)
}
