//! Messages to participants, and who lacks one.
ghost use Rattle.std.specs.Prelude.{◌≡◌, IfOk};
ghost use Rattle.co_plain.specs.CoordStep.{members_of};
ghost use Rattle.co_plain.specs.Coordinator.{prepares_to, decisions_to, parts_lacking, member_or_none};
ghost use Rattle.co_plain.specs.Numbers.{first_lacking};
ghost use Rattle.co_coord.specs.Plans.{waits, aborts};

use crate::plan::{Change, Plan, says, turns};
use co_base::{Part, Parts, Txn};
use co_message::{Answer, Cause, Message, Messages};
use co_plain::{first_lacking, has_number, members_of};
use std::alloc::{AllocError, Global};

/// A prepare to each participant.
pub(crate) fn prepares_to(
    alloc: Global,
    coord: u8,
    txn: Txn,
    parts: &[Part],
) -> Result<Vec<Message>, AllocError>
    ensures { IfOk result (λ messages. messages.items ≡ prepares_to coord txn parts.now) }
{
    parts
        .iter()
        .map(|part| Message::Prepare {
            txn,
            coord,
            member: part.member,
            count: part.count,
        })
        .collect(alloc)
}

/// The decision to each member.
pub(crate) fn decisions_to(
    alloc: Global,
    coord: u8,
    txn: Txn,
    commit: bool,
    members: &[u8],
) -> Result<Vec<Message>, AllocError>
    ensures { IfOk result (λ messages. messages.items ≡ decisions_to coord txn commit members.now) }
{
    members
        .iter()
        .map(|member| Message::Decide {
            txn,
            coord,
            member: *member,
            commit,
        })
        .collect(alloc)
}

/// The participants without a recorded yes.
pub(crate) fn parts_lacking(
    alloc: Global,
    parts: &[Part],
    yeses: &[u8],
) -> Result<Vec<Part>, AllocError>
    ensures { IfOk result (λ lacking. lacking.items ≡ parts_lacking parts.now yeses.now) }
{
    parts
        .iter()
        .copied()
        .filter(|part| !has_number(yeses, part.member))
        .collect(alloc)
}

/// An equal list of participants.
pub(crate) fn copy_parts(alloc: Global, parts: &[Part]) -> Result<Parts, AllocError>
    ensures { IfOk result (λ copy. copy ≡ parts.now) }
{
    Ok(Parts::of(Vec::from_slice(alloc, parts)?))
}

/// The least participant without a yes; 0 where there is none.
pub(crate) fn least_waiting(alloc: Global, parts: &[Part], yeses: &[u8]) -> Result<u8, AllocError>
    ensures { IfOk result (λ member. member ≡ member_or_none (first_lacking (members_of parts.now) yeses.now)) }
{
    let members = members_of(alloc, parts)?;
    Ok(first_lacking(members.as_slice(), yeses).unwrap_or(0))
}

/// The least participant without a yes is waited for.
pub(crate) fn waits(alloc: Global, parts: &[Part], yeses: &[u8]) -> Result<Plan, AllocError>
    ensures { IfOk result (λ plan. plan ≡ waits parts.now yeses.now) }
{
    let member = least_waiting(alloc, parts, yeses)?;
    Ok(says(alloc, Answer::Waiting(member)))
}

/// A transaction leaves the table by this cause, and its participants are told.
pub(crate) fn aborts(
    alloc: Global,
    coord: u8,
    txn: Txn,
    cause: Cause,
    parts: &[Part],
) -> Result<Plan, AllocError>
    ensures { IfOk result (λ plan. plan ≡ aborts coord txn cause parts.now) }
{
    let members = members_of(alloc, parts)?;
    let sent = decisions_to(alloc, coord, txn, false, members.as_slice())?;
    Ok(turns(Change::Leaves, Answer::Aborted(cause), Messages::of(sent)))
}
