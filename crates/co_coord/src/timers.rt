//! Timers, and what is sent again.
ghost use Rattle.std.specs.Prelude.{◌≡◌, IfOk};
ghost use Rattle.co_state.specs.Table.{look};
ghost use Rattle.co_coord.specs.Plans.{timer_plan, resend_plan};

use crate::messages::{aborts, decisions_to, least_waiting, parts_lacking, prepares_to};
use crate::plan::{Change, Plan, says, sends, turns};
use co_base::Txn;
use co_message::{Answer, Cause, Messages};
use co_plain::{Entry, numbers_lacking};
use co_state::Table;
use std::alloc::{AllocError, Global};

/// The timer of a transaction fires: only what is not decided may end.
pub(crate) fn timer_plan(
    alloc: Global,
    coord: u8,
    txn: Txn,
    table: &Table<Entry>,
) -> Result<Plan, AllocError>
    ensures { IfOk result (λ plan. plan ≡ timer_plan coord txn (look table.now txn)) }
{
    match table.get(txn) {
        None => Ok(says(alloc, Answer::Unknown)),
        Some(Entry::Idle) => Ok(turns(
            Change::Leaves,
            Answer::Aborted(Cause::Timer),
            Messages::new(alloc),
        )),
        Some(Entry::Collecting { parts, yeses: _ }) => {
            aborts(alloc, coord, txn, Cause::Timer, parts.as_slice())
        }
        Some(
            Entry::Committed {
                members: _,
                acks: _,
            },
        ) => Ok(says(alloc, Answer::Decided)),
    }
}

/// What was not answered is sent again.
pub(crate) fn resend_plan(
    alloc: Global,
    coord: u8,
    txn: Txn,
    table: &Table<Entry>,
) -> Result<Plan, AllocError>
    ensures { IfOk result (λ plan. plan ≡ resend_plan coord txn (look table.now txn)) }
{
    match table.get(txn) {
        None => Ok(says(alloc, Answer::Unknown)),
        Some(Entry::Idle) => Ok(says(alloc, Answer::Idle)),
        Some(Entry::Collecting { parts, yeses }) => {
            let member = least_waiting(alloc, parts.as_slice(), yeses.as_slice())?;
            let lacking = parts_lacking(alloc, parts.as_slice(), yeses.as_slice())?;
            let sent = prepares_to(alloc, coord, txn, lacking.as_slice())?;
            Ok(sends(Answer::Waiting(member), Messages::of(sent)))
        }
        Some(Entry::Committed { members, acks }) => {
            let lacking = numbers_lacking(alloc, members.as_slice(), acks.as_slice())?;
            let sent = decisions_to(alloc, coord, txn, true, lacking.as_slice())?;
            Ok(sends(Answer::Decided, Messages::of(sent)))
        }
    }
}
