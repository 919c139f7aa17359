//! What clients ask of a coordinator.
ghost use Rattle.std.specs.Prelude.{◌≡◌, IfOk};
ghost use Rattle.co_state.specs.Table.{look};
ghost use Rattle.co_coord.specs.Plans.{decides_alone, prepares, ask_plan_of, begin_plan, commit_plan, abort_plan};

use crate::messages::{aborts, copy_parts, prepares_to, waits};
use crate::plan::{Change, Plan, says, turns};
use co_base::{Bytes, Part, Txn};
use co_message::{Answer, Cause, Messages};
use co_node::Writes;
use co_plain::Entry;
use co_record::Record;
use co_state::Table;
use std::alloc::{AllocError, Global};

/// A client begins: an idle entry.
pub(crate) fn begin_plan(alloc: Global) -> Plan
    ensures { result ≡ begin_plan }
{
    Plan {
        writes: Writes::Nothing,
        change: Change::Becomes(Entry::Idle),
        answer: Answer::Begun,
        sent: Messages::new(alloc),
    }
}

/// A transaction without participants is decided at once.
fn decides_alone(alloc: Global, txn: Txn) -> Plan
    ensures { result ≡ decides_alone txn }
{
    Plan {
        writes: Writes::Forces(Record::Commit {
            txn,
            members: Bytes::new(alloc),
        }),
        change: Change::Leaves,
        answer: Answer::Committed,
        sent: Messages::new(alloc),
    }
}

/// Each participant is asked to prepare, and the least one is waited for.
fn prepares(
    alloc: Global,
    coord: u8,
    txn: Txn,
    least: u8,
    parts: &[Part],
) -> Result<Plan, AllocError>
    ensures { IfOk result (λ plan. plan ≡ prepares coord txn least parts.now) }
{
    let kept = copy_parts(alloc, parts)?;
    let sent = prepares_to(alloc, coord, txn, parts)?;
    let entry = Entry::Collecting {
        parts: kept,
        yeses: Bytes::new(alloc),
    };
    Ok(turns(
        Change::Becomes(entry),
        Answer::Waiting(least),
        Messages::of(sent),
    ))
}

/// The commit of an idle transaction is asked. Without participants it is decided at once; else each is asked to prepare.
fn ask_plan_of(alloc: Global, coord: u8, txn: Txn, parts: &[Part]) -> Result<Plan, AllocError>
    ensures { IfOk result (λ plan. plan ≡ ask_plan_of coord txn parts.now) }
{
    match parts {
        [] => Ok(decides_alone(alloc, txn)),
        [first, ..] => prepares(alloc, coord, txn, first.member, parts),
    }
}

/// The client asks for the commit, with the participants of its session.
pub(crate) fn commit_plan(
    alloc: Global,
    coord: u8,
    txn: Txn,
    parts: &[Part],
    table: &Table<Entry>,
) -> Result<Plan, AllocError>
    ensures { IfOk result (λ plan. plan ≡ commit_plan coord txn parts.now (look table.now txn)) }
{
    match table.get(txn) {
        None => Ok(says(alloc, Answer::Unknown)),
        Some(Entry::Idle) => ask_plan_of(alloc, coord, txn, parts),
        Some(Entry::Collecting { parts, yeses }) => {
            waits(alloc, parts.as_slice(), yeses.as_slice())
        }
        Some(
            Entry::Committed {
                members: _,
                acks: _,
            },
        ) => Ok(says(alloc, Answer::Decided)),
    }
}

/// The client asks for the abort, with the participants of its session.
pub(crate) fn abort_plan(
    alloc: Global,
    coord: u8,
    txn: Txn,
    parts: &[Part],
    table: &Table<Entry>,
) -> Result<Plan, AllocError>
    ensures { IfOk result (λ plan. plan ≡ abort_plan coord txn parts.now (look table.now txn)) }
{
    match table.get(txn) {
        None => Ok(says(alloc, Answer::Unknown)),
        Some(Entry::Idle) => aborts(alloc, coord, txn, Cause::Client, parts),
        Some(Entry::Collecting { parts, yeses }) => {
            waits(alloc, parts.as_slice(), yeses.as_slice())
        }
        Some(
            Entry::Committed {
                members: _,
                acks: _,
            },
        ) => Ok(says(alloc, Answer::Decided)),
    }
}
