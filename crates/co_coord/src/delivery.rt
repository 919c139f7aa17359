//! Votes, questions and acknowledgements.
ghost use Rattle.std.specs.Prelude.{◌≡◌, ◌∷◌, [], IfOk};
ghost use Rattle.co_message.specs.declared.message.Message.TheVariants as message;
ghost use Rattle.co_plain.specs.CoordStep.{members_of};
ghost use Rattle.co_plain.specs.Numbers.{first_lacking};
ghost use Rattle.co_state.specs.Table.{look};
ghost use Rattle.co_coord.specs.Plans.{sends, commits, collects, decides, counts, forgets, yes_plan, no_plan, vote_plan, ask_plan, ends, acknowledged_plan, ack_plan, deliver_plan, txn_of};

use crate::messages::{aborts, copy_parts, decisions_to, waits};
use crate::plan::{Change, Plan, says, sends, turns};
use co_base::{Bytes, Part, Txn, copy_bytes};
use co_message::{Answer, Cause, Message, Messages};
use co_node::Writes;
use co_plain::{Entry, first_lacking, has_number, has_part, members_of, with_number};
use co_record::Record;
use co_state::Table;
use std::alloc::{AllocError, Global};

/// The last missing yes was counted: the commit is forced before any decision is sent.
fn commits(alloc: Global, coord: u8, txn: Txn, members: &[u8]) -> Result<Plan, AllocError>
    ensures { IfOk result (λ plan. plan ≡ commits coord txn members.now) }
{
    let named = copy_bytes(alloc, members)?;
    let kept = copy_bytes(alloc, members)?;
    let sent = decisions_to(alloc, coord, txn, true, members)?;
    Ok(Plan {
        writes: Writes::Forces(Record::Commit {
            txn,
            members: named,
        }),
        change: Change::Becomes(Entry::Committed {
            members: kept,
            acks: Bytes::new(alloc),
        }),
        answer: Answer::Committed,
        sent: Messages::of(sent),
    })
}

/// A yes was counted, and another one is waited for.
fn collects(alloc: Global, member: u8, parts: &[Part], yeses: Bytes) -> Result<Plan, AllocError>
    ensures { IfOk result (λ plan. plan ≡ collects member parts.now yeses) }
{
    let parts = copy_parts(alloc, parts)?;
    let entry = Entry::Collecting { parts, yeses };
    Ok(turns(
        Change::Becomes(entry),
        Answer::Waiting(member),
        Messages::new(alloc),
    ))
}

/// A yes was counted: the last missing one decides.
fn decides(
    alloc: Global,
    coord: u8,
    txn: Txn,
    parts: &[Part],
    yeses: Bytes,
) -> Result<Plan, AllocError>
    ensures { IfOk result (λ plan. plan ≡ decides coord txn parts.now yeses (first_lacking (members_of parts.now) yeses)) }
{
    let members = members_of(alloc, parts)?;
    match first_lacking(members.as_slice(), yeses.as_slice()) {
        None => commits(alloc, coord, txn, members.as_slice()),
        Some(member) => collects(alloc, member, parts, yeses),
    }
}

/// A yes comes while its transaction is collecting.
fn yes_plan(
    alloc: Global,
    coord: u8,
    txn: Txn,
    member: u8,
    parts: &[Part],
    yeses: &[u8],
) -> Result<Plan, AllocError>
    ensures { IfOk result (λ plan. plan ≡ yes_plan coord txn member parts.now yeses.now) }
{
    if has_part(parts, member) && !has_number(yeses, member) {
        let yeses = with_number(copy_bytes(alloc, yeses)?, member)?;
        decides(alloc, coord, txn, parts, yeses)
    } else {
        waits(alloc, parts, yeses)
    }
}

/// A no comes while its transaction is collecting.
fn no_plan(
    alloc: Global,
    coord: u8,
    txn: Txn,
    member: u8,
    parts: &[Part],
    yeses: &[u8],
) -> Result<Plan, AllocError>
    ensures { IfOk result (λ plan. plan ≡ no_plan coord txn member parts.now yeses.now) }
{
    if has_part(parts, member) {
        aborts(alloc, coord, txn, Cause::Vote, parts)
    } else {
        waits(alloc, parts, yeses)
    }
}

/// A vote comes.
fn vote_plan(
    alloc: Global,
    coord: u8,
    txn: Txn,
    member: u8,
    granted: bool,
    table: &Table<Entry>,
) -> Result<Plan, AllocError>
    ensures { IfOk result (λ plan. plan ≡ vote_plan coord txn member granted (look table.now txn)) }
{
    match table.get(txn) {
        None => Ok(says(alloc, Answer::Unknown)),
        Some(Entry::Idle) => Ok(says(alloc, Answer::Idle)),
        Some(Entry::Collecting { parts, yeses }) => {
            if granted {
                yes_plan(
                    alloc,
                    coord,
                    txn,
                    member,
                    parts.as_slice(),
                    yeses.as_slice(),
                )
            } else {
                no_plan(
                    alloc,
                    coord,
                    txn,
                    member,
                    parts.as_slice(),
                    yeses.as_slice(),
                )
            }
        }
        Some(
            Entry::Committed {
                members: _,
                acks: _,
            },
        ) => Ok(says(alloc, Answer::Decided)),
    }
}

/// One decision alone.
fn tells(
    alloc: Global,
    coord: u8,
    txn: Txn,
    member: u8,
    commit: bool,
    answer: Answer,
) -> Result<Plan, AllocError>
    ensures { IfOk result (λ plan. plan ≡ sends answer (message.Decide txn coord member commit ∷ [])) }
{
    let mut sent = Messages::new(alloc);
    sent.push(Message::Decide {
        txn,
        coord,
        member,
        commit,
    })?;
    Ok(sends(answer, sent))
}

/// A member in doubt asks. Who is not in the table is aborted.
fn ask_plan(
    alloc: Global,
    coord: u8,
    txn: Txn,
    member: u8,
    table: &Table<Entry>,
) -> Result<Plan, AllocError>
    ensures { IfOk result (λ plan. plan ≡ ask_plan coord txn member (look table.now txn)) }
{
    match table.get(txn) {
        None => tells(alloc, coord, txn, member, false, Answer::Unknown),
        Some(Entry::Idle) => Ok(says(alloc, Answer::Idle)),
        Some(Entry::Collecting { parts, yeses }) => {
            waits(alloc, parts.as_slice(), yeses.as_slice())
        }
        Some(
            Entry::Committed {
                members: _,
                acks: _,
            },
        ) => tells(alloc, coord, txn, member, true, Answer::Decided),
    }
}

/// An acknowledgement was counted, and another one is waited for.
fn counts(alloc: Global, members: &[u8], acks: Bytes) -> Result<Plan, AllocError>
    ensures { IfOk result (λ plan. plan ≡ counts members.now acks) }
{
    let members = copy_bytes(alloc, members)?;
    let entry = Entry::Committed { members, acks };
    Ok(turns(
        Change::Becomes(entry),
        Answer::Decided,
        Messages::new(alloc),
    ))
}

/// The last acknowledgement came: the coordinator forgets, and its end record waits.
fn forgets(alloc: Global, txn: Txn) -> Plan
    ensures { result ≡ forgets txn }
{
    Plan {
        writes: Writes::Keeps(Record::End { txn }),
        change: Change::Leaves,
        answer: Answer::Ended,
        sent: Messages::new(alloc),
    }
}

/// An acknowledgement was counted: after the last one the coordinator forgets, and its end record waits.
fn ends(alloc: Global, txn: Txn, members: &[u8], acks: Bytes) -> Result<Plan, AllocError>
    ensures { IfOk result (λ plan. plan ≡ ends txn members.now acks (first_lacking members.now acks)) }
{
    match first_lacking(members, acks.as_slice()) {
        None => Ok(forgets(alloc, txn)),
        Some(_) => counts(alloc, members, acks),
    }
}

/// An acknowledgement comes while its transaction is committed.
fn acknowledged_plan(
    alloc: Global,
    txn: Txn,
    member: u8,
    members: &[u8],
    acks: &[u8],
) -> Result<Plan, AllocError>
    ensures { IfOk result (λ plan. plan ≡ acknowledged_plan txn member members.now acks.now) }
{
    if has_number(members, member) && !has_number(acks, member) {
        let acks = with_number(copy_bytes(alloc, acks)?, member)?;
        ends(alloc, txn, members, acks)
    } else {
        Ok(says(alloc, Answer::Decided))
    }
}

/// An acknowledgement comes.
fn ack_plan(alloc: Global, txn: Txn, member: u8, table: &Table<Entry>) -> Result<Plan, AllocError>
    ensures { IfOk result (λ plan. plan ≡ ack_plan txn member (look table.now txn)) }
{
    match table.get(txn) {
        None => Ok(says(alloc, Answer::Unknown)),
        Some(Entry::Idle) => Ok(says(alloc, Answer::Idle)),
        Some(Entry::Collecting { parts, yeses }) => {
            waits(alloc, parts.as_slice(), yeses.as_slice())
        }
        Some(Entry::Committed { members, acks }) => {
            acknowledged_plan(alloc, txn, member, members.as_slice(), acks.as_slice())
        }
    }
}

/// A message comes, with the entry of its transaction. No coordinator is sent a prepare or a decision.
pub(crate) fn deliver_plan(
    alloc: Global,
    coord: u8,
    message: &Message,
    table: &Table<Entry>,
) -> Result<Plan, AllocError>
    ensures { IfOk result (λ plan. plan ≡ deliver_plan coord message.now (look table.now (txn_of message.now))) }
{
    match message {
        Message::Vote {
            txn,
            member,
            coord: _,
            yes,
        } => vote_plan(alloc, coord, *txn, *member, *yes, table),
        Message::Ask {
            txn,
            member,
            coord: _,
        } => ask_plan(alloc, coord, *txn, *member, table),
        Message::Ack {
            txn,
            member,
            coord: _,
        } => ack_plan(alloc, *txn, *member, table),
        Message::Prepare { .. } | Message::Decide { .. } => Ok(says(alloc, Answer::Unknown)),
    }
}

/// The transaction that a message is about.
pub(crate) fn txn_of(message: &Message) -> Txn
    ensures { result ≡ txn_of message.now }
{
    match message {
        Message::Prepare { txn, .. }
        | Message::Vote { txn, .. }
        | Message::Decide { txn, .. }
        | Message::Ask { txn, .. }
        | Message::Ack { txn, .. } => *txn,
    }
}
