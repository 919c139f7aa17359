//! Messages to a member.
ghost use Rattle.std.specs.Prelude.{◌≡◌, [], IfOk};
ghost use Rattle.co_base.specs.declared.head.Kind.{Kind};
ghost use Rattle.co_plain.specs.declared.member_state.MemberState.{MemberState};
ghost use Rattle.co_record.specs.declared.record.Record.TheVariants as log;
ghost use Rattle.co_member.specs.Plans.{commit_plan, abort_plan, decide_plan, deliver_plan, marked, plan_of, txn_of};
ghost use Rattle.co_member.specs.Standing.{RepresentsRunning};
ghost use Rattle.co_undecided.specs.Pins.{pins_in};

use crate::plan::{Change, Course, Plan, drops, says, sends};
use crate::running::Running;
use co_base::{Bytes, Txn};
use co_engine::Engine;
use co_message::{Answer, Message};
use co_node::Writes;
use co_plain::Standing;
use co_record::Record;
use std::alloc::{AllocError, Global};

/// The record of a commit here, which names no members.
pub(crate) fn commit_record(alloc: Global, t: Txn) -> Record
    ensures { result ≡ log.Commit t [] }
{
    Record::Commit {
        txn: t,
        members: Bytes::new(alloc),
    }
}

/// The decision to commit comes: of a voted transaction it is forced before it is acknowledged.
fn commit_plan(alloc: Global, member: u8, t: Txn, coord: u8, standing: Standing) -> Plan
    ensures { result ≡ commit_plan member t coord standing }
{
    let ack = Message::Ack {
        txn: t,
        member,
        coord,
    };
    match standing {
        Standing::IsVoted => Plan {
            writes: Writes::Forces(commit_record(alloc, t)),
            change: Change::Installs,
            answer: Answer::Installed,
            sent: Some(ack),
        },
        Standing::IsInstalled => sends(Answer::Already, ack),
        Standing::IsActive | Standing::IsAbsent => says(Answer::Absent),
    }
}

/// The decision to abort comes: what had voted leaves an abort record that waits.
fn abort_plan(t: Txn, standing: Standing) -> Plan
    ensures { result ≡ abort_plan t standing }
{
    match standing {
        Standing::IsActive => drops(Answer::Dropped, None),
        Standing::IsVoted => Plan {
            writes: Writes::Keeps(Record::Abort { txn: t }),
            change: Change::Drops,
            answer: Answer::Dropped,
            sent: None,
        },
        Standing::IsInstalled => says(Answer::Already),
        Standing::IsAbsent => says(Answer::Absent),
    }
}

/// A decision comes.
fn decide_plan(
    alloc: Global,
    member: u8,
    t: Txn,
    coord: u8,
    commit: bool,
    standing: Standing,
) -> Plan
    ensures { result ≡ decide_plan member t coord commit standing }
{
    if commit {
        commit_plan(alloc, member, t, coord, standing)
    } else {
        abort_plan(t, standing)
    }
}

/// The transaction that a message is about.
pub(crate) fn txn_of(message: &Message) -> Txn
    ensures { result ≡ txn_of message.now }
{
    match message {
        Message::Prepare { txn, .. }
        | Message::Vote { txn, .. }
        | Message::Decide { txn, .. }
        | Message::Ask { txn, .. }
        | Message::Ack { txn, .. } => *txn,
    }
}

impl<E: Engine> Running<E> {
    /// A prepare of an active transaction is marked before the ballot on it.
    pub(crate) fn take_note(&mut self, message: &Message)
        ensures stands { (kind : Kind) (x : MemberState) → RepresentsRunning E.stands_for kind self.old x → RepresentsRunning E.stands_for kind self.new (marked x message.now) }
        ensures pins { pins_in E.pins self.new.undecided ≡ pins_in E.pins self.old.undecided }
    {
        match message {
            Message::Prepare {
                txn,
                coord,
                member: _,
                count,
            } => self.mark(*txn, *coord, *count),
            Message::Decide { .. }
            | Message::Vote { .. }
            | Message::Ask { .. }
            | Message::Ack { .. } => (),
        }
    }

    /// A message comes. No member is sent a vote, a question or an acknowledgement.
    pub(crate) fn deliver_plan(
        &self,
        alloc: Global,
        member: u8,
        message: &Message,
    ) -> Result<Course, AllocError>
        ensures { (kind : Kind) (x : MemberState) → RepresentsRunning E.stands_for kind self.now x →
            IfOk result (λ course. plan_of course member x (txn_of message.now) ≡ deliver_plan member x message.now) }
    {
        match message {
            Message::Prepare {
                txn,
                coord,
                member: _,
                count,
            } => self.prepare_plan(member, *txn, *coord, *count),
            Message::Decide {
                txn,
                coord,
                member: _,
                commit,
            } => {
                let standing = self.standing(*txn);
                let plan = decide_plan(alloc, member, *txn, *coord, *commit, standing);
                Ok(Course::Carries(plan))
            }
            Message::Vote { .. } | Message::Ask { .. } | Message::Ack { .. } => {
                Ok(Course::Carries(says(Answer::Absent)))
            }
        }
    }
}
