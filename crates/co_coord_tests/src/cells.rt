//! Messages that find a transaction idle, collecting or committed.
ghost use Rattle.std.specs.Prelude.{OnOk};
ghost use Rattle.co_coord_tests.specs.Played.{IsPlayed};

use crate::calls::{COORD, begin, commit, deliver};
use crate::opened::opened;
use anyhow::{Result, bail};
use co_base::{Part, Txn};
use co_coord::Coord;
use co_message::{Answer, Message};
use co_outside::HomeMemory;
use std::alloc::Global;

/// The transaction.
const TXN: Txn = Txn(1);

/// Its participants.
const PARTS: [Part; 2] = [
    Part {
        member: 1,
        count: 1,
    },
    Part {
        member: 2,
        count: 1,
    },
];

/// The vote of a member.
fn vote(member: u8, yes: bool) -> Message {
    Message::Vote {
        txn: TXN,
        member,
        coord: COORD,
        yes,
    }
}

/// The question of the first participant.
fn ask() -> Message {
    Message::Ask {
        txn: TXN,
        member: 1,
        coord: COORD,
    }
}

/// The acknowledgement of the first participant.
fn ack() -> Message {
    Message::Ack {
        txn: TXN,
        member: 1,
        coord: COORD,
    }
}

/// An answer in a word.
fn word(answer: &Answer) -> &'static str {
    match answer {
        Answer::Idle => "idle",
        Answer::Waiting(_) => "waiting",
        Answer::Committed => "committed",
        Answer::Decided => "decided",
        _ => "another",
    }
}

/// The transaction is begun.
fn start(alloc: Global, home: &HomeMemory, coord: &mut Coord) -> Result<()>
    requires { IsPlayed home.now coord.old }
    ensures { OnOk result (IsPlayed home.now coord.new) }
{
    if !coord.up() {
        bail!("the coordinator is down");
    }
    begin(alloc, home, coord, TXN)?;
    Ok(())
}

/// Its commit is asked for.
fn end(alloc: Global, home: &mut HomeMemory, coord: &mut Coord) -> Result<()>
    requires { IsPlayed home.old coord.old }
    ensures { OnOk result (IsPlayed home.new coord.new) }
{
    if !coord.up() {
        bail!("the coordinator is down");
    }
    commit(alloc, home, coord, TXN, &PARTS)?;
    Ok(())
}

/// What a message is answered.
fn answered(home: &mut HomeMemory, coord: &mut Coord, message: &Message) -> Result<&'static str>
    requires { IsPlayed home.old coord.old }
    ensures { OnOk result (IsPlayed home.new coord.new) }
{
    if !coord.up() {
        bail!("the coordinator is down");
    }
    let told = deliver(home, coord, message)?;
    Ok(word(&told.answer))
}

/// What the last of these messages is answered.
fn last_answer(
    home: &mut HomeMemory,
    coord: &mut Coord,
    messages: &[Message],
) -> Result<&'static str>
    requires { IsPlayed home.old coord.old }
{
    let [before @ .., last] = messages else {
        bail!("there is no message");
    };
    for message in before {
        answered(home, coord, message)?;
    }
    answered(home, coord, last)
}

/// The transaction is begun, and is asked for its commit or not.
fn open(alloc: Global, home: &mut HomeMemory, coord: &mut Coord, is_asked: bool) -> Result<()>
    requires { IsPlayed home.old coord.old }
    ensures { OnOk result (IsPlayed home.new coord.new) }
{
    start(alloc, home, coord)?;
    if is_asked {
        return end(alloc, home, coord);
    }
    Ok(())
}

/// What the last of these messages is answered behind that.
fn answer_behind(
    alloc: Global,
    home: &mut HomeMemory,
    coord: &mut Coord,
    is_asked: bool,
    messages: &[Message],
) -> Result<&'static str>
    requires { IsPlayed home.old coord.old }
{
    open(alloc, home, coord, is_asked)?;
    last_answer(home, coord, messages)
}

/// The same at a new coordinator.
fn answer(alloc: Global, is_asked: bool, messages: &[Message]) -> Result<&'static str> {
    let mut home = HomeMemory::new(alloc, Vec::new(alloc));
    let mut coord = opened(alloc, &mut home)?;
    answer_behind(alloc, &mut home, &mut coord, is_asked, messages)
}

/// Whether the last of these messages is answered so.
fn is_answered(alloc: Global, is_asked: bool, messages: &[Message], wanted: &'static str) -> bool {
    match answer(alloc, is_asked, messages) {
        Ok(told) => told == wanted,
        Err(_) => false,
    }
}

#[test]
fn no_message_of_a_member_moves_an_idle_transaction(rt: HostRuntime) {
    for message in [vote(1, true), vote(1, false), ask(), ack()] {
        assert!(rt; is_answered(rt.alloc(), false, &[message], "idle"));
    }
}

#[test]
fn an_acknowledgement_leaves_a_collecting_transaction(rt: HostRuntime) {
    assert!(rt; is_answered(rt.alloc(), true, &[ack()], "waiting"));
}

#[test]
fn a_no_behind_the_commit_comes_too_late(rt: HostRuntime) {
    let messages = [vote(1, true), vote(2, true), vote(1, false)];
    assert!(rt; is_answered(rt.alloc(), true, &messages, "decided"));
}
