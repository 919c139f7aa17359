//! What a reader sees at a multiversion member behind a line of a schedule, if it stays up to the end.
ghost use Rattle.std.specs.Prelude.{◌≡◌, ◌≤◌, ◌++◌, ℕ, List, Some, false, IfErr, IfOk, OnOk, IsErrOf};
ghost use Rattle.std.specs.Ordering.{is_gt};
ghost use Rattle.co_base.specs.Letters.{IsText, most_key_bytes};
ghost use Rattle.co_base.specs.Order.{key_cmp};
ghost use Rattle.co_base.specs.declared.head.Kind.{Kind};
ghost use Rattle.co_outside.specs.Faults.{HasRisen};
ghost use Rattle.co_schedule.specs.Words.{behind};
ghost use Rattle.co_top.specs.Following.{IsFollowedEnd, IsOfFollowed, IsOfSchedule, IsUnreached};
ghost use Rattle.co_top.specs.Looking.{LookedAfter, HasLooked, looked_words, looked_text, text_of_looked};
ghost use Rattle.co_top.specs.Replayed.{status_of};
ghost use Rattle.co_top.specs.Sights.{IsAsk, ask_for};
ghost use Rattle.co_top.specs.Telling.{IsTextPut};

use crate::following::reached;
use crate::playing::put;
use crate::reader::{Ask, Looked};
use crate::status::Status;
use co_base::{Range, Reply};
use co_engine::Engine;
use co_outside::{Sink, Source};
use co_schedule::{append_word, key_of};
use co_transcript::append_reply;
use std::alloc::{AllocError, Global};

/// What a reader asks for, out of the words of a command.
fn ask_of(alloc: Global, member: u8, line: u32, low: &str, high: &str) -> Result<Ask, AllocError>
    requires texts { IsText most_key_bytes low.now × IsText most_key_bytes high.now }
    requires order { is_gt (key_cmp low.now high.now) ≡ false }
    ensures { IfOk result (λ ask. ask ≡ ask_for member line low.now high.now) }
{
    let low = key_of(alloc, low.as_bytes())?;
    let high = key_of(alloc, high.as_bytes())?;
    match Range::new(low, high) {
        Ok(range) => Ok(Ask {
            member,
            line,
            range,
        }),
        Err(_) => unreachable!(),
    }
}

/// Appends what a reader came to, each word behind a space.
fn append_looked(out: &mut Vec<u8>, seen: Looked) -> Result<(), AllocError>
    ensures { OnOk result (out.new.items ≡ out.old.items ++ behind (looked_words seen)) }
{
    match seen {
        Looked::Rows(rows) => append_reply(out, &Reply::Rows(rows)),
        Looked::NoMember => {
            append_word(out, b"no")?;
            append_word(out, b"member")
        }
        Looked::Unopened => append_word(out, b"unopened"),
        Looked::NotMv => {
            append_word(out, b"not")?;
            append_word(out, b"mv")
        }
        Looked::Down => append_word(out, b"down"),
        Looked::Lost => append_word(out, b"lost"),
    }
}

/// Puts the line of what a reader came to.
fn tell_looked<K: Sink>(alloc: Global, out: &mut K, seen: Looked) -> Result<(), Status>
    ensures told { IsTextPut (looked_text seen) (K.told out.old) (K.told out.new) result }
    ensures failed { IsErrOf result Status.Write → HasRisen (K.faults out.old) (K.faults out.new) }
    ensures quiet { (IsErrOf result Status.Write → ⊥) → K.faults out.new ≡ K.faults out.old }
{
    let mut text = Vec::new(alloc);
    append_looked(&mut text, seen)?;
    text.push(b'\n')?;
    put(alloc, out, &text[1..])
}

/// Replays the schedule of the source over fresh logs in a directory in memory, and tells what a reader comes to that asks for the records of a range at a member, as the member has installed them behind a
/// line. `Looked::Rows` comes exactly where the head has the member, the schedule has the line, the engine of the member is multiversion, and the member is up behind that line and all later ones; else the
/// first of these that does not hold is told. What is told are the records of the serial run, in decision order, of the transactions that the member had installed by then.
///
/// `Schedule` comes at the first line outside the grammar, `Limit` at a long line, at line 262,145, at 65,536 transactions and where a log would be too long, `Read` where the source failed, all before any
/// answer; else the error is want of memory. The engine is one that takes every kind.
pub fn look_after<E: Engine + Drop, S: Source>(
    alloc: Global,
    source: &mut S,
    ask: Ask,
) -> Result<Looked, Status>
    requires kinds { (kind : Kind) → E.takes kind }
    requires ask { IsAsk ask }
    ensures looked { (input : List ℕ) → S.left source.old ≡ Some input → IfOk result (LookedAfter input ask) }
    ensures unreached { (input : List ℕ) → S.left source.old ≡ Some input → IfErr result (IsUnreached input) }
    ensures own { IfErr result IsOfSchedule }
    ensures read { IsErrOf result Status.Read → HasRisen (S.faults source.old) (S.faults source.new) }
    ensures quiet { (IsErrOf result Status.Read → ⊥) → S.faults source.new ≡ S.faults source.old }
{
    let asked = Some(ask);
    let (world, seen) = reached::<E, S>(alloc, source, &asked)?;
    drop(world);
    Ok(seen)
}

/// Puts the line of what a reader comes to.
fn told_looked<E: Engine + Drop, S: Source, K: Sink>(
    alloc: Global,
    member: u8,
    line: u32,
    low: &str,
    high: &str,
    source: &mut S,
    out: &mut K,
) -> Result<(), Status>
    requires kinds { (kind : Kind) → E.takes kind }
    requires numbers { (1 ≤ member) × (1 ≤ line) }
    requires texts { IsText most_key_bytes low.now × IsText most_key_bytes high.now }
    requires order { is_gt (key_cmp low.now high.now) ≡ false }
    ensures end { (input held : List ℕ) → S.left source.old ≡ Some input → K.told out.old ≡ Some held →
        IsFollowedEnd input (HasLooked (ask_for member line low.now high.now)) (text_of_looked (ask_for member line low.now high.now)) held (K.told out.new) (status_of result) }
    ensures own { IsOfFollowed (status_of result) }
    ensures read { IsErrOf result Status.Read → HasRisen (S.faults source.old) (S.faults source.new) }
    ensures write { IsErrOf result Status.Write → HasRisen (K.faults out.old) (K.faults out.new) }
    ensures quiet_source { (IsErrOf result Status.Read → ⊥) → S.faults source.new ≡ S.faults source.old }
    ensures quiet_sink { (IsErrOf result Status.Write → ⊥) → K.faults out.new ≡ K.faults out.old }
{
    let ask = ask_of(alloc, member, line, low, high)?;
    let seen = look_after::<E, S>(alloc, source, ask)?;
    tell_looked(alloc, out, seen)
}

/// Replays the schedule of the source over fresh logs in a directory in memory, and puts the line of what a reader comes to that asks for the records from `low` to `high` at a member behind a line. The
/// engine is one that takes every kind.
pub(crate) fn look<E: Engine + Drop, S: Source, K: Sink>(
    alloc: Global,
    member: u8,
    line: u32,
    low: &str,
    high: &str,
    source: &mut S,
    out: &mut K,
) -> Status
    requires kinds { (kind : Kind) → E.takes kind }
    requires numbers { (1 ≤ member) × (1 ≤ line) }
    requires texts { IsText most_key_bytes low.now × IsText most_key_bytes high.now }
    requires order { is_gt (key_cmp low.now high.now) ≡ false }
    ensures end { (input held : List ℕ) → S.left source.old ≡ Some input → K.told out.old ≡ Some held →
        IsFollowedEnd input (HasLooked (ask_for member line low.now high.now)) (text_of_looked (ask_for member line low.now high.now)) held (K.told out.new) result }
    ensures own { IsOfFollowed result }
    ensures read { result ≡ Status.Read → HasRisen (S.faults source.old) (S.faults source.new) }
    ensures write { result ≡ Status.Write → HasRisen (K.faults out.old) (K.faults out.new) }
    ensures quiet_source { (result ≡ Status.Read → ⊥) → S.faults source.new ≡ S.faults source.old }
    ensures quiet_sink { (result ≡ Status.Write → ⊥) → K.faults out.new ≡ K.faults out.old }
{
    match told_looked::<E, S, K>(alloc, member, line, low, high, source, out) {
        Ok(()) => Status::Done,
        Err(status) => status,
    }
}
