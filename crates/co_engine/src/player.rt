//! Lists of calls, played on an engine.
ghost use Rattle.std.specs.Prelude.{◌≡◌, IsTrue, IfOk, OnOk};
ghost use Rattle.co_base.specs.declared.op.Op.TheVariants as op;
ghost use Rattle.co_pairs.specs.Free.{are_free};
ghost use Rattle.co_engine.specs.declared.command.Command.TheVariants as command;
ghost use Rattle.co_engine.specs.Calls.{may_operate, votes_of, writing};
ghost use Rattle.co_engine.specs.Known.{IsKnown, IsServed};
ghost use Rattle.co_engine.specs.Play.{ArePlayed, IsSeen};
ghost use Rattle.co_state.specs.declared.engine_state.EngineState.{EngineState};
ghost use Rattle.co_state.specs.Effects.{restored, records_from, after_operation};

use crate::answers::Seen;
use crate::command::{Answers, Command, Played};
use crate::engine::Engine;
use crate::known::Known;
use co_base::{Key, Kind, Range, Rows, Txn, Value};
use co_pairs::Prepared;
use std::alloc::{AllocError, Global};

/// Reads a record, unless the transaction has voted or has been installed.
fn serve_read<E: Engine>(
    alloc: Global,
    engine: &mut E,
    known: &mut Known,
    t: Txn,
    key: &Key,
) -> Result<Played, AllocError>
    ensures { (b : EngineState) → E.stands_for engine.old b → IsKnown known.old b → IfOk result (λ played. IsServed E.stands_for b (command.Read t key.now) engine.new known.new played) }
{
    if !known.operates(t) {
        return Ok(Played::Refused);
    }
    let seen = engine.read(alloc, t, key)?;
    known.note(t, &seen)?;
    Ok(Played::Seen(seen))
}

/// Reads the records of a range, unless the transaction has voted or has been installed.
fn serve_scan<E: Engine>(
    alloc: Global,
    engine: &mut E,
    known: &mut Known,
    t: Txn,
    range: &Range,
) -> Result<Played, AllocError>
    ensures { (b : EngineState) → E.stands_for engine.old b → IsKnown known.old b → IfOk result (λ played. IsServed E.stands_for b (command.Scan t range.now) engine.new known.new played) }
{
    if !known.operates(t) {
        return Ok(Played::Refused);
    }
    let seen = engine.scan(alloc, t, range)?;
    known.note(t, &seen)?;
    Ok(Played::Seen(seen))
}

/// Writes a record or takes it away, unless the transaction has voted or has been installed.
fn serve_write<E: Engine>(
    alloc: Global,
    engine: &mut E,
    known: &mut Known,
    t: Txn,
    key: &Key,
    value: &Option<Value>,
) -> Result<Played, AllocError>
    ensures { (b : EngineState) → E.stands_for engine.old b → IsKnown known.old b → IfOk result (λ played. IsServed E.stands_for b (command.Write t key.now value.now) engine.new known.new played) }
{
    if !known.operates(t) {
        return Ok(Played::Refused);
    }
    let seen = engine.write(alloc, t, key, value.as_ref())?;
    known.note(t, &seen)?;
    Ok(Played::Seen(seen))
}

/// Makes an active transaction a voted one.
fn serve_cast<E: Engine>(engine: &mut E, known: &mut Known, t: Txn) -> Result<Played, AllocError>
    ensures { (b : EngineState) → E.stands_for engine.old b → IsKnown known.old b → IfOk result (λ played. IsServed E.stands_for b (command.Cast t) engine.new known.new played) }
{
    if !known.active.contains(t) {
        return Ok(Played::Refused);
    }
    engine.cast(t);
    known.cast(t)?;
    Ok(Played::Done)
}

/// Commits a voted transaction.
fn serve_install<E: Engine>(
    alloc: Global,
    engine: &mut E,
    known: &mut Known,
    t: Txn,
) -> Result<Played, AllocError>
    ensures { (b : EngineState) → E.stands_for engine.old b → IsKnown known.old b → IfOk result (λ played. IsServed E.stands_for b (command.Install t) engine.new known.new played) }
{
    if !known.voted.contains(t) {
        return Ok(Played::Refused);
    }
    engine.install(alloc, t)?;
    known.install(t)?;
    Ok(Played::Done)
}

/// Forgets an active or voted transaction.
fn serve_drop<E: Engine>(engine: &mut E, known: &mut Known, t: Txn) -> Played
    ensures { (b : EngineState) → E.stands_for engine.old b → IsKnown known.old b → IsServed E.stands_for b (command.Drop t) engine.new known.new result }
{
    if !known.active.contains(t) && !known.voted.contains(t) {
        return Played::Refused;
    }
    engine.drop_txn(t);
    known.drop_txn(t);
    Played::Done
}

/// Plays one command.
fn serve<E: Engine>(
    alloc: Global,
    engine: &mut E,
    known: &mut Known,
    command: &Command,
) -> Result<Played, AllocError>
    ensures { (b : EngineState) → E.stands_for engine.old b → IsKnown known.old b → IfOk result (λ played. IsServed E.stands_for b command.now engine.new known.new played) }
{
    match command {
        Command::Read { txn, key } => serve_read(alloc, engine, known, *txn, key),
        Command::Scan { txn, range } => serve_scan(alloc, engine, known, *txn, range),
        Command::Write { txn, key, value } => serve_write(alloc, engine, known, *txn, key, value),
        Command::Cast(txn) => serve_cast(engine, known, *txn),
        Command::Install(txn) => serve_install(alloc, engine, known, *txn),
        Command::Drop(txn) => Ok(serve_drop(engine, known, *txn)),
    }
}

/// Restores an engine and plays commands on it, one after another. A command whose condition is not met
/// is refused and changes nothing. The prepared transactions have different numbers and no conflicts
/// with each other.
pub fn play<E: Engine + Drop>(
    alloc: Global,
    kind: Kind,
    rows: Rows,
    voted: &[Prepared],
    commands: &[Command],
) -> Result<Answers, AllocError>
    requires taken { E.takes kind }
    requires free { IsTrue (are_free voted.now) }
    ensures { IfOk result (λ answers. ArePlayed (restored kind (records_from rows) (votes_of voted.now)) commands.now answers) }
{
    let mut known = Known::restored(alloc, voted)?;
    let mut engine: E = E::restore(alloc, kind, rows, voted)?;
    let mut answers = Answers::new(alloc);
    for command in commands {
        let played = serve(alloc, &mut engine, &mut known, command)?;
        answers.push(played)?;
    }
    Ok(answers)
}
