//! Calls of an engine, one by one, and questions between them.
ghost use Rattle.std.specs.Prelude.{IsTrue};
ghost use Rattle.co_pairs.specs.Free.{are_free};

use crate::commands::command;
use crate::kept::Keeps;
use crate::rows::{RowFault, cut, number_of, record_of, txn_of};
use crate::setups::{is_setup, rows_of};
use crate::stays::{Stays, stay_of};
use crate::texts::{put_dumped, put_key, put_number, put_seen};
use co_base::{Key, Kind, Txn, Value};
use co_engine::{Command, Engine, Seen};
use co_pairs::{Prepared, Sets};
use std::alloc::{AllocError, Global};

/// Makes the call of a command. Gives what an operation came to.
pub(crate) fn call<E: Engine>(
    alloc: Global,
    engine: &mut E,
    command: &Command,
) -> Result<Option<Seen>, AllocError> {
    let seen = match command {
        Command::Read { txn, key } => engine.read(alloc, *txn, key)?,
        Command::Scan { txn, range } => engine.scan(alloc, *txn, range)?,
        Command::Write { txn, key, value } => { engine.write(alloc, *txn, key, value.as_ref())? }
        Command::Cast(txn) => {
            engine.cast(*txn);
            return Ok(None);
        }
        Command::Install(txn) => {
            engine.install(alloc, *txn)?;
            return Ok(None);
        }
        Command::Drop(txn) => {
            engine.drop_txn(*txn);
            return Ok(None);
        }
    };
    Ok(Some(seen))
}

/// Makes the call of a command and appends what it came to.
fn put_called<E: Engine>(
    alloc: Global,
    engine: &mut E,
    command: &Command,
    into: &mut Vec<u8>,
) -> Result<(), AllocError> {
    match call(alloc, engine, command)? {
        Some(seen) => put_seen(&seen, into),
        None => into.extend_from_slice(b"done"),
    }
}

/// Makes the call that a row spells and appends what it came to.
fn put_call<E: Engine>(
    alloc: Global,
    engine: &mut E,
    row: &[u8],
    into: &mut Vec<u8>,
) -> Result<(), RowFault> {
    let command = command(alloc, row)?;
    Ok(put_called(alloc, engine, &command, into)?)
}

/// Whether a transaction wrote a record. It is installed.
fn commits<E: Engine>(
    alloc: Global,
    engine: &mut E,
    t: Txn,
    key: &Key,
    value: &Value,
) -> Result<bool, AllocError> {
    let seen = engine.write(alloc, t, key, Some(value))?;
    engine.cast(t);
    engine.install(alloc, t)?;
    Ok(matches!(seen, Seen::Answer(_)))
}

/// How many of a thousand transactions wrote a record. They are installed.
fn thousand<E: Engine>(
    alloc: Global,
    engine: &mut E,
    first: u32,
    key: &Key,
    value: &Value,
) -> Result<u64, AllocError> {
    let mut count: u64 = 0;
    for t in first..first.saturating_add(1000) {
        if commits(alloc, engine, Txn(t), key, value)? {
            count = count.saturating_add(1);
        }
    }
    Ok(count)
}

/// Appends how many of a thousand transactions wrote `x`.
fn put_thousand<E: Engine>(
    alloc: Global,
    engine: &mut E,
    words: &[u8],
    into: &mut Vec<u8>,
) -> Result<(), RowFault> {
    let (first, value) = cut(words);
    let (key, value) = record_of(alloc, b"x", value)?;
    let count = thousand(alloc, engine, number_of(first), &key, &value)?;
    into.extend_from_slice(b"written")?;
    Ok(put_number(count, into)?)
}

/// Appends how many ranges were read, and how many keys were written.
fn put_sets(sets: &Sets, into: &mut Vec<u8>) -> Result<(), AllocError> {
    into.extend_from_slice(b"reads")?;
    put_number(sets.reads().len() as u64, into)?;
    into.extend_from_slice(b" writes")?;
    put_number(sets.writes().len() as u64, into)
}

/// Appends the records as an engine keeps them, and what leads back.
pub(crate) fn put_dump<E: Engine>(
    alloc: Global,
    engine: &E,
    into: &mut Vec<u8>,
) -> Result<(), AllocError> {
    let dump = engine.dump(alloc)?;
    put_dumped(&dump, into)
}

/// Appends what a row tells. It is a call, or one of these questions: `stale NUMBER` asks for the least key that was overwritten
/// since the transaction read it, `sets NUMBER` how many ranges it read and how many keys it wrote, `dump` for the records as they are kept
/// and what leads back, `kept KEY` for what is kept of a key; `thousand NUMBER VALUE` is a thousand transactions, from this number on,
/// that each write `x` and are installed. `pin ID`, `look ID FROM TO` and `unpin ID` are those of a reader that stays.
fn put_told<E: Engine + Keeps + Stays>(
    alloc: Global,
    engine: &mut E,
    row: &[u8],
    into: &mut Vec<u8>,
) -> Result<(), RowFault> {
    let (word, rest) = cut(row);
    match word {
        b"stale" => Ok(put_key(engine.stale(txn_of(rest)), into)?),
        b"sets" => Ok(put_sets(engine.sets(txn_of(rest)), into)?),
        b"dump" => Ok(put_dump(alloc, engine, into)?),
        b"kept" => Ok(engine.put_kept(alloc, rest, into)?),
        b"thousand" => put_thousand(alloc, engine, rest, into),
        b"pin" | b"look" | b"unpin" => Ok(engine.put_stayed(alloc, &stay_of(alloc, row)?, into)?),
        _ => put_call(alloc, engine, row, into),
    }
}

/// Appends what calls and questions tell, a line each.
fn put_lines<E: Engine + Keeps + Stays>(
    alloc: Global,
    engine: &mut E,
    lines: &[&[u8]],
    into: &mut Vec<u8>,
) -> Result<(), RowFault> {
    for line in lines {
        if !is_setup(line) {
            put_told(alloc, engine, line, into)?;
            into.push(b'\n')?;
        }
    }
    Ok(())
}

/// Appends what calls and questions tell of an engine that begins so, a line each.
pub(crate) fn put_told_by_asks<E: Engine + Keeps + Stays + Drop>(
    alloc: Global,
    kind: Kind,
    voted: &[Prepared],
    lines: &[&[u8]],
    into: &mut Vec<u8>,
) -> Result<(), RowFault>
    requires taken { E.takes kind }
    requires free { IsTrue (are_free voted.now) }
{
    let mut engine = E::restore(alloc, kind, rows_of(alloc, lines)?, voted)?;
    put_lines(alloc, &mut engine, lines, into)
}
