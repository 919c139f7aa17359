//! The command that a row spells.
use crate::rows::{RowFault, cut, txn_of};
use co_base::{BaseFault, Key, Range, Txn, Value};
use co_engine::Command;
use std::alloc::Global;

fn read(alloc: Global, txn: Txn, key: &[u8]) -> Result<Command, BaseFault> {
    let key = Key::new(alloc, key)?;
    Ok(Command::Read { txn, key })
}

fn scan(alloc: Global, txn: Txn, lo: &[u8], hi: &[u8]) -> Result<Command, BaseFault> {
    let lo = Key::new(alloc, lo)?;
    let range = Range::new(lo, Key::new(alloc, hi)?)?;
    Ok(Command::Scan { txn, range })
}

fn write(alloc: Global, txn: Txn, key: &[u8], value: &[u8]) -> Result<Command, BaseFault> {
    let value = Some(Value::new(alloc, value)?);
    let key = Key::new(alloc, key)?;
    Ok(Command::Write { txn, key, value })
}

fn erase(alloc: Global, txn: Txn, key: &[u8]) -> Result<Command, BaseFault> {
    let key = Key::new(alloc, key)?;
    let value = None;
    Ok(Command::Write { txn, key, value })
}

/// The operation of a transaction, of a word and what stands behind its number.
fn operation(alloc: Global, word: &[u8], txn: Txn, words: &[u8]) -> Result<Command, RowFault> {
    let (first, second) = cut(words);
    let command = match word {
        b"read" => read(alloc, txn, first),
        b"scan" => scan(alloc, txn, first, second),
        b"write" => write(alloc, txn, first, second),
        b"erase" => erase(alloc, txn, first),
        _ => return Err(RowFault::Word),
    };
    Ok(command?)
}

/// The command that a row spells.
pub(crate) fn command(alloc: Global, row: &[u8]) -> Result<Command, RowFault> {
    let (word, rest) = cut(row);
    let (t, words) = cut(rest);
    let txn = txn_of(t);
    match word {
        b"cast" => Ok(Command::Cast(txn)),
        b"install" => Ok(Command::Install(txn)),
        b"drop" => Ok(Command::Drop(txn)),
        _ => operation(alloc, word, txn, words),
    }
}
