//! Many transactions of which each meets its two neighbours alone.
use co_base::{BaseFault, Key, Op, Txn, Value};
use co_engine::grow;
use co_index::Index;
use co_pairs::Sets;
use co_state::Table;
use std::alloc::Global;

/// How many transactions the chain has.
const MANY: u32 = 65_536;

/// The key of a number.
fn key(alloc: Global, number: u32) -> Result<Key, BaseFault> {
    Key::new(
        alloc,
        &[
            b'a' + (number / 17_576 % 26) as u8,
            b'a' + (number / 676 % 26) as u8,
            b'a' + (number / 26 % 26) as u8,
            b'a' + (number % 26) as u8,
        ],
    )
}

/// A transaction does an operation.
fn does(
    alloc: Global,
    index: &mut Index,
    sets: &mut Table<Sets>,
    number: u32,
    op: &Op,
) -> Result<(), BaseFault> {
    index.note(alloc, op, Txn(number))?;
    grow(alloc, sets, Txn(number), op)?;
    Ok(())
}

/// Each transaction reads the key of its number and writes the one above. The even ones vote.
fn link(alloc: Global, index: &mut Index, sets: &mut Table<Sets>) -> Result<(), BaseFault> {
    for number in 1..MANY + 1 {
        does(alloc, index, sets, number, &Op::Read(key(alloc, number)?))?;
        let above = key(alloc, number + 1)?;
        let value = Value::new(alloc, b"v")?;
        does(alloc, index, sets, number, &Op::Write(above, value))?;
    }
    for (t, own) in sets.iter() {
        if t.0 % 2 == 0 {
            index.cast(own, *t);
        }
    }
    Ok(())
}

/// Who is in the way of a transaction of the chain: the voted one that wrote what it read, or else the one that read
/// what it wrote.
fn wanted(t: Txn) -> Option<Txn> {
    if 1 < t.0 && t.0 % 2 == 1 {
        Some(Txn(t.0 - 1))
    } else if t.0 < MANY {
        Some(Txn(t.0 + 1))
    } else {
        None
    }
}

/// Whether the index finds it for each, and nobody once all are gone.
fn is_linked(index: &mut Index, sets: &Table<Sets>) -> bool {
    for (t, own) in sets.iter() {
        if index.holder(*t, own) != wanted(*t) {
            return false;
        }
    }
    for (t, own) in sets.iter() {
        index.forget(own, *t);
    }
    for (t, own) in sets.iter() {
        if index.holder(*t, own).is_some() {
            return false;
        }
    }
    true
}

/// The same of a new chain.
fn is_chain_linked(alloc: Global) -> Result<bool, BaseFault> {
    let mut index = Index::new(alloc);
    let mut sets = Table::new(alloc);
    link(alloc, &mut index, &mut sets)?;
    Ok(is_linked(&mut index, &sets))
}

#[test]
fn a_long_chain_is_asked_in_time(rt: HostRuntime) {
    assert!(rt; is_chain_linked(rt.alloc()).unwrap_or(false));
}
