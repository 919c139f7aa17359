//! Loads: calls of any number on records of any number, to be counted and measured.
use crate::picks::Picks;
use crate::rows::{RowFault, cut, number_of};
use crate::stays::Stay;
use co_base::{BaseFault, Key, Range, Rows, Sequence, Txn, Value};
use co_engine::Command;
use co_state::RecordMap;
use std::alloc::Global;

/// In which order the calls of a load come, and what is asked between them.
#[derive(Clone, Copy)]
pub(crate) enum Shape {
    /// Operations of the transactions of a group in turn, and then their votes and installs.
    Turns,
    /// The same, and a ballot on each of them before they vote.
    Ballots,
    /// The same, and a dump before they vote.
    Dumps,
    /// Each transaction of a group reads the first key, and behind it another one writes that key and is installed;
    /// then they vote and are installed.
    Staggered,
    /// Each transaction of a group scans keys from its own on, or writes its own where a scan has no key. Then another one is asked
    /// to write the first and the last of them, and the holder is dropped; at last it writes the first key of the group and is installed.
    Held,
    /// A reader pins the installed records before each group, under the number of its first transaction. Then each transaction writes
    /// a key, nine of ten times one of the first that a scan reads, and is installed. At the end each reader looks at these
    /// first keys and goes, and finds nothing any more.
    Pinned,
}

/// How much is to be done.
#[derive(Clone, Copy)]
pub(crate) struct Load {
    /// In which order.
    pub(crate) shape: Shape,
    /// How many reads, scans and writes, where they come in turn.
    pub(crate) operations: u32,
    /// By how many transactions.
    pub(crate) transactions: u32,
    /// Over how many keys, each with a record.
    pub(crate) keys: u32,
    /// How many keys a scan reads.
    pub(crate) span: u32,
    /// How many transactions a group has, which are active at a time.
    pub(crate) together: u32,
}

/// A call, or a question between calls.
#[derive(Drop)]
pub(crate) enum Step {
    /// A call of an engine.
    Call(Command),
    /// Whether a read of a transaction was overwritten.
    Ballot(Txn),
    /// The records as they are kept.
    Dump,
    /// A call of a reader that stays.
    Stay(Stay),
}

/// The shape that a word names.
fn shape_of(word: &[u8]) -> Result<Shape, RowFault> {
    match word {
        b"turns" => Ok(Shape::Turns),
        b"ballots" => Ok(Shape::Ballots),
        b"dumps" => Ok(Shape::Dumps),
        b"staggered" => Ok(Shape::Staggered),
        b"held" => Ok(Shape::Held),
        b"pinned" => Ok(Shape::Pinned),
        _ => Err(RowFault::Word),
    }
}

/// The load that words name: `SHAPE OPERATIONS TRANSACTIONS KEYS SPAN TOGETHER`.
pub(crate) fn load_of(words: &[u8]) -> Result<Load, RowFault> {
    let (shape, words) = cut(words);
    let (operations, words) = cut(words);
    let (transactions, words) = cut(words);
    let (keys, words) = cut(words);
    let (span, together) = cut(words);
    Ok(Load {
        shape: shape_of(shape)?,
        operations: number_of(operations),
        transactions: number_of(transactions),
        keys: number_of(keys),
        span: number_of(span),
        together: number_of(together),
    })
}

/// The digit of a number at a place, as a letter.
fn digit(number: u32, place: u32) -> u8 {
    b'0' + (number / place.max(1) % 10) as u8
}

/// The key of a number below ten millions. Greater numbers have greater keys.
fn key(alloc: Global, number: u32) -> Result<Key, BaseFault> {
    let text = [
        b'k',
        digit(number, 1_000_000),
        digit(number, 100_000),
        digit(number, 10_000),
        digit(number, 1_000),
        digit(number, 100),
        digit(number, 10),
        digit(number, 1),
    ];
    Key::new(alloc, &text)
}

fn value(alloc: Global, number: u32) -> Result<Value, BaseFault> {
    Value::new(alloc, &[b'v', digit(number, 10), digit(number, 1)])
}

/// A read of the key of a number.
fn read(alloc: Global, txn: Txn, place: u32) -> Result<Command, BaseFault> {
    let key = key(alloc, place)?;
    Ok(Command::Read { txn, key })
}

/// A write of the key of a number.
fn write(alloc: Global, txn: Txn, place: u32, number: u32) -> Result<Command, BaseFault> {
    let key = key(alloc, place)?;
    let value = Some(value(alloc, number)?);
    Ok(Command::Write { txn, key, value })
}

/// The keys from the one of a number on that a scan reads.
fn range(alloc: Global, load: &Load, place: u32) -> Result<Range, BaseFault> {
    let last = load.keys.saturating_sub(1);
    let end = place.saturating_add(load.span.saturating_sub(1)).min(last);
    let lo = key(alloc, place)?;
    Range::new(lo, key(alloc, end)?)
}

/// A scan from the key of a number on.
fn scan(alloc: Global, load: &Load, txn: Txn, place: u32) -> Result<Command, BaseFault> {
    let range = range(alloc, load, place)?;
    Ok(Command::Scan { txn, range })
}

/// A number below a bound; 0 where the bound is 0.
fn pick(picks: &mut Picks, bound: u32) -> u32 {
    u32::try_from(picks.below(u64::from(bound))).unwrap_or(0)
}

/// Of ten operations of a transaction five are reads, one is a scan and four are writes.
fn operation(
    alloc: Global,
    picks: &mut Picks,
    load: &Load,
    txn: Txn,
) -> Result<Command, BaseFault> {
    let place = pick(picks, load.keys);
    match picks.below(10) {
        0 => scan(alloc, load, txn, place),
        1..=5 => read(alloc, txn, place),
        _ => write(alloc, txn, place, pick(picks, 100)),
    }
}

/// Sets the record of the key of a number.
fn set(alloc: Global, number: u32, records: &mut RecordMap) -> Result<(), BaseFault> {
    let key = key(alloc, number)?;
    let value = value(alloc, 0)?;
    Ok(records.set(key, value)?)
}

/// A record for each key.
pub(crate) fn rows(alloc: Global, keys: u32) -> Result<Rows, BaseFault> {
    let mut records = RecordMap::new(alloc);
    for number in 0..keys {
        set(alloc, number, &mut records)?;
    }
    Ok(records.rows(alloc)?)
}

/// A transaction votes and is installed.
fn end(t: u32, steps: &mut Sequence<Step>) -> Result<(), BaseFault> {
    steps.push(Step::Call(Command::Cast(Txn(t))))?;
    Ok(steps.push(Step::Call(Command::Install(Txn(t))))?)
}

/// Operations of the transactions of a group in turn.
fn add_operations(
    alloc: Global,
    picks: &mut Picks,
    load: &Load,
    first: u32,
    end: u32,
    steps: &mut Sequence<Step>,
) -> Result<(), BaseFault> {
    for _ in 0..load.operations / load.transactions.max(1) {
        for t in first..end {
            steps.push(Step::Call(operation(alloc, picks, load, Txn(t))?))?;
        }
    }
    Ok(())
}

/// Each transaction of a group reads the first key, and another one writes it and is installed.
fn add_staggered(
    alloc: Global,
    load: &Load,
    first: u32,
    last: u32,
    steps: &mut Sequence<Step>,
) -> Result<(), BaseFault> {
    for t in first..last {
        let writer = load.transactions.saturating_add(t);
        steps.push(Step::Call(read(alloc, Txn(t), 0)?))?;
        steps.push(Step::Call(write(alloc, Txn(writer), 0, t)?))?;
        end(writer, steps)?;
    }
    Ok(())
}

/// The last key that a transaction of a group holds. Scans of many keys stand in one another.
fn last_held(load: &Load, t: u32, last: u32) -> u32 {
    let most = last.saturating_sub(t).saturating_mul(2);
    t.saturating_add(load.span.saturating_sub(1).min(most))
}

/// A transaction of a group scans keys from its own on, or writes its own where a scan has no key.
fn hold(alloc: Global, load: &Load, t: u32, last: u32) -> Result<Command, BaseFault> {
    if load.span == 0 {
        return write(alloc, Txn(t), t, 0);
    }
    let lo = key(alloc, t)?;
    let range = Range::new(lo, key(alloc, last_held(load, t, last))?)?;
    Ok(Command::Scan { txn: Txn(t), range })
}

/// Each transaction of a group holds keys, and another one is asked to write them.
fn add_held(
    alloc: Global,
    load: &Load,
    first: u32,
    last: u32,
    steps: &mut Sequence<Step>,
) -> Result<(), BaseFault> {
    let other = load.transactions.saturating_add(first);
    for t in first..last {
        steps.push(Step::Call(hold(alloc, load, t, last)?))?;
    }
    for t in first..last {
        let greatest = last_held(load, t, last);
        steps.push(Step::Call(write(alloc, Txn(other), t, 1)?))?;
        steps.push(Step::Call(write(alloc, Txn(other), greatest, 1)?))?;
        steps.push(Step::Call(Command::Drop(Txn(t))))?;
    }
    steps.push(Step::Call(write(alloc, Txn(other), first, 1)?))?;
    end(other, steps)
}

/// A key, nine of ten times one of the first that a scan reads.
fn hot(picks: &mut Picks, load: &Load) -> u32 {
    match picks.below(10) {
        0 => pick(picks, load.keys),
        _ => pick(picks, load.span),
    }
}

/// A reader pins, and each transaction of a group writes a key and is installed.
fn add_pinned(
    alloc: Global,
    picks: &mut Picks,
    load: &Load,
    first: u32,
    last: u32,
    steps: &mut Sequence<Step>,
) -> Result<(), BaseFault> {
    steps.push(Step::Stay(Stay::Pin(first)))?;
    for t in first..last {
        let place = hot(picks, load);
        steps.push(Step::Call(write(alloc, Txn(t), place, pick(picks, 100))?))?;
        end(t, steps)?;
    }
    Ok(())
}

/// Each reader looks at the first keys, goes, and looks again.
fn add_looks(alloc: Global, load: &Load, steps: &mut Sequence<Step>) -> Result<(), BaseFault> {
    for group in 0..load.transactions.div_ceil(load.together.max(1)) {
        let id = group.saturating_mul(load.together);
        steps.push(Step::Stay(Stay::Look(id, range(alloc, load, 0)?)))?;
        steps.push(Step::Stay(Stay::Unpin(id)))?;
        steps.push(Step::Stay(Stay::Look(id, range(alloc, load, 0)?)))?;
    }
    Ok(())
}

/// What is asked before the transactions of a group vote.
fn add_questions(
    shape: Shape,
    first: u32,
    end: u32,
    steps: &mut Sequence<Step>,
) -> Result<(), BaseFault> {
    match shape {
        Shape::Ballots => {
            for t in first..end {
                steps.push(Step::Ballot(Txn(t)))?;
            }
        }
        Shape::Dumps => steps.push(Step::Dump)?,
        Shape::Turns | Shape::Staggered | Shape::Held | Shape::Pinned => {}
    }
    Ok(())
}

/// The steps of a group.
fn add_group(
    alloc: Global,
    picks: &mut Picks,
    load: &Load,
    first: u32,
    last: u32,
    steps: &mut Sequence<Step>,
) -> Result<(), BaseFault> {
    match load.shape {
        Shape::Staggered => add_staggered(alloc, load, first, last, steps)?,
        Shape::Held => return add_held(alloc, load, first, last, steps),
        Shape::Pinned => return add_pinned(alloc, picks, load, first, last, steps),
        _ => add_operations(alloc, picks, load, first, last, steps)?,
    }
    add_questions(load.shape, first, last, steps)?;
    for t in first..last {
        end(t, steps)?;
    }
    Ok(())
}

/// The steps of a load.
pub(crate) fn steps(alloc: Global, load: &Load) -> Result<Sequence<Step>, BaseFault> {
    let mut picks = Picks::new(1);
    let mut steps = Sequence::new(alloc);
    for group in 0..load.transactions.div_ceil(load.together.max(1)) {
        let first = group.saturating_mul(load.together);
        let last = first.saturating_add(load.together).min(load.transactions);
        add_group(alloc, &mut picks, load, first, last, &mut steps)?;
    }
    if matches!(load.shape, Shape::Pinned) {
        add_looks(alloc, load, &mut steps)?;
    }
    Ok(steps)
}
