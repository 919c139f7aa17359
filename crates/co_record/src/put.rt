//! Records as they are written.
ghost use Rattle.std.specs.Prelude.{◌≡◌, ◌≤◌, ◌<◌, ◌^◌, ◌++◌, ◌∷◌, List, ℕ, length, IfSome, OnOk, OnErr};
ghost use Rattle.std.specs.List.{AllByRecursion, flat_map};
ghost use Rattle.std.specs.Int.{w16, w32, to_be_bytes};
ghost use Rattle.co_base.specs.Nodes.{IsValidNode};
ghost use Rattle.co_base.specs.Order.{IsAscending};
ghost use Rattle.co_base.specs.RowOrder.{IsInKeyOrder};
ghost use Rattle.co_base.specs.Lent.{Begins};
ghost use Rattle.co_base.specs.Limits.{most_members, most_operations};
ghost use Rattle.co_record.specs.Format.{newest};
ghost use Rattle.co_record.specs.Spelling.{spelling, IsWritable, IsSpelled, HasParts, key_text, value_text, held_text, change_text, range_text, row_text, txn_text, listed, IsKey, IsValue, IsRange, IsRow, IsChange, IsTxn};

use crate::format::NEWEST_VERSION;
use crate::lent::LentPrepare;
use crate::record::Record;
use co_base::{Bytes, Key, Node, Range, Row, Rows, Txn, Txns, Value, Writes, Written};
use std::alloc::AllocError;

/// Appends a key.
fn put_key(key: &Key, into: &mut Vec<u8>) -> Result<(), AllocError>
    ensures ok { OnOk result (into.new.items ≡ into.old.items ++ key_text key.now) }
    ensures err { OnErr result (Begins into.old.items into.new.items) }
    ensures key { IsKey key.now }
{
    let text = key.text();
    into.push(text.len() as u8)?;
    into.extend_from_slice(text)?;
    Ok(())
}

/// Appends a value.
fn put_value(value: &Value, into: &mut Vec<u8>) -> Result<(), AllocError>
    ensures ok { OnOk result (into.new.items ≡ into.old.items ++ value_text value.now) }
    ensures err { OnErr result (Begins into.old.items into.new.items) }
    ensures value { IsValue value.now }
{
    let text = value.text();
    into.extend_from_slice(&(text.len() as u16).to_be_bytes())?;
    into.extend_from_slice(text)?;
    Ok(())
}

/// Appends a tag, and the value where there is one.
fn put_held(value: &Option<Value>, into: &mut Vec<u8>) -> Result<(), AllocError>
    ensures ok { OnOk result (into.new.items ≡ into.old.items ++ held_text value.now) }
    ensures err { OnErr result (Begins into.old.items into.new.items) }
    ensures value { OnOk result (IfSome value.now IsValue) }
{
    match value {
        None => into.push(0)?,
        Some(value) => {
            into.push(1)?;
            put_value(value, into)?;
        }
    }
    Ok(())
}

/// Appends a change.
fn put_change(change: &Written, into: &mut Vec<u8>) -> Result<(), AllocError>
    ensures ok { OnOk result (into.new.items ≡ into.old.items ++ change_text change.now) }
    ensures err { OnErr result (Begins into.old.items into.new.items) }
    ensures change { OnOk result (IsChange change.now) }
{
    put_key(&change.key, into)?;
    put_held(&change.value, into)?;
    Ok(())
}

/// Appends a range.
fn put_range(range: &Range, into: &mut Vec<u8>) -> Result<(), AllocError>
    ensures ok { OnOk result (into.new.items ≡ into.old.items ++ range_text range.now) }
    ensures err { OnErr result (Begins into.old.items into.new.items) }
    ensures range { OnOk result (IsRange range.now) }
{
    let (lo, hi) = range.bounds();
    put_key(lo, into)?;
    put_key(hi, into)?;
    Ok(())
}

/// Appends a row.
fn put_row(row: &Row, into: &mut Vec<u8>) -> Result<(), AllocError>
    ensures ok { OnOk result (into.new.items ≡ into.old.items ++ row_text row.now) }
    ensures err { OnErr result (Begins into.old.items into.new.items) }
    ensures row { OnOk result (IsRow row.now) }
{
    put_key(&row.key, into)?;
    put_value(&row.value, into)?;
    Ok(())
}

/// Appends the number of a transaction.
fn put_txn(txn: &Txn, into: &mut Vec<u8>) -> Result<(), AllocError>
    ensures ok { OnOk result (into.new.items ≡ into.old.items ++ txn_text txn.now) }
    ensures err { OnErr result (Begins into.old.items into.new.items) }
    ensures txn { IsTxn txn.now }
{
    into.extend_from_slice(&txn.0.to_be_bytes())?;
    Ok(())
}

/// Appends ranges, one after another.
fn put_ranges(items: &[Range], into: &mut Vec<u8>) -> Result<(), AllocError>
    ensures ok { OnOk result (into.new.items ≡ into.old.items ++ flat_map range_text items.now) }
    ensures err { OnErr result (Begins into.old.items into.new.items) }
    ensures each { OnOk result (AllByRecursion IsRange items.now) }
{
    for item in items {
        put_range(item, into)?;
    }
    Ok(())
}

/// Appends changes, one after another.
fn put_changes(items: &[Written], into: &mut Vec<u8>) -> Result<(), AllocError>
    ensures ok { OnOk result (into.new.items ≡ into.old.items ++ flat_map change_text items.now) }
    ensures err { OnErr result (Begins into.old.items into.new.items) }
    ensures each { OnOk result (AllByRecursion IsChange items.now) }
{
    for item in items {
        put_change(item, into)?;
    }
    Ok(())
}

/// Appends rows, one after another.
fn put_rows(items: &[Row], into: &mut Vec<u8>) -> Result<(), AllocError>
    ensures ok { OnOk result (into.new.items ≡ into.old.items ++ flat_map row_text items.now) }
    ensures err { OnErr result (Begins into.old.items into.new.items) }
    ensures each { OnOk result (AllByRecursion IsRow items.now) }
{
    for item in items {
        put_row(item, into)?;
    }
    Ok(())
}

/// Appends numbers of transactions, one after another.
fn put_txns(items: &[Txn], into: &mut Vec<u8>) -> Result<(), AllocError>
    ensures ok { OnOk result (into.new.items ≡ into.old.items ++ flat_map txn_text items.now) }
    ensures err { OnErr result (Begins into.old.items into.new.items) }
    ensures each { OnOk result (AllByRecursion IsTxn items.now) }
{
    for item in items {
        put_txn(item, into)?;
    }
    Ok(())
}

/// Appends how many there are, in two bytes.
fn put_count(count: usize, into: &mut Vec<u8>) -> Result<(), AllocError>
    requires { count < 2 ^ 16 }
    ensures ok { OnOk result (into.new.items ≡ into.old.items ++ to_be_bytes w16 count) }
    ensures err { OnErr result (Begins into.old.items into.new.items) }
{
    into.extend_from_slice(&(count as u16).to_be_bytes())?;
    Ok(())
}

/// Appends how many there are, in four bytes.
fn put_long_count(count: usize, into: &mut Vec<u8>) -> Result<(), AllocError>
    requires { count < 2 ^ 32 }
    ensures ok { OnOk result (into.new.items ≡ into.old.items ++ to_be_bytes w32 count) }
    ensures err { OnErr result (Begins into.old.items into.new.items) }
{
    into.extend_from_slice(&(count as u32).to_be_bytes())?;
    Ok(())
}

/// Appends a header.
fn put_header(node: Node, generation: u32, into: &mut Vec<u8>) -> Result<(), AllocError>
    requires { IsValidNode node }
    ensures ok { OnOk result (into.new.items ≡ into.old.items ++ spelling newest (Record.Header node generation)) }
    ensures err { OnErr result (Begins into.old.items into.new.items) }
    ensures parts { HasParts (Record.Header node generation) }
{
    into.push(1)?;
    into.push(NEWEST_VERSION)?;
    into.push(node.byte())?;
    into.extend_from_slice(&generation.to_be_bytes())?;
    Ok(())
}

/// Appends the ranges that a transaction read, behind their number.
fn put_reads(reads: &[Range], into: &mut Vec<u8>) -> Result<(), AllocError>
    requires { length reads.now ≤ most_operations }
    ensures ok { OnOk result (into.new.items ≡ into.old.items ++ listed w16 range_text reads.now) }
    ensures err { OnErr result (Begins into.old.items into.new.items) }
    ensures each { OnOk result (AllByRecursion IsRange reads.now) }
{
    put_count(reads.len(), into)?;
    put_ranges(reads, into)?;
    Ok(())
}

/// Appends the writes of a transaction, behind their number.
fn put_writes(writes: &[Written], into: &mut Vec<u8>) -> Result<(), AllocError>
    requires { length writes.now ≤ most_operations }
    ensures ok { OnOk result (into.new.items ≡ into.old.items ++ listed w16 change_text writes.now) }
    ensures err { OnErr result (Begins into.old.items into.new.items) }
    ensures each { OnOk result (AllByRecursion IsChange writes.now) }
{
    put_count(writes.len(), into)?;
    put_changes(writes, into)?;
    Ok(())
}

/// Appends the kind of a prepare record and its numbers.
fn put_vote(txn: Txn, coord: u8, count: u16, into: &mut Vec<u8>) -> Result<(), AllocError>
    ensures ok { OnOk result (into.new.items ≡ into.old.items ++ (2 ∷ (txn_text txn ++ (coord ∷ to_be_bytes w16 count)))) }
    ensures err { OnErr result (Begins into.old.items into.new.items) }
    ensures txn { IsTxn txn }
{
    into.push(2)?;
    put_txn(&txn, into)?;
    into.push(coord)?;
    into.extend_from_slice(&count.to_be_bytes())?;
    Ok(())
}

/// Appends the one spelling of a prepare record whose sets are lent, as `put_record` does that of the record that it
/// stands for.
pub fn put_prepare(item: &LentPrepare<'_>, into: &mut Vec<u8>) -> Result<(), AllocError>
    requires { IsWritable item.now }
    ensures ok { OnOk result (into.new.items ≡ into.old.items ++ spelling newest item.now) }
    ensures spelled { OnOk result (IsSpelled item.now) }
    ensures err { OnErr result (Begins into.old.items into.new.items) }
{
    put_vote(item.txn, item.coord, item.count, into)?;
    put_reads(item.reads, into)?;
    put_writes(item.writes, into)?;
    Ok(())
}

/// Appends a commit.
fn put_commit(txn: Txn, members: &Bytes, into: &mut Vec<u8>) -> Result<(), AllocError>
    requires { length members.now ≤ most_members }
    ensures ok { OnOk result (into.new.items ≡ into.old.items ++ spelling newest (Record.Commit txn members.now)) }
    ensures err { OnErr result (Begins into.old.items into.new.items) }
    ensures parts { OnOk result (HasParts (Record.Commit txn members.now)) }
{
    into.push(3)?;
    put_txn(&txn, into)?;
    into.push(members.len() as u8)?;
    into.extend_from_slice(members.as_slice())?;
    Ok(())
}

/// Appends a record of this kind that has a transaction alone.
fn put_plain(kind: u8, txn: Txn, into: &mut Vec<u8>) -> Result<(), AllocError>
    ensures ok { OnOk result (into.new.items ≡ into.old.items ++ (kind ∷ txn_text txn)) }
    ensures err { OnErr result (Begins into.old.items into.new.items) }
    ensures txn { IsTxn txn }
{
    into.push(kind)?;
    put_txn(&txn, into)?;
    Ok(())
}

/// Appends the rows of a checkpoint, behind their number.
fn put_held_rows(rows: &Rows, into: &mut Vec<u8>) -> Result<(), AllocError>
    requires { length rows.now < 2 ^ 32 }
    ensures ok { OnOk result (into.new.items ≡ into.old.items ++ listed w32 row_text rows.now) }
    ensures err { OnErr result (Begins into.old.items into.new.items) }
    ensures each { OnOk result (AllByRecursion IsRow rows.now) }
    ensures order { OnOk result (IsInKeyOrder rows.now) }
{
    put_long_count(rows.len(), into)?;
    put_rows(rows.as_slice(), into)?;
    Ok(())
}

/// Appends the undos of a checkpoint, behind their number.
fn put_undos(undos: &Writes, into: &mut Vec<u8>) -> Result<(), AllocError>
    requires { length undos.now < 2 ^ 32 }
    ensures ok { OnOk result (into.new.items ≡ into.old.items ++ listed w32 change_text undos.now) }
    ensures err { OnErr result (Begins into.old.items into.new.items) }
    ensures each { OnOk result (AllByRecursion IsChange undos.now) }
{
    put_long_count(undos.len(), into)?;
    put_changes(undos.as_slice(), into)?;
    Ok(())
}

/// Appends the committed transactions of a checkpoint, behind their number.
fn put_committed(committed: &Txns, into: &mut Vec<u8>) -> Result<(), AllocError>
    requires { length committed.now < 2 ^ 32 }
    ensures ok { OnOk result (into.new.items ≡ into.old.items ++ listed w32 txn_text committed.now) }
    ensures err { OnErr result (Begins into.old.items into.new.items) }
    ensures each { OnOk result (AllByRecursion IsTxn committed.now) }
    ensures order { OnOk result (IsAscending committed.now) }
{
    put_long_count(committed.as_slice().len(), into)?;
    put_txns(committed.as_slice(), into)?;
    Ok(())
}

/// Appends the one spelling of a record in version 2. Its node is valid; a coordinator's number is 1 to 8, a count of
/// operations 1 to 1,024, and there are at most 1,024 reads, ascending by lower and then by upper bound,
/// and as many writes, ascending by key; members are 1 to 16, ascending; undos ascend by key; and each list
/// of a checkpoint has fewer than 2 ^ 32 elements. The types of the parts promise the rest. After want of
/// memory the list begins with what it held.
pub fn put_record(item: &Record, into: &mut Vec<u8>) -> Result<(), AllocError>
    requires { IsWritable item.now }
    ensures ok { OnOk result (into.new.items ≡ into.old.items ++ spelling newest item.now) }
    ensures spelled { OnOk result (IsSpelled item.now) }
    ensures err { OnErr result (Begins into.old.items into.new.items) }
{
    match item {
        Record::Header { node, generation } => put_header(*node, *generation, into)?,
        Record::Prepare {
            txn,
            coord,
            count,
            reads,
            writes,
        } => {
            let lent = LentPrepare::new(*txn, *coord, *count, reads.as_slice(), writes.as_slice());
            put_prepare(&lent, into)?;
        }
        Record::Commit { txn, members } => put_commit(*txn, members, into)?,
        Record::Abort { txn } => put_plain(4, *txn, into)?,
        Record::End { txn } => put_plain(5, *txn, into)?,
        Record::Checkpoint {
            rows,
            undos,
            committed,
        } => {
            into.push(6)?;
            put_held_rows(rows, into)?;
            put_undos(undos, into)?;
            put_committed(committed, into)?;
        }
    }
    Ok(())
}
