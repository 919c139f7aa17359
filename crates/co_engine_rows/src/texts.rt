//! Answers as text.
use co_base::{Key, Reply, Row, Value, Written};
use co_engine::{Dump, Pinned, Played, Seen};
use itoa::Buffer;
use std::alloc::AllocError;

/// Appends a number.
pub(crate) fn put_digits(number: u64, into: &mut Vec<u8>) -> Result<(), AllocError> {
    into.extend_from_slice(Buffer::new().format(number).as_bytes())
}

/// Appends a space and a number.
pub(crate) fn put_number(number: u64, into: &mut Vec<u8>) -> Result<(), AllocError> {
    into.push(b' ')?;
    put_digits(number, into)
}

/// Appends a space and a key or a value.
pub(crate) fn put_text(text: &[u8], into: &mut Vec<u8>) -> Result<(), AllocError> {
    into.push(b' ')?;
    into.extend_from_slice(text)
}

/// Appends records: the key and the value of each.
pub(crate) fn put_rows(rows: &[Row], into: &mut Vec<u8>) -> Result<(), AllocError> {
    into.extend_from_slice(b"rows")?;
    for row in rows {
        put_text(row.key.text(), into)?;
        put_text(row.value.text(), into)?;
    }
    Ok(())
}

/// Appends a value, or that there is none.
pub(crate) fn put_value(value: Option<&Value>, into: &mut Vec<u8>) -> Result<(), AllocError> {
    match value {
        Some(value) => {
            into.extend_from_slice(b"got")?;
            put_text(value.text(), into)
        }
        None => into.extend_from_slice(b"missing"),
    }
}

/// Appends a key, or that there is none.
pub(crate) fn put_key(key: Option<&Key>, into: &mut Vec<u8>) -> Result<(), AllocError> {
    match key {
        Some(key) => {
            into.extend_from_slice(b"stale")?;
            put_text(key.text(), into)
        }
        None => into.extend_from_slice(b"not stale"),
    }
}

fn put_reply(reply: &Reply, into: &mut Vec<u8>) -> Result<(), AllocError> {
    match reply {
        Reply::Got(value) => put_value(value.as_ref(), into),
        Reply::Rows(rows) => put_rows(rows.as_slice(), into),
        Reply::Done => into.extend_from_slice(b"written"),
    }
}

/// Appends an answer, or who is in the way.
pub(crate) fn put_seen(seen: &Seen, into: &mut Vec<u8>) -> Result<(), AllocError> {
    match seen {
        Seen::Answer(reply) => put_reply(reply, into),
        Seen::Blocked(t) => {
            into.extend_from_slice(b"blocked")?;
            put_number(u64::from(t.0), into)
        }
    }
}

/// Appends what a pin came to.
pub(crate) fn put_pinned(pinned: &Pinned, into: &mut Vec<u8>) -> Result<(), AllocError> {
    match pinned {
        Pinned::Kept => into.extend_from_slice(b"pinned"),
        Pinned::Taken => into.extend_from_slice(b"taken"),
        Pinned::NotMv => into.extend_from_slice(b"no versions"),
    }
}

/// Appends what a command came to.
fn put_played(played: &Played, into: &mut Vec<u8>) -> Result<(), AllocError> {
    match played {
        Played::Seen(seen) => put_seen(seen, into),
        Played::Done => into.extend_from_slice(b"done"),
        Played::Refused => into.extend_from_slice(b"refused"),
    }
}

/// Appends what commands came to, a line each.
pub(crate) fn put_all_played(answers: &[Played], into: &mut Vec<u8>) -> Result<(), AllocError> {
    for played in answers {
        put_played(played, into)?;
        into.push(b'\n')?;
    }
    Ok(())
}

/// Appends what leads back: the key of each change, and its value or that there is none.
fn put_undos(undos: &[Written], into: &mut Vec<u8>) -> Result<(), AllocError> {
    into.extend_from_slice(b"undos")?;
    for undo in undos {
        put_text(undo.key.text(), into)?;
        into.push(b' ')?;
        put_value(undo.value.as_ref(), into)?;
    }
    Ok(())
}

/// Appends what an engine dumps.
pub(crate) fn put_dumped(dump: &Dump, into: &mut Vec<u8>) -> Result<(), AllocError> {
    put_rows(dump.rows.as_slice(), into)?;
    into.push(b' ')?;
    put_undos(dump.undos.as_slice(), into)
}
