//! Reads rows of lines, items and records and writes how each is judged: `co_line_rows < rows`.
//!
//! A row is `head TEXT`, `line TEXT` or `item TEXT`; any other is a title. A head is the first line of a schedule, and lines are
//! read under the one before them. A row is written as it stands, with `ok` where its text is read and written again as it was, else with
//! the fault of the line, or the place of the item's.
//!
//! A row `sent TEXT` is the delivery of a message that was sent before a trial, and behind `made NUMBER COUNT` come the first so many
//! events of the trial of that number. Those of the stored output are of another program, written apart from this one.
//!
//! A row `record VERSION HEX` is what reading the record at the front of these bytes in a version gives: `read` and how many bytes it takes, `short`
//! where they end before it, `kind` where none begins so, or `field` and the place of the field outside its set.
//!
//! The stored input has the worked rows, and the stored output what is to come of them.
#![tactic(auto)]

mod making;
mod records;

use crate::making::{put_made, send};
use crate::records::put_record;
use co_base::Head;
use co_message::Wire;
use co_outside::{SinkStd, SourceStd, put_all, read_all};
use co_schedule::{LineFault, append_head, put_line, read_head, read_line};
use co_transcript::{ItemFault, put_item, read_item};
use std::alloc::{AllocError, Global};
use std::io;
use std::process::ExitCode;

/// The most bytes of the rows.
const MOST_BYTES: u32 = 0x10_0000;

/// The first line of a schedule under which lines are read before any other.
const FIRST_HEAD: &[u8] = b"members lock coords 1";

/// The name of a fault.
fn name_of(fault: LineFault) -> Result<&'static [u8], AllocError> {
    match fault {
        LineFault::Word => Ok(b"word"),
        LineFault::Number => Ok(b"number"),
        LineFault::Name => Ok(b"name"),
        LineFault::Extra => Ok(b"extra"),
        LineFault::Long => Ok(b"long"),
        LineFault::Head => Ok(b"head"),
        LineFault::Memory => Err(AllocError),
    }
}

/// Appends whether a text was written again as it was.
fn put_again(written: &[u8], text: &[u8], out: &mut Vec<u8>) -> Result<(), AllocError> {
    if written == text {
        out.extend_from_slice(b"ok")
    } else {
        out.extend_from_slice(b"otherwise: ")?;
        out.extend_from_slice(written)
    }
}

/// Appends how a head is judged.
fn put_head(alloc: Global, text: &[u8], out: &mut Vec<u8>) -> Result<(), AllocError> {
    let mut written = Vec::new(alloc);
    match read_head(alloc, text) {
        Ok(head) => {
            append_head(&mut written, &head)?;
            put_again(&written, text, out)
        }
        Err(fault) => out.extend_from_slice(name_of(fault)?),
    }
}

/// Appends how a line is judged under a head.
fn put_judged(
    alloc: Global,
    head: &Head,
    text: &[u8],
    out: &mut Vec<u8>,
) -> Result<(), AllocError> {
    match read_line(text, head) {
        Ok(view) => {
            let event = view.event(alloc)?;
            let mut written = Vec::new(alloc);
            if put_line(&event, &mut written).is_err() {
                return Err(AllocError);
            }
            put_again(&written, text, out)
        }
        Err(fault) => out.extend_from_slice(name_of(fault)?),
    }
}

/// Appends how a line is judged under the head of this text.
fn put_line_under(
    alloc: Global,
    head: &[u8],
    text: &[u8],
    out: &mut Vec<u8>,
) -> Result<(), AllocError> {
    match read_head(alloc, head) {
        Ok(head) => put_judged(alloc, &head, text, out),
        Err(fault) => out.extend_from_slice(name_of(fault)?),
    }
}

/// Appends how an item is judged.
fn put_item_row(alloc: Global, text: &[u8], out: &mut Vec<u8>) -> Result<(), AllocError> {
    if text.len() > MOST_BYTES as usize {
        return out.extend_from_slice(b"too long");
    }
    match read_item(alloc, text) {
        Ok(item) => {
            let mut written = Vec::new(alloc);
            put_item(&item, &mut written)?;
            put_again(written.strip_suffix(b"\n").unwrap_or(b""), text, out)
        }
        Err(ItemFault::Text { at }) => {
            let place = format!(in alloc; "at {at}")?;
            out.extend_from_slice(place.as_bytes())
        }
        Err(ItemFault::Memory) => Err(AllocError),
    }
}

/// What rows are judged by: the head before them, and the messages that were sent.
#[derive(Drop)]
struct Before<'a> {
    head: &'a [u8],
    sent: Wire,
}

/// Appends how a text is judged, by the word before it.
fn put_text<'a>(
    alloc: Global,
    before: &mut Before<'a>,
    word: &[u8],
    text: &'a [u8],
    out: &mut Vec<u8>,
) -> Result<(), AllocError> {
    match word {
        b"head" => {
            before.head = text;
            put_head(alloc, text, out)
        }
        b"line" => put_line_under(alloc, before.head, text, out),
        b"item" => put_item_row(alloc, text, out),
        b"record" => put_record(alloc, text, out),
        b"sent" => send(alloc, text, &mut before.sent),
        _ => put_made(alloc, text, &before.sent, out),
    }
}

/// Appends a row, and how it is judged where it is no title.
fn put_row<'a>(
    alloc: Global,
    before: &mut Before<'a>,
    row: &'a [u8],
    out: &mut Vec<u8>,
) -> Result<(), AllocError> {
    out.extend_from_slice(row)?;
    let end = row.iter().position(|b| *b == b' ').unwrap_or(row.len());
    let (word, rest) = row.split_at(end);
    if matches!(
        word,
        b"head" | b"line" | b"item" | b"record" | b"sent" | b"made"
    ) {
        out.extend_from_slice(b" => ")?;
        put_text(
            alloc,
            before,
            word,
            rest.strip_prefix(b" ").unwrap_or(rest),
            out,
        )?;
    }
    Ok(())
}

/// How the rows of a text are judged.
fn judged(alloc: Global, rows: &[u8]) -> Result<Vec<u8>, AllocError> {
    let mut out = Vec::new(alloc);
    let mut before = Before {
        head: FIRST_HEAD,
        sent: Wire::new(alloc),
    };
    for row in rows.split(|b| *b == b'\n') {
        if row.is_empty() {
            continue;
        }
        put_row(alloc, &mut before, row, &mut out)?;
        out.push(b'\n')?;
    }
    Ok(out)
}

fn main(rt: HostRuntime) -> io::Result<ExitCode> {
    let alloc = rt.alloc();
    let mut source = SourceStd::new(rt.stdin());
    let Ok(rows) = read_all(alloc, &mut source, MOST_BYTES) else {
        return Ok(ExitCode::FAILURE);
    };
    let Ok(judged) = judged(alloc, &rows) else {
        return Ok(ExitCode::FAILURE);
    };
    let mut out = SinkStd::new(rt.stdout());
    match put_all(alloc, &mut out, &judged) {
        Ok(()) => Ok(ExitCode::SUCCESS),
        Err(_) => Ok(ExitCode::FAILURE),
    }
}
