//! Shows stored transcripts: `co_draw_rows < rows`.
//!
//! Standard input has transcripts. A line `===` and words stands behind each for each time that it is shown; one without words is the last. Of each is written what
//! `co_draw` makes of the transcript with these words: its picture, its table, or the note of why there is none; and behind it a line `=== CODE` with the
//! exit code. The stored input has the transcripts of the tutorial, which `co_conform` replays, and others: of a resumed run, with letters of markup in
//! keys, of a message that was never sent, of nodes that have no column, and such as are refused.
#![tactic(auto)]

use co_outside::{SinkMemory, SinkStd, SourceMemory, SourceStd, put_all, read_all};
use co_table::show;
use itoa::Buffer;
use std::alloc::{AllocError, Global};
use std::io;
use std::process::ExitCode;

/// The most bytes of the rows.
const MOST_BYTES: u32 = 0x10_0000;

/// The words of a text.
fn words_of(alloc: Global, text: &str) -> Result<Vec<String>, AllocError> {
    let mut words = Vec::new(alloc);
    for word in text.split(' ').skip(1) {
        words.push(String::from_str(alloc, word)?)?;
    }
    Ok(words)
}

/// Appends what becomes of a transcript with these words.
fn put_shown(
    alloc: Global,
    words: &[String],
    transcript: &[u8],
    into: &mut Vec<u8>,
) -> Result<(), AllocError> {
    let mut source = SourceMemory::new(Vec::from_slice(alloc, transcript)?, Vec::new(alloc));
    let mut out = SinkMemory::new(alloc, Vec::new(alloc));
    let mut notes = SinkMemory::new(alloc, Vec::new(alloc));
    let outcome = show(alloc, words, &mut source, &mut out, &mut notes);
    into.extend_from_slice(out.bytes())?;
    into.extend_from_slice(notes.bytes())?;
    into.extend_from_slice(b"=== ")?;
    into.extend_from_slice(Buffer::new().format(outcome.code()).as_bytes())?;
    into.push(b'\n')?;
    Ok(())
}

/// What becomes of all transcripts.
fn shown_rows(alloc: Global, rows: &str) -> Result<Vec<u8>, AllocError> {
    let mut shown = Vec::new(alloc);
    let mut transcript = Vec::new(alloc);
    for line in rows.split('\n') {
        if line.starts_with("===") {
            let words = words_of(alloc, line)?;
            put_shown(alloc, &words, &transcript, &mut shown)?;
            if words.is_empty() {
                transcript.clear();
            }
        } else {
            transcript.extend_from_slice(line.as_bytes())?;
            transcript.push(b'\n')?;
        }
    }
    Ok(shown)
}

fn main(rt: HostRuntime) -> io::Result<ExitCode> {
    let alloc = rt.alloc();
    let mut source = SourceStd::new(rt.stdin());
    let mut sink = SinkStd::new(rt.stdout());
    let Ok(rows) = read_all(alloc, &mut source, MOST_BYTES) else {
        return Ok(ExitCode::FAILURE);
    };
    let Ok(rows) = String::from_utf8(rows) else {
        return Ok(ExitCode::FAILURE);
    };
    let Ok(shown) = shown_rows(alloc, &rows) else {
        return Ok(ExitCode::FAILURE);
    };
    match put_all(alloc, &mut sink, &shown) {
        Ok(()) => Ok(ExitCode::from(0)),
        Err(_) => Ok(ExitCode::FAILURE),
    }
}
