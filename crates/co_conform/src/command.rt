//! One command of a case.
use crate::outside::{Failing, Settings, sink_of, source_of};
use co_outside::{HomeTwist, SinkMemory, SourceMemory};
use co_top::{Status, run};
use std::alloc::{AllocError, Global};

/// The words of a line.
fn words_of(alloc: Global, line: &[u8]) -> Result<Vec<String>, AllocError> {
    let mut words = Vec::new(alloc);
    for word in line.split(|b| *b == b' ') {
        if let Ok(word) = str::from_utf8(word) {
            words.push(String::from_str(alloc, word)?)?;
        }
    }
    Ok(words)
}

/// What a command is run on.
#[derive(Drop)]
struct Outside {
    source: SourceMemory,
    out: SinkMemory,
    notes: SinkMemory,
}

/// What a command is run on.
fn outside_of(alloc: Global, failing: Failing, input: Vec<u8>) -> Result<Outside, AllocError> {
    Ok(Outside {
        source: source_of(alloc, failing, input)?,
        out: sink_of(alloc, failing)?,
        notes: SinkMemory::new(alloc, Vec::new(alloc)),
    })
}

/// Runs the command of a line.
fn status_of(
    alloc: Global,
    line: &[u8],
    outside: &mut Outside,
    home: &mut HomeTwist,
) -> Result<Status, AllocError> {
    let words = words_of(alloc, line)?;
    let Outside { source, out, notes } = outside;
    Ok(run(alloc, &words, source, out, notes, home))
}

/// How a command ended.
#[derive(Drop)]
pub(crate) struct Ended {
    /// What it put.
    pub(crate) out: Vec<u8>,
    /// The code of its status.
    pub(crate) code: u8,
    /// Its status with its note, a line.
    pub(crate) ending: Vec<u8>,
}

/// The line of a status and of its note.
fn ending_of(alloc: Global, code: u8, note: &[u8]) -> Result<Vec<u8>, AllocError> {
    let mut line = Vec::new(alloc);
    let told = format!(in alloc; "status {code}")?;
    line.extend_from_slice(told.as_bytes())?;
    if note.is_empty() {
        line.push(b'\n')?;
    } else {
        line.push(b' ')?;
        line.extend_from_slice(note)?;
    }
    Ok(line)
}

/// Runs the command of these words on this input, where these calls of the source and of the sink fail.
pub(crate) fn ended_where(
    alloc: Global,
    failing: Failing,
    home: &mut HomeTwist,
    line: &[u8],
    input: Vec<u8>,
) -> Result<Ended, AllocError> {
    let mut outside = outside_of(alloc, failing, input)?;
    let status = status_of(alloc, line, &mut outside, home)?;
    let code = status.code();
    Ok(Ended {
        out: outside.out.bytes().to_vec(alloc)?,
        code,
        ending: ending_of(alloc, code, outside.notes.bytes())?,
    })
}

/// Runs the command of these words on this input, where the calls of the case fail.
pub(crate) fn ended_of(
    alloc: Global,
    settings: &Settings,
    home: &mut HomeTwist,
    line: &[u8],
    input: Vec<u8>,
) -> Result<Ended, AllocError> {
    ended_where(alloc, settings.failing(), home, line, input)
}
