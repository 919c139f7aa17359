//! Tables: one command over directories that fail, are cut or are stopped, each in turn.
use crate::command::{Ended, ended_of, ended_where};
use crate::fault::CaseFault;
use crate::files::{LogFile, files_of, spots_of};
use crate::outside::{Failing, Settings, home_of, home_that_fails, home_with_files};
use crate::words::{spot_of, word};
use co_outside::{FailAt, HomeCall, HomeTwist, Spot};
use std::alloc::{AllocError, Global};

/// The kinds of calls of a directory, and their words.
const CALLS: [(HomeCall, &[u8]); 5] = [
    (HomeCall::Enter, b"enter"),
    (HomeCall::ReadAll, b"read"),
    (HomeCall::WriteAt, b"write"),
    (HomeCall::SetLen, b"cut"),
    (HomeCall::Sync, b"sync"),
];

/// The choices of a crash image in a table of stops.
const IMAGES: [&[u8]; 5] = [b"old", b"new", b"x", b"xa5", b"x7f"];

/// Appends the lines of a text, with this before each.
fn put_joined(before: &[u8], text: &[u8], into: &mut Vec<u8>) -> Result<(), AllocError> {
    for line in text.split(|b| *b == b'\n') {
        if !line.is_empty() {
            into.extend_from_slice(before)?;
            into.extend_from_slice(line)?;
        }
    }
    Ok(())
}

/// Appends the records that a directory gives, or the status of that.
fn put_records(
    alloc: Global,
    settings: &Settings,
    home: &mut HomeTwist,
    into: &mut Vec<u8>,
) -> Result<(), AllocError> {
    let ended = ended_of(alloc, settings, home, b"records logs", Vec::new(alloc))?;
    put_joined(b"; ", &ended.out, into)?;
    if ended.code != 0 {
        put_joined(b"; ", &ended.ending, into)?;
    }
    Ok(())
}

/// The number of the last item of a transcript; 0 where it has none.
fn last_line(out: &[u8]) -> &[u8] {
    let text = match out {
        [before @ .., b'\n'] => before,
        _ => out,
    };
    let last = text.rsplit(|b| *b == b'\n').next();
    match last {
        Some(line) if !line.is_empty() => word(line).0,
        _ => b"0",
    }
}

/// What a table of faults is made over.
#[derive(Clone, Copy)]
struct Faults<'a> {
    settings: &'a Settings,
    /// The words of the command.
    words: &'a [u8],
    /// The input of the command.
    input: &'a [u8],
    /// What the command puts where nothing fails.
    whole: &'a [u8],
}

/// Appends what a run over a directory that fails at this call comes to, and whether it failed.
fn put_failing(
    alloc: Global,
    faults: Faults<'_>,
    failing: FailAt,
    name: &[u8],
    into: &mut Vec<u8>,
) -> Result<bool, AllocError> {
    let mut home = home_that_fails(alloc, faults.settings, failing)?;
    let input = faults.input.to_vec(alloc)?;
    let ended = ended_of(alloc, faults.settings, &mut home, faults.words, input)?;
    if ended.code != 6 {
        return Ok(false);
    }
    into.extend_from_slice(name)?;
    let FailAt { spot, number, .. } = failing;
    let at = format!(in alloc; " {spot} {number}: ")?;
    into.extend_from_slice(at.as_bytes())?;
    put_early_end(alloc, faults, &ended, &mut home, into)?;
    Ok(true)
}

/// Appends how a run ended early: its status, the last line that it told, and the records that its files then give.
fn put_early_end(
    alloc: Global,
    faults: Faults<'_>,
    ended: &Ended,
    home: &mut HomeTwist,
    into: &mut Vec<u8>,
) -> Result<(), AllocError> {
    put_joined(b"", &ended.ending, into)?;
    into.extend_from_slice(b"; line ")?;
    into.extend_from_slice(last_line(&ended.out))?;
    if !faults.whole.starts_with(&ended.out) {
        into.extend_from_slice(b" of another text")?;
    }
    put_records(alloc, faults.settings, home, into)?;
    Ok(into.push(b'\n')?)
}

/// Appends what a run comes to whose source or sink fails at a call, and whether it failed.
fn put_failing_stream(
    alloc: Global,
    faults: Faults<'_>,
    failing: Failing,
    into: &mut Vec<u8>,
) -> Result<bool, AllocError> {
    let mut home = home_of(alloc, faults.settings)?;
    let input = faults.input.to_vec(alloc)?;
    let ended = ended_where(alloc, failing, &mut home, faults.words, input)?;
    if ended.code != 4 && ended.code != 5 {
        return Ok(false);
    }
    let Failing { take, put } = failing;
    let call = format!(in alloc; "take {take} put {put}: ")?;
    into.extend_from_slice(call.as_bytes())?;
    put_early_end(alloc, faults, &ended, &mut home, into)?;
    Ok(true)
}

/// Appends what comes of it where each call of the source fails, and then where each call of the sink fails, one in each run.
fn put_failing_streams(
    alloc: Global,
    faults: Faults<'_>,
    into: &mut Vec<u8>,
) -> Result<(), AllocError> {
    for take in 1..u32::MAX {
        if !put_failing_stream(alloc, faults, Failing { take, put: 0 }, into)? {
            break;
        }
    }
    for put in 1..u32::MAX {
        if !put_failing_stream(alloc, faults, Failing { take: 0, put }, into)? {
            break;
        }
    }
    Ok(())
}

/// Appends what comes of it where the calls of this kind at this file fail, one in each run.
fn put_failing_calls(
    alloc: Global,
    faults: Faults<'_>,
    spot: Spot,
    kind: (HomeCall, &[u8]),
    into: &mut Vec<u8>,
) -> Result<(), AllocError> {
    let (call, name) = kind;
    for number in 1..u32::MAX {
        let failing = FailAt { spot, call, number };
        if !put_failing(alloc, faults, failing, name, into)? {
            return Ok(());
        }
    }
    Ok(())
}

/// Appends what comes of a command where each call that it makes of its directory, its source and its sink fails, one in each run.
pub(crate) fn put_faults(
    alloc: Global,
    settings: &Settings,
    words: &[u8],
    input: &[u8],
    into: &mut Vec<u8>,
) -> Result<(), CaseFault> {
    let mut home = home_of(alloc, settings)?;
    let Ended { out: whole, .. } = ended_of(
        alloc,
        settings,
        &mut home,
        words,
        input.to_vec(alloc)?,
    )?;
    let faults = Faults {
        settings,
        words,
        input,
        whole: &whole,
    };
    for spot in &spots_of(alloc, &files_of(alloc, &mut home)?)? {
        for kind in CALLS {
            put_failing_calls(alloc, faults, *spot, kind, into)?;
        }
    }
    Ok(put_failing_streams(alloc, faults, into)?)
}

/// The files, where the one at a spot is cut to a length.
fn with_cut(
    alloc: Global,
    files: &[LogFile],
    spot: Spot,
    length: usize,
) -> Result<Vec<LogFile>, AllocError> {
    let mut cut = Vec::new(alloc);
    for file in files {
        let most = if file.spot == spot {
            length
        } else {
            usize::MAX
        };
        let bytes = file.bytes.iter().take(most).copied().collect(alloc)?;
        cut.push(LogFile {
            spot: file.spot,
            bytes,
        })?;
    }
    Ok(cut)
}

/// What a command comes to over a copy of a directory in which this file is cut to this length.
fn cut_outcome(
    alloc: Global,
    settings: &Settings,
    files: &[LogFile],
    cut: (Spot, usize),
    asked: (&[u8], &[u8]),
) -> Result<Vec<u8>, AllocError> {
    let (spot, length) = cut;
    let (words, input) = asked;
    let mut copy = home_with_files(alloc, &with_cut(alloc, files, spot, length)?)?;
    let ended = ended_of(alloc, settings, &mut copy, words, input.to_vec(alloc)?)?;
    let mut told = Vec::new(alloc);
    put_joined(b"", &ended.ending, &mut told)?;
    put_joined(b"; ", &ended.out, &mut told)?;
    Ok(told)
}

/// The length of the file at a spot.
fn length_at(files: &[LogFile], spot: Spot) -> usize {
    match files.iter().find(|file| file.spot == spot) {
        Some(file) => file.bytes.len(),
        None => 0,
    }
}

/// Appends what a command comes to where a file has each length from 0 to its own: lengths with one outcome in one line.
pub(crate) fn put_cuts(
    alloc: Global,
    settings: &Settings,
    home: &mut HomeTwist,
    words: &[u8],
    input: &[u8],
    into: &mut Vec<u8>,
) -> Result<(), CaseFault> {
    let (name, words) = word(words);
    let spot = spot_of(alloc, name)?;
    let files = files_of(alloc, home)?;
    let whole = length_at(&files, spot);
    let mut from = 0;
    let mut outcome = cut_outcome(alloc, settings, &files, (spot, 0), (words, input))?;
    for length in 1..whole.saturating_add(1) {
        let next = cut_outcome(alloc, settings, &files, (spot, length), (words, input))?;
        if next != outcome {
            put_lengths(alloc, from, length - 1, &outcome, into)?;
            from = length;
            outcome = next;
        }
    }
    Ok(put_lengths(alloc, from, whole, &outcome, into)?)
}

/// Appends what files of these lengths come to.
fn put_lengths(
    alloc: Global,
    from: usize,
    to: usize,
    outcome: &[u8],
    into: &mut Vec<u8>,
) -> Result<(), AllocError> {
    let lengths = format!(in alloc; "{from} to {to}: ")?;
    into.extend_from_slice(lengths.as_bytes())?;
    into.extend_from_slice(outcome)?;
    Ok(into.push(b'\n')?)
}

/// The input with this stop in place of the words `K LEAVES`: the digit of a device call, and an image.
fn with_stop(alloc: Global, input: &[u8], call: u8, image: &[u8]) -> Result<Vec<u8>, AllocError> {
    let mut whole = Vec::new(alloc);
    for line in input.split_inclusive(|b| *b == b'\n') {
        match line.strip_suffix(b"K LEAVES\n".as_slice()) {
            Some(front) => {
                whole.extend_from_slice(front)?;
                whole.push(call)?;
                whole.push(b' ')?;
                whole.extend_from_slice(image)?;
                whole.push(b'\n')?;
            }
            None => whole.extend_from_slice(line)?,
        }
    }
    Ok(whole)
}

/// The items behind the one that tells that a stop is armed.
fn behind_armed(out: &[u8]) -> &[u8] {
    let word = b" reply armed\n";
    for at in 0..out.len() {
        if out[at..].starts_with(word) {
            return &out[at + word.len()..];
        }
    }
    &[]
}

/// Appends what a run comes to that has this stop.
fn put_stop(
    alloc: Global,
    settings: &Settings,
    words: &[u8],
    input: &[u8],
    stop: (u8, &[u8]),
    into: &mut Vec<u8>,
) -> Result<(), AllocError> {
    let (call, image) = stop;
    let mut home = home_of(alloc, settings)?;
    let input = with_stop(alloc, input, call, image)?;
    let ended = ended_of(alloc, settings, &mut home, words, input)?;
    into.push(call)?;
    into.push(b' ')?;
    into.extend_from_slice(image)?;
    put_joined(b"; ", behind_armed(&ended.out), into)?;
    into.extend_from_slice(b"; records")?;
    put_records(alloc, settings, &mut home, into)?;
    Ok(into.push(b'\n')?)
}

/// Appends what a command comes to for each device call in which a log write may stop, and each choice of an image.
pub(crate) fn put_stops(
    alloc: Global,
    settings: &Settings,
    words: &[u8],
    input: &[u8],
    into: &mut Vec<u8>,
) -> Result<(), AllocError> {
    for call in *b"1234" {
        for image in IMAGES {
            put_stop(alloc, settings, words, input, (call, image), into)?;
        }
    }
    Ok(())
}
