//! A case, played.
use crate::command::ended_of;
use crate::fault::CaseFault;
use crate::files::{files_of, put_files};
use crate::outside::{Settings, home_of, settings_of};
use crate::tables::{put_cuts, put_faults, put_stops};
use co_outside::HomeTwist;
use std::alloc::{AllocError, Global};

/// What a block plays.
#[derive(Clone, Copy)]
enum Task {
    /// A command.
    Command,
    /// A command over directories that fail.
    Faults,
    /// A command with a stop in a log write.
    Stops,
    /// A command over cut files.
    Cuts,
}

/// Appends lines, each with its newline.
fn put_lines(lines: &[&[u8]], into: &mut Vec<u8>) -> Result<(), AllocError> {
    for line in lines {
        into.extend_from_slice(line)?;
        into.push(b'\n')?;
    }
    Ok(())
}

/// The lines of a block up to what it comes to.
fn asked<'a, 'b>(block: &'b [&'a [u8]]) -> &'b [&'a [u8]] {
    match block.iter().position(|line| *line == b"---".as_slice()) {
        Some(at) => &block[..at],
        None => block,
    }
}

/// What is to be played, and its words.
fn task_in(line: &[u8]) -> Result<(Task, &[u8]), CaseFault> {
    match line {
        [b'$', b' ', words @ ..] => Ok((Task::Command, words)),
        [
            b'%',
            b' ',
            b'f',
            b'a',
            b'u',
            b'l',
            b't',
            b's',
            b' ',
            words @ ..,
        ] => { Ok((Task::Faults, words)) }
        [b'%', b' ', b's', b't', b'o', b'p', b's', b' ', words @ ..] => Ok((Task::Stops, words)),
        [b'%', b' ', b'c', b'u', b't', b's', b' ', words @ ..] => Ok((Task::Cuts, words)),
        _ => Err(CaseFault::Word),
    }
}

/// The input of a command.
fn input_of(alloc: Global, lines: &[&[u8]]) -> Result<Vec<u8>, AllocError> {
    let mut input = Vec::new(alloc);
    put_lines(lines, &mut input)?;
    Ok(input)
}

/// Appends the files of the directory where they are not these, which they then are.
fn put_new_files(
    alloc: Global,
    home: &mut HomeTwist,
    files: &mut Vec<u8>,
    into: &mut Vec<u8>,
) -> Result<(), CaseFault> {
    let mut left = Vec::new(alloc);
    put_files(alloc, &files_of(alloc, home)?, &mut left)?;
    if left != *files {
        into.extend_from_slice(&left)?;
        *files = left;
    }
    Ok(())
}

/// Appends what the command of these words, or a table of it, comes to on this input.
fn put_task(
    alloc: Global,
    settings: &Settings,
    home: &mut HomeTwist,
    asked: (Task, &[u8]),
    input: Vec<u8>,
    into: &mut Vec<u8>,
) -> Result<(), CaseFault> {
    let (task, words) = asked;
    match task {
        Task::Command => put_ended(alloc, settings, home, words, input, into)?,
        Task::Faults => put_faults(alloc, settings, words, &input, into)?,
        Task::Stops => put_stops(alloc, settings, words, &input, into)?,
        Task::Cuts => put_cuts(alloc, settings, home, words, &input, into)?,
    }
    Ok(())
}

/// Appends what a command put, and its status with its note.
fn put_ended(
    alloc: Global,
    settings: &Settings,
    home: &mut HomeTwist,
    words: &[u8],
    input: Vec<u8>,
    into: &mut Vec<u8>,
) -> Result<(), AllocError> {
    let ended = ended_of(alloc, settings, home, words, input)?;
    into.extend_from_slice(&ended.out)?;
    into.extend_from_slice(&ended.ending)
}

/// Plays a block, and appends it with what it comes to.
fn put_block(
    alloc: Global,
    settings: &Settings,
    home: &mut HomeTwist,
    block: &[&[u8]],
    into: &mut Vec<u8>,
) -> Result<(), CaseFault> {
    let lines = asked(block);
    let [line, input @ ..] = lines else {
        return Err(CaseFault::Word);
    };
    let task = task_in(line)?;
    put_lines(lines, into)?;
    into.extend_from_slice(b"---\n")?;
    let input = input_of(alloc, input)?;
    put_task(alloc, settings, home, task, input, into)
}

/// Plays the blocks of commands.
fn put_blocks(
    alloc: Global,
    settings: &Settings,
    blocks: &[&[&[u8]]],
    into: &mut Vec<u8>,
) -> Result<(), CaseFault> {
    let mut home = home_of(alloc, settings)?;
    let mut files = Vec::new(alloc);
    put_files(alloc, &settings.files, &mut files)?;
    for block in blocks {
        into.extend_from_slice(b"===\n")?;
        put_block(alloc, settings, &mut home, block, into)?;
        put_new_files(alloc, &mut home, &mut files, into)?;
    }
    Ok(())
}

/// Plays the blocks of a case.
fn put_case(alloc: Global, blocks: &[&[&[u8]]], into: &mut Vec<u8>) -> Result<(), CaseFault> {
    let [first, commands @ ..] = blocks else {
        return Err(CaseFault::Word);
    };
    let settings = settings_of(alloc, first)?;
    put_lines(first, into)?;
    put_blocks(alloc, &settings, commands, into)
}

/// The text without the newline at its end.
fn without_newline(text: &[u8]) -> &[u8] {
    match text {
        [before @ .., b'\n'] => before,
        _ => text,
    }
}

/// The case of a text with what its commands come to.
pub(crate) fn played(alloc: Global, text: &[u8]) -> Result<Vec<u8>, CaseFault> {
    let lines: Vec<&[u8]> = without_newline(text).split(|b| *b == b'\n').collect(alloc)?;
    let blocks: Vec<&[&[u8]]> = lines
        .split(|line| *line == b"===".as_slice())
        .collect(alloc)?;
    let mut into = Vec::new(alloc);
    put_case(alloc, &blocks, &mut into)?;
    Ok(into)
}
