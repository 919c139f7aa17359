//! Blocks of rows, and what they come to on each engine of their kind.
ghost use Rattle.std.specs.Prelude.{IsTrue};

use crate::asks::put_told_by_asks;
use crate::kept::Keeps;
use crate::played::put_load;
use crate::plays::put_told_by_play;
use crate::random::put_random_rows;
use crate::rows::{RowFault, cut, kind_of};
use crate::setups::{is_setup, voted_of};
use crate::stays::Stays;
use co_any::AnyEngine;
use co_base::Kind;
use co_engine::Engine;
use co_lock::LockEngine;
use co_mv::MvEngine;
use co_occ::OccEngine;
use co_pairs::are_free;
use co_plain_engine::PlainEngine;
use std::alloc::{AllocError, Global};

/// How rows are played.
#[derive(Clone, Copy)]
enum Mode {
    /// As one list, by the player.
    Play,
    /// One by one, with questions between them.
    Ask,
}

/// Appends a block, and what it comes to: its title, its head and its lines.
pub(crate) fn put_block(alloc: Global, block: &[&[u8]], out: &mut Vec<u8>) -> Result<(), RowFault> {
    let [title, head, lines @ ..] = block else {
        return Ok(());
    };
    put_line(title, out)?;
    put_line(head, out)?;
    let (mode, rest) = cut(head);
    let (kind, words) = cut(rest);
    let kind = kind_of(kind)?;
    match mode {
        b"random" => put_random(alloc, kind, words, lines, out),
        b"load" => put_load(alloc, kind, words, out),
        b"play" => put_played(alloc, Mode::Play, kind, lines, out),
        _ => put_played(alloc, Mode::Ask, kind, lines, out),
    }
}

/// Appends lines with what they come to at the engine of the kind, and which other engine answers otherwise.
fn put_played(
    alloc: Global,
    mode: Mode,
    kind: Kind,
    lines: &[&[u8]],
    out: &mut Vec<u8>,
) -> Result<(), RowFault> {
    let told = told_by_kind(alloc, mode, kind, lines)?;
    put_rows(lines, &told, out)?;
    put_other::<PlainEngine>(alloc, b"the plain engine", mode, kind, lines, &told, out)?;
    put_other::<AnyEngine>(
        alloc,
        b"the engine of any kind",
        mode,
        kind,
        lines,
        &told,
        out,
    )
}

/// Appends what rows come to on another engine, where that is not the same.
fn put_other<E: Engine + Keeps + Stays + Drop>(
    alloc: Global,
    name: &[u8],
    mode: Mode,
    kind: Kind,
    lines: &[&[u8]],
    by_kind: &[u8],
    out: &mut Vec<u8>,
) -> Result<(), RowFault>
    requires { E.takes kind }
{
    let other = told::<E>(alloc, mode, kind, lines)?;
    if agree(by_kind, &other) {
        return Ok(());
    }
    out.extend_from_slice(name)?;
    out.extend_from_slice(b" answers otherwise\n")?;
    Ok(out.extend_from_slice(&other)?)
}

/// Appends each seed, and whether rows that look random come to the same on the engine of the kind and on the plain one.
fn put_random(
    alloc: Global,
    kind: Kind,
    seeds: &[u8],
    setups: &[&[u8]],
    out: &mut Vec<u8>,
) -> Result<(), RowFault> {
    for seed in seeds.split(|b| *b == b' ') {
        out.extend_from_slice(seed)?;
        out.extend_from_slice(verdict_at(alloc, kind, seed, setups)?)?;
    }
    Ok(())
}

/// Whether the rows of a seed come to the same, in words.
fn verdict_at(
    alloc: Global,
    kind: Kind,
    seed: &[u8],
    setups: &[&[u8]],
) -> Result<&'static [u8], RowFault> {
    let text = random_text(alloc, kind, seed, setups)?;
    let lines = lines_of(alloc, &text)?;
    if is_same(alloc, kind, &lines)? {
        return Ok(b" => the same\n");
    }
    Ok(b" => not the same\n")
}

/// What an engine begins with, and behind it the rows of a seed.
fn random_text(
    alloc: Global,
    kind: Kind,
    seed: &[u8],
    setups: &[&[u8]],
) -> Result<Vec<u8>, AllocError> {
    let mut text = Vec::new(alloc);
    for setup in setups {
        put_line(setup, &mut text)?;
    }
    put_random_rows(kind, seed, &mut text)?;
    Ok(text)
}

/// The lines of a text.
fn lines_of(alloc: Global, text: &[u8]) -> Result<Vec<&[u8]>, AllocError> {
    let mut lines = Vec::new(alloc);
    for line in text.split(|b| *b == b'\n') {
        lines.push(line)?;
    }
    Ok(lines)
}

/// Whether rows come to the same on the engine of a kind and on the plain one.
fn is_same(alloc: Global, kind: Kind, lines: &[&[u8]]) -> Result<bool, RowFault> {
    let by_kind = told_by_kind(alloc, Mode::Play, kind, lines)?;
    let plainly = told::<PlainEngine>(alloc, Mode::Play, kind, lines)?;
    Ok(by_kind == plainly)
}

/// What rows come to on the engine of the kind, a line each.
fn told_by_kind(
    alloc: Global,
    mode: Mode,
    kind: Kind,
    lines: &[&[u8]],
) -> Result<Vec<u8>, RowFault> {
    match kind {
        Kind::Lock => told::<LockEngine>(alloc, mode, Kind::Lock, lines),
        Kind::Occ => told::<OccEngine>(alloc, mode, Kind::Occ, lines),
        Kind::Mv => told::<MvEngine>(alloc, mode, Kind::Mv, lines),
    }
}

/// Appends what rows come to on an engine, a line each. No engine begins with prepared transactions that are in conflict.
fn put_told<E: Engine + Keeps + Stays + Drop>(
    alloc: Global,
    mode: Mode,
    kind: Kind,
    lines: &[&[u8]],
    into: &mut Vec<u8>,
) -> Result<(), RowFault>
    requires { E.takes kind }
{
    let voted = voted_of(alloc, lines)?;
    let voted = voted.as_slice();
    if !are_free(voted) {
        return Ok(into.extend_from_slice(b"not free")?);
    }
    match mode {
        Mode::Play => put_told_by_play::<E>(alloc, kind, voted, lines, into),
        Mode::Ask => put_told_by_asks::<E>(alloc, kind, voted, lines, into),
    }
}

/// What rows come to on an engine, a line each.
fn told<E: Engine + Keeps + Stays + Drop>(
    alloc: Global,
    mode: Mode,
    kind: Kind,
    lines: &[&[u8]],
) -> Result<Vec<u8>, RowFault>
    requires { E.takes kind }
{
    let mut text = Vec::new(alloc);
    put_told::<E>(alloc, mode, kind, lines, &mut text)?;
    Ok(text)
}

/// Whether two engines tell the same; one that keeps nothing to be asked for tells nothing of it.
fn agree(told: &[u8], other: &[u8]) -> bool {
    let mut others = other.split(|b| *b == b'\n');
    for line in told.split(|b| *b == b'\n') {
        match others.next() {
            Some(other) if other.is_empty() || other == line => {}
            _ => return false,
        }
    }
    others.next().is_none()
}

/// Appends the lines, each row with what it comes to.
fn put_rows(lines: &[&[u8]], told: &[u8], out: &mut Vec<u8>) -> Result<(), AllocError> {
    let mut told = told.split(|b| *b == b'\n');
    for line in lines {
        if is_setup(line) {
            put_line(line, out)?;
        } else {
            put_row(line, told.next().unwrap_or(b""), out)?;
        }
    }
    Ok(())
}

/// Appends a row, and what it comes to.
fn put_row(row: &[u8], told: &[u8], out: &mut Vec<u8>) -> Result<(), AllocError> {
    out.extend_from_slice(row)?;
    out.extend_from_slice(b" => ")?;
    put_line(told, out)
}

fn put_line(line: &[u8], out: &mut Vec<u8>) -> Result<(), AllocError> {
    out.extend_from_slice(line)?;
    Ok(out.push(b'\n')?)
}
