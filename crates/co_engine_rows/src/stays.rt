//! Readers that stay, where an engine has them.
use crate::rows::{RowFault, cut, number_of};
use crate::texts::{put_pinned, put_rows};
use co_any::AnyEngine;
use co_base::{BaseFault, Key, Range};
use co_engine::Pinning;
use co_lock::LockEngine;
use co_mv::MvEngine;
use co_occ::OccEngine;
use co_plain_engine::PlainEngine;
use std::alloc::{AllocError, Global};

/// A call of a reader that stays.
#[derive(Drop)]
pub(crate) enum Stay {
    /// It comes, and pins the installed records.
    Pin(u32),
    /// It looks at a range.
    Look(u32, Range),
    /// It goes.
    Unpin(u32),
}

/// An engine, and what readers that stay find there.
pub(crate) trait Stays {
    /// Makes the call and appends what it came to. At an engine that is not asked for pins nothing is appended.
    fn put_stayed(
        &mut self,
        _alloc: Global,
        _stay: &Stay,
        _into: &mut Vec<u8>,
    ) -> Result<(), AllocError> {
        Ok(())
    }
}

/// The look that words spell.
fn look(alloc: Global, id: u32, words: &[u8]) -> Result<Stay, BaseFault> {
    let (lo, hi) = cut(words);
    let lo = Key::new(alloc, lo)?;
    let range = Range::new(lo, Key::new(alloc, hi)?)?;
    Ok(Stay::Look(id, range))
}

/// The call that a row spells: `pin ID`, `look ID FROM TO` or `unpin ID`.
pub(crate) fn stay_of(alloc: Global, row: &[u8]) -> Result<Stay, RowFault> {
    let (word, rest) = cut(row);
    let (id, words) = cut(rest);
    let id = number_of(id);
    match word {
        b"pin" => Ok(Stay::Pin(id)),
        b"look" => Ok(look(alloc, id, words)?),
        b"unpin" => Ok(Stay::Unpin(id)),
        _ => Err(RowFault::Word),
    }
}

/// Appends the records of a range that a pin sees, or that there is no pin.
fn put_look<E: Pinning>(
    alloc: Global,
    engine: &E,
    id: u32,
    range: &Range,
    into: &mut Vec<u8>,
) -> Result<(), AllocError> {
    match engine.look(alloc, id, range)? {
        Some(rows) => put_rows(rows.as_slice(), into),
        None => into.extend_from_slice(b"not pinned"),
    }
}

/// Makes the call and appends what it came to.
fn put_pinning<E: Pinning>(
    alloc: Global,
    engine: &mut E,
    stay: &Stay,
    into: &mut Vec<u8>,
) -> Result<(), AllocError> {
    match stay {
        Stay::Pin(id) => put_pinned(&engine.pin(alloc, *id)?, into),
        Stay::Look(id, range) => put_look(alloc, engine, *id, range, into),
        Stay::Unpin(id) => {
            engine.unpin(*id);
            into.extend_from_slice(b"done")
        }
    }
}

impl Stays for MvEngine {
    fn put_stayed(
        &mut self,
        alloc: Global,
        stay: &Stay,
        into: &mut Vec<u8>,
    ) -> Result<(), AllocError> {
        put_pinning(alloc, self, stay, into)
    }
}

impl Stays for AnyEngine {
    fn put_stayed(
        &mut self,
        alloc: Global,
        stay: &Stay,
        into: &mut Vec<u8>,
    ) -> Result<(), AllocError> {
        put_pinning(alloc, self, stay, into)
    }
}

impl Stays for LockEngine {}

impl Stays for OccEngine {}

impl Stays for PlainEngine {}
