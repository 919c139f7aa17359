//! Loads on engines, and what they come to.
use crate::asks::call;
use crate::loads::{Step, load_of, rows, steps};
use crate::rows::RowFault;
use crate::stays::{Stay, Stays};
use crate::texts::{put_dumped, put_key, put_number, put_seen};
use co_base::{Key, Kind, Rows, Sequence};
use co_engine::{Dump, Engine, Seen};
use co_lock::LockEngine;
use co_mv::MvEngine;
use co_occ::OccEngine;
use std::alloc::{AllocError, Global};

/// What a step came to.
#[derive(Drop)]
enum Told {
    /// A call: what an operation came to.
    Called(Option<Seen>),
    /// The least key that was overwritten since the transaction read it.
    Stale(Option<Key>),
    /// The records as they are kept, and what leads back.
    Dumped(Dump),
    /// What a call of a reader that stays came to, as text.
    Stayed(Vec<u8>),
}

/// Makes the call of a reader that stays and gives what it came to.
fn stayed<E: Stays>(alloc: Global, engine: &mut E, stay: &Stay) -> Result<Told, AllocError> {
    let mut text = Vec::new(alloc);
    engine.put_stayed(alloc, stay, &mut text)?;
    Ok(Told::Stayed(text))
}

/// Takes a step and gives what it came to.
fn take<E: Engine + Stays>(alloc: Global, engine: &mut E, step: &Step) -> Result<Told, AllocError> {
    match step {
        Step::Call(command) => Ok(Told::Called(call(alloc, engine, command)?)),
        Step::Ballot(t) => match engine.stale(*t) {
            Some(key) => Ok(Told::Stale(Some(key.copy()?))),
            None => Ok(Told::Stale(None)),
        },
        Step::Dump => Ok(Told::Dumped(engine.dump(alloc)?)),
        Step::Stay(stay) => stayed(alloc, engine, stay),
    }
}

/// Takes steps on an engine with these records, and gives what each came to.
fn played_on<E: Engine + Stays + Drop>(
    alloc: Global,
    kind: Kind,
    rows: Rows,
    steps: &[Step],
) -> Result<Sequence<Told>, AllocError>
    requires { E.takes kind }
{
    let mut engine = E::restore(alloc, kind, rows, &[])?;
    let mut all = Sequence::new(alloc);
    for step in steps {
        all.push(take(alloc, &mut engine, step)?)?;
    }
    Ok(all)
}

/// Takes steps on the engine of a kind. It is this function alone that is measured.
fn played(
    alloc: Global,
    kind: Kind,
    rows: Rows,
    steps: &[Step],
) -> Result<Sequence<Told>, AllocError> {
    match kind {
        Kind::Lock => played_on::<LockEngine>(alloc, Kind::Lock, rows, steps),
        Kind::Occ => played_on::<OccEngine>(alloc, Kind::Occ, rows, steps),
        Kind::Mv => played_on::<MvEngine>(alloc, Kind::Mv, rows, steps),
    }
}

/// The digest of nothing.
const NOTHING: u64 = 0xcbf2_9ce4_8422_2325;

/// The digest of bytes behind those of another one, byte by byte (Fowler, Noll and Vo, FNV-1a of 64 bits).
fn digest(bytes: &[u8], before: u64) -> u64 {
    let mut hash = before;
    for byte in bytes {
        hash = (hash ^ u64::from(*byte)).wrapping_mul(0x0100_0000_01b3);
    }
    hash
}

/// Appends what a step came to.
fn put_told(told: &Told, into: &mut Vec<u8>) -> Result<(), AllocError> {
    match told {
        Told::Called(Some(seen)) => put_seen(seen, into),
        Told::Called(None) => into.extend_from_slice(b"done"),
        Told::Stale(key) => put_key(key.as_ref(), into),
        Told::Dumped(dump) => put_dumped(dump, into),
        Told::Stayed(text) => into.extend_from_slice(text),
    }
}

/// The digest of every reply, row and blocker of the steps.
fn digest_of(alloc: Global, all: &[Told]) -> Result<u64, AllocError> {
    let mut text = Vec::new(alloc);
    let mut hash = NOTHING;
    for told in all {
        text.clear();
        put_told(told, &mut text)?;
        hash = digest(&text, hash);
    }
    Ok(hash)
}

/// Appends what a load comes to on the engine of a kind: how many steps it has, and the digest.
pub(crate) fn put_load(
    alloc: Global,
    kind: Kind,
    words: &[u8],
    out: &mut Vec<u8>,
) -> Result<(), RowFault> {
    let load = load_of(words)?;
    let steps = steps(alloc, &load)?;
    let all = played(alloc, kind, rows(alloc, load.keys)?, steps.as_slice())?;
    out.extend_from_slice(b"steps")?;
    put_number(all.len() as u64, out)?;
    out.extend_from_slice(b" digest")?;
    put_number(digest_of(alloc, all.as_slice())?, out)?;
    Ok(out.push(b'\n')?)
}
