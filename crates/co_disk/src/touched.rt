//! Writes that are not stable yet, and the bytes that stood there before.
ghost use Rattle.std.specs.Prelude.{◌≡◌, ◌≤◌, ◌<◌, ◌+◌, ◌++◌, [], length, take, drop, map, IfOk, IsOk, OnOk, OnErr, true, false};
ghost use Rattle.co_base.specs.Limits.{most_log_bytes};
ghost use Rattle.co_outside.specs.Overlay.{overlaid};
ghost use Rattle.co_disk.specs.DiskModel.{any_covers, after_write};
ghost use Rattle.co_disk.specs.Kept.{entries, write_of, entry_of, state_of, IsKept};

use co_outside::lay;
use std::alloc::{AllocError, Global};

/// A write of one byte inside the length while nothing else was pending. It takes no memory.
#[derive(Clone, Copy)]
pub(crate) struct FirstByte {
    pub(crate) at: u32,
    pub(crate) byte: u8,
    pub(crate) before: u8,
}

/// A write: where it begins, its bytes, and those that stood in its range before.
#[derive(Drop)]
pub(crate) struct Touched {
    pub(crate) at: u32,
    pub(crate) piece: Vec<u8>,
    pub(crate) before: Vec<u8>,
}

impl Touched {
    /// The write of a piece over bytes that have at least `at` places.
    pub(crate) fn note(
        alloc: Global,
        bytes: &[u8],
        at: u32,
        piece: &[u8],
    ) -> Result<Touched, AllocError>
        requires { at ≤ length bytes.now }
        ensures at { IfOk result (λ t. t.at ≡ at) }
        ensures piece { IfOk result (λ t. t.piece.items ≡ piece.now) }
        ensures before { IfOk result (λ t. t.before.items ≡ take (length piece.now) (drop at bytes.now)) }
    {
        let from = at as usize;
        let inside = piece.len().min(bytes.len() - from);
        Ok(Touched {
            at,
            piece: Vec::from_slice(alloc, piece)?,
            before: Vec::from_slice(alloc, &bytes[from..from + inside])?,
        })
    }
}

/// Whether one of the writes covers the place.
pub(crate) fn is_covered(first: &Option<FirstByte>, touched: &[Touched], place: usize) -> bool
    ensures { result ≡ any_covers place (map write_of (entries first.now touched.now)) }
{
    let covered = match first {
        Some(f) => f.at as usize == place,
        None => false,
    };
    covered || any_touched(touched, place)
}

fn any_touched(touched: &[Touched], place: usize) -> bool
    ensures { result ≡ any_covers place (map write_of (map entry_of touched.now)) }
{
    for t in touched {
        let from = t.at as usize;
        if from <= place && place - from < t.piece.len() {
            return true;
        }
    }
    false
}

/// Lays the bytes from before a write back, within the first `len` bytes, and answers how many
/// there were before it.
pub(crate) fn take_back(
    bytes: &mut [u8],
    len: usize,
    at: usize,
    count: usize,
    before: &[u8],
) -> usize
    requires len { len ≤ length bytes.old }
    requires within { at + count ≤ len }
    requires no_longer { length before.now ≤ count }
    requires short { length before.now < count → at + count ≡ len }
    ensures back { take result bytes.new ≡ take at (take len bytes.old) ++ before.now ++ drop (at + count) (take len bytes.old) }
    ensures less { result ≤ len }
{
    bytes[at..at + before.len()].copy_from_slice(before);
    if before.len() < count {
        at + before.len()
    } else {
        len
    }
}

/// Lays a write over the bytes and notes it as pending. Want of memory leaves all as it was; a
/// write of one byte inside the length while nothing is pending takes none.
pub(crate) fn note(
    alloc: Global,
    bytes: &mut Vec<u8>,
    first: &mut Option<FirstByte>,
    touched: &mut Vec<Touched>,
    at: u32,
    piece: &[u8],
) -> Result<(), AllocError>
    requires kept { IsKept bytes.old.items (entries first.old touched.old.items) }
    requires at { at ≤ length bytes.old.items }
    requires end { at + length piece.now ≤ most_log_bytes }
    ensures kept { IsKept bytes.new.items (entries first.new touched.new.items) }
    ensures noted { OnOk result (state_of bytes.new.items (entries first.new touched.new.items) ≡ after_write (state_of bytes.old.items (entries first.old touched.old.items)) at piece.now) }
    ensures read { OnOk result (bytes.new.items ≡ overlaid bytes.old.items at piece.now) }
    ensures stays { OnErr result (state_of bytes.new.items (entries first.new touched.new.items) ≡ state_of bytes.old.items (entries first.old touched.old.items)) }
    ensures memory { length piece.now ≡ 1 → at < length bytes.old.items → entries first.old touched.old.items ≡ [] → IsOk result }
{
    let from = at as usize;
    if piece.len() == 1 && from < bytes.len() && touched.is_empty() && first.is_none() {
        *first = Some(FirstByte {
            at,
            byte: piece[0],
            before: bytes[from],
        });
        bytes[from] = piece[0];
        return Ok(());
    }
    let len = touched.len();
    touched.push(Touched::note(alloc, bytes, at, piece)?)?;
    match lay(bytes, from, piece) {
        Ok(()) => Ok(()),
        Err(e) => {
            touched.truncate(len);
            Err(e)
        }
    }
}
