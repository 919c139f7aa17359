//! Files in memory.
ghost use Rattle.std.specs.Prelude.{◌≡◌, ◌≢◌, ◌+◌, ◌≤◌, ◌<◌, length, take, Some, vec_len, OnOk, OnErr, IsOk, position, slice_set, true};
ghost use Rattle.co_outside.specs.declared.spot.Spot.{Spot};
ghost use Rattle.co_outside.specs.Overlay.{overlaid};
ghost use Rattle.co_outside.specs.Stored.{bytes_at, clean_at, is_of, mark_place};

use crate::laying::lay;
use crate::spot::Spot;
use std::alloc::{AllocError, Global};

/// A file: its spot and its bytes.
#[derive(Drop)]
pub(crate) struct Stored {
    pub(crate) spot: Spot,
    pub(crate) bytes: Vec<u8>,
}

/// The place of the file of this spot among the files.
fn place_of(files: &[Stored], spot: Spot) -> Option<usize>
    ensures { result ≡ position (is_of spot) files.now }
{
    files
        .iter()
        .position(|f| f.spot.node == spot.node && f.spot.part == spot.part)
}

/// The bytes of the file of this spot.
pub(crate) fn bytes_of(files: &[Stored], spot: Spot) -> &[u8]
    ensures { result.now ≡ bytes_at files.now spot }
{
    match place_of(files, spot) {
        Some(place) => &files[place].bytes,
        None => &[],
    }
}

/// Lays a piece into the file of this spot.
pub(crate) fn lay_at(
    alloc: Global,
    files: &mut Vec<Stored>,
    spot: Spot,
    at: usize,
    piece: &[u8],
) -> Result<(), AllocError>
    requires { at ≤ length (bytes_at files.old.items spot) }
    ensures laid { OnOk result (bytes_at files.new.items spot ≡ overlaid (bytes_at files.old.items spot) at piece.now) }
    ensures stays { OnErr result (bytes_at files.new.items spot ≡ bytes_at files.old.items spot) }
    ensures others { (s : Spot) → s ≢ spot → bytes_at files.new.items s ≡ bytes_at files.old.items s }
    ensures memory { at + length piece.now ≤ length (bytes_at files.old.items spot) → IsOk result }
{
    match place_of(files, spot) {
        Some(place) => lay(&mut files[place].bytes, at, piece),
        None if piece.is_empty() => Ok(()),
        None => {
            let bytes = Vec::from_slice(alloc, piece)?;
            files.push(Stored { spot, bytes })?;
            Ok(())
        }
    }
}

/// Cuts the file of this spot to a length.
pub(crate) fn cut_at(files: &mut [Stored], spot: Spot, len: usize)
    ensures cut { bytes_at files.new spot ≡ take len (bytes_at files.old spot) }
    ensures others { (s : Spot) → s ≢ spot → bytes_at files.new s ≡ bytes_at files.old s }
{
    if let Some(place) = place_of(files, spot) {
        files[place].bytes.truncate(len);
    }
}

/// Puts other bytes in the place of the file of this spot.
pub(crate) fn put_at(files: &mut Vec<Stored>, spot: Spot, bytes: Vec<u8>) -> Result<(), AllocError>
    ensures put { OnOk result (bytes_at files.new.items spot ≡ bytes.items) }
    ensures stays { OnErr result (bytes_at files.new.items spot ≡ bytes_at files.old.items spot) }
    ensures others { (s : Spot) → s ≢ spot → bytes_at files.new.items s ≡ bytes_at files.old.items s }
{
    match place_of(files, spot) {
        Some(place) => files[place].bytes = bytes,
        None => files.push(Stored { spot, bytes })?,
    }
    Ok(())
}

/// Every file is clean.
pub(crate) fn all_clean() -> [bool; 512]
    ensures { (s : Spot) → clean_at result s ≡ true }
{
    [true; 512]
}

/// Marks the file of this spot as clean or not.
pub(crate) fn mark(marks: &mut [bool; 512], spot: Spot, clean: bool)
    ensures marked { spot.part < 2 → clean_at marks.new spot ≡ clean }
    ensures others { (s : Spot) → s ≢ spot → s.part < 2 → clean_at marks.new s ≡ clean_at marks.old s }
{
    if spot.part < 2 {
        marks[2 * usize::from(spot.node) + usize::from(spot.part)] = clean;
    }
}
